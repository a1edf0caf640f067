//! The values of constant functions' calls (10.4.5).

ghost use Rattle.std.specs.Prelude.{◌≡◌};
ghost use Rattle.sizing.specs.Names.{object_width, variable_width};

use sizing::environment::Object;

/// The value of a constant function's call, by the token at which the call stands. It has as many digits as the function's range says.
#[derive(Drop)]
pub struct CallValue {
    pub token: usize,
    pub object: Object,
    pub ghost fits: { object_width object ≡ variable_width object.range },
}
