//! What names mean at a place of a design (12.5, 12.6).

ghost use Rattle.std.specs.Prelude.{◌≡◌, ◌<◌, MatchOption, option_map};
ghost use Rattle.logic4.specs.Vector.{greatest_width};
ghost use Rattle.sizing.specs.Names.{variable_width, object_width};

use logic4::bits::Bits;
use logic4::size::Size;
use ranges::range::VectorRange;

/// What an object is worth: the digits of a constant, or those of a variable or a net, by its name in the flat module.
#[derive(Drop)]
pub enum ObjectValue {
    Constant(Bits),
    Variable(String),
}

/// What a name means. A variable is as wide as its range, and one digit wide without one. A constant is as wide as its digits;
/// those of one without a range can't be selected.
#[derive(Drop)]
pub struct Object {
    pub signed: bool,
    pub range: Option<VectorRange>,
    pub value: ObjectValue,
}

/// What is found at a place of a design.
pub trait Environment {
    ghost use Rattle.sizing.specs.Names.{Names};

    /// What names mean here.
    ghost means: { Self → Names };

    /// The number of the scope of a name, with an index for one of several copies. Where no scope is told in which it stands it is
    /// looked up from this place (12.6).
    fn scope(&self, within: Option<usize>, name: &[u8], index: Option<i64>) -> Option<usize>
        ensures { result ≡ (means self.now).scope within name.now index };

    /// The object of a name, in a scope, or from this place.
    fn object(&self, within: Option<usize>, name: &[u8]) -> Option<&Object>
        ensures { option_map (λ o. o.now) result ≡ (means self.now).object within name.now };

    /// What holds the value of the function's call at a token.
    fn call(&self, token: usize) -> Option<&Object>
        ensures { option_map (λ o. o.now) result ≡ (means self.now).call token };
}

// How wide a variable is.
fn width_of(range: Option<VectorRange>) -> Option<Size>
    ensures { MatchOption result (greatest_width < variable_width range) (λ w. w ≡ variable_width range) }
{
    match range {
        Some(range) => range.width(),
        None => Some(Size::new(1)),
    }
}

impl Object {
    /// How wide the object is, `None` where it is wider than `MAX_WIDTH`.
    pub fn width(&self) -> Option<Size>
        ensures { MatchOption result (greatest_width < object_width self.now) (λ w. w ≡ object_width self.now) }
    {
        match &self.value {
            ObjectValue::Constant(digits) => Some(Size::new(digits.width())),
            ObjectValue::Variable(_) => width_of(self.range),
        }
    }
}
