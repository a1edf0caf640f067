//! The option of a command line that names registers.

ghost use Rattle.std.specs.Prelude.{◌≡◌};
ghost use Rattle.program.specs.RegisterOptions.{naming_option};

use arguments::Request;

/// By which option registers are named.
#[derive(Clone, Copy)]
pub enum RegisterOption {
    /// `--observe` of `races`.
    Observe,
    /// `--registers` of `explain`.
    Registers,
}

impl RegisterOption {
    /// The option of a request, where it names registers: no other commands than `races` and `explain` do.
    pub fn of(request: &Request<'_>) -> RegisterOption
        ensures { result ≡ naming_option request.now }
    {
        match request {
            Request::Explain(_) => RegisterOption::Registers,
            _ => RegisterOption::Observe,
        }
    }
}
