//! What is wrong with calls of constant functions.

ghost use Rattle.std.specs.Prelude.{◌≡◌, Err};
ghost use Rattle.design_scopes.specs.declared.faults.DesignFault.TheVariants as fault;
ghost use Rattle.design_scopes.specs.declared.faults.Wrong.TheVariants as found;

use design_scopes::faults::{ConstantCallWrong, DesignMade, Wrong, refuse};

/// That something is wrong with a call, at a token.
pub(crate) fn refuse_call<T>(token: usize, wrong: ConstantCallWrong) -> DesignMade<T>
    ensures { result ≡ Err (fault.At token (found.ConstantCall wrong)) }
{
    refuse(token, Wrong::ConstantCall(wrong))
}
