//! Laws of process states, so that the check asks for their proofs.

ghost use Rattle.design.specs.Equal.{StatesAreEqual};

/// Two states of processes are the same just where they are of the same process and stand for the same remainder. So
/// states that are compared by `==` or `ProcState::is_same` need no look at the code.
pub fn states_are_equal()
    ensures { StatesAreEqual }
{}
