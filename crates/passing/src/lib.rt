//! Whether processes sleep while combinational processes are held for whose outputs they wait.
//!
//! 1. `moves` has the moves of registers that are tracked: from which value to which each may pass. Any other may pass from any to any.
//! 2. `find` says which registers are tracked, those for which sleepers wait and those from which their values come, and has the moves
//!    that steps of others make.
//! 3. `outputs` tests that each output that is tracked passes through what it may be given: `combinations` evaluates the turn of its
//!    process on whatever values its inputs may pass to, which `choices` has, and `writes` tests the changes that it makes.
//! 4. `sleepers` tests that no move is one for which a sleeper waits. `sleep` adds what was missing among the moves, and tests again.
//!
//! The definitions stand in `specs/`, and those of what may pass in `heldways`.
#![tactic(auto)]

mod choices;
mod combinations;
mod find;
mod moves;
mod outputs;
mod sleep;
mod sleepers;
mod writes;

pub use outputs::HeldOutputs;
pub use sleep::sleep_through;
