//! Steps of a machine, each with a note of what it has to do with other steps.
//!
//! 1. The turn of an entry is evaluated, or the register and the value of an update are looked up (`taking`).
//! 2. While the machine stands where it stood, the note is filled: with what a turn has of its own (`turns`), with the changes that the
//!    writes make (`changes`), and with the processes that these wake (`waking`). Each list is filled by a function of its own.
//! 3. The machine takes the entry, a turn without evaluating it again.
//!
//! What the layer above uses: `take_noted`, whose contract is that it is the machine's own step, and that the note is the footprint of
//! the entry (`specs/NotedSteps`); and `take_noted_beside`, whose note leaves aside some processes that are held.
#![tactic(auto)]

mod changes;
mod fault;
mod taking;
mod turns;
mod waking;

pub use fault::NotedFault;
pub use taking::{take_noted, take_noted_beside};
