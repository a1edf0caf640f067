//! The entries of a journal, each told as data by what comes of its step.
//!
//! 1. An `Explainer` is a machine of `regions` with the version of each register. Before it takes an entry it notes who does it, and
//!    what its turn reads, assigns and changes (`noting`, `cells`).
//! 2. Then it takes the entry, a turn with the log that was noted, so that it is evaluated once. It tells the time and the lines with
//!    what was noted (`EntryAccount`).
//!
//! What the layer above uses: `Explainer::step`, whose contract is that what is told of an entry is what comes of its step behind
//! the entries before it (`specs/Accounts`).
#![tactic(auto)]

mod cells;
mod entry_account;
mod explainer;
mod fault;
mod noting;

pub use entry_account::{Changed, EntryAccount, EntryActor, Reading};
pub use explainer::Explainer;
pub use fault::StepFault;
