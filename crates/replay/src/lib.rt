//! The replayer of a journal, on one thread.
//!
//! 1. The start (11.3): every register is all x, and each process has its first event.
//! 2. A machine of `regions` takes each entry where it stands: a turn that the rules permit is evaluated on the values and at
//!    the time of the state; then the entry is applied, which appends its lines.
//! 3. The first entry that the rules don't permit, or whose turn isn't short, ends the replay with a fault.
//!
//! `replay_bytes` does this from the bytes of a source and of a journal, and writes the lines once all are known. Both have a form
//! that tells how many entries are taken.
//!
//! The layer above uses the contract of `replay`. An `Ok` comes where the journal is lawful, with the state and the
//! lines after it; each `Err` but those for want of memory and for too many entries says that it isn't lawful.
#![tactic(auto)]

mod bytes;
mod fault;
mod laws;
mod replayed;
mod starting;

pub use bytes::{replay_bytes, replay_bytes_telling, replay_on_design};
pub use fault::{BytesFault, Cause, ReplayFault};
pub use laws::faults_are_just;
pub use replayed::{Replayed, replay, replay_telling, take_next};
pub use starting::{NoStart, start};
