//! A journal, led through a gate of its own.
//!
//! 1. `drive` opens a gate with one seat, and holds the ticket of each active evaluation (`run`).
//! 2. For a turn it takes the ticket of the event, evaluates it without the lock, and commits it; a turn that was refused
//!    three times is evaluated under the lock. For an update it asks the gate for one. For a change of the regions it asks
//!    the gate for one too, but only while it holds no ticket, so that it never waits for itself (`driver`).
//! 3. What the gate does must be the entry; else the entry isn't lawful.
//! 4. Then the gate is closed: its journal is the one that it was led along, with its lines.
//!
//! So each lawful journal is one that a gate may have.
#![tactic(auto)]

mod driver;
mod fault;
mod run;

pub use fault::DriveFault;
pub use run::drive;
