//! A run of a design on several workers.
//!
//! `simulate` opens a gate with a seat for each worker, and a pool with a deque for each. The first tickets are placed, and
//! the workers work until no event is left or the run is stopped. Then gate and pool are closed: the journal is lawful, its
//! lines are the outcome's, and the pool tells what became of the tickets.
#![tactic(auto)]

mod run;

pub use run::{Options, Outcome, simulate};
pub use workers::{Probe, ReplyKind, SimFault, Unobserved};
