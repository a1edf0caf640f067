//! Observers of states: what is seen of a run besides its lines.
//!
//! 1. `Observing` says what is compared of runs: their lines alone, or besides these the time and some registers whenever time passes.
//! 2. `push_seen` puts what its observer sees of where a machine stands behind bytes.
//! 3. `observe_journal` takes a journal by a machine of its own, and answers what the observer sees of it: its text, and its last state.
//! 4. `prints_no_mark` says of each design that it doesn't print the byte with which what is seen of registers begins, so that a text can be read
//!    back.
//!
//! `laws` carries what is proved of these observers.
#![tactic(auto)]

mod digits;
mod formats;
pub mod laws;
mod observation;
mod observing;
mod sights;

pub use formats::prints_no_mark;
pub use observation::{Observation, observe_journal};
pub use observing::Observing;
pub use sights::push_seen;
