//! Two journals beside each other.
//!
//! 1. `summary` takes all entries of each journal: what the run prints, and how it ends.
//! 2. `parting` finds the first entry at which the two part, and tells it as `explain` does.
//! 3. `times` has the times that end in either run and aren't past the end of one. `following` takes both runs from one to the next,
//!    each a `followed_run`, which knows what entry gave each register its value, and keeps each register whose value differs there.
//!    `told_rows` leaves each at its first time, unless all are wanted.
//! 4. `ends` compares how both end. `lines` puts all of it into words, and `comparison` puts the parts together.
//!
//! What the layer above uses: `compare`, whose text is pinned whole by `specs/Comparisons`, and whose answer whether the two are the
//! same is what the text says.
#![tactic(auto)]

mod comparison;
mod ends;
mod fault;
mod followed_run;
mod following;
mod lines;
mod parting;
mod summary;
mod times;
mod told_rows;
mod value_difference;

pub use comparison::{ComparedJournals, Comparison, compare};
pub use fault::{CompareFault, JournalSide};
pub use value_difference::{GivenValue, ValueDifference, ValueGiver};
