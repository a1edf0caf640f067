//! The races that part texts, from where the journals of their runs part.
//!
//! 1. Where runs were found that show different texts, the race that parts two of them is looked for from where their journals part (`causes`).
//! 2. The one run is followed behind first entries of the other (`hybrid`, and `track` for the way), as long as it shows the same, until an
//!    entry is found that makes the difference (`parting`).
//! 3. That entry and its neighbour are the pair, if the two runs have them in both orders, as the crate `conflicts` finds it.
//!
//! What the layer above uses: the contract of `Causes::explain`. Both runs of each race that parts texts are lawful and in time, and it is
//! a race as those that the crate `races` finds. None is told twice, and where no pair is found for a text, or a bound is met, that is
//! told.
#![tactic(auto)]

mod causes;
mod hybrid;
mod parting;
mod parting_race;
mod track;

pub use causes::{CauseSearch, Causes, numbered_count};
pub use parting_race::PartingRace;
