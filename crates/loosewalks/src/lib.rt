//! A walk of a search of loose runs, from where a machine stands, as long as one way stands for all.
//!
//! 1. `active` names the entry that a walk takes next: the only one that may be taken, or the first that is active. `taking` takes it.
//! 2. `way_through` has the ways that may be tried: through a phase, by what is certified, or while processes are held. `attempt` tries one on
//!    the machine itself. Where it doesn't stand for all, the machine goes back.
//! 3. `checkpoint` has what a walk goes back to: the machine as it was copied before a way was tried, from which the walk's moves since
//!    are taken again. Another copy is made behind a way that failed, or as many moves on as a copy is long.
//! 4. `phase` goes through a phase of combinational processes, up to its end.
//! 5. `certified` takes all that is active, where the notes of its steps certify that they stand for all.
//! 6. `held` does so while combinational processes are held, where the steps of the others keep off these (`cone`), and takes the events
//!    of these last. Those are held alone at first that are pending or have settled; or else those too that wait though their turns would
//!    change something, which then have to settle until the end; or else the rest without those that were in the way; or else those too
//!    for whose outputs others wait, which then have to sleep through it.
//! 7. `walk` goes on so by its `rules`, up to the next choice, to where time would pass, or for some hundred steps, in the `room` that it
//!    keeps.
//!
//! The definitions stand in `specs/`: when one way stands for all (`Sole`), which ways through events do (`EventWays`), what a walk has
//! come to (`LooseWalking`, `Checkpoints`, `Attempts`, `Certified`, `Held`), and where it lets time pass (`TimeStops`). `laws` carries
//! what is proved of them besides.
#![tactic(auto)]

mod active;
mod attempt;
mod certified;
mod checkpoint;
mod cone;
mod held;
pub mod laws;
mod phase;
mod room;
mod rules;
mod taking;
mod walk;
mod way_through;

pub use checkpoint::copy_of;
pub use room::LooseRoom;
pub use rules::{WalkRules, WalkStops};
pub use walk::walk_loosely;
