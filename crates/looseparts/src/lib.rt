//! Ways by parts: what stands for all loose runs from a state to where nothing is active, where events conflict.
//!
//! 1. `acting` takes the step of an actor, a process or a class of registers, with a note of what it has to do with other steps; and it
//!    looks who waits.
//! 2. `found` is what was found of some actors: ways, and the notes of all their steps. It is put together from steps, and from parts.
//! 3. `find` runs each actor alone, with all whom it wakes. Actors whose steps aren't apart become one part, of which each is followed
//!    first, and so on.
//! 4. `repeats` leaves out ways that print the same as another and lead to a state that is alike, so that a race without an effect is one
//!    way. Each is gone again for that (`gone_way`).
//! 5. `parts` begins that with all who wait.
//! 6. Each step is taken by a copy of the machine. Copies, notes and lists of choices are used again in place of new ones (`room`), since a
//!    search tries many steps.
//!
//! What the layer above uses: `ways_by_parts`, whose contract is that its ways cover whatever leads on from where the machine stands. The
//! definitions stand in `specs/`, and `laws` carries what is proved of them besides.
#![tactic(auto)]

mod acting;
mod find;
mod found;
mod gone_way;
pub mod laws;
mod parts;
mod repeats;
mod room;

pub use parts::{CoveringWays, ways_by_parts};
pub use room::PartsRoom;
