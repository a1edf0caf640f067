//! Observed texts, read back: which lines stand at which time, and in what two texts part.
//!
//! 1. `sights` tells the lines that are printed from those that say what is seen when time passes: a mark with the time, and a line for each
//!    register.
//! 2. `arranging` puts the lines that are printed between two of these into one order, so that two texts in which the same lines stand at the
//!    same times, with the same values, are one.
//! 3. `reading` does so bit by bit, as the text goes on: what stands before the last time is in order for good.
//! 4. `parting` tells in what two such texts part first: a register at a time, a line, or the time that passes.
//! 5. `waves` makes waves of such texts and their ends, and `telling` puts into lines in what each parts from the first one.
//! 6. `names` finds the registers that a list of names means.
//!
//! What the layer above uses: `waves_of`, `push_waves`, `printed_lines`, `registers_named` and `all_registers`, by definitions over the lines of a
//! text.
#![tactic(auto)]

mod arranging;
pub mod laws;
mod lines;
mod names;
mod parting;
mod reading;
mod sights;
mod telling;
mod waves;

pub use arranging::{at_times, printed_lines};
pub use names::{NamedRegisters, all_registers, registers_named};
pub use parting::{Parting, parting_of};
pub use reading::TextTail;
pub use telling::{WaveNames, push_waves};
pub use waves::waves_of;
