//! The registers of a run over time, as a value change dump (IEEE 1364-2005, 18) that wave viewers open.
//!
//! 1. A machine of `regions` takes each entry of a journal where it stands.
//! 2. Before each advance of the time, and at the end, the value of each register is compared with the one that was told last, and
//!    is told where it differs. So of several changes of one register at one time the last is told.
//! 3. `value_change_dump` writes what was told as text: the registers with their identifier codes, their values at the start, and
//!    then time by time what changed.
//!
//! 4. `scoped_dump` does that for a whole design, with a scope for each of the design's.
//!
//! What the layer above uses: a `Wave` by `waves`, with which the values of all registers at the end of each time can be read back
//! (`specs/Waves`), and its text by `value_change_dump`, which is pinned whole by `specs/Dump`, or by `scoped_dump`, which is by
//! `specs/ScopedDump`.
#![tactic(auto)]

mod code;
mod dump;
mod fault;
mod full_names;
mod laws;
mod lines;
mod recorded;
mod recording;
mod scoped;
mod wave;

pub use dump::value_change_dump;
pub use fault::WaveFault;
pub use laws::{advances_rise, codes_differ};
pub use recording::waves;
pub use scoped::{ShownScope, scoped_dump};
pub use wave::{ValueChange, Wave};
