//! States from which combinational processes settle in one way: `phase_of` tells whether the state of a machine is a phase (`IsPhase`
//! of `phases`), and of which processes, and `settle_since` whether these settle from its begin to its end. `held_of` tells which of
//! them may be held in any state while others go on: those too that wait though their turns would change something, of which `settle_since`
//! tells at the end. Whoever waits for an output of theirs is a sleeper (`sleepers_of`). `settled_of` tells which of them would change
//! nothing. `AnalyzedDesign` is a design with its combinational processes.
#![tactic(auto)]

mod analyzed_design;
mod awaited;
mod begin;
mod between;
mod consistent;
mod held;
mod member;
mod phase;
mod reached;
mod sleepers;

pub use analyzed_design::AnalyzedDesign;
pub use begin::{Begin, evaluated_processes};
pub use between::{members_settled_since, settle_since};
pub use held::{Awaited, held_of, settled_of};
pub use member::place_behind;
pub use phase::{inputs_at, is_any_outside, outputs_at, outputs_of, phase_of};
pub use sleepers::{Sleeper, sleepers_of, with_sleepers};
