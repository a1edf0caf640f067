//! Turns: all that a process does from one wait to the next (9.2 to 9.9, 11.4).
//!
//! 1. `fill_turn` begins at the place that a `ProcState` says, and takes one node of the design's code after another until
//!    one of them ends the turn. Each is a counted step, and there are at most 65,536 of them.
//! 2. Expressions are steps on a stack of vectors. A register that the turn wrote has the value written; any other is
//!    asked of a `RegReader` at its first use, and recorded.
//! 3. A `TurnLog` says what was read, written and printed, which `$strobe` statements were met, what is left of the process,
//!    and what that waits for. It has each write, and for each register the turn change of its writes, which is kept as the turn runs.
//! 4. A turn is filled into a log that its caller keeps, in the room that earlier turns left, so that a short turn takes no
//!    memory once the log has grown, and no log is moved. `run_turn` makes a log for one turn.
//! 5. `strobe_lines` makes the lines of `$strobe` statements once their time comes, by the same steps.
//!
//! What the layer above uses: on every store that has the values recorded, the log is the turn of the definitions, and a
//! turn that is too long has none (`specs/TurnAnswers.antt`). So values of registers that weren't read count for nothing.
#![tactic(auto)]

mod display;
mod evaluate;
mod log;
mod machine;
mod memory;
mod operate;
mod owned;
mod run;
mod running_turn;
mod stack;
mod statements;
mod strobes;
mod table;
mod writes;

pub use log::{FillFault, Nba, Suspend, TurnChange, TurnFault, TurnLog};
pub use memory::{RegReader, Seen};
pub use owned::run_turn;
pub use run::fill_turn;
pub use strobes::strobe_lines;
