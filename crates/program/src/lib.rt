//! The program `vsimtx` as a library: it runs one Verilog module, or a whole design, on several workers or by a seed, replays the journal of a run,
//! and prints the lines; or it searches all lawful orders of the module and tells their texts, or their waves; or it writes the registers of a journal
//! over time as a value change dump, or tells it in words, or compares it with another.
//!
//! 1. `subject` is the design on which a command works. `running` is a run, `replaying` a replay, `checking` a check, `waving` a value change dump, `explaining` a journal in words,
//!    `differing` two journals beside each other, `flattening` the flat module of a whole design, `searching` a search for races, and `observed` one for waves. Of the first search `racing` tells the
//!    races, `known` has texts that are known then, and `sampling` those of random orders; `texts` is what either search found, and `finding` says what it
//!    has come to. `progress_probe` looks on at a run on workers, and `reading` reads a journal whole.
//! 2. `ending` is how a command ended: it has the status, and tells what is to be told, which for a name that no register has wants the option
//!    that gave it (`register_option`).
//! 3. `fault` has the faults with their statuses, and `lines` their lines on standard error.
//! 4. `program` is the whole program as a function, `command`, which `main` calls.
#![tactic(auto)]

mod checking;
mod differing;
mod early_journals;
mod ending;
mod explaining;
mod fault;
mod finding;
mod flattening;
mod known;
mod lines;
mod observed;
mod program;
mod progress_probe;
mod racing;
mod reading;
mod register_option;
mod replaying;
mod run_ends;
mod running;
mod sampling;
mod searching;
mod stops;
mod subject;
mod texts;
mod waving;

pub use program::{command, without_words};
