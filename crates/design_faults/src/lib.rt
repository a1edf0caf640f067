//! What is wrong with the files of a whole design, and what is told of it.
//!
//! 1. `refused` says what may be wrong, and where: the faults of each step from texts to statements.
//! 2. `words` has what is said of each, with `wrong_words` and `later_names`; `specs/Words` pins them.
//! 3. `told` tells all faults of files, each at its place, with its line of the source; `specs/Told` says how.
//!
//! The layer above makes a `WholeRefusal` of the faults that its steps answer, and the program tells it by `told_faults`.
#![tactic(auto)]

mod later_names;
pub mod refused;
pub mod told;
mod words;
mod wrong_words;
