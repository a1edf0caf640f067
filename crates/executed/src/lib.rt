//! Which statements of a process ran in a turn that races: those by which it did there what it is told for.
//!
//! 1. The flat code of a design has a node for each statement, in the order of the text. `deed` says of a node how often it does what is
//!    looked for, as a statement whose expressions name a register twice reads it twice.
//! 2. `course` goes along a turn's nodes, by its log: what each write gave stands there, in order. Where a test leads to one of two nodes,
//!    the rest of the turn is evaluated from both, and the one is taken whose rest is what the log has left. Where both are, the course isn't
//!    known from there on.
//! 3. `marks` has the nodes that did what is looked for, and `turns` the turns of a journal that may have: those of the process at the
//!    race's time, and for an update the turn that made its event.
//! 4. `statements` numbers the nodes that were marked among those of the process that do so, which are as many as the tokens of its
//!    text that do.
//!
//! What the layer above uses: `statements_run`. Each number is that of a node of the process that does what its role says (`specs/RunNumbers`). That
//! the node ran no clause says: it is looked for, for people.
#![tactic(auto)]

mod course;
mod deed;
mod held_values;
mod marks;
mod statements;
mod turns;

pub use statements::{RunStatements, StatementSearch, statements_run};
