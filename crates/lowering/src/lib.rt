//! From the statements of a design to those of the core (IEEE 1364-2005, 9, 17.1).
//!
//! 1. `hidden` has the variables that no text declares: those that hold the selector of a `case`, and the count of a `repeat`.
//! 2. `choices` tells the size and the sign at which a `case` compares, and makes counts.
//! 3. `prints` reads the calls of the tasks that print, with their formats.
//! 4. `statements` goes through a statement: what the core lacks is made by `statement_forms` of what it has, and the rest by `nodes`.
//! 5. `flat` makes the flat module of a design: all its variables, and all its processes.
//!
//! The layer above uses `flat_module`; specs/Lowering.antt says what a statement stands for, and specs/Flat.antt what the module is.
#![tactic(auto)]

pub mod choices;
pub mod flat;
pub mod hidden;
mod nodes;
pub mod prints;
pub mod statements;
