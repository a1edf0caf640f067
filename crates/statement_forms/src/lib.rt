//! Statements of whole designs, as the core has them (IEEE 1364-2005, 9): those that it lacks are made of those that it has.
//!
//! 1. `build` makes the core's nodes.
//! 2. `loops` makes `for`, `repeat`, `forever` and `wait` of `while`.
//! 3. `choices` makes `else if` and `case` of `if`.
//! 4. `events` makes a named event's happening of an assignment.
//!
//! What each stands for is its definition in specs/Forms.antt. The layer above lowers the parts, and chooses hidden variables.
#![tactic(auto)]

mod build;
pub mod choices;
pub mod events;
pub mod loops;
