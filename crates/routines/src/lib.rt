//! From the processes of a design to statements without calls: the bodies of functions and tasks stand in the place of their calls
//! (IEEE 1364-2005, 10).
//!
//! 1. `expansion` finds what is called, and where statements stand.
//! 2. `expressions` takes the calls out of expressions, and `bodies` puts what they stand for before a statement.
//! 3. `statements` goes through statements, `choices` and `loops` through those that choose and turn, and `events` through what they wait for.
//! 4. `times` makes ticks of delays, and variables of the time.
//! 5. `processes` makes the processes of a design.
//!
//! The layer above uses `plain_processes`; specs/Designs.antt says what its answer is.
#![tactic(auto)]

mod bodies;
mod choices;
mod events;
mod expansion;
mod expressions;
mod loops;
pub mod processes;
mod statements;
mod times;
