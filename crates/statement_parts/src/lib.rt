//! What the parts of statements mean where they stand (IEEE 1364-2005, 9): targets, delays, events, and what a statement reads.
//!
//! 1. `faults` says what may be wrong with a statement, and what isn't supported yet, by its name and place.
//! 2. `place` is where a statement stands: a scope of a design; `plain` has the processes of a design without calls.
//! 3. `targets` finds the variables that are assigned to, and the events that are waited for; `delays` reads delays.
//! 4. `waits` makes the events of any change of what an expression names, and `reads` tells what a statement reads, for `@*`.
//! 5. `times` knows the functions of the time, `scales` makes ticks of delays, and `tasks` knows system tasks that do nothing.
//!
//! The layer above uses these calls; specs/Statements.antt has statements as plain trees, and specs/Parts.antt what their parts stand for.
#![tactic(auto)]

pub mod delays;
pub mod faults;
pub mod place;
pub mod plain;
pub mod reads;
pub mod scales;
pub mod targets;
pub mod tasks;
pub mod times;
pub mod waits;
