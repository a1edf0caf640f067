//! What a text says of functions and tasks (IEEE 1364-2005, 10), and of processes (9.9).
//!
//! 1. `calls` tells which call stands first in an expression, and whether a statement has calls.
//! 2. `paths` has the names that stand for scopes in the hierarchical names of a text.
//! 3. `written` tells whether a function or a task writes each of its variables before it reads it, at each call.
//! 4. `table` has the functions and tasks of a text by their tokens, with their arguments and bodies.
//! 5. `finding` has the processes of a text by their tokens.
//!
//! The layer above uses `routines_of` and `processes_of`.
#![tactic(auto)]

pub mod calls;
pub mod finding;
mod paths;
pub mod table;
mod written;
