//! The nodes of expressions and statements that stand for the calls of functions and tasks.
//!
//! 1. `expression_nodes` makes the nodes of expressions with operands, and `copies` copies expressions.
//! 2. `nodes` makes names, members of scopes, assignments, blocks and choices; specs/Nodes.antt has what each is.
//! 3. `times` makes those that stand for the time.
//!
//! The layer above puts bodies in the place of calls with them.
#![tactic(auto)]

pub mod copies;
pub mod expression_nodes;
pub mod nodes;
pub mod times;
