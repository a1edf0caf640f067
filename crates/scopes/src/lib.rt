//! The scopes of a design, and what names stand for (IEEE 1364-2005, 12.5 to 12.7).
//!
//! 1. `scope` is a scope: the instance of a module, a block, a function or a task, with the names that it declares.
//! 2. `names` spells the full name of what a scope declares: `tb.dut.state`.
//! 3. `tree` holds the scopes of a design, each behind the one around it, and opens more.
//! 4. `finding` tells what a name stands for where it is used.
//!
//! The layer above opens scopes and declares names; specs/Names.antt says what a name stands for.
#![tactic(auto)]

pub mod fault;
pub mod finding;
pub mod names;
pub mod scope;
#[cfg(test)]
mod tests;
pub mod tree;
