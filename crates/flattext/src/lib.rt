//! The text of a module, as Verilog that any simulator takes (IEEE 1364-2005): what `flatten` prints.
//!
//! 1. `names` says which names stand as they are, and escapes the others (3.7.1).
//! 2. `phrases` has the parts of lines: numbers, spaces, literals and strings.
//! 3. `operators` has the signs of operators, and how strongly they bind.
//! 4. `format` has formats by their pieces, and the arguments that they show.
//! 5. `expression`, `statement` and `module` go through a tree, and put the text of each node behind that of those before it.
//!
//! The layer above uses `push_module`, whose text is pinned whole by `specs/Modules`: one declaration or statement a line, set in by
//! two spaces for each block around it, with parentheses only where the grammar needs them.
#![tactic(auto)]

mod expression;
mod format;
mod module;
mod names;
mod operators;
mod phrases;
mod statement;

pub use module::{push_module, push_placed_module};
