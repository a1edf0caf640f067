//! The parser: from the bytes of a source to the tree of its module.
//!
//! 1. `tokens::cut` cuts the text into its longest tokens. Where the cut stops, that is the fault.
//! 2. `nesting` finds the first token, if there is one, at which the text nests too deep.
//! 3. `grammar` reads the tokens from left to right.
//! 4. `parse` joins these steps, and counts the token of a fault.
//!
//! The layer above uses `parse`: it answers the one module that the text spells by the grammar
//! (specs/Grammar.antt of `grammar`, over the cut of the text: specs/Spells.antt), and a fault where none is or where the text nests
//! too deep.
#![tactic(auto)]

mod nesting;
mod parser;

pub use parser::{ParseFault, parse};
