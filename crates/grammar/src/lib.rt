//! The grammar of the profile, and the reading of tokens by it.
//!
//! 1. `module` reads tokens from left to right, by `statement` and `expression`, through a `cursor` that takes one token after
//!    another and refuses that one. No token is looked at twice, and none is copied.
//! 2. `build` makes the nodes of the tree, and `strings` the text of a string: here alone bytes of the text are copied.
//!
//! The layer above uses `parse_source`: it answers what the reading of the tokens gives (specs/Reading.antt). What is read so is what
//! the grammar spells (specs/Grammar.antt), and all that it spells is read: that is shown in proofs/, of the definitions alone.
#![tactic(auto)]

mod build;
mod cursor;
mod expression;
mod fault;
mod module;
mod statement;
mod strings;

pub use cursor::Cursor;
pub use expression::Rules;
pub use fault::GrammarFault;
pub use module::{discard, parse_source};
