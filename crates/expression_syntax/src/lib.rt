//! From tokens to expressions (IEEE 1364-2005, A.8), and what every reading of tokens stands on.
//!
//! 1. `faults` says why a text isn't read, and `refusals` which constructs this language lacks.
//! 2. `reader` goes over the tokens from the first to the last. It counts what is open and the operators of a statement, and
//!    keeps what is refused.
//! 3. `texts` gives the bytes of a token, and `spelling` the text of a string.
//! 4. `operators` tells operators, and `numbers` reads numbers.
//! 5. `reading` reads expressions by precedence (5.1.2), each by the kind of its first token.
//! 6. `nodes` makes the nodes of the tree.
//!
//! The layer above uses `parse_expression`, `parse_target` and the `Reader`. An expression that is answered spells the tokens
//! that the reader went over (specs/ExpressionGrammar.antt).
#![tactic(auto)]

pub mod faults;
mod nodes;
mod numbers;
mod operators;
pub mod reader;
pub mod reading;
pub mod refusals;
mod spelling;
pub mod texts;
