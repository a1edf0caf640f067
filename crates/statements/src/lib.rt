//! Where the statements of processes stand in a source, for people who are told what a process does.
//!
//! 1. `context` keeps of the tokens before one what has to be known of them: how many processes begin there, and what they make of a name.
//! 2. `part` says what a token does in its statement: whether it is written, assigned, read or waited for, prints, strobes or finishes the run.
//! 3. `statement_token` has all tokens of a source that do something, in their order, by their processes.
//! 4. `lines` answers between which lines a process does something, and at which bytes.
//!
//! What the layer above uses: `statement_tokens`, `lines_of`, `sought_bytes` and `line_of_byte`, whose answers `specs/StatementTokens` and `specs/StatementLines` pin.
#![tactic(auto)]

mod context;
mod lines;
mod part;
mod statement_token;

pub use lines::{LineRange, SoughtPart, line_of_byte, lines_of, sought_bytes};
pub use part::StatementPart;
pub use statement_token::{StatementToken, statement_tokens};
