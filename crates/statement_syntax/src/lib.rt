//! From tokens to declarations and statements (IEEE 1364-2005, A.2 and A.6).
//!
//! 1. `words` tells constructs by their first token, and knows the words of SystemVerilog.
//! 2. `expected` takes what has to come next, and stops where it doesn't.
//! 3. `declarations` reads parameters, ports, nets and variables (A.2).
//! 4. `timing` reads delays and events (A.6.5).
//! 5. `statements` reads statements, each by the form that its first token tells.
//!
//! What this language lacks is kept by the reader as a refusal, and reading goes on behind it; where the text isn't Verilog,
//! reading stops.
//!
//! The layer above uses `read_statement` and the readers of declarations.
#![tactic(auto)]

pub mod declarations;
pub mod expected;
pub mod statements;
mod timing;
pub mod words;
