//! The tokens of a Verilog text. A text is cut into its longest pieces, one after another:
//!
//! 1. `spans` counts the bytes of a class at the front: of a name, of digits, of a line.
//! 2. `pieces` finds the length of the longest piece at the front: a token, a space or a comment.
//! 3. `kinds` says what a token is, by how it is spelled.
//! 4. `literal` reads numbers: a plain decimal's value, a sized literal's vector. It refuses those that are malformed or too
//!    wide.
//! 5. `cut` takes piece after piece, judges each number where it stands, and keeps the tokens: their kinds and texts.
//!
//! Who needs what a number stands for asks its `token`, which reads it again. So a token is small, and a long text has many.
//!
//! The layer above uses `cut`: it answers the one cut of the text, or the first byte where the cut stops and why.
#![tactic(auto)]

pub mod cut;
mod kinds;
mod literal;
pub mod pieces;
pub mod spans;
pub mod token;
