//! The lexemes of whole designs (IEEE 1364-2005, 2 and 3): how the text of a file is cut into its longest pieces.
//!
//! 1. `token` has the types: files, places, tokens and their kinds.
//! 2. `spans` counts the bytes of a class at the front of a text.
//! 3. `pieces` finds the length of the longest piece at the front: a token, a directive's name, a space or a comment.
//! 4. `words` has the texts of reserved words and of operators, and `kinds` says what a piece is, by how it is spelled.
//! 5. `cut` takes piece after piece, and keeps those that aren't space or comments, each with its place.
//!
//! The layer above uses `cut`: it answers the one cut of the text, or the first byte where the cut stops and why.
#![tactic(auto)]

pub mod cut;
mod kinds;
mod pieces;
pub mod spans;
pub mod token;
pub mod words;
