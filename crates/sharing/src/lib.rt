//! Byte strings that share their parts, each kept as a number.
//!
//! 1. A byte string is cut into chunks at places that its content decides (`cut`), so that where two strings are alike for a while,
//!    most of their chunks are the same there.
//! 2. Each chunk is kept once, and has a number (`chunks`).
//! 3. The numbers of a string's chunks, four bytes each, are a shorter byte string, which is cut again, until there is one number
//!    (`parts`). That number, and how often the string was shortened, are all that has to be kept of it.
//!
//! What the layer above uses: `shorten` answers what tells the whole string (`whole` of `specs/Parts.antt`), and goes on telling it
//! while the table grows, as `earlier_strings_stay` says. So two strings of one answer are the same.
#![tactic(auto)]

mod chunks;
mod cut;
pub mod laws;
mod parts;

pub use chunks::narrow;
pub use parts::{Parts, Shortened};
