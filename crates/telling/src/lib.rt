//! What is told on standard error: lines of the program's own, each with its name before it, and texts.
//!
//! 1. `line` is a line: a text in which a number, a name, a path or nothing stands.
//! 2. `telling` writes it, up to the first write that fails.
//!
//! What the layer above uses: `tell`, `tell_text`, `tell_lines` and `show_path`, which say what the writer took, and that at most one write
//! failed. Nothing here takes memory, since want of memory is told too.
#![tactic(auto)]

mod line;
mod telling;

pub use line::{Subject, SubjectLine};
pub use telling::{show_path, tell, tell_lines, tell_text};
