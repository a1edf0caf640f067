//! What is wrong with a source, for people.
//!
//! 1. `wanted` finds the token that a fault of a module tells, among the tokens with their bytes of `locations`.
//! 2. `lexemes` takes any text as words, numbers, strings and signs; `words` is the table of what the language lacks, `reserved` has
//!    the words that it has, and `notes` goes once over a source with them and with what stands `before` and `behind` each lexeme.
//! 3. `kinds` lists the notes, each kind once or each note.
//! 4. `diagnose` joins the fault of a source with its location and the notes, and `render` writes them as text.
//!
//! What the layer above uses: `diagnose` answers no fault only where the source has a design, and else the fault of `read_design`.
#![tactic(auto)]

mod before;
mod behind;
pub mod diagnose;
mod kinds;
mod lexemes;
mod notes;
pub mod render;
mod reserved;
mod wanted;
mod words;

pub use kinds::ListedNote;
pub use notes::Note;
pub use words::Advice;
