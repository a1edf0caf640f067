//! A journal in words.
//!
//! 1. An `Explainer` of `steps` takes each entry of a journal, and tells it as data.
//! 2. `lines` puts what is told into one line, `ending` how the run stands behind the last entry, or why an entry isn't lawful, by
//!    its `cause`.
//! 3. `explain` reads a journal, takes all entries, and writes the lines of those that are asked for as they come; `wanted` says which
//!    have to do with some of the registers.
//! 4. `entry_text` puts the line of one entry behind a text.
//!
//! What the layer above uses: `explain`, which says by its answer whether the journal is lawful, and why not, and whose text is
//! pinned whole by `specs/ExplainedText`.
#![tactic(auto)]

mod cause;
mod ending;
mod entry_text;
mod failure;
mod lines;
mod phrases;
mod telling;
mod wanted;

pub use cause::cause_code;
pub use ending::push_end;
pub use entry_text::push_entry_line;
pub use failure::ExplainFault;
pub use lines::has_any;
pub use phrases::{EntryStyle, SourceNames, push_labelled, push_register};
pub use telling::{ExplainedDesign, Presentation, explain, explain_next};
