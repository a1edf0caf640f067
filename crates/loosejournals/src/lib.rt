//! From a loose run back to the journals of the event queue.
//!
//! 1. `classes_of` gives each register a class, so that what one process assigns by nonblocking assignments is of one class.
//! 2. `lead` leads a run by the transitions of a loose run (`LeadScope`), and answers it: its lawful journal, and the machine behind that.
//! 3. `lawful_journal` leads one so, and answers the journal where the run has the same text and the same end; `seen_journal` answers
//!    what an observer sees of it besides.
#![tactic(auto)]

mod class_counts;
mod classes;
mod journal;
mod lead_scope;
mod led_record;
mod led_run;
mod observed;
mod targets;

pub use classes::classes_of;
pub use journal::{LooseRun, lawful_journal};
pub use lead_scope::LeadScope;
pub use led_run::{LedRun, lead};
pub use observed::{SeenJournal, seen_journal};
