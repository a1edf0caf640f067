//! What entries do, without the numbers of events.

use model::entry::Entry;

/// What an entry does, without the number of an event.
#[derive(Clone, Copy, PartialEq, Eq)]
pub enum LooseTransition {
    /// The turn of a process.
    Process(u32),
    /// The first active update of a class of registers.
    FirstOf(u32),
    /// A change of the regions, which the entry names.
    Change(Entry),
}
