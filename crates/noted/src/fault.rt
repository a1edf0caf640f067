//! Why an entry isn't taken with a note.
use regions::TakeFault;

/// Why an entry isn't taken with a note.
#[derive(Clone, Copy, PartialEq, Eq, Debug)]
pub enum NotedFault {
    /// The machine doesn't take it.
    NotTaken(TakeFault),
    /// Memory was refused to the note, and the entry has a step.
    NoteMemory,
    /// It is a change of the regions (11.3), which takes no event and has no footprint.
    NoEvent,
}
