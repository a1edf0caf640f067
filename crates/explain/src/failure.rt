//! Why a journal isn't explained.

use journal::ReadFault;
use replay::ReplayFault;

/// Why a journal isn't explained to its end.
#[derive(Drop)]
pub enum ExplainFault {
    /// No journal was read.
    Read(ReadFault),
    /// The journal isn't lawful, or can't be taken to its end.
    Replay(ReplayFault),
    /// A write failed or took no byte.
    CannotWrite,
    /// Memory was refused to what is told.
    Memory,
}
