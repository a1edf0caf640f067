//! The entries of a journal, read whole.

ghost use Rattle.std.specs.Prelude.{IfOk, IfSome};
ghost use Rattle.model.specs.Journal.{IsJournal};

use crate::fault::{CommandFault, JournalFault};
use differences::JournalSide;
use journal::{Counted, ReadFault, read_journal};
use model::entry::Entry;
use replay::BytesFault;
use std::alloc::Global;
use std::io::Read;

/// Which journal of a command is read: its only one, or one of the two that it compares.
#[derive(Clone, Copy)]
pub enum CommandJournal {
    Only,
    Side(JournalSide),
}

impl CommandJournal {
    /// A fault of the journal's text, as one of the command.
    fn fault(self, fault: ReadFault) -> CommandFault<'static> {
        match self {
            CommandJournal::Only => CommandFault::Replay(BytesFault::Read(fault)),
            CommandJournal::Side(side) => CommandFault::Journal(side, JournalFault::Read(fault)),
        }
    }
}

/// The entries of a journal that is left to read.
pub fn entries_of<R: Read + Drop>(
    alloc: Global,
    journal: R,
    of: CommandJournal,
) -> Result<Vec<Entry>, CommandFault<'static>>
    ensures { IfSome (R.remaining journal) (λ bytes. IfOk result (λ entries. IsJournal bytes entries.items)) }
{
    let mut journal = Counted::new(journal);
    match read_journal(alloc, &mut journal) {
        Ok(entries) => Ok(entries),
        Err(fault) => Err(of.fault(fault)),
    }
}
