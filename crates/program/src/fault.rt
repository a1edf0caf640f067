//! What can go wrong in a command, with its exit status.

ghost use Rattle.std.specs.Prelude.{◌≡◌};
ghost use Rattle.program.specs.Program.{status_of, IsEnded, stop_of, stop_for, stop_status, source_status_of, simulate_status_of, read_status_of, cause_status_of, journal_status_of, replay_status_of};

use differences::JournalSide;
use elaborate::ElabFault;
use files::FileFault;
use frontend::SourceFault;
use journal::ReadFault;
use model::end::{End, Why};
use replay::{BytesFault, Cause, ReplayFault};
use simulate::SimFault;
use std::alloc::AllocError;
use vparse::ParseFault;

/// Why a journal isn't taken: it isn't read, or isn't replayed to its end.
#[derive(Clone, Copy)]
pub enum JournalFault {
    Read(ReadFault),
    Replay(ReplayFault),
}

/// A fault of files or output, want of memory, a fault of a layer, or of one of two journals.
#[derive(Drop)]
pub enum CommandFault<'a> {
    Files(FileFault<'a>),
    Memory,
    Source(SourceFault),
    Simulate(SimFault),
    Replay(BytesFault),
    Journal(JournalSide, JournalFault),
}

impl<'a> From<FileFault<'a>> for CommandFault<'a> {
    ghost use Rattle.program.specs.declared.fault.CommandFault.TheVariants.{Files};

    ghost from_gives = { λ files fault. fault ≡ Files files };

    fn from(files: FileFault<'a>) -> Self {
        CommandFault::Files(files)
    }
}

impl From<AllocError> for CommandFault<'_> {
    ghost use Rattle.program.specs.declared.fault.CommandFault.TheVariants.{Memory};

    ghost from_gives = { λ _ fault. fault ≡ Memory };

    fn from(_refused: AllocError) -> Self {
        CommandFault::Memory
    }
}

impl From<SourceFault> for CommandFault<'_> {
    ghost use Rattle.program.specs.declared.fault.CommandFault.TheVariants.{Source};

    ghost from_gives = { λ found fault. fault ≡ Source found };

    fn from(found: SourceFault) -> Self {
        CommandFault::Source(found)
    }
}

/// The reason of a stop, as it is told.
#[derive(Clone, Copy, Drop)]
pub enum Stop {
    Until,
    Entries,
    TooLong(u32),
    Time,
    Memory,
}

impl Stop {
    /// What is told of the end of a run: nothing of a quiet one, and nothing of `$finish`.
    pub fn of(end: End) -> Option<Stop>
        requires { IsEnded end }
        ensures { result ≡ stop_of end }
    {
        match end {
            End::Stopped(why) => Stop::why(why),
            End::Quiet => None,
            End::Running => unreachable!(),
        }
    }

    /// What is told of why a run was stopped: nothing of `$finish`.
    fn why(why: Why) -> Option<Stop>
        ensures { result ≡ stop_for why }
    {
        match why {
            Why::Finish => None,
            Why::Until => Some(Stop::Until),
            Why::Entries => Some(Stop::Entries),
            Why::TooLong(process) => Some(Stop::TooLong(process)),
            Why::Time => Some(Stop::Time),
            Why::Memory => Some(Stop::Memory),
        }
    }

    /// The exit status of a stopped run.
    pub fn status(&self) -> u8
        ensures { result ≡ stop_status self.now }
    {
        match self {
            Stop::Memory => 6,
            _ => 4,
        }
    }
}

impl CommandFault<'_> {
    /// The exit status: 1 for files and output, 3 for a source, 5 for a journal, and 6 for memory or
    /// a worker that couldn't be started.
    pub fn status(&self) -> u8
        ensures { result ≡ status_of self.now }
    {
        match self {
            CommandFault::Files(fault) => fault.status(),
            CommandFault::Memory => 6,
            CommandFault::Source(fault) => source_status(fault),
            CommandFault::Simulate(fault) => simulate_status(fault),
            CommandFault::Replay(fault) => replay_status(fault),
            CommandFault::Journal(_, fault) => journal_status(*fault),
        }
    }
}

/// The exit status of a fault of a source: 6 for memory, and else 3.
pub fn source_status(fault: &SourceFault) -> u8
    ensures { result ≡ source_status_of fault.now }
{
    match fault {
        SourceFault::Parse(ParseFault::Memory) | SourceFault::Elaborate(ElabFault::Memory) => 6,
        _ => 3,
    }
}

/// The exit status of a fault of a run on workers: 6 for memory, and for a worker that couldn't be started.
fn simulate_status(fault: &SimFault) -> u8
    ensures { result ≡ simulate_status_of fault.now }
{
    match fault {
        SimFault::Memory | SimFault::NoWorker => 6,
    }
}

/// The exit status of a fault of a replay: that of its source, of its journal's text or of an entry, and 1 for output.
fn replay_status(fault: &BytesFault) -> u8
    ensures { result ≡ replay_status_of fault.now }
{
    match fault {
        BytesFault::Source(fault) => source_status(fault),
        BytesFault::Read(fault) => read_status(*fault),
        BytesFault::Replay(fault) => cause_status(fault.cause),
        BytesFault::CannotWrite => 1,
    }
}

/// The exit status of a fault of one of two journals: that of its text, or of an entry.
fn journal_status(fault: JournalFault) -> u8
    ensures { result ≡ journal_status_of fault }
{
    match fault {
        JournalFault::Read(fault) => read_status(fault),
        JournalFault::Replay(fault) => cause_status(fault.cause),
    }
}

/// The exit status of a fault of a journal's text: 1 where a read failed, 6 for memory, and else 5.
fn read_status(fault: ReadFault) -> u8
    ensures { result ≡ read_status_of fault }
{
    match fault {
        ReadFault::Read => 1,
        ReadFault::Memory => 6,
        _ => 5,
    }
}

/// The exit status of an entry that isn't taken: 6 for memory, and else 5.
fn cause_status(cause: Cause) -> u8
    ensures { result ≡ cause_status_of cause }
{
    match cause {
        Cause::ApplyMemory | Cause::Memory | Cause::Start(_) => 6,
        _ => 5,
    }
}
