//! The line on standard error of each fault and of each stop.

ghost use Rattle.std.specs.Prelude.{◌≡◌};
ghost use Rattle.telling.specs.FaultLines.{line_of, program_line, subject_text};
ghost use Rattle.program.specs.ProgramLines.{fault_line, file_line, no_register_line, option_tail, stop_line, source_line, parse_line, module_line, simulate_line, replay_line, read_line, journal_line, entry_head, journal_tail, unread_with};

use crate::fault::{CommandFault, JournalFault, Stop};
use crate::register_option::RegisterOption;
use differences::JournalSide;
use elaborate::ElabFault;
use explain::cause_code;
use files::FileFault;
use frontend::SourceFault;
use journal::ReadFault;
use replay::BytesFault;
use simulate::SimFault;
use telling::{Subject, SubjectLine};
use vparse::ParseFault;

/// The line of a fault.
pub fn fault_line<'a>(fault: &'a CommandFault<'_>) -> SubjectLine<'a>
    ensures { line_of result ≡ fault_line fault.now }
{
    match fault {
        CommandFault::Files(fault) => file_line(fault),
        CommandFault::Memory => SubjectLine::plain("memory"),
        CommandFault::Source(fault) => source_line(fault),
        CommandFault::Simulate(fault) => simulate_line(fault),
        CommandFault::Replay(fault) => replay_line(fault),
        CommandFault::Journal(side, fault) => journal_line(*side, *fault),
    }
}

/// The line of a stop.
pub fn stop_line(stop: Stop) -> SubjectLine<'static>
    ensures { line_of result ≡ stop_line stop }
{
    match stop {
        Stop::Until => SubjectLine::plain("stopped: until"),
        Stop::Entries => SubjectLine::plain("stopped: entries"),
        Stop::TooLong(process) => SubjectLine {
            head: "stopped: process ",
            subject: Subject::Number(process as u64),
            tail: " too long",
        },
        Stop::Time => SubjectLine::plain("stopped: time"),
        Stop::Memory => SubjectLine::plain("stopped: memory"),
    }
}

/// The line of a fault of files or output, with the path of a file that wasn't read.
fn file_line<'a>(fault: &FileFault<'a>) -> SubjectLine<'a>
    ensures { line_of result ≡ file_line fault.now }
{
    match fault {
        FileFault::CannotRead(path) => SubjectLine {
            head: "cannot read ",
            subject: Subject::Path(path),
            tail: "",
        },
        FileFault::CannotWrite => SubjectLine::plain("cannot write"),
        FileFault::Memory => SubjectLine::plain("memory"),
    }
}

/// What stands behind a name that no register has: the option that gives the name.
fn option_tail(option: RegisterOption) -> &'static str
    ensures { result.now ≡ option_tail option }
{
    match option {
        RegisterOption::Observe => "` (--observe)",
        RegisterOption::Registers => "` (--registers)",
    }
}

/// The line of a name that no register has. The name stands between backquotes, so that a space in it is seen.
pub fn no_register_line(option: RegisterOption, name: &str) -> SubjectLine<'_>
    ensures { line_of result ≡ no_register_line option name.entry.now }
{
    SubjectLine {
        head: "no register `",
        subject: Subject::Path(name),
        tail: option_tail(option),
    }
}

/// The line of a fault of a source, of its text or of its module.
fn source_line(fault: &SourceFault) -> SubjectLine<'_>
    ensures { line_of result ≡ source_line fault.now }
{
    match fault {
        SourceFault::Parse(fault) => parse_line(*fault),
        SourceFault::Elaborate(fault) => module_line(fault),
    }
}

/// The line of a fault of a text, with the byte or the token at which it stands.
fn parse_line(fault: ParseFault) -> SubjectLine<'static>
    ensures { line_of result ≡ parse_line fault }
{
    match fault {
        ParseFault::Byte(place) => SubjectLine::numbered("P1 byte not allowed at ", place as u64),
        ParseFault::Syntax(token) => SubjectLine::numbered("P2 syntax at token ", token as u64),
        ParseFault::Literal(place) => SubjectLine::numbered("P3 literal at ", place as u64),
        ParseFault::Deep(token) => SubjectLine::numbered("P4 nesting at token ", token as u64),
        ParseFault::Unsized(token) => SubjectLine::numbered(
            "P5 unsized number at token ",
            token as u64,
        ),
        ParseFault::Memory => SubjectLine::plain("P6 memory"),
    }
}

/// The line of a fault of a module, with the name that it tells, if it tells one.
fn module_line(fault: &ElabFault) -> SubjectLine<'_>
    ensures { line_of result ≡ module_line fault.now }
{
    match fault {
        ElabFault::Undeclared(name) => SubjectLine::named("E1 undeclared ", name.as_str()),
        ElabFault::DeclaredTwice(name) => SubjectLine::named("E2 declared twice ", name.as_str()),
        ElabFault::BadRange(name) => SubjectLine::named("E3 range of ", name.as_str()),
        ElabFault::TooManyRegisters => SubjectLine::plain("E4 more than 1024 registers"),
        ElabFault::TooManyProcesses => SubjectLine::plain("E5 more than 256 processes"),
        ElabFault::BadFormat => SubjectLine::plain("E6 format and arguments"),
        ElabFault::WideConcat => SubjectLine::plain("E7 concatenation over 128 bits"),
        ElabFault::BadIndex(name) => SubjectLine::named("E8 bit index of ", name.as_str()),
        ElabFault::LongDelay => SubjectLine::plain("E9 delay over 4294967295"),
        ElabFault::Memory => SubjectLine::plain("E10 memory"),
    }
}

/// The line of a fault of a run on workers.
fn simulate_line(fault: &SimFault) -> SubjectLine<'static>
    ensures { line_of result ≡ simulate_line fault.now }
{
    match fault {
        SimFault::Memory => SubjectLine::plain("memory"),
        SimFault::NoWorker => SubjectLine::plain("cannot start worker"),
    }
}

/// The line of a fault of a replay: of its source, of a journal's text, of an entry, or of the output.
fn replay_line(fault: &BytesFault) -> SubjectLine<'_>
    ensures { line_of result ≡ replay_line fault.now }
{
    match fault {
        BytesFault::Source(fault) => source_line(fault),
        BytesFault::Read(fault) => read_line(*fault),
        BytesFault::Replay(fault) => SubjectLine {
            head: "entry ",
            subject: Subject::Number(fault.entry),
            tail: cause_code(fault.cause),
        },
        BytesFault::CannotWrite => SubjectLine::plain("cannot write"),
    }
}

/// By what a line tells which of two journals it is of: what stands before the number of an entry, and what behind a fault of the text.
#[derive(Clone, Copy)]
struct SideWords {
    head: &'static str,
    tail: &'static str,
}

/// The words of one of two journals.
fn side_words(side: JournalSide) -> SideWords
    ensures head { result.head.now ≡ entry_head side }
    ensures tail { result.tail.now ≡ journal_tail side }
{
    match side {
        JournalSide::First => SideWords {
            head: "first journal: entry ",
            tail: " (first journal)",
        },
        JournalSide::Second => SideWords {
            head: "second journal: entry ",
            tail: " (second journal)",
        },
    }
}

/// The line of a fault of one of two journals: of its text, or of an entry.
fn journal_line(side: JournalSide, fault: JournalFault) -> SubjectLine<'static>
    ensures { line_of result ≡ journal_line side fault }
{
    let words = side_words(side);
    match fault {
        JournalFault::Read(fault) => unread_line(fault, words.tail),
        JournalFault::Replay(fault) => told_with(
            words.head,
            Subject::Number(fault.entry),
            cause_code(fault.cause),
        ),
    }
}

/// The line of a fault of a journal's text, with the line at which it stands, where it tells one.
fn read_line(fault: ReadFault) -> SubjectLine<'static>
    ensures { line_of result ≡ read_line fault }
{
    unread_line(fault, "")
}

/// The line of a fault of a journal's text, with a text behind it.
fn unread_line(fault: ReadFault, tail: &'static str) -> SubjectLine<'static>
    ensures { line_of result ≡ unread_with tail.entry.now fault }
{
    match fault {
        ReadFault::Header => told_with("Q1 journal header", Subject::Nothing, tail),
        ReadFault::Line(number) => told_with("Q2 journal line ", Subject::Number(number), tail),
        ReadFault::Cut => told_with("Q3 journal ends without newline", Subject::Nothing, tail),
        ReadFault::Read => told_with("Q4 journal read error", Subject::Nothing, tail),
        ReadFault::Memory => told_with("Q5 memory", Subject::Nothing, tail),
        ReadFault::Count(number) => told_with(
            "Q6 journal count at line ",
            Subject::Number(number),
            tail,
        ),
        ReadFault::Uncounted => told_with("Q7 journal cut", Subject::Nothing, tail),
    }
}

/// A line of three parts.
fn told_with(
    head: &'static str,
    subject: Subject<'static>,
    tail: &'static str,
) -> SubjectLine<'static>
    ensures { line_of result ≡ program_line head.entry.now (subject_text subject.entry) tail.entry.now }
{
    SubjectLine {
        head,
        subject,
        tail,
    }
}
