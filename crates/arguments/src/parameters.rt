//! The words and options of the commands, as `clap` knows them.

ghost use Rattle.std.specs.Prelude.{◌≡◌, None, Some, true, false};
ghost use Rattle.clap.specs.Words.{rule_of};
ghost use Rattle.arguments.specs.Arguments.{FollowsRule, rule, flag_rule, form_of, name_of, number_parser, rule_by, rule_for};
ghost use Rattle.arguments.specs.CommandWords.{argument_by, argument_of, choice, flag, place};

use clap::builder::ValueParser;
use clap::{Arg, ArgAction};
use std::alloc::Global;

const MAX_ENTRIES: &str = "Most entries of a journal, 1 to 4294967295 [default: 1000000]";

const MAX_STATES: &str = "Most states of the search, 1 to 4294967295 [default: 1000000]";

const MAX_TEXTS: &str = "Most different texts that are shown, 1 to 4294967295 [default: 8]";

const MAX_MEMORY: &str = "Most megabytes that the search keeps, 1 to 4294967295 [default: 4096]";

const OBSERVE: &str =
    "What runs are compared by: lines, lines-at-times, registers or registers=A,B [default: lines]";

const SAMPLES: &str = "Tries N random lawful orders in place of the search, 1 to 4294967295";

/// A word or an option of a command.
#[derive(Clone, Copy)]
pub enum Parameter {
    File,
    Journal,
    FirstJournal,
    SecondJournal,
    Workers,
    Until,
    MaxEntries,
    MaxStates,
    MaxTexts,
    MaxMemory,
    Samples,
    Seed,
    Observe,
    From,
    To,
    FromTime,
    ToTime,
    Radix,
    Versions,
    Registers,
    JournalTo,
    JournalsTo,
    Out,
    All,
    AllTimes,
    FlatOut,
}

const FROM: &str = "First entry that is told, 1 to 4294967295 [default: 1]";

const TO: &str = "Last entry that is told, 1 to 4294967295 [default: the last]";

const FROM_TIME: &str =
    "Time of the first entries that are told, 0 to 281474976710656 [default: 0]";

const TO_TIME: &str =
    "Time of the last entries that are told, 0 to 281474976710656 [default: the last]";

const RADIX: &str = "Digits of values: b, d or h, for binary, decimal or hex ones [default: b]";

const VERSIONS: &str = "Says at each read how often the register had changed";

const REGISTERS: &str = "Tells only entries that read, write, assign or update one of these: A,B";

const JOURNAL_TO: &str = "Where to write the journal";

const JOURNALS_TO: &str = "Where to write a journal of each text: PREFIX.1.journal, ..";

const OUT: &str = "Where to write the value change dump";

const FLAT_OUT: &str = "Where to write the flat module [default: standard output]";

const ALL: &str = "Shows each note at each of its places";

const ALL_TIMES: &str = "Shows each register that differs at each time, and not at its first alone";

const FILE: &str = "Verilog source";

const JOURNAL: &str = "Journal of a run";

const SECOND_JOURNAL: &str = "Journal of another run";

const WORKERS: &str = "Worker threads, 1 to 16 [default: 2]";

const UNTIL: &str = "Last time that the run may reach, 0 to 281474976710656 [default: no limit]";

const SEED: &str = "Takes random choices from S, 0 to 18446744073709551615, on one thread";

/// What a word or an option takes.
#[derive(Clone, Copy)]
enum Form {
    /// It is a word that has to be given.
    Place,
    /// It is an option with no value.
    Flag,
    /// It is an option for any text.
    Text,
    /// It is an option for any text, and has to be given.
    Needed,
    /// It is an option for such a number.
    Number(NumberKind),
}

/// What an option is a number of.
#[derive(Clone, Copy)]
enum NumberKind {
    /// Workers, of which there are 1 to 16.
    Workers,
    /// Things of which there is one at least.
    Count,
    /// A time.
    Time,
    /// A seed.
    Seed,
}

impl NumberKind {
    /// What such a number has to be.
    fn parser<'a>(self) -> ValueParser<'a>
        ensures { result ≡ number_parser self }
    {
        match self {
            NumberKind::Workers => ValueParser::signed(1, 16),
            NumberKind::Count => ValueParser::signed(1, 4294967295),
            NumberKind::Time => ValueParser::unsigned(0, 281474976710656),
            NumberKind::Seed => ValueParser::unsigned(0, u64::MAX),
        }
    }
}

impl Parameter {
    /// What it takes.
    fn form(self) -> Form
        ensures { result ≡ form_of self }
    {
        match self {
            Parameter::File
            | Parameter::Journal
            | Parameter::FirstJournal
            | Parameter::SecondJournal => Form::Place,
            Parameter::Versions | Parameter::All | Parameter::AllTimes => Form::Flag,
            Parameter::Observe
            | Parameter::Radix
            | Parameter::Registers
            | Parameter::JournalTo
            | Parameter::JournalsTo
            | Parameter::FlatOut => Form::Text,
            Parameter::Out => Form::Needed,
            Parameter::Workers => Form::Number(NumberKind::Workers),
            Parameter::MaxEntries
            | Parameter::MaxStates
            | Parameter::MaxTexts
            | Parameter::MaxMemory
            | Parameter::Samples
            | Parameter::From
            | Parameter::To => Form::Number(NumberKind::Count),
            Parameter::Until | Parameter::FromTime | Parameter::ToTime => Form::Number(
                NumberKind::Time,
            ),
            Parameter::Seed => Form::Number(NumberKind::Seed),
        }
    }

    /// Its name.
    fn name<'a>(self) -> &'a str
        ensures { result.now ≡ name_of self }
    {
        match self {
            Parameter::File => "FILE",
            Parameter::Journal => "JOURNAL",
            Parameter::FirstJournal => "J1",
            Parameter::SecondJournal => "J2",
            Parameter::Workers => "workers",
            Parameter::Until => "until",
            Parameter::MaxEntries => "max-entries",
            Parameter::MaxStates => "max-states",
            Parameter::MaxTexts => "max-texts",
            Parameter::MaxMemory => "max-memory",
            Parameter::Samples => "samples",
            Parameter::Seed => "seed",
            Parameter::Observe => "observe",
            Parameter::From => "from",
            Parameter::To => "to",
            Parameter::FromTime => "from-time",
            Parameter::ToTime => "to-time",
            Parameter::Radix => "radix",
            Parameter::Versions => "versions",
            Parameter::Registers => "registers",
            Parameter::JournalTo => "journal",
            Parameter::JournalsTo => "journals",
            Parameter::Out | Parameter::FlatOut => "out",
            Parameter::All | Parameter::AllTimes => "all",
        }
    }

    /// What help calls its value, if it is an option with one.
    fn value<'a>(self) -> &'a str {
        match self {
            Parameter::MaxMemory => "MB",
            Parameter::Seed => "S",
            Parameter::Observe => "WHAT",
            Parameter::Until | Parameter::FromTime | Parameter::ToTime => "T",
            Parameter::Radix => "R",
            Parameter::Registers => "NAMES",
            Parameter::JournalTo | Parameter::Out | Parameter::FlatOut => "OUT",
            Parameter::JournalsTo => "PREFIX",
            _ => "N",
        }
    }

    /// What help says of it.
    fn help<'a>(self) -> &'a str {
        match self {
            Parameter::File => FILE,
            Parameter::Journal | Parameter::FirstJournal => JOURNAL,
            Parameter::SecondJournal => SECOND_JOURNAL,
            Parameter::Workers => WORKERS,
            Parameter::Until => UNTIL,
            Parameter::MaxEntries => MAX_ENTRIES,
            Parameter::MaxStates => MAX_STATES,
            Parameter::MaxTexts => MAX_TEXTS,
            Parameter::MaxMemory => MAX_MEMORY,
            Parameter::Samples => SAMPLES,
            Parameter::Seed => SEED,
            Parameter::Observe => OBSERVE,
            Parameter::From => FROM,
            Parameter::To => TO,
            Parameter::FromTime => FROM_TIME,
            Parameter::ToTime => TO_TIME,
            Parameter::Radix => RADIX,
            Parameter::Versions => VERSIONS,
            Parameter::Registers => REGISTERS,
            Parameter::JournalTo => JOURNAL_TO,
            Parameter::JournalsTo => JOURNALS_TO,
            Parameter::Out => OUT,
            Parameter::All => ALL,
            Parameter::AllTimes => ALL_TIMES,
            Parameter::FlatOut => FLAT_OUT,
        }
    }
}

/// The word or option as `clap` knows it.
pub fn argument<'a>(alloc: Global, parameter: Parameter) -> Arg<'a>
    ensures takes { FollowsRule result (rule_for parameter) }
    ensures rule { rule_of result ≡ argument_of parameter }
{
    formed(
        alloc,
        parameter.form(),
        parameter.name(),
        parameter.value(),
        parameter.help(),
    )
}

/// The word or option that takes this, by its name, what help calls its value, and what help says of it.
fn formed<'a>(alloc: Global, form: Form, name: &'a str, value: &'a str, help: &'a str) -> Arg<'a>
    ensures takes { FollowsRule result (rule_by form name.entry.now) }
    ensures rule { rule_of result ≡ argument_by form name.entry.now }
{
    match form {
        Form::Place => positional(alloc, name, help),
        Form::Flag => flag(alloc, name, help),
        Form::Text => option(alloc, name, value, help),
        Form::Needed => option(alloc, name, value, help).required(true),
        Form::Number(kind) => parsed(option(alloc, name, value, help), kind.parser()),
    }
}

/// A word that has to be given.
fn positional<'a>(alloc: Global, name: &'a str, help: &'a str) -> Arg<'a>
    ensures takes { FollowsRule result (rule name.entry.now true None) }
    ensures rule { rule_of result ≡ place name.entry.now }
{
    Arg::new(alloc, name)
        .required(true)
        .action(ArgAction::Set)
        .help(help)
}

/// An option for one value.
fn option<'a>(alloc: Global, name: &'a str, value: &'a str, help: &'a str) -> Arg<'a>
    ensures takes { FollowsRule result (rule name.entry.now false None) }
    ensures rule { rule_of result ≡ choice name.entry.now None }
{
    Arg::new(alloc, name)
        .long(name)
        .value_name(value)
        .action(ArgAction::Set)
        .help(help)
}

/// An option that takes no value.
fn flag<'a>(alloc: Global, name: &'a str, help: &'a str) -> Arg<'a>
    ensures takes { FollowsRule result (flag_rule name.entry.now) }
    ensures rule { rule_of result ≡ flag name.entry.now }
{
    let unparsed = Arg::new(alloc, name)
        .long(name)
        .action(ArgAction::SetTrue)
        .help(help);
    parsed(unparsed, ValueParser::bool())
}

/// The same argument, whose values have to pass this parser.
fn parsed<'a>(unparsed: Arg<'a>, parser: ValueParser<'a>) -> Arg<'a>
    ensures { result ≡ record unparsed.entry { value_parser = Some parser.entry } }
{
    unparsed.value_parser(parser)
}
