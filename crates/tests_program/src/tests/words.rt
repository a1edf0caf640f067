//! Command lines that give no run.

use super::sources::EMPTY;
use super::{assert_bytes, assert_line, assert_status, joined, prints, tells};
use journal::Counted;
use program::without_words;
use std::alloc::Global;
use std::io;
use std::io::ErrorKind;
use std::process::Abort;
use std::sync::Wait;
use std::thread::Threads;

/// The help of the program as a whole.
const WHOLE: &str =
    "Simulates one Verilog module on several workers\n\nUsage: vsimtx <COMMAND>\n\nCommands:\n  run      Simulates FILE and prints its lines\n  replay   Replays JOURNAL on FILE and prints its lines\n  races    Searches the lawful orders of FILE and shows where its runs differ\n  check    Reads FILE and tells what is wrong with it\n  explain  Tells the entries of JOURNAL on FILE in words\n  waves    Writes the registers of JOURNAL on FILE over time as a value change dump\n  diff     Shows where two journals of FILE part, and what differs\n  flatten  Prints the flat module of a whole design of one FILE or more\n  help     Print this message or the help of the given subcommand(s)\n\nOptions:\n  -h, --help     Print help\n  -V, --version  Print version\n";

const OF_RUN: &str =
    "Simulates FILE and prints its lines\n\nUsage: vsimtx run [OPTIONS] <FILE>\n\nArguments:\n  <FILE>  Verilog source\n\nOptions:\n      --workers <N>      Worker threads, 1 to 16 [default: 2]\n      --until <T>        Last time that the run may reach, 0 to 281474976710656 [default: no limit]\n      --max-entries <N>  Most entries of a journal, 1 to 4294967295 [default: 1000000]\n      --journal <OUT>    Where to write the journal\n      --seed <S>         Takes random choices from S, 0 to 18446744073709551615, on one thread\n  -h, --help             Print help\n\nWith --verilog FILE.. in the place of FILE, a design of several modules:\n  [--top NAME] [-I DIR] [-D NAME[=TEXT]] [-P NAME=VALUE]\n";

const OF_REPLAY: &str =
    "Replays JOURNAL on FILE and prints its lines\n\nUsage: vsimtx replay <FILE> <JOURNAL>\n\nArguments:\n  <FILE>     Verilog source\n  <JOURNAL>  Journal of a run\n\nOptions:\n  -h, --help  Print help\n\nWith --verilog FILE.. in the place of FILE, a design of several modules:\n  [--top NAME] [-I DIR] [-D NAME[=TEXT]] [-P NAME=VALUE]\n";

const OF_RACES: &str =
    "Searches the lawful orders of FILE and shows where its runs differ\n\nUsage: vsimtx races [OPTIONS] <FILE>\n\nArguments:\n  <FILE>  Verilog source\n\nOptions:\n      --until <T>          Last time that the run may reach, 0 to 281474976710656 [default: no limit]\n      --max-entries <N>    Most entries of a journal, 1 to 4294967295 [default: 1000000]\n      --max-states <N>     Most states of the search, 1 to 4294967295 [default: 1000000]\n      --max-texts <N>      Most different texts that are shown, 1 to 4294967295 [default: 8]\n      --max-memory <MB>    Most megabytes that the search keeps, 1 to 4294967295 [default: 4096]\n      --journals <PREFIX>  Where to write a journal of each text: PREFIX.1.journal, ..\n      --samples <N>        Tries N random lawful orders in place of the search, 1 to 4294967295\n      --seed <S>           Takes random choices from S, 0 to 18446744073709551615, on one thread\n      --observe <WHAT>     What runs are compared by: lines, lines-at-times, registers or registers=A,B [default: lines]\n  -h, --help               Print help\n\nWith --verilog FILE.. in the place of FILE, a design of several modules:\n  [--top NAME] [-I DIR] [-D NAME[=TEXT]] [-P NAME=VALUE]\n";

/// Lines that ask for help, and the help.
const HELP: &[(&str, &str)] = &[
    ("vsimtx --help", WHOLE),
    ("vsimtx run --help", OF_RUN),
    ("vsimtx replay --help", OF_REPLAY),
    ("vsimtx help run", OF_RUN),
    ("vsimtx races --help", OF_RACES),
];

#[test]
fn shows_help(rt: HostRuntime) {
    for &(line, text) in HELP {
        assert_line(&rt, rt.alloc(), line, EMPTY, prints(text));
    }
}

const USAGE: &str = "Usage: vsimtx <COMMAND>\n\n";

const USAGE_OF_FILE: &str = "Usage: vsimtx run <FILE>\n\n";

const USAGE_OF_RUN: &str = "Usage: vsimtx run [OPTIONS] <FILE>\n\n";

const USAGE_OF_RACES: &str = "Usage: vsimtx races <FILE>\n\n";

const USAGE_OF_REPLAY: &str = "Usage: vsimtx replay <FILE> <JOURNAL>\n\n";

/// Lines that are refused, why, and the usage that is told, if any is.
const WRONG: &[(&str, &str, &str)] = &[
    (
        "vsimtx run",
        "the following required arguments were not provided:\n  <FILE>",
        USAGE_OF_FILE,
    ),
    ("vsimtx walk t.v", "unrecognized subcommand 'walk'", USAGE),
    (
        "vsimtx run t.v u.v",
        "unexpected argument 'u.v' found",
        USAGE_OF_RUN,
    ),
    (
        "vsimtx run t.v --walk",
        "unexpected argument '--walk' found\n\n  tip: to pass '--walk' as a value, use '-- --walk'",
        USAGE_OF_FILE,
    ),
    (
        "vsimtx run t.v --workers 0",
        "invalid value '0' for '--workers <N>': 0 is not in 1..=16",
        "",
    ),
    (
        "vsimtx run t.v --workers 17",
        "invalid value '17' for '--workers <N>': 17 is not in 1..=16",
        "",
    ),
    (
        "vsimtx run t.v --workers two",
        "invalid value 'two' for '--workers <N>': invalid digit found in string",
        "",
    ),
    // no control character of a word reaches a terminal
    (
        "vsimtx run t.v --workers \u{1b}[2J\u{9b}2\t",
        "invalid value '\\u{1b}[2J\\u{9b}2\\t' for '--workers <N>': invalid digit found in string",
        "",
    ),
    (
        "vsimtx run t.v --workers 2 --workers 3",
        "the argument '--workers <N>' cannot be used multiple times",
        USAGE_OF_RUN,
    ),
    (
        "vsimtx run t.v --until 281474976710657",
        "invalid value '281474976710657' for '--until <T>': 281474976710657 is not in 0..=281474976710656",
        "",
    ),
    (
        "vsimtx run t.v --max-entries 0",
        "invalid value '0' for '--max-entries <N>': 0 is not in 1..=4294967295",
        "",
    ),
    (
        "vsimtx run t.v --max-entries 4294967296",
        "invalid value '4294967296' for '--max-entries <N>': 4294967296 is not in 1..=4294967295",
        "",
    ),
    (
        "vsimtx run t.v --journal",
        "a value is required for '--journal <OUT>' but none was supplied",
        "",
    ),
    (
        "vsimtx replay",
        "the following required arguments were not provided:\n  <FILE>\n  <JOURNAL>",
        USAGE_OF_REPLAY,
    ),
    (
        "vsimtx replay t.v",
        "the following required arguments were not provided:\n  <JOURNAL>",
        USAGE_OF_REPLAY,
    ),
    (
        "vsimtx replay t.v JOURNAL --workers 2",
        "unexpected argument '--workers' found\n\n  tip: to pass '--workers' as a value, use '-- --workers'",
        USAGE_OF_REPLAY,
    ),
    (
        "vsimtx run t.v --seed 1 --workers 2",
        "the argument '--seed <S>' cannot be used with '--workers <N>'",
        USAGE_OF_RUN,
    ),
    (
        "vsimtx run t.v --seed 18446744073709551616",
        "invalid value '18446744073709551616' for '--seed <S>': number too large to fit in target type",
        "",
    ),
    (
        "vsimtx races t.v --max-texts 0",
        "invalid value '0' for '--max-texts <N>': 0 is not in 1..=4294967295",
        "",
    ),
    (
        "vsimtx races t.v --workers 2",
        "unexpected argument '--workers' found\n\n  tip: to pass '--workers' as a value, use '-- --workers'",
        USAGE_OF_RACES,
    ),
];

/// A line is refused: the whole text tells why, and nothing is printed.
fn assert_refused<R: Abort + Threads + Wait + Sync>(
    rt: &R,
    alloc: Global,
    line: &str,
    why: &str,
    usage: &str,
) {
    let more = "For more information, try '--help'.\n";
    let text = joined(rt, alloc, &["error: ", why, "\n\n", usage, more]);
    assert_line(rt, alloc, line, EMPTY, tells(2, text.as_str()));
}

#[test]
fn refuses_wrong_words(rt: HostRuntime) {
    for &(line, why, usage) in WRONG {
        assert_refused(&rt, rt.alloc(), line, why, usage);
    }
    assert_line(&rt, rt.alloc(), "vsimtx", EMPTY, tells(2, WHOLE));
}

/// What is told of words that can't be had for this reason.
fn assert_unread(rt: &impl Abort, alloc: Global, why: ErrorKind, status: u8, told: &str) {
    let mut err = Counted::new(Vec::new(alloc));
    let found = without_words(&io::Error::from(why), &mut err);
    assert_status(rt, told, found, status);
    assert_bytes(rt, told, err.into_inner().as_slice(), told.as_bytes());
}

#[test]
fn tells_that_words_cannot_be_read(rt: HostRuntime) {
    let unread = "vsimtx: a word of the command line isn't UTF-8\n";
    assert_unread(&rt, rt.alloc(), ErrorKind::InvalidData, 2, unread);
    let memory = "vsimtx: memory\n";
    assert_unread(&rt, rt.alloc(), ErrorKind::OutOfMemory, 6, memory);
}
