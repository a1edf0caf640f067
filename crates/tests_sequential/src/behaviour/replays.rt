//! What a fault prints, and replays from bytes to bytes: their lines, or the line that tells of the fault.

use super::compare::{assert_row, assert_text};
use super::refused::SWAP_TEXT;
use super::replayed::{assert_prints, assert_refuses};
use super::streams::{ByteReader, ByteWriter};
use crate::claims::holds;
use fixtures::entries::{I, T0, T1, T2, T3, T4};
use fixtures::{HI, RACE, SWAP};
use journal::Counted;
use model::entry::Refusal;
use replay::{BytesFault, Cause, ReplayFault, replay_bytes};
use std::alloc::Global;
use std::io::ErrorKind;
use std::process::Abort;

/// What is left of a replay by a reader and a writer that fail after so many bytes: what was written, and then the line
/// that tells of the fault, if there is one.
fn left_of(
    rt: &impl Abort,
    alloc: Global,
    both: (&str, &[u8]),
    reads: usize,
    writes: usize,
) -> String {
    let (source, text) = both;
    let mut journal = Counted::new(ByteReader {
        text,
        left: reads,
        kind: ErrorKind::BrokenPipe,
    });
    let mut out = Counted::new(ByteWriter {
        taken: Vec::with_capacity(alloc, 100).expect(rt, "memory"),
        left: writes,
        answers_zero: false,
    });
    let told = replay_bytes(alloc, source.as_bytes(), &mut journal, &mut out);
    let taken = out.into_inner().taken;
    text_of(rt, alloc, &taken, &told)
}

// What was written, and then the line of the fault.
fn text_of(rt: &impl Abort, alloc: Global, taken: &[u8], told: &Result<(), BytesFault>) -> String {
    let written = str::from_utf8(taken).ok().expect(rt, "text");
    match told {
        Ok(()) => String::from_str(alloc, written).expect(rt, "memory"),
        Err(fault) => format!(in alloc; "{written}{fault}").expect(rt, "memory"),
    }
}

// What a fault prints.
fn assert_line(rt: &impl Abort, alloc: Global, entry: u64, cause: Cause, want: &str) {
    let fault = ReplayFault { entry, cause };
    let line = format!(in alloc; "{fault}").expect(rt, "memory");
    assert_text(rt, line.as_str(), want);
}

/// Entries that are refused, and what is printed of them.
const REFUSALS: &[(u64, Refusal, &str)] = &[
    (3, Refusal::NotActive, "entry 3: J1 event not active"),
    (
        4,
        Refusal::EarlierUpdate,
        "entry 4: J2 earlier update active",
    ),
    (1, Refusal::NotDue, "entry 1: J3 region change not due"),
    (12, Refusal::WrongTime, "entry 12: J4 wrong time"),
    (9, Refusal::PastLimit, "entry 9: J5 time limit"),
    (8, Refusal::Finished, "entry 8: J6 finished"),
];

/// Other faults of entries, and what is printed of them.
const FAULTS: &[(u64, Cause, &str)] = &[
    (2, Cause::TooLong, "entry 2: turn too long"),
    (
        4294967296,
        Cause::TooMany,
        "entry 4294967296: too many entries",
    ),
    (3, Cause::Memory, "entry 3: memory"),
    (7, Cause::ApplyMemory, "entry 7: memory"),
];

#[test]
fn says_why(rt: HostRuntime) {
    for &(entry, refusal, want) in REFUSALS {
        assert_line(&rt, rt.alloc(), entry, Cause::Refused(refusal), want);
    }
    for &(entry, cause, want) in FAULTS {
        assert_line(&rt, rt.alloc(), entry, cause, want);
    }
}

#[test]
fn replays_entries(rt: HostRuntime) {
    let source = RACE.as_bytes();
    let is_over = assert_prints(&rt, rt.alloc(), source, &[T1, T0, T2, I, T3], "0\n");
    holds(&rt, is_over, "nothing is left to do");
    let journal = [T1, T0, T2, I, T4];
    assert_refuses(&rt, rt.alloc(), source, &journal, 5, Refusal::NotActive);
}

// A replay by a reader and a writer that fail after so many bytes leaves this. It stands at this place of its test.
fn assert_left_of(
    rt: &impl Abort,
    alloc: Global,
    both: (&str, &[u8]),
    limits: (usize, usize),
    want: &str,
    place: usize,
) {
    let left = left_of(rt, alloc, both, limits.0, limits.1);
    assert_row(rt, left.as_str(), want, place);
}

/// Sources with a journal, and what is left where a writer fails after 0, 1, .. bytes.
const FAILED: &[(&str, &[u8], &[&str])] = &[
    (HI, b"vsimtx-journal 1\nT 0\n", &["cannot write"]),
    (
        HI,
        b"vsimtx-journal 2\nT 0\nE 1\n",
        &["cannot write", "hcannot write", "hicannot write", "hi\n"],
    ),
    (
        SWAP,
        SWAP_TEXT,
        &[
            "cannot write",
            "1cannot write",
            "1 cannot write",
            "1 0cannot write",
            "1 0\n",
        ],
    ),
];

// By a reader that fails after so few bytes that the text of the journal isn't read to its end, only that is told.
#[test]
fn a_failed_read_is_told(rt: HostRuntime) {
    let told = "Q4 journal read error";
    for &(source, text, _) in FAILED {
        for reads in 0..=text.len() {
            assert_left_of(&rt, rt.alloc(), (source, text), (reads, 100), told, reads);
        }
    }
}

#[test]
fn a_failed_write_is_told(rt: HostRuntime) {
    for &(source, text, wants) in FAILED {
        for (writes, want) in wants.iter().enumerate() {
            assert_left_of(&rt, rt.alloc(), (source, text), (100, writes), want, writes);
        }
    }
}
