//! Calls in too little memory: each answers as it has to, or tells of memory, and then nothing was written but a beginning.

use super::compare::{assert_entries, assert_number};
use super::dumps::{self, DUMPS, is_dumped};
use super::held::text_of_fault;
use super::journal_text::read;
use super::scarce::{Scarce, ScarceCall, assert_done};
use crate::claims::holds;
use crate::language::faults_told::is_told;
use fixtures::entries::{T0, T1};
use fixtures::{COPY, GLITCH, GLITCH_JOURNAL, SWAP, SWAP_JOURNAL};
use frontend::read_design;
use journal::{Counted, ReadFault, WriteFault, write_journal};
use model::entry::Entry;
use replay::{BytesFault, replay_bytes};
use std::alloc::Global;
use std::process::Abort;

/// More bytes than any of the texts has.
const TEXT: usize = 256;

/// The text of the swap's journal.
pub const SWAP_TEXT: &[u8] = b"vsimtx-journal 1\nT 0\nA 1\nT 1\nN\nU 2\nU 3\nA 2\nT 4\n";

/// A source, how many registers it has, and of one of its runs the journal's text in both versions, the entries and the lines.
#[derive(Clone, Copy)]
struct RefusedSource<'a> {
    source: &'a str,
    registers: u64,
    text: &'a [u8],
    written: &'a [u8],
    entries: &'a [Entry],
    lines: &'a [u8],
}

/// A swap, a glitch that wakes a process, and a copy.
const ROWS: &[RefusedSource<'static>] = &[
    RefusedSource {
        source: SWAP,
        registers: 2,
        text: SWAP_TEXT,
        written: b"vsimtx-journal 2\nT 0\nA 1\nT 1\nN\nU 2\nU 3\nA 2\nT 4\nE 8\n",
        entries: SWAP_JOURNAL,
        lines: b"1 0\n",
    },
    RefusedSource {
        source: GLITCH,
        registers: 1,
        text: b"vsimtx-journal 1\nT 0\nT 1\nI\nT 3\nA 1\nT 2\nT 4\n",
        written: b"vsimtx-journal 2\nT 0\nT 1\nI\nT 3\nA 1\nT 2\nT 4\nE 7\n",
        entries: GLITCH_JOURNAL,
        lines: b"glitch\n",
    },
    RefusedSource {
        source: COPY,
        registers: 2,
        text: b"vsimtx-journal 1\nT 1\nT 0\n",
        written: b"vsimtx-journal 2\nT 1\nT 0\nE 2\n",
        entries: &[T1, T0],
        lines: b"",
    },
];

/// A call, with a row where it has one.
#[derive(Clone, Copy)]
enum RefusedCall<'a> {
    Design(&'a RefusedSource<'a>),
    Read(&'a RefusedSource<'a>),
    Write(&'a RefusedSource<'a>),
    Replay(&'a RefusedSource<'a>),
    Dump(&'a dumps::DumpRow<'a>),
    Fault,
}

// The text of the fault of a source tells of memory alone.
fn assert_memory(rt: &impl Abort, told: &str) {
    holds(rt, (told == "P6 memory") | (told == "E10 memory"), told);
}

// Whether a design is read.
fn is_design(rt: &impl Abort, memory: &mut Scarce, row: &RefusedSource<'_>) -> bool {
    memory.leave(rt);
    let answer = read_design(memory.alloc, row.source.as_bytes());
    memory.open(rt);
    match answer {
        Ok(design) => {
            assert_number(rt, u64::from(design.registers()), row.registers);
            true
        }
        Err(fault) => {
            assert_memory(rt, text_of_fault(rt, memory.alloc, &fault).as_str());
            false
        }
    }
}

// Whether a journal is read.
fn is_journal(rt: &impl Abort, memory: &mut Scarce, row: &RefusedSource<'_>) -> bool {
    memory.leave(rt);
    match read(memory.alloc, row.text) {
        Ok(entries) => {
            assert_entries(rt, &entries, row.entries);
            true
        }
        Err(fault) => {
            holds(rt, fault == ReadFault::Memory, "another fault");
            false
        }
    }
}

// A text is whole, or the beginning that went out before memory was refused.
fn assert_begun(rt: &impl Abort, fault: Option<WriteFault>, out: &[u8], whole: &[u8]) {
    match fault {
        None => holds(rt, out == whole, "another text"),
        Some(fault) => {
            holds(rt, fault == WriteFault::Memory, "another fault");
            holds(rt, whole.starts_with(out), "another beginning");
        }
    }
}

// Whether a journal is written, into room that is there already.
fn is_written(rt: &impl Abort, memory: &mut Scarce, row: &RefusedSource<'_>) -> bool {
    let mut out = Counted::new(memory.room(rt, TEXT));
    memory.leave(rt);
    let fault = write_journal(memory.alloc, &mut out, row.entries).err();
    assert_begun(rt, fault, &out.into_inner(), row.written);
    fault.is_none()
}

// The text of the fault of a replay tells of memory, and no lines were written.
fn assert_refused_replay(rt: &impl Abort, alloc: Global, fault: &BytesFault, out: &[u8]) {
    let told = format!(in alloc; "{fault}").expect(rt, "memory for a line");
    let told = told.as_str();
    holds(rt, told.ends_with("memory"), told);
    holds(rt, out.is_empty(), "lines before a fault");
}

// Whether the lines of a replay are written, into room that is there already.
fn is_replayed(rt: &impl Abort, memory: &mut Scarce, row: &RefusedSource<'_>) -> bool {
    let alloc = memory.alloc;
    let source = row.source.as_bytes();
    let mut out = Counted::new(memory.room(rt, TEXT));
    memory.leave(rt);
    let answer = replay_bytes(alloc, source, &mut Counted::new(row.text), &mut out);
    memory.open(rt);
    let out = out.into_inner();
    match answer {
        Ok(()) => {
            holds(rt, out.as_slice() == row.lines, "the lines");
            true
        }
        Err(fault) => {
            assert_refused_replay(rt, alloc, &fault, &out);
            false
        }
    }
}

impl ScarceCall for RefusedCall<'_> {
    fn is_done(&self, rt: &impl Abort, memory: &mut Scarce) -> bool {
        match *self {
            RefusedCall::Design(row) => is_design(rt, memory, row),
            RefusedCall::Read(row) => is_journal(rt, memory, row),
            RefusedCall::Write(row) => is_written(rt, memory, row),
            RefusedCall::Replay(row) => is_replayed(rt, memory, row),
            RefusedCall::Dump(row) => is_dumped(rt, memory, row),
            RefusedCall::Fault => {
                memory.leave(rt);
                is_told(rt, memory.alloc)
            }
        }
    }
}

#[test]
fn sources_and_journals_are_read_or_refused_memory(rt: HostRuntime) {
    for row in ROWS {
        assert_done(&rt, rt.alloc(), &RefusedCall::Design(row));
        assert_done(&rt, rt.alloc(), &RefusedCall::Read(row));
    }
}

#[test]
fn journals_are_written_and_replayed_or_refused_memory(rt: HostRuntime) {
    for row in ROWS {
        assert_done(&rt, rt.alloc(), &RefusedCall::Write(row));
        assert_done(&rt, rt.alloc(), &RefusedCall::Replay(row));
    }
}

#[test]
fn dumps_and_faults_are_told_or_refused_memory(rt: HostRuntime) {
    for row in DUMPS {
        assert_done(&rt, rt.alloc(), &RefusedCall::Dump(row));
    }
    assert_done(&rt, rt.alloc(), &RefusedCall::Fault);
}
