//! Files that can't be read, and replays of journals that break off, and of one that goes past the last time.

use super::sources::{HI, LONGEST_WAITS, ONE_TURN};
use super::{REPLAY, append, assert_in, assert_line, decimal, joined, over_journal, tells};
use std::alloc::Global;
use std::process::Abort;
use std::sync::Wait;
use std::thread::Threads;

/// The journal of one turn in version 1.
const FIRST_VERSION: &[u8] = b"vsimtx-journal 1\nT 0\n";

const UNDECLARED: &str = "module t; initial a = 1'b0; endmodule";

/// A text that is no module.
const UNFINISHED: &str = "always";

/// Command lines over a source, whose file breaks off, is too large or is interrupted, or over a journal that breaks off; and what
/// each tells.
const FILE_FAULTS: &[(&str, &str, u8, &str)] = &[
    (
        "vsimtx run broken.v",
        UNDECLARED,
        1,
        "vsimtx: cannot read broken.v\n",
    ),
    ("vsimtx run large.v", UNDECLARED, 6, "vsimtx: memory\n"),
    (
        "vsimtx run interrupted.v",
        UNDECLARED,
        3,
        "vsimtx: E1 undeclared a\n",
    ),
    (
        "vsimtx replay broken.v JOURNAL",
        UNFINISHED,
        1,
        "vsimtx: cannot read broken.v\n",
    ),
    (
        "vsimtx replay large.v JOURNAL",
        UNFINISHED,
        6,
        "vsimtx: memory\n",
    ),
    (
        "vsimtx replay t.v BROKEN",
        UNFINISHED,
        3,
        "vsimtx: P2 syntax at token 1\n",
    ),
    (
        "vsimtx explain broken.v JOURNAL",
        UNFINISHED,
        1,
        "vsimtx: cannot read broken.v\n",
    ),
    (
        "vsimtx explain t.v BROKEN",
        UNFINISHED,
        3,
        "vsimtx: P2 syntax at token 1\n",
    ),
    (
        "vsimtx waves broken.v JOURNAL --out OUT",
        UNFINISHED,
        1,
        "vsimtx: cannot read broken.v\n",
    ),
    (
        "vsimtx waves t.v BROKEN --out OUT",
        UNFINISHED,
        3,
        "vsimtx: P2 syntax at token 1\n",
    ),
];

#[test]
fn tells_the_first_file_fault(rt: HostRuntime) {
    for &(line, source, status, err) in FILE_FAULTS {
        assert_line(&rt, rt.alloc(), line, source, tells(status, err));
    }
}

/// Reading a journal fails after each number of its bytes.
fn assert_broken<R: Abort + Threads + Wait + Sync>(rt: &R, alloc: Global, journal: &[u8]) {
    let line = "vsimtx replay t.v BROKEN";
    let wanted = tells(1, "vsimtx: Q4 journal read error\n");
    for count in 0..=journal.len() {
        let setting = over_journal(HI, &journal[..count]);
        assert_in(rt, alloc, line, line, &setting, wanted);
    }
}

#[test]
fn tells_that_a_journal_breaks_off(rt: HostRuntime) {
    assert_broken(&rt, rt.alloc(), FIRST_VERSION);
    assert_broken(&rt, rt.alloc(), ONE_TURN);
}

/// The entries of a turn, and of the end of its wait.
fn turn_after_wait(rt: &impl Abort, alloc: Global, turn: u64) -> String {
    let time = decimal(rt, alloc, turn.saturating_mul(4_294_967_295));
    let turn = decimal(rt, alloc, turn);
    joined(
        rt,
        alloc,
        &["A ", time.as_str(), "\nT ", turn.as_str(), "\n"],
    )
}

/// The journal of a process that waits as long as it may, up to its last turn within the time that there is, and the
/// entries after, in version 1.
fn journal_of_longest_waits(rt: &impl Abort, alloc: Global, after: &str) -> String {
    let mut journal = joined(rt, alloc, &["vsimtx-journal 1\nT 0\n"]);
    for turn in 1..=65_536_u64 {
        let next = turn_after_wait(rt, alloc, turn);
        append(rt, &mut journal, next.as_str());
    }
    append(rt, &mut journal, after);
    journal
}

#[test]
fn no_journal_goes_past_the_last_time(rt: HostRuntime) {
    let journal = journal_of_longest_waits(&rt, rt.alloc(), "A 281479271612415\n");
    let setting = over_journal(LONGEST_WAITS, journal.as_bytes());
    let wanted = tells(5, "vsimtx: entry 131074: J5 time limit\n");
    assert_in(&rt, rt.alloc(), "the last time", REPLAY, &setting, wanted);
}
