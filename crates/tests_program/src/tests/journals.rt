//! The journal of a run, which stands in OUT, in version 2, before the first line is written. A replay of it prints the lines of
//! the run.

use super::claims::holds;
use super::sources::{CLOCK, EMPTY, HI, NO_ENTRY, ONE_TURN};
use super::{
    CANNOT_WRITE, Expected, OLD, ONE_WORKER, REPLAY, SAVE, Setting, assert_in, assert_made, over,
    over_journal, prints, tells,
};
use std::alloc::Global;
use std::process::Abort;
use std::sync::Wait;
use std::thread::Threads;

/// A run leaves this journal and this, and a replay of it prints the same lines.
fn assert_journal<R: Abort + Threads + Wait + Sync>(
    rt: &R,
    alloc: Global,
    line: &str,
    source: &str,
    journal: &[u8],
    wanted: Expected<'_>,
) {
    assert_made(rt, alloc, line, &over(source), wanted, journal);
    let kept = over_journal(source, journal);
    assert_in(rt, alloc, source, REPLAY, &kept, prints(wanted.out));
}

/// Runs: their lines and sources, the status, what is printed and told, and the journal.
const JOURNALS: &[(&str, &str, u8, &str, &str, &[u8])] = &[
    (SAVE, HI, 0, "hi\n", "", ONE_TURN),
    (SAVE, EMPTY, 0, "", "", NO_ENTRY),
    // one worker takes the tickets in the order in which they were put, and a ticket before an update
    (
        ONE_WORKER,
        "module t; reg a, b; initial a<=1'b1; initial b<=1'b1; initial @(a) $display(\"%b\",b); endmodule",
        0,
        "x\n",
        "",
        b"vsimtx-journal 2\nT 0\nT 1\nT 2\nN\nU 3\nT 5\nU 4\nE 7\n",
    ),
    // a strobe that is shown has an entry
    (
        SAVE,
        "module t; initial $strobe(\"p\"); endmodule",
        0,
        "p\n",
        "",
        b"vsimtx-journal 2\nT 0\nM\nE 2\n",
    ),
    (
        SAVE,
        "module t; reg a; initial begin a=1'b0; $strobe(\"s %b\",a); a<=1'b1; $display(\"d %b\",a); end endmodule",
        0,
        "d 0\ns 1\n",
        "",
        b"vsimtx-journal 2\nT 0\nN\nU 1\nM\nE 4\n",
    ),
    (
        SAVE,
        "module t; initial begin $strobe(\"a\"); #1 $strobe(\"b\"); end endmodule",
        0,
        "a\nb\n",
        "",
        b"vsimtx-journal 2\nT 0\nM\nA 1\nT 1\nM\nE 5\n",
    ),
    (
        SAVE,
        "module t; initial begin $strobe(\"s\"); $finish; end endmodule",
        0,
        "",
        "",
        ONE_TURN,
    ),
    // a limit stops a run
    (
        "vsimtx run t.v --workers 4 --journal OUT --until 25",
        CLOCK,
        4,
        "t\nt\n",
        "vsimtx: stopped: until\n",
        b"vsimtx-journal 2\nT 0\nA 10\nT 1\nA 20\nT 2\nE 5\n",
    ),
    (
        "vsimtx run t.v --workers 4 --journal OUT --until 0",
        CLOCK,
        4,
        "",
        "vsimtx: stopped: until\n",
        ONE_TURN,
    ),
    (
        "vsimtx run t.v --workers 4 --journal OUT --max-entries 10",
        "module t; always #0 ; endmodule",
        4,
        "",
        "vsimtx: stopped: entries\n",
        b"vsimtx-journal 2\nT 0\nI\nT 1\nI\nT 2\nI\nT 3\nI\nT 4\nI\nE 10\n",
    ),
    // a process whose turns don't end is stopped before its first entry
    (
        SAVE,
        "module t; always ; endmodule",
        4,
        "",
        "vsimtx: stopped: process 0 too long\n",
        NO_ENTRY,
    ),
];

#[test]
fn a_journal_is_written_and_replayed(rt: HostRuntime) {
    for &(line, source, status, out, err, journal) in JOURNALS {
        let wanted = Expected { status, out, err };
        assert_journal(&rt, rt.alloc(), line, source, journal, wanted);
    }
}

/// Where there is only room for this much of the journal, no line is printed, and what stood in OUT stays.
fn assert_cut_journal<R: Abort + Threads + Wait + Sync>(rt: &R, alloc: Global, room: usize) {
    let cut = Setting { room, ..over(HI) };
    assert_made(rt, alloc, SAVE, &cut, tells(1, CANNOT_WRITE), OLD);
}

#[test]
fn writes_no_line_after_a_cut_journal(rt: HostRuntime) {
    holds(&rt, ONE_TURN.len() == 25, "another journal");
    for room in 0..ONE_TURN.len() {
        assert_cut_journal(&rt, rt.alloc(), room);
    }
}

/// What there may be room for of the line.
const CUTS: &[&str] = &["", "h", "hi"];

fn assert_journal_first<R: Abort + Threads + Wait + Sync>(rt: &R, alloc: Global, out: &str) {
    let cut = Setting {
        out_room: out.len(),
        ..over(HI)
    };
    let wanted = Expected {
        status: 1,
        out,
        err: CANNOT_WRITE,
    };
    assert_made(rt, alloc, SAVE, &cut, wanted, ONE_TURN);
}

#[test]
fn writes_the_journal_first(rt: HostRuntime) {
    for &out in CUTS {
        assert_journal_first(&rt, rt.alloc(), out);
    }
}
