//! Output that fails behind some bytes: there is no room for more, or what was written can't be flushed. The bytes stay, and that
//! is told.

use super::sources::{CLOCK, EMPTY, HI, NO_ENTRY, ONE_TURN, RACE};
use super::{
    CANNOT_WRITE, EXPLAIN, Expected, REPLAY, SAVE, Setting, assert_in, assert_made, over,
    over_journal,
};
use std::alloc::Global;
use std::process::Abort;
use std::sync::Wait;
use std::thread::Threads;

/// A command line, its source and its journal, and what stands on output.
type CutOutput = (&'static str, &'static str, &'static [u8], &'static str);

const HELLO: &str = "module t; initial $display(\"hello\"); endmodule";

/// The beginning of what is told of `ONE_TURN`.
const FIRST_TURN: &str = "1  time 0  active  turn of process 0, initial at line 1";

/// What is told of `NO_ENTRY`.
const QUIET: &str = "quiet after 0 entries at time 0\n";

/// There is room for this much.
const CUTS: &[CutOutput] = &[
    ("vsimtx --help", EMPTY, b"", "Simul"),
    (SAVE, HELLO, b"", "hel"),
    (REPLAY, HI, ONE_TURN, ""),
    (REPLAY, HI, ONE_TURN, "h"),
    (REPLAY, HI, ONE_TURN, "hi"),
    (EXPLAIN, HI, ONE_TURN, ""),
    (EXPLAIN, HI, ONE_TURN, FIRST_TURN),
    ("vsimtx races t.v --observe registers", HI, b"", "one w"),
    // a stop is only told after its lines
    ("vsimtx run t.v --until 10", CLOCK, b"", "t"),
];

/// All that is printed stands there, and can't be flushed.
const UNFLUSHED: &[CutOutput] = &[
    ("vsimtx run t.v", HI, b"", "hi\n"),
    ("vsimtx run t.v --seed 1", HI, b"", "hi\n"),
    // the stop isn't told then
    ("vsimtx run t.v --until 10", CLOCK, b"", "t\n"),
    (REPLAY, HI, ONE_TURN, "hi\n"),
    (EXPLAIN, EMPTY, NO_ENTRY, QUIET),
    ("vsimtx check t.v", HI, b"", "t.v: no fault\n"),
];

/// A command line leaves just this on output, and tells that it couldn't write.
fn assert_unwritten<R: Abort + Threads + Wait + Sync>(
    rt: &R,
    alloc: Global,
    line: &str,
    setting: Setting<'_>,
    out: &str,
) {
    let wanted = Expected {
        status: 1,
        out,
        err: CANNOT_WRITE,
    };
    assert_in(rt, alloc, line, line, &setting, wanted);
}

#[test]
fn tells_that_output_is_cut(rt: HostRuntime) {
    for &(line, source, journal, out) in CUTS {
        let cut = Setting {
            out_room: out.len(),
            ..over_journal(source, journal)
        };
        assert_unwritten(&rt, rt.alloc(), line, cut, out);
    }
}

#[test]
fn tells_that_output_cannot_be_flushed(rt: HostRuntime) {
    for &(line, source, journal, out) in UNFLUSHED {
        let unflushed = Setting {
            out_flushes: false,
            ..over_journal(source, journal)
        };
        assert_unwritten(&rt, rt.alloc(), line, unflushed, out);
    }
}

/// What is told of the race before a search, with the journals of its texts.
const RACE_TOLD: &str =
    "race 1: register a, time 0\n  process 0, initial at line 1, writes it at line 1\n  process 1, initial at line 1, reads it at line 1\n  the first before the second (OUT.1.journal): printed line 1 is `1`\n  the second before the first (OUT.2.journal): printed line 1 is `x`\n";

/// The journal of the second text.
const TURNED: &[u8] = b"vsimtx-journal 2\nT 1\nT 0\nE 2\n";

/// The journals of the texts that are known before a search stand where nothing can be written that is said behind it.
#[test]
fn journals_stand_before_a_search(rt: HostRuntime) {
    let line = "vsimtx races t.v --journals OUT";
    let cut = Setting {
        out_room: RACE_TOLD.len(),
        ..over(RACE)
    };
    let wanted = Expected {
        status: 1,
        out: RACE_TOLD,
        err: CANNOT_WRITE,
    };
    assert_made(&rt, rt.alloc(), line, &cut, wanted, TURNED);
}
