//! Sources that race, each with the texts that it may print, and runs that stop. The journal of a run replays to the lines
//! that the run printed.

use super::claims::holds;
use super::sources::{COPIES, DISPLAYS, FINISHES, LONGEST_WAITS, WAITERS, WRITERS};
use super::{
    EitherText, Expected, ONE_WORKER, SAVE, assert_left, assert_replayed, assert_texts, either,
    prints, run_line, tells,
};
use std::alloc::Global;
use std::process::Abort;
use std::sync::Wait;
use std::thread::Threads;

/// A source, and the two texts that it may print.
#[derive(Clone, Copy)]
struct RacingSource<'a> {
    source: &'a str,
    texts: EitherText<'a>,
}

/// A run by this line prints one of the texts, and its journal replays to the same.
fn assert_run_by<R: Abort + Threads + Wait + Sync>(
    rt: &R,
    alloc: Global,
    race: RacingSource<'_>,
    line: &str,
) {
    let left = run_line(rt, alloc, line, race.source);
    assert_texts(rt, race.source, &left, race.texts);
    assert_replayed(rt, alloc, race.source, &left);
}

/// So many runs of a source print one of two texts each.
fn assert_race<R: Abort + Threads + Wait + Sync>(
    rt: &R,
    alloc: Global,
    race: RacingSource<'_>,
    times: u32,
) {
    for _ in 0..times {
        assert_run_by(rt, alloc, race, SAVE);
    }
}

/// Sources, the two texts that each may print, and how often it is run.
const RACES: &[(&str, &str, &str, u32)] = &[
    (DISPLAYS, "x\ny\n", "y\nx\n", 100),
    (WRITERS, "0\n", "1\n", 100),
    (WAITERS, "p1\np2\n", "p2\np1\n", 100),
    (FINISHES, "a\n", "c\na\n", 100),
    // copies race as whole turns
    (COPIES, "1 1\n", "0 0\n", 1_000),
    // strobes of two processes come in the order of their turns
    (
        "module t; initial $strobe(\"p\"); initial $strobe(\"q\"); endmodule",
        "p\nq\n",
        "q\np\n",
        100,
    ),
];

#[test]
fn prints_a_race_in_one_of_its_orders(rt: HostRuntime) {
    for &(source, one, other, times) in RACES {
        let texts = either(one, other);
        assert_race(&rt, rt.alloc(), RacingSource { source, texts }, times);
    }
}

fn lines_in(text: &[u8]) -> usize {
    text.iter().filter(|byte| **byte == b'\n').count()
}

/// The header, 131,073 entries, of which the last two are at the last time that is reached, and their count.
fn assert_last_time<R: Abort + Threads + Wait + Sync>(rt: &R, alloc: Global) {
    let source = LONGEST_WAITS;
    let left = run_line(rt, alloc, SAVE, source);
    assert_replayed(rt, alloc, source, &left);
    assert_left(rt, source, &left, tells(4, "vsimtx: stopped: time\n"));
    let journal = left.made.as_slice();
    holds(rt, lines_in(journal) == 131_075, "the lines");
    let last = b"A 281474976645120\nT 65536\nE 131073\n".as_slice();
    holds(rt, journal.ends_with(last), "the last lines");
}

#[test]
fn stops_at_the_last_time(rt: HostRuntime) {
    assert_last_time(&rt, rt.alloc());
}

/// The first of the two processes that runs is the run's only entry.
fn assert_first_process<R: Abort + Threads + Wait + Sync>(rt: &R, alloc: Global) {
    let line = "vsimtx run t.v --max-entries 1";
    let source = FINISHES;
    let left = run_line(rt, alloc, line, source);
    let wanted = if left.status == 0 {
        prints("a\n")
    } else {
        Expected {
            status: 4,
            out: "c\n",
            err: "vsimtx: stopped: entries\n",
        }
    };
    assert_left(rt, source, &left, wanted);
}

#[test]
fn the_most_entries_stop_a_run_with_events_left(rt: HostRuntime) {
    assert_first_process(&rt, rt.alloc());
}

const EVERY_NUMBER: &[&str] = &[
    ONE_WORKER,
    "vsimtx run t.v --workers 2 --journal OUT",
    "vsimtx run t.v --workers 3 --journal OUT",
    "vsimtx run t.v --workers 4 --journal OUT",
    "vsimtx run t.v --workers 8 --journal OUT",
    "vsimtx run t.v --workers 16 --journal OUT",
];

/// The source of the folder `examples` that may print two texts.
#[test]
fn two_writers_end_on_every_number_of_workers(rt: HostRuntime) {
    let race = RacingSource {
        source: "module two_writers; reg a; initial begin a = 1'b1; $display(\"x\"); end initial begin a = 1'b0; $display(\"y\"); end endmodule",
        texts: either("x\ny\n", "y\nx\n"),
    };
    for &line in EVERY_NUMBER {
        assert_run_by(&rt, rt.alloc(), race, line);
    }
}
