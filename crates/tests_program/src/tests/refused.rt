//! Runs on one worker in too little memory: each ends before its first entry, is stopped for memory with a beginning of its
//! journal, or is whole.

use super::claims::{fail, holds, holds_of};
use super::running::{outcome_of, run_on};
use super::sources::{SWAP, WRITERS};
use super::{design_of, replayed};
use commitgate::Closed;
use design::Design;
use hoard::Hoard;
use model::end::{End, Why};
use model::entry::Entry;
use simulate::{Outcome, SimFault, Unobserved};
use std::alloc::Global;
use std::process::Abort;
use std::sync::Wait;
use std::thread::Threads;

/// How much more memory a run gets each time, and how often at most.
const STEP: usize = 48;

const ROOMS: usize = 1_200;

/// The bytes of a piece of memory. Each run takes a piece, and each look at what it left.
const PIECE: usize = 64 << 10;

/// How many runs had no memory to begin with, and how many were stopped for want of it.
#[derive(Clone, Copy)]
struct RefusedRuns {
    begins: u32,
    stops: u32,
}

/// How far a run came.
#[derive(Clone, Copy)]
enum RunReach {
    Nothing,
    Stop,
    End,
}

fn how_far(end: End) -> RunReach {
    match end {
        End::Quiet => RunReach::End,
        _ => RunReach::Stop,
    }
}

/// Either the run is over, with a whole journal, or it was stopped for memory.
fn assert_end(rt: &impl Abort, end: End, is_whole: bool) {
    let is_end = match end {
        End::Quiet => is_whole,
        _ => end == End::Stopped(Why::Memory),
    };
    holds(rt, is_end, "the end");
}

/// A journal replays to these lines.
fn assert_lines(rt: &impl Abort, alloc: Global, design: &Design, entries: &[Entry], lines: &str) {
    let again = replayed(rt, alloc, design, entries);
    holds_of(rt, again.lines.as_str() == lines, "the lines", lines);
}

/// A run of one worker has one journal, of which the run that was stopped has a beginning, with its lines.
fn assert_begun(rt: &impl Abort, alloc: Global, design: &Design, whole: &[Entry], closed: Closed) {
    let (entries, lines, end, _committed) = closed.into_parts();
    let entries = entries.as_slice();
    holds(rt, whole.starts_with(entries), "a beginning of the journal");
    assert_end(rt, end, entries.len() == whole.len());
    assert_lines(rt, alloc, design, entries, lines.as_str());
}

/// What a run leaves in so much memory, if it begins. Then there is a piece of memory for a look at it.
fn run_within<R: Abort + Threads + Wait + Sync>(
    rt: &R,
    alloc: Global,
    design: &Design,
    hoard: &mut Hoard,
    room: usize,
) -> Result<Outcome, SimFault> {
    holds(rt, hoard.leave(room), "a piece of memory");
    let answer = run_on(rt, alloc, design, 1, None, &Unobserved);
    holds(rt, hoard.open(), "a piece of memory");
    answer
}

/// How far a run comes in so much memory.
fn try_within<R: Abort + Threads + Wait + Sync>(
    rt: &R,
    alloc: Global,
    design: &Design,
    whole: &[Entry],
    hoard: &mut Hoard,
    room: usize,
) -> RunReach {
    match run_within(rt, alloc, design, hoard, room) {
        Ok(outcome) => {
            let reached = how_far(outcome.closed.end());
            assert_begun(rt, alloc, design, whole, outcome.closed);
            reached
        }
        Err(fault) => {
            holds(
                rt,
                fault == SimFault::Memory,
                "memory before the first worker",
            );
            RunReach::Nothing
        }
    }
}

/// Runs a source in more and more memory, until it meets no refusal.
fn run_starved<R: Abort + Threads + Wait + Sync>(
    rt: &R,
    alloc: Global,
    design: &Design,
    whole: &[Entry],
) -> RefusedRuns {
    let mut hoard = Hoard::new(alloc, 2 * ROOMS, PIECE).expect(rt, "memory");
    let mut refused = RefusedRuns {
        begins: 0,
        stops: 0,
    };
    for count in 0..ROOMS {
        let room = count.saturating_mul(STEP);
        match try_within(rt, alloc, design, whole, &mut hoard, room) {
            RunReach::End => return refused,
            RunReach::Stop => refused.stops = refused.stops.saturating_add(1),
            RunReach::Nothing => refused.begins = refused.begins.saturating_add(1),
        }
        hoard.shut();
    }
    fail(rt, "no whole run")
}

/// A source is refused memory before its run begins, and while it goes on.
fn assert_starved<R: Abort + Threads + Wait + Sync>(rt: &R, alloc: Global, source: &str) {
    let design = design_of(rt, alloc, source);
    let whole = outcome_of(rt, run_on(rt, alloc, &design, 1, None, &Unobserved));
    let refused = run_starved(rt, alloc, &design, whole.closed.entries());
    holds(rt, refused.begins > 0 && refused.stops > 0, source);
}

const SOURCES: &[&str] = &[
    // a swap
    SWAP,
    // a glitch
    "module t; reg a; initial begin a=1'b1; #1 a=1'b0; a=1'b1; end initial #0 @(posedge a) $display(\"glitch\"); endmodule",
    // two writers
    WRITERS,
    // a copy
    "module t; reg a, b; initial a=1'b1; initial b=a; initial #1 $display(\"%b\",b); endmodule",
];

#[test]
fn a_run_is_stopped_for_memory(rt: HostRuntime) {
    for &source in SOURCES {
        assert_starved(&rt, rt.alloc(), source);
    }
}
