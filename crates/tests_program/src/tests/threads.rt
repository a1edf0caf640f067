//! Runs on several workers, many times over: each prints one of the texts of its design, leaves a journal that one thread
//! replays to the same text, and evaluates no event more than four times.

use super::claims::{holds, holds_of};
use super::counts::Evaluations;
use super::running::{outcome_of, run_on};
use super::sources::{CLOCK, COPIES, FINISHES, SWAP, WAITERS};
use super::{EitherText, design_of, either, replayed};
use commitgate::Closed;
use design::Design;
use model::entry::Entry;
use regions::State;
use simulate::Outcome;
use std::alloc::Global;
use std::process::Abort;
use std::sync::Wait;
use std::thread::Threads;

/// No event of these short runs has a number as great.
const EVENTS: u64 = 100;

fn turns_in(entries: &[Entry]) -> u64 {
    let mut turns = 0u64;
    for entry in entries {
        if matches!(entry, Entry::Turn(_)) {
            turns = turns.saturating_add(1);
        }
    }
    turns
}

pub(super) fn total(numbers: &[u64]) -> u64 {
    let mut sum = 0u64;
    for number in numbers {
        sum = sum.saturating_add(*number);
    }
    sum
}

fn is_active(state: &State, event: u64) -> bool {
    state.evaluation(event).is_some()
}

/// How many evaluations are still active.
fn active_in(state: &State) -> u64 {
    let mut active = 0u64;
    for event in 0..EVENTS {
        active = active.saturating_add(u64::from(is_active(state, event)));
    }
    active
}

/// How many evaluations are active after a run's journal. A replay of it prints the same lines.
fn active_after(rt: &impl Abort, alloc: Global, design: &Design, closed: &Closed) -> u64 {
    let again = replayed(rt, alloc, design, closed.entries());
    let lines = again.lines.as_str();
    holds(rt, lines == closed.lines(), "the lines of the replay");
    active_in(&again.state)
}

/// There is an evaluation of each turn, and at most four of each turn and of each evaluation that is still active at the end.
fn assert_evaluations(rt: &impl Abort, turns: u64, active: u64, evaluations: u64) {
    holds(rt, turns <= evaluations, "evaluations of all turns");
    let most = turns.saturating_add(active).saturating_mul(4);
    holds(rt, evaluations <= most, "four evaluations of a turn");
}

/// A run prints one of the texts, and replays to it.
fn assert_outcome(
    rt: &impl Abort,
    alloc: Global,
    design: &Design,
    outcome: &Outcome,
    evaluations: &Evaluations,
    texts: EitherText<'_>,
) {
    let closed = &outcome.closed;
    let is_one = texts.has(closed.lines().as_bytes());
    holds_of(rt, is_one, "the lines", texts.one);
    let active = active_after(rt, alloc, design, closed);
    let counted = evaluations.assert_few(rt);
    let is_sum = counted == total(outcome.evaluations.as_slice());
    holds_of(rt, is_sum, "the evaluations", texts.one);
    assert_evaluations(rt, turns_in(closed.entries()), active, counted);
}

/// One run up to time 25.
fn assert_run<R: Abort + Threads + Wait + Sync>(
    rt: &R,
    alloc: Global,
    design: &Design,
    workers: u32,
    texts: EitherText<'_>,
) {
    let evaluations = Evaluations::new(rt, alloc, EVENTS);
    let answer = run_on(rt, alloc, design, workers, Some(25), &evaluations);
    let outcome = outcome_of(rt, answer);
    assert_outcome(rt, alloc, design, &outcome, &evaluations, texts);
}

/// So many runs on so many workers.
fn assert_runs<R: Abort + Threads + Wait + Sync>(
    rt: &R,
    alloc: Global,
    design: &Design,
    workers: u32,
    runs: u32,
    texts: EitherText<'_>,
) {
    for _ in 0..runs {
        assert_run(rt, alloc, design, workers, texts);
    }
}

/// How often a source is run on each number of workers. A test has a minute, also on a machine that is busy, where a run on 16 workers
/// may take a tenth of a second.
const RUNS: u32 = 10;

/// The runs of a source on each number of workers.
fn assert_source<R: Abort + Threads + Wait + Sync>(
    rt: &R,
    alloc: Global,
    source: &str,
    texts: EitherText<'_>,
) {
    let design = design_of(rt, alloc, source);
    for workers in 1..=16_u32 {
        assert_runs(rt, alloc, &design, workers, RUNS, texts);
    }
}

/// A source, and the two texts that it may print, or its only one twice.
type ThreadRace<'a> = (&'a str, &'a str, &'a str);

/// Sources that race.
const RACES: &[ThreadRace<'static>] = &[
    // copies race as whole turns
    (COPIES, "1 1\n", "0 0\n"),
    // waiters wake in either order
    (WAITERS, "p1\np2\n", "p2\np1\n"),
];

/// Sources whose runs stop, and one that has one outcome.
const STOPS: &[ThreadRace<'static>] = &[
    // a finished run ends on every worker
    (FINISHES, "a\n", "c\na\n"),
    // a clock stops at its limit on every worker
    (CLOCK, "t\nt\n", "t\nt\n"),
    // a swap has one outcome
    (SWAP, "1 0\n", "1 0\n"),
];

/// Sources with strobes.
const STROBES: &[ThreadRace<'static>] = &[
    // strobes of one time come in the order of the turns
    (
        "module t; reg a; initial begin a=1'b0; $strobe(\"p %b\",a); a<=1'b1; end initial $strobe(\"q %b\",a); endmodule",
        "p 1\nq 1\n",
        "q 1\np 1\n",
    ),
    // strobes come before the time advances
    (
        "module t; reg [3:0] n; initial begin n=4'd0; while (n<4'd3) begin $strobe(\"n %0d\",n); n<=n+4'd1; #1; end end endmodule",
        "n 1\nn 2\nn 3\n",
        "n 1\nn 2\nn 3\n",
    ),
];

/// The runs of some sources.
fn assert_sources<R: Abort + Threads + Wait + Sync>(
    rt: &R,
    alloc: Global,
    sources: &[ThreadRace<'_>],
) {
    for &(source, one, other) in sources {
        assert_source(rt, alloc, source, either(one, other));
    }
}

#[test]
fn every_number_of_workers_prints_one_of_the_texts(rt: HostRuntime) {
    assert_sources(&rt, rt.alloc(), RACES);
}

#[test]
fn every_number_of_workers_stops(rt: HostRuntime) {
    assert_sources(&rt, rt.alloc(), STOPS);
}

#[test]
fn every_number_of_workers_strobes_in_order(rt: HostRuntime) {
    assert_sources(&rt, rt.alloc(), STROBES);
}

/// So many runs of the two copies on so many workers.
fn assert_copies<R: Abort + Threads + Wait + Sync>(rt: &R, alloc: Global, workers: u32, runs: u32) {
    let design = design_of(rt, alloc, COPIES);
    let texts = either("1 1\n", "0 0\n");
    assert_runs(rt, alloc, &design, workers, runs, texts);
}

#[test]
fn a_thousand_copies_on_two_workers(rt: HostRuntime) {
    assert_copies(&rt, rt.alloc(), 2, 1_000);
}

#[test]
fn a_thousand_copies_on_four_workers(rt: HostRuntime) {
    assert_copies(&rt, rt.alloc(), 4, 1_000);
}

/// A thousand runs on 16 workers are four tests, so that each has its minute.
#[test]
fn a_thousand_copies_on_sixteen_workers_1(rt: HostRuntime) {
    assert_copies(&rt, rt.alloc(), 16, 250);
}

#[test]
fn a_thousand_copies_on_sixteen_workers_2(rt: HostRuntime) {
    assert_copies(&rt, rt.alloc(), 16, 250);
}

#[test]
fn a_thousand_copies_on_sixteen_workers_3(rt: HostRuntime) {
    assert_copies(&rt, rt.alloc(), 16, 250);
}

#[test]
fn a_thousand_copies_on_sixteen_workers_4(rt: HostRuntime) {
    assert_copies(&rt, rt.alloc(), 16, 250);
}
