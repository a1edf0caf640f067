//! Runs on two workers, one of which a probe holds: evaluations overlap, and a turn that read what has changed since is
//! evaluated again.

use super::claims::{holds, holds_of};
use super::counts::Count;
use super::running::{outcome_of, run_on};
use super::sources::{COPIES, DISPLAYS};
use super::threads::total;
use super::{EitherText, design_of, replayed};
use design::{Design, RegId};
use model::end::End;
use simulate::{Outcome, Probe, ReplyKind};
use std::alloc::Global;
use std::process::Abort;
use std::sync::Wait;
use std::thread::Threads;

/// A source, how many entries its runs have and how many evaluations at most, and what they may print.
#[derive(Clone, Copy)]
struct Raced<'a> {
    source: &'a str,
    entries: usize,
    evaluations: u64,
    texts: EitherText<'a>,
}

/// A run ended by itself after so many entries, and printed one of the texts: the one that its journal replays to.
fn assert_raced(
    rt: &impl Abort,
    alloc: Global,
    design: &Design,
    raced: &Raced<'_>,
    outcome: &Outcome,
) {
    let closed = &outcome.closed;
    let evaluations = total(outcome.evaluations.as_slice());
    let is_few = evaluations <= raced.evaluations;
    holds_of(rt, is_few, "the evaluations", raced.source);
    let is_all = closed.entries().len() == raced.entries;
    holds_of(rt, is_all, "the entries", raced.source);
    holds_of(rt, closed.end() == End::Quiet, "the end", raced.source);
    let is_one = raced.texts.has(closed.lines().as_bytes());
    holds_of(rt, is_one, "the lines", raced.source);
    let again = replayed(rt, alloc, design, closed.entries());
    let is_same = again.lines.as_str() == closed.lines();
    holds_of(rt, is_same, "the replay", raced.source);
}

/// A run on two workers.
fn run<P: Probe, R: Abort + Threads + Wait + Sync>(
    rt: &R,
    alloc: Global,
    raced: &Raced<'_>,
    probe: &P,
) {
    let design = design_of(rt, alloc, raced.source);
    let answer = run_on(rt, alloc, &design, 2, None, probe);
    assert_raced(rt, alloc, &design, raced, &outcome_of(rt, answer));
}

/// Keeps the first evaluation open until the gate has answered to another ticket.
#[derive(Drop)]
struct HoldsFirst {
    evaluations: Count,
    replies: Count,
    given_up: Count,
}

impl Probe for HoldsFirst {
    fn evaluation(&self, _worker: u32, _event: u64, _tries: u8) {
        if self.evaluations.add() == 0 {
            self.replies.wait(1, &self.given_up);
        }
    }

    fn read(&self, _worker: u32, _register: RegId) {}

    fn replied(&self, _worker: u32, _event: u64, _kind: ReplyKind) {
        self.replies.add();
    }
}

/// A run goes on while its first evaluation stays open until another turn is over. The gate answers to each evaluation.
fn assert_overlap<R: Abort + Threads + Wait + Sync>(rt: &R, alloc: Global, raced: &Raced<'_>) {
    let probe = HoldsFirst {
        evaluations: Count::new(),
        replies: Count::new(),
        given_up: Count::new(),
    };
    run(rt, alloc, raced, &probe);
    holds(rt, probe.given_up.get() == 0, "another reply came in time");
    holds(
        rt,
        probe.evaluations.get() == probe.replies.get(),
        "a reply to each evaluation",
    );
}

/// The same comes of each of a hundred runs.
fn assert_all_overlap<R: Abort + Threads + Wait + Sync>(rt: &R, alloc: Global, raced: &Raced<'_>) {
    for _ in 0..100u32 {
        assert_overlap(rt, alloc, raced);
    }
}

#[test]
fn evaluations_overlap(rt: HostRuntime) {
    for raced in OVERLAPS {
        assert_all_overlap(&rt, rt.alloc(), raced);
    }
}

const OVERLAPS: &[Raced<'static>] = &[
    // two processes print a line each
    Raced {
        source: DISPLAYS,
        entries: 2,
        evaluations: 2,
        texts: EitherText {
            one: "x\ny\n",
            other: "y\nx\n",
        },
    },
    // two processes copy each other's register at one time
    Raced {
        source: COPIES,
        entries: 9,
        evaluations: 28,
        texts: EitherText {
            one: "1 1\n",
            other: "0 0\n",
        },
    },
];

/// Keeps the evaluation of event 0 open until the second read has begun, and that read until the gate has answered to
/// event 0. So event 1 reads its second register after event 0's turn.
#[derive(Drop)]
struct HoldsRead {
    reads: Count,
    first_replies: Count,
    second_replies: Count,
    stale_at_first: Count,
    given_up: Count,
}

impl Probe for HoldsRead {
    fn evaluation(&self, _worker: u32, event: u64, _tries: u8) {
        if event == 0 {
            self.reads.wait(2, &self.given_up);
        }
    }

    fn read(&self, _worker: u32, _register: RegId) {
        if self.reads.add() == 1 {
            self.first_replies.wait(1, &self.given_up);
        }
    }

    fn replied(&self, _worker: u32, event: u64, kind: ReplyKind) {
        if event == 0 {
            self.first_replies.add();
        } else if self.second_replies.add() == 0 && kind == ReplyKind::Stale {
            self.stale_at_first.add();
        }
    }
}

/// A process makes two registers equal, and another one goes round for ever where they differ.
const MOMENTS: Raced<'static> = Raced {
    source: "module t; reg a, b; initial begin a=1'b0; b=1'b0; end initial while (a!==b) begin end endmodule",
    entries: 2,
    evaluations: 3,
    texts: EitherText { one: "", other: "" },
};

/// The turn whose two reads are of two moments is evaluated again.
fn assert_stale<R: Abort + Threads + Wait + Sync>(rt: &R, alloc: Global) {
    let probe = HoldsRead {
        reads: Count::new(),
        first_replies: Count::new(),
        second_replies: Count::new(),
        stale_at_first: Count::new(),
        given_up: Count::new(),
    };
    run(rt, alloc, &MOMENTS, &probe);
    holds(rt, probe.given_up.get() == 0, "the waits ended");
    holds(
        rt,
        probe.stale_at_first.get() == 1,
        "the first reply to event 1",
    );
    holds(
        rt,
        probe.second_replies.get() == 2,
        "the replies to event 1",
    );
}

#[test]
fn a_turn_over_two_moments_is_stale(rt: HostRuntime) {
    for _ in 0..100u32 {
        assert_stale(&rt, rt.alloc());
    }
}
