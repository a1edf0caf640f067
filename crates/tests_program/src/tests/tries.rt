//! How often an event is evaluated: four times at most, also by a worker that commits several turns at once.

use super::claims::{holds, holds_as};
use super::counts::{Count, Evaluations};
use super::running::run_source;
use super::{TextPattern, repeated};
use design::RegId;
use model::end::{End, Why};
use simulate::{Probe, ReplyKind};
use std::alloc::Global;
use std::process::Abort;
use std::sync::Wait;
use std::thread::Threads;

/// After so many short turns, of which none is stale, a worker commits several at once. It evaluates the next ticket first
/// with the lesser number, and with the greater one behind another ticket.
const SHORT_TURNS: &[u32] = &[100, 101];

/// Lets another worker commit the turn of an odd event between the two reads of each evaluation of one event, as long as that
/// event isn't accepted. So each of them reads values of two moments.
#[derive(Drop)]
struct Mixes {
    event: u64,
    evaluations: Evaluations,
    reads: Count,
    // Of the odd events: how many may be evaluated, how many evaluations were begun, and how many answers were given.
    allowed: Count,
    begun: Count,
    answered: Count,
    given_up: Count,
}

impl Mixes {
    fn new(rt: &impl Abort, alloc: Global, event: u64) -> Mixes {
        Mixes {
            event,
            evaluations: Evaluations::new(rt, alloc, event.saturating_add(1)),
            reads: Count::new(),
            allowed: Count::new(),
            begun: Count::new(),
            answered: Count::new(),
            given_up: Count::new(),
        }
    }
}

fn is_odd(event: u64) -> bool {
    event % 2 == 1
}

impl Probe for Mixes {
    fn evaluation(&self, _worker: u32, event: u64, _tries: u8) {
        self.evaluations.add(event);
        if is_odd(event) {
            let others = self.begun.add();
            self.allowed.wait(others.saturating_add(1), &self.given_up);
        }
    }

    fn read(&self, _worker: u32, _register: RegId) {
        if is_odd(self.reads.add()) {
            let others = self.allowed.add();
            self.answered.wait(others.saturating_add(1), &self.given_up);
        }
    }

    fn replied(&self, _worker: u32, event: u64, kind: ReplyKind) {
        if is_odd(event) {
            self.answered.add();
        } else if event == self.event && kind == ReplyKind::Accepted {
            self.allowed.fill();
        }
    }
}

/// So many times two processes, of which the second one writes the same number to both registers, and one that loops where they
/// differ.
const MIXED: TextPattern<'static> = TextPattern {
    before: "module t; reg [7:0] a, b;",
    numbered: &[" initial ; initial begin a=8'd", "; b=8'd"],
    last: "; end",
    after: " initial while (a!==b) begin end endmodule",
};

/// So many processes that do nothing, and one that loops for ever.
const ENDLESS: TextPattern<'static> = TextPattern {
    before: "module t;",
    numbered: &[],
    last: " initial ;",
    after: " initial while (1'b1) begin end endmodule",
};

/// An event was evaluated so often, and none more than four times.
fn assert_times(rt: &impl Abort, evaluations: &Evaluations, event: u64, wanted: u64) {
    evaluations.assert_few(rt);
    holds_as(rt, "evaluations", evaluations.of(event), wanted);
}

fn assert_end(rt: &impl Abort, end: End, wanted: End) {
    holds(rt, end == wanted, "the end");
}

/// The last process reads values of two moments three times, and is then evaluated under the lock.
fn assert_mixed<R: Abort + Threads + Wait + Sync>(rt: &R, alloc: Global, times: u32) {
    let event = u64::from(times).saturating_mul(2);
    let probe = Mixes::new(rt, alloc, event);
    let source = repeated(rt, alloc, MIXED, u64::from(times));
    let outcome = run_source(rt, alloc, source.as_str(), 2, &probe);
    assert_end(rt, outcome.closed.end(), End::Quiet);
    assert_times(rt, &probe.evaluations, event, 4);
    holds(rt, probe.given_up.get() == 0, "the waits ended");
}

/// The last process stops the run at its first evaluation, behind the turns of all others.
fn assert_endless<R: Abort + Threads + Wait + Sync>(rt: &R, alloc: Global, times: u32) {
    let event = u64::from(times);
    let probe = Evaluations::new(rt, alloc, event.saturating_add(1));
    let source = repeated(rt, alloc, ENDLESS, event);
    let outcome = run_source(rt, alloc, source.as_str(), 1, &probe);
    let closed = &outcome.closed;
    assert_end(rt, closed.end(), End::Stopped(Why::TooLong(times)));
    holds(rt, closed.entries().len() == times as usize, "the entries");
    assert_times(rt, &probe, event, 1);
}

#[test]
fn no_event_is_evaluated_more_than_four_times(rt: HostRuntime) {
    for &times in SHORT_TURNS {
        assert_mixed(&rt, rt.alloc(), times);
        assert_endless(&rt, rt.alloc(), times);
    }
}
