//! Where tickets are put, and in which order workers look for them. Probes hold workers, so that each ticket can be got in
//! one way alone.

use super::claims::{holds, holds_as, holds_of};
use super::counts::Count;
use super::running::run_source;
use design::RegId;
use simulate::{Outcome, Probe, ReplyKind};
use std::alloc::Global;
use std::process::Abort;
use std::sync::Wait;
use std::thread::Threads;

/// What each of four workers evaluated, in order: a digit for each evaluation, which is the number of its event and one.
#[derive(Drop)]
struct HeldLook {
    workers: [Count; 4],
    evaluations: Count,
    given_up: Count,
}

impl HeldLook {
    fn new() -> HeldLook {
        HeldLook {
            workers: [Count::new(), Count::new(), Count::new(), Count::new()],
            evaluations: Count::new(),
            given_up: Count::new(),
        }
    }

    fn add(&self, worker: u32, event: u64) {
        if let Some(digits) = self.workers.get(worker as usize) {
            digits.push(event.saturating_add(1));
        }
        self.evaluations.add();
    }

    /// Waits until so many evaluations have begun.
    fn wait(&self, least: u64) {
        self.evaluations.wait(least, &self.given_up);
    }

    fn assert(&self, rt: &impl Abort, digits: &[u64; 4]) {
        holds(rt, self.given_up.get() == 0, "the waits ended");
        for (worker, wanted) in self.workers.iter().zip(digits) {
            holds_as(rt, "another order", worker.get(), *wanted);
        }
    }
}

/// Keeps the evaluation of each event open until so many evaluations have begun as the list has at its number.
#[derive(Drop)]
struct HoldsEvaluations<'a> {
    begun: &'a [u64],
    looked: HeldLook,
}

impl Probe for HoldsEvaluations<'_> {
    fn evaluation(&self, worker: u32, event: u64, _tries: u8) {
        self.looked.add(worker, event);
        if let Some(least) = self.begun.get(event as usize) {
            self.looked.wait(*least);
        }
    }

    fn read(&self, _worker: u32, _register: RegId) {}

    fn replied(&self, _worker: u32, _event: u64, _kind: ReplyKind) {}
}

/// So many tickets were put, of which so many were stolen, and none is left.
fn assert_tally(rt: &impl Abort, source: &str, outcome: &Outcome, puts: u128, steals: u128) {
    let tally = &outcome.tally;
    holds_of(rt, tally.puts() == puts, "the puts", source);
    holds_of(rt, tally.steals() == steals, "the steals", source);
    holds_of(rt, tally.left() == 0, "what is left", source);
}

/// A source, on how many workers, how long its evaluations are held, and what comes of it.
#[derive(Clone, Copy)]
struct HeldRun<'a> {
    source: &'a str,
    workers: u32,
    begun: &'a [u64],
    digits: &'a [u64; 4],
    puts: u128,
    steals: u128,
}

fn assert_held<R: Abort + Threads + Wait + Sync>(rt: &R, alloc: Global, held: &HeldRun<'_>) {
    let probe = HoldsEvaluations {
        begun: held.begun,
        looked: HeldLook::new(),
    };
    let outcome = run_source(rt, alloc, held.source, held.workers, &probe);
    probe.looked.assert(rt, held.digits);
    assert_tally(rt, held.source, &outcome, held.puts, held.steals);
}

/// The same comes of each of a hundred runs.
fn assert_all_held<R: Abort + Threads + Wait + Sync>(rt: &R, alloc: Global, held: &HeldRun<'_>) {
    for _ in 0..100u32 {
        assert_held(rt, alloc, held);
    }
}

const EIGHT_PROCESSES: &str =
    "module t; initial ; initial ; initial ; initial ; initial ; initial ; initial ; initial ; endmodule";

const HELD_RUNS: &[HeldRun<'static>] = &[
    // first tickets are placed round and round
    HeldRun {
        source: EIGHT_PROCESSES,
        workers: 4,
        begun: &[4, 4, 4, 4, 8, 8, 8, 8],
        digits: &[15, 26, 37, 48],
        puts: 8,
        steals: 0,
    },
    // a worker steals from the next one first
    HeldRun {
        source: EIGHT_PROCESSES,
        workers: 4,
        begun: &[8, 8, 4, 8],
        digits: &[1, 2, 37_856, 4],
        puts: 8,
        steals: 3,
    },
    // a later ticket goes to the worker that made it
    HeldRun {
        source: "module t; reg a; initial a=1'b1; initial @(a) ; initial ; initial ; endmodule",
        workers: 2,
        begun: &[3, 0, 0, 5],
        digits: &[135, 24, 0, 0],
        puts: 5,
        steals: 0,
    },
];

#[test]
fn each_ticket_is_got_in_its_one_way(rt: HostRuntime) {
    for held in HELD_RUNS {
        assert_all_held(&rt, rt.alloc(), held);
    }
}

/// Keeps the evaluation of event 0 open until the second read of event 1 has begun, that read until event 2 is evaluated,
/// and event 2's evaluation until event 1 is evaluated again.
#[derive(Drop)]
struct HoldsOther {
    looked: HeldLook,
    reads: Count,
}

impl Probe for HoldsOther {
    fn evaluation(&self, worker: u32, event: u64, _tries: u8) {
        self.looked.add(worker, event);
        if event == 0 {
            self.reads.wait(2, &self.looked.given_up);
        } else if event == 2 {
            self.looked.wait(4);
        }
    }

    fn read(&self, _worker: u32, _register: RegId) {
        if self.reads.add() == 1 {
            self.looked.wait(3);
        }
    }

    fn replied(&self, _worker: u32, _event: u64, _kind: ReplyKind) {}
}

fn assert_stale<R: Abort + Threads + Wait + Sync>(rt: &R, alloc: Global) {
    let source =
        "module t; reg a, b; initial begin a=1'b0; b=1'b0; end initial if (a!==b) begin end initial ; endmodule";
    let probe = HoldsOther {
        looked: HeldLook::new(),
        reads: Count::new(),
    };
    let outcome = run_source(rt, alloc, source, 2, &probe);
    probe.looked.assert(rt, &[13, 22, 0, 0]);
    assert_tally(rt, source, &outcome, 4, 0);
}

#[test]
fn a_stale_ticket_goes_back_to_its_worker(rt: HostRuntime) {
    for _ in 0..100u32 {
        assert_stale(&rt, rt.alloc());
    }
}
