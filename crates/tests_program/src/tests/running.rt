//! Runs of a design, or of a source, on so many workers.

ghost use Rattle.std.specs.Prelude.{◌≤◌, IfSome};
ghost use Rattle.model.specs.Runs.{last_time};

use super::design_of;
use design::Design;
use simulate::{Options, Outcome, Probe, SimFault, simulate};
use std::alloc::Global;
use std::process::Abort;
use std::sync::Wait;
use std::thread::Threads;

/// What a run leaves, or why none began. Tests share this call of `simulate`, since it is dear to prove.
pub(super) fn run_on<P: Probe, R: Abort + Threads + Wait + Sync>(
    rt: &R,
    alloc: Global,
    design: &Design,
    workers: u32,
    until: Option<u64>,
    probe: &P,
) -> Result<Outcome, SimFault>
    requires reached { IfSome until (λ time. time ≤ last_time) }
{
    assert!(rt; 1 <= workers, "some workers");
    assert!(rt; workers <= 16, "few workers");
    let options = Options {
        workers,
        until,
        max_entries: 1_000,
    };
    simulate(rt, alloc, design, options, probe)
}

/// What a run left, which had workers and memory.
pub(super) fn outcome_of(rt: &impl Abort, answer: Result<Outcome, SimFault>) -> Outcome {
    answer.expect(rt, "a run")
}

/// What a run of a source leaves, which ends by itself.
pub(super) fn run_source<P: Probe, R: Abort + Threads + Wait + Sync>(
    rt: &R,
    alloc: Global,
    source: &str,
    workers: u32,
    probe: &P,
) -> Outcome {
    let design = design_of(rt, alloc, source);
    outcome_of(rt, run_on(rt, alloc, &design, workers, None, probe))
}
