//! What a search of all orders asks of a run: what may be next, a copy that goes on apart, and the lines of each entry.

use super::super::compare::assert_text;
use super::{apply, apply_all, assert_next_entries};
use crate::claims::holds;
use fixtures::entries::{A1, N, T0, T1, U2};
use logic4::bits::Bits;
use model::entry::Entry;
use regions::Machine;
use std::alloc::Global;
use std::process::Abort;

/// Two updates, the first of which wakes a process.
pub(super) const WOKEN: &str =
    "module t; reg a, b; initial begin a <= 1'b1; b <= 1'b1; end initial @(a) ; endmodule";

/// The entries up to the first of them.
pub(super) const WOKEN_JOURNAL: &[Entry] = &[T0, T1, N, U2];

/// Two processes that give one register a value.
pub(super) const RACE: &str = "module t; reg a, b; initial a = 1'b0; initial a = 1'b1; endmodule";

/// A process that prints, waits, and prints again.
pub(super) const PRINTED: &str =
    "module t; reg a, b; initial begin $display(\"first\"); #1 $display(\"second\"); end endmodule";

// A register has a value.
fn assert_value(rt: &impl Abort, run: &Machine<'_>, wanted: u64) {
    holds(
        rt,
        run.value(0) == Some(Bits::from_u64(1, wanted)),
        "another value",
    );
}

// A run and its copy take two turns, each in another order.
fn assert_both_orders(
    rt: &impl Abort,
    alloc: Global,
    run: &mut Machine<'_>,
    copy: &mut Machine<'_>,
) {
    apply_all(rt, run, &[T0, T1]);
    assert_next_entries(rt, alloc, run, &[]);
    assert_next_entries(rt, alloc, copy, &[T0, T1]);
    apply_all(rt, copy, &[T1, T0]);
    assert_value(rt, run, 1);
    assert_value(rt, copy, 0);
}

// These lines were printed since they were last taken out.
fn assert_lines(rt: &impl Abort, run: &mut Machine<'_>, wanted: &str) {
    let lines = run.take_lines();
    assert_text(rt, &lines, wanted);
}

// A run gives the lines of each entry, and its copy has those that weren't taken out.
fn assert_lines_apart(rt: &impl Abort, run: &mut Machine<'_>, copy: &mut Machine<'_>) {
    assert_lines(rt, run, "first\n");
    assert_lines(rt, run, "");
    apply_all(rt, run, &[A1, T1]);
    assert_lines(rt, run, "second\n");
    assert_lines(rt, copy, "first\n");
}

/// What is known of a run and its copy: they take two turns, each in another order, or each has lines of its own.
#[derive(Clone, Copy)]
pub(super) enum KnownCopy {
    Orders,
    Lines,
}

// This is known of a run and its copy.
fn assert_known_copy(
    rt: &impl Abort,
    alloc: Global,
    run: &mut Machine<'_>,
    copy: &mut Machine<'_>,
    known: KnownCopy,
) {
    match known {
        KnownCopy::Orders => assert_both_orders(rt, alloc, run, copy),
        KnownCopy::Lines => assert_lines_apart(rt, run, copy),
    }
}

/// This is known of a run and its copy, which go on apart.
pub(super) fn assert_apart(
    rt: &impl Abort,
    alloc: Global,
    run: &mut Machine<'_>,
    known: KnownCopy,
) {
    let mut copy = run.copy(alloc).expect(rt, "memory");
    assert_known_copy(rt, alloc, run, &mut copy, known);
}

/// What is due, and the evaluations that were made, after some entries of the swap.
pub(super) fn assert_due(rt: &impl Abort, run: &mut Machine<'_>) {
    holds(rt, run.due().is_none(), "nothing is due");
    apply(rt, run, T0);
    holds(rt, run.due() == Some(A1), "time 1 is due");
    holds(rt, run.next_time() == Some(1), "time 1 is next");
    apply(rt, run, A1);
    holds(rt, run.time() == 1, "time 1");
    holds(rt, run.made().len() == 1, "one evaluation was made");
    holds(rt, !run.is_quiet(), "events are left");
    holds(rt, !run.is_finished(), "it goes on");
}
