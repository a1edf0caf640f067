//! What is observed of all lawful orders of small designs: texts with what is seen of registers whenever time passes, the lines of each time in the order
//! of their bytes, derived by hand.

use super::compare::assert_length;
use super::held::design_of;
use crate::claims::holds;
use design::{Design, RegId};
use explore::{Bounds, Explored};
use lawful::observed_orders;
use looseruns::observed_end::ObservedEnd;
use model::end::{End, Limits};
use model::entry::Entry;
use observers::Observing;
use progress::Untold;
use std::alloc::Global;
use std::process::Abort;

/// Two processes give one register a value, and another one shows a register that has one value in all orders.
const HIDDEN_RACE: &[u8] =
    b"module t; reg a, b; initial a=1'b0; initial a=1'b1; initial b=1'b1; initial #1 $display(\"%b\",b); endmodule";

/// A search: of which registers, what is observed, and what is seen of the last state.
#[derive(Clone, Copy)]
struct ObservedRow<'a> {
    registers: &'a [RegId],
    texts: &'a [&'a [u8]],
    ends: &'a [&'a [u8]],
}

const ROWS: &[ObservedRow<'static>] = &[
    // the register of the race has either value when time passes, and keeps it
    ObservedRow {
        registers: &[0],
        texts: &[b"\x800\n0\n", b"\x800\n1\n"],
        ends: &[b"1\n\x801\n0\n", b"1\n\x801\n1\n"],
    },
    // the other one has one value
    ObservedRow {
        registers: &[1],
        texts: &[b"\x800\n1\n"],
        ends: &[b"1\n\x801\n1\n"],
    },
    // the time alone is the same in all orders
    ObservedRow {
        registers: &[],
        texts: &[b"\x800\n"],
        ends: &[b"1\n\x801\n"],
    },
];

// Bytes are one of these.
fn is_among(bytes: &[u8], all: &[&[u8]]) -> bool {
    for one in all {
        if bytes == *one {
            return true;
        }
    }
    false
}

// What a search of a design finds of these registers.
fn found_of(
    rt: &impl Abort,
    alloc: Global,
    design: &Design,
    registers: &[RegId],
) -> Explored<Entry, ObservedEnd> {
    let mut observed = Vec::new(alloc);
    observed.extend_from_slice(registers).expect(rt, "memory");
    let limits = Limits {
        until: Some(8),
        max_entries: 100,
    };
    let bounds = Bounds {
        nodes: 10_000,
        shown: 100,
        bytes: 100_000_000,
    };
    let observing = Observing::Registers(observed);
    observed_orders(alloc, design, limits, bounds, &observing, &Untold)
}

// As many texts are shown as the row has, each of them is one of the row's, and is quiet at the end, where the lines of the last time stand. No two are the same: that is proved.
fn assert_found(rt: &impl Abort, found: &Explored<Entry, ObservedEnd>, row: &ObservedRow<'_>) {
    holds(rt, found.stopped.is_none(), "stopped");
    assert_length(rt, found.shown.len(), row.texts.len());
    for one in &found.shown {
        holds(rt, is_among(&one.text, row.texts), "another text");
        holds(rt, one.end.end == End::Quiet, "another end");
        holds(rt, is_among(&one.end.seen, row.ends), "another sight");
    }
}

/// Three processes print a line at one time, in six orders, and then one of them once more.
const PRINTERS: &[u8] =
    b"module t; initial begin $display(\"c\"); #1 $display(\"d\"); end initial $display(\"b\"); initial $display(\"a\"); endmodule";

#[test]
fn lines_of_one_time_have_no_order(rt: HostRuntime) {
    let design = design_of(&rt, rt.alloc(), PRINTERS);
    let found = found_of(&rt, rt.alloc(), &design, &[]);
    let row = ObservedRow {
        registers: &[],
        texts: &[b"a\nb\nc\n\x800\n"],
        ends: &[b"d\n\x801\n"],
    };
    assert_found(&rt, &found, &row);
}

#[test]
fn what_is_observed_of_lawful_orders_is_shown(rt: HostRuntime) {
    let design = design_of(&rt, rt.alloc(), HIDDEN_RACE);
    for row in ROWS {
        let found = found_of(&rt, rt.alloc(), &design, row.registers);
        assert_found(&rt, &found, row);
    }
}
