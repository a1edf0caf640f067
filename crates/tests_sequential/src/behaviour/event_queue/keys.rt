//! Keys of states that two orders of turns lead to.

use super::{KnownRun, apply_all, assert_after};
use crate::claims::holds;
use fixtures::entries::{T0, T1};
use model::entry::Entry;
use regions::Machine;
use statekeys::{Scratch, key};
use std::alloc::{AllocError, Global};
use std::process::Abort;

/// The turns of two processes, in either order.
const ORDERS: [[Entry; 2]; 2] = [[T0, T1], [T1, T0]];

/// Two processes, and whether both orders of their turns lead to one key.
const ROWS: &[(&str, bool)] = &[
    // nothing is left, or evaluations that stand in another order
    (
        "module t; reg a, b; initial a = 1'b1; initial b = 1'b0; endmodule",
        true,
    ),
    (
        "module t; reg a, b; initial begin #0 ; end initial begin #0 ; end endmodule",
        true,
    ),
    (
        "module t; reg a, b; initial begin #5 ; end initial begin #5 ; end endmodule",
        true,
    ),
    (
        "module t; reg a, b; initial begin #3 ; end initial begin #5 ; end endmodule",
        true,
    ),
    // another value
    (
        "module t; reg a, b; initial a = 1'b1; initial a = 1'b0; endmodule",
        false,
    ),
    // another order of updates, now or later
    (
        "module t; reg a, b; initial a <= 1'b1; initial a <= 1'b0; endmodule",
        false,
    ),
    (
        "module t; reg a, b; initial a <= 1'b1; initial b <= 1'b0; endmodule",
        false,
    ),
    (
        "module t; reg a, b; initial a <= #5 1'b1; initial a <= #5 1'b0; endmodule",
        false,
    ),
    // a process that waits, or is active
    (
        "module t; reg a, b; initial @(a) ; initial a = 1'b1; endmodule",
        false,
    ),
    // another time to come
    (
        "module t; reg a, b; initial if (a) begin b <= #5 1'b1; end else begin b <= #6 1'b1; end initial a = 1'b1; endmodule",
        false,
    ),
    // another order of lines
    (
        "module t; reg a, b; initial $strobe(\"a\"); initial $strobe(\"b\"); endmodule",
        false,
    ),
];

// The key of a run where it stands.
fn key_of(alloc: Global, run: &Machine<'_>) -> Result<Vec<u8>, AllocError> {
    let mut bytes = Vec::new(alloc);
    let mut scratch = Scratch::new(alloc);
    key(&mut bytes, &mut scratch, run.state(), run.store())?;
    Ok(bytes)
}

// The key after these entries.
fn key_behind(rt: &impl Abort, alloc: Global, run: &mut Machine<'_>, entries: &[Entry]) -> Vec<u8> {
    apply_all(rt, run, entries);
    key_of(alloc, run).expect(rt, "memory")
}

/// Two turns in both orders lead to one key, or not.
pub(super) fn assert_keys(rt: &impl Abort, alloc: Global, run: &mut Machine<'_>, wanted: bool) {
    let [first, second] = &ORDERS;
    let mut copy = run.copy(alloc).expect(rt, "memory");
    let one = key_behind(rt, alloc, run, first);
    let other = key_behind(rt, alloc, &mut copy, second);
    holds(
        rt,
        (one.as_slice() == other.as_slice()) == wanted,
        "the keys",
    );
}

#[test]
fn keys_of_two_orders(rt: HostRuntime) {
    for &(source, wanted) in ROWS {
        assert_after(&rt, rt.alloc(), source, &[], KnownRun::HasOneKey(wanted));
    }
}
