// Journals that were written by hand.

use super::{answer, entry_refused, fault_of};
use crate::claims::holds;
use crate::course::design_of;
use fixtures::entries::{A1, A2, A3, A5, I, M, N, T0, T1, T2, T3, T4, T5, T6, U0, U1, U2, U3, U4};
use fixtures::{GLITCH, GLITCH_JOURNAL, HI, NUMBERED, NUMBERED_JOURNAL, RACE, SWAP, SWAP_JOURNAL};
use model::entry::{Entry, Refusal};
use replay::{Cause, ReplayFault};
use std::alloc::Global;
use std::process::Abort;
use std::sync::Wait;

/// Two processes copy two registers into each other at one time.
pub const COPIES: &str =
    "module t; reg a, b; initial begin a=1'b0; b=1'b1; end initial #1 a=b; initial #1 b=a; initial #2 $display(\"%b %b\",a,b); endmodule";

/// A process that finishes the simulation, and another.
const FINISH: &str =
    "module t; initial begin $display(\"a\"); $finish; $display(\"b\"); end initial $display(\"c\"); endmodule";

/// One change wakes two processes.
pub const WAITERS: &str =
    "module t; reg a; initial #0 a=1'b1; initial @(a) $display(\"p1\"); initial @(posedge a) $display(\"p2\"); endmodule";

/// Two updates of one register.
pub const UPDATES: &str =
    "module t; reg a; initial begin a<=1'b0; a<=1'b1; end initial @(posedge a) $display(\"up %b\",a); endmodule";

/// A nonblocking assignment and a delay that are due at the same time.
const DUE: &str =
    "module t; reg a; initial begin a=1'b0; a <= #2 1'b1; #2 $display(\"%b\",a); #1 $display(\"%b\",a); end endmodule";

/// A line every ten units of time.
const CLOCK: &str = "module t; always #10 $display(\"t\"); endmodule";

/// A strobe between two assignments of the register that it shows.
const STROBE: &str =
    "module t; reg a; initial begin a=1'b0; $strobe(\"s %b\",a); a<=1'b1; $display(\"d %b\",a); end endmodule";

/// A strobe before the end of the simulation.
const STROBE_LOST: &str = "module t; initial begin $strobe(\"s\"); $finish; end endmodule";

/// Two processes with a strobe each.
const STROBES: &str = "module t; initial $strobe(\"p\"); initial $strobe(\"q\"); endmodule";

/// A strobe at each of two times.
const STROBES_APART: &str =
    "module t; initial begin $strobe(\"a\"); #1 $strobe(\"b\"); end endmodule";

/// A turn that never ends.
const ENDLESS: &str = "module t; always ; endmodule";

/// Lawful journals of sources, and their lines.
const LAWFUL: &[(&str, &[Entry], &str)] = &[
    (HI, &[], ""),
    (HI, &[T0], "hi\n"),
    (COPIES, &[T0, T1, T2, T3, A1, T4, T5, A2, T6], "1 1\n"),
    (COPIES, &[T0, T1, T2, T3, A1, T5, T4, A2, T6], "0 0\n"),
    (FINISH, &[T1, T0], "c\na\n"),
    (GLITCH, GLITCH_JOURNAL, "glitch\n"),
    (WAITERS, &[T0, T1, T2, I, T3, T4, T5], "p1\np2\n"),
    (WAITERS, &[T0, T1, T2, I, T3, T5, T4], "p2\np1\n"),
    (UPDATES, &[T0, T1, N, U2, U3, T4], "up 1\n"),
    (DUE, &[T0, A2, T2, N, U1, A3, T3], "0\n1\n"),
    (SWAP, SWAP_JOURNAL, "1 0\n"),
    (NUMBERED, NUMBERED_JOURNAL, ""),
    (CLOCK, &[T0, Entry::Advance(10), T1], "t\n"),
    // two writers in either order
    (RACE, &[T0, T1, T2, I, T3], "1\n"),
    (RACE, &[T1, T0, T2, I, T3], "0\n"),
    // strobes show what stands after the updates
    (STROBE, &[T0, N, U1], "d 0\n"),
    (STROBE, &[T0, N, U1, M], "d 0\ns 1\n"),
    (STROBES, &[T0, T1, M], "p\nq\n"),
    (STROBES, &[T1, T0, M], "q\np\n"),
    (STROBES_APART, &[T0, M, A1, T1, M], "a\nb\n"),
    (STROBE_LOST, &[T0], ""),
];

/// Journals of sources, the first entry that isn't lawful, and why, where that is told.
const UNLAWFUL: &[(&str, &[Entry], u64, Option<Refusal>)] = &[
    (RACE, &[T0, T2, I], 3, None),
    (RACE, &[T0, T1, T2, N], 4, None),
    (RACE, &[T1, T0, T2, I, T4], 5, None),
    (HI, &[T0, T0], 2, None),
    (HI, &[T0, I], 2, None),
    (HI, &[U0], 1, None),
    (FINISH, &[T0, T1], 2, None),
    (FINISH, &[T0, A1], 2, None),
    (UPDATES, &[T0, T1, N, U3], 4, None),
    (UPDATES, &[T0, T1, N, T2], 4, None),
    (UPDATES, &[T0, T1, N, I], 4, None),
    (DUE, &[A2], 1, None),
    (DUE, &[T0, A3], 2, None),
    (CLOCK, &[T0, A1], 2, None),
    (
        CLOCK,
        &[T0, Entry::Advance(10), Entry::Advance(20)],
        3,
        None,
    ),
    (ENDLESS, &[T0], 1, None),
    // strobes print neither early nor late
    (STROBE, &[T0, M], 2, Some(Refusal::NotDue)),
    (STROBE, &[T0, N, M], 3, Some(Refusal::NotDue)),
    (STROBES, &[T0, M], 2, Some(Refusal::NotDue)),
    (STROBES, &[T0, T1, A1], 3, Some(Refusal::NotDue)),
    (STROBES, &[T0, T1, M, M], 4, Some(Refusal::NotDue)),
    (STROBES_APART, &[T0, A1], 2, Some(Refusal::NotDue)),
    (HI, &[T0, M], 2, Some(Refusal::NotDue)),
    (STROBE_LOST, &[T0, M], 2, Some(Refusal::Finished)),
];

// The journal is driven to its end, with these lines.
fn assert_driven<R: Abort + Wait>(
    rt: &R,
    alloc: Global,
    source: &str,
    entries: &[Entry],
    lines: &str,
) {
    let design = design_of(rt, alloc, source);
    let closed = answer(rt, alloc, &design, entries).ok().expect(rt, source);
    holds(rt, closed.lines() == lines, source);
}

#[test]
fn leads_along_a_lawful_journal(rt: HostRuntime) {
    for &(source, entries, lines) in LAWFUL {
        assert_driven(&rt, rt.alloc(), source, entries, lines);
    }
}

// The gate of a source takes no more than the entries before this one, which the replay refuses for this reason.
fn assert_entry<R: Abort + Wait>(
    rt: &R,
    alloc: Global,
    source: &str,
    entries: &[Entry],
    entry: u64,
    refusal: Option<Refusal>,
) {
    let design = design_of(rt, alloc, source);
    holds(
        rt,
        entry_refused(rt, alloc, &design, entries) == entry,
        source,
    );
    if let Some(refusal) = refusal {
        let cause = Cause::Refused(refusal);
        let fault = fault_of(alloc, &design, entries);
        holds(rt, fault == Some(ReplayFault { entry, cause }), source);
    }
}

#[test]
fn names_the_first_entry_that_is_not_lawful(rt: HostRuntime) {
    for &(source, entries, entry, refusal) in UNLAWFUL {
        assert_entry(&rt, rt.alloc(), source, entries, entry, refusal);
    }
}

// The longest delay, taken so often that the last time is past the limit.
fn delays(rt: &impl Abort, alloc: Global) -> Vec<Entry> {
    let mut entries = Vec::new(alloc);
    for count in 0..65_537u64 {
        entries.push(Entry::Turn(count)).expect(rt, "memory");
        let time = (count + 1) * 4_294_967_295;
        entries.push(Entry::Advance(time)).expect(rt, "memory");
    }
    entries
}

#[test]
fn no_time_is_past_the_last(rt: HostRuntime) {
    let source = "module t; always #4294967295 ; endmodule";
    let entries = delays(&rt, rt.alloc());
    assert_entry(&rt, rt.alloc(), source, &entries, 131_074, None);
}
