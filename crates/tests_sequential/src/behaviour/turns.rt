//! What small processes do in their first turn: a row for each, which says what the turn is. Then turns in a log that is kept,
//! and a turn that goes on behind a wait.

ghost use Rattle.std.specs.Prelude.{◌≡◌, ℕ, [], ◌∷◌};
ghost use Rattle.logic4.specs.Vector.{vector};
ghost use Rattle.design.specs.Operate.{joined_two};
ghost use Rattle.model.specs.Expressions.{Store};
ghost use Rattle.model.specs.declared.tree.BinaryOperator.TheVariants.{Add};
ghost use Rattle.design.specs.declared.code.Op.TheVariants.{Load, BinaryRegister};
ghost use Rattle.design.specs.ExpressionSteps.{below, span_of, run_ops};

use super::compare::{assert_length, assert_number, assert_text};
use super::held::{
    HeldRegisters, Taken, assert_read_at, beginning, design_of, first_turn, turn_from,
};
use crate::claims::{fail, holds};
use design::{Design, PackedBits, ProcState, RegId};
use hoard::Hoard;
use logic4::bits::Bits;
use std::alloc::Global;
use std::process::Abort;
use turn::{FillFault, Suspend, TurnChange, TurnLog, fill_turn};

/// The first turn of the first process of a source, which ends with it.
#[derive(Clone, Copy)]
struct TurnRow<'a> {
    source: &'a str,
    /// What each register has: a number of so many digits, or one digit that is unknown.
    held: Option<(u32, u64)>,
    lines: &'a str,
    /// The counted steps, the place behind the last one, and how many reads were made.
    count: u32,
    place: usize,
    made: u64,
    /// The registers that were read, in the order of their first use, and the strobes.
    reads: &'a [RegId],
    strobes: &'a [usize],
    /// How many writes and turn changes there are. Where they are told: the register, the number of digits and the number of each
    /// write, and the register, the first value, the number of changes and the last value of each turn change, of four digits.
    sizes: (usize, usize),
    writes: &'a [(RegId, u32, u64)],
    turn_changes: &'a [(RegId, u64, u64, u64)],
}

/// Where every register is unknown, nothing is read or written, and nothing is printed later.
const PLAIN: TurnRow<'static> = TurnRow {
    source: "",
    held: None,
    lines: "",
    count: 0,
    place: 0,
    made: 0,
    reads: &[],
    strobes: &[],
    sizes: (0, 0),
    writes: &[],
    turn_changes: &[],
};

const TURNS: &[TurnRow<'static>] = &[
    // strobes read and print nothing
    TurnRow {
        source: "module t; reg a, b; initial begin $strobe(\"%b\", a); $display(\"%b\", b); if (b) begin $strobe(\"no\"); end $strobe(\"s\"); end endmodule",
        lines: "x\n",
        count: 4,
        place: 5,
        made: 1,
        reads: &[1],
        strobes: &[0, 4],
        ..PLAIN
    },
    // what a loop adds
    TurnRow {
        source: "module t; reg [7:0] i, s; initial begin i=8'd0; s=8'd0; while (i<8'd5) begin i=i+8'd1; s=s+i; end $display(\"%0d %0d\",i,s); end endmodule",
        lines: "5 15\n",
        count: 19,
        place: 6,
        sizes: (12, 2),
        ..PLAIN
    },
    // an assignment has the size of its context, and an argument its own
    TurnRow {
        source: "module t; reg [4:0] s; initial begin s = 4'hf+4'h1; $display(\"%0d %0d\", s, 4'hf+4'h1); end endmodule",
        lines: "16 0\n",
        count: 2,
        place: 2,
        sizes: (1, 1),
        ..PLAIN
    },
    // literals, sums, shifts, concatenations and registers of up to 128 digits
    TurnRow {
        source: "module t; initial $display(\"%0d\", 128'hffffffffffffffffffffffffffffffff); endmodule",
        lines: "340282366920938463463374607431768211455\n",
        count: 1,
        place: 1,
        ..PLAIN
    },
    TurnRow {
        source: "module t; initial $display(\"%0d\", 128'hffffffffffffffffffffffffffffffff+128'h1); endmodule",
        lines: "0\n",
        count: 1,
        place: 1,
        ..PLAIN
    },
    TurnRow {
        source: "module t; initial $display(\"%h\", 128'h1<<8'd127); endmodule",
        lines: "80000000000000000000000000000000\n",
        count: 1,
        place: 1,
        ..PLAIN
    },
    TurnRow {
        source: "module t; initial $display(\"%h\", {64'hfedcba9876543210, 64'h1}); endmodule",
        lines: "fedcba98765432100000000000000001\n",
        count: 1,
        place: 1,
        ..PLAIN
    },
    TurnRow {
        source: "module t; initial $display(\"%b\", 128'd170141183460469231731687303715884105728>>8'd126); endmodule",
        lines: "00000000000000000000000000000000000000000000000000000000000000000000000000000000000000000000000000000000000000000000000000000010\n",
        count: 1,
        place: 1,
        ..PLAIN
    },
    TurnRow {
        source: "module t; reg [64:0] a; initial begin a = 64'hffffffffffffffff+64'h1; $display(\"%0d\",a); end endmodule",
        lines: "18446744073709551616\n",
        count: 2,
        place: 2,
        sizes: (1, 1),
        ..PLAIN
    },
    TurnRow {
        source: "module t; reg [127:0] a; initial begin a = 128'bz; $display(\"%h %0d\",a,a[127]); end endmodule",
        lines: "zzzzzzzzzzzzzzzzzzzzzzzzzzzzzzzz z\n",
        count: 2,
        place: 2,
        sizes: (1, 1),
        ..PLAIN
    },
    // digits that are unknown are the same
    TurnRow {
        source: DIFFER,
        count: 1,
        place: 1,
        made: 2,
        reads: &[0, 1],
        ..PLAIN
    },
    // a register is read once
    TurnRow {
        source: "module t; reg [7:0] a, b, q; initial q = b + a + b; endmodule",
        held: Some((4, 3)),
        count: 1,
        place: 1,
        made: 2,
        reads: &[1, 0],
        sizes: (1, 1),
        writes: &[(2, 8, 9)],
        ..PLAIN
    },
    // a turn knows what it wrote
    TurnRow {
        source: "module t; reg [3:0] a, b; initial begin b = 4'd5; $display(\"%0d\", b); end endmodule",
        held: Some((4, 3)),
        lines: "5\n",
        count: 2,
        place: 2,
        sizes: (1, 1),
        ..PLAIN
    },
    TurnRow {
        source: "module t; reg [3:0] a, b; initial begin b = 4'd5; $display(\"%0d %0d\", b, a); end endmodule",
        held: Some((4, 3)),
        lines: "5 3\n",
        count: 2,
        place: 2,
        made: 1,
        reads: &[0],
        sizes: (1, 1),
        ..PLAIN
    },
    // turn changes of two registers, in the order of their first writes
    TurnRow {
        source: "module t; reg [3:0] a, b; initial begin b = 4'd5; a = 4'd1; b = 4'd5; b = 4'd6; a = 4'd1; b = 4'd5; end endmodule",
        held: Some((4, 3)),
        count: 6,
        place: 6,
        sizes: (6, 2),
        turn_changes: &[(1, 5, 2, 5), (0, 1, 0, 1)],
        ..PLAIN
    },
    // a line
    TurnRow {
        source: "module t; reg [5:0] a; initial $display(\"a%b %h%0d\", a, a, a); endmodule",
        held: Some((6, 43)),
        lines: "a101011 2b43\n",
        count: 1,
        place: 1,
        made: 1,
        reads: &[0],
        ..PLAIN
    },
    // a loop to its end
    TurnRow {
        source: "module t; reg [3:0] r; initial while (r < 4'd5) begin r = r + 4'd1; end endmodule",
        held: Some((4, 3)),
        count: 5,
        place: 2,
        made: 1,
        reads: &[0],
        sizes: (2, 1),
        ..PLAIN
    },
];

/// A loop until two registers are the same.
pub const DIFFER: &str = "module t; reg a, b; initial while (a!==b) begin end endmodule";

// The value that each register of a row has.
fn value(row: &TurnRow<'_>) -> Bits {
    match row.held {
        Some((width, number)) => Bits::from_u64(width.clamp(1, Bits::MAX_WIDTH), number),
        None => Bits::unknown(1),
    }
}

// A turn has these lines and counts.
fn assert_counts(rt: &impl Abort, taken: &Taken, row: &TurnRow<'_>) {
    let log = &taken.log;
    assert_text(rt, log.lines(), row.lines);
    assert_number(rt, u64::from(log.count()), u64::from(row.count));
    assert_length(rt, log.next().place, row.place);
    assert_number(rt, taken.held.reads, row.made);
    holds(rt, log.strobes() == row.strobes, row.source);
    holds(rt, matches!(log.suspend(), Suspend::Ended), row.source);
    holds(rt, !log.is_finish(), row.source);
}

/// A turn read these registers, in this order.
pub fn assert_reads(rt: &impl Abort, log: &TurnLog, wanted: &[RegId]) {
    assert_length(rt, log.reads().len(), wanted.len());
    for (place, register) in wanted.iter().enumerate() {
        assert_read_at(rt, log.reads(), *register, place);
    }
}

// A turn made these writes.
fn assert_writes(rt: &impl Abort, log: &TurnLog, wanted: &[(RegId, u32, u64)]) {
    for (write, wanted) in log.writes().iter().zip(wanted) {
        let width = write.1.width();
        assert_number(rt, u64::from(write.0), u64::from(wanted.0));
        assert_number(rt, u64::from(width), u64::from(wanted.1));
        holds(
            rt,
            write.1 == Bits::from_u64(width, wanted.2),
            "another value",
        );
    }
}

// A turn change is of this register, first value, number of changes, and last value.
fn assert_turn_change(rt: &impl Abort, turn_change: &TurnChange, wanted: &(RegId, u64, u64, u64)) {
    assert_number(rt, u64::from(turn_change.register), u64::from(wanted.0));
    holds(
        rt,
        turn_change.first == Bits::from_u64(4, wanted.1),
        "another first value",
    );
    assert_number(rt, turn_change.changes, wanted.2);
    holds(
        rt,
        turn_change.last == Bits::from_u64(4, wanted.3),
        "another last value",
    );
}

// A turn has so many writes and turn changes, and these where they are told.
fn assert_wrote(rt: &impl Abort, log: &TurnLog, row: &TurnRow<'_>) {
    assert_length(rt, log.writes().len(), row.sizes.0);
    assert_length(rt, log.turn_changes().len(), row.sizes.1);
    assert_writes(rt, log, row.writes);
    for (turn_change, wanted) in log.turn_changes().iter().zip(row.turn_changes) {
        assert_turn_change(rt, turn_change, wanted);
    }
}

fn assert_turn(rt: &impl Abort, taken: &Taken, row: &TurnRow<'_>) {
    assert_counts(rt, taken, row);
    assert_reads(rt, &taken.log, row.reads);
    assert_wrote(rt, &taken.log, row);
}

#[test]
fn first_turns(rt: HostRuntime) {
    one_value_is_left();
    parts_are_known();
    for row in TURNS {
        let taken = first_turn(&rt, rt.alloc(), row.source.as_bytes(), value(row));
        assert_turn(&rt, &taken, row);
    }
}

/// The steps of `b + a + b` leave one vector on an empty stack, and so nothing below it.
fn one_value_is_left()
    ensures { (values : Store) → below (run_ops values (Load 1 8 ∷ BinaryRegister Add 8 8 0 8 ∷ BinaryRegister Add 8 8 1 8 ∷ []) []) ≡ [] }
{}

fn three() -> HeldRegisters {
    HeldRegisters::all(Bits::from_u64(4, 3))
}

// Fills a log that is kept with the first turn of the first process, if memory suffices.
fn fill(
    rt: &impl Abort,
    log: &mut TurnLog,
    design: &Design,
    held: &mut HeldRegisters,
) -> Result<(), FillFault> {
    let state = beginning(rt, design);
    let _registers = design.registers();
    fill_turn(log, design, &state, 7, held)
}

// The first turn of the first process of a source, in a log that is kept.
fn turn_in(
    rt: &impl Abort,
    alloc: Global,
    log: &mut TurnLog,
    source: &str,
    held: &mut HeldRegisters,
) {
    let design = design_of(rt, alloc, source.as_bytes());
    match fill(rt, log, &design, held) {
        Ok(()) => {}
        Err(FillFault::Memory) => fail(rt, "memory"),
        Err(FillFault::TooLong) => fail(rt, "too long"),
    }
}

/// Writes one of two registers, and shows both.
const TWO: &str =
    "module t; reg [3:0] a, b; initial begin a = 4'd5; $display(\"%0d %0d\", a, b); end endmodule";

/// One read, one write, one nonblocking assignment and one line.
const FULL: &str =
    "module t; reg [3:0] q, a; initial begin q = a; q <= #2 4'd3; $display(\"3\"); end endmodule";

// How many reads, writes, turn changes, nonblocking assignments and bytes a log has.
fn sizes(log: &TurnLog) -> [usize; 5] {
    [
        log.reads().len(),
        log.writes().len(),
        log.turn_changes().len(),
        log.nbas().len(),
        log.lines().len(),
    ]
}

// A log has so many of each.
fn assert_sizes(rt: &impl Abort, log: &TurnLog, wanted: [usize; 5]) {
    holds(rt, sizes(log) == wanted, "other sizes");
}

/// Turns of sources one behind the other in a log that is kept: how many reads were made by then, how many reads, writes, turn changes,
/// nonblocking assignments and bytes the log then has, and its lines. Each reads anew, and none leaves anything.
const KEPT: &[(&str, u64, [usize; 5], &str)] = &[
    (TWO, 1, [1, 1, 1, 0, 4], "5 3\n"),
    (TWO, 2, [1, 1, 1, 0, 4], "5 3\n"),
    // the same with three registers
    (
        "module t; reg [3:0] a, b, c; initial begin a = 4'd5; $display(\"%0d %0d\", a, b); end endmodule",
        3,
        [1, 1, 1, 0, 4],
        "5 3\n",
    ),
    (TWO, 4, [1, 1, 1, 0, 4], "5 3\n"),
    (FULL, 5, [1, 1, 1, 1, 2], "3\n"),
    // nothing
    (
        "module t; reg [3:0] q, a; initial ; endmodule",
        5,
        [0; 5],
        "",
    ),
    (FULL, 6, [1, 1, 1, 1, 2], "3\n"),
];

// The turns of these rows, in one log.
fn assert_kept(rt: &impl Abort, alloc: Global, log: &mut TurnLog, held: &mut HeldRegisters) {
    for &(source, reads, sizes, lines) in KEPT {
        turn_in(rt, alloc, log, source, held);
        assert_sizes(rt, log, sizes);
        assert_text(rt, log.lines(), lines);
        assert_number(rt, held.reads, reads);
    }
}

#[test]
fn knows_nothing_of_the_turn_before(rt: HostRuntime) {
    let mut log = TurnLog::new(rt.alloc());
    assert_kept(&rt, rt.alloc(), &mut log, &mut three());
}

// Whether the first turn of the first process is over, in a log that is kept, where all other memory is taken.
fn is_over_without_memory(
    rt: &impl Abort,
    alloc: Global,
    design: &Design,
    log: &mut TurnLog,
) -> bool {
    let mut held = three();
    let _hoard = Hoard::new(alloc, 0, 8).expect(rt, "memory");
    fill(rt, log, design, &mut held).is_ok()
}

// A turn that is refused memory in a new log takes none in one that an earlier turn has grown.
fn assert_grows(rt: &impl Abort, alloc: Global, design: &Design, log: &mut TurnLog) {
    holds(
        rt,
        !is_over_without_memory(rt, alloc, design, log),
        "a new log",
    );
    turn_in(rt, alloc, log, FULL, &mut three());
    assert_sizes(rt, log, [1, 1, 1, 1, 2]);
    holds(
        rt,
        is_over_without_memory(rt, alloc, design, log),
        "a grown log",
    );
    assert_sizes(rt, log, [1, 1, 1, 1, 2]);
}

// The same of a log of its own.
fn assert_grown(rt: &impl Abort, alloc: Global, design: &Design) {
    let mut log = TurnLog::new(alloc);
    assert_grows(rt, alloc, design, &mut log);
}

#[test]
fn takes_no_memory_in_a_log_that_has_grown(rt: HostRuntime) {
    let design = design_of(&rt, rt.alloc(), FULL.as_bytes());
    assert_grown(&rt, rt.alloc(), &design);
}

/// The steps of an expression are a part of all steps: none where its ends are turned, or past the last step. More than 128
/// digits aren't joined. No design has such a part, or such digits.
fn parts_are_known()
    ensures inside { span_of {A = ℕ} (1 ∷ 2 ∷ 3 ∷ []) (record { from = 1; to = 3 }) ≡ 2 ∷ 3 ∷ [] }
    ensures turned { span_of {A = ℕ} (1 ∷ 2 ∷ 3 ∷ []) (record { from = 2; to = 1 }) ≡ [] }
    ensures past { span_of {A = ℕ} (1 ∷ 2 ∷ 3 ∷ []) (record { from = 1; to = 4 }) ≡ [] }
    ensures joined { joined_two (vector 120 7) (vector 9 2) ≡ vector 120 7 }
{}

/// When the first nonblocking assignment is due.
fn first_due(log: &TurnLog) -> u64 {
    match log.nbas().first() {
        Some(nba) => nba.due,
        None => 0,
    }
}

// A turn waits until time 10.
fn assert_waits(rt: &impl Abort, log: &TurnLog) {
    holds(
        rt,
        matches!(log.suspend(), Suspend::Until(10)),
        "another wait",
    );
}

// The first turn, at time 7, waits until time 10. This is where the process goes on.
fn wait(rt: &impl Abort, alloc: Global, design: &Design, held: &mut HeldRegisters) -> ProcState {
    let state = beginning(rt, design);
    let log = turn_from(rt, alloc, design, state, 7, held);
    assert_waits(rt, &log);
    log.next()
}

// A turn waits for the inactive region, to assign 3 to the second register.
fn assert_pending(rt: &impl Abort, log: &TurnLog) {
    holds(
        rt,
        matches!(log.suspend(), Suspend::Inactive),
        "no wait for the inactive region",
    );
    holds(
        rt,
        log.next().pending == Some((1, PackedBits::new(Bits::from_u64(4, 3)))),
        "another assignment",
    );
}

// The turn at time 10 assigns at time 12, and waits for the inactive region to assign the value of the first register.
fn assert_assigns_later(
    rt: &impl Abort,
    alloc: Global,
    design: &Design,
    state: ProcState,
    held: &mut HeldRegisters,
) {
    let log = turn_from(rt, alloc, design, state, 10, held);
    assert_number(rt, first_due(&log), 12);
    assert_pending(rt, &log);
}

#[test]
fn waits_and_assigns_later(rt: HostRuntime) {
    let source =
        "module t; reg [3:0] r, q; initial begin #3 q <= #2 r; q = #0 r; $finish; end endmodule";
    let design = design_of(&rt, rt.alloc(), source.as_bytes());
    let mut held = three();
    let state = wait(&rt, rt.alloc(), &design, &mut held);
    assert_assigns_later(&rt, rt.alloc(), &design, state, &mut held);
}
