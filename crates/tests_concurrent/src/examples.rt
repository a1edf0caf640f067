// Worked examples of one seat and of two: what each call answers, what the gate leaves, and what a stop changes.

use crate::claims::holds;
use crate::course::{Seats, assert_closed, assert_journal, assert_left, design_of};
use crate::driven::assert_lines;
use crate::pair::{Opened, SeatPair, play_pair};
use crate::steps::{Act, HoldingEnd, Led, Other, SeatStep, Side, Told};
use commitgate::Naming;
use fixtures::entries::{A1, I, M, N, T0, T1, T2, T3, T4, T7, U1, U2, U3, U4, U5, U6};
use fixtures::{COPY, GLITCH, GLITCH_JOURNAL};
use model::end::{End, Why};
use model::entry::Entry;
use std::alloc::Global;
use std::process::Abort;
use std::sync::Wait;

/// So many steps of the glitch, further steps, and what the gate leaves: how many tickets, its journal, how many of the entries are each seat's, how the
/// run ends, and its lines.
#[derive(Clone, Copy)]
struct GateExample<'a> {
    source: &'a str,
    max_entries: u32,
    glitches: usize,
    steps: &'a [&'a [SeatStep<'a>]],
    tickets: usize,
    journal: &'a [Entry],
    committed: [u64; 2],
    end: End,
    lines: &'a str,
}

const PLAIN: GateExample<'static> = GateExample {
    source: COPY,
    max_entries: 1_000,
    glitches: 0,
    steps: &[],
    tickets: 0,
    journal: &[T0, T1],
    committed: [1, 1],
    end: End::Quiet,
    lines: "",
};

/// Four processes with a turn each, of which the second seat takes the last.
const FOURTH: GateExample<'static> = GateExample {
    source: WRITERS,
    journal: FOUR_TURNS,
    committed: [3, 1],
    ..PLAIN
};

const ONE: Side = Side::One;

const TWO: Side = Side::Two;

/// The first seat takes the first turn.
const FIRST: SeatStep<'static> = (ONE, Act::Turn(0), Told::Entry(T0));

/// The run was stopped by one of its seats.
const STOPPED: Told = Told::Stopped(Why::Memory);

/// The run was stopped since its journal is full.
const FULL: Told = Told::Stopped(Why::Entries);

/// A fourth process reads what three others write.
pub const WRITERS: &str =
    "module t; reg [1:0] a, b; initial a=2'd1; initial a=2'd2; initial a=2'd3; initial b=a; endmodule";

/// The turns of four processes, in order.
pub const FOUR_TURNS: &[Entry] = &[T0, T1, T2, T3];

/// A loop until two registers are the same, which another process makes so.
const MOMENTS: &str =
    "module t; reg a, b; initial begin a=1'b0; b=1'b0; end initial while (a!==b) begin end endmodule";

/// A register is given a value, another and the first again, and read.
const BACK: &str =
    "module t; reg r, b; initial r=1'b0; initial r=1'b1; initial r=1'b0; initial b=r; endmodule";

/// Three turns, of which none reads what another one writes. Each prints more than all before it, so each needs more memory.
pub const APART: &str =
    "module t; reg [7:0] a; reg [31:0] b; reg [127:0] c; initial begin a=8'd1; $display(\"%b\",a); end initial begin b=32'd2; $display(\"%b\",b); end initial begin c=128'd3; $display(\"%b\",c); end endmodule";

/// Its journal.
pub const APART_JOURNAL: &[Entry] = &[T0, T1, T2];

/// Three turns overtake the fourth, one after each of its evaluations.
pub const THRICE: &[SeatStep<'static>] = &[
    (TWO, Act::Late(3, &[], Other::Takes(&[0])), Told::Stale(1)),
    (TWO, Act::Late(3, &[], Other::Takes(&[1])), Told::Stale(2)),
    (TWO, Act::Late(3, &[], Other::Takes(&[2])), Told::Stale(3)),
];

/// A register that came back has changed.
const CAME_BACK: GateExample<'static> = GateExample {
    source: BACK,
    steps: &[&[
        FIRST,
        (
            TWO,
            Act::Late(3, &[], Other::Takes(&[1, 2])),
            Told::Stale(1),
        ),
        (TWO, Act::Turn(3), Told::Entry(T3)),
        (TWO, Act::Read(&[(1, 1, Some(0))]), Told::Nothing),
    ]],
    ..FOURTH
};

/// A run that one of its seats stopped.
const HALTED: GateExample<'static> = GateExample {
    end: End::Stopped(Why::Memory),
    ..PLAIN
};

const EXAMPLES: &[GateExample<'static>] = &[
    // a turn alone stands
    GateExample {
        source: "module t; reg [3:0] r; initial r=4'd9; endmodule",
        steps: &[&[FIRST, (ONE, Act::Read(&[(0, 1, Some(9))]), Told::Nothing)]],
        journal: &[T0],
        committed: [1, 0],
        ..PLAIN
    },
    // four processes give a register two values each: of the values that a turn gives it each one that differs from the one before
    // is a version
    GateExample {
        source: "module t; reg [7:0] a; initial begin a=8'd2; a=8'd3; end initial begin a=8'd3; a=8'd2; end initial begin a=8'd3; a=8'd2; end initial begin a=8'd2; a=8'd2; end endmodule",
        steps: &[&[
            FIRST,
            (ONE, Act::Read(&[(0, 2, Some(3))]), Told::Nothing),
            (ONE, Act::Turn(1), Told::Entry(T1)),
            (ONE, Act::Read(&[(0, 3, Some(2))]), Told::Nothing),
            (ONE, Act::Turn(2), Told::Entry(T2)),
            (ONE, Act::Read(&[(0, 5, Some(2))]), Told::Nothing),
            (ONE, Act::Turn(3), Told::Entry(T3)),
            (ONE, Act::Read(&[(0, 5, Some(2))]), Told::Nothing),
        ]],
        journal: FOUR_TURNS,
        committed: [4, 0],
        ..PLAIN
    },
    // a turn that reads a register before another turn writes it is refused, and evaluated again it stands
    GateExample {
        steps: &[&[
            (
                TWO,
                Act::Late(1, &[(0, 0, None)], Other::Takes(&[0])),
                Told::Stale(1),
            ),
            (TWO, Act::Turn(1), Told::Entry(T1)),
            (TWO, Act::Read(&[(1, 1, Some(1))]), Told::Nothing),
        ]],
        ..PLAIN
    },
    // the same turn is committed first: it gives x to a register that is x, which is no change
    GateExample {
        steps: &[&[
            (TWO, Act::Turn(1), Told::Entry(T1)),
            (TWO, Act::Read(&[(1, 0, None)]), Told::Nothing),
            FIRST,
        ]],
        journal: &[T1, T0],
        ..PLAIN
    },
    // a turn that is refused three times is evaluated under the lock
    GateExample {
        steps: &[
            THRICE,
            &[
                (TWO, Act::Held(3), Told::Entry(T3)),
                (TWO, Act::Read(&[(1, 1, Some(3))]), Told::Nothing),
            ],
        ],
        ..FOURTH
    },
    // a turn never ends, since it saw one register before another turn and the other after it, and evaluated again it ends
    GateExample {
        source: MOMENTS,
        steps: &[&[
            (
                TWO,
                Act::Across((1, 0), &[(0, 0, None), (1, 1, Some(0))], Other::Takes(&[])),
                Told::Stale(1),
            ),
            (TWO, Act::Turn(1), Told::Entry(T1)),
            (TWO, Act::Read(&[(0, 1, Some(0))]), Told::Nothing),
        ]],
        ..PLAIN
    },
    CAME_BACK,
    // an equal value is no change
    GateExample {
        steps: &[&[
            FIRST,
            (TWO, Act::Late(3, &[], Other::Takes(&[2])), Told::Entry(T3)),
        ]],
        tickets: 1,
        journal: &[T0, T2, T3],
        committed: [2, 1],
        end: End::Running,
        ..CAME_BACK
    },
    // a strobe before a nonblocking assignment of the register that it shows, and another at the next time: the monitor region is
    // emptied before an advance
    GateExample {
        source: "module t; reg a; initial begin a=1'b0; $strobe(\"s %b\",a); a<=1'b1; $display(\"d %b\",a); #1 $strobe(\"t %b\",a); end endmodule",
        steps: &[&[
            FIRST,
            (ONE, Act::Rest, Told::Entry(N)),
            (ONE, Act::Update, Told::Entry(U1)),
            (ONE, Act::Rest, Told::Entry(M)),
            (ONE, Act::Rest, Told::Entry(A1)),
            (ONE, Act::Turn(2), Told::Entry(T2)),
            (ONE, Act::Rest, Told::Entry(M)),
        ]],
        journal: &[T0, N, U1, M, A1, T2, M],
        committed: [7, 0],
        lines: "d 0\ns 1\nt 1\n",
        ..PLAIN
    },
    // five updates, of which the second wakes a process: they are made in order, up to one that does so and as far as there is room
    GateExample {
        source: "module t; reg a, b; initial begin a<=1'b0; b<=1'b1; a<=1'b1; a<=1'b0; a<=1'b1; end initial @(b) $display(\"b is %b\",b); endmodule",
        steps: &[&[
            (ONE, Act::Turn(1), Told::Entry(T1)),
            FIRST,
            (ONE, Act::Rest, Told::Entry(N)),
            (
                ONE,
                Act::Updates(&[(2, 0), (3, 1)], HoldingEnd::Woke),
                Told::Nothing,
            ),
            (
                ONE,
                Act::Updates(&[(4, 0), (5, 0)], HoldingEnd::NoRoom),
                Told::Nothing,
            ),
            (
                ONE,
                Act::Updates(&[(6, 0)], HoldingEnd::Nothing),
                Told::Nothing,
            ),
            (ONE, Act::Updates(&[], HoldingEnd::Nothing), Told::Nothing),
            (ONE, Act::Turn(7), Told::Entry(T7)),
            (ONE, Act::Rest, Told::Nothing),
        ]],
        journal: &[T1, T0, N, U2, U3, U4, U5, U6, T7],
        committed: [9, 0],
        lines: "b is 1\n",
        ..PLAIN
    },
    // a stop comes before a turn under the lock
    GateExample {
        source: WRITERS,
        steps: &[
            THRICE,
            &[
                (ONE, Act::Stop, Told::Nothing),
                (TWO, Act::Held(3), STOPPED),
            ],
        ],
        journal: &[T0, T1, T2],
        committed: [3, 0],
        ..HALTED
    },
    // a stop comes before a turn that is too long is given up
    GateExample {
        source: MOMENTS,
        steps: &[&[(TWO, Act::Across((1, 0), &[], Other::Stops), STOPPED)]],
        journal: &[T0],
        committed: [1, 0],
        ..HALTED
    },
    // a stop of a run whose journal is full changes nothing
    GateExample {
        source: GLITCH,
        max_entries: 3,
        glitches: 3,
        steps: &[&[
            (ONE, Act::Turn(3), FULL),
            (ONE, Act::Update, FULL),
            (ONE, Act::Rest, FULL),
            (TWO, Act::Stop, Told::Nothing),
            (ONE, Act::Stop, Told::Nothing),
            (TWO, Act::Update, FULL),
            (TWO, Act::Rest, FULL),
        ]],
        journal: &[T0, T1, I],
        committed: [2, 1],
        end: End::Stopped(Why::Entries),
        ..PLAIN
    },
    // nor does a stop of a quiet run
    GateExample {
        source: GLITCH,
        glitches: 7,
        steps: &[&[
            (TWO, Act::Stop, Told::Nothing),
            (ONE, Act::Stop, Told::Nothing),
            (ONE, Act::Update, Told::Nothing),
            (ONE, Act::Rest, Told::Nothing),
            (TWO, Act::Update, Told::Nothing),
            (TWO, Act::Rest, Told::Nothing),
        ]],
        journal: GLITCH_JOURNAL,
        committed: [4, 3],
        lines: "glitch\n",
        ..PLAIN
    },
    // of two turns that are committed at once the one that read what the other changed is refused, and evaluated again it stands
    GateExample {
        steps: &[&[
            (
                ONE,
                Act::Batch(&[0, 1], &[(0, 0, None)], &[Told::Entry(T0), Told::Stale(1)]),
                Told::Nothing,
            ),
            (
                ONE,
                Act::Batch(&[1], &[], &[Told::Entry(T1)]),
                Told::Nothing,
            ),
            (ONE, Act::Read(&[(1, 1, Some(1))]), Told::Nothing),
        ]],
        committed: [2, 0],
        ..PLAIN
    },
    // turns that read nothing of each other stand in their order
    GateExample {
        source: APART,
        steps: &[&[(
            ONE,
            Act::Batch(
                &[0, 1, 2],
                &[],
                &[Told::Entry(T0), Told::Entry(T1), Told::Entry(T2)],
            ),
            Told::Nothing,
        )]],
        journal: APART_JOURNAL,
        committed: [3, 0],
        lines: "00000001\n00000000000000000000000000000010\n00000000000000000000000000000000000000000000000000000000000000000000000000000000000000000000000000000000000000000000000000000011\n",
        ..PLAIN
    },
];

/// The steps of the glitch, of which the seats take turns.
const GLITCHES: &[SeatStep<'static>] = &[
    FIRST,
    (TWO, Act::Turn(1), Told::Entry(T1)),
    (ONE, Act::Rest, Told::Entry(I)),
    (TWO, Act::Turn(3), Told::Entry(T3)),
    (ONE, Act::Rest, Told::Entry(A1)),
    (TWO, Act::Turn(2), Told::Entry(T2)),
    (ONE, Act::Turn(4), Told::Entry(T4)),
];

/// Either seat is told that the run was stopped, after a stop by the first one too.
const OVER: &[SeatStep<'static>] = &[
    (ONE, Act::Stop, Told::Nothing),
    (ONE, Act::Update, STOPPED),
    (ONE, Act::Rest, STOPPED),
    (TWO, Act::Update, STOPPED),
    (TWO, Act::Rest, STOPPED),
];

/// The second seat stops the run.
const STOP: &[SeatStep<'static>] = &[(TWO, Act::Stop, Told::Nothing)];

/// After 0, 1, .. entries of the glitch: how the second seat stops the run, between the evaluation of the first seat's turn and its
/// commit where there is a ticket; the tickets that are left are refused.
const STOPS: [&[&[SeatStep<'static>]]; 7] = [
    &[
        &[
            (ONE, Act::Late(0, &[], Other::Stops), STOPPED),
            (ONE, Act::Turn(1), STOPPED),
        ],
        OVER,
    ],
    &[&[(ONE, Act::Late(1, &[], Other::Stops), STOPPED)], OVER],
    &[STOP, OVER],
    &[&[(ONE, Act::Late(3, &[], Other::Stops), STOPPED)], OVER],
    &[STOP, OVER],
    &[&[(ONE, Act::Late(2, &[], Other::Stops), STOPPED)], OVER],
    &[&[(ONE, Act::Late(4, &[], Other::Stops), STOPPED)], OVER],
];

impl SeatPair for GateExample<'_> {
    fn lead<K: Naming, R: Wait + Abort>(&mut self, opened: Opened<'_, '_, '_, K, R>) -> Seats<K> {
        let (course, (mut one, mut two), tickets) = opened;
        let mut led = Led::new(course, tickets);
        let glitches = GLITCHES.get(..self.glitches).expect(course.rt, "steps");
        led.lead(&mut one, &mut two, glitches);
        for steps in self.steps {
            led.lead(&mut one, &mut two, steps);
        }
        let is_left = led.tickets.len() == self.tickets;
        holds(course.rt, is_left, "other tickets");
        assert_journal(course, &mut one, self.journal);
        (one, two)
    }
}

// The run of a row leaves what it says, and its journal is replayed to its lines.
fn assert_row<R: Wait + Abort>(rt: &R, alloc: Global, row: &GateExample<'_>) {
    let design = design_of(rt, alloc, row.source);
    let mut work = *row;
    let closed = play_pair(rt, alloc, &design, row.max_entries, &mut work);
    assert_left(rt, &closed, row.journal, row.lines);
    assert_closed(rt, &closed, row.end, &row.committed);
    assert_lines(rt, alloc, &design, closed.entries(), closed.lines());
}

#[test]
fn each_call_answers_as_it_stands(rt: HostRuntime) {
    for row in EXAMPLES {
        assert_row(&rt, rt.alloc(), row);
    }
}

#[test]
fn a_stop_after_any_entry_leaves_what_was_committed(rt: HostRuntime) {
    for (entries, stop) in STOPS.iter().enumerate() {
        let row = GateExample {
            source: GLITCH,
            glitches: entries,
            steps: stop,
            journal: GLITCH_JOURNAL.get(..entries).expect(&rt, "entries"),
            committed: [entries.div_ceil(2) as u64, entries as u64 / 2],
            end: End::Stopped(Why::Memory),
            ..PLAIN
        };
        assert_row(&rt, rt.alloc(), &row);
    }
}
