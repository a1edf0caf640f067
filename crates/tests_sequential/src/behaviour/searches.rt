//! The lawful orders of small designs, searched: texts that are derived by hand from the orders which each source permits, what
//! is shown at a bound, and searches in too little memory.

use super::compare::assert_length;
use super::held::design_of;
use super::scarce::Scarce;
use crate::claims::{fail, holds};
use design::Design;
use explore::{Bounds, Explored, Shown, Stopped};
use lawful::lawful_orders;
use model::end::{End, Limits};
use model::entry::Entry;
use progress::Untold;
use std::alloc::Global;
use std::process::Abort;

/// How much more memory a search gets each time, and how often at most.
const STEP: usize = 256;

const ROOMS: usize = 1024;

/// The bytes of a piece of memory.
const PIECE: usize = 64 << 10;

/// Two processes that give one register a value, and one that shows it when both have: the value of the later one.
const RACE: &[u8] =
    b"module t; reg a; initial a=1'b0; initial a=1'b1; initial #1 $display(\"%b\",a); endmodule";

/// A search: of which design, up to which time, at which bounds. Then the texts of the design's runs, how many of them are shown,
/// why there may be others, before which time nothing was left out, and whether some orders don't come to an end.
#[derive(Clone, Copy)]
struct SearchRow<'a> {
    source: &'a [u8],
    until: u64,
    entries: u32,
    bounds: Bounds,
    texts: &'a [&'a str],
    shown: usize,
    stopped: &'a str,
    before: Option<u64>,
    endless: bool,
}

/// With room for all.
const PLAIN: SearchRow<'static> = SearchRow {
    source: RACE,
    until: 8,
    entries: 100,
    bounds: Bounds {
        nodes: 10_000,
        shown: 100,
        bytes: 100_000_000,
    },
    texts: &["0\n", "1\n"],
    shown: 2,
    stopped: "",
    before: None,
    endless: false,
};

/// Two such races, one after another.
const RACES: SearchRow<'static> = SearchRow {
    source: b"module t; reg a, b; initial a=1'b0; initial a=1'b1; initial #1 $display(\"%b\",a); initial #2 b=1'b0; initial #2 b=1'b1; initial #3 $display(\"%b\",b); endmodule",
    texts: &["0\n0\n", "0\n1\n", "1\n0\n", "1\n1\n"],
    shown: 4,
    ..PLAIN
};

/// Two processes that wake each other at one time in any number of rounds: there is a text for each, and its journal is longer than the one
/// before. So the journals of all that are shown take many times what the states take.
const ROUNDS: SearchRow<'static> = SearchRow {
    source: b"module t; reg a, b, c, d; initial begin #1 a=1'b0; b=1'b0; d=1'b1; #3 $display(\"%b%b%b\",a,b,d); end always @(a) $strobe(\"q\"); always @(d) a<=c&d; always @(a) d=a^b; endmodule",
    until: 6,
    entries: 100_000,
    bounds: Bounds {
        nodes: 1_000_000,
        shown: 100_000,
        bytes: 1_000_000,
    },
    stopped: "bytes",
    ..PLAIN
};

/// A race after which the run has finished or goes on, with four processes behind it that give one register a value: the text of the first
/// is shown before the search has come to most of its memory.
const FINISHED_OR_NOT: SearchRow<'static> = SearchRow {
    source: b"module t; reg c; reg [1:0] a; initial #1 c=1'b1; initial #1 if (c) begin $finish; end initial #2 a=2'd0; initial #2 a=2'd1; initial #2 a=2'd2; initial #2 a=2'd3; initial #3 $display(\"%0d\",a); endmodule",
    texts: &["", "0\n", "1\n", "2\n", "3\n"],
    shown: 5,
    ..PLAIN
};

const ROWS: &[SearchRow<'static>] = &[
    PLAIN,
    RACES,
    FINISHED_OR_NOT,
    // two processes at one clock that take each other's value: no order of theirs shows
    SearchRow {
        source: b"module t; reg clk; reg [7:0] q0, q1; initial #1 clk=1'b0; always #5 clk=~clk; initial q0=8'd1; initial q1=8'd2; always @(posedge clk) q0<=q0+q1; always @(posedge clk) q1<=q1+q0; always @(negedge clk) $display(\"%0d %0d\",q0,q1); endmodule",
        until: 20,
        texts: &["1 2\n3 3\n6 6\n"],
        shown: 1,
        ..PLAIN
    },
    // the same where the clock's first edge races with the first values, and with the process that waits for it
    SearchRow {
        source: b"module t; reg clk; reg [7:0] q0, q1; initial clk=1'b0; always #5 clk=~clk; initial q0=8'd1; initial q1=8'd2; always @(posedge clk) q0<=q0+q1; always @(posedge clk) q1<=q1+q0; always @(negedge clk) $display(\"%0d %0d\",q0,q1); endmodule",
        until: 10,
        texts: &[
            "3 3\n",
            "x x\n3 3\n",
            "1 x\n3 3\n",
            "x 2\n3 3\n",
            "1 2\n3 3\n",
        ],
        shown: 5,
        ..PLAIN
    },
    // two processes at one clock that show a line each
    SearchRow {
        source: b"module t; reg clk; initial clk=1'b0; always #5 clk=~clk; always @(posedge clk) $display(\"a\"); always @(posedge clk) $display(\"b\"); endmodule",
        until: 15,
        texts: &[
            "a\nb\na\nb\n",
            "a\nb\nb\na\n",
            "b\na\na\nb\n",
            "b\na\nb\na\n",
        ],
        shown: 4,
        ..PLAIN
    },
    // three processes that show a line each, two of them the same one
    SearchRow {
        source: b"module t; initial $display(\"a\"); initial $display(\"b\"); initial $display(\"b\"); endmodule",
        texts: &["a\nb\nb\n", "b\na\nb\n", "b\nb\na\n"],
        shown: 3,
        ..PLAIN
    },
    // a register goes up and down by turns, until another process looks while it is up: there are endless many orders, of which
    // each that ends shows the same
    SearchRow {
        source: b"module t; reg a; initial a=1'b0; always #0 a=~a; always begin #0 ; if (a) begin $display(\"x\"); $finish; end end endmodule",
        texts: &["x\n"],
        shown: 1,
        ..PLAIN
    },
    // a process that shows a line again and again at one time
    SearchRow {
        source: b"module t; always #0 $display(\"a\"); endmodule",
        texts: &[],
        shown: 0,
        stopped: "entries",
        before: Some(0),
        ..PLAIN
    },
    // where the first process is the last, it shows a line and then waits for no time again and again
    SearchRow {
        source: b"module t; reg a, b; initial begin if (a===1'b1 && b===1'b1) begin $display(\"bad\"); while (1'b1) begin #0 ; end end else begin $display(\"good\"); end end initial a=1'b1; initial b=1'b1; endmodule",
        texts: &["good\n"],
        shown: 1,
        endless: true,
        entries: 10_000,
        ..PLAIN
    },
    // a process that waits for no time again and again: no order comes to an end
    SearchRow {
        source: b"module t; initial begin while (1'b1) begin #0 ; end end endmodule",
        texts: &[],
        shown: 0,
        endless: true,
        entries: 10_000,
        ..PLAIN
    },
    // a clock that is cut by the most entries
    SearchRow {
        source: b"module t; reg clk; initial clk=1'b0; always #5 clk=~clk; endmodule",
        until: 1000,
        entries: 10,
        texts: &[],
        shown: 0,
        stopped: "entries",
        before: Some(20),
        ..PLAIN
    },
    // one order, of 40,001 entries
    SearchRow {
        source: b"module t; reg [15:0] n; initial begin n=16'd0; while (n<16'd20000) begin #1 n=n+16'd1; end $display(\"%0d\",n); end endmodule",
        until: 20_000,
        entries: 100_000,
        texts: &["20000\n"],
        shown: 1,
        ..PLAIN
    },
    // the most texts
    SearchRow {
        bounds: Bounds {
            nodes: 10_000,
            shown: 1,
            bytes: 100_000_000,
        },
        shown: 1,
        stopped: "texts",
        before: Some(1),
        ..PLAIN
    },
    // the first node alone, behind which two orders differ
    SearchRow {
        bounds: Bounds {
            nodes: 1,
            shown: 100,
            bytes: 100_000_000,
        },
        shown: 0,
        stopped: "nodes",
        before: Some(0),
        ..PLAIN
    },
    // no room for what is kept of a node
    SearchRow {
        bounds: Bounds {
            nodes: 10_000,
            shown: 100,
            bytes: 1,
        },
        shown: 0,
        stopped: "bytes",
        before: Some(0),
        ..PLAIN
    },
    // fewer entries than a run has
    SearchRow {
        entries: 3,
        shown: 0,
        stopped: "entries",
        before: Some(0),
        ..PLAIN
    },
];

// A text is one of these.
fn is_among(text: &[u8], texts: &[&str]) -> bool {
    for wanted in texts {
        if text == wanted.as_bytes() {
            return true;
        }
    }
    false
}

// Each text that is shown is one of these. No two are the same: that is proved.
fn assert_texts(rt: &impl Abort, shown: &[Shown<Entry, End>], texts: &[&str]) {
    for one in shown {
        holds(rt, is_among(&one.text, texts), "another text");
    }
}

// What a search of a row's design finds.
fn found_of(
    rt: &impl Abort,
    alloc: Global,
    design: &Design,
    row: &SearchRow<'_>,
) -> Explored<Entry, End> {
    holds(rt, row.until <= 281_474_976_710_656, "a time");
    holds(rt, row.entries > 0, "an entry");
    holds(rt, row.bounds.nodes > 0, "a node");
    let limits = Limits {
        until: Some(row.until),
        max_entries: row.entries,
    };
    lawful_orders(alloc, design, limits, row.bounds, &[], &Untold)
}

// Why there may be other texts.
fn reason_of(found: &Explored<Entry, End>) -> &'static str {
    match found.stopped {
        None => "",
        Some(Stopped::Nodes) => "nodes",
        Some(Stopped::Shown) => "texts",
        Some(Stopped::Unfollowed) => "entries",
        Some(Stopped::Bytes) => "bytes",
        Some(Stopped::Memory) => "memory",
    }
}

// So many texts are shown, which are of the row's, and there are others for the row's reason, or none.
fn assert_found(rt: &impl Abort, found: &Explored<Entry, End>, row: &SearchRow<'_>) {
    assert_length(rt, found.shown.len(), row.shown);
    assert_texts(rt, &found.shown, row.texts);
    holds(rt, reason_of(found) == row.stopped, "another reason");
    holds(rt, found.followed_before == row.before, "another time");
    holds(rt, found.endless.is_some() == row.endless, "an end");
}

// What a row says.
fn assert_row(rt: &impl Abort, alloc: Global, row: &SearchRow<'_>) {
    let design = design_of(rt, alloc, row.source);
    let found = found_of(rt, alloc, &design, row);
    assert_found(rt, &found, row);
}

// How many entries the journals of what is shown have together.
fn entries_of(found: &Explored<Entry, End>) -> usize {
    let mut entries: usize = 0;
    for one in found.shown.iter() {
        entries = entries.saturating_add(one.moves.len());
    }
    entries
}

#[test]
fn texts_of_lawful_orders_are_shown(rt: HostRuntime) {
    for row in ROWS {
        assert_row(&rt, rt.alloc(), row);
    }
}

/// The journals of what is shown count among the bytes that a search keeps.
#[test]
fn journals_count_among_the_bytes(rt: HostRuntime) {
    let design = design_of(&rt, rt.alloc(), ROUNDS.source);
    let found = found_of(&rt, rt.alloc(), &design, &ROUNDS);
    holds(&rt, reason_of(&found) == ROUNDS.stopped, "another reason");
    let bytes = entries_of(&found).saturating_mul(size_of::<Entry>());
    holds(&rt, bytes <= ROUNDS.bounds.bytes, "more bytes");
}

// What a search in so much memory shows: how many texts, and why there may be others.
fn found_in(rt: &impl Abort, memory: &mut Scarce, design: &Design) -> (usize, &'static str) {
    memory.leave(rt);
    memory.open(rt);
    let found = found_of(rt, memory.alloc, design, &FINISHED_OR_NOT);
    assert_texts(rt, &found.shown, FINISHED_OR_NOT.texts);
    (found.shown.len(), reason_of(&found))
}

// A search gets more and more memory. Where some is refused, what was found is shown, and isn't all.
fn assert_refused(rt: &impl Abort, alloc: Global, design: &Design) {
    let mut memory = Scarce::new(rt, alloc, STEP, 2 * ROOMS, PIECE);
    let mut most = 0;
    for count in 0..ROOMS {
        memory.steps = count;
        let (shown, reason) = found_in(rt, &mut memory, design);
        if reason == "" {
            holds(rt, most > 0, "no text in too little memory");
            assert_length(rt, shown, FINISHED_OR_NOT.shown);
            return;
        }
        holds(rt, reason == "memory", "another reason");
        most = most.max(shown);
    }
    fail(rt, "never all");
}

#[test]
fn what_was_found_is_shown_where_memory_is_refused(rt: HostRuntime) {
    let design = design_of(&rt, rt.alloc(), FINISHED_OR_NOT.source);
    assert_refused(&rt, rt.alloc(), &design);
}
