//! Waves of small designs and their dumps, each derived by hand from the source and from the syntax of 18.2, in too little memory and
//! in enough.

use super::held::design_of;
use super::scarce::Scarce;
use crate::claims::holds;
use design::Design;
use fixtures::entries::{A1, A3, A5, A7, N, T0, T1, T2, T3, U1};
use model::entry::Entry;
use progress::Untold;
use std::alloc::Global;
use std::process::Abort;
use waves::{WaveFault, value_change_dump, waves};

/// A source with the name of its module, and the beginning of all of its dumps: what is declared, and the values before the first entry.
#[derive(Clone, Copy)]
pub struct DumpScope<'a> {
    name: &'a str,
    source: &'a [u8],
    head: &'a str,
}

/// A register of one digit that is changed twice at time 0, and one of four that is changed at times 0 and 5.
const TWO: DumpScope<'static> = DumpScope {
    name: "two",
    source: b"module two; reg a; reg [3:0] b; initial begin a=1'b0; a=1'b1; b=4'b1x0z; #5 b=4'h3; end endmodule",
    head: "$timescale 1 ns $end\n$scope module two $end\n$var reg 1 ! a $end\n$var reg 4 \" b $end\n$upscope $end\n$enddefinitions $end\n#0\n$dumpvars\nx!\nbxxxx \"\n$end\n",
};

/// Registers that have several values at one time: the first two end at a new one, the third at its old one, and at time 3 the
/// first does so too. Nothing is changed at time 7.
const LAST: DumpScope<'static> = DumpScope {
    name: "last",
    source: b"module last; reg a; reg [1:0] b; reg c; initial begin a=1'b0; a=1'b1; b=2'bx1; b<=2'b1z; c=1'b1; c=1'bx; #3 a=1'b0; a=1'b1; b=2'b00; #4 ; end endmodule",
    head: "$timescale 1 ns $end\n$scope module last $end\n$var reg 1 ! a $end\n$var reg 2 \" b $end\n$var reg 1 # c $end\n$upscope $end\n$enddefinitions $end\n#0\n$dumpvars\nx!\nbxx \"\nx#\n$end\n",
};

/// A design, a journal, and what its dump has behind the beginning.
pub type DumpRow<'a> = (DumpScope<'a>, &'a [Entry], &'a str);

/// Two processes that change one register at time 5, in either order.
const ORDER: DumpScope<'static> = DumpScope {
    name: "order",
    source: b"module order; reg a; initial #5 a=1'b1; initial #5 a=1'b0; endmodule",
    head: "$timescale 1 ns $end\n$scope module order $end\n$var reg 1 ! a $end\n$upscope $end\n$enddefinitions $end\n#0\n$dumpvars\nx!\n$end\n",
};

/// Journals that go to the end, journals that stop before it, and a design without registers.
pub const DUMPS: &[DumpRow<'static>] = &[
    (TWO, &[T0, A5, T1], "1!\nb1x0z \"\n#5\nb0011 \"\n"),
    (TWO, &[T0, A5], "1!\nb1x0z \"\n#5\n"),
    (TWO, &[], ""),
    (
        LAST,
        &[T0, N, U1, A3, T2, A7, T3],
        "1!\nb1z \"\n#3\nb00 \"\n#7\n",
    ),
    (LAST, &[T0, N], "1!\nbx1 \"\n"),
    (ORDER, &[T0, T1, A5, T2, T3], "#5\n0!\n"),
    (ORDER, &[T0, T1, A5, T3, T2], "#5\n1!\n"),
    // a register of 128 digits, which has each digit, and is all z for the longest delay
    (
        DumpScope {
            name: "wide",
            source: b"module wide; reg [127:0] w; initial begin w=128'h8000000000000000000000000000zx01; #1 w=128'bz; #4294967295 w=128'd1; end endmodule",
            head: "$timescale 1 ns $end\n$scope module wide $end\n$var reg 128 ! w $end\n$upscope $end\n$enddefinitions $end\n#0\n$dumpvars\nbxxxxxxxxxxxxxxxxxxxxxxxxxxxxxxxxxxxxxxxxxxxxxxxxxxxxxxxxxxxxxxxxxxxxxxxxxxxxxxxxxxxxxxxxxxxxxxxxxxxxxxxxxxxxxxxxxxxxxxxxxxxxxxxx !\n$end\n",
        },
        &[T0, A1, T1, Entry::Advance(4294967296), T2],
        "b1000000000000000000000000000000000000000000000000000000000000000000000000000000000000000000000000000000000000000zzzzxxxx00000001 !\n#1\nbzzzzzzzzzzzzzzzzzzzzzzzzzzzzzzzzzzzzzzzzzzzzzzzzzzzzzzzzzzzzzzzzzzzzzzzzzzzzzzzzzzzzzzzzzzzzzzzzzzzzzzzzzzzzzzzzzzzzzzzzzzzzzzzz !\n#4294967296\nb00000000000000000000000000000000000000000000000000000000000000000000000000000000000000000000000000000000000000000000000000000001 !\n",
    ),
    // no register
    (
        DumpScope {
            name: "none",
            source: b"module none; initial ; endmodule",
            head: "$timescale 1 ns $end\n$scope module none $end\n$upscope $end\n$enddefinitions $end\n#0\n$dumpvars\n$end\n",
        },
        &[T0],
        "",
    ),
];

// The dump of a journal.
fn dump_of(
    alloc: Global,
    scope: &str,
    design: &Design,
    journal: &[Entry],
) -> Result<Vec<u8>, WaveFault> {
    let wave = waves(alloc, design, journal, &Untold)?;
    let text = value_change_dump(alloc, scope, design, &wave)?;
    Ok(text)
}

// A text is the two parts of a dump, one behind the other.
fn assert_dump(rt: &impl Abort, text: &[u8], head: &str, changes: &str) {
    let behind = text.strip_prefix(head.as_bytes()).expect(rt, head);
    holds(rt, behind == changes.as_bytes(), changes);
}

// A dump is the row's, or the line that tells why there is none tells of memory.
fn assert_told(
    rt: &impl Abort,
    alloc: Global,
    answer: &Result<Vec<u8>, WaveFault>,
    row: &DumpRow<'_>,
) {
    match answer {
        Ok(bytes) => assert_dump(rt, bytes, row.0.head, row.2),
        Err(fault) => {
            let told = format!(in alloc; "{fault}").expect(rt, "memory");
            holds(rt, told.as_str().ends_with("memory"), "another fault");
        }
    }
}

/// Whether the dump of a row is made in so much memory. If not, it tells of memory.
pub fn is_dumped(rt: &impl Abort, memory: &mut Scarce, row: &DumpRow<'_>) -> bool {
    let alloc = memory.alloc;
    memory.open(rt);
    let design = design_of(rt, alloc, row.0.source);
    memory.leave(rt);
    let answer = dump_of(alloc, row.0.name, &design, row.1);
    memory.open(rt);
    assert_told(rt, alloc, &answer, row);
    answer.is_ok()
}
