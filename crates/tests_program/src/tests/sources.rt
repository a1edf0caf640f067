//! Sources that several tests run, and journals of them.

/// No process.
pub(super) const EMPTY: &str = "module t; endmodule";

/// The journal of a run that has no entry.
pub(super) const NO_ENTRY: &[u8] = b"vsimtx-journal 2\nE 0\n";

/// One process, which prints a line.
pub(super) const HI: &str = "module t; initial $display(\"hi\"); endmodule";

/// The journal of a run that has one turn alone.
pub(super) const ONE_TURN: &[u8] = b"vsimtx-journal 2\nT 0\nE 1\n";

/// Two processes print a line each.
pub(super) const DISPLAYS: &str =
    "module t; reg a; initial begin a=1'b1; $display(\"x\"); end initial $display(\"y\"); endmodule";

/// Two processes write one register.
pub(super) const WRITERS: &str =
    "module t; reg a; initial a=1'b0; initial a=1'b1; initial #0 $display(\"%b\",a); endmodule";

/// A process reads a register which another one writes.
pub(super) const RACE: &str =
    "module t; reg a; initial a = 1'b1; initial $display(\"%b\", a); endmodule";

/// A process prints a line again and again.
pub(super) const CLOCK: &str = "module t; always #10 $display(\"t\"); endmodule";

/// Two processes wait for one register.
pub(super) const WAITERS: &str =
    "module t; reg a; initial #0 a=1'b1; initial @(a) $display(\"p1\"); initial @(posedge a) $display(\"p2\"); endmodule";

/// One of two processes ends the run.
pub(super) const FINISHES: &str =
    "module t; initial begin $display(\"a\"); $finish; $display(\"b\"); end initial $display(\"c\"); endmodule";

/// Two processes copy each other's register at one time.
pub(super) const COPIES: &str =
    "module t; reg a, b; initial begin a=1'b0; b=1'b1; end initial #1 a=b; initial #1 b=a; initial #2 $display(\"%b %b\",a,b); endmodule";

/// Two registers are swapped.
pub(super) const SWAP: &str =
    "module t; reg a, b; initial begin a=1'b0; b=1'b1; #1 a<=b; b<=a; #1 $display(\"%b %b\",a,b); end endmodule";

/// A process waits again and again, as long as it may.
pub(super) const LONGEST_WAITS: &str = "module t; always #4294967295 ; endmodule";
