//! Modules with as many registers and processes as there may be.

use super::claims::holds;
use super::{TextPattern, design_of, repeated};
use std::alloc::Global;
use std::process::Abort;

/// A module that declares so many registers.
const REGISTERS: TextPattern<'static> = TextPattern {
    before: "module t;",
    numbered: &[" reg r"],
    last: ";",
    after: " endmodule",
};

/// A module that has so many processes.
const PROCESSES: TextPattern<'static> = TextPattern {
    before: "module t;",
    numbered: &[],
    last: " initial ;",
    after: " endmodule",
};

fn assert_registers(rt: &impl Abort, alloc: Global, source: &str, registers: u32) {
    let design = design_of(rt, alloc, source);
    holds(rt, design.registers() == registers, "the registers");
}

fn assert_processes(rt: &impl Abort, alloc: Global, source: &str, processes: u32) {
    let design = design_of(rt, alloc, source);
    holds(rt, design.processes() == processes, "the processes");
}

#[test]
fn takes_what_is_within_the_bounds(rt: HostRuntime) {
    let source = repeated(&rt, rt.alloc(), REGISTERS, 1024);
    assert_registers(&rt, rt.alloc(), source.as_str(), 1024);
    let source = repeated(&rt, rt.alloc(), PROCESSES, 256);
    assert_processes(&rt, rt.alloc(), source.as_str(), 256);
}
