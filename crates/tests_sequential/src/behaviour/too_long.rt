//! Turns that are too long: what they read. And the most steps that a turn has.

use super::compare::{assert_length, assert_number, assert_text};
use super::held::{HeldRegisters, assert_read_at, first_turn, try_first_turn};
use super::turns::DIFFER;
use crate::claims::{fail, holds_at, repeated};
use design::RegId;
use indexmap::IndexMap;
use logic4::bits::Bits;
use std::alloc::Global;
use std::process::Abort;
use turn::{Seen, TurnFault, TurnLog};

// What the first turn of a process read, which is too long.
fn too_long(
    rt: &impl Abort,
    alloc: Global,
    source: &[u8],
    held: &mut HeldRegisters,
) -> IndexMap<RegId, Seen> {
    match try_first_turn(rt, alloc, source, 3, held) {
        Err(TurnFault::TooLong(reads)) => reads,
        Err(TurnFault::Memory) => fail(rt, "memory"),
        Ok(_) => fail(rt, "short"),
    }
}

// `initial` and a block of this many empty statements.
fn empty_statements(rt: &impl Abort, alloc: Global, count: usize) -> Vec<u8> {
    let front = b"module t; initial begin ";
    repeated(rt, alloc, front, b";", count, b" end endmodule")
}

// A register stands at this place of the reads, with this seen of it.
fn assert_seen(
    rt: &impl Abort,
    reads: &IndexMap<RegId, Seen>,
    register: RegId,
    place: usize,
    wanted: &Seen,
) {
    assert_read_at(rt, reads, register, place);
    let is = reads.get(&register) == Some(wanted);
    holds_at(rt, is, "another value of register", register as usize);
}

// Two registers were read in their order, and this was seen of each.
fn assert_both_seen(rt: &impl Abort, reads: &IndexMap<RegId, Seen>, first: &Seen, second: &Seen) {
    assert_length(rt, reads.len(), 2);
    assert_seen(rt, reads, 0, 0, first);
    assert_seen(rt, reads, 1, 1, second);
}

// A turn that loops until two registers are the same, which they aren't, read both.
fn assert_differ(rt: &impl Abort, alloc: Global, held: &mut HeldRegisters) {
    let [first, second, _, _] = held.registers;
    let reads = too_long(rt, alloc, DIFFER.as_bytes(), held);
    assert_both_seen(rt, &reads, &first, &second);
}

#[test]
fn reads_before_it_is_too_long(rt: HostRuntime) {
    let first = Seen {
        version: 1,
        value: Bits::from_u64(1, 0),
    };
    let second = Seen {
        version: 0,
        value: Bits::from_u64(1, 1),
    };
    let mut held = HeldRegisters::all(Bits::unknown(1));
    held.registers[0] = first;
    held.registers[1] = second;
    assert_differ(&rt, rt.alloc(), &mut held);
}

// A turn has so many steps, and reads and prints nothing.
fn assert_steps(rt: &impl Abort, log: &TurnLog, count: u64) {
    assert_length(rt, log.reads().len(), 0);
    assert_text(rt, log.lines(), "");
    assert_number(rt, u64::from(log.count()), count);
}

// The first turn of a process has as many steps as a turn may have.
fn assert_longest(rt: &impl Abort, alloc: Global, source: &[u8]) {
    let taken = first_turn(rt, alloc, source, Bits::unknown(1));
    assert_steps(rt, &taken.log, 65_536);
}

// The first turn of a process is too long, and reads no register.
fn assert_reads_nothing(rt: &impl Abort, alloc: Global, source: &[u8]) {
    let reads = too_long(rt, alloc, source, &mut HeldRegisters::all(Bits::unknown(1)));
    assert_length(rt, reads.len(), 0);
}

#[test]
fn has_so_many_steps_and_no_more(rt: HostRuntime) {
    let alloc = rt.alloc();
    assert_longest(&rt, alloc, &empty_statements(&rt, alloc, 65_536));
    assert_reads_nothing(&rt, alloc, &empty_statements(&rt, alloc, 65_537));
    assert_reads_nothing(&rt, alloc, b"module t; always ; endmodule");
}
