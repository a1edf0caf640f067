//! Registers that a test holds, and turns of the first process of a source on them.

use crate::claims::{fail, holds, holds_at};
use design::{Design, ProcState, RegId};
use frontend::{SourceFault, read_design};
use indexmap::IndexMap;
use logic4::bits::Bits;
use std::alloc::Global;
use std::process::Abort;
use turn::{RegReader, Seen, TurnFault, TurnLog, run_turn};

/// The version and the value of each register by its number, and how many were read.
#[derive(Drop)]
pub struct HeldRegisters {
    pub registers: [Seen; 4],
    pub reads: u64,
}

impl HeldRegisters {
    /// Every register has the same value, at version 0.
    pub fn all(value: Bits) -> HeldRegisters {
        HeldRegisters {
            registers: [Seen { version: 0, value }; 4],
            reads: 0,
        }
    }
}

impl RegReader for HeldRegisters {
    ghost use Rattle.std.specs.Prelude.{ℕ};
    ghost use Rattle.turn.specs.declared.memory.Seen.{Seen};

    ghost registers = { 65536 };

    ghost gave = { λ s r x. Unit {0} };

    ghost Lasting = { Unit {0} };

    ghost lasting = { λ r. tt };

    fn read(&mut self, register: RegId) -> Seen {
        self.reads = self.reads.wrapping_add(1);
        match self.registers.get(register as usize) {
            Some(seen) => *seen,
            None => Seen {
                version: 0,
                value: Bits::unknown(1),
            },
        }
    }
}

/// The design of a source.
pub fn design_of(rt: &impl Abort, alloc: Global, source: &[u8]) -> Design {
    match read_design(alloc, source) {
        Ok(design) => design,
        Err(fault) => panic!(rt; "{fault}"),
    }
}

/// What the fault of a source prints.
pub fn text_of_fault(rt: &impl Abort, alloc: Global, fault: &SourceFault) -> String {
    format!(in alloc; "{fault}").expect(rt, "memory for a line")
}

/// Where the first process of a design begins.
pub fn beginning(rt: &impl Abort, design: &Design) -> ProcState {
    holds(rt, design.processes() > 0, "no process");
    design.first(0)
}

/// A register stands at this place of the reads of a turn.
pub fn assert_read_at(
    rt: &impl Abort,
    reads: &IndexMap<RegId, Seen>,
    register: RegId,
    place: usize,
) {
    let is = reads.get_index_of(&register) == Some(place);
    holds_at(rt, is, "another place of register", register as usize);
}

// The turn of a process in a state, at a time below 2 to the 32. Tests share this call of `run_turn`, since it is dear to prove.
fn turn_of(
    alloc: Global,
    design: &Design,
    state: &ProcState,
    now: u32,
    held: &mut HeldRegisters,
) -> Result<TurnLog, TurnFault> {
    // The answer tells that there are at most 65,536, which is what the reader takes.
    let _registers = design.registers();
    run_turn(alloc, design, state, u64::from(now), held)
}

/// The first turn of the first process of a source, at a time below 2 to the 32.
pub fn try_first_turn(
    rt: &impl Abort,
    alloc: Global,
    source: &[u8],
    now: u32,
    held: &mut HeldRegisters,
) -> Result<TurnLog, TurnFault> {
    let design = design_of(rt, alloc, source);
    let state = beginning(rt, &design);
    turn_of(alloc, &design, &state, now, held)
}

/// A turn that isn't too long.
fn short(rt: &impl Abort, turn: Result<TurnLog, TurnFault>) -> TurnLog {
    match turn {
        Ok(log) => log,
        Err(TurnFault::Memory) => fail(rt, "memory"),
        Err(TurnFault::TooLong(_)) => fail(rt, "too long"),
    }
}

/// The turn of a process in a state, at a time below 2 to the 32.
pub fn turn_from(
    rt: &impl Abort,
    alloc: Global,
    design: &Design,
    state: ProcState,
    now: u32,
    held: &mut HeldRegisters,
) -> TurnLog {
    short(rt, turn_of(alloc, design, &state, now, held))
}

/// A turn, and the registers that it read.
#[derive(Drop)]
pub struct Taken {
    pub held: HeldRegisters,
    pub log: TurnLog,
}

/// The first turn of the first process of a source, at time 7, where every register has the same value.
pub fn first_turn(rt: &impl Abort, alloc: Global, source: &[u8], value: Bits) -> Taken {
    let mut held = HeldRegisters::all(value);
    let turn = try_first_turn(rt, alloc, source, 7, &mut held);
    Taken {
        log: short(rt, turn),
        held,
    }
}
