//! What is told of an entry.

use design::RegId;
use logic4::bits::Bits;
use std::alloc::Global;
use turn::Nba;

/// A register that a turn read: the value that it saw, and the version, which is how many changes the register had had, or the
/// greatest `u64` where that is less.
#[derive(Clone, Copy)]
pub struct Reading {
    pub register: RegId,
    pub value: Bits,
    pub version: u64,
}

/// A change of a register: its value before, and the one after.
#[derive(Clone, Copy)]
pub struct Changed {
    pub register: RegId,
    pub before: Bits,
    pub after: Bits,
}

/// Who does an entry.
#[derive(Clone, Copy)]
pub enum EntryActor {
    /// The turn of a process, which takes an evaluation event (11.2).
    Turn(u32),
    /// The update event of a register with this value (11.2).
    Update(RegId, Bits),
    /// A change of the regions (11.3).
    Regions,
}

/// What is told of an entry: the time after it, who does it, its lines (17.1), the registers that its turn read, in the order of
/// their first use, its changes, and its nonblocking assignments (9.2.2). The lists keep their room for the next entry.
#[derive(Drop)]
pub struct EntryAccount {
    pub time: u64,
    pub actor: EntryActor,
    pub lines: String,
    pub reads: Vec<Reading>,
    pub changes: Vec<Changed>,
    pub assigned: Vec<Nba>,
}

impl EntryAccount {
    /// What is told of no entry.
    pub(crate) fn new(alloc: Global) -> EntryAccount {
        EntryAccount {
            time: 0,
            actor: EntryActor::Regions,
            lines: String::new(alloc),
            reads: Vec::new(alloc),
            changes: Vec::new(alloc),
            assigned: Vec::new(alloc),
        }
    }
}
