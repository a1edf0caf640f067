//! A register that differs.

use design::RegId;
use logic4::bits::Bits;

/// The entry that gave a register its value: its number, counted from 1, and the process whose turn it is, or none where it is an update.
#[derive(Clone, Copy)]
pub struct ValueGiver {
    pub entry: u64,
    pub process: Option<u32>,
}

/// The value of a register, and the entry that gave it, or none where no entry has changed the register.
#[derive(Clone, Copy)]
pub struct GivenValue {
    pub value: Bits,
    pub by: Option<ValueGiver>,
}

/// A register whose value in one run differs from that in another when a time passes.
#[derive(Clone, Copy)]
pub struct ValueDifference {
    /// The time that passes.
    pub time: u64,
    /// The number of the register.
    pub register: RegId,
    /// Its value in the run of the first journal.
    pub first: GivenValue,
    /// Its value in the run of the second journal.
    pub second: GivenValue,
}
