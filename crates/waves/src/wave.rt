//! Waves.

use design::RegId;
use logic4::bits::Bits;

/// A register has another value at the end of a time than before.
#[derive(Clone, Copy)]
pub struct ValueChange {
    /// The time, in units of the source.
    pub time: u64,
    /// The number of the register.
    pub register: RegId,
    /// Its value at the end of that time.
    pub value: Bits,
}

/// The changes of a run's registers, in the order of their times, and at one time in the order of the registers. Before its first
/// change a register is all x (4.2.2).
#[derive(Drop)]
pub struct Wave {
    pub changes: Vec<ValueChange>,
    /// The time to which the run came.
    pub end: u64,
}
