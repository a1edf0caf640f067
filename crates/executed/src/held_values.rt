//! The values of registers, with the writes of a turn so far.

use design::RegId;
use logic4::bits::Bits;
use std::alloc::{AllocError, Global};
use turn::{RegReader, Seen};

/// The values of registers by their numbers, which are given as they are. A register that isn't there is one unknown digit.
#[derive(Drop)]
pub(crate) struct HeldValues {
    values: Vec<Bits>,
}

impl HeldValues {
    /// Copies of these values. Fails where memory is refused.
    pub(crate) fn of(alloc: Global, values: &[Bits]) -> Result<HeldValues, AllocError> {
        let mut held = Vec::new(alloc);
        held.extend_from_slice(values)?;
        Ok(HeldValues { values: held })
    }

    /// A register has this value from now on.
    pub(crate) fn set(&mut self, register: RegId, value: Bits) {
        let at = register as usize;
        if at < self.values.len() {
            self.values[at] = value;
        }
    }
}

impl RegReader for HeldValues {
    ghost use Rattle.std.specs.Prelude.{ℕ};
    ghost use Rattle.turn.specs.declared.memory.Seen.{Seen};

    ghost registers = { 65536 };

    ghost gave = { λ s r x. Unit {0} };

    ghost Lasting = { Unit {0} };

    ghost lasting = { λ r. tt };

    fn read(&mut self, register: RegId) -> Seen {
        match self.values.get(register as usize) {
            Some(value) => Seen {
                version: 0,
                value: *value,
            },
            None => Seen {
                version: 0,
                value: Bits::unknown(1),
            },
        }
    }
}
