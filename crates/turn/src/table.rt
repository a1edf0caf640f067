//! What a turn knows of the registers, in room that is kept between turns.
ghost use Rattle.std.specs.Prelude.{◌≡◌, ◌<◌, ◌≤◌, [], None, Some, replicate, slice_index_or, slice_set, OnOk, MatchOption};
ghost use Rattle.std.specs.List.{All};
ghost use Rattle.turn.specs.Slots.{known_in};

use design::RegId;
use logic4::bits::Bits;
use std::alloc::{AllocError, Global};
use std::marker::Model;

// A value, and the stamp that the table had when it was set.
#[derive(Clone, Copy)]
struct Slot {
    stamp: u64,
    value: Bits,
}

/// The value that is known of each register, by its number: a slot counts where it has the table's stamp. So a new stamp
/// is all it takes to know nothing again.
#[derive(Drop)]
pub(crate) struct Known {
    stamp: u64,
    slots: Vec<Slot>,
}

impl Model for Known {
    ghost use Rattle.std.specs.Prelude.{◌≤◌, List, Option, map};
    ghost use Rattle.std.specs.List.{All};
    ghost use Rattle.logic4.specs.Vector.{Vector};
    ghost use Rattle.turn.specs.Slots.{known_in};

    ghost Value = { List (Option Vector) };

    ghost view = { λ k. map (known_in k.stamp) k.slots.items };

    ghost invariant = { λ k. All (λ s. s.stamp ≤ k.stamp) k.slots.items };
}

// A stamp that no slot has. After the last one the slots are cleared, and the stamps begin again.
fn next_stamp(stamp: u64, slots: &mut Vec<Slot>) -> u64
    requires { All (λ s. s.stamp ≤ stamp) slots.old.items }
    ensures new { All (λ s. s.stamp < result) slots.new.items }
    ensures some { 0 < result }
{
    if stamp == u64::MAX {
        slots.clear();
        1
    } else {
        stamp + 1
    }
}

impl Known {
    // A table of no registers.
    pub fn new(alloc: Global) -> Known
        ensures { result ≡ [] }
    {
        Known {
            stamp: 0,
            slots: Vec::new(alloc),
        }
    }

    /// Nothing is known, of this many registers. Mostly there are as many slots, and then a new stamp is all.
    pub fn begin(&mut self, registers: u32) -> Result<(), AllocError>
        ensures { OnOk result (self.new ≡ replicate registers None) }
    {
        self.stamp = next_stamp(self.stamp, &mut self.slots);
        if self.slots.len() == registers as usize {
            return Ok(());
        }
        let unset = Slot {
            stamp: 0,
            value: Bits::unknown(1),
        };
        self.slots.resize(registers as usize, unset)?;
        Ok(())
    }

    /// The value that is known of a register. It is lent, since its five words are dear to copy.
    #[inline(always)]
    pub fn peek(&self, register: RegId) -> Option<&Bits>
        ensures { MatchOption result (slice_index_or self.entry.now register None ≡ None) (λ value. slice_index_or self.entry.now register None ≡ Some value.now) }
    {
        match self.slots.get(register as usize) {
            Some(slot) => if slot.stamp == self.stamp {
                Some(&slot.value)
            } else {
                None
            },
            None => None,
        }
    }

    /// Knows this value of a register.
    pub fn set(&mut self, register: RegId, value: &Bits)
        ensures { self.new ≡ slice_set self.old register (Some value.now) }
    {
        let stamp = self.stamp;
        if let Some(slot) = self.slots.get_mut(register as usize) {
            slot.stamp = stamp;
            slot.value = *value;
        }
    }
}
