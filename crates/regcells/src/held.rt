//! The cells and their holder as a store, for the calls that change the values of the registers.
ghost use Rattle.std.specs.Prelude.{◌≡◌};
ghost use Rattle.regcells.specs.CellSeats.{IsOfRegisters};

use crate::cells::{Holder, RegCells};
use design::RegId;
use logic4::bits::Bits;
use regions::Store;
use std::sync::Wait;
use turn::TurnChange;

/// The values of the registers in their cells, and the holder, which changes them.
#[derive(Drop)]
pub struct HeldStore<'a, R: Wait> {
    pub rt: &'a R,
    pub cells: &'a RegCells,
    pub holder: &'a mut Holder,
}

impl<'a, R: Wait> HeldStore<'a, R> {
    /// The store of these cells, which is ready.
    pub fn new(rt: &'a R, cells: &'a RegCells, holder: &'a mut Holder) -> HeldStore<'a, R>
        requires { holder.old.cells ≡ cells.now }
        ensures holder { result.holder.ghost_name ≡ holder.entry.ghost_name }
        ensures same { result.holder.now ≡ holder.old }
        ensures cells { result.cells.now ≡ cells.entry.now }
        ensures ready { IsOfRegisters cells.entry.now holder.old }
    {
        // the widths of its last values are known by this call
        holder.registers();
        HeldStore { rt, cells, holder }
    }
}

impl<'a, R: Wait> Store for HeldStore<'a, R> {
    ghost use Rattle.std.specs.Prelude.{◌≡◌, List, ℕ};
    ghost use Rattle.regcells.specs.CellSeats.{RegisterIdentity, seen_of, last_values, changes_left, IsOfRegisters};

    ghost values = { λ s. last_values s.holder.now };

    ghost had = { λ s r values. values ≡ seen_of s.holder.now r };

    ghost left = { λ s r. changes_left s.holder.now r };

    ghost Name = { ℕ × List RegisterIdentity };

    ghost which = { λ s. (s.holder.ghost_name, s.cells.now) };

    ghost ready = { λ s. IsOfRegisters s.cells.now s.holder.now };

    fn get(&mut self, register: RegId) -> Bits {
        self.cells.get_held(self.rt, self.holder, register).value
    }

    fn set(&mut self, register: RegId, value: Bits) {
        self.cells.store(self.rt, self.holder, register, value);
    }

    // Stores a register's last value into its cell, once for all of its writes.
    fn set_turn_change(&mut self, turn_change: TurnChange, writes: &[(RegId, Bits)]) {
        self.cells
            .store_turn_change(self.rt, self.holder, turn_change, writes);
    }
}
