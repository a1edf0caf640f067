//! What a turn knows of the registers: what it wrote, and what it read.
ghost use Rattle.std.specs.Prelude.{◌≡◌, ◌<◌, ℕ, None, Some, [], replicate, nat_eq, slice_index_or, slice_set, OnOk, IfOk};
ghost use Rattle.indexmap.specs.IndexMap.{insert_entry};
ghost use Rattle.turn.specs.Reads.{ReadsOn};
ghost use Rattle.turn.specs.Memory.{LooksUp};

use crate::table::Known;
use design::RegId;
use indexmap::IndexMap;
use logic4::bits::Bits;
use std::alloc::{AllocError, Global};

/// What a read of a register saw: the version that it had, and its value.
#[derive(Clone, Copy, PartialEq, Eq, Debug)]
pub struct Seen {
    pub version: u64,
    pub value: Bits,
}

/// Gives the values of registers, each with its version. A reader knows the pairs that it gave.
pub trait RegReader {
    ghost use Rattle.std.specs.Prelude.{ℕ, ◌<◌};
    ghost use Rattle.turn.specs.declared.memory.Seen.{Seen};

    /// The registers that it may be asked for are those with a number below this one.
    ghost registers: { ℕ };

    /// The pairs given so far, by register.
    ghost gave: { Self → ℕ → Seen → Type 0 };

    /// What no read changes.
    ghost Lasting: { Type 0 };

    /// What no read changes, of this reader.
    ghost lasting: { Self → Lasting };

    /// The value that a register has now, and its version.
    fn read(&mut self, register: RegId) -> Seen
        requires { register < registers }
        ensures adds { gave self.new register result }
        ensures keeps { (r : ℕ) (s : Seen) → gave self.old r s → gave self.new r s }
        ensures lasting { lasting self.new ≡ lasting self.old };
}

/// The value that is known of each register, by its number, and the reads, in the order of their first use.
#[derive(Drop)]
pub(crate) struct Memory {
    pub known: Known,
    pub reads: IndexMap<RegId, Seen>,
}

impl Memory {
    /// Nothing is known, of no registers.
    pub fn new(alloc: Global) -> Self {
        Memory {
            known: Known::new(alloc),
            reads: IndexMap::new(alloc),
        }
    }

    /// Nothing is known of this many registers, whatever was known before.
    pub fn begin(&mut self, registers: u32) -> Result<(), AllocError>
        ensures known { OnOk result (self.new.known ≡ replicate registers None) }
        ensures reads { OnOk result (self.new.reads.entries ≡ []) }
    {
        self.reads.clear();
        self.known.begin(registers)
    }

    /// Knows this value of a register.
    pub fn set(&mut self, register: RegId, value: &Bits)
        ensures known { self.new.known ≡ slice_set self.old.known register (Some value.now) }
        ensures reads { self.new.reads ≡ self.old.reads }
    {
        self.known.set(register, value);
    }

    // Records a read, whose value is known from now on.
    #[inline(always)]
    fn record(&mut self, register: RegId, seen: &Seen) -> Result<(), AllocError>
        ensures known { OnOk result (self.new.known ≡ slice_set self.old.known register (Some seen.now.value)) }
        ensures reads { OnOk result (self.new.reads.entries ≡ insert_entry nat_eq self.old.reads.entries register seen.now) }
    {
        self.set(register, &seen.value);
        self.reads.insert(register, *seen)?;
        Ok(())
    }

    /// The value of a register of which none is known: it is read now, and recorded.
    pub fn read<R: RegReader>(
        &mut self,
        reader: &mut R,
        register: RegId,
    ) -> Result<Bits, AllocError>
        requires declared { register < R.registers }
        requires unknown { slice_index_or self.old.known register None ≡ None }
        ensures value { IfOk result (λ v. LooksUp self.old.known self.old.reads.entries register v self.new.known self.new.reads.entries) }
        ensures reads { ReadsOn R.gave R.lasting result reader.old self.old.reads.entries reader.new self.new.reads.entries }
    {
        let seen = reader.read(register);
        self.record(register, &seen)?;
        Ok(seen.value)
    }

    /// The value of a register: the one that is known, or else the one that is read now, and recorded.
    pub fn look<R: RegReader>(
        &mut self,
        reader: &mut R,
        register: RegId,
    ) -> Result<Bits, AllocError>
        requires { register < R.registers }
        ensures value { IfOk result (λ v. LooksUp self.old.known self.old.reads.entries register v self.new.known self.new.reads.entries) }
        ensures reads { ReadsOn R.gave R.lasting result reader.old self.old.reads.entries reader.new self.new.reads.entries }
    {
        match self.known.peek(register) {
            Some(value) => Ok(*value),
            None => self.read(reader, register),
        }
    }
}
