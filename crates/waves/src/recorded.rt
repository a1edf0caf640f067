//! What is told of a run on its way.

ghost use Rattle.std.specs.Prelude.{◌≡◌, ◌++◌, [], length, OnOk};
ghost use Rattle.logic4.specs.Operators.{same_vector};
ghost use Rattle.waves.specs.Changes.{differences, with_change};

use crate::wave::ValueChange;
use logic4::bits::Bits;
use regions::Machine;
use std::alloc::AllocError;

/// The changes that were told, and the value of each register after them.
#[derive(Drop)]
pub(crate) struct Recorded {
    pub(crate) changes: Vec<ValueChange>,
    pub(crate) values: Vec<Bits>,
}

// Tells of a change, unless the register has its value already.
fn push_change(
    changes: &mut Vec<ValueChange>,
    old: Bits,
    change: ValueChange,
) -> Result<(), AllocError>
    ensures { OnOk result (changes.new.items ≡ changes.old.items ++ with_change (same_vector old change.value) change []) }
{
    if old == change.value {
        return Ok(());
    }
    changes.push(change)?;
    Ok(())
}

// Tells of each register whose value isn't the old one, at a time.
fn push_changes(
    changes: &mut Vec<ValueChange>,
    time: u64,
    registers: u32,
    olds: &[Bits],
    news: &[Bits],
) -> Result<(), AllocError>
    requires olds { length olds.now ≡ registers }
    requires news { length news.now ≡ registers }
    ensures { OnOk result (changes.new.items ≡ changes.old.items ++ differences time 0 olds.now news.now) }
{
    for register in 0..registers {
        let value = news[register as usize];
        let change = ValueChange {
            time,
            register,
            value,
        };
        push_change(changes, olds[register as usize], change)?;
    }
    Ok(())
}

impl Recorded {
    /// Tells of each register whose value isn't the one that was told last. It looks at all registers.
    pub(crate) fn tell(&mut self, machine: &Machine<'_>) -> Result<(), AllocError>
        requires { length self.old.values.items ≡ length machine.now.code.widths }
        ensures changes { OnOk result (self.new.changes.items ≡ self.old.changes.items ++ differences machine.now.core.time 0 self.old.values.items machine.now.values) }
        ensures values { OnOk result (self.new.values.items ≡ machine.now.values) }
    {
        machine.stands();
        let time = machine.time();
        let registers = machine.design().registers();
        let news = machine.store().values();
        let olds = self.values.as_slice();
        push_changes(&mut self.changes, time, registers, olds, news)?;
        self.values.as_mut_slice().copy_from_slice(news);
        Ok(())
    }
}
