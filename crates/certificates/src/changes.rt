//! Lists of changes of registers.
ghost use Rattle.std.specs.Prelude.{◌≡◌, ℕ, ◌||◌, [], ◌∷◌, ◌++◌, if◌then◌else◌, is_ok, map, OnOk};
ghost use Rattle.std.specs.List.{list_any};
ghost use Rattle.model.specs.Turns.{contains};
ghost use Rattle.footprints.specs.Footprints.{changed_registers};
ghost use Rattle.certificates.specs.Masks.{meet};
ghost use Rattle.certificates.specs.Changes.{register_change_of, may_wake, may_wake_any};
ghost use Rattle.certificates.specs.Marks.{is_marked};

use crate::masked::{Masked, Numbered};
use crate::numbers::MaskedNumbers;
use crate::triggers::Triggers;
use design::RegId;
use logic4::bits::Bits;
use std::alloc::{AllocError, Global};
use std::marker::Model;

/// A change of a register: its value before, and the one after.
#[derive(Clone, Copy)]
pub struct NotedChange {
    pub register: RegId,
    pub before: Bits,
    pub after: Bits,
}

impl Numbered for NotedChange {
    ghost number_of = { λ c. c.register };

    fn number(&self) -> u32 {
        self.register
    }
}

/// A list of changes, with the mask of their registers.
#[derive(Drop)]
pub struct Changes {
    list: Masked<NotedChange>,
}

impl Model for Changes {
    ghost use Rattle.footprints.specs.Footprints.{RegisterChange};
    ghost use Rattle.std.specs.Prelude.{List, map};

    ghost Value = { List RegisterChange };

    ghost use Rattle.certificates.specs.Changes.{register_change_of};

    ghost view = { λ c. map register_change_of c.list };
}

// Whether a change may wake somebody who waits for these events.
fn may_wake_one(change: NotedChange, triggers: &Triggers) -> bool
    ensures { result ≡ may_wake triggers.now (register_change_of change) }
{
    if change.before.width() == change.after.width() {
        triggers.are_met(change.register, Bits::edge(change.before, change.after))
    } else {
        triggers.are_on(change.register)
    }
}

// Whether one of these changes may wake somebody who waits for these events.
fn may_any_wake(changes: &[NotedChange], triggers: &Triggers) -> bool
    ensures { result ≡ list_any (λ c. may_wake triggers.now (register_change_of c)) changes.now }
{
    changes.iter().any(|change| may_wake_one(*change, triggers))
}

// Whether one of these changes a register that is among these.
fn is_any_among(changes: &[NotedChange], registers: &MaskedNumbers) -> bool
    ensures { result ≡ list_any (λ c. contains registers.now c.register) changes.now }
{
    changes
        .iter()
        .any(|change| registers.contains(change.register))
}

impl Changes {
    /// No changes.
    pub fn new(alloc: Global) -> Changes
        ensures { result ≡ [] }
    {
        Changes {
            list: Masked::new(alloc),
        }
    }

    /// Takes all changes out. The list keeps its room.
    pub fn clear(&mut self)
        ensures { self.new ≡ [] }
    {
        self.list.clear();
    }

    /// Appends a change.
    pub fn push(&mut self, change: NotedChange) -> Result<(), AllocError>
        ensures { self.new ≡ (if is_ok result then self.old ++ register_change_of change ∷ [] else self.old) }
    {
        self.list.push(change)
    }

    /// The changes, in order.
    pub fn as_slice(&self) -> &[NotedChange]
        ensures { map register_change_of result.now ≡ self.entry.now }
    {
        self.list.as_slice()
    }

    /// Whether one of them changes one of these registers.
    pub fn touch(&self, registers: &MaskedNumbers) -> bool
        ensures { result ≡ meet (changed_registers self.now) registers.now }
    {
        self.list.mask().may_meet(registers.mask()) && is_any_among(self.list.as_slice(), registers)
    }

    /// Whether one of them may wake somebody who waits for these events.
    pub fn may_wake(&self, triggers: &Triggers) -> bool
        ensures { result ≡ may_wake_any triggers.now self.now }
    {
        self.list.mask().may_meet(triggers.mask()) && may_any_wake(self.list.as_slice(), triggers)
    }

    /// Whether one of the changed registers is marked.
    pub(crate) fn is_any_marked(&self, marks: &[bool]) -> bool
        ensures { result ≡ list_any (λ r. is_marked marks.now r) (changed_registers self.now) }
    {
        self.list.is_any_marked(marks)
    }

    /// Marks each of the changed registers.
    pub(crate) fn mark_all(&self, marks: &mut Vec<bool>) -> Result<(), AllocError>
        ensures { OnOk result ((r : ℕ) → is_marked marks.new.items r ≡ (is_marked marks.old.items r || contains (changed_registers self.now) r)) }
    {
        self.list.mark_all(marks)?;
        Ok(())
    }
}
