//! Which entries are told where registers are asked for.

ghost use Rattle.std.specs.Prelude.{◌≡◌};
ghost use Rattle.std.specs.List.{list_any};
ghost use Rattle.model.specs.Turns.{contains};
ghost use Rattle.steps.specs.Accounts.{account_of};
ghost use Rattle.explain.specs.Wanted.{is_wanted, line_registers, updated_registers, wanted_registers};

use crate::lines::ListedPart;
use design::RegId;
use steps::{EntryAccount, EntryActor};

// Whether a register is among these.
fn has_register(registers: &[RegId], register: RegId) -> bool
    ensures { result ≡ contains registers.now register }
{
    registers.iter().any(|one| *one == register)
}

// Whether one of these registers is updated.
fn updates_any(registers: &[RegId], actor: EntryActor) -> bool
    ensures { result ≡ list_any (contains registers.now) (updated_registers actor) }
{
    match actor {
        EntryActor::Update(register, _) => has_register(registers, register),
        EntryActor::Turn(_) | EntryActor::Regions => false,
    }
}

// Whether one of some parts of a line names one of these registers.
fn has_any_of<P: ListedPart>(registers: &[RegId], parts: &[P]) -> bool
    ensures { result ≡ list_any (λ part. contains registers.now (P.part_register part)) parts.now }
{
    parts
        .iter()
        .any(|part| has_register(registers, part.register()))
}

// Whether the line of an entry names one of these registers.
fn names_any(registers: &[RegId], account: &EntryAccount) -> bool
    ensures { result ≡ list_any (contains registers.now) (line_registers (account_of account.now)) }
{
    let updated = updates_any(registers, account.actor);
    let read = has_any_of(registers, &account.reads);
    let changed = has_any_of(registers, &account.changes);
    let assigned = has_any_of(registers, &account.assigned);
    updated | read | changed | assigned
}

/// Whether an entry is told: its line names one of the registers that are asked for, or none are.
pub(crate) fn is_wanted(registers: Option<&[RegId]>, account: &EntryAccount) -> bool
    ensures { result ≡ is_wanted (wanted_registers registers.entry) (account_of account.now) }
{
    match registers {
        Some(registers) => names_any(registers, account),
        None => true,
    }
}
