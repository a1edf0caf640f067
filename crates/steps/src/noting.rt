//! What is noted of an entry before it is taken.
ghost use Rattle.std.specs.Prelude.{◌≡◌, ◌<◌, [], map, length, slice_get, Some, None, MatchOption, IfOk, OnOk};
ghost use Rattle.model.specs.declared.entry.Entry.TheVariants as entries;
ghost use Rattle.model.specs.Runs.{Effect, action_in, step};
ghost use Rattle.design.specs.Compiled.{design_of};
ghost use Rattle.turn.specs.Reads.{registers, AreDeclared};
ghost use Rattle.regions.specs.Queue.{update_event};
ghost use Rattle.regions.specs.Machine.{state_at};
ghost use Rattle.steps.specs.declared.entry_account.EntryActor.TheVariants as actors;
ghost use Rattle.steps.specs.Accounts.{account_of};
ghost use Rattle.steps.specs.Cells.{cell_values, reading_in, AreWritten, AllWritesIn};
ghost use Rattle.steps.specs.ExplainerStanding.{update_of, IsCleared, IsKept, IsLogFilled, IsNoted, IsSoundState};

use crate::cells::{VersionedValue, change, change_all, reading};
use crate::entry_account::{EntryAccount, EntryActor, Reading};
use design::RegId;
use indexmap::IndexMap;
use model::entry::Entry;
use regions::{Machine, Update};
use std::alloc::AllocError;
use std::collections::VecDeque;
use turn::{FillFault, Seen, TurnLog};

// The register that was read at a place.
fn register_at(reads: &IndexMap<RegId, Seen>, place: usize) -> RegId
    requires { place < length reads.now.entries }
    ensures { slice_get (registers reads.now.entries) place ≡ Some result }
{
    match reads.get_index(place) {
        Some((register, _)) => *register,
        None => unreachable!(),
    }
}

// Tells the registers that were read, as they are known.
fn tell_reads(
    told: &mut Vec<Reading>,
    cells: &[VersionedValue],
    reads: &IndexMap<RegId, Seen>,
) -> Result<(), AllocError>
    requires empty { told.old.items ≡ [] }
    requires declared { AreDeclared (length cells.now) reads.now.entries }
    ensures { OnOk result (told.new.items ≡ map (reading_in cells.now) (registers reads.now.entries)) }
{
    for place in 0..reads.len() {
        told.push(reading(cells, register_at(reads, place)))?;
    }
    Ok(())
}

// Tells what a turn reads, assigns and changes.
fn tell_turn(
    told: &mut EntryAccount,
    cells: &mut Vec<VersionedValue>,
    log: &TurnLog,
) -> Result<(), AllocError>
    requires cleared { IsCleared told.old }
    requires declared { AreDeclared (length cells.old.items) log.now.reads }
    requires writes { AllWritesIn (length cells.old.items) log.now.writes }
    ensures reads { OnOk result (told.new.reads.items ≡ map (reading_in cells.old.items) (registers log.now.reads)) }
    ensures assigned { OnOk result (told.new.assigned.items ≡ log.now.nbas) }
    ensures written { OnOk result (AreWritten cells.old.items log.now.writes [] cells.new.items told.new.changes.items) }
    ensures actor { told.new.actor ≡ told.old.actor }
    ensures registers { length cells.new.items ≡ length cells.old.items }
{
    tell_reads(&mut told.reads, cells, log.reads())?;
    told.assigned.extend_from_slice(log.nbas())?;
    change_all(cells, &mut told.changes, log.writes())
}

// Evaluates a turn, notes it, and answers its number where the log is filled with it.
fn note_turn(
    machine: &Machine<'_>,
    log: &mut TurnLog,
    cells: &mut Vec<VersionedValue>,
    told: &mut EntryAccount,
    number: u64,
) -> Result<Option<u64>, AllocError>
    requires kept { IsKept machine.now cells.old.items }
    requires cleared { IsCleared told.old }
    ensures noted { OnOk result ((effect : Effect) → cell_values cells.old.items ≡ machine.now.values → step (design_of machine.now.code) (state_at machine.now) (entries.Turn number) ≡ Some effect → IsNoted machine.now.code (state_at machine.now) cells.old.items (entries.Turn number) effect cells.new.items (account_of told.new)) }
    ensures sound { OnOk result ((effect : Effect) → step (design_of machine.now.code) (state_at machine.now) (entries.Turn number) ≡ Some effect → IsSoundState machine.now.code effect.state) }
    ensures given { IfOk result (IsLogFilled machine.now.code (state_at machine.now) (entries.Turn number) log.new) }
    ensures registers { length cells.new.items ≡ length cells.old.items }
{
    match machine.evaluate(log, number, 0) {
        Ok(Some(process)) => {
            told.actor = EntryActor::Turn(process);
            tell_turn(told, cells, log)?;
            Ok(Some(number))
        }
        Ok(None) => Ok(None),
        Err(FillFault::TooLong) => Ok(None),
        Err(FillFault::Memory) => Err(AllocError),
    }
}

// The update with a number, where one of these has it.
fn update_numbered(updates: &VecDeque<Update>, number: u64) -> Option<&Update>
    ensures { MatchOption result (update_of (action_in (map update_event updates.entry.now.items) number) ≡ None) (λ u. update_of (action_in (map update_event updates.entry.now.items) number) ≡ Some (u.now.register, u.now.value)) }
{
    for i in 0..updates.len() {
        let update = &updates[i];
        if update.number == number {
            return Some(update);
        }
    }
    None
}

// Notes an update.
fn note_update(
    machine: &Machine<'_>,
    cells: &mut Vec<VersionedValue>,
    told: &mut EntryAccount,
    number: u64,
) -> Result<(), AllocError>
    requires kept { IsKept machine.now cells.old.items }
    requires cleared { IsCleared told.old }
    ensures noted { OnOk result ((effect : Effect) → cell_values cells.old.items ≡ machine.now.values → step (design_of machine.now.code) (state_at machine.now) (entries.Update number) ≡ Some effect → IsNoted machine.now.code (state_at machine.now) cells.old.items (entries.Update number) effect cells.new.items (account_of told.new)) }
    ensures sound { OnOk result ((effect : Effect) → step (design_of machine.now.code) (state_at machine.now) (entries.Update number) ≡ Some effect → IsSoundState machine.now.code effect.state) }
    ensures registers { length cells.new.items ≡ length cells.old.items }
{
    match update_numbered(machine.state().active().0, number) {
        Some(update) => {
            told.actor = EntryActor::Update(update.register, update.value);
            change(cells, &mut told.changes, update.register, update.value)?;
            Ok(())
        }
        None => Ok(()),
    }
}

// Forgets what was told of another entry.
fn clear(told: &mut EntryAccount)
    ensures cleared { IsCleared told.new }
    ensures actor { told.new.actor ≡ actors.Regions }
{
    told.actor = EntryActor::Regions;
    told.reads.clear();
    told.changes.clear();
    told.assigned.clear();
}

/// Notes an entry before the machine takes it: who does it, what it reads, assigns and changes. Where the entry is a turn, and the
/// log is filled with it, answers its number. Fails where memory is refused, and the registers may have changed then.
pub fn note(
    machine: &Machine<'_>,
    entry: Entry,
    log: &mut TurnLog,
    cells: &mut Vec<VersionedValue>,
    told: &mut EntryAccount,
) -> Result<Option<u64>, AllocError>
    requires kept { IsKept machine.now cells.old.items }
    ensures noted { OnOk result ((effect : Effect) → cell_values cells.old.items ≡ machine.now.values → step (design_of machine.now.code) (state_at machine.now) entry ≡ Some effect → IsNoted machine.now.code (state_at machine.now) cells.old.items entry effect cells.new.items (account_of told.new)) }
    ensures sound { OnOk result ((effect : Effect) → step (design_of machine.now.code) (state_at machine.now) entry ≡ Some effect → IsSoundState machine.now.code effect.state) }
    ensures given { IfOk result (IsLogFilled machine.now.code (state_at machine.now) entry log.new) }
    ensures registers { length cells.new.items ≡ length cells.old.items }
{
    clear(told);
    match entry {
        Entry::Turn(number) => note_turn(machine, log, cells, told, number),
        Entry::Update(number) => {
            note_update(machine, cells, told, number)?;
            Ok(None)
        }
        _ => Ok(None),
    }
}
