//! What may be next: the change of the regions that is due, and all entries that the rules permit.
ghost use Rattle.std.specs.Prelude.{◌≡◌, ◌↔◌, List, ◌++◌, map, IfOk, OnOk, IsSome, None, Some, false};
ghost use Rattle.std.specs.List.{Contains};
ghost use Rattle.logic4.specs.Vector.{Vector};
ghost use Rattle.model.specs.declared.entry.Entry.{Entry};
ghost use Rattle.model.specs.Turns.{Remainder};
ghost use Rattle.model.specs.Runs.{refusal, has_any, is_quiet};
ghost use Rattle.design.specs.declared.code.ProcState.{ProcState};
ghost use Rattle.regions.specs.Queue.{core_of, state_of};
ghost use Rattle.regions.specs.Machine.{IsTurnEntry, IsDue, IsNextChange, AreInOrder};
ghost use Rattle.regions.specs.EvaluationEntries.{turn_entry_of};

use crate::choices::Choices;
use crate::queue::{Evaluation, Queue};
use crate::region::Region;
use model::end::LAST_TIME;
use model::entry::Entry;
use std::alloc::{AllocError, Global};

// Appends the turns of evaluations.
fn push_turns(turns: &mut Vec<Entry>, evaluations: &[Evaluation]) -> Result<(), AllocError>
    ensures { OnOk result (turns.new.items ≡ turns.old.items ++ map turn_entry_of evaluations.now) }
{
    for evaluation in evaluations {
        turns.push(Entry::Turn(evaluation.number))?;
    }
    Ok(())
}

impl Queue {
    ghost use Rattle.regions.specs.Order.{IsOrderedQueue};

    // The change of the regions that comes next, whatever its time: that of the first region that has an event, where none is active.
    pub fn next_change(&self) -> Option<Entry>
        requires ordered { IsOrderedQueue self.now }
        ensures next { (rem : ProcState → Remainder) (values : List Vector) (entry : Entry) → (result ≡ Some entry) ↔ IsNextChange (state_of rem values (core_of self.now)) entry }
        ensures some { (rem : ProcState → Remainder) (values : List Vector) → has_any (core_of self.now).active ≡ false → is_quiet (state_of rem values (core_of self.now)) ≡ false → IsSome result }
    {
        let Some(region) = self.first_region() else {
            return None;
        };
        match region {
            Region::Active => None,
            Region::Inactive => Some(Entry::ActivateInactive),
            Region::Nonblocking => Some(Entry::ActivateNba),
            Region::Monitor => Some(Entry::ActivateMonitor),
            Region::Future => match self.next_time() {
                Some(time) => Some(Entry::Advance(time)),
                None => None,
            },
        }
    }

    // The change of the regions that the rules permit.
    pub fn due(&self) -> Option<Entry>
        requires ordered { IsOrderedQueue self.now }
        ensures { (rem : ProcState → Remainder) (values : List Vector) → IsDue (state_of rem values (core_of self.now)) result }
    {
        if self.finished {
            return None;
        }
        let Some(change) = self.next_change() else {
            return None;
        };
        match change {
            Entry::Advance(time) => { if LAST_TIME < time { None } else { Some(change) } }
            _ => Some(change),
        }
    }

    // The turns of the active evaluations, in the order of their numbers.
    fn turns(&self, alloc: Global) -> Result<Vec<Entry>, AllocError>
        ensures { IfOk result (λ v. v.items ≡ map turn_entry_of self.now.evaluations.items) }
    {
        let (first, second) = self.evaluations.as_slices();
        let mut turns = Vec::with_capacity(alloc, self.evaluations.len().saturating_add(1))?;
        push_turns(&mut turns, first)?;
        push_turns(&mut turns, second)?;
        Ok(turns)
    }

    // The entry that isn't a turn and that the rules permit: that of the first active update, or else a change of the regions.
    fn next_other(&self) -> Option<Entry>
        requires ordered { IsOrderedQueue self.now }
        requires running { self.now.finished ≡ false }
        ensures { (rem : ProcState → Remainder) (values : List Vector) (entry : Entry) → (result ≡ Some entry) ↔ ((IsTurnEntry entry → ⊥) × (refusal (state_of rem values (core_of self.now)) entry ≡ None)) }
    {
        match self.first_update() {
            Some(number) => Some(Entry::Update(number)),
            None => self.due(),
        }
    }

    // All entries that the rules permit, each once, and each made where it is asked for.
    pub fn choices(&self) -> Choices<'_>
        requires ordered { IsOrderedQueue self.now }
        ensures permitted { (rem : ProcState → Remainder) (values : List Vector) (entry : Entry) → Contains result entry ↔ (refusal (state_of rem values (core_of self.now)) entry ≡ None) }
        ensures order { AreInOrder result }
    {
        if self.finished {
            return Choices::none(&self.evaluations);
        }
        Choices::new(&self.evaluations, self.next_other())
    }

    // All entries that the rules permit, each once.
    pub fn next_entries(&self, alloc: Global) -> Result<Vec<Entry>, AllocError>
        requires ordered { IsOrderedQueue self.now }
        ensures permitted { IfOk result (λ v. (rem : ProcState → Remainder) (values : List Vector) (entry : Entry) → Contains v.items entry ↔ (refusal (state_of rem values (core_of self.now)) entry ≡ None)) }
        ensures order { IfOk result (λ v. AreInOrder v.items) }
    {
        if self.finished {
            return Ok(Vec::new(alloc));
        }
        let mut entries = self.turns(alloc)?;
        match self.next_other() {
            Some(entry) => {
                entries.push(entry)?;
                Ok(entries)
            }
            None => Ok(entries),
        }
    }
}
