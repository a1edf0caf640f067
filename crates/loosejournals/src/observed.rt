//! The lawful journal of a loose run before an observer.
ghost use Rattle.std.specs.Prelude.{◌≤◌, IfOk, IfSome};
ghost use Rattle.model.specs.Runs.{last_time};
ghost use Rattle.observers.specs.Observers.{observer_of};
ghost use Rattle.runs.specs.RunRecords.{IsRun};
ghost use Rattle.loosejournals.specs.FoundJournals.{IsSeenJournal};

use crate::lead_scope::LeadScope;
use crate::led_record::led_record;
use loose::transition::LooseTransition;
use looseruns::observed_end::ObservedEnd;
use model::end::End;
use model::entry::Entry;
use observers::{Observation, Observing, observe_journal};
use runs::compared::is_whole;
use runs::run::RunRecord;
use std::alloc::AllocError;

/// A lawful journal, its observed text, and its observed end.
#[derive(Drop)]
pub struct SeenJournal {
    pub journal: Vec<Entry>,
    pub text: Vec<u8>,
    pub end: ObservedEnd,
}

// The journal of a run with what an observer sees of it. None where the most entries or want of memory cut the run off.
fn seen_of(
    scope: LeadScope<'_>,
    observing: &Observing,
    led: RunRecord,
) -> Result<Option<SeenJournal>, AllocError>
    requires run { IsRun scope.design.now scope.limits led }
    ensures { IfOk result (λ found. IfSome found (IsSeenJournal scope.entry.design.now scope.entry.limits (observer_of observing.now))) }
{
    // The read tells that the number fits its type.
    let _most = scope.limits.max_entries;
    if !is_whole(&led) {
        return Ok(None);
    }
    let RunRecord { journal, end, .. } = led;
    match observe_journal(scope.alloc, scope.design, observing, &journal)? {
        Some(observation) => {
            let Observation { text, seen } = observation;
            let end = ObservedEnd { end, seen };
            Ok(Some(SeenJournal { journal, text, end }))
        }
        None => Ok(None),
    }
}

/// A lawful journal that is led by the transitions of a loose run, which ended so, as `lawful_journal` finds one; and its observed text and
/// observed end. None where the transitions lead none. Fails where memory is refused.
///
/// The limit of time isn't past the last time, as for every run.
pub fn seen_journal(
    scope: LeadScope<'_>,
    observing: &Observing,
    moves: &[LooseTransition],
    end: End,
) -> Result<Option<SeenJournal>, AllocError>
    requires until { IfSome scope.limits.until (λ until. until ≤ last_time) }
    ensures { IfOk result (λ found. IfSome found (IsSeenJournal scope.entry.design.now scope.entry.limits (observer_of observing.now))) }
{
    match led_record(scope, moves, end)? {
        Some(led) => seen_of(scope, observing, led),
        None => Ok(None),
    }
}
