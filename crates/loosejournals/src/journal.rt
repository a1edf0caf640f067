//! The lawful journal of a loose run.
ghost use Rattle.std.specs.Prelude.{◌≤◌, IfOk, IfSome};
ghost use Rattle.model.specs.Runs.{last_time};
ghost use Rattle.model.specs.declared.end.Limits.{Limits};
ghost use Rattle.design.specs.Compiled.{Compiled};
ghost use Rattle.runs.specs.RunRecords.{IsRun};
ghost use Rattle.loosejournals.specs.FoundJournals.{IsJournalOf};

use crate::lead_scope::LeadScope;
use crate::led_record::led_record;
use loose::transition::LooseTransition;
use model::end::End;
use model::entry::Entry;
use runs::compared::is_whole;
use runs::run::RunRecord;
use std::alloc::AllocError;

/// A loose run that came to an end: its transitions, what it printed, and its end.
#[derive(Clone, Copy)]
pub struct LooseRun<'a> {
    pub moves: &'a [LooseTransition],
    pub text: &'a [u8],
    pub end: End,
}

// The journal of a run, where its lines and its end are these, and neither the most entries nor want of memory cut it off.
fn journal_of(run: RunRecord, text: &[u8], end: End) -> Option<Vec<Entry>>
    ensures { (code : Compiled) (limits : Limits) → IsRun code limits run → IfSome result (λ journal. IsJournalOf code limits text.now end journal.items) }
{
    if !is_whole(&run) {
        return None;
    }
    if run.end != end {
        return None;
    }
    if run.lines.as_bytes() != text {
        return None;
    }
    let RunRecord { journal, .. } = run;
    Some(journal)
}

/// A lawful journal of the text and the end of a loose run, by the classes of registers by which that was taken: that of the run which the
/// loose run's transitions lead. None where they lead none, or where its text or its end is another one: that doesn't say that there is no
/// such journal. Fails where memory is refused.
///
/// The limit of time isn't past the last time, as for every run.
pub fn lawful_journal(
    scope: LeadScope<'_>,
    run: LooseRun<'_>,
) -> Result<Option<Vec<Entry>>, AllocError>
    requires until { IfSome scope.limits.until (λ until. until ≤ last_time) }
    ensures { IfOk result (λ found. IfSome found (λ journal. IsJournalOf scope.entry.design.now scope.entry.limits run.entry.text.now run.entry.end journal.items)) }
{
    match led_record(scope, run.moves, run.end)? {
        Some(record) => Ok(journal_of(record, run.text, run.end)),
        None => Ok(None),
    }
}
