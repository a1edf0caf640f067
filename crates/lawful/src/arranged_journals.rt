//! The lawful journal of a text in which the lines of each time are in order.
ghost use Rattle.std.specs.Prelude.{◌≡◌, true, IfOk, IfSome};
ghost use Rattle.model.specs.declared.end.Limits.{Limits};
ghost use Rattle.design.specs.Compiled.{Compiled};
ghost use Rattle.observers.specs.Observers.{observer_of};
ghost use Rattle.loosejournals.specs.FoundJournals.{IsSeenJournal};
ghost use Rattle.wavetexts.specs.Reading.{read_on, unread};
ghost use Rattle.arrangedruns.specs.ArrangedRuns.{arranged_end};
ghost use Rattle.lawful.specs.ArrangedNodes.{IsArrangedJournalOf, registers_seen};

use crate::arranged_ways::registers_of;
use crate::telling::{FoundJournal, ShownLoosely};
use loosejournals::SeenJournal;
use looseruns::observed_end::ObservedEnd;
use observers::Observing;
use std::alloc::{AllocError, Global};
use wavetexts::TextTail;

// Whether what is seen of a journal is that of a run that is shown, with the lines of each time in order.
fn is_seen_so(
    alloc: Global,
    registers: usize,
    found: &SeenJournal,
    shown: &ShownLoosely<ObservedEnd>,
) -> Result<bool, AllocError>
    ensures text { IfOk result (λ same. same ≡ true → shown.now.text.items ≡ (read_on registers unread found.now.text.items).done) }
    ensures end { IfOk result (λ same. same ≡ true → shown.now.end ≡ arranged_end registers (read_on registers unread found.now.text.items) found.now.end) }
{
    let mut tail = TextTail::new(alloc);
    let done = tail.read(alloc, registers, &found.text)?;
    if done.as_slice() != shown.text.as_slice() {
        return Ok(false);
    }
    let seen = tail.finish(alloc, registers, &found.end.seen)?;
    let last = ObservedEnd {
        end: found.end.end,
        seen,
    };
    Ok(last.is_same(&shown.end))
}

/// The journal that was found of a run that is shown, where the same is seen of it with the lines of each time in order. None where something else
/// is. Fails where memory is refused.
pub(crate) fn arranged_journal(
    alloc: Global,
    observing: &Observing,
    found: SeenJournal,
    shown: &ShownLoosely<ObservedEnd>,
) -> FoundJournal
    ensures { IfOk result (λ journal. IfSome journal (λ j. (code : Compiled) (limits : Limits) → IsSeenJournal code limits (observer_of observing.now) found → IsArrangedJournalOf code limits observing.now shown.now.text.items shown.now.end j.items)) }
{
    if !is_seen_so(alloc, registers_of(observing), &found, shown)? {
        return Ok(None);
    }
    let SeenJournal { journal, .. } = found;
    Ok(Some(journal))
}
