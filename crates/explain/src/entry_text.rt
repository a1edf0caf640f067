//! The line of one entry, by what comes of the entries before it.

ghost use Rattle.std.specs.Prelude.{◌≡◌, ◌<◌, ◌≤◌, length, take, IfErr, OnOk};
ghost use Rattle.steps.specs.ExplainerStanding.{IsExplainerBehind};
ghost use Rattle.explain.specs.EntryText.{IsBefore, PutsEntryLine};
ghost use Rattle.explain.specs.Explained.{IsFaultOfEntries};

use crate::failure::ExplainFault;
use crate::lines::{ToldEntry, push_entry};
use crate::phrases::SourceNames;
use crate::telling::explain_next;
use model::entry::Entry;
use std::alloc::Global;
use steps::Explainer;

// Takes the entries before a place.
fn explain_before(
    explainer: &mut Explainer<'_>,
    entries: &[Entry],
    place: usize,
) -> Result<(), ExplainFault>
    requires inside { place ≤ length entries.now }
    requires start { IsBefore entries.now 0 explainer.old }
    ensures code { explainer.new.position.code ≡ explainer.old.position.code }
    ensures before { OnOk result (IsBefore entries.now place explainer.new) }
    ensures fault { IfErr result (IsFaultOfEntries explainer.old.position.code entries.now) }
{
    for at in 0..place {
        match explain_next(explainer, entries, at) {
            Ok(()) => {}
            Err(fault) => return Err(fault),
        }
    }
    Ok(())
}

// Takes the entry at a place, behind all that stand before it, and puts its line behind a text.
fn push_next(
    text: &mut Vec<u8>,
    names: &SourceNames<'_>,
    explainer: &mut Explainer<'_>,
    entries: &[Entry],
    place: usize,
) -> Result<(), ExplainFault>
    requires inside { place < length entries.now }
    requires before { IsBefore entries.now place explainer.old }
    requires code { explainer.old.position.code ≡ names.now.design.now }
    ensures put { OnOk result (PutsEntryLine names.entry.now entries.now place text.old.items text.new.items) }
    ensures fault { IfErr result (IsFaultOfEntries explainer.old.position.code entries.now) }
{
    match explain_next(explainer, entries, place) {
        Ok(()) => {}
        Err(fault) => return Err(fault),
    }
    match push_entry(text, names, &ToldEntry::last(explainer, entries[place])) {
        Ok(()) => Ok(()),
        Err(_) => Err(ExplainFault::Memory),
    }
}

// Takes the entries before a place, from the start on, and then the one there, and puts its line behind a text.
fn push_from_start(
    text: &mut Vec<u8>,
    names: &SourceNames<'_>,
    explainer: &mut Explainer<'_>,
    entries: &[Entry],
    place: usize,
) -> Result<(), ExplainFault>
    requires inside { place < length entries.now }
    requires start { IsBefore entries.now 0 explainer.old }
    requires code { explainer.old.position.code ≡ names.now.design.now }
    ensures put { OnOk result (PutsEntryLine names.entry.now entries.now place text.old.items text.new.items) }
    ensures fault { IfErr result (IsFaultOfEntries explainer.old.position.code entries.now) }
{
    match explain_before(explainer, entries, place) {
        Ok(()) => push_next(text, names, explainer, entries, place),
        Err(fault) => Err(fault),
    }
}

/// Puts the line of the entry at a place of a journal behind a text; the entries before it are taken first. Fails with the first
/// entry up to it that isn't taken, or where memory is refused. It leaves by one way once it owns the explainer, since others make a
/// long proof.
pub fn push_entry_line(
    alloc: Global,
    text: &mut Vec<u8>,
    names: &SourceNames<'_>,
    entries: &[Entry],
    place: usize,
) -> Result<(), ExplainFault>
    requires { place < length entries.now }
    ensures put { OnOk result (PutsEntryLine names.entry.now entries.now place text.old.items text.new.items) }
    ensures fault { IfErr result (IsFaultOfEntries names.entry.now.design.now entries.now) }
{
    let mut explainer = match Explainer::start(alloc, names.design) {
        Ok(explainer) => explainer,
        Err(_) => return Err(ExplainFault::Memory),
    };
    let put = push_from_start(text, names, &mut explainer, entries, place);
    drop(explainer);
    put
}
