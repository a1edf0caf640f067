//! What an observer sees of a journal.
ghost use Rattle.std.specs.Prelude.{◌≡◌, ◌<◌, ◌≤◌, ◌++◌, [], true, false, length, IfOk, IfSome, IfNone, OnOk, None};
ghost use Rattle.model.specs.States.{State, start};
ghost use Rattle.model.specs.Runs.{step};
ghost use Rattle.design.specs.Compiled.{design_of};
ghost use Rattle.regions.specs.Machine.{most_entries, state_at};
ghost use Rattle.looseruns.specs.ObservedJournals.{Observer, observed_run, seen_at};
ghost use Rattle.observers.specs.Observers.{observer_of};
ghost use Rattle.observers.specs.Observations.{HasNoStep, HasSeen, IsObservationOf, IsTakenObserved};

use crate::observing::Observing;
use crate::sights::push_seen;
use design::Design;
use model::entry::Entry;
use regions::{Machine, TakeFault};
use std::alloc::{AllocError, Global};

/// What an observer sees of a journal: its lines, and before each advance what is seen of the state; and what is seen of the last state.
#[derive(Drop)]
pub struct Observation {
    pub text: Vec<u8>,
    pub seen: Vec<u8>,
}

// Moves the lines that a machine printed so far behind a text, and then puts what is seen of where it stands there.
fn tell(
    machine: &mut Machine<'_>,
    observing: &Observing,
    text: &mut Vec<u8>,
) -> Result<(), AllocError>
    ensures same { machine.new ≡ record machine.old { lines = [] } }
    ensures told { OnOk result (text.new.items ≡ (text.old.items ++ machine.old.lines) ++ observer_of observing.now (state_at machine.old)) }
{
    let lines = machine.take_lines();
    text.extend_from_slice(lines.as_bytes())?;
    push_seen(text, observing, machine)
}

// Whether time passes at an entry, so that something may be seen there.
fn passes_time(entry: Entry) -> bool
    ensures passes { result ≡ true → (observe : Observer) (s : State) → seen_at observe s entry ≡ observe s }
    ensures stays { result ≡ false → (observe : Observer) (s : State) → seen_at observe s entry ≡ [] }
{
    match entry {
        Entry::Advance(_) => true,
        _ => false,
    }
}

// Tells before an entry what is seen where it is taken.
fn tell_before(
    machine: &mut Machine<'_>,
    observing: &Observing,
    text: &mut Vec<u8>,
    entry: Entry,
) -> Result<(), AllocError>
    ensures same { machine.new ≡ record machine.old { lines = machine.new.lines } }
    ensures told { OnOk result (text.new.items ++ machine.new.lines ≡ (text.old.items ++ machine.old.lines) ++ seen_at (observer_of observing.now) (state_at machine.old) entry) }
{
    if !passes_time(entry) {
        return Ok(());
    }
    tell(machine, observing, text)
}

// What is answered of an entry that a machine didn't take: that it has no step, unless memory was refused.
fn untaken(fault: TakeFault) -> Result<bool, AllocError>
    ensures taken { IfOk result (λ taken. taken ≡ false) }
    ensures stuck { IfOk result (λ _. HasNoStep fault) }
{
    match fault {
        TakeFault::Refused(_) => Ok(false),
        TakeFault::TooLong => Ok(false),
        TakeFault::TooMany => Ok(false),
        TakeFault::ApplyMemory => Err(AllocError),
        TakeFault::Memory => Err(AllocError),
    }
}

// Takes an entry, and tells what is seen before it. The answer is whether it was taken; else it has no step. Fails where memory is refused.
fn take_seen(
    machine: &mut Machine<'_>,
    observing: &Observing,
    text: &mut Vec<u8>,
    entry: Entry,
) -> Result<bool, AllocError>
    requires few { machine.old.core.entries < most_entries }
    ensures code { machine.new.code ≡ machine.old.code }
    ensures taken { IfOk result (λ taken. taken ≡ true → IsTakenObserved (observer_of observing.now) machine.old text.old.items entry machine.new text.new.items) }
    ensures stuck { IfOk result (λ taken. taken ≡ false → step (design_of machine.old.code) (state_at machine.old) entry ≡ None) }
{
    tell_before(machine, observing, text, entry)?;
    match machine.take(entry) {
        Ok(()) => Ok(true),
        Err(fault) => untaken(fault),
    }
}

// Takes all entries of a journal, and tells what is seen before each. The answer is whether all were taken; else the journal isn't lawful.
fn see_all(
    machine: &mut Machine<'_>,
    observing: &Observing,
    text: &mut Vec<u8>,
    journal: &[Entry],
) -> Result<bool, AllocError>
    requires begun { HasSeen (observer_of observing.now) journal.now 0 text.old.items machine.old }
    requires few { length journal.now ≤ most_entries }
    ensures code { machine.new.code ≡ machine.old.code }
    ensures all { IfOk result (λ all. all ≡ true → HasSeen (observer_of observing.now) journal.now (length journal.now) text.new.items machine.new) }
    ensures none { IfOk result (λ all. all ≡ false → observed_run (design_of machine.old.code) (observer_of observing.now) journal.now ≡ None) }
{
    for entry in journal {
        if !take_seen(machine, observing, text, *entry)? {
            return Ok(false);
        }
    }
    Ok(true)
}

// What is seen of a journal, by a machine that stands behind it and the text that was told before.
fn last_seen(
    alloc: Global,
    machine: &mut Machine<'_>,
    observing: &Observing,
    mut text: Vec<u8>,
) -> Result<Observation, AllocError>
    ensures text { IfOk result (λ o. o.text.items ≡ text.items ++ machine.old.lines) }
    ensures seen { IfOk result (λ o. o.seen.items ≡ observer_of observing.now (state_at machine.old)) }
{
    let mut seen = Vec::new(alloc);
    push_seen(&mut seen, observing, machine)?;
    let lines = machine.take_lines();
    text.extend_from_slice(lines.as_bytes())?;
    Ok(Observation { text, seen })
}

// What is seen of a journal, by a machine at the start of its design's run.
fn observe_from(
    alloc: Global,
    machine: &mut Machine<'_>,
    observing: &Observing,
    journal: &[Entry],
) -> Result<Option<Observation>, AllocError>
    requires state { state_at machine.old ≡ start (design_of machine.old.code) }
    requires entries { machine.old.core.entries ≡ 0 }
    requires lines { machine.old.lines ≡ [] }
    requires few { length journal.now ≤ most_entries }
    ensures some { IfOk result (λ found. IfSome found (IsObservationOf (design_of machine.old.code) (observer_of observing.now) journal.now)) }
    ensures none { IfOk result (λ found. IfNone found (observed_run (design_of machine.old.code) (observer_of observing.now) journal.now ≡ None)) }
{
    let mut text = Vec::new(alloc);
    if !see_all(machine, observing, &mut text, journal)? {
        return Ok(None);
    }
    let observation = last_seen(alloc, machine, observing, text)?;
    Ok(Some(observation))
}

/// What an observer sees of a journal with at most 4,294,967,295 entries, by a machine of its own: its observed text, and what is seen of the
/// state behind it. None where the journal isn't lawful. Fails where memory is refused.
pub fn observe_journal(
    alloc: Global,
    design: &Design,
    observing: &Observing,
    journal: &[Entry],
) -> Result<Option<Observation>, AllocError>
    requires few { length journal.now ≤ most_entries }
    ensures some { IfOk result (λ found. IfSome found (IsObservationOf (design_of design.now) (observer_of observing.now) journal.now)) }
    ensures none { IfOk result (λ found. IfNone found (observed_run (design_of design.now) (observer_of observing.now) journal.now ≡ None)) }
{
    let mut machine = Machine::start(alloc, design)?;
    let found = observe_from(alloc, &mut machine, observing, journal);
    drop(machine);
    found
}
