//! Transitions: entries without the numbers of their events, so that one run can follow another.
ghost use Rattle.std.specs.Prelude.{◌≡◌, IfSome, None};
ghost use Rattle.std.specs.List.{Contains};
ghost use Rattle.model.specs.Runs.{refusal};
ghost use Rattle.regions.specs.Machine.{state_at};

use model::entry::Entry;
use regions::{Choices, Machine, region_of};

/// The turn of a process, the first active update, or a change of the regions.
#[derive(Clone, Copy)]
pub enum RunTransition {
    Turn(u32),
    Update,
    Change(Entry),
}

/// The transitions of a run's entries: its journal, and the process of each entry that is a turn.
#[derive(Clone, Copy)]
pub struct RunTransitions<'a> {
    journal: &'a [Entry],
    processes: &'a [u32],
}

impl<'a> RunTransitions<'a> {
    /// Those of a journal's entries, as far as there is a process for each, or another number where it is no turn.
    pub fn new(journal: &'a [Entry], processes: &'a [u32]) -> RunTransitions<'a> {
        RunTransitions { journal, processes }
    }

    /// How many there are.
    pub fn len(&self) -> usize {
        self.processes.len()
    }

    /// That of the entry at a place.
    pub fn get(&self, place: usize) -> Option<RunTransition> {
        if place >= self.processes.len() || place >= self.journal.len() {
            return None;
        }
        Some(transition_by(self.journal[place], self.processes[place]))
    }

    // The change of the regions at a place, if it is one.
    fn change_at(&self, place: usize) -> Option<Entry> {
        match self.get(place) {
            Some(RunTransition::Change(change)) => Some(change),
            _ => None,
        }
    }
}

// The transition of an entry, which is a turn of this process if it is one.
fn transition_by(entry: Entry, process: u32) -> RunTransition {
    match entry {
        Entry::Turn(_) => RunTransition::Turn(process),
        Entry::Update(_) => RunTransition::Update,
        change => RunTransition::Change(change),
    }
}

/// The number that a journal's transitions have for an entry: the process of its turn, and else 0.
pub fn process_of(transition: RunTransition) -> u32 {
    match transition {
        RunTransition::Turn(process) => process,
        RunTransition::Update | RunTransition::Change(_) => 0,
    }
}

// The process of an active evaluation, if there is one with this number.
fn process_at(machine: &Machine<'_>, number: u64) -> Option<u32> {
    match machine.state().evaluation(number) {
        Some((process, _)) => Some(process),
        None => None,
    }
}

// Whether an entry is a turn of a process, where the machine stands.
fn is_turn_of(machine: &Machine<'_>, entry: Entry, process: u32) -> bool {
    match entry {
        Entry::Turn(number) => process_at(machine, number) == Some(process),
        _ => false,
    }
}

// Whether an entry is an update.
fn is_update(entry: Entry) -> bool {
    match entry {
        Entry::Update(_) => true,
        _ => false,
    }
}

// Whether an entry is of this transition, where the machine stands.
fn is_of(machine: &Machine<'_>, entry: Entry, wanted: RunTransition) -> bool {
    match wanted {
        RunTransition::Turn(process) => is_turn_of(machine, entry, process),
        RunTransition::Update => is_update(entry),
        RunTransition::Change(change) => change == entry,
    }
}

/// The transition of an entry that may be next.
pub fn transition_of(machine: &Machine<'_>, entry: Entry) -> RunTransition {
    match entry {
        Entry::Turn(number) => match process_at(machine, number) {
            Some(process) => RunTransition::Turn(process),
            None => RunTransition::Change(entry),
        },
        Entry::Update(_) => RunTransition::Update,
        change => RunTransition::Change(change),
    }
}

// The entry at a place of those that may be next, if it is of a transition.
fn entry_at(
    machine: &Machine<'_>,
    choices: &Choices<'_>,
    place: usize,
    wanted: RunTransition,
) -> Option<Entry>
    ensures { IfSome result (Contains choices.now) }
{
    match choices.get(place) {
        Some(entry) if is_of(machine, entry, wanted) => Some(entry),
        _ => None,
    }
}

/// The first of the entries that may be next that is of a transition.
pub fn entry_of(machine: &Machine<'_>, wanted: RunTransition) -> Option<Entry>
    ensures { IfSome result (λ entry. refusal (state_at machine.now) entry ≡ None) }
{
    let choices = machine.choices();
    for place in 0..choices.len() {
        if let Some(entry) = entry_at(machine, &choices, place, wanted) {
            return Some(entry);
        }
    }
    None
}

// The turn at a place of those that may be next, if its event has at least this number.
fn turn_at(choices: &Choices<'_>, place: usize, from: u64) -> Option<Entry>
    ensures { IfSome result (Contains choices.now) }
{
    match choices.get(place) {
        Some(Entry::Turn(number)) if number >= from => Some(Entry::Turn(number)),
        _ => None,
    }
}

/// The first turn that may be next of an event that has at least this number.
pub fn turn_from(machine: &Machine<'_>, from: u64) -> Option<Entry>
    ensures { IfSome result (λ entry. refusal (state_at machine.now) entry ≡ None) }
{
    let choices = machine.choices();
    for place in 0..choices.len() {
        if let Some(entry) = turn_at(&choices, place, from) {
            return Some(entry);
        }
    }
    None
}

/// The first of the entries that may be next.
pub fn first_entry(machine: &Machine<'_>) -> Option<Entry>
    ensures { IfSome result (λ entry. refusal (state_at machine.now) entry ≡ None) }
{
    let choices = machine.choices();
    choices.get(0)
}

// Whether an entry comes before a change of the regions that isn't the same: of two advances that to the lesser time, and else the
// entry whose region is emptied first.
fn is_earlier(entry: Entry, change: Entry) -> bool {
    match (entry, change) {
        (Entry::Advance(time), Entry::Advance(other)) => time < other,
        _ => region_of(&entry) < region_of(&change),
    }
}

/// The place of the first change of the regions behind a place, or the end of the transitions.
pub fn next_change(transitions: RunTransitions<'_>, place: usize) -> usize {
    for at in place..transitions.len() {
        if transitions.change_at(at).is_some() {
            return at;
        }
    }
    transitions.len()
}

/// Whether the transition at a place is a change of the regions, or there is none.
pub fn is_change(transitions: RunTransitions<'_>, place: usize) -> bool {
    match transitions.get(place) {
        Some(RunTransition::Change(_)) => true,
        Some(_) => false,
        None => true,
    }
}

// The place behind a change of the regions, where this one at a place is that, or the place of this one, where it is due later.
fn behind_change(at: Option<Entry>, place: usize, change: Entry) -> Option<usize> {
    match at {
        Some(other) if other == change => Some(place.saturating_add(1)),
        Some(other) if is_earlier(change, other) => Some(place),
        _ => None,
    }
}

/// From a place on, the place behind a change of the regions, or that of the first one that is due later, or the end of the transitions.
pub fn place_behind(transitions: RunTransitions<'_>, from: usize, change: Entry) -> usize {
    for place in from..transitions.len() {
        if let Some(behind) = behind_change(transitions.change_at(place), place, change) {
            return behind;
        }
    }
    transitions.len()
}
