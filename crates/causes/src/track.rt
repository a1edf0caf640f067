//! The transitions of a run that another run goes along, and which of them it has taken.
ghost use Rattle.std.specs.Prelude.{◌≡◌, IfSome, None};
ghost use Rattle.model.specs.Runs.{refusal};
ghost use Rattle.regions.specs.Machine.{state_at};

use conflicts::{RunTransition, RunTransitions, entry_of, first_entry, is_change, place_behind};
use model::entry::Entry;
use regions::Machine;
use std::alloc::{AllocError, Global};

// How many of the transitions that are left are looked at for one that may be next.
const LOOK_AHEAD: usize = 1_024;

/// The transitions of a run, of which those before a place were taken by another one or passed, and some behind it too.
#[derive(Drop)]
pub(crate) struct Track<'m> {
    transitions: RunTransitions<'m>,
    at: usize,
    taken: Vec<usize>,
}

// Whether a transition is one of the same process's turn, or an update as the other one is.
fn is_same(one: RunTransition, other: RunTransition) -> bool {
    match (one, other) {
        (RunTransition::Turn(process), RunTransition::Turn(another)) => process == another,
        (RunTransition::Update, RunTransition::Update) => true,
        _ => false,
    }
}

impl<'m> Track<'m> {
    /// None of the transitions was taken.
    pub(crate) fn new(alloc: Global, transitions: RunTransitions<'m>) -> Track<'m> {
        Track {
            transitions,
            at: 0,
            taken: Vec::new(alloc),
        }
    }

    // The transition at a place, if there is one that wasn't taken.
    fn left_at(&self, place: usize) -> Option<RunTransition> {
        match self.transitions.get(place) {
            Some(left) if !self.taken.contains(&place) => Some(left),
            _ => None,
        }
    }

    // Whether the transition at a place wasn't taken, and is as one that was taken now.
    fn is_left(&self, place: usize, taken: RunTransition) -> bool {
        match self.left_at(place) {
            Some(left) => is_same(left, taken),
            None => false,
        }
    }

    // Notes that the transition at a place was taken. Fails where memory is refused.
    fn take_off(&mut self, place: usize) -> Result<(), AllocError> {
        if place != self.at {
            self.taken.push(place)?;
            return Ok(());
        }
        self.at = self.at.saturating_add(1);
        for _ in 0..self.taken.len() {
            if !self.taken.contains(&self.at) {
                return Ok(());
            }
            self.at = self.at.saturating_add(1);
        }
        Ok(())
    }

    /// Notes that the other run has taken a transition: the first of its kind that is left before the next change of the regions, if there is one.
    /// Fails where memory is refused.
    pub(crate) fn pass(&mut self, taken: RunTransition) -> Result<(), AllocError> {
        if let RunTransition::Change(change) = taken {
            // Goes past it, and the transitions before it, and stays before one that is due later.
            self.taken.clear();
            self.at = place_behind(self.transitions, self.at, change);
            return Ok(());
        }
        for place in self.at..self.at.saturating_add(LOOK_AHEAD) {
            if is_change(self.transitions, place) {
                return Ok(());
            }
            if self.is_left(place, taken) {
                return self.take_off(place);
            }
        }
        Ok(())
    }

    // The entry of the transition at a place, if that wasn't taken and there is an entry of it.
    fn entry_at(&self, machine: &Machine<'_>, place: usize) -> Option<Entry>
        ensures { IfSome result (λ entry. refusal (state_at machine.now) entry ≡ None) }
    {
        match self.left_at(place) {
            Some(left) => entry_of(machine, left),
            None => None,
        }
    }

    /// The entry to take: that of the first transition that is left before the next change of the regions and for which there is one, or else
    /// the first that may be next.
    pub(crate) fn choose(&self, machine: &Machine<'_>) -> Option<Entry>
        ensures { IfSome result (λ entry. refusal (state_at machine.now) entry ≡ None) }
    {
        for place in self.at..self.at.saturating_add(LOOK_AHEAD) {
            if is_change(self.transitions, place) {
                return first_entry(machine);
            }
            if let Some(entry) = self.entry_at(machine, place) {
                return Some(entry);
            }
        }
        first_entry(machine)
    }
}
