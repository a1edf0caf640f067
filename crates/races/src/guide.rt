//! The transitions of the first run that a second run follows.
ghost use Rattle.std.specs.Prelude.{◌≡◌, IfSome, None};
ghost use Rattle.model.specs.Runs.{refusal};
ghost use Rattle.regions.specs.Machine.{state_at};

use conflicts::{RunTransition, RunTransitions, entry_of, first_entry, is_change, place_behind};
use model::entry::Entry;
use regions::Machine;

// How many of the transitions that may be wanted are looked at for one that may be next.
const LOOK_AHEAD: usize = 64;

/// The transitions that a run follows from a place on, but for those up to the later one of the two that were exchanged which were
/// taken before.
#[derive(Clone, Copy)]
pub(crate) struct Guide<'m> {
    pub(crate) transitions: RunTransitions<'m>,
    pub(crate) at: usize,
    pub(crate) taken: &'m [usize],
    pub(crate) later: usize,
}

impl Guide<'static> {
    /// Without transitions, so that the first entry that may be next is chosen.
    pub(crate) fn of_none() -> Guide<'static> {
        Guide {
            transitions: RunTransitions::new(&[], &[]),
            at: 0,
            taken: &[],
            later: 0,
        }
    }
}

impl<'m> Guide<'m> {
    // Whether the transition at a place was taken before.
    fn is_taken(&self, place: usize) -> bool {
        place <= self.later && self.taken.contains(&place)
    }

    // The process whose turn is the transition at a place, if it wasn't taken before.
    fn turn_at(&self, place: usize) -> Option<u32> {
        match self.transitions.get(place) {
            Some(RunTransition::Turn(process)) if !self.is_taken(place) => Some(process),
            _ => None,
        }
    }

    // Goes past what isn't a turn that may be wanted, up to the next change of the regions.
    fn skip(&mut self) {
        for _ in self.at..self.transitions.len() {
            if is_change(self.transitions, self.at) || self.turn_at(self.at).is_some() {
                return;
            }
            self.at = self.at.saturating_add(1);
        }
    }

    // The turn to take: the first one before the next change of the regions that may be taken, or else this one.
    fn turn_of(&mut self, machine: &Machine<'_>, first: Entry) -> Entry
        requires { refusal (state_at machine.now) first ≡ None }
        ensures { refusal (state_at machine.now) result ≡ None }
    {
        self.skip();
        for place in self.at..self.at.saturating_add(LOOK_AHEAD) {
            if is_change(self.transitions, place) {
                return first;
            }
            if let Some(process) = self.turn_at(place) {
                if let Some(entry) = entry_of(machine, RunTransition::Turn(process)) {
                    self.at = place.saturating_add(1);
                    return entry;
                }
            }
        }
        first
    }

    /// The entry to take. While turns are active it is that of the first transition before the next change of the regions for which there
    /// is one, or else the first turn. Then come the updates, and the change of the regions, with which the transitions of the next segment
    /// are followed.
    pub(crate) fn choose(&mut self, machine: &Machine<'_>) -> Option<Entry>
        ensures { IfSome result (λ entry. refusal (state_at machine.now) entry ≡ None) }
    {
        match first_entry(machine) {
            Some(first) => Some(self.chosen(machine, first)),
            None => None,
        }
    }

    // The entry to take, where this one is the first that may be next.
    fn chosen(&mut self, machine: &Machine<'_>, first: Entry) -> Entry
        requires { refusal (state_at machine.now) first ≡ None }
        ensures { refusal (state_at machine.now) result ≡ None }
    {
        match first {
            Entry::Turn(_) => self.turn_of(machine, first),
            Entry::Update(_) => first,
            change => {
                // Goes past it, and the transitions before it, and stays before one that is due later.
                self.at = place_behind(self.transitions, self.at, change);
                first
            }
        }
    }
}
