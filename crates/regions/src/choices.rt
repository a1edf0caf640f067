//! The entries that the rules permit, each made where it is asked for.
ghost use Rattle.std.specs.Prelude.{◌≡◌, ◌++◌, [], map, length, min, slice_get};
ghost use Rattle.std.specs.Option.{option_to_list};
ghost use Rattle.regions.specs.EvaluationEntries.{turn_entry_of};

use crate::queue::Evaluation;
use model::entry::Entry;
use std::collections::VecDeque;
use std::marker::Model;

/// The entries that the rules permit (11.4), each once: the turns of the active evaluations, in the order of their numbers, and
/// then the first active update, or else the change of the regions that is due.
#[derive(Drop)]
pub struct Choices<'a> {
    over: bool,
    evaluations: &'a VecDeque<Evaluation>,
    other: Option<Entry>,
}

impl<'a> Model for Choices<'a> {
    ghost use Rattle.std.specs.Prelude.{List};
    ghost use Rattle.model.specs.declared.entry.Entry.{Entry};
    ghost use Rattle.regions.specs.EvaluationEntries.{choices_of};

    ghost Value = { List Entry };

    ghost view = { λ c. choices_of c.over c.evaluations.now.items c.other };
}

impl<'a> Choices<'a> {
    // None at all, behind a turn that met `$finish`.
    pub(crate) fn none(evaluations: &'a VecDeque<Evaluation>) -> Choices<'a>
        ensures { result ≡ [] }
    {
        Choices {
            over: true,
            evaluations,
            other: None,
        }
    }

    // The turns of these evaluations, and the one other entry.
    pub(crate) fn new(evaluations: &'a VecDeque<Evaluation>, other: Option<Entry>) -> Choices<'a>
        ensures { result ≡ map turn_entry_of evaluations.entry.now.items ++ option_to_list other }
    {
        Choices {
            over: false,
            evaluations,
            other,
        }
    }

    /// How many they are, or the greatest `usize` where those are more.
    pub fn len(&self) -> usize
        ensures { result ≡ min (length self.now) usize.MAX }
    {
        if self.over {
            return 0;
        }
        match self.other {
            Some(_) => self.evaluations.len().saturating_add(1),
            None => self.evaluations.len(),
        }
    }

    /// The one at a place, where there is one.
    pub fn get(&self, at: usize) -> Option<Entry>
        ensures { result ≡ slice_get self.now at }
    {
        if self.over {
            return None;
        }
        match self.evaluations.get(at) {
            Some(evaluation) => Some(Entry::Turn(evaluation.number)),
            None => if at == self.evaluations.len() {
                self.other
            } else {
                None
            },
        }
    }
}
