//! Whether an entry is permitted, and the place of the evaluation that it takes.
ghost use Rattle.std.specs.Prelude.{◌≡◌, ℕ, List, IfOk, MatchResult, None, Some};
ghost use Rattle.logic4.specs.Vector.{Vector};
ghost use Rattle.model.specs.Turns.{Remainder};
ghost use Rattle.model.specs.Runs.{refusal};
ghost use Rattle.model.specs.declared.entry.Entry.TheVariants as entries;
ghost use Rattle.design.specs.declared.code.ProcState.{ProcState};
ghost use Rattle.regions.specs.Find.{IsEvaluationAt};
ghost use Rattle.regions.specs.Queue.{core_of, state_of};

use crate::find::find_evaluation;
use crate::queue::Queue;
use model::entry::{Entry, Refusal};

impl Queue {
    ghost use Rattle.regions.specs.Order.{IsOrderedQueue};

    // The place of the evaluation that a turn takes, or the first reason for which the turn isn't permitted.
    fn permit_turn(&self, number: u64, near: usize) -> Result<usize, Refusal>
        requires ordered { IsOrderedQueue self.now }
        ensures refused { MatchResult result (λ at. (rem : ProcState → Remainder) (values : List Vector) → refusal (state_of rem values (core_of self.now)) (entries.Turn number) ≡ None) (λ r. (rem : ProcState → Remainder) (values : List Vector) → refusal (state_of rem values (core_of self.now)) (entries.Turn number) ≡ Some r) }
        ensures place { IfOk result (IsEvaluationAt self.now.evaluations.items number) }
    {
        if self.finished {
            return Err(Refusal::Finished);
        }
        match find_evaluation(&self.evaluations, number, near) {
            Some(at) => Ok(at),
            None => Err(Refusal::NotActive),
        }
    }

    // The place of the evaluation that an entry takes, if it is a turn, or the first reason for which the entry isn't permitted. The
    // evaluation is looked for first where it may be.
    pub fn permit(&self, entry: &Entry, near: usize) -> Result<usize, Refusal>
        requires ordered { IsOrderedQueue self.now }
        ensures refused { MatchResult result (λ at. (rem : ProcState → Remainder) (values : List Vector) → refusal (state_of rem values (core_of self.now)) entry.now ≡ None) (λ r. (rem : ProcState → Remainder) (values : List Vector) → refusal (state_of rem values (core_of self.now)) entry.now ≡ Some r) }
        ensures place { IfOk result (λ at. (number : ℕ) → entry.now ≡ entries.Turn number → IsEvaluationAt self.now.evaluations.items number at) }
    {
        match *entry {
            Entry::Turn(number) => self.permit_turn(number, near),
            _ => match self.refusal(entry) {
                None => Ok(0),
                Some(refusal) => Err(refusal),
            },
        }
    }
}
