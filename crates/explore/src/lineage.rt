//! The moves of the runs that were reached, each told by the run that it goes on from.
ghost use Rattle.std.specs.Prelude.{◌≡◌, ◌<◌, ◌++◌, ℕ, suc, [], ◌∷◌, length, reverse, get_or, slice_get, Some, IfOk, IfSome, OnOk};
ghost use Rattle.std.specs.List.{All};
ghost use Rattle.explore.specs.Grown.{grown};
ghost use Rattle.explore.specs.Pieces.{pieces};
ghost use Rattle.explore.specs.Lineage.{ways, IsLineage};

use crate::pieces::Pieces;
use std::alloc::{AllocError, Global};

/// About how many bytes a move takes.
pub(crate) const MOVE_BYTES: usize = 16;

/// Runs by their numbers. The run of number 0 has no moves, and the others have a step each: the number of the run that they go on
/// from, and their further moves.
#[derive(Drop)]
pub(crate) struct Lineage<M> {
    pub(crate) steps: Pieces<M>,
}

/// Adds moves, the last of them first.
fn push_back_to_front<M: Copy>(back: &mut Vec<M>, moves: &[M]) -> Result<(), AllocError>
    ensures { OnOk result (back.new.items ≡ back.old.items ++ reverse moves.now) }
{
    let from = back.len();
    back.extend_from_slice(moves)?;
    let (_, added) = back.split_at_mut(from);
    added.reverse();
    Ok(())
}

impl<M: Copy> Lineage<M> {
    /// The run that has no moves, alone.
    pub(crate) fn new(alloc: Global) -> Self
        ensures lineage { IsLineage result }
        ensures ways { ways result ≡ [] ∷ [] }
    {
        Lineage {
            steps: Pieces::new(alloc),
        }
    }

    /// About how many bytes they take.
    pub(crate) fn bytes(&self) -> usize {
        self.steps.bytes(MOVE_BYTES)
    }

    /// How many runs there are.
    pub(crate) fn len(&self) -> usize
        ensures { result ≡ length (ways self.now) }
    {
        self.steps.len() + 1
    }

    /// Adds a run that goes on from another by these moves.
    pub(crate) fn push(&mut self, from: usize, moves: &[M]) -> Result<(), AllocError>
        requires lineage { IsLineage self.old }
        requires from { from < length (ways self.old) }
        ensures lineage { OnOk result (IsLineage self.new) }
        ensures ways { OnOk result (ways self.new ≡ grown (ways self.old) from moves.now) }
        ensures steps { OnOk result (pieces self.new.steps ≡ pieces self.old.steps ++ (from, moves.now) ∷ []) }
    {
        self.steps.push(from, moves)?;
        Ok(())
    }

    /// The run that the one with a number goes on from, and its further moves.
    pub(crate) fn last_step(&self, number: usize) -> (usize, &[M])
        requires lineage { IsLineage self.now }
        requires moved { 0 < number }
        requires within { number < length (ways self.now) }
        ensures from { result.0 < number }
        ensures way { get_or (ways self.now) number [] ≡ get_or (ways self.now) result.0 [] ++ result.1.now }
        ensures step { (k : ℕ) → number ≡ suc k → slice_get (pieces self.now.steps) k ≡ Some (result.0, result.1.now) }
    {
        self.steps.piece(number - 1)
    }

    /// Whether the run with a number goes on from another, or is it.
    pub(crate) fn passes(&self, from: usize, number: usize) -> bool
        requires lineage { IsLineage self.now }
        requires within { number < length (ways self.now) }
    {
        let mut k = number;
        while k > from {
            let (before, _) = self.last_step(k);
            k = before;
        }
        k == from
    }

    /// The numbers of the runs that the one with a number goes on from, back to another: it first, and that other left out.
    pub(crate) fn passed(
        &self,
        alloc: Global,
        from: usize,
        number: usize,
    ) -> Result<Vec<usize>, AllocError>
        requires lineage { IsLineage self.now }
        requires within { number < length (ways self.now) }
        ensures { IfOk result (λ passed. All (λ k. k < length (ways self.now)) passed.items) }
    {
        let mut passed = Vec::new(alloc);
        let mut k = number;
        while k > from {
            passed.push(k)?;
            let (before, _) = self.last_step(k);
            k = before;
        }
        Ok(passed)
    }

    /// The further moves by which the run with a number goes on from another, where it does.
    pub(crate) fn way_from(
        &self,
        alloc: Global,
        from: usize,
        number: usize,
    ) -> Result<Option<Vec<M>>, AllocError>
        requires lineage { IsLineage self.now }
        requires within { number < length (ways self.now) }
        ensures { IfOk result (λ found. IfSome found (λ moves. get_or (ways self.now) number [] ≡ get_or (ways self.now) from [] ++ moves.items)) }
    {
        let mut back = Vec::new(alloc);
        let mut k = number;
        while k > from {
            let (before, moves) = self.last_step(k);
            push_back_to_front(&mut back, moves)?;
            k = before;
        }
        if k != from {
            return Ok(None);
        }
        back.reverse();
        Ok(Some(back))
    }

    /// The moves of the run with a number.
    pub(crate) fn way(&self, alloc: Global, number: usize) -> Result<Vec<M>, AllocError>
        requires lineage { IsLineage self.now }
        requires within { number < length (ways self.now) }
        ensures { IfOk result (λ moves. moves.items ≡ get_or (ways self.now) number []) }
    {
        let mut back = Vec::new(alloc);
        let mut k = number;
        while k != 0 {
            let (from, moves) = self.last_step(k);
            push_back_to_front(&mut back, moves)?;
            k = from;
        }
        back.reverse();
        Ok(back)
    }
}
