//! A walk so far, and its checkpoint: to where its machine goes back where a way that it tried doesn't stand for all.
ghost use Rattle.std.specs.Prelude.{◌≡◌, ◌≢◌, [], true, Some, None, IfSome, IfOk, OnOk};
ghost use Rattle.orders.specs.Alike.{IsInOrder};
ghost use Rattle.loose.specs.Classes.{class_in};
ghost use Rattle.regions.specs.Machine.{state_at};
ghost use Rattle.loosewalks.specs.Checkpoints.{HasCome, HasTakenAgain, IsOfCodeToo, moves_of};

use loose::transition::LooseTransition;
use loosesteps::take_loosely;
use regions::Machine;
use std::alloc::{AllocError, Global};
use std::mem;

/// A walk so far: the moves that it made up to its checkpoint and those since, and the machine as it was at the checkpoint, if it has one.
#[derive(Drop)]
pub(crate) struct Walk<'d> {
    pub(crate) moves: Vec<LooseTransition>,
    pub(crate) since: Vec<LooseTransition>,
    pub(crate) checkpoint: Option<Box<Machine<'d>>>,
}

/// A copy of a machine, on the heap.
pub fn copy_of<'d>(alloc: Global, machine: &Machine<'d>) -> Result<Box<Machine<'d>>, AllocError>
    ensures { IfOk result (λ copy. copy.value ≡ machine.now) }
{
    let copy = machine.copy(alloc)?;
    let boxed = Box::new(alloc, copy)?;
    Ok(boxed)
}

// How many steps are made for each event to come and each line, which a copy and a key are as long as.
const STEPS_PER_EVENT: usize = 4;

/// How many steps a walk makes for one copy of its machine or one key of it, where these are long.
pub(crate) fn steps_for_copy(machine: &Machine<'_>) -> usize {
    let state = machine.state();
    state
        .future_updates()
        .len()
        .saturating_add(state.future_evaluations().len())
        .saturating_add(state.monitor().len())
        .saturating_mul(STEPS_PER_EVENT)
}

impl<'d> Walk<'d> {
    /// A walk that has made no move.
    pub(crate) fn new(alloc: Global) -> Walk<'d>
        ensures moves { moves_of result ≡ [] }
        ensures none { result.checkpoint ≡ None }
    {
        Walk {
            moves: Vec::new(alloc),
            since: Vec::new(alloc),
            checkpoint: None,
        }
    }

    /// Whether a walk has made a move.
    pub(crate) fn has_moved(&self) -> bool
        ensures { moves_of self.now ≢ [] → result ≡ true }
    {
        if !self.moves.is_empty() {
            return true;
        }
        !self.since.is_empty()
    }

    // Takes the checkpoint out of a walk. It is let go where the walk made so many moves since that another copy takes less long than they do.
    fn near_checkpoint(&mut self, machine: &Machine<'_>) -> Option<Box<Machine<'d>>>
        ensures there { IfSome result (λ copy. self.old.checkpoint ≡ Some copy) }
        ensures rest { self.new ≡ record self.old { checkpoint = None } }
    {
        let checkpoint = self.checkpoint.take();
        if self.since.len() <= steps_for_copy(machine) {
            checkpoint
        } else {
            None
        }
    }

    /// Takes the checkpoint out of a walk. Where it has none, or that is far behind, it is where its machine stands now.
    pub(crate) fn take_checkpoint(
        &mut self,
        alloc: Global,
        machine: &Machine<'d>,
    ) -> Result<Box<Machine<'d>>, AllocError>
        ensures moves { OnOk result (moves_of self.new ≡ moves_of self.old) }
        ensures none { self.new.checkpoint ≡ None }
        ensures come { IfOk result (λ copy. HasCome machine.now self.old copy.value self.new.moves.items) }
        ensures code { IfOk result (λ copy. IsOfCodeToo machine.now self.old copy.value) }
    {
        match self.near_checkpoint(machine) {
            Some(checkpoint) => Ok(checkpoint),
            None => {
                self.moves.extend_from_slice(&self.since)?;
                self.since.clear();
                copy_of(alloc, machine)
            }
        }
    }

    /// All the moves of a walk.
    pub(crate) fn into_moves(self) -> Result<Vec<LooseTransition>, AllocError>
        ensures { IfOk result (λ moves. moves.items ≡ moves_of self.entry) }
    {
        let Walk { moves, since, .. } = self;
        let mut moves = moves;
        moves.extend_from_slice(&since)?;
        Ok(moves)
    }
}

/// Takes transitions that were taken once from where a machine stood that was alike, so that it fails only where memory is refused.
pub(crate) fn take_again(
    machine: &mut Machine<'_>,
    classes: &[u32],
    moves: &[LooseTransition],
) -> Result<(), AllocError>
    requires { IsInOrder (state_at machine.old) }
    ensures again { OnOk result (HasTakenAgain (class_in classes.now) machine.old moves.now machine.new) }
    ensures code { machine.new.code ≡ machine.old.code }
{
    for transition in moves {
        match take_loosely(machine, classes, *transition) {
            Ok(()) => {}
            Err(_) => return Err(AllocError),
        }
    }
    Ok(())
}

/// Takes a machine back to where its walk stood before it tried a way: to this checkpoint, and on by the moves that the walk made since.
pub(crate) fn roll_back<'d>(
    classes: &[u32],
    checkpoint: Box<Machine<'d>>,
    since: &[LooseTransition],
    machine: &mut Machine<'d>,
) -> Result<(), AllocError>
    ensures again { OnOk result (HasTakenAgain (class_in classes.now) checkpoint.entry.value since.now machine.new) }
    ensures code { machine.new.code ≡ checkpoint.entry.value.code }
{
    let mut copy = checkpoint;
    mem::swap(machine, &mut copy);
    machine.stands_in_order();
    take_again(machine, classes, since)
}
