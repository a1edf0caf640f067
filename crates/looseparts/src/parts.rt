//! Ways by parts from where a machine stands.
ghost use Rattle.std.specs.Prelude.{◌≡◌, ℕ, IfOk, IfSome};
ghost use Rattle.model.specs.declared.end.Limits.{Limits};
ghost use Rattle.model.specs.Runs.{HasLongTurn};
ghost use Rattle.orders.specs.Alike.{IsInOrder};
ghost use Rattle.loose.specs.Classes.{class_in};
ghost use Rattle.design.specs.Compiled.{design_of};
ghost use Rattle.regions.specs.Machine.{state_at};
ghost use Rattle.looseruns.specs.ObservedEnding.{CoverToFinish};
ghost use Rattle.looseparts.specs.FoundWays.{ways_in};

use crate::find::explore;
use crate::found::PartFindings;
use crate::room::PartsRoom;
use loose::transition::LooseTransition;
use loosesteps::loose_choices;
use regions::Machine;
use std::alloc::AllocError;

// The most steps of one way. Each has a frame of some functions, so that they are far from the end of the stack.
const MOST_DEPTH: u32 = 256;

/// Ways that stand for all loose runs from where a machine stands: those to where nothing is active, and those to where the run has
/// finished (17.4.1).
#[derive(Drop)]
pub struct CoveringWays {
    pub ways: Vec<Vec<LooseTransition>>,
    pub ends: Vec<Vec<LooseTransition>>,
}

// The ways of what was found. Its notes are given back.
fn covering(room: &mut PartsRoom<'_>, found: PartFindings) -> CoveringWays
    ensures ways { result.ways ≡ found.ways }
    ensures ends { result.ends ≡ found.ends }
{
    let PartFindings { ways, ends, notes } = found;
    room.give_back_notes(notes);
    CoveringWays { ways, ends }
}

/// Ways that stand for all loose runs from where a machine stands: parts that are apart, and of each the orders of its steps. None where
/// nothing is active, or where it gives up: a turn is too long, there are too many ways or steps, or it gave up too often before. So where
/// there are ways, nobody who waits has a turn that is too long. The classes of registers say which updates wait for each other.
pub fn ways_by_parts<'d>(
    room: &mut PartsRoom<'d>,
    classes: &[u32],
    machine: &Machine<'d>,
) -> Result<Option<CoveringWays>, AllocError>
    requires { IsInOrder (state_at machine.now) }
    ensures cover { IfOk result (λ found. IfSome found (λ found. (limits : Limits) → CoverToFinish (class_in classes.now) (design_of machine.now.code) limits (state_at machine.now) (ways_in found.ways.items) (ways_in found.ends.items))) }
    ensures short { IfOk result (λ found. IfSome found (λ found. (process : ℕ) → HasLongTurn (design_of machine.now.code) (state_at machine.now) process → ⊥)) }
{
    if machine.is_finished() {
        return Ok(None);
    }
    if !machine.state().is_active() {
        return Ok(None);
    }
    let group = loose_choices(room.alloc, machine, classes)?;
    if !room.permit(group.len()) {
        return Ok(None);
    }
    match explore(room, classes, machine, MOST_DEPTH, &group)? {
        Some(found) => Ok(Some(covering(room, found))),
        None => {
            room.spend();
            Ok(None)
        }
    }
}
