//! A way through all that is active, with which processes it may be tried, and how it is taken.
ghost use Rattle.std.specs.Prelude.{◌≡◌, ◌≢◌, [], true, IfOk, IfSome};
ghost use Rattle.regions.specs.Machine.{state_at};
ghost use Rattle.loose.specs.Classes.{class_in};
ghost use Rattle.combinational.specs.Found.{IsNetworkOf};
ghost use Rattle.loosewalks.specs.EventWays.{AreOfActors};
ghost use Rattle.loosewalks.specs.LooseWalking.{IsSoleLooseWay};
ghost use Rattle.loosewalks.specs.Attempts.{IsFit};

use crate::certified::take_certified;
use crate::held::{
    HeldScope, held_among, more_members, settled_members, take_held, take_held_until_settled,
};
use crate::phase::{have_logic, take_phase};
use crate::room::{LooseRoom, WalkScope};
use regions::Machine;
use settling::{Awaited, phase_of};
use std::alloc::AllocError;

/// A way through all that is active, which may stand for all.
#[derive(Clone, Copy)]
pub(crate) enum WayThrough {
    /// Through a phase of combinational processes.
    Phase,
    /// By events whose notes certify it.
    Certified,
    /// By such events while combinational processes are held that are pending or have settled, and then by the events of these.
    HeldSettled,
    /// Likewise, where those are held too that wait though their turns would change something.
    Held,
    /// Likewise, where those are left out of the processes that were held last that steps of others met, or that didn't settle.
    HeldRest,
    /// Likewise, where those are held too for whose outputs others wait at edges alone, if these sleep through it.
    HeldAsleep,
}

/// The processes with which a way may be tried where a machine stands: the members of a phase, those that are held, or none where the notes
/// certify. None where it may not be tried, or was already with the same that are held.
pub(crate) fn members_for(
    scope: WalkScope<'_>,
    room: &LooseRoom,
    machine: &Machine<'_>,
    way: WayThrough,
) -> Result<Option<Vec<u32>>, AllocError>
    requires { IsNetworkOf machine.now.code scope.network.now }
    ensures { IfOk result (λ found. IfSome found (λ members. IsFit way machine.now scope.entry.network.now members.items)) }
{
    match way {
        WayThrough::Phase => {
            if !have_logic(scope.network, machine.state().active().1) {
                return Ok(None);
            }
            phase_of(scope.alloc, machine, scope.network)
        }
        WayThrough::Certified => Ok(Some(Vec::new(scope.alloc))),
        WayThrough::HeldSettled => settled_members(scope, machine),
        WayThrough::Held => more_members(scope, room.tried, machine, Awaited::Never),
        WayThrough::HeldRest => { held_among(scope, machine, room.rest.as_slice(), Awaited::Never) }
        WayThrough::HeldAsleep => more_members(scope, room.most, machine, Awaited::AtEdges),
    }
}

/// Takes what is active by a way, with these processes. Answers whether it came to where nothing is active, and what it took, which is left
/// in the room, stands for all.
pub(crate) fn take_way(
    scope: WalkScope<'_>,
    way: WayThrough,
    members: &[u32],
    room: &mut LooseRoom,
    machine: &mut Machine<'_>,
) -> Result<bool, AllocError>
    requires network { IsNetworkOf machine.old.code scope.network.now }
    requires active { (state_at machine.old).active ≢ [] }
    requires fit { IsFit way machine.old scope.network.now members.now }
    ensures sole { IfOk result (λ all. all ≡ true → IsSoleLooseWay (class_in scope.entry.rules.classes.now) scope.entry.rules.limits machine.old room.new.way.items machine.new) }
    ensures actors { IfOk result (λ all. all ≡ true → AreOfActors room.new.way.items) }
    ensures code { machine.new.code ≡ machine.old.code }
{
    let holding = HeldScope {
        scope,
        held: members,
    };
    match way {
        WayThrough::Phase => take_phase(scope, members, &mut room.way, machine),
        WayThrough::Certified => take_certified(machine, scope.rules.classes, room),
        WayThrough::HeldSettled => take_held(holding, room, machine),
        WayThrough::Held => take_held_until_settled(holding, room, machine),
        WayThrough::HeldRest => take_held_until_settled(holding, room, machine),
        WayThrough::HeldAsleep => take_held_until_settled(holding, room, machine),
    }
}
