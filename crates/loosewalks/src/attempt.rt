//! A way that a walk tries: where it doesn't stand for all, the machine goes back.
ghost use Rattle.std.specs.Prelude.{◌≡◌, ◌≢◌, ◌≤◌, [], true, OnOk};
ghost use Rattle.loose.specs.Classes.{class_in};
ghost use Rattle.combinational.specs.Found.{IsNetworkOf};
ghost use Rattle.regions.specs.Machine.{state_at};
ghost use Rattle.loosewalks.specs.Attempts.{IsFit};
ghost use Rattle.loosewalks.specs.Checkpoints.{AreOfCode, WalkGoesOn};
ghost use Rattle.loosewalks.specs.TimeStops.{StillPassesTimeFirst};

use crate::checkpoint::{Walk, roll_back};
use crate::room::{LooseRoom, WalkScope};
use crate::way_through::{WayThrough, members_for, take_way};
use model::end::Limits;
use regions::Machine;
use std::alloc::AllocError;

// Whether a way is kept that a machine tried: it stands for all, and the machine has no more entries than the most.
fn is_kept(limits: Limits, machine: &Machine<'_>, all: bool) -> bool
    ensures all { result ≡ true → all ≡ true }
    ensures few { result ≡ true → machine.now.core.entries ≤ limits.max_entries }
{
    all && machine.state().entries() <= u64::from(limits.max_entries)
}

// Goes on by a way with these processes, to where nothing is active, where it stands for all and the run has room for it. Answers whether it
// did. Where it isn't kept, the machine goes back to the walk's checkpoint and takes the moves since again.
fn go_with<'d>(
    scope: WalkScope<'_>,
    room: &mut LooseRoom,
    walk: &mut Walk<'d>,
    machine: &mut Machine<'d>,
    way: WayThrough,
    members: &[u32],
) -> Result<bool, AllocError>
    requires network { IsNetworkOf machine.old.code scope.network.now }
    requires code { AreOfCode machine.old.code machine.old walk.old }
    requires active { (state_at machine.old).active ≢ [] }
    requires fit { IsFit way machine.old scope.network.now members.now }
    ensures on { OnOk result (WalkGoesOn (class_in scope.entry.rules.classes.now) scope.entry.rules.limits machine.old walk.old machine.new walk.new) }
    ensures time { OnOk result (StillPassesTimeFirst walk.old walk.new) }
    ensures code { AreOfCode machine.old.code machine.new walk.new }
{
    let checkpoint = walk.take_checkpoint(scope.alloc, machine)?;
    let all = take_way(scope, way, members, room, machine)?;
    if is_kept(scope.rules.limits, machine, all) {
        walk.since.extend_from_slice(&room.way)?;
        room.regain();
        walk.checkpoint = Some(checkpoint);
        return Ok(true);
    }
    roll_back(scope.rules.classes, checkpoint, &walk.since, machine)?;
    Ok(false)
}

/// Goes on by a way through what is active, to where nothing is, where it may be tried, stands for all and the run has room for it. Answers
/// whether it did. Where the way was tried and isn't kept, the machine goes back to the walk's checkpoint and takes the moves since again,
/// and the walk is left without a checkpoint.
pub(crate) fn go_by<'d>(
    scope: WalkScope<'_>,
    room: &mut LooseRoom,
    walk: &mut Walk<'d>,
    machine: &mut Machine<'d>,
    way: WayThrough,
) -> Result<bool, AllocError>
    requires network { IsNetworkOf machine.old.code scope.network.now }
    requires code { AreOfCode machine.old.code machine.old walk.old }
    ensures on { OnOk result (WalkGoesOn (class_in scope.entry.rules.classes.now) scope.entry.rules.limits machine.old walk.old machine.new walk.new) }
    ensures time { OnOk result (StillPassesTimeFirst walk.old walk.new) }
    ensures code { AreOfCode machine.old.code machine.new walk.new }
{
    if !machine.state().is_active() {
        return Ok(false);
    }
    let members = match members_for(scope, room, machine, way)? {
        Some(members) => members,
        None => return Ok(false),
    };
    go_with(scope, room, walk, machine, way, &members)
}
