//! The loose runs that go on from a node by parts: ways that stand for all, where what waits falls into parts that are apart.
ghost use Rattle.std.specs.Prelude.{◌≡◌, ◌+◌, ◌≤◌, [], length, true, IfOk, IfSome};
ghost use Rattle.std.specs.List.{All};
ghost use Rattle.model.specs.declared.end.Limits.{Limits as RunLimits};
ghost use Rattle.orders.specs.Alike.{IsInOrder};
ghost use Rattle.loose.specs.Classes.{class_in};
ghost use Rattle.looseruns.specs.LooseMoves.{AreTimelyMoves, IsTimelyMove};
ghost use Rattle.looseparts.specs.FoundWays.{ways_in};
ghost use Rattle.regions.specs.Machine.{state_at};
ghost use Rattle.lawful.specs.ByParts.{AreEndsOf, AreFollowed, AreWaysTaken, IsFinishedAt, IsWayTaken, IsWithin, StandForAll};

use crate::again::take_all;
use crate::node::{LooseNode, next_of};
use explore::{EndedPath, Expanded, Successor};
use loose::transition::LooseTransition;
use looseparts::{CoveringWays, PartsRoom, ways_by_parts};
use loosewalks::copy_of;
use model::end::{End, Limits, Why};
use regions::Machine;
use std::alloc::{AllocError, Global};
use turn::TurnLog;

// Whether a transition takes an event. One that does is in time, whatever the limit.
fn takes_event(transition: LooseTransition) -> bool
    ensures { result ≡ true → (limits : RunLimits) → IsTimelyMove limits transition }
{
    match transition {
        LooseTransition::Change(_) => false,
        _ => true,
    }
}

// Whether a way of a run that took this many entries keeps within the limits: it is in time, and has no more entries than a run may have.
fn is_within(limits: Limits, entries: u64, way: &[LooseTransition]) -> bool
    ensures timely { result ≡ true → AreTimelyMoves limits way.now }
    ensures few { result ≡ true → entries + length way.now ≤ limits.max_entries }
{
    if entries.saturating_add(way.len() as u64) > u64::from(limits.max_entries) {
        return false;
    }
    for transition in way {
        if !takes_event(*transition) {
            return false;
        }
    }
    true
}

// Whether each of these ways keeps within the limits.
fn are_within(limits: Limits, entries: u64, ways: &[Vec<LooseTransition>]) -> bool
    ensures { result ≡ true → All (IsWithin limits entries) (ways_in ways.now) }
{
    for way in ways {
        if !is_within(limits, entries, way) {
            return false;
        }
    }
    true
}

/// Ways by parts that stand for all loose runs from where a machine stands, where no way leads past the most entries that a run may have.
/// None where no such ways are found.
pub(crate) fn parts_within<'d>(
    room: &mut PartsRoom<'d>,
    classes: &[u32],
    limits: Limits,
    machine: &Machine<'d>,
) -> Result<Option<CoveringWays>, AllocError>
    requires { IsInOrder (state_at machine.now) }
    ensures { IfOk result (λ found. IfSome found (StandForAll (class_in classes.now) limits machine.now)) }
{
    let entries = machine.state().entries();
    if entries >= u64::from(limits.max_entries) {
        return Ok(None);
    }
    let found = match ways_by_parts(room, classes, machine)? {
        Some(found) => found,
        None => return Ok(None),
    };
    if !are_within(limits, entries, &found.ways) {
        return Ok(None);
    }
    if !are_within(limits, entries, &found.ends) {
        return Ok(None);
    }
    Ok(Some(found))
}

// Goes a way with this machine.
fn go_way<'d>(
    alloc: Global,
    classes: &[u32],
    log: &mut TurnLog,
    machine: Box<Machine<'d>>,
    way: Vec<LooseTransition>,
) -> Result<Successor<LooseNode<'d>, LooseTransition>, AllocError>
    requires order { IsInOrder (state_at machine.value) }
    requires silent { machine.value.lines ≡ [] }
    ensures { IfOk result (IsWayTaken (class_in classes.now) machine.entry.value.code (state_at machine.entry.value) way.items) }
{
    let mut machine = machine;
    take_all(log, &mut machine, classes, &way)?;
    Ok(next_of(alloc, machine, way))
}

// Goes each of these ways with copies of a machine.
fn go_each<'d>(
    alloc: Global,
    classes: &[u32],
    log: &mut TurnLog,
    machine: &Machine<'d>,
    ways: Vec<Vec<LooseTransition>>,
) -> Result<Vec<Successor<LooseNode<'d>, LooseTransition>>, AllocError>
    requires order { IsInOrder (state_at machine.now) }
    requires silent { machine.now.lines ≡ [] }
    ensures { IfOk result (λ successors. AreWaysTaken (class_in classes.now) machine.now.code (state_at machine.now) (ways_in ways.items) successors.items) }
{
    let mut successors = Vec::new(alloc);
    for way in ways {
        let copy = copy_of(alloc, machine)?;
        let successor = go_way(alloc, classes, log, copy, way)?;
        successors.push(successor)?;
    }
    Ok(successors)
}

// Goes each of these ways: the last of them with the machine itself.
fn go_all<'d>(
    alloc: Global,
    classes: &[u32],
    log: &mut TurnLog,
    machine: Box<Machine<'d>>,
    ways: Vec<Vec<LooseTransition>>,
) -> Result<Vec<Successor<LooseNode<'d>, LooseTransition>>, AllocError>
    requires order { IsInOrder (state_at machine.value) }
    requires silent { machine.value.lines ≡ [] }
    ensures { IfOk result (λ successors. AreWaysTaken (class_in classes.now) machine.entry.value.code (state_at machine.entry.value) (ways_in ways.items) successors.items) }
{
    let mut others = ways;
    match others.pop() {
        Some(last) => {
            let mut successors = go_each(alloc, classes, log, &machine, others)?;
            let successor = go_way(alloc, classes, log, machine, last)?;
            successors.push(successor)?;
            Ok(successors)
        }
        None => Ok(Vec::new(alloc)),
    }
}

// The end of a run at a node where it has finished (17.4.1). Fails where it goes on from there, as it does behind no way that was found to
// lead to an end.
fn end_of(
    next: Successor<LooseNode<'_>, LooseTransition>,
) -> Result<EndedPath<LooseTransition, End>, AllocError>
    ensures { IfOk result (IsFinishedAt next.entry) }
{
    let Successor {
        node,
        printed,
        moves,
    } = next;
    if !node.machine.is_finished() {
        return Err(AllocError);
    }
    Ok(EndedPath {
        printed,
        end: End::Stopped(Why::Finish),
        moves,
    })
}

// The ends of runs at nodes where they have finished.
fn ends_of(
    alloc: Global,
    finished: Vec<Successor<LooseNode<'_>, LooseTransition>>,
) -> Result<Vec<EndedPath<LooseTransition, End>>, AllocError>
    ensures { IfOk result (λ ended. AreEndsOf finished.entry.items ended.items) }
{
    let mut ended = Vec::new(alloc);
    for next in finished {
        let end = end_of(next)?;
        ended.push(end)?;
    }
    Ok(ended)
}

/// Follows ways by parts: those to where nothing is active lead to nodes, and those to where the run has finished to its ends.
pub(crate) fn follow_parts<'d>(
    alloc: Global,
    classes: &[u32],
    log: &mut TurnLog,
    machine: Box<Machine<'d>>,
    found: CoveringWays,
) -> Result<Expanded<LooseNode<'d>, LooseTransition, End>, AllocError>
    requires order { IsInOrder (state_at machine.value) }
    requires silent { machine.value.lines ≡ [] }
    ensures { IfOk result (λ x. AreFollowed (class_in classes.now) machine.entry.value.code (state_at machine.entry.value) found x.successors.items x.ended.items) }
{
    let CoveringWays { ways, ends } = found;
    let finished = go_each(alloc, classes, log, &machine, ends)?;
    let ended = ends_of(alloc, finished)?;
    let successors = go_all(alloc, classes, log, machine, ways)?;
    Ok(Expanded {
        successors,
        ended,
        whole: true,
    })
}
