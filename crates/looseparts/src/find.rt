//! What some actors do alone from where a machine stands: parts of them, each followed by its first steps.
ghost use Rattle.std.specs.Prelude.{◌≡◌, [], ◌∷◌, false, true, IfOk, IfSome, OnOk};
ghost use Rattle.std.specs.List.{All, Contains};
ghost use Rattle.orders.specs.Alike.{IsInOrder};
ghost use Rattle.loose.specs.Classes.{class_in};
ghost use Rattle.regions.specs.Machine.{state_at};
ghost use Rattle.looseparts.specs.declared.found.FoundPart.{FoundPart as PartView};
ghost use Rattle.looseparts.specs.FoundWays.{ways_in};
ghost use Rattle.looseparts.specs.FoundGroups.{FoundStandsForAll, PartsStandTogether, IsFollowedBy, IsFoundFor, IsPart};
ghost use Rattle.looseparts.specs.FoundParts.{AreAdded, IsPutBehind};
ghost use Rattle.looseparts.specs.FirstSteps.{IsFirstStep};

use crate::acting::{do_concern_all, is_closed, take_step, waiting_of};
use crate::found::{FoundPart, PartFindings, are_all_apart, with_behind};
use crate::repeats::leave_out_repeats;
use crate::room::PartsRoom;
use certificates::note::StepNote;
use loose::transition::LooseTransition;
use regions::Machine;
use std::alloc::{AllocError, Global};
use std::mem;

// Takes out a part that isn't apart from what was found, where there is one.
fn take_meeting(parts: &mut Vec<FoundPart>, found: &PartFindings) -> Option<FoundPart>
    ensures { (part : PartView) → Contains parts.new.items part → Contains parts.old.items part }
{
    let place = parts
        .iter()
        .position(|part| !are_all_apart(&part.found.notes, &found.notes))?;
    Some(parts.remove(place))
}

// Puts parts together, where all of them are apart and they have few ways.
fn put_together(alloc: Global, parts: Vec<FoundPart>) -> Result<Option<PartFindings>, AllocError>
    ensures { IfOk result (λ found. IfSome found (PartsStandTogether parts.items)) }
{
    let mut all = PartFindings::of_nobody(alloc)?;
    for part in parts {
        let mut found = part.found;
        if !all.add_part(alloc, &mut found)? {
            return Ok(None);
        }
    }
    Ok(Some(all))
}

/// A first step: the machine that took it, who waits behind it of those whom it concerns, and its note.
#[derive(Drop)]
pub(crate) struct FirstStep<'d> {
    machine: Box<Machine<'d>>,
    next: Vec<LooseTransition>,
    note: StepNote,
}

// The step of an actor, which a copy of a machine takes, with what waits behind it of a group and of those whom it woke. None where the
// actor takes none, or no more steps may be taken.
fn first_step<'d>(
    room: &mut PartsRoom<'d>,
    classes: &[u32],
    machine: &Machine<'d>,
    group: &[LooseTransition],
    actor: LooseTransition,
) -> Result<Option<FirstStep<'d>>, AllocError>
    requires { IsInOrder (state_at machine.now) }
    ensures { IfOk result (λ found. IfSome found (IsFirstStep (class_in classes.now) machine.now group.now actor)) }
{
    let mut copy = room.copy_of(machine)?;
    if !take_step(room, classes, &mut copy, actor)? {
        room.give_back(copy);
        return Ok(None);
    }
    let next = waiting_of(room, &copy, classes, group)?;
    Ok(Some(FirstStep {
        machine: copy,
        next,
        note: room.take_note(),
    }))
}

// What was found behind the first step of an actor, with that step before it.
fn with_step<'d>(
    room: &mut PartsRoom<'d>,
    actor: LooseTransition,
    found: PartFindings,
    step: FirstStep<'d>,
) -> Result<PartFindings, AllocError>
    ensures { IfOk result (IsPutBehind actor (step.entry.note ∷ []) found) }
{
    let FirstStep { machine, note, .. } = step;
    room.give_back(machine);
    let mut found = found;
    found.put_behind(room.alloc, actor, note)?;
    Ok(found)
}

// Follows an actor of a group first: its step, and then what is left of the group, with those whom the step woke.
#[cycle(find)]
fn follow_one<'d>(
    room: &mut PartsRoom<'d>,
    classes: &[u32],
    machine: &Machine<'d>,
    depth: u32,
    group: &[LooseTransition],
    actor: LooseTransition,
) -> Result<Option<PartFindings>, AllocError>
    requires { IsInOrder (state_at machine.now) }
    ensures { IfOk result (λ found. IfSome found (IsFollowedBy (class_in classes.now) machine.now.code (state_at machine.now) group.now actor)) }
{
    let step = match first_step(room, classes, machine, group, actor)? {
        Some(step) => step,
        None => return Ok(None),
    };
    match explore(room, classes, &step.machine, depth, &step.next)? {
        Some(behind) => {
            let found = with_step(room, actor, behind, step)?;
            Ok(Some(found))
        }
        None => {
            room.give_back(step.machine);
            Ok(None)
        }
    }
}

// Adds what was found where another actor steps first.
fn add_next(found: &mut PartFindings, next: PartFindings) -> Result<(), AllocError>
    ensures { OnOk result (AreAdded found.old next found.new) }
{
    let mut next = next;
    let added = found.add_all(&mut next);
    drop(next);
    added
}

// Follows each actor of a group first, and adds what is found then. Answers whether that is all.
#[cycle(find)]
fn follow_each<'d>(
    room: &mut PartsRoom<'d>,
    classes: &[u32],
    machine: &Machine<'d>,
    group: &[LooseTransition],
    depth: u32,
    found: &mut PartFindings,
) -> Result<bool, AllocError>
    requires order { IsInOrder (state_at machine.now) }
    requires going { machine.now.core.finished ≡ false }
    ensures { IfOk result (λ all. all ≡ true → IsFoundFor (class_in classes.now) machine.now.code (state_at machine.now) group.now found.new) }
{
    if group.is_empty() {
        return Ok(false);
    }
    for actor in group {
        match follow_one(room, classes, machine, depth, group, *actor)? {
            Some(next) => add_next(found, next)?,
            None => return Ok(false),
        }
    }
    is_closed(&mut room.choices, machine, classes, group, &found.notes)
}

// Finds what a group does where each of its actors is followed first.
#[cycle(find)]
fn follow<'d>(
    room: &mut PartsRoom<'d>,
    classes: &[u32],
    machine: &Machine<'d>,
    group: &[LooseTransition],
    depth: u32,
) -> Result<Option<PartFindings>, AllocError>
    requires order { IsInOrder (state_at machine.now) }
    requires going { machine.now.core.finished ≡ false }
    ensures { IfOk result (λ found. IfSome found (IsFoundFor (class_in classes.now) machine.now.code (state_at machine.now) group.now)) }
{
    let mut found = PartFindings::new(room.alloc);
    if follow_each(room, classes, machine, group, depth, &mut found)? {
        return Ok(Some(found));
    }
    Ok(None)
}

// The part of some actors, of which this was found. Where more than one of them may be first, of ways that come to the same one is kept.
fn part_with<'d>(
    room: &mut PartsRoom<'d>,
    classes: &[u32],
    machine: &Machine<'d>,
    actors: Vec<LooseTransition>,
    found: PartFindings,
) -> Result<FoundPart, AllocError>
    requires { IsInOrder (state_at machine.now) }
    ensures { IfOk result (λ part. FoundStandsForAll (class_in classes.now) machine.now.code (state_at machine.now) found → IsPart (class_in classes.now) machine.now.code (state_at machine.now) part) }
{
    if actors.len() < 2 {
        return Ok(FoundPart { actors, found });
    }
    let mut found = found;
    leave_out_repeats(room, classes, machine, &mut found)?;
    Ok(FoundPart { actors, found })
}

// The part of some actors, of which this was found, where it is apart from the parts so far. Else one of these from which it isn't is taken
// out, and its actors are put before the others. Those who were there before stay first, so that the way that is kept of several takes events
// as they wait, as walks do.
fn part_apart<'d>(
    room: &mut PartsRoom<'d>,
    classes: &[u32],
    machine: &Machine<'d>,
    parts: &mut Vec<FoundPart>,
    actors: &mut Vec<LooseTransition>,
    found: PartFindings,
) -> Result<Option<FoundPart>, AllocError>
    requires { IsInOrder (state_at machine.now) }
    ensures parts { (part : PartView) → Contains parts.new.items part → Contains parts.old.items part }
    ensures part { IfOk result (λ part. IfSome part (λ part. FoundStandsForAll (class_in classes.now) machine.now.code (state_at machine.now) found → IsPart (class_in classes.now) machine.now.code (state_at machine.now) part)) }
{
    match take_meeting(parts, &found) {
        Some(other) => {
            *actors = with_behind(room.alloc, &other.actors, actors)?;
            room.let_go(other.found);
            room.let_go(found);
            Ok(None)
        }
        None => {
            let own = mem::replace(actors, Vec::new(room.alloc));
            let part = part_with(room, classes, machine, own, found)?;
            Ok(Some(part))
        }
    }
}

// The part of an actor: he alone, or he with those of the parts so far from which he isn't apart. These are taken out.
#[cycle(find)]
fn part_of<'d>(
    room: &mut PartsRoom<'d>,
    classes: &[u32],
    machine: &Machine<'d>,
    depth: u32,
    parts: &mut Vec<FoundPart>,
    actor: LooseTransition,
) -> Result<Option<FoundPart>, AllocError>
    requires order { IsInOrder (state_at machine.now) }
    requires going { machine.now.core.finished ≡ false }
    requires parts { All (IsPart (class_in classes.now) machine.now.code (state_at machine.now)) parts.old.items }
    ensures parts { OnOk result (All (IsPart (class_in classes.now) machine.now.code (state_at machine.now)) parts.new.items) }
    ensures part { IfOk result (λ part. IfSome part (IsPart (class_in classes.now) machine.now.code (state_at machine.now))) }
{
    let mut actors = Vec::from_slice(room.alloc, &[actor])?;
    let most = parts.len().saturating_add(1);
    for _merged in 0..most {
        let found = match follow(room, classes, machine, &actors, depth)? {
            Some(found) => found,
            None => return Ok(None),
        };
        match part_apart(room, classes, machine, parts, &mut actors, found)? {
            Some(part) => return Ok(Some(part)),
            None => {}
        }
    }
    Ok(None)
}

// Finds what the actors of a group do alone, where nobody else whom they wake waits already: parts that are apart, each followed by its
// first steps; and of a run that has finished, its end. The depth is how many steps may be taken one behind another.
#[cycle(find)]
pub(crate) fn explore<'d>(
    room: &mut PartsRoom<'d>,
    classes: &[u32],
    machine: &Machine<'d>,
    depth: u32,
    group: &[LooseTransition],
) -> Result<Option<PartFindings>, AllocError>
    requires { IsInOrder (state_at machine.now) }
    ensures going { machine.now.core.finished ≡ false → IfOk result (λ found. IfSome found (IsFoundFor (class_in classes.now) machine.now.code (state_at machine.now) group.now)) }
    ensures finished { machine.now.core.finished ≡ true → IfOk result (λ found. IfSome found (λ found. ways_in found.ends.items ≡ [] ∷ [])) }
{
    if machine.is_finished() {
        let end = PartFindings::of_end(room.alloc)?;
        return Ok(Some(end));
    }
    if depth == 0 {
        return Ok(None);
    }
    let mut parts = Vec::new(room.alloc);
    for actor in group {
        match part_of(room, classes, machine, depth - 1, &mut parts, *actor)? {
            Some(part) => parts.push(part)?,
            None => return Ok(None),
        }
    }
    let found = match put_together(room.alloc, parts)? {
        Some(found) => found,
        None => return Ok(None),
    };
    if !do_concern_all(&found.notes, group) {
        return Ok(None);
    }
    Ok(Some(found))
}
