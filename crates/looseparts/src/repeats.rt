//! Ways that print the same as another and lead to a state that is alike: that other stands for them. And ways to ends of the run that print
//! the same as another.
ghost use Rattle.std.specs.Prelude.{◌≡◌, [], true, false, IfOk, IfSome, OnOk};
ghost use Rattle.std.specs.List.{All};
ghost use Rattle.orders.specs.Alike.{IsInOrder};
ghost use Rattle.loose.specs.Classes.{class_in};
ghost use Rattle.regions.specs.Machine.{state_at};
ghost use Rattle.statekeys.specs.ClassKeys.{IsClassKey};
ghost use Rattle.looseparts.specs.GoneWays.{AreWaysKept, ComesTo, HasSame, IsWayGone, IsKeptOnce, StandAsWell, ways_of};
ghost use Rattle.looseparts.specs.FoundWays.{ways_in};
ghost use Rattle.looseparts.specs.StandTogether.{concern};
ghost use Rattle.looseparts.specs.FoundGroups.{FoundStandsForAll};

use crate::acting::{do_concern_all, take_step};
use crate::found::PartFindings;
use crate::gone_way::GoneWay;
use crate::room::PartsRoom;
use certificates::note::StepNote;
use loose::transition::LooseTransition;
use regions::Machine;
use std::alloc::{AllocError, Global};

// Goes a way with a machine. Answers whether it did.
fn go(
    room: &mut PartsRoom<'_>,
    classes: &[u32],
    machine: &mut Machine<'_>,
    way: &[LooseTransition],
) -> Result<bool, AllocError>
    requires { IsInOrder (state_at machine.old) }
    ensures gone { IfOk result (λ done. done ≡ true → IsWayGone (class_in classes.now) machine.old way.now machine.new) }
    ensures code { machine.new.code ≡ machine.old.code }
{
    for actor in way {
        if !take_step(room, classes, machine, *actor)? {
            return Ok(false);
        }
    }
    Ok(true)
}

// A copy of a machine, without its lines.
fn silent_copy<'d>(
    room: &mut PartsRoom<'d>,
    machine: &Machine<'d>,
) -> Result<Box<Machine<'d>>, AllocError>
    ensures { IfOk result (λ copy. copy.value ≡ record machine.now { lines = [] }) }
{
    let mut copy = room.copy_of(machine)?;
    let _lines = copy.take_lines();
    Ok(copy)
}

// The class key of a machine's state, unless the run has finished there.
fn key_of(
    room: &mut PartsRoom<'_>,
    classes: &[u32],
    machine: &Machine<'_>,
) -> Result<Vec<u8>, AllocError>
    ensures { IfOk result (λ key. machine.now.core.finished ≡ false → IsClassKey (class_in classes.now) machine.now.core machine.now.values key.items) }
{
    let mut key = Vec::new(room.alloc);
    if machine.is_finished() {
        return Ok(key);
    }
    room.fill_key(&mut key, machine, classes)?;
    Ok(key)
}

// A way, gone again with a machine. None where too many steps were taken, and where the run isn't finished at its end as it should be.
fn gone_with(
    room: &mut PartsRoom<'_>,
    classes: &[u32],
    machine: &mut Machine<'_>,
    way: &[LooseTransition],
    over: bool,
) -> Result<Option<GoneWay>, AllocError>
    requires { IsInOrder (state_at machine.old) }
    ensures way { IfOk result (λ gone. IfSome gone (λ gone. gone.way.items ≡ way.now)) }
    ensures comes { IfOk result (λ gone. IfSome gone (λ gone. ComesTo (class_in classes.now) machine.old way.now over gone.lines.items gone.key.items)) }
{
    if !go(room, classes, machine, way)? {
        return Ok(None);
    }
    if machine.is_finished() != over {
        return Ok(None);
    }
    machine.stands();
    let key = key_of(room, classes, machine)?;
    let transitions = Vec::from_slice(room.alloc, way)?;
    let lines = machine.take_lines().into_bytes();
    Ok(Some(GoneWay {
        way: transitions,
        lines,
        key,
    }))
}

// A way, gone again from where a machine stands, with a copy of it.
fn gone_again<'d>(
    room: &mut PartsRoom<'d>,
    machine: &Machine<'d>,
    classes: &[u32],
    way: &[LooseTransition],
    over: bool,
) -> Result<Option<GoneWay>, AllocError>
    requires { IsInOrder (state_at machine.now) }
    ensures way { IfOk result (λ gone. IfSome gone (λ gone. gone.way.items ≡ way.now)) }
    ensures comes { IfOk result (λ gone. IfSome gone (λ gone. ComesTo (class_in classes.now) (record machine.now { lines = [] }) way.now over gone.lines.items gone.key.items)) }
{
    let mut copy = silent_copy(room, machine)?;
    let gone = gone_with(room, classes, &mut copy, way, over);
    room.give_back(copy);
    gone
}

// Whether two ways print the same, and lead to states that are alike.
fn come_to_the_same(one: &GoneWay, other: &GoneWay) -> bool
    ensures lines { result ≡ true → one.now.lines.items ≡ other.now.lines.items }
    ensures key { result ≡ true → one.now.key.items ≡ other.now.key.items }
{
    if one.lines.as_slice() != other.lines.as_slice() {
        return false;
    }
    one.key.as_slice() == other.key.as_slice()
}

// Whether one of these ways comes to the same as another.
fn is_kept(kept: &[GoneWay], gone: &GoneWay) -> bool
    ensures { result ≡ true → HasSame kept.now gone.now }
{
    for one in kept {
        if come_to_the_same(one, gone) {
            return true;
        }
    }
    false
}

// Adds a way that was gone, unless one that comes to the same is there.
fn keep_once(kept: &mut Vec<GoneWay>, gone: GoneWay) -> Result<(), AllocError>
    ensures { OnOk result (IsKeptOnce kept.old.items gone kept.new.items) }
{
    if is_kept(kept, &gone) {
        return Ok(());
    }
    kept.push(gone)?;
    Ok(())
}

// Ways of which each of these comes to the same as one. None where too many steps were taken.
fn kept_of<'d>(
    room: &mut PartsRoom<'d>,
    machine: &Machine<'d>,
    classes: &[u32],
    ways: &[Vec<LooseTransition>],
    over: bool,
) -> Result<Option<Vec<GoneWay>>, AllocError>
    requires { IsInOrder (state_at machine.now) }
    ensures { IfOk result (λ kept. IfSome kept (λ kept. AreWaysKept (class_in classes.now) (record machine.now { lines = [] }) over (ways_in ways.now) kept.items)) }
{
    let mut kept = Vec::new(room.alloc);
    for way in ways {
        match gone_again(room, machine, classes, way, over)? {
            Some(gone) => keep_once(&mut kept, gone)?,
            None => return Ok(None),
        }
    }
    Ok(Some(kept))
}

// Whether notes concern each actor of ways that were gone.
fn do_concern_ways(notes: &[StepNote], kept: &[GoneWay]) -> bool
    ensures { result ≡ true → All (λ gone. All (λ a. concern notes.now a ≡ true) gone.way.items) kept.now }
{
    for gone in kept {
        if !do_concern_all(notes, &gone.way) {
            return false;
        }
    }
    true
}

// The transitions of ways that were gone.
fn transitions_of(alloc: Global, kept: &[GoneWay]) -> Result<Vec<Vec<LooseTransition>>, AllocError>
    ensures { IfOk result (λ ways. ways_in ways.items ≡ ways_of kept.now) }
{
    let mut ways = Vec::new(alloc);
    for gone in kept {
        let way = Vec::from_slice(alloc, &gone.way)?;
        ways.push(way)?;
    }
    Ok(ways)
}

// Leaves out each of these ways that comes to the same as another, where steps enough may be taken to look.
fn leave_out<'d>(
    room: &mut PartsRoom<'d>,
    classes: &[u32],
    machine: &Machine<'d>,
    notes: &[StepNote],
    ways: &mut Vec<Vec<LooseTransition>>,
    over: bool,
) -> Result<(), AllocError>
    requires { IsInOrder (state_at machine.now) }
    ensures { OnOk result (StandAsWell (class_in classes.now) machine.now notes.now over (ways_in ways.old.items) (ways_in ways.new.items)) }
{
    if ways.len() < 2 {
        return Ok(());
    }
    let kept = match kept_of(room, machine, classes, ways, over)? {
        Some(kept) => kept,
        None => return Ok(()),
    };
    if !do_concern_ways(notes, &kept) {
        return Ok(());
    }
    *ways = transitions_of(room.alloc, &kept)?;
    Ok(())
}

/// Leaves out each way that prints the same as another and leads to a state that is alike, and each way to an end that prints the same as
/// another, where steps enough may be taken to look.
pub(crate) fn leave_out_repeats<'d>(
    room: &mut PartsRoom<'d>,
    classes: &[u32],
    machine: &Machine<'d>,
    found: &mut PartFindings,
) -> Result<(), AllocError>
    requires { IsInOrder (state_at machine.now) }
    ensures { OnOk result (FoundStandsForAll (class_in classes.now) machine.now.code (state_at machine.now) found.old → FoundStandsForAll (class_in classes.now) machine.now.code (state_at machine.now) found.new) }
{
    room.exchange_steps();
    leave_out(room, classes, machine, &found.notes, &mut found.ways, false)?;
    leave_out(room, classes, machine, &found.notes, &mut found.ends, true)?;
    room.exchange_steps();
    Ok(())
}
