//! A walk on from a machine, as long as one way stands for all.
ghost use Rattle.std.specs.Prelude.{◌≡◌, ◌≢◌, [], true, None, IfOk, IfSome, OnOk};
ghost use Rattle.combinational.specs.Found.{IsNetworkOf};
ghost use Rattle.loose.specs.Classes.{class_in};
ghost use Rattle.design.specs.Compiled.{design_of};
ghost use Rattle.regions.specs.Machine.{state_at};
ghost use Rattle.looseruns.specs.ObservedMoves.{StaysAtEntry, StaysInTime, PassesTimeFirst};
ghost use Rattle.loosewalks.specs.declared.rules.WalkStops.TheVariants.{AtTime};
ghost use Rattle.loosewalks.specs.Sole.{IsLikeReached};
ghost use Rattle.loosewalks.specs.LooseWalking.{HasCountedMoves, HasStepped, HasWalkedLoosely};
ghost use Rattle.loosewalks.specs.Checkpoints.{AreOfCode, WalkGoesOn, moves_of};
ghost use Rattle.loosewalks.specs.TimeStops.{StillPassesTimeFirst};

use crate::active::only_entry;
use crate::attempt::go_by;
use crate::checkpoint::{Walk, steps_for_copy};
use crate::room::{LooseRoom, WalkScope};
use crate::rules::{WalkRules, WalkStops};
use crate::taking::not_taken;
use crate::way_through::WayThrough;
use loose::transition::LooseTransition;
use model::entry::Entry;
use regions::Machine;
use settling::AnalyzedDesign;
use std::alloc::{AllocError, Global};

// The most steps of one walk where little is pending: a search looks for a state that it has seen at the end of each. Where that takes long, since
// much is pending, a walk makes more steps.
const MOST_STEPS: usize = 256;

// The ways that are tried, one after another, until one stands for all.
const WAYS: [WayThrough; 6] = [
    WayThrough::Phase,
    WayThrough::Certified,
    WayThrough::HeldSettled,
    WayThrough::Held,
    WayThrough::HeldRest,
    WayThrough::HeldAsleep,
];

// Whether a walk stops where time would pass next.
fn stops_at_time(stops: WalkStops, walk: &Walk<'_>) -> bool
    ensures { stops ≡ AtTime → moves_of walk.now ≢ [] → result ≡ true }
{
    match stops {
        WalkStops::AtChoices => false,
        WalkStops::AtTime => walk.has_moved(),
    }
}

// Whether an entry may be taken: one that lets time pass may not where time has to stay.
fn may_be_taken(time_stays: bool, entry: Entry) -> bool
    ensures { result ≡ true → time_stays ≡ true → StaysAtEntry entry }
{
    match entry {
        Entry::Advance(_) => !time_stays,
        _ => true,
    }
}

// Takes the only entry, where there is one, the run has room for it, and it lets no time pass if time has to stay. Answers its transition.
fn step(
    rules: WalkRules<'_>,
    time_stays: bool,
    machine: &mut Machine<'_>,
) -> Result<Option<LooseTransition>, AllocError>
    ensures stepped { IfOk result (λ taken. IfSome taken (λ transition. HasStepped (class_in rules.entry.classes.now) rules.entry.limits machine.old transition machine.new)) }
    ensures time { IfOk result (λ taken. IfSome taken (λ transition. time_stays ≡ true → StaysInTime transition)) }
    ensures stays { IfOk result (λ taken. taken ≡ None → machine.new ≡ record machine.old { made = machine.new.made }) }
    ensures code { machine.new.code ≡ machine.old.code }
{
    if machine.state().entries() >= u64::from(rules.limits.max_entries) {
        return Ok(None);
    }
    let named = match only_entry(rules.limits, machine, rules.classes) {
        Some(named) => named,
        None => return Ok(None),
    };
    if !may_be_taken(time_stays, named.entry) {
        return Ok(None);
    }
    match machine.take(named.entry) {
        Ok(()) => Ok(Some(named.transition)),
        Err(fault) => {
            not_taken(fault)?;
            Ok(None)
        }
    }
}

// Goes on by the only entry, or else by the first of the ways through what is active that stands for all and for which the run has room.
// Answers whether it did.
fn go_on<'d>(
    scope: WalkScope<'_>,
    room: &mut LooseRoom,
    walk: &mut Walk<'d>,
    machine: &mut Machine<'d>,
) -> Result<bool, AllocError>
    requires network { IsNetworkOf machine.old.code scope.network.now }
    requires code { AreOfCode machine.old.code machine.old walk.old }
    ensures on { OnOk result (WalkGoesOn (class_in scope.entry.rules.classes.now) scope.entry.rules.limits machine.old walk.old machine.new walk.new) }
    ensures time { OnOk result (scope.entry.rules.stops ≡ AtTime → StillPassesTimeFirst walk.old walk.new) }
    ensures code { AreOfCode machine.old.code machine.new walk.new }
{
    let time_stays = stops_at_time(scope.rules.stops, walk);
    match step(scope.rules, time_stays, machine)? {
        Some(transition) => {
            walk.since.push(transition)?;
            return Ok(true);
        }
        None => {}
    }
    room.forget_held();
    for way in WAYS {
        if go_by(scope, room, walk, machine, way)? {
            return Ok(true);
        }
    }
    Ok(false)
}

// Goes on so many times, or as long as it can.
fn go_far<'d>(
    scope: WalkScope<'_>,
    room: &mut LooseRoom,
    most: usize,
    walk: &mut Walk<'d>,
    machine: &mut Machine<'d>,
) -> Result<(), AllocError>
    requires network { IsNetworkOf machine.old.code scope.network.now }
    requires code { AreOfCode machine.old.code machine.old walk.old }
    ensures on { OnOk result (WalkGoesOn (class_in scope.entry.rules.classes.now) scope.entry.rules.limits machine.old walk.old machine.new walk.new) }
    ensures time { OnOk result (scope.entry.rules.stops ≡ AtTime → StillPassesTimeFirst walk.old walk.new) }
    ensures code { AreOfCode machine.old.code machine.new walk.new }
{
    for _ in 0..most {
        if !go_on(scope, room, walk, machine)? {
            return Ok(());
        }
    }
    Ok(())
}

/// Goes on from where a machine stands as long as one way stands for all loose runs, and never past the most entries: for some hundred
/// steps at most, or as many as what is pending, if that is more. By its rules it may have to stop before time passes, too, unless that is
/// its first move. Answers the transitions of the entries that the machine took. The room is kept for the next walk.
pub fn walk_loosely(
    alloc: Global,
    analyzed_design: &AnalyzedDesign<'_>,
    rules: WalkRules<'_>,
    room: &mut LooseRoom,
    machine: &mut Machine<'_>,
) -> Result<Vec<LooseTransition>, AllocError>
    requires silent { machine.old.lines ≡ [] }
    requires code { machine.old.code ≡ analyzed_design.now }
    requires reached { IsLikeReached (class_in rules.classes.now) (design_of machine.old.code) (state_at machine.old) }
    ensures walked { IfOk result (λ moves. HasWalkedLoosely (class_in rules.entry.classes.now) rules.entry.limits (state_at machine.old) machine.new moves.items) }
    ensures counted { IfOk result (λ moves. HasCountedMoves rules.entry.limits machine.old.core.entries machine.new moves.items) }
    ensures time { IfOk result (λ moves. rules.entry.stops ≡ AtTime → PassesTimeFirst moves.items) }
    ensures code { machine.new.code ≡ machine.old.code }
{
    let scope = WalkScope {
        alloc,
        network: analyzed_design.network(),
        rules,
    };
    let mut walk = Walk::new(alloc);
    let most = MOST_STEPS.max(steps_for_copy(machine));
    go_far(scope, room, most, &mut walk, machine)?;
    walk.into_moves()
}
