//! The loose runs that go on from a node: one way that stands for all, or ways by parts that do, or each transition that may be taken, and
//! the ends that a run may have there.
ghost use Rattle.std.specs.Prelude.{◌≡◌, ◌↔◌, ◌<◌, [], ◌∷◌, IfOk, OnOk, IsTrue};
ghost use Rattle.model.specs.declared.end.End.{End};
ghost use Rattle.explore.specs.declared.EndedPath.{EndedPath};
ghost use Rattle.orders.specs.Alike.{IsInOrder};
ghost use Rattle.loose.specs.declared.transition.LooseTransition.{LooseTransition};
ghost use Rattle.loose.specs.declared.transition.LooseTransition.TheVariants as transitions;
ghost use Rattle.loose.specs.Classes.{class_in};
ghost use Rattle.looseruns.specs.LooseMoves.{IsTimelyMove};
ghost use Rattle.regions.specs.Machine.{state_at};
ghost use Rattle.regions.specs.declared.machine.TakeFault.TheVariants as faults;
ghost use Rattle.design.specs.Compiled.{design_of};
ghost use Rattle.loosewalks.specs.Sole.{IsLikeReached};
ghost use Rattle.loosewalks.specs.LooseWalking.{HasWalkedLoosely};
ghost use Rattle.lawful.specs.Following.{IsAdded, IsArrived, IsWayBy, TellsTurn};
ghost use Rattle.lawful.specs.LooseNodes.{AreBounded, AreLooseWaysFor, IsExpandedAt, MayGoOn};

use crate::by_parts::{follow_parts, parts_within};
use crate::node::{LooseNode, next_of};
use crate::search_room::SearchRoom;
use explore::{EndedPath, Expanded, Successor};
use loose::transition::LooseTransition;
use loosesteps::{loose_choices, take_loosely};
use loosewalks::{WalkRules, WalkStops, copy_of, walk_loosely};
use model::end::{End, Limits, Why};
use regions::{Machine, TakeFault};
use runs::halting::{end_at, is_timely};
use settling::AnalyzedDesign;
use std::alloc::{AllocError, Global};
use turn::TurnLog;

/// By what the ways from a node are followed: the classes of the registers, the limits of a run, and where walks stop.
#[derive(Clone, Copy)]
pub(crate) struct ExpandScope<'a> {
    pub(crate) alloc: Global,
    pub(crate) classes: &'a [u32],
    pub(crate) limits: Limits,
    pub(crate) stops: WalkStops,
}

/// What one transition leads to.
#[derive(Drop)]
pub(crate) enum Way<'d> {
    /// A node.
    On(Successor<LooseNode<'d>, LooseTransition>),
    /// The end of a run whose turn is too long.
    Long(EndedPath<LooseTransition, End>),
    /// Nothing, since the transition advances past the limit of time.
    Past,
}

/// What following the ways from a node has come to.
pub(crate) type LooseWays<'d> = Expanded<LooseNode<'d>, LooseTransition, End>;

// One transition alone.
fn one(alloc: Global, transition: LooseTransition) -> Result<Vec<LooseTransition>, AllocError>
    ensures { IfOk result (λ moves. moves.items ≡ transition ∷ []) }
{
    let mut moves = Vec::new(alloc);
    moves.push(transition)?;
    Ok(moves)
}

// Whether a transition is in time: no advance past the limit.
fn is_timely_move(limits: Limits, transition: LooseTransition) -> bool
    ensures { IsTrue result ↔ IsTimelyMove limits transition }
{
    match transition {
        LooseTransition::Change(entry) => is_timely(limits, entry),
        _ => true,
    }
}

// The end of a run at the turn of a process that is too long.
fn long_turn(alloc: Global, process: u32) -> EndedPath<LooseTransition, End>
    ensures { TellsTurn (transitions.Process process) result }
{
    EndedPath {
        printed: Vec::new(alloc),
        end: End::Stopped(Why::TooLong(process)),
        moves: Vec::new(alloc),
    }
}

// The end of a run at a transition that may be taken, and that wasn't taken since it is a turn that is too long. Fails where memory was
// refused to it instead.
fn long_of(
    alloc: Global,
    transition: LooseTransition,
    fault: TakeFault,
) -> Result<EndedPath<LooseTransition, End>, AllocError>
    ensures told { IfOk result (TellsTurn transition) }
    ensures long { IfOk result (λ ended. fault ≡ faults.TooLong) }
{
    match fault {
        TakeFault::TooLong => match transition {
            LooseTransition::Process(process) => Ok(long_turn(alloc, process)),
            _ => Err(AllocError),
        },
        _ => Err(AllocError),
    }
}

// Follows a transition with this machine, which is lent a log for it: each node takes just a few, and needs none of its own.
fn way_by<'d>(
    scope: ExpandScope<'_>,
    log: &mut TurnLog,
    machine: Box<Machine<'d>>,
    transition: LooseTransition,
) -> Result<Way<'d>, AllocError>
    requires order { IsInOrder (state_at machine.value) }
    requires silent { machine.value.lines ≡ [] }
    requires some_entry { 0 < scope.limits.max_entries }
    ensures { IfOk result (IsWayBy (class_in scope.entry.classes.now) machine.entry.value.code scope.entry.limits (state_at machine.entry.value) transition) }
{
    if !is_timely_move(scope.limits, transition) {
        return Ok(Way::Past);
    }
    let moves = one(scope.alloc, transition)?;
    let mut machine = machine;
    machine.exchange_log(log);
    let taken = take_loosely(&mut machine, scope.classes, transition);
    machine.exchange_log(log);
    match taken {
        Ok(()) => Ok(Way::On(next_of(scope.alloc, machine, moves))),
        Err(fault) => {
            let ended = long_of(scope.alloc, transition, fault)?;
            Ok(Way::Long(ended))
        }
    }
}

// Adds a way to those that were found.
fn add<'d>(ways: &mut LooseWays<'d>, way: Way<'d>) -> Result<(), AllocError>
    ensures { OnOk result (IsAdded way.entry ways.old.successors.items ways.old.ended.items ways.new.successors.items ways.new.ended.items) }
{
    match way {
        Way::On(next) => ways.successors.push(next)?,
        Way::Long(ended) => ways.ended.push(ended)?,
        Way::Past => {}
    }
    Ok(())
}

// Follows each of these transitions with copies of a machine.
fn follow_each<'d>(
    scope: ExpandScope<'_>,
    log: &mut TurnLog,
    machine: &Machine<'d>,
    transitions: &[LooseTransition],
) -> Result<LooseWays<'d>, AllocError>
    requires order { IsInOrder (state_at machine.now) }
    requires silent { machine.now.lines ≡ [] }
    requires some_entry { 0 < scope.limits.max_entries }
    ensures { IfOk result (λ ways. AreLooseWaysFor (class_in scope.entry.classes.now) machine.now.code scope.entry.limits (state_at machine.now) transitions.now ways.successors.items ways.ended.items) }
{
    let mut ways = Expanded {
        successors: Vec::new(scope.alloc),
        ended: Vec::new(scope.alloc),
        whole: true,
    };
    for transition in transitions {
        let copy = copy_of(scope.alloc, machine)?;
        let way = way_by(scope, log, copy, *transition)?;
        add(&mut ways, way)?;
    }
    Ok(ways)
}

// Follows each of these transitions: the last of them with the machine itself.
fn follow_all<'d>(
    scope: ExpandScope<'_>,
    log: &mut TurnLog,
    machine: Box<Machine<'d>>,
    transitions: &[LooseTransition],
) -> Result<LooseWays<'d>, AllocError>
    requires order { IsInOrder (state_at machine.value) }
    requires silent { machine.value.lines ≡ [] }
    requires some_entry { 0 < scope.limits.max_entries }
    ensures { IfOk result (λ ways. AreLooseWaysFor (class_in scope.entry.classes.now) machine.entry.value.code scope.entry.limits (state_at machine.entry.value) transitions.now ways.successors.items ways.ended.items) }
{
    match transitions.split_last() {
        Some((last, others)) => {
            let mut ways = follow_each(scope, log, &machine, others)?;
            let way = way_by(scope, log, machine, *last)?;
            add(&mut ways, way)?;
            Ok(ways)
        }
        None => follow_each(scope, log, &machine, transitions),
    }
}

// A run may have this end here, and goes on in no way.
fn halts<'d>(alloc: Global, end: End) -> Result<LooseWays<'d>, AllocError>
    ensures one { IfOk result (λ x. (ended : EndedPath LooseTransition End) × (x.ended.items ≡ ended ∷ []) × (ended.end ≡ end) × (ended.printed.items ≡ []) × (ended.moves.items ≡ [])) }
    ensures none { IfOk result (λ x. x.successors.items ≡ []) }
{
    let mut ended = Vec::new(alloc);
    ended.push(EndedPath {
        printed: Vec::new(alloc),
        end,
        moves: Vec::new(alloc),
    })?;
    Ok(Expanded {
        successors: Vec::new(alloc),
        ended,
        whole: true,
    })
}

// Follows each transition that may be taken, and none where the run has as many entries as it may have.
fn branch<'d>(
    scope: ExpandScope<'_>,
    log: &mut TurnLog,
    machine: Box<Machine<'d>>,
) -> Result<LooseWays<'d>, AllocError>
    requires { MayGoOn scope.limits machine.value }
    ensures { IfOk result (IsExpandedAt (class_in scope.entry.classes.now) machine.entry.value.code scope.entry.limits (state_at machine.entry.value)) }
{
    if machine.state().entries() >= u64::from(scope.limits.max_entries) {
        return Ok(Expanded {
            successors: Vec::new(scope.alloc),
            ended: Vec::new(scope.alloc),
            whole: false,
        });
    }
    let transitions = loose_choices(scope.alloc, &machine, scope.classes)?;
    follow_all(scope, log, machine, &transitions)
}

// Follows ways by parts from where a machine stands, where these stand for all, and else each transition that may be taken; or tells the
// end that a run has there. Ways are left out where the run has as many entries as it may have, and goes on from there: no way leads past
// that.
fn follow<'d>(
    scope: ExpandScope<'_>,
    room: &mut SearchRoom<'d>,
    machine: Box<Machine<'d>>,
) -> Result<LooseWays<'d>, AllocError>
    requires order { IsInOrder (state_at machine.value) }
    requires silent { machine.value.lines ≡ [] }
    requires bounded { AreBounded scope.limits }
    ensures { IfOk result (IsExpandedAt (class_in scope.entry.classes.now) machine.entry.value.code scope.entry.limits (state_at machine.entry.value)) }
{
    if let Some(end) = end_at(scope.limits, &machine) {
        return halts(scope.alloc, end);
    }
    match parts_within(&mut room.parts, scope.classes, scope.limits, &machine)? {
        Some(found) => follow_parts(scope.alloc, scope.classes, &mut room.log, machine, found),
        None => branch(scope, &mut room.log, machine),
    }
}

// Goes on by one node, to which the only way leads.
fn arrive<'d>(
    alloc: Global,
    machine: Box<Machine<'d>>,
    moves: Vec<LooseTransition>,
) -> Result<LooseWays<'d>, AllocError>
    ensures one { IfOk result (λ x. IsArrived machine.entry.value moves.items x.successors.items) }
    ensures none { IfOk result (λ x. x.ended.items ≡ []) }
{
    let next = next_of(alloc, machine, moves);
    let mut successors = Vec::new(alloc);
    successors.push(next)?;
    Ok(Expanded {
        successors,
        ended: Vec::new(alloc),
        whole: true,
    })
}

// Goes on from where a machine stands as long as one way stands for all, with a log that is kept. A finished one goes nowhere.
fn walk_with(
    scope: ExpandScope<'_>,
    analyzed_design: &AnalyzedDesign<'_>,
    room: &mut SearchRoom<'_>,
    machine: &mut Machine<'_>,
) -> Result<Vec<LooseTransition>, AllocError>
    requires code { machine.old.code ≡ analyzed_design.now }
    requires silent { machine.old.lines ≡ [] }
    requires reached { IsLikeReached (class_in scope.classes.now) (design_of machine.old.code) (state_at machine.old) }
    ensures walked { IfOk result (λ moves. HasWalkedLoosely (class_in scope.entry.classes.now) scope.entry.limits (state_at machine.old) machine.new moves.items) }
    ensures code { machine.new.code ≡ machine.old.code }
{
    if machine.is_finished() {
        return Ok(Vec::new(scope.alloc));
    }
    let rules = WalkRules {
        classes: scope.classes,
        limits: scope.limits,
        stops: scope.stops,
    };
    machine.exchange_log(&mut room.log);
    let walked = walk_loosely(scope.alloc, analyzed_design, rules, &mut room.walk, machine);
    machine.exchange_log(&mut room.log);
    walked
}

/// Follows each way from where a machine stands. Where one way stands for all it goes on by that, up to the next choice, or before time passes
/// where walks stop there, or for some hundred steps; else by ways of parts that are apart, where these stand for all; else it follows each
/// loose transition that may be taken. Ways are left out where the run has as many entries as it may have, and goes on from there: no way
/// leads past that.
pub(crate) fn expand<'d>(
    scope: ExpandScope<'_>,
    analyzed_design: &AnalyzedDesign<'_>,
    room: &mut SearchRoom<'d>,
    machine: Box<Machine<'d>>,
) -> Result<LooseWays<'d>, AllocError>
    requires code { machine.value.code ≡ analyzed_design.now }
    requires silent { machine.value.lines ≡ [] }
    requires reached { IsLikeReached (class_in scope.classes.now) (design_of machine.value.code) (state_at machine.value) }
    requires bounded { AreBounded scope.limits }
    ensures { IfOk result (IsExpandedAt (class_in scope.entry.classes.now) machine.entry.value.code scope.entry.limits (state_at machine.entry.value)) }
{
    let mut machine = machine;
    let moves = walk_with(scope, analyzed_design, room, &mut machine)?;
    if moves.is_empty() {
        follow(scope, room, machine)
    } else {
        arrive(scope.alloc, machine, moves)
    }
}
