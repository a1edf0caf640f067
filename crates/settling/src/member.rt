//! Whether a process is combinational, and pending or waits, or has settled, and where it goes on.
ghost use Rattle.std.specs.Prelude.{◌≡◌, ◌≢◌, ◌≤◌, ℕ, true, false, Some, None, [], ◌∷◌, map, slice_get, IfOk, IfSome};
ghost use Rattle.model.specs.Turns.{contains};
ghost use Rattle.model.specs.Laws.{evaluations_in};
ghost use Rattle.design.specs.Compiled.{design_of};
ghost use Rattle.combinational.specs.declared.block.Logic.{Logic as Found};
ghost use Rattle.combinational.specs.Found.{IsNetworkOf};
ghost use Rattle.regions.specs.Machine.{state_at};
ghost use Rattle.regions.specs.Queue.{evaluation_event};
ghost use Rattle.settling.specs.Settling.{IsMember, AreMembers, IsMemberAt, IsPendingOrSettled, IsPlaceBehind};
ghost use Rattle.settling.specs.LogicStanding.{IsContinuedAt, StandsBehind, HasUnchangingTurn, StandsAs};

use crate::consistent::leaves_values;
use combinational::{Logic, Network, is_among};
use design::ProcState;
use regions::{Continuation, Evaluation, Machine, turn_on};
use std::alloc::{AllocError, Global};
use std::collections::VecDeque;
use turn::{FillFault, TurnLog};

/// The logic of a process, where it has some.
pub(crate) fn logic_at(network: &Network, process: u32) -> Option<&Logic>
    ensures found { IfSome result (λ logic. slice_get network.now.logics.items process ≡ Some (Some logic.now)) }
    ensures none { result ≡ None → (logic : Found) → slice_get network.now.logics.items process ≢ Some (Some logic) }
{
    if process as usize >= network.logics.len() {
        return None;
    }
    match &network.logics[process as usize] {
        Some(logic) => Some(logic),
        None => None,
    }
}

// 1 where an event evaluates a process, and 0 where it doesn't.
fn one_if(evaluation: Evaluation, process: u32) -> usize
    ensures times { result ≡ evaluations_in process (evaluation_event evaluation ∷ []) }
    ensures few { result ≤ 1 }
{
    if evaluation.process == process { 1 } else { 0 }
}

// How many of these events evaluate a process.
fn times(evaluations: &VecDeque<Evaluation>, process: u32) -> usize
    ensures { result ≡ evaluations_in process (map evaluation_event evaluations.now.items) }
{
    let mut times = 0;
    for at in 0..evaluations.len() {
        let evaluation = evaluations[at];
        times += one_if(evaluation, process);
    }
    times
}

// Whether a process goes on behind the wait of this logic.
fn is_behind(continuation: &Continuation, logic: &Logic) -> bool
    ensures { result ≡ true → StandsBehind continuation.now logic.now }
{
    continuation.state.place == logic.place && continuation.state.pending.is_none()
}

// Whether a process is pending or waits as this logic does, where it goes on so.
fn stands_as(
    machine: &Machine<'_>,
    logic: &Logic,
    process: u32,
    continuation: &Continuation,
) -> bool
    ensures { result ≡ true → StandsAs (state_at machine.now) process logic.now.control continuation.now.waits }
{
    let times = times(machine.state().active().1, process);
    match continuation.waits {
        None => times == 1,
        Some(control) => {
            if control != logic.control {
                return false;
            }
            times == 0
        }
    }
}

// Where a process goes on that is combinational, and pending or waits. None where it isn't.
fn member_at(machine: &Machine<'_>, network: &Network, process: u32) -> Option<Continuation>
    requires found { IsNetworkOf machine.now.code network.now }
    ensures { IfSome result (λ continuation. IsMemberAt machine.now.code machine.now.core (state_at machine.now) network.now process continuation) }
{
    let logic = logic_at(network, process)?;
    let continuation = *machine.state().processes().get(process as usize)?;
    if !is_behind(&continuation, logic) {
        return None;
    }
    machine.stands();
    if !stands_as(machine, logic, process, &continuation) {
        return None;
    }
    Some(continuation)
}

/// The place from which a process with logic goes on behind its wait, where it goes on there.
pub fn place_behind(machine: &Machine<'_>, network: &Network, process: u32) -> Option<ProcState>
    ensures { IfSome result (λ place. IsPlaceBehind machine.now.code network.now process place) }
{
    let own = logic_at(network, process)?;
    let continuation = *machine.state().processes().get(process as usize)?;
    if !is_behind(&continuation, own) {
        return None;
    }
    machine.stands();
    Some(continuation.state)
}

/// Whether no evaluation of a process is active.
pub(crate) fn is_idle(machine: &Machine<'_>, process: u32) -> bool
    ensures { result ≡ true → evaluations_in process (state_at machine.now).active ≡ 0 }
{
    times(machine.state().active().1, process) == 0
}

/// Whether a process is combinational, and pending or waits.
pub(crate) fn is_member(machine: &Machine<'_>, network: &Network, process: u32) -> bool
    requires found { IsNetworkOf machine.now.code network.now }
    ensures { result ≡ true → IsMember machine.now.code (state_at machine.now) network.now process }
{
    member_at(machine, network, process).is_some()
}

/// Whether each of these processes is.
pub(crate) fn are_members(machine: &Machine<'_>, network: &Network, members: &[u32]) -> bool
    requires found { IsNetworkOf machine.now.code network.now }
    ensures { result ≡ true → AreMembers machine.now.code (state_at machine.now) network.now members.now }
{
    for member in members {
        if !is_member(machine, network, *member) {
            return false;
        }
    }
    true
}

// Whether the turn of a process that goes on here would leave every value as it is. It is asked for a process that has no active
// evaluation, so that the machine doesn't evaluate it.
fn is_consistent(
    log: &mut TurnLog,
    machine: &Machine<'_>,
    place: &ProcState,
) -> Result<bool, AllocError>
    ensures { IfOk result (λ consistent. consistent ≡ true → (p : ℕ) → IsContinuedAt machine.now.core p place.now → HasUnchangingTurn (design_of machine.now.code) (state_at machine.now) p) }
{
    machine.stands();
    match turn_on(
        log,
        machine.design(),
        place,
        machine.time(),
        machine.store(),
    ) {
        Ok(()) => Ok(leaves_values(machine.store(), log.writes())),
        Err(FillFault::TooLong) => Ok(false),
        Err(FillFault::Memory) => Err(AllocError),
    }
}

/// Whether a process is combinational, and pending or settled. Where its turn has to be evaluated, that is done into the log.
pub(crate) fn is_pending_or_settled(
    log: &mut TurnLog,
    machine: &Machine<'_>,
    network: &Network,
    process: u32,
) -> Result<bool, AllocError>
    requires found { IsNetworkOf machine.now.code network.now }
    ensures { IfOk result (λ settled. settled ≡ true → IsPendingOrSettled machine.now.code (state_at machine.now) network.now process) }
{
    let continuation = match member_at(machine, network, process) {
        Some(continuation) => continuation,
        None => return Ok(false),
    };
    if continuation.waits.is_none() {
        return Ok(true);
    }
    is_consistent(log, machine, &continuation.state)
}

/// Whether each of these evaluations is of one of these processes.
pub(crate) fn are_inside(evaluations: &VecDeque<Evaluation>, members: &[u32]) -> bool
    ensures { result ≡ true → (p : ℕ) → contains members.now p ≡ false → evaluations_in p (map evaluation_event evaluations.now.items) ≡ 0 }
{
    for at in 0..evaluations.len() {
        let evaluation = evaluations[at];
        if !is_among(members, evaluation.process) {
            return false;
        }
    }
    true
}
