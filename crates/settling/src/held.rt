//! Which combinational processes may be held while others go on, and which of them have settled.
ghost use Rattle.std.specs.Prelude.{◌≡◌, true, map, IfOk, IfSome};
ghost use Rattle.orders.specs.Alike.{updates_in};
ghost use Rattle.combinational.specs.Found.{IsNetworkOf};
ghost use Rattle.regions.specs.Machine.{state_at};
ghost use Rattle.settling.specs.Settling.{IsMember, AreMembers, ArePendingOrSettled, AreSomeOf, HaveOutputs, MayBeHeld};

use crate::awaited::{others_sleep, others_wait_at_edges};
use crate::member::{is_member, is_pending_or_settled};
use crate::phase::{is_over, outputs_at, outputs_of, updated};
use combinational::{Network, share};
use design::RegId;
use regions::Machine;
use std::alloc::{AllocError, Global};
use turn::TurnLog;

// Those of these processes that are combinational, and pending or settled. The turn of each that waits is evaluated for that, into the log.
fn settled_among(
    log: &mut TurnLog,
    alloc: Global,
    machine: &Machine<'_>,
    network: &Network,
    among: &[u32],
) -> Result<Vec<u32>, AllocError>
    requires found { IsNetworkOf machine.now.code network.now }
    ensures { IfOk result (λ settled. ArePendingOrSettled machine.now.code (state_at machine.now) network.now settled.items) }
{
    let mut settled = Vec::new(alloc);
    for process in among {
        if is_pending_or_settled(log, machine, network, *process)? {
            settled.push(*process)?;
        }
    }
    Ok(settled)
}

/// Those of these processes that are combinational, and pending or settled. The turn of each that waits is evaluated for that.
pub fn settled_of(
    alloc: Global,
    machine: &Machine<'_>,
    network: &Network,
    among: &[u32],
) -> Result<Vec<u32>, AllocError>
    requires found { IsNetworkOf machine.now.code network.now }
    ensures { IfOk result (λ settled. ArePendingOrSettled machine.now.code (state_at machine.now) network.now settled.items) }
{
    let mut log = TurnLog::new(alloc);
    let settled = settled_among(&mut log, alloc, machine, network, among);
    drop(log);
    settled
}

// Whether a process is combinational, and pending or waits, and none of its outputs is among these registers.
fn is_candidate(machine: &Machine<'_>, network: &Network, registers: &[RegId], process: u32) -> bool
    requires found { IsNetworkOf machine.now.code network.now }
    ensures { result ≡ true → IsMember machine.now.code (state_at machine.now) network.now process }
{
    if share(outputs_at(network, process), registers) {
        return false;
    }
    is_member(machine, network, process)
}

// Those of these processes that are.
fn candidates(
    alloc: Global,
    machine: &Machine<'_>,
    network: &Network,
    registers: &[RegId],
    among: &[u32],
) -> Result<Vec<u32>, AllocError>
    requires found { IsNetworkOf machine.now.code network.now }
    ensures each { IfOk result (λ members. AreMembers machine.now.code (state_at machine.now) network.now members.items) }
    ensures subset { IfOk result (λ members. AreSomeOf members.items among.now) }
{
    let mut members = Vec::new(alloc);
    for process in among {
        if is_candidate(machine, network, registers, *process) {
            members.push(*process)?;
        }
    }
    Ok(members)
}

/// For which outputs of members others may wait: for none, or for some at their edges alone, which then have to sleep.
#[derive(Clone, Copy, PartialEq, Eq)]
pub enum Awaited {
    Never,
    AtEdges,
}

// Whether each process but these members waits for none of these registers, or for edges of them alone if it may.
fn others_let(
    machine: &Machine<'_>,
    members: &[u32],
    registers: &[RegId],
    awaited: Awaited,
) -> bool {
    let controls = machine.design().event_controls();
    let processes = machine.state().processes();
    match awaited {
        Awaited::Never => others_sleep(controls, processes, members, registers),
        Awaited::AtEdges => others_wait_at_edges(controls, processes, members, registers),
    }
}

// Those of these processes for whose outputs nobody else waits, but at edges if they may.
fn unawaited(
    alloc: Global,
    machine: &Machine<'_>,
    network: &Network,
    members: &[u32],
    awaited: Awaited,
) -> Result<Vec<u32>, AllocError>
    ensures { IfOk result (λ fewer. AreSomeOf fewer.items members.now) }
{
    let mut fewer = Vec::new(alloc);
    for member in members {
        if others_let(machine, members, outputs_at(network, *member), awaited) {
            fewer.push(*member)?;
        }
    }
    Ok(fewer)
}

// These processes without those for whose outputs others wait, and without those for whose outputs these wait, and so on.
fn kept(
    alloc: Global,
    machine: &Machine<'_>,
    network: &Network,
    members: Vec<u32>,
    awaited: Awaited,
) -> Result<Vec<u32>, AllocError>
    ensures { IfOk result (λ fewer. AreSomeOf fewer.items members.items) }
{
    let mut members = members;
    for _ in 0..members.len() {
        let fewer = unawaited(alloc, machine, network, &members, awaited)?;
        if fewer.len() == members.len() {
            return Ok(fewer);
        }
        members = fewer;
    }
    Ok(members)
}

// Whether members with these outputs may be held where these registers are updated.
fn may_be_held(
    machine: &Machine<'_>,
    network: &Network,
    members: &[u32],
    outputs: &[RegId],
    registers: &[RegId],
) -> bool
    requires found { IsNetworkOf machine.now.code network.now }
    requires each { AreMembers machine.now.code (state_at machine.now) network.now members.now }
    requires outputs { HaveOutputs network.now members.now outputs.now }
    requires registers { registers.now ≡ map (λ u. u.0) (updates_in (state_at machine.now).active) }
    ensures { result ≡ true → MayBeHeld machine.now.code (state_at machine.now) network.now members.now }
{
    if is_over(machine) {
        return false;
    }
    if share(registers, outputs) {
        return false;
    }
    true
}

/// Those of these processes that may be held in the state of a machine while the others go on: as many as are found for whose outputs nobody
/// else waits, or at edges alone if that may be. None where that isn't told.
pub fn held_of(
    alloc: Global,
    machine: &Machine<'_>,
    network: &Network,
    among: &[u32],
    awaited: Awaited,
) -> Result<Option<Vec<u32>>, AllocError>
    requires found { IsNetworkOf machine.now.code network.now }
    ensures may { IfOk result (λ found. IfSome found (λ members. MayBeHeld machine.now.code (state_at machine.now) network.now members.items)) }
    ensures subset { IfOk result (λ found. IfSome found (λ members. AreSomeOf members.items among.now)) }
{
    let (updates, _) = machine.state().active();
    let registers = updated(alloc, updates)?;
    let members = candidates(alloc, machine, network, &registers, among)?;
    let members = kept(alloc, machine, network, members, awaited)?;
    let outputs = outputs_of(alloc, network, &members)?;
    if !may_be_held(machine, network, &members, &outputs, &registers) {
        return Ok(None);
    }
    Ok(Some(members))
}
