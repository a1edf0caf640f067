//! Whether the state of a machine is a phase.
ghost use Rattle.std.specs.Prelude.{◌≡◌, true, false, not, map, Some, slice_get, IfOk, IfSome};
ghost use Rattle.std.specs.List.{list_any};
ghost use Rattle.model.specs.Turns.{contains};
ghost use Rattle.orders.specs.Alike.{updates_in};
ghost use Rattle.combinational.specs.Found.{IsNetworkOf};
ghost use Rattle.combinational.specs.declared.block.Logic.{Logic as Found};
ghost use Rattle.regions.specs.Machine.{state_at};
ghost use Rattle.regions.specs.Queue.{update_event};
ghost use Rattle.settling.specs.Settling.{HaveOutputs, IsPhaseOf};

use crate::awaited::others_sleep;
use crate::member::{are_inside, are_members, logic_at};
use crate::reached::reached;
use combinational::{Network, is_among, share};
use design::RegId;
use regions::{Machine, Update};
use std::alloc::{AllocError, Global};
use std::collections::VecDeque;

/// The registers of updates, in order.
pub(crate) fn updated(alloc: Global, updates: &VecDeque<Update>) -> Result<Vec<RegId>, AllocError>
    ensures { IfOk result (λ registers. registers.items ≡ map (λ u. u.0) (updates_in (map update_event updates.now.items))) }
{
    let mut registers = Vec::new(alloc);
    for at in 0..updates.len() {
        let update = updates[at];
        registers.push(update.register)?;
    }
    Ok(registers)
}

/// The outputs of a process, where it has logic.
pub fn outputs_at(network: &Network, process: u32) -> &[RegId]
    ensures { (logic : Found) → slice_get network.now.logics.items process ≡ Some (Some logic) → result.now ≡ logic.outputs.items }
{
    match logic_at(network, process) {
        Some(logic) => logic.outputs.as_slice(),
        None => &[],
    }
}

/// The registers that a process waits for, where it has logic.
pub fn inputs_at(network: &Network, process: u32) -> &[RegId]
    ensures { (logic : Found) → slice_get network.now.logics.items process ≡ Some (Some logic) → result.now ≡ logic.inputs.items }
{
    match logic_at(network, process) {
        Some(logic) => logic.inputs.as_slice(),
        None => &[],
    }
}

/// The outputs of these processes.
pub fn outputs_of(
    alloc: Global,
    network: &Network,
    members: &[u32],
) -> Result<Vec<RegId>, AllocError>
    ensures { IfOk result (λ registers. HaveOutputs network.now members.now registers.items) }
{
    let mut registers = Vec::new(alloc);
    for member in members {
        registers.extend_from_slice(outputs_at(network, *member))?;
    }
    Ok(registers)
}

/// Whether one of these registers isn't among others.
pub fn is_any_outside(registers: &[RegId], others: &[RegId]) -> bool
    ensures { result ≡ list_any (λ q. not (contains others.now q)) registers.now }
{
    registers
        .iter()
        .any(|register| !is_among(others, *register))
}

/// Whether a turn met `$finish`.
pub(crate) fn is_over(machine: &Machine<'_>) -> bool
    ensures { result ≡ false → (state_at machine.now).finished ≡ false }
{
    machine.is_finished()
}

// Whether the state of a machine is a phase of these processes, where these registers are updated.
fn is_phase(
    alloc: Global,
    machine: &Machine<'_>,
    network: &Network,
    members: &[u32],
    registers: &[RegId],
) -> Result<bool, AllocError>
    requires found { IsNetworkOf machine.now.code network.now }
    requires registers { registers.now ≡ map (λ u. u.0) (updates_in (state_at machine.now).active) }
    ensures { IfOk result (λ is. is ≡ true → IsPhaseOf machine.now.code (state_at machine.now) network.now members.now) }
{
    let state = machine.state();
    let controls = machine.design().event_controls();
    let outputs = outputs_of(alloc, network, members)?;
    if is_over(machine) {
        return Ok(false);
    }
    if share(registers, &outputs) {
        return Ok(false);
    }
    if !are_inside(state.active().1, members) {
        return Ok(false);
    }
    machine.stands();
    if !others_sleep(controls, state.processes(), members, registers) {
        return Ok(false);
    }
    if !others_sleep(controls, state.processes(), members, &outputs) {
        return Ok(false);
    }
    Ok(are_members(machine, network, members))
}

/// The processes that may have a turn from the state of a machine on, where it is a phase: all that is active are updates and turns of
/// combinational processes, and nobody else waits for what these may change. None where that isn't told.
pub fn phase_of(
    alloc: Global,
    machine: &Machine<'_>,
    network: &Network,
) -> Result<Option<Vec<u32>>, AllocError>
    requires found { IsNetworkOf machine.now.code network.now }
    ensures { IfOk result (λ found. IfSome found (λ members. IsPhaseOf machine.now.code (state_at machine.now) network.now members.items)) }
{
    let state = machine.state();
    let (updates, evaluations) = state.active();
    let registers = updated(alloc, updates)?;
    let members = reached(
        alloc,
        machine.design().event_controls(),
        state.processes(),
        network,
        evaluations,
        &registers,
    )?;
    if !is_phase(alloc, machine, network, &members, &registers)? {
        return Ok(None);
    }
    Ok(Some(members))
}
