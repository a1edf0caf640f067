//! Processes that sleep while combinational processes are held: those that wait for outputs of these.
ghost use Rattle.std.specs.Prelude.{◌≡◌, ◌++◌, ℕ, true, false, Some, IfOk, IfSome};
ghost use Rattle.std.specs.List.{All};
ghost use Rattle.model.specs.Turns.{contains};
ghost use Rattle.model.specs.Laws.{evaluations_in};
ghost use Rattle.regions.specs.Machine.{state_at};
ghost use Rattle.settling.specs.Settling.{WaitsBy, AreSleepers, sleeping};

use crate::awaited::{others_sleep, waits_for_any};
use crate::member::is_idle;
use crate::phase::outputs_of;
use combinational::{Network, is_among};
use design::RegId;
use regions::{Continuation, Machine};
use std::alloc::{AllocError, Global};

/// A process that sleeps, and the number of the event control by which it waits.
#[derive(Clone, Copy)]
pub struct Sleeper {
    pub process: u32,
    pub control: usize,
}

// Whether a process waits by this event control.
fn waits_by(continuation: &Continuation, control: usize) -> bool
    ensures { result ≡ true → continuation.now.waits ≡ Some control }
{
    match continuation.waits {
        Some(number) => number == control,
        None => false,
    }
}

// The processes but these members that wait for one of these registers. That is tested, and so no clause says it.
fn awaiting(
    alloc: Global,
    machine: &Machine<'_>,
    members: &[u32],
    registers: &[RegId],
) -> Result<Vec<Sleeper>, AllocError> {
    let controls = machine.design().event_controls();
    let mut sleepers = Vec::new(alloc);
    let mut process = 0u32;
    for continuation in machine.state().processes() {
        if let Some(control) = continuation.waits {
            let waits = match controls.get(control) {
                Some(own) => waits_for_any(own, registers),
                None => false,
            };
            if waits && !is_among(members, process) {
                sleepers.push(Sleeper { process, control })?;
            }
        }
        process = process.saturating_add(1);
    }
    Ok(sleepers)
}

/// These members, and behind them the processes that sleep.
pub fn with_sleepers(
    alloc: Global,
    members: &[u32],
    sleepers: &[Sleeper],
) -> Result<Vec<u32>, AllocError>
    ensures { IfOk result (λ both. both.items ≡ members.now ++ sleeping sleepers.now) }
{
    let mut both = Vec::from_slice(alloc, members)?;
    for sleeper in sleepers {
        both.push(sleeper.process)?;
    }
    Ok(both)
}

// Whether a sleeper is no member, has no active evaluation, and waits by its event control.
fn is_sleeper(machine: &Machine<'_>, members: &[u32], sleeper: Sleeper) -> bool
    ensures outside { result ≡ true → contains members.now sleeper.process ≡ false }
    ensures idle { result ≡ true → evaluations_in sleeper.process (state_at machine.now).active ≡ 0 }
    ensures waits { result ≡ true → WaitsBy machine.now.code (state_at machine.now) sleeper }
{
    if is_among(members, sleeper.process) {
        return false;
    }
    if !is_idle(machine, sleeper.process) {
        return false;
    }
    machine.stands();
    match machine.state().processes().get(sleeper.process as usize) {
        Some(continuation) => waits_by(continuation, sleeper.control),
        None => false,
    }
}

// Whether each of these is a sleeper.
fn are_sleepers(machine: &Machine<'_>, members: &[u32], sleepers: &[Sleeper]) -> bool
    ensures outside { result ≡ true → (q : ℕ) → contains (sleeping sleepers.now) q ≡ true → contains members.now q ≡ false }
    ensures idle { result ≡ true → (q : ℕ) → contains (sleeping sleepers.now) q ≡ true → evaluations_in q (state_at machine.now).active ≡ 0 }
    ensures wait { result ≡ true → All (WaitsBy machine.now.code (state_at machine.now)) sleepers.now }
{
    for place in 0..sleepers.len() {
        if !is_sleeper(machine, members, sleepers[place]) {
            return false;
        }
    }
    true
}

/// The processes but these members that wait for one of their outputs, where none of them has an active evaluation. None where that isn't
/// told.
pub fn sleepers_of(
    alloc: Global,
    machine: &Machine<'_>,
    network: &Network,
    members: &[u32],
) -> Result<Option<Vec<Sleeper>>, AllocError>
    ensures { IfOk result (λ found. IfSome found (λ sleepers. AreSleepers machine.now.code (state_at machine.now) network.now members.now sleepers.items)) }
{
    let outputs = outputs_of(alloc, network, members)?;
    let sleepers = awaiting(alloc, machine, members, &outputs)?;
    let both = with_sleepers(alloc, members, &sleepers)?;
    machine.stands();
    let controls = machine.design().event_controls();
    if !others_sleep(controls, machine.state().processes(), &both, &outputs) {
        return Ok(None);
    }
    if !are_sleepers(machine, members, &sleepers) {
        return Ok(None);
    }
    Ok(Some(sleepers))
}
