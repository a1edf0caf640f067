//! The processes that changes wake, and what processes wait for.
ghost use Rattle.std.specs.Prelude.{◌≡◌, ◌<◌, ℕ, [], ◌∷◌, ◌++◌, map, length, if◌then◌else◌, Option, None, OnOk};
ghost use Rattle.certificates.specs.Changes.{register_change_of};
ghost use Rattle.footprints.specs.Footprints.{matches_any, woken_by_changes, awaited_by_all};
ghost use Rattle.heldmoves.specs.WithoutHeld.{without_held};
ghost use Rattle.model.specs.Turns.{contains};
ghost use Rattle.noted.specs.NotedSteps.{KeepWidths, awaited_at, unless_among};
ghost use Rattle.regions.specs.Machine.{state_at};
ghost use Rattle.regions.specs.ProcessWaking.{triggers_at};

use certificates::changes::{Changes, NotedChange};
use certificates::numbers::MaskedNumbers;
use certificates::triggers::Triggers;
use design::{Control, Trigger};
use logic4::bits::Bits;
use regions::Machine;
use std::alloc::AllocError;

// Whether an event control waits for one of these changes (9.7.2).
fn is_met(control: &Control, changes: &[NotedChange]) -> bool
    requires { KeepWidths (map register_change_of changes.now) }
    ensures { result ≡ matches_any control.now (map register_change_of changes.now) }
{
    for change in changes {
        let edge = Bits::edge(change.before, change.after);
        if control.is_woken(change.register, edge) {
            return true;
        }
    }
    false
}

// Whether somebody who waits at an event control, or at none, waits for one of these changes.
fn is_woken(controls: &[Control], waits: Option<usize>, changes: &Changes) -> bool
    requires { KeepWidths changes.now }
    ensures { result ≡ matches_any (triggers_at controls.now waits) changes.now }
{
    match waits {
        Some(number) => match controls.get(number) {
            Some(control) => is_met(control, changes.as_slice()),
            None => false,
        },
        None => false,
    }
}

// Whether a process is one of these.
fn is_one(held: &[u32], process: u32) -> bool
    ensures { result ≡ contains held.now process }
{
    held.iter().any(|other| *other == process)
}

// The event control at which a process waits, where these are held: they wait at none.
fn waits_beside(held: &[u32], process: u32, waits: Option<usize>) -> Option<usize>
    ensures { result ≡ unless_among held.now process waits }
{
    if is_one(held, process) {
        return None;
    }
    waits
}

// The number of the process at a place.
fn number_at(machine: &Machine<'_>, place: usize) -> u32
    requires { place < length machine.now.core.processes }
    ensures { result ≡ place }
{
    // Each of them is one of the design's, and those are few.
    machine.stands();
    let _few = machine.design().processes();
    place as u32
}

// Notes a process where it is woken.
fn note_where(woken: &mut MaskedNumbers, process: u32, is_woken: bool) -> Result<(), AllocError>
    ensures { OnOk result (woken.new ≡ woken.old ++ (if is_woken then process ∷ [] else [])) }
{
    if is_woken {
        return woken.push(process);
    }
    Ok(())
}

/// Notes the processes that changes wake, but for those that are held.
pub(crate) fn note_woken(
    woken: &mut MaskedNumbers,
    machine: &Machine<'_>,
    held: &[u32],
    changes: &Changes,
) -> Result<(), AllocError>
    requires { KeepWidths changes.now }
    ensures { OnOk result (woken.new ≡ woken.old ++ woken_by_changes changes.now (without_held (contains held.now) (state_at machine.now)).processes) }
{
    // Turns that only make nonblocking assignments change nothing.
    if changes.as_slice().is_empty() {
        return Ok(());
    }
    let controls = machine.state().controls();
    let processes = machine.state().processes();
    for place in 0..processes.len() {
        let process = number_at(machine, place);
        let waits = waits_beside(held, process, processes[place].waits);
        note_where(woken, process, is_woken(controls, waits, changes))?;
    }
    Ok(())
}

/// Notes events that are waited for.
pub(crate) fn note_events(list: &mut Triggers, events: &[Trigger]) -> Result<(), AllocError>
    ensures { OnOk result (list.new ≡ list.old ++ events.now) }
{
    for event in events {
        list.push(*event)?;
    }
    Ok(())
}

// Notes the events for which is waited at an event control, if there is one.
fn note_control(
    list: &mut Triggers,
    controls: &[Control],
    waits: Option<usize>,
) -> Result<(), AllocError>
    ensures { OnOk result (list.new ≡ list.old ++ triggers_at controls.now waits) }
{
    match waits {
        Some(number) => match controls.get(number) {
            Some(control) => note_events(list, control.triggers()),
            None => Ok(()),
        },
        None => Ok(()),
    }
}

// The event control at which the process with a number waits, if it waits at one.
fn control_of(machine: &Machine<'_>, process: u32) -> Option<usize>
    ensures { triggers_at machine.now.core.controls result ≡ awaited_at (state_at machine.now).processes process }
{
    match machine.state().processes().get(process as usize) {
        Some(continuation) => continuation.waits,
        None => None,
    }
}

// The same, but for a process that is held: it waits at none.
fn control_beside(machine: &Machine<'_>, held: &[u32], process: u32) -> Option<usize>
    ensures { triggers_at machine.now.core.controls result ≡ awaited_at (without_held (contains held.now) (state_at machine.now)).processes process }
{
    waits_beside(held, process, control_of(machine, process))
}

/// Notes what the processes with these numbers wait for, but for those that are held.
pub(crate) fn note_ended(
    list: &mut Triggers,
    machine: &Machine<'_>,
    held: &[u32],
    processes: &[u32],
) -> Result<(), AllocError>
    ensures { OnOk result (list.new ≡ list.old ++ awaited_by_all (without_held (contains held.now) (state_at machine.now)).processes processes.now) }
{
    let controls = machine.state().controls();
    for process in processes {
        note_control(list, controls, control_beside(machine, held, *process))?;
    }
    Ok(())
}
