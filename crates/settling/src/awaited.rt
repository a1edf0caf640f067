//! Whether processes wait for registers.
ghost use Rattle.std.specs.Prelude.{◌≡◌, ◌<◌, true, false, length, slice_index_or};
ghost use Rattle.model.specs.Turns.{contains};
ghost use Rattle.regions.specs.declared.queue.Continuation.{Continuation as Continuationed};
ghost use Rattle.regions.specs.ProcessWaking.{triggers_at};
ghost use Rattle.settling.specs.Waiting.{WaitsForNone, OthersSleep};

use combinational::is_among;
use design::{Control, RegId};
use model::tree::Change;
use regions::Continuation;

// Whether an event control waits for none of these registers.
fn waits_for_none(control: &Control, registers: &[RegId]) -> bool
    ensures { result ≡ true → WaitsForNone control.now registers.now }
{
    let triggers = control.triggers();
    for trigger in triggers {
        if is_among(registers, trigger.1) {
            return false;
        }
    }
    true
}

// Whether whoever waits at an event control, or at none, waits for none of these registers.
fn sleeps(controls: &[Control], waits: Option<usize>, registers: &[RegId]) -> bool
    ensures { result ≡ true → WaitsForNone (triggers_at controls.now waits) registers.now }
{
    match waits {
        Some(number) => match controls.get(number) {
            Some(control) => waits_for_none(control, registers),
            None => false,
        },
        None => true,
    }
}

/// Whether the process at a place is among these.
pub(crate) fn is_one(members: &[u32], place: usize) -> bool
    ensures { result ≡ contains members.now place }
{
    members.iter().any(|member| *member as usize == place)
}

// Whether the process at a place is one of these, or waits for none of the registers.
fn sleeps_at(
    controls: &[Control],
    processes: &[Continuation],
    members: &[u32],
    registers: &[RegId],
    place: usize,
) -> bool
    requires { place < length processes.now }
    ensures { result ≡ true → (d : Continuationed) → contains members.now place ≡ false → WaitsForNone (triggers_at controls.now (slice_index_or processes.now place d).waits) registers.now }
{
    if is_one(members, place) {
        return true;
    }
    sleeps(controls, processes[place].waits, registers)
}

/// Whether each process but these waits for none of the registers.
pub(crate) fn others_sleep(
    controls: &[Control],
    processes: &[Continuation],
    members: &[u32],
    registers: &[RegId],
) -> bool
    ensures { result ≡ true → OthersSleep controls.now processes.now members.now registers.now }
{
    for at in 0..processes.len() {
        if !sleeps_at(controls, processes, members, registers, at) {
            return false;
        }
    }
    true
}

/// Whether an event control waits for one of these registers.
pub(crate) fn waits_for_any(control: &Control, registers: &[RegId]) -> bool {
    registers
        .iter()
        .any(|register| control.waits_for(*register))
}

// Whether an event control waits for edges alone of those of these registers for which it waits (9.7.2).
fn waits_for_edges(control: &Control, registers: &[RegId]) -> bool {
    for trigger in control.triggers() {
        if trigger.0 == Change::Any && is_among(registers, trigger.1) {
            return false;
        }
    }
    true
}

// Whether whoever waits at an event control, or at none, waits for none of these registers, or for edges of them alone.
fn lets(controls: &[Control], waits: Option<usize>, registers: &[RegId]) -> bool {
    match waits {
        Some(number) => match controls.get(number) {
            Some(control) => waits_for_edges(control, registers),
            None => false,
        },
        None => true,
    }
}

/// Whether each process but these waits for none of the registers, or for edges of them alone (9.7.2).
pub(crate) fn others_wait_at_edges(
    controls: &[Control],
    processes: &[Continuation],
    members: &[u32],
    registers: &[RegId],
) -> bool {
    for at in 0..processes.len() {
        if !is_one(members, at) && !lets(controls, processes[at].waits, registers) {
            return false;
        }
    }
    true
}
