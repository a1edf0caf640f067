//! What is held keeps its outputs to itself: the registers that what is pending of it may still change, whether steps of others keep off
//! these, and which of the held processes they meet.
ghost use Rattle.std.specs.Prelude.{◌≡◌, ℕ, not, true, IfOk};
ghost use Rattle.std.specs.List.{All, list_any};
ghost use Rattle.model.specs.Turns.{contains};
ghost use Rattle.certificates.specs.Masks.{registers_of};
ghost use Rattle.loosewalks.specs.Held.{HasConeAt, NoteKeepsOff, KeptOff};

use certificates::changes::NotedChange;
use certificates::note::StepNote;
use certificates::triggers::Triggers;
use combinational::{Network, is_among, share};
use design::RegId;
use settling::{inputs_at, is_any_outside, outputs_at, outputs_of};
use std::alloc::{AllocError, Global};

// Appends what isn't there yet.
fn add_all(registers: &mut Vec<RegId>, others: &[RegId]) -> Result<(), AllocError> {
    for register in others {
        if !is_among(registers, *register) {
            registers.push(*register)?;
        }
    }
    Ok(())
}

// The registers that steps change.
fn touched_by(alloc: Global, notes: &[StepNote]) -> Result<Vec<RegId>, AllocError> {
    let mut registers = Vec::new(alloc);
    for note in notes {
        for change in note.changes.as_slice() {
            add_all(&mut registers, &[change.register])?;
        }
    }
    Ok(registers)
}

// Whether a process is pending, or waits for a register that is touched, or for one in a cone.
fn is_moved(
    network: &Network,
    pending: &[u32],
    touched: &[RegId],
    cone: &[RegId],
    process: u32,
) -> bool {
    let inputs = inputs_at(network, process);
    is_among(pending, process) || share(inputs, touched) || share(inputs, cone)
}

// The outputs of each process that is moved, where some registers are in the cone already.
fn cone_on(
    network: &Network,
    held: &[u32],
    pending: &[u32],
    touched: &[RegId],
    cone: &mut Vec<RegId>,
) -> Result<(), AllocError> {
    for process in held {
        if is_moved(network, pending, touched, cone, *process) {
            add_all(cone, outputs_at(network, *process))?;
        }
    }
    Ok(())
}

// The outputs of the processes that are pending, or wait for a register that is touched, or for such an output.
fn cone_of(
    alloc: Global,
    network: &Network,
    held: &[u32],
    pending: &[u32],
    touched: &[RegId],
) -> Result<Vec<RegId>, AllocError> {
    let mut cone = Vec::new(alloc);
    for _ in 0..held.len() {
        let before = cone.len();
        cone_on(network, held, pending, touched, &mut cone)?;
        if cone.len() == before {
            return Ok(cone);
        }
    }
    Ok(cone)
}

// Whether a process has its outputs in a cone, or isn't moved.
fn has_cone_at(
    network: &Network,
    pending: &[u32],
    touched: &[RegId],
    cone: &[RegId],
    process: u32,
) -> bool
    ensures { result ≡ true → HasConeAt network.now pending.now touched.now cone.now process }
{
    let outputs = outputs_at(network, process);
    if !is_any_outside(outputs, cone) {
        return true;
    }
    if is_among(pending, process) {
        return false;
    }
    let inputs = inputs_at(network, process);
    if share(inputs, touched) {
        return false;
    }
    if share(inputs, cone) {
        return false;
    }
    true
}

// Whether each of these processes has its outputs in a cone, or isn't moved.
fn has_cone(
    network: &Network,
    held: &[u32],
    pending: &[u32],
    touched: &[RegId],
    cone: &[RegId],
) -> bool
    ensures { result ≡ true → (p : ℕ) → contains held.now p ≡ true → HasConeAt network.now pending.now touched.now cone.now p }
{
    for process in held {
        if !has_cone_at(network, pending, touched, cone, *process) {
            return false;
        }
    }
    true
}

// Whether one of these events is of one of these registers.
fn is_any_awaited(awaits: &Triggers, registers: &[RegId]) -> bool
    ensures { result ≡ list_any (λ q. contains (registers_of awaits.now) q) registers.now }
{
    registers.iter().any(|register| awaits.are_on(*register))
}

// Whether one of these changes is of none of these registers.
fn is_any_change_outside(changes: &[NotedChange], registers: &[RegId]) -> bool
    ensures { result ≡ list_any (λ c. not (contains registers.now c.register)) changes.now }
{
    changes
        .iter()
        .any(|change| !is_among(registers, change.register))
}

// Whether a step keeps off these outputs: it uses none that is in a cone, writes none, doesn't go on to wait for one, and doesn't finish;
// and whether it changes no register but these that are touched.
fn note_keeps_off(note: &StepNote, outputs: &[RegId], cone: &[RegId], touched: &[RegId]) -> bool
    ensures { result ≡ true → NoteKeepsOff outputs.now cone.now touched.now note.now }
{
    if note.finishes {
        return false;
    }
    if share(note.uses.as_slice(), cone) {
        return false;
    }
    if share(note.writes.as_slice(), outputs) {
        return false;
    }
    if is_any_awaited(&note.awaits, outputs) {
        return false;
    }
    if is_any_change_outside(note.changes.as_slice(), touched) {
        return false;
    }
    true
}

// Whether each of these steps does.
fn notes_keep_off(notes: &[StepNote], outputs: &[RegId], cone: &[RegId], touched: &[RegId]) -> bool
    ensures { result ≡ true → All (NoteKeepsOff outputs.now cone.now touched.now) notes.now }
{
    for place in 0..notes.len() {
        if !note_keeps_off(&notes[place], outputs, cone, touched) {
            return false;
        }
    }
    true
}

/// What steps of others change, and the registers that held processes may still change meanwhile.
#[derive(Drop)]
pub(crate) struct HeldCone {
    pub(crate) touched: Vec<RegId>,
    pub(crate) registers: Vec<RegId>,
}

/// What steps of others change, and what processes that are held may still change, of which some were pending at the begin.
pub(crate) fn cone_beside(
    alloc: Global,
    network: &Network,
    held: &[u32],
    pending: &[u32],
    notes: &[StepNote],
) -> Result<HeldCone, AllocError> {
    let touched = touched_by(alloc, notes)?;
    let registers = cone_of(alloc, network, held, pending, &touched)?;
    Ok(HeldCone { touched, registers })
}

/// Whether steps of others keep off processes that are held, of which some were pending at the begin, with this cone.
pub(crate) fn keep_off(
    alloc: Global,
    network: &Network,
    held: &[u32],
    pending: &[u32],
    cone: &HeldCone,
    notes: &[StepNote],
) -> Result<bool, AllocError>
    ensures { IfOk result (λ off. off ≡ true → KeptOff network.now held.now pending.now cone.now.touched.items cone.now.registers.items notes.now) }
{
    let outputs = outputs_of(alloc, network, held)?;
    if !has_cone(network, held, pending, &cone.touched, &cone.registers) {
        return Ok(false);
    }
    Ok(notes_keep_off(notes, &outputs, &cone.registers, &cone.touched))
}

// Whether a step uses one of these outputs that is in a cone, writes one, or goes on to wait for one.
fn meets(note: &StepNote, outputs: &[RegId], cone: &[RegId]) -> bool {
    if share(note.writes.as_slice(), outputs) || is_any_awaited(&note.awaits, outputs) {
        return true;
    }
    let uses = note.uses.as_slice();
    outputs.iter().any(|register| is_among(cone, *register) && is_among(uses, *register))
}

// Whether one of these steps does.
fn is_met(notes: &[StepNote], outputs: &[RegId], cone: &[RegId]) -> bool {
    for note in notes {
        if meets(note, outputs, cone) {
            return true;
        }
    }
    false
}

/// Those of the processes that are held which no step of others meets, where one meets another of them; and none where no step meets one. A
/// way while they alone are held may stand for all. That is tried, and so no clause says which they are.
pub(crate) fn unmet_by(
    alloc: Global,
    network: &Network,
    held: &[u32],
    cone: &HeldCone,
    notes: &[StepNote],
) -> Result<Vec<u32>, AllocError> {
    let mut unmet = Vec::new(alloc);
    for process in held {
        if !is_met(notes, outputs_at(network, *process), &cone.registers) {
            unmet.push(*process)?;
        }
    }
    if unmet.len() == held.len() {
        unmet.clear();
    }
    Ok(unmet)
}
