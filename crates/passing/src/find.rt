//! Which registers are tracked, and which moves steps of others make of them. What is found is tested, and so no clause says what it is.
use crate::moves::TrackedMoves;
use crate::outputs::HeldOutputs;
use certificates::note::StepNote;
use combinational::{is_among, share};
use design::{Control, RegId};
use settling::{Sleeper, inputs_at, outputs_at};
use std::alloc::{AllocError, Global};

// Appends a register that isn't there yet.
fn add(registers: &mut Vec<RegId>, register: RegId) -> Result<(), AllocError> {
    if !is_among(registers, register) {
        registers.push(register)?;
    }
    Ok(())
}

// The registers for which sleepers wait.
fn awaited(
    alloc: Global,
    controls: &[Control],
    sleepers: &[Sleeper],
) -> Result<Vec<RegId>, AllocError> {
    let mut registers = Vec::new(alloc);
    for sleeper in sleepers {
        if let Some(control) = controls.get(sleeper.control) {
            for trigger in control.triggers() {
                add(&mut registers, trigger.1)?;
            }
        }
    }
    Ok(registers)
}

// Adds the inputs of each held process whose outputs are in the cone, and among these registers.
fn add_inputs(held: HeldOutputs<'_>, registers: &mut Vec<RegId>) -> Result<(), AllocError> {
    for process in held.members {
        let outputs = outputs_at(held.network, *process);
        if share(outputs, registers) && share(outputs, held.cone) {
            for input in inputs_at(held.network, *process) {
                add(registers, *input)?;
            }
        }
    }
    Ok(())
}

// The registers that are tracked: those for which sleepers wait, and those from which their values come while processes are held.
fn tracked(
    alloc: Global,
    controls: &[Control],
    held: HeldOutputs<'_>,
    sleepers: &[Sleeper],
) -> Result<Vec<RegId>, AllocError> {
    let mut registers = awaited(alloc, controls, sleepers)?;
    for _ in 0..held.members.len() {
        let before = registers.len();
        add_inputs(held, &mut registers)?;
        if registers.len() == before {
            return Ok(registers);
        }
    }
    Ok(registers)
}

/// The moves that steps of others make of the registers that are tracked. None where they are too many.
pub(crate) fn moves_of(
    alloc: Global,
    controls: &[Control],
    held: HeldOutputs<'_>,
    sleepers: &[Sleeper],
    notes: &[StepNote],
) -> Result<Option<TrackedMoves>, AllocError> {
    let mut moves = TrackedMoves {
        tracked: tracked(alloc, controls, held, sleepers)?,
        list: Vec::new(alloc),
    };
    for note in notes {
        for change in note.changes.as_slice() {
            if !moves.add(*change)? {
                return Ok(None);
            }
        }
    }
    Ok(Some(moves))
}
