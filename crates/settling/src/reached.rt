//! The processes that may have a turn before all that is active has settled.
use crate::phase::outputs_at;
use combinational::Network;
use design::{Control, RegId};
use regions::{Continuation, Evaluation};
use std::alloc::{AllocError, Global};
use std::collections::VecDeque;

/// Processes that were reached, each once, with a mark for each, and one for each register that may change.
#[derive(Drop)]
struct ReachedProcesses {
    processes: Vec<u32>,
    are_reached: Vec<bool>,
    may_change: Vec<bool>,
}

// Whether there is a mark at a place.
fn is_marked(marks: &[bool], place: usize) -> bool {
    match marks.get(place) {
        Some(mark) => *mark,
        None => false,
    }
}

// Marks a place.
fn mark(marks: &mut Vec<bool>, place: usize) -> Result<(), AllocError> {
    let count = place.saturating_add(1);
    if marks.len() < count {
        marks.resize(count, false)?;
    }
    if let Some(mark) = marks.get_mut(place) {
        *mark = true;
    }
    Ok(())
}

// Marks the place of each of these registers.
fn mark_all(marks: &mut Vec<bool>, registers: &[RegId]) -> Result<(), AllocError> {
    for register in registers {
        mark(marks, *register as usize)?;
    }
    Ok(())
}

// Whether a process waits for a register that is marked.
fn waits_for_marked(controls: &[Control], continuation: &Continuation, marks: &[bool]) -> bool {
    match continuation.waits {
        Some(number) => match controls.get(number) {
            Some(control) => control
                .triggers()
                .iter()
                .any(|trigger| is_marked(marks, trigger.1 as usize)),
            None => false,
        },
        None => false,
    }
}

impl ReachedProcesses {
    // Adds a process, unless it is there, and marks what it may change.
    fn add(&mut self, network: &Network, process: u32) -> Result<(), AllocError> {
        if is_marked(&self.are_reached, process as usize) {
            return Ok(());
        }
        mark(&mut self.are_reached, process as usize)?;
        mark_all(&mut self.may_change, outputs_at(network, process))?;
        self.processes.push(process)?;
        Ok(())
    }

    // Adds the processes that wait for what may change.
    fn add_waiting(
        &mut self,
        controls: &[Control],
        continuations: &[Continuation],
        network: &Network,
    ) -> Result<(), AllocError> {
        let mut process = 0u32;
        for continuation in continuations {
            if waits_for_marked(controls, continuation, &self.may_change) {
                self.add(network, process)?;
            }
            process = process.saturating_add(1);
        }
        Ok(())
    }
}

/// The processes that may have a turn before all that is active has settled, each once: those that are evaluated, those that wait for one
/// of these registers, and those that wait for an output of such a process.
pub(crate) fn reached(
    alloc: Global,
    controls: &[Control],
    continuations: &[Continuation],
    network: &Network,
    evaluations: &VecDeque<Evaluation>,
    registers: &[RegId],
) -> Result<Vec<u32>, AllocError> {
    let mut reached = ReachedProcesses {
        processes: Vec::new(alloc),
        are_reached: Vec::new(alloc),
        may_change: Vec::new(alloc),
    };
    mark_all(&mut reached.may_change, registers)?;
    for at in 0..evaluations.len() {
        let evaluation = evaluations[at];
        reached.add(network, evaluation.process)?;
    }
    for _ in 0..continuations.len() {
        let count = reached.processes.len();
        reached.add_waiting(controls, continuations, network)?;
        if reached.processes.len() == count {
            return Ok(reached.processes);
        }
    }
    Ok(reached.processes)
}
