//! What is kept of where a machine stands, by which is told later which processes have settled since.
ghost use Rattle.std.specs.Prelude.{◌≡◌, map, IfOk};
ghost use Rattle.settling.specs.Settled.{IsBeginOf};

use regions::{Evaluation, Machine, PlainStore};
use std::alloc::{AllocError, Global};
use std::collections::VecDeque;

/// What is kept of where a machine stood: the values of the registers, and the processes that were evaluated.
#[derive(Drop)]
pub struct Begin {
    pub(crate) values: PlainStore,
    pub(crate) pending: Vec<u32>,
}

/// The processes of evaluations, in their order.
pub fn evaluated_processes(
    alloc: Global,
    evaluations: &VecDeque<Evaluation>,
) -> Result<Vec<u32>, AllocError>
    ensures { IfOk result (λ processes. processes.items ≡ map (λ e. e.process) evaluations.now.items) }
{
    let mut processes = Vec::new(alloc);
    for at in 0..evaluations.len() {
        let evaluation = evaluations[at];
        processes.push(evaluation.process)?;
    }
    Ok(processes)
}

impl Begin {
    /// Where a machine stands.
    pub fn of(alloc: Global, machine: &Machine<'_>) -> Result<Begin, AllocError>
        ensures { IfOk result (λ begin. IsBeginOf machine.now begin) }
    {
        machine.stands();
        let (_, evaluations) = machine.state().active();
        let pending = evaluated_processes(alloc, evaluations)?;
        let values = machine.store().copy(alloc)?;
        Ok(Begin { values, pending })
    }

    /// The values of the registers there.
    pub fn values(&self) -> &PlainStore
        ensures { result.now ≡ self.now.values }
    {
        &self.values
    }
}
