//! All workers of a run: they are gathered, started, joined and taken apart.
ghost use Rattle.std.specs.Prelude.{◌≡◌, ◌+◌, ◌<◌, ◌∷◌, map, length, IfOk};
ghost use Rattle.std.specs.List.{AllByRecursion};
ghost use Rattle.std.specs.Thread.{IsSend, IsSync};
ghost use Rattle.design.specs.contracts.design.Design as design_rows;
ghost use Rattle.workers.specs.WorkerInvariant.{AreDone, AreDealtRoundRobin, IsDoneWorker, IsFixed};

use crate::fault::SimFault;
use crate::probe::Probe;
use crate::worker::{RunContext, Worker, work};
use commitgate::{Naming, Seat, Ticket};
use design::Design;
use eventpool::{Owner, Thief};
use std::alloc::{AllocError, Global};
use std::snapshot::Snapshot;
use std::sync::Wait;
use std::thread;
use std::thread::{Promise, Threads};

// What the thread of a worker promises: it works up to its end.
#[derive(Drop)]
struct ComesToEnd<K: Naming>(Snapshot<Worker<K>>);

impl<K: Naming> Promise<Worker<K>> for ComesToEnd<K> {
    ghost use Rattle.workers.specs.WorkerInvariant.{IsDoneWorker};

    ghost kept_by = { λ p r. IsDoneWorker K.named p.0.value r };
}

/// Puts the first tickets into the deques: that of a process goes to the worker with its number, round and round.
pub fn place<T: Drop>(owners: &mut Vec<Owner<T>>, tickets: Vec<T>) -> Result<(), SimFault>
    requires { 0 < length owners.old.items }
    ensures fixed { IsFixed owners.old.items owners.new.items }
    ensures placed { IfOk result (λ _. AreDealtRoundRobin owners.old.items tickets.items owners.new.items) }
{
    let workers = owners.len();
    let mut next = 0;
    for ticket in tickets {
        let Ok(()) = owners[next].put(ticket) else {
            return Err(SimFault::Memory);
        };
        next = if next + 1 < workers { next + 1 } else { 0 };
    }
    Ok(())
}

/// A worker for each seat, with its ends of the deques.
pub fn gather<K: Naming>(
    alloc: Global,
    seats: Vec<Seat<K>>,
    owners: Vec<Owner<Ticket<K>>>,
    rows: Vec<Vec<Thief<Ticket<K>>>>,
) -> Result<Vec<Worker<K>>, AllocError>
    requires owners { length owners.items ≡ length seats.items }
    requires rows { length rows.items ≡ length seats.items }
    ensures seats { IfOk result (λ w. map (λ x. x.seat) w.items ≡ seats.items) }
    ensures owners { IfOk result (λ w. map (λ x. x.owner) w.items ≡ owners.items) }
    ensures rows { IfOk result (λ w. map (λ x. x.row) w.items ≡ rows.items) }
    ensures none { IfOk result (λ w. AllByRecursion (λ x. x.evaluations ≡ 0) w.items) }
{
    let mut workers = Vec::new(alloc);
    let mut ends = owners.into_iter();
    let mut thieves = rows.into_iter();
    for seat in seats {
        let Some(owner) = ends.next() else {
            unreachable!()
        };
        let Some(row) = thieves.next() else {
            unreachable!()
        };
        workers.push(Worker {
            seat,
            owner,
            row,
            evaluations: 0,
        })?;
    }
    Ok(workers)
}

// That threads may share a type, as contracts say it.
fn is_shared<T: Sync>()
    ensures { IsSync T.row }
{}

// That threads may share a design. The proof that they may share a gate goes through a design as a whole. A function of its
// own leaves little in scope for the search that finds this.
fn design_is_shared()
    ensures { IsSync design_rows.the_row }
{
    is_shared::<Design>();
}

/// Starts a worker in a thread of its own for each but the first, which works here, and joins them all, in order. Where one
/// can't be started the run is stopped.
pub fn work_all<K: Naming + Send + Sync, P: Probe, R: Threads + Wait + Sync>(
    run: &RunContext<'_, '_, K, P, R>,
    own: Worker<K>,
    others: Vec<Worker<K>>,
) -> Result<Vec<Worker<K>>, SimFault>
    requires { run.now.design.now ≡ K.named.code }
    ensures { IfOk result (λ left. AreDone K.named (own ∷ others.items) left.items) }
{
    design_is_shared();
    thread::scope(
        thread::scope_env(),
        run.rt,
        move |scope| -> Result<Vec<Worker<K>>, SimFault>
            requires run { run.now.design.now ≡ K.named.code }
            requires design { IsSync design_rows.the_row }
            requires runtime { IsSync R.row }
            requires probe { IsSync P.row }
            requires name { IsSend K.row }
            ensures { IfOk result (λ left. AreDone K.named (own ∷ others.items) left.items) }
        {
            let mut handles = Vec::with_capacity(run.alloc, others.len())?;
            let mut left = Vec::with_capacity(run.alloc, 16)?;
            for worker in others {
                let promise = ComesToEnd(Snapshot::of(&worker));
                match scope.spawn_with(
                    promise,
                    move || -> Worker<K>
                        requires { run.now.design.now ≡ K.named.code }
                        ensures { IsDoneWorker K.named worker result }
                    { work(run, worker) },
                ) {
                    Ok(handle) => handles.push(handle)?,
                    Err(_) => {
                        let mut own = own;
                        run.gate.stop(run.rt, &mut own.seat);
                        return Err(SimFault::NoWorker);
                    }
                }
            }
            left.push(work(run, own))?;
            for handle in handles {
                left.push(handle.join(run.rt))?;
            }
            Ok(left)
        },
    )
}
