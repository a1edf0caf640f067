//! What the workers of a run had, taken apart.
ghost use Rattle.std.specs.Prelude.{◌≡◌, [], map, IfOk};

use crate::fault::SimFault;
use crate::worker::Worker;
use commitgate::{Naming, Seat, Ticket};
use eventpool::{Owner, Thief};
use std::alloc::{AllocError, Global};

/// What the workers of a run had, each kind together.
#[derive(Drop)]
pub struct LeftByWorkers<K: Naming> {
    pub seats: Vec<Seat<K>>,
    pub owners: Vec<Owner<Ticket<K>>>,
    pub rows: Vec<Vec<Thief<Ticket<K>>>>,
    pub evaluations: Vec<u64>,
}

impl<K: Naming> LeftByWorkers<K> {
    /// Nothing yet, with room for so many workers.
    pub fn with_room(alloc: Global, workers: usize) -> Result<LeftByWorkers<K>, AllocError>
        ensures { IfOk result (λ a. (a.seats.items ≡ []) × (a.owners.items ≡ []) × (a.rows.items ≡ []) × (a.evaluations.items ≡ [])) }
    {
        let seats = Vec::with_capacity(alloc, workers)?;
        let owners = Vec::with_capacity(alloc, workers)?;
        let rows = Vec::with_capacity(alloc, workers)?;
        let evaluations = Vec::with_capacity(alloc, workers)?;
        Ok(LeftByWorkers {
            seats,
            owners,
            rows,
            evaluations,
        })
    }

    /// Takes workers apart, in order.
    pub fn filled(self, workers: Vec<Worker<K>>) -> Result<LeftByWorkers<K>, SimFault>
        requires { (self.seats.items ≡ []) × (self.owners.items ≡ []) × (self.rows.items ≡ []) × (self.evaluations.items ≡ []) }
        ensures seats { IfOk result (λ a. a.seats.items ≡ map (λ w. w.seat) workers.items) }
        ensures owners { IfOk result (λ a. a.owners.items ≡ map (λ w. w.owner) workers.items) }
        ensures rows { IfOk result (λ a. a.rows.items ≡ map (λ w. w.row) workers.items) }
        ensures evaluations { IfOk result (λ a. a.evaluations.items ≡ map (λ w. w.evaluations) workers.items) }
    {
        let LeftByWorkers {
            mut seats,
            mut owners,
            mut rows,
            mut evaluations,
        } = self;
        for worker in workers {
            let Worker {
                seat,
                owner,
                row,
                evaluations: count,
            } = worker;
            seats.push(seat)?;
            owners.push(owner)?;
            rows.push(row)?;
            evaluations.push(count)?;
        }
        Ok(LeftByWorkers {
            seats,
            owners,
            rows,
            evaluations,
        })
    }
}
