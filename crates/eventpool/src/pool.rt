//! The pool: one deque a worker, and for each worker the thieves of all others.
ghost use Rattle.std.specs.Prelude.{◌≡◌, ℕ, ◌+◌, ◌-◌, ◌<◌, ◌≤◌, List, [], length, map, sum_by, IfOk, Some, slice_get};
ghost use Rattle.eventpool.specs.Pools.{around, end_histories_back, IsPool, IsUnused, AllDealt};
ghost use Rattle.eventpool.specs.Making.{IsBegunPool, IsArmed};
ghost use Rattle.eventpool.specs.Ends.{Owning, Stealing};

use crate::ends::{Owner, Thief};
use crate::tally::Tally;
use std::alloc::{AllocError, Global};
use std::marker::Model;

/// Makes pools.
pub struct Pool;

// The number of the deque that a number names, counting round from n on.
fn around(n: usize, x: usize) -> usize
    requires { x < n + n }
    ensures { result ≡ around n x }
{
    if x < n { x } else { x - n }
}

// Takes back all thieves, the last names first.
fn gather<T: Drop>(owners: &mut Vec<Owner<T>>, rows: &mut Vec<Vec<Thief<T>>>)
    requires { IsPool owners.old.items rows.old.items }
    ensures long { length owners.new.items ≡ length owners.old.items }
    ensures back { (d : ℕ) (o : Owning T) → slice_get owners.old.items d ≡ Some o → slice_get owners.new.items d ≡ Some (record o { back = end_histories_back rows.old.items (length owners.old.items) d (length owners.old.items - 1) }) }
{
    let n = owners.len();
    for done in 0..n - 1 {
        for w in 0..n {
            let d = around(n, w + (n - 1 - done));
            let Some(thief) = rows[w].pop() else {
                unreachable!()
            };
            owners[d].receive(thief);
        }
    }
}

// The owners and the rows of a pool, with no thief.
fn begin<T: Drop>(
    alloc: Global,
    workers: usize,
) -> Result<(Vec<Owner<T>>, Vec<Vec<Thief<T>>>), AllocError>
    ensures { IfOk result (λ p. IsBegunPool workers p.0.items p.1.items) }
{
    let mut owners = Vec::new(alloc);
    let mut rows = Vec::new(alloc);
    for made in 0..workers {
        let owner = Owner::<T>::new(alloc)?;
        owners.push(owner)?;
        rows.push(Vec::new(alloc))?;
    }
    Ok((owners, rows))
}

// Gives each worker the thieves of all others.
fn arm<T: Drop>(
    alloc: Global,
    workers: usize,
) -> Result<(Vec<Owner<T>>, Vec<Vec<Thief<T>>>), AllocError>
    requires { (0 < workers) × (workers ≤ 16) }
    ensures { IfOk result (λ p. IsArmed workers (workers - 1) 0 p.0.items p.1.items) }
{
    let (mut owners, mut rows) = begin::<T>(alloc, workers)?;
    for made in 0..workers - 1 {
        for w in 0..workers {
            let d = around(workers, w + (made + 1));
            let thief = owners[d].thief()?;
            rows[w].push(thief)?;
        }
    }
    Ok((owners, rows))
}

impl Pool {
    /// One FIFO deque a worker, and for each worker the thieves of all others, rising from its own number and round. There
    /// are 1 to 16 workers.
    pub fn new<T: Drop>(
        alloc: Global,
        workers: usize,
    ) -> Result<(Vec<Owner<T>>, Vec<Vec<Thief<T>>>), AllocError>
        requires { (0 < workers) × (workers ≤ 16) }
        ensures pool { IfOk result (λ p. IsPool p.0.items p.1.items) }
        ensures workers { IfOk result (λ p. length p.0.items ≡ workers) }
        ensures unused { IfOk result (λ p. IsUnused p.0.items p.1.items) }
    {
        arm::<T>(alloc, workers)
    }
}

/// Takes all ends of a pool back. Of each deque one trail has every ticket that left. These are the first of those that were
/// put, in order, and each went to one end, once. The others are left in the deque, in order, and are dropped. It takes no memory.
pub fn close<T: Drop>(mut owners: Vec<Owner<T>>, mut thieves: Vec<Vec<Thief<T>>>) -> Tally
    requires { IsPool owners.items thieves.items }
    ensures dealt { (left : List (List T)) × (result.left ≡ sum_by length left) × AllDealt owners.items thieves.items left }
    ensures puts { result.puts ≡ sum_by (λ o. length o.put) owners.items }
    ensures takes { result.takes ≡ sum_by (λ o. length o.taken) owners.items }
    ensures steals { result.steals ≡ sum_by (λ row. sum_by (λ t. length t.stolen) row.items) thieves.items }
    ensures all { result.puts ≡ result.takes + result.steals + result.left }
{
    gather(&mut owners, &mut thieves);
    let mut puts = 0u128;
    let mut takes = 0u128;
    let mut steals = 0u128;
    let mut left = 0u128;
    for d in 0..owners.len() {
        let one = owners[d].settle();
        puts += u128::from(one.puts);
        takes += u128::from(one.takes);
        steals += u128::from(one.steals);
        left += u128::from(one.left);
    }
    Tally::new(puts, takes, steals, left)
}
