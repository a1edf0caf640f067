//! The workers of a run: where their tickets go, how they are started, what each of them does, and when it ends.
//!
//! 1. The first ticket of a process goes into the deque of one of the workers, by the process's number; each worker but the
//!    first is started in a thread of its own (`team`).
//! 2. A worker takes a ticket from its own deque or steals one from another's, evaluates its turn without the lock, and
//!    commits it; a turn that was refused three times is evaluated under the lock. New tickets, and one that was refused
//!    as stale, go into the worker's own deque (`deques`). Where there is no ticket it asks the gate for an update. Where
//!    none is active it looks for a ticket for some microseconds more, and then asks for a change of the regions, for which
//!    it may have to wait (`worker`).
//! 3. Where a worker's turns are short, it takes tickets only while no other such worker does, since they would only meet at
//!    the lock (`throttle`). It evaluates several of them, one after another, and commits them in one holding of the lock, as long
//!    as none of them makes another stale (`batch`).
//! 4. A worker ends where no event is left or the run is stopped (`next_round`); want of memory stops it. What the workers had is
//!    taken apart (`left_by_workers`).
#![tactic(auto)]

mod batch;
mod deques;
mod fault;
mod left_by_workers;
mod next_round;
mod probe;
mod reads;
mod team;
mod throttle;
mod worker;

pub use fault::SimFault;
pub use left_by_workers::LeftByWorkers;
pub use probe::{Probe, ReplyKind, Unobserved};
pub use team::{gather, place, work_all};
pub use throttle::Admission;
pub use worker::{RunContext, Worker};
