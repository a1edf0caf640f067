//! The commit gate: turns are evaluated without a lock and appended under one, and whenever the lock is got the journal is
//! lawful.
//!
//! A worker that has a `Ticket`, the right to one turn, goes through the phases of optimistic concurrency control (Kung and
//! Robinson):
//!
//! 1. Read phase, without the lock. The turn is evaluated with the worker's `Seat` as its reader, which loads the cells of the
//!    registers; the log of the turn has each version that it read, and what it would write (`read_phase`, `reader`, `seat`).
//! 2. Validation, under the lock. No turn is appended to a run that is stopped or whose journal is full, or for a ticket that
//!    isn't of an active evaluation; then each version that was read is compared with the register's (`state/commit`). Where
//!    a register has changed since, the ticket comes back with one more try. After `MAX_TRIES` of them the turn is evaluated
//!    under the lock, and then it can't be stale (`state/under_lock`).
//! 3. Write phase, still under the lock. The entry is applied and appended, the seat is told of it, and each evaluation that
//!    became active gets a ticket (`state/append`, over `runstate`). A turn that is too long stops the run in its place
//!    (`state/long`).
//!
//! A worker without a ticket asks for the first active update, or for all of them in one holding of the lock
//! (`state/update`), or, where none is active, for the change of the
//! regions that is due, and waits while evaluations alone are active (`state/region`). Both read under the lock alone, so
//! there is nothing to validate.
//!
//! `blank` makes a gate and opens it under a name (`naming`), with a seat for each worker and a ticket for each process. Each
//! call of the `Gate` (`gate`) takes the lock, does one thing to the state under it and lets go; `reply` has the answers. At
//! the end the seats are given back (`state/closing`), and journal, lines and end stay as a `Closed` gate (`closed`). `laws`
//! says of the shares of workers that they are the whole journal.
#![tactic(auto)]

mod blank;
mod closed;
mod context;
mod gate;
mod laws;
mod naming;
mod read_phase;
mod reader;
mod reply;
mod seat;
mod state;
mod ticket;

pub use blank::Blank;
pub use closed::Closed;
pub use context::Context;
pub use gate::Gate;
pub use laws::shares_add_up;
pub use naming::Naming;
pub use read_phase::{ReadPhase, ReadWatch, Seating, Unwatched, evaluate};
pub use reader::SeatReader;
pub use reply::{Grant, Reply, Rest, UpdateReply, UpdatesEnd};
pub use seat::Seat;
pub use state::GateState;
pub use ticket::{MAX_TRIES, Ticket};
