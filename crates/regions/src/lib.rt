//! The state of the stratified event queue (IEEE 1364-2005, 11.3), and its one change: a step of the simulation
//! reference model (11.4).
//!
//! A `State` holds all but the values of the registers, which stand in a `Store`. `State::apply` makes the step of
//! one journal entry:
//!
//! 1. An entry that the rules don't permit is refused, for the first reason that they have.
//! 2. Room is made for all that the step may add, so that nothing can fail after the first change. Where the entry empties
//!    the monitor region, its lines are made before, by the values as they stand.
//! 3. A turn takes its evaluation out of the active region, and an update the first active update.
//! 4. Its writes are made in order. Each change of a register wakes the processes that wait for it, and their
//!    evaluations become active. Where no process waits for any of the registers, each register is stored once, by the turn change of
//!    its writes: the state after it is the same.
//! 5. The nonblocking assignments of a turn become updates, in the nonblocking region or in the future, and then the
//!    event of its own wait becomes inactive or a future event. The `$strobe` statements that it met join the monitor region.
//! 6. A change of region swaps a region into an empty one, and the monitor region is emptied. An advance takes the events of the least time
//!    off the front of the two lists of future events.
//!
//! The order of the regions stands in `region` alone. From the first region that has an event follow which change of the regions
//! comes next and is due, which entries are refused as not due, and whether any event is left.
//!
//! A `Machine` is a design with its state and a store: it evaluates the turn of an entry, applies the entry, and says which
//! entries may be next. What takes entries on one thread stands on it; the gate, which evaluates turns elsewhere, on `State::apply`.
//!
//! The layer above uses the contract of `State::apply`. After an `Ok`, the state that `State` and `Store` stand for
//! is the one to which the step of the definitions leads from the state before, and the values that each register had
//! have grown by those of its own among the step's changes. After an `Err` both are unchanged.
#![tactic(auto)]

mod apply;
mod choices;
mod copy;
mod find;
mod future;
mod machine;
mod next;
mod permit;
mod queue;
mod reader;
mod region;
mod slots;
mod state;
mod step;
mod store;
mod take;
mod waiters;

pub use choices::Choices;
pub use future::Due;
pub use machine::{Machine, TakeFault};
pub use queue::{Continuation, Evaluation, Update};
pub use reader::turn_on;
pub use region::{Region, region_of};
pub use state::{ApplyFault, Made, MadeEvent, State};
pub use store::{PlainStore, Store};
