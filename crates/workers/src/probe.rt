//! Who looks on while a run goes on.

use commitgate::{Naming, Ticket};
use design::RegId;

/// What the gate answered to a ticket.
#[derive(Clone, Copy, PartialEq, Eq)]
pub enum ReplyKind {
    Accepted,
    Stale,
    Gone,
    Stopped,
    NoMemory,
}

/// What the probe is told of a ticket: the number of its event, and its time.
#[derive(Clone, Copy)]
pub struct EventAt {
    pub event: u64,
    pub time: u64,
}

impl EventAt {
    // That of a ticket, noted before the ticket goes.
    pub(crate) fn of<K: Naming>(ticket: &Ticket<K>) -> EventAt {
        EventAt {
            event: ticket.event(),
            time: ticket.time(),
        }
    }
}

/// Is told what the workers do. Its calls are made without the gate's lock, by the worker that they name.
pub trait Probe: Sync {
    /// A worker begins to evaluate the turn of an event, whose ticket was refused so often as stale.
    fn evaluation(&self, worker: u32, event: u64, tries: u8);

    /// An evaluation outside the lock is about to read a register.
    fn read(&self, worker: u32, register: RegId);

    /// The gate answered to the ticket of an event.
    fn replied(&self, worker: u32, event: u64, kind: ReplyKind);

    /// A turn was accepted: the journal has so many entries now or more, and the run stood at this time.
    fn grown(&self, _worker: u32, _entries: u64, _time: u64) {}
}

/// A probe of a run on which nobody looks.
#[derive(Clone, Copy)]
pub struct Unobserved;

impl Probe for Unobserved {
    fn evaluation(&self, _worker: u32, _event: u64, _tries: u8) {}

    fn read(&self, _worker: u32, _register: RegId) {}

    fn replied(&self, _worker: u32, _event: u64, _kind: ReplyKind) {}
}
