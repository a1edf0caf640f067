//! Who made the events of a run.

use std::alloc::Global;

/// Who made an event: the process of a turn, or that of the turn that made an update, and its place in the journal.
#[derive(Clone, Copy)]
pub(crate) struct EventOrigin {
    pub(crate) process: u32,
    pub(crate) place: u32,
}

/// Who made each event.
#[derive(Drop)]
pub(crate) struct EventOrigins {
    /// The number of the first event that an entry made.
    first_made: u64,
    /// Who made it and those that follow it, in the order of their numbers.
    origins: Vec<EventOrigin>,
}

impl EventOrigins {
    /// No entry made an event yet. The first that one makes has this number.
    pub(crate) fn new(alloc: Global, first_made: u64) -> EventOrigins {
        EventOrigins {
            first_made,
            origins: Vec::new(alloc),
        }
    }

    /// Who made an event.
    pub(crate) fn of(&self, number: u64) -> Option<EventOrigin> {
        let place = number.checked_sub(self.first_made)?;
        self.origins.get(place as usize).copied()
    }

    /// The place in the journal of the entry that made an event.
    pub(crate) fn place_of(&self, number: u64) -> Option<usize> {
        match self.of(number) {
            Some(origin) => Some(origin.place as usize),
            None => None,
        }
    }

    /// Notes who made so many events more. The answer is whether that could be noted.
    pub(crate) fn add(&mut self, origin: EventOrigin, made: u64) -> bool {
        let count = (self.origins.len() as u64).saturating_add(made);
        self.origins.resize(count as usize, origin).is_ok()
    }
}
