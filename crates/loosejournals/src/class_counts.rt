//! Updates that were taken ahead of a loose run, counted by class.

use std::alloc::{AllocError, Global};

/// How many updates of each class were taken that the loose run has yet to take, each at the place of its class. None is above zero where
/// `all` is zero.
#[derive(Drop)]
pub(crate) struct ClassCounts {
    counts: Vec<u32>,
    all: u64,
}

impl ClassCounts {
    /// None of any class.
    pub(crate) fn new(alloc: Global) -> ClassCounts {
        ClassCounts {
            counts: Vec::new(alloc),
            all: 0,
        }
    }

    // How many there are of a class.
    fn of(&self, class: u32) -> u32 {
        match self.counts.get(class as usize) {
            Some(count) => *count,
            None => 0,
        }
    }

    // Sets how many there are of a class that has a place.
    fn set(&mut self, class: u32, count: u32) {
        if let Some(place) = self.counts.get_mut(class as usize) {
            *place = count;
        }
    }

    /// One more of a class.
    pub(crate) fn add(&mut self, class: u32) -> Result<(), AllocError> {
        let places = class as usize + 1;
        if self.counts.len() < places {
            self.counts.resize(places, 0)?;
        }
        let count = self.of(class).saturating_add(1);
        self.set(class, count);
        self.all = self.all.saturating_add(1);
        Ok(())
    }

    /// One less of a class, where there is one. The answer is whether there was.
    pub(crate) fn take(&mut self, class: u32) -> bool {
        let count = self.of(class);
        if count == 0 {
            return false;
        }
        self.set(class, count.saturating_sub(1));
        self.all = self.all.saturating_sub(1);
        true
    }

    /// None of any class any more. Mostly the loose run took all of them, and then there is nothing to do.
    pub(crate) fn clear(&mut self) {
        if self.all != 0 {
            self.counts.clear();
            self.all = 0;
        }
    }
}
