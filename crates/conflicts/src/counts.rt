//! How often numbers were counted.

use std::alloc::{AllocError, Global};

/// How often each number was counted, by the number.
#[derive(Drop)]
pub(crate) struct OccurrenceCounts {
    counts: Vec<u32>,
}

impl OccurrenceCounts {
    /// No number was counted.
    pub(crate) fn new(alloc: Global) -> OccurrenceCounts {
        OccurrenceCounts {
            counts: Vec::new(alloc),
        }
    }

    /// A number was counted no more.
    pub(crate) fn forget(&mut self, number: usize) {
        if number < self.counts.len() {
            self.counts[number] = 0;
        }
    }

    /// How often a number was counted.
    pub(crate) fn of(&self, number: usize) -> u32 {
        match self.counts.get(number) {
            Some(count) => *count,
            None => 0,
        }
    }

    /// Counts a number once more.
    pub(crate) fn add(&mut self, number: usize) -> Result<(), AllocError> {
        if number >= self.counts.len() {
            self.counts.resize(number.saturating_add(1), 0)?;
        }
        if number < self.counts.len() {
            self.counts[number] = self.counts[number].saturating_add(1);
        }
        Ok(())
    }
}
