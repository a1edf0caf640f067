//! Sets of steps.

use std::alloc::{AllocError, Global};

/// Some of the steps behind one of a segment, by how far behind it each stands, a bit for each.
#[derive(Drop)]
pub struct StepSet {
    words: Vec<u64>,
}

impl StepSet {
    /// None of so many steps.
    pub(crate) fn new(alloc: Global, steps: usize) -> Result<StepSet, AllocError> {
        let words = vec![in alloc; 0_u64; steps / 64 + 1]?;
        Ok(StepSet { words })
    }

    /// Puts a step into the set, if it is one of those.
    pub(crate) fn insert(&mut self, step: usize) {
        let word = step / 64;
        if word < self.words.len() {
            self.words[word] = self.words[word] | (1_u64 << (step % 64));
        }
    }

    /// Whether a step is in the set.
    pub fn contains(&self, step: usize) -> bool {
        match self.words.get(step / 64) {
            Some(word) => (*word >> (step % 64)) & 1 == 1,
            None => false,
        }
    }

    /// How many steps are in the set.
    pub(crate) fn count(&self) -> usize {
        let mut count: usize = 0;
        for word in self.words.iter() {
            count = count.saturating_add(word.count_ones() as usize);
        }
        count
    }
}
