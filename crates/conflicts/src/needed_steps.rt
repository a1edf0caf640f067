//! Which steps of a segment each of them needs, itself or by another one.

use crate::segment::SegmentStep;
use std::alloc::{AllocError, Global};

/// For each step a row of bits, one for each step before it: whether it needs that.
#[derive(Drop)]
pub(crate) struct NeededSteps {
    words: Vec<u64>,
    /// How many words a row has.
    width: usize,
}

impl NeededSteps {
    /// Of no steps.
    pub(crate) fn new(alloc: Global) -> NeededSteps {
        NeededSteps {
            words: Vec::new(alloc),
            width: 0,
        }
    }

    /// Forgets what was found.
    pub(crate) fn clear(&mut self) {
        self.words.clear();
    }

    /// Finds what each of some steps needs. Where memory is refused, nothing is found.
    pub(crate) fn find(&mut self, steps: &[SegmentStep]) -> Result<(), AllocError> {
        self.words.clear();
        self.width = steps.len() / 64 + 1;
        self.words
            .resize(steps.len().saturating_mul(self.width), 0)?;
        for at in 0..steps.len() {
            self.inherit(at, steps[at].cause);
            self.inherit(at, steps[at].before);
        }
        Ok(())
    }

    // Where the row of a step begins.
    fn row(&self, step: usize) -> usize {
        step.saturating_mul(self.width)
    }

    // The word at a place, of which no bit is set where there is none.
    fn word(&self, place: usize) -> u64 {
        match self.words.get(place) {
            Some(word) => *word,
            None => 0,
        }
    }

    // Sets bits of the word at a place.
    fn set(&mut self, place: usize, bits: u64) {
        if place < self.words.len() {
            self.words[place] = self.words[place] | bits;
        }
    }

    // A step needs one before it, and what that needs.
    fn inherit(&mut self, at: usize, needed: Option<usize>) {
        let needed = match needed {
            Some(needed) if needed < at => needed,
            _ => return,
        };
        let (to, from) = (self.row(at), self.row(needed));
        for word in 0..self.width {
            let bits = self.word(from.saturating_add(word));
            self.set(to.saturating_add(word), bits);
        }
        self.set(to.saturating_add(needed / 64), 1_u64 << (needed % 64));
    }

    /// Whether a step was found to need one before it.
    pub(crate) fn has(&self, step: usize, needed: usize) -> bool {
        let word = self.word(self.row(step).saturating_add(needed / 64));
        (word >> (needed % 64)) & 1 == 1
    }
}
