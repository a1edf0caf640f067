//! Memory of which a call that is made again and again gets more each time.

use crate::claims::{fail, holds};
use hoard::Hoard;
use std::alloc::Global;
use std::process::Abort;

/// How much more memory a call gets each time, and how often at most.
const STEP: usize = 48;

const ROOMS: usize = 512;

/// The bytes of a piece of memory.
const PIECE: usize = 32 << 10;

/// All memory is held but what such a call gets: so many steps of so many bytes.
#[derive(Drop)]
pub struct Scarce {
    pub alloc: Global,
    pub steps: usize,
    step: usize,
    hoard: Hoard,
}

impl Scarce {
    /// Takes all memory but so many pieces, of so many bytes each.
    pub fn new(rt: &impl Abort, alloc: Global, step: usize, pieces: usize, piece: usize) -> Scarce {
        Scarce {
            alloc,
            steps: 0,
            step,
            hoard: Hoard::new(alloc, pieces, piece).expect(rt, "memory"),
        }
    }

    /// Leaves the steps that the call gets, and nothing that was given back before.
    pub fn leave(&mut self, rt: &impl Abort) {
        self.hoard.shut();
        let is_left = self.hoard.leave(self.steps.saturating_mul(self.step));
        holds(rt, is_left, "a piece of memory");
    }

    /// Leaves a whole piece more.
    pub fn open(&mut self, rt: &impl Abort) {
        holds(rt, self.hoard.open(), "a piece of memory");
    }

    /// Room for so many bytes, before memory is left to the call.
    pub fn room(&mut self, rt: &impl Abort, bytes: usize) -> Vec<u8> {
        self.open(rt);
        Vec::with_capacity(self.alloc, bytes).expect(rt, "memory")
    }
}

/// A call that may be refused memory.
pub trait ScarceCall {
    /// Whether it is done in so much memory. If not, it tells of memory.
    fn is_done(&self, rt: &impl Abort, memory: &mut Scarce) -> bool;
}

/// A call gets more and more memory, of which there is too little at first.
pub fn assert_done(rt: &impl Abort, alloc: Global, call: &impl ScarceCall) {
    let mut memory = Scarce::new(rt, alloc, STEP, 3 * ROOMS, PIECE);
    for count in 0..ROOMS {
        memory.steps = count;
        if call.is_done(rt, &mut memory) {
            holds(rt, count > 0, "memory was refused");
            return;
        }
    }
    fail(rt, "never done");
}
