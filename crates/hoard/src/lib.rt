//! All memory that a process can get, held by a test, so that what the test calls meets want of memory that is real.
//!
//! 1. `Hoard::new` sets pieces aside and then takes every address that is left, in blocks that grow as long as they can. A
//!    block that nobody writes costs no more than its first page.
//! 2. `leave` gives so many bytes back, in one piece. A test calls what it tests with more and more of them, until nothing is
//!    refused.
//! 3. `open` gives a whole piece back, for what the test does between two such calls, and `shut` takes again what is left.
//!
//! A process that holds a hoard can start no thread. No clause says that memory is refused: a test counts how often it was.
#![tactic(auto)]

use std::alloc::{AllocError, Global};

/// The largest piece. An allocator may ask the system for a larger one by itself, and give it back there.
pub const LARGEST_PIECE: usize = 64 << 10;

// The largest block that is asked for at first, and how often a block grows by its size.
const LARGEST: usize = 1 << 40;

const GROWTHS: usize = 64;

// The most blocks that are held, of all sizes.
const BLOCKS: usize = 1 << 16;

// An allocator keeps small pieces that were given back for requests of their own size, up to this one.
const SMALL: usize = 2048;

// How deep the stack is before its addresses are taken.
const DEPTH: usize = 1 << 20;

/// Every address of a process, but for what was left.
#[derive(Drop)]
pub struct Hoard {
    alloc: Global,
    blocks: Vec<Vec<u8>>,
    pieces: Vec<Vec<u8>>,
    piece: usize,
}

// Uses as much of the stack as a test may need later: a stack can't grow into addresses that are taken.
fn deepen() -> u8 {
    let deep = [1; DEPTH];
    deep[DEPTH / 2]
}

// A block of this size, grown as long as it can.
fn grown(alloc: Global, size: usize) -> Option<Vec<u8>> {
    let mut block = Vec::with_capacity(alloc, size).ok()?;
    for times in 2..=GROWTHS {
        let Ok(()) = block.reserve_exact(size.saturating_mul(times)) else {
            return Some(block);
        };
    }
    Some(block)
}

impl Hoard {
    /// Takes all memory. So many pieces of it, of so many bytes each, are there to be given back later.
    pub fn new(alloc: Global, pieces: usize, piece: usize) -> Result<Hoard, AllocError> {
        let _deep = deepen();
        let piece = piece.min(LARGEST_PIECE);
        let mut hoard = Hoard {
            alloc,
            blocks: Vec::with_capacity(alloc, BLOCKS)?,
            pieces: Vec::with_capacity(alloc, pieces)?,
            piece,
        };
        for _ in 0..pieces {
            hoard.pieces.push(Vec::with_capacity(alloc, piece)?)?;
        }
        for halves in 0..29u32 {
            hoard.grow(LARGEST >> halves);
        }
        hoard.shut();
        Ok(hoard)
    }

    // Holds a block. Says whether there was room for it.
    fn hold(&mut self, block: Vec<u8>) -> bool {
        self.blocks.len() < self.blocks.capacity() && self.blocks.push(block).is_ok()
    }

    // Takes blocks that begin with this size, as long as there are any.
    fn grow(&mut self, size: usize) {
        for _ in 0..BLOCKS {
            let Some(block) = grown(self.alloc, size) else {
                return;
            };
            if !self.hold(block) {
                return;
            }
        }
    }

    // Takes blocks of this size, as long as there are any.
    fn take(&mut self, size: usize) {
        for _ in 0..BLOCKS {
            let Ok(block) = Vec::with_capacity(self.alloc, size) else {
                return;
            };
            if !self.hold(block) {
                return;
            }
        }
    }

    /// Takes all that was given back.
    pub fn shut(&mut self) {
        for halves in 0..5u32 {
            self.take(LARGEST_PIECE >> halves);
        }
        for count in 0..SMALL / 8 {
            self.take(SMALL - 8 * count);
        }
    }

    /// Leaves so many bytes more, in one piece. Says whether that could be done, which takes one of the pieces.
    pub fn leave(&mut self, room: usize) -> bool {
        let is_open = self.open();
        match Vec::with_capacity(self.alloc, self.piece.saturating_sub(room)) {
            Ok(block) => is_open && self.hold(block),
            Err(_) => false,
        }
    }

    /// Leaves a whole piece more. Says whether there was one.
    pub fn open(&mut self) -> bool {
        self.pieces.pop().is_some()
    }
}
