// All memory but some pieces is held. A hoard leaves as much of them as was asked for.

use crate::claims::holds;
use hoard::{Hoard, LARGEST_PIECE};
use std::alloc::Global;
use std::process::Abort;

/// Takes all memory but so many pieces, of so many bytes each.
pub fn take_all(rt: &impl Abort, alloc: Global, pieces: usize, piece: usize) -> Hoard {
    Hoard::new(alloc, pieces, piece).expect(rt, "memory")
}

/// Takes what was given back before, and leaves so many bytes.
pub fn leave(rt: &impl Abort, hoard: &mut Hoard, bytes: usize) {
    hoard.shut();
    holds(rt, hoard.leave(bytes), "a piece of memory");
}

/// Leaves a whole piece more.
pub fn open(rt: &impl Abort, hoard: &mut Hoard) {
    holds(rt, hoard.open(), "a piece of memory");
}

// The most bytes that can be had in one piece, in steps of 16.
fn most(alloc: Global) -> usize {
    for count in 0..=LARGEST_PIECE / 16 {
        let size = LARGEST_PIECE - 16 * count;
        if Vec::<u8>::with_capacity(alloc, size).is_ok() {
            return size;
        }
    }
    0
}

// About so many bytes can be had, where they are left, and none before and after that.
fn assert_left(rt: &impl Abort, alloc: Global, hoard: &mut Hoard, room: usize) {
    holds(rt, most(alloc) == 0, "nothing is left before");
    holds(rt, hoard.leave(room), "a piece");
    let found = most(alloc);
    holds(rt, found <= room, "too many bytes");
    holds(rt, room <= found.saturating_add(64), "too few bytes");
    hoard.shut();
}

// Nothing can be had where all pieces are taken but one, then that one, and then no more.
fn assert_shut(rt: &impl Abort, alloc: Global, hoard: &mut Hoard) {
    holds(rt, most(alloc) == 0, "nothing is left");
    holds(rt, hoard.open(), "the last piece");
    holds(rt, most(alloc) == LARGEST_PIECE, "a whole piece");
    holds(rt, !hoard.open(), "all pieces are gone");
}

#[test]
fn leaves_what_it_says(rt: HostRuntime) {
    let mut hoard = take_all(&rt, rt.alloc(), 5, LARGEST_PIECE);
    for room in [1536, 4096, 61440, 2048] {
        assert_left(&rt, rt.alloc(), &mut hoard, room);
    }
    assert_shut(&rt, rt.alloc(), &mut hoard);
}
