// The cells of registers, by two threads at once. Steps of a gate, in `examples`, tell which versions they have.
ghost use Rattle.std.specs.Prelude.{◌≡◌, ◌<◌, ◌≤◌, length};

use crate::claims::holds;
use design::RegId;
use logic4::bits::Bits;
use regcells::{Holder, RegCells, RegSeat};
use std::process::Abort;
use std::sync::Wait;
use std::test::*;
use std::thread::{Threads, join, yield_now};
use turn::Seen;

// How often one thread stores, while the other reads.
const TIMES: u64 = 20_000;

// How often a thread reads before it gives up.
const LOOKS: u32 = 1_000_000;

// What is stored: the number of each version, or all ones and all zeros by turns, of which no part is a part of both.
#[derive(Clone, Copy)]
enum StoredPattern {
    Numbers,
    OnesAndZeros,
}

// The value of a version in a register's width: all ones where it is odd, and else all zeros.
fn value_at(pattern: StoredPattern, width: u32, version: u64) -> Bits
    requires some { 1 ≤ width }
    requires within { width ≤ 128 }
    ensures { length result ≡ width }
{
    match pattern {
        StoredPattern::Numbers => Bits::from_u64(width, version),
        StoredPattern::OnesAndZeros => {
            let zeros = Bits::from_u64(width, 0);
            if version % 2 == 0 { zeros } else { zeros.not() }
        }
    }
}

// Whether this is what stands: all x at first, and then the value of each version.
fn is_stored(pattern: StoredPattern, seen: &Seen) -> bool {
    let width = seen.value.width();
    if seen.version == 0 {
        return seen.value == Bits::unknown(width);
    }
    seen.value == value_at(pattern, width, seen.version)
}

// Stores the value of the next version.
fn store_next<R: Wait + Abort>(
    rt: &R,
    cells: &RegCells,
    holder: &mut Holder,
    register: RegId,
    pattern: StoredPattern,
)
    requires cells { holder.old.cells ≡ cells.now }
    requires register { register < length cells.now }
    ensures { holder.new.cells ≡ holder.old.cells }
{
    let held = cells.get_held(rt, holder, register);
    holds(rt, held.version < u64::MAX, "versions are left");
    let value = value_at(pattern, held.value.width(), held.version + 1);
    cells.store(rt, holder, register, value);
}

// Stores the values of the next versions.
fn store_often<R: Wait + Abort>(
    rt: &R,
    cells: &RegCells,
    mut holder: Holder,
    register: RegId,
    pattern: StoredPattern,
)
    requires cells { holder.cells ≡ cells.now }
    requires register { register < length cells.now }
{
    for _ in 0..TIMES {
        store_next(rt, cells, &mut holder, register, pattern);
    }
}

// Reads until the last version stands. Whether that comes in time, each read gives what was stored, and none an older version
// than the one before.
fn read_to_the_last<R: Wait>(
    rt: &R,
    cells: &RegCells,
    mut seat: RegSeat,
    register: RegId,
    pattern: StoredPattern,
) -> bool
    requires cells { seat.cells ≡ cells.now }
    requires register { register < length cells.now }
{
    let mut good = true;
    let mut version = 0;
    for _ in 0..LOOKS {
        let seen = cells.read(rt, &mut seat, register);
        good = good & is_stored(pattern, &seen) & (version <= seen.version);
        if seen.version >= TIMES {
            return good;
        }
        if seen.version == version {
            yield_now();
        }
        version = seen.version;
    }
    false
}

// One thread stores a register, and another reads it.
fn race<R: Threads + Wait + Abort + Sync>(
    rt: &R,
    cells: &RegCells,
    holder: Holder,
    seat: RegSeat,
    register: RegId,
    pattern: StoredPattern,
) -> bool
    requires holder { holder.cells ≡ cells.now }
    requires seat { seat.cells ≡ cells.now }
    requires register { register < length cells.now }
{
    let ((), good) = join(
        rt,
        move || store_often(rt, cells, holder, register, pattern),
        move || -> bool { read_to_the_last(rt, cells, seat, register, pattern) },
    );
    good
}

// Registers of 1, 8 and 128 digits, and what is stored in each.
const RACES: [(RegId, StoredPattern); 4] = [
    (0, StoredPattern::Numbers),
    (1, StoredPattern::Numbers),
    (2, StoredPattern::Numbers),
    (2, StoredPattern::OnesAndZeros),
];

#[test]
fn one_thread_stores_and_another_reads(rt: HostRuntime) -> Result<(), Fail> {
    for (register, pattern) in RACES {
        holds(&rt, register < 3, "a register");
        let (cells, holder, mut seats) = RegCells::of_widths(&rt, rt.alloc(), &[1, 8, 128], 1)?;
        let seat = seats.pop().expect(&rt, "a seat");
        holds(
            &rt,
            race(&rt, &cells, holder, seat, register, pattern),
            "a read that goes back, or gives what wasn't stored",
        );
    }
    Ok(())
}
