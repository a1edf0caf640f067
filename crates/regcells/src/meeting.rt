//! What a turn read is compared with the registers as the holder has them, and a seat meets them.
ghost use Rattle.std.specs.Prelude.{◌≡◌, ℕ, ◌<◌, length, Some, slice_get, IfSome, IfNone};
ghost use Rattle.turn.specs.declared.memory.Seen as seens;
ghost use Rattle.turn.specs.TurnChanges.{turn_changes_of};
ghost use Rattle.regcells.specs.Meetings.{fresh_of, IsCurrentOf, IsFirstMovedOf, Met, HasMetReads, HasMetWrites, AreReadsIn, AreWritesIn};

use crate::cells::{Holder, RegCells, RegSeat};
use design::RegId;
use indexmap::IndexMap;
use logic4::bits::Bits;
use std::sync::Wait;
use turn::{Seen, TurnChange};

// A recorded read, by its place.
fn read_at(reads: &IndexMap<RegId, Seen>, place: usize) -> (RegId, Seen)
    requires { place < length reads.now.entries }
    ensures { slice_get reads.now.entries place ≡ Some result }
{
    match reads.get_index(place) {
        Some((register, seen)) => (*register, *seen),
        None => unreachable!(),
    }
}

// A turn change, by its place.
fn turn_change_at(turn_changes: &[TurnChange], place: usize) -> &TurnChange
    requires { place < length turn_changes.now }
    ensures { slice_get turn_changes.entry.now place ≡ Some result.now }
{
    &turn_changes[place]
}

/// The first register that has changed since it was read. The seat has then seen all values of the registers that were read,
/// up to that one.
pub fn first_moved<R: Wait>(
    rt: &R,
    cells: &RegCells,
    seat: &mut RegSeat,
    holder: &mut Holder,
    reads: &IndexMap<RegId, Seen>,
) -> Option<RegId>
    requires seat { seat.old.cells ≡ cells.now }
    requires holder { holder.old.cells ≡ cells.now }
    requires reads { AreReadsIn (length cells.now) reads.now.entries }
    ensures same { holder.new ≡ holder.old }
    ensures cells { seat.new.cells ≡ seat.old.cells }
    ensures met { Met seat.old.seen holder.old.seen seat.new.seen }
    ensures none { IfNone result ((k : ℕ) (d : ℕ × seens.Seen) → slice_get reads.now.entries k ≡ Some d → IsCurrentOf holder.old.seen d) }
    ensures all { IfNone result (HasMetReads holder.old.seen seat.new.seen reads.now.entries) }
    ensures some { IfSome result (IsFirstMovedOf holder.old.seen reads.now.entries) }
    ensures here { IfSome result (λ r. fresh_of seat.new.seen r ≡ fresh_of holder.old.seen r) }
{
    for place in 0..reads.len() {
        let (register, seen) = read_at(reads, place);
        let last = cells.meet(rt, seat, holder, register);
        if last.version != seen.version {
            return Some(register);
        }
    }
    None
}

/// The seat has then seen all values of the registers that were read.
pub fn meet_reads<R: Wait>(
    rt: &R,
    cells: &RegCells,
    seat: &mut RegSeat,
    holder: &mut Holder,
    reads: &IndexMap<RegId, Seen>,
)
    requires seat { seat.old.cells ≡ cells.now }
    requires holder { holder.old.cells ≡ cells.now }
    requires reads { AreReadsIn (length cells.now) reads.now.entries }
    ensures holder { holder.new ≡ holder.old }
    ensures cells { seat.new.cells ≡ seat.old.cells }
    ensures met { Met seat.old.seen holder.old.seen seat.new.seen }
    ensures all { HasMetReads holder.old.seen seat.new.seen reads.now.entries }
{
    for place in 0..reads.len() {
        let (register, _) = read_at(reads, place);
        cells.meet(rt, seat, holder, register);
    }
}

/// The seat has then seen all values of the registers that were written. Each is met once, however often it was written:
/// the turn changes name them, and the writes are what the caller names them by.
pub fn meet_writes<R: Wait>(
    rt: &R,
    cells: &RegCells,
    seat: &mut RegSeat,
    holder: &mut Holder,
    turn_changes: &[TurnChange],
    writes: &[(RegId, Bits)],
)
    requires seat { seat.old.cells ≡ cells.now }
    requires holder { holder.old.cells ≡ cells.now }
    requires turn_changes { turn_changes.now ≡ turn_changes_of writes.now }
    requires writes { AreWritesIn (length cells.now) writes.now }
    ensures holder { holder.new ≡ holder.old }
    ensures cells { seat.new.cells ≡ seat.old.cells }
    ensures met { Met seat.old.seen holder.old.seen seat.new.seen }
    ensures all { HasMetWrites holder.old.seen seat.new.seen writes.now }
{
    for place in 0..turn_changes.len() {
        let turn_change = turn_change_at(turn_changes, place);
        cells.meet(rt, seat, holder, turn_change.register);
    }
}

/// The seat has then seen all values of a register, if it is one of so many.
pub fn meet_one<R: Wait>(
    rt: &R,
    cells: &RegCells,
    seat: &mut RegSeat,
    holder: &mut Holder,
    registers: u32,
    register: RegId,
)
    requires seat { seat.old.cells ≡ cells.now }
    requires holder { holder.old.cells ≡ cells.now }
    requires registers { registers ≡ length cells.now }
    ensures holder { holder.new ≡ holder.old }
    ensures cells { seat.new.cells ≡ seat.old.cells }
    ensures met { Met seat.old.seen holder.old.seen seat.new.seen }
    ensures here { register < registers → fresh_of seat.new.seen register ≡ fresh_of holder.old.seen register }
{
    if register < registers {
        cells.meet(rt, seat, holder, register);
    }
}
