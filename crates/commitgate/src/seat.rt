//! Seats, one for each worker.
ghost use Rattle.std.specs.Prelude.{◌≡◌, ◌+◌, ◌<◌, [], None, length, slice_set};
ghost use Rattle.commitgate.specs.Seats.{SeatReadsOn, LooksOn};
ghost use Rattle.crossbeam_utils.specs.Seq.{cell_view};
ghost use Rattle.regcells.specs.Meetings.{fresh_of};
ghost use Rattle.runstate.specs.Histories.{StandsInHistory};
ghost use Rattle.runstate.specs.Ledger.{entries_of, positions_of, stored_of};
ghost use Rattle.runstate.specs.Marked.{seated};
ghost use mathlib.Core.List.{IsPrefix};

use crate::naming::Naming;
use crate::ticket::Ticket;
use design::RegId;
use regcells::{RegCells, RegSeat};
use runstate::{MarkCell, MarkPass, look};
use std::alloc::Global;
use std::marker::{Model, PhantomData};
use std::sync::Wait;
use turn::Seen;

// The most lists whose room a seat keeps.
const MOST_ROOMS: usize = 16;

/// A worker's seat: its number, how many entries it has seen and how many it appended, what it has seen of the registers and
/// of the ledger, and room for the tickets of the entries that it will append.
#[derive(Drop)]
pub struct Seat<K: Naming> {
    pub(crate) worker: u32,
    pub(crate) entries: u64,
    pub(crate) share: u64,
    pub(crate) regs: RegSeat,
    pub(crate) pass: MarkPass,
    pub(crate) rooms: Vec<Vec<Ticket<K>>>,
    pub(crate) of: PhantomData<K>,
}

impl<K: Naming> Model for Seat<K> {
    ghost use Rattle.crossbeam_utils.specs.Seq.{cell_view};
    ghost use Rattle.commitgate.specs.Seats.{SeatView};
    ghost use Rattle.commitgate.specs.SeatInvariant.{SeatInvariant};

    ghost Value = { SeatView };

    ghost view = { λ s. record { worker = s.worker; seen = (cell_view s.pass).seen; positions = (cell_view s.pass).positions; stored = (cell_view s.pass).stored; fresh = s.regs.seen } };

    ghost invariant = { λ s. SeatInvariant K.named s.worker s.entries s.share s.regs s.pass.table_id (cell_view s.pass) };
}

impl<K: Naming> Seat<K> {
    /// The seat of a worker that has seen nothing of the ledger.
    pub(crate) fn new(alloc: Global, worker: u32, regs: RegSeat, pass: MarkPass) -> Seat<K>
        requires names { (regs.cells ≡ K.named.cells) × (pass.table_id ≡ K.named.mark) }
        requires worker { worker < K.named.workers }
        requires pass { cell_view pass ≡ seated worker [] None [] }
        ensures { result ≡ record { worker = worker; seen = []; positions = []; stored = None; fresh = regs.seen } }
    {
        Seat {
            worker,
            entries: 0,
            share: 0,
            regs,
            pass,
            rooms: Vec::new(alloc),
            of: PhantomData,
        }
    }

    /// Keeps the room of a list of tickets, for those of an entry that the seat will append. Tickets that are in it are
    /// dropped.
    pub fn keep_room(&mut self, tickets: Vec<Ticket<K>>)
        ensures { self.new ≡ self.old }
    {
        if tickets.capacity() > 0 && self.rooms.len() < MOST_ROOMS {
            // Where memory is refused the room is given back.
            let _ = self.rooms.push(tickets);
        }
    }

    /// The worker's number, from 0.
    pub fn worker(&self) -> u32
        ensures worker { result ≡ self.now.worker }
        ensures few { result < K.named.workers }
    {
        self.worker
    }

    /// The number of entries that it last saw.
    pub fn seen(&self) -> u64
        ensures { result ≡ length (entries_of self.now.seen) }
    {
        self.entries
    }

    /// The number of entries that it appended.
    pub fn share(&self) -> u64
        ensures share { result ≡ length self.now.positions }
        ensures positions { self.now.positions ≡ positions_of self.now.worker self.now.seen }
        ensures stored { self.now.stored ≡ stored_of self.now.worker self.now.seen }
    {
        self.share
    }

    /// Reads a register, without the lock.
    pub(crate) fn read<R: Wait>(&mut self, rt: &R, cells: &RegCells, register: RegId) -> Seen
        requires cells { cells.now ≡ K.named.cells }
        requires register { register < length K.named.cells }
        ensures later { IsPrefix (fresh_of self.old.fresh register) (fresh_of self.new.fresh register) }
        ensures entry { StandsInHistory (fresh_of self.new.fresh register) result }
        ensures version { length (fresh_of self.new.fresh register) ≡ result.version + 1 }
        ensures others { self.new.fresh ≡ slice_set self.old.fresh register (fresh_of self.new.fresh register) }
        ensures reads_on { SeatReadsOn self.old self.new }
    {
        cells.read(rt, &mut self.regs, register)
    }

    /// Loads the mark, without the lock: the number of entries, of which the seat has seen all.
    pub(crate) fn load<R: Wait>(&mut self, rt: &R, mark: &MarkCell) -> u64
        requires { mark.now.table.shared.table_id ≡ K.named.mark }
        ensures looks_on { LooksOn self.old self.new }
        ensures fresh { self.new.fresh ≡ self.old.fresh }
        ensures count { result ≡ length (entries_of self.new.seen) }
    {
        let (entries, _code) = look(rt, mark, &mut self.pass);
        self.entries = entries;
        entries
    }
}
