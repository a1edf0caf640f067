//! A seat as the reader of a turn.
ghost use Rattle.std.specs.Prelude.{◌≡◌, ℕ, ◌+◌, ◌<◌, length};
ghost use Rattle.turn.specs.declared.memory.Seen as seens;
ghost use Rattle.regcells.specs.Meetings.{fresh_of};
ghost use Rattle.commitgate.specs.Seats.{SeatReadsOn};
ghost use Rattle.runstate.specs.Histories.{IsRead};

use crate::naming::Naming;
use crate::seat::Seat;
use design::RegId;
use regcells::RegCells;
use std::marker::Model;
use std::sync::Wait;
use turn::{RegReader, Seen};

/// A seat that reads the registers of its gate, without the lock. Contracts see the seat, and which loan of it the reader has.
#[derive(Drop)]
pub struct SeatReader<'g, K: Naming, R: Wait> {
    rt: &'g R,
    cells: &'g RegCells,
    seat: &'g mut Seat<K>,
}

impl<'g, K: Naming, R: Wait> Model for SeatReader<'g, K, R> {
    ghost use Rattle.std.specs.Prelude.{◌≡◌, ℕ, length};
    ghost use Rattle.commitgate.specs.Seats.{SeatView};

    ghost Value = { ℕ × SeatView };

    ghost view = { λ r. (r.seat.ghost_name, r.seat.now) };

    ghost invariant = { λ r. (r.cells.now ≡ K.named.cells) × (length K.named.cells ≡ length K.named.code.widths) };
}

impl<'g, K: Naming, R: Wait> SeatReader<'g, K, R> {
    /// The reader of a seat.
    pub(crate) fn new(rt: &'g R, cells: &'g RegCells, seat: &'g mut Seat<K>) -> SeatReader<'g, K, R>
        requires cells { cells.now ≡ K.named.cells }
        requires widths { length K.named.cells ≡ length K.named.code.widths }
        ensures { result ≡ (seat.entry.ghost_name, seat.old) }
    {
        SeatReader { rt, cells, seat }
    }

    /// Gives the seat back.
    pub fn into_seat(self) -> &'g mut Seat<K>
        ensures name { result.ghost_name ≡ self.entry.0 }
        ensures now { result.now ≡ self.entry.1 }
    {
        let SeatReader {
            rt: _,
            cells: _,
            seat,
        } = self;
        seat
    }
}

impl<'g, K: Naming, R: Wait> RegReader for SeatReader<'g, K, R> {
    ghost use Rattle.std.specs.Prelude.{ℕ, length};
    ghost use Rattle.runstate.specs.Histories.{IsRead};

    ghost registers = { length K.named.code.widths };

    ghost gave = { λ s r seen. IsRead K.named.code s.1.fresh r seen };

    ghost Lasting = { ℕ };

    ghost lasting = { λ r. r.0 };

    fn read(&mut self, register: RegId) -> Seen
        requires { register < length K.named.code.widths }
        ensures adds { IsRead K.named.code self.new.1.fresh register result }
        ensures keeps { (r : ℕ) (s : seens.Seen) → IsRead K.named.code self.old.1.fresh r s → IsRead K.named.code self.new.1.fresh r s }
        ensures version { length (fresh_of self.new.1.fresh register) ≡ result.version + 1 }
        ensures lasting { self.new.0 ≡ self.old.0 }
        ensures reads_on { SeatReadsOn self.old.1 self.new.1 }
    {
        self.seat.read(self.rt, self.cells, register)
    }
}
