//! The read phase: a turn is evaluated without the lock, with a seat as its reader.
ghost use Rattle.std.specs.Prelude.{◌≡◌, MatchResult};
ghost use Rattle.commitgate.specs.Seats.{SeatReadsOn};
ghost use Rattle.runstate.specs.Histories.{IsRead};
ghost use Rattle.turn.specs.Reads.{GaveAll};
ghost use Rattle.turn.specs.TurnAnswers.{IsTurnLog, IsNoTurn};
ghost use Rattle.turn.specs.declared.log.FillFault.TheVariants as fault_of;

use crate::gate::Gate;
use crate::naming::Naming;
use crate::reader::SeatReader;
use crate::seat::Seat;
use crate::ticket::Ticket;
use design::{Design, RegId};
use std::marker::{Brand, Model, PhantomData};
use std::sync::Wait;
use turn::{FillFault, RegReader, Seen, TurnLog, fill_turn};

/// With which seat an evaluation begins, in contracts alone. A caller picks it where it begins.
pub trait Seating {
    ghost use Rattle.commitgate.specs.Seats.{SeatView};

    ghost seat: { SeatView };
}

/// Is told of the reads of an evaluation.
pub trait ReadWatch {
    /// The evaluation is about to read a register.
    fn reads(&self, register: RegId);
}

/// Nobody is told of the reads.
#[derive(Clone, Copy)]
pub struct Unwatched;

impl ReadWatch for Unwatched {
    fn reads(&self, _register: RegId) {}
}

impl Seating for Brand {
    ghost use Rattle.commitgate.specs.Nobody.{nameless_seat};

    ghost seat = { nameless_seat };
}

/// What a turn is evaluated with: a gate, its design, and who is told of the reads.
#[derive(Drop)]
pub struct ReadPhase<'g, 'd, K: Naming, W: ReadWatch, R: Wait> {
    pub rt: &'g R,
    pub gate: &'g Gate<'d, K>,
    pub design: &'d Design,
    pub watch: W,
}

// A seat's reader that tells of each read. Its type keeps that the seat is the one that it began with, which may only have
// seen more of the registers.
#[derive(Drop)]
struct WatchedReader<'g, K: Naming, S: Seating, W: ReadWatch, R: Wait> {
    reader: SeatReader<'g, K, R>,
    watch: &'g W,
    from: PhantomData<S>,
}

impl<'g, K: Naming, S: Seating, W: ReadWatch, R: Wait> Model for WatchedReader<'g, K, S, W, R> {
    ghost use Rattle.std.specs.Prelude.{ℕ};
    ghost use Rattle.commitgate.specs.Seats.{SeatView, SeatReadsOn};

    ghost Value = { ℕ × SeatView };

    ghost view = { λ r. r.reader };

    ghost invariant = { λ r. SeatReadsOn S.seat r.reader.1 };
}

impl<'g, K: Naming, S: Seating, W: ReadWatch, R: Wait> WatchedReader<'g, K, S, W, R> {
    // The reader of a seat, as it is now.
    fn new(reader: SeatReader<'g, K, R>, watch: &'g W) -> WatchedReader<'g, K, S, W, R>
        requires { reader.1 ≡ S.seat }
        ensures { result ≡ reader.entry }
    {
        WatchedReader {
            reader,
            watch,
            from: PhantomData,
        }
    }

    // Gives the seat back.
    fn into_seat(self) -> &'g mut Seat<K>
        ensures name { result.ghost_name ≡ self.entry.0 }
        ensures now { result.now ≡ self.entry.1 }
        ensures reads_on { SeatReadsOn S.seat self.entry.1 }
    {
        let WatchedReader {
            reader,
            watch: _,
            from: _,
        } = self;
        reader.into_seat()
    }
}

impl<'g, K: Naming, S: Seating, W: ReadWatch, R: Wait> RegReader for WatchedReader<'g, K, S, W, R> {
    ghost use Rattle.std.specs.Prelude.{length};
    ghost use Rattle.runstate.specs.Histories.{IsRead};

    ghost registers = { length K.named.code.widths };

    ghost gave = { λ s r seen. IsRead K.named.code s.1.fresh r seen };

    ghost use Rattle.std.specs.Prelude.{ℕ};

    ghost Lasting = { ℕ };

    ghost lasting = { λ r. r.0 };

    // Tells of the register that is read, and reads it then.
    fn read(&mut self, register: RegId) -> Seen {
        self.watch.reads(register);
        self.reader.read(register)
    }
}

/// Evaluates the turn of a ticket without the lock, into a log. Its reader has the seat as long.
pub fn evaluate<K: Naming, S: Seating, W: ReadWatch, R: Wait>(
    phase: &ReadPhase<'_, '_, K, W, R>,
    log: &mut TurnLog,
    seat: &mut Seat<K>,
    ticket: &Ticket<K>,
) -> Result<(), FillFault>
    requires seat { seat.old ≡ S.seat }
    requires design { phase.now.design.now ≡ K.named.code }
    ensures reads_on { SeatReadsOn S.seat seat.new }
    ensures turn { MatchResult result (λ _. IsTurnLog K.named.code ticket.now.state ticket.now.time log.new) (IsNoTurn K.named.code ticket.now.state ticket.now.time log.new.reads) }
    ensures gave { MatchResult result (λ _. GaveAll (IsRead K.named.code seat.new.fresh) log.new.reads) (λ fault. fault ≡ fault_of.TooLong → GaveAll (IsRead K.named.code seat.new.fresh) log.new.reads) }
{
    let reader = phase.gate.reader(phase.rt, seat);
    let mut reader = WatchedReader::<K, S, W, R>::new(reader, &phase.watch);
    let turn = fill_turn(
        log,
        phase.design,
        ticket.state(),
        ticket.time(),
        &mut reader,
    );
    // With the reader's end the seat is known again.
    reader.into_seat();
    turn
}
