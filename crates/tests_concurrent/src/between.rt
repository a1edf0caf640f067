// A turn whose reads are of two moments.
ghost use Rattle.std.specs.Prelude.{◌≡◌, ◌<◌, MatchResult};
ghost use Rattle.turn.specs.declared.log.FillFault.TheVariants.{TooLong};
ghost use Rattle.turn.specs.TurnAnswers.{IsTurnLog, IsNoTurn};
ghost use Rattle.turn.specs.Reads.{GaveAll};
ghost use Rattle.runstate.specs.Histories.{IsRead};

use crate::claims::{fail, holds};
use crate::course::GateCourse;
use commitgate::{Naming, Seat, SeatReader, Ticket};
use design::RegId;
use std::process::Abort;
use std::sync::Wait;
use turn::{FillFault, RegReader, Seen, TurnLog, fill_turn};

// The other seat's turn, if it still waits.
fn overtake<K: Naming, R: Wait + Abort>(
    course: &GateCourse<'_, '_, K, R>,
    other: &mut Seat<K>,
    waits: &mut Option<Ticket<K>>,
) {
    if let Some(ticket) = waits.take() {
        course.serve_at(other, ticket, 0);
    }
}

/// A seat's reader that, after its first read, lets another seat commit a turn.
#[derive(Drop)]
struct Between<'s, 'o, 'w, 'c, 'g, 'd, K: Naming, R: Wait + Abort> {
    course: &'c GateCourse<'g, 'd, K, R>,
    reader: SeatReader<'s, K, R>,
    other: &'o mut Seat<K>,
    waits: &'w mut Option<Ticket<K>>,
}

impl<'s, 'o, 'w, 'c, 'g, 'd, K: Naming, R: Wait + Abort> RegReader
    for Between<'s, 'o, 'w, 'c, 'g, 'd, K, R> {
    ghost use Rattle.std.specs.Prelude.{ℕ, length};
    ghost use Rattle.runstate.specs.Histories.{IsRead};

    ghost registers = { length K.named.code.widths };

    ghost gave = { λ s r seen. IsRead K.named.code s.reader.1.fresh r seen };

    ghost Lasting = { ℕ };

    ghost lasting = { λ r. r.reader.0 };

    fn read(&mut self, register: RegId) -> Seen {
        let seen = self.reader.read(register);
        overtake(self.course, self.other, self.waits);
        seen
    }
}

// Fills a log with the turn of a ticket. After its first read the other seat commits the turn that waits.
fn fill<K: Naming, R: Wait + Abort>(
    course: &GateCourse<'_, '_, K, R>,
    log: &mut TurnLog,
    seat: &mut Seat<K>,
    ticket: &Ticket<K>,
    other: &mut Seat<K>,
    waits: &mut Option<Ticket<K>>,
) -> Result<(), FillFault>
    ensures turn { MatchResult result (λ _. IsTurnLog K.named.code ticket.now.state ticket.now.time log.new) (IsNoTurn K.named.code ticket.now.state ticket.now.time log.new.reads) }
    ensures gave { MatchResult result (λ _. GaveAll (IsRead K.named.code seat.new.fresh) log.new.reads) (λ fault. fault ≡ TooLong → GaveAll (IsRead K.named.code seat.new.fresh) log.new.reads) }
{
    let mut reader = Between {
        course,
        reader: course.gate.reader(course.rt, seat),
        other,
        waits,
    };
    let design = course.design;
    let turn = fill_turn(log, design, ticket.state(), ticket.time(), &mut reader);
    let Between {
        course: _,
        reader,
        other: _,
        waits: _,
    } = reader;
    reader.into_seat();
    turn
}

/// The log of a turn that is too long, since another seat committed its turn after the first read. Any other outcome ends
/// the test.
pub fn mixed<K: Naming, R: Wait + Abort>(
    course: &GateCourse<'_, '_, K, R>,
    one: &mut Seat<K>,
    early: Ticket<K>,
    two: &mut Seat<K>,
    late: &Ticket<K>,
) -> TurnLog
    ensures turn { IsNoTurn K.named.code late.now.state late.now.time result.reads TooLong }
    ensures gave { GaveAll (IsRead K.named.code two.new.fresh) result.reads }
{
    let mut log = TurnLog::new(course.alloc);
    let mut waits = Some(early);
    let Err(fault) = fill(course, &mut log, two, late, one, &mut waits) else {
        fail(course.rt, "a short turn")
    };
    let FillFault::TooLong = fault else {
        fail(course.rt, "memory")
    };
    holds(course.rt, waits.is_none(), "a turn that still waits");
    log
}
