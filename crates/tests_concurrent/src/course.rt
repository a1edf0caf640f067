// The steps of a worker at an open gate.
ghost use Rattle.std.specs.Prelude.{◌≡◌, ◌<◌, ◌∷◌, [], IfSome, MatchResult};
ghost use Rattle.turn.specs.declared.log.FillFault.TheVariants.{TooLong};
ghost use Rattle.turn.specs.TurnAnswers.{IsTurnLog, IsNoTurn};
ghost use Rattle.turn.specs.Reads.{GaveAll, KeepsGiven};
ghost use Rattle.runstate.specs.Histories.{IsRead};

use crate::claims::{fail, holds};
use commitgate::{Closed, Gate, Grant, Naming, Reply, Rest, Seat, Ticket, UpdateReply};
use design::{Design, RegId};
use frontend::read_design;
use model::end::End;
use model::entry::Entry;
use std::alloc::Global;
use std::process::Abort;
use std::sync::Wait;
use turn::{FillFault, RegReader, Seen, TurnLog, fill_turn};

/// An open gate, and its design.
#[derive(Drop)]
pub struct GateCourse<'g, 'd, K: Naming, R: Wait + Abort> {
    pub rt: &'g R,
    pub alloc: Global,
    pub gate: &'g Gate<'d, K>,
    pub design: &'d Design,
    ghost design_is: { design.now ≡ K.named.code },
}

/// The seats of two workers, in order.
pub type Seats<K> = (Seat<K>, Seat<K>);

impl<'g, 'd, K: Naming, R: Wait + Abort> GateCourse<'g, 'd, K, R> {
    /// The open gate of a design.
    pub fn new(
        rt: &'g R,
        alloc: Global,
        gate: &'g Gate<'d, K>,
        design: &'d Design,
    ) -> GateCourse<'g, 'd, K, R>
        requires { design.now ≡ K.named.code }
    {
        GateCourse {
            rt,
            alloc,
            gate,
            design,
        }
    }

    /// The turn of a ticket, evaluated without the lock. What the seat read before stays read.
    pub fn evaluate(&self, seat: &mut Seat<K>, ticket: &Ticket<K>) -> TurnLog
        ensures turn { IsTurnLog K.named.code ticket.now.state ticket.now.time result }
        ensures gave { GaveAll (IsRead K.named.code seat.new.fresh) result.reads }
        ensures keeps { KeepsGiven (IsRead K.named.code seat.old.fresh) (IsRead K.named.code seat.new.fresh) }
    {
        self.try_evaluate(seat, ticket).expect(self.rt, "memory")
    }

    /// The same turn, or nothing where memory was refused.
    pub fn try_evaluate(&self, seat: &mut Seat<K>, ticket: &Ticket<K>) -> Option<TurnLog>
        ensures turn { IfSome result (λ log. IsTurnLog K.named.code ticket.now.state ticket.now.time log) }
        ensures gave { IfSome result (λ log. GaveAll (IsRead K.named.code seat.new.fresh) log.reads) }
        ensures keeps { KeepsGiven (IsRead K.named.code seat.old.fresh) (IsRead K.named.code seat.new.fresh) }
    {
        let mut log = TurnLog::new(self.alloc);
        match self.fill(&mut log, seat, ticket) {
            Ok(()) => Some(log),
            Err(fault) => {
                holds(self.rt, matches!(fault, FillFault::Memory), "no short turn");
                None
            }
        }
    }

    // The same turn, in a log.
    fn fill(
        &self,
        log: &mut TurnLog,
        seat: &mut Seat<K>,
        ticket: &Ticket<K>,
    ) -> Result<(), FillFault>
        ensures turn { MatchResult result (λ _. IsTurnLog K.named.code ticket.now.state ticket.now.time log.new) (IsNoTurn K.named.code ticket.now.state ticket.now.time log.new.reads) }
        ensures gave { MatchResult result (λ _. GaveAll (IsRead K.named.code seat.new.fresh) log.new.reads) (λ fault. fault ≡ TooLong → GaveAll (IsRead K.named.code seat.new.fresh) log.new.reads) }
        ensures keeps { KeepsGiven (IsRead K.named.code seat.old.fresh) (IsRead K.named.code seat.new.fresh) }
    {
        let mut reader = self.gate.reader(self.rt, seat);
        let turn = fill_turn(log, self.design, ticket.state(), ticket.time(), &mut reader);
        reader.into_seat();
        turn
    }

    /// Commits a turn that was evaluated without the lock.
    pub fn commit(&self, seat: &mut Seat<K>, ticket: Ticket<K>, log: &TurnLog) -> Reply<K>
        requires turn { IsTurnLog K.named.code ticket.state ticket.time log.now }
        requires gave { GaveAll (IsRead K.named.code seat.old.fresh) log.now.reads }
    {
        holds(self.rt, ticket.tries() < 3, "refused three times");
        self.gate.commit(self.rt, self.alloc, seat, ticket, log)
    }

    /// The same, after a look at the number of entries, which is answered too.
    pub fn look_and_commit(
        &self,
        seat: &mut Seat<K>,
        ticket: Ticket<K>,
        log: &TurnLog,
    ) -> (u64, Reply<K>)
        requires turn { IsTurnLog K.named.code ticket.state ticket.time log.now }
        requires gave { GaveAll (IsRead K.named.code seat.old.fresh) log.now.reads }
    {
        let count = self.gate.entries(self.rt, seat);
        (count, self.commit(seat, ticket, log))
    }

    /// Evaluates the turn of a ticket without the lock, and commits it at once.
    pub fn serve(&self, seat: &mut Seat<K>, ticket: Ticket<K>) -> Reply<K> {
        let log = self.evaluate(seat, &ticket);
        self.commit(seat, ticket, &log)
    }

    /// The same, and the entry stands at this position.
    pub fn serve_at(&self, seat: &mut Seat<K>, ticket: Ticket<K>, position: u64) {
        let grant = accepted(self.rt, self.serve(seat, ticket));
        holds(self.rt, grant.position == position, "another position");
    }

    /// Gives up a turn that was evaluated without the lock and is too long.
    pub fn give_up(&self, seat: &mut Seat<K>, ticket: Ticket<K>, log: &TurnLog) -> Reply<K>
        requires turn { IsNoTurn K.named.code ticket.state ticket.time log.now.reads TooLong }
        requires gave { GaveAll (IsRead K.named.code seat.old.fresh) log.now.reads }
    {
        holds(self.rt, ticket.tries() < 3, "refused three times");
        self.gate.too_long(self.rt, seat, ticket, log.reads())
    }

    /// Evaluates under the lock, and commits, the turn of a ticket that was refused three times.
    pub fn commit_held(&self, seat: &mut Seat<K>, ticket: Ticket<K>) -> Reply<K> {
        holds(self.rt, ticket.tries() == 3, "not refused three times");
        let mut log = TurnLog::new(self.alloc);
        self.gate
            .commit_held(self.rt, self.alloc, &mut log, seat, ticket)
    }

    /// Makes an update.
    pub fn update(&self, seat: &mut Seat<K>) -> UpdateReply<K> {
        self.gate.update(self.rt, self.alloc, seat)
    }

    /// Changes the regions.
    pub fn rest(&self, seat: &mut Seat<K>) -> Rest<K> {
        self.gate.rest(self.rt, self.alloc, seat)
    }

    /// What a seat reads of a register.
    pub fn read(&self, seat: &mut Seat<K>, register: RegId) -> Seen {
        holds(
            self.rt,
            register < self.design.registers(),
            "no such register",
        );
        self.gate.reader(self.rt, seat).read(register)
    }
}

/// The design of a source.
pub fn design_of(rt: &impl Abort, alloc: Global, source: &str) -> Design {
    match read_design(alloc, source.as_bytes()) {
        Ok(design) => design,
        Err(fault) => panic!(rt; "{fault}"),
    }
}

/// The first ticket of those that are left.
pub fn first<K: Naming>(rt: &impl Abort, tickets: &mut Vec<Ticket<K>>) -> Ticket<K> {
    holds(rt, !tickets.is_empty(), "a ticket");
    tickets.remove(0)
}

/// The last ticket of those that are left.
pub fn last<K: Naming>(rt: &impl Abort, tickets: &mut Vec<Ticket<K>>) -> Ticket<K> {
    tickets.pop().expect(rt, "a ticket")
}

/// The grant of an accepted entry. Any other answer ends the test.
pub fn accepted<K: Naming>(rt: &impl Abort, reply: Reply<K>) -> Grant<K> {
    match reply {
        Reply::Accepted(grant) => grant,
        Reply::NoMemory(_) => fail(rt, "memory"),
        _ => fail(rt, "not accepted"),
    }
}

/// A run ended so, after so many entries of each seat.
pub fn assert_closed(rt: &impl Abort, closed: &Closed, end: End, committed: &[u64]) {
    holds(rt, closed.end() == end, "another end");
    holds(
        rt,
        closed.committed() == committed,
        "other numbers of entries",
    );
}

/// A run left these entries and lines.
pub fn assert_left(rt: &impl Abort, closed: &Closed, entries: &[Entry], lines: &str) {
    holds(rt, closed.entries() == entries, "other entries");
    holds(rt, closed.lines() == lines, "other lines");
}

/// The turn of this event stands at the position of the event's number, and made nothing active.
pub fn assert_turn<K: Naming>(rt: &impl Abort, grant: &Grant<K>, event: u64) {
    holds(rt, grant.position == event, "another position");
    holds(rt, grant.entry == Entry::Turn(event), "another entry");
    holds(rt, grant.tickets.is_empty(), "a ticket");
}

/// Whether there is memory for a copy of the journal, which then has these entries. The seat has then seen them.
pub fn is_copied<K: Naming, R: Wait + Abort>(
    course: &GateCourse<'_, '_, K, R>,
    seat: &mut Seat<K>,
    wanted: &[Entry],
) -> bool {
    let rt = course.rt;
    match course.gate.snapshot(rt, course.alloc, seat) {
        Ok(journal) => {
            holds(rt, journal.as_slice() == wanted, "another journal");
            true
        }
        Err(_) => false,
    }
}

/// The journal has these entries.
pub fn assert_journal<K: Naming, R: Wait + Abort>(
    course: &GateCourse<'_, '_, K, R>,
    seat: &mut Seat<K>,
    wanted: &[Entry],
) {
    holds(course.rt, is_copied(course, seat, wanted), "memory");
}

/// Puts tickets behind those that are there.
pub fn keep<K: Naming>(rt: &impl Abort, tickets: &mut Vec<Ticket<K>>, more: Vec<Ticket<K>>) {
    for ticket in more {
        tickets.push(ticket).expect(rt, "room for a ticket");
    }
}

/// The seats that a gate of two workers is opened with.
pub fn two_of<K: Naming>(rt: &impl Abort, mut seats: Vec<Seat<K>>) -> Seats<K> {
    let two = seats.pop().expect(rt, "a seat");
    let one = seats.pop().expect(rt, "a seat");
    (one, two)
}

// Two seats, in this order.
fn both<K: Naming>(rt: &impl Abort, alloc: Global, one: Seat<K>, two: Seat<K>) -> Vec<Seat<K>>
    ensures { result.items ≡ one ∷ two ∷ [] }
{
    match vec![in alloc; one, two] {
        Ok(seats) => seats,
        Err(_) => fail(rt, "memory"),
    }
}

/// Closes the gate of two workers.
#[tactic(auto, using(crate::proofs::Seats::two_seats))]
pub fn close_two<K: Naming, R: Wait + Abort>(
    rt: &R,
    alloc: Global,
    gate: Gate<'_, K>,
    one: Seat<K>,
    two: Seat<K>,
) -> Closed
    requires { K.named.workers ≡ 2 }
{
    assert!(rt; one.worker() == 0, "another seat");
    assert!(rt; two.worker() == 1, "another seat");
    let seats = both(rt, alloc, one, two);
    gate.close(rt, seats)
}
