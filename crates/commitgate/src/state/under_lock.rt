//! A ticket's turn that is evaluated under the lock, and so can't be stale.
ghost use Rattle.std.specs.Prelude.{◌≡◌, MatchResult};
ghost use Rattle.commitgate.specs.Tickets.{IsCurrent, most_tries};
ghost use Rattle.commitgate.specs.HeldTurns.{is_refused, IsCurrentTurn, IsNoHeldTurn};
ghost use Rattle.commitgate.specs.GateAnswers.{MayCommit};
ghost use Rattle.commitgate.specs.Replies.{Answered, HeldAnswered};
ghost use Rattle.commitgate.specs.SeatAnswers.{CommitCauses, AnsweredTo, HeldAnsweredTo};

use crate::context::Context;
use crate::naming::Naming;
use crate::reply::Reply;
use crate::seat::Seat;
use crate::state::GateState;
use crate::ticket::Ticket;
use std::sync::Wait;
use turn::{FillFault, TurnLog};

// Whether memory was refused, and the turn isn't too long.
fn is_memory(fault: &FillFault) -> bool
    ensures { result ≡ is_refused fault.now }
{
    match fault {
        FillFault::TooLong => false,
        FillFault::Memory => true,
    }
}

impl<'d, K: Naming> GateState<'d, K> {
    /// Fills a log with the turn of a ticket's active evaluation, on the values under the lock.
    fn evaluate<R: Wait>(
        &mut self,
        context: &Context<'_, K, R>,
        log: &mut TurnLog,
        ticket: &Ticket<K>,
    ) -> Result<(), FillFault>
        requires current { IsCurrent self.old.core ticket.now }
        ensures same { self.new ≡ self.old }
        ensures turn { MatchResult result (λ _. IsCurrentTurn K.named.code self.old ticket.now log.new) (IsNoHeldTurn K.named.code self.old ticket.now) }
    {
        let state = ticket.state();
        let now = ticket.time();
        let (rt, cells) = (context.rt, context.cells);
        self.run_state.evaluate(rt, cells, log, state, now)
    }

    /// Appends a turn that was evaluated under the lock, in the name of a seat that has seen the whole ledger.
    fn accept_held<R: Wait>(
        &mut self,
        context: &Context<'_, K, R>,
        log: &TurnLog,
        seat: &mut Seat<K>,
        ticket: Ticket<K>,
    ) -> Reply<K>
        requires seen { seat.old.seen ≡ self.old.ledger }
        requires may { MayCommit K.named.limits self.old ticket }
        requires turn { IsCurrentTurn K.named.code self.old ticket log.now }
        ensures state { Answered K.named.code K.named.limits seat.old.worker self.old ticket log.now.reads self.new result }
        ensures seat { AnsweredTo K.named CommitCauses seat.old ticket log.now.reads seat.new result }
    {
        self.invariant_holds();
        ticket.invariant_holds();
        self.show_reads(context, seat, log.reads());
        self.accept(context, seat, ticket, log)
    }

    /// Evaluates the turn of a ticket that was refused as stale as often as it may be, and appends it. A journal that is full stops
    /// the run, and so does a turn that is too long, or one with `$finish`, which is appended first. Where memory is
    /// refused nothing changes.
    pub fn commit_held<R: Wait>(
        &mut self,
        context: &Context<'_, K, R>,
        log: &mut TurnLog,
        seat: &mut Seat<K>,
        ticket: Ticket<K>,
    ) -> Reply<K>
        requires tries { ticket.tries ≡ most_tries }
        ensures state { HeldAnswered K.named.code K.named.limits seat.old.worker self.old ticket self.new result }
        ensures seat { HeldAnsweredTo K.named seat.old ticket seat.new result }
    {
        self.invariant_holds();
        if let Some(reply) = self.barred(context, seat, false, &ticket) {
            return reply;
        }
        match self.evaluate(context, log, &ticket) {
            Ok(()) => self.accept_held(context, log, seat, ticket),
            Err(fault) => {
                if is_memory(&fault) {
                    return Reply::NoMemory(ticket);
                }
                Reply::Stopped(self.stop_long(context, seat, &ticket))
            }
        }
    }
}
