//! Several turns at once: a worker whose turns are short evaluates the tickets of its own deque, one after another, and commits
//! their turns in one holding of the lock.
ghost use Rattle.std.specs.Prelude.{◌≡◌, ℕ, ◌+◌, ◌<◌, ◌≤◌, ◌++◌, List, [], ◌∷◌, length, IfOk, IfErr, MatchResult};
ghost use Rattle.std.specs.List.{All};
ghost use Rattle.commitgate.specs.Batches.{AreOffered};
ghost use Rattle.regcells.specs.Meetings.{HaveGrown};
ghost use Rattle.turn.specs.declared.log.FillFault.TheVariants.{TooLong};
ghost use Rattle.commitgate.specs.Tickets.{TicketView, most_tries};
ghost use Rattle.workers.specs.WorkerInvariant.{Goes, OverUnless, OnlyPuts, ServesTicket, IsSettled, tickets_of};
ghost use Rattle.workers.specs.Keeping.{KeepsAll, Within};
ghost use Rattle.workers.specs.Batching.{most_turns, HasBatchRoom, HasPlace, MayBeCommitted, IsLong, Leads, KeepsOn, Fills, filling_after};
ghost use Rattle.workers.specs.declared.next_round.NextRound.TheVariants.{GoesOn};

use crate::deques::put;
use crate::next_round::NextRound;
use crate::probe::{EventAt, Probe};
use crate::reads::WorkerReads;
use crate::throttle::Throttle;
use crate::worker::{RunContext, Worker};
use commitgate::{MAX_TRIES, Naming, Reply, Seat, Ticket, evaluate};
use eventpool::Owner;
use std::alloc::{AllocError, Global};
use std::collections::VecDeque;
use std::marker::Brand;
use std::sync::Wait;
use turn::{FillFault, TurnLog};

/// The most turns that a worker commits at once.
pub(crate) const MOST_TURNS: usize = 16;

// With this many counted steps together turns are enough.
const MOST_STEPS: u32 = 100;

/// Turns that were evaluated and aren't committed yet, in room that is kept: their tickets, each with its log at its place and
/// what the probe is told of it, and then the answers. `steps` counts their steps, and the throttle of the worker says how
/// many turns there may be.
#[derive(Drop)]
pub struct Batch<K: Naming> {
    pub tickets: VecDeque<Ticket<K>>,
    pub logs: Vec<TurnLog>,
    pub events: [EventAt; MOST_TURNS],
    pub replies: VecDeque<Reply<K>>,
    pub steps: u32,
    pub throttle: Throttle,
}

/// What comes after a ticket: another one, or the batch is committed as it is, or the run is over.
#[derive(Clone, Copy)]
pub enum Filling {
    More,
    Enough,
    Over,
}

impl<K: Naming> Batch<K> {
    /// An empty batch, with room for the most turns.
    pub(crate) fn new(alloc: Global) -> Result<Batch<K>, AllocError>
        ensures room { IfOk result (λ batch. HasBatchRoom batch) }
        ensures empty { IfOk result (λ batch. batch.tickets.items ≡ []) }
    {
        let tickets = VecDeque::with_capacity(alloc, MOST_TURNS)?;
        let replies = VecDeque::with_capacity(alloc, MOST_TURNS)?;
        let mut logs = Vec::with_capacity(alloc, MOST_TURNS)?;
        for _turn in 0..MOST_TURNS {
            logs.push_reserved(TurnLog::new(alloc));
        }
        Ok(Batch {
            tickets,
            logs,
            events: [EventAt { event: 0, time: 0 }; MOST_TURNS],
            replies,
            steps: 0,
            throttle: Throttle::new(),
        })
    }

    // Notes the event of the last turn and its steps.
    fn note(&mut self, at: EventAt, count: u32)
        ensures { self.new ≡ record self.old { events = self.new.events; steps = self.new.steps; throttle = self.new.throttle } }
    {
        self.throttle.note(count);
        let place = self.tickets.len().saturating_sub(1);
        if let Some(slot) = self.events.get_mut(place) {
            *slot = at;
        }
        self.steps = self.steps.saturating_add(count);
    }

    // Whether it has as many turns as are committed at once, or those that it has are long enough.
    fn is_enough(&self) -> bool {
        self.steps >= MOST_STEPS || self.tickets.len() >= self.throttle.turns()
    }
}

// What comes of a ticket that the batch doesn't get.
fn after(next: NextRound) -> Filling
    ensures { result ≡ filling_after next }
{
    match next {
        NextRound::GoesOn => Filling::Enough,
        NextRound::Ends => Filling::Over,
    }
}

impl<K: Naming, P: Probe, R: Wait> RunContext<'_, '_, K, P, R> {
    // Evaluates a ticket's turn into the next log of a batch, and adds it. Else the ticket comes back.
    fn add(
        &self,
        batch: &mut Batch<K>,
        seat: &mut Seat<K>,
        ticket: Ticket<K>,
    ) -> Result<u32, (Ticket<K>, FillFault)>
        requires design { self.now.design.now ≡ K.named.code }
        requires room { HasBatchRoom batch.old }
        requires few { length batch.old.tickets.items < most_turns }
        requires tries { ticket.tries < most_tries }
        requires offered { AreOffered K.named.code seat.old.fresh batch.old.tickets.items batch.old.logs.items }
        ensures goes { Goes 0 0 seat.old seat.new }
        ensures room { HasBatchRoom batch.new }
        ensures offered { AreOffered K.named.code seat.new.fresh batch.new.tickets.items batch.new.logs.items }
        ensures added { MatchResult result (λ _. batch.new.tickets.items ≡ batch.old.tickets.items ++ ticket ∷ []) (λ e. (batch.new.tickets ≡ batch.old.tickets) × (e.0 ≡ ticket)) }
        ensures long { IfErr result (λ e. e.1 ≡ TooLong → IsLong K.named batch.new ticket seat.new) }
    {
        let place = batch.tickets.len();
        let phase = self.read_phase(seat.worker());
        match evaluate::<K, Brand, WorkerReads<'_, P>, R>(
            &phase,
            &mut batch.logs[place],
            seat,
            &ticket,
        ) {
            Ok(()) => {
                batch.tickets.push_back_reserved(ticket);
                Ok(batch.logs[place].count())
            }
            Err(fault) => Err((ticket, fault)),
        }
    }

    // Gives up a turn that is too long: the gate is told of the reads of the log behind those of the batch, whose turns are committed first.
    // Answers whether the worker goes on, and then the batch is empty.
    fn give_up(&self, batch: &mut Batch<K>, worker: &mut Worker<K>, ticket: Ticket<K>) -> NextRound
        requires place { HasPlace K.named batch.old worker.old }
        requires tries { ticket.tries < most_tries }
        requires long { IsLong K.named batch.old ticket worker.old.seat }
        ensures room { HasBatchRoom batch.new }
        ensures few { length batch.new.tickets.items ≤ length batch.old.tickets.items }
        ensures empty { result ≡ GoesOn → batch.new.tickets.items ≡ [] }
        ensures fills { Fills worker.old worker.new (length batch.old.tickets.items) 0 0 (length batch.new.tickets.items) 0 }
        ensures keeps { result ≡ GoesOn → KeepsAll K.named worker.old (batch.old.tickets.items ++ ticket ∷ []) worker.new [] }
        ensures over { OverUnless K.named result worker.new.seat }
    {
        let place = batch.tickets.len();
        match self.commit(batch, worker) {
            NextRound::GoesOn => {}
            NextRound::Ends => return NextRound::Ends,
        }
        let at = EventAt::of(&ticket);
        let (seat, owner) = (&mut worker.seat, &mut worker.owner);
        let reads = batch.logs[place].reads();
        let reply = self.gate.too_long(self.rt, seat, ticket, reads);
        self.finish(seat, owner, at, reply)
    }

    // Evaluates the turn of a ticket that the worker got, and adds it to the batch. A turn that is too long stands in no batch:
    // the gate is told of it at once, and the worker takes one ticket at a time from then on. So it does where a turn is to be
    // evaluated under the lock, whose ticket goes back.
    fn begin(&self, batch: &mut Batch<K>, worker: &mut Worker<K>, ticket: Ticket<K>) -> Filling
        requires design { self.now.design.now ≡ K.named.code }
        requires place { HasPlace K.named batch.old worker.old }
        ensures room { HasBatchRoom batch.new }
        ensures few { length batch.new.tickets.items ≤ length batch.old.tickets.items + 1 }
        ensures fills { Fills worker.old worker.new (length batch.old.tickets.items) 1 0 (length batch.new.tickets.items) 0 }
        ensures keeps { KeepsOn K.named result worker.old (batch.old.tickets.items ++ ticket ∷ []) worker.new batch.new.tickets.items }
        ensures leads { Leads K.named result batch.new worker.new }
    {
        if ticket.tries() < MAX_TRIES {
            worker.evaluations = worker.evaluations.saturating_add(1);
            let at = EventAt::of(&ticket);
            self.probe
                .evaluation(worker.seat.worker(), at.event, ticket.tries());
            match self.add(batch, &mut worker.seat, ticket) {
                Ok(count) => {
                    batch.note(at, count);
                    if batch.is_enough() {
                        Filling::Enough
                    } else {
                        Filling::More
                    }
                }
                Err((ticket, FillFault::TooLong)) => {
                    batch.throttle.stay_alone();
                    after(self.give_up(batch, worker, ticket))
                }
                Err((_, FillFault::Memory)) => {
                    self.gate.stop(self.rt, &mut worker.seat);
                    Filling::Over
                }
            }
        } else {
            batch.throttle.stay_alone();
            let (seat, owner) = (&mut worker.seat, &mut worker.owner);
            let next = put(self.rt, self.gate, seat, owner, ticket);
            after(next)
        }
    }

    // The same with the next ticket of the worker's own deque, if there is one.
    fn extend(&self, batch: &mut Batch<K>, worker: &mut Worker<K>) -> Filling
        requires design { self.now.design.now ≡ K.named.code }
        requires place { HasPlace K.named batch.old worker.old }
        ensures room { HasBatchRoom batch.new }
        ensures few { length batch.new.tickets.items ≤ length batch.old.tickets.items + 1 }
        ensures fills { Fills worker.old worker.new (length batch.old.tickets.items) 0 1 (length batch.new.tickets.items) 0 }
        ensures keeps { KeepsOn K.named result worker.old batch.old.tickets.items worker.new batch.new.tickets.items }
        ensures leads { Leads K.named result batch.new worker.new }
    {
        match worker.owner.take() {
            Some(ticket) => self.begin(batch, worker, ticket),
            None => Filling::Enough,
        }
    }

    // Fills an empty batch, from a ticket that the worker got on. Answers whether the worker goes on.
    fn fill(&self, batch: &mut Batch<K>, worker: &mut Worker<K>, ticket: Ticket<K>) -> NextRound
        requires design { self.now.design.now ≡ K.named.code }
        requires room { HasBatchRoom batch.old }
        requires empty { batch.old.tickets.items ≡ [] }
        ensures room { HasBatchRoom batch.new }
        ensures few { length batch.new.tickets.items ≤ most_turns }
        ensures fills { (taken : ℕ) × (taken ≤ 15) × Fills worker.old worker.new 0 1 taken (length batch.new.tickets.items) 0 }
        ensures keeps { result ≡ GoesOn → KeepsAll K.named worker.old (ticket ∷ []) worker.new batch.new.tickets.items }
        ensures offered { result ≡ GoesOn → MayBeCommitted K.named batch.new worker.new }
        ensures over { OverUnless K.named result worker.new.seat }
    {
        batch.steps = 0;
        let mut next = self.begin(batch, worker, ticket);
        for _place in 1..MOST_TURNS {
            match next {
                Filling::More => {}
                Filling::Enough => return NextRound::GoesOn,
                Filling::Over => return NextRound::Ends,
            }
            next = self.extend(batch, worker);
        }
        match next {
            Filling::More => NextRound::GoesOn,
            Filling::Enough => NextRound::GoesOn,
            Filling::Over => NextRound::Ends,
        }
    }

    // What comes of the answers: each is told to the probe, and settled. Answers whether the worker goes on, and then memory was
    // refused for none.
    fn settle_all(
        &self,
        batch: &mut Batch<K>,
        seat: &mut Seat<K>,
        owner: &mut Owner<Ticket<K>>,
    ) -> NextRound
        requires room { HasBatchRoom batch.old }
        requires few { length batch.old.replies.items ≤ most_turns }
        ensures room { HasBatchRoom batch.new }
        ensures tickets { batch.new.tickets ≡ batch.old.tickets }
        ensures logs { batch.new.logs ≡ batch.old.logs }
        ensures goes { Goes 0 0 seat.old seat.new }
        ensures kept { result ≡ GoesOn → seat.new ≡ seat.old }
        ensures puts { OnlyPuts owner.old owner.new }
        ensures all { result ≡ GoesOn → owner.new.put ≡ owner.old.put ++ tickets_of batch.old.replies.items }
        ensures over { OverUnless K.named result seat.new }
        ensures settled { result ≡ GoesOn → All IsSettled batch.old.replies.items }
    {
        for place in 0..MOST_TURNS {
            let at = batch.events[place];
            let Some(reply) = batch.replies.pop_front() else {
                return NextRound::GoesOn;
            };
            batch.throttle.answered(&reply);
            match self.finish(seat, owner, at, reply) {
                NextRound::GoesOn => {}
                NextRound::Ends => return NextRound::Ends,
            }
        }
        NextRound::GoesOn
    }

    // Commits the turns of a batch in one holding of the lock, and settles the answers. Answers whether the worker goes on.
    fn commit(&self, batch: &mut Batch<K>, worker: &mut Worker<K>) -> NextRound
        requires room { HasBatchRoom batch.old }
        requires few { length batch.old.tickets.items ≤ most_turns }
        requires offered { MayBeCommitted K.named batch.old worker.old }
        ensures room { HasBatchRoom batch.new }
        ensures few { length batch.new.tickets.items ≤ length batch.old.tickets.items }
        ensures empty { result ≡ GoesOn → batch.new.tickets.items ≡ [] }
        ensures logs { batch.new.logs ≡ batch.old.logs }
        ensures rises { result ≡ GoesOn → HaveGrown worker.old.seat.fresh worker.new.seat.fresh }
        ensures fills { Fills worker.old worker.new (length batch.old.tickets.items) 0 0 (length batch.new.tickets.items) 0 }
        ensures keeps { result ≡ GoesOn → (rest : List TicketView) → KeepsAll K.named worker.old (batch.old.tickets.items ++ rest) worker.new rest }
        ensures over { OverUnless K.named result worker.new.seat }
    {
        let Batch {
            tickets,
            logs,
            events: _,
            replies,
            steps: _,
            throttle: _,
        } = batch;
        self.gate
            .commit_all(self.rt, &mut worker.seat, tickets, logs, replies);
        self.settle_all(batch, &mut worker.seat, &mut worker.owner)
    }

    /// Evaluates a ticket that the worker got, and more of its own deque, and commits their turns. Answers whether the worker goes
    /// on, and then the batch is empty again.
    pub(crate) fn serve_several(
        &self,
        batch: &mut Batch<K>,
        worker: &mut Worker<K>,
        ticket: Ticket<K>,
    ) -> NextRound
        requires design { self.now.design.now ≡ K.named.code }
        requires room { HasBatchRoom batch.old }
        requires empty { batch.old.tickets.items ≡ [] }
        ensures room { HasBatchRoom batch.new }
        ensures empty { result ≡ GoesOn → batch.new.tickets.items ≡ [] }
        ensures serves { ServesTicket worker.old worker.new }
        ensures keeps { result ≡ GoesOn → KeepsAll K.named worker.old (ticket ∷ []) worker.new [] }
        ensures within { Within 16 15 worker.old worker.new }
        ensures over { OverUnless K.named result worker.new.seat }
    {
        match self.fill(batch, worker, ticket) {
            NextRound::GoesOn => {}
            NextRound::Ends => return NextRound::Ends,
        }
        self.commit(batch, worker)
    }
}
