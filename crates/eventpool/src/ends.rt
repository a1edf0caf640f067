//! The ends of a deque: its owner, and its thieves.
ghost use Rattle.std.specs.Prelude.{◌≡◌, ℕ, ◌+◌, ◌<◌, ◌≤◌, ◌^◌, List, [], ◌∷◌, ◌++◌, ◌⊎◌, length, IfOk, IfErr, IfSome, IfNone, OnOk, sum_by};
ghost use mathlib.Core.List.{IsPrefix};
ghost use Rattle.eventpool.specs.DequeTrail.{trail_tickets, got_by, EndsWith, IsDealt};
ghost use Rattle.eventpool.specs.Ends.{owner_card, thief_card};
ghost use Rattle.eventpool.specs.DequeAnswers.{IfOne, IfEmpty, IfAgain, IsAllGone, IsBare};

use crate::rule::{
    NextThief, OwnerCounts, OwnerEnd, Puts, Returns, Steals, Takes, ThiefEnd, ThiefPass,
};
use crossbeam_deque::Steal;
use std::alloc::{AllocError, Global};
use std::marker::Model;
use thiserror::Error;

// The slots that a deque begins with.
const ROOM: usize = 64;

// The most tickets that are put into one deque.
const MOST: u64 = 1 << 62;

/// Why a ticket wasn't put.
#[derive(Clone, Copy, Debug, PartialEq, Eq, Error)]
pub enum PutFault {
    /// The deque refused to grow, for memory or a limit of its own.
    #[error("H1 deque cannot grow")]
    CannotGrow,
}

/// What a steal answers.
#[derive(Drop)]
pub enum Stolen<T> {
    /// The first ticket.
    One(T),
    /// At one moment of the call the deque was empty.
    Empty,
    /// That, or another end was quicker. The next steal may get a ticket.
    Again,
}

/// The end of a deque that puts at the back, and takes at the front.
#[derive(Drop)]
pub struct Owner<T> {
    end: OwnerEnd<T>,
    puts: u64,
    takes: u64,
}

impl<T> Model for Owner<T> {
    ghost use Rattle.eventpool.specs.Ends.{Owning};

    ghost Value = { Owning T };

    ghost use Rattle.eventpool.specs.Views.{owning, IsOwner};

    ghost view = { owning };

    ghost invariant = { IsOwner };
}

// How many tickets were put into a deque, taken and stolen, and how many are left.
#[derive(Drop)]
pub(crate) struct DequeTally {
    pub(crate) puts: u64,
    pub(crate) takes: u64,
    pub(crate) steals: u64,
    pub(crate) left: u64,
}

/// An end of a deque that steals at the front.
#[derive(Drop)]
pub struct Thief<T> {
    end: ThiefEnd<T>,
    pass: ThiefPass<T>,
}

impl<T> Model for Thief<T> {
    ghost use Rattle.eventpool.specs.Ends.{Stealing};

    ghost Value = { Stealing T };

    ghost use Rattle.eventpool.specs.Views.{stealing, IsThief};

    ghost view = { stealing };

    ghost invariant = { IsThief };
}

impl<T: Drop> Owner<T> {
    // An empty deque.
    pub(crate) fn new(alloc: Global) -> Result<Owner<T>, AllocError>
        ensures { IfOk result (λ o. (o.given ≡ 1) × (o.put ≡ []) × (o.taken ≡ []) × (o.seen ≡ []) × (o.back ≡ [])) }
    {
        let end = OwnerEnd::<T>::fifo_as(alloc, ROOM)?;
        Ok(Owner {
            end,
            puts: 0,
            takes: 0,
        })
    }

    /// Puts a ticket behind the others. A ticket that is refused comes back, and the deque is unchanged: it could not grow.
    /// The first 64 puts of a deque are never refused.
    pub fn put(&mut self, ticket: T) -> Result<(), (T, PutFault)>
        ensures put { OnOk result (self.new ≡ record self.old { put = self.old.put ++ ticket ∷ [] }) }
        ensures refused { IfErr result (λ e. (e.0 ≡ ticket) × (self.new ≡ self.old)) }
        ensures room { IfErr result (λ _. 64 ≤ length self.old.put) }
        ensures end { owner_card self.new ≡ owner_card self.old }
    {
        if self.puts >= MOST {
            return Err((ticket, PutFault::CannotGrow));
        }
        match self.end.push_as::<Puts>(ticket) {
            Ok(()) => {
                self.puts += 1;
                Ok(())
            }
            Err(ticket) => Err((ticket, PutFault::CannotGrow)),
        }
    }

    /// Takes the first ticket. There is none only if at one moment of the call all that was put had been taken or stolen.
    /// It takes no memory.
    pub fn take(&mut self) -> Option<T>
        ensures taken { IfSome result (λ x. self.new ≡ record self.old { taken = self.old.taken ++ x ∷ []; seen = self.new.seen }) }
        ensures seen { IfSome result (λ x. EndsWith self.old.seen self.new.seen 0 x) }
        ensures got { IfSome result (λ _. self.new.taken ≡ got_by 0 self.new.seen) }
        ensures put { IfSome result (λ _. IsPrefix (trail_tickets self.new.seen) self.old.put) }
        ensures none { IfNone result ((self.new ≡ self.old) × IsAllGone self.old) }
        ensures end { owner_card self.new ≡ owner_card self.old }
    {
        match self.end.pop_as::<Takes>() {
            Some(ticket) => {
                self.takes += 1;
                Some(ticket)
            }
            None => None,
        }
    }

    // A thief, with the next name.
    pub(crate) fn thief(&mut self) -> Result<Thief<T>, AllocError>
        requires { self.old.back ≡ [] }
        ensures thief { IfOk result (λ t. t ≡ record { deque = self.old.deque; name = self.old.given; stolen = []; seen = []; gone = t.gone }) }
        ensures owner { OnOk result (self.new ≡ record self.old { given = self.old.given + 1 }) }
    {
        let end = self.end.stealer()?;
        let pass = self.end.another::<NextThief>();
        Ok(Thief { end, pass })
    }

    // Takes a thief back, the last name first.
    pub(crate) fn receive(&mut self, thief: Thief<T>)
        requires deque { thief.deque ≡ self.old.deque }
        requires last { (thief.name + 1) + length self.old.back ≡ self.old.given }
        ensures { self.new ≡ record self.old { back = (thief.stolen, thief.seen) ∷ self.old.back } }
    {
        let Thief { end, pass } = thief;
        self.end.absorb::<Returns>(pass);
        drop(end);
    }

    // The number of tickets that are left, once all thieves came back.
    pub(crate) fn count(&mut self) -> u64
        requires { length self.old.back + 1 ≡ self.old.given }
        ensures same { self.new ≡ self.old }
        ensures dealt { (left : List T) × (length left ≡ result) × IsDealt self.old.put ((self.old.taken, self.old.seen) ∷ self.old.back) left }
    {
        self.end.len_as::<OwnerCounts>() as u64
    }

    // What became of the tickets, once all thieves came back.
    pub(crate) fn settle(&mut self) -> DequeTally
        requires { length self.old.back + 1 ≡ self.old.given }
        ensures same { self.new ≡ self.old }
        ensures dealt { (left : List T) × (length left ≡ result.left) × IsDealt self.old.put ((self.old.taken, self.old.seen) ∷ self.old.back) left }
        ensures puts { result.puts ≡ length self.old.put }
        ensures takes { result.takes ≡ length self.old.taken }
        ensures steals { result.steals ≡ sum_by (λ h. length h.0) self.old.back }
        ensures all { result.puts ≡ result.takes + result.steals + result.left }
        ensures most { result.puts ≤ 2 ^ 62 }
    {
        let left = self.count();
        let puts = self.puts;
        let takes = self.takes;
        let steals = puts - takes - left;
        DequeTally {
            puts,
            takes,
            steals,
            left,
        }
    }
}

impl<T: Drop> Thief<T> {
    /// Steals the first ticket. `Empty` says that at one moment of the call the deque was empty. `Again` says that, or that
    /// another end was quicker: a ticket left that this thief had not known to have left. It takes no memory.
    pub fn steal(&mut self) -> Stolen<T>
        ensures stolen { IfOne result (λ x. self.new ≡ record self.old { stolen = self.old.stolen ++ x ∷ []; seen = self.new.seen; gone = self.new.gone }) }
        ensures seen { IfOne result (λ x. EndsWith self.old.seen self.new.seen self.old.name x) }
        ensures got { IfOne result (λ _. self.new.stolen ≡ got_by self.old.name self.new.seen) }
        ensures empty { IfEmpty result ((self.new ≡ record self.old { gone = self.new.gone }) × IsBare self.old) }
        ensures again { IfAgain result ((self.new ≡ record self.old { gone = self.new.gone }) × ((self.old.gone < self.new.gone) ⊎ IsBare self.old)) }
        ensures end { thief_card self.new ≡ thief_card self.old }
    {
        match self.end.steal_as::<Steals>(&mut self.pass) {
            Steal::Success(ticket) => Stolen::One(ticket),
            Steal::Empty => Stolen::Empty,
            Steal::Retry => Stolen::Again,
        }
    }
}
