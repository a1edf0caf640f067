//! The rule of one deque: what was put is what has left, in order, and then what is in it.
use crossbeam_deque::protocol::{Join, Lesson, Outcome, Protocol, Split};
use crossbeam_deque::{Pass, Stealer, Worker};
use std::alloc::Global;
use std::collections::LinkedList;

/// What an end knows of its deque. No value of it is made.
pub struct Hand<T> {
    /// It is the owner's: it knows all that was put, how many names were given, and what came back.
    pub owns: bool,
    /// It has a name, by which the trail calls it. The owner's is 0.
    pub named: bool,
    pub name: u64,
    pub given: u64,
    pub put: LinkedList<T>,
    /// What it removed.
    pub got: LinkedList<T>,
    /// The beginning of the trail that it saw.
    pub seen: LinkedList<(u64, T)>,
    /// Of each thief that came back, by rising name: what it removed, and what it saw.
    pub back: LinkedList<(LinkedList<T>, LinkedList<(u64, T)>)>,
}

/// What was put left in that order, or is still in the deque.
pub struct FirstInFirstOut;

impl<T> Protocol<T, Hand<T>> for FirstInFirstOut {
    ghost use Rattle.std.specs.Prelude.{[]};
    ghost use Rattle.eventpool.specs.DequeRule.{owner, nameless_hand, DequeInvariant};

    ghost holds = { DequeInvariant };

    ghost first = { owner 1 [] [] [] [] };

    ghost guest = { nameless_hand };
}

/// A put by the owner.
pub struct Puts;

impl<T> Outcome<T, Hand<T>> for Puts {
    ghost use Rattle.std.specs.Prelude.{◌≡◌, ◌++◌};

    ghost then = { λ v xs w. w ≡ record v { put = v.put ++ xs } };
}

/// A removal at the front by the owner.
pub struct Takes;

impl<T> Outcome<T, Hand<T>> for Takes {
    ghost use Rattle.eventpool.specs.DequeRule.{Removed, AllGone};

    ghost then = { Removed };

    ghost empty = { AllGone };
}

/// A removal at the front by a thief.
pub struct Steals;

impl<T> Outcome<T, Hand<T>> for Steals {
    ghost use Rattle.eventpool.specs.DequeRule.{Removed, Bare};

    ghost then = { Removed };

    ghost empty = { Bare };
}

/// Makes the thief of the next name.
pub struct NextThief;

impl<T> Split<Hand<T>> for NextThief {
    ghost use Rattle.std.specs.Prelude.{[], ◌+◌};
    ghost use Rattle.eventpool.specs.DequeRule.{thief};

    ghost left = { λ v. record v { given = v.given + 1 } };

    ghost right = { λ v. thief v.given [] [] };
}

/// Takes a thief back, the last name first.
pub struct Returns;

impl<T> Join<Hand<T>> for Returns {
    ghost use Rattle.std.specs.Prelude.{◌∷◌};
    ghost use Rattle.eventpool.specs.DequeRule.{nameless_hand};

    ghost both = { λ v u. record v { back = (u.got, u.seen) ∷ v.back } };

    ghost spent = { nameless_hand };
}

/// What the owner learns of the deque at one moment.
pub struct OwnerCounts;

impl<T> Lesson<T, Hand<T>> for OwnerCounts {
    ghost use Rattle.eventpool.specs.DequeRule.{Tallies};

    ghost fact = { Tallies };
}

pub type OwnerEnd<T> = Worker<T, Global, Hand<T>, FirstInFirstOut>;

pub type ThiefEnd<T> = Stealer<T, Global, Hand<T>, FirstInFirstOut>;

pub type ThiefPass<T> = Pass<T, Hand<T>>;
