//! Whose work short turns are. To hand a ticket over and to meet another worker at the lock costs more than a short turn, so
//! a worker whose turns are short takes tickets only while it is admitted, and one worker is admitted at a time; the others back off.
//! That decides who evaluates a turn and when, and never what a run may answer.

use crate::batch::MOST_TURNS;
use commitgate::{Naming, Reply};
use std::sync::atomic::{AtomicBool, AtomicU64, Ordering};
use std::sync::{Condvar, Wait};
use std::time::Duration;

// Turns of fewer counted steps than this, in the mean, are short.
const SHORT: u64 = 120;

// In the mean the last turn has the weight of one in so many.
const WEIGHT: u64 = 8;

// After so many answers that weren't stale, twice as many turns are committed at once.
const ENOUGH: u32 = 64;

// How often a worker looks again for a ticket before it rests: some microseconds, at the end of which it lets others run.
const LOOKS: u32 = 11;

// How long a worker backs off, in microseconds. An admitted worker that makes no round for so long is held up.
const BACKOFF: u64 = 500;

/// The admission to short turns, which one worker has at a time.
#[derive(Drop)]
pub struct Admission {
    taken: AtomicBool,
    // How many rounds the admitted workers have begun.
    rounds: AtomicU64,
    // Notified where the admission is given up for good, or a run is over.
    left: Condvar,
}

impl Admission {
    /// No worker is admitted.
    pub fn new() -> Admission {
        Admission {
            taken: AtomicBool::new(false),
            rounds: AtomicU64::new(0),
            left: Condvar::new(),
        }
    }

    // Whether no worker was admitted, and this one is now.
    fn enter(&self) -> bool {
        !self.taken.swap(true, Ordering::AcqRel)
    }

    // Sleeps for a backoff, or until the admission is given up.
    fn back_off<R: Wait>(&self, rt: &R) {
        let seen = self.left.notifications();
        self.left.sleep(rt, seen, Duration::from_micros(BACKOFF));
    }
}

/// How long a worker's turns were of late, how many of them it commits at once, and whether it is admitted.
#[derive(Drop)]
pub struct Throttle {
    // The mean of the counted steps of its turns, times WEIGHT.
    steps: u64,
    // How many short turns are committed at once, and how many answers since that number changed weren't stale.
    turns: usize,
    fresh: u32,
    // Whether it commits one turn at a time, whatever they are.
    is_alone: bool,
    is_admitted: bool,
    // The rounds of admitted workers when the worker backed off last, where no ticket was looked for since.
    rounds: Option<u64>,
}

impl Throttle {
    /// The throttle of a worker that has evaluated nothing: its turns count as long until some were short.
    pub(crate) fn new() -> Throttle {
        Throttle {
            steps: 4 * SHORT * WEIGHT,
            turns: 1,
            fresh: 0,
            is_alone: false,
            is_admitted: false,
            rounds: None,
        }
    }

    /// Takes a turn of this many counted steps into the mean.
    pub(crate) fn note(&mut self, count: u32) {
        self.steps = (self.steps - self.steps / WEIGHT).saturating_add(u64::from(count));
    }

    /// Whether the worker's turns are short.
    pub(crate) fn is_short(&self) -> bool {
        self.steps < SHORT * WEIGHT
    }

    /// How often the worker looks again for a ticket before it rests: not at all where its turns are short.
    pub(crate) fn looks(&self) -> u32 {
        if self.is_short() { 0 } else { LOOKS }
    }

    /// How many turns are committed at once.
    pub(crate) fn turns(&self) -> usize {
        self.turns
    }

    /// Whether the worker commits several turns at once.
    pub(crate) fn takes_several(&self) -> bool {
        self.turns > 1 && !self.is_alone && self.is_short()
    }

    /// One turn is committed at a time from now on.
    pub(crate) fn stay_alone(&mut self) {
        self.is_alone = true;
    }

    /// Takes an answer into account. Where turns change what others read, those of one batch make each other stale: so one turn is
    /// committed at a time after a stale one, and twice as many after some that weren't.
    pub(crate) fn answered<K: Naming>(&mut self, reply: &Reply<K>) {
        match reply {
            Reply::Stale(_, _) => {
                self.turns = 1;
                self.fresh = 0;
            }
            Reply::Accepted(_) | Reply::Gone | Reply::Stopped(_) | Reply::NoMemory(_) => {
                self.fresh = self.fresh.saturating_add(1);
                if self.fresh >= ENOUGH && self.turns < MOST_TURNS {
                    self.turns = self.turns.saturating_mul(2);
                    self.fresh = 0;
                }
            }
        }
    }

    /// Lets another worker be admitted, and wakes those that back off. A worker that rests stays admitted: it comes back with
    /// tickets, and where it has to wait, those that back off see that it makes no round.
    pub(crate) fn leave(&mut self, admission: &Admission) {
        if self.is_admitted {
            self.is_admitted = false;
            admission.taken.store(false, Ordering::Release);
        }
        admission.left.notify_all();
    }

    /// Whether the worker may take a ticket now: it is admitted, or the one that is was held up for a whole backoff. Else
    /// it has backed off.
    pub(crate) fn may_go<R: Wait>(&mut self, rt: &R, admission: &Admission) -> bool {
        if !self.is_short() {
            if self.is_admitted {
                self.leave(admission);
            }
            return true;
        }
        self.is_admitted = self.is_admitted || admission.enter();
        if self.is_admitted {
            admission.rounds.fetch_add(1, Ordering::Relaxed);
            return true;
        }
        let rounds = admission.rounds.load(Ordering::Relaxed);
        if self.rounds == Some(rounds) {
            self.rounds = None;
            return true;
        }
        self.rounds = Some(rounds);
        admission.back_off(rt);
        false
    }
}
