//! Counts that workers share, waits for them, and the evaluations of a run.

use super::claims::holds;
use design::RegId;
use simulate::{Probe, ReplyKind};
use std::alloc::Global;
use std::process::Abort;
use std::sync::atomic::{AtomicU64, Ordering};
use std::thread;

/// How often a wait looks before it gives up: far more often than a worker needs for its longest turn, on any machine. Between
/// two looks others may go on.
const LOOKS: u32 = 100_000_000;

/// A count that workers share.
#[derive(Drop)]
pub(super) struct Count {
    number: AtomicU64,
}

impl Count {
    pub(super) fn new() -> Count {
        Count {
            number: AtomicU64::new(0),
        }
    }

    /// One more. Answers how many there were.
    pub(super) fn add(&self) -> u64 {
        self.number.fetch_add(1, Ordering::SeqCst)
    }

    pub(super) fn get(&self) -> u64 {
        self.number.load(Ordering::SeqCst)
    }

    /// As many as no wait asks for.
    pub(super) fn fill(&self) {
        self.number.store(u64::MAX, Ordering::SeqCst);
    }

    /// Adds a decimal digit at the end, where no other worker does so meanwhile.
    pub(super) fn push(&self, digit: u64) {
        let number = self.get().saturating_mul(10).saturating_add(digit);
        self.number.store(number, Ordering::SeqCst);
    }

    /// Waits until there are so many. Where it gives up it counts that.
    pub(super) fn wait(&self, least: u64, given_up: &Count) {
        for _ in 0..LOOKS {
            if self.get() >= least {
                return;
            }
            thread::yield_now();
        }
        given_up.add();
    }
}

/// How often each event of a run is evaluated: a probe that counts.
#[derive(Drop)]
pub(super) struct Evaluations {
    of_events: Vec<Count>,
}

impl Evaluations {
    /// None yet, of the events with lesser numbers.
    pub(super) fn new(rt: &impl Abort, alloc: Global, events: u64) -> Evaluations {
        let mut of_events = Vec::new(alloc);
        for _ in 0..events {
            of_events.push(Count::new()).expect(rt, "memory");
        }
        Evaluations { of_events }
    }

    pub(super) fn add(&self, event: u64) {
        if let Some(count) = self.of_events.get(event as usize) {
            count.add();
        }
    }

    /// How often an event was evaluated.
    pub(super) fn of(&self, event: u64) -> u64 {
        match self.of_events.get(event as usize) {
            Some(count) => count.get(),
            None => 0,
        }
    }

    /// No event was evaluated more than four times. Answers how many evaluations there were.
    pub(super) fn assert_few(&self, rt: &impl Abort) -> u64 {
        let mut sum = 0u64;
        for count in self.of_events.iter() {
            let times = count.get();
            holds(rt, times <= 4, "an event was evaluated too often");
            sum = sum.saturating_add(times);
        }
        sum
    }
}

impl Probe for Evaluations {
    fn evaluation(&self, _worker: u32, event: u64, _tries: u8) {
        self.add(event);
    }

    fn read(&self, _worker: u32, _register: RegId) {}

    fn replied(&self, _worker: u32, _event: u64, _kind: ReplyKind) {}
}
