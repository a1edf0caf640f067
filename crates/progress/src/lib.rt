//! How far long work is, for those who wait for it.
//!
//! 1. Work that may take long is lent a `Progress`, and tells it at times how far it is.
//! 2. What is told changes nothing of the work: no clause speaks of it.
#![tactic(auto)]

/// How far long work is.
#[derive(Clone, Copy)]
pub enum HowFar {
    /// A run, or a journal that is followed, has so many entries, and stands at this time.
    Entries { entries: u64, time: u64 },
    /// A search has reached so many states, and goes on from one at this time.
    States { states: u64, time: u64 },
    /// So many random runs were made.
    Runs { made: u64 },
}

/// Who is told how far long work is.
pub trait Progress: Sync {
    /// The work is so far. It may be told often: who shows it shows some of it.
    fn tell(&self, how_far: HowFar);

    /// The work has come to its end: nothing that was shown is to stay.
    fn end(&self);
}

/// Nobody is told.
#[derive(Clone, Copy)]
pub struct Untold;

impl Progress for Untold {
    fn tell(&self, _how_far: HowFar) {}

    fn end(&self) {}
}

/// As many entries as are taken from one telling to the next.
const STRIDE: u64 = 4096;

/// Tells of a run or of a journal that is followed, at some of its entries.
pub fn tell_entries<P: Progress>(progress: &P, entries: u64, time: u64) {
    if entries % STRIDE == 0 {
        progress.tell(HowFar::Entries { entries, time });
    }
}
