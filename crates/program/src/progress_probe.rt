//! How far a run on workers is, told on.

use design::RegId;
use progress::{HowFar, Progress};
use simulate::{Probe, ReplyKind};
use std::sync::atomic::{AtomicU64, Ordering};

/// As many entries as stand between two that are told, or a few more.
const STRIDE: u64 = 4096;

/// Looks on while a run goes on, and tells at some of its entries how far it is.
///
/// The workers share a mark, which most of their calls only read. It isn't enough to tell at multiples of a number: workers know of
/// the entries of turns alone, and a regular run may have none of them there.
#[derive(Drop)]
pub struct ProgressProbe<'a, P> {
    progress: &'a P,
    /// As many entries as the journal has when the run is told next.
    next: AtomicU64,
}

impl<'a, P: Progress> ProgressProbe<'a, P> {
    /// Tells this one.
    pub fn of(progress: &'a P) -> Self {
        ProgressProbe {
            progress,
            next: AtomicU64::new(STRIDE),
        }
    }
}

impl<P: Progress> Probe for ProgressProbe<'_, P> {
    fn evaluation(&self, _worker: u32, _event: u64, _tries: u8) {}

    fn read(&self, _worker: u32, _register: RegId) {}

    fn replied(&self, _worker: u32, _event: u64, _kind: ReplyKind) {}

    /// Tells how far the run is, where it has as many entries as it is told at next.
    fn grown(&self, _worker: u32, entries: u64, time: u64) {
        if entries >= self.next.load(Ordering::SeqCst) {
            self.next
                .store(entries.saturating_add(STRIDE), Ordering::SeqCst);
            self.progress.tell(HowFar::Entries { entries, time });
        }
    }
}
