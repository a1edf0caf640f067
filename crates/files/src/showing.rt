//! How far long work is, in one line of the terminal.
//!
//! 1. It is shown where standard error is a terminal, and written there directly. Elsewhere nothing is written at all.
//! 2. No line is shown in the first second, and then one a second at most, each in the place of the one before.
//! 3. At the end of the work the line is gone.

use progress::{HowFar, Progress};
use std::alloc::{AllocError, Global};
use std::io::{IsTerminal, Print, Stderr};
use std::rt::Clock;
use std::sync::atomic::{AtomicBool, AtomicU64, Ordering};
use std::time::Instant;

/// It leads to the line's beginning and takes away what stands there.
const ERASED: &[u8] = b"\r\x1b[K";

/// Shows on the terminal how far long work is. Workers may tell it at once.
#[derive(Drop)]
pub struct SystemProgress<'a, R> {
    rt: &'a R,
    terminal: Stderr,
    /// When the work began, where it is shown.
    began: Option<Instant>,
    /// The second of the work from which on the next line may be shown.
    next: AtomicU64,
    /// Whether a line stands there.
    shown: AtomicBool,
}

impl<'a, R: Clock> SystemProgress<'a, R> {
    /// Work begins now. It is shown if that is wanted and can be.
    pub fn begin(rt: &'a R, terminal: Stderr, wanted: bool) -> Self {
        SystemProgress {
            rt,
            terminal,
            began: time_of_begin(rt, wanted && terminal.is_terminal()),
            next: AtomicU64::new(1),
            shown: AtomicBool::new(false),
        }
    }

    /// Whether a line may be shown now. Of those who ask in one second, one at most hears so.
    fn is_due(&self) -> bool {
        let Some(began) = self.began else {
            return false;
        };
        let Ok(lasted) = began.elapsed(self.rt) else {
            return false;
        };
        let next = self.next.load(Ordering::SeqCst);
        let second = lasted.as_secs();
        second >= next && self.claims(next, second.saturating_add(1))
    }

    /// Nobody else has shown a line since `next` was read.
    fn claims(&self, next: u64, after: u64) -> bool {
        self.next
            .compare_exchange(next, after, Ordering::SeqCst, Ordering::SeqCst)
            .is_ok()
    }
}

/// When work begins that is shown. Without a clock none is.
fn time_of_begin<R: Clock>(rt: &R, shown: bool) -> Option<Instant> {
    if shown { Instant::now(rt).ok() } else { None }
}

impl<R: Clock + AllocGlobal + Sync> Progress for SystemProgress<'_, R> {
    /// Shows how far the work is, where a line may be shown now.
    fn tell(&self, how_far: HowFar) {
        if !self.is_due() {
            return;
        }
        // What can't be shown is left out: the work goes on.
        if let Ok(line) = line_of(self.rt.alloc(), how_far) {
            self.shown.store(true, Ordering::SeqCst);
            let _ = self.terminal.write_some(line.as_bytes());
        }
    }

    /// Takes the line away, where one stands there.
    fn end(&self) {
        if self.shown.swap(false, Ordering::SeqCst) {
            let _ = self.terminal.write_some(ERASED);
        }
    }
}

/// A line in the place of the one before.
fn line_of(alloc: Global, how_far: HowFar) -> Result<String, AllocError> {
    match how_far {
        HowFar::Entries { entries, time } => {
            format!(in alloc; "\rvsimtx: {entries} entries, time {time}\x1b[K")
        }
        HowFar::States { states, time } => {
            format!(in alloc; "\rvsimtx: {states} states, time {time}\x1b[K")
        }
        HowFar::Runs { made: 1 } => format!(in alloc; "\rvsimtx: 1 run\x1b[K"),
        HowFar::Runs { made } => format!(in alloc; "\rvsimtx: {made} runs\x1b[K"),
    }
}
