// Journals that are led through a gate of one seat: each is answered as one thread's replay answers it.
//
// 1. `worked` has journals that were written by hand, with their lines or the first entry that isn't lawful.
// 2. `generated` has journals that a generator makes: lawful ones, and ones that were cut, shuffled or changed.

use crate::claims::{fail, holds};
use commitgate::Closed;
use design::Design;
use drive::{DriveFault, drive};
use model::entry::Entry;
use replay::{ReplayFault, replay};
use std::alloc::Global;
use std::process::Abort;
use std::sync::Wait;

mod generated;
pub mod worked;

/// The lines of a lawful journal.
pub fn assert_lines(
    rt: &impl Abort,
    alloc: Global,
    design: &Design,
    entries: &[Entry],
    lines: &str,
) {
    match replay(alloc, design, entries) {
        Ok(replayed) => holds(
            rt,
            replayed.lines.as_str() == lines,
            "other lines than the replay's",
        ),
        Err(fault) => panic!(rt; "{fault}"),
    }
}

// The fault of a replay, if it has one.
fn fault_of(alloc: Global, design: &Design, entries: &[Entry]) -> Option<ReplayFault> {
    replay(alloc, design, entries).err()
}

// The first entry that isn't lawful.
fn assert_refused(rt: &impl Abort, alloc: Global, design: &Design, entries: &[Entry], entry: u64) {
    let fault = fault_of(alloc, design, entries).expect(rt, "no lawful journal");
    if fault.entry != entry {
        panic!(rt; "{fault}");
    }
}

/// A journal that is led through a gate gives the lines of its replay, or the entry that the replay names. Answers those
/// lines, or that entry.
fn answer<R: Abort + Wait>(
    rt: &R,
    alloc: Global,
    design: &Design,
    entries: &[Entry],
) -> Result<Closed, u64> {
    holds(rt, entries.len() < 1_000_000, "a short journal");
    match drive(rt, alloc, design, entries) {
        Ok(closed) => {
            holds(rt, closed.entries() == entries, "the entries");
            assert_lines(rt, alloc, design, entries, closed.lines());
            Ok(closed)
        }
        Err(DriveFault::Unlawful(entry)) => {
            assert_refused(rt, alloc, design, entries, entry);
            Err(entry)
        }
        Err(DriveFault::Memory) => fail(rt, "memory"),
    }
}

/// The entry that is refused, or 0 for a lawful journal.
fn entry_refused<R: Abort + Wait>(
    rt: &R,
    alloc: Global,
    design: &Design,
    entries: &[Entry],
) -> u64 {
    answer(rt, alloc, design, entries).err().unwrap_or(0)
}
