// Journals that a generator makes from a seed: lawful ones, and ones that were cut, shuffled or changed.
ghost use Rattle.std.specs.Prelude.{◌<◌};

use super::entry_refused;
use super::worked::{COPIES, WAITERS};
use crate::claims::holds;
use crate::course::design_of;
use design::Design;
use fixtures::RACE;
use model::end::Limits;
use model::entry::Entry;
use progress::Untold;
use runs::run::RunRecord;
use seeded::run::run_seeded;
use std::alloc::Global;
use std::process::Abort;
use std::sync::Wait;

/// Designs with races, waits of each kind, updates, and strobes.
const SOURCES: &[&str] = &[
    RACE,
    COPIES,
    WAITERS,
    "module t; reg a, b; initial begin #0 a=1'b1; b<=1'b1; #5 b<= #2 1'b0; end always @(a or b) $display(\"%b %b\",a,b); always begin #3 a<=b; #1 ; end endmodule",
    "module t; reg a; initial begin a=1'b0; #4 $finish; end always begin #1 a<=1'b1; a<=1'b0; end always @(posedge a) $display(\"up\"); endmodule",
    "module t; reg a; initial begin a=1'b0; $strobe(\"s %b\",a); a<=1'b1; #1 $strobe(\"t %b\",a); end always begin #1 $strobe(\"u %b\",a); a=~a; end endmodule",
];

/// Numbers that a seed determines.
#[derive(Drop)]
struct SeededNumbers {
    state: u64,
}

impl SeededNumbers {
    // A number below a bound, which isn't 0.
    fn below(&mut self, bound: u64) -> u64
        requires { 0 < bound }
        ensures { result < bound }
    {
        self.state = self
            .state
            .wrapping_mul(6_364_136_223_846_793_005)
            .wrapping_add(1_442_695_040_888_963_407);
        (self.state >> 33) % bound
    }
}

// A lawful journal of at most 20 entries.
fn lawful(alloc: Global, design: &Design, seed: u64) -> Vec<Entry> {
    let limits = Limits {
        until: None,
        max_entries: 20,
    };
    let RunRecord {
        lines: _,
        journal,
        end: _,
    } = run_seeded(alloc, design, limits, seed, &Untold);
    journal
}

// The same entry with another number.
fn changed(entry: Entry, number: u64) -> Entry {
    match entry {
        Entry::Turn(_) => Entry::Turn(number),
        Entry::Update(_) => Entry::Update(number),
        Entry::Advance(_) => Entry::Advance(number),
        Entry::ActivateInactive | Entry::ActivateNba | Entry::ActivateMonitor => entry,
    }
}

// The journal as it is, cut, with two of its entries exchanged, or with a number changed.
fn altered(mut entries: Vec<Entry>, numbers: &mut SeededNumbers) -> Vec<Entry> {
    if entries.is_empty() {
        return entries;
    }
    let count = entries.len() as u64;
    let place = numbers.below(count) as usize;
    match numbers.below(4) {
        0 => entries.truncate(place),
        1 => {
            let other = numbers.below(count) as usize;
            entries.swap(place, other);
        }
        2 => entries[place] = changed(entries[place], numbers.below(24)),
        _ => {}
    }
    entries
}

// How many of 60 journals of a source are refused, each answered as its replay.
fn count_refused<R: Abort + Wait>(
    rt: &R,
    alloc: Global,
    source: &str,
    numbers: &mut SeededNumbers,
) -> u32 {
    let design = design_of(rt, alloc, source);
    let mut refused = 0u32;
    for _ in 0..60 {
        let seed = numbers.below(1 << 30);
        let entries = altered(lawful(alloc, &design, seed), numbers);
        if entry_refused(rt, alloc, &design, &entries) > 0 {
            refused = refused.saturating_add(1);
        }
    }
    refused
}

#[test]
fn a_journal_is_answered_as_its_replay(rt: HostRuntime) {
    let mut numbers = SeededNumbers { state: 2005 };
    let mut refused = 0u32;
    for &source in SOURCES {
        let count = count_refused(&rt, rt.alloc(), source, &mut numbers);
        refused = refused.saturating_add(count);
    }
    holds(&rt, refused >= 50, "too few journals that aren't lawful");
    holds(&rt, refused <= 250, "too few lawful journals");
}
