//! The updates of a run.

use crate::sources::{design_of, push_ring, push_updates};
use crate::timing::{How, Measure, Stopwatch, Unit, tell};
use design::Design;
use model::entry::Entry;
use regions::Machine;
use std::alloc::{AllocError, Global};
use std::collections::VecDeque;
use std::io;

/// A run, with the evaluations that are active.
#[derive(Drop)]
struct Driven<'d> {
    run: Machine<'d>,
    active: VecDeque<u64>,
}

// The evaluations that are active at the start of a run: the first of each process.
fn first_events(alloc: Global, design: &Design) -> Result<VecDeque<u64>, AllocError> {
    let mut events = VecDeque::new(alloc);
    for event in 0..design.processes() {
        events.push_back(event as u64)?;
    }
    Ok(events)
}

impl Driven<'_> {
    // Applies an entry. False where it isn't permitted.
    fn apply(&mut self, entry: Entry) -> bool {
        if self.run.take(entry).is_err() {
            return false;
        }
        for event in self.run.made() {
            if self.active.push_back(event.number).is_err() {
                return false;
            }
        }
        true
    }

    // Applies so many turns, or all that there are.
    fn turns(&mut self, most: usize) {
        for _ in 0..most {
            let Some(event) = self.active.pop_front() else {
                return;
            };
            self.apply(Entry::Turn(event));
        }
    }

    // Applies the active updates, up to so many.
    fn updates(&mut self, rt: &HostRuntime, most: u32) -> Measure {
        let before = self.run.state().entries();
        let clock = Stopwatch::start(rt);
        for _ in 0..most {
            let Some(number) = self.run.state().first_update() else {
                break;
            };
            self.apply(Entry::Update(number));
        }
        let count = self.run.state().entries().saturating_sub(before);
        clock.stop(rt, count)
    }

    // Makes the change of the regions that is due, where no event is active.
    fn change_region(&mut self) {
        if let Some(change) = self.run.due() {
            self.apply(change);
        }
    }

    // Runs up to so many entries. At most 256 updates are timed together, so that few of these times have a pause of this
    // thread in them.
    fn measure(&mut self, rt: &HostRuntime, how: How, most: u32) -> Measure {
        let mut updates = Measure::NONE;
        for _ in 0..most {
            if self.run.state().entries() >= u64::from(most) {
                break;
            }
            self.turns(256);
            updates = how.kept(updates, self.updates(rt, 256));
            self.change_region();
        }
        updates
    }
}

// The updates of a run of a design, up to so many entries.
fn drive(rt: &HostRuntime, how: How, design: &Design, most: u32) -> Result<Measure, AllocError> {
    let active = first_events(rt.alloc(), design)?;
    let mut driven = Driven {
        run: Machine::start(rt.alloc(), design)?,
        active,
    };
    Ok(driven.measure(rt, how, most))
}

fn row(rt: &HostRuntime, how: How, name: &str, source: &str) -> io::Result<()> {
    let most = how.size(20_000, 100);
    let design = design_of(rt.alloc(), source)?;
    let mut least = Measure::NONE;
    for _run in 0..how.runs() {
        least = how.kept(least, drive(rt, how, &design, most)?);
    }
    tell(rt, how, name, Unit::NanosEach, least)
}

/// Measures updates of registers: of such that nobody waits for, and of such that one process each waits for.
pub fn measure(rt: &HostRuntime, how: How) -> io::Result<()> {
    let mut source = String::new(rt.alloc());
    push_updates(&mut source, how.processes())?;
    row(rt, how, "an update, where nobody waits", source.as_str())?;
    source.clear();
    push_ring(&mut source, how.processes())?;
    row(rt, how, "an update that wakes a process", source.as_str())
}
