//! Journals of sources, replayed: what they print, and which entry is refused.

use super::compare::assert_text;
use super::held::design_of;
use crate::claims::holds;
use design::Design;
use model::entry::{Entry, Refusal};
use replay::{Cause, ReplayFault, Replayed, replay};
use std::alloc::Global;
use std::process::Abort;

/// What comes of a lawful journal: its lines, and whether nothing is left to do.
#[derive(Drop)]
pub struct Printed {
    lines: String,
    pub is_over: bool,
}

fn printed_of(rt: &impl Abort, alloc: Global, replayed: &Replayed) -> Printed {
    Printed {
        lines: String::from_str(alloc, replayed.lines.as_str()).expect(rt, "memory"),
        is_over: replayed.state.is_quiet(),
    }
}

/// What comes of a journal of a design. Tests share this call of `replay`, since a state that is owned is dear to prove.
pub fn outcome(
    rt: &impl Abort,
    alloc: Global,
    design: &Design,
    journal: &[Entry],
) -> Result<Printed, ReplayFault> {
    match replay(alloc, design, journal) {
        Ok(replayed) => Ok(printed_of(rt, alloc, &replayed)),
        Err(fault) => Err(fault),
    }
}

// What comes of a journal of a source without faults.
fn outcome_of_source(
    rt: &impl Abort,
    alloc: Global,
    source: &[u8],
    journal: &[Entry],
) -> Result<Printed, ReplayFault> {
    let design = design_of(rt, alloc, source);
    outcome(rt, alloc, &design, journal)
}

/// The journal of the source is lawful, and prints these lines. Says whether nothing is left to do.
pub fn assert_prints(
    rt: &impl Abort,
    alloc: Global,
    source: &[u8],
    journal: &[Entry],
    lines: &str,
) -> bool {
    match outcome_of_source(rt, alloc, source, journal) {
        Ok(printed) => {
            assert_text(rt, printed.lines.as_str(), lines);
            printed.is_over
        }
        Err(fault) => panic!(rt; "{fault}"),
    }
}

/// An entry of the journal, counted from 1, is refused.
pub fn assert_refuses(
    rt: &impl Abort,
    alloc: Global,
    source: &[u8],
    journal: &[Entry],
    entry: u64,
    refusal: Refusal,
) {
    let fault = outcome_of_source(rt, alloc, source, journal).err();
    let cause = Cause::Refused(refusal);
    holds(
        rt,
        fault == Some(ReplayFault { entry, cause }),
        "another fault",
    );
}
