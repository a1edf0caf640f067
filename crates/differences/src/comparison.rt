//! Two journals, compared.

ghost use Rattle.std.specs.Prelude.{IfErr, IfOk, OnOk};
ghost use Rattle.differences.specs.CompareFaults.{IsCompareFaultOf, IsRunFaultOf};
ghost use Rattle.differences.specs.ComparedLines.{PutsParting, PutsSide};
ghost use Rattle.differences.specs.Comparisons.{AreRowsUpTo, IsCompared, IsComparison, PutsTold};
ghost use Rattle.design.specs.Compiled.{design_of};

use crate::ends::compare_ends;
use crate::fault::{CompareFault, JournalSide, RunFault};
use crate::following::differing_values;
use crate::lines::{push_ends, push_lines, push_stop, push_title, push_values};
use crate::parting::common_length;
use crate::summary::{RunSummary, summary};
use crate::times::compared_times;
use crate::told_rows::told_rows;
use crate::value_difference::ValueDifference;
use design::Design;
use explain::{EntryStyle, SourceNames, has_any, push_entry_line};
use locations::ProcessLocation;
use model::entry::Entry;
use progress::Progress;
use std::alloc::{AllocError, Global};

/// Two journals on a design, whose processes begin at these places, and whether each register that differs is told at each time, or at its first alone.
#[derive(Clone, Copy)]
pub struct ComparedJournals<'a> {
    pub processes: &'a [ProcessLocation],
    pub design: &'a Design,
    pub first: &'a [Entry],
    pub second: &'a [Entry],
    pub all: bool,
}

/// What is told of two journals, and whether they are the same: they print the same lines, end alike, and have the same values
/// whenever time passes.
#[derive(Drop)]
pub struct Comparison {
    pub text: Vec<u8>,
    pub same: bool,
}

// Puts the line of the entry of a journal behind those in common behind a text, where there is one.
fn push_side(
    alloc: Global,
    text: &mut Vec<u8>,
    names: &SourceNames<'_>,
    entries: &[Entry],
    count: usize,
    label: &[u8],
) -> Result<(), RunFault>
    ensures put { OnOk result (PutsSide names.entry.now entries.now count label.now text.old.items text.new.items) }
    ensures fault { IfErr result (IsRunFaultOf names.entry.now.design.now entries.now) }
{
    if count >= entries.len() {
        return Ok(());
    }
    match text.extend_from_slice(label) {
        Ok(()) => {}
        Err(_) => return Err(RunFault::Memory),
    }
    match push_entry_line(alloc, text, names, entries, count) {
        Ok(()) => Ok(()),
        Err(fault) => Err(RunFault::untold(fault)),
    }
}

// Puts where two journals part behind a text, and the entry of each there.
fn push_parting(
    alloc: Global,
    text: &mut Vec<u8>,
    names: &SourceNames<'_>,
    first: &[Entry],
    second: &[Entry],
    count: usize,
) -> Result<(), CompareFault>
    ensures put { OnOk result (PutsParting names.entry.now first.now second.now count text.old.items text.new.items) }
    ensures fault { IfErr result (IsCompareFaultOf names.entry.now.design.now first.now second.now) }
{
    push_title(text, count, count < first.len(), count < second.len())?;
    match push_side(alloc, text, names, first, count, b"  first: ") {
        Ok(()) => {}
        Err(fault) => return Err(fault.of(JournalSide::First)),
    }
    match push_side(alloc, text, names, second, count, b"  second: ") {
        Ok(()) => Ok(()),
        Err(fault) => Err(fault.of(JournalSide::Second)),
    }
}

// The registers that differ at the times that end in one of two journals and aren't past the end of either run.
fn rows_between(
    alloc: Global,
    design: &Design,
    first: &[Entry],
    second: &[Entry],
    last: u64,
) -> Result<Vec<ValueDifference>, CompareFault>
    ensures rows { IfOk result (λ rows. AreRowsUpTo (design_of design.now) first.now second.now last rows.items) }
    ensures fault { IfErr result (IsCompareFaultOf design.now first.now second.now) }
{
    let times = compared_times(alloc, first, second, last)?;
    differing_values(alloc, design, first, second, &times)
}

// Puts all that is told of two runs and of the registers that differ, each at each time or not, behind where the journals part.
fn push_told(
    text: &mut Vec<u8>,
    names: &SourceNames<'_>,
    all: bool,
    one: &RunSummary,
    other: &RunSummary,
    rows: &[ValueDifference],
) -> Result<bool, AllocError>
    ensures { IfOk result (PutsTold names.entry.now all one.now other.now rows.now text.old.items text.new.items) }
{
    let same_lines = push_lines(text, one.lines.as_bytes(), other.lines.as_bytes())?;
    let ends = compare_ends(one, other);
    push_ends(text, ends, one, other)?;
    push_values(text, names, all, rows)?;
    push_stop(text, one.time, other.time)?;
    Ok(same_lines & (ends.are_alike() & !has_any(rows)))
}

// Compares two journals by names, and tells each register that differs at each time or not.
fn compare_by<P: Progress>(
    alloc: Global,
    names: &SourceNames<'_>,
    first: &[Entry],
    second: &[Entry],
    all: bool,
    progress: &P,
) -> Result<Comparison, CompareFault>
    ensures compared { IfOk result (IsCompared names.entry.now all (design_of names.entry.now.design.now) first.now second.now) }
    ensures fault { IfErr result (IsCompareFaultOf names.entry.now.design.now first.now second.now) }
{
    let one = match summary(alloc, names.design, first, progress) {
        Ok(one) => one,
        Err(fault) => return Err(fault.of(JournalSide::First)),
    };
    let other = match summary(alloc, names.design, second, progress) {
        Ok(other) => other,
        Err(fault) => return Err(fault.of(JournalSide::Second)),
    };
    let last = one.time.min(other.time);
    let rows = match rows_between(alloc, names.design, first, second, last) {
        Ok(rows) => rows,
        Err(fault) => return Err(fault),
    };
    let told = told_rows(alloc, all, rows)?;
    let mut text = Vec::new(alloc);
    let count = common_length(first, second);
    match push_parting(alloc, &mut text, names, first, second, count) {
        Ok(()) => {}
        Err(fault) => return Err(fault),
    }
    let same = push_told(&mut text, names, all, &one, &other, &told)?;
    Ok(Comparison { text, same })
}

/// Compares two journals on a design, whose processes people call so: where they part, in which line they differ first, how they end, and each register
/// that differs when a time passes, up to the end of the run that ends first. Each journal has to be lawful: else the first entry of
/// one that isn't taken, and why. `progress` is told how many entries are taken.
pub fn compare<P: Progress>(
    alloc: Global,
    journals: ComparedJournals<'_>,
    progress: &P,
) -> Result<Comparison, CompareFault>
    ensures compared { IfOk result (IsComparison journals.entry.processes.now journals.entry.design.now journals.entry.all journals.entry.first.now journals.entry.second.now) }
    ensures fault { IfErr result (IsCompareFaultOf journals.entry.design.now journals.entry.first.now journals.entry.second.now) }
{
    let names = SourceNames {
        design: journals.design,
        processes: journals.processes,
        style: EntryStyle::plain(),
    };
    compare_by(
        alloc,
        &names,
        journals.first,
        journals.second,
        journals.all,
        progress,
    )
}
