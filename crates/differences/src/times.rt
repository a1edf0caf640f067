//! The times at which two runs are compared.

ghost use Rattle.std.specs.Prelude.{◌≡◌, ◌++◌, IfOk, OnOk, flat_map};
ghost use Rattle.differences.specs.ComparedValues.{advance_to, no_later_than, AreComparedTimes};

use model::entry::Entry;
use std::alloc::{AllocError, Global};

// Puts a time behind others, where it isn't past the last one.
fn push_time(times: &mut Vec<u64>, time: u64, last: u64) -> Result<(), AllocError>
    ensures { OnOk result (times.new.items ≡ times.old.items ++ no_later_than last time) }
{
    if time <= last {
        times.push(time)?;
    }
    Ok(())
}

// Puts the time that an entry advances to behind others, where that isn't past the last one.
fn push_advance(times: &mut Vec<u64>, entry: Entry, last: u64) -> Result<(), AllocError>
    ensures { OnOk result (times.new.items ≡ times.old.items ++ advance_to last entry) }
{
    match entry {
        Entry::Advance(time) => push_time(times, time, last),
        Entry::Turn(_)
        | Entry::Update(_)
        | Entry::ActivateInactive
        | Entry::ActivateNba
        | Entry::ActivateMonitor => Ok(()),
    }
}

// Puts the times that a journal advances to behind others, up to the last one.
fn push_advances(times: &mut Vec<u64>, entries: &[Entry], last: u64) -> Result<(), AllocError>
    ensures { OnOk result (times.new.items ≡ times.old.items ++ flat_map (advance_to last) entries.now) }
{
    for place in 0..entries.len() {
        push_advance(times, entries[place], last)?;
    }
    Ok(())
}

/// The times that end in either of two journals, up to the last one: 0, and each that one of them advances to.
pub(crate) fn compared_times(
    alloc: Global,
    first: &[Entry],
    second: &[Entry],
    last: u64,
) -> Result<Vec<u64>, AllocError>
    ensures { IfOk result (λ times. AreComparedTimes first.now second.now last times.items) }
{
    let mut times = Vec::new(alloc);
    times.push(0)?;
    push_advances(&mut times, first, last)?;
    push_advances(&mut times, second, last)?;
    times.sort_unstable();
    times.dedup();
    Ok(times)
}
