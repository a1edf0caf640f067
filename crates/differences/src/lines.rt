//! The lines on two journals.

ghost use Rattle.std.specs.Prelude.{◌≡◌, ◌++◌, IfOk, OnOk, Some};
ghost use Rattle.differences.specs.ComparedLines.{PutsLinesText, both_end_head, both_end_tail, both_end_text, both_ends, different_text, done_by_text, ends_text, given_text, giver_text, row_lines, row_text, stop_head, earlier_end_text, title_end, parting_title_text, values_text, values_title};

use crate::ends::EndsCompared;
use crate::summary::RunSummary;
use crate::value_difference::{GivenValue, ValueDifference, ValueGiver};
use explain::{SourceNames, has_any, push_labelled, push_register};
use literals::{Radix, push_value};
use std::alloc::AllocError;
use verdict::{Difference, first_difference, push_line};

// What is said of two journals behind the number of the entries that they have in common, by whether each has more.
fn title_end(first: bool, second: bool) -> &'static str
    ensures { result.now ≡ title_end first second }
{
    match (first, second) {
        (true, true) => "; then the journals part (these entries needn't be the race)\n",
        (false, true) => "; then the first journal ends\n",
        (true, false) => "; then the second journal ends\n",
        (false, false) => "; the journals are the same\n",
    }
}

/// Puts behind a text how many entries two journals have in common, and what comes then, by whether each has more.
pub(crate) fn push_title(
    text: &mut Vec<u8>,
    count: usize,
    first: bool,
    second: bool,
) -> Result<(), AllocError>
    ensures { OnOk result (text.new.items ≡ text.old.items ++ parting_title_text count first second) }
{
    push_labelled(text, b"common entries: ", count as u64)?;
    text.extend_from_slice(title_end(first, second).as_bytes())
}

// Puts the first line in which two texts differ behind a text.
fn push_different(text: &mut Vec<u8>, difference: &Difference<'_>) -> Result<(), AllocError>
    ensures { OnOk result (text.new.items ≡ text.old.items ++ different_text difference.entry.now.line difference.entry.now.first.now difference.entry.now.second.now) }
{
    text.extend_from_slice(b"they print different lines\n  first")?;
    push_line(text, difference.line, difference.first)?;
    text.extend_from_slice(b"  second")?;
    push_line(text, difference.line, difference.second)
}

/// Puts what is said of the lines of two runs behind a text, and answers whether they are the same.
pub(crate) fn push_lines(
    text: &mut Vec<u8>,
    first: &[u8],
    second: &[u8],
) -> Result<bool, AllocError>
    ensures { IfOk result (PutsLinesText first.now second.now text.old.items text.new.items) }
{
    match first_difference(first, second) {
        Some(difference) => {
            push_different(text, &difference)?;
            Ok(false)
        }
        None => {
            text.extend_from_slice(b"they print the same lines\n")?;
            Ok(true)
        }
    }
}

// Puts a title behind a text, and the ends of two runs, of which each is told in words.
fn push_both_ends(
    text: &mut Vec<u8>,
    title: &[u8],
    one: &RunSummary,
    other: &RunSummary,
) -> Result<(), AllocError>
    ensures { OnOk result (text.new.items ≡ text.old.items ++ (title.now ++ both_ends one.now.ending.items other.now.ending.items)) }
{
    text.extend_from_slice(title)?;
    text.extend_from_slice(b"  first: ")?;
    text.extend_from_slice(one.ending.as_slice())?;
    text.extend_from_slice(b"  second: ")?;
    text.extend_from_slice(other.ending.as_slice())
}

// What stands before the time at which two runs end alike, by whether `$finish` ends them (17.4.1).
fn both_end_head(finished: bool) -> &'static [u8]
    ensures { result.now ≡ both_end_head finished }
{
    match finished {
        true => b"both end by $finish at time ",
        false => b"both end at time ",
    }
}

// What stands behind that time, by that and by whether no event is left.
fn both_end_tail(finished: bool, quiet: bool) -> &'static [u8]
    ensures { result.now ≡ both_end_tail finished quiet }
{
    match (finished, quiet) {
        (true, _) => b"\n",
        (false, true) => b", with no event left\n",
        (false, false) => b", with events left\n",
    }
}

// Puts behind a text that two runs end alike, by how one of them does.
fn push_both_end(text: &mut Vec<u8>, one: &RunSummary) -> Result<(), AllocError>
    ensures { OnOk result (text.new.items ≡ text.old.items ++ both_end_text one.now.finished one.now.quiet one.now.time) }
{
    push_labelled(text, both_end_head(one.finished), one.time)?;
    text.extend_from_slice(both_end_tail(one.finished, one.quiet))
}

/// Puts what is said of the ends of two runs behind a text, by how they compare.
pub(crate) fn push_ends(
    text: &mut Vec<u8>,
    ends: EndsCompared,
    one: &RunSummary,
    other: &RunSummary,
) -> Result<(), AllocError>
    ensures { OnOk result (text.new.items ≡ text.old.items ++ ends_text ends one.now.finished one.now.quiet one.now.time one.now.ending.items other.now.ending.items) }
{
    match ends {
        EndsCompared::Alike => push_both_end(text, one),
        EndsCompared::AtOtherTimes => {
            push_both_ends(text, b"they end alike, at other times\n", one, other)
        }
        EndsCompared::Different => push_both_ends(text, b"they end differently\n", one, other),
    }
}

// Puts behind a text who changed a register by an entry: a process by its turn, or an update.
fn push_done_by(text: &mut Vec<u8>, process: Option<u32>) -> Result<(), AllocError>
    ensures { OnOk result (text.new.items ≡ text.old.items ++ done_by_text process) }
{
    match process {
        Some(process) => push_labelled(text, b", process ", u64::from(process)),
        None => text.extend_from_slice(b", update"),
    }
}

// Puts the entry that gave a register its value behind a text, in parentheses.
fn push_entry_of(text: &mut Vec<u8>, giver: ValueGiver) -> Result<(), AllocError>
    ensures { OnOk result (text.new.items ≡ text.old.items ++ giver_text (Some giver)) }
{
    push_labelled(text, b" (entry ", giver.entry)?;
    push_done_by(text, giver.process)?;
    text.extend_from_slice(b")")
}

// Puts the entry that gave a register its value behind a text, if one did.
fn push_giver(text: &mut Vec<u8>, giver: Option<ValueGiver>) -> Result<(), AllocError>
    ensures { OnOk result (text.new.items ≡ text.old.items ++ giver_text giver) }
{
    match giver {
        Some(giver) => push_entry_of(text, giver),
        None => Ok(()),
    }
}

// Puts a value in these digits behind a text, and the entry that gave it.
fn push_given(text: &mut Vec<u8>, radix: Radix, given: GivenValue) -> Result<(), AllocError>
    ensures { OnOk result (text.new.items ≡ text.old.items ++ given_text radix given) }
{
    push_value(text, radix, given.value)?;
    push_giver(text, given.by)
}

// Puts the line of a register whose values differ behind a text.
fn push_row(
    text: &mut Vec<u8>,
    names: &SourceNames<'_>,
    row: &ValueDifference,
) -> Result<(), AllocError>
    ensures { OnOk result (text.new.items ≡ text.old.items ++ row_text names.entry.now row.now) }
{
    push_labelled(text, b"time ", row.time)?;
    text.extend_from_slice(b"  ")?;
    push_register(text, names, row.register)?;
    text.extend_from_slice(b"  ")?;
    push_given(text, names.style.radix, row.first)?;
    text.extend_from_slice(b"  ")?;
    push_given(text, names.style.radix, row.second)?;
    text.extend_from_slice(b"\n")
}

// Puts a line for each register whose values differ behind a text.
fn push_rows(
    text: &mut Vec<u8>,
    names: &SourceNames<'_>,
    rows: &[ValueDifference],
) -> Result<(), AllocError>
    ensures { OnOk result (text.new.items ≡ text.old.items ++ row_lines names.entry.now rows.now) }
{
    for place in 0..rows.len() {
        push_row(text, names, &rows[place])?;
    }
    Ok(())
}

// What is said before the registers, by whether any differ, and whether each is told at each time.
fn values_title(differ: bool, all: bool) -> &'static str
    ensures { result.now ≡ values_title differ all }
{
    match (differ, all) {
        (false, _) => "the registers have the same values whenever time passes\n",
        (true, true) => "registers differ when time passes\n",
        (true, false) => {
            "registers differ when time passes: each at its first time (--all shows each time)\n"
        }
    }
}

/// Puts what is said of the registers that differ behind a text, each at each time or not.
pub(crate) fn push_values(
    text: &mut Vec<u8>,
    names: &SourceNames<'_>,
    all: bool,
    rows: &[ValueDifference],
) -> Result<(), AllocError>
    ensures { OnOk result (text.new.items ≡ text.old.items ++ values_text names.entry.now all rows.now) }
{
    text.extend_from_slice(values_title(has_any(rows), all).as_bytes())?;
    push_rows(text, names, rows)
}

// Puts which of two runs ends earlier behind a text, and when.
fn push_stop_head(text: &mut Vec<u8>, first: u64, second: u64) -> Result<(), AllocError>
    ensures { OnOk result (text.new.items ≡ text.old.items ++ stop_head first second) }
{
    if first < second {
        push_labelled(text, b"the first run ends at time ", first)
    } else {
        push_labelled(text, b"the second run ends at time ", second)
    }
}

/// Puts behind a text where one run ends earlier than the other, and so no later time is compared.
pub(crate) fn push_stop(text: &mut Vec<u8>, first: u64, second: u64) -> Result<(), AllocError>
    ensures { OnOk result (text.new.items ≡ text.old.items ++ earlier_end_text first second) }
{
    if first == second {
        return Ok(());
    }
    push_stop_head(text, first, second)?;
    text.extend_from_slice(b", and later times aren't compared\n")
}
