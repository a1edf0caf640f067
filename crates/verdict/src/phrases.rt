//! Parts of the lines on texts.

ghost use Rattle.std.specs.Prelude.{◌≡◌, ◌<◌, ◌++◌, OnOk, decimal};
ghost use Rattle.verdict.specs.Verdicts.{text_count_text, group, grouped, limit_text, lines_in, many_text, number_between, stop_phrase, stop_text, several_text, states_text, these_lines, thousands, up_to, up_to_time};

use crate::claim::SearchStop;
use itoa::Buffer;
use std::alloc::AllocError;

/// Puts a number behind a text, by its decimal digits alone.
pub(crate) fn push_number(text: &mut Vec<u8>, number: u64) -> Result<(), AllocError>
    ensures { OnOk result (text.new.items ≡ text.old.items ++ decimal number) }
{
    let mut digits = Buffer::new();
    text.extend_from_slice(digits.format(number).as_bytes())
}

/// Puts a comma and three digits behind a text.
fn push_group(text: &mut Vec<u8>, number: u64) -> Result<(), AllocError>
    requires { number < 1000 }
    ensures { OnOk result (text.new.items ≡ text.old.items ++ group number) }
{
    text.push(b',')?;
    text.push(48 + (number / 100) as u8)?;
    text.push(48 + (number / 10 % 10) as u8)?;
    text.push(48 + (number % 10) as u8)?;
    Ok(())
}

/// Puts a number behind a text, with a comma before each three digits of its last nine.
pub(crate) fn push_grouped(text: &mut Vec<u8>, number: u64) -> Result<(), AllocError>
    ensures { OnOk result (text.new.items ≡ text.old.items ++ grouped number) }
{
    if number < 1000 {
        return push_number(text, number);
    }
    push_thousands(text, number / 1000)?;
    push_group(text, number % 1000)
}

/// Puts the thousands of a number behind a text, with a comma before their last three digits.
fn push_thousands(text: &mut Vec<u8>, number: u64) -> Result<(), AllocError>
    ensures { OnOk result (text.new.items ≡ text.old.items ++ thousands number) }
{
    if number < 1000 {
        return push_number(text, number);
    }
    push_number(text, number / 1000)?;
    push_group(text, number % 1000)
}

/// How many texts there are, and whether they are told apart by their ends too.
pub(crate) fn push_count(text: &mut Vec<u8>, count: usize, ends: bool) -> Result<(), AllocError>
    ensures { OnOk result (text.new.items ≡ text.old.items ++ text_count_text count ends) }
{
    match count {
        0 => text.extend_from_slice(b"no text"),
        1 => text.extend_from_slice(b"one text"),
        _ => push_several(text, count, ends),
    }
}

/// How many texts there are, where there are several.
fn push_several(text: &mut Vec<u8>, count: usize, ends: bool) -> Result<(), AllocError>
    ensures { OnOk result (text.new.items ≡ text.old.items ++ several_text count ends) }
{
    push_number(text, count as u64)?;
    match ends {
        true => text.extend_from_slice(b" texts and ends"),
        false => text.extend_from_slice(b" texts"),
    }
}

/// Up to which time.
pub(crate) fn push_up_to(text: &mut Vec<u8>, until: Option<u64>) -> Result<(), AllocError>
    ensures { OnOk result (text.new.items ≡ text.old.items ++ up_to until) }
{
    match until {
        Some(time) => push_time(text, time),
        None => Ok(()),
    }
}

/// That it holds up to this time.
fn push_time(text: &mut Vec<u8>, time: u64) -> Result<(), AllocError>
    ensures { OnOk result (text.new.items ≡ text.old.items ++ up_to_time time) }
{
    text.extend_from_slice(b" up to time ")?;
    push_number(text, time)
}

/// How many lines a text has.
fn lines_in(text: &[u8]) -> usize
    ensures { result ≡ lines_in text.now }
{
    text.iter().filter(|byte| **byte == 10).count()
}

/// What is printed, by how many lines a text has: no line, this one, or so many.
pub(crate) fn push_these_lines(text: &mut Vec<u8>, printed: &[u8]) -> Result<(), AllocError>
    ensures { OnOk result (text.new.items ≡ text.old.items ++ these_lines (lines_in printed.now)) }
{
    match lines_in(printed) {
        0 => text.extend_from_slice(b"no line\n"),
        1 => text.extend_from_slice(b"this line\n"),
        count => push_between(text, b"these ", count as u64, b" lines\n"),
    }
}

/// Puts a number between two pieces behind a text.
pub(crate) fn push_between(
    text: &mut Vec<u8>,
    before: &[u8],
    number: u64,
    behind: &[u8],
) -> Result<(), AllocError>
    ensures { OnOk result (text.new.items ≡ text.old.items ++ number_between before.now number behind.now) }
{
    text.extend_from_slice(before)?;
    push_grouped(text, number)?;
    text.extend_from_slice(behind)
}

/// Puts so many of a thing behind a text, with one word for one and another for more.
fn push_amount(text: &mut Vec<u8>, number: u64, one: &[u8], many: &[u8]) -> Result<(), AllocError>
    ensures { OnOk result (text.new.items ≡ text.old.items ++ many_text number one.now many.now) }
{
    push_grouped(text, number)?;
    match number {
        1 => text.extend_from_slice(one),
        _ => text.extend_from_slice(many),
    }
}

/// How many states were reached where nothing was left out.
pub(crate) fn push_states(text: &mut Vec<u8>, states: u64) -> Result<(), AllocError>
    ensures { OnOk result (text.new.items ≡ text.old.items ++ states_text states) }
{
    text.extend_from_slice(b"(")?;
    push_amount(
        text,
        states,
        b" state, no choice left open)\n",
        b" states, no choice left open)\n",
    )
}

/// That a limit was met.
pub(crate) fn push_limit(
    text: &mut Vec<u8>,
    most: u64,
    one: &[u8],
    many: &[u8],
) -> Result<(), AllocError>
    ensures { OnOk result (text.new.items ≡ text.old.items ++ limit_text most one.now many.now) }
{
    text.extend_from_slice(b"a limit was met (")?;
    push_amount(text, most, one, many)
}

/// Why a search stopped.
pub(crate) fn push_stop_phrase(text: &mut Vec<u8>, stop: SearchStop) -> Result<(), AllocError>
    ensures { OnOk result (text.new.items ≡ text.old.items ++ stop_phrase stop) }
{
    match stop {
        SearchStop::States(most) => push_limit(text, most as u64, b" state)", b" states)"),
        SearchStop::Texts(most) => push_limit(text, most as u64, b" text)", b" texts)"),
        SearchStop::Entries(most) => push_limit(text, most as u64, b" entry)", b" entries)"),
        SearchStop::Megabytes(most) => push_limit(text, most as u64, b" MB)", b" MB)"),
        SearchStop::Memory => text.extend_from_slice(b"memory was refused"),
    }
}

/// Why a search stopped, at the end of a line.
pub(crate) fn push_stop(text: &mut Vec<u8>, stop: SearchStop) -> Result<(), AllocError>
    ensures { OnOk result (text.new.items ≡ text.old.items ++ stop_text stop) }
{
    push_stop_phrase(text, stop)?;
    text.extend_from_slice(b"\n")
}
