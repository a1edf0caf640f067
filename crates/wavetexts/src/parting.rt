//! In what two observed texts part.

ghost use Rattle.std.specs.Prelude.{◌≡◌};
ghost use Rattle.wavetexts.specs.AtTimes.{left_after};
ghost use Rattle.wavetexts.specs.Partings.{IsLineParting, IsPartingAt, IsPartingOf, IsStandingBefore, lacking_line, name_or_none, register_name, time_after, time_in};

use crate::arranging::comes_before;
use crate::lines::split_line;
use crate::sights::{begins_sight, left_after, prints_nothing};
use design::{Design, RegId};
use verdict::{WaveSite, first_difference};

/// In what two observed texts part first, and what stands there in each.
#[derive(Clone, Copy)]
pub struct Parting<'a> {
    pub site: WaveSite<'a>,
    pub first: &'a [u8],
    pub second: &'a [u8],
}

// Behind some lines of an observed text: how many lines of what is seen are left, and when that is.
#[derive(Clone, Copy)]
struct TextStanding<'a> {
    left: usize,
    time: &'a [u8],
}

// The time in the line that begins what is seen: what stands between its mark and its newline.
fn time_in(line: &[u8]) -> &[u8]
    ensures { result.now ≡ time_in line.entry.now }
{
    match line.split_first() {
        Some((_, rest)) => rest.split_at(rest.len().saturating_sub(1)).0,
        None => line,
    }
}

// When what is seen behind a line is.
fn time_after<'a>(left: usize, line: &'a [u8], time: &'a [u8]) -> &'a [u8]
    ensures { result.now ≡ time_after left line.entry.now time.entry.now }
{
    if left > 0 {
        return time;
    }
    if begins_sight(line) {
        time_in(line)
    } else {
        time
    }
}

// How an observed text stands behind a line.
fn stand_on<'a>(registers: usize, standing: TextStanding<'a>, line: &'a [u8]) -> TextStanding<'a>
    ensures left { result.left ≡ left_after registers line.entry.now standing.entry.left }
    ensures time { result.time.now ≡ time_after standing.entry.left line.entry.now standing.entry.time.now }
{
    TextStanding {
        left: left_after(registers, line, standing.left),
        time: time_after(standing.left, line, standing.time),
    }
}

// How an observed text of so many registers stands before the line with this number.
fn standing_before<'a>(registers: usize, text: &'a [u8], number: usize) -> TextStanding<'a>
    ensures { IsStandingBefore registers text.entry.now number result.left result.time.now }
{
    let mut standing = TextStanding { left: 0, time: &[] };
    let mut rest = text;
    let mut before = number;
    while before > 1 {
        match split_line(rest) {
            Some((line, more)) => {
                standing = stand_on(registers, standing, line);
                rest = more;
                before -= 1;
            }
            None => return standing,
        }
    }
    standing
}

// The name of the register of which the line is with so many behind it in what is seen, and `?` where there is none.
fn name_of<'a>(design: &'a Design, registers: &[RegId], left: usize) -> &'a str
    ensures { result.now ≡ register_name design.entry.now.names registers.now left }
{
    match registers.get(registers.len().saturating_sub(left)) {
        Some(register) => name_or_none(design, *register),
        None => "?",
    }
}

// The name of a register, and `?` where there is no such register.
fn name_or_none(design: &Design, register: RegId) -> &str
    ensures { result.now ≡ name_or_none design.entry.now.names register }
{
    let _ = design.registers();
    if register < design.registers() {
        design.name(register)
    } else {
        "?"
    }
}

// A line that another text lacks where it has another one: nothing where nothing is printed in it, or where the other one is printed and comes
// before it, so that it may come behind that one in the other text.
fn lacking_line<'a>(line: &'a [u8], other: &[u8]) -> &'a [u8]
    ensures { result.now ≡ lacking_line line.entry.now other.now }
{
    if prints_nothing(line) {
        return &[];
    }
    if prints_nothing(other) {
        return line;
    }
    if comes_before(line, other) { line } else { &[] }
}

// In what texts part whose first lines that differ are these: the time that passes where nothing is printed in either.
fn line_parting<'a>(first: &'a [u8], second: &'a [u8]) -> Parting<'a>
    ensures { IsLineParting first.entry.now second.entry.now result }
{
    if prints_nothing(first) & prints_nothing(second) {
        return Parting {
            site: WaveSite::Time,
            first: time_in(first),
            second: time_in(second),
        };
    }
    Parting {
        site: WaveSite::Line,
        first: lacking_line(first, second),
        second: lacking_line(second, first),
    }
}

// In what texts part that stand so before the first lines that differ.
fn parting_at<'a>(
    design: &'a Design,
    registers: &[RegId],
    standing: TextStanding<'a>,
    first: &'a [u8],
    second: &'a [u8],
) -> Parting<'a>
    ensures { IsPartingAt design.entry.now.names registers.now standing.entry.left standing.entry.time.now first.entry.now second.entry.now result }
{
    if standing.left == 0 {
        return line_parting(first, second);
    }
    Parting {
        site: WaveSite::Register {
            name: name_of(design, registers, standing.left),
            time: standing.time,
        },
        first,
        second,
    }
}

/// In what two observed texts of these registers part first: a register when a time passes, a line, or the time that passes; and in their ends
/// alone where their lines are the same.
pub fn parting_of<'a>(
    design: &'a Design,
    registers: &[RegId],
    one: &'a [u8],
    other: &'a [u8],
) -> Parting<'a>
    ensures { IsPartingOf design.entry.now.names registers.now one.entry.now other.entry.now result }
{
    match first_difference(one, other) {
        Some(found) => parting_at(
            design,
            registers,
            standing_before(registers.len(), one, found.line),
            found.first,
            found.second,
        ),
        None => Parting {
            site: WaveSite::End,
            first: &[],
            second: &[],
        },
    }
}
