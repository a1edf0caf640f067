//! What a process does where it races, in words, and the lines in which it does so.
ghost use Rattle.std.specs.Prelude.{◌≡◌, ◌≤◌, ◌++◌, IfOk, None, OnOk, Some, codes, decimal, if◌then◌else◌, length, option_map, slice_get, string_bytes};
ghost use Rattle.std.specs.List.{list_any};
ghost use Rattle.statements.specs.StatementLines.{line_of_byte};
ghost use Rattle.naming.specs.LineOrders.{is_number, with_one};
ghost use Rattle.naming.specs.RoleWords.{at_lines, at_three_lines, at_two_lines, bytes_done, in_lines, in_lines_run, in_range, is_to_register, lines_done, lines_of_run, lines_run, name_done, numbered_lines, part_done, role_lines, role_words, with_numbered_line};

use crate::places::SourcePlaces;
use crate::words::word_of;
use accesses::{Does, Role};
use executed::RunStatements;
use itoa::Buffer;
use statements::{LineRange, SoughtPart, StatementPart, line_of_byte, lines_of, sought_bytes};
use std::alloc::{AllocError, Global};
use verdict::SiteDescription;

/// What a token does by which a process does this, if one does.
fn part_done(does: Does) -> Option<StatementPart>
    ensures { result ≡ part_done does }
{
    match does {
        Does::Writes => Some(StatementPart::Written),
        Does::Assigns | Does::Updates | Does::Schedules => Some(StatementPart::Assigned),
        Does::Reads => Some(StatementPart::Read),
        Does::Waits => Some(StatementPart::Awaited),
        Does::Prints => Some(StatementPart::Printing),
        Does::Strobes => Some(StatementPart::Strobing),
        Does::Finishes => Some(StatementPart::Finishing),
        Does::Runs => None,
    }
}

/// Whether this is done to a register.
fn is_to_register(does: Does) -> bool
    ensures { result ≡ is_to_register does }
{
    match does {
        Does::Writes | Does::Assigns | Does::Updates | Does::Reads | Does::Waits => true,
        Does::Prints | Does::Strobes | Does::Finishes | Does::Runs | Does::Schedules => false,
    }
}

/// The name of the register to which this is done at a site, if it is done to one.
fn name_done<'a>(site: SiteDescription<'a>, does: Does) -> Option<&'a str>
    ensures { option_map (λ name. name.now) result ≡ name_done site.entry does }
{
    match site {
        SiteDescription::Register(name) => name_if(name, is_to_register(does)),
        SiteDescription::Printing => None,
        SiteDescription::Strobing => None,
        SiteDescription::Finishing => None,
        SiteDescription::Updating => None,
    }
}

/// A name, or none.
fn name_if(name: &str, wanted: bool) -> Option<&str>
    ensures { option_map (λ name. name.now) result ≡ (if wanted then Some name.entry.now else None) }
{
    if wanted { Some(name) } else { None }
}

/// The lines of the first and the last token that does so in a process, if one does.
fn lines_done(
    places: &SourcePlaces<'_>,
    process: u32,
    name: Option<&str>,
    part: Option<StatementPart>,
) -> Option<LineRange>
    ensures { result ≡ lines_done places.now process (option_map (λ name. name.now) name.entry) part }
{
    match part {
        Some(part) => lines_of(
            places.source,
            places.statements,
            &SoughtPart {
                part,
                process,
                name,
            },
        ),
        None => None,
    }
}

/// The lines between which a process does what it is told for at a site, if they are known.
fn role_lines(places: &SourcePlaces<'_>, site: SiteDescription<'_>, role: Role) -> Option<LineRange>
    ensures { result ≡ role_lines places.now site.entry role }
{
    let name = name_done(site, role.does);
    lines_done(places, role.process, name, part_done(role.does))
}

/// Whether what a process does at a site stands in several lines.
pub(crate) fn has_several_lines(
    places: &SourcePlaces<'_>,
    site: SiteDescription<'_>,
    role: Role,
) -> bool {
    match role_lines(places, site, role) {
        Some(range) => range.first != range.last,
        None => false,
    }
}

/// A word, and behind it the one line of a range.
fn at_line(alloc: Global, word: &str, line: usize) -> Result<String, AllocError>
    ensures { IfOk result (λ words. string_bytes words ≡ word.now ++ codes " at line " ++ decimal line) }
{
    let mut digits = Buffer::new();
    let mut words = String::from_str(alloc, word)?;
    words.push_str(" at line ")?;
    words.push_str(digits.format(line))?;
    Ok(words)
}

/// A word, and behind it the two lines of a range.
fn between_lines(alloc: Global, word: &str, range: LineRange) -> Result<String, AllocError>
    ensures { IfOk result (λ words. string_bytes words ≡ word.now ++ codes " between lines " ++ decimal range.first ++ codes " and " ++ decimal range.last) }
{
    let mut first = Buffer::new();
    let mut last = Buffer::new();
    let mut words = String::from_str(alloc, word)?;
    words.push_str(" between lines ")?;
    words.push_str(first.format(range.first))?;
    words.push_str(" and ")?;
    words.push_str(last.format(range.last))?;
    Ok(words)
}

/// A word, and behind it the lines of a range.
fn in_range(alloc: Global, word: &str, range: LineRange) -> Result<String, AllocError>
    ensures { IfOk result (λ words. string_bytes words ≡ in_range word.now range) }
{
    if range.first == range.last {
        at_line(alloc, word, range.first)
    } else {
        between_lines(alloc, word, range)
    }
}

/// A word, and behind it lines, if they are known.
fn in_lines(alloc: Global, word: &str, lines: Option<LineRange>) -> Result<String, AllocError>
    ensures { IfOk result (λ words. string_bytes words ≡ in_lines word.now lines) }
{
    match lines {
        Some(range) => in_range(alloc, word, range),
        None => String::from_str(alloc, word),
    }
}

/// The first bytes of the tokens that do so in a process. Fails where memory is refused.
fn bytes_done(
    places: &SourcePlaces<'_>,
    process: u32,
    name: Option<&str>,
    part: Option<StatementPart>,
) -> Result<Vec<usize>, AllocError>
    ensures { IfOk result (λ bytes. bytes.items ≡ bytes_done places.now process (option_map (λ name. name.now) name.entry) part) }
{
    match part {
        Some(part) => sought_bytes(
            places.alloc,
            places.statements,
            &SoughtPart {
                part,
                process,
                name,
            },
        ),
        None => Ok(Vec::new(places.alloc)),
    }
}

/// Whether a line is among others.
fn has_line(lines: &[usize], line: usize) -> bool
    ensures { result ≡ list_any (is_number line) lines.now }
{
    lines.iter().any(|known| *known == line)
}

/// Puts the line of a byte behind others, unless it is there.
fn add_line(lines: &mut Vec<usize>, source: &[u8], byte: usize) -> Result<(), AllocError>
    ensures { OnOk result (lines.new.items ≡ with_one is_number lines.old.items (line_of_byte source.now byte)) }
{
    let line = line_of_byte(source, byte);
    if has_line(lines.as_slice(), line) {
        return Ok(());
    }
    lines.push(line)?;
    Ok(())
}

/// Puts the line of the byte with a number behind others, if there is one, and unless the line is there.
fn add_numbered(
    lines: &mut Vec<usize>,
    source: &[u8],
    bytes: &[usize],
    number: usize,
) -> Result<(), AllocError>
    ensures { OnOk result (lines.new.items ≡ with_numbered_line source.now lines.old.items (slice_get bytes.now number)) }
{
    match bytes.get(number) {
        Some(byte) => add_line(lines, source, *byte),
        None => Ok(()),
    }
}

/// The lines of the bytes with these numbers, each once.
fn numbered_lines(
    alloc: Global,
    source: &[u8],
    bytes: &[usize],
    numbers: &[usize],
) -> Result<Vec<usize>, AllocError>
    ensures { IfOk result (λ lines. lines.items ≡ numbered_lines source.now bytes.now numbers.now) }
{
    let mut lines = Vec::new(alloc);
    for place in 0..numbers.len() {
        add_numbered(&mut lines, source, bytes, numbers[place])?;
    }
    Ok(lines)
}

/// The lines of statements that ran; none where as many don't stand in the text.
fn lines_of_run(
    alloc: Global,
    source: &[u8],
    bytes: &[usize],
    run: &RunStatements,
) -> Result<Vec<usize>, AllocError>
    ensures { IfOk result (λ lines. lines.items ≡ lines_of_run source.now bytes.now run.now) }
{
    if run.total == bytes.len() {
        numbered_lines(alloc, source, bytes, run.numbers.as_slice())
    } else {
        Ok(Vec::new(alloc))
    }
}

/// The lines of statements that ran, if these are known.
fn lines_run(
    alloc: Global,
    source: &[u8],
    bytes: &[usize],
    run: &Option<RunStatements>,
) -> Result<Vec<usize>, AllocError>
    ensures { IfOk result (λ lines. lines.items ≡ lines_run source.now bytes.now run.now) }
{
    match run {
        Some(run) => lines_of_run(alloc, source, bytes, run),
        None => Ok(Vec::new(alloc)),
    }
}

/// A word, and behind it two lines.
fn at_two_lines(alloc: Global, word: &str, one: usize, other: usize) -> Result<String, AllocError>
    ensures { IfOk result (λ words. string_bytes words ≡ at_two_lines word.now one other) }
{
    let mut first = Buffer::new();
    let mut last = Buffer::new();
    let mut words = String::from_str(alloc, word)?;
    words.push_str(" at lines ")?;
    words.push_str(first.format(one))?;
    words.push_str(" and ")?;
    words.push_str(last.format(other))?;
    Ok(words)
}

/// A word, and behind it three lines.
fn at_three_lines(
    alloc: Global,
    word: &str,
    one: usize,
    other: usize,
    third: usize,
) -> Result<String, AllocError>
    ensures { IfOk result (λ words. string_bytes words ≡ at_three_lines word.now one other third) }
{
    let mut first = Buffer::new();
    let mut second = Buffer::new();
    let mut last = Buffer::new();
    let mut words = String::from_str(alloc, word)?;
    words.push_str(" at lines ")?;
    words.push_str(first.format(one))?;
    words.push_str(", ")?;
    words.push_str(second.format(other))?;
    words.push_str(" and ")?;
    words.push_str(last.format(third))?;
    Ok(words)
}

/// A word, and behind it some lines: up to three by themselves, and of more the first and the last.
fn at_lines(alloc: Global, word: &str, lines: &[usize]) -> Result<String, AllocError>
    requires { 1 ≤ length lines.now }
    ensures { IfOk result (λ words. string_bytes words ≡ at_lines word.now lines.now) }
{
    let count = lines.len();
    match count {
        1 => at_line(alloc, word, lines[0]),
        2 => at_two_lines(alloc, word, lines[0], lines[1]),
        3 => at_three_lines(alloc, word, lines[0], lines[1], lines[2]),
        _ => between_lines(
            alloc,
            word,
            LineRange {
                first: lines[0],
                last: lines[count - 1],
            },
        ),
    }
}

/// A word, and behind it the lines of what ran, or else those between which it stands, if they are known.
fn in_lines_run(
    alloc: Global,
    word: &str,
    lines: &[usize],
    range: Option<LineRange>,
) -> Result<String, AllocError>
    ensures { IfOk result (λ words. string_bytes words ≡ in_lines_run word.now lines.now range) }
{
    if lines.is_empty() {
        in_lines(alloc, word, range)
    } else {
        at_lines(alloc, word, lines)
    }
}

/// What a process does at a site, and in which lines: in those of these statements that ran, or else between which it does so, if these are
/// known. Fails where memory is refused.
pub(crate) fn role_words(
    places: &SourcePlaces<'_>,
    site: SiteDescription<'_>,
    role: Role,
    run: &Option<RunStatements>,
) -> Result<String, AllocError>
    ensures { IfOk result (λ words. string_bytes words ≡ role_words places.now site.entry role run.now) }
{
    let name = name_done(site, role.does);
    let bytes = bytes_done(places, role.process, name, part_done(role.does))?;
    let lines = lines_run(places.alloc, places.source, bytes.as_slice(), run)?;
    let range = role_lines(places, site, role);
    let words = in_lines_run(places.alloc, word_of(role.does), lines.as_slice(), range)?;
    Ok(words)
}
