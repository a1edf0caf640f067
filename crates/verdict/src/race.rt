//! The lines on a race.

ghost use Rattle.std.specs.Prelude.{◌≡◌, ◌++◌, OnOk, Some, option_map};
ghost use Rattle.verdict.specs.RaceLines.{begin_text, begin_word, in_quotes, saved_journal_text, differing_line_text, path_text, prefix_of, quoted_line, race_text, role_text, roles_text, run_text, runs_text, site_text, race_title_text, unnamed_text};

use crate::phrases::push_number;
use std::alloc::AllocError;

/// What two processes race for: a register, the order of the lines that they print, that of their strobes' lines, the end of
/// the run, or the order of updates.
#[derive(Clone, Copy)]
pub enum SiteDescription<'a> {
    Register(&'a str),
    Printing,
    Strobing,
    Finishing,
    Updating,
}

/// Where a process begins: whether with `always` or with `initial`, and where that word stands, in words.
#[derive(Clone, Copy)]
pub struct ProcessDescription<'a> {
    pub always: bool,
    pub at: &'a str,
}

/// A process that races: its number, where it begins, if that is known, and what it does.
#[derive(Clone, Copy)]
pub struct RoleDescription<'a> {
    pub number: u32,
    pub begins: Option<ProcessDescription<'a>>,
    pub does: &'a str,
}

/// One of the two runs of a race: the number of its journal, where that is saved, and the line in which the two differ
/// first, with its newline, or nothing where its text has ended before.
#[derive(Clone, Copy)]
pub struct RunDescription<'a> {
    pub journal: Option<usize>,
    pub line: &'a [u8],
}

/// A race: for what, at which time, of whom, where journals are saved, in which line the two runs differ, if not only in
/// their ends, and the runs in which the first or the second comes first.
#[derive(Clone, Copy)]
pub struct RaceDescription<'a> {
    pub number: usize,
    pub site: SiteDescription<'a>,
    pub time: u64,
    pub first: RoleDescription<'a>,
    pub second: RoleDescription<'a>,
    pub prefix: Option<&'a str>,
    pub line: Option<usize>,
    pub original: RunDescription<'a>,
    pub exchanged: RunDescription<'a>,
}

/// Puts the lines on a race behind a text.
pub fn push_race(text: &mut Vec<u8>, race: &RaceDescription<'_>) -> Result<(), AllocError>
    ensures { OnOk result (text.new.items ≡ text.old.items ++ race_text race.entry.now) }
{
    push_title(text, race)?;
    push_roles(text, race)?;
    push_runs(text, race)
}

/// Puts the line on the first text and another one, by its number, behind a text: that no two entries were found whose order parts them.
pub fn push_unnamed(text: &mut Vec<u8>, number: usize) -> Result<(), AllocError>
    ensures { OnOk result (text.new.items ≡ text.old.items ++ unnamed_text number) }
{
    text.extend_from_slice(b"texts 1 and ")?;
    push_number(text, number as u64)?;
    text.extend_from_slice(b": no two entries were found whose order parts them\n")
}

/// Puts the first line behind a text: the number of the race, what it is for, and the time.
fn push_title(text: &mut Vec<u8>, race: &RaceDescription<'_>) -> Result<(), AllocError>
    ensures { OnOk result (text.new.items ≡ text.old.items ++ race_title_text race.entry.now) }
{
    text.extend_from_slice(b"race ")?;
    push_number(text, race.number as u64)?;
    push_site(text, race.site)?;
    push_number(text, race.time)?;
    text.extend_from_slice(b"\n")
}

/// Puts a line for each of the two processes behind a text.
fn push_roles(text: &mut Vec<u8>, race: &RaceDescription<'_>) -> Result<(), AllocError>
    ensures { OnOk result (text.new.items ≡ text.old.items ++ roles_text race.entry.now) }
{
    push_role(text, race.first)?;
    push_role(text, race.second)
}

/// Puts a line for each of the two runs behind a text, the first run before the second.
fn push_runs(text: &mut Vec<u8>, race: &RaceDescription<'_>) -> Result<(), AllocError>
    ensures { OnOk result (text.new.items ≡ text.old.items ++ runs_text race.entry.now) }
{
    push_run(text, race, b"  the first before the second", race.original)?;
    push_run(text, race, b"  the second before the first", race.exchanged)
}

/// Puts what two processes race for behind a text, and the word that stands before the time.
fn push_site(text: &mut Vec<u8>, site: SiteDescription<'_>) -> Result<(), AllocError>
    ensures { OnOk result (text.new.items ≡ text.old.items ++ site_text site.entry) }
{
    match site {
        SiteDescription::Register(name) => {
            text.extend_from_slice(b": register ")?;
            text.extend_from_slice(name.as_bytes())?;
            text.extend_from_slice(b", time ")
        }
        SiteDescription::Printing => text.extend_from_slice(b": the order of lines, time "),
        SiteDescription::Strobing => text.extend_from_slice(b": the order of strobes, time "),
        SiteDescription::Finishing => text.extend_from_slice(b": the end of the run, time "),
        SiteDescription::Updating => text.extend_from_slice(b": the order of updates, time "),
    }
}

/// Puts the line of a process behind a text: its number, where it begins, if that is known, and what it does.
fn push_role(text: &mut Vec<u8>, role: RoleDescription<'_>) -> Result<(), AllocError>
    ensures { OnOk result (text.new.items ≡ text.old.items ++ role_text role.entry) }
{
    text.extend_from_slice(b"  process ")?;
    push_number(text, u64::from(role.number))?;
    if let Some(process) = role.begins {
        push_begin(text, process)?;
    }
    text.extend_from_slice(b", ")?;
    text.extend_from_slice(role.does.as_bytes())?;
    text.extend_from_slice(b"\n")
}

/// Puts the word of a process and where it stands behind a text, with a comma before them.
fn push_begin(text: &mut Vec<u8>, process: ProcessDescription<'_>) -> Result<(), AllocError>
    ensures { OnOk result (text.new.items ≡ text.old.items ++ begin_text (Some process.entry)) }
{
    text.extend_from_slice(begin_word(process.always))?;
    text.extend_from_slice(process.at.as_bytes())
}

/// With which word a process begins, as it is told.
fn begin_word(always: bool) -> &'static [u8]
    ensures { result.now ≡ begin_word always }
{
    match always {
        true => b", always at ",
        false => b", initial at ",
    }
}

/// Puts the line of a run behind a text: which process comes first in it, its journal, if that is saved, and how it differs.
fn push_run(
    text: &mut Vec<u8>,
    race: &RaceDescription<'_>,
    order: &[u8],
    run: RunDescription<'_>,
) -> Result<(), AllocError>
    ensures { OnOk result (text.new.items ≡ text.old.items ++ run_text race.entry.now order.now run.entry) }
{
    text.extend_from_slice(order)?;
    push_journal(text, race.prefix, run.journal)?;
    push_difference(text, race.line, run.line)
}

/// Puts the path of a journal behind a text, in parentheses, or nothing where it isn't saved.
pub(crate) fn push_journal(
    text: &mut Vec<u8>,
    prefix: Option<&str>,
    journal: Option<usize>,
) -> Result<(), AllocError>
    ensures { OnOk result (text.new.items ≡ text.old.items ++ saved_journal_text (option_map (λ path. path.now) prefix.entry) journal) }
{
    match (prefix, journal) {
        (Some(prefix), Some(number)) => push_path(text, prefix, number),
        _ => Ok(()),
    }
}

/// Puts the path of the journal with a number behind a text, in parentheses.
fn push_path(text: &mut Vec<u8>, prefix: &str, number: usize) -> Result<(), AllocError>
    ensures { OnOk result (text.new.items ≡ text.old.items ++ path_text prefix.now number) }
{
    text.extend_from_slice(b" (")?;
    text.extend_from_slice(prefix.as_bytes())?;
    text.extend_from_slice(b".")?;
    push_number(text, number as u64)?;
    text.extend_from_slice(b".journal)")
}

/// Puts the line in which the two runs differ behind a text, or that they differ in their ends alone.
fn push_difference(text: &mut Vec<u8>, number: Option<usize>, line: &[u8]) -> Result<(), AllocError>
    ensures { OnOk result (text.new.items ≡ text.old.items ++ differing_line_text number line.now) }
{
    match number {
        Some(number) => push_line(text, number, line),
        None => text.extend_from_slice(b": the same lines, and another end\n"),
    }
}

/// Puts the number of a line behind a text, and what that line is.
pub fn push_line(text: &mut Vec<u8>, number: usize, line: &[u8]) -> Result<(), AllocError>
    ensures { OnOk result (text.new.items ≡ text.old.items ++ differing_line_text (Some number) line.now) }
{
    text.extend_from_slice(b": printed line ")?;
    push_number(text, number as u64)?;
    push_quoted(text, line)
}

/// Puts what a line is behind a text: quoted without its newline, or missing where the text has ended before.
pub(crate) fn push_quoted(text: &mut Vec<u8>, line: &[u8]) -> Result<(), AllocError>
    ensures { OnOk result (text.new.items ≡ text.old.items ++ quoted_line line.now) }
{
    match line.split_last() {
        Some((last, before)) if *last == 10 => push_quotes(text, before),
        Some(_) => push_quotes(text, line),
        None => text.extend_from_slice(b" is missing\n"),
    }
}

/// Puts a line that has no newline behind a text, quoted.
fn push_quotes(text: &mut Vec<u8>, line: &[u8]) -> Result<(), AllocError>
    ensures { OnOk result (text.new.items ≡ text.old.items ++ in_quotes line.now) }
{
    text.extend_from_slice(b" is `")?;
    text.extend_from_slice(line)?;
    text.extend_from_slice(b"`\n")
}
