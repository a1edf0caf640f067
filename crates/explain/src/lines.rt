//! The line of an entry.

ghost use Rattle.std.specs.Prelude.{◌≡◌, ◌++◌, OnOk, codes};
ghost use Rattle.model.specs.Runs.{has_any};
ghost use Rattle.explain.specs.Phrases.{quoted_text, register_text};
ghost use Rattle.steps.specs.Accounts.{account_of};
ghost use Rattle.explain.specs.EntryLines.{assignment_text, change_text, actor_text, entry_account_text, finish_text, lead, list_text, delimiter, parts_text, printed_text, reading_text, region_text, styled_text, update_text, read_version_text};

use crate::phrases::{
    SourceNames, push_labelled, push_number, push_process, push_quoted, push_register,
};
use design::RegId;
use literals::push_value;
use logic4::bits::Bits;
use model::entry::Entry;
use std::alloc::AllocError;
use steps::{Changed, EntryAccount, EntryActor, Explainer, Reading};
use turn::Nba;

// The delimiter before the first part of a kind.
fn delimiter(behind: bool) -> &'static str
    ensures { result.now ≡ delimiter behind }
{
    match behind {
        true => "; ",
        false => ": ",
    }
}

// Puts what stands before a part behind a text: before the first of a kind its word, before others a comma.
fn push_lead(text: &mut Vec<u8>, place: usize, behind: bool, word: &str) -> Result<(), AllocError>
    ensures { OnOk result (text.new.items ≡ text.old.items ++ lead place behind word.now) }
{
    if place > 0 {
        return text.extend_from_slice(b", ");
    }
    text.extend_from_slice(delimiter(behind).as_bytes())?;
    text.extend_from_slice(word.as_bytes())
}

// Puts a register and a value behind a text, with a delimiter between them.
fn push_valued(
    text: &mut Vec<u8>,
    names: &SourceNames<'_>,
    register: RegId,
    delimiter: &[u8],
    value: Bits,
) -> Result<(), AllocError>
    ensures { OnOk result (text.new.items ≡ text.old.items ++ (register_text names.entry.now register ++ (delimiter.now ++ styled_text names.entry.now value))) }
{
    push_register(text, names, register)?;
    text.extend_from_slice(delimiter)?;
    push_value(text, names.style.radix, value)
}

// Puts the version of a read behind a text, in parentheses, where the style has it.
fn push_version(text: &mut Vec<u8>, shown: bool, version: u64) -> Result<(), AllocError>
    ensures { OnOk result (text.new.items ≡ text.old.items ++ read_version_text shown version) }
{
    if !shown {
        return Ok(());
    }
    push_labelled(text, b" (version ", version)?;
    text.extend_from_slice(b")")
}

/// What a line has a list of.
pub(crate) trait ListedPart {
    ghost use Rattle.std.specs.Prelude.{ℕ, List};
    ghost use Rattle.explain.specs.declared.phrases.SourceNames.{SourceNames};

    /// Its text.
    ghost part_text: { SourceNames → Self → List ℕ };

    /// The register that it names.
    ghost part_register: { Self → ℕ };

    /// The register that it names.
    fn register(&self) -> RegId
        ensures { result ≡ part_register self.now };

    /// Puts it behind a text.
    fn push(&self, text: &mut Vec<u8>, names: &SourceNames<'_>) -> Result<(), AllocError>
        ensures { OnOk result (text.new.items ≡ text.old.items ++ part_text names.entry.now self.now) };
}

impl ListedPart for Reading {
    ghost part_text = { reading_text };

    ghost part_register = { λ part. part.register };

    fn register(&self) -> RegId {
        self.register
    }

    // Puts the register with its value behind a text, and its version, where the style has it.
    fn push(&self, text: &mut Vec<u8>, names: &SourceNames<'_>) -> Result<(), AllocError> {
        push_valued(text, names, self.register, b"=", self.value)?;
        push_version(text, names.style.versions, self.version)
    }
}

impl ListedPart for Changed {
    ghost part_text = { change_text };

    ghost part_register = { λ part. part.register };

    fn register(&self) -> RegId {
        self.register
    }

    // Puts the register behind a text, with its values before and after the entry.
    fn push(&self, text: &mut Vec<u8>, names: &SourceNames<'_>) -> Result<(), AllocError> {
        push_valued(text, names, self.register, b" ", self.before)?;
        text.extend_from_slice(b" -> ")?;
        push_value(text, names.style.radix, self.after)
    }
}

impl ListedPart for Nba {
    ghost part_text = { assignment_text };

    ghost part_register = { λ part. part.reg };

    fn register(&self) -> RegId {
        self.reg
    }

    // Puts the register with its value behind a text, and the time at which it is due.
    fn push(&self, text: &mut Vec<u8>, names: &SourceNames<'_>) -> Result<(), AllocError> {
        push_valued(text, names, self.reg, b" <= ", self.value)?;
        push_labelled(text, b" for time ", self.due)
    }
}

// Puts all parts of a kind behind a text.
fn push_list<P: ListedPart>(
    text: &mut Vec<u8>,
    names: &SourceNames<'_>,
    parts: &[P],
    behind: bool,
    word: &str,
) -> Result<(), AllocError>
    ensures { OnOk result (text.new.items ≡ text.old.items ++ list_text (P.part_text names.entry.now) word.now behind 0 parts.now) }
{
    for place in 0..parts.len() {
        push_lead(text, place, behind, word)?;
        parts[place].push(text, names)?;
    }
    Ok(())
}

// Puts what is printed behind a text, or nothing where that is nothing.
fn push_printed(text: &mut Vec<u8>, printed: &[u8], behind: bool) -> Result<(), AllocError>
    ensures { OnOk result (text.new.items ≡ text.old.items ++ printed_text behind printed.now) }
{
    match printed {
        [] => Ok(()),
        _ => push_prints(text, printed, behind),
    }
}

// Puts what is printed behind a text, with its word and a delimiter before it.
fn push_prints(text: &mut Vec<u8>, printed: &[u8], behind: bool) -> Result<(), AllocError>
    ensures { OnOk result (text.new.items ≡ text.old.items ++ (delimiter behind ++ codes "prints " ++ quoted_text printed.now)) }
{
    text.extend_from_slice(delimiter(behind).as_bytes())?;
    text.extend_from_slice(b"prints ")?;
    push_quoted(text, printed)
}

/// Puts an update behind a text.
pub(crate) fn push_update(
    text: &mut Vec<u8>,
    names: &SourceNames<'_>,
    register: RegId,
    value: Bits,
) -> Result<(), AllocError>
    ensures { OnOk result (text.new.items ≡ text.old.items ++ update_text names.entry.now register value) }
{
    text.extend_from_slice(b"update of ")?;
    push_valued(text, names, register, b" to ", value)
}

// What an entry is called that is a change of the regions (11.3).
fn region_change(entry: Entry) -> &'static str
    ensures { result.now ≡ region_text entry }
{
    match entry {
        Entry::Turn(_) => "turn",
        Entry::Update(_) => "update",
        Entry::ActivateInactive => "activates the inactive events",
        Entry::ActivateNba => "activates the nonblocking updates",
        Entry::ActivateMonitor => "makes the lines of the monitor region",
        Entry::Advance(_) => "advances",
    }
}

// Puts who does an entry behind a text, or which change of the regions it is.
fn push_actor(
    text: &mut Vec<u8>,
    names: &SourceNames<'_>,
    entry: Entry,
    actor: EntryActor,
) -> Result<(), AllocError>
    ensures put { OnOk result (text.new.items ≡ text.old.items ++ actor_text names.entry.now entry actor) }
{
    match actor {
        EntryActor::Turn(process) => {
            text.extend_from_slice(b"active  turn of ")?;
            push_process(text, names, process)
        }
        EntryActor::Update(register, value) => {
            text.extend_from_slice(b"active  ")?;
            push_update(text, names, register, value)
        }
        EntryActor::Regions => text.extend_from_slice(region_change(entry).as_bytes()),
    }
}

/// Whether there is something in a list.
pub fn has_any<T>(list: &[T]) -> bool
    ensures { result ≡ has_any list.now }
{
    match list {
        [] => false,
        _ => true,
    }
}

// Puts behind a text that the run is finished, where it is.
fn push_finish(text: &mut Vec<u8>, behind: bool, finishes: bool) -> Result<(), AllocError>
    ensures { OnOk result (text.new.items ≡ text.old.items ++ finish_text behind finishes) }
{
    if !finishes {
        return Ok(());
    }
    text.extend_from_slice(delimiter(behind).as_bytes())?;
    text.extend_from_slice(b"calls $finish")
}

// Puts what is read, changed, assigned and printed behind a text, and whether the run is finished.
fn push_parts(
    text: &mut Vec<u8>,
    names: &SourceNames<'_>,
    account: &EntryAccount,
    finishes: bool,
) -> Result<(), AllocError>
    ensures { OnOk result (text.new.items ≡ text.old.items ++ parts_text names.entry.now (account_of account.now) finishes) }
{
    let reads = has_any(&account.reads);
    let changes = reads | has_any(&account.changes);
    let assigned = changes | has_any(&account.assigned);
    push_list(text, names, &account.reads, false, "reads ")?;
    push_list(text, names, &account.changes, reads, "writes ")?;
    push_list(text, names, &account.assigned, changes, "assigns ")?;
    push_printed(text, account.lines.as_bytes(), assigned)?;
    push_finish(text, assigned | has_any(account.lines.as_bytes()), finishes)
}

/// An entry as its line tells it: its number, counted from 1, what came of its step, and whether it finished the run.
#[derive(Clone, Copy)]
pub(crate) struct ToldEntry<'a> {
    pub(crate) number: u64,
    pub(crate) entry: Entry,
    pub(crate) account: &'a EntryAccount,
    pub(crate) finishes: bool,
}

impl<'a> ToldEntry<'a> {
    /// The last entry of an explainer.
    pub(crate) fn last(explainer: &'a Explainer<'_>, entry: Entry) -> ToldEntry<'a>
        ensures number { result.number ≡ explainer.entry.now.position.core.entries }
        ensures entry { result.entry ≡ entry }
        ensures account { account_of result.account.now ≡ explainer.entry.now.account }
        ensures finishes { result.finishes ≡ explainer.entry.now.position.core.finished }
    {
        let state = explainer.machine().state();
        ToldEntry {
            number: state.entries(),
            entry,
            account: explainer.told(),
            finishes: state.is_finished(),
        }
    }
}

/// Puts the line of an entry behind a text: its number, the time, who does it, what it reads, changes, assigns and prints, and whether it
/// finishes the run.
pub(crate) fn push_entry(
    text: &mut Vec<u8>,
    names: &SourceNames<'_>,
    told: &ToldEntry<'_>,
) -> Result<(), AllocError>
    ensures { OnOk result (text.new.items ≡ text.old.items ++ entry_account_text names.entry.now told.now.number told.now.entry (account_of told.now.account.now) told.now.finishes) }
{
    push_number(text, told.number)?;
    push_labelled(text, b"  time ", told.account.time)?;
    text.extend_from_slice(b"  ")?;
    push_actor(text, names, told.entry, told.account.actor)?;
    push_parts(text, names, told.account, told.finishes)?;
    text.extend_from_slice(b"\n")
}
