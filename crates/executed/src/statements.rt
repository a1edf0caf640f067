//! The statements of a process that ran, by their numbers among those of the process that do the same.
ghost use Rattle.std.specs.Prelude.{◌<◌, ◌≤◌, IfOk, IfSome, OnOk, length};
ghost use Rattle.executed.specs.RunNumbers.{AreNumbered, AreStatementsOfRole, BeginsAt, MayKeep};

use crate::deed::{Deed, deed_of, times_done};
use crate::turns::{TurnFinder, TurnSearch, updates_at};
use accesses::{Does, Role, Site};
use design::{Design, RegId};
use model::entry::Entry;
use std::alloc::{AllocError, Global};

// The most entries of a journal that is gone along.
const MOST_ENTRIES: usize = 100_000;

/// What is looked for: the statements by which a process does at a site what its role says, in its turns at a time of a journal.
#[derive(Clone, Copy)]
pub struct StatementSearch<'a> {
    pub alloc: Global,
    pub design: &'a Design,
    pub journal: &'a [Entry],
    pub time: u64,
    pub site: Site,
    pub role: Role,
}

/// Statements that ran, by the numbers of their tokens: of those of the process that do what is looked for, in the order of the text and
/// counted from 0. And how many tokens do so.
#[derive(Drop)]
pub struct RunStatements {
    pub numbers: Vec<usize>,
    pub total: usize,
}

// Where a process begins.
fn start_of(design: &Design, process: u32) -> usize
    requires { process < length design.now.processes }
    ensures { BeginsAt design.now process result }
{
    design.first(process).place
}

// Where the process with a number begins, or else a place.
fn start_or(design: &Design, process: usize, place: usize) -> usize {
    if process >= design.trees().len() {
        return place;
    }
    match u32::try_from(process) {
        Ok(number) => start_of(design, number),
        Err(_) => place,
    }
}

// The nearer one of two places, if the other one is behind where a process begins.
fn nearer(end: usize, first: usize, place: usize) -> usize
    ensures { result ≤ end }
{
    if place > first && place < end {
        place
    } else {
        end
    }
}

// The place of the first node behind the statements of a process that begin at a place. One without statements begins behind those of all.
fn end_of(design: &Design, first: usize) -> usize
    ensures { result ≤ length design.now.nodes }
{
    let mut end = design.nodes().len();
    for process in 0..design.trees().len() {
        end = nearer(end, first, start_or(design, process, end));
    }
    end
}

// The numbers of the nodes of a process that have marks, among the tokens that do what is looked for.
fn numbered(
    wanted: StatementSearch<'_>,
    deed: Deed,
    finder: &TurnFinder<'_>,
) -> Result<Option<RunStatements>, AllocError>
    ensures { IfOk result (λ found. IfSome found (AreNumbered wanted.entry.design.now wanted.entry.role.process deed)) }
{
    if wanted.role.process as usize >= wanted.design.trees().len() {
        return Ok(None);
    }
    let first = start_of(wanted.design, wanted.role.process);
    let end = end_of(wanted.design, first);
    if first > end {
        return Ok(None);
    }
    let run = numbered_between(wanted, deed, finder, first, end)?;
    Ok(Some(run))
}

// Keeps the number of a node that has a mark and does so often what is looked for.
fn keep_number(
    numbers: &mut Vec<usize>,
    is_marked: bool,
    times: usize,
    number: usize,
) -> Result<(), AllocError>
    ensures { OnOk result (MayKeep times number numbers.old.items numbers.new.items) }
{
    if !is_marked {
        return Ok(());
    }
    if times == 0 {
        return Ok(());
    }
    numbers.push(number)?;
    Ok(())
}

// The numbers of the nodes between two places that have marks.
fn numbered_between(
    wanted: StatementSearch<'_>,
    deed: Deed,
    finder: &TurnFinder<'_>,
    first: usize,
    end: usize,
) -> Result<RunStatements, AllocError>
    requires begins { BeginsAt wanted.design.now wanted.role.process first }
    requires some { first ≤ end }
    requires within { end ≤ length wanted.design.now.nodes }
    ensures { IfOk result (AreNumbered wanted.entry.design.now wanted.entry.role.process deed) }
{
    let nodes = wanted.design.nodes();
    let mut numbers = Vec::new(wanted.alloc);
    let mut total: usize = 0;
    for place in first..end {
        let times = times_done(wanted.design, &nodes[place], deed);
        keep_number(&mut numbers, finder.marks.has(place), times, total)?;
        total = total.saturating_add(times);
    }
    Ok(RunStatements { numbers, total })
}

// The statements that ran and did what is looked for, which a finder meets along the journal, if the turns' courses are known.
fn found_along(
    finder: &mut TurnFinder<'_>,
    wanted: StatementSearch<'_>,
    deed: Deed,
) -> Result<Option<RunStatements>, AllocError>
    ensures { IfOk result (λ found. IfSome found (AreNumbered wanted.entry.design.now wanted.entry.role.process deed)) }
{
    if !finder.go()? {
        return Ok(None);
    }
    numbered(wanted, deed, finder)
}

// The statements that ran and did what is looked for, if the turns' courses are known.
fn found(
    wanted: StatementSearch<'_>,
    sought: TurnSearch,
) -> Result<Option<RunStatements>, AllocError>
    ensures { IfOk result (λ found. IfSome found (AreNumbered wanted.entry.design.now wanted.entry.role.process sought.deed)) }
{
    let mut finder = TurnFinder::start(wanted, sought)?;
    let run = found_along(&mut finder, wanted, sought.deed);
    drop(finder);
    run
}

// Whether a statement ran, for all that is known.
fn has_some(run: &Option<RunStatements>) -> bool {
    match run {
        Some(run) => !run.numbers.is_empty(),
        None => false,
    }
}

// The nonblocking assignments of a process that made updates of a register, which are taken at the race's time: those of the first update
// that it made.
fn updating(
    wanted: StatementSearch<'_>,
    register: RegId,
) -> Result<Option<RunStatements>, AllocError>
    ensures { IfOk result (λ found. IfSome found (AreNumbered wanted.entry.design.now wanted.entry.role.process (Deed.Assigns register))) }
{
    let updates = updates_at(wanted, register)?;
    for place in 0..updates.len() {
        let sought = TurnSearch {
            deed: Deed::Assigns(register),
            update: Some(updates[place]),
        };
        let run = found(wanted, sought)?;
        if has_some(&run) {
            return Ok(run);
        }
    }
    Ok(None)
}

// The statements that ran and did what is looked for; of updates those that made one.
fn found_by(wanted: StatementSearch<'_>, deed: Deed) -> Result<Option<RunStatements>, AllocError>
    ensures { IfOk result (λ found. IfSome found (AreNumbered wanted.entry.design.now wanted.entry.role.process deed)) }
{
    match (deed, wanted.role.does) {
        (Deed::Assigns(register), Does::Updates) => updating(wanted, register),
        _ => found(wanted, TurnSearch { deed, update: None }),
    }
}

/// The statements by which a process did at a site what its role says, in its turns at a time of a journal. None where that isn't known: a
/// test that leads to the same rest of a turn by both its ways stands before them, there are too many, or the journal is too long. Each
/// number is that of a node of the process that does so. Fails where memory is refused.
pub fn statements_run(wanted: StatementSearch<'_>) -> Result<Option<RunStatements>, AllocError>
    ensures { IfOk result (λ found. IfSome found (AreStatementsOfRole wanted.entry.design.now wanted.entry.site wanted.entry.role)) }
{
    if wanted.journal.len() > MOST_ENTRIES {
        return Ok(None);
    }
    match deed_of(wanted.site, wanted.role.does) {
        Some(deed) => found_by(wanted, deed),
        None => Ok(None),
    }
}
