//! Races that were found, told in lines.
ghost use Rattle.std.specs.Prelude.{◌≡◌, ◌↔◌, ◌≤◌, ◌<◌, ◌+◌, ◌++◌, ◌∷◌, [], length, map, IfOk, IfSome, IsTrue, OnOk, option_map, string_bytes};
ghost use Rattle.executed.specs.RunNumbers.{AreStatementsOfRole};
ghost use Rattle.naming.specs.Begins.{begin_of, plain_begin};
ghost use Rattle.naming.specs.LineOrders.{orders_text};
ghost use Rattle.naming.specs.Naming.{AddsOrder, AreWordsOf, HasJournal, IsDifferenceTold, IsJournalTold, IsOrderOf, IsRaceTold, TellsBehind, TellsMoreBehind, TellsAlone, TellsNumbered, TellsSome, list_end_text, numbered_races, parting_of, unnamed_lines};

use crate::alone::{differ_in_order, order_alone_line};
use crate::line_orders::{LineOrder, push_orders};
use crate::places::{SourcePlaces, none_uncut, places_with, statements_of};
use crate::role_words::{has_several_lines, role_words};
use crate::unseen::push_unseen;
use crate::words::{cut_of, site_of};
use accesses::are_same;
use causes::{Causes, PartingRace, numbered_count};
use conflicts::{Bound, RaceBounds};
use design::Design;
use executed::{RunStatements, StatementSearch, statements_run};
use explore::Shown;
use locations::ProcessLocation;
use model::end::End;
use model::entry::Entry;
use races::{Found, Race, is_line_order, numbers_of};
use runs::run::RunRecord;
use std::alloc::{AllocError, Global};
use verdict::{
    ProcessDescription, RaceDescription, RoleDescription, RunDescription, SiteDescription,
    first_difference, push_cut, push_race, push_unnamed,
};

/// What races are named by: a design, its processes as people call them, the source in which lines are told of what these do (an empty one, where none are to be told),
/// the bounds within which races were looked for, and the texts that are known, of which the journals are saved at paths that begin with a prefix, where one is given.
#[derive(Clone, Copy)]
pub struct RaceNames<'a> {
    pub processes: &'a [ProcessLocation],
    pub source: &'a [u8],
    pub design: &'a Design,
    pub race_bounds: RaceBounds,
    pub prefix: Option<&'a str>,
    pub shown: &'a [Shown<Entry, End>],
}

/// The first line in which two runs differ, if it isn't their ends alone: its number, and what it is in each.
#[derive(Clone, Copy)]
struct Lines<'a> {
    number: Option<usize>,
    one: &'a [u8],
    other: &'a [u8],
}

/// A race in words: what it is for, and what its two processes do.
#[derive(Clone, Copy)]
struct RaceWords<'a> {
    site: SiteDescription<'a>,
    first: &'a str,
    second: &'a str,
}

/// How far races were told: the number of the next one, and those for the order of lines, which have none and are told behind the others.
#[derive(Drop)]
struct ToldSoFar {
    number: usize,
    orders: Vec<LineOrder>,
}

/// Puts the lines on races that part texts behind a text, then those on races that were found in a first run, those on races for the order of lines, and the one
/// that says by what the list of the first run's was cut. Fails where memory is refused.
pub fn push_races<'a>(
    alloc: Global,
    text: &mut Vec<u8>,
    names: &RaceNames<'a>,
    found: &'a Found,
    causes: &'a [PartingRace],
) -> Result<(), AllocError>
    ensures { OnOk result (TellsBehind names.entry.now.processes.now names.entry.now.source.now names.entry.now.design.now names.entry.now.shown.now (option_map (λ path. path.now) names.entry.now.prefix) names.entry.now.race_bounds found.entry.now causes.entry.now text.old.items text.new.items) }
{
    let statements = statements_of(alloc, names.source)?;
    let tokens = statements.as_slice();
    let places = places_with(alloc, names.processes, names.source, tokens);
    let mut told = told_before(alloc, 0);
    push_parting(text, &mut told, &*names, &places, &*causes)?;
    push_each(text, &mut told, &*names, &places, &*found)?;
    push_kept(text, &told, &*names, &places)?;
    push_end(text, names.race_bounds, found.cut)
}

/// None was told here, behind so many that have a number.
fn told_before(alloc: Global, numbered: usize) -> ToldSoFar
    requires { numbered < 18446744073709551615 }
    ensures number { result.number ≡ numbered + 1 }
    ensures none { result.orders.items ≡ [] }
{
    ToldSoFar {
        number: numbered + 1,
        orders: Vec::new(alloc),
    }
}

/// Puts the lines on races that part texts, which were found behind so many of them and those of a first run, behind a text, then those on races for the order of
/// lines, those on texts for which none was found, the one that says by what their list was cut, and those on what texts don't tell. Fails where memory is refused.
pub fn push_more_races<'a>(
    alloc: Global,
    text: &mut Vec<u8>,
    names: &RaceNames<'a>,
    found: &Found,
    before: usize,
    causes: &'a Causes,
) -> Result<(), AllocError>
    requires { before ≤ length causes.now.causes.items }
    ensures { OnOk result (TellsMoreBehind names.entry.now.processes.now names.entry.now.source.now names.entry.now.design.now names.entry.now.shown.now (option_map (λ path. path.now) names.entry.now.prefix) names.entry.now.race_bounds found.now before causes.entry.now text.old.items text.new.items) }
{
    let statements = statements_of(alloc, names.source)?;
    let tokens = statements.as_slice();
    let places = places_with(alloc, names.processes, names.source, tokens);
    let (early, more) = causes.causes.as_slice().split_at(before);
    let numbered = numbered_found(found.races.as_slice()) + numbered_count(early);
    let mut told = told_before(alloc, numbered);
    push_parting(text, &mut told, &*names, &places, more)?;
    push_kept(text, &told, &*names, &places)?;
    push_unnamed_texts(text, causes.unnamed.as_slice())?;
    push_end(text, names.race_bounds, causes.cut)?;
    push_alone(alloc, text, names.design, names.shown)?;
    push_unseen(
        text,
        &places,
        names.design,
        names.shown.len(),
        &found.unseen,
    )
}

/// Puts the lines on races for the order of lines, which were kept, behind a text. Fails where memory is refused.
fn push_kept(
    text: &mut Vec<u8>,
    told: &ToldSoFar,
    names: &RaceNames<'_>,
    places: &SourcePlaces<'_>,
) -> Result<(), AllocError>
    ensures { OnOk result (text.new.items ≡ text.old.items ++ orders_text places.now.processes.now (option_map (λ path. path.now) names.entry.now.prefix) told.now.orders.items) }
{
    push_orders(
        places.alloc,
        text,
        places.processes,
        names.prefix,
        &told.orders,
    )
}

/// Puts the lines on texts for which no race was found behind a text.
fn push_unnamed_texts(text: &mut Vec<u8>, numbers: &[usize]) -> Result<(), AllocError>
    ensures { OnOk result (text.new.items ≡ text.old.items ++ unnamed_lines numbers.now) }
{
    for place in 0..numbers.len() {
        push_unnamed(text, numbers[place])?;
    }
    Ok(())
}

/// How many races of a first run have a number when they are told.
fn numbered_found(races: &[Race]) -> usize
    ensures value { result ≡ length (numbered_races races.now) }
    ensures few { result ≤ length races.now }
{
    let mut count: usize = 0;
    for place in 0..races.len() {
        count += numbers_of(&races[place]);
    }
    count
}

/// Puts the lines on each race that parts texts behind a text, with the next numbers, and keeps those for the order of lines. Fails where memory is refused.
fn push_parting<'a>(
    text: &mut Vec<u8>,
    told: &mut ToldSoFar,
    names: &RaceNames<'a>,
    places: &SourcePlaces<'a>,
    causes: &'a [PartingRace],
) -> Result<(), AllocError>
    requires { told.old.number + length causes.now ≤ 18446744073709551615 }
    ensures tells { OnOk result (TellsSome places.now names.entry.now.design.now names.entry.now.shown.now (option_map (λ path. path.now) names.entry.now.prefix) causes.entry.now text.old.items text.new.items told.old told.new) }
    ensures few { OnOk result (told.new.number ≤ told.old.number + length causes.now) }
{
    for place in 0..causes.len() {
        let cause = &causes[place];
        told.push_told(text, names, places, &cause.original, &cause.race)?;
    }
    Ok(())
}

impl ToldSoFar {
    /// Puts the lines on a race behind a text, with the next number, or keeps it where it is for the order of lines. Fails where memory is refused.
    #[tactic(auto, using(crate::proofs::Races::numbered_tells, crate::proofs::Races::order_tells, crate::proofs::Races::order_few))]
    fn push_told<'a>(
        &mut self,
        text: &mut Vec<u8>,
        names: &RaceNames<'a>,
        places: &SourcePlaces<'a>,
        original: &'a RunRecord,
        race: &'a Race,
    ) -> Result<(), AllocError>
        requires { self.old.number < 18446744073709551615 }
        ensures tells { OnOk result (TellsSome places.now names.entry.now.design.now names.entry.now.shown.now (option_map (λ path. path.now) names.entry.now.prefix) (parting_of original.entry.now race.entry.now ∷ []) text.old.items text.new.items self.old self.new) }
        ensures few { OnOk result (self.new.number ≤ self.old.number + 1) }
    {
        if is_line_order(race.site) {
            return self.keep_order(names.shown, race);
        }
        push_numbered(text, names, places, original, race, self.number)?;
        self.number += 1;
        Ok(())
    }

    /// Keeps a race for the order of lines, which is told behind the others. Fails where memory is refused.
    fn keep_order(&mut self, shown: &[Shown<Entry, End>], race: &Race) -> Result<(), AllocError>
        ensures { OnOk result (AddsOrder shown.now race.now self.old self.new) }
    {
        let order = order_of(shown, race);
        self.orders.push(order)?;
        Ok(())
    }
}

/// A race for the order of lines, as it is told.
fn order_of(shown: &[Shown<Entry, End>], race: &Race) -> LineOrder
    ensures { IsOrderOf shown.now race.now result }
{
    LineOrder {
        time: race.time,
        first: race.first.process,
        second: race.second.process,
        journal: journal_of(shown, &race.exchanged),
    }
}

/// Puts the lines on a race behind a text, with this number. Fails where memory is refused.
fn push_numbered<'a>(
    text: &mut Vec<u8>,
    names: &RaceNames<'a>,
    places: &SourcePlaces<'a>,
    original: &'a RunRecord,
    race: &'a Race,
    number: usize,
) -> Result<(), AllocError>
    ensures { OnOk result (TellsNumbered places.now names.entry.now.design.now names.entry.now.shown.now (option_map (λ path. path.now) names.entry.now.prefix) original.entry.now number race.entry.now text.old.items text.new.items) }
{
    let site = site_of(names.design, race.site);
    let first_run = run_of(places, site, names.design, original, race, race.first)?;
    let second_run = run_of(places, site, names.design, original, race, race.second)?;
    let first = role_words(places, site, race.first, &first_run)?;
    let second = role_words(places, site, race.second, &second_run)?;
    let words = RaceWords {
        site,
        first: first.as_str(),
        second: second.as_str(),
    };
    let description = told_race(names, places, original, race, number, words);
    push_race(text, &description)?;
    Ok(())
}

/// The statements by which a process does in a race what its role says, if they are known: in the first of its runs, or else in the second.
/// They aren't looked for where all that may have done so stand in one line. Fails where memory is refused.
fn run_of(
    places: &SourcePlaces<'_>,
    site: SiteDescription<'_>,
    design: &Design,
    original: &RunRecord,
    race: &Race,
    role: accesses::Role,
) -> Result<Option<RunStatements>, AllocError>
    ensures { IfOk result (λ found. IfSome found (AreStatementsOfRole design.now race.now.site role)) }
{
    if !has_several_lines(places, site, role) {
        return Ok(None);
    }
    let run = run_in(places.alloc, design, original, race, role)?;
    if has_run(&run) {
        return Ok(run);
    }
    run_in(places.alloc, design, &race.exchanged, race, role)
}

/// The statements by which a process does in a run what its role in a race says, if they are known. Fails where memory is refused.
fn run_in(
    alloc: Global,
    design: &Design,
    run: &RunRecord,
    race: &Race,
    role: accesses::Role,
) -> Result<Option<RunStatements>, AllocError>
    ensures { IfOk result (λ found. IfSome found (AreStatementsOfRole design.now race.now.site role)) }
{
    let search = StatementSearch {
        alloc,
        design,
        journal: run.journal.as_slice(),
        time: race.time,
        site: race.site,
        role,
    };
    statements_run(search)
}

/// Whether a statement ran, for all that is known.
fn has_run(run: &Option<RunStatements>) -> bool {
    match run {
        Some(run) => !run.numbers.is_empty(),
        None => false,
    }
}

/// Says that texts differ only in the order of lines at one time, where they do. Fails where memory is refused.
fn push_alone(
    alloc: Global,
    text: &mut Vec<u8>,
    design: &Design,
    shown: &[Shown<Entry, End>],
) -> Result<(), AllocError>
    ensures { OnOk result (TellsAlone design.now shown.now text.old.items text.new.items) }
{
    let alone = differ_in_order(alloc, design, shown)?;
    text.extend_from_slice(order_alone_line(alone))?;
    Ok(())
}

/// By what the list of races was cut, if it was.
fn push_end(
    text: &mut Vec<u8>,
    race_bounds: RaceBounds,
    cut: Option<Bound>,
) -> Result<(), AllocError>
    ensures { OnOk result (text.new.items ≡ text.old.items ++ list_end_text race_bounds cut) }
{
    match cut {
        Some(bound) => push_cut(text, cut_of(race_bounds, bound)),
        None => Ok(()),
    }
}

/// Puts the lines on each race of a first run behind a text, with the next numbers, and keeps those for the order of lines. Fails where memory is refused.
fn push_each<'a>(
    text: &mut Vec<u8>,
    told: &mut ToldSoFar,
    names: &RaceNames<'a>,
    places: &SourcePlaces<'a>,
    found: &'a Found,
) -> Result<(), AllocError>
    requires { told.old.number ≤ 9223372036854775808 }
    ensures { OnOk result (TellsSome places.now names.entry.now.design.now names.entry.now.shown.now (option_map (λ path. path.now) names.entry.now.prefix) (map (parting_of found.entry.now.original) found.entry.now.races.items) text.old.items text.new.items told.old told.new) }
{
    let races = found.races.as_slice();
    for place in 0..races.len() {
        told.push_told(text, names, places, &found.original, &races[place])?;
    }
    Ok(())
}

/// A race, as it is told in these words.
fn told_race<'a>(
    names: &RaceNames<'a>,
    places: &SourcePlaces<'a>,
    original: &'a RunRecord,
    race: &'a Race,
    number: usize,
    words: RaceWords<'a>,
) -> RaceDescription<'a>
    requires { AreWordsOf places.now names.now.design.now race.now words }
    ensures { IsRaceTold places.entry.now names.entry.now.design.now names.entry.now.shown.now (option_map (λ path. path.now) names.entry.now.prefix) original.entry.now number race.entry.now result }
{
    let lines = lines_of(original, &race.exchanged);
    RaceDescription {
        number,
        site: words.site,
        time: race.time,
        first: role_of(places, race.first, words.first),
        second: role_of(places, race.second, words.second),
        prefix: names.prefix,
        line: lines.number,
        original: RunDescription {
            journal: journal_of(names.shown, original),
            line: lines.one,
        },
        exchanged: RunDescription {
            journal: journal_of(names.shown, &race.exchanged),
            line: lines.other,
        },
    }
}

/// The first line in which two runs differ, and none where they differ in their ends alone.
fn lines_of<'a>(one: &'a RunRecord, other: &'a RunRecord) -> Lines<'a>
    ensures { IsDifferenceTold (string_bytes one.entry.now.lines) (string_bytes other.entry.now.lines) result.number result.one.now result.other.now }
{
    match first_difference(
        one.lines.as_str().as_bytes(),
        other.lines.as_str().as_bytes(),
    ) {
        Some(found) => Lines {
            number: Some(found.line),
            one: found.first,
            other: found.second,
        },
        None => Lines {
            number: None,
            one: &[],
            other: &[],
        },
    }
}

/// A role as it is told: of which process, where that begins, if that is known, and what it does, in these words.
fn role_of<'a>(
    places: &SourcePlaces<'a>,
    role: accesses::Role,
    does: &'a str,
) -> RoleDescription<'a>
    ensures number { result.number ≡ role.process }
    ensures begin { option_map plain_begin result.begins ≡ begin_of places.entry.now.processes.now role.process }
    ensures does { result.does.now ≡ does.entry.now }
{
    RoleDescription {
        number: role.process,
        begins: begin_of(places.processes, role.process),
        does,
    }
}

/// Where the process with a number begins, if that is known.
fn begin_of(processes: &[ProcessLocation], number: u32) -> Option<ProcessDescription<'_>>
    ensures { option_map plain_begin result ≡ begin_of processes.entry.now number }
{
    match processes.get(number as usize) {
        Some(process) => Some(ProcessDescription {
            always: process.always,
            at: process.at.as_str(),
        }),
        None => None,
    }
}

/// Whether the journal beside a text is that of a run.
fn is_journal(shown: &Shown<Entry, End>, run: &RunRecord) -> bool
    ensures { IsTrue result ↔ HasJournal run.now shown.now }
{
    are_same(shown.moves.as_slice(), run.journal.as_slice())
}

/// The number of the journal that is that of a run, from 1.
fn journal_of(shown: &[Shown<Entry, End>], run: &RunRecord) -> Option<usize>
    ensures { IsJournalTold shown.now run.now result }
{
    for (place, one) in shown.iter().enumerate() {
        if is_journal(one, run) {
            return Some(place + 1);
        }
    }
    None
}
