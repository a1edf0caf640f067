//! Races, which are told before a search, and behind it where it found further texts.

ghost use Rattle.std.specs.Prelude.{◌≡◌, ◌⊎◌, ◌≤◌, ◌<◌, IfErr, IfOk, IfSome, List, length, option_map, ℕ};
ghost use Rattle.std.specs.Io.KnownBytes.{Appends, Keeps};
ghost use Rattle.model.specs.Runs.{last_time};
ghost use Rattle.sharing.specs.Parts.{Extends};
ghost use Rattle.naming.specs.Naming.{TellsMore, TellsRaces};
ghost use Rattle.arguments.specs.Options.{CanSearch};
ghost use Rattle.causes.specs.Causes.{AreCauses, HasAnswer};
ghost use Rattle.program.specs.Findings.{AreRaces, limits_in};
ghost use Rattle.program.specs.Printed.{IsToldFirst, IsToldMore};
ghost use Rattle.program.specs.Program.{status_of};

use crate::fault::CommandFault;
use crate::known::{KnownOrders, known_texts};
use crate::subject::DesignSubject;
use arguments::{RacesRequest, SearchOptions};
use causes::{CauseSearch, Causes, PartingRace};
use conflicts::RaceBounds;
use design::Design;
use explore::Shown;
use files::show_bytes;
use model::end::{End, Limits};
use model::entry::Entry;
use naming::{RaceNames, push_more_races, push_races};
use progress::Progress;
use races::{Found, find_races};
use std::alloc::{AllocError, Global};
use std::io::Write;

/// How many second runs are made to name races, how many races are named at most, and how many entries these runs have together; so it is
/// of races of the first run, and of those that part texts.
const RACE_BOUNDS: RaceBounds = RaceBounds {
    pairs: 1000,
    races: 64,
    entries: 20_000_000,
};

/// The races that were told of so many texts: the bounds within which they were looked for, those of the first run, and those that part the texts.
#[derive(Drop)]
pub struct NamedRaces {
    pub bounds: RaceBounds,
    pub found: Found,
    pub causes: Causes,
    pub texts: usize,
}

/// What was told before a search: the texts that are known from then on, whose journals are named beside the runs that have them, and the races;
/// and whether memory was refused to runs that might have shown other texts.
#[derive(Drop)]
pub struct ToldRaces {
    pub known: Vec<Shown<Entry, End>>,
    pub races: NamedRaces,
    pub refused: bool,
}

/// Looks for races and tells them: first those that part texts which are known.
pub fn tell_races<O: Write, P: Progress>(
    alloc: Global,
    subject: &DesignSubject,
    request: &RacesRequest<'_>,
    out: &mut O,
    progress: &P,
) -> Result<ToldRaces, CommandFault<'static>>
    ensures told { IfOk result (λ early. (first : List ℕ) × IsToldFirst subject.now.processes.items subject.now.source.items subject.now.design request.now.search_options (option_map (λ path. path.now) request.now.journals) early first × Appends (O.contents out.old) (O.contents out.new) first) }
    ensures fault { IfErr result (λ fault. (status_of fault ≡ 1) ⊎ (status_of fault ≡ 6)) }
    ensures untold { IfErr result (λ fault. status_of fault ≡ 6 → Keeps (O.contents out.old) (O.contents out.new)) }
{
    let design = &subject.design;
    let limits = Limits {
        until: request.search_options.until,
        max_entries: request.search_options.max_entries,
    };
    let race_bounds = RACE_BOUNDS;
    let found = races_of(alloc, design, limits, race_bounds, progress);
    let orders = known_texts(alloc, design, request.search_options, &found, progress)?;
    let KnownOrders {
        shown: known,
        refused,
    } = orders;
    let search = CauseSearch {
        alloc,
        design,
        limits,
        bounds: race_bounds,
        found: &found,
    };
    let causes = first_causes(search, known.as_slice(), progress);
    let names = RaceNames {
        processes: subject.processes.as_slice(),
        source: subject.source.as_slice(),
        design,
        race_bounds,
        prefix: request.journals,
        shown: known.as_slice(),
    };
    let lines = race_lines(alloc, &names, &found, causes.causes.as_slice())?;
    show_bytes(out, lines.as_slice())?;
    let texts = known.len();
    let races = NamedRaces {
        bounds: race_bounds,
        found,
        causes,
        texts,
    };
    Ok(ToldRaces {
        known,
        races,
        refused,
    })
}

/// The races that part texts which are known before a search.
fn first_causes<P: Progress>(
    search: CauseSearch<'_>,
    shown: &[Shown<Entry, End>],
    progress: &P,
) -> Causes
    requires { IfSome search.limits.until (λ until. until ≤ last_time) }
    ensures are { AreCauses search.entry.design.now search.entry.limits search.entry.bounds search.entry.found.now result }
    ensures answered { 1 < length shown.now → HasAnswer search.entry.found.now result }
{
    let mut causes = Causes::new(search.alloc, search.bounds);
    causes.explain(search, shown, 1, progress);
    progress.end();
    causes
}

/// The lines on races that part texts which weren't known before a search, behind those that were told then.
pub fn more_lines<P: Progress>(
    alloc: Global,
    names: &RaceNames<'_>,
    search_options: SearchOptions,
    races: NamedRaces,
    progress: &P,
) -> Result<Vec<u8>, AllocError>
    requires can { CanSearch search_options }
    requires bounds { names.now.race_bounds ≡ races.bounds }
    requires are { AreCauses names.now.design.now (limits_in search_options) races.bounds races.found races.causes }
    requires answered { 1 < races.texts → HasAnswer races.found races.causes }
    ensures { IfOk result (λ lines. IsToldMore names.entry.now.processes.now names.entry.now.source.now names.entry.now.design.now search_options (option_map (λ path. path.now) names.entry.now.prefix) races names.entry.now.shown.now lines.items) }
{
    let NamedRaces {
        bounds,
        found,
        causes,
        texts,
    } = races;
    let search = CauseSearch {
        alloc,
        design: names.design,
        limits: Limits {
            until: search_options.until,
            max_entries: search_options.max_entries,
        },
        bounds,
        found: &found,
    };
    let before = causes.causes.len();
    let all = all_causes(search, causes, names.shown, texts, progress);
    let here = RaceNames {
        processes: names.processes,
        source: names.source,
        design: names.design,
        race_bounds: bounds,
        prefix: names.prefix,
        shown: names.shown,
    };
    let lines = further_lines(alloc, &here, &found, before, &all)?;
    Ok(lines)
}

/// The lines on races that part texts, behind so many that were told before.
fn further_lines<'a>(
    alloc: Global,
    names: &RaceNames<'a>,
    found: &'a Found,
    told: usize,
    causes: &'a Causes,
) -> Result<Vec<u8>, AllocError>
    requires { told ≤ length causes.now.causes.items }
    ensures { IfOk result (λ lines. TellsMore names.entry.now.processes.now names.entry.now.source.now names.entry.now.design.now names.entry.now.shown.now (option_map (λ path. path.now) names.entry.now.prefix) names.entry.now.race_bounds found.entry.now told causes.entry.now lines.items) }
{
    let mut lines = Vec::new(alloc);
    push_more_races(alloc, &mut lines, names, found, told, causes)?;
    Ok(lines)
}

/// The place of the first text behind so many that isn't the first of all.
fn place_behind(texts: usize) -> usize
    ensures { (count : ℕ) → 1 < count → texts < count → result < count }
{
    if texts == 0 { 1 } else { texts }
}

/// Races that part texts, and behind them those that part texts behind so many.
fn all_causes<P: Progress>(
    search: CauseSearch<'_>,
    causes: Causes,
    shown: &[Shown<Entry, End>],
    texts: usize,
    progress: &P,
) -> Causes
    requires until { IfSome search.limits.until (λ until. until ≤ last_time) }
    requires are { AreCauses search.design.now search.limits search.bounds search.found.now causes }
    requires answered { 1 < texts → HasAnswer search.found.now causes }
    ensures are { AreCauses search.entry.design.now search.entry.limits search.entry.bounds search.entry.found.now result }
    ensures grown { Extends causes.causes.items result.causes.items }
    ensures answered { 1 < length shown.now → HasAnswer search.entry.found.now result }
{
    let mut all = causes;
    all.explain(search, shown, place_behind(texts), progress);
    progress.end();
    all
}

/// The races of a design.
fn races_of<P: Progress>(
    alloc: Global,
    design: &Design,
    limits: Limits,
    race_bounds: RaceBounds,
    progress: &P,
) -> Found
    requires { IfSome limits.until (λ until. until ≤ last_time) }
    ensures { AreRaces design.now limits race_bounds result }
{
    let found = find_races(alloc, design, limits, race_bounds, progress);
    progress.end();
    found
}

/// The lines on races that were found.
fn race_lines<'a>(
    alloc: Global,
    names: &RaceNames<'a>,
    found: &'a Found,
    causes: &'a [PartingRace],
) -> Result<Vec<u8>, AllocError>
    ensures { IfOk result (λ lines. TellsRaces names.entry.now.processes.now names.entry.now.source.now names.entry.now.design.now names.entry.now.shown.now (option_map (λ path. path.now) names.entry.now.prefix) names.entry.now.race_bounds found.entry.now causes.entry.now lines.items) }
{
    let mut lines = Vec::new(alloc);
    push_races(alloc, &mut lines, names, found, causes)?;
    Ok(lines)
}
