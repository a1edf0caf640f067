//! `races FILE`: the file is read, races are looked for and told, and the journals of the texts that are known by then are written. Then the lawful
//! orders are searched, which may take long, or random ones tried. Races that part the texts which that found, and what is said of the texts, are told,
//! and then the other journals are written.

ghost use Rattle.std.specs.Prelude.{◌≡◌, ◌≤◌, ◌⊎◌, ◌∷◌, ◌++◌, IfErr, IfOk, IfSome, List, None, OnOk, Option, [], ◌+◌, ◌*◌, length, option_map, ℕ};
ghost use Rattle.std.specs.Io.KnownBytes.{Appends, Keeps};
ghost use Rattle.sharing.specs.Parts.{Extends};
ghost use Rattle.explore.specs.Search.{AreDistinct};
ghost use Rattle.std.specs.List.{All, AllPairs};
ghost use Rattle.program.specs.Subjects.{IsSubjectAt, Sources, sources_with};
ghost use Rattle.program.specs.Findings.{AreFound, HaveSomeEnds, IsLawfulShown, claim_of, finding_of, first_text, has_most, have_stops, is_cut, is_limit, journals_of, limits_in, met_limit, or_full, search_stop_of, unless_stopped, until_line, wants_until};
ghost use Rattle.arguments.specs.Options.{CanSearch};
ghost use Rattle.program.specs.Program.{status_of};
ghost use Rattle.program.specs.Printed.{HasLeft, HasSearchedTo, HasShown, IsReachTold, IsSaidLast, IsToldLast};
ghost use Rattle.files.specs.FileStatuses.{IsFileStatus, file_status};
ghost use Rattle.files.specs.Saved.{KeepsFiles, LeadsElsewhere, MadeFile, SavesAllWhereAsked, SavesSomeWhereAsked, journal_path};
ghost use Rattle.program.specs.EarlyJournals.{AreSavedEarly};

use crate::early_journals::{SavedEarly, save_early};
use crate::ending::Ending;
use crate::fault::CommandFault;
use crate::finding::SearchFinding;
use crate::known::KnownTexts;
use crate::racing::{ToldRaces, more_lines, tell_races};
use crate::run_ends::endings_of;
use crate::sampling::sampled;
use crate::stops::{have_stops, stops_of};
use crate::subject::{
    AskedSource, DesignSubject, Judged, judged_subject, read_sources, spare_first_of,
};
use crate::texts::{FoundTexts, ToldTexts};
use arguments::{DesignWords, RacesRequest, SearchOptions};
use design::Design;
use explore::{Bounds, Explored, Shown, Stopped};
use files::{Files, save_all, show_bytes, try_first};
use lawful::lawful_orders;
use model::end::{End, Limits, Why};
use model::entry::Entry;
use naming::{RaceNames, SearchReach, push_reach};
use progress::Progress;
use std::alloc::{AllocError, Global};
use std::io::Write;
use verdict::{Claim, SearchStop, Verdict, push_verdict};

/// How many bytes a megabyte has.
const MEGABYTE: usize = 1_000_000;

/// Searches for races of FILE and writes what came of it.
pub fn search_races<'a, F: Files, O: Write>(
    alloc: Global,
    request: &RacesRequest<'a>,
    design_words: Option<&'a DesignWords<'a>>,
    files: &mut F,
    out: &mut O,
) -> Result<Ending, CommandFault<'a>>
    ensures shown { IfOk result (HasSearchedTo (sources_with (F.held files.old) (option_map (λ w. w.now) design_words.entry)) request.now.file.now request.now.search_options (option_map (λ path. path.now) request.now.journals)
        (O.contents out.old) (O.contents out.new) (F.made files.old) (F.made files.new)) }
    ensures nothing { IfErr result (λ fault. (status_of fault ≡ 3) ⊎ (status_of fault ≡ 5) → Keeps (O.contents out.old) (O.contents out.new)) }
    ensures unsaved { IfErr result (λ fault. (status_of fault ≡ 3) ⊎ (status_of fault ≡ 5) → KeepsFiles (F.made files.old) (F.made files.new)) }
    ensures wanting { IfErr result (λ fault. status_of fault ≡ 6 → HasLeft (sources_with (F.held files.old) (option_map (λ w. w.now) design_words.entry)) request.now.file.now request.now.search_options (option_map (λ path. path.now) request.now.journals)
        (O.contents out.old) (O.contents out.new) (F.made files.old) (F.made files.new)) }
    ensures spared { OnOk result (LeadsElsewhere (F.alike files.old) request.now.file.now (option_map (λ prefix. journal_path prefix.now 1) request.now.journals)) }
{
    let asked = AskedSource {
        file: request.file,
        words: design_words,
    };
    spare_first_of(alloc, asked, request.journals, files)?;
    let texts = read_sources(alloc, asked, files)?;
    let subject = match judged_subject(alloc, texts, files)? {
        Judged::Taken(subject) => subject,
        Judged::Wrong(text) => return Ok(Ending::Wrong(text)),
    };
    match search_design(alloc, &subject, request, files, out) {
        Ok(found) => Ok(Ending::Found(found)),
        Err(fault) => Err(fault),
    }
}

/// Searches for races of a design.
fn search_design<F: Files, O: Write>(
    alloc: Global,
    subject: &DesignSubject,
    request: &RacesRequest<'_>,
    files: &mut F,
    out: &mut O,
) -> Result<SearchFinding, CommandFault<'static>>
    ensures shown { (from : Sources) (file : List ℕ) → IsSubjectAt from file subject.now → IfOk result (HasShown from file request.now.search_options (option_map (λ path. path.now) request.now.journals)
        (O.contents out.old) (O.contents out.new) (F.made files.old) (F.made files.new)) }
    ensures fault { IfErr result (λ fault. (status_of fault ≡ 1) ⊎ (status_of fault ≡ 6)) }
    ensures wanting { (from : Sources) (file : List ℕ) → IsSubjectAt from file subject.now → IfErr result (λ fault. status_of fault ≡ 6 → HasLeft from file request.now.search_options (option_map (λ path. path.now) request.now.journals)
        (O.contents out.old) (O.contents out.new) (F.made files.old) (F.made files.new)) }
{
    try_first(alloc, request.journals, files)?;
    let design = &subject.design;
    let early = tell_races(alloc, subject, request, out, &files.progress())?;
    let ToldRaces {
        known,
        races,
        refused,
    } = early;
    let first = known.as_slice();
    let saved = save_early(alloc, first, request, files);
    let end = races.found.original.end;
    let texts = find_texts(
        alloc,
        design,
        request.search_options,
        known,
        &files.progress(),
    )?;
    let names = RaceNames {
        processes: subject.processes.as_slice(),
        source: subject.source.as_slice(),
        design,
        race_bounds: races.bounds,
        prefix: request.journals,
        shown: texts.shown.as_slice(),
    };
    let search_options = request.search_options;
    let more = more_lines(alloc, &names, search_options, races, &files.progress())?;
    let said = said_lines(alloc, &names, &texts, search_options, end)?;
    let last = joined(more, said.as_slice())?;
    let found = finding_of(&texts, refused);
    let told = ToldTexts { texts, lines: last };
    match tell_texts(alloc, told, saved, request, files, out) {
        Ok(()) => Ok(found),
        Err(fault) => Err(fault),
    }
}

/// What texts are that were found, by whether memory was refused where texts were looked for before the search.
pub(crate) fn finding_of(texts: &FoundTexts, refused: bool) -> SearchFinding
    ensures { result ≡ finding_of texts.now.claim (length texts.now.shown.items) (have_stops texts.now.shown.items) refused }
{
    let stops = have_stops(texts.shown.as_slice());
    SearchFinding::of(texts.claim, texts.shown.len(), stops, refused)
}

/// Tells what is said of texts, and then saves those of their journals that weren't saved before, where they are wanted; or fails for the reason for which one
/// of those couldn't be.
pub(crate) fn tell_texts<F: Files, O: Write>(
    alloc: Global,
    told: ToldTexts,
    saved: SavedEarly,
    request: &RacesRequest<'_>,
    files: &mut F,
    out: &mut O,
) -> Result<(), CommandFault<'static>>
    requires { IfSome saved.fault (λ fault. IsFileStatus (file_status fault)) }
    ensures told { OnOk result (Appends (O.contents out.old) (O.contents out.new) told.lines.items) }
    ensures saved { (start : Option (List MadeFile)) → AreSavedEarly start (F.made files.old) (option_map (λ path. path.now) request.now.journals) saved.count (journals_of told.texts.shown.items (option_map (λ journal. journal.items) told.texts.endless)) saved.fault
        → OnOk result (SavesAllWhereAsked start (F.made files.new) (option_map (λ path. path.now) request.now.journals) (journals_of told.texts.shown.items (option_map (λ journal. journal.items) told.texts.endless))) }
    ensures fault { IfErr result (λ fault. (status_of fault ≡ 1) ⊎ (status_of fault ≡ 6)) }
    ensures wanting { (start : Option (List MadeFile)) → AreSavedEarly start (F.made files.old) (option_map (λ path. path.now) request.now.journals) saved.count (journals_of told.texts.shown.items (option_map (λ journal. journal.items) told.texts.endless)) saved.fault
        → IfErr result (λ fault. status_of fault ≡ 6 → (Keeps (O.contents out.old) (O.contents out.new) × KeepsFiles (F.made files.old) (F.made files.new))
        ⊎ (Appends (O.contents out.old) (O.contents out.new) told.lines.items
        × SavesSomeWhereAsked start (F.made files.new) (option_map (λ path. path.now) request.now.journals) (journals_of told.texts.shown.items (option_map (λ journal. journal.items) told.texts.endless)))) }
{
    let SavedEarly { count, fault } = saved;
    let ToldTexts { texts, lines } = told;
    let FoundTexts {
        claim: _,
        shown,
        endless,
        ..
    } = texts;
    let journals = with_endless(alloc, shown, endless)?;
    let all = journals.as_slice();
    let (file, prefix) = (request.file, request.journals);
    show_bytes(out, lines.as_slice())?;
    match fault {
        Some(fault) => return Err(CommandFault::Files(fault)),
        None => {}
    }
    save_all(alloc, all, count, file, prefix, files)?;
    Ok(())
}

/// The texts with their journals, and behind them the journal of a run that comes to no end, if there is one.
fn with_endless(
    alloc: Global,
    shown: Vec<Shown<Entry, End>>,
    endless: Option<Vec<Entry>>,
) -> Result<Vec<Shown<Entry, End>>, AllocError>
    ensures { IfOk result (λ all. journals_of all.items None ≡ journals_of shown.items (option_map (λ journal. journal.items) endless)) }
{
    match endless {
        Some(moves) => with_one(shown, running(alloc, moves)),
        None => Ok(shown),
    }
}

/// The texts, and one more behind them. Fails where memory is refused.
fn with_one(
    shown: Vec<Shown<Entry, End>>,
    one: Shown<Entry, End>,
) -> Result<Vec<Shown<Entry, End>>, AllocError>
    ensures { IfOk result (λ all. all.items ≡ shown.items ++ one ∷ []) }
{
    let mut all = shown;
    all.push(one)?;
    Ok(all)
}

/// The journal of a run that goes on.
fn running(alloc: Global, moves: Vec<Entry>) -> Shown<Entry, End>
    ensures { result.moves ≡ moves }
{
    Shown {
        text: Vec::new(alloc),
        end: End::Running,
        moves,
    }
}

/// The texts of all lawful orders, as far as they are searched, behind those that are known, or those of random orders where so many are to be tried.
fn find_texts<P: Progress>(
    alloc: Global,
    design: &Design,
    search_options: SearchOptions,
    known: Vec<Shown<Entry, End>>,
    progress: &P,
) -> Result<FoundTexts, AllocError>
    requires can { CanSearch search_options }
    requires lawful { All (IsLawfulShown design.now (limits_in search_options)) known.items }
    requires distinct { AllPairs AreDistinct known.items }
    requires few { length known.items ≤ search_options.max_texts }
    ensures found { IfOk result (λ texts. AreFound design.now search_options texts.claim texts.followed_before texts.shown.items (option_map (λ journal. journal.items) texts.endless)) }
    ensures grown { IfOk result (λ texts. Extends known.items texts.shown.items) }
{
    match search_options.samples {
        Some(count) => return sampled(alloc, design, search_options, count, known, progress),
        None => {}
    }
    let limits = Limits {
        until: search_options.until,
        max_entries: search_options.max_entries,
    };
    let bounds = bounds_of(search_options, search_options.max_texts);
    let explored = lawful_orders(alloc, design, limits, bounds, &known, progress);
    progress.end();
    let Explored {
        shown: others,
        stopped,
        nodes,
        endless,
        followed_before,
        widest,
    } = explored;
    let mut all = KnownTexts {
        shown: known,
        most: search_options.max_texts as usize,
    };
    let added = all.add_all(others);
    let KnownTexts { shown, most: _ } = all;
    let stopped = stop_of(stopped, added);
    let endless = endless_of(stopped, endless);
    let number = number_of(&endless, shown.as_slice());
    let claim = claim_of(search_options, stopped, nodes, number);
    Ok(FoundTexts {
        claim,
        shown,
        endless,
        followed_before,
        widest,
    })
}

/// How far a search goes: it keeps as many states and megabytes as were asked for, and finds so many texts at most.
pub(crate) fn bounds_of(search_options: SearchOptions, texts: u32) -> Bounds
    ensures nodes { result.nodes ≡ search_options.max_states }
    ensures shown { result.shown ≡ texts }
    ensures bytes { result.bytes ≡ search_options.max_memory * 1000000 }
{
    Bounds {
        nodes: search_options.max_states as usize,
        shown: texts as usize,
        bytes: search_options.max_memory as usize * MEGABYTE,
    }
}

/// For what a search stopped whose texts were put behind those that are known: for its own reason, for the most texts where one of them was left out, and for want of
/// memory where that was refused to them.
pub(crate) fn stop_of(stopped: Option<Stopped>, added: Result<bool, AllocError>) -> Option<Stopped>
    ensures { result ≡ search_stop_of stopped added }
{
    match added {
        Ok(true) => stopped,
        Ok(false) => or_full(stopped),
        Err(_) => Some(Stopped::Memory),
    }
}

/// For what a search stopped of which texts were left out since there are the most: for its own reason, or for that.
fn or_full(stopped: Option<Stopped>) -> Option<Stopped>
    ensures { result ≡ or_full stopped }
{
    match stopped {
        Some(stopped) => Some(stopped),
        None => Some(Stopped::Shown),
    }
}

/// The journal of a run that comes to no end, where the search wasn't stopped.
pub(crate) fn endless_of(
    stopped: Option<Stopped>,
    endless: Option<Vec<Entry>>,
) -> Option<Vec<Entry>>
    ensures { result ≡ unless_stopped stopped endless }
{
    match stopped {
        Some(_) => None,
        None => endless,
    }
}

/// The number of the journal of a run that comes to no end, which is behind those of the texts.
pub(crate) fn number_of(endless: &Option<Vec<Entry>>, shown: &[Shown<Entry, End>]) -> Option<usize>
    requires { length shown.now ≤ 4294967295 }
    ensures { result ≡ option_map (λ journal. length shown.now + 1) endless.now }
{
    match endless {
        Some(_) => Some(shown.len() + 1),
        None => None,
    }
}

/// What is claimed of the texts of a search.
pub(crate) fn claim_of(
    search_options: SearchOptions,
    stopped: Option<Stopped>,
    nodes: usize,
    endless: Option<usize>,
) -> Claim
    ensures { result ≡ claim_of search_options stopped nodes endless }
{
    match stopped {
        None => Claim::Every {
            states: nodes as u64,
            endless,
        },
        Some(Stopped::Nodes) => Claim::SoFar(SearchStop::States(search_options.max_states)),
        Some(Stopped::Shown) => Claim::SoFar(SearchStop::Texts(search_options.max_texts)),
        Some(Stopped::Unfollowed) => Claim::SoFar(SearchStop::Entries(search_options.max_entries)),
        Some(Stopped::Bytes) => Claim::SoFar(SearchStop::Megabytes(search_options.max_memory)),
        Some(Stopped::Memory) => Claim::SoFar(SearchStop::Memory),
    }
}

/// Whether some of the texts have another end than the first.
fn ends_differ(shown: &[Shown<Entry, End>]) -> bool
    ensures { HaveSomeEnds shown.now result }
{
    match shown.split_first() {
        Some((first, others)) => others.iter().any(|one| one.end != first.end),
        None => false,
    }
}

/// Lines, and others behind them.
fn joined(lines: Vec<u8>, others: &[u8]) -> Result<Vec<u8>, AllocError>
    ensures { IfOk result (λ all. all.items ≡ lines.items ++ others.now) }
{
    let mut all = lines;
    all.extend_from_slice(others)?;
    Ok(all)
}

/// Whether a search was stopped by a limit, and not by want of memory.
fn is_limit(search_stop: SearchStop) -> bool
    ensures { result ≡ is_limit search_stop }
{
    match search_stop {
        SearchStop::States(_)
        | SearchStop::Texts(_)
        | SearchStop::Entries(_)
        | SearchStop::Megabytes(_) => true,
        SearchStop::Memory => false,
    }
}

/// Whether it is claimed that a search met a limit.
pub(crate) fn met_limit(claim: Claim) -> bool
    ensures { result ≡ met_limit claim }
{
    match claim {
        Claim::Every { .. } => false,
        Claim::SoFar(search_stop) => is_limit(search_stop),
        Claim::Sampled(_) => false,
    }
}

/// Whether a run has the most entries.
fn has_most(why: Why) -> bool
    ensures { result ≡ has_most why }
{
    match why {
        Why::Entries => true,
        Why::Finish | Why::Until | Why::TooLong(_) | Why::Time | Why::Memory => false,
    }
}

/// Whether a run was stopped by its most entries.
fn is_cut(end: End) -> bool
    ensures { result ≡ is_cut end }
{
    match end {
        End::Quiet => false,
        End::Running => false,
        End::Stopped(why) => has_most(why),
    }
}

/// Whether no time was given, the search met a limit, and the first run was stopped by its most entries, which an option of time would end.
fn wants_until(until: Option<u64>, claim: Claim, end: End) -> bool
    ensures { result ≡ wants_until until claim end }
{
    match until {
        Some(_) => false,
        None => { if met_limit(claim) { is_cut(end) } else { false } }
    }
}

/// The line that names the option which ends a run, where it is wanted.
fn until_line(until: Option<u64>, claim: Claim, end: End) -> &'static [u8]
    ensures { result.now ≡ until_line until claim end }
{
    if wants_until(until, claim, end) {
        b"a run that never stops wants --until T\n"
    } else {
        b""
    }
}

/// How far a search came that left something out, if that is known.
fn reach_of(texts: &FoundTexts) -> Option<SearchReach<'_>>
    ensures { option_map (λ reach. reach.followed_before) result ≡ texts.now.followed_before }
{
    match texts.followed_before {
        Some(time) => Some(SearchReach {
            followed_before: time,
            widest: widest_of(texts),
        }),
        None => None,
    }
}

/// A journal that leads to where most ways lead on, if there is one.
fn widest_of(texts: &FoundTexts) -> Option<&[Entry]>
    ensures { option_map (λ journal. journal.now) result ≡ option_map (λ journal. journal.items) texts.now.widest }
{
    match &texts.widest {
        Some(journal) => Some(journal.as_slice()),
        None => None,
    }
}

/// The lines on how far a search came that met a limit, if that is known; none where it met none.
fn reach_lines(
    alloc: Global,
    names: &RaceNames<'_>,
    texts: &FoundTexts,
) -> Result<Vec<u8>, AllocError>
    ensures { IfOk result (λ lines. IsReachTold names.entry.now.processes.now (met_limit texts.now.claim) texts.now.followed_before lines.items) }
{
    if !met_limit(texts.claim) {
        return Ok(Vec::new(alloc));
    }
    let reach = match reach_of(texts) {
        Some(reach) => reach,
        None => return Ok(Vec::new(alloc)),
    };
    let mut lines = Vec::new(alloc);
    push_reach(alloc, &mut lines, names.processes, names.design, reach)?;
    Ok(lines)
}

/// What is said of a search, where the first run has this end: how far it came, where it met a limit, and what is said of the texts.
fn said_lines(
    alloc: Global,
    names: &RaceNames<'_>,
    texts: &FoundTexts,
    search_options: SearchOptions,
    end: End,
) -> Result<Vec<u8>, AllocError>
    ensures { IfOk result (λ said. IsSaidLast names.entry.now.processes.now search_options (option_map (λ path. path.now) names.entry.now.prefix) end texts.now.claim texts.now.followed_before texts.now.shown.items said.items) }
{
    let reach = reach_lines(alloc, names, texts)?;
    let last = last_lines(alloc, texts, search_options, names.prefix, end)?;
    let said = joined(reach, last.as_slice())?;
    Ok(said)
}

/// What is said of the texts, where the first run has this end.
fn last_lines<'a>(
    alloc: Global,
    texts: &'a FoundTexts,
    search_options: SearchOptions,
    prefix: Option<&'a str>,
    end: End,
) -> Result<Vec<u8>, AllocError>
    ensures { IfOk result (λ last. IsToldLast search_options (option_map (λ path. path.now) prefix.entry) end texts.entry.now.claim texts.entry.now.shown.items last.items) }
{
    let shown = texts.shown.as_slice();
    let stops = stops_of(alloc, shown)?;
    let verdict = Verdict {
        claim: texts.claim,
        until: search_options.until,
        count: shown.len(),
        ends: ends_differ(shown),
        endings: endings_of(shown),
        first: first_of(shown),
        stops: stops.as_slice(),
        prefix,
    };
    let mut last = Vec::new(alloc);
    push_verdict(&mut last, &verdict)?;
    last.extend_from_slice(until_line(search_options.until, texts.claim, end))?;
    Ok(last)
}

/// The first text, if there is one.
pub(crate) fn first_of(shown: &[Shown<Entry, End>]) -> &[u8]
    ensures { result.now ≡ first_text shown.now }
{
    match shown.split_first() {
        Some((first, _)) => first.text.as_slice(),
        None => &[],
    }
}
