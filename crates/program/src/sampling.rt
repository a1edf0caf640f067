//! Random lawful orders in place of the search of all of them. Their texts stand behind those of the first run and of the second runs of races.

ghost use Rattle.std.specs.Prelude.{◌≡◌, ◌↔◌, ◌≤◌, IfOk, IsTrue, OnOk, Some, length, option_map, string_bytes};
ghost use Rattle.std.specs.List.{All, AllPairs, Any};
ghost use Rattle.explore.specs.Search.{AreDistinct, IsShown};
ghost use Rattle.sharing.specs.Parts.{Extends};
ghost use Rattle.program.specs.Findings.{AreFound, IsLawfulShown, IsRunShownBehind, IsShownRun, IsShownWanted, IsWantedRun, limits_in, own_stop, sampled_stop};
ghost use Rattle.arguments.specs.Options.{CanSearch};

use crate::known::KnownTexts;
use crate::texts::FoundTexts;
use arguments::SearchOptions;
use design::Design;
use explore::Shown;
use model::end::{End, Limits};
use model::entry::Entry;
use progress::Progress;
use runs::compared::is_whole;
use runs::run::RunRecord;
use seeded::samples::{SampleBounds, SampleStop, Samples, Seeds, sample};
use std::alloc::{AllocError, Global};
use verdict::{Claim, SampledOrders, SearchStop};

/// The texts of some random lawful orders behind those that are known. Of orders that a limit cut there are texts only where none is known.
pub fn sampled<P: Progress>(
    alloc: Global,
    design: &Design,
    search_options: SearchOptions,
    count: u32,
    known: Vec<Shown<Entry, End>>,
    progress: &P,
) -> Result<FoundTexts, AllocError>
    requires can { CanSearch search_options }
    requires asked { search_options.samples ≡ Some count }
    requires lawful { All (IsLawfulShown design.now (limits_in search_options)) known.items }
    requires distinct { AllPairs AreDistinct known.items }
    requires few { length known.items ≤ search_options.max_texts }
    ensures found { IfOk result (λ texts. AreFound design.now search_options texts.claim texts.followed_before texts.shown.items (option_map (λ journal. journal.items) texts.endless)) }
    ensures grown { IfOk result (λ texts. Extends known.items texts.shown.items) }
{
    let limits = Limits {
        until: search_options.until,
        max_entries: search_options.max_entries,
    };
    let seeds = Seeds {
        first: search_options.seed,
        count,
    };
    let bounds = SampleBounds {
        kept: search_options.max_texts as usize,
        entries: u64::MAX,
    };
    let samples = sample(alloc, design, limits, seeds, bounds, progress);
    progress.end();
    let Samples { kept, made, stop } = samples;
    let others = shown_of(alloc, kept, known.is_empty())?;
    let mut all = KnownTexts {
        shown: known,
        most: search_options.max_texts as usize,
    };
    let added = all.add_all(others)?;
    let KnownTexts { shown, most: _ } = all;
    let orders = SampledOrders {
        made,
        asked: count,
        stop: sampled_stop(search_options, stop, added),
    };
    Ok(FoundTexts {
        claim: Claim::Sampled(orders),
        shown,
        endless: None,
        followed_before: None,
        widest: None,
    })
}

/// Why no more random orders were tried whose texts were put behind those that are known: for their own reason, or for the most texts where one of them was left out.
fn sampled_stop(
    search_options: SearchOptions,
    stop: Option<SampleStop>,
    added: bool,
) -> Option<SearchStop>
    ensures { result ≡ sampled_stop search_options stop added }
{
    match added {
        true => own_stop(search_options, stop),
        false => Some(SearchStop::Texts(search_options.max_texts)),
    }
}

/// Why no more random orders were tried, if fewer were than asked for.
fn own_stop(search_options: SearchOptions, stop: Option<SampleStop>) -> Option<SearchStop>
    ensures { result ≡ own_stop search_options stop }
{
    match stop {
        Some(SampleStop::Kept) => Some(SearchStop::Texts(search_options.max_texts)),
        Some(SampleStop::Entries) => Some(SearchStop::Entries(search_options.max_entries)),
        Some(SampleStop::Memory) => Some(SearchStop::Memory),
        None => None,
    }
}

/// Runs as texts that are shown: all of them, or those that came to their ends.
fn shown_of(
    alloc: Global,
    runs: Vec<RunRecord>,
    all: bool,
) -> Result<Vec<Shown<Entry, End>>, AllocError>
    ensures from { IfOk result (λ shown. All (λ s. Any (λ run. IsShownWanted all run s) runs.items) shown.items) }
    ensures there { IfOk result (λ shown. All (λ run. IsWantedRun all run → IsShown shown.items (string_bytes run.lines) run.end) runs.items) }
{
    let mut shown = Vec::new(alloc);
    for run in runs {
        push_run(&mut shown, run, all)?;
    }
    Ok(shown)
}

/// Whether a run is shown: all are, or it came to its end.
fn is_wanted(run: &RunRecord, all: bool) -> bool
    ensures { IsTrue result ↔ IsWantedRun all run.now }
{
    if all {
        return true;
    }
    is_whole(run)
}

/// Puts a run behind texts that are shown, where all are shown or it came to its end.
fn push_run(shown: &mut Vec<Shown<Entry, End>>, run: RunRecord, all: bool) -> Result<(), AllocError>
    ensures { OnOk result (IsRunShownBehind all run shown.old.items shown.new.items) }
{
    if !is_wanted(&run, all) {
        return Ok(());
    }
    shown.push(shown_as(run))?;
    Ok(())
}

/// A run as a text that is shown, with its end and its journal.
fn shown_as(run: RunRecord) -> Shown<Entry, End>
    ensures { IsShownRun run result }
{
    let RunRecord {
        lines,
        journal,
        end,
    } = run;
    Shown {
        text: lines.into_bytes(),
        end,
        moves: journal,
    }
}
