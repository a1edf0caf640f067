//! The search for races.
ghost use Rattle.std.specs.Prelude.{◌≡◌, [], IfSome, None};
ghost use Rattle.std.specs.List.{All, AllPairs};
ghost use Rattle.runs.specs.RunRecords.{IsRun};
ghost use Rattle.conflicts.specs.RunEndings.{HasTimeLimit};
ghost use Rattle.races.specs.Races.{AreOthers, IsOfAnyDesign, IsShownRace, IsWithinBounds};
ghost use Rattle.races.specs.Unseen.{IsUnseen};

use crate::race_search::RaceSearch;
use crate::told::Found;
use crate::trials::{Trials, try_all};
use conflicts::{Bound, JournaledMachine, RaceBounds, RunRecorder, record_run};
use design::Design;
use model::end::{End, Limits, Why};
use progress::Progress;
use runs::compared::wants_memory;
use runs::run::RunRecord;
use std::alloc::Global;

// A run of no entries, for which there was no memory.
fn nothing(alloc: Global) -> RunRecord
    ensures { IsOfAnyDesign result }
{
    RunRecord {
        lines: String::new(alloc),
        journal: Vec::new(alloc),
        end: End::Stopped(Why::Memory),
    }
}

// What is found where memory was refused to the first run.
fn without_races(alloc: Global, original: RunRecord) -> Found
    ensures original { result.original ≡ original }
    ensures none { result.races.items ≡ [] }
    ensures seen { result.unseen ≡ None }
    ensures within { (bounds : RaceBounds) → IsWithinBounds bounds result.races.items result.tried result.cut }
{
    Found {
        original,
        races: Vec::new(alloc),
        tried: 0,
        cut: Some(Bound::Memory),
        unseen: None,
    }
}

/// Searches for the races of a design that show in one run of it, and in the runs in which the order of two entries of that one is
/// turned. Each race is told once for each register, or for printing, strobing or finishing the run, and for each two processes.
///
/// The limit of time isn't past the last time, as for every run. Where memory is refused, it ends with what was found until
/// then.
pub fn find_races<P: Progress>(
    alloc: Global,
    design: &Design,
    limits: Limits,
    bounds: RaceBounds,
    progress: &P,
) -> Found
    requires until { HasTimeLimit limits }
    // The first run is lawful and in time, and its lines and its end are told.
    ensures original { IsRun design.now limits result.original }
    // What each race says of its two processes is so in the first run. Its second run is lawful and in time too, there the two come
    // the other way round, and it is apart from the first run. Neither of the two wants memory.
    ensures races { All (IsShownRace design.now limits result.original) result.races.items }
    // No two races are for one site and of the same two processes.
    ensures distinct { AllPairs AreOthers result.races.items }
    // The bounds hold, each race has taken a second run, and the list is cut by a bound only where it is met.
    ensures within { IsWithinBounds bounds result.races.items result.tried result.cut }
    // The difference, if one is told, is one of the first run from another lawful run that prints the same and ends alike.
    ensures unseen { IfSome result.unseen (IsUnseen design.now limits result.original) }
{
    let mut run = match JournaledMachine::start(alloc, design, limits) {
        Ok(run) => run,
        Err(_) => return without_races(alloc, nothing(alloc)),
    };
    let mut recorder = RunRecorder::start(alloc, design, bounds);
    let original = record_run(alloc, &mut run, &mut recorder, progress);
    if wants_memory(&original) {
        drop(recorder);
        return without_races(alloc, original);
    }
    recorder.finish();
    let task = RaceSearch {
        alloc,
        design,
        limits,
        bounds,
        original: &original,
        processes: &recorder.processes,
    };
    let trials = try_all(task, &recorder.conflicts, progress);
    drop(recorder);
    let Trials {
        races,
        tried,
        cut,
        unseen,
        ..
    } = trials;
    Found {
        original,
        races,
        tried,
        cut,
        unseen,
    }
}
