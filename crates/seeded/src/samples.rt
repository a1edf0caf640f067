//! Runs of several seeds, and the texts and ends that they gave.
ghost use Rattle.std.specs.Prelude.{◌≡◌, ◌+◌, ◌≤◌, ◌⊎◌, ◌<◌, false, length, IsTrue, IfSome, IfNone, Some, OnOk, OnErr, slice_index_or, vec_len, vec_capacity};
ghost use Rattle.std.specs.List.{All, AllPairs, Contains};
ghost use Rattle.model.specs.Runs.{last_time};
ghost use Rattle.runs.specs.RunRecords.{IsRun};
ghost use Rattle.seeded.specs.Seeds.{AreSampled};
ghost use Rattle.runs.specs.declared.run.RunRecord.{RunRecord};
ghost use Rattle.runs.specs.Compared.{AreDifferentRuns, AreLike, IsWhole, WantsNoMemory};
ghost use Rattle.seeded.specs.declared.samples.SampleStop.TheVariants.{Kept};
ghost use Rattle.seeded.specs.Samples.{AreStillIn, GivesWay, IsRepresented};

use crate::run::run_seeded;
use design::Design;
use model::end::Limits;
use progress::{HowFar, Progress, Untold};
use runs::compared::{are_apart, is_same, is_whole, wants_memory};
use runs::run::RunRecord;
use std::alloc::{AllocError, Global};

/// The seeds of several runs: this one, and those that follow it (past the greatest, 0 follows).
#[derive(Clone, Copy)]
pub struct Seeds {
    pub first: u64,
    pub count: u32,
}

/// How far the runs of several seeds go: the most that are kept, and the entries of all together behind which none is begun.
#[derive(Clone, Copy)]
pub struct SampleBounds {
    pub kept: usize,
    pub entries: u64,
}

/// Why fewer runs are made than there are seeds: as many are kept as may be, all have as many entries as they may have together, or memory
/// was refused.
#[derive(Clone, Copy, PartialEq, Eq, Debug)]
pub enum SampleStop {
    Kept,
    Entries,
    Memory,
}

/// The runs of several seeds that are apart, how many runs were made, and why no more were, where fewer were than there are seeds.
#[derive(Drop)]
pub struct Samples {
    pub kept: Vec<RunRecord>,
    pub made: u32,
    pub stop: Option<SampleStop>,
}

/// Why no further run is made where so many are kept and have so many entries, if one isn't.
fn stop_at(kept: usize, entries: u64, bounds: SampleBounds) -> Option<SampleStop>
    ensures kept { result ≡ Some Kept → bounds.kept ≤ kept }
    ensures goes_on { IfNone result (kept < bounds.kept) }
{
    if kept >= bounds.kept {
        return Some(SampleStop::Kept);
    }
    if entries >= bounds.entries {
        return Some(SampleStop::Entries);
    }
    None
}

// Whether a kept run stands for another one: the two are the same, or the other one was cut off and isn't apart from it.
fn stands_for(one: &RunRecord, run: &RunRecord) -> bool
    ensures like { IsTrue result → IsWhole run.now → AreLike one.now run.now }
    ensures other { result ≡ false → AreDifferentRuns one.now run.now ⊎ GivesWay one.now run.now }
{
    if is_whole(run) {
        return is_same(one, run);
    }
    !are_apart(one, run)
}

// Whether a kept run stands for this one.
fn is_told(kept: &[RunRecord], run: &RunRecord) -> bool
    ensures like { IsTrue result → IsRepresented kept.now run.now }
    ensures other { result ≡ false → All (λ one. AreDifferentRuns one run.now ⊎ GivesWay one run.now) kept.now }
{
    for one in kept.iter() {
        if stands_for(one, run) {
            return true;
        }
    }
    false
}

// The place of the first kept run from which this one isn't apart.
fn first_close(kept: &[RunRecord], run: &RunRecord) -> Option<usize>
    requires { All (λ one. AreDifferentRuns one run.now ⊎ GivesWay one run.now) kept.now }
    ensures within { IfSome result (λ place. place < length kept.now) }
    ensures cut { IfSome result (λ place. (d : RunRecord) → IsWhole (slice_index_or kept.now place d) → ⊥) }
    ensures apart { IfNone result (All (λ one. AreDifferentRuns one run.now) kept.now) }
{
    for (place, one) in kept.iter().enumerate() {
        if !are_apart(one, run) {
            return Some(place);
        }
    }
    None
}

// Takes out the kept runs from which this one isn't apart. They were cut off, and it wasn't.
fn give_way(kept: &mut Vec<RunRecord>, run: &RunRecord)
    requires other { All (λ one. AreDifferentRuns one run.now ⊎ GivesWay one run.now) kept.old.items }
    requires apart { AllPairs AreDifferentRuns kept.old.items }
    ensures apart { AllPairs AreDifferentRuns kept.new.items }
    ensures close { All (λ one. AreDifferentRuns one run.now) kept.new.items }
    ensures from { All (Contains kept.old.items) kept.new.items }
    ensures whole { AreStillIn kept.old.items kept.new.items }
    ensures few { vec_len kept.new ≤ vec_len kept.old }
    ensures capacity { vec_capacity kept.new ≡ vec_capacity kept.old }
{
    while let Some(place) = first_close(kept.as_slice(), run) {
        kept.remove(place);
    }
}

// Keeps a run unless a kept one stands for it. Those that were cut off give way to it where they aren't apart from it. Fails
// where memory is refused, and then those that were kept stay.
fn keep(kept: &mut Vec<RunRecord>, run: RunRecord) -> Result<(), AllocError>
    requires apart { AllPairs AreDifferentRuns kept.old.items }
    ensures apart { AllPairs AreDifferentRuns kept.new.items }
    ensures from { All (λ one. Contains kept.old.items one ⊎ (one ≡ run)) kept.new.items }
    ensures whole { AreStillIn kept.old.items kept.new.items }
    ensures told { OnOk result (IsRepresented kept.new.items run) }
    ensures few { vec_len kept.new ≤ vec_len kept.old + 1 }
    ensures stay { OnErr result (vec_len kept.new ≡ vec_len kept.old) }
    ensures same { OnErr result (kept.new.items ≡ kept.old.items) }
{
    if is_told(kept.as_slice(), &run) {
        return Ok(());
    }
    kept.reserve(1)?;
    give_way(kept, &run);
    kept.push_reserved(run);
    Ok(())
}

/// Runs of several seeds. It keeps those that are apart, the first of each text and end: of a run that was cut off only what it
/// printed is compared, and it gives way to one that came to its end. It stops once the bounds are met. A run that ends for want of memory
/// isn't kept, and ends it. How many were made, is told as it goes on.
///
/// The limit of time isn't past the last time, as for every run.
pub fn sample<P: Progress>(
    alloc: Global,
    design: &Design,
    limits: Limits,
    seeds: Seeds,
    bounds: SampleBounds,
    progress: &P,
) -> Samples
    requires until { IfSome limits.until (λ until. until ≤ last_time) }
    ensures runs { All (IsRun design.now limits) result.kept.items }
    ensures apart { AllPairs AreDifferentRuns result.kept.items }
    ensures ended { All WantsNoMemory result.kept.items }
    ensures most { vec_len result.kept ≤ bounds.kept }
    ensures kept { vec_len result.kept ≤ result.made }
    ensures made { result.made ≤ seeds.count }
    ensures sampled { AreSampled design.now limits seeds.first result.made result.kept.items }
    ensures all { IfNone result.stop (result.made ≡ seeds.count) }
    ensures full { result.stop ≡ Some Kept → vec_len result.kept ≡ bounds.kept }
{
    let mut kept = Vec::new(alloc);
    let mut entries: u64 = 0;
    for made in 0..seeds.count {
        progress.tell(HowFar::Runs {
            made: u64::from(made),
        });
        match stop_at(kept.len(), entries, bounds) {
            Some(stop) => return Samples {
                kept,
                made,
                stop: Some(stop),
            },
            None => {}
        }
        let seed = seeds.first.wrapping_add(u64::from(made));
        let run = run_seeded(alloc, design, limits, seed, &Untold);
        if wants_memory(&run) {
            return Samples {
                kept,
                made,
                stop: Some(SampleStop::Memory),
            };
        }
        entries = entries.saturating_add(run.journal.len() as u64);
        match keep(&mut kept, run) {
            Ok(()) => {}
            Err(_) => return Samples {
                kept,
                made,
                stop: Some(SampleStop::Memory),
            },
        }
    }
    Samples {
        kept,
        made: seeds.count,
        stop: None,
    }
}
