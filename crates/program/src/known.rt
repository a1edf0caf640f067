//! Texts that are known before a search: those of the first run, of the second runs that show races, and of a few random orders.

ghost use Rattle.std.specs.Prelude.{◌≡◌, ◌↔◌, ◌⊎◌, ℕ, [], false, true, if◌then◌else◌, length, IfOk, IsTrue, OnOk, Some};
ghost use Rattle.std.specs.List.{All, Contains};
ghost use Rattle.model.specs.declared.end.Limits.{Limits};
ghost use Rattle.design.specs.Compiled.{Compiled};
ghost use Rattle.explore.specs.Search.{Differs, IsShown};
ghost use Rattle.runs.specs.RunRecords.{IsRun};
ghost use Rattle.arguments.specs.Options.{CanSearch};
ghost use Rattle.conflicts.specs.declared.bounds.RaceBounds.{RaceBounds};
ghost use Rattle.program.specs.Findings.{AreFew, AreKnown, AreRaces, HasGrown, IsMemoryRefused, IsKnown, IsLawfulShown, IsShownRun, is_memory, lacks_memory, limits_in};

use arguments::SearchOptions;
use conflicts::Bound;
use design::Design;
use explore::Shown;
use model::end::{End, Limits};
use model::entry::Entry;
use progress::Progress;
use races::{Found, Race};
use runs::compared::is_whole;
use runs::run::RunRecord;
use seeded::samples::{SampleBounds, SampleStop, Samples, Seeds, sample};
use std::alloc::{AllocError, Global};

/// How many random orders are tried before a search.
const FEW_ORDERS: u32 = 8;

/// The most entries of these together, where each takes as many as the first run; no further one is tried once they have as many.
const FEW_ENTRIES: u64 = 50_000;

/// The texts that are known before a search, each with its end and its journal, and whether memory was refused to runs that might have
/// shown others.
#[derive(Drop)]
pub struct KnownOrders {
    pub shown: Vec<Shown<Entry, End>>,
    pub refused: bool,
}

/// Texts that are known, each with its end and its journal, and how many they may be.
#[derive(Drop)]
pub struct KnownTexts {
    pub shown: Vec<Shown<Entry, End>>,
    pub most: usize,
}

/// Whether this text and this end are those of one that is known.
fn is_same(one: &Shown<Entry, End>, text: &[u8], end: End) -> bool
    ensures { IsTrue result ↔ ((one.now.text.items ≡ text.now) × (one.now.end ≡ end)) }
{
    if one.end != end {
        return false;
    }
    one.text.as_slice() == text
}

/// Whether this text and this end are known.
fn is_there(shown: &[Shown<Entry, End>], text: &[u8], end: End) -> bool
    ensures there { IsTrue result → IsShown shown.now text.now end }
    ensures apart { result ≡ false → All (Differs text.now end) shown.now }
{
    for one in shown.iter() {
        if is_same(one, text, end) {
            return true;
        }
    }
    false
}

/// The text, the end and the journal of a run, once more.
fn copy_of(alloc: Global, run: &RunRecord) -> Result<Shown<Entry, End>, AllocError>
    ensures { IfOk result (IsShownRun run.now) }
{
    let mut text = Vec::new(alloc);
    text.extend_from_slice(run.lines.as_str().as_bytes())?;
    let mut moves = Vec::new(alloc);
    moves.extend_from_slice(run.journal.as_slice())?;
    Ok(Shown {
        text,
        end: run.end,
        moves,
    })
}

impl KnownTexts {
    /// No texts.
    fn new(alloc: Global, most: usize) -> KnownTexts
        ensures few { AreFew result }
        ensures none { result.shown.items ≡ [] }
        ensures most { result.most ≡ most }
    {
        KnownTexts {
            shown: Vec::new(alloc),
            most,
        }
    }

    /// Adds a text with its end and its journal, unless one with both is there or as many as may be are. The answer is whether one
    /// is there now.
    fn add(&mut self, one: Shown<Entry, End>) -> Result<bool, AllocError>
        requires few { AreFew self.old }
        ensures few { AreFew self.new }
        ensures grows { HasGrown self.old self.new }
        ensures each { All (λ s. Contains self.old.shown.items s ⊎ (s ≡ one)) self.new.shown.items }
        ensures there { IfOk result (λ there. IsTrue there → IsShown self.new.shown.items one.text.items one.end) }
        ensures full { IfOk result (λ there. there ≡ false → length self.new.shown.items ≡ self.new.most) }
    {
        if is_there(self.shown.as_slice(), one.text.as_slice(), one.end) {
            return Ok(true);
        }
        if self.shown.len() >= self.most {
            return Ok(false);
        }
        self.shown.push(one)?;
        Ok(true)
    }

    /// Adds texts with their ends and their journals in their order, each unless one with both is there. It stops where as many as
    /// may be are there. The answer is whether each is there now.
    pub fn add_all(&mut self, others: Vec<Shown<Entry, End>>) -> Result<bool, AllocError>
        requires few { AreFew self.old }
        ensures few { AreFew self.new }
        ensures grows { HasGrown self.old self.new }
        ensures each { All (λ s. Contains self.old.shown.items s ⊎ Contains others.items s) self.new.shown.items }
        ensures there { IfOk result (λ all. IsTrue all → All (λ s. IsShown self.new.shown.items s.text.items s.end) others.items) }
        ensures full { IfOk result (λ all. all ≡ false → length self.new.shown.items ≡ self.new.most) }
    {
        for one in others {
            let there = self.add(one)?;
            if !there {
                return Ok(false);
            }
        }
        Ok(true)
    }

    /// Adds the text of a run that came to its end.
    fn add_run(&mut self, alloc: Global, run: &RunRecord) -> Result<(), AllocError>
        requires few { AreFew self.old }
        ensures few { OnOk result (AreFew self.new) }
        ensures grows { OnOk result (HasGrown self.old self.new) }
        ensures lawful { OnOk result ((code : Compiled) (limits : Limits) → IsRun code limits run.now → All (IsLawfulShown code limits) self.old.shown.items → All (IsLawfulShown code limits) self.new.shown.items) }
        ensures known { OnOk result (IsKnown self.new.most self.new.shown.items run.now) }
    {
        if !is_whole(run) {
            return Ok(());
        }
        let one = copy_of(alloc, run)?;
        let _ = self.add(one)?;
        Ok(())
    }

    /// Adds the texts of runs that came to their ends.
    fn add_runs(&mut self, alloc: Global, runs: &[RunRecord]) -> Result<(), AllocError>
        requires few { AreFew self.old }
        ensures few { OnOk result (AreFew self.new) }
        ensures grows { OnOk result (HasGrown self.old self.new) }
        ensures lawful { OnOk result ((code : Compiled) (limits : Limits) → All (IsRun code limits) runs.now → All (IsLawfulShown code limits) self.old.shown.items → All (IsLawfulShown code limits) self.new.shown.items) }
    {
        for run in runs.iter() {
            self.add_run(alloc, run)?;
        }
        Ok(())
    }

    /// Adds the texts of the second runs of races, where they came to their ends.
    fn add_races(&mut self, alloc: Global, races: &[Race]) -> Result<(), AllocError>
        requires few { AreFew self.old }
        ensures few { OnOk result (AreFew self.new) }
        ensures grows { OnOk result (HasGrown self.old self.new) }
        ensures lawful { OnOk result ((code : Compiled) (limits : Limits) → All (λ race. IsRun code limits race.exchanged) races.now → All (IsLawfulShown code limits) self.old.shown.items → All (IsLawfulShown code limits) self.new.shown.items) }
        ensures known { OnOk result (All (λ race. IsKnown self.new.most self.new.shown.items race.exchanged) races.now) }
    {
        for race in races.iter() {
            self.add_run(alloc, &race.exchanged)?;
        }
        Ok(())
    }

    /// Adds the texts of a few random orders, unless such are tried in place of the search. The answer is whether memory was refused
    /// to them.
    fn add_orders<P: Progress>(
        &mut self,
        alloc: Global,
        design: &Design,
        search_options: SearchOptions,
        found: &Found,
        progress: &P,
    ) -> Result<bool, AllocError>
        requires few { AreFew self.old }
        requires can { CanSearch search_options }
        ensures few { OnOk result (AreFew self.new) }
        ensures grows { OnOk result (HasGrown self.old self.new) }
        ensures lawful { OnOk result (All (IsLawfulShown design.now (limits_in search_options)) self.old.shown.items → All (IsLawfulShown design.now (limits_in search_options)) self.new.shown.items) }
        ensures refused { IfOk result (λ refused. (count : ℕ) → search_options.samples ≡ Some count → refused ≡ false) }
    {
        if search_options.samples.is_some() {
            return Ok(false);
        }
        let others = random_orders(alloc, design, search_options, found, progress);
        self.add_runs(alloc, others.kept.as_slice())?;
        Ok(matches!(others.stop, Some(SampleStop::Memory)))
    }
}

/// The texts that are known of a design before its orders are searched: those of the first run, of the second runs of its races, and
/// of a few random orders, unless such are tried in place of the search; up to as many as may be shown. And whether memory was refused
/// to the search for races or to the random orders.
pub fn known_texts<P: Progress>(
    alloc: Global,
    design: &Design,
    search_options: SearchOptions,
    found: &Found,
    progress: &P,
) -> Result<KnownOrders, AllocError>
    requires can { CanSearch search_options }
    requires races { (race_bounds : RaceBounds) × AreRaces design.now (limits_in search_options) race_bounds found.now }
    ensures known { IfOk result (λ known. AreKnown design.now search_options found.now known.shown.items) }
    ensures refused { IfOk result (λ known. IsMemoryRefused search_options.samples found.now.cut known.refused) }
{
    let mut known = KnownTexts::new(alloc, search_options.max_texts as usize);
    known.add_run(alloc, &found.original)?;
    known.add_races(alloc, found.races.as_slice())?;
    let orders_refused = known.add_orders(alloc, design, search_options, found, progress)?;
    let refused = is_refused(found.cut, orders_refused);
    let KnownTexts { shown, most: _ } = known;
    Ok(KnownOrders { shown, refused })
}

/// Whether memory was refused to the search for races, by what its list was cut, or to random orders.
fn is_refused(cut: Option<Bound>, orders_refused: bool) -> bool
    ensures { result ≡ (if orders_refused then true else lacks_memory cut) }
{
    if orders_refused {
        return true;
    }
    lacks_memory(cut)
}

/// Whether memory was refused to a search for races, by what its list was cut.
fn lacks_memory(cut: Option<Bound>) -> bool
    ensures { result ≡ lacks_memory cut }
{
    match cut {
        Some(bound) => is_memory(bound),
        None => false,
    }
}

/// Whether a list of races was cut since memory was refused.
fn is_memory(bound: Bound) -> bool
    ensures { result ≡ is_memory bound }
{
    match bound {
        Bound::Memory => true,
        Bound::Races | Bound::Pairs | Bound::Entries | Bound::Steps => false,
    }
}

/// How many random orders are tried: none where the first run has no two entries whose order may matter, and else as many as the most
/// entries allow where each takes as many as the first run.
fn few_orders(found: &Found) -> u32 {
    if found.tried == 0 {
        return 0;
    }
    let entries = (found.original.journal.len() as u64).max(1);
    (FEW_ENTRIES / entries).min(u64::from(FEW_ORDERS)) as u32
}

/// A few random orders, and why no more of them were tried.
fn random_orders<P: Progress>(
    alloc: Global,
    design: &Design,
    search_options: SearchOptions,
    found: &Found,
    progress: &P,
) -> Samples
    requires { CanSearch search_options }
    ensures { All (IsRun design.now (limits_in search_options)) result.kept.items }
{
    let limits = Limits {
        until: search_options.until,
        max_entries: search_options.max_entries,
    };
    let seeds = Seeds {
        first: search_options.seed,
        count: few_orders(found),
    };
    let bounds = SampleBounds {
        kept: FEW_ORDERS as usize,
        entries: FEW_ENTRIES,
    };
    let samples = sample(alloc, design, limits, seeds, bounds, progress);
    progress.end();
    samples
}
