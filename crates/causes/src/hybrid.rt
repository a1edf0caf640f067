//! Runs that begin as one run, and go on as another.
ghost use Rattle.std.specs.Prelude.{◌≡◌, ◌≤◌, IfOk, IfSome};
ghost use Rattle.std.specs.Option.{ForSome};
ghost use Rattle.model.specs.Runs.{last_time};
ghost use Rattle.model.specs.declared.end.Limits.{Limits};
ghost use Rattle.design.specs.Compiled.{Compiled};
ghost use Rattle.runs.specs.RunRecords.{IsRun};
ghost use Rattle.conflicts.specs.RunEndings.{IsUnderWay, HasFollowed, HasGoneOn};

use crate::causes::CauseSearch;
use crate::track::Track;
use conflicts::{JournaledMachine, RunTransitions, process_of, repeat, transition_of};
use model::end::{End, Why};
use model::entry::Entry;
use progress::{Progress, tell_entries};
use runs::compared::wants_memory;
use runs::run::RunRecord;
use std::alloc::{AllocError, Global};

/// What runs are made of: the design and the limits of a search, of which that of time isn't past the last time, and the most entries that
/// one takes on its way.
#[derive(Clone, Copy)]
pub(crate) struct HybridSetting<'a> {
    pub(crate) search: CauseSearch<'a>,
    pub(crate) most_entries: u64,
    ghost until: { ForSome search.limits.until (λ until. until ≤ last_time) },
}

impl<'a> HybridSetting<'a> {
    /// The start of a run.
    pub(crate) fn start(self) -> Result<Box<JournaledMachine<'a>>, AllocError>
        ensures code { IfOk result (λ run. run.value.machine.code ≡ self.entry.search.design.now) }
        ensures limits { IfOk result (λ run. run.value.limits ≡ self.entry.search.limits) }
        ensures under_way { IfOk result (λ run. IsUnderWay run.value) }
    {
        let CauseSearch {
            alloc,
            design,
            limits,
            ..
        } = self.search;
        JournaledMachine::start(alloc, design, limits)
    }
}

/// How many runs may still be made, how many entries they may still take, and who is told how far they are.
#[derive(Drop)]
pub(crate) struct Making<'p, P> {
    pub(crate) runs: usize,
    pub(crate) entries: u64,
    pub(crate) progress: &'p P,
}

impl<P: Progress> Making<'_, P> {
    /// Whether no run may be made any more.
    pub(crate) fn is_met(&self) -> bool {
        self.runs == 0 || self.entries == 0
    }

    // Takes a run of so many entries off.
    fn take(&mut self, entries: usize) {
        self.runs = self.runs.saturating_sub(1);
        self.entries = self.entries.saturating_sub(entries as u64);
    }
}

/// A run, and the process of each of its first entries that is a turn.
#[derive(Drop)]
pub(crate) struct TracedRun {
    pub(crate) run: RunRecord,
    pub(crate) processes: Vec<u32>,
}

impl TracedRun {
    /// The transitions of its first entries.
    pub(crate) fn transitions(&self) -> RunTransitions<'_> {
        RunTransitions::new(&self.run.journal, &self.processes)
    }
}

// Takes an entry, and notes it on a track. The answer is whether it was taken. Fails where memory is refused.
fn take_along(
    run: &mut JournaledMachine<'_>,
    track: &mut Track<'_>,
    entry: Entry,
) -> Result<bool, AllocError>
    requires { IsUnderWay run.old }
    ensures { HasGoneOn run.old run.new }
{
    let taken = transition_of(&run.machine, entry);
    if !repeat(run, &[entry])? {
        return Ok(false);
    }
    track.pass(taken)?;
    Ok(true)
}

// Takes entries, and notes them on a track. The answer is whether all were taken. Fails where memory is refused.
fn take_all_along(
    run: &mut JournaledMachine<'_>,
    track: &mut Track<'_>,
    entries: &[Entry],
) -> Result<bool, AllocError>
    requires { IsUnderWay run.old }
    ensures { HasGoneOn run.old run.new }
{
    for entry in entries {
        if !take_along(run, track, *entry)? {
            return Ok(false);
        }
    }
    Ok(true)
}

// Takes the entry that a track chooses, and notes it there, or else answers how the run ends here.
fn follow(run: &mut JournaledMachine<'_>, track: &mut Track<'_>) -> Result<Option<End>, AllocError>
    requires { IsUnderWay run.old }
    ensures { HasFollowed run.old run.new result }
{
    if let Some(end) = run.end() {
        return Ok(Some(end));
    }
    let entry = match track.choose(&run.machine) {
        Some(entry) => entry,
        None => return Ok(Some(End::Stopped(Why::Memory))),
    };
    let taken = transition_of(&run.machine, entry);
    let end = run.step(entry, None);
    track.pass(taken)?;
    Ok(end)
}

// Goes along a track, until the journal has so many entries. Answers how the run ends, where it does before that.
fn follow_track<P: Progress>(
    run: &mut JournaledMachine<'_>,
    track: &mut Track<'_>,
    most: u64,
    progress: &P,
) -> Result<Option<End>, AllocError>
    requires { IsUnderWay run.old }
    ensures { HasFollowed run.old run.new result }
{
    for _ in 0..run.limits.max_entries {
        if run.journal.len() as u64 >= most {
            return Ok(None);
        }
        if let Some(end) = follow(run, track)? {
            return Ok(Some(end));
        }
        tell_entries(progress, run.journal.len() as u64, run.machine.time());
    }
    Ok(run.end())
}

/// What a run takes at first: the first entries of a journal, and some behind them.
#[derive(Clone, Copy)]
pub(crate) struct Lead<'a> {
    entries: &'a [Entry],
    behind: &'a [Entry],
}

impl<'a> Lead<'a> {
    /// The entries of a journal before a place, and those behind.
    pub(crate) fn new(journal: &'a [Entry], place: usize, behind: &'a [Entry]) -> Lead<'a> {
        let entries = match journal.get(0..place) {
            Some(entries) => entries,
            None => journal,
        };
        Lead { entries, behind }
    }
}

// Leads a run, and then along a track until the journal has so many entries. None where one of the first entries may not be taken.
fn go<P: Progress>(
    run: &mut JournaledMachine<'_>,
    track: &mut Track<'_>,
    lead: Lead<'_>,
    most: u64,
    progress: &P,
) -> Result<Option<End>, AllocError>
    requires { IsUnderWay run.old }
    ensures { HasFollowed run.old run.new result }
{
    if !take_all_along(run, track, lead.entries)? {
        return Ok(None);
    }
    if !take_all_along(run, track, lead.behind)? {
        return Ok(None);
    }
    follow_track(run, track, most, progress)
}

// Leads a run, and then along a track, takes it off those that may be made, and gives what is told of it, where it comes to an end.
fn made_on<P: Progress>(
    setting: HybridSetting<'_>,
    run: &mut JournaledMachine<'_>,
    track: &mut Track<'_>,
    lead: Lead<'_>,
    making: &mut Making<'_, P>,
) -> Result<Option<RunRecord>, AllocError>
    requires { IsUnderWay run.old }
    ensures { IfOk result (λ made. IfSome made (IsRun run.old.machine.code run.old.limits)) }
{
    let most = making.entries.min(setting.most_entries);
    let end = go(run, track, lead, most, making.progress);
    making.take(run.journal.len());
    run.told_if(setting.search.alloc, end)
}

/// A run that is led so, and then takes the transitions of a run, as far as they may be taken, if one may still be made. It is taken off
/// those that may, and its entries too. None where one of the first entries may not be taken, none are left, or the run comes to no end
/// within the most entries that one takes.
pub(crate) fn run_on<P: Progress>(
    setting: HybridSetting<'_>,
    lead: Lead<'_>,
    along: RunTransitions<'_>,
    making: &mut Making<'_, P>,
) -> Result<Option<RunRecord>, AllocError>
    ensures { IfOk result (λ made. IfSome made (IsRun setting.entry.search.design.now setting.entry.search.limits)) }
{
    if making.is_met() {
        return Ok(None);
    }
    let mut run = setting.start()?;
    let mut track = Track::new(setting.search.alloc, along);
    made_on(setting, &mut run, &mut track, lead, making)
}

// Takes the entries of a journal, as far as they may be taken, and puts the processes of their turns behind others.
fn trace(
    run: &mut JournaledMachine<'_>,
    processes: &mut Vec<u32>,
    journal: &[Entry],
) -> Result<(), AllocError>
    requires { IsUnderWay run.old }
    ensures { HasGoneOn run.old run.new }
{
    for entry in journal {
        let process = process_of(transition_of(&run.machine, *entry));
        if !repeat(run, &[*entry])? {
            return Ok(());
        }
        processes.push(process)?;
    }
    Ok(())
}

// So it does, and goes on until the journal has so many entries. Answers how the run ends, where it does before that.
fn trace_on<P: Progress>(
    alloc: Global,
    run: &mut JournaledMachine<'_>,
    processes: &mut Vec<u32>,
    journal: &[Entry],
    most: u64,
    progress: &P,
) -> Result<Option<End>, AllocError>
    requires { IsUnderWay run.old }
    ensures { HasFollowed run.old run.new result }
{
    trace(run, processes, journal)?;
    let mut track = Track::new(alloc, RunTransitions::new(&[], &[]));
    follow_track(run, &mut track, most, progress)
}

// Takes the entries of a journal, notes the processes of their turns, and goes on. Takes the run off those that may be made, and gives what is told
// of it, where it comes to an end.
fn traced_on<P: Progress>(
    setting: HybridSetting<'_>,
    run: &mut JournaledMachine<'_>,
    processes: &mut Vec<u32>,
    journal: &[Entry],
    making: &mut Making<'_, P>,
) -> Result<Option<RunRecord>, AllocError>
    requires { IsUnderWay run.old }
    ensures { IfOk result (λ made. IfSome made (IsRun run.old.machine.code run.old.limits)) }
{
    let alloc = setting.search.alloc;
    let end = trace_on(
        alloc,
        run,
        processes,
        journal,
        making.entries,
        making.progress,
    );
    making.take(run.journal.len());
    run.told_if(alloc, end)
}

// A run with the processes of its turns. Fails where it wants memory.
fn with_processes(run: RunRecord, processes: Vec<u32>) -> Result<Option<TracedRun>, AllocError>
    ensures { (code : Compiled) (limits : Limits) → IsRun code limits run → IfOk result (λ made. IfSome made (λ m. IsRun code limits m.run)) }
{
    if wants_memory(&run) {
        return Err(AllocError);
    }
    Ok(Some(TracedRun { run, processes }))
}

/// A run that takes the entries of a journal, and its transitions up to there, if one may still be made. It is taken off those that may, and its
/// entries too. None where none are left. Fails where memory is refused, also to the run.
pub(crate) fn traced<P: Progress>(
    setting: HybridSetting<'_>,
    journal: &[Entry],
    making: &mut Making<'_, P>,
) -> Result<Option<TracedRun>, AllocError>
    ensures { IfOk result (λ made. IfSome made (λ m. IsRun setting.entry.search.design.now setting.entry.search.limits m.run)) }
{
    if making.is_met() {
        return Ok(None);
    }
    let mut run = setting.start()?;
    let mut processes = Vec::new(setting.search.alloc);
    match traced_on(setting, &mut run, &mut processes, journal, making) {
        Ok(Some(run)) => with_processes(run, processes),
        Ok(None) => Ok(None),
        Err(error) => Err(error),
    }
}
