//! The first run, and what its entries do.
ghost use Rattle.std.specs.Prelude.{IfSome, option_copied};
ghost use Rattle.model.specs.declared.entry.Entry.TheVariants.{Turn};
ghost use Rattle.runs.specs.RunRecords.{IsRun};
ghost use Rattle.conflicts.specs.RunEndings.{IsUnderWay, IsGivenLog, MayTake, HasGoneOn, HasGoneTo, EndsAt};

use crate::bounds::{Bound, RaceBounds};
use crate::conflicts::Conflicts;
use crate::journaled_machine::JournaledMachine;
use crate::origins::{EventOrigin, EventOrigins};
use crate::segment::{Actor, Segment};
use crate::transitions::first_entry;
use accesses::{Does, Role, Site};
use design::Design;
use model::end::{End, Why};
use model::entry::Entry;
use progress::{Progress, tell_entries};
use regions::Machine;
use runs::run::RunRecord;
use std::alloc::{AllocError, Global};
use turn::{FillFault, Suspend, TurnLog};

// The most events that are looked at which a run leaves behind as it finishes.
const MOST_LEFT: usize = 1_024;

/// What is noted of the entries of a run.
#[derive(Drop)]
pub struct RunRecorder {
    /// Room for the turn of an event that the run leaves behind as it finishes.
    left: TurnLog,
    segment: Segment,
    origins: EventOrigins,
    /// The process of each entry that is a turn, and 0 for others.
    pub processes: Vec<u32>,
    pub conflicts: Conflicts,
}

/// An entry that is about to be taken: the number that the transitions have for it, the process that it is of where it is a turn or an update,
/// and how many events it makes apart from those of the processes that it wakes.
#[derive(Clone, Copy)]
pub(crate) struct Noted {
    number: u32,
    process: Option<u32>,
    own: u64,
}

impl RunRecorder {
    /// Nothing is noted yet. The first events of the processes, which no entry made, have the numbers below those of all others.
    pub fn start(alloc: Global, design: &Design, bounds: RaceBounds) -> RunRecorder {
        RunRecorder {
            left: TurnLog::new(alloc),
            segment: Segment::new(alloc),
            origins: EventOrigins::new(alloc, u64::from(design.processes())),
            processes: Vec::new(alloc),
            conflicts: Conflicts::new(alloc, bounds),
        }
    }

    // Notes a turn of a process by its log.
    fn note_turn(
        &mut self,
        machine: &Machine<'_>,
        number: u64,
        process: u32,
        log: &TurnLog,
    ) -> Noted {
        if !self.segment.is_full() {
            let origin = self.origins.place_of(number);
            self.segment.turn(machine, process, origin, log);
        }
        if log.is_finish() {
            self.note_finish(machine, number);
        }
        Noted {
            number: process,
            process: Some(process),
            own: own_events(log),
        }
    }

    // Notes that the turn of the last step finishes the run, and which events it leaves behind.
    fn note_finish(&mut self, machine: &Machine<'_>, number: u64) {
        if self.segment.is_full() {
            return;
        }
        self.segment.finish();
        for place in 0..left_count(machine) {
            if let Some(entry) = left_at(machine, place) {
                self.note_left(machine, entry, number);
            }
        }
    }

    // Notes an event that is left behind by the turn of another one.
    fn note_left(&mut self, machine: &Machine<'_>, left: Entry, number: u64) {
        match left {
            Entry::Turn(other) => if other != number {
                self.note_left_turn(machine, other);
            },
            Entry::Update(other) => self.note_left_update(machine, other),
            _ => {}
        }
    }

    // What an evaluation that is left behind would do, and its process. Where memory is refused to its turn, the list of conflicts is cut.
    fn left_role(&mut self, machine: &Machine<'_>, number: u64) -> Option<Role> {
        match machine.evaluate(&mut self.left, number, 0) {
            Ok(Some(process)) => Some(Role {
                process,
                does: runs_or_prints(&self.left),
            }),
            Ok(None) | Err(FillFault::TooLong) => None,
            Err(FillFault::Memory) => {
                self.conflicts.cut_by(Bound::Memory);
                None
            }
        }
    }

    // Notes an evaluation that is left behind. Where memory is refused to its turn, the list of conflicts is cut.
    fn note_left_turn(&mut self, machine: &Machine<'_>, number: u64) {
        if let Some(role) = self.left_role(machine, number) {
            self.add_held_back(Site::Finishing, role, Entry::Turn(number));
        }
    }

    // Notes an update that is left behind.
    fn note_left_update(&mut self, machine: &Machine<'_>, number: u64) {
        let Some(origin) = self.origins.of(number) else {
            return;
        };
        if let Some((register, _)) = machine.state().first_updated() {
            let role = Role {
                process: origin.process,
                does: Does::Updates,
            };
            self.add_held_back(Site::Register(register), role, Entry::Update(number));
        }
    }

    // Keeps the conflict of the entry that finishes the run with an event that it leaves behind.
    fn add_held_back(&mut self, site: Site, role: Role, left: Entry) {
        self.segment
            .add_held_back(&mut self.conflicts, site, role, left);
    }

    // Notes an update. None where there is none.
    fn note_update(&mut self, machine: &Machine<'_>, number: u64) -> Option<Noted> {
        let origin = self.origins.of(number)?;
        let (register, value) = machine.state().first_updated()?;
        if !self.segment.is_full() {
            let changes = machine.value(register) != Some(value);
            self.segment.update(origin, register, changes);
        }
        Some(Noted {
            number: 0,
            process: Some(origin.process),
            own: 0,
        })
    }

    // Notes a change of the regions, at which the conflicts of the entries before it are found.
    fn note_change(&mut self) -> Noted {
        self.segment.find_conflicts(&mut self.conflicts);
        Noted {
            number: 0,
            process: None,
            own: 0,
        }
    }

    // Notes the events that an entry at a place made. The answer is whether they could be noted.
    fn note_made(&mut self, process: u32, place: usize, made: u64) -> bool {
        match u32::try_from(place) {
            Ok(place) => self.origins.add(EventOrigin { process, place }, made),
            Err(_) => false,
        }
    }

    // Notes that an entry was taken: its transition, and the events that it made. The answer is whether it could be noted.
    fn note_taken(&mut self, machine: &Machine<'_>, noted: Option<Noted>) -> bool {
        let Some(noted) = noted else {
            return false;
        };
        let place = self.processes.len();
        let is_kept = self.processes.push(noted.number).is_ok();
        match noted.process {
            Some(process) => {
                let made = noted.own.saturating_add(machine.made().len() as u64);
                is_kept & self.note_made(process, place, made)
            }
            None => {
                self.segment.begin(place.saturating_add(1), machine.time());
                is_kept
            }
        }
    }

    /// Forgets the conflicts that were found and the last entries: from here on only the next ones are compared, which begin at this place
    /// of the journal and this time.
    pub(crate) fn begin_anew(&mut self, bounds: RaceBounds, place: usize, time: u64) {
        self.conflicts.begin_anew(bounds);
        self.segment.begin(place, time);
    }

    /// Finds the conflicts of the last entries.
    pub fn finish(&mut self) {
        self.segment.find_conflicts(&mut self.conflicts);
        self.segment.find_cut_off(&mut self.conflicts);
    }

    // Finds the conflicts of two entries alone. Fails where memory is refused.
    fn finish_both(&mut self) -> Result<(), AllocError> {
        self.finish();
        self.segment.find_updating(&mut self.conflicts);
        match self.conflicts.cut {
            Some(Bound::Memory) => Err(AllocError),
            _ => Ok(()),
        }
    }
}

// How many events a turn makes apart from those of the processes that it wakes: its updates, and that of its own wait.
fn own_events(log: &TurnLog) -> u64 {
    let updates = log.nbas().len() as u64;
    match log.suspend() {
        Suspend::Inactive | Suspend::Until(_) => updates.saturating_add(1),
        Suspend::Ended | Suspend::Event(_) => updates,
    }
}

// How many events are looked at which a run leaves behind as it finishes.
fn left_count(machine: &Machine<'_>) -> usize {
    machine.choices().len().min(MOST_LEFT)
}

// The event at a place of those that a run leaves behind as it finishes.
fn left_at(machine: &Machine<'_>, place: usize) -> Option<Entry> {
    machine.choices().get(place)
}

// What a turn with this log does where it is cut off: it prints, or runs.
fn runs_or_prints(log: &TurnLog) -> Does {
    if log.lines().is_empty() {
        Does::Runs
    } else {
        Does::Prints
    }
}

// Takes an entry of which this is noted, a turn by its log, or else answers how the run ends here. Where it can't be noted, that is for want
// of memory.
fn recorder_step(
    run: &mut JournaledMachine<'_>,
    recorder: &mut RunRecorder,
    entry: Entry,
    log: Option<&TurnLog>,
    noted: Option<Noted>,
) -> Option<End>
    requires may { MayTake run.old entry }
    requires given { IsGivenLog run.old entry (option_copied log) }
    ensures { HasGoneTo run.old run.new result }
{
    if let Some(end) = run.step(entry, log) {
        return Some(end);
    }
    if recorder.note_taken(&run.machine, noted) {
        None
    } else {
        Some(End::Stopped(Why::Memory))
    }
}

// Evaluates a turn into a log, notes it, and takes it by that log, or else answers how the run ends here. One that can't be evaluated
// is taken without: that tells the end.
fn recorder_turn(
    run: &mut JournaledMachine<'_>,
    recorder: &mut RunRecorder,
    log: &mut TurnLog,
    number: u64,
) -> Option<End>
    requires { MayTake run.old (Turn number) }
    ensures { HasGoneTo run.old run.new result }
{
    let turn = Entry::Turn(number);
    let process = match run.machine.evaluate(log, number, 0) {
        Ok(Some(process)) => process,
        _ => return recorder_step(run, recorder, turn, None, None),
    };
    let noted = recorder.note_turn(&run.machine, number, process, log);
    recorder_step(run, recorder, turn, Some(&*log), Some(noted))
}

// Notes an entry that the rules permit, and takes it, or else answers how the run ends here.
fn record_given(
    run: &mut JournaledMachine<'_>,
    recorder: &mut RunRecorder,
    log: &mut TurnLog,
    entry: Entry,
) -> Option<End>
    requires { MayTake run.old entry }
    ensures { HasGoneTo run.old run.new result }
{
    let noted = match entry {
        Entry::Turn(number) => return recorder_turn(run, recorder, log, number),
        Entry::Update(number) => recorder.note_update(&run.machine, number),
        _ => Some(recorder.note_change()),
    };
    recorder_step(run, recorder, entry, None, noted)
}

// Takes the first entry that may be next, or else answers how the run ends here.
fn record_entry(
    run: &mut JournaledMachine<'_>,
    recorder: &mut RunRecorder,
    log: &mut TurnLog,
) -> Option<End>
    requires { IsUnderWay run.old }
    ensures { HasGoneTo run.old run.new result }
{
    if let Some(end) = run.end() {
        return Some(end);
    }
    match first_entry(&run.machine) {
        Some(entry) => record_given(run, recorder, log, entry),
        None => Some(End::Stopped(Why::Memory)),
    }
}

// Takes entries of a journal, as far as they may be taken. The answer is whether all were taken. Fails where memory is refused.
fn record_all(
    run: &mut JournaledMachine<'_>,
    recorder: &mut RunRecorder,
    log: &mut TurnLog,
    entries: &[Entry],
) -> Result<bool, AllocError>
    requires { IsUnderWay run.old }
    ensures { HasGoneOn run.old run.new }
{
    for entry in entries {
        if !run.may_take(entry) {
            return Ok(false);
        }
        match record_given(run, recorder, log, *entry) {
            Some(End::Stopped(Why::Memory)) => return Err(AllocError),
            Some(_) => return Ok(false),
            None => {}
        }
    }
    Ok(true)
}

// Takes the entries of a journal up to the one at a place and the one behind that, with a log for its turns, and notes what these two do
// alone. Fails where memory is refused.
fn record_both(
    run: &mut JournaledMachine<'_>,
    recorder: &mut RunRecorder,
    log: &mut TurnLog,
    bounds: RaceBounds,
    journal: &[Entry],
    place: usize,
) -> Result<(), AllocError>
    requires { IsUnderWay run.old }
    ensures { HasGoneOn run.old run.new }
{
    let (before, rest) = journal.split_at(place.min(journal.len()));
    let (two, _) = rest.split_at(rest.len().min(2));
    if !record_all(run, recorder, log, before)? {
        return Ok(());
    }
    recorder.begin_anew(bounds, place, run.machine.time());
    let _ = record_all(run, recorder, log, two)?;
    recorder.finish_both()
}

/// Takes the entries of a journal up to the one at a place and the one behind that, and notes what these two do alone. Fails where memory
/// is refused.
pub fn record_two(
    alloc: Global,
    run: &mut JournaledMachine<'_>,
    recorder: &mut RunRecorder,
    bounds: RaceBounds,
    journal: &[Entry],
    place: usize,
) -> Result<(), AllocError>
    requires { IsUnderWay run.old }
    ensures { HasGoneOn run.old run.new }
{
    let mut log = TurnLog::new(alloc);
    let recorded = record_both(run, recorder, &mut log, bounds, journal, place);
    drop(log);
    recorded
}

// Takes the first entry that may be next at each choice, with a log for the turns, and answers how the run ends.
fn record_along<P: Progress>(
    run: &mut JournaledMachine<'_>,
    recorder: &mut RunRecorder,
    log: &mut TurnLog,
    progress: &P,
) -> End
    requires { IsUnderWay run.old }
    ensures went { HasGoneOn run.old run.new }
    ensures ends { EndsAt run.new result }
{
    for _ in 0..run.limits.max_entries {
        if let Some(end) = record_entry(run, recorder, log) {
            return end;
        }
        tell_entries(progress, run.journal.len() as u64, run.machine.time());
    }
    run.last_end()
}

/// Makes the first run, which takes the first entry that may be next at each choice, from its start.
pub fn record_run<P: Progress>(
    alloc: Global,
    run: &mut JournaledMachine<'_>,
    recorder: &mut RunRecorder,
    progress: &P,
) -> RunRecord
    requires { IsUnderWay run.old }
    ensures { IsRun run.old.machine.code run.old.limits result }
{
    let mut log = TurnLog::new(alloc);
    let end = record_along(run, recorder, &mut log, progress);
    drop(log);
    run.told(alloc, end)
}
