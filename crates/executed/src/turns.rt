//! The turns of a journal in which statements are looked for.

use crate::course::Course;
use crate::deed::Deed;
use crate::marks::StatementMarks;
use crate::statements::StatementSearch;
use design::{ProcState, RegId};
use logic4::bits::Bits;
use model::entry::Entry;
use regions::{Due, Machine, State, Update};
use std::alloc::{AllocError, Global};
use std::collections::VecDeque;
use turn::TurnLog;

/// What is looked for in the turns of a process: what its statements do, and, for an update, the number of its event.
#[derive(Clone, Copy)]
pub(crate) struct TurnSearch {
    pub(crate) deed: Deed,
    pub(crate) update: Option<u64>,
}

// The process that a turn is of, if it is one, and where it went on.
fn turn_of(machine: &Machine<'_>, entry: Entry) -> Option<(u64, u32, ProcState)> {
    match entry {
        Entry::Turn(number) => match machine.state().evaluation(number) {
            Some((process, state)) => Some((number, process, state)),
            None => None,
        },
        _ => None,
    }
}

// Whether an update with a number is among those of the nonblocking region.
fn has_nonblocking(updates: &VecDeque<Update>, number: u64) -> bool {
    for at in 0..updates.len() {
        if updates[at].number == number {
            return true;
        }
    }
    false
}

// Whether an update with a number is among those of later times.
fn has_future(updates: &VecDeque<Due<Update>>, number: u64) -> bool {
    for at in 0..updates.len() {
        if updates[at].event.number == number {
            return true;
        }
    }
    false
}

// Whether an update with a number is to come.
fn has_update(state: &State, number: u64) -> bool {
    has_nonblocking(state.nonblocking(), number) || has_future(state.future_updates(), number)
}

// The greatest number of an update of the nonblocking region.
fn last_nonblocking(updates: &VecDeque<Update>) -> u64 {
    let mut last: u64 = 0;
    for at in 0..updates.len() {
        last = last.max(updates[at].number);
    }
    last
}

// The greatest number of an update of a later time.
fn last_future(updates: &VecDeque<Due<Update>>) -> u64 {
    let mut last: u64 = 0;
    for at in 0..updates.len() {
        last = last.max(updates[at].event.number);
    }
    last
}

// The greatest number of an update that is to come.
fn last_update(state: &State) -> u64 {
    last_nonblocking(state.nonblocking()).max(last_future(state.future_updates()))
}

// The number of the update of a register that an entry takes, if it takes one.
fn update_of(machine: &Machine<'_>, entry: Entry, register: RegId) -> Option<u64> {
    match (entry, machine.state().first_updated()) {
        (Entry::Update(number), Some((updated, _))) => {
            if updated == register && machine.state().first_update() == Some(number) {
                Some(number)
            } else {
                None
            }
        }
        _ => None,
    }
}

// The most updates of a register at one time that are looked at.
const MOST_UPDATES: usize = 8;

// Keeps the event of the update of a register that an entry takes, if it takes one. Fails where memory is refused.
fn keep_update(
    machine: &Machine<'_>,
    entry: Entry,
    register: RegId,
    updates: &mut Vec<u64>,
) -> Result<(), AllocError> {
    if let Some(update) = update_of(machine, entry, register) {
        updates.push(update)?;
    }
    Ok(())
}

// Keeps the events of the first updates of a register at a race's time, which a machine takes along its journal. Fails where memory is refused.
fn keep_updates(
    machine: &mut Machine<'_>,
    search: StatementSearch<'_>,
    register: RegId,
    updates: &mut Vec<u64>,
) -> Result<(), AllocError> {
    for entry in search.journal {
        if machine.time() > search.time || updates.len() >= MOST_UPDATES {
            return Ok(());
        }
        if machine.time() == search.time {
            keep_update(machine, *entry, register, updates)?;
        }
        if machine.take(*entry).is_err() {
            return Ok(());
        }
    }
    Ok(())
}

/// The events of the first updates of a register at a race's time in its journal. Fails where memory is refused.
pub(crate) fn updates_at(
    search: StatementSearch<'_>,
    register: RegId,
) -> Result<Vec<u64>, AllocError> {
    let mut machine = Machine::start(search.alloc, search.design)?;
    let mut updates = Vec::new(search.alloc);
    let kept = keep_updates(&mut machine, search, register, &mut updates);
    drop(machine);
    kept?;
    Ok(updates)
}

/// A machine that is led along a journal to the turns of a process that may have done what is looked for, and the marks of the nodes that did.
#[derive(Drop)]
pub(crate) struct TurnFinder<'a> {
    search: StatementSearch<'a>,
    sought: TurnSearch,
    machine: Machine<'a>,
    pub(crate) marks: StatementMarks,
}

impl<'a> TurnFinder<'a> {
    /// At the start of a journal, with no marks. Fails where memory is refused.
    pub(crate) fn start(
        search: StatementSearch<'a>,
        sought: TurnSearch,
    ) -> Result<TurnFinder<'a>, AllocError> {
        let marks = StatementMarks::new(search.alloc, search.design)?;
        let machine = Machine::start(search.alloc, search.design)?;
        Ok(TurnFinder {
            search,
            sought,
            machine,
            marks,
        })
    }

    // Where the process goes on, if an entry is a turn of it that may have done what is looked for: one at the race's time, or, for an
    // update, any that may have made its event.
    fn candidate(&self, entry: Entry) -> Option<(u64, ProcState)> {
        let (number, process, state) = turn_of(&self.machine, entry)?;
        let in_time = self.sought.update.is_some() || self.machine.time() == self.search.time;
        if process == self.search.role.process && in_time {
            Some((number, state))
        } else {
            None
        }
    }

    // Whether the machine has the event of the update that is looked for.
    fn has_sought(&self) -> bool {
        match self.sought.update {
            Some(number) => has_update(self.machine.state(), number),
            None => false,
        }
    }

    // Which nonblocking assignment of the turn that was taken last, of so many, made the event of the update that is looked for.
    fn nba_number(&self, count: usize) -> Option<usize> {
        let update = self.sought.update?;
        let behind = last_update(self.machine.state()).saturating_sub(update);
        Some(count.saturating_sub(1).saturating_sub(behind as usize))
    }

    // Marks the nodes by which a turn that was taken, and this is its log, did what is looked for. The answer is whether that is known. Fails where
    // memory is refused.
    fn mark_taken(
        &mut self,
        log: &TurnLog,
        state: ProcState,
        time: u64,
        values: &[Bits],
    ) -> Result<bool, AllocError> {
        let nba = self.nba_number(log.nbas().len());
        let deed = self.sought.deed;
        let mut course = Course::of(self.search.alloc, self.search.design, log, time, values)?;
        let known = self.marks.mark_turn(&mut course, &state, deed, nba);
        drop(course);
        known
    }

    // Takes a turn of the process, and marks the nodes by which it did what is looked for, if it did. The answer is whether that is known.
    // Fails where memory is refused.
    fn take_candidate(
        &mut self,
        log: &mut TurnLog,
        number: u64,
        state: ProcState,
    ) -> Result<bool, AllocError> {
        if self.machine.evaluate(log, number, 0).is_err() {
            return Ok(false);
        }
        let mut values = Vec::new(self.search.alloc);
        values.extend_from_slice(self.machine.store().values())?;
        self.take_evaluated(log, number, state, values.as_slice())
    }

    // Takes a turn of the process that was evaluated where the registers have these values, and marks the nodes by which it did what is looked
    // for, if it did. The answer is whether that is known. Fails where memory is refused.
    fn take_evaluated(
        &mut self,
        log: &TurnLog,
        number: u64,
        state: ProcState,
        values: &[Bits],
    ) -> Result<bool, AllocError> {
        let time = self.machine.time();
        let had = self.has_sought();
        if self.machine.take(Entry::Turn(number)).is_err() {
            return Ok(false);
        }
        if self.sought.update.is_some() && (had || !self.has_sought()) {
            return Ok(true);
        }
        self.mark_taken(log, state, time, values)
    }

    // Takes an entry. The answer is whether it was taken, and what it did of what is looked for is known. Fails where memory is refused.
    fn take(&mut self, log: &mut TurnLog, entry: Entry) -> Result<bool, AllocError> {
        match self.candidate(entry) {
            Some((number, state)) => self.take_candidate(log, number, state),
            None => Ok(self.machine.take(entry).is_ok()),
        }
    }

    // Goes along the journal up to the race's time, with a log for its turns.
    fn go_along(&mut self, log: &mut TurnLog) -> Result<bool, AllocError> {
        let journal = self.search.journal;
        for entry in journal {
            if self.machine.time() > self.search.time {
                return Ok(true);
            }
            if !self.take(log, *entry)? {
                return Ok(false);
            }
        }
        Ok(true)
    }

    /// Goes along the journal up to the race's time. The answer is whether what its turns did of what is looked for is known. Fails where
    /// memory is refused.
    pub(crate) fn go(&mut self) -> Result<bool, AllocError> {
        let mut log = TurnLog::new(self.search.alloc);
        let known = self.go_along(&mut log);
        drop(log);
        known
    }
}
