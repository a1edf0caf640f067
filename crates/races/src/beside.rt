//! Two journals, followed beside each other from one time to the next.

use accesses::lead;
use design::{Design, RegId};
use model::entry::Entry;
use regions::Machine;
use std::alloc::{AllocError, Global};

/// Where a time passes in two journals: that time, and how many entries of each come before.
#[derive(Clone, Copy)]
pub(crate) struct Passing {
    pub(crate) time: u64,
    pub(crate) first: usize,
    pub(crate) second: usize,
}

// A journal, a machine that is led along it, and how many of its entries were taken.
#[derive(Drop)]
struct Followed<'a> {
    machine: Box<Machine<'a>>,
    journal: &'a [Entry],
    taken: usize,
}

// The place of the first advance from a place of a journal on, or else the end of it.
fn next_advance(journal: &[Entry], from: usize) -> usize {
    for place in from..journal.len() {
        if let Entry::Advance(_) = journal[place] {
            return place;
        }
    }
    journal.len()
}

/// Whether a time passes in a journal from a place on.
pub(crate) fn advances_from(journal: &[Entry], from: usize) -> bool {
    next_advance(journal, from) < journal.len()
}

impl<'a> Followed<'a> {
    // At the start of a journal.
    fn start(
        alloc: Global,
        design: &'a Design,
        journal: &'a [Entry],
    ) -> Result<Followed<'a>, AllocError> {
        let machine = Machine::start(alloc, design)?;
        let machine = Box::new(alloc, machine)?;
        Ok(Followed {
            machine,
            journal,
            taken: 0,
        })
    }

    // Takes the next entry and those behind it, up to the next advance. The answer is whether there are any, and all were taken. Fails
    // where memory is refused.
    fn pass(&mut self) -> Result<bool, AllocError> {
        let to = next_advance(self.journal, self.taken.saturating_add(1));
        if to <= self.taken {
            return Ok(false);
        }
        match self.journal.get(self.taken..to) {
            Some(entries) => {
                self.taken = to;
                lead(&mut self.machine, entries)
            }
            None => Ok(false),
        }
    }

    // The time at which the values of the registers may be others: that to which the next entry advances, or else the one behind this time.
    fn next_time(&self) -> u64 {
        match self.journal.get(self.taken).copied() {
            Some(Entry::Advance(time)) => time,
            _ => self.machine.time().saturating_add(1),
        }
    }
}

// Whether a register has other values where two machines stand.
fn is_other(one: &Machine<'_>, other: &Machine<'_>, register: RegId) -> bool {
    match one.value(register) {
        Some(value) => match other.value(register) {
            Some(second) => value != second,
            None => false,
        },
        None => false,
    }
}

// Whether some register has other values where two machines stand.
fn is_some_other(one: &Machine<'_>, other: &Machine<'_>) -> bool {
    for register in 0..one.design().registers() {
        if is_other(one, other, register) {
            return true;
        }
    }
    false
}

// Leads both further. The answer is whether that was done. Fails where memory is refused.
fn pass_both(one: &mut Followed<'_>, other: &mut Followed<'_>) -> Result<bool, AllocError> {
    if !one.pass()? {
        return Ok(false);
    }
    other.pass()
}

// Leads the one further whose registers may have other values first, or both where that is at one time. The answer is whether that was done.
// Fails where memory is refused.
fn pass_next(one: &mut Followed<'_>, other: &mut Followed<'_>) -> Result<bool, AllocError> {
    let (next, next_other) = (one.next_time(), other.next_time());
    if next < next_other {
        return one.pass();
    }
    if next_other < next {
        return other.pass();
    }
    pass_both(one, other)
}

// The time that passes where two journals were followed to.
fn passing_of(one: &Followed<'_>, other: &Followed<'_>) -> Passing {
    Passing {
        time: one.machine.time().max(other.machine.time()),
        first: one.taken,
        second: other.taken,
    }
}

// Follows two journals to the first time that passes where registers differ, if there is one. Fails where memory is refused.
fn follow_beside(
    one: &mut Followed<'_>,
    other: &mut Followed<'_>,
) -> Result<Option<Passing>, AllocError> {
    for _ in 0..one.journal.len().saturating_add(other.journal.len()) {
        if is_some_other(&one.machine, &other.machine) {
            return Ok(Some(passing_of(one, other)));
        }
        if !pass_next(one, other)? {
            return Ok(None);
        }
    }
    Ok(None)
}

// Where the first time passes at which registers differ, if there is one, of two journals at their start. Fails where memory is refused.
fn parting_of(
    one: &mut Followed<'_>,
    other: &mut Followed<'_>,
) -> Result<Option<Passing>, AllocError> {
    if pass_both(one, other)? {
        follow_beside(one, other)
    } else {
        Ok(None)
    }
}

/// Where the first time passes at which registers differ in the runs of two journals, if there is one.
pub(crate) fn first_parting(
    alloc: Global,
    design: &Design,
    first: &[Entry],
    second: &[Entry],
) -> Result<Option<Passing>, AllocError> {
    let mut one = Followed::start(alloc, design, first)?;
    let mut other = Followed::start(alloc, design, second)?;
    parting_of(&mut one, &mut other)
}
