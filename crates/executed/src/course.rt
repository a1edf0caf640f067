//! The course of a turn over the flat code, found by its log.

use crate::held_values::HeldValues;
use design::code::Node;
use design::{Design, ProcState, RegId};
use logic4::bits::Bits;
use model::end::LAST_TIME;
use model::tree::Task;
use std::alloc::{AllocError, Global};
use turn::{FillFault, Nba, TurnLog, fill_turn};

// The most tests of one turn that are decided by the rest of it.
const MOST_TESTS: u32 = 1000;

/// How far a turn was gone along: the place at which it goes on, and how many of its counted steps, writes, nonblocking assignments and
/// `$strobe` statements are behind it.
#[derive(Clone, Copy)]
pub(crate) struct Done {
    pub(crate) place: usize,
    pub(crate) steps: u32,
    pub(crate) writes: usize,
    pub(crate) nbas: usize,
    pub(crate) strobes: usize,
}

/// Where a turn goes on behind a node: at a next one, nowhere, or it isn't known where.
#[derive(Clone, Copy)]
pub(crate) enum GoesOn {
    At(Done),
    Nowhere,
    Unknown,
}

/// A turn that is gone along: its design, its log, its time, the values of the registers with its writes so far, and room for the log of its
/// rest.
#[derive(Drop)]
pub(crate) struct Course<'d, 'l> {
    pub(crate) design: &'d Design,
    pub(crate) log: &'l TurnLog,
    now: u64,
    values: HeldValues,
    rest: TurnLog,
    tests: u32,
}

impl Done {
    /// At the place of a node, with nothing behind it.
    pub(crate) fn at(place: usize) -> Done {
        Done {
            place,
            steps: 0,
            writes: 0,
            nbas: 0,
            strobes: 0,
        }
    }

    // One step on, at a place.
    fn on(self, place: usize) -> Done {
        Done {
            place,
            steps: self.steps.saturating_add(1),
            writes: self.writes,
            nbas: self.nbas,
            strobes: self.strobes,
        }
    }

    // One write more.
    fn with_write(self) -> Done {
        Done {
            place: self.place,
            steps: self.steps,
            writes: self.writes.saturating_add(1),
            nbas: self.nbas,
            strobes: self.strobes,
        }
    }

    // One nonblocking assignment more.
    fn with_nba(self) -> Done {
        Done {
            place: self.place,
            steps: self.steps,
            writes: self.writes,
            nbas: self.nbas.saturating_add(1),
            strobes: self.strobes,
        }
    }

    // One `$strobe` statement more, if this is one.
    fn with_print(self, task: Task) -> Done {
        let more: usize = match task {
            Task::Strobe => 1,
            Task::Display => 0,
            Task::Write => 0,
        };
        Done {
            place: self.place,
            steps: self.steps,
            writes: self.writes,
            nbas: self.nbas,
            strobes: self.strobes.saturating_add(more),
        }
    }
}

// What is left of a list behind so many.
fn left_of<T>(list: &[T], done: usize) -> &[T] {
    list.split_at(done.min(list.len())).1
}

// Whether two lists of writes are the same.
fn same_writes(one: &[(RegId, Bits)], other: &[(RegId, Bits)]) -> bool {
    if one.len() != other.len() {
        return false;
    }
    for at in 0..one.len().min(other.len()) {
        let (a, b) = (one[at], other[at]);
        if a.0 != b.0 || a.1 != b.1 {
            return false;
        }
    }
    true
}

// Whether two lists of nonblocking assignments are the same.
fn same_nbas(one: &[Nba], other: &[Nba]) -> bool {
    if one.len() != other.len() {
        return false;
    }
    for at in 0..one.len().min(other.len()) {
        let (a, b) = (one[at], other[at]);
        if a.reg != b.reg || a.value != b.value || a.due != b.due {
            return false;
        }
    }
    true
}

// Whether a text ends with another.
fn ends_with(text: &[u8], end: &[u8]) -> bool {
    if end.len() > text.len() {
        return false;
    }
    left_of(text, text.len() - end.len()) == end
}

// Whether this is the log of what is left of a turn that was gone along so far.
fn is_rest(rest: &TurnLog, whole: &TurnLog, done: Done) -> bool {
    if rest.count() != whole.count().saturating_sub(done.steps) {
        return false;
    }
    if rest.is_finish() != whole.is_finish() {
        return false;
    }
    if !rest.next().is_same(&whole.next()) {
        return false;
    }
    if rest.strobes() != left_of(whole.strobes(), done.strobes) {
        return false;
    }
    if !ends_with(whole.lines().as_bytes(), rest.lines().as_bytes()) {
        return false;
    }
    same_writes(rest.writes(), left_of(whole.writes(), done.writes))
        && same_nbas(rest.nbas(), left_of(whole.nbas(), done.nbas))
}

impl<'d, 'l> Course<'d, 'l> {
    /// The course of a turn, at this time and where the registers have these values. Fails where memory is refused.
    pub(crate) fn of(
        alloc: Global,
        design: &'d Design,
        log: &'l TurnLog,
        now: u64,
        values: &[Bits],
    ) -> Result<Course<'d, 'l>, AllocError> {
        let values = HeldValues::of(alloc, values)?;
        Ok(Course {
            design,
            log,
            now,
            values,
            rest: TurnLog::new(alloc),
            tests: 0,
        })
    }

    /// Behind what an earlier turn left over for this one, if it did.
    pub(crate) fn begun(&mut self, state: &ProcState) -> Done {
        let done = Done::at(state.place);
        if state.pending.is_some() {
            self.written(done.on(state.place))
        } else {
            done
        }
    }

    // Behind the next write of the log, which its register has from now on.
    fn written(&mut self, done: Done) -> Done {
        match self.log.writes().get(done.writes) {
            Some(write) => self.values.set(write.0, write.1),
            None => {}
        }
        done.with_write()
    }

    // Whether what is left of the turn may be what goes on from this place. Fails where memory is refused.
    fn may_go_on(&mut self, done: Done) -> Result<bool, AllocError> {
        let _registers = self.design.registers();
        if self.now > LAST_TIME {
            return Ok(false);
        }
        let state = ProcState {
            place: done.place,
            pending: None,
        };
        let filled = fill_turn(
            &mut self.rest,
            self.design,
            &state,
            self.now,
            &mut self.values,
        );
        match filled {
            Ok(()) => Ok(is_rest(&self.rest, self.log, done)),
            Err(FillFault::TooLong) => Ok(false),
            Err(FillFault::Memory) => Err(AllocError),
        }
    }

    // Where a turn goes on behind a test: at the place from which what is left of it goes on, if that is so of one of the two.
    fn choose(&mut self, done: Done, taken: usize, missed: usize) -> Result<GoesOn, AllocError> {
        if taken == missed {
            return Ok(GoesOn::At(done.on(taken)));
        }
        if self.tests >= MOST_TESTS {
            return Ok(GoesOn::Unknown);
        }
        self.tests = self.tests.saturating_add(1);
        let by_taken = self.may_go_on(done.on(taken))?;
        let by_missed = self.may_go_on(done.on(missed))?;
        match (by_taken, by_missed) {
            (true, false) => Ok(GoesOn::At(done.on(taken))),
            (false, true) => Ok(GoesOn::At(done.on(missed))),
            _ => Ok(GoesOn::Unknown),
        }
    }

    /// Where the turn goes on behind a node. Fails where memory is refused.
    pub(crate) fn behind(&mut self, node: &Node, done: Done) -> Result<GoesOn, AllocError> {
        match node {
            Node::Restart { first } => Ok(GoesOn::At(done.on(*first))),
            Node::Skip { next } => Ok(GoesOn::At(done.on(*next))),
            Node::Assign { next, .. } => Ok(GoesOn::At(self.written(done.on(*next)))),
            Node::Now { next, .. } => Ok(GoesOn::At(self.written(done.on(*next)))),
            Node::AssignLater { next, .. } => Ok(GoesOn::At(done.on(*next).with_nba())),
            Node::Print { task, next, .. } => Ok(GoesOn::At(done.on(*next).with_print(*task))),
            Node::Branch { taken, missed, .. } => self.choose(done, *taken, *missed),
            _ => Ok(GoesOn::Nowhere),
        }
    }
}
