//! The second run of a conflict, in which the order of its two entries is turned.
ghost use Rattle.std.specs.Prelude.{IfOk, IfSome};
ghost use Rattle.runs.specs.RunRecords.{IsRun};
ghost use Rattle.conflicts.specs.RunEndings.{IsUnderWay, HasFollowed, HasGoneOn};

use crate::follow::{follow_made, follow_on, follow_segment, lead_all};
use crate::guide::Guide;
use crate::race_search::RaceSearch;
use accesses::{Pair, lead};
use conflicts::{Conflict, JournaledMachine, Turning, next_change, repeat};
use model::end::End;
use model::entry::Entry;
use progress::Progress;
use regions::Machine;
use runs::run::RunRecord;
use statekeys::{Scratch, key};
use std::alloc::{AllocError, Global};

// The most entries that a second run takes before it is asked whether it comes to where the first one came.
const MOST_STEPS: u32 = 4096;

// The most entries of the first run that are taken to see whether a second run comes to where it came. A first run that goes on for longer
// without a change of the regions may never come to one, and would be followed for each conflict.
const MOST_REJOINED: usize = 8_192;

// A copy of a machine, on the heap, so that it is dropped as a pointer.
fn copy_of<'d>(alloc: Global, machine: &Machine<'d>) -> Result<Box<Machine<'d>>, AllocError> {
    let copy = machine.copy(alloc)?;
    let boxed = Box::new(alloc, copy)?;
    Ok(boxed)
}

// Puts the bytes that tell a machine's state, but for the numbers of events, behind others.
fn put_key(alloc: Global, bytes: &mut Vec<u8>, machine: &Machine<'_>) -> Result<(), AllocError> {
    let mut scratch = Scratch::new(alloc);
    key(bytes, &mut scratch, machine.state(), machine.store())
}

// Whether the state of a machine, but for the numbers of events, has these bytes. Puts its own behind others.
fn has_key(
    alloc: Global,
    bytes: &[u8],
    others: &mut Vec<u8>,
    machine: &Machine<'_>,
) -> Result<bool, AllocError> {
    put_key(alloc, others, machine)?;
    Ok(bytes == others.as_slice())
}

// Whether two machines have one state, but for the numbers of events.
fn have_one_state(
    alloc: Global,
    one: &Machine<'_>,
    other: &Machine<'_>,
) -> Result<bool, AllocError> {
    let mut bytes = Vec::new(alloc);
    put_key(alloc, &mut bytes, one)?;
    let mut others = Vec::new(alloc);
    has_key(alloc, bytes.as_slice(), &mut others, other)
}

// Whether two machines printed one text, which is taken out of the second one.
fn have_one_text(
    alloc: Global,
    one: &Machine<'_>,
    other: &mut Machine<'_>,
) -> Result<bool, AllocError> {
    let mut copy = copy_of(alloc, one)?;
    Ok(copy.take_lines() == other.take_lines())
}

/// Whether the entries of a pair are turned, or keep their order.
#[derive(Clone, Copy)]
pub(crate) enum Order {
    Turned,
    Kept,
}

// How a second run is led: the search and the pair that it is for, how the order of that is turned, what it takes behind the entries before
// the pair, by the places of their transitions, and how many entries it may have.
#[derive(Clone, Copy)]
struct ExchangeLead<'a> {
    task: RaceSearch<'a>,
    pair: Pair,
    turning: Turning,
    places: &'a [usize],
    most: u64,
}

impl<'a> ExchangeLead<'a> {
    // The transitions of the first run behind the pair's earlier entry, but for those that were taken before.
    fn guide(self) -> Guide<'a> {
        Guide {
            transitions: self.task.transitions(),
            at: self.pair.earlier.saturating_add(1),
            taken: self.places,
            later: self.pair.later,
        }
    }

    // The entries of the first run from the pair up to the next change of the regions. None where they are more than are followed.
    fn entries_to_change(self) -> Option<&'a [Entry]> {
        let journal = self.task.original.journal.as_slice();
        let from = self.pair.earlier;
        let to = next_change(self.task.transitions(), self.pair.later);
        if from <= to && to <= journal.len() && to - from <= MOST_REJOINED {
            Some(&journal[from..to])
        } else {
            None
        }
    }

    // Whether a second run stands where the first one stood before the next change of the regions, with the same text: what follows is
    // the same then. The machine stands where the two runs part, and is led on by the first one's entries.
    fn rejoins(
        self,
        run: &JournaledMachine<'_>,
        machine: &mut Machine<'_>,
    ) -> Result<bool, AllocError> {
        if run.machine.state().is_active() {
            return Ok(false);
        }
        let Some(entries) = self.entries_to_change() else {
            return Ok(false);
        };
        if !lead(machine, entries)? {
            return Ok(false);
        }
        if !have_one_state(self.task.alloc, &run.machine, machine)? {
            return Ok(false);
        }
        have_one_text(self.task.alloc, &run.machine, machine)
    }

    // Takes the entries of the first run before the pair. The answer is whether all were taken. Fails where memory is refused.
    fn repeat_before(self, run: &mut JournaledMachine<'_>) -> Result<bool, AllocError>
        requires { IsUnderWay run.old }
        ensures { HasGoneOn run.old run.new }
    {
        let journal = self.task.original.journal.as_slice();
        let count = self.pair.earlier.min(journal.len());
        repeat(run, journal.split_at(count).0)
    }

    // Takes the entries of the first run before the pair, and those in its place. The answer is whether all were taken. Fails where memory
    // is refused.
    fn take_all(self, run: &mut JournaledMachine<'_>) -> Result<bool, AllocError>
        requires { IsUnderWay run.old }
        ensures { HasGoneOn run.old run.new }
    {
        if !self.repeat_before(run)? {
            return Ok(false);
        }
        lead_all(run, self.task.transitions(), self.places)
    }

    // Takes the entries in the place of the pair, and then the transitions of the first run as far as they may be taken. The machine stands where
    // the run does. None where one of those may not be taken, where it comes to where the first run came, or has as many entries as it may
    // have.
    fn swapped_behind<P: Progress>(
        self,
        run: &mut JournaledMachine<'_>,
        machine: &mut Machine<'_>,
        progress: &P,
    ) -> Result<Option<End>, AllocError>
        requires { IsUnderWay run.old }
        ensures { HasFollowed run.old run.new result }
    {
        if !lead_all(run, self.task.transitions(), self.places)? {
            return Ok(None);
        }
        let mut guide = self.guide();
        let end = follow_segment(run, &mut guide, MOST_STEPS);
        if end.is_some() {
            return Ok(end);
        }
        if self.rejoins(run, machine)? {
            return Ok(None);
        }
        Ok(follow_on(run, &mut guide, self.most, progress))
    }

    // Takes the entries of the first run before the pair, those in its place, and then the transitions of the first run as far as they
    // may be taken. None where one of those before may not be taken, where it comes to where the first run came, or has as many entries
    // as it may have.
    fn swapped<P: Progress>(
        self,
        run: &mut JournaledMachine<'_>,
        progress: &P,
    ) -> Result<Option<End>, AllocError>
        requires { IsUnderWay run.old }
        ensures { HasFollowed run.old run.new result }
    {
        if !self.repeat_before(run)? {
            return Ok(None);
        }
        let mut machine = copy_of(self.task.alloc, &run.machine)?;
        self.swapped_behind(run, &mut machine, progress)
    }

    // Takes the entries of the first run before the pair, and those in its place, of which the last finishes the run. None where one may
    // not be taken, or the run hasn't finished. Fails where memory is refused.
    fn cut_off(self, run: &mut JournaledMachine<'_>) -> Result<Option<End>, AllocError>
        requires { IsUnderWay run.old }
        ensures { HasFollowed run.old run.new result }
    {
        if !self.take_all(run)? {
            return Ok(None);
        }
        Ok(run.end())
    }

    // Takes the entries of the first run before its last one, another one and what comes of it, and then the last one. The answer is whether all
    // were taken. Fails where memory is refused.
    fn take_held_back(
        self,
        other: Entry,
        run: &mut JournaledMachine<'_>,
    ) -> Result<bool, AllocError>
        requires { IsUnderWay run.old }
        ensures { HasGoneOn run.old run.new }
    {
        if !self.repeat_before(run)? {
            return Ok(false);
        }
        if !repeat(run, &[other])? {
            return Ok(false);
        }
        if !follow_made(run, MOST_STEPS)? {
            return Ok(false);
        }
        match self.task.original.journal.get(self.pair.earlier) {
            Some(last) => repeat(run, &[*last]),
            None => Ok(false),
        }
    }

    // Takes the entries of the first run before its last one, another one and what comes of it, then the last one, and goes on. None
    // where one of those may not be taken, or it has as many entries as it may have. Fails where memory is refused to those.
    fn held_back<P: Progress>(
        self,
        other: Entry,
        run: &mut JournaledMachine<'_>,
        progress: &P,
    ) -> Result<Option<End>, AllocError>
        requires { IsUnderWay run.old }
        ensures { HasFollowed run.old run.new result }
    {
        if !self.take_held_back(other, run)? {
            return Ok(None);
        }
        let mut guide = Guide::of_none();
        Ok(follow_on(run, &mut guide, self.most, progress))
    }

    // Takes the entries of the first run before the pair, and those in its place, in which the two keep their order, and goes on. None
    // where one may not be taken, or it has as many entries as it may have. Fails where memory is refused to those in its place.
    fn kept<P: Progress>(
        self,
        run: &mut JournaledMachine<'_>,
        progress: &P,
    ) -> Result<Option<End>, AllocError>
        requires { IsUnderWay run.old }
        ensures { HasFollowed run.old run.new result }
    {
        if !self.take_all(run)? {
            return Ok(None);
        }
        let mut guide = self.guide();
        Ok(follow_on(run, &mut guide, self.most, progress))
    }

    // Leads a run as the order of the pair's entries is turned, or kept.
    fn led<P: Progress>(
        self,
        order: Order,
        run: &mut JournaledMachine<'_>,
        progress: &P,
    ) -> Result<Option<End>, AllocError>
        requires { IsUnderWay run.old }
        ensures { HasFollowed run.old run.new result }
    {
        match (order, self.turning) {
            (Order::Kept, _) => self.kept(run, progress),
            (Order::Turned, Turning::Swapped) => self.swapped(run, progress),
            (Order::Turned, Turning::CutOff) => self.cut_off(run),
            (Order::Turned, Turning::HeldBack(other)) => self.held_back(other, run, progress),
        }
    }

    // Leads a run, takes its entries off those that are left to second runs, and gives what is told of it, where it comes to an end.
    fn make<P: Progress>(
        self,
        order: Order,
        run: &mut JournaledMachine<'_>,
        left: &mut u64,
        progress: &P,
    ) -> Result<Option<RunRecord>, AllocError>
        requires { IsUnderWay run.old }
        ensures { IfOk result (λ made. IfSome made (IsRun run.old.machine.code run.old.limits)) }
    {
        let end = self.led(order, run, progress);
        *left = self.most.saturating_sub(run.journal.len() as u64);
        run.told_if(self.task.alloc, end)
    }
}

// Keeps the places of what a second run takes in the place of a conflict's earlier entry: those of the steps between the two, and then the
// two, in this order, but the earlier one only where it isn't cut off. Fails where memory is refused.
fn put_places(
    places: &mut Vec<usize>,
    conflict: &Conflict,
    order: Order,
) -> Result<(), AllocError> {
    let Pair { earlier, later, .. } = conflict.pair;
    for behind in 1..later.saturating_sub(earlier) {
        if conflict.before.steps.contains(behind) {
            places.push(earlier.saturating_add(behind))?;
        }
    }
    match (order, conflict.turning) {
        (Order::Kept, _) => places.extend_from_slice(&[earlier, later])?,
        (Order::Turned, Turning::Swapped) => places.extend_from_slice(&[later, earlier])?,
        (Order::Turned, _) => places.push(later)?,
    }
    Ok(())
}

/// A second run, in which the order of a conflict's entries is turned or kept, and the steps before them come before both. What it takes is
/// taken off the entries that are left to second runs. None where it can't be made, where no entries are left, or, of a run in which the order
/// is turned, where it comes to where the first run came, with the same text.
pub(crate) fn exchange<P: Progress>(
    task: RaceSearch<'_>,
    conflict: &Conflict,
    order: Order,
    left: &mut u64,
    progress: &P,
) -> Result<Option<RunRecord>, AllocError>
    ensures { IfOk result (λ made. IfSome made (IsRun task.entry.design.now task.entry.limits)) }
{
    let most = *left;
    if conflict.pair.earlier as u64 >= most {
        *left = 0;
        return Ok(None);
    }
    let mut places = Vec::new(task.alloc);
    put_places(&mut places, conflict, order)?;
    let mut run = JournaledMachine::start(task.alloc, task.design, task.limits)?;
    let lead = ExchangeLead {
        task,
        pair: conflict.pair,
        turning: conflict.turning,
        places: &places,
        most,
    };
    lead.make(order, &mut run, left, progress)
}
