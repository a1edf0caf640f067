//! What the entries between two changes of the regions did, and which of them conflict.

use crate::bounds::Bound;
use crate::conflicts::{Conflict, Conflicts, Turning};
use crate::counts::OccurrenceCounts;
use crate::depend::PriorSteps;
use crate::needed_steps::NeededSteps;
use crate::step_set::StepSet;
use accesses::{Does, Pair, Role, Site};
use design::RegId;
use logic4::bits::Bits;
use model::entry::Entry;
use std::alloc::{AllocError, Global};

// The most steps of a segment that are looked at, and the most of their accesses.
const MOST_STEPS: usize = 1_024;

const MOST_ACCESSES: usize = 16_384;

/// A turn of a process, or an update that a turn of the process made.
#[derive(Clone, Copy)]
pub(crate) enum Actor {
    Turn(u32),
    Update(u32),
}

impl Actor {
    // The process of the turn, or of the turn that made the update.
    fn process(self) -> u32 {
        match self {
            Actor::Turn(process) | Actor::Update(process) => process,
        }
    }

    // Whether two entries keep their order in every run: turns of one process, and updates.
    fn is_ordered(self, other: Actor) -> bool {
        match (self, other) {
            (Actor::Turn(one), Actor::Turn(another)) => one == another,
            (Actor::Update(_), Actor::Update(_)) => true,
            _ => false,
        }
    }
}

/// An entry, and the steps that it needs: that which made its event, and the one before it of the same process, or the update
/// before it. Its accesses begin at a place, and it may make nonblocking assignments, whose order is that of their updates.
#[derive(Clone, Copy)]
pub(crate) struct SegmentStep {
    actor: Actor,
    pub(crate) cause: Option<usize>,
    pub(crate) before: Option<usize>,
    accesses: usize,
    pub(crate) assigns: bool,
}

/// What a step does at a site, and whether it changes what stands there.
#[derive(Clone, Copy)]
pub(crate) struct Access {
    step: usize,
    site: Site,
    does: Does,
    pub(crate) changes: bool,
}

/// The last nonblocking assignment that a step makes to a register for a time.
#[derive(Clone, Copy)]
struct Assign {
    step: usize,
    register: RegId,
    value: Bits,
    due: u64,
}

/// Steps, and how many turns each process had among them. Where there is none, no other is looked for.
#[derive(Drop)]
struct StepList {
    list: Vec<SegmentStep>,
    turns_by: OccurrenceCounts,
}

/// Accesses, and how many each site had among them. Where there is just one, no other is looked for.
#[derive(Drop)]
struct AccessList {
    list: Vec<Access>,
    counts: OccurrenceCounts,
    /// More than the number of each site that was ever accessed.
    sites: usize,
}

/// Nonblocking assignments, and how many each register had among them. Where there is just one, no other is looked for.
#[derive(Drop)]
struct AssignList {
    list: Vec<Assign>,
    counts: OccurrenceCounts,
}

/// The entries since the last change of the regions.
#[derive(Drop)]
pub(crate) struct Segment {
    alloc: Global,
    /// The place in the journal of the first of them.
    begin: usize,
    time: u64,
    steps: StepList,
    accesses: AccessList,
    assigns: AssignList,
    /// Which steps each step needs, once all are noted.
    needed: NeededSteps,
    /// The step that finishes the run, if one does.
    finishing: Option<usize>,
    /// Why there is no room for more: there were too many to look at, or memory was refused to a note of them.
    cut: Option<Bound>,
}

impl Access {
    /// The number of its site.
    pub(crate) fn site_number(self) -> usize {
        number_of(self.site)
    }
}

impl StepList {
    // No steps.
    fn new(alloc: Global) -> StepList {
        StepList {
            list: Vec::new(alloc),
            turns_by: OccurrenceCounts::new(alloc),
        }
    }

    // Forgets the steps.
    fn clear(&mut self) {
        for step in self.list.iter() {
            self.turns_by.forget(step.actor.process() as usize);
        }
        self.list.clear();
    }

    // The last step that keeps its order with one of this actor in every run, if there is one.
    fn last_ordered(&self, actor: Actor) -> Option<usize> {
        match actor {
            Actor::Turn(process) if self.turns_by.of(process as usize) == 0 => None,
            _ => self.list.iter().rposition(|s| s.actor.is_ordered(actor)),
        }
    }

    // Keeps a step, and counts the turns of each process.
    fn push(&mut self, step: SegmentStep) -> Result<(), AllocError> {
        self.list.push(step)?;
        match step.actor {
            Actor::Turn(process) => self.turns_by.add(process as usize),
            Actor::Update(_) => Ok(()),
        }
    }

    // The last step makes nonblocking assignments.
    fn assigns(&mut self) {
        if let Some(last) = self.list.last_mut() {
            last.assigns = true;
        }
    }
}

impl AccessList {
    // No accesses.
    fn new(alloc: Global) -> AccessList {
        AccessList {
            list: Vec::new(alloc),
            counts: OccurrenceCounts::new(alloc),
            sites: 0,
        }
    }

    // Forgets the accesses.
    fn clear(&mut self) {
        for access in self.list.iter() {
            self.counts.forget(access.site_number());
        }
        self.list.clear();
    }

    // Keeps an access, and counts those to each site.
    fn push(&mut self, access: Access) -> Result<(), AllocError> {
        let number = access.site_number();
        self.sites = self.sites.max(number.saturating_add(1));
        self.list.push(access)?;
        self.counts.add(number)
    }
}

impl AssignList {
    // No assignments.
    fn new(alloc: Global) -> AssignList {
        AssignList {
            list: Vec::new(alloc),
            counts: OccurrenceCounts::new(alloc),
        }
    }

    // Forgets the assignments.
    fn clear(&mut self) {
        for assign in self.list.iter() {
            self.counts.forget(assign.register as usize);
        }
        self.list.clear();
    }

    // Keeps an assignment, in place of an earlier one of its step, and counts those to each register.
    fn push(&mut self, assign: Assign) -> Result<(), AllocError> {
        if self.counts.of(assign.register as usize) > 0 {
            self.list.retain(|other| !other.is_replaced_by(assign));
        }
        self.list.push(assign)?;
        self.counts.add(assign.register as usize)
    }
}

impl Assign {
    // Whether another one of the same step goes to the same register, for the same time.
    fn is_replaced_by(&self, other: Assign) -> bool {
        self.step == other.step && self.register == other.register && self.due == other.due
    }
}

impl Segment {
    /// No entries yet, at the first place of a journal and time 0.
    pub(crate) fn new(alloc: Global) -> Segment {
        Segment {
            alloc,
            begin: 0,
            time: 0,
            steps: StepList::new(alloc),
            accesses: AccessList::new(alloc),
            assigns: AssignList::new(alloc),
            needed: NeededSteps::new(alloc),
            finishing: None,
            cut: None,
        }
    }

    /// Begins anew, at this place of the journal and this time.
    pub(crate) fn begin(&mut self, place: usize, time: u64) {
        self.begin = place;
        self.time = time;
        self.steps.clear();
        self.accesses.clear();
        self.assigns.clear();
        self.needed.clear();
        self.finishing = None;
        self.cut = None;
    }

    // Notes whether memory was refused to a note.
    fn noted(&mut self, note: Result<(), AllocError>) {
        if note.is_err() {
            self.cut = Some(Bound::Memory);
        }
    }

    // The step whose entry stands at a place of the journal, where it isn't before the first one.
    fn step_of(&self, origin: Option<usize>) -> Option<usize> {
        match origin {
            Some(place) => place.checked_sub(self.begin),
            None => None,
        }
    }

    /// One more entry, whose event the entry at this place of the journal made.
    pub(crate) fn step(&mut self, actor: Actor, origin: Option<usize>) {
        let step = SegmentStep {
            actor,
            cause: self.step_of(origin),
            before: self.steps.last_ordered(actor),
            accesses: self.accesses.list.len(),
            assigns: false,
        };
        let kept = self.steps.push(step);
        self.noted(kept);
    }

    /// Whether there is no room for one more entry. Then there is none until the next change of the regions.
    pub(crate) fn is_full(&mut self) -> bool {
        let is_long = self.steps.list.len() >= MOST_STEPS
            || self.accesses.list.len() >= MOST_ACCESSES;
        if is_long && self.cut.is_none() {
            self.cut = Some(Bound::Steps);
        }
        self.cut.is_some()
    }

    /// The last entry finishes the run.
    pub(crate) fn finish(&mut self) {
        self.finishing = self.steps.list.len().checked_sub(1);
    }

    // The place of the last step.
    fn last_step(&self) -> usize {
        self.steps.list.len().saturating_sub(1)
    }

    /// What the last entry does at a site.
    pub(crate) fn access(&mut self, site: Site, does: Does, changes: bool) {
        if self.cut.is_some() {
            return;
        }
        let access = Access {
            step: self.last_step(),
            site,
            does,
            changes,
        };
        let kept = self.accesses.push(access);
        self.noted(kept);
    }

    /// A nonblocking assignment of the last entry.
    pub(crate) fn assign(&mut self, register: RegId, value: Bits, due: u64) {
        if self.cut.is_some() {
            return;
        }
        self.steps.assigns();
        let assign = Assign {
            step: self.last_step(),
            register,
            value,
            due,
        };
        let kept = self.assigns.push(assign);
        self.noted(kept);
    }

    /// The step at a place, if there is one.
    pub(crate) fn step_at(&self, at: usize) -> Option<SegmentStep> {
        self.steps.list.get(at).copied()
    }

    /// More than the number of each site that was accessed.
    pub(crate) fn sites(&self) -> usize {
        self.accesses.sites
    }

    // The place of the first access of a step, or that behind all of them where there is no such step.
    fn first_access(&self, step: usize) -> usize {
        match self.steps.list.get(step) {
            Some(step) => step.accesses,
            None => self.accesses.list.len(),
        }
    }

    /// What a step does at the sites.
    pub(crate) fn accesses_of(&self, step: usize) -> &[Access] {
        let from = self.first_access(step);
        let until = self.first_access(step.saturating_add(1));
        accesses_between(&self.accesses.list, from, until)
    }

    // The role of a step.
    fn role(&self, step: usize, does: Does) -> Option<Role> {
        let process = self.steps.list.get(step)?.actor.process();
        Some(Role { process, does })
    }

    // The pair of two steps.
    fn pair(&self, site: Site, earlier: (usize, Does), later: (usize, Does)) -> Option<Pair> {
        Some(Pair {
            site,
            time: self.time,
            first: self.role(earlier.0, earlier.1)?,
            second: self.role(later.0, later.1)?,
            earlier: self.begin.saturating_add(earlier.0),
            later: self.begin.saturating_add(later.0),
        })
    }

    // Keeps a conflict of a round with the steps that its second run takes, if there are some.
    fn keep_conflict(
        &self,
        conflicts: &mut Conflicts,
        pair: Pair,
        round: usize,
        turning: Turning,
        before: Result<Option<PriorSteps>, AllocError>,
    ) {
        match before {
            Ok(Some(before)) => conflicts.add(
                Conflict {
                    pair,
                    turning,
                    before,
                },
                round,
            ),
            Ok(None) => {}
            Err(_) => conflicts.cut_by(Bound::Memory),
        }
    }

    // Whether a step is known to need an earlier one: itself, or by another one where that was found.
    fn comes_of(&self, later: usize, earlier: usize) -> bool {
        match self.steps.list.get(later) {
            Some(step) => {
                step.cause == Some(earlier)
                    || step.before == Some(earlier)
                    || self.needed.has(later, earlier)
            }
            None => false,
        }
    }

    // Keeps the conflict of two steps, if the later one doesn't need the earlier one. One that finishes the run may not finish it where it comes
    // before the other; where it does, no second run comes of this conflict, but one of that by which the other is cut off.
    fn add(
        &self,
        conflicts: &mut Conflicts,
        site: Site,
        earlier: (usize, Does),
        later: (usize, Does),
    ) {
        if self.comes_of(later.0, earlier.0) {
            return;
        }
        if let Some(pair) = self.pair(site, earlier, later) {
            if let Some(round) = conflicts.round_of(pair) {
                let before = self.swapped(self.alloc, earlier.0, later.0);
                self.keep_conflict(conflicts, pair, round, Turning::Swapped, before);
            }
        }
    }

    // Keeps the conflicts of an access that changes what stands at its site.
    fn conflicts_of(&self, conflicts: &mut Conflicts, one: Access) {
        for other in self.accesses.list.iter() {
            if one.site == other.site {
                let here = (one.step, one.does);
                let there = (other.step, other.does);
                if one.step < other.step {
                    self.add(conflicts, one.site, here, there);
                } else if other.step < one.step && !other.changes {
                    self.add(conflicts, one.site, there, here);
                }
            }
        }
    }

    // Keeps the conflicts of a nonblocking assignment with those of later steps.
    fn conflicts_by(&self, conflicts: &mut Conflicts, one: Assign) {
        for other in self.assigns.list.iter() {
            let is_same = one.register == other.register && one.due == other.due;
            if is_same && one.step < other.step && one.value != other.value {
                let here = (one.step, Does::Assigns);
                let there = (other.step, Does::Assigns);
                self.add(conflicts, Site::Register(one.register), here, there);
            }
        }
    }

    // Finds which steps need which. Of two steps that shows by themselves. Where memory is refused, nothing is found, and that of two steps
    // the later one doesn't need the earlier one is found for each two anew.
    fn find_needed(&mut self) {
        if self.steps.list.len() > 2 {
            let _ = self.needed.find(&self.steps.list);
        }
    }

    /// Keeps the conflicts of the entries since the last change of the regions.
    pub(crate) fn find_conflicts(&mut self, conflicts: &mut Conflicts) {
        if let Some(bound) = self.cut {
            conflicts.cut_by(bound);
        }
        self.find_needed();
        self.keep_conflicts(conflicts);
    }

    // Keeps the conflicts of the accesses, and those of the nonblocking assignments.
    fn keep_conflicts(&self, conflicts: &mut Conflicts) {
        for one in self.accesses.list.iter() {
            if one.changes && self.accesses.counts.of(one.site_number()) > 1 {
                self.conflicts_of(conflicts, *one);
            }
        }
        for one in self.assigns.list.iter() {
            if self.assigns.counts.of(one.register as usize) > 1 {
                self.conflicts_by(conflicts, *one);
            }
        }
    }

    // What a step loses that comes no more once the run has finished: what it prints, its update, or else its turn.
    fn lost(&self, step: usize) -> (Site, Does) {
        for access in self.accesses_of(step) {
            match access.does {
                Does::Prints => return (Site::Finishing, Does::Prints),
                Does::Updates => return (access.site, Does::Updates),
                _ => {}
            }
        }
        (Site::Finishing, Does::Runs)
    }

    // Keeps the conflict of a step with a later one that finishes the run, which might cut it off.
    fn add_cut_off(&self, conflicts: &mut Conflicts, earlier: usize, last: usize) {
        let (site, does) = self.lost(earlier);
        if self.comes_of(last, earlier) {
            return;
        }
        if let Some(pair) = self.pair(site, (earlier, does), (last, Does::Finishes)) {
            if let Some(round) = conflicts.round_of(pair) {
                let before = self.cut_off(self.alloc, earlier, last);
                self.keep_conflict(conflicts, pair, round, Turning::CutOff, before);
            }
        }
    }

    /// Keeps the conflicts of the entry that finishes the run, if one does, with those before it.
    pub(crate) fn find_cut_off(&self, conflicts: &mut Conflicts) {
        if let Some(last) = self.finishing {
            for earlier in 0..last {
                self.add_cut_off(conflicts, earlier, last);
            }
        }
    }

    /// Keeps the conflict of the first two entries, where both make nonblocking assignments: their updates come in the order of these.
    pub(crate) fn find_updating(&self, conflicts: &mut Conflicts) {
        match (self.step_at(0), self.step_at(1)) {
            (Some(one), Some(other)) if one.assigns && other.assigns => {
                let (here, there) = ((0, Does::Schedules), (1, Does::Schedules));
                self.add(conflicts, Site::Updating, here, there);
            }
            _ => {}
        }
    }

    /// Keeps the conflict of the last entry, which finishes the run, with an event of a process that it leaves behind.
    pub(crate) fn add_held_back(
        &self,
        conflicts: &mut Conflicts,
        site: Site,
        second: Role,
        other: Entry,
    ) {
        let last = self.last_step();
        let place = self.begin.saturating_add(last);
        let first = match self.role(last, Does::Finishes) {
            Some(first) => first,
            None => return,
        };
        let pair = Pair {
            site,
            time: self.time,
            first,
            second,
            earlier: place,
            later: place,
        };
        if let Some(round) = conflicts.round_of(pair) {
            let before = self.nothing();
            self.keep_conflict(conflicts, pair, round, Turning::HeldBack(other), before);
        }
    }

    // No steps.
    fn nothing(&self) -> Result<Option<PriorSteps>, AllocError> {
        let steps = StepSet::new(self.alloc, 0)?;
        Ok(Some(PriorSteps {
            steps,
            is_tied: false,
        }))
    }
}

// The accesses between two places, if there are so many.
fn accesses_between(accesses: &[Access], from: usize, until: usize) -> &[Access] {
    if from <= until && until <= accesses.len() {
        &accesses[from..until]
    } else {
        &[]
    }
}

// The number of a site, by which its accesses are counted.
fn number_of(site: Site) -> usize {
    match site {
        Site::Register(register) => (register as usize).saturating_add(4),
        Site::Printing => 0,
        Site::Strobing => 1,
        Site::Finishing => 2,
        Site::Updating => 3,
    }
}
