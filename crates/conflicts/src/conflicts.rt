//! The conflicts of a run, grouped by what they are for and whose they are.

use crate::bounds::{Bound, RaceBounds};
use crate::depend::PriorSteps;
use accesses::{Pair, Role, Site};
use indexmap::IndexMap;
use model::entry::Entry;
use std::alloc::Global;

/// How a second run turns the order of two entries: it has both, the later one first; or the later one finishes it before the
/// earlier one comes; or this event, which the first run left behind as it finished, comes before the entry that finishes it.
#[derive(Clone, Copy)]
pub enum Turning {
    Swapped,
    CutOff,
    HeldBack(Entry),
}

/// Two entries of a run that conflict, how a second run turns their order, and the steps between them that it takes before the later one.
#[derive(Drop)]
pub struct Conflict {
    pub pair: Pair,
    pub turning: Turning,
    pub before: PriorSteps,
}

/// What makes a group: what the conflict is for, and the two processes, the lesser one first.
#[derive(Clone, Copy, PartialEq, Eq, Hash)]
struct Group {
    site: Site,
    lesser: u32,
    greater: u32,
}

/// How many conflicts of a group there are, and the last one's places.
#[derive(Clone, Copy)]
struct GroupCount {
    count: usize,
    earlier: usize,
    later: usize,
}

/// The conflicts found so far, by rounds: the first of each group, then the second of each, and so on.
///
/// Of those that are left out, none would be tried: a group has at most as many as there may be tries. Where more are kept in all than
/// would be tried even if each race that may be told took the tries of its group, the last round is left out.
#[derive(Drop)]
pub struct Conflicts {
    alloc: Global,
    most_rounds: usize,
    most: usize,
    count: usize,
    group_counts: IndexMap<Group, GroupCount>,
    pub rounds: Vec<Vec<Conflict>>,
    /// By what the list was cut, the first that was met.
    pub cut: Option<Bound>,
}

impl Group {
    // The group of a site and two roles, whichever of them is named first.
    fn of(site: Site, one: Role, other: Role) -> Group {
        Group {
            site,
            lesser: one.process.min(other.process),
            greater: one.process.max(other.process),
        }
    }
}

impl Conflicts {
    /// No conflicts yet, and by race bounds how many rounds and how many in all are kept.
    pub(crate) fn new(alloc: Global, bounds: RaceBounds) -> Conflicts {
        Conflicts {
            alloc,
            most_rounds: bounds.pairs,
            most: bounds
                .pairs
                .saturating_mul(bounds.races.saturating_add(1))
                .saturating_mul(2),
            count: 0,
            group_counts: IndexMap::new(alloc),
            rounds: Vec::new(alloc),
            cut: None,
        }
    }

    /// Forgets the conflicts that were found. From here on as many are kept as race bounds say.
    pub(crate) fn begin_anew(&mut self, bounds: RaceBounds) {
        let alloc = self.alloc;
        *self = Conflicts::new(alloc, bounds);
    }

    /// Notes by what the list was cut, unless something cut it before.
    pub(crate) fn cut_by(&mut self, bound: Bound) {
        if self.cut.is_none() {
            self.cut = Some(bound);
        }
    }

    // How many conflicts of a pair's group were found, unless this pair is the last of them.
    fn count_of(&self, pair: Pair) -> Option<usize> {
        match self
            .group_counts
            .get(&Group::of(pair.site, pair.first, pair.second))
        {
            Some(found) if found.earlier == pair.earlier && found.later == pair.later => None,
            Some(found) => Some(found.count),
            None => Some(0),
        }
    }

    /// The round of a pair, if it is kept.
    pub(crate) fn round_of(&self, pair: Pair) -> Option<usize> {
        match self.count_of(pair) {
            Some(round) if round < self.most_rounds => Some(round),
            _ => None,
        }
    }

    // Leaves out the last round, unless it is the only one. The answer is whether there is room now for one of this round.
    fn make_room(&mut self, round: usize) -> bool {
        if self.count < self.most {
            return true;
        }
        if self.rounds.len() <= 1 {
            return false;
        }
        if let Some(last) = self.rounds.pop() {
            self.count = self.count.saturating_sub(last.len());
        }
        self.most_rounds = self.rounds.len();
        round < self.most_rounds
    }

    // Puts a conflict into its round. The answer is whether memory wasn't refused to it.
    fn put(&mut self, conflict: Conflict, round: usize) -> bool {
        if round >= self.rounds.len() && self.rounds.push(Vec::new(self.alloc)).is_err() {
            return false;
        }
        match self.rounds.get_mut(round) {
            Some(list) => list.push(conflict).is_ok(),
            None => false,
        }
    }

    /// Keeps one more conflict of a round, if memory isn't refused to it.
    pub(crate) fn add(&mut self, conflict: Conflict, round: usize) {
        let pair = conflict.pair;
        if !self.make_room(round) {
            return;
        }
        let group = Group::of(pair.site, pair.first, pair.second);
        let group_count = GroupCount {
            count: round.saturating_add(1),
            earlier: pair.earlier,
            later: pair.later,
        };
        let is_counted = self.group_counts.insert(group, group_count).is_ok();
        let is_kept = self.put(conflict, round);
        self.count = self.count.saturating_add(1);
        if !is_counted || !is_kept {
            self.cut_by(Bound::Memory);
        }
    }
}

/// What conflicts are for: what a run comes to, by registers or by its end, an order of strobes or of updates, or the order of lines.
#[derive(Clone, Copy, PartialEq, Eq)]
pub enum SiteKind {
    Outcome,
    Order,
    Lines,
}

/// The kind of a site.
pub fn kind_of(site: Site) -> SiteKind {
    match site {
        Site::Register(_) | Site::Finishing => SiteKind::Outcome,
        Site::Strobing | Site::Updating => SiteKind::Order,
        Site::Printing => SiteKind::Lines,
    }
}

/// Whether a site is an order of lines or of updates.
pub fn is_order(site: Site) -> bool {
    kind_of(site) != SiteKind::Outcome
}
