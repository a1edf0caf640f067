//! Where several ways lead on from one node: how many do at each time. It is counted for people, and no clause says that the count is right.
ghost use Rattle.std.specs.Prelude.{IfSome};
ghost use Rattle.explore.specs.Lineage.{ways, IsLineage};
ghost use Rattle.explore.specs.Reach.{IsWayAmong};

use crate::lineage::Lineage;
use indexmap::IndexMap;
use std::alloc::Global;

// Of how many times the choices are counted: the first at which there are some.
const MOST_TIMES: usize = 4096;

/// The choices of a time: how many ways there are beside one for each, and the number of the first node from which most lead, with their
/// number.
#[derive(Clone, Copy)]
struct TimeChoices {
    ways: usize,
    node: usize,
    most: usize,
}

/// The choices of each time at which there are some.
#[derive(Drop)]
pub(crate) struct ChoiceCounts {
    times: IndexMap<u64, TimeChoices>,
}

// The choices of a time, with those of a node from which so many ways lead.
fn with_node(before: TimeChoices, node: usize, ways: usize) -> TimeChoices {
    let all = before.ways.saturating_add(ways.saturating_sub(1));
    if ways > before.most {
        return TimeChoices {
            ways: all,
            node,
            most: ways,
        };
    }
    TimeChoices {
        ways: all,
        node: before.node,
        most: before.most,
    }
}

// Those of two times that have more ways: the first of them, where both have as many.
fn wider(one: Option<TimeChoices>, other: TimeChoices) -> TimeChoices {
    match one {
        Some(found) => {
            if other.ways > found.ways {
                other
            } else {
                found
            }
        }
        None => other,
    }
}

impl ChoiceCounts {
    /// No choices yet.
    pub(crate) fn new(alloc: Global) -> Self {
        ChoiceCounts {
            times: IndexMap::new(alloc),
        }
    }

    /// Counts the choice of the node with a number, from which so many ways lead on at a time. Where memory is refused it isn't counted.
    pub(crate) fn add(&mut self, time: u64, node: usize, ways: usize) {
        if ways < 2 {
            return;
        }
        let before = match self.times.get(&time) {
            Some(found) => *found,
            None => TimeChoices {
                ways: 0,
                node,
                most: 0,
            },
        };
        if before.most == 0 && self.times.len() >= MOST_TIMES {
            return;
        }
        let _is_counted = self
            .times
            .insert(time, with_node(before, node, ways))
            .is_ok();
    }

    // The number of the node from which most ways lead, of those of the time at which most do.
    fn widest(&self) -> Option<usize> {
        let mut widest = None;
        for place in 0..self.times.len() {
            match self.times.get_index(place) {
                Some((_, found)) => widest = Some(wider(widest, *found)),
                None => {}
            }
        }
        match widest {
            Some(found) => Some(found.node),
            None => None,
        }
    }
}

/// The moves of the run to the node from which most ways lead, of those of the time at which most do. None where there is none, and where
/// memory is refused.
pub(crate) fn widest_way<M: Copy>(
    alloc: Global,
    lineage: &Lineage<M>,
    choices: &ChoiceCounts,
) -> Option<Vec<M>>
    requires lineage { IsLineage lineage.now }
    ensures { IfSome result (λ moves. IsWayAmong (ways lineage.now) moves.items) }
{
    let number = match choices.widest() {
        Some(number) => number,
        None => return None,
    };
    if number >= lineage.len() {
        return None;
    }
    match lineage.way(alloc, number) {
        Ok(moves) => Some(moves),
        Err(_) => None,
    }
}
