//! The nodes of runs that were reached: the newest are kept, and others are made again by their moves.
//!
//! A run whose node isn't kept goes on from others, and on its way checkpoints are kept: nodes at half of the way, at three quarters of
//! it, at seven eighths and so on. The runs that are asked for next go on from the same ones for most of their way, so that a chain
//! of them costs about as many moves as it has runs, times the logarithm of that. Which checkpoints there are is no matter of what is made.
ghost use Rattle.std.specs.Prelude.{◌≡◌, ◌<◌, [], length, get_or, IfOk, OnOk};
ghost use Rattle.std.specs.List.{All};
ghost use Rattle.sharing.specs.Parts.{Extends};
ghost use Rattle.explore.specs.Lineage.{ways, IsLineage};
ghost use Rattle.explore.specs.Placed.{ArePlaced, AreStood, IsPlaced, IsReachedRun};

use crate::lineage::Lineage;
use crate::recent::{Most, Placed, Recent};
use crate::{Bounds, Orders, SearchScope};
use std::alloc::{AllocError, Global};

// The most nodes that are kept for those that are pending.
const NEWEST: usize = 1024;

// The most checkpoints.
const CHECKPOINTS: usize = 64;

/// The nodes that are kept: those of the newest runs, and checkpoints on the way to others.
#[derive(Drop)]
pub(crate) struct Nodes<N> {
    pub(crate) newest: Recent<N>,
    pub(crate) checkpoints: Recent<N>,
}

/// How many of the newest nodes are kept.
pub(crate) fn most_newest(bounds: Bounds) -> Most {
    Most {
        nodes: NEWEST,
        bytes: bounds.bytes / 16,
    }
}

// How many checkpoints are kept.
fn most_checkpoints(bounds: Bounds) -> Most {
    Most {
        nodes: CHECKPOINTS,
        bytes: bounds.bytes / 16,
    }
}

impl<N: Drop> Nodes<N> {
    /// No nodes.
    pub(crate) fn new(alloc: Global) -> Self
        ensures newest { result.newest.nodes.items ≡ [] }
        ensures checkpoints { result.checkpoints.nodes.items ≡ [] }
    {
        Nodes {
            newest: Recent::new(alloc),
            checkpoints: Recent::new(alloc),
        }
    }

    /// About how many bytes they take.
    pub(crate) fn bytes(&self) -> usize {
        self.newest.weight.saturating_add(self.checkpoints.weight)
    }
}

// The node of a run, made from the start.
fn make_whole<O: Orders>(
    scope: SearchScope<'_, O>,
    room: &mut O::Room,
    lineage: &Lineage<O::Move>,
    number: usize,
) -> Result<O::Node, AllocError>
    requires { IsReachedRun (O.runs scope.orders.now) lineage.now number }
    ensures { IfOk result (λ node. (O.runs scope.entry.orders.now).Stands node (get_or (ways lineage.now) number [])) }
{
    let moves = lineage.way(scope.alloc, number)?;
    let start = scope.orders.start(scope.alloc)?;
    scope.orders.again(scope.alloc, room, &start, &moves)
}

// The node of a run, made from the newest checkpoint where the run goes on from that, and else from the start.
fn make<O: Orders>(
    scope: SearchScope<'_, O>,
    room: &mut O::Room,
    lineage: &Lineage<O::Move>,
    checkpoints: &Recent<O::Node>,
    number: usize,
) -> Result<O::Node, AllocError>
    requires reached { IsReachedRun (O.runs scope.orders.now) lineage.now number }
    requires checkpoints { All (IsPlaced (O.runs scope.orders.now) (ways lineage.now)) checkpoints.now.nodes.items }
    ensures { IfOk result (λ node. (O.runs scope.entry.orders.now).Stands node (get_or (ways lineage.now) number [])) }
{
    let Some(checkpoint) = checkpoints.nodes.back() else {
        return make_whole(scope, room, lineage, number);
    };
    let further = lineage.way_from(scope.alloc, checkpoint.number, number)?;
    match further {
        Some(moves) => scope
            .orders
            .again(scope.alloc, room, &checkpoint.node, &moves),
        None => make_whole(scope, room, lineage, number),
    }
}

// Drops the newest checkpoints from which a run doesn't go on.
fn drop_astray<N: Drop, M: Copy>(lineage: &Lineage<M>, checkpoints: &mut Recent<N>, number: usize)
    requires lineage { IsLineage lineage.now }
    requires within { number < length (ways lineage.now) }
    ensures { Extends checkpoints.new.nodes.items checkpoints.old.nodes.items }
{
    for _ in 0..checkpoints.nodes.len() {
        match checkpoints.newest() {
            Some(at) => {
                if lineage.passes(at, number) {
                    return;
                }
                let _gone = checkpoints.take(at);
            }
            None => return,
        }
    }
}

// Places checkpoints on the way to a run from the newest one, or else from the start: each at half of the way that is left.
fn place_all<O: Orders>(
    scope: SearchScope<'_, O>,
    room: &mut O::Room,
    lineage: &Lineage<O::Move>,
    checkpoints: &mut Recent<O::Node>,
    number: usize,
) -> Result<(), AllocError>
    requires reached { IsReachedRun (O.runs scope.orders.now) lineage.now number }
    requires checkpoints { All (IsPlaced (O.runs scope.orders.now) (ways lineage.now)) checkpoints.old.nodes.items }
    ensures { OnOk result (All (IsPlaced (O.runs scope.entry.orders.now) (ways lineage.now)) checkpoints.new.nodes.items) }
{
    let from = checkpoints.newest().unwrap_or(0);
    let passed = lineage.passed(scope.alloc, from, number)?;
    let mut left = passed.len() / 2;
    while left > 0 {
        let number = passed[left];
        let node = make(scope, room, lineage, checkpoints, number)?;
        let weight = scope.orders.weight(&node);
        let placed = Placed {
            number,
            node,
            weight,
        };
        checkpoints.push(placed, most_checkpoints(scope.bounds))?;
        left /= 2;
    }
    Ok(())
}

/// The node of a run that was reached: the newest one that is kept, where it is that of this run, and else made again.
pub(crate) fn node_at<O: Orders>(
    scope: SearchScope<'_, O>,
    room: &mut O::Room,
    lineage: &Lineage<O::Move>,
    nodes: &mut Nodes<O::Node>,
    number: usize,
) -> Result<O::Node, AllocError>
    requires lineage { IsLineage lineage.now }
    requires within { number < length (ways lineage.now) }
    requires stood { AreStood (O.runs scope.orders.now) (ways lineage.now) }
    requires placed { ArePlaced (O.runs scope.orders.now) (ways lineage.now) nodes.old }
    ensures placed { OnOk result (ArePlaced (O.runs scope.entry.orders.now) (ways lineage.now) nodes.new) }
    ensures node { IfOk result (λ node. (O.runs scope.entry.orders.now).Stands node (get_or (ways lineage.now) number [])) }
{
    match nodes.newest.take(number) {
        Some(node) => return Ok(node),
        None => {}
    }
    drop_astray(lineage, &mut nodes.checkpoints, number);
    place_all(scope, room, lineage, &mut nodes.checkpoints, number)?;
    make(scope, room, lineage, &nodes.checkpoints, number)
}
