//! What a search keeps of the nodes that it reached.
ghost use Rattle.std.specs.Prelude.{◌≡◌, ◌<◌, ◌++◌, [], false, length, get_or, IsTrue, IfOk, OnOk};
ghost use Rattle.std.specs.List.{All};
ghost use Rattle.explore.specs.Search.{IsSuccessor};
ghost use Rattle.explore.specs.NumberedTexts.{texts, HasLonger, IsTexts};
ghost use Rattle.explore.specs.Lineage.{ways};
ghost use Rattle.explore.specs.SearchKept.{AreKeptFurther, AreKeptWell, IsBare, IsBegun, IsText, LeadsOn};

use crate::again::{Nodes, most_newest};
use crate::choices::ChoiceCounts;
use crate::lineage::Lineage;
use crate::links::Links;
use crate::recent::Placed;
use crate::text_table::TextTable;
use crate::visited::Visited;
use crate::{Orders, SearchScope, Successor};
use std::alloc::{AllocError, Global};

/// The number of a run that was reached, and that of its text.
#[derive(Clone, Copy)]
pub(crate) struct Reached {
    pub(crate) number: usize,
    pub(crate) text: usize,
}

/// The runs that were reached, what they printed, a visit for each of them, what is known of their nodes, those of which the
/// nodes are still to be expanded, and where several ways lead on.
#[derive(Drop)]
pub(crate) struct KeptNodes<N, M> {
    pub(crate) lineage: Lineage<M>,
    pub(crate) texts: TextTable,
    pub(crate) visited: Visited,
    pub(crate) links: Links,
    pub(crate) pending: Vec<Reached>,
    /// Nodes of runs that were reached.
    pub(crate) nodes: Nodes<N>,
    /// The last key that was asked for.
    pub(crate) key: Vec<u8>,
    /// About how many bytes the texts that are shown take, with their moves.
    pub(crate) shown_bytes: usize,
    /// Where several ways lead on.
    pub(crate) choices: ChoiceCounts,
}

impl<N: Drop, M: Copy> KeptNodes<N, M> {
    /// Nothing but the run that has no moves, of which no node was reached yet.
    pub(crate) fn new(alloc: Global) -> Self
        ensures { IsBare result }
    {
        KeptNodes {
            lineage: Lineage::new(alloc),
            texts: TextTable::new(alloc),
            visited: Visited::new(alloc),
            links: Links::new(alloc),
            pending: Vec::new(alloc),
            nodes: Nodes::new(alloc),
            key: Vec::new(alloc),
            shown_bytes: 0,
            choices: ChoiceCounts::new(alloc),
        }
    }

    /// About how many bytes it takes, with what is shown.
    pub(crate) fn bytes(&self) -> usize {
        let reached = self.pending.capacity().saturating_mul(size_of::<Reached>());
        self.lineage
            .bytes()
            .saturating_add(self.texts.bytes())
            .saturating_add(self.visited.bytes())
            .saturating_add(self.links.bytes())
            .saturating_add(self.nodes.bytes())
            .saturating_add(reached)
            .saturating_add(self.shown_bytes)
    }
}

/// Keeps the run that has no moves and whose node this is, with its visit and its time, as pending.
fn reach_first<O: Orders>(
    scope: SearchScope<'_, O>,
    room: &mut O::Room,
    kept: &mut KeptNodes<O::Node, O::Move>,
    node: &O::Node,
) -> Result<(), AllocError>
    requires bare { IsBare kept.old }
    requires stands { (O.runs scope.orders.now).Stands node.now [] }
    ensures { OnOk result (IsBegun (O.runs scope.entry.orders.now) (O.has_key scope.entry.orders.now) (O.time_of scope.entry.orders.now) kept.new) }
{
    scope.orders.key(room, &mut kept.key, node)?;
    let _there = kept.visited.add(0, kept.key.as_slice())?;
    let at = scope.orders.time(node);
    kept.links.add(at)?;
    kept.pending.push(Reached { number: 0, text: 0 })?;
    Ok(())
}

/// Begins with the node at which each run starts, where nothing is kept yet.
pub(crate) fn begin<O: Orders>(
    scope: SearchScope<'_, O>,
    room: &mut O::Room,
    kept: &mut KeptNodes<O::Node, O::Move>,
) -> Result<(), AllocError>
    requires { IsBare kept.old }
    ensures { OnOk result (IsBegun (O.runs scope.entry.orders.now) (O.has_key scope.entry.orders.now) (O.time_of scope.entry.orders.now) kept.new) }
{
    let node = scope.orders.start(scope.alloc)?;
    reach_first(scope, room, kept, &node)?;
    let weight = scope.orders.weight(&node);
    let placed = Placed {
        number: 0,
        node,
        weight,
    };
    kept.nodes.newest.push(placed, most_newest(scope.bounds))?;
    Ok(())
}

/// The number of the text of a run that goes on from one with a text, which is added where it wasn't there. The key of its node is asked for.
fn name_next<O: Orders>(
    scope: SearchScope<'_, O>,
    room: &mut O::Room,
    told: &mut TextTable,
    key: &mut Vec<u8>,
    from: usize,
    next: &Successor<O::Node, O::Move>,
) -> Result<usize, AllocError>
    requires told { IsTexts told.old }
    requires from { from < length (texts told.old) }
    ensures longer { IfOk result (HasLonger told.old told.new from next.now.printed.items) }
    ensures keyed { OnOk result (O.has_key scope.entry.orders.now next.now.node key.new.items) }
{
    let text = told.longer(scope.alloc, from, &next.printed)?;
    scope.orders.key(room, key, &next.node)?;
    Ok(text)
}

/// Adds the run that a way from a run leads to, unless a node that goes on alike was reached. Its key is kept.
fn enter<O: Orders>(
    scope: SearchScope<'_, O>,
    kept: &mut KeptNodes<O::Node, O::Move>,
    from: Reached,
    to: Reached,
    next: &Successor<O::Node, O::Move>,
) -> Result<(), AllocError>
    requires well { AreKeptWell (O.runs scope.orders.now) (O.has_key scope.orders.now) (O.time_of scope.orders.now) scope.bounds.nodes kept.old }
    requires room { length (ways kept.old.lineage) < scope.bounds.nodes }
    requires from { from.number < length (ways kept.old.lineage) }
    requires next { IsSuccessor (O.runs scope.orders.now) (get_or (ways kept.old.lineage) from.number []) next.now }
    requires number { to.number ≡ length (ways kept.old.lineage) }
    requires told { to.text < length (texts kept.old.texts) }
    requires same { get_or (texts kept.old.texts) to.text [] ≡ (O.runs scope.orders.now).text (get_or (ways kept.old.lineage) from.number [] ++ next.now.moves.items) }
    requires keyed { O.has_key scope.orders.now next.now.node kept.old.key.items }
    ensures further { OnOk result (AreKeptFurther (O.runs scope.entry.orders.now) (O.has_key scope.entry.orders.now) (O.time_of scope.entry.orders.now) scope.entry.bounds.nodes kept.old kept.new) }
    ensures leads { OnOk result (LeadsOn (O.runs scope.entry.orders.now) kept.new from.number (get_or (ways kept.old.lineage) from.number [] ++ next.now.moves.items)) }
    ensures stands { OnOk result (length (ways kept.old.lineage) < length (ways kept.new.lineage) → (O.runs scope.entry.orders.now).Stands next.now.node (get_or (ways kept.new.lineage) (length (ways kept.old.lineage)) [])) }
{
    let there = kept.visited.add(to.text, kept.key.as_slice())?;
    let joined = kept.links.join(from.number, there)?;
    if joined {
        return Ok(());
    }
    kept.lineage.push(from.number, &next.moves)?;
    let time = scope.orders.time(&next.node);
    kept.links.add(time)?;
    kept.pending.push(to)?;
    Ok(())
}

/// Adds the run that a way from a run leads to, unless a node that goes on alike was reached. The answer is whether one is
/// there now: it isn't where the most runs are kept. The node of a run that is added isn't kept yet.
fn reach<O: Orders>(
    scope: SearchScope<'_, O>,
    room: &mut O::Room,
    kept: &mut KeptNodes<O::Node, O::Move>,
    from: Reached,
    next: &Successor<O::Node, O::Move>,
) -> Result<bool, AllocError>
    requires good { AreKeptWell (O.runs scope.orders.now) (O.has_key scope.orders.now) (O.time_of scope.orders.now) scope.bounds.nodes kept.old }
    requires from { IsText (O.runs scope.orders.now) (ways kept.old.lineage) (texts kept.old.texts) from }
    requires next { IsSuccessor (O.runs scope.orders.now) (get_or (ways kept.old.lineage) from.number []) next.now }
    ensures further { OnOk result (AreKeptFurther (O.runs scope.entry.orders.now) (O.has_key scope.entry.orders.now) (O.time_of scope.entry.orders.now) scope.entry.bounds.nodes kept.old kept.new) }
    ensures full { IfOk result (λ there. there ≡ false → length (ways kept.new.lineage) ≡ scope.entry.bounds.nodes) }
    ensures leads { IfOk result (λ there. IsTrue there → LeadsOn (O.runs scope.entry.orders.now) kept.new from.number (get_or (ways kept.old.lineage) from.number [] ++ next.now.moves.items)) }
    ensures stands { OnOk result (length (ways kept.old.lineage) < length (ways kept.new.lineage) → (O.runs scope.entry.orders.now).Stands next.now.node (get_or (ways kept.new.lineage) (length (ways kept.old.lineage)) [])) }
{
    let text = name_next(scope, room, &mut kept.texts, &mut kept.key, from.text, next)?;
    let number = kept.lineage.len();
    if number >= scope.bounds.nodes {
        let seen = kept.visited.find(text, kept.key.as_slice())?;
        let known = kept.links.join(from.number, seen)?;
        return Ok(known);
    }
    enter(scope, kept, from, Reached { number, text }, next)?;
    Ok(true)
}

/// Adds the node that a way from a run leads to, unless one that goes on alike was reached. The answer is whether one is
/// there now: it isn't where the most nodes are kept.
fn follow<O: Orders>(
    scope: SearchScope<'_, O>,
    room: &mut O::Room,
    kept: &mut KeptNodes<O::Node, O::Move>,
    from: Reached,
    next: Successor<O::Node, O::Move>,
) -> Result<bool, AllocError>
    requires good { AreKeptWell (O.runs scope.orders.now) (O.has_key scope.orders.now) (O.time_of scope.orders.now) scope.bounds.nodes kept.old }
    requires from { IsText (O.runs scope.orders.now) (ways kept.old.lineage) (texts kept.old.texts) from }
    requires next { IsSuccessor (O.runs scope.orders.now) (get_or (ways kept.old.lineage) from.number []) next }
    ensures further { OnOk result (AreKeptFurther (O.runs scope.entry.orders.now) (O.has_key scope.entry.orders.now) (O.time_of scope.entry.orders.now) scope.entry.bounds.nodes kept.old kept.new) }
    ensures full { IfOk result (λ there. there ≡ false → length (ways kept.new.lineage) ≡ scope.entry.bounds.nodes) }
    ensures leads { IfOk result (λ there. IsTrue there → LeadsOn (O.runs scope.entry.orders.now) kept.new from.number (get_or (ways kept.old.lineage) from.number [] ++ next.moves.items)) }
{
    let number = kept.lineage.len();
    let there = reach(scope, room, kept, from, &next)?;
    let count = kept.lineage.len();
    if number >= count {
        return Ok(there);
    }
    let weight = scope.orders.weight(&next.node);
    let placed = Placed {
        number,
        node: next.node,
        weight,
    };
    kept.nodes.newest.push(placed, most_newest(scope.bounds))?;
    Ok(there)
}

/// Adds the nodes that these ways from a run lead to, unless ones that go on alike were reached. The answer is whether
/// for each of them one is there now.
pub(crate) fn follow_all<O: Orders>(
    scope: SearchScope<'_, O>,
    room: &mut O::Room,
    kept: &mut KeptNodes<O::Node, O::Move>,
    from: Reached,
    successors: Vec<Successor<O::Node, O::Move>>,
) -> Result<bool, AllocError>
    requires good { AreKeptWell (O.runs scope.orders.now) (O.has_key scope.orders.now) (O.time_of scope.orders.now) scope.bounds.nodes kept.old }
    requires from { IsText (O.runs scope.orders.now) (ways kept.old.lineage) (texts kept.old.texts) from }
    requires successors { All (IsSuccessor (O.runs scope.orders.now) (get_or (ways kept.old.lineage) from.number [])) successors.items }
    ensures further { OnOk result (AreKeptFurther (O.runs scope.entry.orders.now) (O.has_key scope.entry.orders.now) (O.time_of scope.entry.orders.now) scope.entry.bounds.nodes kept.old kept.new) }
    ensures full { IfOk result (λ all. all ≡ false → length (ways kept.new.lineage) ≡ scope.entry.bounds.nodes) }
    ensures leads { IfOk result (λ all. IsTrue all → All (λ next. LeadsOn (O.runs scope.entry.orders.now) kept.new from.number (get_or (ways kept.old.lineage) from.number [] ++ next.moves.items)) successors.items) }
{
    let mut left = successors;
    let mut all = true;
    while let Some(next) = left.pop() {
        let there = follow(scope, room, kept, from, next)?;
        all = all & there;
    }
    Ok(all)
}
