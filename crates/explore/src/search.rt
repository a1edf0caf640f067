//! The search.
ghost use Rattle.std.specs.Prelude.{◌≡◌, ◌<◌, ◌≤◌, ◌⊎◌, [], true, false, length, get_or, None, Some, IsTrue, IfOk, IfSome};
ghost use Rattle.std.specs.List.{All, AllPairs};
ghost use Rattle.explore.specs.SearchKept.{AreContinued, AreKeptWell, IsBare, IsBegun, IsText};
ghost use Rattle.explore.specs.Search.{AreAllShown, AreCounted, AreDistinct, AreShownFurther, AreShownWell, IsEndless, IsOfRun};
ghost use Rattle.explore.specs.Outcome.{IsExpanded, IsSearched};
ghost use Rattle.explore.specs.Reach.{AreFollowedBefore, HasNode, IsNoLater, IsWayAmong, earliest};
ghost use Rattle.explore.specs.NumberedTexts.{texts};
ghost use Rattle.explore.specs.Lineage.{ways, IsLineage};
ghost use Rattle.explore.specs.declared.stopped.Stopped.TheVariants as stop;

use crate::again::node_at;
use crate::choices::widest_way;
use crate::endless::find_endless;
use crate::kept::{KeptNodes, Reached, begin, follow_all};
use crate::reach::{earliest, earliest_left, earliest_pending};
use crate::show::{ReachedRun, bytes_since, show_all};
use crate::{Bounds, Expanded, Explored, Orders, SearchScope, Shown, Stopped};
use progress::{HowFar, Progress};
use std::alloc::{AllocError, Global};

// As many nodes as are reached from one telling to the next, or a few more.
const STRIDE: usize = 1024;

/// How a search came to its end: why it may have left something out, the moves of a run from which no end is reached, before which time
/// nothing was left out, and the moves of the run to the node from which most ways lead.
#[derive(Drop)]
struct SearchOutcome<M> {
    stopped: Option<Stopped>,
    endless: Option<Vec<M>>,
    followed_before: Option<u64>,
    widest: Option<Vec<M>>,
}

/// Why an expansion left something out: a node, since there are as many as there may be, or a way that wasn't followed.
fn left_out(whole: bool, followed: bool) -> Option<Stopped>
    ensures none { result ≡ None → IsTrue whole × IsTrue followed }
    ensures nodes { result ≡ Some stop.Nodes → followed ≡ false }
    ensures apart { result ≡ Some stop.Shown → ⊥ }
{
    if !followed {
        return Some(Stopped::Nodes);
    }
    if !whole {
        return Some(Stopped::Unfollowed);
    }
    None
}

/// Whether nothing was left out.
fn is_whole(left: Option<Stopped>) -> bool
    ensures { IsTrue result → left ≡ None }
{
    match left {
        Some(_) => false,
        None => true,
    }
}

/// Whether a text was left out since the most are shown.
fn is_full(left: Option<Stopped>) -> bool
    ensures full { result ≡ true → left ≡ Some stop.Shown }
    ensures others { result ≡ false → left ≡ Some stop.Shown → ⊥ }
{
    match left {
        Some(Stopped::Shown) => true,
        Some(_) => false,
        None => false,
    }
}

/// The first of two reasons.
fn earlier(one: Option<Stopped>, other: Option<Stopped>) -> Option<Stopped>
    ensures none { result ≡ None → (one ≡ None) × (other ≡ None) }
    ensures which { (result ≡ one) ⊎ (result ≡ other) }
{
    match one {
        Some(stopped) => Some(stopped),
        None => other,
    }
}

/// Expands the node of a run: shows its ways that have come to an end, keeps the nodes that the others lead to, and counts these ways, and
/// the bytes of what is shown. The answer is why something was left out. Where that is a text, the nodes aren't kept.
fn expand_node<O: Orders>(
    scope: SearchScope<'_, O>,
    room: &mut O::Room,
    kept: &mut KeptNodes<O::Node, O::Move>,
    shown: &mut Vec<Shown<O::Move, O::End>>,
    reached: Reached,
) -> Result<Option<Stopped>, AllocError>
    requires well { AreKeptWell (O.runs scope.orders.now) (O.has_key scope.orders.now) (O.time_of scope.orders.now) scope.bounds.nodes kept.old }
    requires continued { AreContinued (O.runs scope.orders.now) kept.old }
    requires shown { AreShownWell (O.runs scope.orders.now) scope.bounds.shown shown.old.items }
    requires reached { IsText (O.runs scope.orders.now) (ways kept.old.lineage) (texts kept.old.texts) reached }
    ensures shown { AreShownFurther (O.runs scope.entry.orders.now) scope.entry.bounds.shown shown.old.items shown.new.items }
    ensures expanded { IfOk result (IsExpanded (O.runs scope.entry.orders.now) (O.has_key scope.entry.orders.now) (O.time_of scope.entry.orders.now) scope.entry.bounds kept.old kept.new shown.new.items reached.number) }
{
    let node = node_at(scope, room, &kept.lineage, &mut kept.nodes, reached.number)?;
    let Expanded {
        successors,
        ended,
        whole,
    } = scope.orders.expand(scope.alloc, room, node)?;
    let goes_on = ended.is_empty();
    let time = kept.links.time_at(reached.number);
    kept.choices.add(time, reached.number, successors.len());
    let run = ReachedRun {
        lineage: &kept.lineage,
        texts: &kept.texts,
        reached,
    };
    let before = shown.len();
    let told = show_all(scope, run, shown, ended)?;
    if !told {
        return Ok(Some(Stopped::Shown));
    }
    let followed = follow_all(scope, room, kept, reached, successors)?;
    let left = left_out(whole, followed);
    kept.links.settle(reached.number, goes_on & is_whole(left));
    let bytes = bytes_since(shown.as_slice(), before);
    let shown_bytes = kept.shown_bytes.saturating_add(bytes);
    kept.shown_bytes = shown_bytes;
    Ok(left)
}

/// Tells how many nodes were reached, and the time of the one that was expanded last, once for each stride of them.
fn tell_nodes<P: Progress>(progress: &P, before: usize, now: usize, time: u64) {
    if before / STRIDE != now / STRIDE {
        let states = now as u64;
        progress.tell(HowFar::States { states, time });
    }
}

/// The least time of nodes that are pending, and of one at this time and others, which were left open.
fn earliest_open<N: Drop, M: Copy>(kept: &KeptNodes<N, M>, told: Option<u64>, time: u64) -> u64
    ensures told { result ≤ earliest told time }
    ensures pending { All (λ p. result ≤ get_or kept.now.links.times.items p.number 0) kept.now.pending.items }
{
    let first = earliest(told, time);
    earliest_pending(&kept.links, kept.pending.as_slice(), first)
}

/// How a search ends that stops with nodes pending, by the least time of what was left open and that of the node that was taken last.
fn stopped_early<N: Drop, M: Copy>(
    alloc: Global,
    kept: &KeptNodes<N, M>,
    stopped: Option<Stopped>,
    told: Option<u64>,
    time: u64,
) -> SearchOutcome<M>
    requires lineage { IsLineage kept.now.lineage }
    ensures stopped { result.stopped ≡ stopped }
    ensures endless { result.endless ≡ None }
    ensures told { IsNoLater result.followed_before (earliest told time) }
    ensures pending { All (λ p. IsNoLater result.followed_before (get_or kept.now.links.times.items p.number 0)) kept.now.pending.items }
    ensures widest { IfSome result.widest (λ moves. IsWayAmong (ways kept.now.lineage) moves.items) }
{
    SearchOutcome {
        stopped,
        endless: None,
        followed_before: Some(earliest_open(kept, told, time)),
        widest: widest_way(alloc, &kept.lineage, &kept.choices),
    }
}

/// Searches from the first node on, shows what the runs print and how they end, and counts the nodes that are kept.
fn search_from<O: Orders, P: Progress>(
    scope: SearchScope<'_, O>,
    room: &mut O::Room,
    kept: &mut KeptNodes<O::Node, O::Move>,
    shown: &mut Vec<Shown<O::Move, O::End>>,
    nodes: &mut usize,
    progress: &P,
) -> Result<SearchOutcome<O::Move>, AllocError>
    requires room { 0 < scope.bounds.nodes }
    requires none { shown.old.items ≡ [] }
    requires begun { nodes.old ≡ 0 }
    requires kept { IsBegun (O.runs scope.orders.now) (O.has_key scope.orders.now) (O.time_of scope.orders.now) kept.old }
    ensures { IsSearched (O.runs scope.entry.orders.now) (O.time_of scope.entry.orders.now) scope.entry.bounds shown.new.items nodes.new result }
{
    *nodes = kept.lineage.len();
    let mut stopped = None;
    let mut since = None;
    while let Some(reached) = kept.pending.pop() {
        let time = kept.links.time_at(reached.number);
        if kept.bytes() > scope.bounds.bytes {
            let why = Some(Stopped::Bytes);
            return Ok(stopped_early(scope.alloc, kept, why, since, time));
        }
        let left = expand_node(scope, room, kept, shown, reached)?;
        let count = kept.lineage.len();
        tell_nodes(progress, *nodes, count, time);
        *nodes = count;
        if is_full(left) {
            return Ok(stopped_early(scope.alloc, kept, left, since, time));
        }
        stopped = earlier(stopped, left);
        since = earliest_left(since, left, time);
    }
    let endless = find_endless(scope.alloc, &kept.lineage, &kept.links)?;
    let widest = widest_way(scope.alloc, &kept.lineage, &kept.choices);
    Ok(SearchOutcome {
        stopped,
        endless,
        followed_before: since,
        widest,
    })
}

/// Searches from the node at the start of the runs on, where nothing is kept yet.
fn search_all<O: Orders, P: Progress>(
    scope: SearchScope<'_, O>,
    room: &mut O::Room,
    kept: &mut KeptNodes<O::Node, O::Move>,
    shown: &mut Vec<Shown<O::Move, O::End>>,
    nodes: &mut usize,
    progress: &P,
) -> Result<SearchOutcome<O::Move>, AllocError>
    requires room { 0 < scope.bounds.nodes }
    requires none { shown.old.items ≡ [] }
    requires begun { nodes.old ≡ 0 }
    requires bare { IsBare kept.old }
    ensures { IsSearched (O.runs scope.entry.orders.now) (O.time_of scope.entry.orders.now) scope.entry.bounds shown.new.items nodes.new result }
{
    begin(scope, room, kept)?;
    search_from(scope, room, kept, shown, nodes, progress)
}

/// Shows what the runs print and how they end, and counts the nodes that are kept.
fn search<O: Orders, P: Progress>(
    scope: SearchScope<'_, O>,
    shown: &mut Vec<Shown<O::Move, O::End>>,
    nodes: &mut usize,
    progress: &P,
) -> Result<SearchOutcome<O::Move>, AllocError>
    requires room { 0 < scope.bounds.nodes }
    requires none { shown.old.items ≡ [] }
    requires begun { nodes.old ≡ 0 }
    ensures { IsSearched (O.runs scope.entry.orders.now) (O.time_of scope.entry.orders.now) scope.entry.bounds shown.new.items nodes.new result }
{
    let mut room = scope.orders.room(scope.alloc);
    let mut kept = KeptNodes::new(scope.alloc);
    let outcome = search_all(scope, &mut room, &mut kept, shown, nodes, progress);
    drop(kept);
    outcome
}

/// Searches the runs, depth first. Each text and end that is shown is that of the run of the moves beside it, and no two
/// that are shown have one text and one end. Where the search wasn't stopped, every run has a text and an end that are shown.
///
/// What stopped it is the first of these: an expansion wasn't whole, or a node was left out since `bounds.nodes` were
/// reached; the search then goes on with those that were reached, which may still show more. At the first text too many,
/// where `bounds.shown` are shown, once what is kept takes more than `bounds.bytes`, about, and at the first refusal of memory it
/// goes no further, that is what stopped it, and what was shown until then stays. How many nodes were reached is told at times.
///
/// Where it came to its own end it looks for a run from which no end is reached. Nodes that weren't expanded, or not whole,
/// count as such where a run may end.
///
/// Unless memory was refused, it tells a time before which nothing was left out, if something was: the least of those of nodes that weren't
/// expanded, or from which something was left out.
pub fn explore<O: Orders, P: Progress>(
    alloc: Global,
    orders: &O,
    bounds: Bounds,
    progress: &P,
) -> Explored<O::Move, O::End>
    requires room { 0 < bounds.nodes }
    ensures sound { All (IsOfRun (O.runs orders.now)) result.shown.items }
    ensures distinct { AllPairs AreDistinct result.shown.items }
    ensures all { result.stopped ≡ None → AreAllShown (O.runs orders.now) result.shown.items }
    ensures few { result.nodes ≤ bounds.nodes }
    ensures few_shown { length result.shown.items ≤ bounds.shown }
    ensures nodes { result.stopped ≡ Some stop.Nodes → result.nodes ≡ bounds.nodes }
    ensures full { result.stopped ≡ Some stop.Shown → length result.shown.items ≡ bounds.shown }
    ensures counted { AreCounted (O.runs orders.now) result.shown.items result.stopped result.nodes }
    ensures endless { IfSome result.endless (λ moves. IsEndless (O.runs orders.now) moves.items) }
    ensures before { (result.stopped ≡ Some stop.Memory) ⊎ AreFollowedBefore (O.runs orders.now) (O.time_of orders.now) result.shown.items result.followed_before }
    ensures widest { IfSome result.widest (λ moves. HasNode (O.runs orders.now) moves.items) }
{
    let mut shown = Vec::new(alloc);
    let mut nodes = 0;
    let scope = SearchScope {
        alloc,
        orders,
        bounds,
    };
    match search(scope, &mut shown, &mut nodes, progress) {
        Ok(
            SearchOutcome {
                stopped,
                endless,
                followed_before,
                widest,
            },
        ) => Explored {
            shown,
            stopped,
            nodes,
            endless,
            followed_before,
            widest,
        },
        Err(_) => Explored {
            shown,
            stopped: Some(Stopped::Memory),
            nodes,
            endless: None,
            followed_before: None,
            widest: None,
        },
    }
}
