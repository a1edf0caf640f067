//! A run from which no end is reached.
//!
//! A node has a mark where an end may be reached from it. Marks begin at the nodes at which a run may end, for all that is
//! known, and go back by steps and edges. That none was left out is seen by one more look at each step and each edge.
ghost use Rattle.std.specs.Prelude.{◌≡◌, ◌<◌, ℕ, length, true, get_or, IsTrue, IfOk, IfSome};
ghost use Rattle.std.specs.List.{All};
ghost use Rattle.explore.specs.Lineage.{ways, IsLineage};
ghost use Rattle.explore.specs.Links.{AreClosed, GoesBack, IsNeverEnding, IsRunStep, IsUnmarked};
ghost use Rattle.explore.specs.Pieces.{pieces};

use crate::lineage::Lineage;
use crate::links::{Links, SearchEdge};
use sharing::narrow;
use std::alloc::{AllocError, Global};

/// The edges that lead to each node: the first of them, and behind each edge the next one that leads to the same node.
#[derive(Drop)]
struct Incoming {
    first: Vec<Option<u32>>,
    next: Vec<Option<u32>>,
}

/// What stands at a place, where there is such a place.
fn edge_at(edges: &[Option<u32>], at: usize) -> Option<usize> {
    if at >= edges.len() {
        return None;
    }
    match edges[at] {
        Some(edge) => Some(edge as usize),
        None => None,
    }
}

/// The edges that lead to each of so many nodes.
fn incoming_of(alloc: Global, edges: &[SearchEdge], count: usize) -> Result<Incoming, AllocError> {
    let mut first = Vec::new(alloc);
    first.resize(count, None)?;
    let mut next = Vec::with_capacity(alloc, edges.len())?;
    for at in 0..edges.len() {
        let to = edges[at].to as usize;
        if to < first.len() {
            next.push(first[to])?;
            first[to] = Some(narrow(at)?);
        }
    }
    Ok(Incoming { first, next })
}

/// Whether a node has a mark. One that isn't there has.
fn is_marked(marks: &[bool], number: usize) -> bool
    ensures { result ≡ get_or marks.now number true }
{
    if number < marks.len() {
        marks[number]
    } else {
        true
    }
}

/// Marks a node, and keeps its number where it had no mark.
fn mark(marks: &mut [bool], pending: &mut Vec<usize>, number: usize) -> Result<(), AllocError> {
    if !is_marked(marks, number) {
        pending.push(number)?;
        marks[number] = true;
    }
    Ok(())
}

/// Marks the nodes from which a step or an edge leads to this one.
fn mark_sources<M: Copy>(
    lineage: &Lineage<M>,
    edges: &[SearchEdge],
    incoming: &Incoming,
    marks: &mut [bool],
    pending: &mut Vec<usize>,
    to: usize,
) -> Result<(), AllocError>
    requires lineage { IsLineage lineage.now }
{
    if to > 0 && to < lineage.len() {
        let (from, _) = lineage.last_step(to);
        mark(marks, pending, from)?;
    }
    let mut next = edge_at(&incoming.first, to);
    for _ in 0..edges.len() {
        let at = match next {
            Some(at) => at,
            None => return Ok(()),
        };
        if at < edges.len() {
            mark(marks, pending, edges[at].from as usize)?;
        }
        next = edge_at(&incoming.next, at);
    }
    Ok(())
}

/// Marks the nodes from which an end may be reached.
fn marks_of<M: Copy>(
    alloc: Global,
    lineage: &Lineage<M>,
    links: &Links,
) -> Result<Vec<bool>, AllocError>
    requires lineage { IsLineage lineage.now }
{
    let incoming = incoming_of(alloc, &links.edges, links.may_end.len())?;
    let mut marks = Vec::new(alloc);
    marks.extend_from_slice(&links.may_end)?;
    let mut pending = Vec::new(alloc);
    for number in 0..marks.len() {
        if marks[number] {
            pending.push(number)?;
        }
    }
    for _ in 0..marks.len() {
        match pending.pop() {
            Some(to) => {
                mark_sources(
                    lineage,
                    &links.edges,
                    &incoming,
                    &mut marks,
                    &mut pending,
                    to,
                )?
            }
            None => return Ok(marks),
        }
    }
    Ok(marks)
}

/// Whether a mark at the end of a step or of an edge stands at its beginning too.
fn goes_back(marks: &[bool], from: usize, to: usize) -> bool
    ensures { IsTrue result → IsUnmarked marks.now from → IsUnmarked marks.now to }
{
    is_marked(marks, from) | !is_marked(marks, to)
}

/// Whether a node at which a run may end has a mark.
fn has_mark(links: &Links, marks: &[bool], number: usize) -> bool
    ensures { IsTrue result → IsUnmarked marks.now number → IsUnmarked links.now.may_end.items number }
{
    is_marked(marks, number) | !links.may_end_at(number)
}

/// Whether each node at which a run may end has a mark.
fn are_ends_marked(links: &Links, marks: &[bool]) -> bool
    ensures { IsTrue result → (k : ℕ) → k < length marks.now → IsUnmarked marks.now k → IsUnmarked links.now.may_end.items k }
{
    for number in 0..marks.len() {
        if !has_mark(links, marks, number) {
            return false;
        }
    }
    true
}

/// Whether marks go back by all steps.
fn are_steps_marked<M: Copy>(lineage: &Lineage<M>, marks: &[bool]) -> bool
    requires lineage { IsLineage lineage.now }
    ensures { IsTrue result → (from to : ℕ) → to < length (ways lineage.now) → IsRunStep (pieces lineage.now.steps) from to → IsUnmarked marks.now from → IsUnmarked marks.now to }
{
    for number in 1..lineage.len() {
        let (from, _) = lineage.last_step(number);
        if !goes_back(marks, from, number) {
            return false;
        }
    }
    true
}

/// Whether marks go back by all edges.
fn are_edges_marked(edges: &[SearchEdge], marks: &[bool]) -> bool
    ensures { IsTrue result → All (GoesBack marks.now) edges.now }
{
    for edge in edges {
        if !goes_back(marks, edge.from as usize, edge.to as usize) {
            return false;
        }
    }
    true
}

/// Whether no end is reached from a node without a mark.
fn are_closed<M: Copy>(lineage: &Lineage<M>, links: &Links, marks: &[bool]) -> bool
    requires lineage { IsLineage lineage.now }
    ensures { IsTrue result → AreClosed (pieces lineage.now.steps) links.now marks.now }
{
    if !are_ends_marked(links, marks) {
        return false;
    }
    if !are_steps_marked(lineage, marks) {
        return false;
    }
    are_edges_marked(&links.edges, marks)
}

/// The first node without a mark.
fn first_unmarked(marks: &[bool]) -> Option<usize>
    ensures { IfSome result (IsUnmarked marks.now) }
{
    for number in 0..marks.len() {
        if !is_marked(marks, number) {
            return Some(number);
        }
    }
    None
}

/// The moves of the first run whose node has no mark, where no end is reached from such a node.
fn unmarked_way<M: Copy>(
    alloc: Global,
    lineage: &Lineage<M>,
    links: &Links,
    marks: &[bool],
) -> Result<Option<Vec<M>>, AllocError>
    requires lineage { IsLineage lineage.now }
    requires known { (k : ℕ) → IsUnmarked links.now.may_end.items k → k < length (ways lineage.now) }
    ensures { IfOk result (λ found. IfSome found (λ moves. IsNeverEnding lineage.now links.now moves.items)) }
{
    let number = match first_unmarked(marks) {
        Some(number) => number,
        None => return Ok(None),
    };
    if !are_closed(lineage, links, marks) {
        return Ok(None);
    }
    let moves = lineage.way(alloc, number)?;
    Ok(Some(moves))
}

/// The moves of a run from which no end is reached, where there is one: the first that was reached.
pub(crate) fn find_endless<M: Copy>(
    alloc: Global,
    lineage: &Lineage<M>,
    links: &Links,
) -> Result<Option<Vec<M>>, AllocError>
    requires lineage { IsLineage lineage.now }
    requires known { (k : ℕ) → IsUnmarked links.now.may_end.items k → k < length (ways lineage.now) }
    ensures { IfOk result (λ found. IfSome found (λ moves. IsNeverEnding lineage.now links.now moves.items)) }
{
    let marks = marks_of(alloc, lineage, links)?;
    unmarked_way(alloc, lineage, links, &marks)
}
