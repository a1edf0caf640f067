//! What an observer sees of the ways from a node.
ghost use Rattle.std.specs.Prelude.{◌≡◌, ◌≢◌, ◌↔◌, [], true, false, IfOk, IsTrue};
ghost use Rattle.std.specs.List.{All};
ghost use Rattle.model.specs.declared.end.Why.TheVariants.{Finish};
ghost use Rattle.model.specs.declared.end.End.TheVariants.{Stopped};
ghost use Rattle.model.specs.States.{State};
ghost use Rattle.looseruns.specs.ObservedJournals.{Observer, seen_at};
ghost use Rattle.looseruns.specs.ObservedMoves.{StaysAtEntry, StaysInTime, PassesTimeFirst, seen_at_move, seen_first};
ghost use Rattle.lawful.specs.ObservedWays.{AreEach, IsEndSeen, IsNextSeen, IsToldOn};

use crate::expand::LooseWays;
use crate::retold::{NextNode, ObservedPath, ObservedWays, WayTelling, retold};
use explore::{EndedPath, Successor};
use loose::transition::LooseTransition;
use looseruns::observed_end::ObservedEnd;
use model::end::{End, Why};
use model::entry::Entry;
use std::alloc::{AllocError, Global};

// Whether an entry lets time pass. Else nothing is seen where it is taken.
fn is_advance(entry: Entry) -> bool
    ensures stays { result ≡ false → StaysAtEntry entry }
    ensures seen { result ≡ true → (observe : Observer) (s : State) → seen_at observe s entry ≡ observe s }
{
    match entry {
        Entry::Advance(_) => true,
        _ => false,
    }
}

/// Whether a transition lets time pass. Else nothing is seen where it is taken.
pub(crate) fn passes_time(transition: LooseTransition) -> bool
    ensures stays { result ≡ false → StaysInTime transition }
    ensures seen { result ≡ true → (observe : Observer) (s : State) → seen_at_move observe s transition ≡ observe s }
{
    match transition {
        LooseTransition::Change(entry) => is_advance(entry),
        _ => false,
    }
}

// Whether time passes at none of these transitions.
fn stay_in_time(moves: &[LooseTransition]) -> bool
    ensures { result ≡ true → All StaysInTime moves.now }
{
    for transition in moves {
        if passes_time(*transition) {
            return false;
        }
    }
    true
}

// Whether time passes on a way at its first transition alone, or nowhere.
fn passes_time_first(moves: &[LooseTransition]) -> bool
    ensures { result ≡ true → PassesTimeFirst moves.now }
{
    match moves.split_first() {
        Some((_, more)) => stay_in_time(more),
        None => true,
    }
}

// Whether a way begins where time passes, and something may be seen.
fn begins_with_time(moves: &[LooseTransition]) -> bool
    ensures seen { result ≡ true → (observe : Observer) (s : State) → seen_first observe s moves.now ≡ observe s }
    ensures unseen { result ≡ false → (observe : Observer) (s : State) → seen_first observe s moves.now ≡ [] }
{
    match moves.split_first() {
        Some((first, _)) => passes_time(*first),
        None => false,
    }
}

// What is told of a way: its lines, and before them what is seen where it begins. Fails where time passes later on it, as it does on no way of
// a walk that stops where time passes.
fn told_on(
    alloc: Global,
    seen: &[u8],
    moves: &[LooseTransition],
    printed: Vec<u8>,
) -> Result<Vec<u8>, AllocError>
    ensures first { IfOk result (λ told. PassesTimeFirst moves.now) }
    ensures told { IfOk result (λ told. IsToldOn seen.now moves.now printed.items told.items) }
{
    if !passes_time_first(moves) {
        return Err(AllocError);
    }
    if !begins_with_time(moves) {
        return Ok(printed);
    }
    let mut told = Vec::new(alloc);
    told.extend_from_slice(seen)?;
    told.extend_from_slice(&printed)?;
    Ok(told)
}

// Whether a run has finished at this end.
fn is_finish(end: End) -> bool
    ensures { IsTrue result ↔ (end ≡ Stopped Finish) }
{
    end == End::Stopped(Why::Finish)
}

// What is seen at an end to which these moves lead from a state of which this is seen: nothing where the run has finished. Fails where moves lead to
// another end, as none does from a node.
fn seen_at_end(
    alloc: Global,
    seen: &[u8],
    end: End,
    moves: &[LooseTransition],
) -> Result<Vec<u8>, AllocError>
    ensures finished { IfOk result (λ sight. end ≡ Stopped Finish → sight.items ≡ []) }
    ensures here { IfOk result (λ sight. end ≢ Stopped Finish → (moves.now ≡ []) × (sight.items ≡ seen.now)) }
{
    let mut sight = Vec::new(alloc);
    if is_finish(end) {
        return Ok(sight);
    }
    if !moves.is_empty() {
        return Err(AllocError);
    }
    sight.extend_from_slice(seen)?;
    Ok(sight)
}

// How ways are told from a state of which this is seen.
#[derive(Clone, Copy)]
struct SeenFrom<'a> {
    seen: &'a [u8],
}

impl<'a> WayTelling for SeenFrom<'a> {
    type End = End;

    ghost tells_next = { λ from. IsNextSeen from.seen.now };

    ghost tells_end = { λ from. IsEndSeen from.seen.now };

    // A successor of a state of which this is seen.
    fn tell_next<'d>(&self, alloc: Global, next: NextNode<'d>) -> Result<NextNode<'d>, AllocError> {
        let Successor {
            node,
            printed,
            moves,
        } = next;
        let told = told_on(alloc, self.seen, &moves, printed)?;
        Ok(Successor {
            node,
            printed: told,
            moves,
        })
    }

    // A way to an end from a state of which this is seen. Fails where time passes on it, as it does on no way to an end.
    fn tell_end(
        &self,
        alloc: Global,
        ended: EndedPath<LooseTransition, End>,
    ) -> Result<ObservedPath, AllocError>
        ensures { IfOk result (IsEndSeen self.now.seen.now ended) }
    {
        let EndedPath {
            printed,
            end,
            moves,
        } = ended;
        if !stay_in_time(&moves) {
            return Err(AllocError);
        }
        let sight = seen_at_end(alloc, self.seen, end, &moves)?;
        Ok(EndedPath {
            printed,
            end: ObservedEnd { end, seen: sight },
            moves,
        })
    }
}

/// What an observer sees of the ways from a node, where this is what it sees of the node's state: it stands before the lines of a way that begins
/// where time passes, and at an end that a run has at the node. Nothing is seen where the run has finished (17.4.1).
pub(crate) fn observed_ways<'d>(
    alloc: Global,
    seen: &[u8],
    ways: LooseWays<'d>,
) -> Result<ObservedWays<'d>, AllocError>
    ensures nexts { IfOk result (λ observed. AreEach (IsNextSeen seen.now) ways.entry.successors.items observed.successors.items) }
    ensures ends { IfOk result (λ observed. AreEach (IsEndSeen seen.now) ways.entry.ended.items observed.ended.items) }
    ensures whole { IfOk result (λ observed. observed.whole ≡ ways.entry.whole) }
{
    retold(alloc, &SeenFrom { seen }, ways)
}
