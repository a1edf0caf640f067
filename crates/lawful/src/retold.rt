//! The ways from a node, each told anew.
ghost use Rattle.std.specs.Prelude.{◌≡◌, IfOk};
ghost use Rattle.lawful.specs.ObservedWays.{AreEach};

use crate::node::LooseNode;
use explore::{EndedPath, Expanded, Successor};
use loose::transition::LooseTransition;
use looseruns::observed_end::ObservedEnd;
use std::alloc::{AllocError, Global};

/// A node to which transitions lead, with what is told of them.
pub(crate) type NextNode<'d> = Successor<LooseNode<'d>, LooseTransition>;

/// A way to an end before an observer.
pub(crate) type ObservedPath = EndedPath<LooseTransition, ObservedEnd>;

/// What following the ways from a node has come to before an observer.
pub(crate) type ObservedWays<'d> = Expanded<LooseNode<'d>, LooseTransition, ObservedEnd>;

/// How ways from a node are told.
pub(crate) trait WayTelling {
    ghost use Rattle.explore.specs.declared.EndedPath.{EndedPath as Path};
    ghost use Rattle.explore.specs.declared.Successor.{Successor as Next};
    ghost use Rattle.loose.specs.declared.transition.LooseTransition.{LooseTransition as Transition};
    ghost use Rattle.looseruns.specs.ObservedJournals.{SeenEnd};
    ghost use Rattle.lawful.specs.declared.node.LooseNode.{LooseNode as Node};

    /// What was told of ends before.
    type End: Drop;

    /// A successor is told so.
    ghost tells_next: { Self → Next Node Transition → Next Node Transition → Type 0 };

    /// A way to an end is told so.
    ghost tells_end: { Self → Path Transition Self.End → Path Transition SeenEnd → Type 0 };

    /// A successor, told anew. Fails where memory is refused.
    fn tell_next<'d>(&self, alloc: Global, next: NextNode<'d>) -> Result<NextNode<'d>, AllocError>
        ensures { IfOk result (tells_next self.now next.entry) };

    /// A way to an end, told anew. Fails where memory is refused.
    fn tell_end(
        &self,
        alloc: Global,
        ended: EndedPath<LooseTransition, Self::End>,
    ) -> Result<ObservedPath, AllocError>
        ensures { IfOk result (tells_end self.now ended) };
}

// Successors, each told anew.
fn retold_nexts<'d, T: WayTelling>(
    alloc: Global,
    telling: &T,
    successors: Vec<NextNode<'d>>,
) -> Result<Vec<NextNode<'d>>, AllocError>
    ensures { IfOk result (λ told. AreEach (T.tells_next telling.now) successors.entry.items told.items) }
{
    let mut told = Vec::new(alloc);
    for next in successors {
        let one = telling.tell_next(alloc, next)?;
        told.push(one)?;
    }
    Ok(told)
}

// Ways to ends, each told anew.
fn retold_ends<T: WayTelling>(
    alloc: Global,
    telling: &T,
    ended: Vec<EndedPath<LooseTransition, T::End>>,
) -> Result<Vec<ObservedPath>, AllocError>
    ensures { IfOk result (λ told. AreEach (T.tells_end telling.now) ended.items told.items) }
{
    let mut told = Vec::new(alloc);
    for path in ended {
        let one = telling.tell_end(alloc, path)?;
        told.push(one)?;
    }
    Ok(told)
}

/// The ways from a node, each told anew. Fails where memory is refused.
pub(crate) fn retold<'d, T: WayTelling>(
    alloc: Global,
    telling: &T,
    ways: Expanded<LooseNode<'d>, LooseTransition, T::End>,
) -> Result<ObservedWays<'d>, AllocError>
    ensures nexts { IfOk result (λ told. AreEach (T.tells_next telling.now) ways.entry.successors.items told.successors.items) }
    ensures ends { IfOk result (λ told. AreEach (T.tells_end telling.now) ways.entry.ended.items told.ended.items) }
    ensures whole { IfOk result (λ told. told.whole ≡ ways.entry.whole) }
{
    let Expanded {
        successors,
        ended,
        whole,
    } = ways;
    let ended = retold_ends(alloc, telling, ended)?;
    let successors = retold_nexts(alloc, telling, successors)?;
    Ok(Expanded {
        successors,
        ended,
        whole,
    })
}
