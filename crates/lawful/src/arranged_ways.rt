//! What is told of the ways from a node where what is printed at one time is compared in any order: the lines of each time in order.
ghost use Rattle.std.specs.Prelude.{◌≡◌, [], IfOk};
ghost use Rattle.wavetexts.specs.Reading.{text_with};
ghost use Rattle.lawful.specs.ArrangedNodes.{IsNextArranged, IsPathArranged, registers_seen};
ghost use Rattle.lawful.specs.ObservedWays.{AreEach};

use crate::node::LooseNode;
use crate::retold::{NextNode, ObservedPath, ObservedWays, WayTelling, retold};
use explore::{EndedPath, Successor};
use looseruns::observed_end::ObservedEnd;
use observers::Observing;
use std::alloc::{AllocError, Global};
use wavetexts::TextTail;

/// How many registers are observed.
pub(crate) fn registers_of(observing: &Observing) -> usize
    ensures { result ≡ registers_seen observing.now }
{
    match observing {
        Observing::Lines => 0,
        Observing::Registers(registers) => registers.len(),
    }
}

// How ways are told before an observer of so many registers, from a node where this of the text isn't in order for good.
#[derive(Clone, Copy)]
struct InOrder<'a> {
    registers: usize,
    tail: &'a TextTail,
}

impl<'a> WayTelling for InOrder<'a> {
    type End = ObservedEnd;

    ghost tells_next = { λ a. IsNextArranged a.registers (text_with [] a.tail.now) };

    ghost tells_end = { λ a. IsPathArranged a.registers (text_with [] a.tail.now) };

    // A successor of a node where this of the text isn't in order for good.
    fn tell_next<'d>(&self, alloc: Global, next: NextNode<'d>) -> Result<NextNode<'d>, AllocError> {
        let mut text = self.tail.copied(alloc)?;
        let done = text.read(alloc, self.registers, &next.printed)?;
        let Successor { node, moves, .. } = next;
        let LooseNode { machine, .. } = node;
        Ok(Successor {
            node: LooseNode {
                machine,
                tail: text,
            },
            printed: done,
            moves,
        })
    }

    // A way to an end from a node where this of the text isn't in order for good: what is left of it is told with what is seen at the end.
    fn tell_end(&self, alloc: Global, ended: ObservedPath) -> Result<ObservedPath, AllocError>
        ensures { IfOk result (IsPathArranged self.now.registers (text_with [] self.now.tail.now) ended) }
    {
        let mut text = self.tail.copied(alloc)?;
        let done = text.read(alloc, self.registers, &ended.printed)?;
        let seen = text.finish(alloc, self.registers, &ended.end.seen)?;
        let EndedPath { end, moves, .. } = ended;
        let ObservedEnd { end, .. } = end;
        Ok(EndedPath {
            printed: done,
            end: ObservedEnd { end, seen },
            moves,
        })
    }
}

/// The ways from a node before an observer of so many registers, where this of the text isn't in order for good: what they print and what is seen
/// on them is told once it is in order for good, and what isn't stands in the nodes to which they lead, and at the ends.
pub(crate) fn arranged_ways<'d>(
    alloc: Global,
    registers: usize,
    tail: &TextTail,
    ways: ObservedWays<'d>,
) -> Result<ObservedWays<'d>, AllocError>
    ensures nexts { IfOk result (λ arranged. AreEach (IsNextArranged registers (text_with [] tail.now)) ways.entry.successors.items arranged.successors.items) }
    ensures ends { IfOk result (λ arranged. AreEach (IsPathArranged registers (text_with [] tail.now)) ways.entry.ended.items arranged.ended.items) }
    ensures whole { IfOk result (λ arranged. arranged.whole ≡ ways.entry.whole) }
{
    retold(alloc, &InOrder { registers, tail }, ways)
}
