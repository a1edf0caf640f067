//! The loose runs of a design, as a search follows them and tells of them.
ghost use Rattle.std.specs.Prelude.{◌≡◌, List, [], IfOk};
ghost use Rattle.model.specs.States.{start};
ghost use Rattle.regions.specs.Machine.{state_at};
ghost use Rattle.design.specs.Compiled.{design_of};
ghost use Rattle.explore.specs.Search.{IsReached};
ghost use Rattle.loose.specs.declared.transition.LooseTransition.{LooseTransition as Transition};
ghost use Rattle.loose.specs.Classes.{class_in};
ghost use Rattle.wavetexts.specs.Reading.{text_with};
ghost use Rattle.lawful.specs.ArrangedNodes.{tail_at};
ghost use Rattle.lawful.specs.Told.{AreWaysFrom};
ghost use Rattle.lawful.specs.LooseNodes.{AreBounded, IsExpandedAt, searched_runs};

use crate::again::weight;
use crate::expand::{ExpandScope, LooseWays, expand};
use crate::node::LooseNode;
use crate::search_room::SearchRoom;
use crate::telling::RunTelling;
use design::Design;
use explore::{Expanded, Orders};
use loose::transition::LooseTransition;
use model::end::Limits;
use regions::Machine;
use settling::AnalyzedDesign;
use std::alloc::{AllocError, Global};
use wavetexts::TextTail;

/// The start of a design's run, on the heap.
pub(crate) fn start_of<'d>(
    alloc: Global,
    design: &'d Design,
) -> Result<Box<Machine<'d>>, AllocError>
    ensures code { IfOk result (λ machine. machine.value.code ≡ design.now) }
    ensures state { IfOk result (λ machine. state_at machine.value ≡ start (design_of design.now)) }
    ensures lines { IfOk result (λ machine. machine.value.lines ≡ []) }
{
    let machine = Machine::start(alloc, design)?;
    let boxed = Box::new(alloc, machine)?;
    Ok(boxed)
}

/// The loose runs of a design in time, by these classes of its registers, and what is told of them.
#[derive(Drop)]
pub(crate) struct LooseRuns<'a, 'd, T> {
    pub(crate) analyzed_design: AnalyzedDesign<'d>,
    pub(crate) classes: Vec<u32>,
    pub(crate) limits: Limits,
    pub(crate) telling: &'a T,
    ghost bounded: { AreBounded limits },
}

impl<'a, 'd, T: RunTelling> LooseRuns<'a, 'd, T> {
    /// The loose runs of a design within limits, by these classes of its registers, and what is told of them.
    pub(crate) fn new(
        analyzed_design: AnalyzedDesign<'d>,
        classes: Vec<u32>,
        limits: Limits,
        telling: &'a T,
    ) -> LooseRuns<'a, 'd, T>
        requires { AreBounded limits }
        ensures design { result.analyzed_design ≡ analyzed_design.entry }
        ensures classes { result.classes ≡ classes }
        ensures limits { result.limits ≡ limits }
        ensures telling { result.telling.now ≡ telling.now }
    {
        LooseRuns {
            analyzed_design,
            classes,
            limits,
            telling,
        }
    }

    // Follows the ways that go on loosely from a node in time, with the combinational processes that were found once.
    fn ways(
        &self,
        alloc: Global,
        room: &mut SearchRoom<'d>,
        node: LooseNode<'d>,
    ) -> Result<LooseWays<'d>, AllocError>
        requires { IsReached (searched_runs self.now.analyzed_design (class_in self.now.classes.items) self.now.limits) node }
        ensures { IfOk result (IsExpandedAt (class_in self.now.classes.items) node.entry.machine.value.code self.now.limits (state_at node.entry.machine.value)) }
    {
        let scope = ExpandScope {
            alloc,
            classes: self.classes.as_slice(),
            limits: self.limits,
            stops: self.telling.stops(),
        };
        expand(scope, &self.analyzed_design, room, node.machine)
    }

    // Follows these ways, and tells of them, where this of the node's text isn't in order for good, and this is told of its state.
    fn told_ways(
        &self,
        alloc: Global,
        room: &mut SearchRoom<'d>,
        tail: &TextTail,
        seen: &[u8],
        node: LooseNode<'d>,
    ) -> Result<Expanded<LooseNode<'d>, LooseTransition, T::End>, AllocError>
        requires { IsReached (T.runs self.now.telling.now self.now.analyzed_design (class_in self.now.classes.items) self.now.limits) node }
        ensures { IfOk result (λ told. (run : List Transition) → (T.runs self.now.telling.now self.now.analyzed_design (class_in self.now.classes.items) self.now.limits).Stands node.entry run → text_with [] tail.now ≡ tail_at node.entry → seen.now ≡ T.sight self.now.telling.now (state_at node.entry.machine.value) → AreWaysFrom (T.runs self.now.telling.now self.now.analyzed_design (class_in self.now.classes.items) self.now.limits) run told) }
    {
        let ways = self.ways(alloc, room, node)?;
        let told = self.telling.tell(alloc, tail, seen, ways)?;
        Ok(told)
    }
}

impl<'a, 'd, T: RunTelling> Orders for LooseRuns<'a, 'd, T> {
    type Move = LooseTransition;

    type Node = LooseNode<'d>;

    type End = T::End;

    type Room = SearchRoom<'d>;

    ghost runs = { λ o. T.runs o.telling.now o.analyzed_design (class_in o.classes.items) o.limits };

    ghost has_key = { λ o node key. T.is_key o.telling.now (class_in o.classes.items) node key };

    ghost time_of = { λ _ node. node.machine.value.core.time };

    // The machine at the start of the design's run.
    fn start(&self, alloc: Global) -> Result<LooseNode<'d>, AllocError> {
        let machine = start_of(alloc, self.analyzed_design.design())?;
        machine.stands();
        Ok(LooseNode {
            machine,
            tail: TextTail::new(alloc),
        })
    }

    fn room(&self, alloc: Global) -> SearchRoom<'d> {
        SearchRoom::new(alloc)
    }

    // Follows the ways that go on loosely from a node, up to the next choices or to where time passes, and tells of them.
    fn expand(
        &self,
        alloc: Global,
        room: &mut SearchRoom<'d>,
        node: LooseNode<'d>,
    ) -> Result<Expanded<LooseNode<'d>, LooseTransition, T::End>, AllocError> {
        let seen = self.telling.see(alloc, &node.machine)?;
        let tail = node.tail.copied(alloc)?;
        self.told_ways(alloc, room, &tail, &seen, node)
    }

    fn key(
        &self,
        room: &mut SearchRoom<'d>,
        key: &mut Vec<u8>,
        node: &LooseNode<'d>,
    ) -> Result<(), AllocError> {
        self.telling.key(room, key, node, &self.classes)
    }

    fn time(&self, node: &LooseNode<'d>) -> u64 {
        node.machine.time()
    }

    fn weight(&self, node: &LooseNode<'d>) -> usize {
        weight(&node.machine)
            .saturating_add(node.tail.held.len())
            .saturating_add(node.tail.part.len())
    }

    // The machine of a node after these further transitions; the node's own stays where it stands.
    fn again(
        &self,
        alloc: Global,
        room: &mut SearchRoom<'d>,
        from: &LooseNode<'d>,
        moves: &[LooseTransition],
    ) -> Result<LooseNode<'d>, AllocError> {
        let node = self.telling.again(alloc, room, from, &self.classes, moves)?;
        Ok(node)
    }

    fn same_end(&self, a: &T::End, b: &T::End) -> bool {
        self.telling.is_one_end(a, b)
    }

    ghost silent = { λ o. T.silent o.telling.now o.analyzed_design (class_in o.classes.items) o.limits };

    ghost alike = { λ o i j is. T.alike o.telling.now o.analyzed_design (class_in o.classes.items) o.limits i j is };

    ghost keyed = { λ o a b i j key of_a of_b at bt text. T.keyed o.telling.now o.analyzed_design (class_in o.classes.items) o.limits a b i j key of_a of_b at bt text };
}
