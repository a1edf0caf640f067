//! The newest of some nodes, each with the number of its run.
ghost use Rattle.std.specs.Prelude.{◌≡◌, ◌++◌, [], ◌∷◌, IfSome, OnOk};
ghost use Rattle.std.specs.List.{Any};
ghost use Rattle.sharing.specs.Parts.{Extends};
ghost use Rattle.explore.specs.Grown.{IsLastPart};
ghost use Rattle.explore.specs.Placed.{IsNodeAt};

use std::alloc::{AllocError, Global};
use std::collections::VecDeque;

/// A node, the number of the run at which it stands, and about how many bytes it takes.
#[derive(Drop)]
pub(crate) struct Placed<N> {
    pub(crate) number: usize,
    pub(crate) node: N,
    pub(crate) weight: usize,
}

/// The newest nodes, and about how many bytes they take together.
#[derive(Drop)]
pub(crate) struct Recent<N> {
    pub(crate) nodes: VecDeque<Placed<N>>,
    pub(crate) weight: usize,
}

/// How many nodes are kept at most, and how many bytes they may take. The newest is kept however many it takes.
#[derive(Clone, Copy)]
pub(crate) struct Most {
    pub(crate) nodes: usize,
    pub(crate) bytes: usize,
}

impl<N: Drop> Recent<N> {
    /// No nodes.
    pub(crate) fn new(alloc: Global) -> Self
        ensures { result.nodes.items ≡ [] }
    {
        Recent {
            nodes: VecDeque::new(alloc),
            weight: 0,
        }
    }

    // Whether the oldest node has to go.
    fn is_over(&self, most: Most) -> bool {
        let count = self.nodes.len();
        count > 1 && (count > most.nodes || self.weight > most.bytes)
    }

    // Drops the oldest node.
    fn drop_oldest(&mut self)
        ensures { IsLastPart self.new.nodes.items self.old.nodes.items }
    {
        match self.nodes.pop_front() {
            Some(placed) => self.weight = self.weight.saturating_sub(placed.weight),
            None => {}
        }
    }

    // Drops the oldest nodes while there are too many.
    fn trim(&mut self, most: Most)
        ensures { IsLastPart self.new.nodes.items self.old.nodes.items }
    {
        for _ in 0..self.nodes.len() {
            if !self.is_over(most) {
                return;
            }
            self.drop_oldest();
        }
    }

    /// Adds a node, for which the oldest ones go where there are too many.
    pub(crate) fn push(&mut self, placed: Placed<N>, most: Most) -> Result<(), AllocError>
        ensures { OnOk result (IsLastPart self.new.nodes.items (self.old.nodes.items ++ placed ∷ [])) }
    {
        let weight = self.weight.saturating_add(placed.weight);
        self.nodes.push_back(placed)?;
        self.weight = weight;
        self.trim(most);
        Ok(())
    }

    /// The number of the newest node's run.
    pub(crate) fn newest(&self) -> Option<usize> {
        match self.nodes.back() {
            Some(placed) => Some(placed.number),
            None => None,
        }
    }

    /// Takes the newest node out. The answer is the node, where it is that of the run with this number.
    pub(crate) fn take(&mut self, number: usize) -> Option<N>
        ensures rest { Extends self.new.nodes.items self.old.nodes.items }
        ensures node { IfSome result (λ node. Any (IsNodeAt number node) self.old.nodes.items) }
    {
        match self.nodes.pop_back() {
            Some(placed) => {
                let Placed {
                    number: at,
                    node,
                    weight,
                } = placed;
                self.weight = self.weight.saturating_sub(weight);
                if at == number { Some(node) } else { None }
            }
            None => None,
        }
    }
}
