//! What is known of each node besides its run: its time, whether a run may come to an end at it, and the nodes to which its ways lead.
ghost use Rattle.std.specs.Prelude.{◌≡◌, ◌⊎◌, ℕ, [], ◌∷◌, ◌++◌, true, false, get_or, None, IsTrue, IfOk, OnOk};
ghost use Rattle.sharing.specs.Parts.{Extends};
ghost use Rattle.explore.specs.Links.{IsEdgeTo};

use sharing::narrow;
use std::alloc::{AllocError, Global};

/// What is known of each node besides its run.
#[derive(Drop)]
pub(crate) struct Links {
    /// The edges to nodes that were there before. The step of a run leads to each other node.
    pub(crate) edges: Vec<SearchEdge>,
    /// Whether a run may come to an end at a node, for all that is known, by the numbers of the nodes.
    pub(crate) may_end: Vec<bool>,
    /// The times of the nodes, by their numbers.
    pub(crate) times: Vec<u64>,
}

/// A way leads from one node to another that was there before, by their numbers.
#[derive(Clone, Copy)]
pub(crate) struct SearchEdge {
    pub(crate) from: u32,
    pub(crate) to: u32,
}

impl Links {
    /// No nodes.
    pub(crate) fn new(alloc: Global) -> Self
        ensures edges { result.edges.items ≡ [] }
        ensures may_end { result.may_end.items ≡ [] }
        ensures times { result.times.items ≡ [] }
    {
        Links {
            edges: Vec::new(alloc),
            may_end: Vec::new(alloc),
            times: Vec::new(alloc),
        }
    }

    /// About how many bytes they take.
    pub(crate) fn bytes(&self) -> usize {
        let edges = self
            .edges
            .capacity()
            .saturating_mul(size_of::<SearchEdge>());
        let times = self.times.capacity().saturating_mul(size_of::<u64>());
        edges
            .saturating_add(self.may_end.capacity())
            .saturating_add(times)
    }

    /// Adds a node of which nothing but its time is known yet.
    pub(crate) fn add(&mut self, time: u64) -> Result<(), AllocError>
        ensures edges { OnOk result (self.new.edges.items ≡ self.old.edges.items) }
        ensures may_end { OnOk result (self.new.may_end.items ≡ self.old.may_end.items ++ true ∷ []) }
        ensures times { OnOk result (self.new.times.items ≡ self.old.times.items ++ time ∷ []) }
    {
        self.may_end.push(true)?;
        self.times.push(time)?;
        Ok(())
    }

    /// The time of the node with a number, and 0 of one that isn't there.
    pub(crate) fn time_at(&self, number: usize) -> u64
        ensures { result ≡ get_or self.now.times.items number 0 }
    {
        if number < self.times.len() {
            self.times[number]
        } else {
            0
        }
    }

    /// Whether a run may come to an end at the node with a number, for all that is known. It may at one that isn't there.
    pub(crate) fn may_end_at(&self, number: usize) -> bool
        ensures { result ≡ get_or self.now.may_end.items number true }
    {
        if number < self.may_end.len() {
            self.may_end[number]
        } else {
            true
        }
    }

    /// Adds the edge from a node to another, where that is there. The answer is whether it is.
    pub(crate) fn join(&mut self, from: usize, to: Option<usize>) -> Result<bool, AllocError>
        ensures edges { OnOk result (Extends self.old.edges.items self.new.edges.items) }
        ensures may_end { OnOk result (self.new.may_end.items ≡ self.old.may_end.items) }
        ensures times { OnOk result (self.new.times.items ≡ self.old.times.items) }
        ensures joined { IfOk result (λ joined. IsTrue joined → IsEdgeTo from to self.new.edges.items) }
        ensures none { IfOk result (λ joined. joined ≡ false → to ≡ None) }
    {
        match to {
            Some(to) => {
                let from = narrow(from)?;
                let to = narrow(to)?;
                self.edges.push(SearchEdge { from, to })?;
                Ok(true)
            }
            None => Ok(false),
        }
    }

    /// Tells that no run comes to an end at a node, if that is so.
    pub(crate) fn settle(&mut self, number: usize, goes_on: bool)
        ensures edges { self.new.edges.items ≡ self.old.edges.items }
        ensures times { self.new.times.items ≡ self.old.times.items }
        ensures may_end { (k : ℕ) → get_or self.new.may_end.items k true ≡ false → (get_or self.old.may_end.items k true ≡ false) ⊎ ((k ≡ number) × IsTrue goes_on) }
    {
        if goes_on & (number < self.may_end.len()) {
            self.may_end[number] = false;
        }
    }
}
