//! A search of all orders: every text and every end of the runs of what may go on in several ways.
//!
//! 1. A node is what a run so far leads to. `Orders` says how the ways from a node are followed, and gives each node a
//!    key: nodes of one key whose runs printed the same go on alike.
//! 2. `explore` takes the last node off a stack, follows its ways, and puts the nodes that they lead to on the stack,
//!    but for those of which one that goes on alike was there before.
//! 3. The node itself is dropped then. What stays of it is the step that led to it (`lineage`), the number of what its run
//!    printed (`text_table`), and its key, shortened by `sharing` (`visited`). Of the nodes on the stack the newest are kept (`recent`), and
//!    the others are made again by their moves when their turn comes (`again`).
//! 4. Where a way ends, its text and end are shown, with the moves of the whole run, unless they are there already.
//! 5. The search is over when the stack is empty. If nothing was left out on the way, each text and end of every run is
//!    shown: that is the contract of `explore`.
//! 6. What is known of each node besides is its time, whether a run may come to an end at it, and the edges to nodes that were there
//!    before (`links`). From these a node is found from which no end is reached, where there is one (`endless`).
//! 7. Where something was left out, it is told before which time nothing was (`reach`), and at which time most ways led on (`choices`).
#![tactic(auto)]

mod again;
mod choices;
mod endless;
mod kept;
mod line_groups;
mod lineage;
mod links;
mod orders;
mod pieces;
mod reach;
mod recent;
mod search;
mod show;
mod stopped;
mod text_table;
mod visited;

pub use orders::Orders;
pub use search::explore;
use std::alloc::{AllocError, Global};
pub use stopped::Stopped;

/// A node, what was printed on the way to it from the one that was expanded, and the moves of that way.
#[derive(Drop)]
pub struct Successor<N, M> {
    pub node: N,
    pub printed: Vec<u8>,
    pub moves: Vec<M>,
}

/// A way from a node to an end: what was printed on it, how it ended, and its moves.
#[derive(Drop)]
pub struct EndedPath<M, E> {
    pub printed: Vec<u8>,
    pub end: E,
    pub moves: Vec<M>,
}

/// What came of expanding a node.
#[derive(Drop)]
pub struct Expanded<N, M, E> {
    /// Where its ways lead.
    pub successors: Vec<Successor<N, M>>,
    /// Its ways that have come to an end.
    pub ended: Vec<EndedPath<M, E>>,
    /// Whether no way was left out.
    pub whole: bool,
}

/// What came of a search.
#[derive(Drop)]
pub struct Explored<M, E> {
    /// The texts and ends that were found, each with the moves of a run that has them.
    pub shown: Vec<Shown<M, E>>,
    /// Why there may be others. None where there are no others.
    pub stopped: Option<Stopped>,
    /// How many nodes were reached and kept, the first one among them. Where memory was refused, those that the last
    /// expansion reached aren't counted.
    pub nodes: usize,
    /// The moves of a run that was reached and from which no end is reached, where one is known.
    pub endless: Option<Vec<M>>,
    /// A time before which nothing was left out: each node of an earlier time that was reached was followed. None where nothing was
    /// left out at all, and where memory was refused.
    pub followed_before: Option<u64>,
    /// The moves of a run to a node from which several ways lead on: of the time at which most do, the first from which most do. None
    /// where none do, and where memory was refused.
    pub widest: Option<Vec<M>>,
}

/// What a run showed: its text, how it ended, and its moves.
#[derive(Drop)]
pub struct Shown<M, E> {
    pub text: Vec<u8>,
    pub end: E,
    pub moves: Vec<M>,
}

/// How far a search goes.
#[derive(Clone, Copy)]
pub struct Bounds {
    /// The most nodes that are reached, the first one among them.
    pub nodes: usize,
    /// The most texts and ends that are shown.
    pub shown: usize,
    /// About the most bytes that are kept, what is shown among them.
    pub bytes: usize,
}

/// What is searched, how far, and what gives memory for it.
struct SearchScope<'a, O> {
    alloc: Global,
    orders: &'a O,
    bounds: Bounds,
}

impl<O> Copy for SearchScope<'_, O> {}

impl<O> Clone for SearchScope<'_, O> {
    fn clone(&self) -> Result<Self, AllocError> {
        Ok(*self)
    }
}
