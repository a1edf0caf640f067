//! What a search needs of what it searches.
ghost use Rattle.std.specs.Prelude.{◌≡◌, ◌↔◌, ℕ, List, [], ◌++◌, IsTrue, IfOk, OnOk};
ghost use Rattle.std.specs.List.{All};
ghost use Rattle.explore.specs.Search.{IsEndedPath, IsReached, IsSuccessor, IsCovered, Serves};

use crate::Expanded;
use std::alloc::{AllocError, Global};

/// What may go on in several ways, and how its ways are followed.
pub trait Orders {
    ghost use Rattle.explore.specs.SearchedRuns.{Runs};

    /// What a run is made of.
    type Move: Copy;

    /// What a run so far leads to.
    type Node: Drop;

    /// How a run ends.
    type End: Drop;

    /// Room for work on nodes. It is kept from one node to the next, so that memory is asked for once.
    type Room: Drop;

    /// The runs, and what the nodes stand for.
    ghost runs: { Self → Runs Self.Move Self.Node Self.End };

    /// These bytes are the key of a node.
    ghost has_key: { Self → Self.Node → List ℕ → Type 0 };

    /// The time at which a node stands.
    ghost time_of: { Self → Self.Node → ℕ };

    /// The node at which each run starts.
    fn start(&self, alloc: Global) -> Result<Self::Node, AllocError>
        ensures { IfOk result (λ node. (runs self.now).Stands node []) };

    /// Room in which no node was worked on yet.
    fn room(&self, alloc: Global) -> Self::Room;

    /// Follows the ways that go on from a node, which may become a node that one of them leads to.
    fn expand(
        &self,
        alloc: Global,
        room: &mut Self::Room,
        node: Self::Node,
    ) -> Result<Expanded<Self::Node, Self::Move, Self::End>, AllocError>
        requires { IsReached (runs self.now) node }
        ensures next { IfOk result (λ x. (run : List Self.Move) → (runs self.now).Stands node run → All (IsSuccessor (runs self.now) run) x.successors.items) }
        ensures sound { IfOk result (λ x. (run : List Self.Move) → (runs self.now).Stands node run → All (IsEndedPath (runs self.now) run) x.ended.items) }
        ensures cover { IfOk result (λ x. IsTrue x.whole → (run : List Self.Move) → (runs self.now).Stands node run → IsCovered (runs self.now) x.successors.items x.ended.items run) };

    /// Fills `key` with the key of a node: nodes of one key, whose runs have one text, go on alike. Where memory is refused, any
    /// bytes may stand there.
    fn key(
        &self,
        room: &mut Self::Room,
        key: &mut Vec<u8>,
        node: &Self::Node,
    ) -> Result<(), AllocError>
        ensures { OnOk result (has_key self.now node.now key.new.items) };

    /// The time at which a node stands.
    fn time(&self, node: &Self::Node) -> u64
        ensures { result ≡ time_of self.now node.now };

    /// About how many bytes a node takes.
    fn weight(&self, node: &Self::Node) -> usize;

    /// The node of a run that goes on by these moves from the run of a node. That some node stands there was found before.
    fn again(
        &self,
        alloc: Global,
        room: &mut Self::Room,
        from: &Self::Node,
        moves: &[Self::Move],
    ) -> Result<Self::Node, AllocError>
        ensures { IfOk result (λ node. (run : List Self.Move) (other : Self.Node) → (runs self.now).Stands from.now run → (runs self.now).Stands other (run ++ moves.now) → (runs self.now).Stands node (run ++ moves.now)) };

    /// Whether two ends are one.
    fn same_end(&self, a: &Self::End, b: &Self::End) -> bool
        ensures { IsTrue result ↔ (a.now ≡ b.now) };

    /// No run prints before its first move.
    ghost silent: { (orders : Self) → (runs orders).text [] ≡ [] };

    /// Runs that go on alike come to the same ends with the same texts, in as many moves.
    ghost alike: { (orders : Self) (i j : List Self.Move) → (runs orders).Alike i j → Serves (runs orders) i j };

    /// Runs of one text that lead to nodes of one key go on alike.
    ghost keyed: { (orders : Self) (a b : Self.Node) (i j : List Self.Move) (key : List ℕ) → has_key orders a key → has_key orders b key → (runs orders).Stands a i → (runs orders).Stands b j → (runs orders).text i ≡ (runs orders).text j → (runs orders).Alike i j };
}
