//! Concatenations and replications (5.1.14).

ghost use Rattle.std.specs.Prelude.{◌≡◌, ◌++◌, ◌∷◌, [], List, map, IfOk, IfSome, OnOk};
ghost use Rattle.model.specs.SourceTrees.{source_expression_of};
ghost use Rattle.sizing.specs.Names.{Names};
ghost use Rattle.sizing.specs.Meanings as meaning;
ghost use Rattle.sizing.specs.Meanings.{Meaning, constant_integer};
ghost use Rattle.sizing.specs.Typing.{Types};
ghost use Rattle.sizing.specs.Parts.{Joins, concat_tree, copies_of, repeated_tree};

use crate::faults::{ExpressionFaultKind, TakenExpression, fault};
use crate::typed::Typed;
use logic4::bits::MAX_WIDTH;
use logic4::digit::Extension;
use logic4::size::Size;
use model::tree::SourceExpression;
use ranges::window::size_of;
use shaped_trees::shape::Shape;
use shaped_trees::trees::{MadeTree, concat_of, copied, extend_of, weight};
use std::alloc::Global;

/// How many nodes the tree of a replication may have. Without a limit, replications one within another make a tree that no memory
/// holds.
const MOST_NODES: u32 = 65_536;

/// The parts of a concatenation, each on its own: at least one, and the sum of their widths.
#[derive(Drop)]
pub(crate) struct JoinedParts {
    first: SourceExpression,
    others: Vec<SourceExpression>,
    width: Size,
}

impl JoinedParts {
    /// One part.
    #[tactic(auto, using(crate::proofs::Alone::one_part))]
    pub(crate) fn new(alloc: Global, part: Typed) -> MadeTree<Self>
        ensures { IfOk result (λ p. (n : Names) (m : Meaning) → Types n m part → Joins n (m ∷ []) p) }
    {
        let shape = part.shape();
        let width = shape.width;
        let first = part.alone(alloc)?;
        Ok(JoinedParts {
            first,
            others: Vec::new(alloc),
            width,
        })
    }

    /// One part more behind these, if a vector holds them all.
    #[tactic(auto, using(crate::proofs::Joining::made_more))]
    pub(crate) fn add(&mut self, alloc: Global, token: usize, part: Typed) -> TakenExpression<()>
        ensures { OnOk result ((n : Names) (ms : List Meaning) (m : Meaning) → Joins n ms self.old → Types n m part → Joins n (ms ++ m ∷ []) self.new) }
    {
        let shape = part.shape();
        let width = self.width.get() + shape.width.get();
        if width > MAX_WIDTH {
            return Err(fault(token, ExpressionFaultKind::Width));
        }
        let tree = part.alone(alloc)?;
        self.others.push(tree)?;
        self.width = Size::new(width);
        Ok(())
    }

    // One tree of all parts.
    fn tree(self, alloc: Global) -> MadeTree<SourceExpression>
        ensures { IfOk result (λ made. source_expression_of made ≡ concat_tree self) }
    {
        let JoinedParts {
            first,
            others,
            width: _,
        } = self;
        concat_of(alloc, first, others)
    }

    /// A concatenation of the parts.
    #[tactic(auto, using(crate::proofs::Joining::made_concatenation))]
    pub(crate) fn concatenation(self, alloc: Global) -> MadeTree<Typed>
        ensures { IfOk result (λ t. (n : Names) (ms : List Meaning) → Joins n ms self → Types n (meaning.concatenation ms) t) }
    {
        let width = self.width;
        Ok(Typed {
            shape: Shape {
                width,
                signed: false,
            },
            tree: self.tree(alloc)?,
        })
    }

    /// The parts, so many times.
    #[tactic(auto, using(crate::proofs::Joining::made_replication))]
    pub(crate) fn replication(
        self,
        alloc: Global,
        token: usize,
        count: Option<i64>,
    ) -> TakenExpression<Typed>
        ensures { IfOk result
            (λ t. (n : Names) (c : Meaning) (ms : List Meaning) → count ≡ constant_integer c → Joins n ms self → Types n (meaning.replication c ms) t) }
    {
        let Some(times) = counted(count) else {
            return Err(fault(token, ExpressionFaultKind::Count));
        };
        let own = self.width;
        let width = own.get() * times.get();
        if width > MAX_WIDTH {
            return Err(fault(token, ExpressionFaultKind::Width));
        }
        let tree = self.tree(alloc)?;
        if own.get() > 1 && weight(&tree).saturating_mul(times.get()) > MOST_NODES {
            return Err(fault(token, ExpressionFaultKind::TooLarge));
        }
        Ok(Typed {
            shape: Shape {
                width: Size::new(width),
                signed: false,
            },
            tree: repeated(alloc, tree, own, times)?,
        })
    }
}

// How often a replication has its parts, if that is known, and a vector may hold as many.
#[tactic(auto, using(crate::proofs::Joining::counted_is))]
fn counted(count: Option<i64>) -> Option<Size>
    ensures { IfSome result (λ k. meaning.replication_count count ≡ k) }
{
    let times = size_of(count?)?;
    Some(times)
}

// So many copies of a tree.
fn several(alloc: Global, tree: &SourceExpression, times: u32) -> MadeTree<Vec<SourceExpression>>
    ensures { IfOk result
        (λ made. map source_expression_of made.items ≡ copies_of times (source_expression_of tree.now)) }
{
    let mut made = Vec::new(alloc);
    for count in 0..times {
        made.push(copied(alloc, tree)?)?;
    }
    Ok(made)
}

// A tree of a width so many times. One digit is repeated as its own sign.
fn repeated(
    alloc: Global,
    tree: SourceExpression,
    own: Size,
    times: Size,
) -> MadeTree<SourceExpression>
    ensures { IfOk result (λ made. source_expression_of made ≡ repeated_tree own times (source_expression_of tree)) }
{
    if own.get() == 1 {
        return extend_of(alloc, Extension::Sign, times, tree);
    }
    let others = several(alloc, &tree, times.get() - 1)?;
    concat_of(alloc, tree, others)
}
