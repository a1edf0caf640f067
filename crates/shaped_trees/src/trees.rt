//! The nodes of the core's trees, with what each stands for, and copies of trees.

ghost use Rattle.std.specs.Prelude.{◌≡◌, min, map, string_bytes, IfOk};
ghost use Rattle.model.specs.SourceTrees.{source_expression_of, source_expressions};
ghost use Rattle.model.specs.Syntax as core;
ghost use Rattle.shaped_trees.specs.Trees.{nodes, all_nodes};

use logic4::bits::Bits;
use logic4::digit::Extension;
use logic4::size::Size;
use model::tree::{BinaryOperator, SourceExpression, UnaryOperator};
use std::alloc::{AllocError, Global};

/// A tree, unless memory is refused.
pub type MadeTree<T> = Result<T, AllocError>;

pub fn name_of(alloc: Global, name: &str) -> MadeTree<SourceExpression>
    ensures { IfOk result (λ made. source_expression_of made ≡ core.Register name.now) }
{
    Ok(SourceExpression::Name(String::from_str(alloc, name)?))
}

pub fn select_of(alloc: Global, name: &str, index: u64) -> MadeTree<SourceExpression>
    ensures { IfOk result (λ made. source_expression_of made ≡ core.Select name.now index) }
{
    Ok(SourceExpression::Select(String::from_str(alloc, name)?, index))
}

pub fn literal_of(digits: Bits) -> SourceExpression
    ensures { source_expression_of result ≡ core.Literal digits }
{
    SourceExpression::Literal(digits)
}

pub fn concat_of(
    alloc: Global,
    first: SourceExpression,
    others: Vec<SourceExpression>,
) -> MadeTree<SourceExpression>
    ensures { IfOk result
        (λ made. source_expression_of made ≡ core.Concat (core.Also (source_expression_of first) (source_expressions (map source_expression_of others.items)))) }
{
    let first = Box::new(alloc, first)?;
    Ok(SourceExpression::Concat(first, others))
}

pub fn extend_of(
    alloc: Global,
    by: Extension,
    width: Size,
    e: SourceExpression,
) -> MadeTree<SourceExpression>
    ensures { IfOk result (λ made. source_expression_of made ≡ core.Extend by width (source_expression_of e)) }
{
    Ok(SourceExpression::Extend(by, width, Box::new(alloc, e)?))
}

pub fn unary_of(
    alloc: Global,
    operator: UnaryOperator,
    e: SourceExpression,
) -> MadeTree<SourceExpression>
    ensures { IfOk result (λ made. source_expression_of made ≡ core.Unary operator (source_expression_of e)) }
{
    Ok(SourceExpression::Unary(operator, Box::new(alloc, e)?))
}

pub fn binary_of(
    alloc: Global,
    operator: BinaryOperator,
    left: SourceExpression,
    right: SourceExpression,
) -> MadeTree<SourceExpression>
    ensures { IfOk result
        (λ made. source_expression_of made ≡ core.Binary operator (source_expression_of left) (source_expression_of right)) }
{
    let left = Box::new(alloc, left)?;
    let right = Box::new(alloc, right)?;
    Ok(SourceExpression::Binary(operator, left, right))
}

pub fn conditional_of(
    alloc: Global,
    condition: SourceExpression,
    first: SourceExpression,
    second: SourceExpression,
) -> MadeTree<SourceExpression>
    ensures { IfOk result
        (λ made. source_expression_of made ≡ core.Conditional (source_expression_of condition) (source_expression_of first) (source_expression_of second)) }
{
    let condition = Box::new(alloc, condition)?;
    let first = Box::new(alloc, first)?;
    let second = Box::new(alloc, second)?;
    Ok(SourceExpression::Conditional(condition, first, second))
}

/// A copy of a tree.
#[cycle(copied)]
pub fn copied(alloc: Global, e: &SourceExpression) -> MadeTree<SourceExpression>
    ensures { IfOk result (λ made. source_expression_of made ≡ source_expression_of e.now) }
{
    match e {
        SourceExpression::Name(name) => name_of(alloc, name.as_str()),
        SourceExpression::Select(name, index) => select_of(alloc, name.as_str(), *index),
        SourceExpression::Literal(digits) => Ok(literal_of(*digits)),
        SourceExpression::Concat(first, others) => {
            let first = copied(alloc, first)?;
            let others = copies(alloc, others.as_slice())?;
            concat_of(alloc, first, others)
        }
        SourceExpression::Extend(by, width, e) => {
            let e = copied(alloc, e)?;
            extend_of(alloc, *by, *width, e)
        }
        SourceExpression::Unary(operator, e) => {
            let e = copied(alloc, e)?;
            unary_of(alloc, *operator, e)
        }
        SourceExpression::Binary(operator, e, f) => {
            let left = copied(alloc, e)?;
            let right = copied(alloc, f)?;
            binary_of(alloc, *operator, left, right)
        }
        SourceExpression::Conditional(c, e, f) => {
            let condition = copied(alloc, c)?;
            let first = copied(alloc, e)?;
            let second = copied(alloc, f)?;
            conditional_of(alloc, condition, first, second)
        }
    }
}

/// Copies of trees, in their order.
#[cycle(copied)]
pub fn copies(alloc: Global, parts: &[SourceExpression]) -> MadeTree<Vec<SourceExpression>>
    ensures { IfOk result (λ made. map source_expression_of made.items ≡ map source_expression_of parts.now) }
{
    let mut made = Vec::with_capacity(alloc, parts.len())?;
    for part in parts {
        made.push(copied(alloc, part)?)?;
    }
    Ok(made)
}

/// How many nodes a tree has, or `u32::MAX` where it has more.
#[cycle(weight)]
pub fn weight(e: &SourceExpression) -> u32
    ensures { result ≡ min (nodes (source_expression_of e.now)) u32.MAX }
{
    match e {
        SourceExpression::Name(_) => 1,
        SourceExpression::Select(_, _) => 1,
        SourceExpression::Literal(_) => 1,
        SourceExpression::Concat(first, others) => {
            let others = weights(others.as_slice());
            weight(first).saturating_add(others).saturating_add(1)
        }
        SourceExpression::Extend(_, _, e) => weight(e).saturating_add(1),
        SourceExpression::Unary(_, e) => weight(e).saturating_add(1),
        SourceExpression::Binary(_, e, f) => {
            let right = weight(f);
            weight(e).saturating_add(right).saturating_add(1)
        }
        SourceExpression::Conditional(c, e, f) => {
            let first = weight(e);
            let second = weight(f);
            weight(c)
                .saturating_add(first)
                .saturating_add(second)
                .saturating_add(1)
        }
    }
}

// How many nodes trees have together, or `u32::MAX` where they have more.
#[cycle(weight)]
fn weights(parts: &[SourceExpression]) -> u32
    ensures { result ≡ min (all_nodes (source_expressions (map source_expression_of parts.now))) u32.MAX }
{
    let mut all: u32 = 0;
    for part in parts {
        all = all.saturating_add(weight(part));
    }
    all
}
