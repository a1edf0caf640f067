//! Trees at the size and the sign of what stands around them (5.4.1, 5.5.2).

ghost use Rattle.std.specs.Prelude.{◌≡◌, IfOk};
ghost use Rattle.model.specs.Expressions as model;
ghost use Rattle.model.specs.SourceTrees.{source_expression_of};
ghost use Rattle.model.specs.Syntax as core;
ghost use Rattle.logic4.specs.declared.digit.Extension.TheVariants.{Sign};
ghost use Rattle.shaped_trees.specs.Trees as spec;
ghost use Rattle.shaped_trees.specs.Trees.{IsDetermined, widened_by};

use crate::trees::{MadeTree, binary_of, conditional_of, copied, extend_of, unary_of};
use logic4::digit::Extension;
use logic4::size::Size;
use model::tree::{BinaryOperator, SourceExpression, UnaryOperator};
use std::alloc::Global;

/// Which operands of a binary operator have the size and the sign of what stands around it (table 5-22).
#[derive(Clone, Copy)]
pub enum Determined {
    Both,
    Left,
    /// Neither: they have their common size and sign.
    Compared,
    /// Neither: each has its own size and sign.
    Separate,
}

pub fn determined_by(operator: BinaryOperator) -> Determined
    ensures { IsDetermined result (model.sizing_of operator) }
{
    match operator {
        BinaryOperator::Or
        | BinaryOperator::Xor
        | BinaryOperator::And
        | BinaryOperator::Add
        | BinaryOperator::Subtract => Determined::Both,
        BinaryOperator::ShiftLeft | BinaryOperator::ShiftRight => Determined::Left,
        BinaryOperator::Equal
        | BinaryOperator::NotEqual
        | BinaryOperator::CaseEqual
        | BinaryOperator::CaseNotEqual => Determined::Compared,
        BinaryOperator::Less
        | BinaryOperator::LessEqual
        | BinaryOperator::Greater
        | BinaryOperator::GreaterEqual => Determined::Compared,
        BinaryOperator::SignedLess | BinaryOperator::SignedLessEqual => Determined::Compared,
        BinaryOperator::LogicalOr | BinaryOperator::LogicalAnd => Determined::Separate,
    }
}

/// A tree at the size and the sign of what stands around it: its operands that have these are extended by their signs where that is
/// signed; else a number without a size is filled up with its x or z (3.5.1), and the core extends the others with 0 itself.
#[tactic(auto, using(crate::proofs::Widened::same_widened))]
pub fn widen(
    alloc: Global,
    e: SourceExpression,
    signed: bool,
    width: Size,
) -> MadeTree<SourceExpression>
    ensures { IfOk result (λ made. source_expression_of made ≡ widened_by signed width (source_expression_of e)) }
{
    if signed | fills(&e) {
        let made = widened(alloc, &e, signed, width)?;
        Ok(made)
    } else {
        Ok(e)
    }
}

// A tree at a size and a sign.
fn widened(
    alloc: Global,
    e: &SourceExpression,
    signed: bool,
    width: Size,
) -> MadeTree<SourceExpression>
    ensures { IfOk result (λ made. source_expression_of made ≡ widened_by signed width (source_expression_of e.now)) }
{
    match e {
        SourceExpression::Unary(operator, operand) => match operator {
            UnaryOperator::Not => {
                let operand = widened(alloc, operand, signed, width)?;
                unary_of(alloc, UnaryOperator::Not, operand)
            }
            UnaryOperator::LogicalNot
            | UnaryOperator::ReduceAnd
            | UnaryOperator::ReduceOr
            | UnaryOperator::ReduceXor => operand_at(alloc, e, signed, width),
        },
        SourceExpression::Binary(operator, left, right) => match determined_by(*operator) {
            Determined::Both => {
                let left = widened(alloc, left, signed, width)?;
                let right = widened(alloc, right, signed, width)?;
                binary_of(alloc, *operator, left, right)
            }
            Determined::Left => {
                let left = widened(alloc, left, signed, width)?;
                let right = copied(alloc, right)?;
                binary_of(alloc, *operator, left, right)
            }
            Determined::Compared => operand_at(alloc, e, signed, width),
            Determined::Separate => operand_at(alloc, e, signed, width),
        },
        SourceExpression::Conditional(condition, first, second) => {
            let condition = copied(alloc, condition)?;
            let first = widened(alloc, first, signed, width)?;
            let second = widened(alloc, second, signed, width)?;
            conditional_of(alloc, condition, first, second)
        }
        SourceExpression::Name(_)
        | SourceExpression::Select(_, _)
        | SourceExpression::Literal(_)
        | SourceExpression::Concat(_, _)
        | SourceExpression::Extend(_, _, _) => operand_at(alloc, e, signed, width),
    }
}

// An operand at a size and a sign.
fn operand_at(
    alloc: Global,
    e: &SourceExpression,
    signed: bool,
    width: Size,
) -> MadeTree<SourceExpression>
    ensures { IfOk result (λ made. source_expression_of made ≡ spec.operand_at signed width (source_expression_of e.now)) }
{
    if signed {
        extended(alloc, e, width)
    } else {
        filled(alloc, e, width)
    }
}

// A tree, extended by its sign as a whole.
fn extended(alloc: Global, e: &SourceExpression, width: Size) -> MadeTree<SourceExpression>
    ensures { IfOk result (λ made. source_expression_of made ≡ core.Extend Sign width (source_expression_of e.now)) }
{
    let e = copied(alloc, e)?;
    extend_of(alloc, Extension::Sign, width, e)
}

// A tree; a number that fills up a size, at that size.
fn filled(alloc: Global, e: &SourceExpression, width: Size) -> MadeTree<SourceExpression>
    ensures { IfOk result (λ made. source_expression_of made ≡ spec.filled width (source_expression_of e.now)) }
{
    match e {
        SourceExpression::Extend(by, size, inner) => {
            filled_extension(alloc, *by, *size, inner, width)
        }
        SourceExpression::Name(_)
        | SourceExpression::Select(_, _)
        | SourceExpression::Literal(_)
        | SourceExpression::Concat(_, _)
        | SourceExpression::Unary(_, _)
        | SourceExpression::Binary(_, _, _)
        | SourceExpression::Conditional(_, _, _) => copied(alloc, e),
    }
}

// A tree that is extended; a literal by its sign to another size.
fn filled_extension(
    alloc: Global,
    by: Extension,
    size: Size,
    e: &SourceExpression,
    width: Size,
) -> MadeTree<SourceExpression>
    ensures { IfOk result
        (λ made. source_expression_of made ≡ spec.filled_extension width by size (source_expression_of e.now)) }
{
    let inner = copied(alloc, e)?;
    match by {
        Extension::Zeros => extend_of(alloc, Extension::Zeros, size, inner),
        Extension::Sign => {
            if is_literal(e) {
                extend_of(alloc, Extension::Sign, width, inner)
            } else {
                extend_of(alloc, Extension::Sign, size, inner)
            }
        }
    }
}

// Whether a tree is a literal.
fn is_literal(e: &SourceExpression) -> bool
    ensures { result ≡ spec.is_filling_extension Sign (source_expression_of e.now) }
{
    match e {
        SourceExpression::Literal(_) => true,
        SourceExpression::Name(_)
        | SourceExpression::Select(_, _)
        | SourceExpression::Concat(_, _)
        | SourceExpression::Extend(_, _, _)
        | SourceExpression::Unary(_, _)
        | SourceExpression::Binary(_, _, _)
        | SourceExpression::Conditional(_, _, _) => false,
    }
}

// Whether a tree is extended that is a literal.
fn is_filling(by: Extension, e: &SourceExpression) -> bool
    ensures { result ≡ spec.is_filling_extension by (source_expression_of e.now) }
{
    match by {
        Extension::Zeros => false,
        Extension::Sign => is_literal(e),
    }
}

// Whether a tree has a number that fills up the size of what stands around it.
fn fills(e: &SourceExpression) -> bool
    ensures { result ≡ spec.fills (source_expression_of e.now) }
{
    match e {
        SourceExpression::Unary(operator, operand) => match operator {
            UnaryOperator::Not => fills(operand),
            UnaryOperator::LogicalNot
            | UnaryOperator::ReduceAnd
            | UnaryOperator::ReduceOr
            | UnaryOperator::ReduceXor => false,
        },
        SourceExpression::Binary(operator, left, right) => match determined_by(*operator) {
            Determined::Both => {
                let second = fills(right);
                fills(left) | second
            }
            Determined::Left => fills(left),
            Determined::Compared => false,
            Determined::Separate => false,
        },
        SourceExpression::Conditional(_, first, second) => {
            let other = fills(second);
            fills(first) | other
        }
        SourceExpression::Extend(by, _, inner) => is_filling(*by, inner),
        SourceExpression::Name(_)
        | SourceExpression::Select(_, _)
        | SourceExpression::Literal(_)
        | SourceExpression::Concat(_, _) => false,
    }
}
