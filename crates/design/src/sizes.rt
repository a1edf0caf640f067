//! The own sizes of expressions (5.4.1, table 5-22).
ghost use Rattle.std.specs.Prelude.{◌≡◌, ◌<◌, ◌≤◌, ◌+◌, max, length, slice_index};
ghost use Rattle.logic4.specs.Vector.{greatest_width};
ghost use Rattle.model.specs.Expressions as size;
ghost use Rattle.model.specs.Expressions.{sizing_of};
ghost use Rattle.design.specs.Sizings.{sizing_from};
ghost use Rattle.design.specs.Sound.{AreWidths, IsSoundExpression, AreSoundExpressions, HasSome};
ghost use Rattle.design.specs.DesignTrees.{expression_of, expressions_of};

use crate::code::Size;
use crate::control::RegId;
use crate::tree::Expression;
use model::tree::{BinaryOperator, UnaryOperator};

/// The greater size.
pub fn greater(left: Size, right: Size) -> Size
    ensures { result ≡ max left right }
{
    if left.get() < right.get() {
        right
    } else {
        left
    }
}

pub fn width_of(widths: &[u32], register: RegId) -> Size
    requires declared { register < length widths.now }
    requires widths { AreWidths widths.now }
    ensures { result ≡ slice_index widths.now register }
{
    Size::new(widths[register as usize])
}

/// How an operator takes its operands (5.4.1, table 5-22).
#[derive(Clone, Copy)]
pub enum Sizing {
    /// Both at the size asked.
    BothAsked,
    /// The left one at the size asked, and the right one at its own.
    LeftAsked,
    /// Both at the greater of their own sizes.
    Greatest,
    /// Each at its own size.
    EachOwn,
}

/// The way of each operator.
pub fn sizing_of(operator: BinaryOperator) -> Sizing
    ensures { sizing_from result ≡ sizing_of operator }
{
    match operator {
        BinaryOperator::Or
        | BinaryOperator::Xor
        | BinaryOperator::And
        | BinaryOperator::Add
        | BinaryOperator::Subtract => Sizing::BothAsked,
        BinaryOperator::ShiftLeft | BinaryOperator::ShiftRight => Sizing::LeftAsked,
        BinaryOperator::Equal
        | BinaryOperator::NotEqual
        | BinaryOperator::CaseEqual
        | BinaryOperator::CaseNotEqual => Sizing::Greatest,
        BinaryOperator::Less
        | BinaryOperator::LessEqual
        | BinaryOperator::Greater
        | BinaryOperator::GreaterEqual
        | BinaryOperator::SignedLess
        | BinaryOperator::SignedLessEqual => Sizing::Greatest,
        BinaryOperator::LogicalOr | BinaryOperator::LogicalAnd => Sizing::EachOwn,
    }
}

// The own size of an operator's value, by those of its operands.
fn result_size(operator: BinaryOperator, left: Size, right: Size) -> Size
    ensures { result ≡ size.result_size (sizing_of operator) left right }
{
    match sizing_of(operator) {
        Sizing::BothAsked => greater(left, right),
        Sizing::LeftAsked => left,
        Sizing::Greatest => Size::new(1),
        Sizing::EachOwn => Size::new(1),
    }
}

/// The size at which the left operand is computed.
pub fn left_size(operator: BinaryOperator, asked: Size, left: Size, right: Size) -> Size
    ensures { result ≡ size.left_size (sizing_of operator) asked left right }
{
    match sizing_of(operator) {
        Sizing::BothAsked | Sizing::LeftAsked => asked,
        Sizing::Greatest => greater(left, right),
        Sizing::EachOwn => left,
    }
}

/// The size at which the right operand is computed.
pub fn right_size(operator: BinaryOperator, asked: Size, left: Size, right: Size) -> Size
    ensures { result ≡ size.right_size (sizing_of operator) asked left right }
{
    match sizing_of(operator) {
        Sizing::BothAsked => asked,
        Sizing::LeftAsked => right,
        Sizing::Greatest => greater(left, right),
        Sizing::EachOwn => right,
    }
}

// The own size of a unary operator's value, by that of its operand.
fn unary_size(operator: UnaryOperator, own: Size) -> Size
    ensures { result ≡ size.unary_size operator own }
{
    match operator {
        UnaryOperator::Not => own,
        UnaryOperator::LogicalNot
        | UnaryOperator::ReduceAnd
        | UnaryOperator::ReduceOr
        | UnaryOperator::ReduceXor => Size::new(1),
    }
}

/// The size at which the operand is computed.
pub fn operand_size(operator: UnaryOperator, asked: Size, own: Size) -> Size
    ensures { result ≡ size.operand_size operator asked own }
{
    match operator {
        UnaryOperator::Not => asked,
        UnaryOperator::LogicalNot
        | UnaryOperator::ReduceAnd
        | UnaryOperator::ReduceOr
        | UnaryOperator::ReduceXor => own,
    }
}

/// The own size of an expression.
#[cycle(own)]
pub fn own_size(widths: &[u32], expression: &Expression) -> Size
    requires sound { IsSoundExpression widths.now (expression_of expression.now) }
    requires widths { AreWidths widths.now }
    ensures { result ≡ size.own_size widths.now (expression_of expression.now) }
{
    match expression {
        Expression::Register(register) => width_of(widths, *register),
        Expression::Select(_, _) => Size::new(1),
        Expression::Literal(value) => Size::new(value.width()),
        Expression::Concat(parts) => total_size(widths, parts),
        Expression::Unary(operator, operand) => unary_size(*operator, own_size(widths, operand)),
        Expression::Binary(operator, left, right) => {
            result_size(*operator, own_size(widths, left), own_size(widths, right))
        }
        Expression::Conditional(_, first, second) => {
            greater(own_size(widths, first), own_size(widths, second))
        }
        Expression::Extend(_, size, _) => *size,
    }
}

// The own size of a concatenation: those of its parts together.
#[cycle(own)]
fn total_size(widths: &[u32], parts: &[Expression]) -> Size
    requires sound { AreSoundExpressions widths.now (expressions_of parts.now) }
    requires some { HasSome (expressions_of parts.now) }
    requires within { size.total_size widths.now (expressions_of parts.now) ≤ greatest_width }
    requires widths { AreWidths widths.now }
    ensures { result ≡ size.total_size widths.now (expressions_of parts.now) }
{
    let mut total = 0;
    for part in parts {
        total += own_size(widths, part).get();
    }
    Size::new(total)
}
