//! Expressions.

ghost use Rattle.std.specs.Prelude.{◌≡◌, ◌++◌, OnOk, map, codes, decimal};
ghost use Rattle.model.specs.SourceTrees.{source_expression_of, source_expressions};
ghost use Rattle.flattext.specs.Operators as operators;
ghost use Rattle.flattext.specs.Expressions as spec;

use crate::names::push_name;
use crate::operators::{
    CONDITIONAL, PRIMARY, UNARY, binary_level, binary_sign, takes_signs, unary_sign,
};
use crate::phrases::{push_literal, push_number};
use logic4::digit::Extension;
use model::tree::{BinaryOperator, SourceExpression, UnaryOperator};
use std::alloc::AllocError;

// Puts an opening parenthesis behind a text, where there is one.
fn push_opening(text: &mut Vec<u8>, is_there: bool) -> Result<(), AllocError>
    ensures { OnOk result (text.new.items ≡ text.old.items ++ spec.opening_parenthesis is_there) }
{
    if is_there {
        text.extend_from_slice(b"(")
    } else {
        Ok(())
    }
}

/// Puts a closing parenthesis behind a text, where there is one.
pub(crate) fn push_closing(text: &mut Vec<u8>, is_there: bool) -> Result<(), AllocError>
    ensures { OnOk result (text.new.items ≡ text.old.items ++ spec.closing is_there) }
{
    if is_there {
        text.extend_from_slice(b")")
    } else {
        Ok(())
    }
}

// Puts a bit of a register behind a text (5.2.1).
#[tactic(auto, unfolding(crate::specs::Expressions::select_text))]
fn push_select(text: &mut Vec<u8>, name: &str, index: u64) -> Result<(), AllocError>
    ensures { OnOk result (text.new.items ≡ text.old.items ++ spec.select_text name.now index) }
{
    push_name(text, name)?;
    text.extend_from_slice(b"[")?;
    push_number(text, index)?;
    text.extend_from_slice(b"]")
}

// Puts the sign of an operator before its operand behind a text.
fn push_prefix(text: &mut Vec<u8>, operator: UnaryOperator) -> Result<(), AllocError>
    ensures { OnOk result (text.new.items ≡ text.old.items ++ operators.unary_sign operator) }
{
    text.extend_from_slice(unary_sign(operator).as_bytes())
}

/// Puts what stands before an expression that is taken with its sign behind a text, where it is (5.5).
pub(crate) fn push_sign_opening(text: &mut Vec<u8>, is_there: bool) -> Result<(), AllocError>
    ensures { OnOk result (text.new.items ≡ text.old.items ++ spec.sign_opening is_there) }
{
    if is_there {
        text.extend_from_slice(b"$signed(")
    } else {
        Ok(())
    }
}

// Puts what stands before the left operand of an operator behind a text.
#[tactic(auto, unfolding(crate::specs::Expressions::operator_front))]
fn push_front(text: &mut Vec<u8>, level: u32, operator: BinaryOperator) -> Result<(), AllocError>
    ensures { OnOk result (text.new.items ≡ text.old.items ++ spec.operator_front level operator) }
{
    push_opening(text, binary_level(operator) < level)?;
    push_sign_opening(text, takes_signs(operator))
}

// Puts the sign of an operator behind a text, with a space on each side.
fn push_infix(text: &mut Vec<u8>, operator: BinaryOperator) -> Result<(), AllocError>
    ensures { OnOk result (text.new.items ≡ text.old.items ++ (codes " " ++ (operators.binary_sign operator ++ codes " "))) }
{
    text.extend_from_slice(b" ")?;
    text.extend_from_slice(binary_sign(operator).as_bytes())?;
    text.extend_from_slice(b" ")
}

// Puts what stands between the operands of an operator behind a text.
#[tactic(auto, unfolding(crate::specs::Expressions::operator_middle))]
fn push_middle(text: &mut Vec<u8>, operator: BinaryOperator) -> Result<(), AllocError>
    ensures { OnOk result (text.new.items ≡ text.old.items ++ spec.operator_middle operator) }
{
    let is_signed = takes_signs(operator);
    push_closing(text, is_signed)?;
    push_infix(text, operator)?;
    push_sign_opening(text, is_signed)
}

// Puts what stands behind the right operand of an operator behind a text.
#[tactic(auto, unfolding(crate::specs::Expressions::operator_back))]
fn push_back(text: &mut Vec<u8>, level: u32, operator: BinaryOperator) -> Result<(), AllocError>
    ensures { OnOk result (text.new.items ≡ text.old.items ++ spec.operator_back level operator) }
{
    push_closing(text, takes_signs(operator))?;
    push_closing(text, binary_level(operator) < level)
}

// How strongly an operand has to bind: not at all inside of the parentheses of `$signed`.
fn operand_level(operator: BinaryOperator, level: u32) -> u32
    ensures { result ≡ spec.operand_level operator level }
{
    if takes_signs(operator) {
        CONDITIONAL
    } else {
        level
    }
}

// Puts what stands before an expression that is extended behind a text (5.1.13).
fn push_extension_front(text: &mut Vec<u8>, by: Extension) -> Result<(), AllocError>
    ensures { OnOk result (text.new.items ≡ text.old.items ++ spec.extension_front by) }
{
    match by {
        Extension::Zeros => text.extend_from_slice(b"{1'b1 ? {"),
        Extension::Sign => text.extend_from_slice(b"{1'b1 ? $signed("),
    }
}

// Puts a number behind a text, with a text before it and one behind it.
fn push_number_between(
    text: &mut Vec<u8>,
    front: &[u8],
    number: u32,
    back: &[u8],
) -> Result<(), AllocError>
    ensures { OnOk result (text.new.items ≡ text.old.items ++ (front.now ++ (decimal number ++ back.now))) }
{
    text.extend_from_slice(front)?;
    push_number(text, u64::from(number))?;
    text.extend_from_slice(back)
}

// Puts what stands behind an expression that is extended to a size behind a text.
fn push_extension_back(text: &mut Vec<u8>, by: Extension, size: u32) -> Result<(), AllocError>
    ensures { OnOk result (text.new.items ≡ text.old.items ++ spec.extension_back by size) }
{
    match by {
        Extension::Zeros => push_number_between(text, b"} : ", size, b"'d0}"),
        Extension::Sign => push_number_between(text, b") : ", size, b"'sd0}"),
    }
}

/// Puts an expression behind a text, at a place that asks for one that binds so strongly.
#[cycle(expressions)]
pub(crate) fn push_expression(
    text: &mut Vec<u8>,
    level: u32,
    expression: &SourceExpression,
) -> Result<(), AllocError>
    ensures { OnOk result (text.new.items ≡ text.old.items ++ spec.expression_text level (source_expression_of expression.now)) }
{
    match expression {
        SourceExpression::Name(name) => push_name(text, name.as_str()),
        SourceExpression::Select(name, index) => push_select(text, name.as_str(), *index),
        SourceExpression::Literal(value) => push_literal(text, *value),
        SourceExpression::Concat(first, others) => {
            text.extend_from_slice(b"{")?;
            push_expression(text, CONDITIONAL, first)?;
            push_arguments(text, others.as_slice())?;
            text.extend_from_slice(b"}")
        }
        SourceExpression::Unary(operator, operand) => {
            push_opening(text, UNARY < level)?;
            push_prefix(text, *operator)?;
            push_expression(text, PRIMARY, operand)?;
            push_closing(text, UNARY < level)
        }
        SourceExpression::Binary(operator, left, right) => {
            let own = binary_level(*operator);
            push_front(text, level, *operator)?;
            push_expression(text, operand_level(*operator, own), left)?;
            push_middle(text, *operator)?;
            push_expression(text, operand_level(*operator, own + 1), right)?;
            push_back(text, level, *operator)
        }
        SourceExpression::Conditional(condition, first, second) => {
            push_opening(text, CONDITIONAL < level)?;
            push_expression(text, CONDITIONAL + 1, condition)?;
            text.extend_from_slice(b" ? ")?;
            push_expression(text, CONDITIONAL + 1, first)?;
            text.extend_from_slice(b" : ")?;
            push_expression(text, CONDITIONAL, second)?;
            push_closing(text, CONDITIONAL < level)
        }
        SourceExpression::Extend(by, size, operand) => {
            push_extension_front(text, *by)?;
            push_expression(text, CONDITIONAL, operand)?;
            push_extension_back(text, *by, size.get())
        }
    }
}

/// Puts expressions behind a text, with a comma before each.
#[cycle(expressions)]
pub(crate) fn push_arguments(
    text: &mut Vec<u8>,
    arguments: &[SourceExpression],
) -> Result<(), AllocError>
    ensures { OnOk result (text.new.items ≡ text.old.items ++ spec.arguments_text (source_expressions (map source_expression_of arguments.now))) }
{
    for argument in arguments {
        text.extend_from_slice(b", ")?;
        push_expression(text, CONDITIONAL, argument)?;
    }
    Ok(())
}
