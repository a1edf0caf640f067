//! From an expression of the source to its shape and its tree.

ghost use Rattle.std.specs.Prelude.{◌≡◌, ◌∷◌, ◌++◌, [], List, Some, IfOk, IfSome, option_map, map};
ghost use Rattle.syntax_tree.specs.Expressions.{plain_expression_of, plain_expressions};
ghost use Rattle.sizing.specs.Names.{IsNamedObject};
ghost use Rattle.sizing.specs.Meanings.{Meaning, meaning, meanings, conversion_of, constant_integer};
ghost use Rattle.sizing.specs.Typing.{Types};
ghost use Rattle.sizing.specs.Results.{IsConstantOf};
ghost use Rattle.sizing.specs.Parts.{Joins};

use crate::concatenations::JoinedParts;
use crate::environment::{Environment, Object};
use crate::faults::{ExpressionFaultKind, TakenExpression, fault};
use crate::operators::{binary, conditional, converted, unary};
use crate::selects::{bit, part};
use crate::typed::{Typed, number, text, whole_object};
use ranges::range::near;
use shaped_trees::constants::{Constant, integer};
use std::alloc::Global;
use syntax_tree::expressions::VerilogExpression;

/// How many expressions may stand one within another. Each takes up to four kilobytes of the stack, which may have eight megabytes.
pub const MOST_DEEP: u32 = 1536;

/// The token of an expression.
pub(crate) fn token_of(e: &VerilogExpression) -> usize {
    match e {
        VerilogExpression::Number { token, .. }
        | VerilogExpression::Real { token, .. }
        | VerilogExpression::Text { token, .. }
        | VerilogExpression::Name { token, .. }
        | VerilogExpression::Member { token, .. } => *token,
        VerilogExpression::Index { token, .. }
        | VerilogExpression::Part { token, .. }
        | VerilogExpression::Call { token, .. }
        | VerilogExpression::SystemCall { token, .. }
        | VerilogExpression::Concatenation { token, .. } => *token,
        VerilogExpression::Replication { token, .. }
        | VerilogExpression::Unary { token, .. }
        | VerilogExpression::Binary { token, .. }
        | VerilogExpression::Conditional { token, .. }
        | VerilogExpression::Refused { token } => *token,
    }
}

// What is found, or the fault that nothing is.
fn found(token: usize, object: Option<&Object>) -> TakenExpression<&Object>
    ensures { IfOk result (λ o. option_map (λ b. b.now) object.entry ≡ Some o.now) }
{
    match object {
        Some(object) => Ok(object),
        None => Err(fault(token, ExpressionFaultKind::Undeclared)),
    }
}

// The scope of a number that is found, or the fault that none is.
fn found_scope(token: usize, scope: Option<usize>) -> TakenExpression<usize>
    ensures { IfOk result (λ s. scope ≡ Some s) }
{
    match scope {
        Some(scope) => Ok(scope),
        None => Err(fault(token, ExpressionFaultKind::Undeclared)),
    }
}

// A number without a size has no place in a concatenation (5.1.14).
fn is_unsized(e: &VerilogExpression) -> bool {
    match e {
        VerilogExpression::Number { sized, .. } => !*sized,
        _ => false,
    }
}

// Whether a system function gives its operand a sign, `None` where the function isn't supported (5.5).
fn conversion(name: &[u8]) -> Option<bool>
    ensures { result ≡ conversion_of name.now }
{
    if name == b"$signed".as_slice() {
        Some(true)
    } else if name == b"$unsigned".as_slice() {
        Some(false)
    } else {
        None
    }
}

// The only one of the arguments.
fn only(arguments: &[VerilogExpression]) -> Option<&VerilogExpression>
    ensures { IfSome result (λ e. map plain_expression_of arguments.now ≡ plain_expression_of e.now ∷ []) }
{
    match arguments {
        [e] => Some(e),
        _ => None,
    }
}

/// An expression with its shape and its tree, if its names mean something here, and if it is one that is taken.
#[cycle(reading)]
#[tactic(auto, using(crate::proofs::Naming::near_met, crate::proofs::Naming::named_typed))]
pub(crate) fn typed_at<E: Environment>(
    alloc: Global,
    environment: &E,
    e: &VerilogExpression,
    room: u32,
) -> TakenExpression<Typed>
    ensures { IfOk result (λ t. Types (E.means environment.now) (meaning (E.means environment.now) (plain_expression_of e.now)) t) }
{
    if room == 0 {
        return Err(fault(token_of(e), ExpressionFaultKind::TooDeep));
    }
    let room = room - 1;
    match e {
        VerilogExpression::Number {
            sized,
            signed,
            digits,
            ..
        } => Ok(number(alloc, *sized, *signed, **digits)?),
        VerilogExpression::Text { token, bytes } => Ok(text(*token, bytes.as_slice())?),
        VerilogExpression::Name { token, .. } => {
            let found = object_at(alloc, environment, e, room)?;
            Ok(whole_object(alloc, *token, found)?)
        }
        VerilogExpression::Member { token, .. } => {
            let found = object_at(alloc, environment, e, room)?;
            Ok(whole_object(alloc, *token, found)?)
        }
        VerilogExpression::Call { token, .. } => {
            let found = object_at(alloc, environment, e, room)?;
            Ok(whole_object(alloc, *token, found)?)
        }
        VerilogExpression::Index { token, base, index } => {
            let object = object_at(alloc, environment, base, room)?;
            let index = integer_at(alloc, environment, index, room)?;
            Ok(bit(alloc, *token, object, near(index))?)
        }
        VerilogExpression::Part {
            token,
            form,
            base,
            first,
            second,
        } => {
            let object = object_at(alloc, environment, base, room)?;
            let first = integer_at(alloc, environment, first, room)?;
            let second = integer_at(alloc, environment, second, room)?;
            Ok(part(alloc, *token, object, *form, near(first), near(second))?)
        }
        VerilogExpression::Real { token, .. } => Err(fault(*token, ExpressionFaultKind::Real)),
        VerilogExpression::Refused { token } => Err(fault(*token, ExpressionFaultKind::Refused)),
        _ => operation_at(alloc, environment, e, room),
    }
}

// An operation on operands.
#[cycle(reading)]
fn operation_at<E: Environment>(
    alloc: Global,
    environment: &E,
    e: &VerilogExpression,
    room: u32,
) -> TakenExpression<Typed>
    ensures { IfOk result (λ t. Types (E.means environment.now) (meaning (E.means environment.now) (plain_expression_of e.now)) t) }
{
    match e {
        VerilogExpression::Unary {
            operator,
            operand,
            ..
        } => {
            let operand = typed_at(alloc, environment, operand, room)?;
            Ok(unary(alloc, *operator, operand)?)
        }
        VerilogExpression::Binary {
            token,
            operator,
            left,
            right,
        } => {
            let left = typed_at(alloc, environment, left, room)?;
            let right = typed_at(alloc, environment, right, room)?;
            Ok(binary(alloc, *token, *operator, left, right)?)
        }
        VerilogExpression::Conditional {
            condition,
            first,
            second,
            ..
        } => {
            let condition = typed_at(alloc, environment, condition, room)?;
            let first = typed_at(alloc, environment, first, room)?;
            let second = typed_at(alloc, environment, second, room)?;
            Ok(conditional(alloc, condition, first, second)?)
        }
        VerilogExpression::Concatenation { token, parts } => {
            let parts = parts_at(alloc, environment, *token, parts.as_slice(), room)?;
            Ok(parts.concatenation(alloc)?)
        }
        VerilogExpression::Replication {
            token,
            count,
            parts,
        } => {
            let count = integer_at(alloc, environment, count, room)?;
            let parts = parts_at(alloc, environment, *token, parts.as_slice(), room)?;
            Ok(parts.replication(alloc, *token, count)?)
        }
        VerilogExpression::SystemCall {
            token,
            name,
            arguments,
        } => {
            let Some(signed) = conversion(name.as_slice()) else {
                return Err(fault(*token, ExpressionFaultKind::SystemFunction));
            };
            let Some(operand) = only(arguments.as_slice()) else {
                return Err(fault(*token, ExpressionFaultKind::Arguments));
            };
            let operand = typed_at(alloc, environment, operand, room)?;
            Ok(converted(alloc, signed, operand)?)
        }
        _ => Err(fault(token_of(e), ExpressionFaultKind::Refused)),
    }
}

// The parts of a concatenation, in their order.
#[cycle(reading)]
fn parts_at<E: Environment>(
    alloc: Global,
    environment: &E,
    token: usize,
    parts: &[VerilogExpression],
    room: u32,
) -> TakenExpression<JoinedParts>
    ensures { IfOk result
        (λ p. Joins (E.means environment.now) (meanings (E.means environment.now) (plain_expressions (map plain_expression_of parts.now))) p) }
{
    let Some((first, others)) = parts.split_first() else {
        return Err(fault(token, ExpressionFaultKind::Width));
    };
    let first = part_at(alloc, environment, first, room)?;
    let made = JoinedParts::new(alloc, first)?;
    let all = parts_behind(alloc, environment, token, made, others, room)?;
    Ok(all)
}

// Parts of a concatenation behind those that stand before them.
#[cycle(reading)]
fn parts_behind<E: Environment>(
    alloc: Global,
    environment: &E,
    token: usize,
    before: JoinedParts,
    others: &[VerilogExpression],
    room: u32,
) -> TakenExpression<JoinedParts>
    ensures { IfOk result
        (λ p. (ms : List Meaning) → Joins (E.means environment.now) ms before → Joins (E.means environment.now) (ms ++ meanings (E.means environment.now) (plain_expressions (map plain_expression_of others.now))) p) }
{
    let mut made = before;
    for part in others {
        let next = part_at(alloc, environment, part, room)?;
        made.add(alloc, token, next)?;
    }
    Ok(made)
}

// A part of a concatenation, which has a size of its own.
#[cycle(reading)]
fn part_at<E: Environment>(
    alloc: Global,
    environment: &E,
    e: &VerilogExpression,
    room: u32,
) -> TakenExpression<Typed>
    ensures { IfOk result (λ t. Types (E.means environment.now) (meaning (E.means environment.now) (plain_expression_of e.now)) t) }
{
    if is_unsized(e) {
        return Err(fault(token_of(e), ExpressionFaultKind::UnsizedPart));
    }
    typed_at(alloc, environment, e, room)
}

/// What a constant expression is worth, at its own size.
#[cycle(reading)]
#[tactic(auto, using(crate::proofs::Worth::constant_is))]
pub(crate) fn constant_at<E: Environment>(
    alloc: Global,
    environment: &E,
    e: &VerilogExpression,
    room: u32,
) -> TakenExpression<Constant>
    ensures { IfOk result (λ c. IsConstantOf (meaning (E.means environment.now) (plain_expression_of e.now)) c) }
{
    let found = typed_at(alloc, environment, e, room)?;
    let shape = found.shape();
    let signed = shape.signed;
    match found.worth(alloc, shape)? {
        Some(digits) => Ok(Constant { digits, signed }),
        None => Err(fault(token_of(e), ExpressionFaultKind::NotConstant)),
    }
}

// The number of a constant expression, `None` where it has none.
#[cycle(reading)]
fn integer_at<E: Environment>(
    alloc: Global,
    environment: &E,
    e: &VerilogExpression,
    room: u32,
) -> TakenExpression<Option<i64>>
    ensures { IfOk result (λ i. i ≡ constant_integer (meaning (E.means environment.now) (plain_expression_of e.now))) }
{
    let constant = constant_at(alloc, environment, e, room)?;
    Ok(integer(constant))
}

/// The object that an expression names.
#[cycle(reading)]
pub(crate) fn object_at<'e, E: Environment>(
    alloc: Global,
    environment: &'e E,
    e: &VerilogExpression,
    room: u32,
) -> TakenExpression<&'e Object>
    ensures named { IfOk result (λ o. IsNamedObject (E.means environment.now) o.now) }
    ensures object { IfOk result (λ o. (meaning (E.means environment.now) (plain_expression_of e.now)).object ≡ Some o.now) }
{
    match e {
        VerilogExpression::Name { token, name } => Ok(found(
            *token,
            environment.object(None, name.as_slice()),
        )?),
        VerilogExpression::Member { token, scope, name } => {
            let scope = scope_at(alloc, environment, scope, None, room)?;
            Ok(found(*token, environment.object(Some(scope), name.as_slice()))?)
        }
        VerilogExpression::Call { token, .. } => Ok(found(*token, environment.call(*token))?),
        _ => Err(fault(token_of(e), ExpressionFaultKind::Select)),
    }
}

/// The scope that an expression names, where an index stands behind it or none.
#[cycle(reading)]
pub(crate) fn scope_at<E: Environment>(
    alloc: Global,
    environment: &E,
    e: &VerilogExpression,
    index: Option<i64>,
    room: u32,
) -> TakenExpression<usize>
    ensures { IfOk result (λ s. (meaning (E.means environment.now) (plain_expression_of e.now)).scope index ≡ Some s) }
{
    if room == 0 {
        return Err(fault(token_of(e), ExpressionFaultKind::TooDeep));
    }
    let room = room - 1;
    match e {
        VerilogExpression::Name { token, name } => {
            Ok(found_scope(*token, environment.scope(None, name.as_slice(), index))?)
        }
        VerilogExpression::Member { token, scope, name } => {
            let scope = scope_at(alloc, environment, scope, None, room)?;
            Ok(found_scope(
                *token,
                environment.scope(Some(scope), name.as_slice(), index),
            )?)
        }
        VerilogExpression::Index {
            token,
            base,
            index: number,
        } => {
            if index.is_some() {
                return Err(fault(*token, ExpressionFaultKind::Select));
            }
            let number = integer_at(alloc, environment, number, room)?;
            if number.is_none() {
                return Err(fault(*token, ExpressionFaultKind::Undeclared));
            }
            Ok(scope_at(alloc, environment, base, number, room)?)
        }
        _ => Err(fault(token_of(e), ExpressionFaultKind::Undeclared)),
    }
}
