//! What the layer above calls.

ghost use Rattle.std.specs.Prelude.{◌≡◌, Some, None, IfOk};
ghost use Rattle.syntax_tree.specs.Expressions.{plain_expression_of};
ghost use Rattle.model.specs.SourceTrees.{source_expression_of};
ghost use Rattle.sizing.specs.Meanings.{meaning};
ghost use Rattle.sizing.specs.Typing.{Types, IsLowered, shape_within, assigned_shape};
ghost use Rattle.sizing.specs.Results.{IsConstantOf, IsAssigned};

use crate::environment::{Environment, Object};
use crate::faults::{ExpressionFaultKind, TakenExpression, fault};
use crate::reading::{MOST_DEEP, constant_at, object_at, scope_at, token_of, typed_at};
use crate::typed::Typed;
use logic4::size::Size;
use model::tree::SourceExpression;
use shaped_trees::constants::Constant;
use shaped_trees::shape::{Shape, greater};
use std::alloc::Global;
use syntax_tree::expressions::VerilogExpression;

/// An expression with its size and its sign, of which a tree can be made for any others (5.4, 5.5).
///
/// A bit or a part of an object is one by constants: by what varies it is refused (`FaultKind::NotConstant`). Of `reg [7:0] v` the bit
/// `v[100]` is x, and so are the digits of `v[9:6]` that `v` hasn't got (5.2.1).
pub fn typed_expression<E: Environment>(
    alloc: Global,
    environment: &E,
    e: &VerilogExpression,
) -> TakenExpression<Typed>
    ensures { IfOk result (λ t. Types (E.means environment.now) (meaning (E.means environment.now) (plain_expression_of e.now)) t) }
{
    typed_at(alloc, environment, e, MOST_DEEP)
}

/// The tree of an expression: on its own, or with what stands around it at the greater width, signed where both are.
#[tactic(auto, using(crate::proofs::Lowered::lowered_within))]
pub fn lower<E: Environment>(
    alloc: Global,
    environment: &E,
    e: &VerilogExpression,
    around: Option<Shape>,
) -> TakenExpression<SourceExpression>
    ensures { IfOk result
        (λ made. IsLowered (E.means environment.now) (meaning (E.means environment.now) (plain_expression_of e.now)) (shape_within (meaning (E.means environment.now) (plain_expression_of e.now)) around) (source_expression_of made)) }
{
    let found = typed_expression(alloc, environment, e)?;
    let around = around.unwrap_or(found.shape());
    Ok(found.lower(alloc, around)?)
}

/// The tree of the right side of an assignment to a target of a width (5.4.1, 5.5.3): the greater of both widths, and its own sign.
#[tactic(auto, using(crate::proofs::Lowered::lowered_assigned))]
pub fn lower_assigned<E: Environment>(
    alloc: Global,
    environment: &E,
    e: &VerilogExpression,
    width: Size,
) -> TakenExpression<SourceExpression>
    ensures { IfOk result
        (λ made. IsLowered (E.means environment.now) (meaning (E.means environment.now) (plain_expression_of e.now)) (assigned_shape (meaning (E.means environment.now) (plain_expression_of e.now)) width) (source_expression_of made)) }
{
    let found = typed_expression(alloc, environment, e)?;
    let signed = found.shape().signed;
    Ok(found.lower(alloc, Shape { width, signed })?)
}

/// The object that a name stands for, alone or behind the scopes in which it is (12.5).
pub fn named_object<'e, E: Environment>(
    alloc: Global,
    environment: &'e E,
    e: &VerilogExpression,
) -> TakenExpression<&'e Object>
    ensures { IfOk result (λ o. (meaning (E.means environment.now) (plain_expression_of e.now)).object ≡ Some o.now) }
{
    object_at(alloc, environment, e, MOST_DEEP)
}

/// The scope that a name stands for, alone or behind the scopes in which it is (12.5).
pub fn named_scope<E: Environment>(
    alloc: Global,
    environment: &E,
    e: &VerilogExpression,
) -> TakenExpression<usize>
    ensures { IfOk result (λ s. (meaning (E.means environment.now) (plain_expression_of e.now)).scope None ≡ Some s) }
{
    scope_at(alloc, environment, e, None, MOST_DEEP)
}

/// What a constant expression is worth, at its own size and sign.
pub fn constant<E: Environment>(
    alloc: Global,
    environment: &E,
    e: &VerilogExpression,
) -> TakenExpression<Constant>
    ensures { IfOk result (λ c. IsConstantOf (meaning (E.means environment.now) (plain_expression_of e.now)) c) }
{
    constant_at(alloc, environment, e, MOST_DEEP)
}

/// What a constant expression is worth as it is assigned to what has a shape, as a parameter with a range or a type (4.10.1): its value
/// at the greater of both widths and at its own sign, cut to the width.
#[tactic(auto, using(crate::proofs::Worth::assigned_is))]
pub fn constant_assigned<E: Environment>(
    alloc: Global,
    environment: &E,
    e: &VerilogExpression,
    shape: Shape,
) -> TakenExpression<Constant>
    ensures { IfOk result (λ c. IsAssigned (meaning (E.means environment.now) (plain_expression_of e.now)) shape c) }
{
    let found = typed_expression(alloc, environment, e)?;
    let own = found.shape();
    let at = Shape {
        width: greater(own.width, shape.width),
        signed: own.signed,
    };
    match found.worth(alloc, at)? {
        Some(digits) => Ok(Constant {
            digits: digits.resize(shape.width.get()),
            signed: shape.signed,
        }),
        None => Err(fault(token_of(e), ExpressionFaultKind::NotConstant)),
    }
}
