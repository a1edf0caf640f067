//! The types of parameters, and the values of their declarations (4.10.1).

ghost use Rattle.std.specs.Prelude.{◌≡◌, IfOk};
ghost use Rattle.syntax_tree.specs.Expressions.{plain_expression_of};
ghost use Rattle.design_scopes.specs.Designs.{names_at_scope};
ghost use Rattle.design_scopes.specs.Values.{IsNotWide, IsOwnValue, IsParameter, IsParameterValue, IsRangedType, IsStatedType, object_of_type, type_of_value};

use crate::faults::DesignMade;
use crate::places::{assigned_at, value_at};
use crate::scoped::ScopedDesign;
use crate::variables::{range_of_width, vector_range_at};
use logic4::size::Size;
use ranges::range::VectorRange;
use shaped_trees::constants::{Constant, converted};
use shaped_trees::shape::Shape;
use sizing::environment::{Environment, Object, ObjectValue};
use std::alloc::Global;
use syntax_tree::declarations::{ParameterDeclaration, ParameterKind};
use syntax_tree::expressions::VerilogExpression;

/// The size, sign and range of a parameter.
#[derive(Clone, Copy)]
pub struct ParameterType {
    pub shape: Shape,
    pub range: Option<VectorRange>,
}

/// The type of a parameter with a range (4.10.1), unless it is too wide.
fn ranged_type(range: Option<VectorRange>, signed: bool) -> Option<ParameterType>
    ensures { IsNotWide range → IsRangedType range signed result }
{
    let width = range?.width()?;
    Some(ParameterType {
        shape: Shape { width, signed },
        range,
    })
}

/// The type of a parameter without a range: the size of its value, and its sign, unless it is signed itself (4.10.1).
fn value_type(signed: bool, value: &Constant) -> ParameterType
    ensures { result ≡ type_of_value signed value.now }
{
    let width = value.digits.width();
    ParameterType {
        shape: Shape {
            width: Size::new(width),
            signed: signed || value.signed,
        },
        range: range_of_width(width),
    }
}

/// A value in a type: extended by its own sign, or cut (4.10.1).
fn object_of(found: ParameterType, value: &Constant) -> Object
    ensures { result ≡ object_of_type found value.now }
{
    Object {
        signed: found.shape.signed,
        range: found.range,
        value: ObjectValue::Constant(converted(*value, found.shape).digits),
    }
}

/// The type that the declaration of a parameter says, if it says one (4.10.1).
#[tactic(auto, using(crate::proofs::Bounds::stated_told))]
fn declared_type<E: Environment>(
    alloc: Global,
    place: &E,
    source: &ParameterDeclaration,
) -> DesignMade<Option<ParameterType>>
    ensures { IfOk result (λ found. IsStatedType (E.means place.now) source.now.kind source.now.value_type found) }
{
    match source.kind {
        ParameterKind::Integer => Ok(ranged_type(range_of_width(32), true)),
        ParameterKind::Time => Ok(ranged_type(range_of_width(64), false)),
        ParameterKind::Unstated => {
            let range = vector_range_at(alloc, place, &source.value_type.range)?;
            Ok(ranged_type(range, source.value_type.signed))
        }
    }
}

/// The value of a parameter's own declaration, in its type, if it has one.
#[tactic(auto, using(crate::proofs::Bounds::own_value_told, crate::proofs::Bounds::assigned_value_told))]
fn own_value<E: Environment>(
    alloc: Global,
    place: &E,
    declared: &Option<ParameterType>,
    e: &VerilogExpression,
) -> DesignMade<Constant>
    ensures { IfOk result (λ value. IsOwnValue (E.means place.now) declared.now (plain_expression_of e.now) value) }
{
    match declared {
        Some(found) => assigned_at(alloc, place, e, found.shape),
        None => value_at(alloc, place, e),
    }
}

/// The value of a parameter: the one that it is given from elsewhere, or that of its declaration (12.2).
fn parameter_value<E: Environment>(
    alloc: Global,
    place: &E,
    declared: &Option<ParameterType>,
    given: Option<Constant>,
    e: &VerilogExpression,
) -> DesignMade<Constant>
    ensures { IfOk result (λ value. IsParameterValue (E.means place.now) declared.now given (plain_expression_of e.now) value) }
{
    match given {
        Some(value) => Ok(value),
        None => own_value(alloc, place, declared, e),
    }
}

/// A parameter with the value that it is given from elsewhere, or else with that of its declaration, in the type that the
/// declaration says, or else in that of the value (4.10.1, 12.2).
#[tactic(auto, using(crate::proofs::Bounds::parameter_told))]
pub fn parameter_at<E: Environment>(
    alloc: Global,
    place: &E,
    source: &ParameterDeclaration,
    given: Option<Constant>,
    e: &VerilogExpression,
) -> DesignMade<Object>
    ensures { IfOk result (λ o. IsParameter (E.means place.now) source.now given (plain_expression_of e.now) o) }
{
    let declared = declared_type(alloc, place, source)?;
    let value = parameter_value(alloc, place, &declared, given, e)?;
    let found = declared.unwrap_or(value_type(source.value_type.signed, &value));
    Ok(object_of(found, &value))
}

impl ScopedDesign {
    /// A parameter of a scope with the value that it is given from elsewhere, or else with that of its declaration, in the type that
    /// the declaration says, or else in that of the value (4.10.1, 12.2).
    pub fn parameter(
        &self,
        scope: usize,
        source: &ParameterDeclaration,
        given: Option<Constant>,
        e: &VerilogExpression,
    ) -> DesignMade<Object>
        ensures { IfOk result (λ o. IsParameter (names_at_scope self.now scope) source.now given (plain_expression_of e.now) o) }
    {
        parameter_at(self.alloc, &self.constant_place(scope), source, given, e)
    }
}
