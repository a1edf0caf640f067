//! What names mean at a scope.

ghost use Rattle.std.specs.Prelude.{◌≡◌, ◌==◌, option_map, position, IfOk};
ghost use Rattle.syntax_tree.specs.Expressions.{plain_expression_of};
ghost use Rattle.sizing.specs.Meanings.{meaning};
ghost use Rattle.sizing.specs.Results.{IsConstantOf, IsAssigned};
ghost use Rattle.design_scopes.specs.Places as spec;
ghost use Rattle.design_scopes.specs.Values.{IsNumberOf};

use crate::call_values::CallValue;
use crate::faults::DesignMade;
use scopes::finding::{find, first_scope, next_scope};
use scopes::scope::{Entity, Reach};
use scopes::tree::ScopeTree;
use shaped_trees::constants::{Constant, integer};
use shaped_trees::shape::Shape;
use sizing::environment::{Environment, Object};
use sizing::lowering::{constant, constant_assigned};
use std::alloc::Global;
use syntax_tree::expressions::VerilogExpression;

/// The variable of a generate loop in its head, with its value there (12.4.1).
#[derive(Clone, Copy)]
pub struct Turn<'p> {
    pub name: &'p [u8],
    pub object: &'p Object,
}

/// A scope, at which expressions stand.
#[derive(Clone, Copy)]
pub struct ScopePlace<'p> {
    pub tree: &'p ScopeTree,
    pub objects: &'p [Object],
    pub scope: usize,
    /// The turn of a generate loop, where the expression stands in its head.
    pub turn: Option<Turn<'p>>,
    /// The values of the constant functions' calls in the expressions.
    pub calls: &'p [CallValue],
}

/// The place among some of the value of the call at a token.
fn call_place(calls: &[CallValue], token: usize) -> Option<usize>
    ensures { result ≡ position (λ call. call.token == token) calls.now }
{
    calls.iter().position(|call| call.token == token)
}

/// The value of the call at a token, where it is known.
pub fn call_among(calls: &[CallValue], token: usize) -> Option<&Object>
    ensures { option_map (λ o. o.now) result ≡ spec.call_among calls.now token }
{
    match calls.get(call_place(calls, token)?) {
        Some(call) => Some(&call.object),
        None => None,
    }
}

/// The number of an object, where a name stands for one.
fn object_number(found: Option<Entity>) -> Option<usize>
    ensures { result ≡ spec.object_number found }
{
    match found? {
        Entity::Object(number) => Some(number),
        Entity::Scope(_) => None,
        Entity::Scopes { .. } => None,
        Entity::Event(_) => None,
        Entity::LoopVariable => None,
    }
}

/// The object at a number, if there is one.
fn object_at(objects: &[Object], number: Option<usize>) -> Option<&Object>
    ensures { option_map (λ o. o.now) result ≡ spec.object_at objects.now number }
{
    objects.get(number?)
}

impl ScopePlace<'_> {
    /// What a name stands for in a scope, or from this one outwards (12.7).
    fn entity(&self, within: Option<usize>, name: &[u8]) -> Option<Entity>
        ensures { result ≡ spec.entity_from self.now.tree.now.scopes.items self.now.scope within name.now }
    {
        match within {
            Some(scope) => self.tree.declared(scope, name),
            None => find(self.tree, Reach::Instance, self.scope, name),
        }
    }

    /// The variable of a generate loop, where the expression stands in its head.
    fn turn_object(&self, within: Option<usize>, name: &[u8]) -> Option<&Object>
        ensures { option_map (λ o. o.now) result ≡ spec.turn_object self.now.turn within name.now }
    {
        let turn = self.turn?;
        if within.is_some() {
            return None;
        }
        if turn.name == name {
            Some(turn.object)
        } else {
            None
        }
    }
}

impl Environment for ScopePlace<'_> {
    ghost means = { spec.means };

    fn scope(&self, within: Option<usize>, name: &[u8], index: Option<i64>) -> Option<usize> {
        match within {
            Some(scope) => next_scope(self.tree, scope, name, index),
            None => first_scope(self.tree, self.scope, name, index),
        }
    }

    fn object(&self, within: Option<usize>, name: &[u8]) -> Option<&Object> {
        if let Some(found) = self.turn_object(within, name) {
            return Some(found);
        }
        object_at(self.objects, object_number(self.entity(within, name)))
    }

    fn call(&self, token: usize) -> Option<&Object> {
        call_among(self.calls, token)
    }
}

/// The value of a constant expression at a place.
pub fn value_at<E: Environment>(
    alloc: Global,
    place: &E,
    e: &VerilogExpression,
) -> DesignMade<Constant>
    ensures { IfOk result (λ value. IsConstantOf (meaning (E.means place.now) (plain_expression_of e.now)) value) }
{
    Ok(constant(alloc, place, e)?)
}

/// The value of a constant expression at a place, as it is assigned to what has this size and sign.
pub fn assigned_at<E: Environment>(
    alloc: Global,
    place: &E,
    e: &VerilogExpression,
    shape: Shape,
) -> DesignMade<Constant>
    ensures { IfOk result (λ value. IsAssigned (meaning (E.means place.now) (plain_expression_of e.now)) shape value) }
{
    Ok(constant_assigned(alloc, place, e, shape)?)
}

/// The number that a constant expression stands for at a place, if it stands for one.
#[tactic(auto, using(crate::proofs::Bounds::number_told))]
pub fn number_at<E: Environment>(
    alloc: Global,
    place: &E,
    e: &VerilogExpression,
) -> DesignMade<Option<i64>>
    ensures { IfOk result (λ found. IsNumberOf (E.means place.now) (plain_expression_of e.now) found) }
{
    Ok(integer(value_at(alloc, place, e)?))
}
