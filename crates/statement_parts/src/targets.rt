//! The variables that are assigned to, and the events that are waited for.

ghost use Rattle.std.specs.Prelude.{◌≡◌, true, map, option_map, option_and_then, slice_get, string_bytes, IfOk};
ghost use Rattle.design_scopes.specs.Flat.{object_name};
ghost use Rattle.design_scopes.specs.Places.{means};
ghost use Rattle.syntax_tree.specs.Expressions.{plain_expression_of};
ghost use Rattle.statement_parts.specs.Parts as spec;
ghost use Rattle.statement_parts.specs.Places as places;
ghost use Rattle.statement_parts.specs.Places.{surroundings};
ghost use Rattle.statement_parts.specs.Statements.{plain_event};
ghost use Rattle.statement_forms.specs.Views.{core_triggers};

use crate::faults::{Lowered, StatementKind, fault};
use design_scopes::places::ScopePlace;
use design_scopes::scoped::ScopedDesign;
use logic4::size::Size;
use model::tree::{Change as CoreChange, EventExpression as CoreEvent};
use scopes::finding::find;
use scopes::scope::{Entity, Reach};
use sizing::environment::{Object, ObjectValue};
use sizing::lowering::{named_object, named_scope};
use std::alloc::{AllocError, Global};
use syntax_tree::expressions::VerilogExpression;
use syntax_tree::statements::{VerilogChange, VerilogEvent};

/// A variable that is assigned to: its name in the flat module, and how wide it is.
#[derive(Drop)]
pub struct TargetVariable {
    pub name: String,
    pub width: Size,
}

/// The flat name of an object that varies; none of a constant. Fails where memory is refused.
fn flat_name(alloc: Global, object: &Object) -> Result<Option<String>, AllocError>
    ensures { IfOk result (λ found. option_map string_bytes found ≡ object_name object.now) }
{
    match &object.value {
        ObjectValue::Variable(name) => {
            let copy = String::from_str(alloc, name.as_str())?;
            Ok(Some(copy))
        }
        ObjectValue::Constant(_) => Ok(None),
    }
}

/// The variable that an object is. Refuses a constant, and what is too wide.
#[tactic(auto, using(crate::proofs::Meant::variable_is))]
fn target_in(alloc: Global, token: usize, object: &Object) -> Lowered<TargetVariable>
    ensures { IfOk result (λ target. spec.IsVariable object.now (string_bytes target.name) target.width) }
{
    let Some(name) = flat_name(alloc, object)? else {
        return fault(token, StatementKind::Target);
    };
    let Some(width) = object.width() else {
        return fault(token, StatementKind::Target);
    };
    Ok(TargetVariable { name, width })
}

/// The variable that a name stands for at a place, alone or behind scopes (9.2). Refuses what is none.
pub fn target_at(
    alloc: Global,
    place: &ScopePlace<'_>,
    token: usize,
    e: &VerilogExpression,
) -> Lowered<TargetVariable>
    ensures { IfOk result (λ target. spec.IsTargetOf (means place.now) (plain_expression_of e.now) (string_bytes target.name) target.width) }
{
    let object = named_object(alloc, place, e)?;
    target_in(alloc, token, object)
}

/// A change as the core has it.
fn change_of(change: VerilogChange) -> CoreChange
    ensures { result ≡ spec.core_change_of change }
{
    match change {
        VerilogChange::Any => CoreChange::Any,
        VerilogChange::Posedge => CoreChange::Posedge,
        VerilogChange::Negedge => CoreChange::Negedge,
    }
}

/// The number of the named event that a name stands for.
fn event_number(found: Option<Entity>) -> Option<usize>
    ensures { result ≡ places.event_number found }
{
    match found? {
        Entity::Event(number) => Some(number),
        Entity::Scope(_) => None,
        Entity::Scopes { .. } => None,
        Entity::Object(_) => None,
        Entity::LoopVariable => None,
    }
}

/// What a member of the scope stands for that an expression names (12.5). Refuses an expression that names none.
fn member_entity(
    alloc: Global,
    design: &ScopedDesign,
    scope: usize,
    base: &VerilogExpression,
    name: &[u8],
) -> Lowered<Option<Entity>>
    ensures { IfOk result (λ found. found ≡ places.member_entity design.now scope (plain_expression_of base.now) name.now) }
{
    let here = design.place(scope);
    let inner = named_scope(alloc, &here, base)?;
    Ok(design.tree.declared(inner, name))
}

/// What an expression stands for at a scope that may name a named event: a name, alone or behind the scopes in which it is (12.5).
fn event_entity(
    alloc: Global,
    design: &ScopedDesign,
    scope: usize,
    e: &VerilogExpression,
) -> Lowered<Option<Entity>>
    ensures { IfOk result (λ found. found ≡ places.event_entity design.now scope (plain_expression_of e.now)) }
{
    match e {
        VerilogExpression::Name { name, .. } => {
            Ok(find(&design.tree, Reach::Instance, scope, name.as_slice()))
        }
        VerilogExpression::Member {
            scope: base,
            name,
            ..
        } => member_entity(alloc, design, scope, base, name.as_slice()),
        _ => Ok(None),
    }
}

/// The object of a named event, where a name stands for one (9.7.3).
fn event_object(design: &ScopedDesign, found: Option<Entity>) -> Option<&Object>
    ensures { option_map (λ o. o.now) result ≡ option_and_then (slice_get design.now.objects.items) (places.event_number found) }
{
    design.objects.get(event_number(found)?)
}

/// The flat name of the named event that an expression names, if it names one (9.7.3). Refuses one behind what is no scope.
pub fn event_name(
    alloc: Global,
    design: &ScopedDesign,
    scope: usize,
    e: &VerilogExpression,
) -> Lowered<Option<String>>
    ensures { IfOk result (λ found. option_map string_bytes found ≡ spec.event_named (surroundings design.now) scope (plain_expression_of e.now)) }
{
    let found = event_entity(alloc, design, scope, e)?;
    let Some(object) = event_object(design, found) else {
        return Ok(None);
    };
    let name = flat_name(alloc, object)?;
    Ok(name)
}

/// The variable that an event waits for. Refuses what is none by its name.
fn waited_variable(
    alloc: Global,
    design: &ScopedDesign,
    scope: usize,
    event: &VerilogEvent,
) -> Lowered<String>
    ensures { IfOk result (λ name. spec.IsWaitedEvent ((surroundings design.now).names scope) ((surroundings design.now).event scope) (plain_event event.now) (spec.core_change_of event.now.change, string_bytes name)) }
{
    let here = design.place(scope);
    let target = target_at(alloc, &here, event.token, &event.expression)?;
    Ok(target.name)
}

/// Whether any change is waited for.
fn is_any(change: VerilogChange) -> bool
    ensures { result ≡ true → change ≡ VerilogChange.Any }
{
    match change {
        VerilogChange::Any => true,
        VerilogChange::Posedge => false,
        VerilogChange::Negedge => false,
    }
}

/// The name that an event waits for. Refuses what is neither a variable nor a named event, and an edge of a named event.
#[tactic(auto, using(crate::proofs::Meant::event_waits))]
fn waited_name(
    alloc: Global,
    design: &ScopedDesign,
    scope: usize,
    event: &VerilogEvent,
) -> Lowered<String>
    ensures { IfOk result (λ name. spec.IsWaitedEvent ((surroundings design.now).names scope) ((surroundings design.now).event scope) (plain_event event.now) (spec.core_change_of event.now.change, string_bytes name)) }
{
    let Some(name) = event_name(alloc, design, scope, &event.expression)? else {
        return waited_variable(alloc, design, scope, event);
    };
    if is_any(event.change) {
        return Ok(name);
    }
    fault(event.token, StatementKind::Event)
}

/// The events of an event control (9.7.2, 9.7.4).
pub fn events_at(
    alloc: Global,
    design: &ScopedDesign,
    scope: usize,
    events: &[VerilogEvent],
) -> Lowered<Vec<CoreEvent>>
    ensures { IfOk result (λ made. spec.AreWaitedEvents ((surroundings design.now).names scope) ((surroundings design.now).event scope) (map plain_event events.now) (core_triggers made)) }
{
    let mut made = Vec::new(alloc);
    for event in events {
        let name = waited_name(alloc, design, scope, event)?;
        made.push(CoreEvent {
            change: change_of(event.change),
            name,
        })?;
    }
    Ok(made)
}
