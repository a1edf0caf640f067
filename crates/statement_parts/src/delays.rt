//! Delays (9.7.1, 9.7.7).

ghost use Rattle.std.specs.Prelude.{◌≡◌, pos, Some, IfOk, IfSome};
ghost use Rattle.design_scopes.specs.Places.{means};
ghost use Rattle.syntax_tree.specs.Expressions.{plain_expression_of};
ghost use Rattle.statement_parts.specs.Statements.{plain_timing, timing_of};
ghost use Rattle.statement_parts.specs.Parts as spec;

use crate::faults::{Lowered, StatementKind, fault};
use design_scopes::places::ScopePlace;
use shaped_trees::constants::integer;
use sizing::lowering::constant;
use std::alloc::Global;
use syntax_tree::expressions::VerilogExpression;
use syntax_tree::statements::AssignmentTiming;

/// A number that isn't less than 0, if there is one.
fn natural(number: Option<i64>) -> Option<u64>
    ensures { IfSome result (λ n. number ≡ Some (pos n)) }
{
    let number = number?;
    if number >= 0 {
        Some(number as u64)
    } else {
        None
    }
}

/// The number of a delay at a place. Refuses one that has none, and one below 0.
#[tactic(auto, using(crate::proofs::Meant::number_meant))]
pub fn delay_at(
    alloc: Global,
    place: &ScopePlace<'_>,
    token: usize,
    e: &VerilogExpression,
) -> Lowered<u64>
    ensures { IfOk result (λ delay. spec.IsDelayNumber (means place.now) (plain_expression_of e.now) delay) }
{
    let constant = constant(alloc, place, e)?;
    match natural(integer(constant)) {
        Some(delay) => Ok(delay),
        None => fault(token, StatementKind::Delay),
    }
}

/// The delay that stands inside of an assignment. Refuses an event in its place.
fn delay_in(
    alloc: Global,
    place: &ScopePlace<'_>,
    token: usize,
    timing: &AssignmentTiming,
) -> Lowered<u64>
    ensures { IfOk result (λ delay. spec.IsGivenDelay (means place.now) (Some (plain_timing timing.now)) (Some delay)) }
{
    match timing {
        AssignmentTiming::Delay(e) => delay_at(alloc, place, token, e),
        AssignmentTiming::Event(_) => fault(token, StatementKind::EventInAssignment),
        AssignmentTiming::Repeat(_, _) => fault(token, StatementKind::EventInAssignment),
    }
}

/// The delay inside of an assignment, where there is one.
pub fn given_delay_at(
    alloc: Global,
    place: &ScopePlace<'_>,
    token: usize,
    timing: &Option<Box<AssignmentTiming>>,
) -> Lowered<Option<u64>>
    ensures { IfOk result (λ delay. spec.IsGivenDelay (means place.now) (timing_of timing.now) delay) }
{
    match timing {
        None => Ok(None),
        Some(found) => Ok(Some(delay_in(alloc, place, token, found)?)),
    }
}
