//! Loops, and waiting for a condition (9.6, 9.7.6).

ghost use Rattle.std.specs.Prelude.{◌≡◌, [], ◌∷◌, None, IfOk};
ghost use Rattle.model.specs.SourceTrees.{source_expression_of, source_statement_of};
ghost use Rattle.model.specs.Syntax as syntax;
ghost use Rattle.statement_forms.specs.Views.{core_statements, core_triggers};
ghost use Rattle.statement_forms.specs.Forms as spec;

use crate::build::{
    assign_of, await_of, beside, binary_of, block_of, literal_of, name_of, pair, unary_of, while_of,
};
use logic4::bits::Bits;
use logic4::digit::Digit;
use model::tree::{
    BinaryOperator, EventExpression, SourceExpression, SourceStatement, UnaryOperator,
};
use std::alloc::{AllocError, Global};

/// A digit 1.
fn one() -> SourceExpression
    ensures { source_expression_of result ≡ spec.one }
{
    literal_of(Bits::from_digit(Digit::One))
}

/// A digit 0.
pub fn nought() -> SourceExpression
    ensures { source_expression_of result ≡ spec.nought }
{
    literal_of(Bits::from_digit(Digit::Zero))
}

/// A vector of one statement. Fails where memory is refused.
fn alone(alloc: Global, s: SourceStatement) -> Result<Vec<SourceStatement>, AllocError>
    ensures { IfOk result (λ made. core_statements made ≡ source_statement_of s ∷ []) }
{
    let mut made = Vec::new(alloc);
    made.push(s)?;
    Ok(made)
}

/// `forever body` (9.6). Fails where memory is refused.
pub fn forever_of(alloc: Global, body: SourceStatement) -> Result<SourceStatement, AllocError>
    ensures { IfOk result (λ made. source_statement_of made ≡ spec.forever (source_statement_of body)) }
{
    Ok(while_of(one(), alone(alloc, body)?))
}

/// `for (start; condition; step) body` (9.6). Fails where memory is refused.
pub fn for_of(
    alloc: Global,
    start: SourceStatement,
    condition: SourceExpression,
    step: SourceStatement,
    body: SourceStatement,
) -> Result<SourceStatement, AllocError>
    ensures { IfOk result (λ made. source_statement_of made ≡ spec.for_loop (source_statement_of start) (source_expression_of condition) (source_statement_of step) (source_statement_of body)) }
{
    let (outer, turn) = beside((start, condition), pair(alloc, body, step))?;
    let (start, condition) = outer;
    let turns = while_of(condition, turn);
    Ok(block_of(pair(alloc, start, turns)?))
}

/// What is left of a count in a variable after one turn. Fails where memory is refused.
fn less_one(alloc: Global, hidden: &str) -> Result<SourceStatement, AllocError>
    ensures { IfOk result (λ made. source_statement_of made ≡ syntax.Assign hidden.now None (syntax.Binary BinaryOperator.Subtract (syntax.Register hidden.now) spec.one)) }
{
    let less = binary_of(
        alloc,
        BinaryOperator::Subtract,
        name_of(alloc, hidden)?,
        one(),
    )?;
    let (rest, name) = beside(less, String::from_str(alloc, hidden))?;
    Ok(assign_of(name, None, rest))
}

/// Whether a count in a variable is more than 0. Fails where memory is refused.
fn is_left(alloc: Global, hidden: &str) -> Result<SourceExpression, AllocError>
    ensures { IfOk result (λ made. source_expression_of made ≡ syntax.Binary BinaryOperator.Greater (syntax.Register hidden.now) spec.nought) }
{
    binary_of(
        alloc,
        BinaryOperator::Greater,
        name_of(alloc, hidden)?,
        nought(),
    )
}

/// The turns of a `repeat`, as long as a count in a variable is more than 0. Fails where memory is refused.
fn turns_of(
    alloc: Global,
    hidden: &str,
    body: SourceStatement,
) -> Result<SourceStatement, AllocError>
    ensures { IfOk result (λ made. source_statement_of made ≡ spec.while_true (syntax.Binary BinaryOperator.Greater (syntax.Register hidden.now) spec.nought)
        (syntax.Assign hidden.now None (syntax.Binary BinaryOperator.Subtract (syntax.Register hidden.now) spec.one) ∷ source_statement_of body ∷ [])) }
{
    let (body, less) = beside(body, less_one(alloc, hidden))?;
    let turn = pair(alloc, less, body)?;
    Ok(while_of(is_left(alloc, hidden)?, turn))
}

/// `repeat (count) body`, whose count is held by a hidden variable (9.6). Fails where memory is refused.
pub fn repeat_of(
    alloc: Global,
    hidden: &str,
    count: SourceExpression,
    body: SourceStatement,
) -> Result<SourceStatement, AllocError>
    ensures { IfOk result (λ made. source_statement_of made ≡ spec.repeat_loop hidden.now (source_expression_of count) (source_statement_of body)) }
{
    let (given, name) = beside((count, body), String::from_str(alloc, hidden))?;
    let (count, body) = given;
    let taken = assign_of(name, None, count);
    let (start, turns) = beside(taken, turns_of(alloc, hidden, body))?;
    Ok(block_of(pair(alloc, start, turns)?))
}

/// Whether no digit of a condition is 1. Fails where memory is refused.
fn has_no_one(alloc: Global, condition: SourceExpression) -> Result<SourceExpression, AllocError>
    ensures { IfOk result (λ made. source_expression_of made ≡ syntax.Binary BinaryOperator.CaseNotEqual (syntax.Unary UnaryOperator.ReduceOr (source_expression_of condition)) spec.one) }
{
    let some = unary_of(alloc, UnaryOperator::ReduceOr, condition)?;
    binary_of(alloc, BinaryOperator::CaseNotEqual, some, one())
}

/// A wait for one of some changes. Fails where memory is refused.
fn changes_once(
    alloc: Global,
    changes: Vec<EventExpression>,
) -> Result<Vec<SourceStatement>, AllocError>
    ensures { IfOk result (λ made. core_statements made ≡ syntax.Await (core_triggers changes) syntax.Empty ∷ []) }
{
    let wait = await_of(alloc, changes, SourceStatement::Empty)?;
    alone(alloc, wait)
}

/// `wait (condition) body`, which waits for changes of what the condition reads (9.7.6). Fails where memory is refused.
pub fn wait_of(
    alloc: Global,
    condition: SourceExpression,
    changes: Vec<EventExpression>,
    body: SourceStatement,
) -> Result<SourceStatement, AllocError>
    ensures { IfOk result (λ made. source_statement_of made ≡ spec.wait_until (source_expression_of condition) (core_triggers changes) (source_statement_of body)) }
{
    let (body, none) = beside(body, has_no_one(alloc, condition))?;
    let (inner, wait) = beside((none, body), changes_once(alloc, changes))?;
    let (none, body) = inner;
    let waits = while_of(none, wait);
    Ok(block_of(pair(alloc, waits, body)?))
}
