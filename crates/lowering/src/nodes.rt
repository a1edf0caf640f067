//! The nodes of the core's statements, with what each stands for.

ghost use Rattle.std.specs.Prelude.{◌≡◌, [], ◌∷◌, string_bytes, IfOk};
ghost use Rattle.model.specs.SourceTrees.{source_expression_of, source_expressions, source_statement_of, source_statements};
ghost use Rattle.model.specs.Syntax as core;
ghost use Rattle.statement_forms.specs.Views.{core_statements, core_triggers};
ghost use Rattle.lowering.specs.Shown.{shown_in};

use crate::prints::PrintParts;
use model::tree::{EventExpression, SourceExpression, SourceStatement, Task};
use std::alloc::{AllocError, Global};

/// A node, unless memory is refused.
pub(crate) type CoreNode<T> = Result<T, AllocError>;

/// An assignment.
pub(crate) fn assign_of(
    name: String,
    delay: Option<u64>,
    value: SourceExpression,
) -> SourceStatement
    ensures { source_statement_of result ≡ core.Assign (string_bytes name) delay (source_expression_of value) }
{
    SourceStatement::Assign(name, delay, value)
}

/// A nonblocking assignment.
pub(crate) fn assign_later_of(
    name: String,
    delay: Option<u64>,
    value: SourceExpression,
) -> SourceStatement
    ensures { source_statement_of result ≡ core.AssignLater (string_bytes name) delay (source_expression_of value) }
{
    SourceStatement::AssignLater(name, delay, value)
}

/// The assignment of the time.
pub(crate) fn now_of(name: String) -> SourceStatement
    ensures { source_statement_of result ≡ core.Now (string_bytes name) }
{
    SourceStatement::Now(name)
}

/// A statement behind a delay.
pub(crate) fn delay_of(delay: u64, body: Box<SourceStatement>) -> SourceStatement
    ensures { source_statement_of result ≡ core.Delay delay (source_statement_of body.value) }
{
    SourceStatement::Delay(delay, body)
}

/// A statement behind an event control.
pub(crate) fn await_of(events: Vec<EventExpression>, body: Box<SourceStatement>) -> SourceStatement
    ensures { source_statement_of result ≡ core.Await (core_triggers events) (source_statement_of body.value) }
{
    SourceStatement::Await(events, body)
}

/// Statements one after another.
pub(crate) fn block_of(body: Vec<SourceStatement>) -> SourceStatement
    ensures { source_statement_of result ≡ core.Block (source_statements (core_statements body)) }
{
    SourceStatement::Block(body)
}

/// Statements as long as a test is true.
pub(crate) fn while_of(test: SourceExpression, body: Vec<SourceStatement>) -> SourceStatement
    ensures { source_statement_of result ≡ core.While (source_expression_of test) (source_statements (core_statements body)) }
{
    SourceStatement::While(test, body)
}

/// A print of what is shown.
pub(crate) fn print_of(task: Task, shown: PrintParts) -> SourceStatement
    ensures { source_statement_of result ≡ core.PrintPieces task (shown_in shown).0 (source_expressions (shown_in shown).1) }
{
    let PrintParts { pieces, arguments } = shown;
    SourceStatement::PrintPieces(task, pieces, arguments)
}

/// A vector of one statement.
pub(crate) fn one_of(alloc: Global, s: SourceStatement) -> CoreNode<Vec<SourceStatement>>
    ensures { IfOk result (λ made. core_statements made ≡ source_statement_of s ∷ []) }
{
    let mut made = Vec::new(alloc);
    made.push(s)?;
    Ok(made)
}
