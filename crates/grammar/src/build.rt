//! The nodes of a tree, with what each stands for.

ghost use Rattle.std.specs.Prelude.{◌≡◌, IfOk};
ghost use Rattle.grammar.specs.Cursor.{Builds};
ghost use Rattle.tokens.specs.Lexing.{string_text};
ghost use Rattle.model.specs.SourceTrees.{source_expression_of, source_statement_of};
ghost use Rattle.model.specs.SourceTrees.{source_expressions, source_statements};
ghost use Rattle.grammar.specs.Nodes.{parsed_assign, expressions_view, statements_view, triggers_view};
ghost use Rattle.model.specs.Syntax as tree;

use crate::fault::Read;
use crate::strings;
use logic4::bits::Bits;
use model::tree::{
    BinaryOperator, EventExpression, SourceExpression, SourceStatement, Task, UnaryOperator,
};
use std::alloc::{AllocError, Global};

pub fn name_of(alloc: Global, name: &str) -> Read<SourceExpression>
    ensures { Builds source_expression_of (tree.Register name.now) result }
{
    Ok(SourceExpression::Name(String::from_str(alloc, name)?))
}

pub fn select_of(alloc: Global, name: &str, index: u64) -> Read<SourceExpression>
    ensures { Builds source_expression_of (tree.Select name.now index) result }
{
    Ok(SourceExpression::Select(String::from_str(alloc, name)?, index))
}

pub fn literal_of(bits: Bits) -> SourceExpression
    ensures { source_expression_of result ≡ tree.Literal bits }
{
    SourceExpression::Literal(bits)
}

pub fn concat_of(
    alloc: Global,
    first: SourceExpression,
    others: Vec<SourceExpression>,
) -> Read<SourceExpression>
    ensures { Builds source_expression_of (tree.Concat (tree.Also (source_expression_of first) (source_expressions (expressions_view others)))) result }
{
    Ok(SourceExpression::Concat(Box::new(alloc, first)?, others))
}

pub fn unary_of(alloc: Global, op: UnaryOperator, e: SourceExpression) -> Read<SourceExpression>
    ensures { Builds source_expression_of (tree.Unary op (source_expression_of e)) result }
{
    Ok(SourceExpression::Unary(op, Box::new(alloc, e)?))
}

pub fn binary_of(
    alloc: Global,
    op: BinaryOperator,
    left: SourceExpression,
    right: SourceExpression,
) -> Result<SourceExpression, AllocError>
    ensures { IfOk result
        (λ made. source_expression_of made ≡ tree.Binary op (source_expression_of left) (source_expression_of right)) }
{
    Ok(SourceExpression::Binary(op, Box::new(alloc, left)?, Box::new(alloc, right)?))
}

/// One of two expressions, by a test. Fails where memory is refused.
pub fn conditional_of(
    alloc: Global,
    test: SourceExpression,
    yes: SourceExpression,
    no: SourceExpression,
) -> Read<SourceExpression>
    ensures { Builds source_expression_of (tree.Conditional (source_expression_of test) (source_expression_of yes) (source_expression_of no)) result }
{
    Ok(SourceExpression::Conditional(
        Box::new(alloc, test)?,
        Box::new(alloc, yes)?,
        Box::new(alloc, no)?,
    ))
}

pub fn block_of(body: Vec<SourceStatement>) -> SourceStatement
    ensures { source_statement_of result ≡ tree.Block (source_statements (statements_view body)) }
{
    SourceStatement::Block(body)
}

/// An assignment, with a copy of the register's name: a nonblocking one, or a blocking one. Fails where memory is refused.
pub fn assignment_of(
    alloc: Global,
    is_later: bool,
    name: &str,
    delay: Option<u64>,
    value: SourceExpression,
) -> Read<SourceStatement>
    ensures { Builds source_statement_of (parsed_assign is_later name.now delay (source_expression_of value)) result }
{
    let name = String::from_str(alloc, name)?;
    if is_later {
        return Ok(SourceStatement::AssignLater(name, delay, value));
    }
    Ok(SourceStatement::Assign(name, delay, value))
}

pub fn delay_of(alloc: Global, delay: u64, body: SourceStatement) -> Read<SourceStatement>
    ensures { Builds source_statement_of (tree.Delay delay (source_statement_of body)) result }
{
    Ok(SourceStatement::Delay(delay, Box::new(alloc, body)?))
}

pub fn await_of(
    alloc: Global,
    events: Vec<EventExpression>,
    body: SourceStatement,
) -> Read<SourceStatement>
    ensures { Builds source_statement_of (tree.Await (triggers_view events) (source_statement_of body)) result }
{
    Ok(SourceStatement::Await(events, Box::new(alloc, body)?))
}

pub fn if_of(test: SourceExpression, body: Vec<SourceStatement>) -> SourceStatement
    ensures { source_statement_of result ≡ tree.If (source_expression_of test) (source_statements (statements_view body)) }
{
    SourceStatement::If(test, body)
}

pub fn if_else_of(
    test: SourceExpression,
    body: Vec<SourceStatement>,
    other: Vec<SourceStatement>,
) -> SourceStatement
    ensures { source_statement_of result ≡ tree.IfElse (source_expression_of test) (source_statements (statements_view body)) (source_statements (statements_view other)) }
{
    SourceStatement::IfElse(test, body, other)
}

pub fn while_of(test: SourceExpression, body: Vec<SourceStatement>) -> SourceStatement
    ensures { source_statement_of result ≡ tree.While (source_expression_of test) (source_statements (statements_view body)) }
{
    SourceStatement::While(test, body)
}

/// A print, with the text of the string that is its format. Fails where memory is refused.
pub fn print_of(
    alloc: Global,
    task: Task,
    format: &str,
    arguments: Vec<SourceExpression>,
) -> Read<SourceStatement>
    ensures { Builds source_statement_of (tree.Print task (string_text format.now) (source_expressions (expressions_view arguments))) result }
{
    let format = strings::string_text(alloc, format.as_bytes())?;
    Ok(SourceStatement::Print(task, format, arguments))
}
