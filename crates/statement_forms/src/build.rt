//! The nodes of the core's trees, with what each stands for.

ghost use Rattle.std.specs.Prelude.{◌≡◌, [], ◌∷◌, Ok, string_bytes, IfOk};
ghost use Rattle.model.specs.SourceTrees.{source_expression_of, source_statement_of, source_statements};
ghost use Rattle.statement_forms.specs.Views.{core_statements, core_triggers};
ghost use Rattle.model.specs.Syntax as tree;

use logic4::bits::Bits;
use model::tree::{
    BinaryOperator, EventExpression, SourceExpression, SourceStatement, UnaryOperator,
};
use std::alloc::{AllocError, Global};

/// Something that is kept while something else is made, with that. Fails where that did.
pub(crate) fn beside<T: Drop, U>(kept: T, made: Result<U, AllocError>) -> Result<(T, U), AllocError>
    ensures { IfOk result (λ both. (both.0 ≡ kept) × (made ≡ Ok both.1)) }
{
    match made {
        Ok(other) => Ok((kept, other)),
        Err(refused) => Err(refused),
    }
}

/// Two values, each in a box. Fails where memory is refused.
fn boxes<T: Drop>(alloc: Global, left: T, right: T) -> Result<(Box<T>, Box<T>), AllocError>
    ensures { IfOk result (λ both. (both.0.value ≡ left) × (both.1.value ≡ right)) }
{
    let left = Box::new(alloc, left)?;
    let right = Box::new(alloc, right)?;
    Ok((left, right))
}

/// A vector of two values. Fails where memory is refused.
pub(crate) fn pair<T: Drop>(alloc: Global, first: T, second: T) -> Result<Vec<T>, AllocError>
    ensures { IfOk result (λ made. made.items ≡ first ∷ second ∷ []) }
{
    let mut made = Vec::new(alloc);
    made.push(first)?;
    made.push(second)?;
    Ok(made)
}

/// What a name stands for. Fails where memory is refused.
pub(crate) fn name_of(alloc: Global, name: &str) -> Result<SourceExpression, AllocError>
    ensures { IfOk result (λ made. source_expression_of made ≡ tree.Register name.now) }
{
    Ok(SourceExpression::Name(String::from_str(alloc, name)?))
}

/// A literal.
pub(crate) fn literal_of(bits: Bits) -> SourceExpression
    ensures { source_expression_of result ≡ tree.Literal bits }
{
    SourceExpression::Literal(bits)
}

/// An operator before an operand. Fails where memory is refused.
pub(crate) fn unary_of(
    alloc: Global,
    op: UnaryOperator,
    e: SourceExpression,
) -> Result<SourceExpression, AllocError>
    ensures { IfOk result (λ made. source_expression_of made ≡ tree.Unary op (source_expression_of e)) }
{
    Ok(SourceExpression::Unary(op, Box::new(alloc, e)?))
}

/// An operator between two operands. Fails where memory is refused.
pub(crate) fn binary_of(
    alloc: Global,
    op: BinaryOperator,
    left: SourceExpression,
    right: SourceExpression,
) -> Result<SourceExpression, AllocError>
    ensures { IfOk result
        (λ made. source_expression_of made ≡ tree.Binary op (source_expression_of left) (source_expression_of right)) }
{
    let (left, right) = boxes(alloc, left, right)?;
    Ok(SourceExpression::Binary(op, left, right))
}

/// Statements one after another.
pub(crate) fn block_of(body: Vec<SourceStatement>) -> SourceStatement
    ensures { source_statement_of result ≡ tree.Block (source_statements (core_statements body)) }
{
    SourceStatement::Block(body)
}

/// An assignment.
pub(crate) fn assign_of(
    name: String,
    delay: Option<u64>,
    value: SourceExpression,
) -> SourceStatement
    ensures { source_statement_of result ≡ tree.Assign (string_bytes name) delay (source_expression_of value) }
{
    SourceStatement::Assign(name, delay, value)
}

/// A statement behind an event control. Fails where memory is refused.
pub(crate) fn await_of(
    alloc: Global,
    events: Vec<EventExpression>,
    body: SourceStatement,
) -> Result<SourceStatement, AllocError>
    ensures { IfOk result (λ made. source_statement_of made ≡ tree.Await (core_triggers events) (source_statement_of body)) }
{
    Ok(SourceStatement::Await(events, Box::new(alloc, body)?))
}

/// One of two lists of statements, by a test.
pub(crate) fn if_else_of(
    test: SourceExpression,
    body: Vec<SourceStatement>,
    other: Vec<SourceStatement>,
) -> SourceStatement
    ensures { source_statement_of result ≡ tree.IfElse (source_expression_of test) (source_statements (core_statements body)) (source_statements (core_statements other)) }
{
    SourceStatement::IfElse(test, body, other)
}

/// Statements as long as a test is true.
pub(crate) fn while_of(test: SourceExpression, body: Vec<SourceStatement>) -> SourceStatement
    ensures { source_statement_of result ≡ tree.While (source_expression_of test) (source_statements (core_statements body)) }
{
    SourceStatement::While(test, body)
}
