//! The nodes of an expression, with what each stands for.

ghost use Rattle.std.specs.Prelude.{◌≡◌, IfOk};
ghost use Rattle.syntax_tree.specs.Expressions.{plain_expression_of, plain_expressions, plain_expressions_of};
ghost use Rattle.syntax_tree.specs.Expressions as tree;

use numerals::number::Number;
use std::alloc::{AllocError, Global};
use syntax_tree::expressions::{
    PartForm, VerilogBinaryOperator, VerilogExpression, VerilogUnaryOperator,
};

/// A node in a box of its own. Fails where memory is refused.
fn boxed(alloc: Global, node: VerilogExpression) -> Result<Box<VerilogExpression>, AllocError>
    ensures { IfOk result (λ made. made.value ≡ node) }
{
    Ok(Box::new(alloc, node)?)
}

pub fn number_of(
    alloc: Global,
    token: usize,
    number: &Number,
) -> Result<Box<VerilogExpression>, AllocError>
    ensures { IfOk result
        (λ made. plain_expression_of made.value ≡ tree.Number token number.now.sized number.now.signed number.now.cut number.now.digits) }
{
    let digits = Box::new(alloc, number.digits)?;
    boxed(
        alloc,
        VerilogExpression::Number {
            token,
            sized: number.sized,
            signed: number.signed,
            cut: number.cut,
            digits,
        },
    )
}

pub fn refused_of(alloc: Global, token: usize) -> Result<Box<VerilogExpression>, AllocError>
    ensures { IfOk result (λ made. plain_expression_of made.value ≡ tree.Refused token) }
{
    boxed(alloc, VerilogExpression::Refused { token })
}

pub fn real_of(
    alloc: Global,
    token: usize,
    text: Vec<u8>,
) -> Result<Box<VerilogExpression>, AllocError>
    ensures { IfOk result (λ made. plain_expression_of made.value ≡ tree.Real token text.items) }
{
    boxed(alloc, VerilogExpression::Real { token, text })
}

pub fn text_of(
    alloc: Global,
    token: usize,
    bytes: Vec<u8>,
) -> Result<Box<VerilogExpression>, AllocError>
    ensures { IfOk result (λ made. plain_expression_of made.value ≡ tree.Text token bytes.items) }
{
    boxed(alloc, VerilogExpression::Text { token, bytes })
}

pub fn name_of(
    alloc: Global,
    token: usize,
    name: Vec<u8>,
) -> Result<Box<VerilogExpression>, AllocError>
    ensures { IfOk result (λ made. plain_expression_of made.value ≡ tree.Name token name.items) }
{
    boxed(alloc, VerilogExpression::Name { token, name })
}

pub fn member_of(
    alloc: Global,
    token: usize,
    scope: Box<VerilogExpression>,
    name: Vec<u8>,
) -> Result<Box<VerilogExpression>, AllocError>
    ensures { IfOk result (λ made. plain_expression_of made.value ≡ tree.Member token (plain_expression_of scope.value) name.items) }
{
    boxed(alloc, VerilogExpression::Member { token, scope, name })
}

pub fn index_of(
    alloc: Global,
    token: usize,
    base: Box<VerilogExpression>,
    index: Box<VerilogExpression>,
) -> Result<Box<VerilogExpression>, AllocError>
    ensures { IfOk result (λ made. plain_expression_of made.value ≡ tree.Index token (plain_expression_of base.value) (plain_expression_of index.value)) }
{
    boxed(alloc, VerilogExpression::Index { token, base, index })
}

/// A part select, by what it selects of and by the two expressions in its brackets.
pub fn part_of(
    alloc: Global,
    token: usize,
    form: PartForm,
    base: Box<VerilogExpression>,
    bounds: (Box<VerilogExpression>, Box<VerilogExpression>),
) -> Result<Box<VerilogExpression>, AllocError>
    ensures { IfOk result
        (λ made. plain_expression_of made.value ≡ tree.Part token form (plain_expression_of base.value) (plain_expression_of bounds.0.value) (plain_expression_of bounds.1.value)) }
{
    let (first, second) = bounds;
    boxed(
        alloc,
        VerilogExpression::Part {
            token,
            form,
            base,
            first,
            second,
        },
    )
}

pub fn call_of(
    alloc: Global,
    token: usize,
    function: Box<VerilogExpression>,
    arguments: Vec<VerilogExpression>,
) -> Result<Box<VerilogExpression>, AllocError>
    ensures { IfOk result (λ made. plain_expression_of made.value ≡ tree.Call token (plain_expression_of function.value) (plain_expressions (plain_expressions_of arguments))) }
{
    boxed(
        alloc,
        VerilogExpression::Call {
            token,
            function,
            arguments,
        },
    )
}

pub fn system_call_of(
    alloc: Global,
    token: usize,
    name: Vec<u8>,
    arguments: Vec<VerilogExpression>,
) -> Result<Box<VerilogExpression>, AllocError>
    ensures { IfOk result (λ made. plain_expression_of made.value ≡ tree.SystemCall token name.items (plain_expressions (plain_expressions_of arguments))) }
{
    boxed(
        alloc,
        VerilogExpression::SystemCall {
            token,
            name,
            arguments,
        },
    )
}

pub fn concatenation_of(
    alloc: Global,
    token: usize,
    parts: Vec<VerilogExpression>,
) -> Result<Box<VerilogExpression>, AllocError>
    ensures { IfOk result (λ made. plain_expression_of made.value ≡ tree.Concatenation token (plain_expressions (plain_expressions_of parts))) }
{
    boxed(alloc, VerilogExpression::Concatenation { token, parts })
}

pub fn replication_of(
    alloc: Global,
    token: usize,
    count: Box<VerilogExpression>,
    parts: Vec<VerilogExpression>,
) -> Result<Box<VerilogExpression>, AllocError>
    ensures { IfOk result
        (λ made. plain_expression_of made.value ≡ tree.Replication token (plain_expression_of count.value) (plain_expressions (plain_expressions_of parts))) }
{
    boxed(
        alloc,
        VerilogExpression::Replication {
            token,
            count,
            parts,
        },
    )
}

pub fn unary_of(
    alloc: Global,
    token: usize,
    operator: VerilogUnaryOperator,
    operand: Box<VerilogExpression>,
) -> Result<Box<VerilogExpression>, AllocError>
    ensures { IfOk result (λ made. plain_expression_of made.value ≡ tree.Unary token operator (plain_expression_of operand.value)) }
{
    boxed(
        alloc,
        VerilogExpression::Unary {
            token,
            operator,
            operand,
        },
    )
}

pub fn binary_of(
    alloc: Global,
    token: usize,
    operator: VerilogBinaryOperator,
    left: Box<VerilogExpression>,
    right: Box<VerilogExpression>,
) -> Result<Box<VerilogExpression>, AllocError>
    ensures { IfOk result (λ made. plain_expression_of made.value ≡ tree.Binary token operator (plain_expression_of left.value) (plain_expression_of right.value)) }
{
    boxed(
        alloc,
        VerilogExpression::Binary {
            token,
            operator,
            left,
            right,
        },
    )
}

/// One of two expressions, by a condition.
pub fn conditional_of(
    alloc: Global,
    token: usize,
    condition: Box<VerilogExpression>,
    first: Box<VerilogExpression>,
    second: Box<VerilogExpression>,
) -> Result<Box<VerilogExpression>, AllocError>
    ensures { IfOk result
        (λ made. plain_expression_of made.value ≡ tree.Conditional token (plain_expression_of condition.value) (plain_expression_of first.value) (plain_expression_of second.value)) }
{
    boxed(
        alloc,
        VerilogExpression::Conditional {
            token,
            condition,
            first,
            second,
        },
    )
}
