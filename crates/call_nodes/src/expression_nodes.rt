//! The nodes of expressions with operands, with what each stands for.

ghost use Rattle.std.specs.Prelude.{◌≡◌, IfOk};
ghost use Rattle.syntax_tree.specs.Expressions as tree;
ghost use Rattle.syntax_tree.specs.Expressions.{plain_expression_of, plain_expressions, plain_expressions_of};

use crate::nodes::MadeNode;
use logic4::bits::Bits;
use scopes::scope::copied;
use std::alloc::Global;
use syntax_tree::expressions::{PartForm, VerilogBinaryOperator, VerilogExpression};

/// The spelling of a number: whether it has a size and a sign, and whether digits were cut from it.
#[derive(Clone, Copy)]
pub struct NumberForm {
    pub sized: bool,
    pub signed: bool,
    pub cut: bool,
}

pub fn number_of(
    alloc: Global,
    token: usize,
    form: NumberForm,
    digits: Bits,
) -> MadeNode<VerilogExpression>
    ensures { IfOk result (λ made. plain_expression_of made ≡ tree.Number token form.sized form.signed form.cut digits) }
{
    let digits = Box::new(alloc, digits)?;
    Ok(VerilogExpression::Number {
        token,
        sized: form.sized,
        signed: form.signed,
        cut: form.cut,
        digits,
    })
}

pub fn real_of(alloc: Global, token: usize, text: &[u8]) -> MadeNode<VerilogExpression>
    ensures { IfOk result (λ made. plain_expression_of made ≡ tree.Real token text.now) }
{
    let text = copied(alloc, text)?;
    Ok(VerilogExpression::Real { token, text })
}

pub fn text_of(alloc: Global, token: usize, bytes: &[u8]) -> MadeNode<VerilogExpression>
    ensures { IfOk result (λ made. plain_expression_of made ≡ tree.Text token bytes.now) }
{
    let bytes = copied(alloc, bytes)?;
    Ok(VerilogExpression::Text { token, bytes })
}

pub fn system_call_of(
    alloc: Global,
    token: usize,
    name: &[u8],
    arguments: Vec<VerilogExpression>,
) -> MadeNode<VerilogExpression>
    ensures { IfOk result (λ made. plain_expression_of made ≡ tree.SystemCall token name.now (plain_expressions (plain_expressions_of arguments))) }
{
    let name = copied(alloc, name)?;
    Ok(VerilogExpression::SystemCall {
        token,
        name,
        arguments,
    })
}

/// A part select, by what it selects of and by the two expressions in its brackets.
pub fn part_of(
    alloc: Global,
    token: usize,
    form: PartForm,
    base: VerilogExpression,
    bounds: (VerilogExpression, VerilogExpression),
) -> MadeNode<VerilogExpression>
    ensures { IfOk result
        (λ made. plain_expression_of made ≡ tree.Part token form (plain_expression_of base) (plain_expression_of bounds.0) (plain_expression_of bounds.1)) }
{
    let base = Box::new(alloc, base)?;
    let first = Box::new(alloc, bounds.0)?;
    let second = Box::new(alloc, bounds.1)?;
    Ok(VerilogExpression::Part {
        token,
        form,
        base,
        first,
        second,
    })
}

/// A binary operation.
pub fn binary_of(
    alloc: Global,
    token: usize,
    operator: VerilogBinaryOperator,
    left: VerilogExpression,
    right: VerilogExpression,
) -> MadeNode<VerilogExpression>
    ensures { IfOk result (λ made. plain_expression_of made ≡ tree.Binary token operator (plain_expression_of left) (plain_expression_of right)) }
{
    let left = Box::new(alloc, left)?;
    let right = Box::new(alloc, right)?;
    Ok(VerilogExpression::Binary {
        token,
        operator,
        left,
        right,
    })
}
