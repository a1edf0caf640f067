//! Copies of expressions.

ghost use Rattle.std.specs.Prelude.{◌≡◌, map, IfOk};
ghost use Rattle.syntax_tree.specs.Expressions.{plain_expression_of};

use crate::expression_nodes::{NumberForm, number_of, real_of, system_call_of, text_of};
use crate::nodes::{MadeNode, member_of, name_node};
use std::alloc::Global;
use syntax_tree::expressions::VerilogExpression;

/// A copy of an expression. Fails where memory is refused.
#[cycle(copying)]
pub fn copied_expression(alloc: Global, e: &VerilogExpression) -> MadeNode<VerilogExpression>
    ensures { IfOk result (λ made. plain_expression_of made ≡ plain_expression_of e.now) }
{
    match e {
        VerilogExpression::Number {
            token,
            sized,
            signed,
            cut,
            digits,
        } => {
            let form = NumberForm {
                sized: *sized,
                signed: *signed,
                cut: *cut,
            };
            number_of(alloc, *token, form, **digits)
        }
        VerilogExpression::Real { token, text } => real_of(alloc, *token, text.as_slice()),
        VerilogExpression::Text { token, bytes } => text_of(alloc, *token, bytes.as_slice()),
        VerilogExpression::Name { token, name } => name_node(alloc, *token, name.as_slice()),
        VerilogExpression::Member { token, scope, name } => {
            let scope = copied_expression(alloc, scope)?;
            member_of(alloc, *token, scope, name.as_slice())
        }
        VerilogExpression::Index { token, base, index } => {
            let token = *token;
            let base = copied_box(alloc, base)?;
            let index = copied_box(alloc, index)?;
            Ok(VerilogExpression::Index { token, base, index })
        }
        VerilogExpression::Part {
            token,
            form,
            base,
            first,
            second,
        } => {
            let (token, form) = (*token, *form);
            let base = copied_box(alloc, base)?;
            let first = copied_box(alloc, first)?;
            let second = copied_box(alloc, second)?;
            Ok(VerilogExpression::Part {
                token,
                form,
                base,
                first,
                second,
            })
        }
        VerilogExpression::Call {
            token,
            function,
            arguments,
        } => {
            let token = *token;
            let function = copied_box(alloc, function)?;
            let arguments = copied_all(alloc, arguments.as_slice())?;
            Ok(VerilogExpression::Call {
                token,
                function,
                arguments,
            })
        }
        VerilogExpression::SystemCall {
            token,
            name,
            arguments,
        } => {
            let arguments = copied_all(alloc, arguments.as_slice())?;
            system_call_of(alloc, *token, name.as_slice(), arguments)
        }
        VerilogExpression::Concatenation { token, parts } => {
            let token = *token;
            let parts = copied_all(alloc, parts.as_slice())?;
            Ok(VerilogExpression::Concatenation { token, parts })
        }
        VerilogExpression::Replication {
            token,
            count,
            parts,
        } => {
            let token = *token;
            let count = copied_box(alloc, count)?;
            let parts = copied_all(alloc, parts.as_slice())?;
            Ok(VerilogExpression::Replication {
                token,
                count,
                parts,
            })
        }
        VerilogExpression::Unary {
            token,
            operator,
            operand,
        } => {
            let (token, operator) = (*token, *operator);
            let operand = copied_box(alloc, operand)?;
            Ok(VerilogExpression::Unary {
                token,
                operator,
                operand,
            })
        }
        VerilogExpression::Binary {
            token,
            operator,
            left,
            right,
        } => {
            let (token, operator) = (*token, *operator);
            let left = copied_box(alloc, left)?;
            let right = copied_box(alloc, right)?;
            Ok(VerilogExpression::Binary {
                token,
                operator,
                left,
                right,
            })
        }
        VerilogExpression::Conditional {
            token,
            condition,
            first,
            second,
        } => {
            let token = *token;
            let condition = copied_box(alloc, condition)?;
            let first = copied_box(alloc, first)?;
            let second = copied_box(alloc, second)?;
            Ok(VerilogExpression::Conditional {
                token,
                condition,
                first,
                second,
            })
        }
        VerilogExpression::Refused { token } => Ok(VerilogExpression::Refused { token: *token }),
    }
}

/// A copy of an expression, in a box. Fails where memory is refused.
#[cycle(copying)]
pub fn copied_box(alloc: Global, e: &VerilogExpression) -> MadeNode<Box<VerilogExpression>>
    ensures { IfOk result (λ made. plain_expression_of made.value ≡ plain_expression_of e.now) }
{
    let made = copied_expression(alloc, e)?;
    Ok(Box::new(alloc, made)?)
}

/// Copies of expressions, in their order. Fails where memory is refused.
#[cycle(copying)]
pub fn copied_all(alloc: Global, all: &[VerilogExpression]) -> MadeNode<Vec<VerilogExpression>>
    ensures { IfOk result (λ made. map plain_expression_of made.items ≡ map plain_expression_of all.now) }
{
    let mut made = Vec::new(alloc);
    for e in all {
        let next = copied_expression(alloc, e)?;
        made.push(next)?;
    }
    Ok(made)
}
