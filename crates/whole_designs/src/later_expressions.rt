//! What this language lacks still in expressions.

use crate::later::LaterPlaces;
use design_faults::refused::LaterForm;
use statement_parts::times::is_time_function;
use syntax_tree::expressions::{VerilogBinaryOperator, VerilogExpression};

/// Whether an operator is one of those that aren't supported yet.
fn is_later(operator: VerilogBinaryOperator) -> bool {
    match operator {
        VerilogBinaryOperator::Multiply
        | VerilogBinaryOperator::Divide
        | VerilogBinaryOperator::Modulus
        | VerilogBinaryOperator::Power
        | VerilogBinaryOperator::ArithmeticShiftRight => true,
        _ => false,
    }
}

/// Whether a system function is one that this language has.
fn is_known_function(name: &[u8]) -> bool {
    name == b"$signed".as_slice() || name == b"$unsigned".as_slice() || is_time_function(name)
}

/// Adds what an expression has.
#[cycle(later_expression)]
pub(crate) fn add_expression(found: &mut LaterPlaces, e: &VerilogExpression) {
    match e {
        VerilogExpression::Real { token, .. } => found.add(*token, LaterForm::Real),
        VerilogExpression::Number {
            token,
            sized,
            cut,
            ..
        } => {
            if *cut && !*sized {
                found.add(*token, LaterForm::LongNumber);
            }
        }
        VerilogExpression::Call { arguments, .. } => add_expressions(found, arguments.as_slice()),
        VerilogExpression::SystemCall {
            token,
            name,
            arguments,
        } => {
            if is_known_function(name.as_slice()) {
                add_expressions(found, arguments.as_slice());
            } else {
                found.add(*token, LaterForm::SystemFunction);
            }
        }
        VerilogExpression::Index { base, index, .. } => {
            add_expression(found, base);
            add_expression(found, index);
        }
        VerilogExpression::Part {
            base,
            first,
            second,
            ..
        } => {
            add_expression(found, base);
            add_expression(found, first);
            add_expression(found, second);
        }
        VerilogExpression::Concatenation { parts, .. } => add_expressions(found, parts.as_slice()),
        VerilogExpression::Replication { count, parts, .. } => {
            add_expression(found, count);
            add_expressions(found, parts.as_slice());
        }
        VerilogExpression::Unary { operand, .. } => add_expression(found, operand),
        VerilogExpression::Binary {
            token,
            operator,
            left,
            right,
        } => {
            if is_later(*operator) {
                found.add(*token, LaterForm::Arithmetic);
            }
            add_expression(found, left);
            add_expression(found, right);
        }
        VerilogExpression::Conditional {
            condition,
            first,
            second,
            ..
        } => {
            add_expression(found, condition);
            add_expression(found, first);
            add_expression(found, second);
        }
        _ => {}
    }
}

/// Adds what expressions have.
#[cycle(later_expression)]
pub(crate) fn add_expressions(found: &mut LaterPlaces, all: &[VerilogExpression]) {
    for e in all {
        add_expression(found, e);
    }
}
