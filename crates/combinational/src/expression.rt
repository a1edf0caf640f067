//! The registers that an expression reads.
ghost use Rattle.std.specs.Prelude.{◌≡◌};
ghost use Rattle.model.specs.Syntax.{registers_of, all_registers_of};
ghost use Rattle.model.specs.Turns.{contains};
ghost use Rattle.design.specs.DesignTrees.{expression_of, expressions_of};

use design::RegId;
use design::tree::Expression;

/// Whether an expression reads a register.
#[cycle(reads)]
pub(crate) fn reads(expression: &Expression, register: RegId) -> bool
    ensures { result ≡ contains (registers_of (expression_of expression.now)) register }
{
    match expression {
        Expression::Register(own) => *own == register,
        Expression::Select(own, _) => *own == register,
        Expression::Literal(_) => false,
        Expression::Concat(parts) => any_reads(parts, register),
        Expression::Unary(_, operand) => reads(operand, register),
        Expression::Extend(_, _, operand) => reads(operand, register),
        Expression::Binary(_, left, right) => reads(left, register) || reads(right, register),
        Expression::Conditional(condition, first, second) => {
            reads(condition, register) || reads(first, register) || reads(second, register)
        }
    }
}

// Whether one of these expressions reads a register.
#[cycle(reads)]
fn any_reads(expressions: &[Expression], register: RegId) -> bool
    ensures { result ≡ contains (all_registers_of (expressions_of expressions.now)) register }
{
    for expression in expressions {
        if reads(expression, register) {
            return true;
        }
    }
    false
}
