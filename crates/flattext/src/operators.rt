//! The signs of operators, and how strongly they bind.

ghost use Rattle.std.specs.Prelude.{◌≡◌, ◌<◌};
ghost use Rattle.flattext.specs.Operators as spec;

use model::tree::{BinaryOperator, UnaryOperator};

/// How strongly `? :` binds, the least of all (5.1.2).
pub(crate) const CONDITIONAL: u32 = 0;

/// How strongly an operator before its operand binds.
pub(crate) const UNARY: u32 = 10;

/// How strongly names, literals and what stands in brackets hold together.
pub(crate) const PRIMARY: u32 = 11;

/// The sign of an operator before its operand.
pub(crate) fn unary_sign(operator: UnaryOperator) -> &'static str
    ensures { result.now ≡ spec.unary_sign operator }
{
    match operator {
        UnaryOperator::LogicalNot => "!",
        UnaryOperator::Not => "~",
        UnaryOperator::ReduceAnd => "&",
        UnaryOperator::ReduceOr => "|",
        UnaryOperator::ReduceXor => "^",
    }
}

/// The sign of an operator between its operands.
pub(crate) fn binary_sign(operator: BinaryOperator) -> &'static str
    ensures { result.now ≡ spec.binary_sign operator }
{
    match operator {
        BinaryOperator::LogicalOr => "||",
        BinaryOperator::LogicalAnd => "&&",
        BinaryOperator::Or => "|",
        BinaryOperator::Xor => "^",
        BinaryOperator::And => "&",
        BinaryOperator::Equal => "==",
        BinaryOperator::NotEqual => "!=",
        BinaryOperator::CaseEqual => "===",
        BinaryOperator::CaseNotEqual => "!==",
        BinaryOperator::Less => "<",
        BinaryOperator::LessEqual => "<=",
        BinaryOperator::Greater => ">",
        BinaryOperator::GreaterEqual => ">=",
        BinaryOperator::SignedLess => "<",
        BinaryOperator::SignedLessEqual => "<=",
        BinaryOperator::ShiftLeft => "<<",
        BinaryOperator::ShiftRight => ">>",
        BinaryOperator::Add => "+",
        BinaryOperator::Subtract => "-",
    }
}

/// How strongly an operator between its operands binds (5.1.2, table 5-4).
pub(crate) fn binary_level(operator: BinaryOperator) -> u32
    ensures level { result ≡ spec.binary_level operator }
    ensures small { result < spec.unary_level }
{
    match operator {
        BinaryOperator::LogicalOr => 1,
        BinaryOperator::LogicalAnd => 2,
        BinaryOperator::Or => 3,
        BinaryOperator::Xor => 4,
        BinaryOperator::And => 5,
        BinaryOperator::Equal
        | BinaryOperator::NotEqual
        | BinaryOperator::CaseEqual
        | BinaryOperator::CaseNotEqual => 6,
        BinaryOperator::Less
        | BinaryOperator::LessEqual
        | BinaryOperator::Greater
        | BinaryOperator::GreaterEqual
        | BinaryOperator::SignedLess
        | BinaryOperator::SignedLessEqual => 7,
        BinaryOperator::ShiftLeft | BinaryOperator::ShiftRight => 8,
        BinaryOperator::Add | BinaryOperator::Subtract => 9,
    }
}

/// Whether an operator takes its operands as numbers with signs (5.5).
pub(crate) fn takes_signs(operator: BinaryOperator) -> bool
    ensures { result ≡ spec.takes_signs operator }
{
    match operator {
        BinaryOperator::SignedLess | BinaryOperator::SignedLessEqual => true,
        _ => false,
    }
}
