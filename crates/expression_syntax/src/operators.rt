//! The operators, by their signs.

ghost use Rattle.std.specs.Prelude.{◌≡◌, ◌≤◌, IfSome};
ghost use Rattle.expression_syntax.specs.Operators as spec;

use lexemes::token::{Sign, TokenKind};
use syntax_tree::expressions::{PartForm, VerilogBinaryOperator, VerilogUnaryOperator};

/// The binary operator that a sign is, and its level: the greater, the tighter it binds (5.1.2, table 5-4).
fn binary_sign(sign: Sign) -> Option<(u8, VerilogBinaryOperator)>
    ensures value { result ≡ spec.binary_of_sign sign }
    ensures within { IfSome result (λ found. found.0 ≤ 11) }
{
    match sign {
        Sign::OrOr => Some((1, VerilogBinaryOperator::LogicalOr)),
        Sign::AndAnd => Some((2, VerilogBinaryOperator::LogicalAnd)),
        Sign::Bar => Some((3, VerilogBinaryOperator::BitwiseOr)),
        Sign::Caret => Some((4, VerilogBinaryOperator::BitwiseXor)),
        Sign::CaretTilde => Some((4, VerilogBinaryOperator::BitwiseXnor)),
        Sign::TildeCaret => Some((4, VerilogBinaryOperator::BitwiseXnor)),
        Sign::Ampersand => Some((5, VerilogBinaryOperator::BitwiseAnd)),
        Sign::Equal => Some((6, VerilogBinaryOperator::Equal)),
        Sign::NotEqual => Some((6, VerilogBinaryOperator::NotEqual)),
        Sign::Same => Some((6, VerilogBinaryOperator::CaseEqual)),
        Sign::NotSame => Some((6, VerilogBinaryOperator::CaseNotEqual)),
        Sign::Less => Some((7, VerilogBinaryOperator::Less)),
        Sign::AtMost => Some((7, VerilogBinaryOperator::LessEqual)),
        Sign::Greater => Some((7, VerilogBinaryOperator::Greater)),
        Sign::AtLeast => Some((7, VerilogBinaryOperator::GreaterEqual)),
        Sign::ShiftLeft => Some((8, VerilogBinaryOperator::ShiftLeft)),
        Sign::ShiftRight => Some((8, VerilogBinaryOperator::ShiftRight)),
        Sign::ShiftLeftArithmetic => Some((8, VerilogBinaryOperator::ArithmeticShiftLeft)),
        Sign::ShiftRightArithmetic => Some((8, VerilogBinaryOperator::ArithmeticShiftRight)),
        Sign::Plus => Some((9, VerilogBinaryOperator::Add)),
        Sign::Minus => Some((9, VerilogBinaryOperator::Subtract)),
        Sign::Star => Some((10, VerilogBinaryOperator::Multiply)),
        Sign::Slash => Some((10, VerilogBinaryOperator::Divide)),
        Sign::Percent => Some((10, VerilogBinaryOperator::Modulus)),
        Sign::StarStar => Some((11, VerilogBinaryOperator::Power)),
        _ => None,
    }
}

/// The binary operator that a token is, and its level.
pub fn binary_operator(kind: Option<TokenKind>) -> Option<(u8, VerilogBinaryOperator)>
    ensures value { result ≡ spec.binary_operator kind }
    ensures within { IfSome result (λ found. found.0 ≤ 11) }
{
    match kind {
        Some(TokenKind::Sign(sign)) => binary_sign(sign),
        _ => None,
    }
}

/// The unary operator that a sign is, if it is one (5.1).
fn unary_sign(sign: Sign) -> Option<VerilogUnaryOperator>
    ensures { result ≡ spec.unary_of_sign sign }
{
    match sign {
        Sign::Plus => Some(VerilogUnaryOperator::Plus),
        Sign::Minus => Some(VerilogUnaryOperator::Minus),
        Sign::Bang => Some(VerilogUnaryOperator::LogicalNot),
        Sign::Tilde => Some(VerilogUnaryOperator::BitwiseNot),
        Sign::Ampersand => Some(VerilogUnaryOperator::ReductionAnd),
        Sign::TildeAmpersand => Some(VerilogUnaryOperator::ReductionNand),
        Sign::Bar => Some(VerilogUnaryOperator::ReductionOr),
        Sign::TildeBar => Some(VerilogUnaryOperator::ReductionNor),
        Sign::Caret => Some(VerilogUnaryOperator::ReductionXor),
        Sign::TildeCaret => Some(VerilogUnaryOperator::ReductionXnor),
        Sign::CaretTilde => Some(VerilogUnaryOperator::ReductionXnor),
        _ => None,
    }
}

/// The unary operator that a token is, if it is one.
pub fn unary_operator(kind: Option<TokenKind>) -> Option<VerilogUnaryOperator>
    ensures { result ≡ spec.unary_operator kind }
{
    match kind {
        Some(TokenKind::Sign(sign)) => unary_sign(sign),
        _ => None,
    }
}

/// The form of a part select by the sign between its two expressions (5.2.1).
fn part_sign(sign: Sign) -> Option<PartForm>
    ensures { result ≡ spec.part_sign sign }
{
    match sign {
        Sign::Colon => Some(PartForm::Constant),
        Sign::PlusColon => Some(PartForm::Upward),
        Sign::MinusColon => Some(PartForm::Downward),
        _ => None,
    }
}

/// The form of a part select by the token between its two expressions.
pub fn part_form(kind: Option<TokenKind>) -> Option<PartForm>
    ensures { result ≡ spec.part_form kind }
{
    match kind {
        Some(TokenKind::Sign(sign)) => part_sign(sign),
        _ => None,
    }
}

/// What an operand without an operator before it is, by its first token (A.8.4).
#[derive(Clone, Copy)]
pub enum PrimaryForm {
    Number,
    Based,
    Real,
    Text,
    Name,
    SystemName,
    Braces,
    Parentheses,
    Nothing,
}

fn bracket_form(sign: Sign) -> PrimaryForm
    ensures { result ≡ spec.bracket_form sign }
{
    match sign {
        Sign::OpenCurly => PrimaryForm::Braces,
        Sign::Open => PrimaryForm::Parentheses,
        _ => PrimaryForm::Nothing,
    }
}

/// What an operand is whose first token is of a kind.
fn operand_form(kind: TokenKind) -> PrimaryForm
    ensures { result ≡ spec.operand_form kind }
{
    match kind {
        TokenKind::UnsignedNumber => PrimaryForm::Number,
        TokenKind::Base => PrimaryForm::Based,
        TokenKind::RealNumber => PrimaryForm::Real,
        TokenKind::Text => PrimaryForm::Text,
        TokenKind::Name | TokenKind::EscapedName => PrimaryForm::Name,
        TokenKind::SystemName => PrimaryForm::SystemName,
        TokenKind::Sign(sign) => bracket_form(sign),
        _ => PrimaryForm::Nothing,
    }
}

/// What an operand is, by its first token.
pub fn primary_form(kind: Option<TokenKind>) -> PrimaryForm
    ensures { result ≡ spec.primary_form kind }
{
    match kind {
        None => PrimaryForm::Nothing,
        Some(found) => operand_form(found),
    }
}
