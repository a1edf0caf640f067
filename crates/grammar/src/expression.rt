//! Expressions, by precedence climbing.

ghost use Rattle.std.specs.Prelude.{◌≡◌, ◌≤◌, true, IfOk, IfSome};
ghost use Rattle.grammar.specs.Cursor.{left_of, sees, Reads};
ghost use Rattle.model.specs.SourceTrees.{source_expression_of};
ghost use Rattle.grammar.specs.Nodes.{expressions_view};
ghost use Rattle.grammar.specs.Grammar as grammar;
ghost use Rattle.grammar.specs.Reading as spec;

use crate::build::{
    binary_of, concat_of, conditional_of, literal_of, name_of, select_of, unary_of,
};
use crate::cursor::Cursor;
use crate::fault::{GrammarFault, Read};
use model::tree::{BinaryOperator, SourceExpression, UnaryOperator};
use std::alloc::Global;
use tokens::token::Kind;

/// What stays the same while a text is read. What doesn't is a call's budget: how deep expressions and statements may still
/// nest, and how many turns each of its loops may take. The number of tokens suffices.
#[derive(Clone, Copy)]
pub struct Rules {
    pub alloc: Global,
    /// How many tokens are left where nesting ends, if it does.
    pub stop: Option<usize>,
}

/// The binary operator that a token of this kind is, and its level: the greater, the tighter it binds.
fn operator(kind: Kind) -> Option<(u8, BinaryOperator)>
    ensures value { result ≡ grammar.operator kind }
    ensures within { IfSome result (λ found. found.0 ≤ 9) }
{
    match kind {
        Kind::OrOr => Some((1, BinaryOperator::LogicalOr)),
        Kind::AndAnd => Some((2, BinaryOperator::LogicalAnd)),
        Kind::Bar => Some((3, BinaryOperator::Or)),
        Kind::Caret => Some((4, BinaryOperator::Xor)),
        Kind::Ampersand => Some((5, BinaryOperator::And)),
        Kind::Equal => Some((6, BinaryOperator::Equal)),
        Kind::NotEqual => Some((6, BinaryOperator::NotEqual)),
        Kind::Same => Some((6, BinaryOperator::CaseEqual)),
        Kind::NotSame => Some((6, BinaryOperator::CaseNotEqual)),
        Kind::Less => Some((7, BinaryOperator::Less)),
        Kind::AtMost => Some((7, BinaryOperator::LessEqual)),
        Kind::Greater => Some((7, BinaryOperator::Greater)),
        Kind::AtLeast => Some((7, BinaryOperator::GreaterEqual)),
        Kind::ShiftLeft => Some((8, BinaryOperator::ShiftLeft)),
        Kind::ShiftRight => Some((8, BinaryOperator::ShiftRight)),
        Kind::Plus => Some((9, BinaryOperator::Add)),
        Kind::Minus => Some((9, BinaryOperator::Subtract)),
        _ => None,
    }
}

/// The unary operator that a token of this kind is, if it is one.
fn prefix(kind: Kind) -> Option<UnaryOperator>
    ensures { result ≡ grammar.prefix kind }
{
    match kind {
        Kind::Bang => Some(UnaryOperator::LogicalNot),
        Kind::Tilde => Some(UnaryOperator::Not),
        Kind::Ampersand => Some(UnaryOperator::ReduceAnd),
        Kind::Bar => Some(UnaryOperator::ReduceOr),
        Kind::Caret => Some(UnaryOperator::ReduceXor),
        _ => None,
    }
}

/// The operator, if it is of this level or a tighter one.
#[tactic(auto, unfolding(crate::specs::Reading::continues))]
fn continues(level: u8, kind: Kind) -> Option<(u8, BinaryOperator)>
    ensures value { result ≡ spec.continues level kind }
    ensures within { IfSome result (λ found. found.0 ≤ 9) }
{
    let (found, op) = operator(kind)?;
    if found < level {
        return None;
    }
    Some((found, op))
}

/// Reads a token of this kind, and the plain decimal behind it.
pub fn parse_number(rules: Rules, tokens: &mut Cursor<'_, '_>, mark: Kind) -> Read<u64>
    ensures { Reads (λ n. n) rules.stop (spec.parse_number mark (left_of tokens.old)) result (left_of tokens.new) }
{
    tokens.expect(rules.stop, mark)?;
    let number = tokens.expect(rules.stop, Kind::Decimal)?;
    Ok(number.value())
}

/// Reads `[ decimal ]` after a name.
#[tactic(auto, using(crate::proofs::Steps::expect_seen), unfolding(crate::specs::Reading::parse_select))]
fn parse_select(rules: Rules, tokens: &mut Cursor<'_, '_>, name: &str) -> Read<SourceExpression>
    requires { sees Kind.OpenSquare (left_of tokens.old) ≡ true }
    ensures { Reads source_expression_of rules.stop (spec.parse_select name.now (left_of tokens.old)) result (left_of tokens.new) }
{
    let index = parse_number(rules, tokens, Kind::OpenSquare)?;
    tokens.expect(rules.stop, Kind::CloseSquare)?;
    select_of(rules.alloc, name, index)
}

/// Reads a name, and `[ decimal ]` where it follows.
#[tactic(auto, unfolding(crate::specs::Reading::parse_name))]
fn parse_name(rules: Rules, tokens: &mut Cursor<'_, '_>) -> Read<SourceExpression>
    ensures { Reads source_expression_of rules.stop (spec.parse_name (left_of tokens.old)) result (left_of tokens.new) }
{
    let token = tokens.take(rules.stop)?;
    if tokens.sees(Kind::OpenSquare) {
        return parse_select(rules, tokens, token.text);
    }
    name_of(rules.alloc, token.text)
}

/// Reads a sized literal.
#[tactic(auto, unfolding(crate::specs::Reading::parse_literal))]
fn parse_literal(rules: Rules, tokens: &mut Cursor<'_, '_>) -> Read<SourceExpression>
    ensures { Reads source_expression_of rules.stop (spec.parse_literal (left_of tokens.old)) result (left_of tokens.new) }
{
    let token = tokens.take(rules.stop)?;
    match token.bits(rules.alloc)? {
        None => Err(GrammarFault::Syntax),
        Some(bits) => Ok(literal_of(bits)),
    }
}

/// Reads `( expression )`.
#[cycle(expression)]
#[tactic(auto, unfolding(crate::specs::Reading::parse_parenthesized, crate::specs::Reading::parse_closed))]
pub fn parse_parenthesized(
    rules: Rules,
    tokens: &mut Cursor<'_, '_>,
    budget: usize,
) -> Read<SourceExpression>
    ensures { Reads source_expression_of rules.stop (spec.parse_parenthesized (spec.parse_expression budget) (left_of tokens.old)) result (left_of tokens.new) }
{
    tokens.expect(rules.stop, Kind::Open)?;
    parse_closed(rules, tokens, budget, Kind::Close)
}

/// Reads an expression, and the token behind it, which is of this kind.
#[cycle(expression)]
#[tactic(auto, unfolding(crate::specs::Reading::parse_closed))]
pub fn parse_closed(
    rules: Rules,
    tokens: &mut Cursor<'_, '_>,
    budget: usize,
    mark: Kind,
) -> Read<SourceExpression>
    ensures { Reads source_expression_of rules.stop (spec.parse_closed (spec.parse_expression budget) mark (left_of tokens.old)) result (left_of tokens.new) }
{
    let inner = parse_expression(rules, tokens, budget, 0)?;
    tokens.expect(rules.stop, mark)?;
    Ok(inner)
}

/// Reads expressions with a comma before each, and the bracket that closes them.
#[cycle(expression)]
#[tactic(auto, unfolding(crate::specs::Reading::parse_list))]
pub fn parse_list(
    rules: Rules,
    tokens: &mut Cursor<'_, '_>,
    budget: usize,
    bracket: Kind,
    found: &mut Vec<SourceExpression>,
) -> Read<()>
    ensures { Reads (λ _. expressions_view found.new) rules.stop (spec.parse_list (spec.parse_expression budget) bracket budget (expressions_view found.old) (left_of tokens.old)) result (left_of tokens.new) }
{
    for _turn in 0..budget {
        if !tokens.sees(Kind::Comma) {
            tokens.expect(rules.stop, bracket)?;
            return Ok(());
        }
        tokens.take(rules.stop)?;
        let part = parse_expression(rules, tokens, budget, 0)?;
        found.push(part)?;
    }
    Err(GrammarFault::Syntax)
}

/// Reads `{`, an expression, and those that follow it.
#[cycle(expression)]
#[tactic(auto, unfolding(crate::specs::Reading::parse_concat))]
fn parse_concat(rules: Rules, tokens: &mut Cursor<'_, '_>, budget: usize) -> Read<SourceExpression>
    ensures { Reads source_expression_of rules.stop (spec.parse_concat (spec.parse_expression budget) budget (left_of tokens.old)) result (left_of tokens.new) }
{
    tokens.take(rules.stop)?;
    let first = parse_expression(rules, tokens, budget, 0)?;
    let mut others = Vec::new(rules.alloc);
    parse_list(rules, tokens, budget, Kind::CloseCurly, &mut others)?;
    concat_of(rules.alloc, first, others)
}

/// Reads an operand that no unary operator stands before. A number without a size is refused as such.
#[cycle(expression)]
#[tactic(auto, unfolding(crate::specs::Reading::parse_primary))]
fn parse_primary(rules: Rules, tokens: &mut Cursor<'_, '_>, budget: usize) -> Read<SourceExpression>
    ensures { Reads source_expression_of rules.stop (spec.parse_primary (spec.parse_expression budget) budget (left_of tokens.old)) result (left_of tokens.new) }
{
    match tokens.kind() {
        Kind::Name => parse_name(rules, tokens),
        Kind::Sized => parse_literal(rules, tokens),
        Kind::OpenCurly => parse_concat(rules, tokens, budget),
        Kind::Open => parse_parenthesized(rules, tokens, budget),
        Kind::Decimal => Err(GrammarFault::Unsized),
        _ => Err(GrammarFault::Syntax),
    }
}

/// Reads an operand, and a unary operator before it where one stands there.
#[cycle(expression)]
#[tactic(auto, unfolding(crate::specs::Reading::parse_operand))]
fn parse_operand(rules: Rules, tokens: &mut Cursor<'_, '_>, budget: usize) -> Read<SourceExpression>
    ensures { Reads source_expression_of rules.stop (spec.parse_operand (spec.parse_expression budget) budget (left_of tokens.old)) result (left_of tokens.new) }
{
    match prefix(tokens.kind()) {
        None => parse_primary(rules, tokens, budget),
        Some(op) => {
            tokens.take(rules.stop)?;
            let inner = parse_primary(rules, tokens, budget)?;
            unary_of(rules.alloc, op, inner)
        }
    }
}

/// Reads the operators and operands that follow `left`.
#[cycle(expression)]
#[tactic(auto, unfolding(crate::specs::Reading::parse_operators))]
fn parse_operators(
    rules: Rules,
    tokens: &mut Cursor<'_, '_>,
    budget: usize,
    level: u8,
    mut left: SourceExpression,
) -> Read<SourceExpression>
    ensures { Reads source_expression_of rules.stop (spec.parse_operators (spec.parse_expression budget) budget level (source_expression_of left) (left_of tokens.old)) result (left_of tokens.new) }
{
    for _turn in 0..budget {
        let Some((strength, op)) = continues(level, tokens.kind()) else {
            return Ok(left);
        };
        tokens.take(rules.stop)?;
        let right = parse_expression(rules, tokens, budget, strength + 1)?;
        left = binary_of(rules.alloc, op, left, right)?;
    }
    Err(GrammarFault::Syntax)
}

/// Reads what follows the test of a choice.
#[cycle(expression)]
#[tactic(auto, unfolding(crate::specs::Reading::parse_conditional, crate::specs::Reading::parse_closed))]
fn parse_conditional(
    rules: Rules,
    tokens: &mut Cursor<'_, '_>,
    budget: usize,
    test: SourceExpression,
) -> Read<SourceExpression>
    ensures { Reads source_expression_of rules.stop (spec.parse_conditional (spec.parse_expression budget) (source_expression_of test) (left_of tokens.old)) result (left_of tokens.new) }
{
    tokens.take(rules.stop)?;
    let yes = parse_closed(rules, tokens, budget, Kind::Colon)?;
    let no = parse_expression(rules, tokens, budget, 0)?;
    conditional_of(rules.alloc, test, yes, no)
}

/// An expression whose binary operators are of this level and tighter; at level 0 a choice too.
#[cycle(expression)]
#[tactic(auto, unfolding(crate::specs::Reading::parse_level))]
pub fn parse_expression(
    rules: Rules,
    tokens: &mut Cursor<'_, '_>,
    budget: usize,
    level: u8,
) -> Read<SourceExpression>
    ensures { Reads source_expression_of rules.stop (spec.parse_expression budget level (left_of tokens.old)) result (left_of tokens.new) }
{
    if budget == 0 {
        return Err(GrammarFault::Syntax);
    }
    let first = parse_operand(rules, tokens, budget - 1)?;
    let left = parse_operators(rules, tokens, budget - 1, level, first)?;
    if level == 0 && tokens.sees(Kind::Question) {
        return parse_conditional(rules, tokens, budget - 1, left);
    }
    Ok(left)
}
