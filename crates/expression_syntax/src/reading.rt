//! Expressions, by precedence climbing.

ghost use Rattle.std.specs.Prelude.{◌≡◌, ◌≤◌, ◌+◌, ◌∷◌, ◌++◌, [], ℕ, suc, true, IfOk};
ghost use Rattle.syntax_tree.specs.Expressions.{plain_expression_of, plain_expressions_of};
ghost use Rattle.syntax_tree.specs.Expressions as tree;
ghost use Rattle.lexemes.specs.declared.token.Sign.TheVariants as sign;
ghost use Rattle.expression_syntax.specs.declared.operators.PrimaryForm.TheVariants as primary;
ghost use Rattle.expression_syntax.specs.Attributes.{tokens_of};
ghost use Rattle.expression_syntax.specs.ExpressionGrammar as grammar;
ghost use Rattle.expression_syntax.specs.Operators.{primary_form, part_form};
ghost use Rattle.expression_syntax.specs.Places.{kind_at, sign_at, behind};

use crate::faults::{ExpectedToken, SyntaxRead, SyntaxStop};
use crate::nodes::{
    binary_of, call_of, concatenation_of, conditional_of, index_of, member_of, name_of, part_of,
    replication_of, system_call_of, unary_of,
};
use crate::numbers::{parse_based, parse_number, parse_real, parse_text};
use crate::operators::{PrimaryForm, binary_operator, part_form, primary_form, unary_operator};
use crate::reader::{MOST_OPERATORS, Reader};
use crate::texts::{TokenSource, name_copy, token_copy};
use lexemes::token::Sign;
use syntax_tree::expressions::{PartForm, VerilogExpression};

/// More turns than a loop takes that counts operators.
const TURNS: u32 = MOST_OPERATORS + 2;

/// How deep calls nest at most: a bracket, an operator or a statement is taken for each.
pub const ROOM: usize = 4096;

/// Reads a name.
fn parse_name(source: &TokenSource<'_>, reader: &mut Reader) -> SyntaxRead<Box<VerilogExpression>>
    ensures { IfOk result (λ e. grammar.IsPath source.now (plain_expression_of e.value) reader.old.place reader.new.place) }
{
    let token = reader.expect_name(source)?;
    let name = name_copy(source, token)?;
    Ok(name_of(source.alloc, token, name)?)
}

/// Reads `.` and a name, behind what is the scope of it.
fn parse_member(
    source: &TokenSource<'_>,
    reader: &mut Reader,
    scope: Box<VerilogExpression>,
) -> SyntaxRead<Box<VerilogExpression>>
    ensures { IfOk result (λ e. (a : ℕ) → grammar.IsPath source.now (plain_expression_of scope.value) a reader.old.place
        → grammar.IsPath source.now (plain_expression_of e.value) a reader.new.place) }
{
    reader.expect(source, Sign::Dot)?;
    let token = reader.expect_name(source)?;
    let name = name_copy(source, token)?;
    Ok(member_of(source.alloc, token, scope, name)?)
}

/// Reads the rest of a part select, from the sign between its two expressions on.
#[cycle(expression)]
fn parse_part(
    source: &TokenSource<'_>,
    reader: &mut Reader,
    room: usize,
    form: PartForm,
    parts: (usize, Box<VerilogExpression>, Box<VerilogExpression>),
) -> SyntaxRead<Box<VerilogExpression>>
    ensures { IfOk result (λ e. (a : ℕ) → grammar.IsPath source.now (plain_expression_of parts.1.value) a parts.0
        → sign_at (tokens_of source.now) parts.0 sign.OpenSquare ≡ true
        → grammar.IsExpression source.now (plain_expression_of parts.2.value) (behind (tokens_of source.now) parts.0) reader.old.place
        → part_form (kind_at (tokens_of source.now) reader.old.place) ≡ Some form
        → grammar.IsPath source.now (plain_expression_of e.value) a reader.new.place) }
{
    let _ = reader.take(source);
    let second = parse_expression(source, reader, room, 0)?;
    reader.expect(source, Sign::CloseSquare)?;
    reader.close();
    let (token, base, first) = parts;
    Ok(part_of(source.alloc, token, form, base, (first, second))?)
}

/// Reads a select in brackets, behind what it selects of (5.2).
#[cycle(expression)]
fn parse_select(
    source: &TokenSource<'_>,
    reader: &mut Reader,
    room: usize,
    base: Box<VerilogExpression>,
) -> SyntaxRead<Box<VerilogExpression>>
    ensures { IfOk result (λ e. (a : ℕ) → grammar.IsPath source.now (plain_expression_of base.value) a reader.old.place
        → grammar.IsPath source.now (plain_expression_of e.value) a reader.new.place) }
{
    let token = reader.expect(source, Sign::OpenSquare)?;
    reader.open()?;
    let first = parse_expression(source, reader, room, 0)?;
    match part_form(reader.kind(source)) {
        Some(form) => parse_part(source, reader, room, form, (token, base, first)),
        None => {
            reader.expect(source, Sign::CloseSquare)?;
            reader.close();
            Ok(index_of(source.alloc, token, base, first)?)
        }
    }
}

/// Counts a step of a path: each but the first is an operator, since it nests what stands before it.
fn count_step(reader: &mut Reader, step: u32) -> SyntaxRead<()>
    ensures { reader.new.place ≡ reader.old.place }
{
    if step == 0 {
        return Ok(());
    }
    reader.count_operator()
}

/// Reads one step of a path: a member or a select.
#[cycle(expression)]
fn parse_step(
    source: &TokenSource<'_>,
    reader: &mut Reader,
    room: usize,
    base: Box<VerilogExpression>,
) -> SyntaxRead<Box<VerilogExpression>>
    ensures { IfOk result (λ e. (a : ℕ) → grammar.IsPath source.now (plain_expression_of base.value) a reader.old.place
        → grammar.IsPath source.now (plain_expression_of e.value) a reader.new.place) }
{
    if reader.sees(source, Sign::Dot) {
        return parse_member(source, reader, base);
    }
    parse_select(source, reader, room, base)
}

/// Whether a step of a path comes next.
fn sees_step(source: &TokenSource<'_>, reader: &Reader) -> bool {
    reader.sees(source, Sign::Dot) || reader.sees(source, Sign::OpenSquare)
}

/// Reads a name, and the members and the selects that follow it.
#[cycle(expression)]
pub fn parse_path(
    source: &TokenSource<'_>,
    reader: &mut Reader,
    room: usize,
) -> SyntaxRead<Box<VerilogExpression>>
    ensures { IfOk result (λ e. grammar.IsPath source.now (plain_expression_of e.value) reader.old.place reader.new.place) }
{
    let mut found = parse_name(source, reader)?;
    for step in 0..TURNS {
        if !sees_step(source, reader) {
            return Ok(found);
        }
        count_step(reader, step)?;
        found = parse_step(source, reader, room, found)?;
    }
    Err(SyntaxStop::Deep)
}

/// Reads what stands behind the first of several expressions with commas between them, up to the bracket that closes them.
#[cycle(expression)]
fn parse_list(
    source: &TokenSource<'_>,
    reader: &mut Reader,
    room: usize,
    bracket: Sign,
    first: Box<VerilogExpression>,
) -> SyntaxRead<Vec<VerilogExpression>>
    ensures { IfOk result (λ found. (a : ℕ) → grammar.IsExpression source.now (plain_expression_of first.value) a reader.old.place
        → grammar.AreParts source.now bracket (plain_expressions_of found) a reader.new.place) }
{
    let mut found = Vec::new(source.alloc);
    found.push(Box::into_inner(first))?;
    for _part in 0..source.tokens.len() {
        if !reader.accept(source, Sign::Comma) {
            reader.expect(source, bracket)?;
            reader.close();
            return Ok(found);
        }
        let part = parse_expression(source, reader, room, 0)?;
        found.push(Box::into_inner(part))?;
    }
    Err(SyntaxStop::Expected(ExpectedToken::Sign(bracket)))
}

/// Reads `( arguments )`.
#[cycle(expression)]
pub fn parse_arguments(
    source: &TokenSource<'_>,
    reader: &mut Reader,
    room: usize,
) -> SyntaxRead<Vec<VerilogExpression>>
    ensures { IfOk result (λ found. (sign_at (tokens_of source.now) reader.old.place sign.Open ≡ true)
        × grammar.AreParts source.now sign.Close (plain_expressions_of found) (behind (tokens_of source.now) reader.old.place) reader.new.place) }
{
    reader.expect(source, Sign::Open)?;
    reader.open()?;
    let first = parse_expression(source, reader, room, 0)?;
    parse_list(source, reader, room, Sign::Close, first)
}

/// Reads a path, and a function's arguments where they follow it.
#[cycle(expression)]
fn parse_named(
    source: &TokenSource<'_>,
    reader: &mut Reader,
    room: usize,
) -> SyntaxRead<Box<VerilogExpression>>
    ensures { IfOk result (λ e. grammar.IsPrimary source.now (plain_expression_of e.value) reader.old.place reader.new.place) }
{
    let path = parse_path(source, reader, room)?;
    reader.skip_attributes(source)?;
    if !reader.sees(source, Sign::Open) {
        return Ok(path);
    }
    let token = reader.place();
    let arguments = parse_arguments(source, reader, room)?;
    Ok(call_of(source.alloc, token, path, arguments)?)
}

/// Reads a system function's name, and its arguments where they follow it.
#[cycle(expression)]
fn parse_system_call(
    source: &TokenSource<'_>,
    reader: &mut Reader,
    room: usize,
) -> SyntaxRead<Box<VerilogExpression>>
    requires { primary_form (kind_at (tokens_of source.now) reader.old.place) ≡ primary.SystemName }
    ensures { IfOk result (λ e. grammar.IsPrimary source.now (plain_expression_of e.value) reader.old.place reader.new.place) }
{
    let token = reader.take(source);
    let name = token_copy(source, token)?;
    if !reader.sees(source, Sign::Open) {
        return Ok(system_call_of(source.alloc, token, name, Vec::new(source.alloc))?);
    }
    let arguments = parse_arguments(source, reader, room)?;
    Ok(system_call_of(source.alloc, token, name, arguments)?)
}

/// Reads the rest of a replication, from its second `{` on.
#[cycle(expression)]
fn parse_replication(
    source: &TokenSource<'_>,
    reader: &mut Reader,
    room: usize,
    token: usize,
    count: Box<VerilogExpression>,
) -> SyntaxRead<Box<VerilogExpression>>
    ensures { IfOk result (λ e. sign_at (tokens_of source.now) token sign.OpenCurly ≡ true
        → grammar.IsExpression source.now (plain_expression_of count.value) (behind (tokens_of source.now) token) reader.old.place
        → grammar.IsBraces source.now (plain_expression_of e.value) token reader.new.place) }
{
    reader.expect(source, Sign::OpenCurly)?;
    reader.open()?;
    let first = parse_expression(source, reader, room, 0)?;
    let parts = parse_list(source, reader, room, Sign::CloseCurly, first)?;
    reader.expect(source, Sign::CloseCurly)?;
    reader.close();
    Ok(replication_of(source.alloc, token, count, parts)?)
}

/// Reads a concatenation or a replication.
#[cycle(expression)]
pub fn parse_braces(
    source: &TokenSource<'_>,
    reader: &mut Reader,
    room: usize,
) -> SyntaxRead<Box<VerilogExpression>>
    ensures { IfOk result (λ e. grammar.IsBraces source.now (plain_expression_of e.value) reader.old.place reader.new.place) }
{
    let token = reader.expect(source, Sign::OpenCurly)?;
    reader.open()?;
    let first = parse_expression(source, reader, room, 0)?;
    if reader.sees(source, Sign::OpenCurly) {
        return parse_replication(source, reader, room, token, first);
    }
    let parts = parse_list(source, reader, room, Sign::CloseCurly, first)?;
    Ok(concatenation_of(source.alloc, token, parts)?)
}

/// Reads the rest of min:typ:max, from the first `:` on, and keeps the middle one.
#[cycle(expression)]
fn parse_typical(
    source: &TokenSource<'_>,
    reader: &mut Reader,
    room: usize,
) -> SyntaxRead<Box<VerilogExpression>>
    ensures { IfOk result (λ e. (a : ℕ) (low : tree.Expression) → sign_at (tokens_of source.now) a sign.Open ≡ true
        → grammar.IsExpression source.now low (behind (tokens_of source.now) a) reader.old.place
        → grammar.IsPrimary source.now (plain_expression_of e.value) a reader.new.place) }
{
    reader.expect(source, Sign::Colon)?;
    let typical = parse_expression(source, reader, room, 0)?;
    reader.expect(source, Sign::Colon)?;
    let _ = parse_expression(source, reader, room, 0)?;
    reader.expect(source, Sign::Close)?;
    reader.close();
    Ok(typical)
}

/// Reads an expression, or min:typ:max, in parentheses.
#[cycle(expression)]
pub fn parse_parenthesized(
    source: &TokenSource<'_>,
    reader: &mut Reader,
    room: usize,
) -> SyntaxRead<Box<VerilogExpression>>
    ensures { IfOk result (λ e. grammar.IsPrimary source.now (plain_expression_of e.value) reader.old.place reader.new.place) }
{
    reader.expect(source, Sign::Open)?;
    reader.open()?;
    let inner = parse_expression(source, reader, room, 0)?;
    if reader.sees(source, Sign::Colon) {
        return parse_typical(source, reader, room);
    }
    reader.expect(source, Sign::Close)?;
    reader.close();
    Ok(inner)
}

/// Reads an operand that no unary operator stands before.
#[cycle(expression)]
fn parse_primary(
    source: &TokenSource<'_>,
    reader: &mut Reader,
    room: usize,
) -> SyntaxRead<Box<VerilogExpression>>
    ensures { IfOk result (λ e. grammar.IsPrimary source.now (plain_expression_of e.value) reader.old.place reader.new.place) }
{
    match primary_form(reader.kind(source)) {
        PrimaryForm::Number => parse_number(source, reader),
        PrimaryForm::Based => parse_based(source, reader),
        PrimaryForm::Real => parse_real(source, reader),
        PrimaryForm::Text => parse_text(source, reader),
        PrimaryForm::Name => parse_named(source, reader, room),
        PrimaryForm::SystemName => parse_system_call(source, reader, room),
        PrimaryForm::Braces => parse_braces(source, reader, room),
        PrimaryForm::Parentheses => parse_parenthesized(source, reader, room),
        PrimaryForm::Nothing => Err(SyntaxStop::Expected(ExpectedToken::Expression)),
    }
}

/// Reads an operand, and a unary operator before it where one stands there.
#[cycle(expression)]
fn parse_operand(
    source: &TokenSource<'_>,
    reader: &mut Reader,
    room: usize,
) -> SyntaxRead<Box<VerilogExpression>>
    ensures { IfOk result (λ e. grammar.IsUnary source.now (plain_expression_of e.value) reader.old.place reader.new.place) }
{
    match unary_operator(reader.kind(source)) {
        None => parse_primary(source, reader, room),
        Some(operator) => {
            reader.count_operator()?;
            let token = reader.take(source);
            reader.skip_attributes(source)?;
            let inner = parse_primary(source, reader, room)?;
            Ok(unary_of(source.alloc, token, operator, inner)?)
        }
    }
}

/// Reads the operators of a level and of tighter ones that follow an operand, with what stands right of them.
#[cycle(expression)]
fn parse_operators(
    source: &TokenSource<'_>,
    reader: &mut Reader,
    room: usize,
    level: u8,
    first: Box<VerilogExpression>,
) -> SyntaxRead<Box<VerilogExpression>>
    ensures spelled { IfOk result (λ e. (a : ℕ) → grammar.IsUnary source.now (plain_expression_of first.value) a reader.old.place
        → level ≤ 12 → grammar.IsBinary source.now level (plain_expression_of e.value) a reader.new.place) }
    ensures stops { IfOk result (λ _. grammar.EndsLevel level (kind_at (tokens_of source.now) reader.new.place)) }
{
    let mut left = first;
    for _turn in 0..TURNS {
        let found = match binary_operator(reader.kind(source)) {
            None => return Ok(left),
            Some(found) => found,
        };
        if found.0 < level {
            return Ok(left);
        }
        reader.count_operator()?;
        let token = reader.take(source);
        reader.skip_attributes(source)?;
        let right = parse_expression(source, reader, room, found.0 + 1)?;
        left = binary_of(source.alloc, token, found.1, left, right)?;
    }
    Err(SyntaxStop::Deep)
}

/// Reads what follows a condition: `?`, an expression, `:` and another one.
#[cycle(expression)]
fn parse_conditional(
    source: &TokenSource<'_>,
    reader: &mut Reader,
    room: usize,
    condition: Box<VerilogExpression>,
) -> SyntaxRead<Box<VerilogExpression>>
    ensures { IfOk result (λ e. (a : ℕ) → grammar.IsBinary source.now 1 (plain_expression_of condition.value) a reader.old.place
        → grammar.IsExpression source.now (plain_expression_of e.value) a reader.new.place) }
{
    reader.count_operator()?;
    let token = reader.expect(source, Sign::Question)?;
    reader.skip_attributes(source)?;
    let first = parse_expression(source, reader, room, 0)?;
    reader.expect(source, Sign::Colon)?;
    let second = parse_expression(source, reader, room, 0)?;
    Ok(conditional_of(source.alloc, token, condition, first, second)?)
}

/// The loosest level of the binary operators in an expression of a level.
fn first_level(level: u8) -> u8
    ensures low { level ≡ 0 → result ≡ 1 }
    ensures same { 1 ≤ level → result ≡ level }
    ensures within { level ≤ 12 → result ≤ 12 }
{
    if level == 0 { 1 } else { level }
}

/// Reads an expression whose binary operators are of a level and of tighter ones; at level 0 a conditional one too.
#[cycle(expression)]
pub fn parse_expression(
    source: &TokenSource<'_>,
    reader: &mut Reader,
    room: usize,
    level: u8,
) -> SyntaxRead<Box<VerilogExpression>>
    ensures spelled { IfOk result (λ e. level ≤ 12 → grammar.IsLevel source.now level (plain_expression_of e.value) reader.old.place reader.new.place) }
    ensures stops { IfOk result (λ _. 1 ≤ level → grammar.EndsLevel level (kind_at (tokens_of source.now) reader.new.place)) }
{
    if room == 0 {
        return Err(SyntaxStop::Deep);
    }
    let first = parse_operand(source, reader, room - 1)?;
    let left = parse_operators(source, reader, room - 1, first_level(level), first)?;
    if level == 0 && reader.sees(source, Sign::Question) {
        return parse_conditional(source, reader, room - 1, left);
    }
    Ok(left)
}

/// Reads an expression.
pub fn read_expression(
    source: &TokenSource<'_>,
    reader: &mut Reader,
) -> SyntaxRead<VerilogExpression>
    ensures { IfOk result (λ e. grammar.IsExpression source.now (plain_expression_of e) reader.old.place reader.new.place) }
{
    Ok(Box::into_inner(parse_expression(source, reader, ROOM, 0)?))
}

/// Reads a path: a name, with members and selects.
pub fn read_path(source: &TokenSource<'_>, reader: &mut Reader) -> SyntaxRead<VerilogExpression>
    ensures { IfOk result (λ e. grammar.IsPath source.now (plain_expression_of e) reader.old.place reader.new.place) }
{
    Ok(Box::into_inner(parse_path(source, reader, ROOM)?))
}

/// Reads an expression, or min:typ:max, in parentheses.
pub fn read_parenthesized(
    source: &TokenSource<'_>,
    reader: &mut Reader,
) -> SyntaxRead<VerilogExpression>
    ensures { IfOk result (λ e. grammar.IsPrimary source.now (plain_expression_of e) reader.old.place reader.new.place) }
{
    Ok(Box::into_inner(parse_parenthesized(source, reader, ROOM)?))
}

/// Reads an operand without an operator.
pub fn read_primary(source: &TokenSource<'_>, reader: &mut Reader) -> SyntaxRead<VerilogExpression>
    ensures { IfOk result (λ e. grammar.IsPrimary source.now (plain_expression_of e) reader.old.place reader.new.place) }
{
    Ok(Box::into_inner(parse_primary(source, reader, ROOM)?))
}

/// Reads `( arguments )`.
pub fn read_arguments(
    source: &TokenSource<'_>,
    reader: &mut Reader,
) -> SyntaxRead<Vec<VerilogExpression>>
    ensures { IfOk result (λ found. (sign_at (tokens_of source.now) reader.old.place sign.Open ≡ true)
        × grammar.AreParts source.now sign.Close (plain_expressions_of found) (behind (tokens_of source.now) reader.old.place) reader.new.place) }
{
    parse_arguments(source, reader, ROOM)
}

/// Reads what a value is given to: a path, or a concatenation (A.8.5).
pub fn read_target(source: &TokenSource<'_>, reader: &mut Reader) -> SyntaxRead<VerilogExpression>
    ensures { IfOk result (λ e. grammar.IsTarget source.now (plain_expression_of e) reader.old.place reader.new.place) }
{
    if reader.sees(source, Sign::OpenCurly) {
        return Ok(Box::into_inner(parse_braces(source, reader, ROOM)?));
    }
    if !reader.sees_name(source) {
        return Err(SyntaxStop::Expected(ExpectedToken::Target));
    }
    Ok(Box::into_inner(parse_path(source, reader, ROOM)?))
}
