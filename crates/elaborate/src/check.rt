//! Formats, concatenations, bit indices and delays, in the order of the text.
ghost use Rattle.std.specs.Prelude.{◌≡◌, ◌+◌, ◌≤◌, None, Some, map, max, length, nat_lt, OnOk};
ghost use Rattle.model.specs.Elaboration.{all_resolved, count_of, resolved, widths_of};
ghost use Rattle.model.specs.Expressions.{own_size, result_size, sizing_of, total_size, unary_size};
ghost use Rattle.model.specs.Elaboration as model;
ghost use Rattle.model.specs.Syntax.{Literal, Select};
ghost use Rattle.logic4.specs.Vector.{greatest_width};
ghost use Rattle.model.specs.SourceTrees.{piece_of, source_expression_of, source_expressions, source_process_of, source_statement_of, source_statements};
ghost use Rattle.elaborate.specs.Formed.{IsFormed, AreFormed, IsFormedStatement, AreFormedStatements, AreFormedProcesses};
ghost use Rattle.elaborate.specs.FirstFindings.{first_finding, or_fault, capped, found_where, found, all_found, found_delay, found_format, found_pieces, found_in, all_found_in, found_by};

use crate::finding::{Finding, first};
use crate::format;
use crate::names::RegisterNames;
use design::{Sizing, sizing_of};
use logic4::bits::{Bits, MAX_WIDTH};
use logic4::size::Size;
use model::tree::{
    BinaryOperator, Piece, SourceExpression, SourceProcess, SourceStatement, UnaryOperator,
};

const MAX_DELAY: u64 = 4_294_967_295;

/// What is told of an expression: its own size (5.4.1), or one more than `MAX_WIDTH` where it is greater, and what is wrong with it first.
#[derive(Clone, Copy)]
struct Checked<'a> {
    size: u32,
    first_finding: Result<(), Finding<'a>>,
}

/// Refuses the first thing that is wrong with these processes.
pub fn processes<'a>(
    names: &RegisterNames,
    processes: &'a [SourceProcess],
) -> Result<(), Finding<'a>>
    ensures found { first_finding result ≡ found_by names.now (map source_process_of processes.now) }
    ensures formed { OnOk result (AreFormedProcesses (map source_process_of processes.now)) }
{
    for process in processes {
        statement(names, &process.body)?;
    }
    Ok(())
}

// Refuses the first thing that is wrong with a statement and those inside it. As among names, all parts of it are looked at.
#[cycle(found_in)]
fn statement<'a>(names: &RegisterNames, s: &'a SourceStatement) -> Result<(), Finding<'a>>
    ensures found { first_finding result ≡ found_in names.now (source_statement_of s.now) }
    ensures formed { IsFormedStatement (source_statement_of s.now) }
{
    match s {
        SourceStatement::Empty | SourceStatement::Now(_) | SourceStatement::Finish => Ok(()),
        SourceStatement::Block(body) => block(names, body.as_slice()),
        SourceStatement::Assign(_, wait, e) | SourceStatement::AssignLater(_, wait, e) => {
            first(delay(*wait), expression(names, e).first_finding)
        }
        SourceStatement::Delay(wait, s) => first(delay(Some(*wait)), statement(names, s)),
        SourceStatement::Await(_, s) => statement(names, s),
        SourceStatement::If(c, body) | SourceStatement::While(c, body) => {
            first(
                expression(names, c).first_finding,
                block(names, body.as_slice()),
            )
        }
        SourceStatement::IfElse(c, body, otherwise) => {
            let inside = first(
                block(names, body.as_slice()),
                block(names, otherwise.as_slice()),
            );
            first(expression(names, c).first_finding, inside)
        }
        SourceStatement::Print(_, format, arguments) => first(
            line(format.as_slice(), arguments.as_slice()),
            expressions(names, arguments.as_slice()).first_finding,
        ),
        SourceStatement::PrintPieces(_, pieces, arguments) => first(
            line_of(pieces.as_slice(), arguments.as_slice()),
            expressions(names, arguments.as_slice()).first_finding,
        ),
    }
}

// Refuses the first thing that is wrong with the statements of a block.
#[cycle(found_in)]
fn block<'a>(names: &RegisterNames, body: &'a [SourceStatement]) -> Result<(), Finding<'a>>
    ensures found { first_finding result ≡ all_found_in names.now (source_statements (map source_statement_of body.now)) }
    ensures formed { AreFormedStatements (source_statements (map source_statement_of body.now)) }
{
    let mut found = Ok(());
    for s in body {
        found = first(found, statement(names, s));
    }
    found
}

// Refuses a delay that is too long, where there is one.
fn delay<'a>(wait: Option<u64>) -> Result<(), Finding<'a>>
    ensures { first_finding result ≡ found_delay wait }
{
    match wait {
        Some(wait) if wait > MAX_DELAY => Err(Finding::LongDelay),
        _ => Ok(()),
    }
}

fn line<'a>(format: &[u8], arguments: &[SourceExpression]) -> Result<(), Finding<'a>>
    ensures { first_finding result ≡ found_format format.now (count_of (source_expressions (map source_expression_of arguments.now))) }
{
    shows(format, arguments.len())
}

// Refuses pieces that show another number of arguments.
fn line_of<'a>(pieces: &[Piece], arguments: &[SourceExpression]) -> Result<(), Finding<'a>>
    ensures { first_finding result ≡ found_pieces (Some (map piece_of pieces.now)) (count_of (source_expressions (map source_expression_of arguments.now))) }
{
    show_all(pieces, arguments.len())
}

// Refuses pieces that show another number of arguments than this.
fn show_all<'a>(pieces: &[Piece], arguments: usize) -> Result<(), Finding<'a>>
    ensures { first_finding result ≡ found_pieces (Some (map piece_of pieces.now)) arguments }
{
    if format::shown_by(pieces) == arguments {
        Ok(())
    } else {
        Err(Finding::BadFormat)
    }
}

// Refuses a format that is none, or that shows another number of arguments.
fn shows<'a>(format: &[u8], arguments: usize) -> Result<(), Finding<'a>>
    ensures { first_finding result ≡ found_format format.now arguments }
{
    match format::conversions(format) {
        Some(count) if count == arguments => Ok(()),
        _ => Err(Finding::BadFormat),
    }
}

// What is told of an expression, by what is told of those inside it.
#[cycle(found)]
fn expression<'a>(names: &RegisterNames, e: &'a SourceExpression) -> Checked<'a>
    ensures size { result.size ≡ capped (own_size (widths_of names.now) (resolved names.now (source_expression_of e.now))) }
    ensures found { first_finding result.first_finding ≡ found names.now (source_expression_of e.now) }
    ensures formed { IsFormed (source_expression_of e.now) }
{
    match e {
        SourceExpression::Name(name) => Checked {
            size: names.width(name.as_str()),
            first_finding: Ok(()),
        },
        SourceExpression::Select(name, index) => Checked {
            size: 1,
            first_finding: bit(names, name.as_str(), *index),
        },
        SourceExpression::Literal(bits) => literal(*bits),
        SourceExpression::Concat(part, others) => {
            let part = expression(names, part);
            concat(part, expressions(names, others.as_slice()))
        }
        SourceExpression::Unary(op, e) => unary(*op, expression(names, e)),
        SourceExpression::Binary(op, e, f) => binary(
            *op,
            expression(names, e),
            expression(names, f),
        ),
        SourceExpression::Conditional(c, e, f) => {
            let test = expression(names, c);
            conditional(test, expression(names, e), expression(names, f))
        }
        SourceExpression::Extend(_, size, e) => extended(*size, expression(names, e)),
    }
}

// What is told of expressions together: their sizes added up, and what is wrong first.
#[cycle(found)]
fn expressions<'a>(names: &RegisterNames, parts: &'a [SourceExpression]) -> Checked<'a>
    ensures size { result.size ≡ capped (total_size (widths_of names.now) (all_resolved names.now (source_expressions (map source_expression_of parts.now)))) }
    ensures found { first_finding result.first_finding ≡ all_found names.now (source_expressions (map source_expression_of parts.now)) }
    ensures formed { AreFormed (source_expressions (map source_expression_of parts.now)) }
{
    let mut size = 0;
    let mut first_finding = Ok(());
    for part in parts {
        let checked = expression(names, part);
        size = cap(size + checked.size);
        first_finding = first(first_finding, checked.first_finding);
    }
    Checked {
        size,
        first_finding,
    }
}

// What is told of a unary operator's value, by what is told of its operand.
fn unary<'a>(op: UnaryOperator, operand: Checked<'a>) -> Checked<'a>
    ensures size { result.size ≡ unary_size op operand.entry.size }
    ensures first_finding { first_finding result.first_finding ≡ first_finding operand.entry.first_finding }
{
    Checked {
        size: match op {
            UnaryOperator::Not => operand.size,
            UnaryOperator::LogicalNot
            | UnaryOperator::ReduceAnd
            | UnaryOperator::ReduceOr
            | UnaryOperator::ReduceXor => 1,
        },
        first_finding: operand.first_finding,
    }
}

// What is told of a binary operator's value, by what is told of its operands.
fn binary<'a>(op: BinaryOperator, left: Checked<'a>, right: Checked<'a>) -> Checked<'a>
    ensures size { result.size ≡ result_size (sizing_of op) left.entry.size right.entry.size }
    ensures first_finding { first_finding result.first_finding ≡ or_fault (first_finding left.entry.first_finding) (first_finding right.entry.first_finding) }
{
    Checked {
        size: binary_size(op, left.size, right.size),
        first_finding: first(left.first_finding, right.first_finding),
    }
}

// The own size of a binary operator's value (5.4.1), by those of its operands.
fn binary_size(op: BinaryOperator, left: u32, right: u32) -> u32
    ensures { result ≡ result_size (sizing_of op) left right }
{
    match sizing_of(op) {
        Sizing::BothAsked => left.max(right),
        Sizing::LeftAsked => left,
        Sizing::Greatest => 1,
        Sizing::EachOwn => 1,
    }
}

// What is told of one of two expressions by a test, of which what is wrong is told, and the size doesn't matter.
fn conditional<'a>(test: Checked<'a>, left: Checked<'a>, right: Checked<'a>) -> Checked<'a>
    ensures size { result.size ≡ max left.entry.size right.entry.size }
    ensures first_finding { first_finding result.first_finding
        ≡ or_fault (first_finding test.entry.first_finding) (or_fault (first_finding left.entry.first_finding) (first_finding right.entry.first_finding)) }
{
    Checked {
        size: left.size.max(right.size),
        first_finding: first(
            test.first_finding,
            first(left.first_finding, right.first_finding),
        ),
    }
}

// What is told of an extension to a size, by what is told of its operand.
fn extended<'a>(size: Size, operand: Checked<'a>) -> Checked<'a>
    ensures size { result.size ≡ capped size }
    ensures first_finding { first_finding result.first_finding ≡ first_finding operand.entry.first_finding }
    ensures formed { (1 ≤ size) × (size ≤ greatest_width) }
{
    Checked {
        size: size.get(),
        first_finding: operand.first_finding,
    }
}

// What is told of a literal: its width, and that nothing is wrong.
fn literal<'a>(bits: Bits) -> Checked<'a>
    ensures size { result.size ≡ capped (length bits) }
    ensures first_finding { first_finding result.first_finding ≡ None }
    ensures formed { IsFormed (Literal bits) }
{
    Checked {
        size: bits.width(),
        first_finding: Ok(()),
    }
}

// A concatenation of a part and of those behind it.
fn concat<'a>(part: Checked<'a>, others: Checked<'a>) -> Checked<'a>
    ensures size { result.size ≡ capped (part.entry.size + others.entry.size) }
    ensures first_finding { first_finding result.first_finding
        ≡ or_fault (found_where (nat_lt greatest_width (part.entry.size + others.entry.size)) model.WideConcat)
        (or_fault (first_finding part.entry.first_finding) (first_finding others.entry.first_finding)) }
{
    let size = cap(part.size.saturating_add(others.size));
    Checked {
        size,
        first_finding: first(
            joined(size),
            first(part.first_finding, others.first_finding),
        ),
    }
}

// Refuses an index that isn't in the range of the register with a name, and every index of one without a range.
fn bit<'a>(names: &RegisterNames, name: &'a str, index: u64) -> Result<(), Finding<'a>>
    ensures { first_finding result ≡ found names.now (Select name.now index) }
{
    match names.range(name) {
        Some((high, _)) if index <= high => Ok(()),
        _ => Err(Finding::BadIndex(name)),
    }
}

// A concatenation of so many digits together.
fn joined<'a>(size: u32) -> Result<(), Finding<'a>>
    ensures { first_finding result ≡ found_where (nat_lt greatest_width size) model.WideConcat }
{
    if size > MAX_WIDTH {
        Err(Finding::WideConcat)
    } else {
        Ok(())
    }
}

fn cap(size: u32) -> u32
    ensures { result ≡ capped size }
{
    size.min(MAX_WIDTH + 1)
}
