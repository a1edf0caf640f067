//! A tree over the numbers of registers, from one over their names. Blocks become the lists of their statements.
ghost use Rattle.std.specs.Prelude.{◌≡◌, [], map, unwrap_or, IfOk, OnOk};
ghost use Rattle.design.specs.DesignTrees as tree;
ghost use Rattle.model.specs.Elaboration as model;
ghost use Rattle.model.specs.Design as designs;
ghost use Rattle.model.specs.Elaboration.{all_resolved, assignment, block_of, followed_by, number_of, pieces_of, resolved};
ghost use Rattle.model.specs.SourceTrees.{piece_of, source_expression_of, source_expressions, source_process_of, source_statement_of, source_statements, source_trigger_of};
ghost use Rattle.elaborate.specs.Small.{IsSmall, AreSmall, IsShortDelay, IsSmallStatement, AreSmallStatements, AreSmallProcesses};

use crate::build::{self, Built};
use crate::format;
use crate::names::RegisterNames;
use design::Trigger;
use design::tree::{Expression, Process, Statement};
use model::tree::{EventExpression, Piece, SourceExpression, SourceProcess, SourceStatement, Task};
use std::alloc::Global;

/// The processes of a design, from those of a module.
pub fn processes(
    alloc: Global,
    names: &RegisterNames,
    processes: &[SourceProcess],
) -> Built<Vec<Process>>
    requires { AreSmallProcesses (map source_process_of processes.now) }
    ensures { IfOk result
        (λ made. map tree.process_of made.items ≡ map (model.elaborated_process names.now) (map source_process_of processes.now)) }
{
    let mut made = Vec::new(alloc);
    for process in processes {
        made.push(Process {
            repeats: process.repeats,
            body: alone(alloc, names, &process.body)?,
        })?;
    }
    Ok(made)
}

/// As `processes`, of processes whose statements are given up one after another, so that what is made of the next ones takes
/// their memory.
pub fn processes_given_up(
    alloc: Global,
    names: &RegisterNames,
    processes: Vec<SourceProcess>,
) -> Built<Vec<Process>>
    requires { AreSmallProcesses (map source_process_of processes.items) }
    ensures { IfOk result
        (λ made. map tree.process_of made.items ≡ map (model.elaborated_process names.now) (map source_process_of processes.items)) }
{
    let mut made = Vec::new(alloc);
    for process in processes {
        made.push(process_given_up(alloc, names, process)?)?;
    }
    Ok(made)
}

// The process of a design, from one of a module whose statements are given up.
fn process_given_up(alloc: Global, names: &RegisterNames, process: SourceProcess) -> Built<Process>
    requires { IsSmallStatement (source_statement_of process.body) }
    ensures { IfOk result (λ made. tree.process_of made ≡ model.elaborated_process names.now (source_process_of process)) }
{
    let SourceProcess { repeats, body } = process;
    let body = given_up(alloc, names, body)?;
    Ok(Process { repeats, body })
}

// The statements of the body of a process: of a block, or of an event control before one.
fn given_up(alloc: Global, names: &RegisterNames, s: SourceStatement) -> Built<Vec<Statement>>
    requires { IsSmallStatement (source_statement_of s) }
    ensures { IfOk result (λ made. tree.statements_of made.items ≡ model.statements_of names.now (source_statement_of s)) }
{
    match s {
        SourceStatement::Await(events, s) => {
            let triggers = triggers(alloc, names, events.as_slice())?;
            let body = block_given_up(alloc, names, Box::into_inner(s))?;
            let mut made = Vec::new(alloc);
            await_one(&mut made, triggers, body)?;
            Ok(made)
        }
        s => block_given_up(alloc, names, s),
    }
}

// The statements of a block whose statements are given up one after another. Any other statement is given up as a whole.
fn block_given_up(alloc: Global, names: &RegisterNames, s: SourceStatement) -> Built<Vec<Statement>>
    requires { IsSmallStatement (source_statement_of s) }
    ensures { IfOk result (λ made. tree.statements_of made.items ≡ model.statements_of names.now (source_statement_of s)) }
{
    match s {
        SourceStatement::Block(body) => each_given_up(alloc, names, body),
        s => {
            let made = alone(alloc, names, &s);
            give_up(s);
            made
        }
    }
}

// The statements of these, of which each is given up once its own are made.
fn each_given_up(
    alloc: Global,
    names: &RegisterNames,
    body: Vec<SourceStatement>,
) -> Built<Vec<Statement>>
    requires { AreSmallStatements (source_statements (map source_statement_of body.items)) }
    ensures { IfOk result (λ made. tree.statements_of made.items ≡ block_of names.now (source_statements (map source_statement_of body.items))) }
{
    let mut made = Vec::with_capacity(alloc, body.len())?;
    for one in body {
        one_given_up(alloc, names, one, &mut made)?;
    }
    Ok(made)
}

fn one_given_up(
    alloc: Global,
    names: &RegisterNames,
    s: SourceStatement,
    into: &mut Vec<Statement>,
) -> Built<()>
    requires { IsSmallStatement (source_statement_of s) }
    ensures { OnOk result (tree.statements_of into.new.items ≡ followed_by (tree.statements_of into.old.items) (model.statements_of names.now (source_statement_of s))) }
{
    let made = statement(alloc, names, &s, into);
    give_up(s);
    made
}

// Gives a value up. It is of any type, since the prover goes through all that a statement may be wherever one is dropped in sight.
fn give_up<T: Drop>(_: T) {}

// How many statements one makes, unless it is a block with others inside it: the room of their list.
fn count_of(s: &SourceStatement) -> usize {
    match s {
        SourceStatement::Block(body) => body.len(),
        _ => 1,
    }
}

// The statements of one statement.
#[cycle(resolved_in)]
fn alone(alloc: Global, names: &RegisterNames, s: &SourceStatement) -> Built<Vec<Statement>>
    requires { IsSmallStatement (source_statement_of s.now) }
    ensures { IfOk result (λ made. tree.statements_of made.items ≡ model.statements_of names.now (source_statement_of s.now)) }
{
    let mut made = Vec::with_capacity(alloc, count_of(s))?;
    statement(alloc, names, s, &mut made)?;
    Ok(made)
}

// The statements of a block.
#[cycle(resolved_in)]
fn block(alloc: Global, names: &RegisterNames, body: &[SourceStatement]) -> Built<Vec<Statement>>
    requires { AreSmallStatements (source_statements (map source_statement_of body.now)) }
    ensures { IfOk result (λ made. tree.statements_of made.items ≡ block_of names.now (source_statements (map source_statement_of body.now))) }
{
    let mut made = Vec::with_capacity(alloc, body.len())?;
    all(alloc, names, body, &mut made)?;
    Ok(made)
}

// The statements of several, behind others.
#[cycle(resolved_in)]
fn all(
    alloc: Global,
    names: &RegisterNames,
    body: &[SourceStatement],
    into: &mut Vec<Statement>,
) -> Built<()>
    requires { AreSmallStatements (source_statements (map source_statement_of body.now)) }
    ensures { OnOk result (tree.statements_of into.new.items
        ≡ followed_by (tree.statements_of into.old.items) (block_of names.now (source_statements (map source_statement_of body.now)))) }
{
    for s in body {
        statement(alloc, names, s, into)?;
    }
    Ok(())
}

// The statements of one statement, behind others. Each kind has a function of its own, since some four thousand statements
// may stand one within another, and what this function holds is held as often.
#[cycle(resolved_in)]
#[inline(never)]
fn statement(
    alloc: Global,
    names: &RegisterNames,
    s: &SourceStatement,
    into: &mut Vec<Statement>,
) -> Built<()>
    requires { IsSmallStatement (source_statement_of s.now) }
    ensures { OnOk result (tree.statements_of into.new.items
        ≡ followed_by (tree.statements_of into.old.items) (model.statements_of names.now (source_statement_of s.now))) }
{
    match s {
        SourceStatement::Empty => empty(into),
        SourceStatement::Block(body) => all(alloc, names, body.as_slice(), into),
        SourceStatement::Assign(name, wait, e) => {
            assign(alloc, names, name.as_str(), *wait, e, into)
        }
        SourceStatement::AssignLater(name, wait, e) => {
            let wait = build::wait_of(*wait);
            assign_later(alloc, names, name.as_str(), wait, e, into)
        }
        SourceStatement::Now(name) => time(names, name.as_str(), into),
        SourceStatement::Delay(wait, s) => {
            let body = alone(alloc, names, s)?;
            delay(into, *wait as u32, body)
        }
        SourceStatement::Await(events, s) => {
            let triggers = triggers(alloc, names, events.as_slice())?;
            let body = alone(alloc, names, s)?;
            await_one(into, triggers, body)
        }
        SourceStatement::If(c, body) => {
            let body = block(alloc, names, body.as_slice())?;
            choice(alloc, names, c, body, Vec::new(alloc), into)
        }
        SourceStatement::IfElse(c, body, otherwise) => {
            let body = block(alloc, names, body.as_slice())?;
            let otherwise = block(alloc, names, otherwise.as_slice())?;
            choice(alloc, names, c, body, otherwise, into)
        }
        SourceStatement::While(c, body) => {
            let body = block(alloc, names, body.as_slice())?;
            repetition(alloc, names, c, body, into)
        }
        SourceStatement::Print(task, format, arguments) => print(
            alloc,
            names,
            *task,
            format.as_slice(),
            arguments.as_slice(),
            into,
        ),
        SourceStatement::PrintPieces(task, pieces, arguments) => print_pieces(
            alloc,
            names,
            *task,
            pieces.as_slice(),
            arguments.as_slice(),
            into,
        ),
        SourceStatement::Finish => finish(into),
    }
}

// The empty statement, behind others.
#[inline(never)]
fn empty(into: &mut Vec<Statement>) -> Built<()>
    ensures { OnOk result (tree.statements_of into.new.items ≡ followed_by (tree.statements_of into.old.items) (model.alone designs.Empty)) }
{
    build::push(into, Statement::Empty)
}

// `$finish`, behind others.
#[inline(never)]
fn finish(into: &mut Vec<Statement>) -> Built<()>
    ensures { OnOk result (tree.statements_of into.new.items ≡ followed_by (tree.statements_of into.old.items) (model.alone designs.Finish)) }
{
    build::push(into, Statement::Finish)
}

// A blocking assignment, behind others.
#[inline(never)]
fn assign(
    alloc: Global,
    names: &RegisterNames,
    name: &str,
    wait: Option<u64>,
    e: &SourceExpression,
    into: &mut Vec<Statement>,
) -> Built<()>
    requires short { IsShortDelay wait }
    requires small { IsSmall (source_expression_of e.now) }
    ensures { OnOk result (tree.statements_of into.new.items
        ≡ followed_by (tree.statements_of into.old.items) (model.alone (assignment (number_of names.now name.now) wait (resolved names.now (source_expression_of e.now))))) }
{
    let value = expression(alloc, names, e)?;
    build::push(into, build::assign_of(names.number(name), wait, value))
}

// A nonblocking assignment, behind others.
#[inline(never)]
fn assign_later(
    alloc: Global,
    names: &RegisterNames,
    name: &str,
    wait: u32,
    e: &SourceExpression,
    into: &mut Vec<Statement>,
) -> Built<()>
    requires { IsSmall (source_expression_of e.now) }
    ensures { OnOk result (tree.statements_of into.new.items
        ≡ followed_by (tree.statements_of into.old.items) (model.alone (designs.AssignLater (number_of names.now name.now) wait (resolved names.now (source_expression_of e.now))))) }
{
    let value = expression(alloc, names, e)?;
    build::push(
        into,
        build::assign_later_of(names.number(name), wait, value),
    )
}

// The time as a register's value, behind others.
#[inline(never)]
fn time(names: &RegisterNames, name: &str, into: &mut Vec<Statement>) -> Built<()>
    ensures { OnOk result (tree.statements_of into.new.items
        ≡ followed_by (tree.statements_of into.old.items) (model.alone (designs.Now (number_of names.now name.now)))) }
{
    build::push(into, build::now_of(names.number(name)))
}

// A delay before statements, behind others.
#[inline(never)]
fn delay(into: &mut Vec<Statement>, wait: u32, body: Vec<Statement>) -> Built<()>
    ensures { OnOk result (tree.statements_of into.new.items
        ≡ followed_by (tree.statements_of into.old.items) (model.alone (designs.Delay wait (tree.statements_of body.items)))) }
{
    build::push(into, build::delay_of(wait, body))
}

// An event control before statements, behind others.
#[inline(never)]
fn await_one(into: &mut Vec<Statement>, triggers: Vec<Trigger>, body: Vec<Statement>) -> Built<()>
    ensures { OnOk result (tree.statements_of into.new.items
        ≡ followed_by (tree.statements_of into.old.items) (model.alone (designs.Await triggers.items (tree.statements_of body.items)))) }
{
    build::push(into, build::await_of(triggers, body))
}

// A choice, behind others.
#[inline(never)]
fn choice(
    alloc: Global,
    names: &RegisterNames,
    c: &SourceExpression,
    body: Vec<Statement>,
    otherwise: Vec<Statement>,
    into: &mut Vec<Statement>,
) -> Built<()>
    requires { IsSmall (source_expression_of c.now) }
    ensures { OnOk result (tree.statements_of into.new.items
        ≡ followed_by (tree.statements_of into.old.items) (model.alone (designs.If (resolved names.now (source_expression_of c.now)) (tree.statements_of body.items) (tree.statements_of otherwise.items)))) }
{
    let test = expression(alloc, names, c)?;
    build::push(into, build::if_of(test, body, otherwise))
}

// A loop, behind others.
#[inline(never)]
fn repetition(
    alloc: Global,
    names: &RegisterNames,
    c: &SourceExpression,
    body: Vec<Statement>,
    into: &mut Vec<Statement>,
) -> Built<()>
    requires { IsSmall (source_expression_of c.now) }
    ensures { OnOk result (tree.statements_of into.new.items
        ≡ followed_by (tree.statements_of into.old.items) (model.alone (designs.While (resolved names.now (source_expression_of c.now)) (tree.statements_of body.items)))) }
{
    let test = expression(alloc, names, c)?;
    build::push(into, build::while_of(test, body))
}

// A print with the pieces of its format, behind others.
#[inline(never)]
fn print_pieces(
    alloc: Global,
    names: &RegisterNames,
    task: Task,
    pieces: &[Piece],
    arguments: &[SourceExpression],
    into: &mut Vec<Statement>,
) -> Built<()>
    requires { AreSmall (source_expressions (map source_expression_of arguments.now)) }
    ensures { OnOk result (tree.statements_of into.new.items
        ≡ followed_by (tree.statements_of into.old.items) (model.alone (designs.Print task (map piece_of pieces.now) (all_resolved names.now (source_expressions (map source_expression_of arguments.now)))))) }
{
    let pieces = Vec::from_slice(alloc, pieces)?;
    let arguments = expressions(alloc, names, arguments, arguments.len())?;
    build::push(into, build::print_of(task, pieces, arguments))
}

// A print with its format, behind others.
#[inline(never)]
fn print(
    alloc: Global,
    names: &RegisterNames,
    task: Task,
    format: &[u8],
    arguments: &[SourceExpression],
    into: &mut Vec<Statement>,
) -> Built<()>
    requires { AreSmall (source_expressions (map source_expression_of arguments.now)) }
    ensures { OnOk result (tree.statements_of into.new.items
        ≡ followed_by (tree.statements_of into.old.items) (model.alone (designs.Print task (unwrap_or (pieces_of format.now) []) (all_resolved names.now (source_expressions (map source_expression_of arguments.now)))))) }
{
    let pieces = format::pieces(alloc, format)?;
    let arguments = expressions(alloc, names, arguments, arguments.len())?;
    build::push(into, build::print_of(task, pieces, arguments))
}

// The events of an event control, by the numbers of their registers.
fn triggers(alloc: Global, names: &RegisterNames, events: &[EventExpression]) -> Built<Vec<Trigger>>
    ensures { IfOk result (λ made. made.items ≡ map (model.trigger_of names.now) (map source_trigger_of events.now)) }
{
    let mut made = Vec::with_capacity(alloc, events.len())?;
    for event in events {
        made.push((event.change, names.number(event.name.as_str())))?;
    }
    Ok(made)
}

// An expression over the numbers of registers, from one over their names.
#[cycle(resolved)]
fn expression(alloc: Global, names: &RegisterNames, e: &SourceExpression) -> Built<Expression>
    requires { IsSmall (source_expression_of e.now) }
    ensures { IfOk result (λ made. tree.expression_of made ≡ resolved names.now (source_expression_of e.now)) }
{
    match e {
        SourceExpression::Name(name) => Ok(Expression::Register(names.number(name.as_str()))),
        SourceExpression::Select(name, index) => Ok(Expression::Select(
            names.number(name.as_str()),
            *index as u32,
        )),
        SourceExpression::Literal(bits) => Ok(Expression::Literal(*bits)),
        SourceExpression::Concat(part, others) => {
            let room = others.len().saturating_add(1);
            let others = expressions(alloc, names, others.as_slice(), room)?;
            let first = expression(alloc, names, part)?;
            build::concat_of(first, others)
        }
        SourceExpression::Unary(op, e) => {
            let operand = boxed(alloc, names, e)?;
            Ok(Expression::Unary(*op, operand))
        }
        SourceExpression::Binary(op, e, f) => {
            let left = boxed(alloc, names, e)?;
            let right = boxed(alloc, names, f)?;
            Ok(Expression::Binary(*op, left, right))
        }
        SourceExpression::Conditional(c, e, f) => {
            let test = boxed(alloc, names, c)?;
            let first = boxed(alloc, names, e)?;
            let second = boxed(alloc, names, f)?;
            Ok(Expression::Conditional(test, first, second))
        }
        SourceExpression::Extend(by, size, e) => {
            let operand = boxed(alloc, names, e)?;
            Ok(Expression::Extend(*by, *size, operand))
        }
    }
}

// An expression in a box, over the numbers of registers.
#[cycle(resolved)]
fn boxed(alloc: Global, names: &RegisterNames, e: &SourceExpression) -> Built<Box<Expression>>
    requires { IsSmall (source_expression_of e.now) }
    ensures { IfOk result (λ made. tree.expression_of made.value ≡ resolved names.now (source_expression_of e.now)) }
{
    let made = expression(alloc, names, e)?;
    Ok(Box::new(alloc, made)?)
}

// Expressions over the numbers of registers, from some over their names, in a list with so much room.
#[cycle(resolved)]
fn expressions(
    alloc: Global,
    names: &RegisterNames,
    parts: &[SourceExpression],
    room: usize,
) -> Built<Vec<Expression>>
    requires { AreSmall (source_expressions (map source_expression_of parts.now)) }
    ensures { IfOk result
        (λ made. tree.expressions_of made.items ≡ all_resolved names.now (source_expressions (map source_expression_of parts.now))) }
{
    let mut made = Vec::with_capacity(alloc, room)?;
    for part in parts {
        made.push(expression(alloc, names, part)?)?;
    }
    Ok(made)
}
