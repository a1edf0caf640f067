//! Statements.

ghost use Rattle.std.specs.Prelude.{◌≡◌, ◌++◌, OnOk, map, codes};
ghost use Rattle.model.specs.SourceTrees.{piece_of, source_expression_of, source_expressions, source_statement_of, source_statements, source_trigger_of};
ghost use Rattle.flattext.specs.Phrases.{deeper, indent};
ghost use Rattle.flattext.specs.Statements as spec;

use crate::expression::{push_arguments, push_expression};
use crate::format::{push_format, push_shown};
use crate::names::push_name;
use crate::operators::CONDITIONAL;
use crate::phrases::{deeper, push_indent, push_number, push_string};
use model::tree::{Change, EventExpression, Piece, SourceExpression, SourceStatement, Task};
use std::alloc::AllocError;

// Puts a delay behind a text, and a space (9.7.1).
fn push_delay(text: &mut Vec<u8>, delay: u64) -> Result<(), AllocError>
    ensures { OnOk result (text.new.items ≡ text.old.items ++ spec.delay_text delay) }
{
    text.extend_from_slice(b"#")?;
    push_number(text, delay)?;
    text.extend_from_slice(b" ")
}

// Puts a delay behind a text, where there is one (9.7.7).
fn push_given_delay(text: &mut Vec<u8>, delay: Option<u64>) -> Result<(), AllocError>
    ensures { OnOk result (text.new.items ≡ text.old.items ++ spec.given_delay_text delay) }
{
    match delay {
        Some(delay) => push_delay(text, delay),
        None => Ok(()),
    }
}

// Puts an assignment behind a text, with its sign (9.2).
#[tactic(auto, unfolding(crate::specs::Statements::assign_text))]
fn push_assignment(
    text: &mut Vec<u8>,
    name: &str,
    sign: &[u8],
    delay: Option<u64>,
    value: &SourceExpression,
) -> Result<(), AllocError>
    ensures { OnOk result (text.new.items ≡ text.old.items ++ spec.assign_text name.now sign.now delay (source_expression_of value.now)) }
{
    push_name(text, name)?;
    text.extend_from_slice(sign)?;
    push_given_delay(text, delay)?;
    push_expression(text, CONDITIONAL, value)?;
    text.extend_from_slice(b";\n")
}

// Puts the assignment of the time behind a text (17.7.1).
#[tactic(auto, unfolding(crate::specs::Statements::now_text))]
fn push_now(text: &mut Vec<u8>, name: &str) -> Result<(), AllocError>
    ensures { OnOk result (text.new.items ≡ text.old.items ++ spec.now_text name.now) }
{
    push_name(text, name)?;
    text.extend_from_slice(b" = $time;\n")
}

// The word before the name of an event, and a space (9.7.2).
fn change_text(change: Change) -> &'static str
    ensures { result.now ≡ spec.event_change_text change }
{
    match change {
        Change::Any => "",
        Change::Posedge => "posedge ",
        Change::Negedge => "negedge ",
    }
}

// Puts an event behind a text.
fn push_event(text: &mut Vec<u8>, event: &EventExpression) -> Result<(), AllocError>
    ensures { OnOk result (text.new.items ≡ text.old.items ++ spec.trigger_text (source_trigger_of event.now)) }
{
    text.extend_from_slice(change_text(event.change).as_bytes())?;
    push_name(text, event.name.as_str())
}

// Puts events behind a text, with the word `or` before each (9.7.4).
fn push_other_events(text: &mut Vec<u8>, events: &[EventExpression]) -> Result<(), AllocError>
    ensures { OnOk result (text.new.items ≡ text.old.items ++ spec.other_triggers_text (map source_trigger_of events.now)) }
{
    for event in events {
        text.extend_from_slice(b" or ")?;
        push_event(text, event)?;
    }
    Ok(())
}

// Puts events behind a text, with the word `or` between them.
fn push_events(text: &mut Vec<u8>, events: &[EventExpression]) -> Result<(), AllocError>
    ensures { OnOk result (text.new.items ≡ text.old.items ++ spec.triggers_text (map source_trigger_of events.now)) }
{
    match events {
        [] => Ok(()),
        [first, others @ ..] => {
            push_event(text, first)?;
            push_other_events(text, others)
        }
    }
}

// Puts an event control behind a text, and a space (9.7.2).
#[tactic(auto, unfolding(crate::specs::Statements::control_text))]
fn push_control(text: &mut Vec<u8>, events: &[EventExpression]) -> Result<(), AllocError>
    ensures { OnOk result (text.new.items ≡ text.old.items ++ spec.control_text (map source_trigger_of events.now)) }
{
    text.extend_from_slice(b"@(")?;
    push_events(text, events)?;
    text.extend_from_slice(b") ")
}

// Puts a condition behind a text, with a word and a parenthesis before it, and a parenthesis and a space behind it (9.4, 9.6).
#[tactic(auto, unfolding(crate::specs::Statements::condition_text))]
fn push_condition(
    text: &mut Vec<u8>,
    word: &[u8],
    condition: &SourceExpression,
) -> Result<(), AllocError>
    ensures { OnOk result (text.new.items ≡ text.old.items ++ spec.condition_text word.now (source_expression_of condition.now)) }
{
    text.extend_from_slice(word)?;
    push_expression(text, CONDITIONAL, condition)?;
    text.extend_from_slice(b") ")
}

// The name of a task that prints, and a parenthesis (17.1).
fn task_text(task: Task) -> &'static str
    ensures { result.now ≡ spec.task_text task }
{
    match task {
        Task::Display => "$display(",
        Task::Strobe => "$strobe(",
        Task::Write => "$write(",
    }
}

// Puts the call of a task that prints behind a text (17.1).
#[tactic(auto, unfolding(crate::specs::Statements::print_text))]
fn push_print(
    text: &mut Vec<u8>,
    task: Task,
    format: &[u8],
    arguments: &[SourceExpression],
) -> Result<(), AllocError>
    ensures { OnOk result (text.new.items ≡ text.old.items ++ spec.print_text task format.now (source_expressions (map source_expression_of arguments.now))) }
{
    text.extend_from_slice(task_text(task).as_bytes())?;
    push_string(text, format)?;
    push_arguments(text, arguments)?;
    text.extend_from_slice(b");\n")
}

// Puts the call of a task that prints behind a text, whose format is given by its pieces.
#[tactic(auto, unfolding(crate::specs::Statements::print_pieces_text))]
fn push_print_pieces(
    text: &mut Vec<u8>,
    task: Task,
    pieces: &[Piece],
    arguments: &[SourceExpression],
) -> Result<(), AllocError>
    ensures { OnOk result (text.new.items ≡ text.old.items ++ spec.print_pieces_text task (map piece_of pieces.now) (source_expressions (map source_expression_of arguments.now))) }
{
    text.extend_from_slice(task_text(task).as_bytes())?;
    push_format(text, pieces)?;
    push_shown(text, pieces, arguments)?;
    text.extend_from_slice(b");\n")
}

// Puts the `end` of a block behind a text, with the spaces of its line before it, and what follows it.
fn push_end(text: &mut Vec<u8>, depth: u32, behind: &[u8]) -> Result<(), AllocError>
    ensures { OnOk result (text.new.items ≡ text.old.items ++ (indent depth ++ (codes "end" ++ behind.now))) }
{
    push_indent(text, depth)?;
    text.extend_from_slice(b"end")?;
    text.extend_from_slice(behind)
}

// Puts the statement that does nothing behind a text: a `;` behind a control, and elsewhere an empty block (A.6.4, A.6.5).
#[tactic(auto, unfolding(crate::specs::Statements::block_text))]
fn push_null(text: &mut Vec<u8>, depth: u32, is_controlled: bool) -> Result<(), AllocError>
    ensures { OnOk result (text.new.items ≡ text.old.items ++ spec.null_text depth is_controlled) }
{
    if is_controlled {
        text.extend_from_slice(b";\n")
    } else {
        text.extend_from_slice(b"begin\n")?;
        push_end(text, depth, b"\n")
    }
}

/// Puts a statement behind a text, whose first line stands so deep and has its spaces already, behind a control or not.
#[cycle(statements)]
pub(crate) fn push_statement(
    text: &mut Vec<u8>,
    depth: u32,
    is_controlled: bool,
    statement: &SourceStatement,
) -> Result<(), AllocError>
    ensures { OnOk result (text.new.items ≡ text.old.items ++ spec.statement_text depth is_controlled (source_statement_of statement.now)) }
{
    match statement {
        SourceStatement::Empty => push_null(text, depth, is_controlled),
        SourceStatement::Block(body) => push_block(text, depth, body.as_slice(), b"\n"),
        SourceStatement::Assign(name, delay, value) => {
            push_assignment(text, name.as_str(), b" = ", *delay, value)
        }
        SourceStatement::AssignLater(name, delay, value) => {
            push_assignment(text, name.as_str(), b" <= ", *delay, value)
        }
        SourceStatement::Now(name) => push_now(text, name.as_str()),
        SourceStatement::Delay(delay, body) => {
            push_delay(text, *delay)?;
            push_statement(text, depth, true, body)
        }
        SourceStatement::Await(events, body) => {
            push_control(text, events.as_slice())?;
            push_statement(text, depth, true, body)
        }
        SourceStatement::If(condition, body) => {
            push_condition(text, b"if (", condition)?;
            push_block(text, depth, body.as_slice(), b"\n")
        }
        SourceStatement::IfElse(condition, body, otherwise) => {
            push_condition(text, b"if (", condition)?;
            push_block(text, depth, body.as_slice(), b" else ")?;
            push_block(text, depth, otherwise.as_slice(), b"\n")
        }
        SourceStatement::While(condition, body) => {
            push_condition(text, b"while (", condition)?;
            push_block(text, depth, body.as_slice(), b"\n")
        }
        SourceStatement::Print(task, format, arguments) => {
            push_print(text, *task, format.as_slice(), arguments.as_slice())
        }
        SourceStatement::PrintPieces(task, pieces, arguments) => {
            push_print_pieces(text, *task, pieces.as_slice(), arguments.as_slice())
        }
        SourceStatement::Finish => text.extend_from_slice(b"$finish;\n"),
    }
}

// Puts a block behind a text, whose first line stands so deep, and what follows it (9.8.1).
#[cycle(statements)]
#[tactic(auto, unfolding(crate::specs::Statements::block_text))]
fn push_block(
    text: &mut Vec<u8>,
    depth: u32,
    body: &[SourceStatement],
    behind: &[u8],
) -> Result<(), AllocError>
    ensures { OnOk result (text.new.items ≡ text.old.items
        ++ spec.block_text depth (spec.statements_text (deeper depth) (source_statements (map source_statement_of body.now))) behind.now) }
{
    text.extend_from_slice(b"begin\n")?;
    let inside = deeper(depth);
    for statement in body {
        push_indent(text, inside)?;
        push_statement(text, inside, false, statement)?;
    }
    push_end(text, depth, behind)
}
