//! Names that are used and not declared, in the order of the text.
ghost use Rattle.std.specs.Prelude.{◌≡◌, map};
ghost use Rattle.model.specs.SourceTrees.{source_expression_of, source_expressions, source_statement_of, source_statements, source_trigger_of, source_process_of};
ghost use Rattle.elaborate.specs.FirstFindings.{first_finding, used, all_used, unknown_among, used_in, all_used_in, used_by};

use crate::finding::{Finding, first};
use crate::names::RegisterNames;
use model::tree::{EventExpression, SourceExpression, SourceProcess, SourceStatement};

/// Refuses the first name of these processes that isn't declared.
pub fn processes<'a>(
    names: &RegisterNames,
    processes: &'a [SourceProcess],
) -> Result<(), Finding<'a>>
    ensures { first_finding result ≡ used_by names.now (map source_process_of processes.now) }
{
    for process in processes {
        statement(names, &process.body)?;
    }
    Ok(())
}

// Refuses the first name in a statement and in those inside it that isn't declared. All parts of it are looked at, and the first
// finding is told: a way out behind each part would be dear to prove.
#[cycle(used_in)]
fn statement<'a>(names: &RegisterNames, s: &'a SourceStatement) -> Result<(), Finding<'a>>
    ensures { first_finding result ≡ used_in names.now (source_statement_of s.now) }
{
    match s {
        SourceStatement::Empty | SourceStatement::Finish => Ok(()),
        SourceStatement::Block(body) => block(names, body.as_slice()),
        SourceStatement::Assign(name, _, e) | SourceStatement::AssignLater(name, _, e) => first(
            names.known(name.as_str()),
            expression(names, e),
        ),
        SourceStatement::Now(name) => names.known(name.as_str()),
        SourceStatement::Delay(_, s) => statement(names, s),
        SourceStatement::Await(triggers, s) => first(
            events(names, triggers.as_slice()),
            statement(names, s),
        ),
        SourceStatement::If(c, body) | SourceStatement::While(c, body) => first(
            expression(names, c),
            block(names, body.as_slice()),
        ),
        SourceStatement::IfElse(c, body, otherwise) => {
            let inside = first(
                block(names, body.as_slice()),
                block(names, otherwise.as_slice()),
            );
            first(expression(names, c), inside)
        }
        SourceStatement::Print(_, _, arguments) => expressions(names, arguments.as_slice()),
        SourceStatement::PrintPieces(_, _, arguments) => expressions(names, arguments.as_slice()),
    }
}

// Refuses the first name in a block that isn't declared.
#[cycle(used_in)]
fn block<'a>(names: &RegisterNames, body: &'a [SourceStatement]) -> Result<(), Finding<'a>>
    ensures { first_finding result
        ≡ all_used_in names.now (source_statements (map source_statement_of body.now)) }
{
    for s in body {
        statement(names, s)?;
    }
    Ok(())
}

// Refuses the first name in an event control that isn't declared.
fn events<'a>(names: &RegisterNames, events: &'a [EventExpression]) -> Result<(), Finding<'a>>
    ensures { first_finding result ≡ unknown_among names.now (map (λ t. t.1) (map source_trigger_of events.now)) }
{
    for event in events {
        names.known(event.name.as_str())?;
    }
    Ok(())
}

// Refuses the first name in an expression that isn't declared.
#[cycle(used)]
fn expression<'a>(names: &RegisterNames, e: &'a SourceExpression) -> Result<(), Finding<'a>>
    ensures { first_finding result ≡ used names.now (source_expression_of e.now) }
{
    match e {
        SourceExpression::Name(name) | SourceExpression::Select(name, _) => names.known(
            name.as_str(),
        ),
        SourceExpression::Literal(_) => Ok(()),
        SourceExpression::Concat(part, others) => first(
            expression(names, part),
            expressions(names, others.as_slice()),
        ),
        SourceExpression::Unary(_, e) | SourceExpression::Extend(_, _, e) => expression(names, e),
        SourceExpression::Binary(_, e, f) => first(expression(names, e), expression(names, f)),
        SourceExpression::Conditional(c, e, f) => {
            let chosen = first(expression(names, e), expression(names, f));
            first(expression(names, c), chosen)
        }
    }
}

// Refuses the first name in these expressions that isn't declared.
#[cycle(used)]
fn expressions<'a>(names: &RegisterNames, parts: &'a [SourceExpression]) -> Result<(), Finding<'a>>
    ensures { first_finding result ≡ all_used names.now (source_expressions (map source_expression_of parts.now)) }
{
    for part in parts {
        expression(names, part)?;
    }
    Ok(())
}
