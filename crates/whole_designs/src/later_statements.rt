//! What this language lacks still in declarations and statements, and statements that stand too deep in each other.

use crate::later::LaterPlaces;
use crate::later_expressions::{add_expression, add_expressions};
use design_faults::refused::LaterForm;
use statement_parts::tasks::is_dump_task;
use syntax_tree::declarations::{BlockItem, ParameterDeclaration, VariableDeclaration};
use syntax_tree::expressions::VerilogExpression;
use syntax_tree::statements::{
    AssignmentTiming, BlockForm, CaseForm, CaseItem, ConditionalBranch, EventControl,
    VariableAssignment, VerilogStatement,
};

/// How deep statements stand in each other at most: each branch of an `if` stands in those before it, and so does each item of a `case`.
const MOST_DEEP: usize = 1024;

/// Adds what a declaration of variables has: arrays, and values.
pub(crate) fn add_variables(found: &mut LaterPlaces, source: &VariableDeclaration) {
    for declarator in &source.declarators {
        let token = declarator.identifier.token;
        if !declarator.dimensions.is_empty() {
            found.add(token, LaterForm::Array);
        }
        if let Some(value) = &declarator.value {
            found.add(token, LaterForm::InitialValue);
            add_expression(found, value);
        }
    }
}

/// Adds what the values of parameters have.
pub(crate) fn add_parameters(found: &mut LaterPlaces, source: &ParameterDeclaration) {
    for assignment in &source.assignments {
        add_expression(found, &assignment.value);
    }
}

/// Adds what the declarations of a block, a task or a function have.
pub(crate) fn add_block_items(found: &mut LaterPlaces, items: &[BlockItem]) {
    for item in items {
        match item {
            BlockItem::Variable(source) => add_variables(found, source),
            BlockItem::Parameter(source) => add_parameters(found, source),
            BlockItem::Event(_) => {}
        }
    }
}

/// Adds what is assigned to, where it isn't a variable by its name.
fn add_target(found: &mut LaterPlaces, target: &VerilogExpression) {
    match target {
        VerilogExpression::Index { token, .. }
        | VerilogExpression::Part { token, .. }
        | VerilogExpression::Concatenation { token, .. } => found.add(
            *token,
            LaterForm::PartTarget,
        ),
        _ => {}
    }
}

/// Adds what an assignment in the head of a `for` has.
fn add_head(found: &mut LaterPlaces, head: &VariableAssignment) {
    add_target(found, &head.target);
    add_expression(found, &head.value);
}

/// Adds what a delay has, which may be a real number (9.7.1).
fn add_delay(found: &mut LaterPlaces, delay: &VerilogExpression) {
    match delay {
        VerilogExpression::Real { .. } => (),
        _ => add_expression(found, delay),
    }
}

/// Adds what stands between the value of an assignment and its effect.
fn add_timing(found: &mut LaterPlaces, token: usize, timing: &Option<Box<AssignmentTiming>>) {
    let Some(timing) = timing else {
        return;
    };
    match &**timing {
        AssignmentTiming::Delay(delay) => add_delay(found, delay),
        AssignmentTiming::Event(_) | AssignmentTiming::Repeat(_, _) => {
            found.add(token, LaterForm::EventInAssignment);
        }
    }
}

/// Adds what the events of a control have.
fn add_control(found: &mut LaterPlaces, control: &EventControl) {
    let EventControl::Events(events) = control else {
        return;
    };
    for event in events {
        add_expression(found, &event.expression);
    }
}

/// Whether a system task is one that this language has.
fn is_known_task(name: &[u8]) -> bool {
    name == b"$display".as_slice()
        || name == b"$strobe".as_slice()
        || name == b"$write".as_slice()
        || name == b"$finish".as_slice()
        || name == b"$stop".as_slice()
}

/// Adds what the call of a system task has.
fn add_system_task(
    found: &mut LaterPlaces,
    token: usize,
    name: &[u8],
    arguments: &[Option<VerilogExpression>],
) {
    if is_dump_task(name) {
        return;
    }
    if !is_known_task(name) {
        found.add(token, LaterForm::SystemTask);
        return;
    }
    for argument in arguments {
        if let Some(argument) = argument {
            add_expression(found, argument);
        }
    }
}

/// Adds what a statement without statements in it has.
fn add_simple(found: &mut LaterPlaces, s: &VerilogStatement) {
    match s {
        VerilogStatement::Assignment {
            token,
            target,
            timing,
            value,
            ..
        } => {
            add_target(found, target);
            add_timing(found, *token, timing);
            add_expression(found, value);
        }
        VerilogStatement::Disable { token, .. } => found.add(*token, LaterForm::Disable),
        VerilogStatement::TaskCall { arguments, .. } => add_expressions(
            found,
            arguments.as_slice(),
        ),
        VerilogStatement::SystemTaskCall {
            token,
            name,
            arguments,
        } => add_system_task(found, *token, name.as_slice(), arguments.as_slice()),
        _ => {}
    }
}

/// Adds what a statement has, which stands so deep in others.
#[cycle(later_statement)]
pub(crate) fn add_statement(found: &mut LaterPlaces, s: &VerilogStatement, depth: usize) {
    match s {
        VerilogStatement::Block {
            token,
            form,
            items,
            body,
            ..
        } => {
            if *form == BlockForm::Parallel {
                found.add(*token, LaterForm::Fork);
            }
            add_block_items(found, items.as_slice());
            add_statements(found, body.as_slice(), depth.saturating_add(1));
        }
        VerilogStatement::Delayed { delay, body, .. } => {
            add_delay(found, delay);
            add_statement(found, body, depth.saturating_add(1));
        }
        VerilogStatement::Awaited { control, body, .. } => {
            add_control(found, control);
            add_statement(found, body, depth.saturating_add(1));
        }
        VerilogStatement::Wait {
            condition,
            body,
            ..
        }
        | VerilogStatement::While {
            condition,
            body,
            ..
        } => {
            add_expression(found, condition);
            add_statement(found, body, depth.saturating_add(1));
        }
        VerilogStatement::If {
            token,
            branches,
            otherwise,
        } => {
            let last = depth.saturating_add(branches.len());
            if last > MOST_DEEP {
                found.add_deep(*token);
                return;
            }
            add_branches(found, branches.as_slice(), depth);
            match otherwise {
                Some(body) => add_statement(found, body, last),
                None => {}
            }
        }
        VerilogStatement::Case {
            token,
            form,
            selector,
            items,
        } => {
            if *form != CaseForm::Case {
                found.add(*token, LaterForm::DontCares);
            }
            add_expression(found, selector);
            if depth.saturating_add(items.len()) > MOST_DEEP {
                found.add_deep(*token);
                return;
            }
            add_items(found, items.as_slice(), depth);
        }
        VerilogStatement::For {
            start,
            condition,
            step,
            body,
            ..
        } => {
            add_head(found, start);
            add_expression(found, condition);
            add_head(found, step);
            add_statement(found, body, depth.saturating_add(1));
        }
        VerilogStatement::Repeat { count, body, .. } => {
            add_expression(found, count);
            add_statement(found, body, depth.saturating_add(1));
        }
        VerilogStatement::Forever { body, .. } => add_statement(
            found,
            body,
            depth.saturating_add(1),
        ),
        _ => add_simple(found, s),
    }
}

/// Adds what statements have, one after another.
#[cycle(later_statement)]
fn add_statements(found: &mut LaterPlaces, body: &[VerilogStatement], depth: usize) {
    for s in body {
        add_statement(found, s, depth);
    }
}

/// Adds what the branches of an `if` have.
#[cycle(later_statement)]
fn add_branches(found: &mut LaterPlaces, branches: &[ConditionalBranch], depth: usize) {
    for (number, branch) in branches.iter().enumerate() {
        add_expression(found, &branch.condition);
        add_statement(
            found,
            &branch.body,
            depth.saturating_add(number).saturating_add(1),
        );
    }
}

/// Adds what the items of a `case` have.
#[cycle(later_statement)]
fn add_items(found: &mut LaterPlaces, items: &[CaseItem], depth: usize) {
    for (number, item) in items.iter().enumerate() {
        if item.labels.len() > MOST_DEEP {
            found.add_deep(item.token);
            return;
        }
        add_expressions(found, item.labels.as_slice());
        add_statement(
            found,
            &item.body,
            depth.saturating_add(number).saturating_add(1),
        );
    }
}
