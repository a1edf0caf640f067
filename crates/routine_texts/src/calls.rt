//! The first call of a function in an expression, one of the time among them, and whether statements have calls.

ghost use Rattle.std.specs.Prelude.{◌≡◌, ◌||◌, is_some, map};
ghost use Rattle.syntax_tree.specs.Expressions.{plain_expression_of, plain_expressions};
ghost use Rattle.statement_parts.specs.Times.{is_time_function};
ghost use Rattle.routine_texts.specs.Calls.{calls_in, calls_in_any};

use statement_parts::times::is_time_function;
use syntax_tree::expressions::VerilogExpression;
use syntax_tree::statements::{
    AssignmentTiming, CaseItem, ConditionalBranch, VariableAssignment, VerilogStatement,
};

/// The first of two tokens that is there.
fn either(first: Option<usize>, second: Option<usize>) -> Option<usize>
    ensures { is_some result ≡ is_some first || is_some second }
{
    match first {
        Some(token) => Some(token),
        None => second,
    }
}

/// The token of a system function, where it is one of the time.
fn time_token(token: usize, name: &[u8]) -> Option<usize>
    ensures { is_some result ≡ is_time_function name.now }
{
    if is_time_function(name) {
        Some(token)
    } else {
        None
    }
}

/// The token of the first call in an expression: of a function, or of one of the time.
#[cycle(first)]
pub fn first_call(e: &VerilogExpression) -> Option<usize>
    ensures { is_some result ≡ calls_in (plain_expression_of e.now) }
{
    match e {
        VerilogExpression::Call { token, .. } => Some(*token),
        VerilogExpression::Member { scope, .. } => first_call(scope),
        VerilogExpression::Index { base, index, .. } => either(first_call(base), first_call(index)),
        VerilogExpression::Part {
            base,
            first,
            second,
            ..
        } => either(
            first_call(base),
            either(first_call(first), first_call(second)),
        ),
        VerilogExpression::SystemCall {
            token,
            name,
            arguments,
        } => either(
            time_token(*token, name.as_slice()),
            first_of(arguments.as_slice()),
        ),
        VerilogExpression::Concatenation { parts, .. } => first_of(parts.as_slice()),
        VerilogExpression::Replication { count, parts, .. } => {
            either(first_call(count), first_of(parts.as_slice()))
        }
        VerilogExpression::Unary { operand, .. } => first_call(operand),
        VerilogExpression::Binary { left, right, .. } => either(
            first_call(left),
            first_call(right),
        ),
        VerilogExpression::Conditional {
            condition,
            first,
            second,
            ..
        } => either(
            first_call(condition),
            either(first_call(first), first_call(second)),
        ),
        VerilogExpression::Number { .. }
        | VerilogExpression::Real { .. }
        | VerilogExpression::Text { .. }
        | VerilogExpression::Name { .. }
        | VerilogExpression::Refused { .. } => None,
    }
}

/// The token of the first call in some expressions.
#[cycle(first)]
pub fn first_of(all: &[VerilogExpression]) -> Option<usize>
    ensures { is_some result ≡ calls_in_any (plain_expressions (map plain_expression_of all.now)) }
{
    for e in all {
        let found = first_call(e);
        if found.is_some() {
            return found;
        }
    }
    None
}

/// Whether an expression has a call.
pub fn has_call(e: &VerilogExpression) -> bool
    ensures { result ≡ calls_in (plain_expression_of e.now) }
{
    first_call(e).is_some()
}

/// Whether an assignment has a call.
pub fn assignment_calls(source: &VariableAssignment) -> bool {
    has_call(&source.target) || has_call(&source.value)
}

/// Whether what stands between the value of an assignment and its effect has a call.
fn timing_calls(timing: &Option<Box<AssignmentTiming>>) -> bool {
    let Some(timing) = timing else {
        return false;
    };
    match &**timing {
        AssignmentTiming::Delay(delay) => has_call(delay),
        AssignmentTiming::Event(_) => false,
        AssignmentTiming::Repeat(count, _) => has_call(count),
    }
}

/// Whether an argument of a system task has a call.
fn argument_calls(argument: &Option<VerilogExpression>) -> bool {
    match argument {
        Some(e) => has_call(e),
        None => false,
    }
}

/// The token of the first call in the arguments of a system task.
pub fn first_argument_call(arguments: &[Option<VerilogExpression>]) -> Option<usize> {
    for argument in arguments {
        if let Some(e) = argument {
            let found = first_call(e);
            if found.is_some() {
                return found;
            }
        }
    }
    None
}

/// Whether a statement without statements in it has a call.
fn simple_calls(s: &VerilogStatement) -> bool {
    match s {
        VerilogStatement::Assignment {
            target,
            timing,
            value,
            ..
        } => has_call(target) || timing_calls(timing) || has_call(value),
        VerilogStatement::TaskCall { .. } => true,
        VerilogStatement::SystemTaskCall { arguments, .. } => arguments.iter().any(argument_calls),
        _ => false,
    }
}

/// Whether a statement has the call of a function or a task.
#[cycle(statements)]
pub fn statement_calls(s: &VerilogStatement) -> bool {
    match s {
        VerilogStatement::Block { body, .. } => any_calls(body.as_slice()),
        VerilogStatement::Delayed { delay, body, .. } => has_call(delay) || statement_calls(body),
        VerilogStatement::Awaited { body, .. } => statement_calls(body),
        VerilogStatement::Wait {
            condition,
            body,
            ..
        } => has_call(condition) || statement_calls(body),
        VerilogStatement::If {
            branches,
            otherwise,
            ..
        } => {
            if branches_call(branches.as_slice()) {
                return true;
            }
            match otherwise {
                Some(body) => statement_calls(body),
                None => false,
            }
        }
        VerilogStatement::Case {
            selector,
            items,
            ..
        } => has_call(selector) || items_call(items.as_slice()),
        VerilogStatement::For {
            start,
            condition,
            step,
            body,
            ..
        } => {
            assignment_calls(start)
                || has_call(condition)
                || assignment_calls(step)
                || statement_calls(body)
        }
        VerilogStatement::Repeat { count, body, .. } => has_call(count) || statement_calls(body),
        VerilogStatement::While {
            condition,
            body,
            ..
        } => has_call(condition) || statement_calls(body),
        VerilogStatement::Forever { body, .. } => statement_calls(body),
        _ => simple_calls(s),
    }
}

/// Whether one of some statements has a call.
#[cycle(statements)]
fn any_calls(body: &[VerilogStatement]) -> bool {
    for s in body {
        if statement_calls(s) {
            return true;
        }
    }
    false
}

/// Whether a branch of an `if` has a call.
#[cycle(statements)]
fn branches_call(branches: &[ConditionalBranch]) -> bool {
    for branch in branches {
        if has_call(&branch.condition) || statement_calls(&branch.body) {
            return true;
        }
    }
    false
}

/// Whether an item of a `case` has a call.
#[cycle(statements)]
fn items_call(items: &[CaseItem]) -> bool {
    for item in items {
        if first_of(item.labels.as_slice()).is_some() || statement_calls(&item.body) {
            return true;
        }
    }
    false
}
