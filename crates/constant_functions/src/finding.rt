//! Whether expressions have calls of functions, and where statements stand.

use syntax_tree::expressions::VerilogExpression;
use syntax_tree::statements::VerilogStatement;

/// Whether an expression has the call of a function.
#[cycle(finding)]
pub(crate) fn has_call(e: &VerilogExpression) -> bool {
    match e {
        VerilogExpression::Call { .. } => true,
        VerilogExpression::Member { scope, .. } => has_call(scope),
        VerilogExpression::Index { base, index, .. } => has_call(base) || has_call(index),
        VerilogExpression::Part {
            base,
            first,
            second,
            ..
        } => has_call(base) || has_call(first) || has_call(second),
        VerilogExpression::SystemCall { arguments, .. } => any_calls(arguments.as_slice()),
        VerilogExpression::Concatenation { parts, .. } => any_calls(parts.as_slice()),
        VerilogExpression::Replication { count, parts, .. } => {
            has_call(count) || any_calls(parts.as_slice())
        }
        VerilogExpression::Unary { operand, .. } => has_call(operand),
        VerilogExpression::Binary { left, right, .. } => has_call(left) || has_call(right),
        VerilogExpression::Conditional {
            condition,
            first,
            second,
            ..
        } => has_call(condition) || has_call(first) || has_call(second),
        _ => false,
    }
}

/// Whether one of some expressions has the call of a function.
#[cycle(finding)]
fn any_calls(all: &[VerilogExpression]) -> bool {
    for e in all {
        if has_call(e) {
            return true;
        }
    }
    false
}

/// The token of a statement.
pub(crate) fn token_of(s: &VerilogStatement) -> usize {
    match s {
        VerilogStatement::Empty { token }
        | VerilogStatement::Block { token, .. }
        | VerilogStatement::Assignment { token, .. }
        | VerilogStatement::Delayed { token, .. }
        | VerilogStatement::Awaited { token, .. }
        | VerilogStatement::Wait { token, .. } => *token,
        VerilogStatement::If { token, .. }
        | VerilogStatement::Case { token, .. }
        | VerilogStatement::For { token, .. }
        | VerilogStatement::Repeat { token, .. }
        | VerilogStatement::While { token, .. }
        | VerilogStatement::Forever { token, .. } => *token,
        VerilogStatement::Disable { token, .. }
        | VerilogStatement::Trigger { token, .. }
        | VerilogStatement::TaskCall { token, .. }
        | VerilogStatement::SystemTaskCall { token, .. }
        | VerilogStatement::Refused { token } => *token,
    }
}
