//! The functions of the time (17.7).

ghost use Rattle.std.specs.Prelude.{◌≡◌};
ghost use Rattle.syntax_tree.specs.Expressions.{plain_expression_of};
ghost use Rattle.statement_parts.specs.Times as spec;

use syntax_tree::expressions::VerilogExpression;

/// Whether a system function is one of the time: `$time`, or `$stime`, which has its low 32 digits.
pub fn is_time_function(name: &[u8]) -> bool
    ensures { result ≡ spec.is_time_function name.now }
{
    name == b"$time".as_slice() || name == b"$stime".as_slice()
}

/// Whether an expression is the time alone.
pub fn is_time(e: &VerilogExpression) -> bool
    ensures { result ≡ spec.is_time (plain_expression_of e.now) }
{
    match e {
        VerilogExpression::SystemCall {
            name,
            arguments,
            ..
        } => arguments.as_slice().is_empty() && name.as_slice() == b"$time".as_slice(),
        _ => false,
    }
}
