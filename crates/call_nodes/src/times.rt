//! The nodes that stand for the time (17.7).

ghost use Rattle.std.specs.Prelude.{◌≡◌, ◌≤◌, IfOk};
ghost use Rattle.syntax_tree.specs.Expressions.{plain_expression_of};
ghost use Rattle.statement_parts.specs.Statements.{plain_of};
ghost use Rattle.call_nodes.specs.Nodes as spec;

use crate::copies::copied_expression;
use crate::expression_nodes::{NumberForm, binary_of, number_of, part_of, system_call_of};
use crate::nodes::{MadeNode, assignment_node, name_node};
use logic4::bits::Bits;
use std::alloc::Global;
use syntax_tree::expressions::{PartForm, VerilogBinaryOperator, VerilogExpression};
use syntax_tree::statements::VerilogStatement;

/// The assignment of the time to a variable.
pub fn time_node(alloc: Global, token: usize, name: &[u8]) -> MadeNode<VerilogStatement>
    ensures { IfOk result (λ made. plain_of made ≡ spec.given_time token name.now) }
{
    let target = name_node(alloc, token, name)?;
    let time = system_call_of(alloc, token, b"$time", Vec::new(alloc))?;
    Ok(assignment_node(token, target, time))
}

/// A number without a size.
fn unsized_number(alloc: Global, token: usize, value: u64) -> MadeNode<VerilogExpression>
    ensures { IfOk result (λ made. plain_expression_of made ≡ spec.unsized_number token value) }
{
    let form = NumberForm {
        sized: false,
        signed: true,
        cut: false,
    };
    number_of(alloc, token, form, Bits::from_u64(32, value))
}

/// What a function of the time has, by a variable that was given the time.
pub fn kept_time_node(
    alloc: Global,
    token: usize,
    function: &[u8],
    name: &[u8],
) -> MadeNode<VerilogExpression>
    ensures { IfOk result (λ made. plain_expression_of made ≡ spec.time_kept token function.now name.now) }
{
    let kept = name_node(alloc, token, name)?;
    if function == b"$time".as_slice() {
        return Ok(kept);
    }
    let most = unsized_number(alloc, token, 31)?;
    let least = unsized_number(alloc, token, 0)?;
    part_of(alloc, token, PartForm::Constant, kept, (most, least))
}

/// A number of a size, without a sign.
pub fn number_of_size(
    alloc: Global,
    token: usize,
    size: u32,
    value: u64,
) -> MadeNode<VerilogExpression>
    requires some { 1 ≤ size }
    requires fits { size ≤ 128 }
    ensures { IfOk result (λ made. plain_expression_of made ≡ spec.number_of_size token size value) }
{
    let form = NumberForm {
        sized: true,
        signed: false,
        cut: false,
    };
    number_of(alloc, token, form, Bits::from_u64(size, value))
}

/// An expression of its own size and without a sign: `$unsigned(e)`.
fn own_node(alloc: Global, token: usize, e: VerilogExpression) -> MadeNode<VerilogExpression>
    ensures { IfOk result (λ made. plain_expression_of made ≡ spec.own_number token (plain_expression_of e)) }
{
    let mut arguments = Vec::new(alloc);
    arguments.push(e)?;
    system_call_of(alloc, token, b"$unsigned", arguments)
}

/// A number moved to the left by so many digits.
fn moved_node(
    alloc: Global,
    token: usize,
    e: &VerilogExpression,
    digits: u64,
) -> MadeNode<VerilogExpression>
    ensures { IfOk result (λ made. plain_expression_of made ≡ spec.moved_number token (plain_expression_of e.now) digits) }
{
    let number = copied_expression(alloc, e)?;
    let by = number_of_size(alloc, token, 8, digits)?;
    binary_of(alloc, token, VerilogBinaryOperator::ShiftLeft, number, by)
}

/// Ten, multiplied by itself so often, where 64 digits hold it.
fn power_of_ten(power: u8) -> u64 {
    let mut found: u64 = 1;
    for _digit in 0..power {
        found = found.saturating_mul(10);
    }
    found
}

/// Zero, of 128 digits.
fn wide_zero(alloc: Global, token: usize) -> MadeNode<VerilogExpression> {
    number_of_size(alloc, token, 128, 0)
}

/// An expression multiplied by ten so often, as a number of 128 digits: the sum of it, moved by each digit of the factor.
pub fn tens_node(
    alloc: Global,
    token: usize,
    e: VerilogExpression,
    power: u8,
) -> MadeNode<VerilogExpression> {
    let own = own_node(alloc, token, e)?;
    let factor = power_of_ten(power);
    let mut sum = wide_zero(alloc, token)?;
    for digit in 0..64_u32 {
        if (factor >> digit) % 2 == 1 {
            let next = moved_node(alloc, token, &own, u64::from(digit))?;
            sum = binary_of(alloc, token, VerilogBinaryOperator::Add, sum, next)?;
        }
    }
    Ok(sum)
}
