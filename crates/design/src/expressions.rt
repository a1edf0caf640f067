//! The steps of expressions: the operands from left to right, each at its size, and then the operator.
ghost use Rattle.std.specs.Prelude.{◌≡◌, ◌<◌, ◌≤◌, ◌++◌, ◌∷◌, [], true, length, OnOk};
ghost use Rattle.design.specs.declared.code.Op.TheVariants as op;
ghost use Rattle.design.specs.Sound.{AreWidths, IsSoundExpression, AreSoundExpressions};
ghost use Rattle.design.specs.DesignTrees.{expression_of, expressions_of};
ghost use Rattle.design.specs.Generate.{direct_step, expression_code, parts_code, join_code, own_code, assigned_code};

use crate::code::{Op, Size};
use crate::control::RegId;
use crate::sizes::{left_size, operand_size, own_size, right_size, width_of};
use crate::tree::Expression;
use model::tree::BinaryOperator;
use std::alloc::AllocError;

// Puts a step behind those that are there. Fails where memory is refused.
fn put(ops: &mut Vec<Op>, op: Op) -> Result<(), AllocError>
    ensures { OnOk result (ops.new.items ≡ ops.old.items ++ op ∷ []) }
{
    ops.push(op)?;
    Ok(())
}

fn load(ops: &mut Vec<Op>, register: RegId, size: Size) -> Result<(), AllocError>
    ensures { OnOk result (ops.new.items ≡ ops.old.items ++ op.Load register size ∷ []) }
{
    put(ops, Op::Load { register, size })
}

// The step of one digit of a register, extended to a size.
fn pick(ops: &mut Vec<Op>, register: RegId, index: u32, size: Size) -> Result<(), AllocError>
    ensures { OnOk result (ops.new.items ≡ ops.old.items ++ op.Pick register index size ∷ []) }
{
    put(
        ops,
        Op::Pick {
            register,
            index,
            size,
        },
    )
}

// The step of an operator on two vectors of a size.
fn combine(
    ops: &mut Vec<Op>,
    operator: BinaryOperator,
    size: Size,
    asked: Size,
) -> Result<(), AllocError>
    ensures { OnOk result (ops.new.items ≡ ops.old.items ++ op.Binary operator size asked ∷ []) }
{
    put(
        ops,
        Op::Binary {
            operator,
            size,
            asked,
        },
    )
}

fn join(ops: &mut Vec<Op>, is_first: bool) -> Result<(), AllocError>
    ensures { OnOk result (ops.new.items ≡ ops.old.items ++ join_code is_first) }
{
    if is_first { Ok(()) } else { put(ops, Op::Join) }
}

// The step of an operator that takes its right operand, a register or a vector, without the stack.
fn direct(
    operator: BinaryOperator,
    size: Size,
    asked: Size,
    other: Size,
    right: &Expression,
) -> Option<Op>
    ensures { result ≡ direct_step operator size asked other (expression_of right.now) }
{
    match right {
        Expression::Register(register) => Some(Op::BinaryRegister {
            operator,
            size,
            asked,
            register: *register,
            other,
        }),
        Expression::Literal(value) => Some(Op::BinaryConstant {
            operator,
            size,
            asked,
            value: value.resize(other.get()),
        }),
        _ => None,
    }
}

// The steps of an expression at the size that is asked for, behind those that are there.
#[cycle(emit)]
fn emit(
    ops: &mut Vec<Op>,
    widths: &[u32],
    asked: Size,
    expression: &Expression,
) -> Result<(), AllocError>
    requires sound { IsSoundExpression widths.now (expression_of expression.now) }
    requires widths { AreWidths widths.now }
    ensures { OnOk result (ops.new.items ≡ ops.old.items ++ expression_code widths.now asked (expression_of expression.now)) }
{
    match expression {
        Expression::Register(register) => load(ops, *register, asked),
        Expression::Select(register, index) => pick(ops, *register, *index, asked),
        Expression::Literal(value) => {
            let value = value.resize(asked.get());
            put(ops, Op::Constant { value })
        }
        Expression::Concat(parts) => {
            emit_parts(ops, widths, parts)?;
            put(ops, Op::Resize { size: asked })
        }
        Expression::Unary(operator, operand) => {
            let operator = *operator;
            let size = operand_size(operator, asked, own_size(widths, operand));
            emit(ops, widths, size, operand)?;
            put(ops, Op::Unary { operator, asked })
        }
        Expression::Binary(operator, left, right) => {
            let operator = *operator;
            let own_left = own_size(widths, left);
            let own_right = own_size(widths, right);
            let size = left_size(operator, asked, own_left, own_right);
            let other = right_size(operator, asked, own_left, own_right);
            emit(ops, widths, size, left)?;
            match direct(operator, size, asked, other, right) {
                Some(op) => put(ops, op),
                None => {
                    emit(ops, widths, other, right)?;
                    combine(ops, operator, size, asked)
                }
            }
        }
        Expression::Conditional(condition, first, second) => {
            emit(ops, widths, own_size(widths, condition), condition)?;
            emit(ops, widths, asked, first)?;
            emit(ops, widths, asked, second)?;
            put(ops, Op::Choose { size: asked })
        }
        Expression::Extend(by, size, operand) => {
            let by = *by;
            let size = *size;
            emit(ops, widths, own_size(widths, operand), operand)?;
            put(ops, Op::Extend { by, size, asked })
        }
    }
}

// The steps of the parts of a concatenation, each at its own size, and with each but the first the step that joins it to those before.
#[cycle(emit)]
fn emit_parts(ops: &mut Vec<Op>, widths: &[u32], parts: &[Expression]) -> Result<(), AllocError>
    requires sound { AreSoundExpressions widths.now (expressions_of parts.now) }
    requires widths { AreWidths widths.now }
    ensures { OnOk result (ops.new.items ≡ ops.old.items ++ parts_code widths.now true (expressions_of parts.now)) }
{
    let mut is_first = true;
    for part in parts {
        emit(ops, widths, own_size(widths, part), part)?;
        join(ops, is_first)?;
        is_first = false;
    }
    Ok(())
}

/// The steps of a condition or of an argument, behind those that are there.
pub fn emit_own(
    ops: &mut Vec<Op>,
    widths: &[u32],
    expression: &Expression,
) -> Result<(), AllocError>
    requires sound { IsSoundExpression widths.now (expression_of expression.now) }
    requires widths { AreWidths widths.now }
    ensures { OnOk result (ops.new.items ≡ ops.old.items ++ own_code widths.now (expression_of expression.now)) }
{
    emit(ops, widths, own_size(widths, expression), expression)
}

/// The steps of the right side of an assignment, behind those that are there.
pub fn emit_assigned(
    ops: &mut Vec<Op>,
    widths: &[u32],
    register: RegId,
    expression: &Expression,
) -> Result<(), AllocError>
    requires declared { register < length widths.now }
    requires sound { IsSoundExpression widths.now (expression_of expression.now) }
    requires widths { AreWidths widths.now }
    ensures { OnOk result (ops.new.items ≡ ops.old.items ++ assigned_code widths.now register (expression_of expression.now)) }
{
    let width = width_of(widths, register);
    let own = own_size(widths, expression);
    if own.get() <= width.get() {
        emit(ops, widths, width, expression)
    } else {
        emit(ops, widths, own, expression)?;
        put(ops, Op::Resize { size: width })
    }
}
