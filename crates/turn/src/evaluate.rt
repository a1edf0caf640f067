//! The steps of an expression, on a stack of vectors.
ghost use Rattle.std.specs.Prelude.{◌≡◌, ◌<◌, ◌∷◌, [], None, length, reverse, slice_index_or, OnOk};
ghost use Rattle.logic4.specs.Vector.{resize};
ghost use Rattle.logic4.specs.Operators.{select_digit};
ghost use Rattle.model.specs.Expressions.{Store};
ghost use Rattle.design.specs.declared.code.Op.TheVariants.{Load, Pick, Unary, Binary, BinaryRegister, Join, Resize, Extend, Choose};
ghost use Rattle.design.specs.Operate.{combined};
ghost use Rattle.design.specs.ExpressionSteps.{topmost, below, act, run_ops, IsOpOf};
ghost use Rattle.turn.specs.Reads.{ReadsOn};
ghost use Rattle.turn.specs.Evaluate.{vectors, NamesDeclared, Holds, Acts, RunsSteps, Evaluates};

use crate::memory::{Memory, RegReader};
use crate::operate::{choose, combine_alike, join, unary};
use crate::stack::{Stack, pop};
use design::RegId;
use design::code::{Op, Size};
use logic4::bits::Bits;
use logic4::digit::Extension;
use model::tree::{BinaryOperator, UnaryOperator};
use std::alloc::AllocError;

// Puts a vector at a size in the place of another. One that has it is copied as it stands.
#[inline(always)]
#[tactic(auto, using(crate::proofs::Sizes::resize_same))]
fn set_sized(place: &mut Bits, value: &Bits, size: Size)
    ensures { place.new ≡ resize size value.now }
{
    if value.width() == size.get() {
        *place = *value;
    } else {
        *place = value.resize(size.get());
    }
}

// One digit of a vector, x where it has none there (5.2.1).
fn pick(value: Bits, index: u32) -> Bits
    ensures value { result ≡ select_digit value index ∷ [] }
    ensures width { length result ≡ 1 }
{
    if index < value.width() {
        value.select(index)
    } else {
        Bits::unknown(1)
    }
}

// The functions of single steps that make a vector elsewhere stand apart, since its room is cleared when a function is entered:
// in one function of all steps each would clear the room of all.

// The value of a register of which none is known, above the rest of the stack. It stands apart from the common case, whose
// frame needs no room for what a read may answer.
#[inline(never)]
fn load_unknown<R: RegReader>(
    memory: &mut Memory,
    reader: &mut R,
    stack: &mut Stack,
    register: RegId,
    size: Size,
) -> Result<(), AllocError>
    requires declared { register < R.registers }
    requires unknown { slice_index_or memory.old.known register None ≡ None }
    ensures acts { OnOk result (Acts (Load register size) memory.old.known memory.old.reads.entries (reverse stack.old.rest.items) memory.new.known memory.new.reads.entries (vectors stack.new)) }
    ensures reads { ReadsOn R.gave R.lasting result reader.old memory.old.reads.entries reader.new memory.new.reads.entries }
{
    let value = memory.read(reader, register)?;
    set_sized(&mut stack.top, &value, size);
    Ok(())
}

// The value of a register, above the rest of the stack.
#[inline(always)]
fn load<R: RegReader>(
    memory: &mut Memory,
    reader: &mut R,
    stack: &mut Stack,
    register: RegId,
    size: Size,
) -> Result<(), AllocError>
    requires { register < R.registers }
    ensures acts { OnOk result (Acts (Load register size) memory.old.known memory.old.reads.entries (reverse stack.old.rest.items) memory.new.known memory.new.reads.entries (vectors stack.new)) }
    ensures reads { ReadsOn R.gave R.lasting result reader.old memory.old.reads.entries reader.new memory.new.reads.entries }
{
    match memory.known.peek(register) {
        Some(value) => {
            set_sized(&mut stack.top, value, size);
            Ok(())
        }
        None => load_unknown(memory, reader, stack, register, size),
    }
}

// The value of a register, above the topmost vector.
fn load_above<R: RegReader>(
    memory: &mut Memory,
    reader: &mut R,
    stack: &mut Stack,
    register: RegId,
    size: Size,
) -> Result<(), AllocError>
    requires { register < R.registers }
    ensures acts { OnOk result (Acts (Load register size) memory.old.known memory.old.reads.entries (vectors stack.old) memory.new.known memory.new.reads.entries (vectors stack.new)) }
    ensures reads { ReadsOn R.gave R.lasting result reader.old memory.old.reads.entries reader.new memory.new.reads.entries }
{
    stack.keep_top()?;
    load(memory, reader, stack, register, size)
}

// One digit of a register, above the rest of the stack.
#[inline(never)]
fn load_digit<R: RegReader>(
    memory: &mut Memory,
    reader: &mut R,
    stack: &mut Stack,
    register: RegId,
    index: u32,
    size: Size,
) -> Result<(), AllocError>
    requires { register < R.registers }
    ensures acts { OnOk result (Acts (Pick register index size) memory.old.known memory.old.reads.entries (reverse stack.old.rest.items) memory.new.known memory.new.reads.entries (vectors stack.new)) }
    ensures reads { ReadsOn R.gave R.lasting result reader.old memory.old.reads.entries reader.new memory.new.reads.entries }
{
    let value = memory.look(reader, register)?;
    stack.top = pick(value, index).resize(size.get());
    Ok(())
}

// An operator on the topmost vector, as its left operand, and this one at a size.
#[inline(always)]
#[tactic(auto, using(crate::proofs::Sizes::resize_same))]
fn act_with_sized(
    place: &mut Bits,
    operator: BinaryOperator,
    size: Size,
    asked: Size,
    right: &Bits,
    other: Size,
)
    ensures { place.new ≡ combined operator size asked place.old (resize other right.now) }
{
    if right.width() == other.get() {
        combine_alike(operator, size, asked, place, right);
    } else {
        combine_alike(operator, size, asked, place, &right.resize(other.get()));
    }
}

// An operator on the topmost vector, as its left operand, and the value of a register of which none is known.
#[inline(never)]
fn act_with_unknown<R: RegReader>(
    memory: &mut Memory,
    reader: &mut R,
    stack: &mut Stack,
    operator: BinaryOperator,
    size: Size,
    asked: Size,
    register: RegId,
    other: Size,
) -> Result<(), AllocError>
    requires declared { register < R.registers }
    requires unknown { slice_index_or memory.old.known register None ≡ None }
    ensures acts { OnOk result (Acts (BinaryRegister operator size asked register other) memory.old.known memory.old.reads.entries (vectors stack.old) memory.new.known memory.new.reads.entries (vectors stack.new)) }
    ensures reads { ReadsOn R.gave R.lasting result reader.old memory.old.reads.entries reader.new memory.new.reads.entries }
{
    let value = memory.read(reader, register)?;
    act_with_sized(&mut stack.top, operator, size, asked, &value, other);
    Ok(())
}

// An operator on the topmost vector, as its left operand, and the value of a register.
#[inline(always)]
fn act_with_register<R: RegReader>(
    memory: &mut Memory,
    reader: &mut R,
    stack: &mut Stack,
    operator: BinaryOperator,
    size: Size,
    asked: Size,
    register: RegId,
    other: Size,
) -> Result<(), AllocError>
    requires { register < R.registers }
    ensures acts { OnOk result (Acts (BinaryRegister operator size asked register other) memory.old.known memory.old.reads.entries (vectors stack.old) memory.new.known memory.new.reads.entries (vectors stack.new)) }
    ensures reads { ReadsOn R.gave R.lasting result reader.old memory.old.reads.entries reader.new memory.new.reads.entries }
{
    match memory.known.peek(register) {
        Some(value) => {
            act_with_sized(&mut stack.top, operator, size, asked, value, other);
            Ok(())
        }
        None => act_with_unknown(
            memory, reader, stack, operator, size, asked, register, other,
        ),
    }
}

// An operator on the topmost vector.
#[inline(never)]
fn act_unary(stack: &mut Stack, operator: UnaryOperator, asked: Size)
    ensures { vectors stack.new ≡ act [] (Unary operator asked) (vectors stack.old) }
{
    stack.top = unary(operator, asked, stack.top);
}

// An operator on the two topmost vectors.
#[inline(never)]
fn act_binary(stack: &mut Stack, operator: BinaryOperator, size: Size, asked: Size)
    ensures { vectors stack.new ≡ act [] (Binary operator size asked) (vectors stack.old) }
{
    let right = stack.top;
    stack.top = pop(&mut stack.rest);
    combine_alike(operator, size, asked, &mut stack.top, &right);
}

// The two topmost vectors as one.
#[inline(never)]
fn act_join(stack: &mut Stack)
    ensures { vectors stack.new ≡ act [] Join (vectors stack.old) }
{
    stack.top = join(pop(&mut stack.rest), stack.top);
}

// The topmost vector, extended or cut.
#[inline(never)]
fn act_resize(stack: &mut Stack, size: Size)
    ensures { vectors stack.new ≡ act [] (Resize size) (vectors stack.old) }
{
    stack.top = stack.top.resize(size.get());
}

// The topmost vector, extended by its sign or by zeros to a size, and then extended with zeros or cut.
#[inline(never)]
fn act_extend(stack: &mut Stack, by: Extension, size: Size, asked: Size)
    ensures { vectors stack.new ≡ act [] (Extend by size asked) (vectors stack.old) }
{
    stack.top = stack.top.extend(by, size.get()).resize(asked.get());
}

// One of the two topmost vectors, by the truth of the third.
#[inline(never)]
fn act_choose(stack: &mut Stack, size: Size)
    ensures { vectors stack.new ≡ act [] (Choose size) (vectors stack.old) }
{
    let first = pop(&mut stack.rest);
    let condition = pop(&mut stack.rest);
    stack.top = choose(size, condition, first, stack.top);
}

// One step.
#[inline(always)]
fn step<R: RegReader>(
    op: &Op,
    memory: &mut Memory,
    reader: &mut R,
    stack: &mut Stack,
) -> Result<(), AllocError>
    requires { IsOpOf R.registers op.now }
    ensures acts { OnOk result (Acts op.now memory.old.known memory.old.reads.entries (vectors stack.old) memory.new.known memory.new.reads.entries (vectors stack.new)) }
    ensures reads { ReadsOn R.gave R.lasting result reader.old memory.old.reads.entries reader.new memory.new.reads.entries }
{
    match op {
        Op::Load { register, size } => return load_above(memory, reader, stack, *register, *size),
        Op::Pick {
            register,
            index,
            size,
        } => {
            stack.keep_top()?;
            return load_digit(memory, reader, stack, *register, *index, *size);
        }
        Op::Constant { value } => stack.put(value)?,
        Op::Unary { operator, asked } => act_unary(stack, *operator, *asked),
        Op::Binary {
            operator,
            size,
            asked,
        } => act_binary(stack, *operator, *size, *asked),
        Op::BinaryConstant {
            operator,
            size,
            asked,
            value,
        } => combine_alike(*operator, *size, *asked, &mut stack.top, value),
        Op::BinaryRegister {
            operator,
            size,
            asked,
            register,
            other,
        } => return act_with_register(
            memory, reader, stack, *operator, *size, *asked, *register, *other,
        ),
        Op::Join => act_join(stack),
        Op::Resize { size } => act_resize(stack, *size),
        Op::Extend { by, size, asked } => act_extend(stack, *by, *size, *asked),
        Op::Choose { size } => act_choose(stack, *size),
    }
    Ok(())
}

// An expression's first step that takes vectors, off the rest of the stack.
#[inline(never)]
fn start_below<R: RegReader>(
    op: &Op,
    memory: &mut Memory,
    reader: &mut R,
    stack: &mut Stack,
) -> Result<(), AllocError>
    requires { IsOpOf R.registers op.now }
    ensures acts { OnOk result (Acts op.now memory.old.known memory.old.reads.entries (topmost (reverse stack.old.rest.items) ∷ below (reverse stack.old.rest.items)) memory.new.known memory.new.reads.entries (vectors stack.new)) }
    ensures reads { ReadsOn R.gave R.lasting result reader.old memory.old.reads.entries reader.new memory.new.reads.entries }
{
    stack.top = pop(&mut stack.rest);
    step(op, memory, reader, stack)
}

// The first step of an expression, over the rest of the stack alone. One that makes a vector has none to keep.
#[inline(never)]
fn start_any<R: RegReader>(
    op: &Op,
    memory: &mut Memory,
    reader: &mut R,
    stack: &mut Stack,
) -> Result<(), AllocError>
    requires { IsOpOf R.registers op.now }
    ensures acts { OnOk result (Acts op.now memory.old.known memory.old.reads.entries (reverse stack.old.rest.items) memory.new.known memory.new.reads.entries (vectors stack.new)) }
    ensures reads { ReadsOn R.gave R.lasting result reader.old memory.old.reads.entries reader.new memory.new.reads.entries }
{
    match op {
        Op::Load { register, size } => load(memory, reader, stack, *register, *size),
        Op::Pick {
            register,
            index,
            size,
        } => load_digit(memory, reader, stack, *register, *index, *size),
        Op::Constant { value } => {
            stack.top = *value;
            Ok(())
        }
        _ => start_below(op, memory, reader, stack),
    }
}

// The same. Most expressions begin with a register, so one test tells.
#[inline(always)]
fn start<R: RegReader>(
    op: &Op,
    memory: &mut Memory,
    reader: &mut R,
    stack: &mut Stack,
) -> Result<(), AllocError>
    requires { IsOpOf R.registers op.now }
    ensures acts { OnOk result (Acts op.now memory.old.known memory.old.reads.entries (reverse stack.old.rest.items) memory.new.known memory.new.reads.entries (vectors stack.new)) }
    ensures reads { ReadsOn R.gave R.lasting result reader.old memory.old.reads.entries reader.new memory.new.reads.entries }
{
    if let Op::Load { register, size } = op {
        load(memory, reader, stack, *register, *size)
    } else {
        start_any(op, memory, reader, stack)
    }
}

// The steps of an expression after the first one.
#[inline(always)]
fn go_on<R: RegReader>(
    ops: &[Op],
    memory: &mut Memory,
    reader: &mut R,
    stack: &mut Stack,
) -> Result<(), AllocError>
    requires { NamesDeclared R.registers ops.now }
    ensures ran { OnOk result (NamesDeclared (length memory.old.known) ops.now → RunsSteps ops.now memory.old.known memory.old.reads.entries (vectors stack.old) memory.new.known memory.new.reads.entries (vectors stack.new)) }
    ensures reads { ReadsOn R.gave R.lasting result reader.old memory.old.reads.entries reader.new memory.new.reads.entries }
{
    for op in ops {
        step(op, memory, reader, stack)?;
    }
    Ok(())
}

/// The steps of an expression, whose value is then the topmost vector, above what the steps left of the rest.
pub(crate) fn compute<R: RegReader>(
    ops: &[Op],
    memory: &mut Memory,
    reader: &mut R,
    stack: &mut Stack,
) -> Result<(), AllocError>
    requires { NamesDeclared R.registers ops.now }
    ensures value { OnOk result (Evaluates ops.now memory.old.known memory.old.reads.entries stack.new.top memory.new.known memory.new.reads.entries) }
    ensures rest { OnOk result ((values : Store) → NamesDeclared (length memory.old.known) ops.now → Holds memory.new.known values → reverse stack.new.rest.items ≡ below (run_ops values ops.now (reverse stack.old.rest.items))) }
    ensures reads { ReadsOn R.gave R.lasting result reader.old memory.old.reads.entries reader.new memory.new.reads.entries }
{
    match ops.split_first() {
        Some((first, others)) => {
            start(first, memory, reader, stack)?;
            go_on(others, memory, reader, stack)?;
        }
        None => stack.top = pop(&mut stack.rest),
    }
    Ok(())
}
