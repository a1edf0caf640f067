//! Operators over expressions whose names are looked up (5.1, 5.5).

ghost use Rattle.std.specs.Prelude.{◌≡◌, ℕ, false, IfOk};
ghost use Rattle.logic4.specs.Vector.{Vector};
ghost use Rattle.logic4.specs.Operators.{each_pair, not_digit, not_vector};
ghost use Rattle.model.specs.Expressions as model;
ghost use Rattle.model.specs.SourceTrees.{source_expression_of};
ghost use Rattle.shaped_trees.specs.Trees.{Values};
ghost use Rattle.sizing.specs.Names.{Names};
ghost use Rattle.sizing.specs.Meanings as meaning;
ghost use Rattle.sizing.specs.Meanings.{Meaning, alone_meaning, one_digit_meaning, self_determined_value};
ghost use Rattle.sizing.specs.Typing.{Types, AreOperands, IsReduction, comparison, decision, reduction};

use crate::faults::{ExpressionFaultKind, TakenExpression, fault};
use crate::typed::Typed;
use logic4::bits::Bits;
use logic4::size::Size;
use model::tree::{BinaryOperator as Core, SourceExpression, UnaryOperator as CoreUnary};
use shaped_trees::shape::Shape;
use shaped_trees::trees::{MadeTree, binary_of, concat_of, conditional_of, literal_of, unary_of};
use std::alloc::Global;
use syntax_tree::expressions::{VerilogBinaryOperator, VerilogUnaryOperator};

/// One digit that is told of other values.
fn digit(tree: SourceExpression) -> Typed
    ensures width { result.shape.width ≡ 1 }
    ensures signed { result.shape.signed ≡ false }
    ensures tree { source_expression_of result.tree ≡ source_expression_of tree }
{
    Typed {
        shape: Shape {
            width: Size::new(1),
            signed: false,
        },
        tree,
    }
}

// The complement of each digit, at the size of what stands around it.
#[tactic(auto, using(crate::proofs::Made::made_not))]
fn complement(alloc: Global, operand: Typed) -> MadeTree<Typed>
    ensures { IfOk result (λ t. (n : Names) (m : Meaning) → Types n m operand → Types n (meaning.each_of (λ width v. not_vector v) m) t) }
{
    let Typed { shape, tree } = operand;
    Ok(Typed {
        shape,
        tree: unary_of(alloc, CoreUnary::Not, tree)?,
    })
}

// What is subtracted from 0 (5.1.5).
#[tactic(auto, using(crate::proofs::Made::made_minus))]
fn negative(alloc: Global, operand: Typed) -> MadeTree<Typed>
    ensures { IfOk result (λ t. (n : Names) (m : Meaning) → Types n m operand → Types n (meaning.each_of meaning.negated m) t) }
{
    let Typed { shape, tree } = operand;
    let nought = literal_of(Bits::from_u64(shape.width.get(), 0));
    Ok(Typed {
        shape,
        tree: binary_of(alloc, Core::Subtract, nought, tree)?,
    })
}

// One digit of all the digits of an operand on its own (5.1.9, 5.1.11).
#[tactic(auto, using(crate::proofs::Made::made_reduced))]
fn reduced(alloc: Global, operator: CoreUnary, operand: Typed) -> MadeTree<Typed>
    requires { IsReduction operator }
    ensures { IfOk result (λ t. (n : Names) (m : Meaning) → Types n m operand → Types n (meaning.reduced (reduction operator) m) t) }
{
    let operand = operand.alone(alloc)?;
    let tree = unary_of(alloc, operator, operand)?;
    Ok(digit(tree))
}

// The complement of such a digit.
#[tactic(auto, using(crate::proofs::Made::made_inverted))]
fn inverted(alloc: Global, operator: CoreUnary, operand: Typed) -> MadeTree<Typed>
    requires { IsReduction operator }
    ensures { IfOk result
        (λ t. (n : Names) (m : Meaning) → Types n m operand → Types n (meaning.reduced (λ v. not_digit (reduction operator v)) m) t) }
{
    let operand = operand.alone(alloc)?;
    let inner = unary_of(alloc, operator, operand)?;
    let tree = unary_of(alloc, CoreUnary::LogicalNot, inner)?;
    Ok(digit(tree))
}

/// An operator before an operand.
pub(crate) fn unary(
    alloc: Global,
    operator: VerilogUnaryOperator,
    operand: Typed,
) -> MadeTree<Typed>
    ensures { IfOk result (λ t. (n : Names) (m : Meaning) → Types n m operand → Types n (meaning.unary operator m) t) }
{
    match operator {
        VerilogUnaryOperator::Plus => Ok(operand),
        VerilogUnaryOperator::Minus => negative(alloc, operand),
        VerilogUnaryOperator::BitwiseNot => complement(alloc, operand),
        VerilogUnaryOperator::LogicalNot => reduced(alloc, CoreUnary::LogicalNot, operand),
        VerilogUnaryOperator::ReductionAnd => reduced(alloc, CoreUnary::ReduceAnd, operand),
        VerilogUnaryOperator::ReductionNand => inverted(alloc, CoreUnary::ReduceAnd, operand),
        VerilogUnaryOperator::ReductionOr => reduced(alloc, CoreUnary::ReduceOr, operand),
        VerilogUnaryOperator::ReductionNor => inverted(alloc, CoreUnary::ReduceOr, operand),
        VerilogUnaryOperator::ReductionXor => reduced(alloc, CoreUnary::ReduceXor, operand),
        VerilogUnaryOperator::ReductionXnor => inverted(alloc, CoreUnary::ReduceXor, operand),
    }
}

// An operator between operands of which each has the size of what stands around them.
#[tactic(auto, using(crate::proofs::Made::made_both))]
fn both(alloc: Global, operator: Core, left: Typed, right: Typed) -> MadeTree<Typed>
    requires { model.sizing_of operator ≡ model.BothAsked }
    ensures { IfOk result
        (λ t. (n : Names) (m k : Meaning) → Types n m left → Types n k right → Types n (meaning.both_of (model.binary_value operator 0) m k) t) }
{
    let Typed { shape, tree } = left;
    let Typed {
        shape: other,
        tree: second,
    } = right;
    Ok(Typed {
        shape: shape.joined(other),
        tree: binary_of(alloc, operator, tree, second)?,
    })
}

// A shift (5.1.12).
#[tactic(auto, using(crate::proofs::Made::made_shifted))]
fn shifted(alloc: Global, operator: Core, left: Typed, right: Typed) -> MadeTree<Typed>
    requires { model.sizing_of operator ≡ model.LeftAsked }
    ensures { IfOk result
        (λ t. (n : Names) (m k : Meaning) → Types n m left → Types n k right → Types n (meaning.shifted (model.binary_value operator 0) m k) t) }
{
    let by = right.alone(alloc)?;
    let Typed { shape, tree } = left;
    Ok(Typed {
        shape,
        tree: binary_of(alloc, operator, tree, by)?,
    })
}

// Two operands at their common size and sign, and whether that is signed.
#[derive(Drop)]
struct OperandPair {
    signed: bool,
    left: SourceExpression,
    right: SourceExpression,
}

// Both operands at their common size and sign (table 5-22, 5.5.1).
#[tactic(auto, using(crate::proofs::Made::made_operands, crate::proofs::Made::common_sign))]
fn at_common_shape(alloc: Global, left: Typed, right: Typed) -> MadeTree<OperandPair>
    ensures sign { IfOk result
        (λ o. (n : Names) (m k : Meaning) → Types n m left → Types n k right → o.signed ≡ (meaning.common_shape m k).signed) }
    ensures values { IfOk result
        (λ o. (n : Names) (m k : Meaning) → Types n m left → Types n k right → AreOperands n (meaning.common_shape m k).width (λ values. m.value values (meaning.common_shape m k)) (λ values. k.value values (meaning.common_shape m k)) (source_expression_of o.left) (source_expression_of o.right)) }
{
    let own = left.shape();
    let other = right.shape();
    let shape = own.joined(other);
    let width = shape.width;
    let signed = shape.signed;
    let left = left.widen(alloc, Shape { width, signed })?;
    let right = right.widen(alloc, Shape { width, signed })?;
    Ok(OperandPair {
        signed,
        left,
        right,
    })
}

// One digit of two values of one size.
#[tactic(auto, using(crate::proofs::Made::made_compared))]
fn compare(
    alloc: Global,
    operator: Core,
    left: SourceExpression,
    right: SourceExpression,
) -> MadeTree<Typed>
    requires { model.sizing_of operator ≡ model.Greatest }
    ensures { IfOk result
        (λ t. (n : Names) (width : ℕ) (v w : Values → Vector) → AreOperands n width v w (source_expression_of left) (source_expression_of right)
        → Types n (one_digit_meaning (λ values. comparison operator (v values) (w values))) t) }
{
    let tree = binary_of(alloc, operator, left, right)?;
    Ok(digit(tree))
}

// An equality (5.1.8).
#[tactic(auto, using(crate::proofs::Orders::equal_told))]
fn equal(alloc: Global, operator: Core, left: Typed, right: Typed) -> MadeTree<Typed>
    requires { model.sizing_of operator ≡ model.Greatest }
    ensures { IfOk result
        (λ t. (n : Names) (m k : Meaning) → Types n m left → Types n k right → Types n (meaning.compared (λ signed. comparison operator) m k) t) }
{
    let o = at_common_shape(alloc, left, right)?;
    compare(alloc, operator, o.left, o.right)
}

// An order in which the left operand is the lesser one, by two operators: without signs, and with them (5.1.7, 5.5).
#[tactic(auto, using(crate::proofs::Orders::less_signed, crate::proofs::Orders::order_plain))]
fn less(alloc: Global, plain: Core, signed: Core, left: Typed, right: Typed) -> MadeTree<Typed>
    requires plain { model.sizing_of plain ≡ model.Greatest }
    requires signed { model.sizing_of signed ≡ model.Greatest }
    ensures { IfOk result
        (λ t. (n : Names) (m k : Meaning) → Types n m left → Types n k right → Types n (meaning.compared (meaning.ordered (comparison signed) (comparison plain)) m k) t) }
{
    let o = at_common_shape(alloc, left, right)?;
    if o.signed {
        compare(alloc, signed, o.left, o.right)
    } else {
        compare(alloc, plain, o.left, o.right)
    }
}

// An order in which the left operand is the greater one. With signs it is the order of the operands the other way round.
#[tactic(auto, using(crate::proofs::Orders::greater_signed, crate::proofs::Orders::order_plain))]
fn greater(alloc: Global, plain: Core, signed: Core, left: Typed, right: Typed) -> MadeTree<Typed>
    requires plain { model.sizing_of plain ≡ model.Greatest }
    requires signed { model.sizing_of signed ≡ model.Greatest }
    ensures { IfOk result
        (λ t. (n : Names) (m k : Meaning) → Types n m left → Types n k right → Types n (meaning.compared (meaning.ordered (λ v w. comparison signed w v) (comparison plain)) m k) t) }
{
    let o = at_common_shape(alloc, left, right)?;
    if o.signed {
        compare(alloc, signed, o.right, o.left)
    } else {
        compare(alloc, plain, o.left, o.right)
    }
}

// An operator that takes each operand on its own (5.1.9).
#[tactic(auto, using(crate::proofs::Made::made_decided))]
fn decide(alloc: Global, operator: Core, left: Typed, right: Typed) -> MadeTree<Typed>
    requires { model.sizing_of operator ≡ model.EachOwn }
    ensures { IfOk result
        (λ t. (n : Names) (m k : Meaning) → Types n m left → Types n k right → Types n (meaning.decided (decision operator) m k) t) }
{
    let left = left.alone(alloc)?;
    let right = right.alone(alloc)?;
    let tree = binary_of(alloc, operator, left, right)?;
    Ok(digit(tree))
}

/// An operator between two operands.
pub(crate) fn binary(
    alloc: Global,
    token: usize,
    operator: VerilogBinaryOperator,
    left: Typed,
    right: Typed,
) -> TakenExpression<Typed>
    ensures { IfOk result
        (λ t. (n : Names) (m k : Meaning) → Types n m left → Types n k right → Types n (meaning.binary operator m k) t) }
{
    match operator {
        VerilogBinaryOperator::LogicalOr => Ok(decide(alloc, Core::LogicalOr, left, right)?),
        VerilogBinaryOperator::LogicalAnd => Ok(decide(alloc, Core::LogicalAnd, left, right)?),
        VerilogBinaryOperator::BitwiseOr => Ok(both(alloc, Core::Or, left, right)?),
        VerilogBinaryOperator::BitwiseXor => Ok(both(alloc, Core::Xor, left, right)?),
        VerilogBinaryOperator::BitwiseXnor => Ok(xnor(alloc, left, right)?),
        VerilogBinaryOperator::BitwiseAnd => Ok(both(alloc, Core::And, left, right)?),
        VerilogBinaryOperator::Equal => Ok(equal(alloc, Core::Equal, left, right)?),
        VerilogBinaryOperator::NotEqual => Ok(equal(alloc, Core::NotEqual, left, right)?),
        VerilogBinaryOperator::CaseEqual => Ok(equal(alloc, Core::CaseEqual, left, right)?),
        VerilogBinaryOperator::CaseNotEqual => Ok(equal(alloc, Core::CaseNotEqual, left, right)?),
        VerilogBinaryOperator::Less => Ok(less(alloc, Core::Less, Core::SignedLess, left, right)?),
        VerilogBinaryOperator::LessEqual => Ok(less(
            alloc,
            Core::LessEqual,
            Core::SignedLessEqual,
            left,
            right,
        )?),
        VerilogBinaryOperator::Greater => Ok(greater(
            alloc,
            Core::Greater,
            Core::SignedLess,
            left,
            right,
        )?),
        VerilogBinaryOperator::GreaterEqual => Ok(greater(
            alloc,
            Core::GreaterEqual,
            Core::SignedLessEqual,
            left,
            right,
        )?),
        VerilogBinaryOperator::ShiftLeft => Ok(shifted(alloc, Core::ShiftLeft, left, right)?),
        VerilogBinaryOperator::ArithmeticShiftLeft => Ok(shifted(
            alloc,
            Core::ShiftLeft,
            left,
            right,
        )?),
        VerilogBinaryOperator::ShiftRight => Ok(shifted(alloc, Core::ShiftRight, left, right)?),
        VerilogBinaryOperator::Add => Ok(both(alloc, Core::Add, left, right)?),
        VerilogBinaryOperator::Subtract => Ok(both(alloc, Core::Subtract, left, right)?),
        VerilogBinaryOperator::ArithmeticShiftRight
        | VerilogBinaryOperator::Multiply
        | VerilogBinaryOperator::Divide
        | VerilogBinaryOperator::Modulus
        | VerilogBinaryOperator::Power => Err(fault(token, ExpressionFaultKind::Operator)),
    }
}

// The complement of exclusive or.
#[tactic(auto, using(crate::proofs::Trees::typed_xnor))]
fn xnor(alloc: Global, left: Typed, right: Typed) -> MadeTree<Typed>
    ensures { IfOk result
        (λ t. (n : Names) (m k : Meaning) → Types n m left → Types n k right → Types n (meaning.both_of (each_pair meaning.xnor_digit) m k) t) }
{
    let differing = both(alloc, Core::Xor, left, right)?;
    complement(alloc, differing)
}

/// One of two expressions, by a condition (5.1.13).
#[tactic(auto, using(crate::proofs::Made::made_chosen))]
pub(crate) fn conditional(
    alloc: Global,
    condition: Typed,
    first: Typed,
    second: Typed,
) -> MadeTree<Typed>
    ensures { IfOk result
        (λ t. (n : Names) (c m k : Meaning) → Types n c condition → Types n m first → Types n k second → Types n (meaning.chosen_meaning c m k) t) }
{
    let test = condition.alone(alloc)?;
    let Typed { shape, tree } = first;
    let Typed {
        shape: other,
        tree: otherwise,
    } = second;
    Ok(Typed {
        shape: shape.joined(other),
        tree: conditional_of(alloc, test, tree, otherwise)?,
    })
}

/// An operand on its own, whose digits are taken with a sign or without one (5.5).
#[tactic(auto, using(crate::proofs::Alone::converted_part))]
pub(crate) fn converted(alloc: Global, signed: bool, operand: Typed) -> MadeTree<Typed>
    ensures { IfOk result
        (λ t. (n : Names) (m : Meaning) → Types n m operand → Types n (alone_meaning m.size signed (self_determined_value m)) t) }
{
    let shape = operand.shape();
    let width = shape.width;
    let operand = operand.alone(alloc)?;
    Ok(Typed {
        shape: Shape { width, signed },
        tree: concat_of(alloc, operand, Vec::new(alloc))?,
    })
}
