//! The values of trees in which no register is named (5.1, 5.4).

ghost use Rattle.std.specs.Prelude.{◌≡◌, ◌∷◌, [], map, length, IfSome};
ghost use Rattle.logic4.specs.Operators.{truth, truth_digit, case_ne_vector, conditional};
ghost use Rattle.model.specs.Expressions as model;
ghost use Rattle.model.specs.SourceTrees.{source_expression_of, source_expressions};
ghost use Rattle.shaped_trees.specs.Constants.{IsConstantTree, AreConstantTrees, HasSize, HasTotal, HasValue, HasDigits, AreSizes, IsOperandSize};

use crate::shape::greater;
use crate::widening::{Determined, determined_by};
use logic4::bits::{Bits, MAX_WIDTH};
use logic4::digit::{Digit, Truth};
use logic4::size::Size;
use model::tree::{BinaryOperator, SourceExpression, UnaryOperator};

/// The own size of a tree, which the registers that it names don't change. `None` where they may, or where no vector is as wide.
#[cycle(own_size)]
#[tactic(auto, using(crate::proofs::Evaluated::has_concat, crate::proofs::Evaluated::has_both, crate::proofs::Evaluated::has_left, crate::proofs::Evaluated::has_one_compared, crate::proofs::Evaluated::has_one_decided, crate::proofs::Evaluated::has_conditional))]
fn own_size(e: &SourceExpression) -> Option<Size>
    ensures { IfSome result (λ s. HasSize (source_expression_of e.now) s) }
{
    match e {
        SourceExpression::Name(_) => None,
        SourceExpression::Select(_, _) => Some(Size::new(1)),
        SourceExpression::Literal(digits) => Some(Size::new(digits.width())),
        SourceExpression::Concat(first, others) => {
            let size = own_size(first)?;
            total_size(size, others.as_slice())
        }
        SourceExpression::Unary(operator, e) => match operator {
            UnaryOperator::Not => own_size(e),
            UnaryOperator::LogicalNot
            | UnaryOperator::ReduceAnd
            | UnaryOperator::ReduceOr
            | UnaryOperator::ReduceXor => Some(Size::new(1)),
        },
        SourceExpression::Binary(operator, e, f) => match determined_by(*operator) {
            Determined::Both => Some(greater(own_size(e)?, own_size(f)?)),
            Determined::Left => own_size(e),
            Determined::Compared => Some(Size::new(1)),
            Determined::Separate => Some(Size::new(1)),
        },
        SourceExpression::Conditional(_, e, f) => Some(greater(own_size(e)?, own_size(f)?)),
        SourceExpression::Extend(_, size, _) => Some(*size),
    }
}

// The sizes of parts behind a part, together.
#[cycle(own_size)]
fn total_size(first: Size, parts: &[SourceExpression]) -> Option<Size>
    ensures { IfSome result (λ s. HasTotal first (source_expressions (map source_expression_of parts.now)) s) }
{
    let mut size = first;
    for part in parts {
        let own = own_size(part)?;
        if size.get() + own.get() > MAX_WIDTH {
            return None;
        }
        size = Size::new(size.get() + own.get());
    }
    Some(size)
}

// The size at which the operand of an operator is computed.
fn operand_size(operator: UnaryOperator, asked: Size, e: &SourceExpression) -> Option<Size>
    ensures { IfSome result (λ s. IsOperandSize operator asked (source_expression_of e.now) s) }
{
    match operator {
        UnaryOperator::Not => Some(asked),
        UnaryOperator::LogicalNot
        | UnaryOperator::ReduceAnd
        | UnaryOperator::ReduceOr
        | UnaryOperator::ReduceXor => own_size(e),
    }
}

// The sizes at which the operands of an operator are computed (table 5-22).
#[derive(Clone, Copy)]
pub struct Sizes {
    left: Size,
    right: Size,
}

#[tactic(auto, using(crate::proofs::Evaluated::sizes_both, crate::proofs::Evaluated::sizes_left, crate::proofs::Evaluated::sizes_compared, crate::proofs::Evaluated::sizes_decided))]
fn operand_sizes(
    operator: BinaryOperator,
    asked: Size,
    e: &SourceExpression,
    f: &SourceExpression,
) -> Option<Sizes>
    ensures { IfSome result (λ s. AreSizes operator asked (source_expression_of e.now) (source_expression_of f.now) s) }
{
    match determined_by(operator) {
        Determined::Both => Some(Sizes {
            left: asked,
            right: asked,
        }),
        Determined::Left => Some(Sizes {
            left: asked,
            right: own_size(f)?,
        }),
        Determined::Compared => {
            let size = greater(own_size(e)?, own_size(f)?);
            Some(Sizes {
                left: size,
                right: size,
            })
        }
        Determined::Separate => Some(Sizes {
            left: own_size(e)?,
            right: own_size(f)?,
        }),
    }
}

// The digit of a truth, x where it is unknown.
fn digit_of(truth: Truth) -> Digit
    ensures { result ≡ truth_digit truth }
{
    match truth {
        Truth::False => Digit::Zero,
        Truth::True => Digit::One,
        Truth::Unknown => Digit::X,
    }
}

// The truth of a vector as one digit (5.1.9).
fn truth_bit(operand: Bits) -> Bits
    ensures value { result ≡ truth_digit (truth operand) ∷ [] }
    ensures width { length result ≡ 1 }
{
    Bits::from_digit(digit_of(operand.truth()))
}

fn operate_unary(operator: UnaryOperator, asked: Size, v: Bits) -> Bits
    ensures { result ≡ model.unary_value operator asked v }
{
    match operator {
        UnaryOperator::Not => v.not(),
        UnaryOperator::LogicalNot => truth_bit(v).not().resize(asked.get()),
        UnaryOperator::ReduceAnd => v.reduce_and().resize(asked.get()),
        UnaryOperator::ReduceOr => v.reduce_or().resize(asked.get()),
        UnaryOperator::ReduceXor => v.reduce_xor().resize(asked.get()),
    }
}

// Case inequality (5.1.8).
#[tactic(auto, using(crate::proofs::Evaluated::not_bool))]
fn differ(v: Bits, w: Bits) -> Bits
    requires { length v ≡ length w }
    ensures value { result ≡ case_ne_vector v w ∷ [] }
    ensures width { length result ≡ 1 }
{
    v.case_eq(w).not()
}

// An operator between operands of one width.
fn operate_alike(operator: BinaryOperator, asked: Size, v: Bits, w: Bits) -> Option<Bits>
    requires { length v ≡ length w }
    ensures { IfSome result (λ u. u ≡ model.binary_value operator asked v w) }
{
    match operator {
        BinaryOperator::Or => Some(v.or(w)),
        BinaryOperator::Xor => Some(v.xor(w)),
        BinaryOperator::And => Some(v.and(w)),
        BinaryOperator::Equal => Some(v.eq(w).resize(asked.get())),
        BinaryOperator::NotEqual => Some(v.eq(w).not().resize(asked.get())),
        BinaryOperator::CaseEqual => Some(v.case_eq(w).resize(asked.get())),
        BinaryOperator::CaseNotEqual => Some(differ(v, w).resize(asked.get())),
        BinaryOperator::Less => Some(v.lt(w).resize(asked.get())),
        BinaryOperator::LessEqual => Some(v.le(w).resize(asked.get())),
        BinaryOperator::Greater => Some(w.lt(v).resize(asked.get())),
        BinaryOperator::GreaterEqual => Some(w.le(v).resize(asked.get())),
        BinaryOperator::SignedLess => Some(v.signed_lt(w).resize(asked.get())),
        BinaryOperator::SignedLessEqual => Some(v.signed_le(w).resize(asked.get())),
        BinaryOperator::Add => Some(v.add(w)),
        BinaryOperator::Subtract => Some(v.sub(w)),
        BinaryOperator::LogicalOr
        | BinaryOperator::LogicalAnd
        | BinaryOperator::ShiftLeft
        | BinaryOperator::ShiftRight => None,
    }
}

// An operator's value.
fn operate(operator: BinaryOperator, asked: Size, v: Bits, w: Bits) -> Option<Bits>
    ensures { IfSome result (λ u. u ≡ model.binary_value operator asked v w) }
{
    match operator {
        BinaryOperator::LogicalOr => Some(truth_bit(v).or(truth_bit(w)).resize(asked.get())),
        BinaryOperator::LogicalAnd => Some(truth_bit(v).and(truth_bit(w)).resize(asked.get())),
        BinaryOperator::ShiftLeft => Some(v.shl(w)),
        BinaryOperator::ShiftRight => Some(v.shr(w)),
        _ => {
            if v.width() == w.width() {
                operate_alike(operator, asked, v, w)
            } else {
                None
            }
        }
    }
}

// The first or the second, or where they agree, by the truth of a condition (5.1.13).
fn choose(condition: Bits, v: Bits, w: Bits) -> Option<Bits>
    ensures { IfSome result (λ u. u ≡ conditional (truth condition) v w) }
{
    match condition.truth() {
        Truth::True => Some(v),
        Truth::False => Some(w),
        Truth::Unknown => {
            if v.width() == w.width() {
                Some(v.merge(w))
            } else {
                None
            }
        }
    }
}

/// The value of a tree at a size, `None` where a register is named.
#[cycle(evaluate)]
#[tactic(auto, using(crate::proofs::Evaluated::value_concat, crate::proofs::Evaluated::value_unary, crate::proofs::Evaluated::value_binary, crate::proofs::Evaluated::value_conditional, crate::proofs::Evaluated::value_extend))]
pub fn evaluate(e: &SourceExpression, asked: Size) -> Option<Bits>
    ensures value { IfSome result (λ v. HasValue (source_expression_of e.now) asked v) }
    ensures closed { IfSome result (λ v. IsConstantTree (source_expression_of e.now)) }
{
    match e {
        SourceExpression::Name(_) | SourceExpression::Select(_, _) => None,
        SourceExpression::Literal(digits) => Some(digits.resize(asked.get())),
        SourceExpression::Concat(first, others) => {
            let digits = evaluate(first, own_size(first)?)?;
            let all = join(digits, others.as_slice())?;
            Some(all.resize(asked.get()))
        }
        SourceExpression::Unary(operator, e) => {
            let size = operand_size(*operator, asked, e)?;
            let v = evaluate(e, size)?;
            Some(operate_unary(*operator, asked, v))
        }
        SourceExpression::Binary(operator, e, f) => {
            let Sizes { left, right } = operand_sizes(*operator, asked, e, f)?;
            let v = evaluate(e, left)?;
            let w = evaluate(f, right)?;
            operate(*operator, asked, v, w)
        }
        SourceExpression::Conditional(c, e, f) => {
            let condition = evaluate(c, own_size(c)?)?;
            let v = evaluate(e, asked)?;
            let w = evaluate(f, asked)?;
            choose(condition, v, w)
        }
        SourceExpression::Extend(by, size, e) => {
            let digits = evaluate(e, own_size(e)?)?;
            Some(digits.extend(*by, size.get()).resize(asked.get()))
        }
    }
}

// Digits with those of parts behind them.
#[cycle(evaluate)]
fn join(first: Bits, parts: &[SourceExpression]) -> Option<Bits>
    ensures value { IfSome result (λ v. HasDigits first (source_expressions (map source_expression_of parts.now)) v) }
    ensures closed { IfSome result (λ v. AreConstantTrees (source_expressions (map source_expression_of parts.now))) }
{
    let mut digits = first;
    for part in parts {
        let low = evaluate(part, own_size(part)?)?;
        if digits.width() + low.width() > MAX_WIDTH {
            return None;
        }
        digits = Bits::concat(digits, low);
    }
    Some(digits)
}
