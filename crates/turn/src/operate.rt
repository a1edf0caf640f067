//! The operators of flat code (5.1), on vectors of any widths.
ghost use Rattle.std.specs.Prelude.{◌≡◌, ◌∷◌, [], length};
ghost use Rattle.logic4.specs.Vector.{resize};
ghost use Rattle.logic4.specs.Operators.{truth, truth_digit, case_ne_vector};
ghost use Rattle.model.specs.Expressions.{unary_value};
ghost use Rattle.design.specs.Operate.{combined, joined_two, chosen};

use design::code::Size;
use logic4::bits::{Bits, MAX_WIDTH};
use logic4::digit::{Digit, Truth};
use model::tree::{BinaryOperator, UnaryOperator};

// The digit of a truth, x where it is unknown.
fn digit_of(truth: Truth) -> Digit
    ensures { result ≡ truth_digit truth }
{
    match truth {
        Truth::False => Digit::Zero,
        Truth::True => Digit::One,
        Truth::Unknown => Digit::X,
    }
}

// The truth of a vector as one digit (5.1.9).
fn truth_bit(operand: Bits) -> Bits
    ensures value { result ≡ truth_digit (truth operand) ∷ [] }
    ensures width { length result ≡ 1 }
{
    Bits::from_digit(digit_of(operand.truth()))
}

// Case inequality (5.1.8).
#[tactic(auto, using(crate::proofs::Operators::not_bool))]
fn differ(left: Bits, right: Bits) -> Bits
    requires { length left ≡ length right }
    ensures value { result ≡ case_ne_vector left right ∷ [] }
    ensures width { length result ≡ 1 }
{
    left.case_eq(right).not()
}

/// A unary operator's value.
pub(crate) fn unary(operator: UnaryOperator, asked: Size, operand: Bits) -> Bits
    ensures { result ≡ unary_value operator asked operand }
{
    match operator {
        UnaryOperator::Not => operand.not(),
        UnaryOperator::LogicalNot => truth_bit(operand).not().resize(asked.get()),
        UnaryOperator::ReduceAnd => operand.reduce_and().resize(asked.get()),
        UnaryOperator::ReduceOr => operand.reduce_or().resize(asked.get()),
        UnaryOperator::ReduceXor => operand.reduce_xor().resize(asked.get()),
    }
}

// Puts a binary operator's value in a place, of operands that are given as they are and at the operator's size. Each operator
// writes its own, since one value of all of them would be put together elsewhere and copied.
#[inline(always)]
fn put_value(
    operator: BinaryOperator,
    size: Size,
    asked: Size,
    place: &mut Bits,
    left: Bits,
    right: Bits,
    first: Bits,
    second: Bits,
)
    requires first { first ≡ resize size left }
    requires second { second ≡ resize size right }
    requires alike { length first ≡ length second }
    ensures { place.new ≡ combined operator size asked left right }
{
    match operator {
        BinaryOperator::LogicalOr => *place = truth_bit(left)
            .or(truth_bit(right))
            .resize(asked.get()),
        BinaryOperator::LogicalAnd => *place = truth_bit(left)
            .and(truth_bit(right))
            .resize(asked.get()),
        BinaryOperator::Or => *place = first.or(second),
        BinaryOperator::Xor => *place = first.xor(second),
        BinaryOperator::And => *place = first.and(second),
        BinaryOperator::Equal => *place = first.eq(second).resize(asked.get()),
        BinaryOperator::NotEqual => *place = first.eq(second).not().resize(asked.get()),
        BinaryOperator::CaseEqual => *place = first.case_eq(second).resize(asked.get()),
        BinaryOperator::CaseNotEqual => *place = differ(first, second).resize(asked.get()),
        BinaryOperator::Less => *place = first.lt(second).resize(asked.get()),
        BinaryOperator::LessEqual => *place = first.le(second).resize(asked.get()),
        BinaryOperator::Greater => *place = second.lt(first).resize(asked.get()),
        BinaryOperator::GreaterEqual => *place = second.le(first).resize(asked.get()),
        BinaryOperator::SignedLess => *place = first.signed_lt(second).resize(asked.get()),
        BinaryOperator::SignedLessEqual => *place = first.signed_le(second).resize(asked.get()),
        BinaryOperator::ShiftLeft => *place = left.shl(right),
        BinaryOperator::ShiftRight => *place = left.shr(right),
        BinaryOperator::Add => *place = first.add(second),
        BinaryOperator::Subtract => *place = first.sub(second),
    }
}

// A binary operator's value, in the place of its left operand.
fn combine(place: &mut Bits, right: &Bits, operator: BinaryOperator, size: Size, asked: Size)
    ensures { place.new ≡ combined operator size asked place.old right.now }
{
    let left = *place;
    let right = *right;
    let first = left.resize(size.get());
    let second = right.resize(size.get());
    put_value(operator, size, asked, place, left, right, first, second);
}

/// The same, fast where both operands have the operator's size, as most have.
#[inline(always)]
#[tactic(auto, using(crate::proofs::Sizes::resize_same))]
pub(crate) fn combine_alike(
    operator: BinaryOperator,
    size: Size,
    asked: Size,
    place: &mut Bits,
    right: &Bits,
)
    ensures { place.new ≡ combined operator size asked place.old right.now }
{
    let digits = size.get();
    if (place.width() == digits) & (right.width() == digits) {
        let left = *place;
        let right = *right;
        put_value(operator, size, asked, place, left, right, left, right);
    } else {
        combine(place, right, operator, size, asked);
    }
}

/// The first in the most significant digits, where both fit (5.1.14).
pub(crate) fn join(high: Bits, low: Bits) -> Bits
    ensures { result ≡ joined_two high low }
{
    if high.width() + low.width() <= MAX_WIDTH {
        Bits::concat(high, low)
    } else {
        high
    }
}

/// The first or the second, or where they agree, by the truth of a condition (5.1.13).
pub(crate) fn choose(size: Size, condition: Bits, first: Bits, second: Bits) -> Bits
    ensures { result ≡ chosen size condition first second }
{
    let first = first.resize(size.get());
    let second = second.resize(size.get());
    match condition.truth() {
        Truth::True => first,
        Truth::False => second,
        Truth::Unknown => first.merge(second),
    }
}
