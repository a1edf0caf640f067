//! Order, with and without signs, and equality of two vectors, each as one digit, and the edge between two values.
#![tactic(auto, using(crate::proofs::Widths::widths))]

ghost use Rattle.std.specs.Prelude.{◌≡◌, true, false, if◌then◌else◌, [], ◌∷◌, length};
ghost use Rattle.logic4.specs.Operators.{lt_vector, le_vector, eq_vector, case_eq_vector, each_pair, eq_digit};
ghost use Rattle.logic4.specs.Signed.{is_negative, signed_lt_vector, signed_le_vector};
ghost use Rattle.logic4.specs.Edges as edges;

use crate::bits::{Bits, mask};
use crate::digit::{Digit, Edge};

impl Bits {
    /// One digit: whether `self` is the lesser number, x where a digit of either is x or z (5.1.7). Both widths are equal.
    pub fn lt(self, other: Self) -> Self
        requires { length self ≡ length other }
        ensures value { result ≡ lt_vector self other ∷ [] }
        ensures width { length result ≡ 1 }
    {
        if self.b | other.b == 0 {
            Bits::from_bool(self.a < other.a)
        } else {
            Bits::from_digit(Digit::X)
        }
    }

    /// One digit: whether `self` is at most `other`, x where a digit of either is x or z (5.1.7). Both widths are equal.
    pub fn le(self, other: Self) -> Self
        requires { length self ≡ length other }
        ensures value { result ≡ le_vector self other ∷ [] }
        ensures width { length result ≡ 1 }
    {
        if self.b | other.b == 0 {
            Bits::from_bool(self.a <= other.a)
        } else {
            Bits::from_digit(Digit::X)
        }
    }

    /// Whether the most significant digit, which is the sign, is 1.
    pub fn is_negative(self) -> bool
        ensures { result ≡ is_negative self }
    {
        match self.digit(self.width() - 1) {
            Digit::One => true,
            Digit::Zero => false,
            Digit::X => false,
            Digit::Z => false,
        }
    }

    /// One digit: whether `self` is the lesser number, both with their signs, x where a digit of either is x or z (5.1.7, 5.5).
    /// Both widths are equal.
    pub fn signed_lt(self, other: Self) -> Self
        requires { length self ≡ length other }
        ensures value { result ≡ signed_lt_vector self other ∷ [] }
        ensures width { length result ≡ 1 }
    {
        if self.b | other.b == 0 {
            let less = self.a < other.a;
            Bits::from_bool(is_less(self.is_negative(), other.is_negative(), less))
        } else {
            Bits::from_digit(Digit::X)
        }
    }

    /// One digit: whether `self` is at most `other`, both with their signs, x where a digit of either is x or z (5.1.7, 5.5).
    /// Both widths are equal.
    pub fn signed_le(self, other: Self) -> Self
        requires { length self ≡ length other }
        ensures value { result ≡ signed_le_vector self other ∷ [] }
        ensures width { length result ≡ 1 }
    {
        if self.b | other.b == 0 {
            let more = other.a < self.a;
            Bits::from_bool(!is_less(other.is_negative(), self.is_negative(), more))
        } else {
            Bits::from_digit(Digit::X)
        }
    }

    // the digits in which two vectors are logically equal
    fn equal_digits(self, other: Self) -> Self
        requires { length self ≡ length other }
        ensures value { result ≡ each_pair eq_digit self other }
        ensures width { length result ≡ length self }
    {
        let b = self.b | other.b;
        Bits {
            width: self.width,
            a: ((self.a ^ other.a) ^ mask(self.width)) | b,
            b,
        }
    }

    /// Logical equality, one digit (5.1.8): 0 where two digits 0 and 1 of one place differ, else x where a digit of either is
    /// x or z, else 1. Both widths are equal.
    pub fn eq(self, other: Self) -> Self
        requires { length self ≡ length other }
        ensures value { result ≡ eq_vector self other ∷ [] }
        ensures width { length result ≡ 1 }
    {
        self.equal_digits(other).reduce_and()
    }

    /// Case equality, one digit (5.1.8): 1 where all digits are the same, x as x and z as z, else 0. Both widths are equal.
    pub fn case_eq(self, other: Self) -> Self
        requires { length self ≡ length other }
        ensures value { result ≡ case_eq_vector self other ∷ [] }
        ensures width { length result ≡ 1 }
    {
        Bits::from_bool(self == other)
    }

    /// What a change from `old` to `new` is to an event control (9.7.2): the least significant digits decide. Both widths are
    /// equal.
    pub fn edge(old: Self, new: Self) -> Edge
        requires { length old ≡ length new }
        ensures { result ≡ edges.edge old new }
    {
        if old == new {
            Edge::Same
        } else {
            digit_edge(old.digit(0), new.digit(0))
        }
    }
}

// Whether a number is less than another, by whether each is negative, and by whether its digits are less, which decide for two of
// one sign.
fn is_less(left: bool, right: bool, less: bool) -> bool
    ensures { result ≡ (if left then (if right then less else true) else (if right then false else less)) }
{
    if left == right { less } else { left }
}

// the edge of a change from one digit to another (9.7.2): a posedge from 0 or to 1, a negedge from 1 or to 0
fn digit_edge(old: Digit, new: Digit) -> Edge
    ensures { result ≡ edges.digit_edge old new }
{
    match (old, new) {
        (Digit::Zero, Digit::Zero) => Edge::Other,
        (Digit::Zero, _) => Edge::Pos,
        (Digit::One, Digit::One) => Edge::Other,
        (Digit::One, _) => Edge::Neg,
        (_, Digit::Zero) => Edge::Neg,
        (_, Digit::One) => Edge::Pos,
        _ => Edge::Other,
    }
}
