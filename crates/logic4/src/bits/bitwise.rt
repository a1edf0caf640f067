//! The bit-wise operators, the reductions, and the truth of a vector. In all of them z counts as x.
#![tactic(auto, using(crate::proofs::Widths::widths))]

ghost use Rattle.std.specs.Prelude.{◌≡◌, [], ◌∷◌, length};
ghost use Rattle.logic4.specs.Operators as op;
ghost use Rattle.logic4.specs.Operators.{and_vector, or_vector, xor_vector, not_vector, merge_vector};

use crate::bits::{Bits, mask};
use crate::digit::{Digit, Truth};

impl Bits {
    /// Digit by digit (5.1.10): a 0 gives 0, 1 and 1 give 1, else x. Both widths are equal.
    pub fn and(self, other: Self) -> Self
        requires { length self ≡ length other }
        ensures value { result ≡ and_vector self other }
        ensures width { length result ≡ length self }
    {
        let a = (self.a | self.b) & (other.a | other.b);
        Bits {
            width: self.width,
            a,
            b: a & (self.b | other.b),
        }
    }

    /// Digit by digit (5.1.10): a 1 gives 1, 0 and 0 give 0, else x. Both widths are equal.
    pub fn or(self, other: Self) -> Self
        requires { length self ≡ length other }
        ensures value { result ≡ or_vector self other }
        ensures width { length result ≡ length self }
    {
        let ones = ((self.a | self.b) ^ self.b) | ((other.a | other.b) ^ other.b);
        Bits {
            width: self.width,
            a: (self.a | self.b) | (other.a | other.b),
            b: ((self.b | other.b) | ones) ^ ones,
        }
    }

    /// Digit by digit (5.1.10): x where either is x or z, else 1 where they differ. Both widths are equal.
    pub fn xor(self, other: Self) -> Self
        requires { length self ≡ length other }
        ensures value { result ≡ xor_vector self other }
        ensures width { length result ≡ length self }
    {
        let b = self.b | other.b;
        Bits {
            width: self.width,
            a: (self.a ^ other.a) | b,
            b,
        }
    }

    /// Digit by digit (5.1.10): 0 and 1 change places, x and z give x.
    pub fn not(self) -> Self
        ensures value { result ≡ not_vector self }
        ensures width { length result ≡ length self }
    {
        Bits {
            width: self.width,
            a: (self.a ^ mask(self.width)) | self.b,
            b: self.b,
        }
    }

    /// The conditional operator's arms under an unknown condition (5.1.13): the digits 0 and 1 in which both agree, else x.
    /// Both widths are equal.
    pub fn merge(self, other: Self) -> Self
        requires { length self ≡ length other }
        ensures value { result ≡ merge_vector self other }
        ensures width { length result ≡ length self }
    {
        let b = (self.b | other.b) | (self.a ^ other.a);
        Bits {
            width: self.width,
            a: self.a | b,
            b,
        }
    }

    /// The and of all digits, as one digit (5.1.11).
    pub fn reduce_and(self) -> Self
        ensures value { result ≡ op.reduce_and self ∷ [] }
        ensures width { length result ≡ 1 }
    {
        if self.a | self.b != mask(self.width) {
            Bits::from_digit(Digit::Zero)
        } else if self.b != 0 {
            Bits::from_digit(Digit::X)
        } else {
            Bits::from_digit(Digit::One)
        }
    }

    /// The or of all digits, as one digit (5.1.11).
    pub fn reduce_or(self) -> Self
        ensures value { result ≡ op.reduce_or self ∷ [] }
        ensures width { length result ≡ 1 }
    {
        match self.truth() {
            Truth::False => Bits::from_digit(Digit::Zero),
            Truth::True => Bits::from_digit(Digit::One),
            Truth::Unknown => Bits::from_digit(Digit::X),
        }
    }

    /// The exclusive or of all digits, as one digit (5.1.11).
    pub fn reduce_xor(self) -> Self
        ensures value { result ≡ op.reduce_xor self ∷ [] }
        ensures width { length result ≡ 1 }
    {
        if self.b == 0 {
            Bits::from_u64(1, u64::from(self.a.count_ones()))
        } else {
            Bits::from_digit(Digit::X)
        }
    }

    /// What a condition sees (9.4): true where a digit is 1, false where every digit is 0, else unknown.
    pub fn truth(self) -> Truth
        ensures { result ≡ op.truth self }
    {
        if self.a | self.b != self.b {
            Truth::True
        } else if self.b != 0 {
            Truth::Unknown
        } else {
            Truth::False
        }
    }
}
