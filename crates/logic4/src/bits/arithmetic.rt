//! Sums, differences and shifts. A digit x or z in an operand of a sum or in a shift's distance makes every digit x.
#![tactic(auto, using(crate::proofs::Widths::widths))]

ghost use Rattle.std.specs.Prelude.{◌≡◌, length};
ghost use Rattle.logic4.specs.Operators.{add_vector, sub_vector, shl_vector, shr_vector};

use crate::bits::{Bits, Word, mask};

impl Bits {
    /// The sum modulo 2 to the width, or all x where a digit of either is x or z (5.1.5). Both widths are equal.
    pub fn add(self, other: Self) -> Self
        requires { length self ≡ length other }
        ensures value { result ≡ add_vector self other }
        ensures width { length result ≡ length self }
    {
        if self.b | other.b == 0 {
            Bits {
                width: self.width,
                a: self.a.wrapping_add(other.a) & mask(self.width),
                b: 0,
            }
        } else {
            Bits::unknown(self.width)
        }
    }

    /// The difference modulo 2 to the width, or all x where a digit of either is x or z (5.1.5). Both widths are equal.
    pub fn sub(self, other: Self) -> Self
        requires { length self ≡ length other }
        ensures value { result ≡ sub_vector self other }
        ensures width { length result ≡ length self }
    {
        if self.b | other.b == 0 {
            let ones = mask(self.width);
            Bits {
                width: self.width,
                a: self.a.wrapping_sub(other.a) & ones,
                b: 0,
            }
        } else {
            Bits::unknown(self.width)
        }
    }

    /// The digits moved `by` places up, filled with 0, or all x where `by` has a digit x or z (5.1.12). A digit z stays z.
    /// `by` has any width.
    pub fn shl(self, by: Self) -> Self
        ensures value { result ≡ shl_vector self by }
        ensures width { length result ≡ length self }
    {
        if by.b != 0 {
            Bits::unknown(self.width)
        } else if by.a < self.width as Word {
            let ones = mask(self.width);
            Bits {
                width: self.width,
                a: (self.a << by.a) & ones,
                b: (self.b << by.a) & ones,
            }
        } else {
            Bits {
                width: self.width,
                a: 0,
                b: 0,
            }
        }
    }

    /// The digits moved `by` places down, filled with 0, or all x where `by` has a digit x or z (5.1.12). A digit z stays z.
    /// `by` has any width.
    pub fn shr(self, by: Self) -> Self
        ensures width { length result ≡ length self }
        ensures value { result ≡ shr_vector self by }
    {
        if by.b != 0 {
            Bits::unknown(self.width)
        } else if by.a < self.width as Word {
            Bits {
                width: self.width,
                a: self.a >> by.a,
                b: self.b >> by.a,
            }
        } else {
            Bits {
                width: self.width,
                a: 0,
                b: 0,
            }
        }
    }
}
