//! `Bits`, a vector held as two words.
#![tactic(auto, using(crate::proofs::Widths::widths))]

ghost use Rattle.std.specs.Prelude.{◌≡◌, ◌+◌, ◌-◌, ◌^◌, ◌<◌, ◌≤◌, [], ◌∷◌, length, replicate};
ghost use Rattle.logic4.specs.Vector.{Vector, unknown as unknown_of, vector, resize as resized, greatest_width};
ghost use Rattle.logic4.specs.Extensions.{extend_vector, sign_extended};
ghost use Rattle.logic4.specs.Operators.{bool_digit, concat_vector, select_digit};
ghost use Rattle.logic4.specs.VectorWords.{AreWords, of_words, first_word, second_word};

mod arithmetic;
mod bitwise;
mod characters;
mod compare;
mod decimals;
mod display;

use crate::digit::{Digit, Extension};
use std::marker::Model;

/// A word of `Bits::words`: bit i belongs to digit i.
pub type Word = u128;

/// The most digits that a vector has.
pub const MAX_WIDTH: u32 = 128;

/// A vector of 1 to `MAX_WIDTH` digits. `==` is case equality: x equals x and z equals z.
#[derive(Clone, Copy, Debug)]
pub struct Bits {
    width: u32,
    a: Word,
    b: Word,
}

impl Model for Bits {
    ghost use Rattle.std.specs.Prelude.{length};
    ghost use Rattle.logic4.specs.Vector.{Vector};
    ghost use Rattle.logic4.specs.VectorWords.{AreWords, of_words, first_word, second_word, length-of_words, first_word-of_words, second_word-of_words};

    ghost Value = { Vector };

    ghost view = { λ s. of_words s.width s.a s.b };

    ghost invariant = { λ s. AreWords s.width s.a s.b };

    ghost inverse = { λ v. record { width = length v; a = first_word v; b = second_word v } };

    ghost inverse_ok = { λ s h i. record {
      width = length-of_words s.width s.a s.b i;
      a = first_word-of_words s.width s.a s.b h.first i;
      b = second_word-of_words s.width s.a s.b h.second i;
    } };
}

impl PartialEq for Bits {
    ghost use Rattle.logic4.specs.Operators.{same_vector};
    ghost use Rattle.logic4.specs.Sameness.{same_vector-partial_equivalence};

    ghost eq = { same_vector };

    ghost laws = { same_vector-partial_equivalence };

    // `&` and not `&&`: three tests without a branch
    fn eq(&self, other: &Self) -> bool {
        (self.width == other.width) & (self.a == other.a) & (self.b == other.b)
    }
}

impl Eq for Bits {
    ghost use Rattle.logic4.specs.Sameness.{same_vector-equivalence};

    ghost laws = { same_vector-equivalence };
}

// the word with a 1 at each place below the width
fn mask(width: u32) -> Word
    requires some { 1 ≤ width }
    requires within { width ≤ greatest_width }
    ensures { result ≡ 2 ^ width - 1 }
{
    Word::MAX >> (Bits::MAX_WIDTH - width)
}

impl Bits {
    /// The greatest width.
    pub const MAX_WIDTH: u32 = Word::BITS;

    /// `width` digits x, as a register has them before its first assignment (4.2.2). `width` is 1 to `MAX_WIDTH`.
    pub fn unknown(width: u32) -> Self
        requires some { 1 ≤ width }
        requires within { width ≤ greatest_width }
        ensures value { result ≡ unknown_of width }
        ensures width { length result ≡ width }
    {
        let ones = mask(width);
        Bits {
            width,
            a: ones,
            b: ones,
        }
    }

    /// A whole number modulo 2 to the width, with no digit x or z. `width` is 1 to `MAX_WIDTH`.
    pub fn from_u64(width: u32, value: u64) -> Self
        requires some { 1 ≤ width }
        requires within { width ≤ greatest_width }
        ensures value { result ≡ vector width value }
        ensures width { length result ≡ width }
    {
        Bits::from_u128(width, u128::from(value))
    }

    /// A whole number modulo 2 to the width, as `from_u64` takes it, of up to 128 bits.
    pub fn from_u128(width: u32, value: u128) -> Self
        requires some { 1 ≤ width }
        requires within { width ≤ greatest_width }
        ensures value { result ≡ vector width value }
        ensures width { length result ≡ width }
    {
        Bits {
            width,
            a: value & mask(width),
            b: 0,
        }
    }

    /// A vector of one digit.
    pub fn from_digit(digit: Digit) -> Self
        ensures value { result ≡ digit ∷ [] }
        ensures width { length result ≡ 1 }
    {
        let width = 1;
        match digit {
            Digit::Zero => Bits { width, a: 0, b: 0 },
            Digit::One => Bits { width, a: 1, b: 0 },
            Digit::X => Bits { width, a: 1, b: 1 },
            Digit::Z => Bits { width, a: 0, b: 1 },
        }
    }

    // a digit at each place
    fn repeated(width: u32, digit: Digit) -> Self
        requires some { 1 ≤ width }
        requires within { width ≤ greatest_width }
        ensures value { result ≡ replicate width digit }
        ensures width { length result ≡ width }
    {
        let all = mask(width);
        match digit {
            Digit::Zero => Bits { width, a: 0, b: 0 },
            Digit::One => Bits {
                width,
                a: all,
                b: 0,
            },
            Digit::X => Bits {
                width,
                a: all,
                b: all,
            },
            Digit::Z => Bits {
                width,
                a: 0,
                b: all,
            },
        }
    }

    // one digit, 1 where the test holds and else 0
    fn from_bool(test: bool) -> Self
        ensures value { result ≡ bool_digit test ∷ [] }
        ensures width { length result ≡ 1 }
    {
        Bits {
            width: 1,
            a: Word::from(test),
            b: 0,
        }
    }

    /// The vector of two words, as `words` gives them. Bits past the width are 0.
    pub fn from_words(width: u32, a: Word, b: Word) -> Self
        requires { AreWords width a b }
        ensures value { result ≡ of_words width a b }
        ensures width { length result ≡ width }
    {
        Bits { width, a, b }
    }

    /// The two words, for a store that holds words: digit i is the pair of bits i, 0 as 00, 1 as 10, z as 01 and x as 11.
    pub fn words(self) -> (Word, Word)
        ensures value { result ≡ (first_word self, second_word self) }
        ensures words { AreWords (length self) (first_word self) (second_word self) }
    {
        (self.a, self.b)
    }

    /// The number of digits, 1 to `MAX_WIDTH`.
    pub fn width(self) -> u32
        ensures value { result ≡ length self }
        ensures some { 1 ≤ result }
        ensures within { result ≤ greatest_width }
    {
        self.width
    }

    /// Digit `index`, counted from the least significant, which is digit 0.
    pub fn digit(self, index: u32) -> Digit
        requires { index < length self }
        ensures { result ≡ select_digit self index }
    {
        let first = (self.a >> index) & 1 != 0;
        let second = (self.b >> index) & 1 != 0;
        match (first, second) {
            (false, false) => Digit::Zero,
            (true, false) => Digit::One,
            (false, true) => Digit::Z,
            (true, true) => Digit::X,
        }
    }

    /// Digit `index` as a vector of one digit (5.2.1).
    pub fn select(self, index: u32) -> Self
        requires { index < length self }
        ensures value { result ≡ select_digit self index ∷ [] }
        ensures width { length result ≡ 1 }
    {
        Bits {
            width: 1,
            a: (self.a >> index) & 1,
            b: (self.b >> index) & 1,
        }
    }

    /// Extended with digits 0, or cut to the least significant digits (5.4). `width` is 1 to `MAX_WIDTH`.
    pub fn resize(self, width: u32) -> Self
        requires some { 1 ≤ width }
        requires within { width ≤ greatest_width }
        ensures value { result ≡ resized width self }
        ensures width { length result ≡ width }
    {
        // digits that are added are 0 in the words already
        if self.width <= width {
            return Bits {
                width,
                a: self.a,
                b: self.b,
            };
        }
        let ones = mask(width);
        Bits {
            width,
            a: self.a & ones,
            b: self.b & ones,
        }
    }

    // Extended with copies of its most significant digit, or cut to its least significant ones.
    fn sign_extend(self, width: u32) -> Self
        requires some { 1 ≤ width }
        requires within { width ≤ greatest_width }
        ensures value { result ≡ sign_extended width self }
        ensures width { length result ≡ width }
    {
        let own = self.width();
        if width <= own {
            return self.resize(width);
        }
        let sign = self.digit(own - 1);
        Bits::concat(Bits::repeated(width - own, sign), self)
    }

    /// Extended by its sign or with digits 0, or cut to the least significant digits (5.4, 5.5.4). `width` is 1 to `MAX_WIDTH`.
    pub fn extend(self, by: Extension, width: u32) -> Self
        requires some { 1 ≤ width }
        requires within { width ≤ greatest_width }
        ensures value { result ≡ extend_vector by width self }
        ensures width { length result ≡ width }
    {
        match by {
            Extension::Zeros => self.resize(width),
            Extension::Sign => self.sign_extend(width),
        }
    }

    /// Both vectors in one, `high` in the most significant digits (5.1.14). The widths make at most `MAX_WIDTH`.
    pub fn concat(high: Self, low: Self) -> Self
        requires { length high + length low ≤ greatest_width }
        ensures value { result ≡ concat_vector high low }
        ensures width { length result ≡ length low + length high }
    {
        Bits {
            width: low.width + high.width,
            a: (high.a << low.width) | low.a,
            b: (high.b << low.width) | low.b,
        }
    }
}
