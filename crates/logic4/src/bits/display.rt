//! The texts of the display conversions (IEEE 1364-2005, 17.1.1.2 to 17.1.1.4), and those of groups of digits.
#![tactic(auto, using(crate::proofs::Widths::widths))]

ghost use Rattle.std.specs.Prelude.{◌≡◌, ◌+◌, ◌*◌, ◌<◌, ◌≤◌, [], ◌∷◌, ◌++◌, length, take, drop, IfOk, OnOk, string_bytes};
ghost use Rattle.std.specs.Str.{bytes_eq};
ghost use Rattle.logic4.specs.Display.{digit_text, binary_text, unknown_text, octal_text, hex_group_text, hex_text, without_zeros, shown};
ghost use Rattle.logic4.specs.Leading.{led, put_behind, behind_zero};

use crate::bits::{Bits, mask};
use crate::conversion::{Conversion, LeadingZeros};
use crate::digit::Digit;
use std::alloc::{AllocError, Global};

// the digit's own letter
fn letter(digit: Digit) -> u8
    ensures text { result ∷ [] ≡ digit_text digit }
    ensures ascii { result < 128 }
{
    match digit {
        Digit::Zero => b'0',
        Digit::One => b'1',
        Digit::X => b'x',
        Digit::Z => b'z',
    }
}

// A letter behind a text. It is one of ASCII, so its byte is the whole of it.
pub(super) fn push_letter(text: &mut String, letter: u8) -> Result<(), AllocError>
    requires { letter < 128 }
    ensures { OnOk result (string_bytes text.new ≡ string_bytes text.old ++ letter ∷ []) }
{
    text.push(char::from(letter))?;
    Ok(())
}

// whether a text is one zero
fn is_zero(text: &str) -> bool
    ensures { result ≡ bytes_eq text.now (48 ∷ []) }
{
    text == "0"
}

// a letter behind a text, or in the place of one that is one zero
fn push_short(text: &mut String, letter: u8) -> Result<(), AllocError>
    requires { letter < 128 }
    ensures { OnOk result (string_bytes text.new ≡ behind_zero (string_bytes text.old) letter) }
{
    if is_zero(text.as_str()) {
        text.clear();
        return push_letter(text, letter);
    }
    push_letter(text, letter)
}

// a letter behind a text whose leading zeros are shown or dropped
fn put(text: &mut String, letter: u8, zeros: LeadingZeros) -> Result<(), AllocError>
    requires { letter < 128 }
    ensures { OnOk result (string_bytes text.new ≡ put_behind zeros (string_bytes text.old) letter) }
{
    match zeros {
        LeadingZeros::Shown => push_letter(text, letter),
        LeadingZeros::Dropped => push_short(text, letter),
    }
}

impl Bits {
    // `width` digits, the least significant of them digit `from`
    pub(super) fn part(self, from: u32, width: u32) -> Self
        requires some { 1 ≤ width }
        requires within { from + width ≤ length self }
        ensures value { result ≡ take width (drop from self) }
        ensures width { length result ≡ width }
    {
        let ones = mask(width);
        Bits {
            width,
            a: (self.a >> from) & ones,
            b: (self.b >> from) & ones,
        }
    }

    // one letter for a vector that isn't known
    pub(super) fn unknown_letter(self) -> u8
        ensures text { result ∷ [] ≡ unknown_text self }
        ensures ascii { result < 128 }
    {
        let ones = mask(self.width);
        let all_x = self.a & self.b;
        if all_x == ones {
            b'x'
        } else if all_x != 0 {
            b'X'
        } else if self.b == ones {
            b'z'
        } else {
            b'Z'
        }
    }

    // the letter of a group of up to four digits
    fn hex_letter(self) -> u8
        requires { length self ≤ 4 }
        ensures text { result ∷ [] ≡ hex_group_text self }
        ensures ascii { result < 128 }
    {
        if self.b != 0 {
            self.unknown_letter()
        } else {
            let value = self.a as u8;
            if value < 10 { 48 + value } else { 87 + value }
        }
    }

    // the letters of all digits, the most significant first
    fn binary(self, alloc: Global, zeros: LeadingZeros) -> Result<String, AllocError>
        ensures { IfOk result (λ t. string_bytes t ≡ led zeros (binary_text self)) }
    {
        let width = self.width();
        let mut text = String::with_capacity(alloc, width as usize)?;
        for index in (0..width).rev() {
            put(&mut text, letter(self.digit(index)), zeros)?;
        }
        Ok(text)
    }

    // the letters of groups of three digits, the most significant group first
    fn octal(self, alloc: Global, zeros: LeadingZeros) -> Result<String, AllocError>
        ensures { IfOk result (λ t. string_bytes t ≡ led zeros (octal_text self)) }
    {
        let width = self.width();
        let groups = (width + 2) / 3;
        let mut text = String::with_capacity(alloc, groups as usize)?;
        for group in (0..groups).rev() {
            let from = 3 * group;
            let three = self.part(from, (width - from).min(3));
            put(&mut text, three.hex_letter(), zeros)?;
        }
        Ok(text)
    }

    // the letters of groups of four digits, the most significant group first
    fn hex(self, alloc: Global, zeros: LeadingZeros) -> Result<String, AllocError>
        ensures { IfOk result (λ t. string_bytes t ≡ led zeros (hex_text self)) }
    {
        let width = self.width();
        let groups = (width + 3) / 4;
        let mut text = String::with_capacity(alloc, groups as usize)?;
        for group in (0..groups).rev() {
            let from = 4 * group;
            let part = self.part(from, (width - from).min(4));
            put(&mut text, part.hex_letter(), zeros)?;
        }
        Ok(text)
    }

    /// `%b`: a letter `0`, `1`, `x` or `z` for every digit, the most significant first. The only error is that memory runs out.
    pub fn show_b(self, alloc: Global) -> Result<String, AllocError>
        ensures { IfOk result (λ t. string_bytes t ≡ binary_text self) }
    {
        self.binary(alloc, LeadingZeros::Shown)
    }

    /// `%h`: a letter for each group of four digits, the most significant group first, which has the digits that are left. A
    /// group of known digits is `0` to `9` or `a` to `f`, one of all x is `x`, of some x `X`, of all z `z`, of some z and no x `Z`.
    /// The only error is that memory runs out.
    pub fn show_h(self, alloc: Global) -> Result<String, AllocError>
        ensures { IfOk result (λ t. string_bytes t ≡ hex_text self) }
    {
        self.hex(alloc, LeadingZeros::Shown)
    }

    /// The text by a conversion (17.1.1.2). The only error is that memory runs out.
    pub fn show(self, conversion: Conversion, alloc: Global) -> Result<String, AllocError>
        ensures { IfOk result (λ t. string_bytes t ≡ shown conversion self) }
    {
        match conversion {
            Conversion::Binary => self.show_b(alloc),
            Conversion::ShortBinary => self.binary(alloc, LeadingZeros::Dropped),
            Conversion::Octal => self.octal(alloc, LeadingZeros::Shown),
            Conversion::ShortOctal => self.octal(alloc, LeadingZeros::Dropped),
            Conversion::Hex => self.show_h(alloc),
            Conversion::ShortHex => self.hex(alloc, LeadingZeros::Dropped),
            Conversion::Decimal => self.show_d0(alloc),
            Conversion::PaddedDecimal => self.show_d(alloc),
            Conversion::SignedDecimal => self.show_signed_d0(alloc),
            Conversion::PaddedSignedDecimal => self.show_signed_d(alloc),
            Conversion::Character => self.show_c(alloc),
            Conversion::Characters => self.characters(alloc, LeadingZeros::Shown),
            Conversion::ShortCharacters => self.characters(alloc, LeadingZeros::Dropped),
            Conversion::Time => self.show_t(alloc),
        }
    }
}
