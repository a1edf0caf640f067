//! Digits of a base that is a power of two.

ghost use Rattle.std.specs.Prelude.{◌≡◌, ◌<◌, ◌≤◌, ◌%◌, ◌^◌, [], take, length, option_map, IfOk};
ghost use Rattle.logic4.specs.Vector.{bit_digit, vector, greatest_width};
ghost use Rattle.tokens.specs.Literals.{AddsDigits, all_digits, filling, filling_of, all_zero};
ghost use Rattle.numerals.specs.Numbers as spec;

use crate::bytes::{digit_value, unknown_digit};
use logic4::bits::Bits;
use logic4::digit::Digit;
use std::alloc::{AllocError, Global};

fn bit(n: u64) -> Digit
    ensures { result ≡ bit_digit (n % 2) }
{
    if n % 2 == 0 { Digit::Zero } else { Digit::One }
}

/// The four digits of a hexadecimal one, the least significant first.
fn nibble(n: u8) -> [Digit; 4]
    ensures { result ≡ vector 4 n }
{
    let n = u64::from(n);
    [bit(n), bit(n / 2), bit(n / 2 / 2), bit(n / 2 / 2 / 2)]
}

/// The digits that a byte of a number stands for, in a base whose digits have this many bits; the first `bits` of them count.
fn digits_of_byte(bits: u32, b: u8) -> Option<[Digit; 4]>
    requires { bits ≤ 4 }
    ensures { result ≡ spec.four_digits bits b }
{
    if let Some(digit) = unknown_digit(b) {
        return Some([digit; 4]);
    }
    let value = digit_value(b)?;
    if u32::from(value) < 1 << bits {
        Some(nibble(value))
    } else {
        None
    }
}

/// Adds the digits that a byte of a number stands for, if it stands for some or is a `_`. The answer is whether it does.
fn add_digits(found: &mut Vec<Digit>, bits: u32, b: u8) -> Result<bool, AllocError>
    requires { bits ≤ 4 }
    ensures { IfOk result (λ added. AddsDigits (spec.digits_of_byte bits b) found.old.items added found.new.items) }
{
    if b == b'_' {
        return Ok(true);
    }
    match digits_of_byte(bits, b) {
        None => Ok(false),
        Some(digits) => {
            found.extend_from_slice(&digits[..bits as usize])?;
            Ok(true)
        }
    }
}

/// The digits of a run of bytes, whose first is the most significant. `None` where a byte is no digit of the base.
pub fn digits_of(alloc: Global, bits: u32, text: &[u8]) -> Result<Option<Vec<Digit>>, AllocError>
    requires { bits ≤ 4 }
    ensures { IfOk result (λ found. option_map (λ v. v.items) found ≡ all_digits (spec.digits_of_byte bits) text.now []) }
{
    let mut found = Vec::new(alloc);
    let mut left = text;
    while let [rest @ .., b] = left {
        if !add_digits(&mut found, bits, *b)? {
            return Ok(None);
        }
        left = rest;
    }
    Ok(Some(found))
}

/// The digit that fills up a number whose most significant digit is this one: an x or a z is repeated, and else it is 0.
fn filling(d: Digit) -> Digit
    ensures { result ≡ filling d }
{
    match d {
        Digit::X => Digit::X,
        Digit::Z => Digit::Z,
        Digit::Zero | Digit::One => Digit::Zero,
    }
}

/// The digit that fills up these digits, the last of which is the most significant; 0 where there are none.
fn filling_of(found: &[Digit]) -> Digit
    ensures { result ≡ filling_of found.now }
{
    let mut left = found;
    let mut fill = Digit::Zero;
    while let [d, rest @ ..] = left {
        fill = filling(*d);
        left = rest;
    }
    fill
}

/// Whether nothing but 0 is among digits.
fn all_zero(digits: &[Digit]) -> bool
    ensures { result ≡ all_zero digits.now }
{
    let mut left = digits;
    while let [d, rest @ ..] = left {
        match *d {
            Digit::Zero => (),
            _ => return false,
        }
        left = rest;
    }
    true
}

/// Whether a digit that isn't 0 stands past a width.
pub fn is_cut(digits: &[Digit], width: usize) -> bool
    ensures { result ≡ spec.cuts_digits width digits.now }
{
    if digits.len() <= width {
        return false;
    }
    !all_zero(&digits[width..])
}

/// The vector of digits, the least significant first.
fn bits_of(digits: &[Digit]) -> Bits
    requires some { 1 ≤ length digits.now }
    requires within { length digits.now ≤ greatest_width }
    ensures { result ≡ digits.now }
{
    let mut bits = Bits::from_digit(digits[0]);
    for digit in &digits[1..] {
        bits = Bits::concat(Bits::from_digit(*digit), bits);
    }
    bits
}

/// The vector of digits at a width: filled up, or cut.
#[tactic(auto, unfolding(crate::specs::Numbers::digits_at_width))]
pub fn fitted(mut found: Vec<Digit>, width: usize) -> Result<Bits, AllocError>
    requires some { 1 ≤ width }
    requires within { width ≤ greatest_width }
    ensures { IfOk result (λ fit. fit ≡ spec.digits_at_width width found.items) }
{
    if found.len() <= width {
        let fill = filling_of(&found);
        found.resize(width, fill)?;
        return Ok(bits_of(&found));
    }
    Ok(bits_of(&found[..width]))
}
