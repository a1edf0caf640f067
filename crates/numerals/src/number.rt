//! Numbers, by their size, their base and their digits.

ghost use Rattle.std.specs.Prelude.{◌≡◌, ◌≤◌, ◌^◌, not, nat_lt, IfOk};
ghost use Rattle.logic4.specs.Vector.{greatest_width};
ghost use Rattle.numerals.specs.Bytes.{all_underscores};
ghost use Rattle.numerals.specs.Numbers as spec;

use crate::bytes::{NumberBase, base_of, unknown_digit};
use crate::decimals::{DecimalReading, decimal_value};
use crate::digits::{digits_of, fitted, is_cut};
use logic4::bits::{Bits, MAX_WIDTH};
use logic4::digit::Digit;
use std::alloc::{AllocError, Global};

/// The width of a number without a size. The standard says at least 32.
pub const PLAIN_WIDTH: u32 = 32;

/// A number: whether it has a size, whether it is signed, whether a digit that isn't 0 was cut from it, and its digits.
#[derive(Clone, Copy)]
pub struct Number {
    pub sized: bool,
    pub signed: bool,
    pub cut: bool,
    pub digits: Bits,
}

/// What a number's bytes stand for.
#[derive(Clone, Copy)]
pub enum NumberReading {
    Value(Number),
    /// Its size is greater than that of any vector, or no vector holds its decimal digits.
    Wide,
    /// Its size is 0, or a byte is no digit of its base.
    Malformed,
}

/// Whether a number is less than 2 to a width.
fn is_below(n: u128, width: u32) -> bool
    requires { width ≤ greatest_width }
    ensures { result ≡ nat_lt n (2 ^ width) }
{
    width == MAX_WIDTH || n < 1 << width
}

/// How a number is declared: whether it has a size, whether it is signed, and its width.
#[derive(Clone, Copy)]
struct NumberShape {
    sized: bool,
    signed: bool,
    width: u32,
}

/// The number of a shape that decimal digits stand for.
fn decimal_number(shape: NumberShape, text: &[u8]) -> NumberReading
    requires some { 1 ≤ shape.width }
    requires within { shape.width ≤ greatest_width }
    ensures { result ≡ spec.decimal_number shape.sized shape.signed shape.width text.now }
{
    match decimal_value(text) {
        DecimalReading::Malformed => NumberReading::Malformed,
        DecimalReading::Wide => NumberReading::Wide,
        DecimalReading::Value(n) => NumberReading::Value(Number {
            sized: shape.sized,
            signed: shape.signed,
            cut: !is_below(n, shape.width),
            digits: Bits::from_u128(shape.width, n),
        }),
    }
}

/// The number of a shape with these digits, the least significant first.
fn number_of_digits(shape: NumberShape, found: Vec<Digit>) -> Result<NumberReading, AllocError>
    requires some { 1 ≤ shape.width }
    requires within { shape.width ≤ greatest_width }
    ensures { IfOk result (λ r. r ≡ spec.number_of_digits shape.sized shape.signed shape.width found.items) }
{
    let width = shape.width as usize;
    let cut = is_cut(&found, width);
    let digits = fitted(found, width)?;
    Ok(NumberReading::Value(Number {
        sized: shape.sized,
        signed: shape.signed,
        cut,
        digits,
    }))
}

fn all_underscores(text: &[u8]) -> bool
    ensures { result ≡ all_underscores text.now }
{
    let mut left = text;
    while let [b, rest @ ..] = left {
        if *b != b'_' {
            return false;
        }
        left = rest;
    }
    true
}

/// The digit that all of a number's are, where its bytes are one x or z, and behind it nothing but `_`.
fn lone_digit(text: &[u8]) -> Option<Digit>
    ensures { result ≡ spec.lone_digit text.now }
{
    match text {
        [b, rest @ ..] if all_underscores(rest) => unknown_digit(*b),
        _ => None,
    }
}

/// The number of a shape and of base ten: digits, or one x or z.
fn decimal_or_unknown(
    alloc: Global,
    shape: NumberShape,
    text: &[u8],
) -> Result<NumberReading, AllocError>
    requires some { 1 ≤ shape.width }
    requires within { shape.width ≤ greatest_width }
    ensures { IfOk result (λ r. r ≡ spec.decimal_or_unknown shape.sized shape.signed shape.width text.now) }
{
    match lone_digit(text) {
        None => Ok(decimal_number(shape, text)),
        Some(digit) => {
            let mut found = Vec::new(alloc);
            found.push(digit)?;
            number_of_digits(shape, found)
        }
    }
}

/// The number of a shape and of a base whose digits have this many bits.
fn number_of_bits(
    alloc: Global,
    shape: NumberShape,
    bits: u32,
    text: &[u8],
) -> Result<NumberReading, AllocError>
    requires few { bits ≤ 4 }
    requires some { 1 ≤ shape.width }
    requires within { shape.width ≤ greatest_width }
    ensures { IfOk result (λ r. r ≡ spec.number_of_bits shape.sized shape.signed shape.width bits text.now) }
{
    match digits_of(alloc, bits, text)? {
        None => Ok(NumberReading::Malformed),
        Some(found) => number_of_digits(shape, found),
    }
}

/// The number of a shape and of a base.
fn number_in(
    alloc: Global,
    shape: NumberShape,
    radix: NumberBase,
    text: &[u8],
) -> Result<NumberReading, AllocError>
    requires some { 1 ≤ shape.width }
    requires within { shape.width ≤ greatest_width }
    ensures { IfOk result (λ r. r ≡ spec.number_in radix shape.sized shape.signed shape.width text.now) }
{
    match radix {
        NumberBase::Decimal => decimal_or_unknown(alloc, shape, text),
        NumberBase::Binary => number_of_bits(alloc, shape, 1, text),
        NumberBase::Octal => number_of_bits(alloc, shape, 3, text),
        NumberBase::Hexadecimal => number_of_bits(alloc, shape, 4, text),
    }
}

/// The number of a width, by its base and its digits.
fn with_base(
    alloc: Global,
    sized: bool,
    width: u32,
    base: &[u8],
    text: &[u8],
) -> Result<NumberReading, AllocError>
    requires some { 1 ≤ width }
    requires within { width ≤ greatest_width }
    ensures { IfOk result (λ r. r ≡ spec.with_base sized width base.now text.now) }
{
    match base_of(base) {
        None => Ok(NumberReading::Malformed),
        Some((signed, radix)) => number_in(
            alloc,
            NumberShape {
                sized,
                signed,
                width,
            },
            radix,
            text,
        ),
    }
}

/// A number without a base: it is decimal and signed, and has no size.
pub fn plain_number(text: &[u8]) -> NumberReading
    ensures { result ≡ spec.plain_number text.now }
{
    decimal_number(
        NumberShape {
            sized: false,
            signed: true,
            width: PLAIN_WIDTH,
        },
        text,
    )
}

/// A number without a size, by its base and its digits. Fails where memory is refused.
pub fn based_number(alloc: Global, base: &[u8], text: &[u8]) -> Result<NumberReading, AllocError>
    ensures { IfOk result (λ r. r ≡ spec.based_number base.now text.now) }
{
    with_base(alloc, false, PLAIN_WIDTH, base, text)
}

/// A number by its size, its base and its digits. Fails where memory is refused.
pub fn sized_number(
    alloc: Global,
    size: &[u8],
    base: &[u8],
    text: &[u8],
) -> Result<NumberReading, AllocError>
    ensures { IfOk result (λ r. r ≡ spec.sized_number size.now base.now text.now) }
{
    let width = match decimal_value(size) {
        DecimalReading::Malformed => return Ok(NumberReading::Malformed),
        DecimalReading::Wide => return Ok(NumberReading::Wide),
        DecimalReading::Value(width) => width,
    };
    if width == 0 {
        return Ok(NumberReading::Malformed);
    }
    if width > u128::from(MAX_WIDTH) {
        return Ok(NumberReading::Wide);
    }
    with_base(alloc, true, width as u32, base, text)
}
