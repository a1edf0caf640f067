//! Plain decimals, and literals with a size.

ghost use Rattle.std.specs.Prelude.{◌≡◌, ◌≤◌, ◌^◌, ◌%◌, ℕ, [], true, not, nat_lt, length, option_map, IfOk};
ghost use Rattle.std.specs.Option.{is_some};
ghost use Rattle.logic4.specs.Vector.{bit_digit, vector, greatest_width};
ghost use Rattle.tokens.specs.ByteClasses.{is_digit, all};
ghost use Rattle.tokens.specs.Literals as spec;
ghost use Rattle.tokens.specs.Literals.{AddsDigits, plain_literal_value};

use crate::spans::{Class, all_digits, digits_value, is_digit, span};
use logic4::bits::{Bits, MAX_WIDTH};
use logic4::digit::Digit;
use std::alloc::{AllocError, Global};

/// The number of a run of digits, of at most 18.
#[tactic(auto, unfolding(crate::specs::Literals::decimal_of))]
fn decimal_of(text: &[u8]) -> Option<u128>
    ensures { result ≡ spec.decimal_of text.now }
{
    if text.len() <= 18 {
        digits_value(text)
    } else {
        None
    }
}

fn bit(n: u64) -> Digit
    ensures { result ≡ bit_digit (n % 2) }
{
    if n % 2 == 0 { Digit::Zero } else { Digit::One }
}

/// The four digits of a hexadecimal one, the least significant first.
fn nibble(n: u8) -> [Digit; 4]
    ensures { result ≡ vector 4 n }
{
    let n = u64::from(n);
    [bit(n), bit(n / 2), bit(n / 2 / 2), bit(n / 2 / 2 / 2)]
}

/// Adds the digit that a byte of a binary literal stands for, if it stands for one.
#[tactic(auto, unfolding(crate::specs::Literals::binary_digits))]
fn add_binary(found: &mut Vec<Digit>, b: u8) -> Result<bool, AllocError>
    ensures { IfOk result (λ added. AddsDigits (spec.binary_digits b) found.old.items added found.new.items) }
{
    let digit = match b {
        b'0' => Digit::Zero,
        b'1' => Digit::One,
        b'x' => Digit::X,
        b'z' => Digit::Z,
        _ => return Ok(false),
    };
    found.push(digit)?;
    Ok(true)
}

/// Adds the digits that a byte of a hexadecimal literal stands for, if it stands for some.
#[tactic(auto, unfolding(crate::specs::Literals::hex_digits))]
fn add_hex(found: &mut Vec<Digit>, b: u8) -> Result<bool, AllocError>
    ensures { IfOk result (λ added. AddsDigits (spec.hex_digits b) found.old.items added found.new.items) }
{
    let digits = if is_digit(b) {
        nibble(b - b'0')
    } else if b >= b'a' && b <= b'f' {
        nibble(b - 87)
    } else if b == b'x' {
        [Digit::X; 4]
    } else if b == b'z' {
        [Digit::Z; 4]
    } else {
        return Ok(false);
    };
    found.extend_from_slice(&digits)?;
    Ok(true)
}

/// Adds the digits that a byte of a literal stands for in its base, h or b, if it stands for some. The answer is whether it does.
fn add_digits(found: &mut Vec<Digit>, hex: bool, b: u8) -> Result<bool, AllocError>
    ensures { IfOk result (λ added. AddsDigits (spec.digits_in hex b) found.old.items added found.new.items) }
{
    if hex {
        add_hex(found, b)
    } else {
        add_binary(found, b)
    }
}

/// The digits of a run of bytes, whose first is the most significant.
fn digits_of(alloc: Global, hex: bool, text: &[u8]) -> Result<Option<Vec<Digit>>, AllocError>
    ensures { IfOk result (λ found. option_map (λ v. v.items) found ≡ spec.all_digits (spec.digits_in hex) text.now []) }
{
    let mut found = Vec::new(alloc);
    let mut left = text;
    while let [rest @ .., b] = left {
        if !add_digits(&mut found, hex, *b)? {
            return Ok(None);
        }
        left = rest;
    }
    Ok(Some(found))
}

/// The digit that fills up a literal whose most significant digit is this one: an x or a z is repeated, and else it is 0.
fn filling(d: Digit) -> Digit
    ensures { result ≡ spec.filling d }
{
    match d {
        Digit::X => Digit::X,
        Digit::Z => Digit::Z,
        Digit::Zero | Digit::One => Digit::Zero,
    }
}

/// The digit that fills up these digits, the last of which is the most significant; 0 where there are none.
fn filling_of(found: &[Digit]) -> Digit
    ensures { result ≡ spec.filling_of found.now }
{
    let mut left = found;
    let mut fill = Digit::Zero;
    while let [d, rest @ ..] = left {
        fill = filling(*d);
        left = rest;
    }
    fill
}

/// Whether nothing but 0 is among digits, so that they can be cut.
fn all_zero(digits: &[Digit]) -> bool
    ensures { result ≡ spec.all_zero digits.now }
{
    let mut left = digits;
    while let [d, rest @ ..] = left {
        match *d {
            Digit::Zero => (),
            _ => return false,
        }
        left = rest;
    }
    true
}

/// The vector of digits, the least significant first.
fn bits_of(digits: &[Digit]) -> Bits
    requires some { 1 ≤ length digits.now }
    requires within { length digits.now ≤ greatest_width }
    ensures { result ≡ digits.now }
{
    let mut bits = Bits::from_digit(digits[0]);
    for digit in &digits[1..] {
        bits = Bits::concat(Bits::from_digit(*digit), bits);
    }
    bits
}

/// The vector of digits at a width, filled up, or cut where all that is cut is 0.
#[tactic(auto, unfolding(crate::specs::Literals::fitted))]
fn fitted(mut found: Vec<Digit>, width: usize) -> Result<Option<Bits>, AllocError>
    requires some { 1 ≤ width }
    requires within { width ≤ greatest_width }
    ensures { IfOk result (λ fit. fit ≡ spec.fitted width found.items) }
{
    if found.len() <= width {
        let fill = filling_of(&found);
        found.resize(width, fill)?;
        return Ok(Some(bits_of(&found)));
    }
    if all_zero(&found[width..]) {
        return Ok(Some(bits_of(&found[..width])));
    }
    Ok(None)
}

fn is_below(n: u128, width: u32) -> bool
    requires { width ≤ greatest_width }
    ensures { result ≡ nat_lt n (2 ^ width) }
{
    width == MAX_WIDTH || n < 1 << width
}

/// The vector of a literal of base d, where the width holds it.
#[tactic(auto, unfolding(crate::specs::Literals::decimal_vector))]
fn decimal_vector(width: u32, found: Option<u128>) -> Option<Bits>
    requires some { 1 ≤ width }
    requires within { width ≤ greatest_width }
    ensures { result ≡ spec.decimal_vector width found }
{
    let n = found?;
    if !is_below(n, width) {
        return None;
    }
    Some(Bits::from_u128(width, n))
}

/// The vector of a literal of base h or b at a width. `None` where a byte is no digit of the base, or the width doesn't hold them.
fn fitted_digits(
    alloc: Global,
    hex: bool,
    width: u32,
    text: &[u8],
) -> Result<Option<Bits>, AllocError>
    requires some { 1 ≤ width }
    requires within { width ≤ greatest_width }
    ensures { IfOk result (λ fit. fit ≡ spec.fitted_digits hex width text.now) }
{
    match digits_of(alloc, hex, text)? {
        None => Ok(None),
        Some(found) => fitted(found, width as usize),
    }
}

/// A literal of a width, by its base and its digits.
#[tactic(auto, unfolding(crate::specs::Literals::based))]
fn based(alloc: Global, width: u32, base: u8, text: &[u8]) -> Result<Option<Bits>, AllocError>
    requires some { 1 ≤ width }
    requires within { width ≤ greatest_width }
    ensures { IfOk result (λ fit. fit ≡ spec.based width base text.now) }
{
    if text.is_empty() {
        return Ok(None);
    }
    if base == b'b' {
        return fitted_digits(alloc, false, width, text);
    }
    if base == b'h' {
        return fitted_digits(alloc, true, width, text);
    }
    if base == b'd' && all_digits(text) {
        return Ok(decimal_vector(width, digits_value(text)));
    }
    Ok(None)
}

/// The vector of a literal of a size, by its base and its digits. `None` where the size is 0 or too great, or where it doesn't hold them.
fn sized(
    alloc: Global,
    size: Option<u128>,
    base: u8,
    text: &[u8],
) -> Result<Option<Bits>, AllocError>
    ensures { IfOk result (λ fit. fit ≡ spec.sized_digits size base text.now) }
{
    match size {
        Some(width) if width >= 1 && width <= u128::from(MAX_WIDTH) => based(
            alloc,
            width as u32,
            base,
            text,
        ),
        _ => Ok(None),
    }
}

/// The vector of a literal, by the digits of its size and the rest of it, which begins with a `'` and the base.
fn literal_from(alloc: Global, size: &[u8], rest: &[u8]) -> Result<Option<Bits>, AllocError>
    ensures { IfOk result (λ fit. fit ≡ spec.literal_from size.now rest.now) }
{
    match rest {
        [_, base, given @ ..] => sized(alloc, decimal_of(size), *base, given),
        _ => Ok(None),
    }
}

/// The vector of a sized literal; `None` where it is malformed or too wide.
#[tactic(auto, unfolding(crate::specs::Literals::literal_of))]
fn literal_of(alloc: Global, text: &[u8]) -> Result<Option<Bits>, AllocError>
    ensures { IfOk result (λ fit. fit ≡ spec.literal_of text.now) }
{
    let (size, rest) = text.split_at(span(Class::Digit, text));
    literal_from(alloc, size, rest)
}

/// The number that a token stands for, and its digits, which a sized literal has.
pub type LiteralValue = (u64, Option<Bits>);

/// What a run of digits stands for, of at most 18, which 64 bits hold.
fn plain(text: &[u8]) -> Option<LiteralValue>
    requires { all is_digit text.now ≡ true }
    ensures { result ≡ option_map plain_literal_value (spec.decimal_of text.now) }
{
    match decimal_of(text) {
        None => None,
        Some(n) => Some((n as u64, None)),
    }
}

/// The number of a plain decimal, or the digits of a sized literal; `None` where it is malformed or too wide.
#[tactic(auto, unfolding(crate::specs::Literals::numeral_value_of))]
fn number_of(alloc: Global, text: &[u8]) -> Result<Option<LiteralValue>, AllocError>
    ensures { IfOk result (λ found. found ≡ spec.numeral_value_of text.now) }
{
    if all_digits(text) {
        return Ok(plain(text));
    }
    match literal_of(alloc, text)? {
        None => Ok(None),
        Some(bits) => Ok(Some((0, Some(bits)))),
    }
}

/// The number and the digits of a token; `None` for a number that is malformed or too wide.
pub fn literal_value_of(alloc: Global, text: &[u8]) -> Result<Option<LiteralValue>, AllocError>
    ensures { IfOk result (λ found. found ≡ spec.literal_value_of text.now) }
{
    match text {
        [b, ..] if is_digit(*b) => number_of(alloc, text),
        _ => Ok(Some((0, None))),
    }
}

// Whether a number is malformed or too wide. What a number stands for is long, and is to lie in no frame of the callers'.
#[inline(never)]
fn is_unread(alloc: Global, number: &[u8]) -> Result<bool, AllocError>
    ensures { IfOk result (λ unread. is_some (spec.numeral_value_of number.now) ≡ not unread) }
{
    Ok(number_of(alloc, number)?.is_none())
}

/// Whether a token is a number that is malformed or too wide.
#[inline(always)]
pub fn is_bad_number(alloc: Global, text: &[u8]) -> Result<bool, AllocError>
    ensures { IfOk result (λ bad. is_some (spec.literal_value_of text.now) ≡ not bad) }
{
    match text {
        [b, ..] if is_digit(*b) => is_unread(alloc, text),
        _ => Ok(false),
    }
}

/// The number of a plain decimal, and 0 for every other token.
#[tactic(auto, using(crate::proofs::LiteralValues::value_is))]
pub fn token_value(text: &[u8]) -> u64
    ensures { result ≡ spec.token_value text.now }
{
    if !all_digits(text) {
        return 0;
    }
    match plain(text) {
        None => 0,
        Some((n, _)) => n,
    }
}

/// The digits of a sized literal, which no other token has.
#[tactic(auto, unfolding(crate::specs::Literals::token_digits))]
pub fn token_digits(alloc: Global, text: &[u8]) -> Result<Option<Bits>, AllocError>
    ensures { IfOk result (λ found. found ≡ spec.token_digits text.now) }
{
    match literal_value_of(alloc, text)? {
        None => Ok(None),
        Some((_, bits)) => Ok(bits),
    }
}
