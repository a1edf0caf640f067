//! Parts of lines: numbers, spaces, literals and strings.

ghost use Rattle.std.specs.Prelude.{◌≡◌, ◌++◌, OnOk, codes, decimal};
ghost use Rattle.logic4.specs.Display.{binary_text, digit_text};
ghost use Rattle.flattext.specs.Phrases as spec;

use itoa::Buffer;
use logic4::bits::Bits;
use logic4::digit::Digit;
use std::alloc::AllocError;

/// How deep lines are set in at most.
const DEEPEST: u32 = 16;

/// Puts a number behind a text.
pub(crate) fn push_number(text: &mut Vec<u8>, number: u64) -> Result<(), AllocError>
    ensures { OnOk result (text.new.items ≡ text.old.items ++ decimal number) }
{
    let mut digits = Buffer::new();
    text.extend_from_slice(digits.format(number).as_bytes())
}

/// How deep the lines inside of others stand.
#[tactic(auto, unfolding(crate::specs::Phrases::deeper))]
pub(crate) fn deeper(depth: u32) -> u32
    ensures { result ≡ spec.deeper depth }
{
    if depth < DEEPEST { depth + 1 } else { depth }
}

/// Puts the spaces before a line behind a text.
pub(crate) fn push_indent(text: &mut Vec<u8>, depth: u32) -> Result<(), AllocError>
    ensures { OnOk result (text.new.items ≡ text.old.items ++ spec.indent depth) }
{
    for _level in 0..depth {
        text.extend_from_slice(b"  ")?;
    }
    Ok(())
}

// The letter of a digit.
fn letter(digit: Digit) -> &'static str
    ensures { result.now ≡ digit_text digit }
{
    match digit {
        Digit::Zero => "0",
        Digit::One => "1",
        Digit::X => "x",
        Digit::Z => "z",
    }
}

// Puts the digits of a value behind a text, the most significant one first.
fn push_digits(text: &mut Vec<u8>, value: Bits) -> Result<(), AllocError>
    ensures { OnOk result (text.new.items ≡ text.old.items ++ binary_text value) }
{
    for index in (0..value.width()).rev() {
        text.extend_from_slice(letter(value.digit(index)).as_bytes())?;
    }
    Ok(())
}

// The number of a value, where all digits are known.
#[tactic(auto, using(crate::proofs::Values::known_values))]
fn known_number(value: Bits) -> Option<u128>
    ensures { result ≡ spec.known_number value }
{
    let (ones, unknown) = value.words();
    if unknown == 0 { Some(ones) } else { None }
}

// The number of a value of more than one digit, where all are known.
#[tactic(auto, unfolding(crate::specs::Phrases::shown_number))]
fn shown_number(value: Bits) -> Option<u128>
    ensures { result ≡ spec.shown_number value }
{
    if value.width() > 1 {
        known_number(value)
    } else {
        None
    }
}

// Puts a decimal behind a text, with its base.
fn push_decimal(text: &mut Vec<u8>, number: u128) -> Result<(), AllocError>
    ensures { OnOk result (text.new.items ≡ text.old.items ++ (codes "'d" ++ decimal number)) }
{
    text.extend_from_slice(b"'d")?;
    let mut digits = Buffer::new();
    text.extend_from_slice(digits.format(number).as_bytes())
}

// Puts all digits of a value behind a text, with their base.
fn push_binary(text: &mut Vec<u8>, value: Bits) -> Result<(), AllocError>
    ensures { OnOk result (text.new.items ≡ text.old.items ++ (codes "'b" ++ binary_text value)) }
{
    text.extend_from_slice(b"'b")?;
    push_digits(text, value)
}

// Puts a value behind a text without its size, as a decimal where there is a number to show.
fn push_based(text: &mut Vec<u8>, number: Option<u128>, value: Bits) -> Result<(), AllocError>
    ensures { OnOk result (text.new.items ≡ text.old.items ++ spec.digits_text number value) }
{
    match number {
        Some(number) => push_decimal(text, number),
        None => push_binary(text, value),
    }
}

/// Puts a literal behind a text, with its size (3.5.1).
#[tactic(auto, unfolding(crate::specs::Phrases::literal_text))]
pub(crate) fn push_literal(text: &mut Vec<u8>, value: Bits) -> Result<(), AllocError>
    ensures { OnOk result (text.new.items ≡ text.old.items ++ spec.literal_text value) }
{
    push_number(text, u64::from(value.width()))?;
    push_based(text, shown_number(value), value)
}

/// Puts a byte behind a text by its three octal digits (3.6.3).
pub(crate) fn push_octal(text: &mut Vec<u8>, byte: u8) -> Result<(), AllocError>
    ensures { OnOk result (text.new.items ≡ text.old.items ++ spec.octal_escape byte) }
{
    text.extend_from_slice(&[b'\\', 48 + byte / 64, 48 + (byte / 8) % 8, 48 + byte % 8])
}

// Whether a byte is a space, or is printed.
fn is_printable(byte: u8) -> bool
    ensures { result ≡ spec.is_printable byte }
{
    byte >= b' ' && byte <= b'~'
}

// Puts a byte behind a text by itself, or by its octal digits where it isn't printable.
fn push_byte(text: &mut Vec<u8>, byte: u8) -> Result<(), AllocError>
    ensures { OnOk result (text.new.items ≡ text.old.items ++ spec.string_byte byte) }
{
    if is_printable(byte) {
        text.extend_from_slice(&[byte])
    } else {
        push_octal(text, byte)
    }
}

// Puts a byte behind a text, as it stands in a string (3.6).
pub(crate) fn push_escaped(text: &mut Vec<u8>, byte: u8) -> Result<(), AllocError>
    ensures { OnOk result (text.new.items ≡ text.old.items ++ spec.escaped_byte byte) }
{
    match byte {
        b'\n' => text.extend_from_slice(b"\\n"),
        b'\t' => text.extend_from_slice(b"\\t"),
        b'\\' => text.extend_from_slice(b"\\\\"),
        b'"' => text.extend_from_slice(b"\\\""),
        _ => push_byte(text, byte),
    }
}

// Puts bytes behind a text, each as it stands in a string (3.6).
fn push_each_escaped(text: &mut Vec<u8>, bytes: &[u8]) -> Result<(), AllocError>
    ensures { OnOk result (text.new.items ≡ text.old.items ++ spec.escaped_bytes bytes.now) }
{
    for byte in bytes {
        push_escaped(text, *byte)?;
    }
    Ok(())
}

/// Puts a string behind a text, between its quotation marks.
#[tactic(auto, unfolding(crate::specs::Phrases::string_literal_text))]
pub(crate) fn push_string(text: &mut Vec<u8>, bytes: &[u8]) -> Result<(), AllocError>
    ensures { OnOk result (text.new.items ≡ text.old.items ++ spec.string_literal_text bytes.now) }
{
    text.extend_from_slice(b"\"")?;
    push_each_escaped(text, bytes)?;
    text.extend_from_slice(b"\"")
}
