//! The text of a value.

ghost use Rattle.std.specs.Prelude.{◌≡◌, ◌++◌, ◌<◌, IfOk, OnOk, codes, decimal, length, string_bytes};
ghost use Rattle.std.specs.List.{list_any};
ghost use Rattle.logic4.specs.Display.{binary_text};
ghost use Rattle.literals.specs.Literals.{base_text, exact_radix, is_mixed, radix_digits, sized_text, value_text};

use itoa::Buffer;
use logic4::bits::Bits;
use std::alloc::{AllocError, Global};

/// In which digits a value is written.
#[derive(Clone, Copy)]
pub enum Radix {
    Binary,
    Decimal,
    Hex,
}

// The base of a literal.
fn base(radix: Radix) -> &'static str
    ensures { result.now ≡ base_text radix }
{
    match radix {
        Radix::Binary => "'b",
        Radix::Decimal => "'d",
        Radix::Hex => "'h",
    }
}

// The digits of a value by a radix.
fn digits(alloc: Global, radix: Radix, value: Bits) -> Result<String, AllocError>
    ensures { IfOk result (λ t. string_bytes t ≡ radix_digits radix value) }
{
    match radix {
        Radix::Binary => value.show_b(alloc),
        Radix::Decimal => value.show_d0(alloc),
        Radix::Hex => value.show_h(alloc),
    }
}

// Whether a letter stands for digits that aren't all alike.
fn is_mixed(letters: &[u8]) -> bool
    ensures { result ≡ list_any is_mixed letters.now }
{
    letters
        .iter()
        .any(|letter| *letter == b'X' || *letter == b'Z')
}

// Puts a sized literal behind a text, of a width, a base and digits.
fn push_sized(text: &mut Vec<u8>, width: u32, base: &str, digits: &str) -> Result<(), AllocError>
    ensures { OnOk result (text.new.items ≡ text.old.items ++ (decimal width ++ base.now ++ digits.now)) }
{
    let mut buffer = Buffer::new();
    text.extend_from_slice(buffer.format(width).as_bytes())?;
    text.extend_from_slice(base.as_bytes())?;
    text.extend_from_slice(digits.as_bytes())
}

// The radix that says each digit of a value: this one, or the binary one.
fn exact_radix(alloc: Global, radix: Radix, value: Bits) -> Result<Radix, AllocError>
    ensures { IfOk result (λ exact. exact ≡ exact_radix radix value) }
{
    let digits = digits(alloc, radix, value)?;
    if is_mixed(digits.as_bytes()) {
        Ok(Radix::Binary)
    } else {
        Ok(radix)
    }
}

// Puts a value behind a text as a sized literal.
fn push_literal(text: &mut Vec<u8>, radix: Radix, value: Bits) -> Result<(), AllocError>
    ensures { OnOk result (text.new.items ≡ text.old.items ++ sized_text radix value) }
{
    let digits = digits(*text.allocator(), radix, value)?;
    push_sized(text, value.width(), base(radix), &digits)
}

/// Puts a value behind a text: one digit alone, and more of them as a sized literal (3.5.1), in a radix that says each digit. Where
/// this one doesn't, since a letter would stand for digits that aren't all alike, the literal is binary.
///
/// # Errors
///
/// Where memory is refused; the text has a beginning of the value then, or nothing of it.
pub fn push_value(text: &mut Vec<u8>, radix: Radix, value: Bits) -> Result<(), AllocError>
    ensures { OnOk result (text.new.items ≡ text.old.items ++ value_text radix value) }
{
    let alloc = *text.allocator();
    if value.width() > 1 {
        let exact = exact_radix(alloc, radix, value)?;
        return push_literal(text, exact, value);
    }
    let digit = value.show_b(alloc)?;
    text.extend_from_slice(digit.as_bytes())
}
