//! Numbers and values, digit by digit.
ghost use Rattle.std.specs.Prelude.{◌≡◌, ◌++◌, ◌∷◌, [], OnOk, decimal};
ghost use Rattle.logic4.specs.Display.{binary_text, digit_text};

use itoa::Buffer;
use logic4::bits::Bits;
use logic4::digit::Digit;
use std::alloc::AllocError;

/// Puts the decimal digits of a number behind bytes.
pub(crate) fn push_number(bytes: &mut Vec<u8>, number: u64) -> Result<(), AllocError>
    ensures { OnOk result (bytes.new.items ≡ bytes.old.items ++ decimal number) }
{
    let mut digits = Buffer::new();
    bytes.extend_from_slice(digits.format(number).as_bytes())
}

// The letter of a digit.
fn letter(digit: Digit) -> u8
    ensures { digit_text digit ≡ result ∷ [] }
{
    match digit {
        Digit::Zero => b'0',
        Digit::One => b'1',
        Digit::X => b'x',
        Digit::Z => b'z',
    }
}

/// Puts the digits of a value behind bytes, the most significant one first.
pub(crate) fn push_digits(bytes: &mut Vec<u8>, value: Bits) -> Result<(), AllocError>
    ensures { OnOk result (bytes.new.items ≡ bytes.old.items ++ binary_text value) }
{
    for index in (0..value.width()).rev() {
        bytes.push(letter(value.digit(index)))?;
    }
    Ok(())
}
