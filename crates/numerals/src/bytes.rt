//! The bytes of numbers.

ghost use Rattle.std.specs.Prelude.{◌≡◌, ◌<◌, ◌≤◌, IfSome};
ghost use Rattle.numerals.specs.Bytes as spec;

use logic4::digit::Digit;

/// The digit x or z that a byte stands for, if it does.
pub fn unknown_digit(b: u8) -> Option<Digit>
    ensures { result ≡ spec.unknown_digit b }
{
    match b {
        b'x' | b'X' => Some(Digit::X),
        b'z' | b'Z' | b'?' => Some(Digit::Z),
        _ => None,
    }
}

/// What a digit of base sixteen is worth, if a byte is one.
pub fn digit_value(b: u8) -> Option<u8>
    ensures value { result ≡ spec.digit_value b }
    ensures within { IfSome result (λ n. n < 16) }
{
    if b >= b'0' && b <= b'9' {
        Some(b - b'0')
    } else if b >= b'a' && b <= b'f' {
        Some(b - 87)
    } else if b >= b'A' && b <= b'F' {
        Some(b - 55)
    } else {
        None
    }
}

/// The bases (3.5.1).
#[derive(Clone, Copy)]
pub enum NumberBase {
    Binary,
    Octal,
    Decimal,
    Hexadecimal,
}

/// The base that a letter tells, if it tells one.
fn radix_of(b: u8) -> Option<NumberBase>
    ensures { result ≡ spec.base_by_letter b }
{
    match b {
        b'b' | b'B' => Some(NumberBase::Binary),
        b'o' | b'O' => Some(NumberBase::Octal),
        b'd' | b'D' => Some(NumberBase::Decimal),
        b'h' | b'H' => Some(NumberBase::Hexadecimal),
        _ => None,
    }
}

/// The base that a token with a `'` tells, and whether it says that numbers of it are signed.
pub fn base_of(base: &[u8]) -> Option<(bool, NumberBase)>
    ensures { result ≡ spec.base_of base.now }
{
    match base {
        [_, letter] => Some((false, radix_of(*letter)?)),
        [_, b's' | b'S', letter] => Some((true, radix_of(*letter)?)),
        _ => None,
    }
}
