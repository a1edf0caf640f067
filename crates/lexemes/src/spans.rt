//! Classes of bytes, and runs of them.

ghost use Rattle.std.specs.Prelude.{◌≡◌, ◌≤◌, length};
ghost use Rattle.lexemes.specs.ByteClasses as spec;

pub fn begins_name(b: u8) -> bool
    ensures { result ≡ spec.begins_name b }
{
    (b >= b'A' && b <= b'Z') || (b >= b'a' && b <= b'z') || b == b'_'
}

pub fn is_decimal_digit(b: u8) -> bool
    ensures { result ≡ spec.is_decimal_digit b }
{
    b >= b'0' && b <= b'9'
}

/// Whether a byte may stand behind the base of a number (3.5.1).
pub fn is_based(b: u8) -> bool
    ensures { result ≡ spec.in_based b }
{
    is_decimal_digit(b)
        || (b >= b'a' && b <= b'f')
        || (b >= b'A' && b <= b'F')
        || b == b'x'
        || b == b'X'
        || b == b'z'
        || b == b'Z'
        || b == b'?'
        || b == b'_'
}

/// Whether a byte is white space (3.2).
pub fn is_white_space(b: u8) -> bool
    ensures { result ≡ spec.is_white_space b }
{
    b == b' ' || b == b'\t' || b == b'\n' || b == 12 || b == b'\r'
}

pub fn is_visible(b: u8) -> bool
    ensures { result ≡ spec.is_visible b }
{
    b >= b'!' && b <= b'~'
}

/// Whether a byte is the letter of a base (3.5.1).
pub fn is_base_letter(b: u8) -> bool
    ensures { result ≡ spec.is_base_letter b }
{
    b == b'b'
        || b == b'o'
        || b == b'd'
        || b == b'h'
        || b == b'B'
        || b == b'O'
        || b == b'D'
        || b == b'H'
}

pub fn is_signed_letter(b: u8) -> bool
    ensures { result ≡ spec.is_signed_letter b }
{
    b == b's' || b == b'S'
}

pub fn is_exponent_letter(b: u8) -> bool
    ensures { result ≡ spec.is_exponent_letter b }
{
    b == b'e' || b == b'E'
}

pub fn is_plus_or_minus(b: u8) -> bool
    ensures { result ≡ spec.is_plus_or_minus b }
{
    b == b'+' || b == b'-'
}

/// Whether a byte may stand inside a name, after its first.
pub fn is_word(b: u8) -> bool
    ensures { result ≡ spec.in_identifier b }
{
    begins_name(b) || is_decimal_digit(b) || b == b'$'
}

/// A class of bytes.
#[derive(Clone, Copy)]
pub enum ByteClass {
    /// What may stand inside a name.
    Word,
    /// What may stand inside a run of digits.
    Number,
    /// What may stand behind the base of a number.
    Based,
    /// What may stand in an escaped name.
    Graphic,
    /// What may stand inside a line: any byte but a newline.
    Line,
}

/// Whether a byte is of a class.
#[inline(always)]
fn is_in_class(class: ByteClass, b: u8) -> bool
    ensures { result ≡ spec.is_in_class class b }
{
    match class {
        ByteClass::Word => is_word(b),
        ByteClass::Number => is_decimal_digit(b) || b == b'_',
        ByteClass::Based => is_based(b),
        ByteClass::Graphic => is_visible(b),
        ByteClass::Line => b != b'\n',
    }
}

/// How many bytes at the front of a text are of a class.
#[inline(always)]
pub fn span(class: ByteClass, text: &[u8]) -> usize
    ensures value { result ≡ spec.run_length (spec.is_in_class class) text.now }
    ensures within { result ≤ length text.now }
{
    let mut left = text;
    let mut n = 0;
    while let [b, rest @ ..] = left {
        if !is_in_class(class, *b) {
            break;
        }
        n += 1;
        left = rest;
    }
    n
}

/// Whether all bytes are of a class.
pub fn all_bytes(class: ByteClass, text: &[u8]) -> bool
    ensures { result ≡ spec.all_bytes (spec.is_in_class class) text.now }
{
    let mut left = text;
    while let [b, rest @ ..] = left {
        if !is_in_class(class, *b) {
            return false;
        }
        left = rest;
    }
    true
}
