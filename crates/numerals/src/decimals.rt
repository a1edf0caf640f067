//! Digits of base ten.

ghost use Rattle.std.specs.Prelude.{◌≡◌};
ghost use Rattle.numerals.specs.Numbers as spec;

/// What digits stand for.
#[derive(Clone, Copy)]
pub enum DecimalReading {
    Value(u128),
    /// No vector holds the number.
    Wide,
    /// A byte is neither a digit nor a `_`.
    Malformed,
}

/// A number with one digit more, if a vector of the greatest width holds it.
fn with_digit(n: u128, b: u8) -> Option<u128>
    ensures { result ≡ spec.with_digit n b }
{
    let digit = u128::from(b.saturating_sub(b'0'));
    if n <= u128::from(u64::MAX) {
        return Some(n * 10 + digit);
    }
    n.checked_mul(10)?.checked_add(digit)
}

/// A number with one byte more.
fn value_with(n: u128, b: u8) -> DecimalReading
    ensures { result ≡ spec.value_with n b }
{
    if b == b'_' {
        return DecimalReading::Value(n);
    }
    if b < b'0' || b > b'9' {
        return DecimalReading::Malformed;
    }
    match with_digit(n, b) {
        None => DecimalReading::Wide,
        Some(more) => DecimalReading::Value(more),
    }
}

/// What was read, with one byte more.
fn reading_with(found: DecimalReading, b: u8) -> DecimalReading
    ensures { result ≡ spec.reading_with found b }
{
    match found {
        DecimalReading::Value(n) => value_with(n, b),
        DecimalReading::Wide => DecimalReading::Wide,
        DecimalReading::Malformed => DecimalReading::Malformed,
    }
}

/// The number that digits stand for, between which `_` may stand.
pub fn decimal_value(text: &[u8]) -> DecimalReading
    ensures { result ≡ spec.decimal_value text.now }
{
    let mut left = text;
    let mut found = DecimalReading::Value(0);
    while let [b, rest @ ..] = left {
        found = reading_with(found, *b);
        left = rest;
    }
    found
}
