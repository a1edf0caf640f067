//! The conversions of a display format, and what becomes of zeros at the front of a text.

/// How an argument is shown (17.1.1.2). A short form has a 0 between the `%` and its letter (17.1.1.3).
#[derive(Clone, Copy, PartialEq, Eq)]
pub enum Conversion {
    /// `%b`: every digit.
    Binary,
    /// `%0b`.
    ShortBinary,
    /// `%o`: groups of three digits.
    Octal,
    /// `%0o`.
    ShortOctal,
    /// `%h`: groups of four digits.
    Hex,
    /// `%0h`.
    ShortHex,
    /// `%0d` of an argument without a sign.
    Decimal,
    /// `%d` of an argument without a sign, with blanks before it as its greatest number needs places.
    PaddedDecimal,
    /// `%0d` of an argument with a sign.
    SignedDecimal,
    /// `%d` of an argument with a sign, with blanks before it as its longest number needs places.
    PaddedSignedDecimal,
    /// `%c`: the character of the least significant eight digits.
    Character,
    /// `%s`: a character for each eight digits, a blank for each zero byte at the front.
    Characters,
    /// `%0s`: a character for each eight digits, without the zero bytes at the front.
    ShortCharacters,
    /// `%t`: a time, in a field of twenty places.
    Time,
}

/// What becomes of the zeros at the front of a text (17.1.1.3).
#[derive(Clone, Copy)]
pub enum LeadingZeros {
    /// They are shown.
    Shown,
    /// They are dropped, but for a zero that is the whole text.
    Dropped,
}
