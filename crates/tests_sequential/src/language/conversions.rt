//! Texts of vectors by the conversions that no source of the profile can spell, orders with signs, and extensions. What is wanted is what
//! the standard's text and its examples say (17.1.1.2 to 17.1.1.4, 5.4, 5.5.4).

use crate::claims::holds_at;
use logic4::bits::Bits;
use logic4::conversion::Conversion;
use logic4::digit::{Digit, Extension};
use std::alloc::Global;
use std::process::Abort;

/// Digits, the most significant first, and their text by a conversion.
#[derive(Clone, Copy)]
struct ShownRow<'a> {
    digits: &'a str,
    conversion: Conversion,
    text: &'a str,
}

const TEN: &str = "000000001010";

const LETTER: &str = "00000000000000000000000001100101";

const SHOWN: &[ShownRow<'static>] = &[
    ShownRow {
        digits: "x",
        conversion: Conversion::PaddedDecimal,
        text: "x",
    },
    ShownRow {
        digits: "xxxxxxxxx01010",
        conversion: Conversion::Hex,
        text: "xxXa",
    },
    ShownRow {
        digits: "001xxx101x01",
        conversion: Conversion::Hex,
        text: "XXX",
    },
    ShownRow {
        digits: "001xxx101x01",
        conversion: Conversion::Octal,
        text: "1x5X",
    },
    ShownRow {
        digits: TEN,
        conversion: Conversion::PaddedDecimal,
        text: "  10",
    },
    ShownRow {
        digits: TEN,
        conversion: Conversion::Decimal,
        text: "10",
    },
    ShownRow {
        digits: TEN,
        conversion: Conversion::ShortHex,
        text: "a",
    },
    ShownRow {
        digits: LETTER,
        conversion: Conversion::PaddedDecimal,
        text: "       101",
    },
    ShownRow {
        digits: LETTER,
        conversion: Conversion::Octal,
        text: "00000000145",
    },
    ShownRow {
        digits: LETTER,
        conversion: Conversion::ShortOctal,
        text: "145",
    },
    ShownRow {
        digits: LETTER,
        conversion: Conversion::ShortBinary,
        text: "1100101",
    },
    ShownRow {
        digits: LETTER,
        conversion: Conversion::Character,
        text: "e",
    },
    ShownRow {
        digits: LETTER,
        conversion: Conversion::Characters,
        text: "   e",
    },
    ShownRow {
        digits: LETTER,
        conversion: Conversion::ShortCharacters,
        text: "e",
    },
    ShownRow {
        digits: "0000000",
        conversion: Conversion::Time,
        text: "                   0",
    },
    ShownRow {
        digits: "10000000",
        conversion: Conversion::PaddedSignedDecimal,
        text: "-128",
    },
    ShownRow {
        digits: "00000101",
        conversion: Conversion::PaddedSignedDecimal,
        text: "   5",
    },
    ShownRow {
        digits: "1111",
        conversion: Conversion::SignedDecimal,
        text: "-1",
    },
    ShownRow {
        digits: "1z11",
        conversion: Conversion::SignedDecimal,
        text: "Z",
    },
];

/// Two vectors of one width, whether the first is less, and whether it is at most the second, with signs.
const ORDERED: &[(&str, &str, &str, &str)] = &[
    ("1111", "0001", "1", "1"),
    ("0001", "1111", "0", "0"),
    ("1000", "1111", "1", "1"),
    ("0111", "0111", "0", "1"),
    ("1", "0", "1", "1"),
    ("1x11", "0111", "x", "x"),
    ("0111", "z111", "x", "x"),
];

/// A vector, and what it is at eight digits by its sign, and with zeros.
const EXTENDED: &[(&str, &str, &str)] = &[
    ("1010", "11111010", "00001010"),
    ("0101", "00000101", "00000101"),
    ("x010", "xxxxx010", "0000x010"),
    ("z010", "zzzzz010", "0000z010"),
    ("1111100001", "11100001", "11100001"),
];

fn digit_of(letter: u8) -> Digit {
    match letter {
        b'0' => Digit::Zero,
        b'1' => Digit::One,
        b'x' => Digit::X,
        _ => Digit::Z,
    }
}

// The vector of these letters, which are at most 128.
fn bits_of(letters: &[u8]) -> Bits {
    let mut bits: Option<Bits> = None;
    for letter in letters {
        bits = Some(with_digit(bits, digit_of(*letter)));
    }
    bits.unwrap_or(Bits::unknown(1))
}

// A digit below others, if there are some and there is room.
fn with_digit(bits: Option<Bits>, digit: Digit) -> Bits {
    let one = Bits::from_digit(digit);
    match bits {
        Some(bits) if bits.width() < Bits::MAX_WIDTH => Bits::concat(bits, one),
        _ => one,
    }
}

// Whether a vector has this text.
fn is_shown(
    rt: &impl Abort,
    alloc: Global,
    bits: Bits,
    conversion: Conversion,
    text: &str,
) -> bool {
    let found = bits.show(conversion, alloc).expect(rt, "memory");
    found.as_str() == text
}

#[test]
fn shows_values(rt: HostRuntime) {
    for (row, shown) in SHOWN.iter().enumerate() {
        let bits = bits_of(shown.digits.as_bytes());
        let is = is_shown(&rt, rt.alloc(), bits, shown.conversion, shown.text);
        holds_at(&rt, is, "another text of row", row);
    }
}

// Whether the order of two vectors is told so.
fn is_ordered(left: Bits, right: Bits, less: Bits, most: Bits) -> bool {
    if left.width() != right.width() {
        return false;
    }
    left.signed_lt(right) == less && left.signed_le(right) == most
}

#[test]
fn orders_values_with_signs(rt: HostRuntime) {
    for (row, (left, right, less, most)) in ORDERED.iter().enumerate() {
        let is = is_ordered(
            bits_of(left.as_bytes()),
            bits_of(right.as_bytes()),
            bits_of(less.as_bytes()),
            bits_of(most.as_bytes()),
        );
        holds_at(&rt, is, "another order of row", row);
    }
}

#[test]
fn extends_values(rt: HostRuntime) {
    for (row, (digits, by_sign, by_zeros)) in EXTENDED.iter().enumerate() {
        let bits = bits_of(digits.as_bytes());
        let signed = bits.extend(Extension::Sign, 8) == bits_of(by_sign.as_bytes());
        let zeros = bits.extend(Extension::Zeros, 8) == bits_of(by_zeros.as_bytes());
        holds_at(&rt, signed & zeros, "another extension of row", row);
    }
}
