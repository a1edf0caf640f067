//! The words of the language, and names.

use crate::words::{advice_of, is_one_of};
use tokens::spans::is_letter;

/// The words of the language.
const RESERVED: &[&[u8]] = &[
    b"module",
    b"endmodule",
    b"reg",
    b"initial",
    b"always",
    b"begin",
    b"end",
    b"if",
    b"else",
    b"while",
    b"posedge",
    b"negedge",
    b"or",
];

/// Whether a text is a word of the language.
pub(crate) fn is_reserved(text: &[u8]) -> bool {
    is_one_of(text, RESERVED)
}

/// Whether a text is a name: a word that Verilog doesn't reserve.
pub(crate) fn is_name(text: &[u8]) -> bool {
    match text {
        [b, ..] => is_letter(*b) && !is_reserved(text) && advice_of(text).is_none(),
        _ => false,
    }
}
