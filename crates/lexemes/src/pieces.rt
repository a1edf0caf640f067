//! The longest piece at the front of a text.

ghost use Rattle.std.specs.Prelude.{◌≡◌, ◌≤◌, ◌+◌, length, true, false};
ghost use Rattle.lexemes.specs.Lexing as lexing;
ghost use Rattle.lexemes.specs.Lengths as spec;

use crate::spans::{
    ByteClass, begins_name, is_base_letter, is_based, is_decimal_digit, is_exponent_letter,
    is_plus_or_minus, is_signed_letter, is_visible, is_white_space, is_word, span,
};

/// The length of a string after its first `"`, 0 where it isn't one.
fn string_length(text: &[u8]) -> usize
    ensures value { result ≡ spec.string_length 0 false text.now }
    ensures within { result ≤ length text.now }
{
    let mut left = text;
    let mut n = 0;
    let mut after = false;
    while let [b, rest @ ..] = left {
        if !after && *b == b'"' {
            return n + 1;
        }
        if *b == b'\n' {
            return 0;
        }
        after = !after && *b == b'\\';
        n += 1;
        left = rest;
    }
    0
}

/// The length of a comment after its `/*`, 0 where it isn't one.
fn block_comment_length(text: &[u8]) -> usize
    ensures value { result ≡ spec.block_comment_length 0 false text.now }
    ensures within { result ≤ length text.now }
{
    let mut left = text;
    let mut n: usize = 0;
    let mut star = false;
    while let [b, rest @ ..] = left {
        if star && *b == b'/' {
            return n + 1;
        }
        star = *b == b'*';
        n += 1;
        left = rest;
    }
    0
}

fn length_beyond(before: usize, len: usize, whole: usize) -> usize
    requires { before + len ≤ whole }
    ensures value { result ≡ spec.length_beyond before len }
    ensures within { result ≤ whole }
{
    if len == 0 { 0 } else { before + len }
}

/// The length of a comment (3.3) after its first `/`, that included; 0 where it isn't one.
fn comment_length(text: &[u8]) -> usize
    ensures value { result ≡ spec.comment_length text.now }
    ensures within { result ≤ length text.now + 1 }
{
    match text {
        [b'/', rest @ ..] => span(ByteClass::Line, rest) + 2,
        [b'*', rest @ ..] => length_beyond(2, block_comment_length(rest), rest.len() + 2),
        _ => 0,
    }
}

/// The length of a comment, or else of a `/`, after that byte, that included.
fn slash_len(text: &[u8]) -> usize
    ensures value { result ≡ spec.slash_len text.now }
    ensures within { result ≤ length text.now + 1 }
{
    let len = comment_length(text);
    if len == 0 { 1 } else { len }
}

/// The length of digits at the front, 0 where none is.
fn digits_len(text: &[u8]) -> usize
    ensures value { result ≡ spec.digits_len text.now }
    ensures within { result ≤ length text.now }
{
    match text {
        [b, rest @ ..] if is_decimal_digit(*b) => span(ByteClass::Number, rest) + 1,
        _ => 0,
    }
}

/// The length of a fraction (3.5.2) at the front, 0 where none is.
fn fraction_len(text: &[u8]) -> usize
    ensures value { result ≡ spec.fraction_len text.now }
    ensures within { result ≤ length text.now }
{
    match text {
        [b'.', rest @ ..] => length_beyond(1, digits_len(rest), rest.len() + 1),
        _ => 0,
    }
}

/// The length of digits at the front, with a sign or without, 0 where none are.
fn signed_len(text: &[u8]) -> usize
    ensures value { result ≡ spec.signed_len text.now }
    ensures within { result ≤ length text.now }
{
    match text {
        [b, rest @ ..] if is_plus_or_minus(*b) => length_beyond(
            1,
            digits_len(rest),
            rest.len() + 1,
        ),
        _ => digits_len(text),
    }
}

/// The length of an exponent (3.5.2) at the front, 0 where none is.
fn exponent_len(text: &[u8]) -> usize
    ensures value { result ≡ spec.exponent_len text.now }
    ensures within { result ≤ length text.now }
{
    match text {
        [b, rest @ ..] if is_exponent_letter(*b) => length_beyond(
            1,
            signed_len(rest),
            rest.len() + 1,
        ),
        _ => 0,
    }
}

/// The length of a number (3.5.2) at the front of a text that begins with a digit.
fn number_length(text: &[u8]) -> usize
    ensures value { result ≡ spec.number_length text.now }
    ensures within { result ≤ length text.now }
{
    let whole = span(ByteClass::Number, text);
    let (_, rest) = text.split_at(whole);
    let fraction = fraction_len(rest);
    let (_, behind) = rest.split_at(fraction);
    whole + (fraction + exponent_len(behind))
}

/// The length of a system name (3.7.3) after its `$`, that included; 0 where it isn't one.
fn system_name_length(text: &[u8]) -> usize
    ensures value { result ≡ spec.system_name_length text.now }
    ensures within { result ≤ length text.now + 1 }
{
    match text {
        [b, rest @ ..] if is_word(*b) => span(ByteClass::Word, rest) + 2,
        _ => 0,
    }
}

/// The length of a directive's name (19) after its backtick, that included; 0 where it isn't one.
fn directive_len(text: &[u8]) -> usize
    ensures value { result ≡ spec.directive_len text.now }
    ensures within { result ≤ length text.now + 1 }
{
    match text {
        [b, rest @ ..] if begins_name(*b) => span(ByteClass::Word, rest) + 2,
        _ => 0,
    }
}

/// The length of a base (3.5.1) after its `'`, that included; 0 where it isn't one.
fn base_len(text: &[u8]) -> usize
    ensures value { result ≡ spec.base_len text.now }
    ensures within { result ≤ length text.now + 1 }
{
    match text {
        [b, ..] if is_base_letter(*b) => 2,
        [a, b, ..] if is_signed_letter(*a) && is_base_letter(*b) => 3,
        _ => 0,
    }
}

/// The length of an escaped name (3.7.1), or of a joint of lines, after its `\`, that included; 0 where it isn't one.
fn escaped_len(text: &[u8]) -> usize
    ensures value { result ≡ spec.escaped_len text.now }
    ensures within { result ≤ length text.now + 1 }
{
    match text {
        [b, rest @ ..] if is_visible(*b) => span(ByteClass::Graphic, rest) + 2,
        [b'\n', ..] => 2,
        [b'\r', b'\n', ..] => 3,
        _ => 0,
    }
}

/// Whether a byte is an operator or a mark by itself.
fn is_one_byte_sign(a: u8) -> bool
    ensures { result ≡ lexing.is_one_byte_sign a }
{
    a == b'('
        || a == b')'
        || a == b'['
        || a == b']'
        || a == b'{'
        || a == b'}'
        || a == b','
        || a == b';'
        || a == b'.'
        || a == b':'
        || a == b'='
        || a == b'#'
        || a == b'@'
        || a == b'!'
        || a == b'~'
        || a == b'*'
        || a == b'%'
        || a == b'+'
        || a == b'-'
        || a == b'<'
        || a == b'>'
        || a == b'&'
        || a == b'^'
        || a == b'|'
        || a == b'?'
}

/// Whether two bytes are a mark, an operator of a path or a power together.
fn is_mark2(a: u8, b: u8) -> bool
    ensures { result ≡ lexing.is_mark2 a b }
{
    (a == b'(' && b == b'*')
        || (a == b'*' && b == b')')
        || (a == b'-' && b == b'>')
        || (a == b'+' && b == b':')
        || (a == b'-' && b == b':')
        || (a == b'=' && b == b'>')
        || (a == b'*' && b == b'>')
        || (a == b'*' && b == b'*')
        || (a == b'<' && b == b'<')
        || (a == b'>' && b == b'>')
}

/// Whether two bytes are an operator together.
fn is_operator2(a: u8, b: u8) -> bool
    ensures { result ≡ lexing.is_operator2 a b }
{
    (a == b'<' && b == b'=')
        || (a == b'>' && b == b'=')
        || (a == b'=' && b == b'=')
        || (a == b'!' && b == b'=')
        || (a == b'^' && b == b'~')
        || (a == b'~' && b == b'^')
        || (a == b'~' && b == b'&')
        || (a == b'~' && b == b'|')
        || (a == b'&' && b == b'&')
        || (a == b'|' && b == b'|')
}

/// Whether two bytes are one operator or mark together.
fn is_two_byte_sign(a: u8, b: u8) -> bool
    ensures { result ≡ lexing.is_two_byte_sign a b }
{
    is_mark2(a, b) || is_operator2(a, b)
}

/// Whether three bytes are one operator together.
fn is_three_byte_sign(a: u8, b: u8, c: u8) -> bool
    ensures { result ≡ lexing.is_three_byte_sign a b c }
{
    (a == b'&' && b == b'&' && c == b'&')
        || (a == b'<' && b == b'<' && c == b'<')
        || (a == b'>' && b == b'>' && c == b'>')
        || (a == b'=' && b == b'=' && c == b'=')
        || (a == b'!' && b == b'=' && c == b'=')
}

/// The length of the longest operator or mark at the front, 0 where none is.
fn sign_length(text: &[u8]) -> usize
    ensures value { result ≡ spec.sign_length text.now }
    ensures within { result ≤ length text.now }
{
    match text {
        [a, b, c, ..] if is_three_byte_sign(*a, *b, *c) => 3,
        [a, b, ..] if is_two_byte_sign(*a, *b) => 2,
        [a, ..] if is_one_byte_sign(*a) => 1,
        _ => 0,
    }
}

/// The length of the longest piece at the front, by its first byte, if that is a mark; 0 where none is.
#[tactic(auto, unfolding(crate::specs::Lengths::marked_len))]
fn marked_len(text: &[u8]) -> usize
    ensures value { result ≡ spec.marked_len text.now }
    ensures within { result ≤ length text.now }
{
    let [first, rest @ ..] = text else {
        return 0;
    };
    match *first {
        b'"' => length_beyond(1, string_length(rest), text.len()),
        b'/' => slash_len(rest),
        b'$' => system_name_length(rest),
        b'\'' => base_len(rest),
        b'\\' => escaped_len(rest),
        b'`' => directive_len(rest),
        _ => sign_length(text),
    }
}

/// The length of the longest piece at the front, 0 where none is.
#[tactic(auto, unfolding(crate::specs::Lengths::piece_length))]
fn piece_length(text: &[u8]) -> usize
    ensures value { result ≡ spec.piece_length text.now }
    ensures within { result ≤ length text.now }
{
    let [first, rest @ ..] = text else {
        return 0;
    };
    if begins_name(*first) {
        return span(ByteClass::Word, rest) + 1;
    }
    if is_decimal_digit(*first) {
        return number_length(text);
    }
    if is_white_space(*first) {
        return 1;
    }
    marked_len(text)
}

/// The length of the longest piece at the front, behind a base or not; 0 where none is.
#[tactic(auto, unfolding(crate::specs::Lengths::next_len))]
pub fn next_len(after: bool, text: &[u8]) -> usize
    ensures value { result ≡ spec.next_len after text.now }
    ensures within { result ≤ length text.now }
{
    let [first, rest @ ..] = text else {
        return 0;
    };
    if after && is_based(*first) {
        return span(ByteClass::Based, rest) + 1;
    }
    piece_length(text)
}
