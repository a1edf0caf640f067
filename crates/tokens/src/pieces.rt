//! The longest piece at the front of a text.

ghost use Rattle.std.specs.Prelude.{◌≡◌, ◌≤◌, ◌+◌, length, false};
ghost use Rattle.tokens.specs.Lexing as lexing;
ghost use Rattle.tokens.specs.Lengths as spec;

use crate::spans::{Class, is_digit, is_letter, is_space, span};

/// Whether a byte may stand in a string, after a `\` or not.
fn accepts(after: bool, b: u8) -> bool
    ensures { result ≡ spec.accepts after b }
{
    if after {
        b == b'n' || b == b't' || b == b'\\' || b == b'"'
    } else {
        b >= b' ' && b <= b'~' && b != b'"'
    }
}

/// The length of a string after its first `"`, 0 where it isn't one.
fn string_len(text: &[u8]) -> usize
    ensures value { result ≡ spec.string_len 0 false text.now }
    ensures within { result ≤ length text.now }
{
    let mut left = text;
    let mut n = 0;
    let mut after = false;
    while let [b, rest @ ..] = left {
        if !after && *b == b'"' {
            return n + 1;
        }
        if !accepts(after, *b) {
            return 0;
        }
        after = !after && *b == b'\\';
        n += 1;
        left = rest;
    }
    0
}

/// The length of a comment after its `/*`, 0 where it isn't one.
fn block_len(text: &[u8]) -> usize
    ensures value { result ≡ spec.block_len 0 false text.now }
    ensures within { result ≤ length text.now }
{
    let mut left = text;
    let mut n: usize = 0;
    let mut star = false;
    while let [b, rest @ ..] = left {
        if star && *b == b'/' {
            return n + 1;
        }
        star = *b == b'*';
        n += 1;
        left = rest;
    }
    0
}

fn beyond(before: usize, len: usize, all: usize) -> usize
    requires { before + len ≤ all }
    ensures value { result ≡ spec.beyond before len }
    ensures within { result ≤ all }
{
    if len == 0 { 0 } else { before + len }
}

/// The length of a comment (3.3) after its first `/`, that included; 0 where it isn't one.
pub fn comment_len(text: &[u8]) -> usize
    ensures value { result ≡ spec.comment_len text.now }
    ensures within { result ≤ length text.now + 1 }
{
    match text {
        [b'/', rest @ ..] => span(Class::Line, rest) + 2,
        [b'*', rest @ ..] => beyond(2, block_len(rest), rest.len() + 2),
        _ => 0,
    }
}

/// The length of a system name after its `$`, 0 where it isn't one.
fn system_len(text: &[u8]) -> usize
    ensures value { result ≡ spec.system_len text.now }
    ensures within { result ≤ length text.now + 1 }
{
    match text {
        [b, rest @ ..] if is_letter(*b) => span(Class::Word, rest) + 2,
        _ => 0,
    }
}

/// The length of a number that begins with `n` digits, before the rest.
fn number_len(n: usize, rest: &[u8]) -> usize
    requires { n + length rest.now ≤ 18446744073709551615 }
    ensures value { result ≡ spec.number_len n rest.now }
    ensures within { result ≤ n + length rest.now }
{
    match rest {
        [b'\'', after @ ..] => n + span(Class::Literal, after) + 1,
        _ => n,
    }
}

/// Whether a byte is an operator or a mark by itself.
fn is_sign1(a: u8) -> bool
    ensures { result ≡ lexing.is_sign1 a }
{
    a == b'!'
        || a == b'~'
        || a == b'&'
        || a == b'|'
        || a == b'^'
        || a == b'+'
        || a == b'-'
        || a == b'<'
        || a == b'>'
        || a == b'?'
        || a == b':'
        || a == b'='
        || a == b'#'
        || a == b'@'
        || a == b'('
        || a == b')'
        || a == b'['
        || a == b']'
        || a == b'{'
        || a == b'}'
        || a == b','
        || a == b';'
}

/// Whether two bytes are one operator or mark together.
fn is_sign2(a: u8, b: u8) -> bool
    ensures { result ≡ lexing.is_sign2 a b }
{
    (a == b'<' && b == b'<')
        || (a == b'>' && b == b'>')
        || (a == b'<' && b == b'=')
        || (a == b'>' && b == b'=')
        || (a == b'=' && b == b'=')
        || (a == b'!' && b == b'=')
        || (a == b'&' && b == b'&')
        || (a == b'|' && b == b'|')
}

fn is_sign3(a: u8, b: u8, c: u8) -> bool
    ensures { result ≡ lexing.is_sign3 a b c }
{
    (a == b'=' || a == b'!') && b == b'=' && c == b'='
}

/// The length of the longest operator or mark at the front, 0 where none is.
fn sign_len(text: &[u8]) -> usize
    ensures value { result ≡ spec.sign_len text.now }
    ensures within { result ≤ length text.now }
{
    match text {
        [a, b, c, ..] if is_sign3(*a, *b, *c) => 3,
        [a, b, ..] if is_sign2(*a, *b) => 2,
        [a, ..] if is_sign1(*a) => 1,
        _ => 0,
    }
}

/// The length of the longest piece at the front, 0 where none is.
#[tactic(auto, unfolding(crate::specs::Lengths::piece_len))]
pub(crate) fn piece_len(text: &[u8]) -> usize
    ensures value { result ≡ spec.piece_len text.now }
    ensures within { result ≤ length text.now }
{
    let [first, rest @ ..] = text else {
        return 0;
    };
    if is_letter(*first) {
        return span(Class::Word, rest) + 1;
    }
    if is_digit(*first) {
        let n = span(Class::Digit, rest);
        return number_len(n + 1, &rest[n..]);
    }
    if is_space(*first) {
        return 1;
    }
    match *first {
        b'"' => beyond(1, string_len(rest), text.len()),
        b'/' => comment_len(rest),
        b'$' => system_len(rest),
        _ => sign_len(text),
    }
}
