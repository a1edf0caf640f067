//! A text as words, numbers, strings and signs, whatever it is. Unlike the cut into tokens this doesn't stop: what begins no
//! token is a lexeme of one byte.

ghost use Rattle.std.specs.Prelude.{false, ◌≡◌, ◌≤◌, ◌<◌, ◌++◌, [], ◌∷◌, length, map, IfOk, OnOk};
ghost use Rattle.diagnosis.specs.Lexemes as spec;
ghost use Rattle.diagnosis.specs.Lexemes.{AreLexemes};
ghost use Rattle.diagnosis.specs.PlainLexemes.{plain_lexeme};

use locations::behind_skipped;
use std::alloc::{AllocError, Global};
use tokens::spans::{Class, is_digit, is_letter, span};

/// A lexeme, its first byte, and the one behind its last, counted from 0.
#[derive(Clone, Copy)]
pub struct Lexeme<'a> {
    pub text: &'a [u8],
    pub begin: usize,
    pub end: usize,
}

fn begins_word(b: u8) -> bool
    ensures { result ≡ spec.begins_word b }
{
    is_letter(b) || b == b'$'
}

/// Whether a byte begins a number: a digit, or a `'` where a size lacks.
pub fn begins_number(b: u8) -> bool
    ensures { result ≡ spec.begins_number b }
{
    is_digit(b) || b == b'\''
}

/// The length of a string behind its first `"`: up to the next one that isn't escaped, that included, or to the end of its line.
fn string_len(text: &[u8]) -> usize
    ensures within { result ≤ length text.now }
    ensures value { result ≡ spec.lexeme_string_len 0 false text.now }
{
    let mut left = text;
    let mut n = 0;
    let mut after = false;
    while let [b, rest @ ..] = left {
        if *b == b'\n' {
            break;
        }
        if !after && *b == b'"' {
            return n + 1;
        }
        after = !after && *b == b'\\';
        n += 1;
        left = rest;
    }
    n
}

/// The length of the lexeme at the front of a text, which has one. A directive goes to the end of its line, and a comment that
/// isn't finished to the end.
#[tactic(auto, unfolding(crate::specs::Lexemes::lexeme_len))]
fn lexeme_len(text: &[u8]) -> usize
    requires { 0 < length text.now }
    ensures value { result ≡ spec.lexeme_len text.now }
    ensures some { 0 < result }
    ensures within { result ≤ length text.now }
{
    match text {
        [b, rest @ ..] if begins_word(*b) => span(Class::Word, rest) + 1,
        [b, rest @ ..] if begins_number(*b) => span(Class::Number, rest) + 1,
        [b'"', rest @ ..] => string_len(rest) + 1,
        [b'`', rest @ ..] => span(Class::Line, rest) + 1,
        [b'/', b'*', ..] => text.len(),
        _ => 1,
    }
}

/// Adds a lexeme to those found, with its first byte and the one behind its last. Fails where memory is refused.
fn add<'a>(
    found: &mut Vec<Lexeme<'a>>,
    text: &'a [u8],
    begin: usize,
    end: usize,
) -> Result<(), AllocError>
    ensures { OnOk result (map plain_lexeme found.new.items ≡ map plain_lexeme found.old.items ++ record { text = text.now; begin = begin; end = end } ∷ []) }
{
    found.push(Lexeme { text, begin, end })?;
    Ok(())
}

/// The lexemes of a text, without white space and comments.
pub fn lexemes<'a>(alloc: Global, source: &'a [u8]) -> Result<Vec<Lexeme<'a>>, AllocError>
    ensures { IfOk result (λ found. AreLexemes source.now 0 (map plain_lexeme found.items)) }
{
    let mut found = Vec::new(alloc);
    let mut left = behind_skipped(source);
    while !left.is_empty() {
        let (text, rest) = left.split_at(lexeme_len(left));
        let begin = source.len() - left.len();
        add(&mut found, text, begin, source.len() - rest.len())?;
        left = behind_skipped(rest);
    }
    Ok(found)
}
