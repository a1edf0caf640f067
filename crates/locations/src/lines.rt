//! Lines, and the columns that a text takes in a terminal.

ghost use Rattle.std.specs.Prelude.{◌≡◌, ◌≤◌, length, fold, chars};
ghost use Rattle.locations.specs.TextLines as spec;

use std::str;
use unicode_width::UnicodeWidthChar;

/// How many newlines a text has.
pub fn newlines(text: &[u8]) -> usize
    ensures value { result ≡ spec.newlines text.now }
    ensures within { result ≤ length text.now }
{
    let mut left = text;
    let mut n = 0;
    while let [b, rest @ ..] = left {
        n += usize::from(*b == b'\n');
        left = rest;
    }
    n
}

fn chosen<'a>(newline: bool, rest: &'a [u8], line: &'a [u8]) -> &'a [u8]
    ensures { result.now ≡ spec.line_so_far newline rest.now line.now }
{
    if newline { rest } else { line }
}

/// What stands behind the last newline of a text; all of it where there is none.
pub fn last_line(text: &[u8]) -> &[u8]
    ensures { result.now ≡ spec.last_line text.now }
{
    let mut left = text;
    let mut line = text;
    while let [b, rest @ ..] = left {
        line = chosen(*b == b'\n', rest, line);
        left = rest;
    }
    line
}

/// The columns that are taken behind a character. A tab goes to the next multiple of eight, and a control character takes one.
fn after_char(columns: usize, c: char) -> usize
    ensures { result ≡ spec.after_char columns c }
{
    if c == '\t' {
        (columns - columns % 8).saturating_add(8)
    } else {
        columns.saturating_add(c.width().unwrap_or(1))
    }
}

fn after_byte(columns: usize, b: u8) -> usize
    ensures { result ≡ spec.after_char columns b }
{
    after_char(columns, char::from(b))
}

fn char_columns(text: &str) -> usize
    ensures { result ≡ fold spec.after_char 0 (chars text.now) }
{
    text.chars().fold(0, after_char)
}

fn byte_columns(text: &[u8]) -> usize
    ensures { result ≡ fold spec.after_char 0 text.now }
{
    text.iter().copied().fold(0, after_byte)
}

/// The columns that a text takes from the beginning of a line on: by its characters where it is UTF-8, else each byte is a
/// character of its own.
pub fn columns(text: &[u8]) -> usize
    ensures { result ≡ spec.columns_of text.now }
{
    match str::from_utf8(text) {
        Ok(text) => char_columns(text),
        Err(_) => byte_columns(text),
    }
}
