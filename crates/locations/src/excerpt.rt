//! A line of a source, as it is shown to people.

ghost use Rattle.std.specs.Prelude.{◌≡◌, ◌++◌, OnOk, chars, encode_utf8_all, false, flat_map, replicate, string_bytes, true};
ghost use Rattle.std.specs.Char.Escape.{escape_default};
ghost use Rattle.locations.specs.ShownText as spec;

use crate::lines::last_line;
use crate::location::before;
use std::alloc::{AllocError, Global};
use std::str;
use tokens::spans::{Class, span};
use unicode_width::UnicodeWidthChar;

/// The longest part of a line that is shown, in bytes.
const LONGEST: usize = 1000;

/// Puts the escape of a character behind a text.
fn push_escape(text: &mut String, c: char) -> Result<(), AllocError>
    ensures { OnOk result (string_bytes text.new ≡ string_bytes text.old ++ encode_utf8_all (escape_default c)) }
{
    for letter in c.escape_default() {
        text.push(letter)?;
    }
    Ok(())
}

/// Whether a character is shown by its escape: a control character, but no tab in a line of a source.
fn is_escaped(c: char, in_source: bool) -> bool
    ensures { result ≡ spec.is_escaped in_source c }
{
    c.is_control() && !(in_source && c == '\t')
}

/// Puts a character behind a text, as it is shown.
fn push_shown(text: &mut String, c: char, in_source: bool) -> Result<(), AllocError>
    ensures { OnOk result (string_bytes text.new ≡ string_bytes text.old ++ spec.shown_char in_source c) }
{
    if is_escaped(c, in_source) {
        push_escape(text, c)
    } else {
        text.push(c)
    }
}

/// Puts characters behind a text, as they are shown.
fn push_chars(text: &mut String, shown: &str, in_source: bool) -> Result<(), AllocError>
    ensures { OnOk result (string_bytes text.new ≡ string_bytes text.old ++ flat_map (spec.shown_char in_source) (chars shown.now)) }
{
    for c in shown.chars() {
        push_shown(text, c, in_source)?;
    }
    Ok(())
}

/// Puts bytes behind a text, each as a character of its own.
fn push_bytes(text: &mut String, bytes: &[u8], in_source: bool) -> Result<(), AllocError>
    ensures { OnOk result (string_bytes text.new ≡ string_bytes text.old ++ flat_map (spec.shown_char in_source) bytes.now) }
{
    for b in bytes {
        push_shown(text, char::from(*b), in_source)?;
    }
    Ok(())
}

/// Puts bytes behind a text: by their characters where they are UTF-8, else each byte as a character of its own.
fn push_part(text: &mut String, part: &[u8], in_source: bool) -> Result<(), AllocError>
    ensures { OnOk result (string_bytes text.new ≡ string_bytes text.old ++ spec.shown_bytes in_source part.now) }
{
    match str::from_utf8(part) {
        Ok(shown) => push_chars(text, shown, in_source),
        Err(_) => push_bytes(text, part, in_source),
    }
}

/// A line without the return at its end.
fn without_return(line: &[u8]) -> &[u8]
    ensures { result.now ≡ spec.without_return line.now }
{
    match line {
        [front @ .., b'\r'] => front,
        _ => line,
    }
}

/// The line of a source from a byte on.
fn rest_of_line(source: &[u8], byte: usize) -> &[u8]
    ensures { result.now ≡ spec.rest_of_line source.now byte }
{
    if byte > source.len() {
        return &[];
    }
    let rest = source.split_at(byte).1;
    without_return(rest.split_at(span(Class::Line, rest)).0)
}

/// Puts so many spaces behind a text.
fn push_spaces(text: &mut String, count: usize) -> Result<(), AllocError>
    ensures { OnOk result (string_bytes text.new ≡ string_bytes text.old ++ replicate count 32) }
{
    for _column in 0..count {
        text.push(' ')?;
    }
    Ok(())
}

/// Puts what stands below a character in the line of a caret, before it, behind a text: a tab as it is, and else a space for each
/// column.
fn push_blank(text: &mut String, c: char) -> Result<(), AllocError>
    ensures { OnOk result (string_bytes text.new ≡ string_bytes text.old ++ spec.blank_below c) }
{
    if c == '\t' {
        return text.push(c);
    }
    push_spaces(text, c.width().unwrap_or(0))
}

/// Puts what stands below characters behind a text.
fn push_blanks(text: &mut String, shown: &str) -> Result<(), AllocError>
    ensures { OnOk result (string_bytes text.new ≡ string_bytes text.old ++ flat_map spec.blank_below (chars shown.now)) }
{
    for c in shown.chars() {
        push_blank(text, c)?;
    }
    Ok(())
}

/// Puts a line behind a text, of which the front is shown so, and a caret below what stands behind the front.
fn push_lines(text: &mut String, front: &str, back: &[u8]) -> Result<(), AllocError>
    ensures { OnOk result (string_bytes text.new ≡ string_bytes text.old ++ spec.line_and_caret front.now (spec.shown_bytes true back.now)) }
{
    text.push_str(front)?;
    push_part(text, back, true)?;
    text.push_str("\n")?;
    push_blanks(text, front)?;
    text.push_str("^\n")
}

/// Puts a line behind a text, and a caret below where its second part begins. What is shown of the first one is gathered apart.
fn push_parts(
    text: &mut String,
    shown: &mut String,
    front: &[u8],
    back: &[u8],
) -> Result<(), AllocError>
    ensures { OnOk result (string_bytes text.new ≡ string_bytes text.old ++ spec.line_and_caret (string_bytes shown.old ++ spec.shown_bytes true front.now) (spec.shown_bytes true back.now)) }
{
    push_part(shown, front, true)?;
    push_lines(text, shown, back)
}

/// Puts the line of a byte behind a text, and a caret below the byte. A very long line isn't shown.
///
/// Fails where memory is refused: then a beginning of it stands there.
pub fn push_excerpt(
    alloc: Global,
    text: &mut String,
    source: &[u8],
    byte: usize,
) -> Result<(), AllocError>
    ensures { OnOk result (string_bytes text.new ≡ string_bytes text.old ++ spec.excerpt source.now byte) }
{
    let front = last_line(before(source, byte));
    let back = rest_of_line(source, byte);
    if front.len() > LONGEST || back.len() > LONGEST {
        return Ok(());
    }
    let mut shown = String::new(alloc);
    push_parts(text, &mut shown, front, back)
}

/// Puts a path behind a text, with control characters as escapes.
///
/// Fails where memory is refused: then a beginning of it stands there.
pub fn push_shown_path(text: &mut String, path: &str) -> Result<(), AllocError>
    ensures { OnOk result (string_bytes text.new ≡ string_bytes text.old ++ flat_map (spec.shown_char false) (chars path.now)) }
{
    push_chars(text, path, false)
}

/// Puts bytes behind a text, as characters where they are UTF-8, and else each as a character of its own, with control characters as
/// escapes.
///
/// Fails where memory is refused: then a beginning of it stands there.
pub fn push_shown_bytes(text: &mut String, bytes: &[u8]) -> Result<(), AllocError>
    ensures { OnOk result (string_bytes text.new ≡ string_bytes text.old ++ spec.shown_bytes false bytes.now) }
{
    push_part(text, bytes, false)
}
