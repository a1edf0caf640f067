//! The text of a string (3.6).

ghost use Rattle.std.specs.Prelude.{◌≡◌, ◌≤◌, ◌++◌, IfOk};
ghost use Rattle.expression_syntax.specs.Spelling as spec;

use std::alloc::{AllocError, Global};

/// What stands before a byte of a string.
#[derive(Clone, Copy)]
enum Escape {
    Plain,
    /// A `\`.
    Begun,
    /// A `\` and octal digits: the byte that they tell so far, and how many they are.
    Octal { value: u8, count: u8 },
}

fn is_octal(b: u8) -> bool
    ensures { result ≡ spec.is_octal b }
{
    b >= b'0' && b <= b'7'
}

/// The byte that one behind a `\` stands for: a newline, a tab, or itself.
fn unescaped(b: u8) -> u8
    ensures { result ≡ spec.unescaped_byte b }
{
    if b == b'n' {
        return b'\n';
    }
    if b == b't' { b'\t' } else { b }
}

/// Adds a byte that no `\` stands before.
fn add_plain(found: &mut Vec<u8>, b: u8) -> Result<Escape, AllocError>
    ensures { IfOk result (λ e. (e ≡ (spec.plain_step b).0) × (found.new.items ≡ found.old.items ++ (spec.plain_step b).1)) }
{
    if b == b'\\' {
        return Ok(Escape::Begun);
    }
    if b == b'"' {
        return Ok(Escape::Plain);
    }
    found.push(b)?;
    Ok(Escape::Plain)
}

/// Adds a byte behind a `\`.
fn add_begun(found: &mut Vec<u8>, b: u8) -> Result<Escape, AllocError>
    ensures { IfOk result (λ e. (e ≡ (spec.begun_step b).0) × (found.new.items ≡ found.old.items ++ (spec.begun_step b).1)) }
{
    if is_octal(b) {
        return Ok(Escape::Octal {
            value: b - b'0',
            count: 1,
        });
    }
    found.push(unescaped(b))?;
    Ok(Escape::Plain)
}

/// Adds a byte behind octal digits.
fn add_octal(found: &mut Vec<u8>, value: u8, count: u8, b: u8) -> Result<Escape, AllocError>
    ensures { IfOk result (λ e. (e ≡ (spec.octal_step value count b).0) × (found.new.items ≡ found.old.items ++ (spec.octal_step value count b).1)) }
{
    if is_octal(b) && count < 3 {
        return Ok(Escape::Octal {
            value: ((u32::from(value) * 8 + u32::from(b - b'0')) % 256) as u8,
            count: count + 1,
        });
    }
    found.push(value)?;
    add_plain(found, b)
}

/// Adds a byte of a string, by what stands before it.
fn add_byte(found: &mut Vec<u8>, before: Escape, b: u8) -> Result<Escape, AllocError>
    ensures { IfOk result (λ e. (e ≡ (spec.string_step before b).0) × (found.new.items ≡ found.old.items ++ (spec.string_step before b).1)) }
{
    match before {
        Escape::Plain => add_plain(found, b),
        Escape::Begun => add_begun(found, b),
        Escape::Octal { value, count } => add_octal(found, value, count, b),
    }
}

/// The text of a string with its quotes. Fails where memory is refused.
pub fn string_text(alloc: Global, text: &[u8]) -> Result<Vec<u8>, AllocError>
    ensures { IfOk result (λ found. found.items ≡ spec.unquoted_text text.now) }
{
    let mut found = Vec::new(alloc);
    let mut left = text;
    let mut before = Escape::Plain;
    while let [b, rest @ ..] = left {
        before = add_byte(&mut found, before, *b)?;
        left = rest;
    }
    Ok(found)
}
