//! The text of a string.

ghost use Rattle.std.specs.Prelude.{◌≡◌, ◌++◌, IfOk};
ghost use Rattle.tokens.specs.Lexing as lexing;

use std::alloc::{AllocError, Global};

/// The byte that one behind a `\` stands for: a newline, a tab, or itself.
fn escaped(b: u8) -> u8
    ensures { result ≡ lexing.unescaped b }
{
    if b == b'n' {
        return b'\n';
    }
    if b == b't' { b'\t' } else { b }
}

/// Adds what a byte of a string adds to its text, after a `\` or not.
fn show(found: &mut Vec<u8>, after: bool, b: u8) -> Result<(), AllocError>
    ensures { IfOk result (λ _. found.new.items ≡ found.old.items ++ lexing.string_byte_text after b) }
{
    if after {
        found.push(escaped(b))?;
        return Ok(());
    }
    if b == b'"' || b == b'\\' {
        return Ok(());
    }
    found.push(b)?;
    Ok(())
}

/// The text of a string, with its escapes replaced.
pub fn string_text(alloc: Global, text: &[u8]) -> Result<Vec<u8>, AllocError>
    ensures { IfOk result (λ found. found.items ≡ lexing.string_text text.now) }
{
    let mut found = Vec::new(alloc);
    let mut left = text;
    let mut after = false;
    while let [b, rest @ ..] = left {
        show(&mut found, after, *b)?;
        after = !after && *b == b'\\';
        left = rest;
    }
    Ok(found)
}
