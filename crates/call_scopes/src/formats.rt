//! The names of scopes that formats show (17.1.1.6).

ghost use Rattle.std.specs.Prelude.{◌≡◌, ◌++◌, true, IfOk, OnOk};
ghost use Rattle.call_scopes.specs.Formats as spec;

use crate::copied::{CallScopes, CopiedScope};
use scopes::scope::copied;
use std::alloc::{AllocError, Global};

/// The scope of which one is a copy, if it is a copy.
fn original(copies: &[CopiedScope], scope: usize) -> Option<usize> {
    for found in copies {
        if found.copy == scope {
            return Some(found.of);
        }
    }
    None
}

/// Adds a byte of a name to a format, which shows it as it is.
fn push_name_byte(found: &mut Vec<u8>, byte: u8) -> Result<(), AllocError>
    ensures { OnOk result (found.new.items ≡ found.old.items ++ spec.byte_as_format byte) }
{
    if byte == b'%' {
        return found.extend_from_slice(b"%%");
    }
    found.push(byte)?;
    Ok(())
}

/// Adds a name to a format, which shows it as it is.
fn push_path(found: &mut Vec<u8>, path: &[u8]) -> Result<(), AllocError>
    ensures { OnOk result (found.new.items ≡ found.old.items ++ spec.as_format path.now) }
{
    for byte in path {
        push_name_byte(found, *byte)?;
    }
    Ok(())
}

/// Whether a byte stands for a name behind a `%`.
fn is_path_letter(byte: u8) -> bool
    ensures { result ≡ spec.is_path_letter byte }
{
    byte == b'm' || byte == b'M'
}

/// Adds what a byte of a format stands for that a `%` stands before.
fn push_letter(found: &mut Vec<u8>, path: &[u8], byte: u8) -> Result<(), AllocError>
    ensures { OnOk result (found.new.items ≡ found.old.items ++ spec.byte_shown path.now true byte) }
{
    if is_path_letter(byte) {
        return push_path(found, path);
    }
    found.extend_from_slice(&[b'%', byte])
}

/// Adds what a byte of a format stands for, by whether a `%` stands before it that begins something.
fn push_byte(found: &mut Vec<u8>, path: &[u8], begun: bool, byte: u8) -> Result<(), AllocError>
    ensures { OnOk result (found.new.items ≡ found.old.items ++ spec.byte_shown path.now begun byte) }
{
    if begun {
        return push_letter(found, path, byte);
    }
    if byte == b'%' {
        return Ok(());
    }
    found.push(byte)?;
    Ok(())
}

/// Whether a byte of a format begins something.
fn begins(begun: bool, byte: u8) -> bool
    ensures { result ≡ spec.begins_letter begun byte }
{
    if begun {
        return false;
    }
    byte == b'%'
}

/// A format with a name in the place of each `%m`. Fails where memory is refused.
pub fn with_path(alloc: Global, format: &[u8], path: &[u8]) -> Result<Vec<u8>, AllocError>
    ensures { IfOk result (λ made. made.items ≡ spec.format_with_path path.now format.now) }
{
    let mut found = Vec::new(alloc);
    let mut begun = false;
    for byte in format {
        push_byte(&mut found, path, begun, *byte)?;
        begun = begins(begun, *byte);
    }
    if begun {
        found.push(b'%')?;
        return Ok(found);
    }
    Ok(found)
}

impl CallScopes {
    /// A format as it is shown in a scope: in a copy of one `%m` shows the name of that.
    pub fn format_in(&self, scope: usize, format: &[u8]) -> Result<Vec<u8>, AllocError> {
        match original(self.copies.as_slice(), scope) {
            Some(of) => with_path(self.alloc, format, self.design.tree.path(of).as_bytes()),
            None => copied(self.alloc, format),
        }
    }
}
