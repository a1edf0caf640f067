//! Full names.

ghost use Rattle.std.specs.Prelude.{◌≡◌, ◌∷◌, ◌++◌, string_bytes, IfOk, OnOk};
ghost use Rattle.std.specs.List.{list_all};
ghost use Rattle.scopes.specs.Names as spec;

use std::alloc::{AllocError, Global};

/// Whether a byte may begin a simple identifier (3.7).
fn is_letter(b: u8) -> bool
    ensures { result ≡ spec.may_begin_name b }
{
    (b >= b'a' && b <= b'z') || (b >= b'A' && b <= b'Z') || b == b'_'
}

/// Whether a byte may stand in a simple identifier behind its first.
fn is_word(b: u8) -> bool
    ensures { result ≡ spec.is_word b }
{
    is_letter(b) || (b >= b'0' && b <= b'9') || b == b'$'
}

/// Whether all bytes may stand in a simple identifier behind its first.
fn are_words(bytes: &[u8]) -> bool
    ensures { result ≡ list_all spec.is_word bytes.now }
{
    let mut left = bytes;
    while let [b, rest @ ..] = left {
        if !is_word(*b) {
            return false;
        }
        left = rest;
    }
    true
}

/// Whether a name is a simple identifier, and no escaped one (3.7.1).
pub fn is_simple(name: &[u8]) -> bool
    ensures { result ≡ spec.is_simple_identifier name.now }
{
    match name {
        [first, rest @ ..] => is_letter(*first) && are_words(rest),
        _ => false,
    }
}

/// Adds a name as it stands in full names: an escaped one with its `\` and a space behind it (3.7.1), so that full names stay
/// apart. Fails where memory is refused.
fn spell(text: &mut String, simple: bool, name: &str) -> Result<(), AllocError>
    requires { simple ≡ spec.is_simple_identifier name.now }
    ensures { OnOk result (string_bytes text.new ≡ string_bytes text.old ++ spec.spelled_name name.now) }
{
    if simple {
        return text.push_str(name);
    }
    text.push_str("\\")?;
    text.push_str(name)?;
    text.push_str(" ")
}

/// What stands behind the full name of a scope: a dot, and nothing behind that of the design.
fn dot_behind(path: &str) -> &str
    ensures { result.now ≡ spec.dot_behind path.now }
{
    match path.as_bytes() {
        [] => "",
        _ => ".",
    }
}

/// The full name of what a scope declares, by the scope's own. Fails where memory is refused.
pub fn full_name(alloc: Global, path: &str, name: &str) -> Result<String, AllocError>
    ensures { IfOk result (λ made. string_bytes made ≡ spec.full_name path.now name.now) }
{
    let mut made = String::from_str(alloc, path)?;
    made.push_str(dot_behind(path))?;
    spell(&mut made, is_simple(name.as_bytes()), name)?;
    Ok(made)
}
