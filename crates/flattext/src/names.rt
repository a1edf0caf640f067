//! Names.

ghost use Rattle.std.specs.Prelude.{◌≡◌, ◌++◌, OnOk, codes};
ghost use Rattle.flattext.specs.Names.{may_stand_escaped, graphic_text, graphic_texts, is_reserved, is_simple, name_text};

use crate::phrases::push_octal;
use lexemes::spans::{ByteClass, all_bytes, begins_name};
use lexemes::words::keyword;
use std::alloc::AllocError;

/// Whether a text is a reserved word.
#[tactic(auto, unfolding(crate::specs::Names::is_reserved))]
fn is_reserved(text: &[u8]) -> bool
    ensures { result ≡ is_reserved text.now }
{
    keyword(text).is_some()
}

/// Whether a name stands as it is: it has letters, digits, `_` and `$`, begins with a letter or `_`, and is no reserved word (3.7).
#[tactic(auto, unfolding(crate::specs::Names::is_simple))]
fn is_simple(name: &[u8]) -> bool
    ensures { result ≡ is_simple name.now }
{
    match name {
        [first, others @ ..] => begins_name(*first)
            && all_bytes(ByteClass::Word, others)
            && !is_reserved(name),
        [] => false,
    }
}

// Whether a byte may stand in an escaped name as it is: it is printed, and no space, which would end the name. A `\` stands before
// the digits of the others, and not by itself.
fn is_graphic(byte: u8) -> bool
    ensures { result ≡ may_stand_escaped byte }
{
    byte > b' ' && byte <= b'~' && byte != b'\\'
}

// Puts a byte of an escaped name behind a text.
fn push_name_byte(text: &mut Vec<u8>, byte: u8) -> Result<(), AllocError>
    ensures { OnOk result (text.new.items ≡ text.old.items ++ graphic_text byte) }
{
    if is_graphic(byte) {
        text.extend_from_slice(&[byte])
    } else {
        push_octal(text, byte)
    }
}

// Puts the bytes of an escaped name behind a text.
fn push_name_bytes(text: &mut Vec<u8>, bytes: &[u8]) -> Result<(), AllocError>
    ensures { OnOk result (text.new.items ≡ text.old.items ++ graphic_texts bytes.now) }
{
    for byte in bytes {
        push_name_byte(text, *byte)?;
    }
    Ok(())
}

// Puts a name behind a text, escaped: behind a `\`, and with the space that ends it (3.7.1).
fn push_escaped(text: &mut Vec<u8>, name: &[u8]) -> Result<(), AllocError>
    ensures { OnOk result (text.new.items ≡ text.old.items ++ (codes "\\" ++ (graphic_texts name.now ++ codes " "))) }
{
    text.extend_from_slice(b"\\")?;
    push_name_bytes(text, name)?;
    text.extend_from_slice(b" ")
}

/// Puts a name behind a text, as it is or escaped.
#[tactic(auto, unfolding(crate::specs::Names::name_text))]
pub(crate) fn push_name(text: &mut Vec<u8>, name: &str) -> Result<(), AllocError>
    ensures { OnOk result (text.new.items ≡ text.old.items ++ name_text name.now) }
{
    let bytes = name.as_bytes();
    if is_simple(bytes) {
        text.extend_from_slice(bytes)
    } else {
        push_escaped(text, bytes)
    }
}
