//! The bytes of tokens.

ghost use Rattle.std.specs.Prelude.{◌≡◌, slice_get, IfOk};
ghost use Rattle.expression_syntax.specs.Texts as spec;

use lexemes::token::{FileSpan, SourceFile, VerilogToken};
use std::alloc::{AllocError, Global};

/// What stays the same while a text is read.
#[derive(Drop)]
pub struct TokenSource<'t> {
    pub alloc: Global,
    pub tokens: &'t [VerilogToken],
    pub files: &'t [SourceFile],
}

/// Bytes of a text, and none where the text has fewer.
fn part_of(text: &[u8], begin: usize, length: usize) -> &[u8]
    ensures { result.now ≡ spec.text_part text.now begin length }
{
    if begin <= text.len() && length <= text.len() - begin {
        &text[begin..begin + length]
    } else {
        &text[..0]
    }
}

/// The bytes of a span, and none where its file has fewer.
pub fn span_bytes(files: &[SourceFile], span: FileSpan) -> &[u8]
    ensures { result.now ≡ spec.span_bytes files.now span }
{
    match files.get(span.file as usize) {
        None => &[],
        Some(file) => part_of(
            file.text.as_slice(),
            span.begin as usize,
            span.length as usize,
        ),
    }
}

pub fn token_at(tokens: &[VerilogToken], token: usize) -> Option<VerilogToken>
    ensures { result ≡ slice_get tokens.now token }
{
    tokens.get(token).copied()
}

/// The bytes of the token with a number, and none where there is no such token.
pub fn token_bytes<'t>(source: &TokenSource<'t>, token: usize) -> &'t [u8]
    ensures { result.now ≡ spec.token_bytes source.now token }
{
    match token_at(source.tokens, token) {
        None => &[],
        Some(found) => span_bytes(source.files, found.span),
    }
}

/// A copy of the bytes of the token with a number. Fails where memory is refused.
pub fn token_copy(source: &TokenSource<'_>, token: usize) -> Result<Vec<u8>, AllocError>
    ensures { IfOk result (λ made. made.items ≡ spec.token_bytes source.now token) }
{
    copy_of(source.alloc, token_bytes(source, token))
}

/// A copy of bytes. Fails where memory is refused.
pub fn copy_of(alloc: Global, bytes: &[u8]) -> Result<Vec<u8>, AllocError>
    ensures { IfOk result (λ made. made.items ≡ bytes.now) }
{
    let mut made = Vec::new(alloc);
    made.extend_from_slice(bytes)?;
    Ok(made)
}

/// The name that a token spells: an escaped one without its `\` (3.7.1). Fails where memory is refused.
pub fn name_copy(source: &TokenSource<'_>, token: usize) -> Result<Vec<u8>, AllocError>
    ensures { IfOk result (λ made. made.items ≡ spec.name_spelled (spec.token_bytes source.now token)) }
{
    match token_bytes(source, token) {
        [b'\\', rest @ ..] => copy_of(source.alloc, rest),
        bytes => copy_of(source.alloc, bytes),
    }
}
