//! The bytes of a span.

ghost use Rattle.std.specs.Prelude.{◌≡◌, [], take, drop, get_or};
ghost use Rattle.source_texts.specs.Texts.{bytes_in_span, file_texts};

use lexemes::token::{FileSpan, SourceFile};

/// The bytes of a text from a place on, so many of them as there are, and at most `length`.
pub fn part(text: &[u8], begin: usize, length: usize) -> &[u8]
    ensures { result.now ≡ take length (drop begin text.now) }
{
    if begin > text.len() {
        return &[];
    }
    let (_, behind) = text.split_at(begin);
    if length > behind.len() {
        return behind;
    }
    behind.split_at(length).0
}

/// The bytes of a span. They are its `length` where the span stands in one of the files.
pub fn text_of(files: &[SourceFile], span: FileSpan) -> &[u8]
    ensures { result.now ≡ bytes_in_span (file_texts files.now) span }
{
    part(
        text_at(files, span.file),
        span.begin as usize,
        span.length as usize,
    )
}

/// The text of a file; no bytes where there is no file of that number.
pub fn text_at(files: &[SourceFile], number: u32) -> &[u8]
    ensures { result.now ≡ get_or (file_texts files.now) number [] }
{
    let number = number as usize;
    if number >= files.len() {
        return &[];
    }
    &files[number].text
}
