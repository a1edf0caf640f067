//! Lines and columns, for people.

ghost use Rattle.std.specs.Prelude.{◌≡◌, ◌≤◌, Some, None, if◌then◌else◌, length};
ghost use Rattle.source_texts.specs.Lines as spec;

use crate::settings::LineMark;
use crate::texts::{part, text_at, text_of};
use lexemes::token::{FileSpan, SourceFile};

/// Where a span begins, for people.
#[derive(Clone, Copy)]
pub struct FilePlace<'a> {
    /// The name of the file, as `` `line`` directives have it.
    pub file: &'a [u8],
    /// The number of the line, from 1, as `` `line`` directives have it.
    pub line: u64,
    /// The number of the byte in its line, from 1.
    pub column: u64,
}

/// How many newlines a text has.
fn newlines(text: &[u8]) -> usize
    ensures value { result ≡ spec.newlines_in text.now }
    ensures within { result ≤ length text.now }
{
    let mut left = text;
    let mut count = 0;
    while let [b, rest @ ..] = left {
        count += usize::from(*b == b'\n');
        left = rest;
    }
    count
}

/// How many bytes stand behind the last newline with one more.
fn count_behind(count: u64, b: u8) -> u64
    ensures { result ≡ spec.count_behind count b }
{
    if b == b'\n' {
        0
    } else {
        count.saturating_add(1)
    }
}

/// How many bytes stand behind the last newline of a text.
fn behind_last_newline(text: &[u8]) -> u64
    ensures { result ≡ spec.bytes_behind 0 text.now }
{
    let mut left = text;
    let mut count = 0;
    while let [b, rest @ ..] = left {
        count = count_behind(count, *b);
        left = rest;
    }
    count
}

/// Whether a `` `line`` directive stands in the file of a span, and not behind it.
fn is_mark_of(span: FileSpan, mark: LineMark) -> bool
    ensures { result ≡ spec.is_mark_of span mark }
{
    mark.place.file == span.file && mark.place.begin <= span.begin
}

/// A directive where it is the one that is looked for, and else another one.
fn later_mark(is_later: bool, mark: LineMark, found: Option<LineMark>) -> Option<LineMark>
    ensures { result ≡ (if is_later then Some mark else found) }
{
    if is_later { Some(mark) } else { found }
}

/// The last `` `line`` directive of a span's file that stands before it.
fn mark_before(lines: &[LineMark], span: FileSpan) -> Option<LineMark>
    ensures { result ≡ spec.last_mark span None lines.now }
{
    let mut found = None;
    for mark in lines {
        found = later_mark(is_mark_of(span, *mark), *mark, found);
    }
    found
}

/// What stands between quotes.
pub fn unquoted(text: &[u8]) -> &[u8]
    ensures { result.now ≡ spec.between_quotes text.now }
{
    match text {
        [_, inside @ .., _] => inside,
        _ => text,
    }
}

/// The name of a file; nothing where there is no file of that number.
fn name_of(files: &[SourceFile], number: u32) -> &[u8]
    ensures { result.now ≡ spec.file_name files.now number }
{
    let number = number as usize;
    if number >= files.len() {
        return &[];
    }
    files[number].name.as_bytes()
}

/// The number of the line behind a text.
fn line_behind(before: &[u8]) -> u64
    ensures { result ≡ spec.line_behind before.now }
{
    (newlines(before) as u64).saturating_add(1)
}

/// The text of a span's file before a byte.
fn text_before(files: &[SourceFile], file: u32, byte: u32) -> &[u8]
    ensures { result.now ≡ spec.text_before files.now file byte }
{
    part(text_at(files, file), 0, byte as usize)
}

/// The number of the line in which a span begins, by the directive before it.
fn marked_line(files: &[SourceFile], span: FileSpan, mark: LineMark) -> u64
    ensures { result ≡ spec.marked_line files.now span mark }
{
    let line = line_behind(text_before(files, span.file, span.begin));
    let marked = newlines(text_before(files, span.file, mark.place.begin)) as u64;
    let behind = line.saturating_sub(marked.saturating_add(2));
    mark.line.saturating_add(behind)
}

/// The name of the file in which a span begins, by the directive before it, if there is one.
fn file_by(files: &[SourceFile], span: FileSpan, mark: Option<LineMark>) -> &[u8]
    ensures { result.now ≡ spec.file_by files.now span mark }
{
    match mark {
        Some(mark) => unquoted(text_of(files, mark.name)),
        None => name_of(files, span.file),
    }
}

/// The number of the line in which a span begins, by the directive before it, if there is one.
fn line_by(files: &[SourceFile], span: FileSpan, mark: Option<LineMark>) -> u64
    ensures { result ≡ spec.line_by files.now span mark }
{
    match mark {
        Some(mark) => marked_line(files, span, mark),
        None => line_behind(text_before(files, span.file, span.begin)),
    }
}

/// Where a span begins: its file, line and column, with `` `line`` directives counted (19.7).
pub fn place_of<'a>(files: &'a [SourceFile], lines: &[LineMark], span: FileSpan) -> FilePlace<'a>
    ensures file { result.file.now ≡ (spec.told_place files.entry.now lines.now span).file }
    ensures line { result.line ≡ (spec.told_place files.entry.now lines.now span).line }
    ensures column { result.column ≡ (spec.told_place files.entry.now lines.now span).column }
{
    let mark = mark_before(lines, span);
    let before = text_before(files, span.file, span.begin);
    FilePlace {
        file: file_by(files, span, mark),
        line: line_by(files, span, mark),
        column: behind_last_newline(before).saturating_add(1),
    }
}
