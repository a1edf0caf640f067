//! The lines of files, of which many are told.

use lexemes::token::{FileSpan, SourceFile};
use source_texts::places::unquoted;
use source_texts::settings::LineMark;
use source_texts::texts::text_of;
use std::alloc::{AllocError, Global};

/// A file of the index: the places of its newlines, and the `` `line`` directives in it, each in rising order.
#[derive(Drop)]
struct IndexedFile {
    newlines: Vec<u32>,
    marks: Vec<LineMark>,
}

/// The lines of files.
#[derive(Drop)]
pub(crate) struct LineIndex<'f> {
    files: &'f [SourceFile],
    indexed: Vec<IndexedFile>,
}

/// A line of a file, as `` `line`` directives have it (19.7).
#[derive(Clone, Copy)]
pub(crate) struct FileLine<'f> {
    pub(crate) file: &'f [u8],
    pub(crate) line: u64,
}

/// The places of the newlines of a text.
fn newlines_of(alloc: Global, text: &[u8]) -> Result<Vec<u32>, AllocError> {
    let mut found = Vec::new(alloc);
    let mut place: u32 = 0;
    for byte in text {
        if *byte == b'\n' {
            found.push(place)?;
        }
        place = place.saturating_add(1);
    }
    Ok(found)
}

impl IndexedFile {
    /// How many newlines stand before a byte.
    fn newlines_before(&self, byte: u32) -> u64 {
        self.newlines.partition_point(|place| *place < byte) as u64
    }

    /// The last directive that doesn't stand behind a byte.
    fn mark_before(&self, byte: u32) -> Option<&LineMark> {
        let count = self.marks.partition_point(|mark| mark.place.begin <= byte);
        self.marks.get(count.checked_sub(1)?)
    }
}

impl<'f> LineIndex<'f> {
    /// The index of files.
    pub(crate) fn new(
        alloc: Global,
        files: &'f [SourceFile],
        lines: &[LineMark],
    ) -> Result<LineIndex<'f>, AllocError> {
        let mut indexed = Vec::new(alloc);
        for file in files {
            indexed.push(IndexedFile {
                newlines: newlines_of(alloc, file.text.as_slice())?,
                marks: Vec::new(alloc),
            })?;
        }
        for mark in lines {
            if let Some(file) = indexed.get_mut(mark.place.file as usize) {
                file.marks.push(*mark)?;
            }
        }
        Ok(LineIndex { files, indexed })
    }

    /// The line in which a span begins; none where there is no such file.
    pub(crate) fn line_of(&self, span: FileSpan) -> Option<FileLine<'f>> {
        let indexed = self.indexed.get(span.file as usize)?;
        let file = self.files.get(span.file as usize)?;
        let before = indexed.newlines_before(span.begin);
        let Some(mark) = indexed.mark_before(span.begin) else {
            return Some(FileLine {
                file: file.name.as_bytes(),
                line: before.saturating_add(1),
            });
        };
        let marked = indexed.newlines_before(mark.place.begin);
        let behind = before.saturating_sub(marked.saturating_add(1));
        Some(FileLine {
            file: unquoted(text_of(self.files, mark.name)),
            line: mark.line.saturating_add(behind),
        })
    }
}
