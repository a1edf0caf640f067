//! A diagnosis as text.

use crate::diagnose::Diagnosis;
use crate::kinds::ListedNote;
use elaborate::ElabFault;
use frontend::SourceFault;
use locations::{Location, location_of_byte, push_excerpt, push_shown_path};
use std::alloc::{AllocError, Global};
use std::fmt;
use vparse::ParseFault;

/// Where a message stands: in a file, and at which line and column, if that is known.
#[derive(Clone, Copy)]
struct Head<'a> {
    file: &'a str,
    location: Option<Location>,
}

impl fmt::Display for Head<'_> {
    fn fmt<W: fmt::Write>(&self, f: &mut fmt::Formatter<W>) -> fmt::Result {
        match self.location {
            Some(location) => write!(f, "{}:{}:{}", self.file, location.line, location.column),
            None => f.write_str(self.file),
        }
    }
}

/// Adds the notes, each with its location and its line of the source: as many as are shown, and how many more there are.
fn push_notes(
    alloc: Global,
    text: &mut String,
    file: &str,
    source: &[u8],
    notes: &[ListedNote],
) -> Result<(), AllocError> {
    for listed in notes {
        let byte = listed.note.begin;
        let location = Some(location_of_byte(source, byte));
        let head = Head { file, location };
        write!(text, "{head}: note: {listed}\n")?;
        push_excerpt(alloc, text, source, byte)?;
    }
    Ok(())
}

/// What more is said of a fault than its own words.
fn help(fault: &SourceFault) -> Option<&'static str> {
    match fault {
        SourceFault::Parse(fault) => match fault {
            ParseFault::Byte(_) => Some(
                "no token begins here, or a string or comment isn't finished",
            ),
            ParseFault::Syntax(_) => Some("this can't come next in a module"),
            ParseFault::Literal(_) => {
                Some(
                    "a literal is a size of 1 to 128, `'`, `b`, `h` or `d`, and digits that fit it",
                )
            }
            ParseFault::Deep(_) => {
                Some(
                    "at most 64 blocks, parentheses and braces may be open, and 64 operators in a statement",
                )
            }
            _ => None,
        },
        SourceFault::Elaborate(fault) => match fault {
            ElabFault::BadRange(_) => Some("a range is `[m:0]`, where m is at most 127"),
            ElabFault::BadFormat => Some("a format has one `%b`, `%h` or `%0d` for each argument"),
            ElabFault::BadIndex(_) => Some(
                "an index is below the width, and of a register with a range",
            ),
            _ => None,
        },
    }
}

/// Adds the fault with its location, its line of the source and what more is said of it, or that there is none.
fn push_fault(
    alloc: Global,
    text: &mut String,
    file: &str,
    source: &[u8],
    diagnosis: &Diagnosis,
) -> Result<(), AllocError> {
    let Some(fault) = &diagnosis.fault else {
        return write!(text, "{file}: no fault\n");
    };
    let location = diagnosis.location;
    let head = Head { file, location };
    write!(text, "{head}: {fault}\n")?;
    if let Some(location) = location {
        push_excerpt(alloc, text, source, location.byte)?;
    }
    match help(fault) {
        Some(help) => write!(text, "{head}: note: {help}\n"),
        None => Ok(()),
    }
}

/// The text of a diagnosis of this source: for each note, and then for the fault, a line of path, line, column and message, the
/// line of the source, and a caret; behind the fault a line with more on it, where there is more to say. A note that stands for
/// several says for how many. Where there is no fault, that is the text. Control characters of path and source are shown as escapes.
pub fn render(
    alloc: Global,
    path: &str,
    source: &[u8],
    diagnosis: &Diagnosis,
) -> Result<String, AllocError> {
    let mut file = String::new(alloc);
    push_shown_path(&mut file, path)?;
    let mut text = String::new(alloc);
    push_notes(alloc, &mut text, &file, source, &diagnosis.notes)?;
    push_fault(alloc, &mut text, &file, source, diagnosis)?;
    Ok(text)
}
