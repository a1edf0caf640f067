//! Lines, part by part.

ghost use Rattle.std.specs.Prelude.{◌≡◌, ◌++◌, OnOk};
ghost use Rattle.verdict.specs.LineParts.{line_part_text, line_parts_text};

use crate::order::{PrinterDescription, push_printer, push_printers};
use crate::phrases::{push_number, push_up_to};
use crate::race::push_journal;
use std::alloc::AllocError;

/// A part of a line.
#[derive(Clone, Copy)]
pub(crate) enum LinePart<'a> {
    /// These bytes.
    Bytes(&'a [u8]),
    /// A number, by its decimal digits alone.
    Number(u64),
    /// Up to which time.
    UpTo(Option<u64>),
    /// A process, with where it begins, if that is known.
    Printer(PrinterDescription<'a>),
    /// Processes, with a comma between two of them and a word before the last.
    Printers(&'a [PrinterDescription<'a>]),
    /// The path of a journal, in parentheses, or nothing where it isn't saved.
    Journal(Option<&'a str>, Option<usize>),
}

/// Puts parts behind a text, one after another.
pub(crate) fn push_parts(text: &mut Vec<u8>, parts: &[LinePart<'_>]) -> Result<(), AllocError>
    ensures { OnOk result (text.new.items ≡ text.old.items ++ line_parts_text parts.now) }
{
    for part in parts {
        push_part(text, *part)?;
    }
    Ok(())
}

/// Puts a part behind a text.
fn push_part(text: &mut Vec<u8>, part: LinePart<'_>) -> Result<(), AllocError>
    ensures { OnOk result (text.new.items ≡ text.old.items ++ line_part_text part.entry) }
{
    match part {
        LinePart::Bytes(bytes) => text.extend_from_slice(bytes),
        LinePart::Number(number) => push_number(text, number),
        LinePart::UpTo(until) => push_up_to(text, until),
        LinePart::Printer(printer) => push_printer(text, printer),
        LinePart::Printers(printers) => push_printers(text, printers),
        LinePart::Journal(prefix, journal) => push_journal(text, prefix, journal),
    }
}
