//! The line on registers whose values differ where no line shows it.

ghost use Rattle.std.specs.Prelude.{◌≡◌, ◌++◌, OnOk};
ghost use Rattle.verdict.specs.OrderLines.{plain_printer};
ghost use Rattle.verdict.specs.UnseenLines.{differ_at_text, raced_pair_text, unseen_line_text};

use crate::order::PrinterDescription;
use crate::parts::{LinePart, push_parts};
use crate::phrases::push_number;
use std::alloc::AllocError;

/// Puts for what two processes race, when, and which two they are behind a text, as it stands before registers that differ by that.
pub fn push_raced_pair<'a>(
    text: &mut Vec<u8>,
    site: &'a [u8],
    time: u64,
    first: PrinterDescription<'a>,
    second: PrinterDescription<'a>,
) -> Result<(), AllocError>
    ensures { OnOk result (text.new.items ≡ text.old.items ++ raced_pair_text site.now time (plain_printer first.entry) (plain_printer second.entry)) }
{
    push_parts(
        text,
        &[
            LinePart::Bytes(site),
            LinePart::Bytes(b", time "),
            LinePart::Number(time),
            LinePart::Bytes(b", processes "),
            LinePart::Printer(first),
            LinePart::Bytes(b" and "),
            LinePart::Printer(second),
            LinePart::Bytes(b"; "),
        ],
    )
}

/// Puts the line on so many registers of these names, which differ when a time passes, behind a text, with this before the names.
pub fn push_unseen_line(
    text: &mut Vec<u8>,
    race: &[u8],
    names: &[u8],
    count: usize,
    time: u64,
) -> Result<(), AllocError>
    ensures { OnOk result (text.new.items ≡ text.old.items ++ unseen_line_text race.now names.now count time) }
{
    text.extend_from_slice(b"a race that no line shows: ")?;
    text.extend_from_slice(race)?;
    text.extend_from_slice(names)?;
    text.extend_from_slice(differ_at(count))?;
    push_number(text, time)?;
    text.extend_from_slice(b": not compared (--observe registers)\n")
}

/// That so many registers differ at a time, with a word for one.
fn differ_at(count: usize) -> &'static [u8]
    ensures { result.now ≡ differ_at_text count }
{
    match count {
        1 => b" differs at time ",
        _ => b" differ at time ",
    }
}
