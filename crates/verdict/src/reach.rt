//! The lines on how far in time a search came that met a limit, and on where most of its choices are.

ghost use Rattle.std.specs.Prelude.{◌≡◌, ◌++◌, OnOk, map};
ghost use Rattle.verdict.specs.OrderLines.{plain_printer};
ghost use Rattle.verdict.specs.ReachLines.{before_text, choices_text, followed_text, some_choices_text};

use crate::order::PrinterDescription;
use crate::parts::{LinePart, push_parts};
use crate::phrases::push_number;
use std::alloc::AllocError;

/// Puts the line on a time before which all orders were followed behind a text, and nothing where that is time 0.
pub fn push_followed(text: &mut Vec<u8>, time: u64) -> Result<(), AllocError>
    ensures { OnOk result (text.new.items ≡ text.old.items ++ followed_text time) }
{
    match time {
        0 => Ok(()),
        _ => push_before(text, time),
    }
}

/// Puts the line on a time before which all orders were followed behind a text.
fn push_before(text: &mut Vec<u8>, time: u64) -> Result<(), AllocError>
    ensures { OnOk result (text.new.items ≡ text.old.items ++ before_text time) }
{
    text.extend_from_slice(b"before time ")?;
    push_number(text, time)?;
    text.extend_from_slice(b" all orders were followed\n")
}

/// Puts the line on the time at which most choices are behind a text, with the processes that may come next there, and nothing where there
/// are none.
pub fn push_choices(
    text: &mut Vec<u8>,
    time: u64,
    processes: &[PrinterDescription<'_>],
) -> Result<(), AllocError>
    ensures { OnOk result (text.new.items ≡ text.old.items ++ choices_text time (map plain_printer processes.now)) }
{
    match processes.len() {
        0 => Ok(()),
        _ => push_some_choices(text, time, processes),
    }
}

/// Puts the line on the time at which most choices are behind a text, with the processes that may come next there.
fn push_some_choices(
    text: &mut Vec<u8>,
    time: u64,
    processes: &[PrinterDescription<'_>],
) -> Result<(), AllocError>
    ensures { OnOk result (text.new.items ≡ text.old.items ++ some_choices_text time (map plain_printer processes.now)) }
{
    push_parts(
        text,
        &[
            LinePart::Bytes(b"most choices at time "),
            LinePart::Number(time),
            LinePart::Bytes(b": processes "),
            LinePart::Printers(processes),
            LinePart::Bytes(b"\n"),
        ],
    )
}
