//! The line on processes whose lines come in another order in another run.

ghost use Rattle.std.specs.Prelude.{◌≡◌, ◌++◌, OnOk, map, option_map};
ghost use Rattle.verdict.specs.OrderLines.{beginning_text, in_parentheses, later_printers_text, line_order_text, plain_printer, printer_text, printers_text, separator_text};

use crate::parts::{LinePart, push_parts};
use crate::phrases::push_number;
use std::alloc::AllocError;

/// A process that prints lines: its number, and where it begins, in words, if that is known.
#[derive(Clone, Copy)]
pub struct PrinterDescription<'a> {
    pub number: u32,
    pub at: Option<&'a str>,
}

/// Processes whose lines come in another order in another run: at which time, where journals are saved, and the number of that run's
/// journal, where that is saved.
#[derive(Clone, Copy)]
pub struct LineOrderDescription<'a> {
    pub time: u64,
    pub printers: &'a [PrinterDescription<'a>],
    pub prefix: Option<&'a str>,
    pub journal: Option<usize>,
}

/// Puts the line on processes whose lines come in another order in another run behind a text.
pub fn push_line_order(
    text: &mut Vec<u8>,
    order: &LineOrderDescription<'_>,
) -> Result<(), AllocError>
    ensures { OnOk result (text.new.items ≡ text.old.items ++ line_order_text order.entry.now.time (map plain_printer order.entry.now.printers.now) (option_map (λ path. path.now) order.entry.now.prefix) order.entry.now.journal) }
{
    push_parts(
        text,
        &[
            LinePart::Bytes(b"at time "),
            LinePart::Number(order.time),
            LinePart::Bytes(b" the lines of processes "),
            LinePart::Printers(order.printers),
            LinePart::Bytes(b" come in another order in another run"),
            LinePart::Journal(order.prefix, order.journal),
            LinePart::Bytes(b"\n"),
        ],
    )
}

/// Puts processes behind a text, with a comma between two of them and a word before the last.
pub(crate) fn push_printers(
    text: &mut Vec<u8>,
    printers: &[PrinterDescription<'_>],
) -> Result<(), AllocError>
    ensures { OnOk result (text.new.items ≡ text.old.items ++ printers_text (map plain_printer printers.now)) }
{
    match printers.split_first() {
        Some((first, others)) => push_first(text, *first, others),
        None => Ok(()),
    }
}

/// Puts a process and others behind a text.
fn push_first(
    text: &mut Vec<u8>,
    first: PrinterDescription<'_>,
    others: &[PrinterDescription<'_>],
) -> Result<(), AllocError>
    ensures { OnOk result (text.new.items ≡ text.old.items ++ (printer_text (plain_printer first.entry) ++ later_printers_text (map plain_printer others.now))) }
{
    push_printer(text, first)?;
    push_others(text, others)
}

/// Puts processes that follow another one behind a text.
fn push_others(text: &mut Vec<u8>, others: &[PrinterDescription<'_>]) -> Result<(), AllocError>
    ensures { OnOk result (text.new.items ≡ text.old.items ++ later_printers_text (map plain_printer others.now)) }
{
    for place in 0..others.len() {
        push_next(text, others[place], others.len() - place - 1)?;
    }
    Ok(())
}

/// Puts a process that follows another one, and behind which so many come, behind a text.
fn push_next(
    text: &mut Vec<u8>,
    printer: PrinterDescription<'_>,
    left: usize,
) -> Result<(), AllocError>
    ensures { OnOk result (text.new.items ≡ text.old.items ++ (separator_text left ++ printer_text (plain_printer printer.entry))) }
{
    text.extend_from_slice(separator(left))?;
    push_printer(text, printer)
}

/// What stands before a process that follows another one, and behind which so many come.
fn separator(left: usize) -> &'static [u8]
    ensures { result.now ≡ separator_text left }
{
    match left {
        0 => b" and ",
        _ => b", ",
    }
}

/// Puts a process behind a text, with where it begins, if that is known.
pub(crate) fn push_printer(
    text: &mut Vec<u8>,
    printer: PrinterDescription<'_>,
) -> Result<(), AllocError>
    ensures { OnOk result (text.new.items ≡ text.old.items ++ printer_text (plain_printer printer.entry)) }
{
    push_number(text, u64::from(printer.number))?;
    push_beginning(text, printer.at)
}

/// Puts where a process begins behind a text, in parentheses, or nothing where it isn't known.
fn push_beginning(text: &mut Vec<u8>, at: Option<&str>) -> Result<(), AllocError>
    ensures { OnOk result (text.new.items ≡ text.old.items ++ beginning_text (option_map (λ words. words.now) at.entry)) }
{
    match at {
        Some(at) => push_in_parentheses(text, at),
        None => Ok(()),
    }
}

/// Puts words behind a text, in parentheses.
fn push_in_parentheses(text: &mut Vec<u8>, words: &str) -> Result<(), AllocError>
    ensures { OnOk result (text.new.items ≡ text.old.items ++ in_parentheses words.now) }
{
    text.extend_from_slice(b" (")?;
    text.extend_from_slice(words.as_bytes())?;
    text.extend_from_slice(b")")
}
