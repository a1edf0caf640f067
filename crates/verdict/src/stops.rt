//! The lines on runs that stop short: by a turn that is too long, or where the time would pass the last one.

ghost use Rattle.std.specs.Prelude.{◌≡◌, ◌++◌, OnOk, option_map};
ghost use Rattle.verdict.specs.StopLines.{has_stops, long_turn_text, stop_cause_text, stop_description_text, stops_text};

use crate::parts::{LinePart, push_parts};
use crate::phrases::push_number;
use std::alloc::AllocError;

/// Why a run stops short: a turn of this process is too long, or the time would pass the last one.
#[derive(Clone, Copy)]
pub enum StopCause {
    LongTurn(u32),
    LastTime,
}

/// A text or a wave whose run stops short: its number, and why the entry with this number isn't taken.
#[derive(Clone, Copy)]
pub struct StopDescription {
    pub number: usize,
    pub entry: usize,
    pub cause: StopCause,
}

/// Whether there are any.
pub(crate) fn has_stops(stops: &[StopDescription]) -> bool
    ensures { result ≡ has_stops stops.now }
{
    match stops.split_first() {
        Some(_) => true,
        None => false,
    }
}

/// Puts the line on each of some texts or waves, as this word says, whose runs stop short behind a text.
pub(crate) fn push_stops(
    text: &mut Vec<u8>,
    word: &[u8],
    prefix: Option<&str>,
    stops: &[StopDescription],
) -> Result<(), AllocError>
    ensures { OnOk result (text.new.items ≡ text.old.items ++ stops_text word.now (option_map (λ path. path.now) prefix.entry) stops.now) }
{
    for place in 0..stops.len() {
        push_stop_description(text, word, prefix, stops[place])?;
    }
    Ok(())
}

/// Puts the line on a text or a wave whose run stops short behind a text.
fn push_stop_description<'a>(
    text: &mut Vec<u8>,
    word: &'a [u8],
    prefix: Option<&'a str>,
    stop: StopDescription,
) -> Result<(), AllocError>
    ensures { OnOk result (text.new.items ≡ text.old.items ++ stop_description_text word.now (option_map (λ path. path.now) prefix.entry) stop) }
{
    push_parts(
        text,
        &[
            LinePart::Bytes(word),
            LinePart::Number(stop.number as u64),
            LinePart::Journal(prefix, Some(stop.number)),
            LinePart::Bytes(b" stops short: entry "),
            LinePart::Number(stop.entry as u64),
        ],
    )?;
    push_stop_cause(text, stop.cause)
}

/// Puts behind a text why an entry isn't taken.
fn push_stop_cause(text: &mut Vec<u8>, cause: StopCause) -> Result<(), AllocError>
    ensures { OnOk result (text.new.items ≡ text.old.items ++ stop_cause_text cause) }
{
    match cause {
        StopCause::LongTurn(process) => push_long_turn(text, process),
        StopCause::LastTime => text.extend_from_slice(
            b" would advance the time past 281474976710656\n",
        ),
    }
}

/// Puts behind a text that an entry would be a turn of this process that is too long.
fn push_long_turn(text: &mut Vec<u8>, process: u32) -> Result<(), AllocError>
    ensures { OnOk result (text.new.items ≡ text.old.items ++ long_turn_text process) }
{
    text.extend_from_slice(b" would be a turn of process ")?;
    push_number(text, process as u64)?;
    text.extend_from_slice(b", which is too long\n")
}
