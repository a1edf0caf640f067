//! Where a byte, a token or a process stands in a source.

ghost use Rattle.std.specs.Prelude.{◌≡◌, ◌++◌, take, map, length, codes, decimal, string_bytes, IfOk, IfErr, OnOk};
ghost use Rattle.locations.specs.PlainSpots.{plain_spot};
ghost use Rattle.locations.specs.SourceLocations.{location_of, byte_of, is_always, is_process, plain_process, process_in, AreProcesses, IsTokenLocation};
ghost use Rattle.locations.specs.Spots.{IsUncut};

use crate::lines::{columns, last_line, newlines};
use crate::spot::{Spot, spots};
use std::alloc::{AllocError, Global};
use tokens::cut::CutFault;
use tokens::token::Kind;

/// A location in a source. `line` and `column` are counted from 1, `byte` from 0. A column is one of a terminal: a tab goes to
/// the next multiple of eight columns, and a character may be two columns wide.
#[derive(Clone, Copy)]
pub struct Location {
    pub line: usize,
    pub column: usize,
    pub byte: usize,
}

/// A process: whether it begins with `always` or with `initial`, and where that word stands, in words: `line 17` in a source, and
/// `fifo.v:17 in tb.dut` in a whole design.
#[derive(Drop)]
pub struct ProcessLocation {
    pub always: bool,
    pub at: String,
}

/// The bytes before this one; all where there are no more.
pub fn before(source: &[u8], byte: usize) -> &[u8]
    ensures { result.now ≡ take byte source.now }
{
    if byte <= source.len() {
        source.split_at(byte).0
    } else {
        source
    }
}

/// The location of a byte, counted from 0.
pub fn location_of_byte(source: &[u8], byte: usize) -> Location
    ensures { result ≡ location_of source.now byte }
{
    let before = before(source, byte);
    Location {
        line: newlines(before).saturating_add(1),
        column: columns(last_line(before)).saturating_add(1),
        byte,
    }
}

/// The byte at which the token of this number begins, counted from 1. What comes behind the last token is the end.
fn byte_of(spots: &[Spot<'_>], end: usize, number: usize) -> usize
    ensures { result ≡ byte_of (map plain_spot spots.now) end number }
{
    let mut left = spots;
    let mut number = number;
    while let [spot, rest @ ..] = left {
        if number <= 1 {
            return spot.byte;
        }
        number -= 1;
        left = rest;
    }
    end
}

/// The location of the token of this number, counted from 1 as faults count it. The end of the source counts as its last token,
/// and stands for every number behind it.
///
/// # Errors
///
/// Why the source isn't cut into tokens.
pub fn location_of_token(alloc: Global, source: &[u8], number: usize) -> Result<Location, CutFault>
    ensures { IfOk result (λ location. IsTokenLocation source.now number location) }
{
    let spots = spots(alloc, source)?;
    let byte = byte_of(&spots, source.len(), number);
    Ok(location_of_byte(source, byte))
}

/// Whether a token begins a process.
pub fn is_process(kind: Kind) -> bool
    ensures { result ≡ is_process kind }
{
    match kind {
        Kind::Initial | Kind::Always => true,
        _ => false,
    }
}

/// Whether a token of this kind begins an always construct.
fn is_always(kind: Kind) -> bool
    ensures { result ≡ is_always kind }
{
    match kind {
        Kind::Always => true,
        _ => false,
    }
}

/// Where the line of a number stands, in words. Fails where memory is refused.
fn line_words(alloc: Global, line: usize) -> Result<String, AllocError>
    ensures { IfOk result (λ words. string_bytes words ≡ codes "line " ++ decimal line) }
{
    format!(in alloc; "line {line}")
}

/// Adds the process that a token begins to those found, where it begins one. Fails where memory is refused.
fn add_process(
    alloc: Global,
    found: &mut Vec<ProcessLocation>,
    source: &[u8],
    spot: &Spot<'_>,
) -> Result<(), AllocError>
    ensures { OnOk result (map plain_process found.new.items ≡ map plain_process found.old.items ++ process_in source.now (plain_spot spot.now)) }
{
    if is_process(spot.token.kind) {
        let at = line_words(alloc, location_of_byte(source, spot.byte).line)?;
        found.push(ProcessLocation {
            always: is_always(spot.token.kind),
            at,
        })?;
    }
    Ok(())
}

/// The processes of a source, in their order: those of its tokens `initial` and `always`.
///
/// # Errors
///
/// Why the source isn't cut into tokens.
pub fn processes(alloc: Global, source: &[u8]) -> Result<Vec<ProcessLocation>, CutFault>
    ensures found { IfOk result (λ found. AreProcesses source.now found.items) }
    ensures fault { IfErr result (IsUncut source.now) }
{
    let spots = match spots(alloc, source) {
        Ok(spots) => spots,
        Err(fault) => return Err(fault),
    };
    let mut found = Vec::new(alloc);
    let mut left = spots.as_slice();
    while let [spot, rest @ ..] = left {
        add_process(alloc, &mut found, source, spot)?;
        left = rest;
    }
    Ok(found)
}
