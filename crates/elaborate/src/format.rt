//! Display formats (17.1.1), read from left to right.
ghost use Rattle.std.specs.Prelude.{◌≡◌, ◌≤◌, ◌↔◌, ◌++◌, ◌∷◌, [], map, option_map, unwrap_or, IsNone, IfSome, IfOk, OnOk};
ghost use Rattle.model.specs.Syntax.{Byte};
ghost use Rattle.model.specs.Elaboration.{AtByte, AfterPercent, argument_count, pieces_of, read_byte};
ghost use Rattle.model.specs.SourceTrees.{piece_of};
ghost use Rattle.elaborate.specs.Formats.{stage_of, step_of, completed_piece};

use design::Ascii;
use design::tree::{Conversion, Piece};
use std::alloc::{AllocError, Global};

// Where a format is read: at a plain byte, after a `%`, or after `%0`.
#[derive(Clone, Copy)]
enum FormatStage {
    AtByte,
    AfterPercent,
    AfterZero,
}

/// How many arguments a format shows. None where it has another conversion than `%b`, `%h` and `%0d`, or a byte that isn't
/// one of ASCII.
pub fn conversions(format: &[u8]) -> Option<usize>
    ensures { result ≡ option_map argument_count (pieces_of format.now) }
{
    let mut stage = FormatStage::AtByte;
    let mut count = 0;
    for byte in format {
        let (next, piece) = read(stage, *byte)?;
        stage = next;
        count += arguments(piece);
    }
    match stage {
        FormatStage::AtByte => Some(count),
        _ => None,
    }
}

/// The pieces of a format, or none where it has another conversion or another byte.
pub fn pieces(alloc: Global, format: &[u8]) -> Result<Vec<Piece>, AllocError>
    ensures { IfOk result (λ v. map piece_of v.items ≡ unwrap_or (pieces_of format.now) []) }
{
    let mut stage = FormatStage::AtByte;
    let mut pieces = Vec::with_capacity(alloc, format.len())?;
    for byte in format {
        let Some((next, piece)) = read(stage, *byte) else {
            return Ok(Vec::new(alloc));
        };
        stage = next;
        push(&mut pieces, piece)?;
    }
    match stage {
        FormatStage::AtByte => Ok(pieces),
        _ => Ok(Vec::new(alloc)),
    }
}

/// How many arguments these pieces show.
pub fn shown_by(pieces: &[Piece]) -> usize
    ensures { result ≡ argument_count (map piece_of pieces.now) }
{
    let mut count = 0;
    for piece in pieces {
        count += arguments(Some(*piece));
    }
    count
}

// One byte of a format, and the piece that it completes. None where it may not stand there.
fn read(stage: FormatStage, byte: u8) -> Option<(FormatStage, Option<Piece>)>
    ensures { option_map step_of result ≡ read_byte (stage_of stage) byte }
{
    match stage {
        FormatStage::AtByte => plain(byte),
        FormatStage::AfterPercent => conversion(byte),
        FormatStage::AfterZero if byte == b'd' => {
            Some((
                FormatStage::AtByte,
                Some(Piece::Argument(Conversion::Decimal)),
            ))
        }
        FormatStage::AfterZero => None,
    }
}

// A byte that no `%` stands before: a `%` begins a conversion, and any other stands for itself.
fn plain(byte: u8) -> Option<(FormatStage, Option<Piece>)>
    ensures { option_map step_of result ≡ read_byte AtByte byte }
{
    if byte == b'%' {
        Some((FormatStage::AfterPercent, None))
    } else {
        as_it_is(byte)
    }
}

// A byte that stands for itself. None where it isn't one of ASCII (3.6).
fn as_it_is(byte: u8) -> Option<(FormatStage, Option<Piece>)>
    ensures none { IsNone result ↔ (128 ≤ byte) }
    ensures some { IfSome result (λ step. step_of step ≡ (AtByte, Byte byte ∷ [])) }
{
    let byte = Ascii::new(byte)?;
    Some((FormatStage::AtByte, Some(Piece::Byte(byte))))
}

// A byte behind a `%`, and the piece that it completes. None where the language has no such conversion.
fn conversion(byte: u8) -> Option<(FormatStage, Option<Piece>)>
    ensures { option_map step_of result ≡ read_byte AfterPercent byte }
{
    match byte {
        b'%' => as_it_is(byte),
        b'b' => Some((
            FormatStage::AtByte,
            Some(Piece::Argument(Conversion::Binary)),
        )),
        b'h' => Some((FormatStage::AtByte, Some(Piece::Argument(Conversion::Hex)))),
        b'0' => Some((FormatStage::AfterZero, None)),
        _ => None,
    }
}

// How many arguments a piece shows, where a byte completes one.
fn arguments(piece: Option<Piece>) -> usize
    ensures value { result ≡ argument_count (completed_piece piece) }
    ensures few { result ≤ 1 }
{
    match piece {
        Some(Piece::Argument(_)) => 1,
        _ => 0,
    }
}

// Adds a piece, where a byte completes one. Fails where memory is refused.
fn push(pieces: &mut Vec<Piece>, piece: Option<Piece>) -> Result<(), AllocError>
    ensures { OnOk result (map piece_of pieces.new.items ≡ map piece_of pieces.old.items ++ completed_piece piece) }
{
    if let Some(piece) = piece {
        pieces.push(piece)?;
    }
    Ok(())
}
