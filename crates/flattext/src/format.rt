//! Formats by their pieces, and the arguments that they show (17.1.1).

ghost use Rattle.std.specs.Prelude.{◌≡◌, ◌∷◌, ◌++◌, List, OnOk, IfOk, map};
ghost use Rattle.model.specs.SourceTrees.{source_expression_of, source_expressions, piece_of};
ghost use Rattle.model.specs.Syntax as syntax;
ghost use Rattle.flattext.specs.Formats as spec;

use crate::expression::{push_arguments, push_closing, push_expression, push_sign_opening};
use crate::operators::CONDITIONAL;
use crate::phrases::push_escaped;
use logic4::conversion::Conversion;
use model::ascii::Ascii;
use model::tree::{Piece, SourceExpression};
use std::alloc::AllocError;

// A conversion as a format spells it (17.1.1.2, 17.1.1.3).
fn conversion_text(conversion: Conversion) -> &'static str
    ensures { result.now ≡ spec.conversion_text conversion }
{
    match conversion {
        Conversion::Binary => "%b",
        Conversion::ShortBinary => "%0b",
        Conversion::Octal => "%o",
        Conversion::ShortOctal => "%0o",
        Conversion::Hex => "%h",
        Conversion::ShortHex => "%0h",
        Conversion::Decimal | Conversion::SignedDecimal => "%0d",
        Conversion::PaddedDecimal | Conversion::PaddedSignedDecimal => "%d",
        Conversion::Character => "%c",
        Conversion::Characters => "%s",
        Conversion::ShortCharacters => "%0s",
        Conversion::Time => "%t",
    }
}

// Whether a conversion shows an argument with its sign.
fn shows_sign(conversion: Conversion) -> bool
    ensures { result ≡ spec.shows_sign conversion }
{
    match conversion {
        Conversion::SignedDecimal | Conversion::PaddedSignedDecimal => true,
        _ => false,
    }
}

// Puts a byte of a format behind a text: a % is spelled twice (17.1.1).
fn push_format_byte(text: &mut Vec<u8>, byte: u8) -> Result<(), AllocError>
    ensures { OnOk result (text.new.items ≡ text.old.items ++ spec.piece_text (syntax.Byte byte)) }
{
    if byte == b'%' {
        text.extend_from_slice(b"%%")
    } else {
        push_escaped(text, byte)
    }
}

// Puts a piece of a format behind a text.
fn push_piece(text: &mut Vec<u8>, piece: Piece) -> Result<(), AllocError>
    ensures { OnOk result (text.new.items ≡ text.old.items ++ spec.piece_text (piece_of piece)) }
{
    match piece {
        Piece::Byte(byte) => push_format_byte(text, byte.to_char() as u8),
        Piece::Argument(conversion) => {
            text.extend_from_slice(conversion_text(conversion).as_bytes())
        }
    }
}

// Puts the pieces of a format behind a text.
fn push_pieces(text: &mut Vec<u8>, pieces: &[Piece]) -> Result<(), AllocError>
    ensures { OnOk result (text.new.items ≡ text.old.items ++ spec.pieces_text (map piece_of pieces.now)) }
{
    for piece in pieces {
        push_piece(text, *piece)?;
    }
    Ok(())
}

/// Puts a format behind a text, between its quotation marks.
#[tactic(auto, unfolding(crate::specs::Formats::quoted_format))]
pub(crate) fn push_format(text: &mut Vec<u8>, pieces: &[Piece]) -> Result<(), AllocError>
    ensures { OnOk result (text.new.items ≡ text.old.items ++ spec.quoted_format (map piece_of pieces.now)) }
{
    text.extend_from_slice(b"\"")?;
    push_pieces(text, pieces)?;
    text.extend_from_slice(b"\"")
}

// Puts an argument behind a text and a comma, taken with its sign where it is shown so.
#[tactic(auto, unfolding(crate::specs::Formats::argument_text))]
fn push_argument(
    text: &mut Vec<u8>,
    is_signed: bool,
    argument: &SourceExpression,
) -> Result<(), AllocError>
    ensures { OnOk result (text.new.items ≡ text.old.items ++ spec.argument_text is_signed (source_expression_of argument.now)) }
{
    text.extend_from_slice(b", ")?;
    push_sign_opening(text, is_signed)?;
    push_expression(text, CONDITIONAL, argument)?;
    push_closing(text, is_signed)
}

// Puts the first of some arguments behind a text, as its conversion shows it, and gives those that are left.
fn push_converted<'a>(
    text: &mut Vec<u8>,
    conversion: Conversion,
    arguments: &'a [SourceExpression],
) -> Result<&'a [SourceExpression], AllocError>
    ensures { IfOk result (λ rest. (pieces : List syntax.Piece)
        → text.new.items ++ spec.shown_arguments pieces (source_expressions (map source_expression_of rest.now))
        ≡ text.old.items ++ spec.shown_arguments (syntax.Argument conversion ∷ pieces) (source_expressions (map source_expression_of arguments.now))) }
{
    match arguments {
        [argument, rest @ ..] => {
            push_argument(text, shows_sign(conversion), argument)?;
            Ok(rest)
        }
        [] => Ok(arguments),
    }
}

// Puts the argument that a piece shows behind a text, if it shows one, and gives those that are left.
fn push_next<'a>(
    text: &mut Vec<u8>,
    piece: Piece,
    arguments: &'a [SourceExpression],
) -> Result<&'a [SourceExpression], AllocError>
    ensures { IfOk result (λ rest. (pieces : List syntax.Piece)
        → text.new.items ++ spec.shown_arguments pieces (source_expressions (map source_expression_of rest.now))
        ≡ text.old.items ++ spec.shown_arguments (piece_of piece ∷ pieces) (source_expressions (map source_expression_of arguments.now))) }
{
    match piece {
        Piece::Byte(_) => Ok(arguments),
        Piece::Argument(conversion) => push_converted(text, conversion, arguments),
    }
}

/// Puts the arguments of a format behind a text, each as its conversion shows it.
pub(crate) fn push_shown(
    text: &mut Vec<u8>,
    pieces: &[Piece],
    arguments: &[SourceExpression],
) -> Result<(), AllocError>
    ensures { OnOk result (text.new.items ≡ text.old.items ++ spec.shown_arguments (map piece_of pieces.now) (source_expressions (map source_expression_of arguments.now))) }
{
    let mut left = arguments;
    for piece in pieces {
        left = push_next(text, *piece, left)?;
    }
    push_arguments(text, left)
}
