//! A text is cut into its lexemes, the longest first.

ghost use Rattle.std.specs.Prelude.{◌≡◌, ◌<◌, ◌++◌, ◌^◌, false, length, All, OnOk, IfOk, IfErr};
ghost use Rattle.lexemes.specs.Lexing as spec;
ghost use Rattle.lexemes.specs.Lexing.{IsCutInto};
ghost use Rattle.lexemes.specs.Places.{LiesIn, TellsStop, lexical_fault};

use crate::kinds::{after_piece, is_blank_piece, lexeme_kind};
use crate::pieces::next_len;
use crate::token::{FileSpan, VerilogLexeme};
use std::alloc::{AllocError, Global};

/// Why a text isn't cut. Places are bytes, counted from 0.
#[derive(Clone, Copy)]
pub enum LexicalFault {
    /// Memory is refused.
    Memory,
    /// No token, space or comment begins at this byte.
    Stray(u32),
    /// A string that isn't finished on its line begins at this byte (3.6).
    UnfinishedString(u32),
    /// A comment that isn't finished begins at this byte (3.3).
    UnfinishedComment(u32),
}

impl From<AllocError> for LexicalFault {
    ghost use Rattle.lexemes.specs.declared.cut.LexicalFault.TheVariants.{Memory};

    ghost from_gives = { λ _ e. e ≡ Memory };

    fn from(_: AllocError) -> LexicalFault {
        LexicalFault::Memory
    }
}

fn begins_with_star(text: &[u8]) -> bool
    ensures { result ≡ spec.begins_with_star text.now }
{
    match text {
        [b, ..] => *b == b'*',
        [] => false,
    }
}

/// Whether a piece is a slash before a star: a comment begins, whose end isn't there.
fn is_half_comment(piece: &[u8], rest: &[u8]) -> bool
    ensures { result ≡ spec.is_half_comment piece.now rest.now }
{
    match piece {
        [a] => *a == b'/' && begins_with_star(rest),
        _ => false,
    }
}

/// Adds the lexeme that a piece gives, if it gives one.
fn add(
    found: &mut Vec<VerilogLexeme>,
    file: u32,
    begin: u32,
    after: bool,
    piece: &[u8],
) -> Result<(), AllocError>
    requires { length piece.now < 2 ^ 32 }
    ensures { OnOk result (found.new.items ≡ found.old.items ++ spec.lexemes_of file begin after piece.now) }
{
    if is_blank_piece(piece) {
        return Ok(());
    }
    let span = FileSpan {
        file,
        begin,
        length: piece.len() as u32,
    };
    let kind = lexeme_kind(after, piece);
    found.push(VerilogLexeme { kind, span })?;
    Ok(())
}

/// Why no piece begins at a place, by the byte that stands there.
fn no_piece(first: u8, place: u32) -> LexicalFault
    ensures { result ≡ lexical_fault (spec.cause_by_first first) place }
{
    if first == b'"' {
        LexicalFault::UnfinishedString(place)
    } else {
        LexicalFault::Stray(place)
    }
}

/// Cuts the text of a file into its lexemes, the longest first.
pub fn cut(alloc: Global, file: u32, text: &[u8]) -> Result<Vec<VerilogLexeme>, LexicalFault>
    requires { length text.now < 2 ^ 32 }
    ensures cut { IfOk result (λ found. IsCutInto file 0 false text.now found.items) }
    ensures lies { IfOk result (λ found. All (LiesIn file (length text.now)) found.items) }
    ensures tells { IfErr result (λ fault. TellsStop text.now fault) }
{
    let mut found = Vec::new(alloc);
    let mut left = text;
    let mut after = false;
    while let [first, ..] = left {
        let place = (text.len() - left.len()) as u32;
        let len = next_len(after, left);
        if len == 0 {
            return Err(no_piece(*first, place));
        }
        let (piece, rest) = left.split_at(len);
        if is_half_comment(piece, rest) {
            return Err(LexicalFault::UnfinishedComment(place));
        }
        add(&mut found, file, place, after, piece)?;
        after = after_piece(after, piece);
        left = rest;
    }
    Ok(found)
}
