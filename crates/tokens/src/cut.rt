//! A text is cut into tokens, the longest first.

ghost use Rattle.std.specs.Prelude.{◌≡◌, ℕ, false, map, IfOk};
ghost use Rattle.std.specs.Str.{IsAscii};
ghost use Rattle.tokens.specs.Lengths.{AddsTokens};
ghost use Rattle.tokens.specs.Lexing as spec;
ghost use Rattle.tokens.specs.Lexing.{Cut, Stops};
ghost use Rattle.tokens.specs.Tokens.{plain_token};

use crate::kinds::kind_of;
use crate::literal::is_bad_number;
use crate::pieces::piece_len;
use crate::spans::is_space;
use crate::token::Token;
use std::alloc::{AllocError, Global};
use std::str;

/// Whether a piece is white space or a comment, so that it gives no token.
fn is_skipped(text: &[u8]) -> bool
    ensures { result ≡ spec.is_skipped text.now }
{
    match text {
        [b, ..] => is_space(*b) || *b == b'/',
        [] => false,
    }
}

/// The text of a piece that is a token: each of its bytes is ASCII.
fn text_of(piece: &[u8]) -> &str
    requires { IsAscii piece.now }
    ensures { result.now ≡ piece.now }
{
    match str::from_utf8(piece) {
        Ok(text) => text,
        Err(_) => unreachable!(),
    }
}

/// Adds the token that a piece gives, if it gives one. A number that is malformed or too wide is refused.
#[tactic(auto, unfolding(crate::specs::Lexing::tokens_of_piece))]
fn add<'a>(alloc: Global, found: &mut Vec<Token<'a>>, piece: &'a [u8]) -> Result<bool, AllocError>
    requires { spec.is_skipped piece.now ≡ false → IsAscii piece.now }
    ensures { IfOk result (λ read. AddsTokens piece.now (map plain_token found.old.items) read (map plain_token found.new.items)) }
{
    if is_skipped(piece) {
        return Ok(true);
    }
    if is_bad_number(alloc, piece)? {
        return Ok(false);
    }
    let kind = kind_of(piece);
    let text = text_of(piece);
    found.push(Token { kind, text })?;
    Ok(true)
}

/// Why a text isn't cut into tokens. Places are bytes, counted from 0.
#[derive(Clone, Copy)]
pub enum CutFault {
    /// Memory is refused.
    Memory,
    /// No token, space or comment begins at this byte.
    Stray(usize),
    /// A number that is malformed or too wide begins at this byte.
    BadNumber(usize),
}

impl From<AllocError> for CutFault {
    ghost use Rattle.tokens.specs.declared.cut.CutFault.TheVariants.{Memory};

    ghost from_gives = { λ _ e. e ≡ Memory };

    fn from(_: AllocError) -> CutFault {
        CutFault::Memory
    }
}

/// Cuts a text into tokens, the longest first.
pub fn cut<'a>(alloc: Global, text: &'a [u8]) -> Result<Vec<Token<'a>>, CutFault>
    ensures cut { IfOk result (λ found. Cut text.now (map plain_token found.items)) }
    ensures stray { (place : ℕ) → result ≡ Err (CutFault.Stray place) → Stops text.now spec.stray place }
    ensures bad_number { (place : ℕ) → result ≡ Err (CutFault.BadNumber place) → Stops text.now spec.bad_number place }
{
    let mut found = Vec::new(alloc);
    let mut left = text;
    while !left.is_empty() {
        let len = piece_len(left);
        let place = text.len() - left.len();
        if len == 0 {
            return Err(CutFault::Stray(place));
        }
        let (piece, rest) = left.split_at(len);
        if !add(alloc, &mut found, piece)? {
            return Err(CutFault::BadNumber(place));
        }
        left = rest;
    }
    Ok(found)
}
