//! Tokens with the bytes at which they begin, behind white space and comments (IEEE 1364-2005, 3.2, 3.3).

ghost use Rattle.std.specs.Prelude.{◌≡◌, ◌≤◌, ◌++◌, [], ◌∷◌, length, map, IfOk, IfErr, OnOk};
ghost use Rattle.tokens.specs.Tokens.{plain_token};
ghost use Rattle.locations.specs.Spots.{skip_len, Skips, AreSpots, IsUncut};
ghost use Rattle.locations.specs.PlainSpots.{plain_spot};

use std::alloc::{AllocError, Global};
use tokens::cut::{CutFault, cut};
use tokens::pieces::comment_len;
use tokens::spans::is_space;
use tokens::token::Token;

/// The length of the space or the comment at the front, 0 where none is.
fn skip_len(text: &[u8]) -> usize
    ensures value { result ≡ skip_len text.now }
    ensures within { result ≤ length text.now }
{
    match text {
        [b, ..] if is_space(*b) => 1,
        [b'/', rest @ ..] => comment_len(rest),
        _ => 0,
    }
}

/// What stands behind the white space and the comments at the front.
pub fn behind_skipped(text: &[u8]) -> &[u8]
    ensures skips { Skips text.now result.now }
    ensures at_token { skip_len result.now ≡ 0 }
    ensures within { length result.now ≤ length text.now }
{
    let mut left = text;
    let mut len = skip_len(left);
    while len > 0 {
        left = left.split_at(len).1;
        len = skip_len(left);
    }
    left
}

/// A token and its first byte, counted from 0.
#[derive(Clone, Copy)]
pub struct Spot<'a> {
    pub token: Token<'a>,
    pub byte: usize,
}

/// Adds a token to those found, with its first byte. Fails where memory is refused.
fn add<'a>(found: &mut Vec<Spot<'a>>, token: Token<'a>, byte: usize) -> Result<(), AllocError>
    ensures { OnOk result (map plain_spot found.new.items ≡ map plain_spot found.old.items ++ record { token = plain_token token.entry; byte = byte } ∷ []) }
{
    found.push(Spot { token, byte })?;
    Ok(())
}

/// The tokens of a text's cut, each with its first byte.
///
/// # Errors
///
/// Why the text isn't cut into tokens.
pub fn spots<'a>(alloc: Global, source: &'a [u8]) -> Result<Vec<Spot<'a>>, CutFault>
    ensures found { IfOk result (λ found. AreSpots source.now 0 (map plain_spot found.items)) }
    ensures fault { IfErr result (IsUncut source.now) }
{
    let tokens = match cut(alloc, source) {
        Ok(tokens) => tokens,
        Err(fault) => return Err(fault),
    };
    let mut found = Vec::new(alloc);
    let mut left = source;
    for token in &tokens {
        left = behind_skipped(left);
        add(&mut found, *token, source.len() - left.len())?;
        left = left.split_at(token.text.len()).1;
    }
    Ok(found)
}
