//! The kind of a piece, by how it is spelled.

ghost use Rattle.std.specs.Prelude.{◌≡◌};
ghost use Rattle.lexemes.specs.Kinds as spec;

use crate::spans::{ByteClass, all_bytes, begins_name, is_based, is_decimal_digit, is_white_space};
use crate::token::{LexemeKind, TokenKind};
use crate::words::{keyword, sign};

/// The first of two kinds that is there.
fn kind_or_else(found: Option<TokenKind>, other: TokenKind) -> TokenKind
    ensures { result ≡ spec.kind_or_else found other }
{
    match found {
        Some(kind) => kind,
        None => other,
    }
}

/// The kind of what begins with a digit.
fn number_kind(text: &[u8]) -> TokenKind
    ensures { result ≡ spec.number_kind text.now }
{
    if all_bytes(ByteClass::Number, text) {
        TokenKind::UnsignedNumber
    } else {
        TokenKind::RealNumber
    }
}

/// The kind of a token, by its first byte and by the tables.
#[tactic(auto, unfolding(crate::specs::Kinds::token_kind))]
fn token_kind(text: &[u8]) -> TokenKind
    ensures { result ≡ spec.token_kind text.now }
{
    let [first, ..] = text else {
        return TokenKind::Name;
    };
    if begins_name(*first) {
        return kind_or_else(keyword(text), TokenKind::Name);
    }
    if is_decimal_digit(*first) {
        return number_kind(text);
    }
    match *first {
        b'"' => TokenKind::Text,
        b'$' => TokenKind::SystemName,
        b'\'' => TokenKind::Base,
        b'\\' => TokenKind::EscapedName,
        _ => kind_or_else(sign(text), TokenKind::Name),
    }
}

/// Whether a piece joins two lines: a `\` and the newline behind it.
fn is_joint(piece: &[u8]) -> bool
    ensures { result ≡ spec.is_joint piece.now }
{
    match piece {
        [a, b, ..] => *a == b'\\' && is_white_space(*b),
        _ => false,
    }
}

/// The kind of a piece that isn't white space or a comment, behind a base or not.
#[tactic(auto, unfolding(crate::specs::Kinds::lexeme_kind))]
pub fn lexeme_kind(after: bool, piece: &[u8]) -> LexemeKind
    ensures { result ≡ spec.lexeme_kind after piece.now }
{
    let [first, ..] = piece else {
        return LexemeKind::Joint;
    };
    if after && is_based(*first) {
        return LexemeKind::Token(TokenKind::BasedDigits);
    }
    if *first == b'`' {
        return LexemeKind::Directive;
    }
    if is_joint(piece) {
        return LexemeKind::Joint;
    }
    LexemeKind::Token(token_kind(piece))
}

/// Whether a piece is white space or a comment, so that it gives no token.
pub fn is_blank_piece(piece: &[u8]) -> bool
    ensures { result ≡ spec.is_blank_piece piece.now }
{
    match piece {
        [first, rest @ ..] => is_white_space(*first) || (*first == b'/' && !rest.is_empty()),
        [] => false,
    }
}

/// Whether the token behind a piece stands behind a base: the piece is one, or it is skipped and stands there itself.
pub fn after_piece(after: bool, piece: &[u8]) -> bool
    ensures { result ≡ spec.after_piece after piece.now }
{
    if is_blank_piece(piece) {
        return after;
    }
    match piece {
        [first, ..] => *first == b'\'',
        [] => after,
    }
}
