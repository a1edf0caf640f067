//! What pieces are, for those who read directives.

use lexemes::token::{LexemeKind, Sign, TokenKind, is_sign};

/// Whether a piece is a simple name.
pub(crate) fn is_name(kind: LexemeKind) -> bool {
    match kind {
        LexemeKind::Token(TokenKind::Name) => true,
        _ => false,
    }
}

/// Whether a piece is a string.
pub(crate) fn is_text(kind: LexemeKind) -> bool {
    match kind {
        LexemeKind::Token(TokenKind::Text) => true,
        _ => false,
    }
}

/// Whether a piece is a number without a base, a point or an exponent.
pub(crate) fn is_number(kind: LexemeKind) -> bool {
    match kind {
        LexemeKind::Token(TokenKind::UnsignedNumber) => true,
        _ => false,
    }
}

/// Whether a piece joins two lines.
pub(crate) fn is_joint(kind: LexemeKind) -> bool {
    match kind {
        LexemeKind::Joint => true,
        _ => false,
    }
}

/// Whether a token is the base of a number.
pub(crate) fn is_base(kind: TokenKind) -> bool {
    match kind {
        TokenKind::Base => true,
        _ => false,
    }
}

/// Whether a piece is this operator or mark.
pub(crate) fn is_mark(kind: LexemeKind, sign: Sign) -> bool {
    match kind {
        LexemeKind::Token(kind) => is_sign(kind, sign),
        _ => false,
    }
}

/// Whether a piece opens brackets.
pub(crate) fn is_opening(kind: LexemeKind) -> bool {
    is_mark(kind, Sign::Open)
        || is_mark(kind, Sign::OpenSquare)
        || is_mark(kind, Sign::OpenCurly)
        || is_mark(kind, Sign::OpenAttribute)
}

/// Whether a piece closes brackets.
pub(crate) fn is_closing(kind: LexemeKind) -> bool {
    is_mark(kind, Sign::Close)
        || is_mark(kind, Sign::CloseSquare)
        || is_mark(kind, Sign::CloseCurly)
        || is_mark(kind, Sign::CloseAttribute)
}
