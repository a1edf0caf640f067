//! How deep a text nests.

ghost use Rattle.std.specs.Prelude.{◌≡◌, ◌≤◌, ◌↔◌, IsSome, map, nat_lt};
ghost use Rattle.tokens.specs.Tokens.{plain_token};
ghost use Rattle.vparse.specs.Nesting.{IsDeep, deep_left, open_after, signs_after};

use tokens::token::{Kind, Token};

const LIMIT: u32 = 64;

/// How many blocks, parentheses and braces are open behind a token, by how many are before it.
fn open_after(kind: Kind, height: u32) -> u32
    requires { height ≤ LIMIT }
    ensures { result ≡ open_after kind height }
{
    match kind {
        Kind::Begin | Kind::Open | Kind::OpenCurly => height + 1,
        Kind::EndBlock | Kind::Close | Kind::CloseCurly => height.saturating_sub(1),
        _ => height,
    }
}

/// How many operators, delays and event controls were counted behind a token, by how many were before it; they are counted
/// anew behind `;`, `begin` and `end`.
fn signs_after(kind: Kind, signs: u32) -> u32
    requires { signs ≤ LIMIT }
    ensures { result ≡ signs_after kind signs }
{
    match kind {
        Kind::Semicolon | Kind::Begin | Kind::EndBlock => 0,
        Kind::Hash
        | Kind::At
        | Kind::Question
        | Kind::Bang
        | Kind::Tilde
        | Kind::Ampersand
        | Kind::Bar
        | Kind::Caret => signs + 1,
        Kind::Plus
        | Kind::Minus
        | Kind::ShiftLeft
        | Kind::ShiftRight
        | Kind::Less
        | Kind::AtMost
        | Kind::Greater
        | Kind::AtLeast => signs + 1,
        Kind::Equal | Kind::NotEqual | Kind::Same | Kind::NotSame | Kind::AndAnd | Kind::OrOr =>
            signs + 1,
        _ => signs,
    }
}

/// How many tokens are left at the first one at which the text nests too deep.
pub fn too_deep(tokens: &[Token<'_>]) -> Option<usize>
    ensures deep { IsSome result ↔ IsDeep (map plain_token tokens.now) }
    ensures first { result ≡ deep_left 0 0 (map plain_token tokens.now) }
{
    let mut left = tokens;
    let mut height = 0;
    let mut signs = 0;
    while let [first, rest @ ..] = left {
        height = open_after(first.kind, height);
        signs = signs_after(first.kind, signs);
        if height > LIMIT || signs > LIMIT {
            return Some(left.len());
        }
        left = rest;
    }
    None
}
