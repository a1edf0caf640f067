//! Tokens.

ghost use Rattle.std.specs.Prelude.{◌≡◌, ◌≢◌, true, false, IfOk};
ghost use Rattle.tokens.specs.Tokens.{plain_token, same_kind};

use crate::literal::{token_digits, token_value};
use logic4::bits::Bits;
use std::alloc::{AllocError, Global};

/// What a token is.
#[derive(Clone, Copy, PartialEq, Eq)]
pub enum Kind {
    /// The end of the text, which no token has.
    End,
    Name,
    Text,
    Decimal,
    Sized,
    /// A system name other than `$display`, `$strobe` and `$finish`.
    System,
    Display,
    Strobe,
    Finish,
    Module,
    EndModule,
    Reg,
    Initial,
    Always,
    Begin,
    EndBlock,
    If,
    Else,
    While,
    Posedge,
    Negedge,
    /// The word `or`.
    Or,
    Bang,
    Tilde,
    Ampersand,
    Bar,
    Caret,
    Plus,
    Minus,
    ShiftLeft,
    ShiftRight,
    Less,
    AtMost,
    Greater,
    AtLeast,
    Equal,
    NotEqual,
    Same,
    NotSame,
    AndAnd,
    OrOr,
    Question,
    Colon,
    Assign,
    Hash,
    At,
    Open,
    Close,
    OpenSquare,
    CloseSquare,
    OpenCurly,
    CloseCurly,
    Comma,
    Semicolon,
}

/// A token, with the bytes that it is spelled with. All tokens of a text stand in memory at once, and few are numbers: so
/// what a number stands for is read from its bytes where it is asked for.
#[derive(Clone, Copy)]
pub struct Token<'a> {
    pub kind: Kind,
    pub text: &'a str,
}

const _: () = prove!(size_of::<Token<'static>>() == 24);

impl<'a> Token<'a> {
    /// The value of a plain decimal, and 0 for every other token.
    pub fn value(&self) -> u64
        ensures { result ≡ (plain_token self.now).value }
    {
        token_value(self.text.as_bytes())
    }

    /// The digits of a sized literal, which no other token has.
    // The functions of a parser call themselves as deep as a text nests: what reading a literal needs is to lie in no frame of theirs.
    #[inline(never)]
    pub fn bits(&self, alloc: Global) -> Result<Option<Bits>, AllocError>
        ensures { IfOk result (λ found. found ≡ (plain_token self.now).bits) }
    {
        token_digits(alloc, self.text.as_bytes())
    }
}

pub fn is_kind(a: Kind, b: Kind) -> bool
    ensures value { result ≡ same_kind a b }
    ensures same { result ≡ true → a ≡ b }
    ensures other { result ≡ false → a ≢ b }
{
    a == b
}
