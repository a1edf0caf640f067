//! A cursor over the tokens of a text.

ghost use Rattle.std.specs.Prelude.{◌≡◌, map, length};
ghost use Rattle.tokens.specs.Tokens.{plain_token};
ghost use Rattle.grammar.specs.Cursor.{left_of, kind, sees, done, take, expect, Reads};

use crate::fault::{GrammarFault, Read};
use tokens::token::{Kind, Token, is_kind};

/// The tokens that are left.
#[derive(Drop)]
pub struct Cursor<'t, 'a> {
    left: &'t [Token<'a>],
}

impl<'t, 'a> Cursor<'t, 'a> {
    pub fn new(tokens: &'t [Token<'a>]) -> Cursor<'t, 'a>
        ensures { left_of result ≡ map plain_token tokens.now }
    {
        Cursor { left: tokens }
    }

    /// The kind of the next token, `End` where none is left.
    pub fn kind(&self) -> Kind
        ensures { result ≡ kind (left_of self.now) }
    {
        match self.left {
            [] => Kind::End,
            [first, ..] => first.kind,
        }
    }

    pub fn sees(&self, wanted: Kind) -> bool
        ensures { result ≡ sees wanted (left_of self.now) }
    {
        is_kind(self.kind(), wanted)
    }

    /// How many tokens are left.
    pub fn len(&self) -> usize
        ensures { result ≡ length (left_of self.now) }
    {
        self.left.len()
    }

    pub fn is_done(&self) -> bool
        ensures { result ≡ done (left_of self.now) }
    {
        self.left.is_empty()
    }

    /// Takes the next token, unless it is the one at which nesting ends.
    pub fn take(&mut self, stop: Option<usize>) -> Read<&'t Token<'a>>
        ensures { Reads (λ t. plain_token t.now) stop (take (left_of self.old)) result (left_of self.new) }
    {
        if stop == Some(self.left.len()) {
            return Err(GrammarFault::Deep);
        }
        match self.left {
            [] => Err(GrammarFault::Syntax),
            [first, rest @ ..] => {
                self.left = rest;
                Ok(first)
            }
        }
    }

    /// Takes a token of this kind.
    #[tactic(auto, unfolding(crate::specs::Cursor::expect))]
    pub fn expect(&mut self, stop: Option<usize>, wanted: Kind) -> Read<&'t Token<'a>>
        ensures { Reads (λ t. plain_token t.now) stop (expect wanted (left_of self.old)) result (left_of self.new) }
    {
        if !self.sees(wanted) {
            return Err(GrammarFault::Syntax);
        }
        self.take(stop)
    }
}
