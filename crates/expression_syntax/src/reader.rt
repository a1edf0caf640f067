//! The reader of tokens.

ghost use Rattle.std.specs.Prelude.{◌≡◌, ◌≤◌, true, if◌then◌else◌, IfOk, IsSome};
ghost use Rattle.expression_syntax.specs.Places.{kind_at, sign_at, keyword_at, name_at, base_at, has_digits_at, behind, is_name_token, is_base, is_based_digits};
ghost use Rattle.expression_syntax.specs.Attributes.{IsAttributeRest, AreAttributes};

use crate::faults::{ExpectedToken, ReadingStop, SyntaxRead, SyntaxStop};
use crate::refusals::{Refused, SyntaxRefusal};
use crate::texts::{TokenSource, token_at};
use lexemes::token::{Keyword, Sign, TokenKind, is_keyword, is_sign};
use std::alloc::{AllocError, Global};

/// The most operators of a statement or of an item.
pub const MOST_OPERATORS: u32 = 1024;

/// The most brackets, blocks and statements that are open at once.
pub const MOST_OPEN: u32 = 1024;

/// The most refusals that are kept.
pub const MOST_REFUSALS: usize = 100;

/// How far a text is read, what is open there, what was refused before, and where reading stopped.
#[derive(Drop)]
pub struct Reader {
    place: usize,
    operators: u32,
    open: u32,
    refusals: Vec<SyntaxRefusal>,
    stopped: Option<ReadingStop>,
}

/// Whether a token is a name, escaped or not.
fn is_name(kind: TokenKind) -> bool
    ensures { result ≡ is_name_token kind }
{
    match kind {
        TokenKind::Name | TokenKind::EscapedName => true,
        _ => false,
    }
}

fn is_base(kind: TokenKind) -> bool
    ensures { result ≡ is_base kind }
{
    match kind {
        TokenKind::Base => true,
        _ => false,
    }
}

fn is_digits(kind: TokenKind) -> bool
    ensures { result ≡ is_based_digits kind }
{
    match kind {
        TokenKind::BasedDigits => true,
        _ => false,
    }
}

impl Reader {
    /// At the first token of a text.
    pub fn new(alloc: Global) -> Self
        ensures { result.place ≡ 0 }
    {
        Reader {
            place: 0,
            operators: 0,
            open: 0,
            refusals: Vec::new(alloc),
            stopped: None,
        }
    }

    /// Stops at the next token, unless reading stopped before. Behind that no token comes next any more.
    pub fn stop(&mut self, source: &TokenSource<'_>, why: SyntaxStop)
        ensures { IsSome self.new.stopped }
    {
        if self.stopped.is_none() {
            self.stopped = Some(ReadingStop {
                token: self.place,
                why,
            });
            self.place = source.tokens.len();
        }
    }

    /// Whether reading stopped.
    pub fn is_stopped(&self) -> bool {
        self.stopped.is_some()
    }

    /// Where reading stopped first, and why, if it did.
    pub fn stopped(&self) -> Option<ReadingStop>
        ensures { result ≡ self.now.stopped }
    {
        self.stopped
    }

    /// The number of the next token.
    pub fn place(&self) -> usize
        ensures { result ≡ self.now.place }
    {
        self.place
    }

    /// Whether all tokens are read.
    pub fn is_done(&self, source: &TokenSource<'_>) -> bool {
        self.place >= source.tokens.len()
    }

    /// The kind of the next token, if there is one.
    pub fn kind(&self, source: &TokenSource<'_>) -> Option<TokenKind>
        ensures { result ≡ kind_at source.now.tokens.now self.now.place }
    {
        match token_at(source.tokens, self.place) {
            None => None,
            Some(token) => Some(token.kind),
        }
    }

    /// The kind of the token that follows the next one by this many, if there is one.
    pub fn kind_ahead(&self, source: &TokenSource<'_>, distance: usize) -> Option<TokenKind> {
        match token_at(source.tokens, self.place.saturating_add(distance)) {
            None => None,
            Some(token) => Some(token.kind),
        }
    }

    /// Whether this sign comes next.
    pub fn sees(&self, source: &TokenSource<'_>, sign: Sign) -> bool
        ensures { result ≡ sign_at source.now.tokens.now self.now.place sign }
    {
        match self.kind(source) {
            None => false,
            Some(kind) => is_sign(kind, sign),
        }
    }

    /// Whether this sign follows the next token by this many.
    pub fn sees_ahead(&self, source: &TokenSource<'_>, distance: usize, sign: Sign) -> bool {
        match self.kind_ahead(source, distance) {
            None => false,
            Some(kind) => is_sign(kind, sign),
        }
    }

    /// Whether this word comes next.
    pub fn sees_word(&self, source: &TokenSource<'_>, word: Keyword) -> bool
        ensures { result ≡ keyword_at source.now.tokens.now self.now.place word }
    {
        match self.kind(source) {
            None => false,
            Some(kind) => is_keyword(kind, word),
        }
    }

    /// Whether a name comes next.
    pub fn sees_name(&self, source: &TokenSource<'_>) -> bool
        ensures { result ≡ name_at source.now.tokens.now self.now.place }
    {
        match self.kind(source) {
            None => false,
            Some(kind) => is_name(kind),
        }
    }

    /// Whether the base of a number comes next.
    pub fn sees_base(&self, source: &TokenSource<'_>) -> bool
        ensures { result ≡ base_at source.now.tokens.now self.now.place }
    {
        match self.kind(source) {
            None => false,
            Some(kind) => is_base(kind),
        }
    }

    /// Whether the digits of a number with a base come next.
    fn sees_digits(&self, source: &TokenSource<'_>) -> bool
        ensures { result ≡ has_digits_at source.now.tokens.now self.now.place }
    {
        match self.kind(source) {
            None => false,
            Some(kind) => is_digits(kind),
        }
    }

    /// Takes the next token, if there is one, and gives its number.
    pub fn take(&mut self, source: &TokenSource<'_>) -> usize
        ensures token { result ≡ self.old.place }
        ensures moved { self.new.place ≡ behind source.now.tokens.now self.old.place }
    {
        let token = self.place;
        if token < source.tokens.len() {
            self.place = token + 1;
        }
        token
    }

    /// Takes this sign where it comes next. The answer is whether it does.
    pub fn accept(&mut self, source: &TokenSource<'_>, sign: Sign) -> bool
        ensures seen { result ≡ sign_at source.now.tokens.now self.old.place sign }
        ensures moved { self.new.place ≡ (if result then behind source.now.tokens.now self.old.place else self.old.place) }
    {
        if !self.sees(source, sign) {
            return false;
        }
        let _ = self.take(source);
        true
    }

    /// Takes this word where it comes next. The answer is whether it does.
    pub fn accept_word(&mut self, source: &TokenSource<'_>, word: Keyword) -> bool
        ensures seen { result ≡ keyword_at source.now.tokens.now self.old.place word }
        ensures moved { self.new.place ≡ (if result then behind source.now.tokens.now self.old.place else self.old.place) }
    {
        if !self.sees_word(source, word) {
            return false;
        }
        let _ = self.take(source);
        true
    }

    /// Takes this sign, which has to come next.
    pub fn expect(&mut self, source: &TokenSource<'_>, sign: Sign) -> SyntaxRead<usize>
        ensures { IfOk result (λ token. (token ≡ self.old.place) × (sign_at source.now.tokens.now self.old.place sign ≡ true) × (self.new.place ≡ behind source.now.tokens.now self.old.place)) }
    {
        if !self.sees(source, sign) {
            return Err(SyntaxStop::Expected(ExpectedToken::Sign(sign)));
        }
        Ok(self.take(source))
    }

    /// Takes this word, which has to come next.
    pub fn expect_word(&mut self, source: &TokenSource<'_>, word: Keyword) -> SyntaxRead<usize>
        ensures { IfOk result (λ token. (token ≡ self.old.place) × (keyword_at source.now.tokens.now self.old.place word ≡ true) × (self.new.place ≡ behind source.now.tokens.now self.old.place)) }
    {
        if !self.sees_word(source, word) {
            return Err(SyntaxStop::Expected(ExpectedToken::Keyword(word)));
        }
        Ok(self.take(source))
    }

    /// Takes a name, which has to come next.
    pub fn expect_name(&mut self, source: &TokenSource<'_>) -> SyntaxRead<usize>
        ensures { IfOk result (λ token. (token ≡ self.old.place) × (name_at source.now.tokens.now self.old.place ≡ true) × (self.new.place ≡ behind source.now.tokens.now self.old.place)) }
    {
        if !self.sees_name(source) {
            return Err(SyntaxStop::Expected(ExpectedToken::Name));
        }
        Ok(self.take(source))
    }

    /// Takes the base of a number, which has to come next.
    pub fn expect_base(&mut self, source: &TokenSource<'_>) -> SyntaxRead<usize>
        ensures { IfOk result (λ token. (token ≡ self.old.place) × (base_at source.now.tokens.now self.old.place ≡ true) × (self.new.place ≡ behind source.now.tokens.now self.old.place)) }
    {
        if !self.sees_base(source) {
            return Err(SyntaxStop::Expected(ExpectedToken::Expression));
        }
        Ok(self.take(source))
    }

    /// Takes the digits of a number with a base, which have to come next.
    pub fn expect_digits(&mut self, source: &TokenSource<'_>) -> SyntaxRead<usize>
        ensures { IfOk result (λ token. (token ≡ self.old.place) × (has_digits_at source.now.tokens.now self.old.place ≡ true) × (self.new.place ≡ behind source.now.tokens.now self.old.place)) }
    {
        if !self.sees_digits(source) {
            return Err(SyntaxStop::Expected(ExpectedToken::Digits));
        }
        Ok(self.take(source))
    }

    /// Counts an operator.
    pub fn count_operator(&mut self) -> SyntaxRead<()>
        ensures { self.new.place ≡ self.old.place }
    {
        if self.operators >= MOST_OPERATORS {
            return Err(SyntaxStop::Deep);
        }
        self.operators += 1;
        Ok(())
    }

    /// Counts operators from here on anew.
    pub fn end_statement(&mut self)
        ensures { self.new.place ≡ self.old.place }
    {
        self.operators = 0;
    }

    /// Opens a bracket, a block or a statement.
    pub fn open(&mut self) -> SyntaxRead<()>
        ensures { self.new.place ≡ self.old.place }
    {
        if self.open >= MOST_OPEN {
            return Err(SyntaxStop::Deep);
        }
        self.open += 1;
        Ok(())
    }

    /// Closes what was opened last.
    pub fn close(&mut self)
        ensures { self.new.place ≡ self.old.place }
    {
        self.open = self.open.saturating_sub(1);
    }

    /// Refuses the construct at a token, unless as many were refused as are kept.
    pub fn refuse(&mut self, token: usize, construct: Refused) -> Result<(), AllocError>
        ensures { self.new.place ≡ self.old.place }
    {
        if self.refusals.len() < MOST_REFUSALS {
            self.refusals.push(SyntaxRefusal { token, construct })?;
        }
        Ok(())
    }

    /// What was refused, in the order of the text.
    pub fn into_refusals(self) -> Vec<SyntaxRefusal> {
        self.refusals
    }

    /// Goes behind the rest of an attribute.
    fn skip_attribute(&mut self, source: &TokenSource<'_>) -> SyntaxRead<()>
        ensures { IfOk result (λ _. IsAttributeRest source.now self.old.place self.new.place) }
    {
        for _token in 0..source.tokens.len() {
            if self.accept(source, Sign::CloseAttribute) {
                return Ok(());
            }
            let _ = self.take(source);
        }
        Err(SyntaxStop::Expected(ExpectedToken::Sign(Sign::CloseAttribute)))
    }

    /// Goes behind attributes, where they come next (3.8).
    pub fn skip_attributes(&mut self, source: &TokenSource<'_>) -> SyntaxRead<()>
        ensures { IfOk result (λ _. AreAttributes source.now self.old.place self.new.place) }
    {
        for _attribute in 0..source.tokens.len() {
            if !self.accept(source, Sign::OpenAttribute) {
                return Ok(());
            }
            self.skip_attribute(source)?;
        }
        Ok(())
    }

    /// Goes behind the next token that is this sign, and to the end where none is.
    pub fn skip_past(&mut self, source: &TokenSource<'_>, sign: Sign) {
        for _token in 0..source.tokens.len() {
            if self.accept(source, sign) || self.is_done(source) {
                return;
            }
            let _ = self.take(source);
        }
    }

    /// Goes behind the next token that is this word, and to the end where none is.
    pub fn skip_past_word(&mut self, source: &TokenSource<'_>, word: Keyword) {
        for _token in 0..source.tokens.len() {
            if self.accept_word(source, word) || self.is_done(source) {
                return;
            }
            let _ = self.take(source);
        }
    }

    /// Goes behind what stands in parentheses, where they come next, and to the end where they aren't closed.
    pub fn skip_group(&mut self, source: &TokenSource<'_>) {
        let mut depth: usize = 0;
        for _token in 0..source.tokens.len() {
            if self.sees(source, Sign::Open) {
                depth = depth.saturating_add(1);
            }
            if self.sees(source, Sign::Close) {
                depth = depth.saturating_sub(1);
            }
            if self.is_done(source) {
                return;
            }
            let _ = self.take(source);
            if depth == 0 {
                return;
            }
        }
    }
}
