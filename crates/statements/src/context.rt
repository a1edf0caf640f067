//! What stands before a token.

ghost use Rattle.std.specs.Prelude.{◌≡◌, ◌∷◌, [], ◌+◌, ◌||◌, ◌&&◌, not, min, List, if◌then◌else◌};
ghost use Rattle.tokens.specs.declared.token.Kind.{Kind};
ghost use Rattle.tokens.specs.declared.token.Kind.TheVariants as kinds;
ghost use Rattle.tokens.specs.Tokens.{same_kind};
ghost use Rattle.locations.specs.SourceLocations.{is_process};
ghost use Rattle.locations.specs.TextLines.{most};
ghost use Rattle.statements.specs.TokenContexts.{begins_declaration, is_assigning, is_declaration_word, is_event_word, precedes_statement};
ghost use Rattle.statements.specs.Contexts.{IsContext};

use locations::is_process;
use tokens::token::{Kind, is_kind};

/// What has to be known of the tokens before one.
#[derive(Clone, Copy)]
pub(crate) struct TokenContext {
    /// How many processes begin there.
    pub(crate) processes: usize,
    /// Whether the last token is the sign `@`.
    at_sign: bool,
    /// Whether the last token assigns.
    assigning: bool,
    /// Whether the last token is a `#`, and not that of an assignment.
    delay_sign: bool,
    /// Whether a statement begins here.
    pub(crate) begins: bool,
    /// Whether only words of an event list stand between `@ (` and here.
    pub(crate) event_list: bool,
    /// Whether names are declared here.
    pub(crate) declaration: bool,
    /// Whether a `$strobe` stands before, and no `;` behind it.
    pub(crate) strobe: bool,
}

impl TokenContext {
    /// Before the first token.
    pub(crate) fn of_nothing() -> Self
        ensures { IsContext [] result }
    {
        TokenContext {
            processes: 0,
            at_sign: false,
            assigning: false,
            delay_sign: false,
            begins: false,
            event_list: false,
            declaration: false,
            strobe: false,
        }
    }

    /// Behind one token more, of this kind.
    pub(crate) fn behind(self, kind: Kind) -> Self
        ensures { (before : List Kind) → IsContext before self → IsContext (kind ∷ before) result }
    {
        TokenContext {
            processes: processes_behind(kind, self.processes),
            at_sign: is_kind(kind, Kind::At),
            assigning: is_assigning(kind),
            delay_sign: is_delay_sign(kind, self.assigning),
            begins: begins_behind(kind, self.delay_sign),
            event_list: is_in_event_list(kind, self.event_list, self.at_sign),
            declaration: is_in_declaration(kind, self.declaration),
            strobe: is_in_strobe(kind, self.strobe),
        }
    }
}

/// How many processes begin up to a token of this kind, where so many begin before it.
fn processes_behind(kind: Kind, before: usize) -> usize
    ensures { result ≡ (if is_process kind then min (before + 1) most else before) }
{
    if is_process(kind) {
        before.saturating_add(1)
    } else {
        before
    }
}

/// Whether a token of this kind assigns.
fn is_assigning(kind: Kind) -> bool
    ensures { result ≡ is_assigning kind }
{
    is_kind(kind, Kind::Assign) || is_kind(kind, Kind::AtMost)
}

/// Whether a token of this kind is a `#`, and not that of an assignment.
fn is_delay_sign(kind: Kind, assigning: bool) -> bool
    ensures { result ≡ (same_kind kind kinds.Hash && not assigning) }
{
    is_kind(kind, Kind::Hash) && !assigning
}

/// Whether a statement begins behind a token of this kind, whatever stands before it.
fn precedes_statement(kind: Kind) -> bool
    ensures { result ≡ precedes_statement kind }
{
    match kind {
        Kind::Semicolon | Kind::Begin | Kind::EndBlock => true,
        Kind::Initial | Kind::Always | Kind::Close => true,
        _ => false,
    }
}

/// Whether a statement begins behind a token of this kind, where the sign of a delay stands before it or doesn't.
fn begins_behind(kind: Kind, delay_sign: bool) -> bool
    ensures { result ≡ (precedes_statement kind || (same_kind kind kinds.Decimal && delay_sign)) }
{
    precedes_statement(kind) || (is_kind(kind, Kind::Decimal) && delay_sign)
}

/// Whether a token of this kind can stand in an event list.
fn is_event_word(kind: Kind) -> bool
    ensures { result ≡ is_event_word kind }
{
    match kind {
        Kind::Name | Kind::Or | Kind::Comma => true,
        Kind::Posedge | Kind::Negedge => true,
        _ => false,
    }
}

/// Whether an event list goes on or begins behind a token of this kind.
fn is_in_event_list(kind: Kind, event_list: bool, at_sign: bool) -> bool
    ensures { result ≡ ((is_event_word kind && event_list) || (same_kind kind kinds.Open && at_sign)) }
{
    (is_event_word(kind) && event_list) || (is_kind(kind, Kind::Open) && at_sign)
}

/// Whether a token of this kind can stand in a declaration, behind its first word.
fn is_declaration_word(kind: Kind) -> bool
    ensures { result ≡ is_declaration_word kind }
{
    match kind {
        Kind::Name | Kind::Comma | Kind::Decimal => true,
        Kind::OpenSquare | Kind::Colon | Kind::CloseSquare => true,
        _ => false,
    }
}

/// Whether names are declared behind a token of this kind.
fn begins_declaration(kind: Kind) -> bool
    ensures { result ≡ begins_declaration kind }
{
    match kind {
        Kind::Module | Kind::Reg => true,
        _ => false,
    }
}

/// Whether a declaration begins or goes on behind a token of this kind.
fn is_in_declaration(kind: Kind, declaration: bool) -> bool
    ensures { result ≡ (begins_declaration kind || (is_declaration_word kind && declaration)) }
{
    begins_declaration(kind) || (is_declaration_word(kind) && declaration)
}

/// Whether a `$strobe` begins or goes on behind a token of this kind.
fn is_in_strobe(kind: Kind, strobe: bool) -> bool
    ensures { result ≡ (same_kind kind kinds.Strobe || (not (same_kind kind kinds.Semicolon) && strobe)) }
{
    is_kind(kind, Kind::Strobe) || (!is_kind(kind, Kind::Semicolon) && strobe)
}
