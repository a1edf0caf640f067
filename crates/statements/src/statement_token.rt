//! The tokens of a source that do something in a statement.

ghost use Rattle.std.specs.Prelude.{◌≡◌, ◌++◌, ◌∷◌, [], ◌||◌, map, IfOk, IfErr, OnOk};
ghost use Rattle.locations.specs.PlainSpots.{plain_spot};
ghost use Rattle.locations.specs.Spots.{IsUncut};
ghost use Rattle.statements.specs.Parts.{part_at};
ghost use Rattle.statements.specs.PlainStatementTokens.{plain_statement_token};
ghost use Rattle.statements.specs.StatementTokens.{AreStatementTokens, next_kind, token_with};

use crate::context::TokenContext;
use crate::part::{StatementPart, part_at};
use locations::{Spot, spots};
use std::alloc::{AllocError, Global};
use tokens::cut::CutFault;
use tokens::token::Kind;

/// A token that does something in a statement: what, of which process, counted from 1 and 0 where none has begun, what it is
/// spelled with, and its first byte.
#[derive(Clone, Copy)]
pub struct StatementToken<'a> {
    pub part: StatementPart,
    pub process: usize,
    pub text: &'a str,
    pub byte: usize,
}

/// The kind of the token at the front, and that of the end where there is none.
fn next_kind(behind: &[Spot<'_>]) -> Kind
    ensures { result ≡ next_kind (map plain_spot behind.now) }
{
    match behind {
        [next, ..] => next.token.kind,
        [] => Kind::End,
    }
}

/// What a token does behind others, if it does something.
fn part_behind(context: TokenContext, kind: Kind, next: Kind) -> Option<StatementPart>
    ensures { result ≡ part_at kind next context.begins context.event_list (context.declaration || context.strobe) }
{
    let silent = context.declaration || context.strobe;
    part_at(kind, next, context.begins, context.event_list, silent)
}

/// Adds a token that does something to those found. Fails where memory is refused.
fn push_token<'a>(
    found: &mut Vec<StatementToken<'a>>,
    process: usize,
    part: StatementPart,
    spot: &Spot<'a>,
) -> Result<(), AllocError>
    ensures { OnOk result (map plain_statement_token found.new.items ≡ map plain_statement_token found.old.items ++ record { part = part; process = process; text = spot.entry.now.token.text.now; byte = spot.entry.now.byte } ∷ []) }
{
    found.push(StatementToken {
        part,
        process,
        text: spot.token.text,
        byte: spot.byte,
    })?;
    Ok(())
}

/// Adds a token to those found, if it does something. Fails where memory is refused.
fn add_token<'a>(
    found: &mut Vec<StatementToken<'a>>,
    context: TokenContext,
    spot: &Spot<'a>,
    next: Kind,
) -> Result<(), AllocError>
    ensures { OnOk result (map plain_statement_token found.new.items ≡ map plain_statement_token found.old.items ++ token_with context.processes (plain_spot spot.entry.now) (part_at spot.entry.now.token.kind next context.begins context.event_list (context.declaration || context.strobe))) }
{
    let part = match part_behind(context, spot.token.kind, next) {
        Some(part) => part,
        None => return Ok(()),
    };
    push_token(found, context.processes, part, spot)
}

/// The tokens of a source that do something in a statement, in their order.
///
/// # Errors
///
/// Why the source isn't cut into tokens.
pub fn statement_tokens<'a>(
    alloc: Global,
    source: &'a [u8],
) -> Result<Vec<StatementToken<'a>>, CutFault>
    ensures found { IfOk result (λ found. AreStatementTokens source.now (map plain_statement_token found.items)) }
    ensures fault { IfErr result (IsUncut source.now) }
{
    let spots = match spots(alloc, source) {
        Ok(spots) => spots,
        Err(fault) => return Err(fault),
    };
    let mut found = Vec::new(alloc);
    let mut context = TokenContext::of_nothing();
    let mut left = spots.as_slice();
    while let [spot, rest @ ..] = left {
        add_token(&mut found, context, spot, next_kind(rest))?;
        context = context.behind(spot.token.kind);
        left = rest;
    }
    Ok(found)
}
