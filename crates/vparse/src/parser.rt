//! From a text to a module.

ghost use Rattle.std.specs.Prelude.{◌≡◌, ◌≤◌, ◌+◌, ◌⊎◌, ℕ, map, length, false, IfOk, IfErr, MatchResult};
ghost use Rattle.tokens.specs.Tokens.{plain_token};
ghost use Rattle.tokens.specs.Lexing.{Stops, stray, bad_number};
ghost use Rattle.model.specs.SourceTrees.{module_of};
ghost use Rattle.model.specs.Syntax as tree;
ghost use Rattle.grammar.specs.Grammar.{IsModule};
ghost use Rattle.vparse.specs.Nesting.{IsDeep, IsDeepAt};
ghost use Rattle.vparse.specs.Spells.{Spells, IsUnspelledAt, IsDeepText, IsDeepTextAt};
ghost use Rattle.vparse.specs.TextFaults.{of_cut, of_tokens, is_syntax};

use crate::nesting::too_deep;
use grammar::{Cursor, GrammarFault, Rules, discard, parse_source};
use model::tree::Module;
use std::alloc::Global;
use thiserror::Error;
use tokens::cut::{CutFault, cut};
use tokens::token::Token;

/// Why tokens aren't read, and at which one, counted from 1.
#[derive(Clone, Copy)]
struct Misfit {
    fault: GrammarFault,
    token: usize,
}

/// The number of a token, by how many are left there. The end of the text counts as the last token.
fn number(all: usize, left: usize) -> usize
    ensures place { 1 ≤ left → left ≤ all → result + left ≡ all + 1 }
    ensures counted { 1 ≤ result }
    ensures within { result ≤ all + 1 }
{
    all.saturating_sub(left).saturating_add(1)
}

/// The module that the tokens spell.
fn read_module(alloc: Global, tokens: &[Token<'_>]) -> Result<Module, Misfit>
    ensures spelled { IfOk result (λ m. IsModule (module_of m) (map plain_token tokens.now)) }
    ensures shallow { IfOk result (λ _. ¬ (IsDeep (map plain_token tokens.now))) }

    // Where a module spells the tokens and nests no deeper than the limit, it is answered.
    ensures answered { (m : tree.Module) → IsModule m (map plain_token tokens.now) → ¬ (IsDeep (map plain_token tokens.now))
        → MatchResult result (λ found. module_of found ≡ m) (λ e. e.fault ≡ GrammarFault.Memory) }

    // When each error comes.
    ensures syntax { (m : tree.Module) → IsModule m (map plain_token tokens.now) → MatchResult result (λ _. Unit {0}) (λ e. is_syntax e.fault ≡ false) }
    ensures deep { MatchResult result (λ _. Unit {0}) (λ e. e.fault ≡ GrammarFault.Deep → IsDeep (map plain_token tokens.now)) }
    ensures deep_first { MatchResult result (λ _. Unit {0}) (λ e. e.fault ≡ GrammarFault.Deep → IsDeepAt (map plain_token tokens.now) e.token) }
    ensures counted { IfErr result (λ e. 1 ≤ e.token) }
    ensures within { IfErr result (λ e. e.token ≤ length tokens.now + 1) }
{
    let stop = too_deep(tokens);
    let mut cursor = Cursor::new(tokens);
    // A budget of all tokens suffices: every expression and every statement inside another, and every turn of a loop, comes
    // after a token that is taken for it.
    match parse_source(Rules { alloc, stop }, &mut cursor, tokens.len()) {
        Err(fault) => Err(Misfit {
            fault,
            token: number(tokens.len(), cursor.len()),
        }),
        Ok(found) => {
            if let Some(left) = stop {
                discard(found);
                return Err(Misfit {
                    fault: GrammarFault::Deep,
                    token: number(tokens.len(), left),
                });
            }
            Ok(found)
        }
    }
}

/// Why a text is refused. Bytes are counted from 0 and tokens from 1; the end of the text counts as the last token.
#[derive(Clone, Copy, Debug, Error)]
pub enum ParseFault {
    /// No token, space or comment begins at this byte, or a string or comment that begins here is unfinished or holds
    /// what it may not.
    #[error("P1 byte not allowed at {0}")]
    Byte(usize),
    /// The tokens before this one begin some module, and with this one they begin none.
    #[error("P2 syntax at token {0}")]
    Syntax(usize),
    /// A number that begins at this byte is malformed or too wide.
    #[error("P3 literal at {0}")]
    Literal(usize),
    /// A nesting count passes its limit at this token.
    #[error("P4 nesting at token {0}")]
    Deep(usize),
    /// As `Syntax`, and the token is a plain decimal where a sized literal would begin a module.
    #[error("P5 unsized number at token {0}")]
    Unsized(usize),
    /// Memory is refused.
    #[error("P6 memory")]
    Memory,
}

/// Why a text is refused that isn't cut into tokens.
fn of_cut(fault: CutFault) -> ParseFault
    ensures { result ≡ of_cut fault }
{
    match fault {
        CutFault::Stray(place) => ParseFault::Byte(place),
        CutFault::BadNumber(place) => ParseFault::Literal(place),
        CutFault::Memory => ParseFault::Memory,
    }
}

/// Why a text is refused whose tokens aren't read, at the one with this number.
fn of_tokens(fault: GrammarFault, token: usize) -> ParseFault
    ensures { result ≡ of_tokens fault token }
{
    match fault {
        GrammarFault::Syntax => ParseFault::Syntax(token),
        GrammarFault::Unsized => ParseFault::Unsized(token),
        GrammarFault::Deep => ParseFault::Deep(token),
        GrammarFault::Memory => ParseFault::Memory,
    }
}

/// The module that a text spells.
pub fn parse(alloc: Global, text: &[u8]) -> Result<Module, ParseFault>
    ensures spelled { IfOk result (λ m. Spells (module_of m) text.now) }
    ensures shallow { IfOk result (λ _. ¬ (IsDeepText text.now)) }

    // Where a module spells the text and nests no deeper than the limit, it is answered.
    ensures answered { (m : tree.Module) → Spells m text.now → ¬ (IsDeepText text.now)
        → MatchResult result (λ found. module_of found ≡ m) (λ e. e ≡ ParseFault.Memory) }

    // When each error comes.
    ensures byte { (place : ℕ) → result ≡ Err (ParseFault.Byte place) → Stops text.now stray place }
    ensures literal { (place : ℕ) → result ≡ Err (ParseFault.Literal place) → Stops text.now bad_number place }
    ensures byte_first { (place : ℕ) → Stops text.now stray place
        → MatchResult result (λ _. ⊥) (λ e. (e ≡ ParseFault.Byte place) ⊎ (e ≡ ParseFault.Memory)) }
    ensures literal_first { (place : ℕ) → Stops text.now bad_number place
        → MatchResult result (λ _. ⊥) (λ e. (e ≡ ParseFault.Literal place) ⊎ (e ≡ ParseFault.Memory)) }
    ensures syntax { (n : ℕ) → result ≡ Err (ParseFault.Syntax n) → IsUnspelledAt text.now n }
    ensures no_size { (n : ℕ) → result ≡ Err (ParseFault.Unsized n) → IsUnspelledAt text.now n }
    ensures deep { (n : ℕ) → result ≡ Err (ParseFault.Deep n) → IsDeepText text.now }
    ensures deep_first { (n : ℕ) → result ≡ Err (ParseFault.Deep n) → IsDeepTextAt text.now n }
{
    let tokens = match cut(alloc, text) {
        Ok(tokens) => tokens,
        Err(fault) => return Err(of_cut(fault)),
    };
    match read_module(alloc, &tokens) {
        Ok(found) => Ok(found),
        Err(misfit) => Err(of_tokens(misfit.fault, misfit.token)),
    }
}
