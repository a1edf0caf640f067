//! From the tokens of a text to its modules.

ghost use Rattle.std.specs.Prelude.{◌≡◌, ◌≤◌, length, IfOk, IfErr, IfSome};
ghost use Rattle.syntax.specs.Faults.{AreInText, IsToldWithin, SaysSomething};

use crate::modules::parse_module;
use expression_syntax::faults::{ExpectedToken, ReadingStop, SyntaxStop};
use expression_syntax::reader::Reader;
use expression_syntax::refusals::{Refused, SyntaxRefusal};
use expression_syntax::texts::TokenSource;
use lexemes::token::{Keyword, Sign, SourceFile, VerilogToken};
use statement_syntax::expected::{add, or_stop, refuse_next, stop_expecting};
use statement_syntax::words::{LaterWord, later_word, next_word};
use std::alloc::{AllocError, Global};
use syntax_tree::modules::ModuleDeclaration;

/// Where a text isn't Verilog, or nests too deep: the number of the token, counted from 0, or that of all tokens for the end
/// of the text.
#[derive(Clone, Copy)]
pub struct SyntaxFault {
    pub token: usize,
    pub reason: SyntaxReason,
}

#[derive(Clone, Copy)]
pub enum SyntaxReason {
    /// Something else was expected there.
    Expected(ExpectedToken),
    /// More brackets, blocks and statements are open there, or more operators stand in a statement, than may.
    Deep,
}

/// What is wrong with a text: all that is refused before the first fault, up to a hundred, and the fault.
#[derive(Drop)]
pub struct TextFaults {
    pub refusals: Vec<SyntaxRefusal>,
    pub fault: Option<SyntaxFault>,
}

/// Why a text has no modules to show.
#[derive(Drop)]
pub enum SourceParseFault {
    Text(TextFaults),
    /// Memory is refused.
    Memory,
}

/// Goes behind a construct that is refused, up to the word that ends it.
fn refuse_until(source: &TokenSource<'_>, reader: &mut Reader, construct: Refused, end: Keyword) {
    refuse_next(source, reader, construct);
    reader.skip_past_word(source, end);
}

/// Goes behind a construct that is refused, up to its `;`.
fn refuse_line(source: &TokenSource<'_>, reader: &mut Reader, construct: Refused) {
    refuse_next(source, reader, construct);
    reader.skip_past(source, Sign::Semicolon);
}

/// Goes behind what no keyword begins, which has to be a construct of SystemVerilog, and is refused.
fn skip_later(source: &TokenSource<'_>, reader: &mut Reader) {
    match later_word(source, reader) {
        LaterWord::Type | LaterWord::Other => refuse_line(source, reader, Refused::SystemVerilog),
        _ => stop_expecting(source, reader, ExpectedToken::Module),
    }
}

/// Goes behind what stands beside modules, which has to be a construct that is refused.
fn skip_description(source: &TokenSource<'_>, reader: &mut Reader) {
    let Some(word) = next_word(source, reader) else {
        skip_later(source, reader);
        return;
    };
    match word {
        Keyword::Primitive => refuse_until(
            source,
            reader,
            Refused::Primitive,
            Keyword::EndPrimitive,
        ),
        Keyword::Config => refuse_until(source, reader, Refused::Configuration, Keyword::EndConfig),
        Keyword::Library | Keyword::Include => refuse_line(source, reader, Refused::Library),
        _ => stop_expecting(source, reader, ExpectedToken::Module),
    }
}

/// Reads a module and adds it, or goes behind what stands beside modules and is refused.
fn parse_description(
    source: &TokenSource<'_>,
    reader: &mut Reader,
    found: &mut Vec<ModuleDeclaration>,
) {
    or_stop(reader.skip_attributes(source), source, reader);
    if reader.sees_word(source, Keyword::Module) || reader.sees_word(source, Keyword::MacroModule) {
        add(found, parse_module(source, reader), source, reader);
    } else {
        skip_description(source, reader);
    }
}

/// Reads modules up to the end of the text.
fn parse_descriptions(source: &TokenSource<'_>, reader: &mut Reader) -> Vec<ModuleDeclaration> {
    let mut found = Vec::new(source.alloc);
    for _description in 0..source.tokens.len() {
        if reader.is_done(source) {
            break;
        }
        parse_description(source, reader, &mut found);
    }
    if !reader.is_done(source) {
        stop_expecting(source, reader, ExpectedToken::Module);
    }
    found
}

/// What was refused, each at a token of the text or its end.
fn refusals_within(
    alloc: Global,
    found: &[SyntaxRefusal],
    all: usize,
) -> Result<Vec<SyntaxRefusal>, AllocError>
    ensures within { IfOk result (λ kept. AreInText all kept.items) }
    ensures each { IfOk result (λ kept. length kept.items ≡ length found.now) }
{
    let mut kept = Vec::new(alloc);
    for refusal in found {
        kept.push(SyntaxRefusal {
            token: refusal.token.min(all),
            construct: refusal.construct,
        })?;
    }
    Ok(kept)
}

/// The fault of a text at a token or its end.
fn fault_of(stop: ReadingStop, all: usize) -> Option<SyntaxFault>
    ensures { IfSome result (λ fault. fault.token ≤ all) }
{
    let token = stop.token.min(all);
    match stop.why {
        SyntaxStop::Memory => None,
        SyntaxStop::Deep => Some(SyntaxFault {
            token,
            reason: SyntaxReason::Deep,
        }),
        SyntaxStop::Expected(expected) => Some(SyntaxFault {
            token,
            reason: SyntaxReason::Expected(expected),
        }),
    }
}

/// The modules of a text, in its order.
///
/// Where the text has what this language lacks, or isn't Verilog, that is told: all refusals before the first fault, up to a
/// hundred, and the fault. Each names a token of the text, or its end.
pub fn parse(
    alloc: Global,
    tokens: &[VerilogToken],
    files: &[SourceFile],
) -> Result<Vec<ModuleDeclaration>, SourceParseFault>
    ensures within { IfErr result (IsToldWithin (length tokens.now)) }
    ensures some { IfErr result SaysSomething }
{
    let source = TokenSource {
        alloc,
        tokens,
        files,
    };
    let mut reader = Reader::new(alloc);
    let found = parse_descriptions(&source, &mut reader);
    match reader.stopped() {
        None => answer(&source, reader, found),
        Some(stop) => Err(told(&source, reader, stop)),
    }
}

/// The modules, unless something was refused.
fn answer(
    source: &TokenSource<'_>,
    reader: Reader,
    found: Vec<ModuleDeclaration>,
) -> Result<Vec<ModuleDeclaration>, SourceParseFault>
    ensures within { IfErr result (IsToldWithin (length source.now.tokens.now)) }
    ensures some { IfErr result SaysSomething }
{
    let refusals = reader.into_refusals();
    if refusals.len() == 0 {
        return Ok(found);
    }
    match refusals_within(source.alloc, &refusals, source.tokens.len()) {
        Err(_) => Err(SourceParseFault::Memory),
        Ok(refusals) => Err(SourceParseFault::Text(TextFaults {
            refusals,
            fault: None,
        })),
    }
}

/// What is told where reading stopped.
fn told(source: &TokenSource<'_>, reader: Reader, stop: ReadingStop) -> SourceParseFault
    ensures within { IsToldWithin (length source.now.tokens.now) result }
    ensures some { SaysSomething result }
{
    let all = source.tokens.len();
    let Some(fault) = fault_of(stop, all) else {
        return SourceParseFault::Memory;
    };
    match refusals_within(source.alloc, &reader.into_refusals(), all) {
        Err(_) => SourceParseFault::Memory,
        Ok(refusals) => SourceParseFault::Text(TextFaults {
            refusals,
            fault: Some(fault),
        }),
    }
}
