//! The values that are given to parameters of top modules.

ghost use Rattle.std.specs.Prelude.{List, IfErr};
ghost use Rattle.lexemes.specs.declared.token.SourceFile.{SourceFile};
ghost use Rattle.whole_designs.specs.Refusals.{AreFoundIn};

use crate::asked::GivenParameter;
use design_faults::refused::{FoundFaults, WholeFault, alone, unplaced};
use expression_syntax::faults::SyntaxStop;
use expression_syntax::reader::Reader;
use expression_syntax::reading::read_expression;
use expression_syntax::texts::TokenSource;
use hierarchy::elaboration::TopParameter;
use lexemes::cut::{LexicalFault, cut};
use lexemes::token::{LexemeKind, SourceFile, VerilogToken};
use shaped_trees::constants::Constant;
use sizing::environment::{Environment, Object};
use sizing::faults::ExpressionFault;
use sizing::lowering::constant;
use std::alloc::{AllocError, Global};
use syntax_tree::expressions::VerilogExpression;

/// A place at which no name means anything.
struct Nowhere;

impl Environment for Nowhere {
    ghost use Rattle.whole_designs.specs.Given.{no_names};

    ghost means = { λ _. no_names };

    fn scope(&self, _within: Option<usize>, _name: &[u8], _index: Option<i64>) -> Option<usize> {
        None
    }

    fn object(&self, _within: Option<usize>, _name: &[u8]) -> Option<&Object> {
        None
    }

    fn call(&self, _token: usize) -> Option<&Object> {
        None
    }
}

/// That the value of a parameter is no expression of constants.
#[tactic(auto, using(crate::proofs::PlacedFaults::found_nowhere))]
fn no_value(alloc: Global) -> FoundFaults
    ensures { (files : List SourceFile) → AreFoundIn files result }
{
    alone(alloc, unplaced(WholeFault::ParameterValue))
}

/// The longest text of a value that is read, in bytes.
const LONGEST: usize = 4_294_967_295;

/// The tokens of a text; none where it has others than an expression has, or is longer than that.
fn tokens_of(alloc: Global, text: &[u8]) -> Result<Option<Vec<VerilogToken>>, AllocError> {
    if text.len() > LONGEST {
        return Ok(None);
    }
    let lexemes = match cut(alloc, 0, text) {
        Ok(lexemes) => lexemes,
        Err(LexicalFault::Memory) => return Err(AllocError),
        Err(_) => return Ok(None),
    };
    let mut tokens = Vec::new(alloc);
    for lexeme in &lexemes {
        let LexemeKind::Token(kind) = lexeme.kind else {
            return Ok(None);
        };
        tokens.push(VerilogToken {
            kind,
            span: lexeme.span,
            use_place: None,
        })?;
    }
    Ok(Some(tokens))
}

/// The expression that a text is; none where it is no whole one.
fn expression_of(
    alloc: Global,
    files: &[SourceFile],
    tokens: &[VerilogToken],
) -> Result<Option<VerilogExpression>, AllocError> {
    let source = TokenSource {
        alloc,
        tokens,
        files,
    };
    let mut reader = Reader::new(alloc);
    let read = match read_expression(&source, &mut reader) {
        Ok(read) => read,
        Err(SyntaxStop::Memory) => return Err(AllocError),
        Err(_) => return Ok(None),
    };
    let whole = reader.is_done(&source);
    let refusals = reader.into_refusals();
    if whole && refusals.is_empty() {
        Ok(Some(read))
    } else {
        Ok(None)
    }
}

/// A file that has this text, alone in a list.
fn only_file(alloc: Global, text: &str) -> Result<Vec<SourceFile>, AllocError> {
    let text = Vec::from_slice(alloc, text.as_bytes())?;
    let name = String::new(alloc);
    let mut files = Vec::new(alloc);
    files.push(SourceFile { name, text })?;
    Ok(files)
}

/// What an expression is worth.
fn worth(alloc: Global, e: &VerilogExpression) -> Result<Constant, FoundFaults>
    ensures { (files : List SourceFile) → IfErr result (AreFoundIn files) }
{
    match constant(alloc, &Nowhere, e) {
        Ok(value) => Ok(value),
        Err(ExpressionFault::Memory) => Err(FoundFaults::Memory),
        Err(ExpressionFault::At { .. }) => Err(no_value(alloc)),
    }
}

/// What the tokens of a value are worth.
fn value_of_tokens(
    alloc: Global,
    files: &[SourceFile],
    tokens: &[VerilogToken],
) -> Result<Constant, FoundFaults>
    ensures { (files : List SourceFile) → IfErr result (AreFoundIn files) }
{
    let Some(e) = expression_of(alloc, files, tokens)? else {
        return Err(no_value(alloc));
    };
    let value = worth(alloc, &e);
    drop(e);
    value
}

/// What the text of a value is worth.
fn value_of(alloc: Global, text: &str) -> Result<Constant, FoundFaults>
    ensures { (files : List SourceFile) → IfErr result (AreFoundIn files) }
{
    let Some(tokens) = tokens_of(alloc, text.as_bytes())? else {
        return Err(no_value(alloc));
    };
    let files = only_file(alloc, text)?;
    value_of_tokens(alloc, files.as_slice(), tokens.as_slice())
}

/// The parameters of top modules with their values.
pub(crate) fn top_parameters<'a>(
    alloc: Global,
    given: &[GivenParameter<'a>],
) -> Result<Vec<TopParameter<'a>>, FoundFaults>
    ensures { (files : List SourceFile) → IfErr result (AreFoundIn files) }
{
    let mut found = Vec::new(alloc);
    for parameter in given {
        let value = match value_of(alloc, parameter.value) {
            Ok(value) => value,
            Err(faults) => return Err(faults),
        };
        let name = parameter.name.as_bytes();
        found.extend_from_slice(&[TopParameter { name, value }])?;
    }
    Ok(found)
}
