//! Where processes, and what they do, stand in a source.
ghost use Rattle.std.specs.Prelude.{◌≡◌, ◌≢◌, [], IfOk, map};
ghost use Rattle.tokens.specs.declared.cut.CutFault.TheVariants as faults;
ghost use Rattle.statements.specs.PlainStatementTokens.{plain_statement_token};
ghost use Rattle.naming.specs.SourcePlaces.{ArePlacesOf, AreStatementsOf};

use locations::ProcessLocation;
use statements::{StatementToken, statement_tokens};
use std::alloc::{AllocError, Global};
use tokens::cut::CutFault;

/// Where processes stand, as people call them, and the tokens of a source that do something in a statement.
#[derive(Clone, Copy)]
pub(crate) struct SourcePlaces<'a> {
    pub(crate) alloc: Global,
    pub(crate) source: &'a [u8],
    pub(crate) processes: &'a [ProcessLocation],
    pub(crate) statements: &'a [StatementToken<'a>],
}

/// Where processes stand, and the places of a source, by its tokens that do something.
pub(crate) fn places_with<'a>(
    alloc: Global,
    processes: &'a [ProcessLocation],
    source: &'a [u8],
    statements: &'a [StatementToken<'a>],
) -> SourcePlaces<'a>
    requires { AreStatementsOf source.now (map plain_statement_token statements.now) }
    ensures { ArePlacesOf processes.entry.now source.entry.now result }
{
    SourcePlaces {
        alloc,
        source,
        processes,
        statements,
    }
}

/// The tokens of a source that do something in a statement; none where it isn't cut into tokens.
pub(crate) fn statements_of<'a>(
    alloc: Global,
    source: &'a [u8],
) -> Result<Vec<StatementToken<'a>>, AllocError>
    ensures { IfOk result (λ found. AreStatementsOf source.now (map plain_statement_token found.items)) }
{
    match statement_tokens(alloc, source) {
        Ok(found) => Ok(found),
        Err(fault) => none_uncut(alloc, fault),
    }
}

/// None of what is found in the tokens of a source, where it isn't cut into tokens. Fails where that is for want of memory.
pub(crate) fn none_uncut<T>(alloc: Global, fault: CutFault) -> Result<Vec<T>, AllocError>
    ensures empty { IfOk result (λ found. found.items ≡ []) }
    ensures known { IfOk result (λ _. fault ≢ faults.Memory) }
{
    match fault {
        CutFault::Memory => Err(AllocError),
        CutFault::Stray(_) => Ok(Vec::new(alloc)),
        CutFault::BadNumber(_) => Ok(Vec::new(alloc)),
    }
}
