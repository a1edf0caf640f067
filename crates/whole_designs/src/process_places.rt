//! Where the processes of a design stand.

ghost use Rattle.std.specs.Prelude.{◌≡◌, IfOk, length, map};

use crate::line_index::{FileLine, LineIndex};
use design_scopes::scoped::{PlacedProcess, ScopedDesign};
use lexemes::token::{FileSpan, SourceFile, VerilogToken};
use locations::{ProcessLocation, push_shown_bytes};
use model::tree::SourceProcess;
use source_texts::settings::LineMark;
use std::alloc::{AllocError, Global};

/// Where a token was written by people: where the outermost macro was used from which it comes, and else where it stands.
fn written(token: &VerilogToken) -> FileSpan {
    match token.use_place {
        Some(place) => place,
        None => token.span,
    }
}

/// The line of a token; line 0 of no file where there is no such token.
fn line_at<'f>(index: &LineIndex<'f>, tokens: &[VerilogToken], token: usize) -> FileLine<'f> {
    let nowhere = FileLine { file: &[], line: 0 };
    match tokens.get(token) {
        Some(found) => index.line_of(written(found)).unwrap_or(nowhere),
        None => nowhere,
    }
}

/// The place of a process: the file and the line in which its word stands, as `` `line`` directives have them, and the full name of the
/// scope in which it stands.
fn place_of(
    alloc: Global,
    index: &LineIndex<'_>,
    tokens: &[VerilogToken],
    design: &ScopedDesign,
    placed: &PlacedProcess,
    process: &SourceProcess,
) -> Result<ProcessLocation, AllocError>
    ensures { IfOk result (λ place. place.always ≡ process.now.repeats) }
{
    let line = line_at(index, tokens, placed.token);
    let scope = design.tree.path(placed.scope);
    let mut at = String::new(alloc);
    push_shown_bytes(&mut at, line.file)?;
    write!(at, ":{} in {scope}", line.line)?;
    Ok(ProcessLocation {
        always: process.repeats,
        at,
    })
}

/// The places of the processes of a design's flat module, in their order.
pub(crate) fn process_places(
    alloc: Global,
    files: &[SourceFile],
    lines: &[LineMark],
    tokens: &[VerilogToken],
    design: &ScopedDesign,
    processes: &[SourceProcess],
) -> Result<Vec<ProcessLocation>, AllocError>
    requires { length design.now.processes.items ≡ length processes.now }
    ensures { IfOk result (λ places. map (λ p. p.always) places.items ≡ map (λ p. p.repeats) processes.now) }
{
    let index = LineIndex::new(alloc, files, lines)?;
    let mut found = Vec::new(alloc);
    let mut left = design.processes.as_slice();
    for process in processes {
        let [placed, others @ ..] = left else {
            return Ok(found);
        };
        found.push(place_of(alloc, &index, tokens, design, placed, process)?)?;
        left = others;
    }
    Ok(found)
}
