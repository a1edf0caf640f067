//! `explain FILE JOURNAL`: FILE is read and JOURNAL opened. Then the journal is told in words, entry by entry, as it is taken; or a name is told
//! that no register of FILE has.

ghost use Rattle.std.specs.Prelude.{◌≡◌, IfErr, IfOk, List, OnOk, Option, Some, option_map, ℕ};
ghost use Rattle.std.specs.Io.KnownBytes.{Keeps};
ghost use Rattle.explain.specs.Wanted.{wanted_registers};
ghost use Rattle.program.specs.Subjects.{IsExplainedAt, Sources, sources_with};
ghost use Rattle.journal.specs.Counted.{held};
ghost use Rattle.files.specs.Saved.{IsHeld, IsOpened, KeepsFiles};
ghost use Rattle.program.specs.Presentations.{presentation_for, style_for};
ghost use Rattle.program.specs.Printed.{AreAskedFor, HasExplainedSome, HasExplainedTo};
ghost use Rattle.program.specs.AskedRegisters.{AreAsked};
ghost use Rattle.program.specs.Program.{explain_fault, status_of};

use crate::ending::Ending;
use crate::fault::CommandFault;
use crate::observed::no_register;
use crate::subject::{AskedSource, Judged, judged_subject, read_sources};
use arguments::{DesignWords, ExplainRequest};
use design::{Design, RegId};
use explain::{EntryStyle, ExplainFault, ExplainedDesign, Presentation, explain};
use files::{Files, open_file, send_off};
use journal::Counted;
use locations::ProcessLocation;
use progress::Progress;
use replay::BytesFault;
use std::alloc::{AllocError, Global};
use std::io::{Read, Write};
use wavetexts::{NamedRegisters, registers_named};

/// Tells JOURNAL on FILE in words, or a name that no register has.
pub fn explain_journal<'a, F: Files, O: Write>(
    alloc: Global,
    request: &ExplainRequest<'a>,
    design_words: Option<&'a DesignWords<'a>>,
    files: &mut F,
    out: &mut O,
) -> Result<Ending, CommandFault<'a>>
    ensures ended { IfOk result (HasExplainedTo (sources_with (F.held files.old) (option_map (λ w. w.now) design_words.entry)) request.now.file.now request.now.journal.now (option_map (λ names. names.now) request.now.registers) (presentation_for request.now) (O.contents out.old) (O.contents out.new)) }
    ensures refused { IfErr result (λ fault. status_of fault ≡ 5 → HasExplainedSome (sources_with (F.held files.old) (option_map (λ w. w.now) design_words.entry)) request.now.file.now request.now.journal.now (option_map (λ names. names.now) request.now.registers) (presentation_for request.now) (O.contents out.old) (O.contents out.new) fault) }
    ensures nothing { IfErr result (λ fault. status_of fault ≡ 3 → Keeps (O.contents out.old) (O.contents out.new)) }
    ensures unsaved { KeepsFiles (F.made files.old) (F.made files.new) }
{
    let asked = AskedSource {
        file: request.file,
        words: design_words,
    };
    let texts = read_sources(alloc, asked, files)?;
    let mut journal = Counted::new(open_file(request.journal, files)?);
    let found = match judged_subject(alloc, texts, files)? {
        Judged::Taken(found) => found,
        Judged::Wrong(text) => return Ok(Ending::Wrong(text)),
    };
    let subject = ExplainedDesign {
        processes: found.processes.as_slice(),
        design: &found.design,
        presentation: asked_presentation(request),
        registers: None,
    };
    let progress = files.progress_beside_output();
    explain_asked(alloc, subject, request, &mut journal, out, &progress)
}

/// Tells a journal that is left to read, of the registers alone that a request names, where it names any; or a name that no register has.
fn explain_asked<R: Read, O: Write, P: Progress>(
    alloc: Global,
    subject: ExplainedDesign<'_>,
    request: &ExplainRequest<'_>,
    journal: &mut Counted<R>,
    out: &mut O,
    progress: &P,
) -> Result<Ending, CommandFault<'static>>
    requires presented { subject.presentation ≡ presentation_for request.now }
    ensures ended { (from : Sources) (file journal_file : List ℕ) → IsExplainedAt from file subject.entry → IsOpened from.held journal_file (R.remaining (held journal.old)) → IfOk result (HasExplainedTo from file journal_file (option_map (λ names. names.now) request.now.registers) (presentation_for request.now) (O.contents out.old) (O.contents out.new)) }
    ensures refused { (from : Sources) (file journal_file : List ℕ) → IsExplainedAt from file subject.entry → IsOpened from.held journal_file (R.remaining (held journal.old)) → IfErr result (λ fault. status_of fault ≡ 5 → HasExplainedSome from file journal_file (option_map (λ names. names.now) request.now.registers) (presentation_for request.now) (O.contents out.old) (O.contents out.new) fault) }
    ensures nothing { IfErr result (λ fault. status_of fault ≡ 3 → Keeps (O.contents out.old) (O.contents out.new)) }
{
    let asked = asked_registers(alloc, subject.design, request.registers)?;
    match asked {
        AskedRegisters::Every => {
            let every = ExplainedDesign {
                registers: None,
                ..subject
            };
            explain_bytes(alloc, every, journal, out, progress)
        }
        AskedRegisters::Named(registers) => {
            let named = told_alone(
                subject.processes,
                subject.design,
                subject.presentation,
                registers.as_slice(),
            );
            explain_bytes(alloc, named, journal, out, progress)
        }
        AskedRegisters::Unknown(name) => no_register(alloc, name),
    }
}

/// The design of a source, with how a journal is told on it, and the registers of which it is told alone.
fn told_alone<'s>(
    processes: &'s [ProcessLocation],
    design: &'s Design,
    presentation: Presentation,
    registers: &'s [RegId],
) -> ExplainedDesign<'s>
    ensures processes { result.processes.now ≡ processes.entry.now }
    ensures design { result.design.now ≡ design.entry.now }
    ensures presentation { result.presentation ≡ presentation }
    ensures registers { wanted_registers result.registers ≡ Some registers.entry.now }
{
    ExplainedDesign {
        processes,
        design,
        presentation,
        registers: Some(registers),
    }
}

/// Of which registers a journal is asked to be told.
#[derive(Drop)]
enum AskedRegisters<'a> {
    /// Of each.
    Every,
    /// Of these alone.
    Named(Vec<RegId>),
    /// Of a name that no register has.
    Unknown(&'a str),
}

/// The registers that are asked for by the names of a list, where one is given, or the first of these names that no register has.
fn asked_registers<'a>(
    alloc: Global,
    design: &Design,
    names: Option<&'a str>,
) -> Result<AskedRegisters<'a>, AllocError>
    ensures { IfOk result (AreAsked design.now (option_map (λ names. names.now) names.entry)) }
{
    let Some(names) = names else {
        return Ok(AskedRegisters::Every);
    };
    match registers_named(alloc, design, names)? {
        NamedRegisters::All(registers) => Ok(AskedRegisters::Named(registers)),
        NamedRegisters::Unknown(name) => Ok(AskedRegisters::Unknown(name)),
    }
}

/// How the words ask for a journal to be told.
fn asked_presentation(request: &ExplainRequest<'_>) -> Presentation
    ensures { result ≡ presentation_for request.now }
{
    let style = EntryStyle {
        radix: request.radix,
        versions: request.versions,
    };
    Presentation::between(
        request.from,
        request.to,
        request.from_time,
        request.to_time,
        style,
    )
}

/// Tells a journal that is left to read on the design of a source.
fn explain_bytes<R: Read, O: Write, P: Progress>(
    alloc: Global,
    subject: ExplainedDesign<'_>,
    journal: &mut Counted<R>,
    out: &mut O,
    progress: &P,
) -> Result<Ending, CommandFault<'static>>
    ensures ended { (from : Sources) (file journal_file : List ℕ) (names : Option (List ℕ)) → IsExplainedAt from file subject.entry → IsOpened from.held journal_file (R.remaining (held journal.old)) → AreAskedFor subject.entry.design.now names (wanted_registers subject.entry.registers) → IfOk result (HasExplainedTo from file journal_file names subject.entry.presentation (O.contents out.old) (O.contents out.new)) }
    ensures refused { (from : Sources) (file journal_file : List ℕ) (names : Option (List ℕ)) → IsExplainedAt from file subject.entry → IsOpened from.held journal_file (R.remaining (held journal.old)) → AreAskedFor subject.entry.design.now names (wanted_registers subject.entry.registers) → IfErr result (λ fault. status_of fault ≡ 5 → HasExplainedSome from file journal_file names subject.entry.presentation (O.contents out.old) (O.contents out.new) fault) }
    ensures nothing { IfErr result (λ fault. status_of fault ≡ 3 → Keeps (O.contents out.old) (O.contents out.new)) }
{
    let told = explain(alloc, subject, journal, out, progress);
    progress.end();
    match told {
        Ok(()) => {
            send_off(out)?;
            Ok(Ending::Done)
        }
        Err(fault) => Err(told_fault(fault)),
    }
}

/// A fault of a journal that was told, as one of the program: that of a replay, where a replay has it.
fn told_fault(fault: ExplainFault) -> CommandFault<'static>
    ensures { result ≡ explain_fault fault }
{
    match fault {
        ExplainFault::Read(fault) => CommandFault::Replay(BytesFault::Read(fault)),
        ExplainFault::Replay(fault) => CommandFault::Replay(BytesFault::Replay(fault)),
        ExplainFault::CannotWrite => CommandFault::Replay(BytesFault::CannotWrite),
        ExplainFault::Memory => CommandFault::Memory,
    }
}
