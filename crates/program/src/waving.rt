//! `waves FILE JOURNAL --out OUT`: an OUT that is FILE or JOURNAL is refused. FILE is read, JOURNAL is opened and read, and OUT is begun.
//! Then the registers over time are written to OUT as a value change dump, and OUT stands in its place.

ghost use Rattle.std.specs.Prelude.{◌≡◌, Some, IfOk, List, OnErr, OnOk, Option, ℕ, map, option_map, string_bytes};
ghost use Rattle.waves.specs.ScopedDump.{plain_scope};
ghost use Rattle.clap.specs.Words.{Text};
ghost use Rattle.arguments.specs.CommandWords.{AsksWaves};
ghost use Rattle.design.specs.Compiled.{design_of};
ghost use Rattle.waves.specs.Waves.{IsWaveOf};
ghost use Rattle.program.specs.Dumps.{IsDumpedOf, IsDumpedSource, IsDumpedWhole, IsDumpTextOf, IsNameOfModule, dump_text_in};
ghost use Rattle.program.specs.Subjects.{IfJudged, IfTaken, plain_design_scope, sources_with};
ghost use Rattle.files.specs.Saved.{KeepsFiles, LeadsElsewhere};
ghost use Rattle.program.specs.Printed.{HasDumpedTo, HasEnded};

use crate::ending::Ending;
use crate::fault::CommandFault;
use crate::reading::{CommandJournal, entries_of};
use crate::subject::{
    AskedSource, DesignSubject, Judged, SourceTexts, WholeTexts, judged_whole, read_sources,
    spare_sources,
};
use arguments::{DesignWords, WavesRequest};
use design::Design;
use files::{Files, begin_at, open_file, save_text, spare_source};
use frontend::{SourceFault, read_design};
use model::entry::Entry;
use model::tree::Module;
use progress::Progress;
use replay::BytesFault;
use std::alloc::{AllocError, Global};
use vparse::parse;
use waves::{ShownScope, Wave, WaveFault, scoped_dump, value_change_dump, waves};
use whole_designs::whole::{DesignScope, DesignScopes};

/// Writes the value change dump of JOURNAL on FILE to OUT. Standard output is left as it is, whatever it holds.
pub fn dump_waves<'a, F: Files>(
    alloc: Global,
    request: &WavesRequest<'a>,
    design_words: Option<&'a DesignWords<'a>>,
    files: &mut F,
) -> Result<Ending, CommandFault<'a>>
    ensures dumped { IfOk result (HasDumpedTo (sources_with (F.held files.old) (option_map (λ w. w.now) design_words.entry)) request.now.file.now request.now.journal.now request.now.out.now (F.made files.old) (F.made files.new)) }
    ensures unsaved { OnErr result (KeepsFiles (F.made files.old) (F.made files.new)) }
    ensures source_spared { OnOk result (LeadsElsewhere (F.alike files.old) request.now.file.now (Some request.now.out.now)) }
    ensures journal_spared { OnOk result (LeadsElsewhere (F.alike files.old) request.now.journal.now (Some request.now.out.now)) }
    ensures ended { (words : List Text) (known : Option (List ℕ)) → AsksWaves words request.now → IfOk result (HasEnded (sources_with (F.held files.old) (option_map (λ w. w.now) design_words.entry)) words known known (F.made files.old) (F.made files.new)) }
{
    let asked = AskedSource {
        file: request.file,
        words: design_words,
    };
    spare_sources(asked, Some(request.out), files)?;
    spare_source(request.journal, Some(request.out), files)?;
    let texts = read_sources(alloc, asked, files)?;
    let journal = open_file(request.journal, files)?;
    let dumped = match dumped_design(alloc, texts, files)? {
        Judged::Taken(dumped) => dumped,
        Judged::Wrong(text) => return Ok(Ending::Wrong(text)),
    };
    let entries = entries_of(alloc, journal, CommandJournal::Only)?;
    let target = begin_at(request.out, files)?;
    let text = dump_of(alloc, &dumped, entries.as_slice(), &files.progress())?;
    save_text(text.as_slice(), request.out, target, files)?;
    Ok(Ending::Done)
}

/// In which scopes the registers of a design are shown: in one of a name, or in those of a whole design.
#[derive(Drop)]
enum DumpedScopes {
    One(String),
    Several(DesignScopes),
}

/// A design, and the scopes in which its registers are shown.
#[derive(Drop)]
struct DumpedDesign {
    design: Design,
    scopes: DumpedScopes,
}

/// The design of texts, with the scopes in which its registers are shown, or what is wrong with those of a whole design.
fn dumped_design<F: Files>(
    alloc: Global,
    texts: SourceTexts<'_>,
    files: &mut F,
) -> Result<Judged<DumpedDesign>, CommandFault<'static>>
    ensures judged { IfOk result (λ found. IfJudged texts.entry found (IsDumpedOf texts.entry)) }
    ensures kept { KeepsFiles (F.made files.old) (F.made files.new) }
{
    match texts {
        SourceTexts::Profile(source) => {
            let dumped = dumped_source(alloc, source.as_slice())?;
            Ok(Judged::Taken(dumped))
        }
        SourceTexts::Whole(texts) => dumped_whole(alloc, texts, files),
    }
}

/// The design of a source, with the name of its module.
fn dumped_source(alloc: Global, source: &[u8]) -> Result<DumpedDesign, CommandFault<'static>>
    ensures { IfOk result (λ dumped. IsDumpedSource source.now dumped.design dumped.scopes) }
{
    let design = read_design(alloc, source)?;
    let name = module_name(alloc, source)?;
    Ok(DumpedDesign {
        design,
        scopes: DumpedScopes::One(name),
    })
}

/// The design of texts of a whole design, with its scopes, or what is wrong with them.
fn dumped_whole<F: Files>(
    alloc: Global,
    texts: WholeTexts<'_>,
    files: &mut F,
) -> Result<Judged<DumpedDesign>, CommandFault<'static>>
    ensures judged { IfOk result (λ judged. IfTaken judged (λ dumped. IsDumpedWhole texts.entry.files.items texts.entry.words.now dumped.design dumped.scopes)) }
    ensures kept { KeepsFiles (F.made files.old) (F.made files.new) }
{
    match judged_whole(alloc, texts, files)? {
        Judged::Taken(subject) => {
            let DesignSubject { design, scopes, .. } = subject;
            let scopes = DumpedScopes::Several(scopes);
            Ok(Judged::Taken(DumpedDesign { design, scopes }))
        }
        Judged::Wrong(text) => Ok(Judged::Wrong(text)),
    }
}

/// The name of the module that a source spells.
fn module_name(alloc: Global, source: &[u8]) -> Result<String, CommandFault<'static>>
    ensures { IfOk result (λ name. IsNameOfModule source.now (string_bytes name)) }
{
    match parse(alloc, source) {
        Ok(module) => {
            let Module { name, .. } = module;
            Ok(name)
        }
        Err(fault) => Err(CommandFault::Source(SourceFault::Parse(fault))),
    }
}

/// The text of the registers over time, in their scopes.
fn dump_of<P: Progress>(
    alloc: Global,
    dumped: &DumpedDesign,
    entries: &[Entry],
    progress: &P,
) -> Result<Vec<u8>, CommandFault<'static>>
    ensures { IfOk result (λ text. IsDumpTextOf dumped.now entries.now text.items) }
{
    let wave = wave_of(alloc, &dumped.design, entries, progress)?;
    let text = text_of_wave(alloc, dumped, &wave)?;
    Ok(text)
}

/// The registers over time.
fn wave_of<P: Progress>(
    alloc: Global,
    design: &Design,
    entries: &[Entry],
    progress: &P,
) -> Result<Wave, CommandFault<'static>>
    ensures { IfOk result (IsWaveOf (design_of design.now) entries.now) }
{
    let told = waves(alloc, design, entries, progress);
    progress.end();
    match told {
        Ok(wave) => Ok(wave),
        Err(WaveFault::Replay(fault)) => Err(CommandFault::Replay(BytesFault::Replay(fault))),
        Err(WaveFault::Memory) => Err(CommandFault::Memory),
    }
}

/// The text of a wave, in the scopes of a design.
fn text_of_wave(alloc: Global, dumped: &DumpedDesign, wave: &Wave) -> Result<Vec<u8>, AllocError>
    ensures { IfOk result (λ text. text.items ≡ dump_text_in dumped.now.scopes dumped.now.design wave.now) }
{
    match &dumped.scopes {
        DumpedScopes::One(name) => value_change_dump(alloc, name.as_str(), &dumped.design, wave),
        DumpedScopes::Several(scopes) => {
            let shown = dump_scopes(alloc, scopes.scopes.as_slice())?;
            scoped_dump(alloc, scopes.tick, shown.as_slice(), &dumped.design, wave)
        }
    }
}

/// The scopes of a whole design, as a dump has them.
fn dump_scopes(alloc: Global, scopes: &[DesignScope]) -> Result<Vec<ShownScope<'_>>, AllocError>
    ensures { IfOk result (λ shown. map plain_scope shown.items ≡ map plain_design_scope scopes.entry.now) }
{
    let mut shown = Vec::new(alloc);
    for scope in scopes {
        shown.push(ShownScope {
            path: scope.path.as_str(),
            is_instance: scope.is_instance,
        })?;
    }
    Ok(shown)
}
