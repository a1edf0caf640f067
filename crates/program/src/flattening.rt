//! `flatten --verilog FILE..`: the FILEs are read, and their flat module is written as text, to OUT where that is given.

ghost use Rattle.std.specs.Prelude.{◌≡◌, ◌≢◌, IfErr, IfOk, List, OnErr, map, option_map, string_bytes};
ghost use Rattle.model.specs.SourceTrees.{module_of};
ghost use Rattle.flattext.specs.Modules.{placed_module_text};
ghost use Rattle.program.specs.declared.ending.Ending.TheVariants as Ending;
ghost use Rattle.std.specs.Io.KnownBytes.{Keeps};
ghost use Rattle.journal.specs.Counted.{held};
ghost use Rattle.files.specs.Saved.{KeepsFiles};
ghost use Rattle.program.specs.Program.{status_of};
ghost use Rattle.program.specs.Subjects.{HasFlattened, IsPut};

use crate::ending::Ending;
use crate::fault::CommandFault;
use crate::subject::{AskedSource, Judged, WholeTexts, judged_module, read_texts, spare_sources};
use arguments::{DesignWords, FlattenRequest};
use files::{Files, begin_at, save_text, send_off, show_bytes};
use flattext::push_placed_module;
use journal::Counted;
use locations::ProcessLocation;
use std::alloc::{AllocError, Global};
use std::io::Write;
use whole_designs::whole::WholeDesign;

/// Writes the flat module of FILEs.
pub fn flatten<'a, F: Files, O: Write>(
    alloc: Global,
    request: &FlattenRequest<'a>,
    words: &'a DesignWords<'a>,
    files: &mut F,
    out: &mut Counted<O>,
) -> Result<Ending, CommandFault<'a>>
    ensures ended { IfOk result (HasFlattened (F.held files.old) words.now (option_map (λ path. path.now) request.now.out) (O.contents (held out.old)) (O.contents (held out.new)) (F.made files.old) (F.made files.new)) }
    ensures nothing { IfErr result (λ fault. status_of fault ≢ 1 → Keeps (O.contents (held out.old)) (O.contents (held out.new))) }
    ensures unsaved { OnErr result (KeepsFiles (F.made files.old) (F.made files.new)) }
{
    let asked = AskedSource {
        file: request.file,
        words: Some(words),
    };
    spare_sources(asked, request.out, files)?;
    let read = read_texts(alloc, words, files)?;
    let texts = WholeTexts { files: read, words };
    match judged_module(alloc, texts, files)? {
        Judged::Taken(made) => {
            let text = text_of(alloc, &made)?;
            put(text.as_slice(), request.out, files, out)
        }
        Judged::Wrong(text) => Ok(Ending::Wrong(text)),
    }
}

/// The text of a design's flat module, with the places of its processes.
fn text_of(alloc: Global, made: &WholeDesign) -> Result<Vec<u8>, AllocError>
    ensures { IfOk result (λ text. text.items ≡ placed_module_text (map (λ p. string_bytes p.at) made.now.processes.items) (module_of made.now.module)) }
{
    let places = places_of(alloc, made.processes.as_slice())?;
    let mut text = Vec::new(alloc);
    push_placed_module(&mut text, &made.module, places.as_slice())?;
    Ok(text)
}

/// Where processes stand, in words.
fn places_of(alloc: Global, processes: &[ProcessLocation]) -> Result<Vec<&str>, AllocError>
    ensures { IfOk result (λ places. map (λ words. words.now) places.items ≡ map (λ p. string_bytes p.at) processes.entry.now) }
{
    let mut places = Vec::new(alloc);
    for process in processes {
        places.push(process.at.as_str())?;
    }
    Ok(places)
}

/// Writes a text to OUT where that is given, and else to the output.
fn put<F: Files, O: Write>(
    text: &[u8],
    path: Option<&str>,
    files: &mut F,
    out: &mut Counted<O>,
) -> Result<Ending, CommandFault<'static>>
    ensures put { IfOk result (λ ending. (ending ≡ Ending.Done) × IsPut (option_map (λ path. path.now) path.entry) text.now (O.contents (held out.old)) (O.contents (held out.new)) (F.made files.old) (F.made files.new)) }
    ensures nothing { IfErr result (λ fault. status_of fault ≢ 1 → Keeps (O.contents (held out.old)) (O.contents (held out.new))) }
    ensures unsaved { OnErr result (KeepsFiles (F.made files.old) (F.made files.new)) }
{
    match path {
        Some(path) => {
            let target = begin_at(path, files)?;
            save_text(text, path, target, files)?;
        }
        None => {
            show_bytes(out, text)?;
            send_off(out)?;
        }
    }
    Ok(Ending::Done)
}
