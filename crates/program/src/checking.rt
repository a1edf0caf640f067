//! `check FILE [--all]`: the file is read, and what is wrong with it is found.

ghost use Rattle.std.specs.Prelude.{◌≡◌, ◌⊎◌, IfErr, IfOk, List, None, option_map, ℕ};
ghost use Rattle.program.specs.Program.{status_of};
ghost use Rattle.program.specs.Printed.{HasChecked, IsSourceChecked};
ghost use Rattle.files.specs.Saved.{IsHeld, KeepsFiles};
ghost use Rattle.design.specs.Compiled.{Compiled};
ghost use Rattle.program.specs.Subjects.{IsDesignOfFiles, Sources, sources_with};

use crate::fault::{CommandFault, source_status};
use crate::subject::{AskedSource, Judged, SourceTexts, WholeTexts, judged_whole, read_sources};
use arguments::DesignWords;
use diagnosis::diagnose::diagnose;
use diagnosis::render::render;
use files::Files;
use lexemes::token::SourceFile;
use locations::push_shown_path;
use std::alloc::Global;

/// What is wrong with FILE, as it is told, with all places of each note or with its first, or nothing. Want of memory is a fault.
pub fn check<'a, F: Files>(
    alloc: Global,
    asked: AskedSource<'a>,
    all: bool,
    files: &mut F,
) -> Result<Option<String>, CommandFault<'a>>
    ensures checked { IfOk result (HasChecked (sources_with (F.held files.old) (option_map (λ w. w.now) asked.entry.words)) asked.entry.file.now) }
    ensures kept { KeepsFiles (F.made files.old) (F.made files.new) }
    ensures fault { IfErr result (λ fault. (status_of fault ≡ 1) ⊎ (status_of fault ≡ 6)) }
{
    match read_sources(alloc, asked, files)? {
        SourceTexts::Profile(source) => check_profile(alloc, asked.file, all, source, files),
        SourceTexts::Whole(texts) => check_whole(alloc, texts, files),
    }
}

/// What is wrong with a source, and whether it is taken as a whole design.
fn check_profile<F: Files>(
    alloc: Global,
    file: &str,
    all: bool,
    source: Vec<u8>,
    files: &mut F,
) -> Result<Option<String>, CommandFault<'static>>
    ensures checked { (from : Sources) (path : List ℕ) → IsHeld from.held path source.items → from.words ≡ None → IfOk result (HasChecked from path) }
    ensures fault { IfErr result (λ fault. status_of fault ≡ 6) }
    ensures kept { KeepsFiles (F.made files.old) (F.made files.new) }
{
    let told = check_source(alloc, file, all, source.as_slice())?;
    match told {
        None => Ok(None),
        Some(text) => {
            let hinted = with_hint(alloc, file, source, text, files)?;
            Ok(Some(hinted))
        }
    }
}

/// What is wrong with a whole design.
fn check_whole<F: Files>(
    alloc: Global,
    texts: WholeTexts<'_>,
    files: &mut F,
) -> Result<Option<String>, CommandFault<'static>>
    ensures checked { IfOk result (λ told. told ≡ None → (design : Compiled) × IsDesignOfFiles texts.entry.files.items texts.entry.words.now design) }
    ensures fault { IfErr result (λ fault. status_of fault ≡ 6) }
    ensures kept { KeepsFiles (F.made files.old) (F.made files.new) }
{
    match judged_whole(alloc, texts, files)? {
        Judged::Taken(_subject) => Ok(None),
        Judged::Wrong(text) => Ok(Some(text)),
    }
}

/// What is wrong with a source, and behind it a line that says so where the source is taken as a whole design.
fn with_hint<F: Files>(
    alloc: Global,
    file: &str,
    source: Vec<u8>,
    text: String,
    files: &mut F,
) -> Result<String, CommandFault<'static>>
    ensures fault { IfErr result (λ fault. status_of fault ≡ 6) }
    ensures kept { KeepsFiles (F.made files.old) (F.made files.new) }
{
    let mut texts = Vec::new(alloc);
    let name = String::from_str(alloc, file)?;
    if texts.push(SourceFile { name, text: source }).is_err() {
        return Err(CommandFault::Memory);
    }
    let words = DesignWords::new(alloc);
    let mut told = text;
    if are_taken(alloc, texts, &words, files) {
        push_shown_path(&mut told, file)?;
        told.push_str(": note: with --verilog this is taken\n")?;
    }
    Ok(told)
}

/// Whether texts are taken as a whole design.
fn are_taken<F: Files>(
    alloc: Global,
    texts: Vec<SourceFile>,
    words: &DesignWords<'_>,
    files: &mut F,
) -> bool
    ensures { KeepsFiles (F.made files.old) (F.made files.new) }
{
    let whole = WholeTexts {
        files: texts,
        words,
    };
    match judged_whole(alloc, whole, files) {
        Ok(Judged::Taken(_subject)) => true,
        Ok(Judged::Wrong(_text)) => false,
        Err(_fault) => false,
    }
}

/// What is wrong with a source.
fn check_source(
    alloc: Global,
    file: &str,
    all: bool,
    source: &[u8],
) -> Result<Option<String>, CommandFault<'static>>
    ensures checked { IfOk result (IsSourceChecked source.now) }
    ensures fault { IfErr result (λ fault. status_of fault ≡ 6) }
{
    let diagnosis = diagnose(alloc, source, all);
    match &diagnosis.fault {
        None => Ok(None),
        Some(fault) if source_status(fault) == 3 => {
            let text = render(alloc, file, source, &diagnosis)?;
            Ok(Some(text))
        }
        Some(_) => Err(CommandFault::Memory),
    }
}
