//! The tokens of the files of a design.

ghost use Rattle.std.specs.Prelude.{◌≡◌, ◌+◌, ◌++◌, ◌⊎◌, [], length, map, true, false, List, IfOk, OnOk, IfErr};
ghost use Rattle.std.specs.List.{list_all};
ghost use Rattle.lexemes.specs.Lexing.{IsCutInto};
ghost use Rattle.lexemes.specs.declared.token.VerilogLexeme.{VerilogLexeme};
ghost use Rattle.lexemes.specs.declared.token.VerilogToken.{VerilogToken};
ghost use Rattle.preprocess.specs.Places.{token_stands, fault_stands};
ghost use Rattle.preprocess.specs.Plain.{ArePlain, is_token, token_of};
ghost use Rattle.preprocess.specs.Sources as sources;
ghost use Rattle.preprocess.specs.Sources.{AddsCopy, AreFilesOf, AreSomeFilesOf};

use crate::fault::Fault;
use crate::includes::KnownFile;
use crate::preprocessor::Preprocessor;
use lexemes::token::{SourceFile, VerilogToken};
use source_texts::settings::{LineMark, SettingChange};
use std::alloc::{AllocError, Global};

/// A macro that is defined before the files are read.
#[derive(Clone, Copy)]
pub struct Definition<'a> {
    pub name: &'a str,
    /// Its text; `1` where none is given.
    pub text: Option<&'a str>,
}

/// The files of a design, and what they give.
#[derive(Drop)]
pub struct Preprocessed {
    /// The text of the definitions that were given, which is named `<command line>`, the files, and those that they include.
    pub files: Vec<SourceFile>,
    pub tokens: Vec<VerilogToken>,
    /// The directives that say something of the modules behind them, in the order in which they were read.
    pub settings: Vec<SettingChange>,
    /// The `` `line`` directives, in the order in which they were read.
    pub lines: Vec<LineMark>,
}

/// Why files have no tokens: what is wrong, and the files up to there, by which its place is told.
#[derive(Drop)]
pub struct TextRefusal {
    pub fault: Fault,
    pub files: Vec<SourceFile>,
    pub lines: Vec<LineMark>,
    /// Where a file that is included isn't found: the path, if there is one, at which nobody has looked it up. With what stands there the
    /// files are to be read again.
    pub wanted: Option<String>,
}

/// The text of the definitions that are given: a `` `define`` for each, in a line of its own.
fn command_line(alloc: Global, definitions: &[Definition<'_>]) -> Result<SourceFile, AllocError>
    ensures { IfOk result (sources.IsCommandLine definitions.now) }
{
    let mut text = Vec::new(alloc);
    for definition in definitions {
        add_definition(&mut text, *definition)?;
    }
    Ok(SourceFile {
        name: String::from_str(alloc, "<command line>")?,
        text,
    })
}

/// The text that a macro is given; `1` where none is given.
fn text_given(definition: Definition<'_>) -> &str
    ensures { result.now ≡ sources.text_given definition.entry.text }
{
    match definition.text {
        Some(text) => text,
        None => "1",
    }
}

/// Adds the line of a definition.
fn add_definition(text: &mut Vec<u8>, definition: Definition<'_>) -> Result<(), AllocError>
    ensures { OnOk result (text.new.items ≡ text.old.items ++ sources.definition_line definition.entry) }
{
    text.extend_from_slice(b"`define ")?;
    text.extend_from_slice(definition.name.as_bytes())?;
    text.extend_from_slice(b" ")?;
    text.extend_from_slice(text_given(definition).as_bytes())?;
    text.extend_from_slice(b"\n")?;
    Ok(())
}

/// A copy of a file.
fn file_copy(alloc: Global, file: &SourceFile) -> Result<SourceFile, AllocError>
    ensures { IfOk result (sources.IsFileCopy file.now) }
{
    let name = String::from_str(alloc, file.name.as_str())?;
    let text = Vec::from_slice(alloc, file.text.as_slice())?;
    Ok(SourceFile { name, text })
}

/// Reads a copy of a file to its end. One without directives gives its tokens as they stand.
fn read_copy(
    alloc: Global,
    state: &mut Preprocessor,
    file: &SourceFile,
    folders: &[String],
    known: &[KnownFile],
) -> Result<(), Fault>
    ensures tokens { (ls : List VerilogLexeme) → IsCutInto (length state.old.work.files.items) 0 false file.now.text.items ls → list_all is_token ls ≡ true → OnOk result (state.new.work.tokens.items ≡ state.old.work.tokens.items ++ map token_of ls) }
    ensures count { (ls : List VerilogLexeme) → IsCutInto (length state.old.work.files.items) 0 false file.now.text.items ls → list_all is_token ls ≡ true → OnOk result (length state.new.work.files.items ≡ length state.old.work.files.items + 1) }
    ensures reads { OnOk result (AddsCopy known.now file.now state.old.work.files.items state.new.work.files.items) }
    ensures adds { (state.new.work.files.items ≡ state.old.work.files.items) ⊎ AddsCopy known.now file.now state.old.work.files.items state.new.work.files.items }
    ensures fault { IfErr result (λ fault. fault_stands state.new.work.files.items fault ≡ true) }
{
    let copy = file_copy(alloc, file)?;
    state.read_file(alloc, copy, folders, known)
}

/// Reads the definitions, and then file after file.
fn read_all(
    alloc: Global,
    state: &mut Preprocessor,
    definitions: &[Definition<'_>],
    files: &[SourceFile],
    folders: &[String],
    known: &[KnownFile],
) -> Result<(), Fault>
    requires files { state.old.work.files.items ≡ [] }
    requires tokens { state.old.work.tokens.items ≡ [] }
    ensures plain { length definitions.now ≡ 0 → (ts : List VerilogToken) → ArePlain 1 files.now ts → OnOk result (state.new.work.tokens.items ≡ ts) }
    ensures read { OnOk result (AreFilesOf definitions.now files.now known.now (length files.now) state.new.work.files.items) }
    ensures some { AreSomeFilesOf definitions.now files.now known.now state.new.work.files.items }
    ensures fault { IfErr result (λ fault. fault_stands state.new.work.files.items fault ≡ true) }
{
    let first = command_line(alloc, definitions)?;
    state.read_file(alloc, first, folders, known)?;
    for file in files {
        read_copy(alloc, state, file, folders, known)?;
    }
    Ok(())
}

/// The tokens of files, with their macros, conditions and includes worked out (19). A file that is included is looked up beside the
/// file that includes it, and then in the folders, among the files that are known; where nobody has looked it up, the path at which that is
/// to be done next is told with the refusal.
pub fn preprocess(
    alloc: Global,
    definitions: &[Definition<'_>],
    files: &[SourceFile],
    folders: &[String],
    known: &[KnownFile],
) -> Result<Preprocessed, TextRefusal>
    ensures plain { length definitions.now ≡ 0 → (ts : List VerilogToken) → ArePlain 1 files.now ts → IfOk result (λ found. found.tokens.items ≡ ts) }
    ensures tokens { IfOk result (λ found. list_all (token_stands found.files.items) found.tokens.items ≡ true) }
    ensures files { IfOk result (λ found. AreFilesOf definitions.now files.now known.now (length files.now) found.files.items) }
    ensures fault { IfErr result (λ refusal. fault_stands refusal.files.items refusal.fault ≡ true) }
    ensures some { IfErr result (λ refusal. AreSomeFilesOf definitions.now files.now known.now refusal.files.items) }
{
    let mut state = Preprocessor::new(alloc);
    let read = read_all(alloc, &mut state, definitions, files, folders, known);
    state.finish(read)
}
