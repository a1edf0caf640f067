//! The design on which a command works: that of the one FILE of the profile, or with `--verilog` that of all FILEs.
//!
//! The texts are read first, and judged only when what else a command reads is opened.

ghost use Rattle.std.specs.Prelude.{◌≡◌, ◌++◌, ◌∷◌, [], List, Option, ℕ, IfErr, IfOk, OnOk, map, option_map, string_bytes};
ghost use Rattle.std.specs.List.{All};
ghost use Rattle.files.specs.Saved.{IsHeld, KeepsFiles, KeepsHeld, LeadsElsewhere, journal_path};
ghost use Rattle.program.specs.Program.{status_of};
ghost use Rattle.arguments.specs.VerilogWords.{plain_named};
ghost use Rattle.locations.specs.SourceLocations.{AreProcesses};
ghost use Rattle.whole_designs.specs.Wholes.{IsWholeDesignOf};
ghost use Rattle.program.specs.Subjects.{AreHeldAt, AreTextsOf, IfModuleRead, IfTaken, IsDesignOfFiles, IsDesignOfModule, IsJudgedDesign, IsJudgedModule, IsJudgedSubject, IsJudgedWhole, definition_named, paths_asked};

use crate::fault::CommandFault;
use arguments::{DesignWords, NamedWord};
use design::Design;
use design_faults::refused::WholeRefusal;
use design_faults::told::told_faults;
use elaborate::{ElabFault, elaborate_owned};
use files::{FileFault, Files, read_file, spare_first, spare_source};
use frontend::read_design;
use lexemes::token::SourceFile;
use locations::{ProcessLocation, processes};
use model::limits::ModuleLimits;
use model::tree::Module;
use preprocess::includes::KnownFile;
use preprocess::preprocess::Definition;
use std::alloc::{AllocError, Global};
use whole_designs::asked::{AskedDesign, GivenParameter};
use whole_designs::whole::{DesignScopes, WholeDesign, whole_design};

/// What a command asks for a design: FILE, and what words ask for a whole design, where they do.
#[derive(Clone, Copy)]
pub struct AskedSource<'a> {
    pub file: &'a str,
    pub words: Option<&'a DesignWords<'a>>,
}

/// The texts of the files of a whole design, and what words ask of them.
#[derive(Drop)]
pub struct WholeTexts<'a> {
    pub files: Vec<SourceFile>,
    pub words: &'a DesignWords<'a>,
}

/// The texts of what is asked for.
#[derive(Drop)]
pub enum SourceTexts<'a> {
    Profile(Vec<u8>),
    Whole(WholeTexts<'a>),
}

/// What comes of texts, or all that is wrong with those of a whole design, as it is told.
#[derive(Drop)]
pub enum Judged<T> {
    Taken(T),
    Wrong(String),
}

/// A design, with its processes as people call them, the source of the profile, in which lines are told (none of a whole design), and of a
/// whole design its scopes.
#[derive(Drop)]
pub struct DesignSubject {
    pub design: Design,
    pub processes: Vec<ProcessLocation>,
    pub source: Vec<u8>,
    pub scopes: DesignScopes,
}

/// What comes of the texts of a whole design with the files that are known: how they are judged, or a path at which a file that they include is
/// to be looked up.
#[derive(Drop)]
enum ModuleReading {
    Judged(Judged<WholeDesign>),
    Wants(String),
}

/// The most paths at which files are looked up that a whole design includes.
const MOST_LOOKUPS: u32 = 1_048_576;

/// Refuses an OUT that is one of these files.
fn spare_each<F: Files>(
    paths: &[&str],
    out: Option<&str>,
    files: &F,
) -> Result<(), FileFault<'static>>
    ensures { OnOk result (All (λ path. LeadsElsewhere (F.alike files.now) path.now (option_map (λ out. out.now) out.entry)) paths.entry.now) }
{
    for path in paths {
        spare_source(path, out, files)?;
    }
    Ok(())
}

/// Refuses an OUT that is one of the files which are asked for.
pub fn spare_sources<'a, F: Files>(
    asked: AskedSource<'a>,
    out: Option<&'a str>,
    files: &F,
) -> Result<(), FileFault<'static>>
    ensures spared { OnOk result (LeadsElsewhere (F.alike files.now) asked.entry.file.now (option_map (λ out. out.now) out.entry)) }
    ensures all_spared { OnOk result (All (λ path. LeadsElsewhere (F.alike files.now) path (option_map (λ out. out.now) out.entry)) (paths_asked asked.entry)) }
{
    spare_source(asked.file, out, files)?;
    match asked.words {
        Some(words) => spare_each(words.files.as_slice(), out, files),
        None => Ok(()),
    }
}

/// Refuses a prefix of journals of which the first would be one of these files.
fn spare_first_of_each<F: Files>(
    alloc: Global,
    paths: &[&str],
    prefix: Option<&str>,
    files: &F,
) -> Result<(), FileFault<'static>>
    ensures { OnOk result (All (λ path. LeadsElsewhere (F.alike files.now) path.now (option_map (λ prefix. journal_path prefix.now 1) prefix.entry)) paths.entry.now) }
{
    for path in paths {
        spare_first(alloc, path, prefix, files)?;
    }
    Ok(())
}

/// Refuses a prefix of journals of which the first would be one of the files that are asked for.
pub fn spare_first_of<'a, F: Files>(
    alloc: Global,
    asked: AskedSource<'a>,
    prefix: Option<&'a str>,
    files: &F,
) -> Result<(), FileFault<'static>>
    ensures spared { OnOk result (LeadsElsewhere (F.alike files.now) asked.entry.file.now (option_map (λ prefix. journal_path prefix.now 1) prefix.entry)) }
    ensures all_spared { OnOk result (All (λ path. LeadsElsewhere (F.alike files.now) path (option_map (λ prefix. journal_path prefix.now 1) prefix.entry)) (paths_asked asked.entry)) }
{
    spare_first(alloc, asked.file, prefix, files)?;
    match asked.words {
        Some(words) => spare_first_of_each(alloc, words.files.as_slice(), prefix, files),
        None => Ok(()),
    }
}

/// The texts of the files that are asked for.
#[tactic(auto, using(crate::proofs::Subjects::whole_read, crate::proofs::Subjects::profile_read))]
pub fn read_sources<'a, F: Files>(
    alloc: Global,
    asked: AskedSource<'a>,
    files: &mut F,
) -> Result<SourceTexts<'a>, FileFault<'a>>
    ensures texts { IfOk result (AreTextsOf (F.held files.old) asked.entry) }
    ensures kept { KeepsFiles (F.made files.old) (F.made files.new) }
    ensures held { KeepsHeld (F.held files.old) (F.held files.new) }
{
    match asked.words {
        Some(words) => {
            let files = read_texts(alloc, words, files)?;
            Ok(SourceTexts::Whole(WholeTexts { files, words }))
        }
        None => Ok(SourceTexts::Profile(read_file(alloc, asked.file, files)?)),
    }
}

/// The texts of the files of a whole design, under the names of their paths.
pub fn read_texts<'a, F: Files>(
    alloc: Global,
    words: &'a DesignWords<'a>,
    files: &mut F,
) -> Result<Vec<SourceFile>, FileFault<'a>>
    ensures texts { IfOk result (λ texts. AreHeldAt (F.held files.old) (map (λ path. path.now) words.now.files.items) texts.items) }
    ensures kept { KeepsFiles (F.made files.old) (F.made files.new) }
    ensures held { KeepsHeld (F.held files.old) (F.held files.new) }
{
    let paths = words.files.as_slice();
    read_each(alloc, paths, files)
}

/// The texts of the files at paths, under the names of these.
fn read_each<'a, F: Files>(
    alloc: Global,
    paths: &[&'a str],
    files: &mut F,
) -> Result<Vec<SourceFile>, FileFault<'a>>
    ensures texts { IfOk result (λ texts. AreHeldAt (F.held files.old) (map (λ path. path.now) paths.entry.now) texts.items) }
    ensures kept { KeepsFiles (F.made files.old) (F.made files.new) }
    ensures held { KeepsHeld (F.held files.old) (F.held files.new) }
{
    let mut texts = Vec::new(alloc);
    for path in paths {
        let text = read_text(alloc, *path, files)?;
        add_text(&mut texts, text)?;
    }
    Ok(texts)
}

/// The text of a file at a path, under the name of that.
fn read_text<'a, F: Files>(
    alloc: Global,
    path: &'a str,
    files: &mut F,
) -> Result<SourceFile, FileFault<'a>>
    ensures text { IfOk result (λ file. (string_bytes file.name ≡ path.now) × IsHeld (F.held files.old) path.now file.text.items) }
    ensures kept { KeepsFiles (F.made files.old) (F.made files.new) }
    ensures held { KeepsHeld (F.held files.old) (F.held files.new) }
{
    let text = read_file(alloc, path, files)?;
    let name = String::from_str(alloc, path)?;
    Ok(SourceFile { name, text })
}

/// Puts a text behind others. Fails where memory is refused.
fn add_text(texts: &mut Vec<SourceFile>, text: SourceFile) -> Result<(), AllocError>
    ensures { OnOk result (texts.new.items ≡ texts.old.items ++ text ∷ []) }
{
    texts.push(text)?;
    Ok(())
}

/// The macros that words define.
fn definitions_of<'a>(
    alloc: Global,
    words: &[NamedWord<'a>],
) -> Result<Vec<Definition<'a>>, AllocError>
    ensures { IfOk result (λ found. map definition_named found.items ≡ map plain_named words.entry.now) }
{
    let mut found = Vec::new(alloc);
    for word in words {
        found.push(Definition {
            name: word.name,
            text: word.value,
        })?;
    }
    Ok(found)
}

/// The values that words give to parameters.
fn parameters_of<'a>(
    alloc: Global,
    words: &[NamedWord<'a>],
) -> Result<Vec<GivenParameter<'a>>, AllocError> {
    let mut found = Vec::new(alloc);
    for word in words {
        found.push(GivenParameter {
            name: word.name,
            value: word.value.unwrap_or(""),
        })?;
    }
    Ok(found)
}

/// What words ask of the files of a whole design, with the macros that they define and the values that they give.
fn asked_of<'a>(
    words: &'a DesignWords<'a>,
    definitions: &'a [Definition<'a>],
    parameters: &'a [GivenParameter<'a>],
) -> AskedDesign<'a>
    ensures { result.definitions.now ≡ definitions.entry.now }
{
    AskedDesign {
        folders: words.folders.as_slice(),
        definitions,
        top: words.top,
        parameters,
    }
}

/// The text of the file at a path; none where there is no file, or where it can't be read. Standard input is no file that is included.
fn included_text<F: Files>(
    alloc: Global,
    path: &str,
    files: &mut F,
) -> Result<Option<Vec<u8>>, AllocError>
    ensures { KeepsFiles (F.made files.old) (F.made files.new) }
{
    if path == "-" {
        return Ok(None);
    }
    match read_file(alloc, path, files) {
        Ok(text) => Ok(Some(text)),
        Err(FileFault::Memory) => Err(AllocError),
        Err(_) => Ok(None),
    }
}

/// Looks up a file at a path, and adds what stands there to what is known.
fn look_up<F: Files>(
    alloc: Global,
    known: &mut Vec<KnownFile>,
    path: String,
    files: &mut F,
) -> Result<(), AllocError>
    ensures { KeepsFiles (F.made files.old) (F.made files.new) }
{
    let text = included_text(alloc, path.as_str(), files)?;
    known.push(KnownFile { path, text })?;
    Ok(())
}

/// What is said where no module comes of texts, or a path at which a file is to be looked up.
fn told_refusal(
    alloc: Global,
    refusal: WholeRefusal,
) -> Result<ModuleReading, CommandFault<'static>>
    ensures judged { IfOk result (λ reading. IfModuleRead reading (λ made. ⊥)) }
    ensures fault { IfErr result (λ fault. status_of fault ≡ 6) }
{
    match refusal {
        WholeRefusal::Memory => Err(CommandFault::Memory),
        WholeRefusal::Wants(path) => Ok(ModuleReading::Wants(path)),
        WholeRefusal::Refused(refusal) => {
            let text = told_faults(alloc, &refusal)?;
            Ok(ModuleReading::Judged(Judged::Wrong(text)))
        }
    }
}

/// What comes of the texts of a whole design with the files that are known.
fn reading_of(
    alloc: Global,
    asked: AskedDesign<'_>,
    texts: &[SourceFile],
    known: &[KnownFile],
) -> Result<ModuleReading, CommandFault<'static>>
    ensures judged { IfOk result (λ reading. IfModuleRead reading (IsWholeDesignOf texts.now asked.entry.definitions.now)) }
    ensures fault { IfErr result (λ fault. status_of fault ≡ 6) }
{
    match whole_design(alloc, asked, texts, known) {
        Ok(made) => Ok(ModuleReading::Judged(Judged::Taken(made))),
        Err(refusal) => told_refusal(alloc, refusal),
    }
}

/// What is said where more files are looked up than may be.
fn too_many_lookups(alloc: Global) -> Result<Judged<WholeDesign>, CommandFault<'static>>
    ensures judged { IfOk result (λ judged. IfTaken judged (λ made. ⊥)) }
    ensures fault { IfErr result (λ fault. status_of fault ≡ 6) }
{
    let text = String::from_str(alloc, "more than 1048576 files are looked up\n")?;
    Ok(Judged::Wrong(text))
}

/// The flat module that texts make, or what is wrong with them, once each file was looked up that they include.
fn module_of_texts<F: Files>(
    alloc: Global,
    asked: AskedDesign<'_>,
    texts: &[SourceFile],
    files: &mut F,
) -> Result<Judged<WholeDesign>, CommandFault<'static>>
    ensures judged { IfOk result (λ judged. IfTaken judged (IsWholeDesignOf texts.now asked.entry.definitions.now)) }
    ensures fault { IfErr result (λ fault. status_of fault ≡ 6) }
    ensures kept { KeepsFiles (F.made files.old) (F.made files.new) }
{
    let mut known = Vec::new(alloc);
    for _lookup in 0..MOST_LOOKUPS {
        match reading_of(alloc, asked, texts, known.as_slice())? {
            ModuleReading::Judged(judged) => return Ok(judged),
            ModuleReading::Wants(path) => look_up(alloc, &mut known, path, files)?,
        }
    }
    too_many_lookups(alloc)
}

/// The flat module that texts of a whole design make, or what is wrong with them.
pub fn judged_module<F: Files>(
    alloc: Global,
    texts: WholeTexts<'_>,
    files: &mut F,
) -> Result<Judged<WholeDesign>, CommandFault<'static>>
    ensures judged { IfOk result (IsJudgedModule texts.entry.files.items texts.entry.words.now) }
    ensures fault { IfErr result (λ fault. status_of fault ≡ 6) }
    ensures kept { KeepsFiles (F.made files.old) (F.made files.new) }
{
    let WholeTexts {
        files: texts,
        words,
    } = texts;
    let defined = definitions_of(alloc, words.definitions.as_slice())?;
    let given = parameters_of(alloc, words.parameters.as_slice())?;
    let definitions = defined.as_slice();
    let parameters = given.as_slice();
    let asked = asked_of(words, definitions, parameters);
    let all = texts.as_slice();
    module_of_texts(alloc, asked, all, files)
}

/// What is said of a flat module that has no design.
fn unmade(alloc: Global, fault: &ElabFault) -> Result<Judged<DesignSubject>, CommandFault<'static>>
    ensures judged { IfOk result (λ found. IfTaken found (λ subject. ⊥)) }
    ensures fault { IfErr result (λ fault. status_of fault ≡ 6) }
{
    let text = match fault {
        ElabFault::Memory => return Err(CommandFault::Memory),
        ElabFault::TooManyRegisters => String::from_str(
            alloc,
            "the design has more than 65536 variables, with those that its statements want\n",
        )?,
        ElabFault::TooManyProcesses => {
            String::from_str(alloc, "the design has more than 16384 processes\n")?
        }
        ElabFault::LongDelay => String::from_str(alloc, "a delay over 4294967295\n")?,
        other => format!(in alloc; "the flat module: {other}\n")?,
    };
    Ok(Judged::Wrong(text))
}

/// The design of a flat module, with its processes and its scopes.
fn designed(
    alloc: Global,
    made: WholeDesign,
) -> Result<Judged<DesignSubject>, CommandFault<'static>>
    ensures judged { IfOk result (λ found. IfTaken found (IsDesignOfModule made)) }
    ensures fault { IfErr result (λ fault. status_of fault ≡ 6) }
{
    let WholeDesign {
        module,
        processes,
        scopes,
    } = made;
    match elaborate_owned(alloc, ModuleLimits::Whole, module) {
        Ok(design) => Ok(Judged::Taken(DesignSubject {
            design,
            processes,
            source: Vec::new(alloc),
            scopes,
        })),
        Err(fault) => unmade(alloc, &fault),
    }
}

/// The design of texts of a whole design, with its processes and its scopes, or what is wrong with them.
pub fn judged_whole<F: Files>(
    alloc: Global,
    texts: WholeTexts<'_>,
    files: &mut F,
) -> Result<Judged<DesignSubject>, CommandFault<'static>>
    ensures judged { IfOk result (IsJudgedWhole texts.entry.files.items texts.entry.words.now) }
    ensures fault { IfErr result (λ fault. status_of fault ≡ 6) }
    ensures kept { KeepsFiles (F.made files.old) (F.made files.new) }
{
    match judged_module(alloc, texts, files)? {
        Judged::Taken(made) => designed(alloc, made),
        Judged::Wrong(text) => Ok(Judged::Wrong(text)),
    }
}

/// The processes of a source of the profile.
fn processes_of(alloc: Global, source: &[u8]) -> Result<Vec<ProcessLocation>, CommandFault<'static>>
    ensures found { IfOk result (λ found. AreProcesses source.now found.items) }
    ensures fault { IfErr result (λ fault. status_of fault ≡ 6) }
{
    match processes(alloc, source) {
        Ok(found) => Ok(found),
        Err(_) => Err(CommandFault::Memory),
    }
}

/// The design of texts, with its processes; or what is wrong with those of a whole design.
pub fn judged_subject<F: Files>(
    alloc: Global,
    texts: SourceTexts<'_>,
    files: &mut F,
) -> Result<Judged<DesignSubject>, CommandFault<'static>>
    ensures judged { IfOk result (IsJudgedSubject texts.entry) }
    ensures kept { KeepsFiles (F.made files.old) (F.made files.new) }
{
    match texts {
        SourceTexts::Profile(source) => {
            let design = read_design(alloc, source.as_slice())?;
            let processes = processes_of(alloc, source.as_slice())?;
            Ok(Judged::Taken(DesignSubject {
                design,
                processes,
                source,
                scopes: DesignScopes::none(alloc),
            }))
        }
        SourceTexts::Whole(texts) => judged_whole(alloc, texts, files),
    }
}

/// The design of texts; or what is wrong with those of a whole design.
pub fn judged_design<F: Files>(
    alloc: Global,
    texts: SourceTexts<'_>,
    files: &mut F,
) -> Result<Judged<Design>, CommandFault<'static>>
    ensures judged { IfOk result (IsJudgedDesign texts.entry) }
    ensures kept { KeepsFiles (F.made files.old) (F.made files.new) }
{
    match texts {
        SourceTexts::Profile(source) => {
            let design = read_design(alloc, source.as_slice())?;
            Ok(Judged::Taken(design))
        }
        SourceTexts::Whole(texts) => design_of_whole(alloc, texts, files),
    }
}

/// The design of texts of a whole design, or what is wrong with them.
fn design_of_whole<F: Files>(
    alloc: Global,
    texts: WholeTexts<'_>,
    files: &mut F,
) -> Result<Judged<Design>, CommandFault<'static>>
    ensures judged { IfOk result (λ judged. IfTaken judged (IsDesignOfFiles texts.entry.files.items texts.entry.words.now)) }
    ensures kept { KeepsFiles (F.made files.old) (F.made files.new) }
{
    match judged_whole(alloc, texts, files)? {
        Judged::Taken(subject) => {
            let DesignSubject { design, .. } = subject;
            Ok(Judged::Taken(design))
        }
        Judged::Wrong(text) => Ok(Judged::Wrong(text)),
    }
}
