//! The flat module of the files of a design.

ghost use Rattle.std.specs.Prelude.{◌≡◌, ◌++◌, List, IfErr, IfOk, OnOk, length, map, true};
ghost use Rattle.std.specs.List.{list_all};
ghost use Rattle.lexemes.specs.declared.token.SourceFile.{SourceFile};
ghost use Rattle.model.specs.SourceTrees.{module_of};
ghost use Rattle.lowering.specs.Flat.{IsFlatModule};
ghost use Rattle.preprocess.specs.Places.{fault_stands, token_stands};
ghost use Rattle.syntax.specs.Faults.{SaysSomething};
ghost use Rattle.syntax.specs.declared.parser.SourceParseFault.TheVariants as parsed;
ghost use Rattle.whole_designs.specs.Refusals as spec;
ghost use Rattle.whole_designs.specs.Refusals.{AreFoundIn, IsRefusalOf, syntax_faults, text_fault};
ghost use Rattle.whole_designs.specs.Wholes.{IsMadeDesign, IsOfModules, IsWholeDesignOf};

use crate::asked::{AskedDesign, GivenParameter};
use crate::given::top_parameters;
use crate::later::later_faults;
use crate::process_places::process_places;
use crate::timescales::{FoundScales, ModuleScales, NANOSECOND, module_scales};
use design_faults::refused::{
    DesignRefusal, FoundFaults, PlacedFault, WholeFault, WholeRefusal, alone, at_token, of_design,
    unplaced,
};
use design_scopes::faults::DesignFault;
use design_scopes::scoped::ScopedDesign;
use hierarchy::elaboration::{TopParameter, elaborate};
use indexmap::IndexSet;
use lexemes::token::{SourceFile, VerilogToken};
use locations::ProcessLocation;
use lowering::flat::flat_module;
use model::tree::{Module, SourceProcess};
use preprocess::fault::Fault;
use preprocess::includes::KnownFile;
use preprocess::preprocess::{Preprocessed, TextRefusal, preprocess};
use routines::processes::{PlainDesign, plain_processes};
use scopes::tree::ScopeTree;
use source_texts::settings::{LineMark, SettingChange};
use statement_parts::faults::StatementFault;
use statement_parts::plain::PlainProcess;
use statement_parts::scales::ModuleScale;
use std::alloc::{AllocError, Global};
use syntax::parser::{SourceParseFault, SyntaxFault, TextFaults, parse};
use syntax_tree::modules::ModuleDeclaration;

/// A scope of a design: its full name, and whether it is that of a module's instance.
#[derive(Drop)]
pub struct DesignScope {
    pub path: String,
    pub is_instance: bool,
}

/// The scopes of a design, each behind the one around it, and the unit of all times: a femtosecond, multiplied by ten so often.
#[derive(Drop)]
pub struct DesignScopes {
    pub scopes: Vec<DesignScope>,
    pub tick: u8,
}

impl DesignScopes {
    /// No scopes.
    pub fn none(alloc: Global) -> DesignScopes {
        DesignScopes {
            scopes: Vec::new(alloc),
            tick: NANOSECOND,
        }
    }
}

/// The flat module of the files of a design, where each of its processes stands, and the design's scopes.
#[derive(Drop)]
pub struct WholeDesign {
    pub module: Module,
    pub processes: Vec<ProcessLocation>,
    pub scopes: DesignScopes,
}

/// Tokens, with what tells their places and their settings.
#[derive(Clone, Copy)]
struct DesignText<'t> {
    files: &'t [SourceFile],
    tokens: &'t [VerilogToken],
    settings: &'t [SettingChange],
    lines: &'t [LineMark],
}

/// What is wrong with files of which no tokens come.
fn of_text(fault: Fault) -> Option<PlacedFault>
    ensures { result ≡ text_fault fault }
{
    match fault {
        Fault::Memory => None,
        Fault::TooMuchText => Some(unplaced(WholeFault::TooMuchText)),
        Fault::At(kind, place) => Some(PlacedFault {
            fault: WholeFault::Text(kind),
            place: Some(place),
            used: None,
        }),
    }
}

/// What is wrong where tokens are no modules; that they end there, where none is left.
fn syntax_kind(count: usize, fault: SyntaxFault) -> WholeFault
    ensures { result ≡ spec.syntax_kind count fault.token fault.reason }
{
    if fault.token < count {
        WholeFault::Syntax(fault.reason)
    } else {
        WholeFault::EarlyEnd(fault.reason)
    }
}

/// Adds the fault of tokens that are no modules, if there is one.
fn add_syntax_fault(
    tokens: &[VerilogToken],
    faults: &mut Vec<PlacedFault>,
    fault: Option<SyntaxFault>,
) -> Result<(), AllocError>
    ensures { OnOk result (faults.new.items ≡ faults.old.items ++ spec.syntax_fault_of tokens.now fault) }
{
    match fault {
        Some(fault) => {
            let kind = syntax_kind(tokens.len(), fault);
            faults.push(at_token(tokens, fault.token, kind))?;
            Ok(())
        }
        None => Ok(()),
    }
}

/// What is wrong with tokens that are no modules: all that is refused, and the fault.
fn of_syntax(
    alloc: Global,
    tokens: &[VerilogToken],
    found: &TextFaults,
) -> Result<Vec<PlacedFault>, AllocError>
    ensures { IfOk result (λ faults. faults.items ≡ syntax_faults tokens.now found.now) }
{
    let mut faults = Vec::new(alloc);
    let refusals = found.refusals.as_slice();
    for refusal in refusals {
        let fault = WholeFault::Refused(refusal.construct);
        faults.push(at_token(tokens, refusal.token, fault))?;
    }
    add_syntax_fault(tokens, &mut faults, found.fault)?;
    Ok(faults)
}

/// What is wrong with tokens that are no modules, by all that is told of them.
#[tactic(auto, using(crate::proofs::PlacedFaults::found_syntax))]
fn of_text_faults(alloc: Global, text: DesignText<'_>, found: &TextFaults) -> FoundFaults
    requires stand { list_all (token_stands text.files.now) text.tokens.now ≡ true }
    requires says { SaysSomething (parsed.Text found.now) }
    ensures { AreFoundIn text.entry.files.now result }
{
    match of_syntax(alloc, text.tokens, found) {
        Ok(faults) => FoundFaults::Found(faults),
        Err(_) => FoundFaults::Memory,
    }
}

/// Why no modules are read of tokens.
fn of_parse(alloc: Global, text: DesignText<'_>, fault: SourceParseFault) -> FoundFaults
    requires stand { list_all (token_stands text.files.now) text.tokens.now ≡ true }
    requires says { SaysSomething fault }
    ensures { AreFoundIn text.entry.files.now result }
{
    match fault {
        SourceParseFault::Memory => FoundFaults::Memory,
        SourceParseFault::Text(found) => of_text_faults(alloc, text, &found),
    }
}

/// The modules of tokens.
fn modules_of(alloc: Global, text: DesignText<'_>) -> Result<Vec<ModuleDeclaration>, FoundFaults>
    requires stand { list_all (token_stands text.files.now) text.tokens.now ≡ true }
    ensures refused { IfErr result (AreFoundIn text.entry.files.now) }
{
    match parse(alloc, text.tokens, text.files) {
        Ok(modules) => Ok(modules),
        Err(fault) => Err(of_parse(alloc, text, fault)),
    }
}

/// Refuses what isn't supported yet, all of it.
#[tactic(auto, using(crate::proofs::PlacedFaults::found_later))]
fn refuse_later(
    alloc: Global,
    text: DesignText<'_>,
    modules: &[ModuleDeclaration],
) -> Result<(), FoundFaults>
    requires stand { list_all (token_stands text.files.now) text.tokens.now ≡ true }
    ensures refused { IfErr result (AreFoundIn text.entry.files.now) }
{
    let found = later_faults(alloc, text.tokens, modules)?;
    if found.is_empty() {
        Ok(())
    } else {
        Err(FoundFaults::Found(found))
    }
}

/// The token of the first module whose name one before it has, by the names of those before, if there is one.
fn token_of_second<'m>(
    names: &mut IndexSet<&'m [u8]>,
    modules: &'m [ModuleDeclaration],
) -> Result<Option<usize>, AllocError> {
    for module in modules {
        if !names.insert(module.identifier.name.as_slice())? {
            return Ok(Some(module.identifier.token));
        }
    }
    Ok(None)
}

/// The token of the first second module of a name, if there is one. Fails where memory is refused.
fn second_module(
    alloc: Global,
    modules: &[ModuleDeclaration],
) -> Result<Option<usize>, AllocError> {
    let mut names = IndexSet::new(alloc);
    let found = token_of_second(&mut names, modules);
    drop(names);
    found
}

/// Refuses second modules of a name.
#[tactic(auto, using(crate::proofs::PlacedFaults::found_at))]
fn refuse_twice(
    alloc: Global,
    text: DesignText<'_>,
    modules: &[ModuleDeclaration],
) -> Result<(), FoundFaults>
    requires stand { list_all (token_stands text.files.now) text.tokens.now ≡ true }
    ensures refused { IfErr result (AreFoundIn text.entry.files.now) }
{
    match second_module(alloc, modules)? {
        None => Ok(()),
        Some(token) => Err(alone(alloc, at_token(text.tokens, token, WholeFault::ModuleTwice))),
    }
}

/// The scales of time of a design's modules, and the tick.
#[tactic(auto, using(crate::proofs::PlacedFaults::found_at))]
fn scales_of(
    alloc: Global,
    text: DesignText<'_>,
    modules: &[ModuleDeclaration],
) -> Result<ModuleScales, FoundFaults>
    requires stand { list_all (token_stands text.files.now) text.tokens.now ≡ true }
    ensures refused { IfErr result (AreFoundIn text.entry.files.now) }
{
    match module_scales(alloc, text.settings, text.tokens, modules)? {
        FoundScales::Known(scales) => Ok(scales),
        FoundScales::Unlike(token) => {
            let fault = at_token(text.tokens, token, WholeFault::Timescales);
            Err(alone(alloc, fault))
        }
    }
}

/// Why modules make no scopes, by whether the top one is asked for by its name.
fn of_scopes(alloc: Global, text: DesignText<'_>, named: bool, fault: DesignFault) -> FoundFaults
    requires stand { list_all (token_stands text.files.now) text.tokens.now ≡ true }
    ensures { AreFoundIn text.entry.files.now result }
{
    of_design(alloc, text.tokens, named, fault)
}

/// The parameters of the top modules of a text, with their values.
fn given_of<'a>(
    alloc: Global,
    text: DesignText<'_>,
    parameters: &[GivenParameter<'a>],
) -> Result<Vec<TopParameter<'a>>, FoundFaults>
    ensures { IfErr result (AreFoundIn text.entry.files.now) }
{
    top_parameters(alloc, parameters)
}

/// The scopes of a design's modules.
fn scoped_design(
    alloc: Global,
    text: DesignText<'_>,
    modules: &[ModuleDeclaration],
    asked: AskedDesign<'_>,
) -> Result<ScopedDesign, FoundFaults>
    requires stand { list_all (token_stands text.files.now) text.tokens.now ≡ true }
    ensures refused { IfErr result (AreFoundIn text.entry.files.now) }
{
    let given = given_of(alloc, text, asked.parameters)?;
    let top = asked.top.map(|name| name.as_bytes());
    match elaborate(alloc, modules, top, given.as_slice()) {
        Ok(design) => Ok(design),
        Err(fault) => Err(of_scopes(alloc, text, top.is_some(), fault)),
    }
}

/// The name of a design's flat module: that of its first top module.
fn name_of(design: &ScopedDesign) -> &str {
    design.tree.path(1)
}

/// Why a design has no flat module.
#[tactic(auto, using(crate::proofs::PlacedFaults::found_at))]
fn of_statement(alloc: Global, text: DesignText<'_>, fault: StatementFault) -> FoundFaults
    requires stand { list_all (token_stands text.files.now) text.tokens.now ≡ true }
    ensures { AreFoundIn text.entry.files.now result }
{
    match fault {
        StatementFault::Memory => FoundFaults::Memory,
        StatementFault::At { token, kind } => {
            let fault = at_token(text.tokens, token, WholeFault::Statement(kind));
            alone(alloc, fault)
        }
    }
}

/// The flat module of a design.
#[tactic(auto, using(crate::proofs::Made::own_name))]
fn flat_of(
    alloc: Global,
    text: DesignText<'_>,
    processes: &[PlainProcess],
    design: &ScopedDesign,
) -> Result<Module, FoundFaults>
    requires stand { list_all (token_stands text.files.now) text.tokens.now ≡ true }
    ensures flat { IfOk result (λ made. IsFlatModule processes.now design.now (module_of made).name (module_of made)) }
    ensures refused { IfErr result (AreFoundIn text.entry.files.now) }
{
    match flat_module(alloc, processes, design, name_of(design)) {
        Ok(module) => Ok(module),
        Err(fault) => Err(of_statement(alloc, text, fault)),
    }
}

/// A design of modules, and its processes, without calls.
#[tactic(auto, using(crate::proofs::PlacedFaults::found_at))]
fn plain_of(
    alloc: Global,
    text: DesignText<'_>,
    modules: &[ModuleDeclaration],
    scales: &[ModuleScale],
    design: ScopedDesign,
) -> Result<PlainDesign, FoundFaults>
    requires stand { list_all (token_stands text.files.now) text.tokens.now ≡ true }
    ensures plain { IfOk result IsOfModules }
    ensures refused { IfErr result (AreFoundIn text.entry.files.now) }
{
    match plain_processes(alloc, modules, scales, design) {
        Ok(made) => Ok(made),
        Err(fault) => Err(of_statement(alloc, text, fault)),
    }
}

/// The scopes of a tree, but the first, which is the design itself.
fn scopes_of(alloc: Global, tree: &ScopeTree) -> Result<Vec<DesignScope>, AllocError> {
    let mut found = Vec::new(alloc);
    for scope in tree.scopes.iter().skip(1) {
        found.push(DesignScope {
            path: String::from_str(alloc, scope.path.as_str())?,
            is_instance: scope.instance_of.is_some(),
        })?;
    }
    Ok(found)
}

/// What is told of a design beside its flat module: where the processes of that stand, and the scopes.
#[derive(Drop)]
struct ToldDesign {
    processes: Vec<ProcessLocation>,
    scopes: DesignScopes,
}

/// What is told of a design, with the processes of its flat module. Fails where memory is refused.
fn told_of(
    alloc: Global,
    text: DesignText<'_>,
    tick: u8,
    design: &ScopedDesign,
    processes: &[SourceProcess],
) -> Result<ToldDesign, AllocError>
    requires { length design.now.processes.items ≡ length processes.now }
    ensures { IfOk result (λ told. map (λ p. p.always) told.processes.items ≡ map (λ p. p.repeats) processes.now) }
{
    let processes = process_places(
        alloc,
        text.files,
        text.lines,
        text.tokens,
        design,
        processes,
    )?;
    let scopes = scopes_of(alloc, &design.tree)?;
    let scopes = DesignScopes { scopes, tick };
    Ok(ToldDesign { processes, scopes })
}

/// The flat module of a design without calls.
#[tactic(auto, using(crate::proofs::Made::as_many, crate::proofs::Made::whole_made))]
fn whole_of(
    alloc: Global,
    text: DesignText<'_>,
    tick: u8,
    plain: &PlainDesign,
) -> Result<WholeDesign, FoundFaults>
    requires stand { list_all (token_stands text.files.now) text.tokens.now ≡ true }
    requires expanded { IsOfModules plain.now }
    ensures made { IfOk result IsMadeDesign }
    ensures refused { IfErr result (AreFoundIn text.entry.files.now) }
{
    let sources = plain.processes.as_slice();
    let module = flat_of(alloc, text, sources, &plain.design)?;
    let processes = module.procs.as_slice();
    match told_of(alloc, text, tick, &plain.design, processes) {
        Ok(told) => Ok(WholeDesign {
            module,
            processes: told.processes,
            scopes: told.scopes,
        }),
        Err(_) => Err(FoundFaults::Memory),
    }
}

/// The flat module of the modules of a design.
#[tactic(auto, using(crate::proofs::PlacedFaults::found_nowhere))]
fn whole_of_modules(
    alloc: Global,
    text: DesignText<'_>,
    modules: &[ModuleDeclaration],
    asked: AskedDesign<'_>,
) -> Result<WholeDesign, FoundFaults>
    requires stand { list_all (token_stands text.files.now) text.tokens.now ≡ true }
    ensures made { IfOk result IsMadeDesign }
    ensures refused { IfErr result (AreFoundIn text.entry.files.now) }
{
    if modules.is_empty() {
        return Err(alone(alloc, unplaced(WholeFault::NoModule)));
    }
    refuse_later(alloc, text, modules)?;
    refuse_twice(alloc, text, modules)?;
    let scales = scales_of(alloc, text, modules)?;
    let design = scoped_design(alloc, text, modules, asked)?;
    let plain = plain_of(alloc, text, modules, scales.scales.as_slice(), design)?;
    let made = whole_of(alloc, text, scales.tick, &plain);
    drop(plain);
    made
}

/// The flat module of the tokens of a design.
fn made_of(
    alloc: Global,
    text: DesignText<'_>,
    asked: AskedDesign<'_>,
) -> Result<WholeDesign, FoundFaults>
    requires stand { list_all (token_stands text.files.now) text.tokens.now ≡ true }
    ensures made { IfOk result IsMadeDesign }
    ensures refused { IfErr result (AreFoundIn text.entry.files.now) }
{
    let modules = modules_of(alloc, text)?;
    let made = whole_of_modules(alloc, text, modules.as_slice(), asked);
    drop(modules);
    made
}

/// The fault of texts of which no tokens come.
#[tactic(auto, using(crate::proofs::PlacedFaults::found_alone, crate::proofs::PlacedFaults::text_placed))]
fn found_of_text(alloc: Global, fault: Fault) -> FoundFaults
    ensures { (files : List SourceFile) → fault_stands files fault ≡ true → AreFoundIn files result }
{
    match of_text(fault) {
        Some(fault) => alone(alloc, fault),
        None => FoundFaults::Memory,
    }
}

/// Why files have no tokens.
fn unread(alloc: Global, refusal: TextRefusal) -> WholeRefusal
    requires { fault_stands refusal.files.items refusal.fault ≡ true }
    ensures { IsRefusalOf result }
{
    let TextRefusal {
        fault,
        files,
        lines,
        wanted,
    } = refusal;
    match wanted {
        Some(path) => {
            drop(files);
            drop(lines);
            WholeRefusal::Wants(path)
        }
        None => refused(found_of_text(alloc, fault), files, lines),
    }
}

/// Faults, with the files by which their places are told.
fn refused(found: FoundFaults, files: Vec<SourceFile>, lines: Vec<LineMark>) -> WholeRefusal
    requires { AreFoundIn files.items found }
    ensures { IsRefusalOf result }
{
    match found {
        FoundFaults::Memory => {
            drop(files);
            drop(lines);
            WholeRefusal::Memory
        }
        FoundFaults::Found(faults) => WholeRefusal::Refused(DesignRefusal {
            faults,
            files,
            lines,
        }),
    }
}

/// The flat module of texts that are read, or all that is wrong with them.
fn made_of_read(
    alloc: Global,
    read: &Preprocessed,
    asked: AskedDesign<'_>,
) -> Result<WholeDesign, FoundFaults>
    requires { list_all (token_stands read.now.files.items) read.now.tokens.items ≡ true }
    ensures made { IfOk result IsMadeDesign }
    ensures refused { IfErr result (AreFoundIn read.now.files.items) }
{
    let files = read.files.as_slice();
    let tokens = read.tokens.as_slice();
    let text = DesignText {
        files,
        tokens,
        settings: read.settings.as_slice(),
        lines: read.lines.as_slice(),
    };
    made_of(alloc, text, asked)
}

/// The flat module of texts that are read, or what is told of them, with the files.
fn design_of_read(
    alloc: Global,
    read: Preprocessed,
    asked: AskedDesign<'_>,
) -> Result<WholeDesign, WholeRefusal>
    requires { list_all (token_stands read.files.items) read.tokens.items ≡ true }
    ensures made { IfOk result IsMadeDesign }
    ensures refused { IfErr result IsRefusalOf }
{
    match made_of_read(alloc, &read, asked) {
        Ok(design) => Ok(design),
        Err(found) => {
            let Preprocessed { files, lines, .. } = read;
            Err(refused(found, files, lines))
        }
    }
}

/// The flat module of the files of a design, in their order, with the files that they include, as far as these are known.
///
/// # Errors
///
/// `Memory` where memory is refused; `Wants` where a file is included that nobody has looked up at a path. Else all that is wrong
/// that is told at once: the first fault of the texts and of their
/// directives; or all that isn't Verilog as this language has it, up to the first place where the text can't be read on; or all
/// that isn't supported yet; or the first fault of the design. Each stands in one of the files that are told, but for what is
/// wrong with no place of them.
pub fn whole_design(
    alloc: Global,
    asked: AskedDesign<'_>,
    files: &[SourceFile],
    known: &[KnownFile],
) -> Result<WholeDesign, WholeRefusal>
    ensures made { IfOk result (IsWholeDesignOf files.now asked.entry.definitions.now) }
    ensures refused { IfErr result IsRefusalOf }
{
    match preprocess(alloc, asked.definitions, files, asked.folders, known) {
        Ok(read) => design_of_read(alloc, read, asked),
        Err(refusal) => Err(unread(alloc, refusal)),
    }
}
