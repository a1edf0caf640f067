//! Why files make no design.

ghost use Rattle.std.specs.Prelude.{◌≡◌, ◌∷◌, [], slice_get};
ghost use Rattle.design_faults.specs.Placing as spec;
ghost use Rattle.design_faults.specs.Placing.{AreFaultsFound, IsFoundOf, fault_at_token, no_top_fault, without_place};

use design_scopes::faults::{DesignFault, Wrong};
use expression_syntax::refusals::Refused;
use hierarchy::later::LaterConstruct;
use lexemes::token::{FileSpan, SourceFile, VerilogToken};
use preprocess::fault::TextFaultKind;
use source_texts::settings::LineMark;
use statement_parts::faults::StatementKind;
use std::alloc::{AllocError, AllocFailed, Global};
use syntax::parser::SyntaxReason;

/// What this language lacks still, beside nets and ports.
#[derive(Clone, Copy, PartialEq, Eq)]
pub enum LaterForm {
    /// An array of variables (4.9).
    Array,
    /// A declaration's value (6.2.1).
    InitialValue,
    /// `fork` (9.8.2).
    Fork,
    /// `casez` and `casex` (9.5.1).
    DontCares,
    /// `disable` (10.3).
    Disable,
    /// An event between the value of an assignment and its effect (9.7.7).
    EventInAssignment,
    /// An assignment to a part of a variable, to a word of an array, or to several variables (9.2).
    PartTarget,
    /// `*`, `/`, `%`, `**` or `>>>` (5.1.5, 5.1.12).
    Arithmetic,
    /// A system task.
    SystemTask,
    /// A system function.
    SystemFunction,
    /// A real number (3.5.2).
    Real,
    /// A number without a size of more than 32 digits (3.5.1).
    LongNumber,
}

/// What is wrong with the files of a design.
#[derive(Clone, Copy)]
pub enum WholeFault {
    /// The texts aren't cut into tokens, or their directives aren't followed (3, 19).
    Text(TextFaultKind),
    /// More text than 4,294,967,295 bytes, or more than 1,048,576 files.
    TooMuchText,
    /// The tokens are no modules (annex A).
    Syntax(SyntaxReason),
    /// The text ends before this (annex A).
    EarlyEnd(SyntaxReason),
    /// What this language doesn't take.
    Refused(Refused),
    /// A net, a gate, a port or a continuous assignment, which aren't supported yet.
    LaterConstruct(LaterConstruct),
    /// What else isn't supported yet.
    LaterForm(LaterForm),
    /// An `if` or a `case` whose last branch stands in more than 1,024 statements, with those of the branches before it, or a label
    /// of an item with more than 1,024.
    DeepBranches,
    /// A second module of a name (12.1).
    ModuleTwice,
    /// Something is wrong with the design (12).
    Design(Wrong),
    /// Something is wrong with a statement (9).
    Statement(StatementKind),
    /// Modules with units of time, and others without (19.8).
    Timescales,
    /// The files have no module.
    NoModule,
    /// No module has the name that is asked for.
    NoTopOfName,
    /// Each module is used by another one.
    NoTop,
    /// No top module has a parameter of a name that is given a value.
    UnknownTopParameter,
    /// The value that is given to a parameter is no expression of constants.
    ParameterValue,
}

/// What is wrong at a place. Where it comes of a macro, `used` is where the outermost one was used.
#[derive(Clone, Copy)]
pub struct PlacedFault {
    pub fault: WholeFault,
    pub place: Option<FileSpan>,
    pub used: Option<FileSpan>,
}

/// What is wrong with files: one fault at least, and the files with those that they include, by which places are told.
#[derive(Drop)]
pub struct DesignRefusal {
    pub faults: Vec<PlacedFault>,
    pub files: Vec<SourceFile>,
    pub lines: Vec<LineMark>,
}

/// Why files make no design.
#[derive(Drop)]
pub enum WholeRefusal {
    /// Memory is refused.
    Memory,
    /// Nobody has looked up, at this path, a file that is included.
    Wants(String),
    Refused(DesignRefusal),
}

/// Faults of tokens, or that memory is refused.
#[derive(Drop)]
pub enum FoundFaults {
    Memory,
    Found(Vec<PlacedFault>),
}

impl From<AllocError> for FoundFaults {
    ghost use Rattle.design_faults.specs.declared.refused.FoundFaults.TheVariants as found;

    ghost from_gives = { λ _ e. e ≡ found.Memory };

    fn from(_: AllocError) -> FoundFaults {
        FoundFaults::Memory
    }
}

impl<T: Drop> From<AllocFailed<T>> for FoundFaults {
    ghost use Rattle.design_faults.specs.declared.refused.FoundFaults.TheVariants as found;

    ghost from_gives = { λ _ e. e ≡ found.Memory };

    fn from(_: AllocFailed<T>) -> FoundFaults {
        FoundFaults::Memory
    }
}

impl From<AllocError> for WholeRefusal {
    ghost use Rattle.design_faults.specs.declared.refused.WholeRefusal.TheVariants as refusal;

    ghost from_gives = { λ _ e. e ≡ refusal.Memory };

    fn from(_: AllocError) -> WholeRefusal {
        WholeRefusal::Memory
    }
}

/// One fault alone; that memory is refused, where it can't be kept.
pub fn alone(alloc: Global, fault: PlacedFault) -> FoundFaults
    ensures { AreFaultsFound (fault ∷ []) result }
{
    let mut faults = Vec::new(alloc);
    match faults.push(fault) {
        Ok(()) => FoundFaults::Found(faults),
        Err(_) => FoundFaults::Memory,
    }
}

/// A fault without a place.
pub fn unplaced(fault: WholeFault) -> PlacedFault
    ensures { result ≡ without_place fault }
{
    PlacedFault {
        fault,
        place: None,
        used: None,
    }
}

/// The token of a number, if there is one.
fn token_of(tokens: &[VerilogToken], number: usize) -> Option<VerilogToken>
    ensures { result ≡ slice_get tokens.now number }
{
    tokens.get(number).copied()
}

/// The token of a number; the last one where there are fewer, and none where there are none.
fn told_token(tokens: &[VerilogToken], number: usize) -> Option<VerilogToken>
    ensures { result ≡ spec.told_token tokens.now number }
{
    match token_of(tokens, number) {
        Some(token) => Some(token),
        None => tokens.last().copied(),
    }
}

/// A fault at the token of a number; at the last one where there is no such token, and nowhere where there are none.
pub fn at_token(tokens: &[VerilogToken], token: usize, fault: WholeFault) -> PlacedFault
    ensures { result ≡ fault_at_token tokens.now token fault }
{
    match told_token(tokens, token) {
        Some(found) => PlacedFault {
            fault,
            place: Some(found.span),
            used: found.use_place,
        },
        None => unplaced(fault),
    }
}

/// That no module is a top one, by whether one is asked for by its name.
fn no_top(named: bool) -> WholeFault
    ensures { result ≡ no_top_fault named }
{
    if named {
        WholeFault::NoTopOfName
    } else {
        WholeFault::NoTop
    }
}

/// The faults of a design that isn't made, by whether its top module is asked for by its name.
pub fn of_design(
    alloc: Global,
    tokens: &[VerilogToken],
    named: bool,
    fault: DesignFault,
) -> FoundFaults
    ensures { IsFoundOf tokens.now named fault result }
{
    match fault {
        DesignFault::Memory => FoundFaults::Memory,
        DesignFault::At { token, wrong } => {
            alone(alloc, at_token(tokens, token, WholeFault::Design(wrong)))
        }
        DesignFault::NoTopModule => alone(alloc, unplaced(no_top(named))),
        DesignFault::UnknownTopParameter => {
            alone(alloc, unplaced(WholeFault::UnknownTopParameter))
        }
    }
}
