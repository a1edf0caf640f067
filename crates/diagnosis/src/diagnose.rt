//! The fault of a source at its location, with notes.

ghost use Rattle.std.specs.Prelude.{◌≡◌, ◌⊎◌, [], IfOk, IfNone, IfSome};
ghost use Rattle.design.specs.Compiled.{Compiled};
ghost use Rattle.frontend.specs.Sources.{IsDesignOf, IsSourceFault};
ghost use Rattle.diagnosis.specs.FaultLocations.{IsTextLocation, IsModuleLocation, IsFaultLocation};
ghost use Rattle.frontend.specs.declared.source.SourceFault.TheVariants.{Parse};
ghost use Rattle.vparse.specs.declared.parser.ParseFault.TheVariants.{Memory};
ghost use Rattle.diagnosis.specs.Kinds.{HasListed};

use crate::kinds::{ListedNote, listed_notes};
use crate::wanted::told_byte;
use elaborate::ElabFault;
use frontend::{SourceFault, read_design};
use locations::{Location, location_of_byte, location_of_token, spots};
use std::alloc::Global;
use tokens::cut::CutFault;
use vparse::ParseFault;

/// A location, if there is one; it fails where a cut of the source into tokens does.
type LocationResult = Result<Option<Location>, CutFault>;

/// The location of a fault of the text, which want of memory hasn't. Fails where a cut of the source into tokens does.
fn text_location(alloc: Global, source: &[u8], fault: ParseFault) -> LocationResult
    ensures { IfOk result (λ location. IsTextLocation source.now fault location) }
{
    match fault {
        ParseFault::Byte(byte) => Ok(Some(location_of_byte(source, byte))),
        ParseFault::Literal(byte) => Ok(Some(location_of_byte(source, byte))),
        ParseFault::Syntax(number) => Ok(Some(location_of_token(alloc, source, number)?)),
        ParseFault::Unsized(number) => Ok(Some(location_of_token(alloc, source, number)?)),
        ParseFault::Deep(number) => Ok(Some(location_of_token(alloc, source, number)?)),
        ParseFault::Memory => Ok(None),
    }
}

/// The location of the token that a fault of the module tells, if it tells one. Fails where a cut of the source into tokens does.
fn module_location(alloc: Global, source: &[u8], fault: &ElabFault) -> LocationResult
    ensures { IfOk result (λ location. IsModuleLocation source.now fault.now location) }
{
    let spots = spots(alloc, source)?;
    match told_byte(&spots, fault) {
        Some(byte) => Ok(Some(location_of_byte(source, byte))),
        None => Ok(None),
    }
}

/// The location of a fault, if that is known. Fails where a cut of the source into tokens does.
fn fault_location(alloc: Global, source: &[u8], fault: &SourceFault) -> LocationResult
    ensures { IfOk result (λ location. IsFaultLocation source.now fault.now location) }
{
    match fault {
        SourceFault::Parse(fault) => text_location(alloc, source, *fault),
        SourceFault::Elaborate(fault) => module_location(alloc, source, fault),
    }
}

/// What is wrong with a source: why `read_design` refuses it, if it does; where that fault stands, if that is known; and what the
/// source has of Verilog that the language lacks, each kind once or each at all of its places.
#[derive(Drop)]
pub struct Diagnosis {
    pub fault: Option<SourceFault>,
    pub location: Option<Location>,
    pub notes: Vec<ListedNote>,
}

/// A diagnosis with no notes and no location.
fn plain(alloc: Global, fault: Option<SourceFault>) -> Diagnosis
    ensures fault { result.fault ≡ fault }
    ensures location { result.location ≡ None }
    ensures notes { result.notes.items ≡ [] }
{
    Diagnosis {
        fault,
        location: None,
        notes: Vec::new(alloc),
    }
}

/// The diagnosis of a source with a fault: its location, and the notes. Where these can't be had, want of memory is the fault that is told.
fn of_fault(alloc: Global, source: &[u8], fault: SourceFault, all: bool) -> Diagnosis
    requires { IsSourceFault source.now fault }
    ensures fault { IfSome result.fault (λ told. IsSourceFault source.now told) }
    ensures location { IfSome result.fault (λ told. IsFaultLocation source.now told result.location) }
    ensures some { IfNone result.fault ⊥ }
    ensures notes { IfSome result.fault (λ told. (told ≡ Parse Memory) ⊎ HasListed source.now all result.notes.items) }
{
    match fault_location(alloc, source, &fault) {
        Ok(location) => match listed_notes(alloc, source, all) {
            Ok(notes) => Diagnosis {
                fault: Some(fault),
                location,
                notes,
            },
            Err(_) => plain(alloc, Some(SourceFault::Parse(ParseFault::Memory))),
        },
        Err(_) => plain(alloc, Some(SourceFault::Parse(ParseFault::Memory))),
    }
}

/// What is wrong with a source. No fault is told only where `read_design` answers a design, and else the fault that it answers.
/// Where memory is refused, that is the fault. A source without a fault has no notes, and else it has all, or the first of each
/// kind.
pub fn diagnose(alloc: Global, source: &[u8], all: bool) -> Diagnosis
    ensures none { IfNone result.fault ((d : Compiled) × IsDesignOf source.now d) }
    ensures fault { IfSome result.fault (λ told. IsSourceFault source.now told) }
    ensures location { IfSome result.fault (λ told. IsFaultLocation source.now told result.location) }
    ensures silent { IfNone result.fault (result.notes.items ≡ []) }
    ensures notes { IfSome result.fault (λ told. (told ≡ Parse Memory) ⊎ HasListed source.now all result.notes.items) }
{
    match read_design(alloc, source) {
        Ok(_) => plain(alloc, None),
        Err(fault) => of_fault(alloc, source, fault, all),
    }
}
