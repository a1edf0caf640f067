//! From the bytes of a source to its design.
ghost use Rattle.std.specs.Prelude.{◌≡◌, [], map, IfOk, IfErr};
ghost use Rattle.model.specs.Elaboration as model;
ghost use Rattle.model.specs.Elaboration.{declared, faults};
ghost use Rattle.model.specs.SourceTrees.{module_of};
ghost use Rattle.design.specs.Compiled.{design_of};
ghost use Rattle.frontend.specs.Sources.{IsDesignOf, IsSourceFault, IsFaultOfModule};

use design::Design;
use elaborate::{ElabFault, elaborate_owned};
use model::limits::ModuleLimits;
use model::tree::Module;
use std::alloc::Global;
use thiserror::Error;
use vparse::{ParseFault, parse};

/// Why a source isn't run: its text is no module, or its module has a fault.
#[derive(Debug, Drop, Error)]
pub enum SourceFault {
    #[error(transparent)]
    Parse(ParseFault),
    #[error(transparent)]
    Elaborate(ElabFault),
}

/// The design of the module that a source spells.
///
/// # Errors
///
/// `Parse` with the fault of a text that spells no module or nests too deep, else `Elaborate` with the first fault of
/// its module; either has `Memory` where memory is refused.
pub fn read_design(alloc: Global, source: &[u8]) -> Result<Design, SourceFault>
    ensures design { IfOk result (λ d. IsDesignOf source.now d) }
    ensures fault { IfErr result (IsSourceFault source.now) }
{
    let module = match parse(alloc, source) {
        Ok(module) => module,
        Err(fault) => return Err(SourceFault::Parse(fault)),
    };
    designed(alloc, module)
}

// The design of a module that a source spells, or its first fault, which is told as none of the text.
fn designed(alloc: Global, parsed: Module) -> Result<Design, SourceFault>
    ensures faultless { IfOk result (λ d. faults (module_of parsed) ≡ []) }
    ensures design { IfOk result (λ d. design_of d ≡ model.design_of_module (module_of parsed)) }
    ensures names { IfOk result (λ d. d.names ≡ map (λ x. x.0) (declared (module_of parsed))) }
    ensures fault { IfErr result (IsFaultOfModule (faults (module_of parsed))) }
{
    match elaborate_owned(alloc, ModuleLimits::Profile, parsed) {
        Ok(design) => Ok(design),
        Err(fault) => Err(SourceFault::Elaborate(fault)),
    }
}
