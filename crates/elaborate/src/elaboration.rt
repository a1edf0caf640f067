//! From a module to its design.
ghost use Rattle.std.specs.Prelude.{◌≡◌, [], None, Some, Err, map, length, IfOk, IfErr, OnOk};
ghost use Rattle.design.specs.Compiled.{design_of};
ghost use Rattle.design.specs.Sound.{IsSound};
ghost use Rattle.elaborate.specs.ModuleFaults.{IsFirstFault};
ghost use Rattle.elaborate.specs.FirstFindings.{first_finding, found_among, found_few, told_of, IsFirstOf};
ghost use Rattle.elaborate.specs.declared.fault.ElabFault.{ElabFault};
ghost use Rattle.elaborate.specs.Formed.{AreFormedProcesses};
ghost use Rattle.elaborate.specs.Small.{AreSmallProcesses};
ghost use Rattle.model.specs.Elaboration as model;
ghost use Rattle.model.specs.Elaboration.{declared, faults, faults_within};
ghost use Rattle.model.specs.SourceTrees.{module_of, source_process_of};

use crate::fault::ElabFault;
use crate::finding::Finding;
use crate::names::RegisterNames;
use crate::{check, registers, resolve, uses};
use design::Design;
use model::limits::ModuleLimits;
use model::tree::{Module, SourceProcess};
use std::alloc::Global;

/// The design of a module without faults under these limits: its registers by number, in the order of their declarations, and its
/// processes over those numbers.
///
/// # Errors
///
/// The first fault of a module that has one, by the codes E1 to E9: those of the declarations come first, then too
/// many processes, then names that aren't declared, and then those of the statements, each in the order of the text.
/// `Memory` where memory is refused.
pub fn elaborate_within(
    alloc: Global,
    limits: ModuleLimits,
    source: &Module,
) -> Result<Design, ElabFault>
    ensures faultless { IfOk result (λ d. faults_within limits (module_of source.now) ≡ []) }
    ensures design { IfOk result (λ d. design_of d ≡ model.design_of_module (module_of source.now)) }
    ensures names { IfOk result (λ d. d.names ≡ map (λ x. x.0) (declared (module_of source.now))) }
    ensures fault { IfErr result (λ f. IsFirstFault f (faults_within limits (module_of source.now))) }
{
    let names = registers_of(alloc, limits, source)?;
    let processes = resolve::processes(alloc, &names, source.procs.as_slice())?;
    Ok(names.design(alloc, processes)?)
}

/// As `elaborate_within`, under the limits of the profile.
///
/// # Errors
///
/// As those of `elaborate_within`.
pub fn elaborate(alloc: Global, source: &Module) -> Result<Design, ElabFault>
    ensures faultless { IfOk result (λ d. faults (module_of source.now) ≡ []) }
    ensures design { IfOk result (λ d. design_of d ≡ model.design_of_module (module_of source.now)) }
    ensures names { IfOk result (λ d. d.names ≡ map (λ x. x.0) (declared (module_of source.now))) }
    ensures fault { IfErr result (λ f. IsFirstFault f (faults (module_of source.now))) }
{
    elaborate_within(alloc, ModuleLimits::Profile, source)
}

/// As `elaborate_within`, of a module that is given up piece by piece while its design is made, so that the two never take memory at
/// once.
///
/// # Errors
///
/// As those of `elaborate_within`.
pub fn elaborate_owned(
    alloc: Global,
    limits: ModuleLimits,
    source: Module,
) -> Result<Design, ElabFault>
    ensures faultless { IfOk result (λ d. faults_within limits (module_of source) ≡ []) }
    ensures design { IfOk result (λ d. design_of d ≡ model.design_of_module (module_of source)) }
    ensures names { IfOk result (λ d. d.names ≡ map (λ x. x.0) (declared (module_of source))) }
    ensures fault { IfErr result (λ f. IsFirstFault f (faults_within limits (module_of source))) }
{
    let names = registers_of(alloc, limits, &source)?;
    let Module { procs, .. } = source;
    let processes = resolve::processes_given_up(alloc, &names, procs)?;
    Ok(names.design(alloc, processes)?)
}

// The registers of a module without faults, or the first fault of the module.
fn registers_of(
    alloc: Global,
    limits: ModuleLimits,
    source: &Module,
) -> Result<RegisterNames, ElabFault>
    ensures faultless { IfOk result (λ names. faults_within limits (module_of source.now) ≡ []) }
    ensures small { IfOk result (λ names. AreSmallProcesses (module_of source.now).processes) }
    ensures sound { IfOk result (λ names. IsSound (model.design_of_module (module_of source.now))) }
    ensures names { IfOk result (λ names. names ≡ declared (module_of source.now)) }
    ensures fault { IfErr result (λ f. IsFirstFault f (faults_within limits (module_of source.now))) }
{
    let names = registers::registers(alloc, limits, source.regs.as_slice())?;
    told(alloc, limits, &names, source.procs.as_slice())?;
    Ok(names)
}

// The first thing that is wrong with the processes of a module is told, and not want of memory where it has no name in it.
fn told(
    alloc: Global,
    limits: ModuleLimits,
    names: &RegisterNames,
    processes: &[SourceProcess],
) -> Result<(), ElabFault>
    ensures fault { IfErr result (λ f. IsFirstOf f (found_among limits names.now (map source_process_of processes.now))) }
    ensures none { OnOk result (found_among limits names.now (map source_process_of processes.now) ≡ None) }
    ensures formed { OnOk result (AreFormedProcesses (map source_process_of processes.now)) }
    ensures certain { (f : ElabFault) → told_of (found_among limits names.now (map source_process_of processes.now)) ≡ Some f → result ≡ Err f }
{
    if let Err(finding) = allowed(limits, names, processes) {
        return Err(finding.fault(alloc));
    }
    Ok(())
}

/// Refuses the first thing that is wrong with the processes of a module.
pub fn allowed<'a>(
    limits: ModuleLimits,
    names: &RegisterNames,
    processes: &'a [SourceProcess],
) -> Result<(), Finding<'a>>
    ensures found { first_finding result ≡ found_among limits names.now (map source_process_of processes.now) }
    ensures formed { OnOk result (AreFormedProcesses (map source_process_of processes.now)) }
{
    few(limits, processes.len())?;
    uses::processes(names, processes)?;
    check::processes(names, processes)
}

// Refuses too many processes.
fn few<'a>(limits: ModuleLimits, processes: usize) -> Result<(), Finding<'a>>
    ensures { first_finding result ≡ found_few limits processes }
{
    if processes > limits.most_processes() {
        Err(Finding::TooManyProcesses)
    } else {
        Ok(())
    }
}
