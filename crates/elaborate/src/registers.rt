//! The registers of a module, in the order of their declarations.
ghost use Rattle.std.specs.Prelude.{◌≡◌, ◌++◌, [], None, map, string_bytes, IfOk, IfErr, OnOk};
ghost use Rattle.model.specs.SourceTrees.{declaration_of};
ghost use Rattle.elaborate.specs.Registers.{all_declared, of_range};
ghost use Rattle.elaborate.specs.FirstFindings.{found_names, IsFirstOf};

use crate::fault::ElabFault;
use crate::names::{Range, RegisterNames};
use model::limits::ModuleLimits;
use model::tree::Declaration;
use std::alloc::Global;

/// The registers of these declarations. Refuses the first name that may not be declared.
pub fn registers(
    alloc: Global,
    limits: ModuleLimits,
    declarations: &[Declaration],
) -> Result<RegisterNames, ElabFault>
    ensures registers { IfOk result (λ names. names ≡ all_declared (map declaration_of declarations.now)) }
    ensures allowed { OnOk result (found_names limits [] (all_declared (map declaration_of declarations.now)) ≡ None) }
    ensures fault { IfErr result
        (λ f. IsFirstOf f (found_names limits [] (all_declared (map declaration_of declarations.now)))) }
{
    let mut names = RegisterNames::new(alloc);
    for declaration in declarations {
        names = with_all(
            alloc,
            limits,
            names,
            declaration.names.as_slice(),
            declaration.range,
        )?;
    }
    Ok(names)
}

// The registers, and behind them those of one declaration. Refuses the first name that may not be declared.
fn with_all(
    alloc: Global,
    limits: ModuleLimits,
    registers: RegisterNames,
    more: &[String],
    range: Range,
) -> Result<RegisterNames, ElabFault>
    ensures registers { IfOk result (λ names. names ≡ registers ++ of_range range (map string_bytes more.now)) }
    ensures allowed { OnOk result (found_names limits registers (of_range range (map string_bytes more.now)) ≡ None) }
    ensures fault { IfErr result (λ f. IsFirstOf f (found_names limits registers (of_range range (map string_bytes more.now)))) }
{
    let mut names = registers;
    for name in more {
        names = names.declare(alloc, limits, name.as_str(), range)?;
    }
    Ok(names)
}
