//! The registers of a list of names.

ghost use Rattle.std.specs.Prelude.{◌≡◌, ◌≢◌, IfOk, IfSome, None, Some, length, slice_get};
ghost use Rattle.wavetexts.specs.Names.{AreNamed, IsNoName, registers_from};

use design::{Design, RegId};
use std::alloc::{AllocError, Global};

/// The registers that names mean, or the first of the names that no register has.
#[derive(Drop)]
pub enum NamedRegisters<'a> {
    All(Vec<RegId>),
    Unknown(&'a str),
}

// The register with a name.
fn register_of(design: &Design, name: &str) -> Option<RegId>
    ensures some { IfSome result (λ register. slice_get design.now.names register ≡ Some name.now) }
    ensures none { result ≡ None → IsNoName design.now.names name.now }
{
    for register in 0..design.registers() {
        if design.name(register) == name {
            return Some(register);
        }
    }
    None
}

/// The registers of a design with these names, between which commas stand. Fails where memory is refused.
pub fn registers_named<'a>(
    alloc: Global,
    design: &Design,
    names: &'a str,
) -> Result<NamedRegisters<'a>, AllocError>
    ensures { IfOk result (AreNamed design.now.names names.entry.now) }
{
    let mut found = Vec::new(alloc);
    let mut rest = names;
    while let Some((name, more)) = rest.split_once(',') {
        match register_of(design, name) {
            Some(register) => found.push(register)?,
            None => return Ok(NamedRegisters::Unknown(name)),
        }
        rest = more;
    }
    match register_of(design, rest) {
        Some(register) => {
            found.push(register)?;
            Ok(NamedRegisters::All(found))
        }
        None => Ok(NamedRegisters::Unknown(rest)),
    }
}

/// All registers of a design, in the order of their declaration. Fails where memory is refused.
pub fn all_registers(alloc: Global, design: &Design) -> Result<Vec<RegId>, AllocError>
    ensures { IfOk result (λ registers. registers.items ≡ registers_from 0 (length design.now.widths)) }
{
    let mut registers = Vec::new(alloc);
    for register in 0..design.registers() {
        registers.push(register)?;
    }
    Ok(registers)
}
