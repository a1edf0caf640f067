//! What a walk over the tree finds first, with the name as it stands in the tree.
ghost use Rattle.std.specs.Prelude.{◌≡◌, Ok, Some, IfOk};
ghost use Rattle.elaborate.specs.FirstFindings.{first_finding, or_fault, IsModuleFaultOf, plain, told_of};
ghost use Rattle.elaborate.specs.declared.fault.ElabFault.{ElabFault};

use crate::fault::ElabFault;
use std::alloc::{AllocError, Global};

/// A fault that isn't about memory.
#[derive(Clone, Copy)]
pub enum Finding<'a> {
    Undeclared(&'a str),
    DeclaredTwice(&'a str),
    BadRange(&'a str),
    TooManyRegisters,
    TooManyProcesses,
    BadFormat,
    WideConcat,
    BadIndex(&'a str),
    LongDelay,
}

impl Finding<'_> {
    /// The fault that is told. Where memory is refused for the name, that is the fault.
    pub fn fault(self, alloc: Global) -> ElabFault
        ensures found { IsModuleFaultOf result (plain self.entry) }
        // A fault with no name in it is told whatever memory there is.
        ensures certain { (f : ElabFault) → told_of (Some (plain self.entry)) ≡ Some f → result ≡ f }
    {
        match self.owned(alloc) {
            Ok(fault) => fault,
            Err(_) => ElabFault::Memory,
        }
    }

    // The fault, with a copy of its name. Fails where memory is refused to that.
    fn owned(self, alloc: Global) -> Result<ElabFault, AllocError>
        ensures found { IfOk result (λ f. IsModuleFaultOf f (plain self.entry)) }
        ensures certain { (f : ElabFault) → told_of (Some (plain self.entry)) ≡ Some f → result ≡ Ok f }
    {
        Ok(match self {
            Finding::Undeclared(name) => ElabFault::Undeclared(String::from_str(alloc, name)?),
            Finding::DeclaredTwice(name) => ElabFault::DeclaredTwice(String::from_str(
                alloc, name,
            )?),
            Finding::BadRange(name) => ElabFault::BadRange(String::from_str(alloc, name)?),
            Finding::TooManyRegisters => ElabFault::TooManyRegisters,
            Finding::TooManyProcesses => ElabFault::TooManyProcesses,
            Finding::BadFormat => ElabFault::BadFormat,
            Finding::WideConcat => ElabFault::WideConcat,
            Finding::BadIndex(name) => ElabFault::BadIndex(String::from_str(alloc, name)?),
            Finding::LongDelay => ElabFault::LongDelay,
        })
    }
}

/// The first of two findings.
pub fn first<'a>(
    one: Result<(), Finding<'a>>,
    other: Result<(), Finding<'a>>,
) -> Result<(), Finding<'a>>
    ensures { first_finding result ≡ or_fault (first_finding one.entry) (first_finding other.entry) }
{
    match one {
        Ok(()) => other,
        Err(found) => Err(found),
    }
}
