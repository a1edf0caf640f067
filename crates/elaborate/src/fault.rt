//! The faults of a module.

use std::alloc::AllocError;
use std::error::Error;
use std::fmt;

/// Why a module has no design. The names are those that stand in the module.
#[derive(Debug, Drop)]
pub enum ElabFault {
    /// A name that isn't declared anywhere in the module.
    Undeclared(String),
    /// A name that is declared a second time (3.12).
    DeclaredTwice(String),
    /// A range that isn't `[m:0]` with m below 128 (4.3.1).
    BadRange(String),
    TooManyRegisters,
    TooManyProcesses,
    /// A format with another conversion than `%b`, `%h` and `%0d`, or not as many of them as there are arguments (17.1.1), or
    /// with a byte that isn't one of ASCII (3.6).
    BadFormat,
    /// A concatenation whose parts have more than 128 digits together (5.1.14).
    WideConcat,
    /// A bit of a register without a range, or outside its range (5.2.1).
    BadIndex(String),
    LongDelay,
    /// Memory was refused.
    Memory,
}

impl ElabFault {
    // What is told of the fault, before the name in it where there is one.
    fn words(&self) -> &'static str {
        match self {
            ElabFault::Undeclared(_) => "E1 undeclared ",
            ElabFault::DeclaredTwice(_) => "E2 declared twice ",
            ElabFault::BadRange(_) => "E3 range of ",
            ElabFault::TooManyRegisters => "E4 more than 1024 registers",
            ElabFault::TooManyProcesses => "E5 more than 256 processes",
            ElabFault::BadFormat => "E6 format and arguments",
            ElabFault::WideConcat => "E7 concatenation over 128 bits",
            ElabFault::BadIndex(_) => "E8 bit index of ",
            ElabFault::LongDelay => "E9 delay over 4294967295",
            ElabFault::Memory => "E10 memory",
        }
    }

    // The name in the fault, where there is one.
    fn name(&self) -> Option<&str> {
        match self {
            ElabFault::Undeclared(name)
            | ElabFault::DeclaredTwice(name)
            | ElabFault::BadRange(name)
            | ElabFault::BadIndex(name) => Some(name.as_str()),
            _ => None,
        }
    }
}

impl fmt::Display for ElabFault {
    fn fmt<W: fmt::Write>(&self, f: &mut fmt::Formatter<W>) -> fmt::Result {
        f.write_str(self.words())?;
        match self.name() {
            Some(name) => f.write_str(name),
            None => Ok(()),
        }
    }
}

impl Error for ElabFault {}

impl From<AllocError> for ElabFault {
    ghost use Rattle.elaborate.specs.declared.fault.ElabFault.TheVariants.{Memory};
    ghost use Rattle.std.specs.Prelude.{◌≡◌};

    ghost from_gives = { λ _ e. e ≡ Memory };

    fn from(_: AllocError) -> ElabFault {
        ElabFault::Memory
    }
}
