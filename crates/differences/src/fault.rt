//! Why two journals aren't compared.

ghost use Rattle.std.specs.Prelude.{◌≡◌};
ghost use Rattle.differences.specs.CompareFaults.{compare_fault_of, untold};

use explain::ExplainFault;
use replay::ReplayFault;
use std::alloc::AllocError;

/// One of the two journals.
#[derive(Clone, Copy, Drop)]
pub enum JournalSide {
    First,
    Second,
}

/// Why two journals aren't compared.
#[derive(Drop)]
pub enum CompareFault {
    /// One of them isn't lawful, or can't be taken to its end.
    Replay(JournalSide, ReplayFault),
    /// Memory was refused.
    Memory,
}

impl From<AllocError> for CompareFault {
    ghost use Rattle.differences.specs.declared.fault.CompareFault.TheVariants.{Memory};

    ghost from_gives = { λ _ fault. fault ≡ Memory };

    fn from(_refused: AllocError) -> CompareFault {
        CompareFault::Memory
    }
}

/// Why the run of one journal isn't followed to its end.
#[derive(Drop)]
pub(crate) enum RunFault {
    /// The journal isn't lawful, or can't be taken to its end.
    Replay(ReplayFault),
    /// Memory was refused.
    Memory,
}

impl RunFault {
    /// Why an entry isn't told. No text of a journal is read for it.
    pub(crate) fn untold(fault: ExplainFault) -> RunFault
        ensures { result ≡ untold fault }
    {
        match fault {
            ExplainFault::Replay(fault) => RunFault::Replay(fault),
            ExplainFault::Read(_) | ExplainFault::CannotWrite | ExplainFault::Memory => {
                RunFault::Memory
            }
        }
    }

    /// As a fault of one of two journals.
    pub(crate) fn of(self, side: JournalSide) -> CompareFault
        ensures { result ≡ compare_fault_of side self }
    {
        match self {
            RunFault::Replay(fault) => CompareFault::Replay(side, fault),
            RunFault::Memory => CompareFault::Memory,
        }
    }
}
