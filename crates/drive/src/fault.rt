//! Why a journal wasn't driven to its end.
ghost use Rattle.std.specs.Prelude.{◌≡◌};
ghost use Rattle.drive.specs.declared.fault.DriveFault.TheVariants.{Memory};

use std::alloc::{AllocError, AllocFailed};
use thiserror::Error;

/// Why there is no closed gate: an entry, counted from 1, isn't lawful after those before it; or memory was refused.
#[derive(Clone, Copy, Debug, PartialEq, Eq, Error)]
pub enum DriveFault {
    #[error("entry {0}: not lawful")]
    Unlawful(u64),
    #[error("memory")]
    Memory,
}

impl From<AllocError> for DriveFault {
    ghost from_gives = { λ _ e. e ≡ Memory };

    fn from(_: AllocError) -> Self {
        DriveFault::Memory
    }
}

impl<T: Drop> From<AllocFailed<T>> for DriveFault {
    ghost from_gives = { λ _ e. e ≡ Memory };

    fn from(_: AllocFailed<T>) -> Self {
        DriveFault::Memory
    }
}
