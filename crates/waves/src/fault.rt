//! Why a journal has no wave.

ghost use Rattle.std.specs.Prelude.{◌≡◌};

use replay::ReplayFault;
use std::alloc::AllocError;
use thiserror::Error;

/// Why a journal has no wave.
#[derive(Debug, Drop, Error)]
pub enum WaveFault {
    /// The journal isn't replayed to its end.
    #[error(transparent)]
    Replay(ReplayFault),
    /// Memory was refused to what is told.
    #[error("memory")]
    Memory,
}

impl From<ReplayFault> for WaveFault {
    ghost use Rattle.waves.specs.declared.fault.WaveFault.TheVariants.{Replay};

    ghost from_gives = { λ fault wave. wave ≡ Replay fault };

    fn from(fault: ReplayFault) -> WaveFault {
        WaveFault::Replay(fault)
    }
}

impl From<AllocError> for WaveFault {
    ghost use Rattle.waves.specs.declared.fault.WaveFault.TheVariants.{Memory};

    ghost from_gives = { λ _ fault. fault ≡ Memory };

    fn from(_refused: AllocError) -> WaveFault {
        WaveFault::Memory
    }
}
