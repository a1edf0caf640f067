//! Why a scope or a name can't be added.

use std::alloc::{AllocError, AllocFailed};

/// Why a scope or a name can't be added.
#[derive(Clone, Copy)]
pub enum ScopeFault {
    /// There is no scope of this number.
    NoScope,
    /// The scope declares the name already (12.7).
    DeclaredTwice,
    /// More scopes stand around it than `MAX_DEPTH`.
    Deep,
    /// There are more scopes than `MAX_SCOPES`.
    ManyScopes,
    /// The name has bytes that aren't text.
    NoText,
    Memory,
}

impl From<AllocError> for ScopeFault {
    ghost use Rattle.std.specs.Prelude.{◌≡◌};
    ghost use Rattle.scopes.specs.declared.fault.ScopeFault.TheVariants as fault;

    ghost from_gives = { λ _ e. e ≡ fault.Memory };

    fn from(_: AllocError) -> ScopeFault {
        ScopeFault::Memory
    }
}

impl<T: Drop> From<AllocFailed<T>> for ScopeFault {
    ghost use Rattle.std.specs.Prelude.{◌≡◌};
    ghost use Rattle.scopes.specs.declared.fault.ScopeFault.TheVariants as fault;

    ghost from_gives = { λ _ e. e ≡ fault.Memory };

    fn from(_: AllocFailed<T>) -> ScopeFault {
        ScopeFault::Memory
    }
}
