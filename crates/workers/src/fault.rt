//! Why a run has no outcome.

use std::alloc::{AllocError, AllocFailed};
use thiserror::Error;

/// Why there is no outcome.
#[derive(Clone, Copy, Debug, PartialEq, Eq, Error)]
pub enum SimFault {
    /// Memory was refused before the first worker began.
    #[error("memory")]
    Memory,
    /// A worker couldn't be started, and those that had begun were stopped and joined.
    #[error("cannot start worker")]
    NoWorker,
}

impl From<AllocError> for SimFault {
    fn from(_: AllocError) -> Self {
        SimFault::Memory
    }
}

impl<T: Drop> From<AllocFailed<T>> for SimFault {
    fn from(_: AllocFailed<T>) -> Self {
        SimFault::Memory
    }
}
