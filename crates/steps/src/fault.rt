//! Why an entry isn't explained.

use regions::TakeFault;

/// Why an entry isn't explained.
#[derive(Clone, Copy)]
pub enum StepFault {
    /// Memory was refused to what is told of it.
    Memory,
    /// The machine doesn't take it.
    NotTaken(TakeFault),
}
