//! Why a file wasn't read or written.

ghost use Rattle.std.specs.Prelude.{◌≡◌};
ghost use Rattle.files.specs.FileStatuses.{file_status};

use std::alloc::AllocError;

/// Why a file wasn't read, or a file or output wasn't written.
#[derive(Drop)]
pub enum FileFault<'a> {
    CannotRead(&'a str),
    CannotWrite,
    Memory,
}

impl From<AllocError> for FileFault<'_> {
    ghost use Rattle.files.specs.declared.fault.FileFault.TheVariants.{Memory};

    ghost from_gives = { λ _ fault. fault ≡ Memory };

    fn from(_refused: AllocError) -> Self {
        FileFault::Memory
    }
}

impl FileFault<'_> {
    /// The exit status: 1 for files and output, and 6 for memory.
    pub fn status(&self) -> u8
        ensures { result ≡ file_status self.now }
    {
        match self {
            FileFault::CannotRead(_) | FileFault::CannotWrite => 1,
            FileFault::Memory => 6,
        }
    }
}
