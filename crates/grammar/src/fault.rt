//! Why a text isn't read.

use std::alloc::{AllocError, AllocFailed};

#[derive(Clone, Copy)]
pub enum GrammarFault {
    /// The next token fits nowhere.
    Syntax,
    /// The next token is a plain decimal, and a sized literal would go on.
    Unsized,
    /// The next token nests too deep.
    Deep,
    Memory,
}

/// What is read, or why the next token isn't.
pub type Read<T> = Result<T, GrammarFault>;

impl From<AllocError> for GrammarFault {
    ghost use Rattle.grammar.specs.declared.fault.GrammarFault.TheVariants as fault;
    ghost use Rattle.std.specs.Prelude.{◌≡◌};

    ghost from_gives = { λ _ e. e ≡ fault.Memory };

    fn from(_: AllocError) -> GrammarFault {
        GrammarFault::Memory
    }
}

impl<T: Drop> From<AllocFailed<T>> for GrammarFault {
    ghost use Rattle.grammar.specs.declared.fault.GrammarFault.TheVariants as fault;
    ghost use Rattle.std.specs.Prelude.{◌≡◌};

    ghost from_gives = { λ _ e. e ≡ fault.Memory };

    fn from(_: AllocFailed<T>) -> GrammarFault {
        GrammarFault::Memory
    }
}
