//! What is wrong with the files of a design.

ghost use Rattle.std.specs.Prelude.{◌≡◌};

use lexemes::token::FileSpan;
use std::alloc::{AllocError, AllocFailed};

/// What is wrong at a place.
#[derive(Clone, Copy)]
pub enum TextFaultKind {
    /// No token, space or comment begins here (3).
    StrayByte,
    /// A string that begins here isn't finished on its line (3.6).
    UnfinishedString,
    /// A comment that begins here isn't finished (3.3).
    UnfinishedComment,
    /// What follows this directive isn't what it takes (19).
    MalformedDirective,
    /// No macro of this name is defined (19.3.1).
    UndefinedMacro,
    /// The text of a macro comes to a use of the macro itself (19.3.1).
    MacroUsesItself,
    /// Macros whose texts use each other are nested deeper than 256.
    MacrosTooDeep,
    /// A macro is used with another number of arguments than it is defined with, or with none (19.3.1).
    WrongArgumentCount,
    /// The arguments of a macro have no end (19.3.1).
    UnfinishedArguments,
    /// A file that is included isn't found among those that are known (19.5).
    IncludeNotFound,
    /// Files include each other deeper than 64.
    IncludesTooDeep,
    /// An `` `elsif``, `` `else`` or `` `endif`` belongs to no condition of its file (19.4).
    UnbalancedCondition,
    /// A condition isn't ended in its file (19.4).
    UnfinishedCondition,
    /// `` `begin_keywords`` and `` `end_keywords`` (19.11) aren't supported.
    KeywordsDirective,
    /// More tokens than 2,097,152 come of the files and of their macros.
    TooManyTokens,
}

/// What is wrong with the files of a design.
#[derive(Clone, Copy)]
pub enum Fault {
    /// Memory is refused.
    Memory,
    /// The texts have more than 4,294,967,295 bytes, or there are more than 1,048,576 files.
    TooMuchText,
    /// Something is wrong at a place.
    At(TextFaultKind, FileSpan),
}

impl From<AllocError> for Fault {
    ghost use Rattle.preprocess.specs.declared.fault.Fault.TheVariants.{Memory};

    ghost from_gives = { λ _ e. e ≡ Memory };

    fn from(_: AllocError) -> Fault {
        Fault::Memory
    }
}

impl<T: Drop> From<AllocFailed<T>> for Fault {
    ghost use Rattle.preprocess.specs.declared.fault.Fault.TheVariants.{Memory};

    ghost from_gives = { λ _ e. e ≡ Memory };

    fn from(_: AllocFailed<T>) -> Fault {
        Fault::Memory
    }
}
