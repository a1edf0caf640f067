//! Why a text isn't read.

use lexemes::token::{Keyword, Sign};
use std::alloc::{AllocError, AllocFailed};

/// What a text would go on with where it doesn't.
#[derive(Clone, Copy)]
pub enum ExpectedToken {
    Expression,
    Statement,
    /// An item of a module, or its end.
    Item,
    /// A module, or the end of the text.
    Module,
    Name,
    /// The digits of a number, behind its base.
    Digits,
    /// A port of a module.
    Port,
    /// A variable or a net, or several in braces, to which a value is given.
    Target,
    Sign(Sign),
    Keyword(Keyword),
}

/// Why reading stops at the next token.
#[derive(Clone, Copy)]
pub enum SyntaxStop {
    Expected(ExpectedToken),
    /// The next token nests too deep.
    Deep,
    Memory,
}

/// Where reading stopped, by the number of a token, and why.
#[derive(Clone, Copy)]
pub struct ReadingStop {
    pub token: usize,
    pub why: SyntaxStop,
}

/// What is read, or why the next token isn't.
pub type SyntaxRead<T> = Result<T, SyntaxStop>;

impl From<AllocError> for SyntaxStop {
    ghost use Rattle.expression_syntax.specs.declared.faults.SyntaxStop.TheVariants as stop;
    ghost use Rattle.std.specs.Prelude.{◌≡◌};

    ghost from_gives = { λ _ e. e ≡ stop.Memory };

    fn from(_: AllocError) -> SyntaxStop {
        SyntaxStop::Memory
    }
}

impl<T: Drop> From<AllocFailed<T>> for SyntaxStop {
    ghost use Rattle.expression_syntax.specs.declared.faults.SyntaxStop.TheVariants as stop;
    ghost use Rattle.std.specs.Prelude.{◌≡◌};

    ghost from_gives = { λ _ e. e ≡ stop.Memory };

    fn from(_: AllocFailed<T>) -> SyntaxStop {
        SyntaxStop::Memory
    }
}
