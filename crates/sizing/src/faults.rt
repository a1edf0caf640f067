//! Why an expression isn't taken.

ghost use Rattle.std.specs.Prelude.{◌≡◌};

use std::alloc::{AllocError, AllocFailed};

/// What is wrong at a token.
#[derive(Clone, Copy, PartialEq, Eq, Debug)]
pub enum ExpressionFaultKind {
    /// No object, or no scope, of this name.
    Undeclared,
    /// A constant expression is wanted (4.10, 5), and this one names what varies.
    NotConstant,
    /// More than 128 digits, or none.
    Width,
    /// How often a replication has its parts: 0, negative, unknown, or more than 128 times (5.1.14).
    Count,
    /// A number without a size, as a part of a concatenation (5.1.14).
    UnsizedPart,
    /// A real number (3.5.2).
    Real,
    /// A digit of what has no range (5.2.1).
    NoRange,
    /// The bounds of a part: unknown, or in another order than those of its range, or a width of 0 (5.2.1).
    PartBounds,
    /// The index of a bit, or the base of a part, isn't constant: a select by a value that varies.
    VariableSelect,
    /// A select of what is neither a variable nor a constant.
    Select,
    /// An operator that isn't supported yet.
    Operator,
    /// A system function that isn't supported.
    SystemFunction,
    /// A system function with another number of arguments than it takes.
    Arguments,
    /// The tree of a replication has more than 65,536 nodes.
    TooLarge,
    /// Expressions stand one within another too deep.
    TooDeep,
    /// What the text has here is refused.
    Refused,
}

/// Why an expression isn't taken.
#[derive(Clone, Copy, PartialEq, Eq, Debug)]
pub enum ExpressionFault {
    /// Memory is refused.
    Memory,
    /// Something is wrong at a token.
    At {
        token: usize,
        kind: ExpressionFaultKind,
    },
}

/// What is made of an expression, or why it isn't taken.
pub type TakenExpression<T> = Result<T, ExpressionFault>;

impl From<AllocError> for ExpressionFault {
    ghost use Rattle.sizing.specs.declared.faults.ExpressionFault.TheVariants as fault;

    ghost from_gives = { λ _ e. e ≡ fault.Memory };

    fn from(_: AllocError) -> ExpressionFault {
        ExpressionFault::Memory
    }
}

impl<T: Drop> From<AllocFailed<T>> for ExpressionFault {
    ghost use Rattle.sizing.specs.declared.faults.ExpressionFault.TheVariants as fault;

    ghost from_gives = { λ _ e. e ≡ fault.Memory };

    fn from(_: AllocFailed<T>) -> ExpressionFault {
        ExpressionFault::Memory
    }
}

/// The fault of a kind at a token.
pub(crate) fn fault(token: usize, kind: ExpressionFaultKind) -> ExpressionFault {
    ExpressionFault::At { token, kind }
}
