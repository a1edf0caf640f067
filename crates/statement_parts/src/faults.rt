//! Why a statement isn't taken.

ghost use Rattle.std.specs.Prelude.{◌≡◌, IsErr};

use design_scopes::faults::{DesignFault, Wrong};
use sizing::faults::{ExpressionFault, ExpressionFaultKind};
use std::alloc::{AllocError, AllocFailed};

/// What is wrong at a token, or isn't supported yet.
#[derive(Clone, Copy)]
pub enum StatementKind {
    Expression(ExpressionFaultKind),
    /// A constant function's call in a constant expression (10.4.5).
    Constant(Wrong),
    /// What is assigned to isn't a variable by its name: a part of one, a concatenation, or something else.
    Target,
    /// An event that is no variable by its name, and no named event.
    Event,
    /// A delay that is no number, or less than 0.
    Delay,
    /// A delay that is longer than one of a run may be, in ticks.
    LongDelay,
    /// The time in a module whose unit isn't the tick (19.8).
    ScaledTime,
    /// No block of this name stands here.
    UnknownBlock,
    /// `fork` (9.8.2).
    Fork,
    /// `@*` before a statement that reads nothing (9.7.5).
    ImplicitEvents,
    /// An event between the value of an assignment and its effect (9.7.7).
    EventInAssignment,
    /// `casez` or `casex` (9.5.1).
    DontCares,
    /// Several defaults of a `case` (9.5).
    SeveralDefaults,
    /// `wait` for a condition that no variable changes (9.7.6).
    ConstantWait,
    /// `disable` (10.3).
    Disable,
    /// A function's or a task's call that is left in a statement.
    Call,
    /// No function of this name (10.4.4).
    UnknownFunction,
    /// No task of this name (10.2.2).
    UnknownTask,
    /// Another number of arguments than the function or the task has.
    ArgumentCount,
    /// An argument for an output of a task that nothing can be assigned to (10.2.2).
    OutputArgument,
    /// A function or a task that calls itself (10.2.3, 10.4.2).
    Recursion,
    /// A function without an input (10.4.4).
    NoInput,
    /// A function with an output (10.4.4).
    FunctionOutput,
    /// A statement that a function may not have (10.4.4).
    InFunction,
    /// A function's call in an event (9.7.2).
    CallInEvent,
    /// A function's call in the condition of a `wait` (9.7.6).
    CallInWait,
    /// A function's call in a label of a `case` (9.5).
    CallInLabel,
    /// A function's call in a `$strobe` (17.1.2).
    CallInStrobe,
    /// More copies of functions and tasks than a design may have.
    ManyCalls,
    /// Calls that stand too deep in each other.
    DeepCalls,
    /// A system task that isn't supported.
    SystemTask,
    /// An argument that is left out (17.1).
    MissingArgument,
    /// A format that isn't supported, or one with fewer arguments than it shows (17.1).
    Format,
    /// More than 65,536 hidden variables.
    ManyHidden,
    /// What the text has here is refused.
    Refused,
}

/// Why a statement isn't taken.
#[derive(Clone, Copy)]
pub enum StatementFault {
    /// Memory is refused.
    Memory,
    /// Something is wrong at a token.
    At { token: usize, kind: StatementKind },
}

/// What is made of a statement, or why it isn't taken.
pub type Lowered<T> = Result<T, StatementFault>;

impl From<AllocError> for StatementFault {
    ghost use Rattle.std.specs.Prelude.{◌≡◌};
    ghost use Rattle.statement_parts.specs.declared.faults.StatementFault.TheVariants as fault;

    ghost from_gives = { λ _ e. e ≡ fault.Memory };

    fn from(_: AllocError) -> StatementFault {
        StatementFault::Memory
    }
}

impl<T: Drop> From<AllocFailed<T>> for StatementFault {
    ghost use Rattle.std.specs.Prelude.{◌≡◌};
    ghost use Rattle.statement_parts.specs.declared.faults.StatementFault.TheVariants as fault;

    ghost from_gives = { λ _ e. e ≡ fault.Memory };

    fn from(_: AllocFailed<T>) -> StatementFault {
        StatementFault::Memory
    }
}

impl From<ExpressionFault> for StatementFault {
    fn from(found: ExpressionFault) -> StatementFault {
        match found {
            ExpressionFault::Memory => StatementFault::Memory,
            ExpressionFault::At { token, kind } => StatementFault::At {
                token,
                kind: StatementKind::Expression(kind),
            },
        }
    }
}

impl From<DesignFault> for StatementFault {
    fn from(found: DesignFault) -> StatementFault {
        match found {
            DesignFault::At { token, wrong } => StatementFault::At {
                token,
                kind: StatementKind::Constant(wrong),
            },
            _ => StatementFault::Memory,
        }
    }
}

/// The fault of a kind at a token.
pub fn fault<T>(token: usize, kind: StatementKind) -> Lowered<T>
    ensures fails { IsErr result }
    ensures told { result ≡ Err (StatementFault.At token kind) }
{
    Err(StatementFault::At { token, kind })
}
