//! What is wrong with a design.

ghost use Rattle.std.specs.Prelude.{◌≡◌, Err};
ghost use Rattle.design_scopes.specs.Designs.{IsToldAs};

use scopes::fault::ScopeFault;
use sizing::faults::{ExpressionFault, ExpressionFaultKind};
use std::alloc::{AllocError, AllocFailed};

/// What is wrong with the call of a constant function (10.4.5).
#[derive(Clone, Copy)]
pub enum ConstantCallWrong {
    /// The module has no function of this name.
    UnknownFunction,
    /// The function is declared in a generate block.
    InGenerateBlock,
    /// The function is named by a hierarchical name, or its body has one.
    HierarchicalName,
    /// Another number of arguments than the function has.
    ArgumentCount,
    /// A function without an input (10.4.4).
    NoInput,
    /// A function with an output (10.4.4).
    FunctionOutput,
    /// The body assigns to what is no variable of the function.
    Target,
    /// The body has a statement that a function may not have (10.4.4).
    Statement,
    /// The function declares a parameter that other scopes may give a value.
    OwnParameter,
    /// The body calls a system task that isn't passed over.
    SystemTask,
    /// A constant expression in the body has a call.
    InnerConstant,
    /// The constant functions of the design take more than 200,000 steps.
    ManySteps,
    /// Calls, statements and expressions stand too deep in each other.
    Deep,
}

/// What is wrong at a token.
#[derive(Clone, Copy)]
pub enum Wrong {
    Expression(ExpressionFaultKind),
    /// The call of a constant function.
    ConstantCall(ConstantCallWrong),
    /// The scope declares the name already (12.7).
    DeclaredTwice,
    /// More scopes stand around than 64, as where a module has instances of itself.
    Deep,
    /// The design has more than 65,536 scopes.
    ManyScopes,
    /// The design has more than 65,536 variables and constants.
    ManyObjects,
    /// The name has bytes that aren't text.
    NoText,
    /// No module has this name (12.1.2).
    UnknownModule,
    /// The module has no parameter of this name, or of this place, that may be given a value (12.2).
    UnknownParameter,
    /// A range whose bounds have unknown digits, or too many (4.3.1).
    Range,
    /// A vector of more than 128 digits.
    Wide,
    /// The variable of a generate loop is a `genvar`, which is given a first value and then others (12.4.1).
    LoopVariable,
    /// An array of variables, which isn't supported yet (4.9).
    Array,
    /// A declaration's value, which isn't supported yet (6.2.1).
    InitialValue,
    /// The design has more than 16,384 processes.
    ManyProcesses,
    /// A generate loop takes more than 65,536 turns.
    EndlessLoop,
}

/// Why a design isn't made.
#[derive(Clone, Copy)]
pub enum DesignFault {
    /// Memory is refused.
    Memory,
    /// Something is wrong at a token.
    At { token: usize, wrong: Wrong },
    /// The text has no module of the name that is asked for as top module, or none that no other uses.
    NoTopModule,
    /// No top module has a parameter of a name that is given a value from outside of the text.
    UnknownTopParameter,
}

/// What is made, or why it isn't.
pub type DesignMade<T> = Result<T, DesignFault>;

impl From<AllocError> for DesignFault {
    ghost use Rattle.design_scopes.specs.declared.faults.DesignFault.TheVariants as fault;

    ghost from_gives = { λ _ e. e ≡ fault.Memory };

    fn from(_: AllocError) -> DesignFault {
        DesignFault::Memory
    }
}

impl<T: Drop> From<AllocFailed<T>> for DesignFault {
    ghost use Rattle.design_scopes.specs.declared.faults.DesignFault.TheVariants as fault;

    ghost from_gives = { λ _ e. e ≡ fault.Memory };

    fn from(_: AllocFailed<T>) -> DesignFault {
        DesignFault::Memory
    }
}

impl From<ExpressionFault> for DesignFault {
    fn from(found: ExpressionFault) -> DesignFault {
        match found {
            ExpressionFault::Memory => DesignFault::Memory,
            ExpressionFault::At { token, kind } => DesignFault::At {
                token,
                wrong: Wrong::Expression(kind),
            },
        }
    }
}

/// The fault of a scope or a name that can't be added, at a token.
pub fn scope_fault(found: ScopeFault, token: usize) -> DesignFault
    ensures { IsToldAs found token result }
{
    match found {
        ScopeFault::Memory => DesignFault::Memory,
        ScopeFault::NoScope => fault_at(token, Wrong::ManyScopes),
        ScopeFault::DeclaredTwice => fault_at(token, Wrong::DeclaredTwice),
        ScopeFault::Deep => fault_at(token, Wrong::Deep),
        ScopeFault::ManyScopes => fault_at(token, Wrong::ManyScopes),
        ScopeFault::NoText => fault_at(token, Wrong::NoText),
    }
}

/// What is wrong at a token.
fn fault_at(token: usize, kind: Wrong) -> DesignFault
    ensures { result ≡ DesignFault.At token kind }
{
    DesignFault::At { token, wrong: kind }
}

/// The fault of a kind at a token.
pub fn refuse<T>(token: usize, kind: Wrong) -> DesignMade<T>
    ensures { result ≡ Err (DesignFault.At token kind) }
{
    Err(DesignFault::At { token, wrong: kind })
}
