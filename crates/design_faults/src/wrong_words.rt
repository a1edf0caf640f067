//! What is said of texts, designs, statements and expressions that aren't taken.

ghost use Rattle.std.specs.Prelude.{◌≡◌};
ghost use Rattle.design_faults.specs.Words as spec;

use design_scopes::faults::{ConstantCallWrong, Wrong};
use preprocess::fault::TextFaultKind as TextKind;
use sizing::faults::ExpressionFaultKind;
use statement_parts::faults::StatementKind;

/// What is said of texts that aren't cut into tokens, or whose directives aren't followed.
pub(crate) fn text_words(kind: TextKind) -> &'static str
    ensures { result.now ≡ spec.text_words kind }
{
    match kind {
        TextKind::StrayByte => "no token, space or comment begins here",
        TextKind::UnfinishedString => "a string that isn't finished on its line (3.6)",
        TextKind::UnfinishedComment => "a comment that isn't finished (3.3)",
        TextKind::MalformedDirective => "what follows this directive isn't what it takes (19)",
        TextKind::UndefinedMacro => "no macro of this name is defined (19.3.1)",
        TextKind::MacroUsesItself => "the text of this macro comes to a use of itself (19.3.1)",
        TextKind::MacrosTooDeep => "more than 256 macros use one another here",
        TextKind::WrongArgumentCount =>
            "the macro is defined with another number of arguments (19.3.1)",
        TextKind::UnfinishedArguments => "the arguments of this macro have no end (19.3.1)",
        TextKind::IncludeNotFound => "this file isn't found, or can't be read (19.5)",
        TextKind::IncludesTooDeep => "more than 64 files include one another here",
        TextKind::UnbalancedCondition => "this belongs to no condition of its file (19.4)",
        TextKind::UnfinishedCondition => "this condition isn't ended in its file (19.4)",
        TextKind::KeywordsDirective => "this directive isn't supported (19.11)",
        TextKind::TooManyTokens => "more than 2097152 tokens come of the files and their macros",
    }
}

/// What is said of the call of a constant function.
fn constant_call_words(kind: ConstantCallWrong) -> &'static str
    ensures { result.now ≡ spec.constant_call_words kind }
{
    match kind {
        ConstantCallWrong::UnknownFunction => {
            "no function of this name is declared in the module itself (10.4.5)"
        }
        ConstantCallWrong::InGenerateBlock => {
            "a function that a generate block declares isn't constant (10.4.5)"
        }
        ConstantCallWrong::HierarchicalName => {
            "a constant function is called by its name alone, and its body has no hierarchical names (10.4.5)"
        }
        ConstantCallWrong::ArgumentCount => {
            "a call has an argument for each that is declared (10.4.4)"
        }
        ConstantCallWrong::NoInput => { "a function has an input at least (10.4.4)" }
        ConstantCallWrong::FunctionOutput => { "a function has no outputs (10.4.4)" }
        ConstantCallWrong::Target => {
            "a constant function assigns to its own variables alone, by their names (10.4.5)"
        }
        ConstantCallWrong::Statement => {
            "a function has no delays, events, calls of tasks or nonblocking assignments (10.4.4)"
        }
        ConstantCallWrong::OwnParameter => {
            "a parameter that a constant function declares isn't supported; a localparam is"
        }
        ConstantCallWrong::SystemTask => {
            "of system tasks a constant function may have $display, $write and $strobe, which do nothing there"
        }
        ConstantCallWrong::InnerConstant => {
            "what has to be constant in a constant function calls no function (10.4.5)"
        }
        ConstantCallWrong::ManySteps => {
            "the constant functions of the design take more than 200000 steps"
        }
        ConstantCallWrong::Deep => {
            "more calls, statements and expressions stand in each other here than may"
        }
    }
}

/// What is said of a design.
pub(crate) fn design_words(wrong: Wrong) -> &'static str
    ensures { result.now ≡ spec.design_words wrong }
{
    match wrong {
        Wrong::Expression(kind) => expression_words(kind),
        Wrong::ConstantCall(kind) => constant_call_words(kind),
        Wrong::DeclaredTwice => "this name is declared already (12.7)",
        Wrong::Deep =>
            "more than 64 scopes stand around this one, as where a module has instances of itself",
        Wrong::ManyScopes => "the design has more than 65536 scopes",
        Wrong::ManyObjects => "the design has more than 65536 variables and constants",
        Wrong::NoText => "this name isn't UTF-8 text",
        Wrong::UnknownModule => "no module has this name (12.1.2)",
        Wrong::UnknownParameter =>
            "no parameter of this name, or of this place, may be given a value (12.2)",
        Wrong::Range => "a range with unknown bounds, or of too many digits (4.3.1)",
        Wrong::Wide => "a vector of more than 128 digits isn't supported",
        Wrong::LoopVariable => {
            "the variable of a generate loop is a genvar, with a first value and then others (12.4.1)"
        }
        Wrong::Array => "an array of variables (4.9) isn't supported yet",
        Wrong::InitialValue => "a declaration's value (6.2.1) isn't supported yet",
        Wrong::ManyProcesses => "the design has more than 16384 processes",
        Wrong::EndlessLoop => "this generate loop takes more than 65536 turns (12.4.1)",
    }
}

/// What is said of a statement.
pub(crate) fn statement_words(kind: StatementKind) -> &'static str
    ensures { result.now ≡ spec.statement_words kind }
{
    match kind {
        StatementKind::Expression(kind) => expression_words(kind),
        StatementKind::Constant(wrong) => design_words(wrong),
        StatementKind::Target =>
            "what is assigned to is no variable by its name; nothing else is supported yet (9.2)",
        StatementKind::Event =>
            "an event is a variable by its name; nothing else is supported yet (9.7.2)",
        StatementKind::Delay =>
            "a delay is a constant of 0 or more; none that varies is supported yet",
        StatementKind::LongDelay => "a delay of more than 4294967295 ticks (19.8)",
        StatementKind::ScaledTime =>
            "the time in a module whose unit isn't the tick (19.8) isn't supported yet",
        StatementKind::UnknownBlock => "no block of this name stands here",
        StatementKind::Fork => "`fork` (9.8.2) isn't supported yet",
        StatementKind::ImplicitEvents =>
            "nothing that varies is read here, so `@*` would wait for ever (9.7.5)",
        StatementKind::EventInAssignment =>
            "an event inside of an assignment (9.7.7) isn't supported yet",
        StatementKind::DontCares => "`casez` or `casex` (9.5.1) isn't supported yet",
        StatementKind::SeveralDefaults => "a second `default` (9.5)",
        StatementKind::ConstantWait =>
            "no variable changes this condition, so `wait` could wait for ever (9.7.6)",
        StatementKind::Disable => "`disable` (10.3) isn't supported yet",
        StatementKind::Call => "the call of a function or a task isn't supported here",
        StatementKind::UnknownFunction => "no function of this name is declared (10.4.4)",
        StatementKind::UnknownTask => "no task of this name is declared (10.2.2)",
        StatementKind::ArgumentCount =>
            "a call has an argument for each that is declared (10.2.2, 10.4.4)",
        StatementKind::OutputArgument =>
            "an argument for an output is something that a value can be given to (10.2.2)",
        StatementKind::Recursion => "a function or a task that calls itself isn't supported",
        StatementKind::NoInput => "a function has an input at least (10.4.4)",
        StatementKind::FunctionOutput => "a function has no outputs (10.4.4)",
        StatementKind::InFunction =>
            "a function has no delays, events, calls of tasks or nonblocking assignments (10.4.4)",
        StatementKind::CallInEvent =>
            "the call of a function in an event (9.7.2) isn't supported yet",
        StatementKind::CallInWait =>
            "the call of a function in a `wait` (9.7.6) isn't supported yet",
        StatementKind::CallInLabel => "the call of a function in a label (9.5) isn't supported yet",
        StatementKind::CallInStrobe =>
            "the call of a function in a `$strobe` (17.1.2) isn't supported yet",
        StatementKind::ManyCalls =>
            "the calls of the design want more copies of functions and tasks than may be",
        StatementKind::DeepCalls => "more statements and calls stand in each other here than may",
        StatementKind::SystemTask => "this system task (17) isn't supported yet",
        StatementKind::MissingArgument => "an argument that is left out isn't supported (17.1)",
        StatementKind::Format =>
            "a format that isn't supported, or one with fewer arguments than it shows (17.1)",
        StatementKind::ManyHidden =>
            "the statements of the design want more than 65536 variables of their own",
        StatementKind::Refused => "this isn't supported here",
    }
}

/// What is said of an expression.
pub(crate) fn expression_words(kind: ExpressionFaultKind) -> &'static str
    ensures { result.now ≡ spec.expression_words kind }
{
    match kind {
        ExpressionFaultKind::Undeclared => "nothing of this name is declared (12.7)",
        ExpressionFaultKind::NotConstant =>
            "this isn't constant; a select by what varies isn't supported yet (5.2.1)",
        ExpressionFaultKind::Width => "more than 128 digits, or none",
        ExpressionFaultKind::Count =>
            "a replication has its parts 1 to 128 times, by a known constant (5.1.14)",
        ExpressionFaultKind::UnsizedPart =>
            "a number without a size may not stand in a concatenation (5.1.14)",
        ExpressionFaultKind::Real => "a real number (3.5.2) isn't supported yet",
        ExpressionFaultKind::NoRange =>
            "this has no range, so no digit of it can be selected (5.2.1)",
        ExpressionFaultKind::PartBounds =>
            "the bounds of a part are known constants, in the order of its range (5.2.1)",
        ExpressionFaultKind::VariableSelect =>
            "a select by what varies isn't supported yet (5.2.1)",
        ExpressionFaultKind::Select =>
            "only a variable or a constant by its name can be selected (5.2.1)",
        ExpressionFaultKind::Operator => "this operator isn't supported yet (5.1)",
        ExpressionFaultKind::SystemFunction => "this system function (17) isn't supported yet",
        ExpressionFaultKind::Arguments => "this system function takes another number of arguments",
        ExpressionFaultKind::TooLarge => "this replication is too large",
        ExpressionFaultKind::TooDeep => "expressions stand one within another too deep here",
        ExpressionFaultKind::Refused => "this isn't supported here",
    }
}
