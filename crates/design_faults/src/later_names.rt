//! The names of what isn't supported.

ghost use Rattle.std.specs.Prelude.{◌≡◌};
ghost use Rattle.design_faults.specs.Words as spec;

use crate::refused::LaterForm;
use hierarchy::later::LaterConstruct;

/// The name of a construct that isn't supported yet.
pub(crate) fn construct_name(construct: LaterConstruct) -> &'static str
    ensures { result.now ≡ spec.construct_name construct }
{
    match construct {
        LaterConstruct::Net => "a net (4.6)",
        LaterConstruct::ContinuousAssignment => "a continuous assignment (6.1)",
        LaterConstruct::Gate => "a gate (7.1)",
        LaterConstruct::Port => "a port (12.3)",
    }
}

/// The name of what else isn't supported yet.
pub(crate) fn form_name(form: LaterForm) -> &'static str
    ensures { result.now ≡ spec.form_name form }
{
    match form {
        LaterForm::Array => "an array of variables (4.9)",
        LaterForm::InitialValue => "a declaration's value (6.2.1)",
        LaterForm::Fork => "`fork` (9.8.2)",
        LaterForm::DontCares => "`casez` or `casex` (9.5.1)",
        LaterForm::Disable => "`disable` (10.3)",
        LaterForm::EventInAssignment => "an event inside of an assignment (9.7.7)",
        LaterForm::PartTarget => "an assignment to a part, or to several variables (9.2)",
        LaterForm::Arithmetic => "this operator (5.1)",
        LaterForm::SystemTask => "this system task (17)",
        LaterForm::SystemFunction => "this system function (17)",
        LaterForm::Real => "a real number (3.5.2)",
        LaterForm::LongNumber => "a number without a size of more than 32 digits (3.5.1)",
    }
}
