//! Constant functions (IEEE 1364-2005, 10.4.5): what calls of functions in constant expressions are worth.
//!
//! 1. `functions` finds the functions of a text, by the modules that declare them.
//! 2. `frame` holds the variables of a call (`variable`), and tells what names mean in the function's body.
//! 3. `calls` goes through an expression and evaluates its calls, the arguments' before the functions' bodies.
//! 4. `statements` does the statements of a body.
//!
//! The layers above evaluate the calls of their constant expressions by `ConstantFunctions::calls_in`; the expressions themselves are
//! evaluated as all others, with the values of their calls.
#![tactic(auto)]

pub mod calls;
mod finding;
mod frame;
pub mod functions;
mod statements;
mod variable;
mod wrong;
