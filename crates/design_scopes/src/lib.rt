//! The scopes of a design, what they declare, and what a scope's text says at its place (IEEE 1364-2005, 12).
//!
//! 1. `faults` says what may be wrong with a design, and where.
//! 2. `scoped` is what is made: scopes, and the objects that they declare.
//! 3. `places` tells what names mean at a scope, for the expressions that stand there, and `call_values` has what the calls of constant
//!    functions in them are worth.
//! 4. `variables` and `parameter_types` say what declarations declare, `arrays` and `paths` what ranges and hierarchical names stand
//!    for, and `generates` which blocks generate constructs have.
//! 5. `distinct` refuses two variables with one full name.
//!
//! The layers above go through the text with these, and look names up by `ScopePlace`.
#![tactic(auto)]

pub mod arrays;
pub mod call_values;
pub mod distinct;
pub mod faults;
pub mod generates;
pub mod parameter_types;
pub mod paths;
pub mod places;
pub mod scoped;
pub mod variables;
