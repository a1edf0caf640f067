//! Values as literals (3.5.1), for those who read what is told of a run.
//!
//! `push_value` puts a value behind a text: one digit alone, and more of them as a sized literal.
#![tactic(auto)]

mod literal;

pub use literal::{Radix, push_value};
