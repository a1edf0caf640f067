//! The sizes, signs and values of expressions of whole designs (IEEE 1364-2005, 5), and the core's trees that stand for them.
//!
//! 1. `environment` is what the layer above tells of names.
//! 2. `reading` goes down an expression, looks its names up, and gives its shape with a tree that stands for it (`typed`), by its
//!    operators (`operators`), its selects (`selects`) and its concatenations (`concatenations`).
//! 3. `lowering` is what the layer above calls: `typed_expression`, `lower`, `lower_assigned`, `constant` and `constant_assigned`. What is proved of them: a
//! tree that is lowered has, in the core, the value of the expression by the rules of the standard (`specs/Meanings.antt`), whatever the registers hold
//! (`specs/Typing.antt`).
#![tactic(auto)]

mod concatenations;
pub mod environment;
pub mod faults;
pub mod lowering;
mod operators;
mod reading;
mod selects;
pub mod typed;
