//! From the trees of modules to the scopes of a design (IEEE 1364-2005, 12).
//!
//! 1. `later` names all that this language lacks still, wherever it stands in the text.
//! 2. `modules` finds modules by their names, and the top modules.
//! 3. `constants` evaluates constant expressions, with the calls of constant functions in them.
//! 4. `parameters`, `routines` and `blocks` declare what stands in a scope, and `instances` gives the parameters of instances their
//!    values.
//! 5. `elaboration` goes from the top modules through all scopes, in the order of the text.
//!
//! The layer above uses `elaborate`.
#![tactic(auto)]

pub mod blocks;
pub mod constants;
pub mod elaboration;
pub mod instances;
pub mod later;
pub mod modules;
pub mod parameters;
pub mod routines;
