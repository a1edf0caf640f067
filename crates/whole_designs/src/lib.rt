//! From the files of a whole design to its flat module (IEEE 1364-2005).
//!
//! 1. `asked` is what is asked of files: folders, definitions, a top module, values of parameters. `given` reads these values.
//! 2. `later` and its parts name what this language lacks still, wherever it stands.
//! 3. `whole` goes from the files to the module: tokens (`preprocess`), modules (`syntax`), scopes (`hierarchy`), statements
//!    (`lowering`).
//! 4. `timescales` finds the scales of modules, `line_index` finds lines, and `process_places` says where each process of the module stands.
//!
//! The layer above uses `whole_design`, whose clauses say what module it makes and where its faults stand; they are those of
//! `design_faults`.
#![tactic(auto)]

pub mod asked;
mod given;
mod later;
mod later_expressions;
mod later_statements;
mod line_index;
mod process_places;
mod timescales;
pub mod whole;
