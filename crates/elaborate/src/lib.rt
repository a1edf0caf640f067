//! From the tree of a source module to its design: the checks of names, sizes and limits, and the resolution of names.
//!
//! 1. `registers` takes the declarations in order: each name once, each range `[m:0]`, and not too many (4.2, 4.3.1).
//! 2. `uses` looks for names that aren't declared, and `check` for what else is wrong with the statements: formats,
//!    concatenations, indexes, delays (5.1.14, 9.7.1, 17.1). The first fault of the module is the one that is told.
//! 3. `resolve` and `build` put the number of a register in the place of each name.
//! 4. The tree over numbers goes to `design`, which makes its code.
//!
//! What the layer above uses: `elaborate_within` answers the module's design only where it has no fault, and else its first one.
#![tactic(auto)]

mod build;
mod check;
mod elaboration;
mod fault;
mod finding;
mod format;
mod names;
mod registers;
mod resolve;
mod uses;

pub use elaboration::{elaborate, elaborate_owned, elaborate_within};
pub use fault::ElabFault;
