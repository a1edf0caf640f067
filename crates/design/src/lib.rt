//! Designs: registers by number and name, processes as statements over those numbers, and the flat code that runs them.
//!
//! 1. `tree` has a design as a tree: names are numbers, blocks and parentheses are gone.
//! 2. `code` has flat code. Each statement has one node, at the place that is its number in the order of the text, and
//!    each process has one node more, for its end. A node says where it leads, so there are no jumps to follow.
//!    Expressions are steps on a stack of vectors, whose sizes are fixed.
//! 3. `Design::new` makes the code of a tree, and keeps both.
//!
//! What the layer above uses: `Design` stands for the design of the definitions, and `specs/DesignInvariant.antt` says which
//! remainder each `ProcState` stands for. The type keeps that each node does what the first statement of its
//! remainder does (`specs/Meaning.antt`).
#![tactic(auto)]

pub mod code;
mod control;
mod design;
mod emitter;
mod expressions;
mod extents;
pub mod laws;
mod packed_bits;
mod processes;
mod room;
mod sizes;
pub mod tree;
mod valued;

pub use code::ProcState;
pub use control::{Control, RegId, Trigger};
pub use design::Design;
pub use model::ascii::Ascii;
pub use packed_bits::{PackedBits, halves, join};
pub use sizes::{Sizing, sizing_of};
