//! The core's trees at sizes and signs (IEEE 1364-2005, 5.4, 5.5).
//!
//! 1. `shape` is a size with a sign.
//! 2. `trees` makes nodes, and copies trees.
//! 3. `widening` makes a tree for the size and the sign of what stands around it.
//! 4. `evaluation` tells what a tree is worth in which no register is named, and `constants` what number that is.
#![tactic(auto)]

pub mod constants;
pub mod evaluation;
pub mod shape;
pub mod trees;
pub mod widening;
