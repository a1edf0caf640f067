//! Ranges of vectors, and the places of indices and parts in them (IEEE 1364-2005, 4.3.1, 5.2.1).
#![tactic(auto)]

pub mod range;
pub mod window;
