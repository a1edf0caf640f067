//! Lawful orders of a design, the next entry chosen at each choice by a generator from a seed.
//!
//! 1. `run` takes entries from the start, each chosen among those that the rules permit, until the run ends.
//! 2. `samples` makes runs from many seeds, and keeps those that are apart.
#![tactic(auto)]

pub mod run;
pub mod samples;
