//! What each run of a design has, however its entries are chosen.
//!
//! 1. `halting` tells whether a machine may take an entry in time, and the one end of a run that it may not go on from.
//! 2. `run` has the record of a run, takes an entry into it, and tells how it ends.
//! 3. `compared` tells how two runs differ.
#![tactic(auto)]

pub mod compared;
pub mod halting;
pub mod run;
