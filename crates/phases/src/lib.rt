//! Combinational processes, the phases in which they settle, and what one event of a phase makes of it. That a phase ends in one state,
//! whichever of its events come first, is proved in `loosephases`. The definitions stand in `specs/`; `laws` carries what is proved of
//! them here.
#![tactic(auto)]

pub mod laws;
