//! Footprints: what a loose step has to do with others. The footprint of a step has the registers that it uses, writes and
//! changes, the processes that it wakes, and so on; two steps whose footprints are apart may be exchanged. The definitions stand
//! in `specs/`; `laws` carries what is proved.
#![tactic(auto)]

pub mod laws;
