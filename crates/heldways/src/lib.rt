//! Ways through all that is active in which combinational processes are held until the others are done: where the steps of the others
//! certify each other, and keep off what is held, the way stands for all. The definitions stand in `specs/`; `laws` carries what is
//! proved of them.
#![tactic(auto)]

pub mod laws;
