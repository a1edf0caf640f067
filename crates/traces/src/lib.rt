//! The law of parts, over any system of moves: where actors fall into parts whose steps, taken alone from a state, are apart from those of the
//! other parts, each run from there is put together from runs of the parts. A crate that has states of its own supplies a few laws of single
//! steps, and has the laws of runs from here. The definitions stand in `specs/`; `laws` carries what is proved.
#![tactic(auto)]

pub mod laws;
