//! Loose steps of some processes and updates while other processes are held: a system of moves like that of all loose steps, in which
//! steps are apart although they wake one held process. The definitions stand in `specs/`; `laws` carries what is proved.
#![tactic(auto)]

pub mod laws;
