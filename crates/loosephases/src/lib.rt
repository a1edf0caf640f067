//! Phases of combinational processes in loose runs, in which an update waits for earlier updates of its class alone: whichever of
//! their events come first, they end, and in one state; and where others are active besides, they may be put off. The definitions stand
//! in `specs/`; `laws` carries what is proved of them.
#![tactic(auto)]

pub mod laws;
