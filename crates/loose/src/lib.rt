//! Loose orders: runs in which an update waits for earlier updates of its class alone. Registers fall into classes, whichever;
//! each lawful run is a loose one, so what every loose run prints every lawful run prints. The order of updates of different
//! classes is then no part of what a search has to tell apart. The definitions stand in `specs/`; `laws` carries what is proved.
#![tactic(auto)]

pub mod laws;
pub mod transition;
