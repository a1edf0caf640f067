//! What the entries of a run do.
//!
//! 1. `role` has the words: a site, which is a register, the order of the lines that are printed or of those of `$strobe` statements,
//!    or the end of the run, and what an entry does there.
//! 2. `accesses` tells what a turn does at a site, by its log.
//! 3. `pair` is two entries of a journal with what each is said to do. `split` finds them in it, and in that of a second run, where
//!    they come the other way round; where one of them finishes the run, one journal may have it alone.
//! 4. `follower` leads a machine to both and sees whether they do it, and `confirm` asks it of both journals.
//!
//! What the layer above uses: `lead`, `are_same`, and the contract of `ExchangeClaim::is_confirmed`, `is_cut_off` and `is_held_back`, whose
//! `HasBothOrders` of `specs/Roles` speaks of the journals alone.
#![tactic(auto)]

mod accesses;
mod confirm;
mod follower;
mod pair;
mod role;
mod split;

pub use confirm::ExchangeClaim;
pub use follower::lead;
pub use pair::Pair;
pub use role::{Does, Role, Site};
pub use split::are_same;
