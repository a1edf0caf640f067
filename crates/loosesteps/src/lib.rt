//! Loose steps of a machine: an update waits for the earlier active updates of its class alone.
//!
//! A machine of `regions` takes entries by the rules, by which an update is taken only where it is the first (11.4.1). So a loose
//! transition is taken in three steps:
//!
//! 1. It is looked for among the active events: an evaluation of its process, or the first update of its class.
//! 2. The first update of a class is brought before those in front of it, which are of other classes. The state is alike in classes
//!    then, since the updates of each class stand in their order.
//! 3. The machine takes the entry.
//!
//! A layer above uses the contracts of `take_loosely`, by which it is one loose step, up to the order of updates of different classes,
//! and of `loose_choices` and `list_choices`, which give the transitions that may be taken where a machine stands.
#![tactic(auto)]

mod choices;
mod steps;

pub use choices::{list_choices, loose_choices};
pub use steps::{entry_for, first_evaluation, first_of_class, take_loosely};
