//! One run of a design, under way, what its entries did, and which of them conflict.
//!
//! 1. A run under way is a machine with the journal that led it where it stands (`journaled_machine`). Its entries without the numbers of
//!    their events are its transitions, by which another run can follow it (`transitions`).
//! 2. `record_run` makes the first run, which takes the first entry that the rules permit at each choice (`recorder`). Beside the machine
//!    it notes what each entry did: which registers its turn read, wrote, assigned or began to wait for, whether it printed or met a
//!    `$strobe` (`turn_notes`), and which entry made its event (`origins`). These notes are kept from one change of the regions to the next
//!    (`segment`).
//! 3. Two entries of one segment conflict where the later one doesn't need the earlier one and one changes what the other reads, writes or
//!    waits for, or both assign a register other values, or both print, or both meet a `$strobe`; and an entry that finishes the run
//!    conflicts with those before it, and with the events that it leaves behind. What each entry needs is found once for all of a segment
//!    (`needed_steps`). What stands between the two and doesn't depend on the earlier one goes with them (`depend`). They are kept in rounds (`conflicts`).
//! 4. `record_two` compares two neighbours of a journal alone.
//! 5. Whether two runs have the entries of a conflict in both orders, a machine says that is led to them in each (`both_orders`).
//!
//! What the layers above use: that a run under way stays so, and that each entry of it is taken as the rules permit
//! (`specs/RunEndings.antt`); that the first run is lawful and in time; and what `has_both_orders` confirms. No clause says which conflicts
//! are found: each is shown by runs before it is told.
#![tactic(auto)]

mod both_orders;
mod bounds;
mod conflicts;
mod counts;
mod depend;
mod journaled_machine;
mod needed_steps;
mod origins;
mod recorder;
mod segment;
mod step_set;
mod transitions;
mod turn_notes;

pub use both_orders::has_both_orders;
pub use bounds::{Bound, RaceBounds};
pub use conflicts::{Conflict, Conflicts, SiteKind, Turning, is_order, kind_of};
pub use depend::PriorSteps;
pub use journaled_machine::{JournaledMachine, repeat};
pub use recorder::{RunRecorder, record_run, record_two};
pub use step_set::StepSet;
pub use transitions::{
    RunTransition, RunTransitions, entry_of, first_entry, is_change, next_change, place_behind,
    process_of, transition_of, turn_from,
};
