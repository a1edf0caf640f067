//! What lies under the lock of the commit gate, and what is done with it there.
//!
//! Under the lock lies the `RunState`: the journal; the regions after it, and beside them the lines that it
//! prints and the evaluations that its last entry made active; the holder of the registers' cells; the end, once one is
//! stored; and the pass that keeps the ledger. The ledger is the journal and the end, each item with the seat that added it. The
//! cells and the mark of the ledger lie beside the lock, since seats load them without it, and each call gets them.
//!
//! Who has the lock takes these steps, in this order, to append an entry:
//!
//! 1. A turn that was evaluated without the lock is compared: `first_moved` of `regcells` names the first register that has
//!    changed since the turn read it, and the seat meets those that it read. A turn that is evaluated under the lock
//!    (`evaluate`) reads the last value of each register.
//! 2. `RunState::updated` names the register that an update gives a value, while the update is still active.
//! 3. `RunState::append` makes room for one entry, and applies it: `regions` makes its step on the regions and on the
//!    cells, and appends its lines. Where memory is refused, journal, regions, registers, lines and end are as before.
//! 4. The entry is pushed onto the journal, and the end Finish is stored where the run is finished.
//! 5. The ledger has the entry in the seat's name (`RunState::publish`, by `mark`), with that end behind it, and the seat is told: it
//!    meets the registers that the entry wrote (`RunState::show_written`, by `meeting` of `regcells`).
//!
//! A seat without an entry to append looks at the mark (`look`), or sees the whole ledger under the lock (`catch_up`).
#![tactic(auto)]

mod evaluate;
mod ledger;
mod mark;
mod run_state;

pub use evaluate::{CellAccess, Holding, held_turn};
pub use ledger::Item;
pub use mark::{
    Addition, Adds, Both, Compares, Makes, MarkCell, MarkLoad, MarkPass, MarkView, Marks, Telling,
    Whole, add, catch_up, look, new_mark, next_seat,
};
pub use run_state::RunState;
