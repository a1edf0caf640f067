//! Register cells: one holder stores, and any number of seats read, each a register's value and version in one step. No
//! read asks for the holder.
//!
//! 1. A cell holds the words of a register's value, and its version, which counts the register's changes (`words`).
//! 2. Each register has one growing list of values, from all x on (4.2.2). The words are the end of it, a seat has seen a
//!    beginning of it, and the holder knows it whole. Each step of a cell keeps that (`rule`).
//! 3. A read is one load, and a change one store of all the words, so no read sees a value with another's version. Where a
//!    turn gave a register many values, one store adds all of them that differ from the one before (`register`).
//! 4. `RegCells` has a cell for each register. Its seats and its holder have a view of each of these cells (`cells`).
//! 5. `HeldStore` is the cells and their holder as the store that `regions` changes. The values that a register had are the
//!    holder's list of it (`held`).
//! 6. `first_moved` names the first register that has changed since a turn read it, and a seat meets the registers that
//!    a turn read or wrote: it has then seen all of their values (`meeting`).
//!
//! What the layer above uses: a read gives the last entry of what the seat has then seen of the register, with its place
//! as the version. So a recorded version that is still the holder's last is that of a value that is still the last.
#![tactic(auto)]

mod cells;
mod held;
mod meeting;
mod register;
mod rule;
mod words;

pub use cells::{Holder, RegCells, RegSeat};
pub use held::HeldStore;
pub use meeting::{first_moved, meet_one, meet_reads, meet_writes};
