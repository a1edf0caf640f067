//! The races of a design, in lines.
//!
//! `push_races` puts the races that the crates `races` and `causes` found behind a text, in the words of `verdict`: the register by its name, each
//! process by the line in which it begins (`places`) and by what it does, with the lines of that (`role_words`), the line in which the two runs differ,
//! and the numbers of their journals. Races for the order of
//! lines come behind them, in one line for each time (`line_orders`), and then by what the list of races was cut, if it was.
//!
//! `push_more_races` does so with races that were found later, and says where texts differ only in the order of lines at one time (`alone`),
//! and where one text is told which registers differ in runs that print it (`unseen`).
//!
//! `push_reach` says how far in time a search came that met a limit, and names the processes where most of its choices are (`reach`).
//!
//! What the layer above uses: the contracts of these. The lines are those of `verdict`, with the names, the time, and the
//! lines of the two runs; a journal is named by its number where it is that of the run, and nowhere else.
#![tactic(auto)]

mod alone;
mod line_orders;
mod naming;
mod places;
mod reach;
mod role_words;
mod unseen;
mod words;

pub use naming::{RaceNames, push_more_races, push_races};
pub use reach::{SearchReach, push_reach};
