//! Loose runs before an observer for whom lines that are printed at one time have no order: their texts have the lines of each time in one order.
//!
//! 1. What is read of a run's observed text falls into what is in order for good, up to where time passed last, and the rest. Runs with the same
//!    rest and the same text before it, which lead to states that are alike in classes, go on alike, whatever the order in which they printed.
//! 2. So these runs are runs of a search (`ArrangedRuns`): their text is what is in order for good, a node has the rest, and so has an end.
//! 3. Where all of them are shown, so is the observed text of each lawful journal, in that order (`ArrangedLaws`).
//!
//! The definitions stand in `specs/`; `laws` carries what is proved.
#![tactic(auto)]

pub mod laws;
