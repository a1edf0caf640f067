//! From the tokens of a text to the trees of its modules (IEEE 1364-2005, annex A).
//!
//! 1. `instances` reads gates and instances (A.3, A.4.1), and `routines` functions and tasks (A.2.6, A.2.7).
//! 2. `items` reads the items of a module with its generate constructs (A.1.4, A.4.2), and `modules` modules (A.1.2).
//! 3. `parser` joins these, and gives the tree, or what is wrong.
//!
//! What this language lacks is told as a refusal, and reading goes on behind it; where the text isn't Verilog, reading stops.
//!
//! The layer above uses `parse`: it answers the modules of a text, or all refusals, up to a hundred, and the first fault.
#![tactic(auto)]

mod instances;
mod items;
mod modules;
pub mod parser;
mod routines;
