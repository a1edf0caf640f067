//! The combinational processes of a design, found by their text: `always @(a or b)` with blocking assignments and `if` alone, or such
//! statements with the wait `@(a or b);` behind them. What is found computes a block whatever the values of the registers (`IsBlock` of
//! `phases`).
#![tactic(auto)]

mod block;
mod body;
mod count;
mod expression;
mod network;

pub use block::{Logic, is_among};
pub use network::{Network, network_of, share};
