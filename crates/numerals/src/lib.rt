//! What numbers stand for (IEEE 1364-2005, 3.5.1).
//!
//! 1. `bytes` tells what a byte of a number stands for.
//! 2. `decimals` reads digits of base ten, and `digits` those of a base that is a power of two.
//! 3. `number` joins a size, a base and digits.
//!
//! The layer above uses `plain_number`, `based_number` and `sized_number`: each answers what specs/Numbers.antt says of the bytes.
#![tactic(auto)]

mod bytes;
mod decimals;
mod digits;
pub mod number;
