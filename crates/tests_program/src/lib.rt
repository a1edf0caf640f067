//! Tests of the whole program, over files in memory.
#![tactic(auto)]

#[cfg(test)]
mod tests;
