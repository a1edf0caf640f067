//! Tests of the concurrent layers, each through its public calls: gates that a test leads step by step, and runs in threads.
//! There are tests alone.
//!
//! 1. `course` has the calls of a worker: a turn is evaluated, committed, found too long, or evaluated under the lock.
//! 2. `pair` opens the gate of a design for two workers, which lead its run, and closes it.
//! 3. `between` has a reader that lets another seat commit a turn between two reads.
//! 4. `steps` leads runs of two seats, a step after another, as the rows of a table say: what each call answers.
//! 5. `examples` has these rows: worked examples of one and of two seats, turns and updates that one holding of the lock takes, strobes,
//!    and stops after each entry.
//! 6. `driven` leads whole journals through a gate by `drive`.
//! 7. `held` reads every register while another thread has the lock, as the mark tells before and after.
//! 8. `refused` leads a run of one seat in too little memory: what each call answers, and that it succeeds with more.
//! 9. `batches` commits several turns in one holding of the lock: where memory is refused for one, those behind it are left.
//! 10. `deques` takes and steals tickets of pools of deques, by one thread and by four, and counts where each went.
//! 11. `cells` stores and reads cells of registers of up to 128 digits, by two threads: no read goes back, and each gives the whole
//!     value of its version.
//! 12. `hoards` holds all memory, and counts what is left of it.
//! 13. `starved` evaluates a turn under the lock, copies a journal and leads journals through a gate in too little memory.
#![tactic(auto)]

#[cfg(test)]
mod batches;
#[cfg(test)]
mod between;
#[cfg(test)]
mod cells;
#[cfg(test)]
mod claims;
#[cfg(test)]
mod course;
#[cfg(test)]
mod deques;
#[cfg(test)]
mod driven;
#[cfg(test)]
mod examples;
#[cfg(test)]
mod held;
#[cfg(test)]
mod hoards;
#[cfg(test)]
mod pair;
#[cfg(test)]
mod refused;
#[cfg(test)]
mod starved;
#[cfg(test)]
mod steps;
