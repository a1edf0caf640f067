//! A pool of tickets for workers: each worker has a deque of its own, and steals from those of all others. No call waits.
//!
//! 1. A worker puts tickets at the back of its own deque. It takes at the front, and so does each thief (`ends`).
//! 2. Each deque has one trail of the tickets that left it, each with the name of the end that got it: 0 is the owner, and
//!    the thieves are counted from 1. What was put is what the trail has, in order, and then what is still in the deque.
//!    Each step keeps that (`rule`).
//! 3. What an end got is what the trail has under its name, so a ticket comes out of a deque once at most, and each end
//!    gets tickets in the order in which they were put.
//! 4. `Pool::new` makes the deques, and gives each worker the thieves of all others. `close` takes all ends back (`pool`),
//!    and counts what became of the tickets (`tally`).
//!
//! What the layer above uses: the ends of a closed pool had the tickets of the trails among them, each once, and all other
//! tickets that were put were left. So what was put is what was taken, what was stolen and what was left.
#![tactic(auto)]

mod ends;
mod pool;
mod rule;
mod tally;

pub use ends::{Owner, PutFault, Stolen, Thief};
pub use pool::{Pool, close};
pub use rule::{FirstInFirstOut, Hand};
pub use tally::Tally;
