//! The bytes by which a search of orders tells states apart.
//!
//! 1. `encode` has codes that tell where they end: whatever follows the code of a value, the bytes tell the value. Numbers take
//!    seven bits a byte, a list its length and then its elements, a vector its width and its two words.
//! 2. `key` writes a state as such bytes: all but the numbers of its events, with the processes of evaluations in rising order.
//! 3. `class_key` writes a state so too, but with its updates grouped by the classes of their registers.
//!
//! What the layer above uses: `key` ensures `IsKey` (`specs/Keys.antt`), and `keys_tell_states` that states of one design with
//! one key are alike, so that a search may look at one of them alone. `class_key` ensures `IsClassKey` (`specs/ClassKeys.antt`),
//! and `class_keys_tell_states` that states of one design with one class key are alike in classes.
#![tactic(auto)]

mod class_keys;
mod encode;
mod keys;
mod laws;

pub use class_keys::class_key;
pub use keys::{Scratch, key};
pub use laws::{class_keys_tell_states, grouping_is_unique, keys_tell_states};
