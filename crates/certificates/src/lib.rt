//! Certificates: a run of loose steps of which each is apart from each later one that doesn't come of it stands for all runs from its
//! start. What a step has to do with others is told by a note; a certificate is made of notes alone, as one step after another is
//! noted.
//!
//! 1. `numbers`, `triggers` and `changes` are the lists of a note. They are `masked`: each keeps a `mask` of its items' numbers, which
//!    tells quickly of most lists that they have nothing in common.
//! 2. `note` is what is noted of a step, and `apart` whether two steps are apart by their notes.
//! 3. `actors` is a set of actors, `summary` what several notes say together, and `certificate` the notes of a run that certify so far.
//! 4. `laws` has what a run with such notes stands for.
#![tactic(auto)]

mod actors;
pub mod apart;
pub mod certificate;
pub mod changes;
pub mod laws;
mod marked;
mod mask;
pub mod masked;
pub mod note;
pub mod numbers;
mod summary;
pub mod triggers;
