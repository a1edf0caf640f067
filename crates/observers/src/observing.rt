//! What is compared of runs.

use design::RegId;

/// What is compared of runs: their lines in order; or besides these, whenever time passes and at the end, the time and the values of these
/// registers, which may be none.
#[derive(Drop)]
pub enum Observing {
    Lines,
    Registers(Vec<RegId>),
}
