//! Two entries of a run.

use crate::role::{Role, Site};

/// Two entries of a run, by their places in its journal: for what they race, when, and what each does there.
#[derive(Clone, Copy)]
pub struct Pair {
    pub site: Site,
    pub time: u64,
    pub first: Role,
    pub second: Role,
    pub earlier: usize,
    pub later: usize,
}
