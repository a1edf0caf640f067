//! How far the lawful orders of a design are searched.

/// The limits of the runs, the most states and texts of a search, how many megabytes it keeps, and how many random orders are
/// tried in its place, if any, from which seed.
#[derive(Clone, Copy)]
pub struct SearchOptions {
    pub until: Option<u64>,
    pub max_entries: u32,
    pub max_states: u32,
    pub max_texts: u32,
    pub max_memory: u32,
    pub samples: Option<u32>,
    pub seed: u64,
}
