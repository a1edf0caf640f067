//! How a design is run.

/// On 1 to 16 workers, up to a time of at most 2 to the 48 where one is given, and with at least one entry in its
/// journal.
#[derive(Clone, Copy)]
pub struct RunOptions {
    pub workers: u32,
    pub until: Option<u64>,
    pub max_entries: u32,
}
