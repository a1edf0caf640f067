//! How far a search for races goes.

/// How far a search for races goes: the most second runs that it makes, the most races that it tells, and the most entries of
/// all second runs together, each counted with those that it repeats of the first run.
#[derive(Clone, Copy)]
pub struct RaceBounds {
    pub pairs: usize,
    pub races: usize,
    pub entries: u64,
}

/// By what a list of races was cut: the most races, the most second runs, the most entries of these, too many entries between
/// two changes of the regions to look at, or memory that was refused.
#[derive(Clone, Copy)]
pub enum Bound {
    Races,
    Pairs,
    Entries,
    Steps,
    Memory,
}
