//! What a search of lawful orders has come to.

/// Why a search has stopped.
#[derive(Clone, Copy)]
pub enum SearchStop {
    /// The most states were reached.
    States(u32),
    /// The most texts were shown.
    Texts(u32),
    /// Runs with the most entries were left.
    Entries(u32),
    /// The search kept the most megabytes.
    Megabytes(u32),
    /// Memory was refused.
    Memory,
}

/// Random orders: how many were tried of so many that were asked for, and why no more were tried, where fewer were.
#[derive(Clone, Copy)]
pub struct SampledOrders {
    pub made: u32,
    pub asked: u32,
    pub stop: Option<SearchStop>,
}

/// What the texts that were found are among those of all lawful runs.
#[derive(Clone, Copy)]
pub enum Claim {
    /// They are all that runs with an end print.
    Every {
        /// How many states were reached.
        states: u64,
        /// The number of the journal of a lawful run that doesn't come to an end, where one is known.
        endless: Option<usize>,
    },
    /// There may be others, since the search stopped.
    SoFar(SearchStop),
    /// There may be others, since random orders were tried.
    Sampled(SampledOrders),
}
