//! Whether a worker goes on.

/// What a worker does next: it goes on with its rounds, or it ends.
#[derive(Clone, Copy)]
pub enum NextRound {
    GoesOn,
    Ends,
}
