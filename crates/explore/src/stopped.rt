//! Why a search may have left something out.

/// Why a search may have left something out.
#[derive(Clone, Copy)]
pub enum Stopped {
    /// The most nodes were reached, and another was left out.
    Nodes,
    /// The most texts and ends are shown, and another was left out.
    Shown,
    /// The ways from a node weren't all followed.
    Unfollowed,
    /// What is kept takes more bytes than it may.
    Bytes,
    /// Memory was refused.
    Memory,
}
