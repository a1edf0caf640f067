//! What a search keeps from one node to the next.
use looseparts::PartsRoom;
use loosewalks::LooseRoom;
use std::alloc::Global;
use turn::TurnLog;

/// What is kept from one node to the next: a log that machines are lent for their turns, what walks work in, and what ways by parts are found
/// in, where keys are made, too; and the last class key.
#[derive(Drop)]
pub(crate) struct SearchRoom<'d> {
    pub(crate) log: TurnLog,
    pub(crate) walk: LooseRoom,
    pub(crate) parts: PartsRoom<'d>,
    pub(crate) key: Vec<u8>,
}

impl<'d> SearchRoom<'d> {
    /// No room yet.
    pub(crate) fn new(alloc: Global) -> SearchRoom<'d> {
        SearchRoom {
            log: TurnLog::new(alloc),
            walk: LooseRoom::new(alloc),
            parts: PartsRoom::new(alloc),
            key: Vec::new(alloc),
        }
    }
}
