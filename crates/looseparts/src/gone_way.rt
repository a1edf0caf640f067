//! A way that was gone again.
use loose::transition::LooseTransition;

/// A way that was gone again: its transitions, what they print, and the class key of the state that they lead to, or nothing where the run
/// has finished there.
#[derive(Drop)]
pub(crate) struct GoneWay {
    pub(crate) way: Vec<LooseTransition>,
    pub(crate) lines: Vec<u8>,
    pub(crate) key: Vec<u8>,
}
