//! How an observed run ends.
ghost use Rattle.std.specs.Prelude.{◌≡◌, ◌↔◌, IsTrue};

use model::end::End;
use std::marker::Model;

/// How a run ends, and the bytes that an observer sees of its last state.
#[derive(Drop)]
pub struct ObservedEnd {
    pub end: End,
    pub seen: Vec<u8>,
}

impl Model for ObservedEnd {
    ghost use Rattle.looseruns.specs.ObservedJournals.{SeenEnd};

    ghost Value = { SeenEnd };

    ghost view = { λ o. record { end = o.end; seen = o.seen.items } };
}

impl ObservedEnd {
    /// Whether another run ends in the same way, and the same is seen of its last state.
    pub fn is_same(&self, other: &ObservedEnd) -> bool
        ensures { IsTrue result ↔ (self.now ≡ other.now) }
    {
        (self.end == other.end) & (self.seen == other.seen)
    }
}
