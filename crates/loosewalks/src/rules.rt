//! What a walk goes by.
use model::end::Limits;

/// Where a walk stops, though one way may still stand for all.
#[derive(Clone, Copy)]
pub enum WalkStops {
    /// At the next choice alone.
    AtChoices,
    /// At the next choice, or before time passes: it lets time pass at its first move at most.
    AtTime,
}

/// What a walk goes by: the classes of the registers, which say which updates wait for each other, the limits of a run, and where it stops.
#[derive(Clone, Copy)]
pub struct WalkRules<'a> {
    pub classes: &'a [u32],
    pub limits: Limits,
    pub stops: WalkStops,
}
