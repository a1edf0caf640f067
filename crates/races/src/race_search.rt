//! What second runs are made from.
ghost use Rattle.std.specs.Prelude.{◌≤◌};
ghost use Rattle.std.specs.Option.{ForSome};
ghost use Rattle.model.specs.Runs.{last_time};
ghost use Rattle.runs.specs.Compared.{WantsNoMemory};

use conflicts::{RaceBounds, RunTransitions};
use design::Design;
use model::end::Limits;
use runs::run::RunRecord;
use std::alloc::Global;

/// A search: its design, limits and bounds, and its first run with the process of each entry that is a turn. The limit of time isn't past the last
/// time, and the first run wants no memory.
#[derive(Clone, Copy)]
pub(crate) struct RaceSearch<'a> {
    pub(crate) alloc: Global,
    pub(crate) design: &'a Design,
    pub(crate) limits: Limits,
    pub(crate) bounds: RaceBounds,
    pub(crate) original: &'a RunRecord,
    pub(crate) processes: &'a [u32],
    ghost until: { ForSome limits.until (λ until. until ≤ last_time) },
    ghost remembered: { WantsNoMemory original.now },
}

impl<'a> RaceSearch<'a> {
    /// The transitions of the first run.
    pub(crate) fn transitions(self) -> RunTransitions<'a> {
        RunTransitions::new(&self.original.journal, self.processes)
    }
}
