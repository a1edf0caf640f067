//! Which steps of a segment come of an earlier one, and which a second run takes in its place.

use crate::segment::{Access, Segment, SegmentStep};
use crate::step_set::StepSet;
use std::alloc::{AllocError, Global};

/// What some steps did: which sites they accessed, which of these they changed, and whether they made assignments.
#[derive(Drop)]
struct StepMarks {
    accessed: StepSet,
    changed: StepSet,
    assigned: bool,
}

/// How steps hang on an earlier one: which need it, themselves or by another one that does; and which depend on it, since they need it or
/// conflict with it, themselves or by another one that does.
#[derive(Drop)]
struct Chain {
    earlier: usize,
    by_earlier: StepMarks,
    by_depending: StepMarks,
    needing: StepSet,
    depending: StepSet,
}

/// The steps between two that a second run takes before them: all that don't depend on the earlier one, where none of those that do ties the
/// two together, and else all that don't need it.
#[derive(Drop)]
pub struct PriorSteps {
    pub steps: StepSet,
    pub is_tied: bool,
}

impl StepMarks {
    // What no steps did, with room for so many sites. Fails where memory is refused.
    fn new(alloc: Global, sites: usize) -> Result<StepMarks, AllocError> {
        Ok(StepMarks {
            accessed: StepSet::new(alloc, sites)?,
            changed: StepSet::new(alloc, sites)?,
            assigned: false,
        })
    }

    // Marks what a step did: these accesses, and assignments if it made some.
    fn add(&mut self, assigns: bool, accesses: &[Access]) {
        for access in accesses {
            self.accessed.insert(access.site_number());
            if access.changes {
                self.changed.insert(access.site_number());
            }
        }
        self.assigned = self.assigned | assigns;
    }

    // Whether a step conflicts with one of these: one of the two changes what the other accesses, or both make nonblocking
    // assignments, whose order is that of their updates.
    fn meets(&self, assigns: bool, accesses: &[Access]) -> bool {
        for access in accesses {
            let site = access.site_number();
            if self.changed.contains(site) || (access.changes && self.accessed.contains(site)) {
                return true;
            }
        }
        self.assigned && assigns
    }
}

impl Chain {
    // How the steps between two hang on the earlier one. None where the later one needs it.
    fn between(
        alloc: Global,
        segment: &Segment,
        earlier: usize,
        later: usize,
    ) -> Result<Option<Chain>, AllocError> {
        let Some(last) = segment.step_at(later) else {
            return Ok(None);
        };
        let width = later.saturating_sub(earlier);
        let mut chain = Chain {
            earlier,
            by_earlier: StepMarks::new(alloc, segment.sites())?,
            by_depending: StepMarks::new(alloc, segment.sites())?,
            needing: StepSet::new(alloc, width)?,
            depending: StepSet::new(alloc, width)?,
        };
        chain.needing.insert(0);
        if let Some(step) = segment.step_at(earlier) {
            chain
                .by_earlier
                .add(step.assigns, segment.accesses_of(earlier));
        }
        for at in earlier.saturating_add(1)..later {
            if let Some(step) = segment.step_at(at) {
                chain.pass(at, step, segment.accesses_of(at));
            }
        }
        if chain.needs(last) {
            Ok(None)
        } else {
            Ok(Some(chain))
        }
    }

    // Whether a step that another one needs is in a set.
    fn is_in(&self, set: &StepSet, step: Option<usize>) -> bool {
        match step {
            Some(step) if step >= self.earlier => set.contains(step - self.earlier),
            _ => false,
        }
    }

    // Whether a step needs the earlier one.
    fn needs(&self, step: SegmentStep) -> bool {
        self.is_in(&self.needing, step.cause) || self.is_in(&self.needing, step.before)
    }

    // Whether a step depends on one behind the earlier one that depends on that.
    fn is_linked(&self, step: SegmentStep, accesses: &[Access]) -> bool {
        self.is_in(&self.depending, step.cause)
            || self.is_in(&self.depending, step.before)
            || self.by_depending.meets(step.assigns, accesses)
    }

    // Whether a step that doesn't need the earlier one depends on it.
    fn depends(&self, step: SegmentStep, accesses: &[Access]) -> bool {
        self.is_linked(step, accesses) || self.by_earlier.meets(step.assigns, accesses)
    }

    // Notes a step that depends on the earlier one, with what it did.
    fn add_depending(&mut self, behind: usize, assigns: bool, accesses: &[Access]) {
        self.depending.insert(behind);
        self.by_depending.add(assigns, accesses);
    }

    // Goes past a step.
    fn pass(&mut self, at: usize, step: SegmentStep, accesses: &[Access]) {
        let behind = at.saturating_sub(self.earlier);
        if self.needs(step) {
            self.needing.insert(behind);
            self.add_depending(behind, step.assigns, accesses);
        } else if self.depends(step, accesses) {
            self.add_depending(behind, step.assigns, accesses);
        }
    }

    // The steps between that a second run takes before the later one, which did these accesses: all that don't depend on the earlier one, where
    // none of those that do ties the two together, and else all that don't need it. Fails where memory is refused.
    fn prior_steps(
        &self,
        alloc: Global,
        last: SegmentStep,
        accesses: &[Access],
        width: usize,
    ) -> Result<PriorSteps, AllocError> {
        let is_tied = self.is_linked(last, accesses);
        let steps = if is_tied {
            others(alloc, &self.needing, width)?
        } else {
            others(alloc, &self.depending, width)?
        };
        Ok(PriorSteps { steps, is_tied })
    }
}

// The steps between two that aren't in a set.
fn others(alloc: Global, set: &StepSet, width: usize) -> Result<StepSet, AllocError> {
    let mut others = StepSet::new(alloc, width)?;
    for behind in 1..width {
        if !set.contains(behind) {
            others.insert(behind);
        }
    }
    Ok(others)
}

// Steps that nothing ties together.
fn untied(steps: Result<StepSet, AllocError>) -> Result<PriorSteps, AllocError> {
    Ok(PriorSteps {
        steps: steps?,
        is_tied: false,
    })
}

// What was found.
fn some_of(before: Result<PriorSteps, AllocError>) -> Result<Option<PriorSteps>, AllocError> {
    Ok(Some(before?))
}

impl Segment {
    /// The steps between two that a second run takes before them. None where the later one needs the earlier one.
    pub(crate) fn swapped(
        &self,
        alloc: Global,
        earlier: usize,
        later: usize,
    ) -> Result<Option<PriorSteps>, AllocError> {
        let Some(last) = self.step_at(later) else {
            return Ok(None);
        };
        let Some(chain) = Chain::between(alloc, self, earlier, later)? else {
            return Ok(None);
        };
        let width = later.saturating_sub(earlier);
        let before = chain.prior_steps(alloc, last, self.accesses_of(later), width);
        drop(chain);
        some_of(before)
    }

    /// The steps between two that a second run takes before the later one, which finishes it: all that don't need the earlier one. None where
    /// the later one needs it.
    pub(crate) fn cut_off(
        &self,
        alloc: Global,
        earlier: usize,
        later: usize,
    ) -> Result<Option<PriorSteps>, AllocError> {
        let Some(chain) = Chain::between(alloc, self, earlier, later)? else {
            return Ok(None);
        };
        let steps = others(alloc, &chain.needing, later.saturating_sub(earlier));
        drop(chain);
        some_of(untied(steps))
    }
}
