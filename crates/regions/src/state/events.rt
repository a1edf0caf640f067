//! The events of each region as they stand, and where each process goes on.
ghost use Rattle.std.specs.Prelude.{◌≡◌, ◌++◌, map};
ghost use Rattle.regions.specs.Queue.{evaluation_event, update_event, process_wait_of};
ghost use Rattle.regions.specs.Future.{due_event};

use super::State;
use crate::future::Due;
use crate::queue::{Continuation, Evaluation, Update};
use design::Control;
use std::collections::VecDeque;

impl State {
    /// The active updates, and the active evaluations (11.3), each in the order of their numbers.
    pub fn active(&self) -> (&VecDeque<Update>, &VecDeque<Evaluation>)
        ensures { map update_event result.0.now.items ++ map evaluation_event result.1.now.items ≡ self.now.active }
    {
        (&self.queue.updates, &self.queue.evaluations)
    }

    /// The inactive evaluations (11.3), in the order of their numbers.
    pub fn inactive(&self) -> &VecDeque<Evaluation>
        ensures { map evaluation_event result.now.items ≡ self.now.inactive }
    {
        &self.queue.inactive
    }

    /// The nonblocking assign updates (11.3), in the order of their numbers.
    pub fn nonblocking(&self) -> &VecDeque<Update>
        ensures { map update_event result.now.items ≡ self.now.nonblocking }
    {
        &self.queue.nonblocking
    }

    /// The places of the `$strobe` statements whose lines are due at the end of this time (17.1.2), in the order in which
    /// they were met.
    pub fn monitor(&self) -> &[usize]
        ensures { result.now ≡ self.now.monitor }
    {
        self.queue.monitor.as_slice()
    }

    /// The evaluations to come (11.3), in the order of their times, and those of one time in the order of their numbers.
    pub fn future_evaluations(&self) -> &VecDeque<Due<Evaluation>>
        ensures { map (due_event evaluation_event) result.now.items ≡ self.now.future_inactive }
    {
        &self.queue.future_inactive
    }

    /// The updates to come (11.3), in the order of their times, and those of one time in the order of their numbers.
    pub fn future_updates(&self) -> &VecDeque<Due<Update>>
        ensures { map (due_event update_event) result.now.items ≡ self.now.future_nonblocking }
    {
        &self.queue.future_nonblocking
    }

    /// Where each process goes on, and the event control that it waits at, by its number.
    pub fn processes(&self) -> &[Continuation]
        ensures { map (process_wait_of self.now.controls) result.now ≡ self.now.processes }
    {
        self.queue.processes.as_slice()
    }

    /// The event controls, in the order of their numbers.
    pub fn controls(&self) -> &[Control]
        ensures { result.now ≡ self.entry.now.controls }
    {
        self.queue.shared.controls.as_slice()
    }
}
