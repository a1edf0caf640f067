//! The change of the regions that is due where nothing is active.
ghost use Rattle.std.specs.Prelude.{◌≡◌, ◌↔◌, length, IsTrue, IfSome, IfNone, MatchOption};
ghost use Rattle.model.specs.Runs.{IsTimely};
ghost use Rattle.runstate.specs.Ledger.{entries_of};
ghost use Rattle.runstate.specs.GateState.{state_in};
ghost use Rattle.commitgate.specs.GateAnswers.{IsBetweenRegions, MustWait, stopped_for_memory};
ghost use Rattle.commitgate.specs.DueRegions.{IsDueChange, IsPassed};
ghost use Rattle.commitgate.specs.Closing.{IsEndOf};
ghost use Rattle.commitgate.specs.Replies.{RestAnswered};
ghost use Rattle.commitgate.specs.SeatAnswers.{RestAnsweredTo, StoppedTo};

use crate::context::Context;
use crate::naming::Naming;
use crate::reply::Rest;
use crate::seat::Seat;
use crate::state::GateState;
use model::end::{End, LAST_TIME, Limits, Why};
use model::entry::Entry;
use std::sync::Wait;

// Why a run stops at a change of the regions, if it does: its time is past the run's limit or, without one, past the
// last time.
fn passed_limit(limits: Limits, change: Entry) -> Option<Why>
    ensures { MatchOption result (IsTimely limits change) (IsPassed limits change) }
{
    let Entry::Advance(time) = change else {
        return None;
    };
    match limits.until {
        Some(until) if until < time => Some(Why::Until),
        None if LAST_TIME < time => Some(Why::Time),
        _ => None,
    }
}

impl<'d, K: Naming> GateState<'d, K> {
    /// Whether a worker without a ticket waits: the run goes on, evaluations alone are active, and the journal has no
    /// entry past those that it has seen.
    pub fn must_wait(&self, seen: u64) -> bool
        ensures { IsTrue result ↔ MustWait self.now seen }
    {
        self.run_state.end.is_none()
            & self.run_state.regions.is_active()
            & self.run_state.regions.first_update().is_none()
            & (self.entries() <= seen)
    }

    /// Makes the change of the regions that is due, or tells a worker without a ticket to wait, and then changes nothing.
    pub fn rest<R: Wait>(
        &mut self,
        context: &Context<'_, K, R>,
        seat: &mut Seat<K>,
    ) -> Option<Rest<K>>
        ensures state { IfSome result (λ rest. RestAnswered K.named.code K.named.limits seat.old.worker self.old self.new rest) }
        ensures some { IfSome result (λ rest. RestAnsweredTo K.named seat.old seat.new rest) }
        ensures none { IfNone result ((seat.new ≡ seat.old) × (self.new ≡ self.old)) }
        ensures waits { IfNone result (MustWait self.old (length (entries_of seat.old.seen))) }
    {
        if self.must_wait(seat.seen()) {
            return None;
        }
        Some(self.change_region(context, seat))
    }

    /// How the run ended, if it did: by the stored end, or else quiet where no event is left.
    pub(crate) fn end(&self) -> End
        ensures { IsEndOf K.named.code self.now result }
    {
        match self.run_state.end {
            Some(why) => End::Stopped(why),
            None => {
                if self.run_state.regions.is_quiet() {
                    End::Quiet
                } else {
                    End::Running
                }
            }
        }
    }

    /// The change of the regions that comes next, where nothing is active and an event is left (11.4).
    fn due_change(&self) -> Entry
        requires { IsBetweenRegions K.named.code self.now }
        ensures { IsDueChange (state_in K.named.code self.now) result }
    {
        match self.run_state.regions.next_change() {
            Some(change) => change,
            None => unreachable!(),
        }
    }

    /// Makes the change of the regions that is due and appends it, where the run goes on, an event is left, none is
    /// active, and the journal isn't full (11.4). A journal that is full stops the run, and so does an advance past the
    /// limit of time.
    pub fn change_region<R: Wait>(
        &mut self,
        context: &Context<'_, K, R>,
        seat: &mut Seat<K>,
    ) -> Rest<K>
        ensures state { RestAnswered K.named.code K.named.limits seat.old.worker self.old self.new result }
        ensures seat { (MustWait self.old (length (entries_of seat.old.seen)) → ⊥) → RestAnsweredTo K.named seat.old seat.new result }
    {
        self.invariant_holds();
        self.synchronize(context, seat);
        match self.end() {
            End::Stopped(why) => return Rest::Stopped(why),
            End::Quiet => return Rest::Quiet,
            End::Running => {}
        }
        if self.run_state.regions.is_active() {
            return Rest::Busy;
        }
        if self.is_full() {
            self.stop(context, seat, Why::Entries);
            self.invariant_holds();
            return Rest::Stopped(Why::Entries);
        }
        let change = self.due_change();
        if let Some(why) = passed_limit(self.run_state.limits, change) {
            self.stop(context, seat, why);
            self.invariant_holds();
            return Rest::Stopped(why);
        }
        match self.append(context, seat, change, None) {
            Ok(grant) => {
                self.invariant_holds();
                Rest::Changed(grant)
            }
            Err(_) => Rest::NoMemory,
        }
    }

    /// Stops a run that goes on and has events left, for want of memory.
    pub fn stop_for_memory<R: Wait>(&mut self, context: &Context<'_, K, R>, seat: &mut Seat<K>)
        ensures state { self.new ≡ stopped_for_memory K.named.code seat.old.worker self.old }
        ensures seat { StoppedTo K.named seat.old seat.new }
    {
        self.invariant_holds();
        self.synchronize(context, seat);
        match self.end() {
            End::Running => {
                self.stop(context, seat, Why::Memory);
                self.invariant_holds();
            }
            End::Quiet => {}
            End::Stopped(_) => {}
        }
    }
}
