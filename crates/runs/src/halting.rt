//! Whether a machine may take an entry in time, and else the end of its run.
ghost use Rattle.std.specs.Prelude.{◌≡◌, ◌≤◌, ◌↔◌, IsTrue, IfSome, IfNone};
ghost use Rattle.model.specs.Runs as runs;
ghost use Rattle.model.specs.Runs.{IsTimely, last_time, why_past};
ghost use Rattle.model.specs.declared.end.End.TheVariants as ends;
ghost use Rattle.design.specs.Compiled.{design_of};
ghost use Rattle.regions.specs.Machine.{state_at};
ghost use Rattle.runs.specs.Halting.{HaltsAt, GoesOn, OnlyLongTurnsEnd};

use model::end::{End, LAST_TIME, Limits, Why};
use model::entry::Entry;
use regions::Machine;

// The time past which a run with these limits doesn't go: its own limit, or else the last time.
fn most_time(limits: Limits) -> u64
    ensures { result ≡ runs.most_time limits.until }
{
    match limits.until {
        Some(until) => until,
        None => LAST_TIME,
    }
}

/// Whether an entry is in time: no advance past the limit.
pub fn is_timely(limits: Limits, entry: Entry) -> bool
    ensures { IsTrue result ↔ IsTimely limits entry }
{
    match entry {
        Entry::Advance(time) => time <= most_time(limits),
        _ => true,
    }
}

// The end of a run whose next time is past its limit.
fn past_end(limits: Limits) -> End
    ensures { result ≡ ends.Stopped (why_past limits.until) }
{
    match limits.until {
        Some(_) => End::Stopped(Why::Until),
        None => End::Stopped(Why::Time),
    }
}

/// The end that a run has at a machine where no entry may be next in time: finished, quiet, or past its limit of time; and
/// none where one may be next. The limit isn't past the last time, as for every run.
///
/// Where it answers none, a run may still end there, by a turn that is too long: that shows once the turn is tried.
#[inline(always)]
pub fn end_at(limits: Limits, machine: &Machine<'_>) -> Option<End>
    requires until { IfSome limits.until (λ until. until ≤ last_time) }
    ensures halts { IfSome result (HaltsAt (design_of machine.now.code) limits (state_at machine.now)) }
    ensures goes_on { IfNone result (GoesOn limits (state_at machine.now)) }
{
    if machine.is_finished() {
        return Some(End::Stopped(Why::Finish));
    }
    // An event is active at most entries, and then nothing else is asked.
    if machine.state().is_active() {
        return None;
    }
    if machine.is_quiet() {
        return Some(End::Quiet);
    }
    match machine.due() {
        Some(change) => {
            if is_timely(limits, change) {
                None
            } else {
                Some(past_end(limits))
            }
        }
        None => Some(past_end(limits)),
    }
}

/// Where an entry may be next in time, a run ends only by a turn that is too long.
pub fn only_long_turns_end()
    ensures { OnlyLongTurnsEnd }
{}
