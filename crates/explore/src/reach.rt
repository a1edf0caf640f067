//! Before which time a search left nothing out.
ghost use Rattle.std.specs.Prelude.{◌≡◌, ◌≤◌, get_or, IsTrue};
ghost use Rattle.std.specs.List.{All};
ghost use Rattle.explore.specs.Reach.{earliest, earliest_left};

use crate::Stopped;
use crate::kept::Reached;
use crate::links::Links;

/// The earlier of a time, if there is one, and another.
pub(crate) fn earliest(told: Option<u64>, time: u64) -> u64
    ensures { result ≡ earliest told time }
{
    match told {
        Some(told) => told.min(time),
        None => time,
    }
}

/// The least time of nodes from which something was left out, and of one at this time from which something was, or nothing.
pub(crate) fn earliest_left(told: Option<u64>, left: Option<Stopped>, time: u64) -> Option<u64>
    ensures { result ≡ earliest_left told left time }
{
    match left {
        Some(_) => Some(earliest(told, time)),
        None => told,
    }
}

/// Whether no node that is pending is of an earlier time.
fn are_not_before(links: &Links, pending: &[Reached], time: u64) -> bool
    ensures { IsTrue result → All (λ p. time ≤ get_or links.now.times.items p.number 0) pending.now }
{
    for reached in pending {
        if links.time_at(reached.number) < time {
            return false;
        }
    }
    true
}

/// The least of a time and of those of pending nodes, as it is found.
fn least_found(links: &Links, pending: &[Reached], time: u64) -> u64 {
    let mut least = time;
    for reached in pending {
        least = least.min(links.time_at(reached.number));
    }
    least
}

/// A time that is no later than this one, and no later than those of pending nodes: the least of them. That it is no later is seen by one
/// more look at each.
pub(crate) fn earliest_pending(links: &Links, pending: &[Reached], time: u64) -> u64
    ensures told { result ≤ time }
    ensures pending { All (λ p. result ≤ get_or links.now.times.items p.number 0) pending.now }
{
    let least = least_found(links, pending, time);
    if least > time {
        return 0;
    }
    if !are_not_before(links, pending, least) {
        return 0;
    }
    least
}
