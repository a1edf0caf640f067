//! Which of the texts that were found are those of runs that stop short: by a turn that is too long, or where the time would pass the last one.

ghost use Rattle.std.specs.Prelude.{◌≡◌, ◌+◌, ◌++◌, IfOk, OnOk, length};
ghost use Rattle.program.specs.Findings.{cause_of_stop, has_cause, have_stops, stop_cause, stop_in_text, stops_from};

use explore::Shown;
use model::end::{End, Why};
use model::entry::Entry;
use std::alloc::{AllocError, Global};
use verdict::{StopCause, StopDescription};

/// Why a run that was stopped for this stops short, if it does.
fn cause_of_stop(why: Why) -> Option<StopCause>
    ensures { result ≡ cause_of_stop why }
{
    match why {
        Why::TooLong(process) => Some(StopCause::LongTurn(process)),
        Why::Time => Some(StopCause::LastTime),
        Why::Finish | Why::Until | Why::Entries | Why::Memory => None,
    }
}

/// Why a run with this end stops short, if it does.
fn stop_cause(end: End) -> Option<StopCause>
    ensures { result ≡ stop_cause end }
{
    match end {
        End::Quiet => None,
        End::Running => None,
        End::Stopped(why) => cause_of_stop(why),
    }
}

/// Whether a run with this end stops short.
fn stops_short(end: End) -> bool
    ensures { result ≡ has_cause (stop_cause end) }
{
    match stop_cause(end) {
        Some(_) => true,
        None => false,
    }
}

/// Whether the run of one of these texts stops short.
pub(crate) fn have_stops(shown: &[Shown<Entry, End>]) -> bool
    ensures { result ≡ have_stops shown.now }
{
    shown.iter().any(|one| stops_short(one.end))
}

/// Puts behind others that the run of a text with a number stops short, where it does.
fn push_stop(
    stops: &mut Vec<StopDescription>,
    number: usize,
    one: &Shown<Entry, End>,
) -> Result<(), AllocError>
    ensures { OnOk result (stops.new.items ≡ stops.old.items ++ stop_in_text number (length one.now.moves.items + 1) (stop_cause one.now.end)) }
{
    let cause = match stop_cause(one.end) {
        Some(cause) => cause,
        None => return Ok(()),
    };
    stops.push(StopDescription {
        number,
        entry: one.moves.len() + 1,
        cause,
    })?;
    Ok(())
}

/// Those of the texts whose runs stop short, by their numbers, each with the entry that would come next.
#[tactic(auto, using(crate::proofs::StopsMore::stops_more))]
pub(crate) fn stops_of(
    alloc: Global,
    shown: &[Shown<Entry, End>],
) -> Result<Vec<StopDescription>, AllocError>
    ensures { IfOk result (λ stops. stops.items ≡ stops_from 1 shown.now) }
{
    let mut stops = Vec::new(alloc);
    for place in 0..shown.len() {
        push_stop(&mut stops, place + 1, &shown[place])?;
    }
    Ok(stops)
}
