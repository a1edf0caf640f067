//! The run that a loose run leads, to its end.
ghost use Rattle.std.specs.Prelude.{◌≤◌, IfOk, IfSome};
ghost use Rattle.model.specs.Runs.{last_time};
ghost use Rattle.runs.specs.RunRecords.{IsRun};

use crate::lead_scope::LeadScope;
use crate::led_run::lead;
use loose::transition::LooseTransition;
use model::end::{End, Why};
use runs::run::RunRecord;
use std::alloc::AllocError;

// The process whose turn is too long, where a run ends by one.
fn long_process(end: End) -> Option<u32> {
    match end {
        End::Stopped(Why::TooLong(process)) => Some(process),
        _ => None,
    }
}

/// The run that is led by the transitions of a loose run, which ended so. None where they lead none, or where the run that they lead goes on
/// from there. Fails where memory is refused.
///
/// The limit of time isn't past the last time, as for every run.
pub(crate) fn led_record(
    scope: LeadScope<'_>,
    moves: &[LooseTransition],
    end: End,
) -> Result<Option<RunRecord>, AllocError>
    requires until { IfSome scope.limits.until (λ until. until ≤ last_time) }
    ensures { IfOk result (λ found. IfSome found (IsRun scope.entry.design.now scope.entry.limits)) }
{
    let mut led = match lead(scope, moves)? {
        Some(led) => led,
        None => return Ok(None),
    };
    match led.end_by(scope.limits, long_process(end))? {
        Some(end) => {
            let record = led.told(scope.alloc, scope.limits, end);
            Ok(Some(record))
        }
        None => Ok(None),
    }
}
