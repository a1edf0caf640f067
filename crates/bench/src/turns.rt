//! A turn of 60,003 counted steps, evaluated and not applied.

ghost use Rattle.std.specs.Prelude.{◌≡◌, length};

use crate::sources::{design_of, push_adds};
use crate::timing::{How, Measure, Stopwatch, Unit, tell};
use design::Design;
use regions::{PlainStore, turn_on};
use std::io;
use turn::TurnLog;

/// The first turn of a design's first process, in a log that earlier turns may have grown.
fn turn(
    rt: &HostRuntime,
    log: &mut TurnLog,
    design: &Design,
    store: &PlainStore,
) -> io::Result<Measure>
    requires { length store.now ≡ length design.now.widths }
{
    if design.processes() == 0 {
        return Ok(Measure::NONE);
    }
    let clock = Stopwatch::start(rt);
    match turn_on(log, design, &design.first(0), 0, store) {
        Ok(()) => Ok(clock.stop(rt, u64::from(log.count()))),
        Err(_) => Err(io::Error::from(io::ErrorKind::InvalidData)),
    }
}

/// The fastest of several turns.
fn least_turn(rt: &HostRuntime, how: How, design: &Design) -> io::Result<Measure> {
    let store = PlainStore::new(rt.alloc(), design)?;
    let mut log = TurnLog::new(rt.alloc());
    let mut least = Measure::SLOWEST;
    for _run in 0..how.runs() {
        least = least.least(turn(rt, &mut log, design, &store)?);
    }
    Ok(least)
}

/// Measures the steps of a loop with 20,000 turns.
pub fn measure(rt: &HostRuntime, how: How) -> io::Result<()> {
    let mut source = String::new(rt.alloc());
    push_adds(&mut source, how.size(20_000, 10))?;
    let design = design_of(rt.alloc(), source.as_str())?;
    let least = least_turn(rt, how, &design)?;
    tell(
        rt,
        how,
        "counted steps of one turn",
        Unit::MillionASecond,
        least,
    )
}
