//! What the run of a journal comes to.

ghost use Rattle.std.specs.Prelude.{◌≡◌, [], IfErr, IfOk, OnOk, length};
ghost use Rattle.replay.specs.JournalFaults.{IsFaultOf};
ghost use Rattle.replay.specs.Replays.{IsBehind};
ghost use Rattle.differences.specs.CompareFaults.{IsRunFaultOf};
ghost use Rattle.differences.specs.Summaries.{IsSummaryOf};

use crate::fault::RunFault;
use design::Design;
use explain::push_end;
use model::entry::Entry;
use progress::{Progress, tell_entries};
use regions::Machine;
use replay::{ReplayFault, start, take_next};
use std::alloc::Global;

/// What the run of a journal comes to: the lines that it prints, in words how it stands at its end, the time there, whether it
/// met `$finish`, and whether an event is left.
#[derive(Drop)]
pub(crate) struct RunSummary {
    pub(crate) lines: String,
    pub(crate) ending: Vec<u8>,
    pub(crate) time: u64,
    pub(crate) finished: bool,
    pub(crate) quiet: bool,
}

// Takes all entries of a journal, from the start of its run on.
fn take_all<P: Progress>(
    machine: &mut Machine<'_>,
    entries: &[Entry],
    progress: &P,
) -> Result<(), ReplayFault>
    requires start { IsBehind [] machine.old }
    requires none { machine.old.core.entries ≡ 0 }
    ensures code { machine.new.code ≡ machine.old.code }
    ensures behind { OnOk result (IsBehind entries.now machine.new) }
    ensures entries { OnOk result (machine.new.core.entries ≡ length entries.now) }
    ensures fault { IfErr result (IsFaultOf machine.old.code entries.now) }
{
    for at in 0..entries.len() {
        take_next(machine, entries, at)?;
        tell_entries(progress, machine.state().entries(), machine.time());
    }
    Ok(())
}

// What the run of a journal comes to, by a machine at its start. It only borrows the machine: one that is owned at an early return makes
// a long proof.
fn run_summary<P: Progress>(
    alloc: Global,
    machine: &mut Machine<'_>,
    entries: &[Entry],
    progress: &P,
) -> Result<RunSummary, RunFault>
    requires start { IsBehind [] machine.old }
    requires none { machine.old.core.entries ≡ 0 }
    ensures summary { IfOk result (IsSummaryOf machine.old.code entries.now) }
    ensures fault { IfErr result (IsRunFaultOf machine.old.code entries.now) }
{
    match take_all(machine, entries, progress) {
        Ok(()) => {}
        Err(fault) => return Err(RunFault::Replay(fault)),
    }
    let mut ending = Vec::new(alloc);
    match push_end(alloc, &mut ending, machine) {
        Ok(()) => {}
        Err(_) => return Err(RunFault::Memory),
    }
    let time = machine.time();
    let finished = machine.is_finished();
    let quiet = machine.is_quiet();
    Ok(RunSummary {
        lines: machine.take_lines(),
        ending,
        time,
        finished,
        quiet,
    })
}

/// What the run of a journal comes to. `progress` is told how many entries are taken.
pub(crate) fn summary<P: Progress>(
    alloc: Global,
    design: &Design,
    entries: &[Entry],
    progress: &P,
) -> Result<RunSummary, RunFault>
    ensures summary { IfOk result (IsSummaryOf design.now entries.now) }
    ensures fault { IfErr result (IsRunFaultOf design.now entries.now) }
{
    let mut machine = match start(alloc, design) {
        Ok(machine) => machine,
        Err(fault) => return Err(RunFault::Replay(fault)),
    };
    let told = run_summary(alloc, &mut machine, entries, progress);
    drop(machine);
    told
}
