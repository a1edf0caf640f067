//! A turn in a log of its own.
ghost use Rattle.std.specs.Prelude.{◌≡◌, ◌≤◌, length, MatchResult};
ghost use Rattle.model.specs.Runs.{last_time};
ghost use Rattle.turn.specs.Reads.{GaveAll, KeepsGiven};
ghost use Rattle.turn.specs.TurnAnswers.{IsTurnLog, IsNoRun, reads_so_far};

use crate::log::{FillFault, TurnFault, TurnLog};
use crate::memory::RegReader;
use crate::run::fill_turn;
use design::{Design, ProcState};
use std::alloc::Global;

/// The turn at this time of the process in this state, in a log of its own. A register that the turn hasn't written is read
/// once, at its first use. Whatever comes of the turn, the reader keeps what it gave before, and what no read changes stays.
/// `TooLong`, with the reads so far, where the turn has more than 65,536 counted steps; `Memory` where memory was refused.
pub fn run_turn<R: RegReader>(
    alloc: Global,
    design: &Design,
    state: &ProcState,
    now: u64,
    reader: &mut R,
) -> Result<TurnLog, TurnFault>
    requires now { now ≤ last_time }
    requires registers { length design.now.widths ≤ R.registers }
    ensures turn { MatchResult result (λ log. IsTurnLog design.now state.now now log) (IsNoRun design.now state.now now) }
    ensures gave { MatchResult result (λ log. GaveAll (R.gave reader.new) log.reads) (λ fault. GaveAll (R.gave reader.new) (reads_so_far fault)) }
    ensures keeps { KeepsGiven (R.gave reader.old) (R.gave reader.new) }
    ensures lasting { R.lasting reader.new ≡ R.lasting reader.old }
{
    let mut log = TurnLog::new(alloc);
    match fill_turn(&mut log, design, state, now, reader) {
        Ok(()) => Ok(log),
        Err(FillFault::TooLong) => Err(TurnFault::TooLong(log.into_reads())),
        Err(FillFault::Memory) => Err(TurnFault::Memory),
    }
}
