//! A whole turn.
ghost use Rattle.std.specs.Prelude.{◌≡◌, ◌≤◌, length, MatchResult};
ghost use Rattle.model.specs.Runs.{last_time};
ghost use Rattle.turn.specs.Reads.{GaveAll, KeepsGiven};
ghost use Rattle.turn.specs.declared.log.FillFault.TheVariants as fault_of;
ghost use Rattle.turn.specs.TurnLogs.{log_of};
ghost use Rattle.turn.specs.TurnAnswers.{IsTurnLog, IsNoTurn};

use crate::log::{FillFault, Suspend, TurnLog};
use crate::machine::Step;
use crate::memory::RegReader;
use crate::running_turn::RunningTurn;
use design::{Design, ProcState};

/// The most counted steps of a turn.
const MOST_STEPS: u32 = 65_536;

// How a turn ended.
#[derive(Clone, Copy)]
struct TurnEnd {
    suspend: Suspend,
    finish: bool,
    count: u32,
}

// The turn, and how it ended.
fn run<R: RegReader>(
    running: &mut RunningTurn,
    design: &Design,
    state: &ProcState,
    now: u64,
    reader: &mut R,
) -> Result<TurnEnd, FillFault>
    requires registers { length design.now.widths ≤ R.registers }
    requires now { now ≤ last_time }
    ensures turn { MatchResult result (λ e. IsTurnLog design.now state.now now (log_of running.new e.suspend e.finish e.count)) (IsNoTurn design.now state.now now running.new.memory.reads.entries) }
    ensures gave { MatchResult result (λ _. GaveAll (R.gave reader.new) running.new.memory.reads.entries) (λ fault. fault ≡ fault_of.TooLong → GaveAll (R.gave reader.new) running.new.memory.reads.entries) }
    ensures keeps { KeepsGiven (R.gave reader.old) (R.gave reader.new) }
    ensures lasting { R.lasting reader.new ≡ R.lasting reader.old }
{
    let nodes = design.nodes();
    let ops = design.ops();
    let shown = design.shown();
    running.begin(state, design.registers())?;
    for count in 0..MOST_STEPS {
        match running.take(nodes, ops, shown, now, reader)? {
            Step::Goes => {}
            Step::Over => {
                return Ok(TurnEnd {
                    suspend: Suspend::Ended,
                    finish: false,
                    count,
                });
            }
            Step::Ends { suspend, finish } => {
                return Ok(TurnEnd {
                    suspend,
                    finish,
                    count: count + 1,
                });
            }
        }
    }
    if running.is_over(nodes) {
        Ok(TurnEnd {
            suspend: Suspend::Ended,
            finish: false,
            count: MOST_STEPS,
        })
    } else {
        Err(FillFault::TooLong)
    }
}

/// Fills a log with the turn at this time of the process in this state. A register that the turn hasn't written is read
/// once, at its first use. Whatever comes of the turn, the reader keeps what it gave before, and what no read changes stays.
/// `TooLong` where the turn has more than 65,536 counted steps, and then the log has its reads so far; `Memory` where the log
/// couldn't grow. What the log held before changes nothing but the time that it takes.
pub fn fill_turn<R: RegReader>(
    log: &mut TurnLog,
    design: &Design,
    state: &ProcState,
    now: u64,
    reader: &mut R,
) -> Result<(), FillFault>
    requires now { now ≤ last_time }
    requires registers { length design.now.widths ≤ R.registers }
    ensures turn { MatchResult result (λ _. IsTurnLog design.now state.now now log.new) (IsNoTurn design.now state.now now log.new.reads) }
    ensures gave { MatchResult result (λ _. GaveAll (R.gave reader.new) log.new.reads) (λ fault. fault ≡ fault_of.TooLong → GaveAll (R.gave reader.new) log.new.reads) }
    ensures keeps { KeepsGiven (R.gave reader.old) (R.gave reader.new) }
    ensures lasting { R.lasting reader.new ≡ R.lasting reader.old }
{
    let ending = run(&mut log.running, design, state, now, reader)?;
    log.suspend = ending.suspend;
    log.finish = ending.finish;
    log.count = ending.count;
    Ok(())
}
