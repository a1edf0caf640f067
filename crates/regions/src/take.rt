//! How a machine takes an entry: its turn, if it is one, is evaluated, and then it is applied.
ghost use Rattle.std.specs.Prelude.{◌≡◌, ◌+◌, ◌<◌, map, Some, None, if◌then◌else◌, string_bytes, IsOk, IfErr, OnOk, OnErr, Err, MatchResult, option_copied};
ghost use Rattle.design.specs.DesignInvariant.{remainder_of_state};
ghost use Rattle.regions.specs.Queue.{state_of};
ghost use Rattle.regions.specs.StepLogs.{IsTurnGiven, IsTaken};
ghost use Rattle.regions.specs.MadeEvents.{made_events};
ghost use Rattle.regions.specs.Evaluations.{made_event};
ghost use Rattle.regions.specs.Machine.{most_entries, Stands, IsStop, IsEvaluated, IsUnevaluated};
ghost use Rattle.regions.specs.Refused.{fault_of};

use crate::machine::TakeFault;
use crate::reader::turn_on;
use crate::state::{ApplyFault, Made, State};
use crate::store::PlainStore;
use design::Design;
use model::entry::Entry;
use turn::{FillFault, TurnLog};

/// Fills a log with the turn that takes an event, where the rules permit it, and answers its process. The event is looked for first
/// at a place among the active evaluations.
pub fn log_turn(
    log: &mut TurnLog,
    number: u64,
    near: usize,
    design: &Design,
    state: &State,
    store: &PlainStore,
) -> Result<Option<u32>, FillFault>
    requires stands { Stands design.now state.now store.now }
    ensures { MatchResult result (IsEvaluated design.now (state_of (remainder_of_state design.now) store.now state.now) number log.new) (IsUnevaluated design.now (state_of (remainder_of_state design.now) store.now state.now) number) }
{
    if state.is_finished() {
        return Ok(None);
    }
    match state.evaluation_near(number, near) {
        Some((process, place)) => {
            let now = state.time();
            match turn_on(log, design, place, now, store) {
                Ok(()) => Ok(Some(process)),
                Err(fault) => Err(fault),
            }
        }
        None => Ok(None),
    }
}

/// Fills a log with the turn of an entry, where it is a turn that the rules permit. Answers whether it is one. Its event is looked
/// for first at a place among the active evaluations.
pub fn log_entry(
    log: &mut TurnLog,
    design: &Design,
    state: &State,
    store: &PlainStore,
    entry: Entry,
    near: usize,
) -> Result<bool, TakeFault>
    requires stands { Stands design.now state.now store.now }
    ensures { MatchResult result (λ has. IsTurnGiven design.now (state_of (remainder_of_state design.now) store.now state.now) entry (if has then Some log.new else None)) (IsStop design.now (state_of (remainder_of_state design.now) store.now state.now) entry) }
{
    match entry {
        Entry::Turn(number) => match log_turn(log, number, near, design, state, store) {
            Ok(found) => Ok(found.is_some()),
            Err(FillFault::TooLong) => Err(TakeFault::TooLong),
            Err(FillFault::Memory) => Err(TakeFault::Memory),
        },
        _ => Ok(false),
    }
}

/// The log, where it was filled.
pub fn log_where(has: bool, log: &TurnLog) -> Option<&TurnLog>
    ensures { option_copied result ≡ (if has then Some log.entry.now else None) }
{
    if has { Some(log) } else { None }
}

// What is told of an entry that was applied, or wasn't.
fn told(applied: Result<(), ApplyFault>) -> Result<(), TakeFault>
    ensures { MatchResult applied (λ nothing. IsOk result) (λ fault. result ≡ Err (fault_of fault)) }
{
    match applied {
        Ok(()) => Ok(()),
        Err(ApplyFault::Refused(refusal)) => Err(TakeFault::Refused(refusal)),
        Err(ApplyFault::Memory) => Err(TakeFault::ApplyMemory),
    }
}

/// Applies an entry, a turn with its log.
pub fn apply(
    design: &Design,
    state: &mut State,
    store: &mut PlainStore,
    made: &mut Made,
    entry: Entry,
    log: Option<&TurnLog>,
) -> Result<(), TakeFault>
    requires stands { Stands design.now state.old store.old }
    requires few { state.old.entries < most_entries }
    requires given { IsTurnGiven design.now (state_of (remainder_of_state design.now) store.old state.old) entry (option_copied log) }
    ensures stands { Stands design.now state.new store.new }
    ensures taken { OnOk result (IsTaken design.now (state_of (remainder_of_state design.now) store.old state.old) (string_bytes made.old.lines) entry (state_of (remainder_of_state design.now) store.new state.new) (string_bytes made.new.lines)) }
    ensures entries { OnOk result (state.new.entries ≡ state.old.entries + 1) }
    ensures made { OnOk result (map made_event made.new.events.items ≡ made_events state.old state.new) }
    ensures stop { IfErr result (IsStop design.now (state_of (remainder_of_state design.now) store.old state.old) entry) }
    ensures err { OnErr result ((state.new ≡ state.old) × (store.new ≡ store.old) × (string_bytes made.new.lines ≡ string_bytes made.old.lines)) }
{
    let applied = state.apply(design, store, entry, log, made);
    told(applied)
}
