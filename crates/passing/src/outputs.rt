//! Whether outputs of held processes pass through what they may be given.
ghost use Rattle.std.specs.Prelude.{◌≡◌, ◌≤◌, ℕ, true, [], length, IfOk};
ghost use Rattle.model.specs.Runs.{last_time};
ghost use Rattle.model.specs.Turns.{contains};
ghost use Rattle.regions.specs.Machine.{state_at};
ghost use Rattle.passing.specs.Moves.{passes_by};
ghost use Rattle.passing.specs.Combinations.{PassFrom, MemberPasses};
ghost use Rattle.passing.specs.declared.writes.Tested.TheVariants.{Pass};

use crate::choices::choices_of;
use crate::combinations::{TurnScope, rest_tested};
use crate::moves::TrackedMoves;
use crate::writes::Tested;
use combinational::{Network, share};
use design::RegId;
use regions::{Machine, PlainStore};
use settling::{inputs_at, is_any_outside, outputs_at, place_behind};
use std::alloc::{AllocError, Global};
use turn::TurnLog;

// The most combinations of the values of a process's inputs on which its turn is evaluated.
const MOST_COMBINATIONS: usize = 1_024;

/// Processes that are held from a start, the registers that they may still change, and the values at the start.
#[derive(Clone, Copy)]
pub struct HeldOutputs<'a> {
    pub network: &'a Network,
    pub members: &'a [u32],
    pub cone: &'a [RegId],
    pub values: &'a PlainStore,
}

// Whether these inputs may have more combinations of values than are evaluated.
fn are_many(scope: TurnScope<'_>, inputs: &[RegId]) -> Result<bool, AllocError> {
    let mut count = 1usize;
    for input in inputs {
        if let Some(start) = scope.values.value(*input) {
            let choices = choices_of(scope.alloc, scope.moves, *input, start)?;
            count = count.saturating_mul(choices.len());
        }
    }
    Ok(count > MOST_COMBINATIONS)
}

// Tests the turns of a process on whatever values these inputs may pass to, where they aren't too many.
fn inputs_tested(scope: TurnScope<'_>, inputs: &[RegId]) -> Result<Tested, AllocError>
    requires time { scope.time ≤ last_time }
    requires widths { length scope.values.now ≡ length scope.design.now.widths }
    requires tracked { (r : ℕ) → contains inputs.now r ≡ true → contains scope.moves.now.tracked.items r ≡ true }
    ensures { IfOk result (λ t. t ≡ Pass → PassFrom scope.entry.design.now scope.entry.place.now scope.entry.values.now scope.entry.time (passes_by scope.entry.moves.now) [] inputs.now) }
{
    if are_many(scope, inputs)? {
        return Ok(Tested::Untold);
    }
    let mut log = TurnLog::new(scope.alloc);
    rest_tested(scope, &mut log, &[], inputs)
}

// Tests whether the outputs of a process pass through what they may be given, where they are in the cone.
fn member_tested(
    alloc: Global,
    machine: &Machine<'_>,
    held: HeldOutputs<'_>,
    moves: &TrackedMoves,
    process: u32,
) -> Result<Tested, AllocError>
    requires { length held.values.now ≡ length machine.now.code.widths }
    ensures { IfOk result (λ t. t ≡ Pass → MemberPasses machine.now.code held.entry.network.now held.entry.cone.now held.entry.values.now (state_at machine.now).time (passes_by moves.now) process) }
{
    let outputs = outputs_at(held.network, process);
    if !share(outputs, &moves.tracked) {
        return Ok(Tested::Pass);
    }
    if is_any_outside(outputs, held.cone) {
        return Ok(Tested::Pass);
    }
    let inputs = inputs_at(held.network, process);
    if is_any_outside(inputs, &moves.tracked) {
        return Ok(Tested::Untold);
    }
    let place = match place_behind(machine, held.network, process) {
        Some(place) => place,
        None => return Ok(Tested::Untold),
    };
    machine.stands();
    let scope = TurnScope {
        alloc,
        design: machine.design(),
        place: &place,
        time: machine.time(),
        values: held.values,
        moves,
    };
    inputs_tested(scope, inputs)
}

/// Tests whether the outputs of each held process pass through what they may be given.
pub(crate) fn members_tested(
    alloc: Global,
    machine: &Machine<'_>,
    held: HeldOutputs<'_>,
    moves: &TrackedMoves,
) -> Result<Tested, AllocError>
    requires { length held.values.now ≡ length machine.now.code.widths }
    ensures { IfOk result (λ t. t ≡ Pass → (p : ℕ) → contains held.entry.members.now p ≡ true → MemberPasses machine.now.code held.entry.network.now held.entry.cone.now held.entry.values.now (state_at machine.now).time (passes_by moves.now) p) }
{
    for process in held.members {
        match member_tested(alloc, machine, held, moves, *process)? {
            Tested::Pass => {}
            other => return Ok(other),
        }
    }
    Ok(Tested::Pass)
}
