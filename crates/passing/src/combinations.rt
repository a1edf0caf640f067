//! The turns of a process on whatever values its inputs may pass to.
ghost use Rattle.std.specs.Prelude.{◌≡◌, ◌≤◌, ◌==◌, ℕ, true, false, ◌++◌, ◌∷◌, [], length, Some, IfOk};
ghost use Rattle.model.specs.Expressions.{value_of};
ghost use Rattle.model.specs.Runs.{last_time};
ghost use Rattle.model.specs.Turns.{contains, short_turn};
ghost use Rattle.model.specs.Turns as turns;
ghost use Rattle.design.specs.Compiled.{design_of};
ghost use Rattle.design.specs.DesignInvariant.{remainder_of_state, IsStateOf};
ghost use Rattle.orders.specs.Apart.{all_given};
ghost use Rattle.footprints.specs.Footprints.{changes_made};
ghost use Rattle.heldways.specs.Passing.{AllPass};
ghost use Rattle.passing.specs.Moves.{passes_by};
ghost use Rattle.passing.specs.Combinations.{chosen_value, AgreesWithChosen, PassFrom};
ghost use Rattle.passing.specs.declared.writes.Tested.TheVariants.{Pass};

use crate::choices::choices_of;
use crate::moves::TrackedMoves;
use crate::writes::{Tested, writes_tested};
use certificates::changes::NotedChange;
use design::{Design, ProcState, RegId};
use logic4::bits::Bits;
use regions::{PlainStore, Store, turn_on};
use std::alloc::{AllocError, Global};
use turn::{FillFault, TurnLog};

/// A process behind its wait, the values and the time of a start, and the moves that are tested from there.
#[derive(Clone, Copy)]
pub(crate) struct TurnScope<'a> {
    pub(crate) alloc: Global,
    pub(crate) design: &'a Design,
    pub(crate) place: &'a ProcState,
    pub(crate) time: u64,
    pub(crate) values: &'a PlainStore,
    pub(crate) moves: &'a TrackedMoves,
}

// Evaluates the turn on these values, makes its writes on others, and tests the changes that they make there.
fn turn_tested(
    scope: TurnScope<'_>,
    log: &mut TurnLog,
    values: &PlainStore,
    made: &mut PlainStore,
) -> Result<Tested, AllocError>
    requires time { scope.time ≤ last_time }
    requires widths { length values.now ≡ length scope.design.now.widths }
    ensures passes { IfOk result (λ t. t ≡ Pass → (p : ℕ) (turn : turns.Turn) → IsStateOf scope.entry.design.now p scope.entry.place.now → short_turn (design_of scope.entry.design.now) p (remainder_of_state scope.entry.design.now scope.entry.place.now) values.now scope.entry.time ≡ Some turn → AllPass (passes_by scope.entry.moves.now) (changes_made made.old turn.writes)) }
    ensures made { IfOk result (λ t. t ≡ Pass → (p : ℕ) (turn : turns.Turn) → IsStateOf scope.entry.design.now p scope.entry.place.now → short_turn (design_of scope.entry.design.now) p (remainder_of_state scope.entry.design.now scope.entry.place.now) values.now scope.entry.time ≡ Some turn → made.new ≡ all_given made.old turn.writes) }
{
    match turn_on(log, scope.design, scope.place, scope.time, values) {
        Ok(()) => Ok(writes_tested(scope.moves, made, log.writes())),
        Err(FillFault::TooLong) => Ok(Tested::Untold),
        Err(FillFault::Memory) => Err(AllocError),
    }
}

// Gives a register a value, where there is one of its width.
fn give(store: &mut PlainStore, register: RegId, value: Bits) -> bool
    ensures given { result ≡ true → value_of store.new register ≡ value }
    ensures others { result ≡ true → (r : ℕ) → (r == register) ≡ false → value_of store.new r ≡ value_of store.old r }
    ensures count { length store.new ≡ length store.old }
{
    let old = match store.value(register) {
        Some(old) => old,
        None => return false,
    };
    if old.width() != value.width() {
        return false;
    }
    store.set(register, value);
    true
}

// The value of a choice: the one before, or that after.
fn value_chosen(choice: &NotedChange, is_after: bool) -> Bits
    ensures { result ≡ chosen_value is_after choice.now }
{
    if is_after {
        choice.after
    } else {
        choice.before
    }
}

// Gives registers the values that were chosen before, or those that were chosen after.
fn give_chosen(store: &mut PlainStore, chosen: &[NotedChange], is_after: bool) -> bool
    ensures agrees { result ≡ true → AgreesWithChosen is_after chosen.now store.new }
    ensures count { length store.new ≡ length store.old }
{
    for place in 0..chosen.len() {
        let choice = chosen[place];
        let value = value_chosen(&choice, is_after);
        if !give(store, choice.register, value) {
            return false;
        }
    }
    true
}

// Tests the turn on the values that were chosen before, and then that on those chosen after.
fn chosen_tested(
    scope: TurnScope<'_>,
    log: &mut TurnLog,
    chosen: &[NotedChange],
) -> Result<Tested, AllocError>
    requires time { scope.time ≤ last_time }
    requires widths { length scope.values.now ≡ length scope.design.now.widths }
    ensures { IfOk result (λ t. t ≡ Pass → PassFrom scope.entry.design.now scope.entry.place.now scope.entry.values.now scope.entry.time (passes_by scope.entry.moves.now) chosen.now []) }
{
    let mut before = scope.values.copy(scope.alloc)?;
    let mut after = scope.values.copy(scope.alloc)?;
    let mut made = scope.values.copy(scope.alloc)?;
    if !give_chosen(&mut before, chosen, false) {
        return Ok(Tested::Untold);
    }
    if !give_chosen(&mut after, chosen, true) {
        return Ok(Tested::Untold);
    }
    match turn_tested(scope, log, &before, &mut made)? {
        Tested::Pass => turn_tested(scope, log, &after, &mut made),
        other => Ok(other),
    }
}

// What was chosen, and one choice more.
fn with_choice(
    alloc: Global,
    chosen: &[NotedChange],
    choice: NotedChange,
) -> Result<Vec<NotedChange>, AllocError>
    ensures { IfOk result (λ longer. longer.items ≡ chosen.now ++ choice ∷ []) }
{
    let mut longer = Vec::from_slice(alloc, chosen)?;
    longer.push(choice)?;
    Ok(longer)
}

/// Tests the turns on whatever values the rest of the inputs may pass to, where values were chosen for the others.
pub(crate) fn rest_tested(
    scope: TurnScope<'_>,
    log: &mut TurnLog,
    chosen: &[NotedChange],
    rest: &[RegId],
) -> Result<Tested, AllocError>
    requires time { scope.time ≤ last_time }
    requires widths { length scope.values.now ≡ length scope.design.now.widths }
    requires tracked { (r : ℕ) → contains rest.now r ≡ true → contains scope.moves.now.tracked.items r ≡ true }
    ensures { IfOk result (λ t. t ≡ Pass → PassFrom scope.entry.design.now scope.entry.place.now scope.entry.values.now scope.entry.time (passes_by scope.entry.moves.now) chosen.now rest.now) }
{
    if rest.is_empty() {
        return chosen_tested(scope, log, chosen);
    }
    let start = match scope.values.value(rest[0]) {
        Some(start) => start,
        None => return Ok(Tested::Untold),
    };
    let found = choices_of(scope.alloc, scope.moves, rest[0], start)?;
    let choices = found.as_slice();
    for place in 0..choices.len() {
        let longer = with_choice(scope.alloc, chosen, choices[place])?;
        match rest_tested(scope, log, &longer, rest.split_at(1).1)? {
            Tested::Pass => {}
            other => return Ok(other),
        }
    }
    Ok(Tested::Pass)
}
