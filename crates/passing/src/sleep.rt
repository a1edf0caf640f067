//! Whether processes sleep through steps of others, and through all that outputs may be given meanwhile.
ghost use Rattle.std.specs.Prelude.{◌≡◌, true, not, length, IfOk};
ghost use Rattle.std.specs.List.{All, list_any};
ghost use Rattle.heldways.specs.Passing.{AllPass};
ghost use Rattle.regions.specs.Machine.{state_at};
ghost use Rattle.passing.specs.Moves.{passes_by};
ghost use Rattle.passing.specs.SleepThroughNotes.{SleepThroughNotes};
ghost use Rattle.passing.specs.declared.writes.Tested.TheVariants.{Pass};

use crate::find::moves_of;
use crate::moves::TrackedMoves;
use crate::outputs::{HeldOutputs, members_tested};
use crate::sleepers::are_deaf;
use crate::writes::Tested;
use certificates::changes::NotedChange;
use certificates::note::StepNote;
use regions::Machine;
use settling::Sleeper;
use std::alloc::{AllocError, Global};

// The most moves that are found missing.
const MOST_MISSING: u32 = 64;

// Whether one of these changes is none that passes.
fn is_any_barred(moves: &TrackedMoves, changes: &[NotedChange]) -> bool
    ensures { result ≡ list_any (λ c. not (passes_by moves.now c.register c.before c.after)) changes.now }
{
    changes.iter().any(|change| !moves.allow(change.register, change.before, change.after))
}

// Whether each change that a note has passes.
fn note_passes(moves: &TrackedMoves, note: &StepNote) -> bool
    ensures { result ≡ true → AllPass (passes_by moves.now) note.now.changes }
{
    !is_any_barred(moves, note.changes.as_slice())
}

// Whether each change that is noted passes.
fn notes_pass(moves: &TrackedMoves, notes: &[StepNote]) -> bool
    ensures { result ≡ true → All (λ n. AllPass (passes_by moves.now) n.changes) notes.now }
{
    for place in 0..notes.len() {
        if !note_passes(moves, &notes[place]) {
            return false;
        }
    }
    true
}

// Tests whether these moves say that the sleepers sleep.
fn moves_tested(
    alloc: Global,
    machine: &Machine<'_>,
    held: HeldOutputs<'_>,
    sleepers: &[Sleeper],
    notes: &[StepNote],
    moves: &TrackedMoves,
) -> Result<Tested, AllocError>
    requires { length held.values.now ≡ length machine.now.code.widths }
    ensures { IfOk result (λ t. t ≡ Pass → SleepThroughNotes machine.now.code held.entry.network.now held.entry.members.now held.entry.cone.now held.entry.values.now (state_at machine.now).time notes.now sleepers.now) }
{
    if !moves.are_closed() {
        return Ok(Tested::Untold);
    }
    if !notes_pass(moves, notes) {
        return Ok(Tested::Untold);
    }
    let controls = machine.design().event_controls();
    if !are_deaf(controls, sleepers, moves) {
        return Ok(Tested::Untold);
    }
    members_tested(alloc, machine, held, moves)
}

/// Whether sleepers sleep through steps of others with these notes, and through all that the outputs of held processes may be given
/// meanwhile: no change that passes is one for which they wait. `false` says that it isn't told. Fails where memory is refused.
pub fn sleep_through(
    alloc: Global,
    machine: &Machine<'_>,
    held: HeldOutputs<'_>,
    sleepers: &[Sleeper],
    notes: &[StepNote],
) -> Result<bool, AllocError>
    requires { length held.values.now ≡ length machine.now.code.widths }
    ensures { IfOk result (λ all. all ≡ true → SleepThroughNotes machine.now.code held.entry.network.now held.entry.members.now held.entry.cone.now held.entry.values.now (state_at machine.now).time notes.now sleepers.now) }
{
    if sleepers.is_empty() {
        return Ok(true);
    }
    let controls = machine.design().event_controls();
    let mut moves = match moves_of(alloc, controls, held, sleepers, notes)? {
        Some(moves) => moves,
        None => return Ok(false),
    };
    for _ in 0..MOST_MISSING {
        match moves_tested(alloc, machine, held, sleepers, notes, &moves)? {
            Tested::Pass => return Ok(true),
            Tested::Barred(change) => {
                if !moves.add(change)? {
                    return Ok(false);
                }
            }
            Tested::Untold => return Ok(false),
        }
    }
    Ok(false)
}
