//! Whether no move is one for which a sleeper waits.
ghost use Rattle.std.specs.Prelude.{◌≡◌, true, false, [], slice_index_or};
ghost use Rattle.std.specs.List.{All};
ghost use Rattle.model.specs.Turns.{contains};
ghost use Rattle.model.specs.States.{wakes};
ghost use Rattle.heldways.specs.Passing.{AreDeaf};
ghost use Rattle.passing.specs.Moves.{passes_by};

use crate::moves::TrackedMoves;
use certificates::changes::NotedChange;
use combinational::is_among;
use design::Control;
use logic4::bits::Bits;
use settling::Sleeper;

// Whether an event control may wait for a move: it does, or the widths of its values differ, and it waits for its register.
fn may_wait_for(control: &Control, own: NotedChange) -> bool
    ensures { result ≡ false → wakes control.now own.register own.before own.after ≡ false }
{
    if own.before.width() == own.after.width() {
        control.is_woken(own.register, Bits::edge(own.before, own.after))
    } else {
        control.waits_for(own.register)
    }
}

// Whether each register for which an event control waits is tracked.
fn is_tracked(control: &Control, moves: &TrackedMoves) -> bool
    ensures { result ≡ true → All (λ t. contains moves.now.tracked.items t.1 ≡ true) control.now }
{
    let triggers = control.triggers();
    for place in 0..triggers.len() {
        if !is_among(&moves.tracked, triggers[place].1) {
            return false;
        }
    }
    true
}

// Whether an event control waits for none of these moves.
fn is_quiet(control: &Control, list: &[NotedChange]) -> bool
    ensures { result ≡ true → All (λ own. wakes control.now own.register own.before own.after ≡ false) list.now }
{
    for place in 0..list.len() {
        if may_wait_for(control, list[place]) {
            return false;
        }
    }
    true
}

// Whether an event control waits for no change that passes.
fn is_deaf(control: &Control, moves: &TrackedMoves) -> bool
    ensures { result ≡ true → AreDeaf (passes_by moves.now) control.now }
{
    if !is_tracked(control, moves) {
        return false;
    }
    is_quiet(control, &moves.list)
}

// Whether the event control with a number waits for no change that passes.
fn is_deaf_at(controls: &[Control], number: usize, moves: &TrackedMoves) -> bool
    ensures { result ≡ true → AreDeaf (passes_by moves.now) (slice_index_or controls.now number []) }
{
    match controls.get(number) {
        Some(control) => is_deaf(control, moves),
        None => false,
    }
}

/// Whether no sleeper waits for a change that passes.
pub(crate) fn are_deaf(controls: &[Control], sleepers: &[Sleeper], moves: &TrackedMoves) -> bool
    ensures { result ≡ true → All (λ x. AreDeaf (passes_by moves.now) (slice_index_or controls.now x.control [])) sleepers.now }
{
    for place in 0..sleepers.len() {
        if !is_deaf_at(controls, sleepers[place].control, moves) {
            return false;
        }
    }
    true
}
