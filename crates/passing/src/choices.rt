//! What a register may pass to, as moves.
ghost use Rattle.std.specs.Prelude.{◌≡◌, true, IfOk, OnOk};
ghost use Rattle.std.specs.List.{All, Contains};
ghost use Rattle.logic4.specs.Vector.{Vector};
ghost use Rattle.model.specs.Turns.{contains};
ghost use Rattle.certificates.specs.declared.changes.NotedChange.{NotedChange as Move};
ghost use Rattle.passing.specs.Moves.{passes_by, move_of, HaveAfter};

use crate::moves::TrackedMoves;
use certificates::changes::NotedChange;
use design::RegId;
use logic4::bits::Bits;
use std::alloc::{AllocError, Global};

// Adds the value to which a move goes, if it is one of a register.
fn add_after(own: NotedChange, register: RegId, values: &mut Vec<Bits>) -> Result<(), AllocError>
    ensures kept { OnOk result ((v : Vector) → Contains values.old.items v → Contains values.new.items v) }
    ensures added { OnOk result (own.register ≡ register → Contains values.new.items own.after) }
{
    if own.register != register {
        return Ok(());
    }
    values.push(own.after)?;
    Ok(())
}

// The values to which a register may pass from a start: that one, and those to which its moves go.
fn values_of(
    alloc: Global,
    list: &[NotedChange],
    register: RegId,
    start: Bits,
) -> Result<Vec<Bits>, AllocError>
    ensures start { IfOk result (λ values. Contains values.items start) }
    ensures after { IfOk result (λ values. HaveAfter list.now register values.items) }
{
    let mut values = Vec::new(alloc);
    values.push(start)?;
    for place in 0..list.len() {
        add_after(list[place], register, &mut values)?;
    }
    Ok(values)
}

// Adds a move, where it is one by which its register may pass.
fn add_choice(
    moves: &TrackedMoves,
    choice: NotedChange,
    choices: &mut Vec<NotedChange>,
) -> Result<(), AllocError>
    ensures kept { OnOk result ((c : Move) → Contains choices.old.items c → Contains choices.new.items c) }
    ensures added { OnOk result (passes_by moves.now choice.register choice.before choice.after ≡ true → Contains choices.new.items choice) }
{
    if !moves.allow(choice.register, choice.before, choice.after) {
        return Ok(());
    }
    choices.push(choice)?;
    Ok(())
}

// Adds the moves of a register from one value to each of these to which it may pass.
fn add_choices(
    moves: &TrackedMoves,
    register: RegId,
    before: Bits,
    values: &[Bits],
    choices: &mut Vec<NotedChange>,
) -> Result<(), AllocError>
    ensures kept { OnOk result ((c : Move) → Contains choices.old.items c → Contains choices.new.items c) }
    ensures added { OnOk result (All (λ after. passes_by moves.now register before after ≡ true → Contains choices.new.items (move_of register before after)) values.now) }
{
    for place in 0..values.len() {
        let choice = NotedChange {
            register,
            before,
            after: values[place],
        };
        add_choice(moves, choice, choices)?;
    }
    Ok(())
}

// Adds the moves of a register from each of these values to those of them to which it may pass from there.
fn add_all(
    moves: &TrackedMoves,
    register: RegId,
    values: &[Bits],
    choices: &mut Vec<NotedChange>,
) -> Result<(), AllocError>
    ensures { OnOk result (All (λ before. All (λ after. passes_by moves.now register before after ≡ true → Contains choices.new.items (move_of register before after)) values.now) values.now) }
{
    for place in 0..values.len() {
        add_choices(moves, register, values[place], values, choices)?;
    }
    Ok(())
}

/// What a register that is tracked may pass to from a start, with all to which it may pass from there: each as a move. Fails where memory is
/// refused.
pub(crate) fn choices_of(
    alloc: Global,
    moves: &TrackedMoves,
    register: RegId,
    start: Bits,
) -> Result<Vec<NotedChange>, AllocError>
    ensures { IfOk result (λ choices. contains moves.now.tracked.items register ≡ true → (u v : Vector) → passes_by moves.now register start u ≡ true → passes_by moves.now register u v ≡ true → Contains choices.items (move_of register u v)) }
{
    let values = values_of(alloc, &moves.list, register, start)?;
    let mut choices = Vec::new(alloc);
    add_all(moves, register, &values, &mut choices)?;
    Ok(choices)
}
