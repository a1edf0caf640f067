//! A machine made again by its transitions, and how many bytes one takes.
ghost use Rattle.std.specs.Prelude.{IfOk, OnOk};
ghost use Rattle.orders.specs.Alike.{IsInOrder};
ghost use Rattle.loose.specs.Classes.{class_in};
ghost use Rattle.regions.specs.Machine.{state_at};
ghost use Rattle.lawful.specs.Again.{HasGoneAgain, HasTakenEach};

use crate::search_room::SearchRoom;
use loose::transition::LooseTransition;
use loosesteps::take_loosely;
use loosewalks::copy_of;
use regions::{Continuation, Due, Evaluation, Machine, Update};
use std::alloc::{AllocError, Global};
use turn::TurnLog;

// About how many bytes a machine takes besides its registers, its processes and its events.
const MACHINE_BYTES: usize = 1024;

// About how many bytes a register takes: its value, and the processes that wait for it.
const REGISTER_BYTES: usize = 96;

/// About how many bytes a machine takes.
pub(crate) fn weight(machine: &Machine<'_>) -> usize {
    let state = machine.state();
    let (updates, evaluations) = state.active();
    let updates = updates.len().saturating_add(state.nonblocking().len());
    let evaluations = evaluations.len().saturating_add(state.inactive().len());
    let registers = machine.store().values().len();
    MACHINE_BYTES
        .saturating_add(registers.saturating_mul(REGISTER_BYTES))
        .saturating_add(
            state
                .processes()
                .len()
                .saturating_mul(size_of::<Continuation>()),
        )
        .saturating_add(updates.saturating_mul(size_of::<Update>()))
        .saturating_add(evaluations.saturating_mul(size_of::<Evaluation>()))
        .saturating_add(state.monitor().len().saturating_mul(size_of::<usize>()))
        .saturating_add(
            state
                .future_updates()
                .len()
                .saturating_mul(size_of::<Due<Update>>()),
        )
        .saturating_add(
            state
                .future_evaluations()
                .len()
                .saturating_mul(size_of::<Due<Evaluation>>()),
        )
}

/// Takes transitions, one after another, with a log that the machine is lent. Fails where one of them isn't taken.
pub(crate) fn take_all(
    log: &mut TurnLog,
    machine: &mut Machine<'_>,
    classes: &[u32],
    moves: &[LooseTransition],
) -> Result<(), AllocError>
    requires { IsInOrder (state_at machine.old) }
    ensures { OnOk result (HasTakenEach (class_in classes.now) machine.old moves.now machine.new) }
{
    machine.exchange_log(log);
    for transition in moves {
        match take_loosely(machine, classes, *transition) {
            Ok(()) => {}
            Err(_) => {
                machine.exchange_log(log);
                return Err(AllocError);
            }
        }
    }
    machine.exchange_log(log);
    Ok(())
}

// Takes transitions, and drops their lines.
fn go_again(
    log: &mut TurnLog,
    machine: &mut Machine<'_>,
    classes: &[u32],
    moves: &[LooseTransition],
) -> Result<(), AllocError>
    ensures { OnOk result (HasGoneAgain (class_in classes.now) machine.old moves.now machine.new) }
{
    machine.stands_in_order();
    let taken = take_all(log, machine, classes, moves);
    let _lines = machine.take_lines();
    machine.stands();
    taken
}

/// The machine that these further transitions lead to from where another stands, with no lines left in it. They were taken from there
/// once, so that it fails only where memory is refused.
pub(crate) fn again<'d>(
    alloc: Global,
    room: &mut SearchRoom<'_>,
    from: &Machine<'d>,
    classes: &[u32],
    moves: &[LooseTransition],
) -> Result<Box<Machine<'d>>, AllocError>
    ensures { IfOk result (λ machine. HasGoneAgain (class_in classes.now) from.now moves.now machine.value) }
{
    let mut machine = copy_of(alloc, from)?;
    go_again(&mut room.log, &mut machine, classes, moves)?;
    Ok(machine)
}
