//! A node made again by its transitions before an observer.
ghost use Rattle.std.specs.Prelude.{◌≡◌, ◌++◌, [], IfOk, OnOk};
ghost use Rattle.orders.specs.Alike.{IsInOrder};
ghost use Rattle.loose.specs.Classes.{class_in};
ghost use Rattle.regions.specs.Machine.{state_at};
ghost use Rattle.looseruns.specs.ObservedMoves.{seen_at_move};
ghost use Rattle.observers.specs.Observers.{observer_of};
ghost use Rattle.lawful.specs.ArrangedNodes.{HasSeenAgain, HasSeenEach, HasSeenOne, IsMadeAgain};

use crate::arranged_ways::registers_of;
use crate::node::LooseNode;
use crate::observed_ways::passes_time;
use crate::search_room::SearchRoom;
use loose::transition::LooseTransition;
use loosesteps::take_loosely;
use loosewalks::copy_of;
use observers::{Observing, push_seen};
use regions::Machine;
use std::alloc::{AllocError, Global};
use turn::TurnLog;

/// By what transitions are taken and seen: the classes of the registers, and what is observed.
#[derive(Clone, Copy)]
pub(crate) struct SeeingScope<'a> {
    pub(crate) classes: &'a [u32],
    pub(crate) observing: &'a Observing,
}

// Moves the lines that a machine printed so far behind a text.
fn tell_lines(machine: &mut Machine<'_>, text: &mut Vec<u8>) -> Result<(), AllocError>
    ensures same { machine.new ≡ record machine.old { lines = [] } }
    ensures told { OnOk result (text.new.items ≡ text.old.items ++ machine.old.lines) }
{
    let lines = machine.take_lines();
    text.extend_from_slice(lines.as_bytes())
}

// Tells before a transition what was printed and is seen where time passes at it.
fn tell_before(
    machine: &mut Machine<'_>,
    observing: &Observing,
    text: &mut Vec<u8>,
    transition: LooseTransition,
) -> Result<(), AllocError>
    ensures same { machine.new ≡ record machine.old { lines = machine.new.lines } }
    ensures told { OnOk result (text.new.items ++ machine.new.lines ≡ (text.old.items ++ machine.old.lines) ++ seen_at_move (observer_of observing.now) (state_at machine.old) transition) }
{
    if !passes_time(transition) {
        return Ok(());
    }
    tell_lines(machine, text)?;
    push_seen(text, observing, machine)
}

// Takes a transition, and tells what is seen before it. Fails where it isn't taken.
fn take_seen(
    machine: &mut Machine<'_>,
    seeing: SeeingScope<'_>,
    text: &mut Vec<u8>,
    transition: LooseTransition,
) -> Result<(), AllocError>
    requires { IsInOrder (state_at machine.old) }
    ensures order { IsInOrder (state_at machine.new) }
    ensures taken { OnOk result (HasSeenOne (class_in seeing.entry.classes.now) (observer_of seeing.entry.observing.now) machine.old text.old.items transition machine.new text.new.items) }
{
    tell_before(machine, seeing.observing, text, transition)?;
    match take_loosely(machine, seeing.classes, transition) {
        Ok(()) => Ok(()),
        Err(_) => Err(AllocError),
    }
}

// Takes transitions, one after another, and tells what is printed and seen at them.
fn take_all_seen(
    machine: &mut Machine<'_>,
    seeing: SeeingScope<'_>,
    text: &mut Vec<u8>,
    moves: &[LooseTransition],
) -> Result<(), AllocError>
    requires order { IsInOrder (state_at machine.old) }
    requires silent { machine.old.lines ≡ [] }
    requires untold { text.old.items ≡ [] }
    ensures seen { OnOk result (HasSeenEach (class_in seeing.entry.classes.now) (observer_of seeing.entry.observing.now) machine.old moves.now machine.new text.new.items) }
    ensures silent { OnOk result (machine.new.lines ≡ []) }
{
    for transition in moves {
        take_seen(machine, seeing, text, *transition)?;
    }
    tell_lines(machine, text)?;
    Ok(())
}

// Takes transitions with a log that the machine is lent, and tells what is printed and seen at them.
fn go_seen(
    log: &mut TurnLog,
    machine: &mut Machine<'_>,
    seeing: SeeingScope<'_>,
    text: &mut Vec<u8>,
    moves: &[LooseTransition],
) -> Result<(), AllocError>
    requires { text.old.items ≡ [] }
    ensures { OnOk result (HasSeenAgain (class_in seeing.entry.classes.now) (observer_of seeing.entry.observing.now) machine.old moves.now machine.new text.new.items) }
{
    machine.stands_in_order();
    let _before = machine.take_lines();
    machine.exchange_log(log);
    let taken = take_all_seen(machine, seeing, text, moves);
    machine.exchange_log(log);
    machine.stands();
    taken
}

/// The node that these further transitions lead to from another before an observer. They were taken from there once, so that it fails only where
/// memory is refused.
pub(crate) fn seen_again<'d>(
    alloc: Global,
    room: &mut SearchRoom<'_>,
    seeing: SeeingScope<'_>,
    from: &LooseNode<'d>,
    moves: &[LooseTransition],
) -> Result<LooseNode<'d>, AllocError>
    ensures { IfOk result (IsMadeAgain (class_in seeing.entry.classes.now) seeing.entry.observing.now from.now moves.now) }
{
    let mut tail = from.tail.copied(alloc)?;
    let mut text = Vec::new(alloc);
    let mut machine = copy_of(alloc, &from.machine)?;
    go_seen(&mut room.log, &mut machine, seeing, &mut text, moves)?;
    let _done = tail.read(alloc, registers_of(seeing.observing), &text)?;
    Ok(LooseNode { machine, tail })
}
