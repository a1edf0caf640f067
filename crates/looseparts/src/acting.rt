//! Actors who wait, and the step of one.
ghost use Rattle.std.specs.Prelude.{◌≡◌, ◌⊎◌, false, true, IfOk, OnOk};
ghost use Rattle.std.specs.List.{All, Contains};
ghost use Rattle.orders.specs.Alike.{IsInOrder};
ghost use Rattle.loose.specs.Classes.{class_in};
ghost use Rattle.regions.specs.Machine.{state_at};
ghost use Rattle.footprints.specs.Moves.{IsWaiting};
ghost use Rattle.loose.specs.declared.transition.LooseTransition.{LooseTransition as Actor};
ghost use Rattle.certificates.specs.Coming.{is_same, wakes_actor};
ghost use Rattle.looseparts.specs.StandTogether.{concern};
ghost use Rattle.looseparts.specs.ActorSteps.{IsActorStep};

use crate::room::PartsRoom;
use certificates::note::StepNote;
use loose::transition::LooseTransition;
use loosesteps::{entry_for, list_choices};
use noted::{NotedFault, take_noted};
use regions::{Machine, TakeFault};
use std::alloc::AllocError;
use turn::TurnLog;

// Whether these are the same actor.
fn are_same(one: LooseTransition, other: LooseTransition) -> bool
    ensures { result ≡ is_same one other }
{
    match (one, other) {
        (LooseTransition::Process(p), LooseTransition::Process(q)) => p == q,
        (LooseTransition::FirstOf(c), LooseTransition::FirstOf(d)) => c == d,
        _ => false,
    }
}

// Whether a step wakes an actor, by its note.
fn is_woken(note: &StepNote, actor: LooseTransition) -> bool
    ensures { result ≡ wakes_actor note.now actor }
{
    match actor {
        LooseTransition::Process(process) => note.woken.contains(process),
        _ => false,
    }
}

/// Whether one of these notes is of an actor, or says that he is woken.
pub(crate) fn do_concern(notes: &[StepNote], actor: LooseTransition) -> bool
    ensures { result ≡ concern notes.now actor }
{
    notes.iter().any(|note| are_same(note.owner, actor) || is_woken(note, actor))
}

/// Whether these notes concern each of some actors.
pub(crate) fn do_concern_all(notes: &[StepNote], group: &[LooseTransition]) -> bool
    ensures { result ≡ true → All (λ a. concern notes.now a ≡ true) group.now }
{
    for actor in group {
        if !do_concern(notes, *actor) {
            return false;
        }
    }
    true
}

// Adds an actor, where he is one of a group, or was woken by a step.
fn add_wanted(
    next: &mut Vec<LooseTransition>,
    group: &[LooseTransition],
    note: &StepNote,
    actor: LooseTransition,
) -> Result<(), AllocError>
    ensures wanted { OnOk result (Contains group.now actor ⊎ (wakes_actor note.now actor ≡ true) → Contains next.new.items actor) }
    ensures kept { OnOk result ((a : Actor) → Contains next.old.items a → Contains next.new.items a) }
{
    if group.contains(&actor) {
        next.push(actor)?;
        return Ok(());
    }
    if is_woken(note, actor) {
        next.push(actor)?;
    }
    Ok(())
}

// Whether notes concern an actor who is none of a group.
fn is_left_out(group: &[LooseTransition], notes: &[StepNote], actor: LooseTransition) -> bool
    ensures { result ≡ false → concern notes.now actor ≡ true → Contains group.now actor }
{
    if group.contains(&actor) {
        return false;
    }
    do_concern(notes, actor)
}

/// The actors who wait of a group, and of those whom the step woke whose note stands in the room. Nobody where the run has finished.
pub(crate) fn waiting_of(
    room: &mut PartsRoom<'_>,
    machine: &Machine<'_>,
    classes: &[u32],
    group: &[LooseTransition],
) -> Result<Vec<LooseTransition>, AllocError>
    requires { IsInOrder (state_at machine.now) }
    ensures next { IfOk result (λ next. machine.now.core.finished ≡ false → (a : Actor) → IsWaiting (class_in classes.now) (state_at machine.now) a → Contains group.now a ⊎ (wakes_actor room.old.note a ≡ true) → Contains next.items a) }
    ensures note { room.new.note ≡ room.old.note }
{
    list_choices(&mut room.choices, machine, classes)?;
    let mut next = Vec::new(room.alloc);
    for choice in &room.choices {
        add_wanted(&mut next, group, &room.note, *choice)?;
    }
    Ok(next)
}

/// Whether nobody waits whom these notes concern, but the actors of a group. What is active is listed in `choices`.
pub(crate) fn is_closed(
    choices: &mut Vec<LooseTransition>,
    machine: &Machine<'_>,
    classes: &[u32],
    group: &[LooseTransition],
    notes: &[StepNote],
) -> Result<bool, AllocError>
    requires order { IsInOrder (state_at machine.now) }
    requires going { machine.now.core.finished ≡ false }
    ensures { IfOk result (λ closed. closed ≡ true → (a : Actor) → IsWaiting (class_in classes.now) (state_at machine.now) a → concern notes.now a ≡ true → Contains group.now a) }
{
    list_choices(choices, machine, classes)?;
    for choice in choices.iter() {
        if is_left_out(group, notes, *choice) {
            return Ok(false);
        }
    }
    Ok(true)
}

// Tells that an entry wasn't taken with a note. Fails where memory was refused.
fn not_noted(fault: NotedFault) -> Result<bool, AllocError>
    ensures { IfOk result (λ taken. taken ≡ false) }
{
    match fault {
        NotedFault::NoteMemory => Err(AllocError),
        NotedFault::NotTaken(TakeFault::ApplyMemory) => Err(AllocError),
        NotedFault::NotTaken(TakeFault::Memory) => Err(AllocError),
        _ => Ok(false),
    }
}

// Takes the event of an actor, and fills a note with what the step has to do with others. Answers whether it did. The turn is evaluated
// into a log.
fn take_actor(
    machine: &mut Machine<'_>,
    classes: &[u32],
    actor: LooseTransition,
    log: &mut TurnLog,
    note: &mut StepNote,
) -> Result<bool, AllocError>
    requires { IsInOrder (state_at machine.old) }
    ensures taken { IfOk result (λ done. done ≡ true → IsActorStep (class_in classes.now) machine.old actor note.new machine.new) }
    ensures code { machine.new.code ≡ machine.old.code }
{
    let entry = match entry_for(machine, classes, actor) {
        Ok(entry) => entry,
        Err(_) => return Ok(false),
    };
    match take_noted(machine, classes, entry, log, note) {
        Ok(()) => Ok(true),
        Err(fault) => not_noted(fault),
    }
}

/// Takes the event of an actor, where more steps may be taken. Its note, which says what the step has to do with others, stands in the
/// room then. Answers whether it did.
pub(crate) fn take_step(
    room: &mut PartsRoom<'_>,
    classes: &[u32],
    machine: &mut Machine<'_>,
    actor: LooseTransition,
) -> Result<bool, AllocError>
    requires { IsInOrder (state_at machine.old) }
    ensures taken { IfOk result (λ done. done ≡ true → IsActorStep (class_in classes.now) machine.old actor room.new.note machine.new) }
    ensures code { machine.new.code ≡ machine.old.code }
{
    if !room.count_step() {
        return Ok(false);
    }
    take_actor(machine, classes, actor, &mut room.log, &mut room.note)
}
