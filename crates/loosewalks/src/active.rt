//! The entry that a walk takes next, with its transition.
ghost use Rattle.std.specs.Prelude.{◌≡◌, [], None, IfSome};
ghost use Rattle.model.specs.declared.entry.Entry.TheVariants as entries;
ghost use Rattle.model.specs.Turns.{contains};
ghost use Rattle.loose.specs.Classes.{class_in};
ghost use Rattle.loose.specs.declared.transition.LooseTransition.TheVariants.{Process, FirstOf};
ghost use Rattle.regions.specs.Machine.{state_at};
ghost use Rattle.heldmoves.specs.WithoutHeld.{without_held};
ghost use Rattle.loosewalks.specs.LooseWalking.{IsEventStep, IsOnlyStep};
ghost use Rattle.certificates.specs.CertificateLaws.{NobodyWaits};
ghost use Rattle.noted.specs.NotedSteps.{IsOfOther};
ghost use Rattle.loosewalks.specs.Held.{IsUnheldOf, AllAreHeld};

use combinational::is_among;
use design::RegId;
use loose::transition::LooseTransition;
use model::end::Limits;
use model::entry::Entry;
use regions::{Evaluation, Machine, Update};
use runs::halting::is_timely;
use std::collections::VecDeque;

/// An entry with its transition.
#[derive(Clone, Copy)]
pub(crate) struct NamedEntry {
    pub(crate) entry: Entry,
    pub(crate) transition: LooseTransition,
}

// The class of a register.
fn class_of(classes: &[u32], register: RegId) -> u32
    ensures { result ≡ class_in classes.now register }
{
    match classes.get(register as usize) {
        Some(class) => *class,
        None => 0,
    }
}

// The entry that takes an active update.
fn update_entry(classes: &[u32], update: Update) -> NamedEntry
    ensures entry { result.entry ≡ entries.Update update.number }
    ensures transition { result.transition ≡ FirstOf (class_in classes.now update.register) }
{
    NamedEntry {
        entry: Entry::Update(update.number),
        transition: LooseTransition::FirstOf(class_of(classes, update.register)),
    }
}

// The entry that takes an active evaluation.
fn turn_entry(evaluation: Evaluation) -> NamedEntry
    ensures entry { result.entry ≡ entries.Turn evaluation.number }
    ensures transition { result.transition ≡ Process evaluation.process }
{
    NamedEntry {
        entry: Entry::Turn(evaluation.number),
        transition: LooseTransition::Process(evaluation.process),
    }
}

/// The first update that is active, or else the first evaluation.
pub(crate) fn first_active(machine: &Machine<'_>, classes: &[u32]) -> Option<NamedEntry>
    ensures event { IfSome result (IsEventStep (class_in classes.now) (state_at machine.now)) }
    ensures none { result ≡ None → (state_at machine.now).active ≡ [] }
{
    let (updates, evaluations) = machine.state().active();
    match updates.front() {
        Some(update) => return Some(update_entry(classes, *update)),
        None => {}
    }
    match evaluations.front() {
        Some(evaluation) => Some(turn_entry(*evaluation)),
        None => None,
    }
}

// The first of these evaluations that is of a process that isn't held.
fn first_unheld(evaluations: &VecDeque<Evaluation>, held: &[u32]) -> Option<Evaluation>
    ensures found { IfSome result (IsUnheldOf held.now evaluations.now.items) }
    ensures none { result ≡ None → AllAreHeld held.now evaluations.now.items }
{
    for at in 0..evaluations.len() {
        let evaluation = evaluations[at];
        if !is_among(held, evaluation.process) {
            return Some(evaluation);
        }
    }
    None
}

/// The first update that is active, or else the first evaluation of a process that isn't held.
pub(crate) fn first_other(
    machine: &Machine<'_>,
    classes: &[u32],
    held: &[u32],
) -> Option<NamedEntry>
    ensures event { IfSome result (IsEventStep (class_in classes.now) (state_at machine.now)) }
    ensures other { IfSome result (λ named. IsOfOther (contains held.now) (state_at machine.now) named.entry) }
    ensures none { result ≡ None → NobodyWaits (class_in classes.now) (without_held (contains held.now) (state_at machine.now)) }
{
    machine.stands_in_order();
    let (updates, evaluations) = machine.state().active();
    match updates.front() {
        Some(update) => return Some(update_entry(classes, *update)),
        None => {}
    }
    match first_unheld(evaluations, held) {
        Some(evaluation) => Some(turn_entry(evaluation)),
        None => None,
    }
}

// The change of the regions that is due, where it is in time: nothing else may be taken where nothing is active.
fn only_change(limits: Limits, machine: &Machine<'_>, classes: &[u32]) -> Option<NamedEntry>
    requires idle { machine.now.core.active ≡ [] }
    ensures { IfSome result (IsOnlyStep (class_in classes.now) limits (state_at machine.now)) }
{
    match machine.due() {
        Some(change) => {
            if is_timely(limits, change) {
                Some(NamedEntry {
                    entry: change,
                    transition: LooseTransition::Change(change),
                })
            } else {
                None
            }
        }
        None => None,
    }
}

/// The only entry that may be taken, where there is just one, and that one is in time.
pub(crate) fn only_entry(
    limits: Limits,
    machine: &Machine<'_>,
    classes: &[u32],
) -> Option<NamedEntry>
    ensures { IfSome result (IsOnlyStep (class_in classes.now) limits (state_at machine.now)) }
{
    if machine.is_finished() {
        return None;
    }
    let (updates, evaluations) = machine.state().active();
    if evaluations.is_empty() {
        if updates.is_empty() {
            return only_change(limits, machine, classes);
        }
        if updates.len() == 1 {
            return Some(update_entry(classes, updates[0]));
        }
        return None;
    }
    if updates.is_empty() && evaluations.len() == 1 {
        return Some(turn_entry(evaluations[0]));
    }
    None
}
