//! The loose transitions that may be taken now.
ghost use Rattle.std.specs.Prelude.{◌≡◌, ◌≢◌, ◌↔◌, [], ◌∷◌, ◌++◌, map, IfOk, OnOk};
ghost use Rattle.std.specs.List.{AllPairs, Contains};
ghost use Rattle.orders.specs.Alike.{IsInOrder};
ghost use Rattle.loose.specs.declared.transition.LooseTransition.{LooseTransition};
ghost use Rattle.regions.specs.Machine.{state_at};
ghost use Rattle.loose.specs.Classes.{class_in};
ghost use Rattle.loosesteps.specs.Choices.{AreGathered, due_choices, update_transition, evaluation_transition};
ghost use Rattle.loosesteps.specs.LooselyTaken.{MayBeTaken};

use crate::steps::class_of;
use loose::transition::LooseTransition;
use model::entry::Entry;
use regions::{Evaluation, Machine, Update};
use std::alloc::{AllocError, Global};
use std::collections::VecDeque;

// Adds a transition, unless it is there.
fn add_once(
    choices: &mut Vec<LooseTransition>,
    transition: LooseTransition,
) -> Result<(), AllocError>
    ensures { OnOk result (AreGathered choices.old.items (transition ∷ []) choices.new.items) }
{
    if choices.contains(&transition) {
        return Ok(());
    }
    choices.push(transition)?;
    Ok(())
}

// Adds the transition of each update, once.
fn add_updates(
    choices: &mut Vec<LooseTransition>,
    updates: &VecDeque<Update>,
    classes: &[u32],
) -> Result<(), AllocError>
    ensures { OnOk result (AreGathered choices.old.items (map (update_transition (class_in classes.now)) updates.now.items) choices.new.items) }
{
    for update in updates {
        add_once(
            choices,
            LooseTransition::FirstOf(class_of(classes, update.register)),
        )?;
    }
    Ok(())
}

// Adds the turn of each evaluation's process, once.
fn add_evaluations(
    choices: &mut Vec<LooseTransition>,
    evaluations: &VecDeque<Evaluation>,
) -> Result<(), AllocError>
    ensures { OnOk result (AreGathered choices.old.items (map evaluation_transition evaluations.now.items) choices.new.items) }
{
    for evaluation in evaluations {
        add_once(choices, LooseTransition::Process(evaluation.process))?;
    }
    Ok(())
}

// Appends the change of the regions that is due, where one is.
fn add_change(choices: &mut Vec<LooseTransition>, due: Option<Entry>) -> Result<(), AllocError>
    ensures { OnOk result (choices.new.items ≡ choices.old.items ++ due_choices due) }
{
    let Some(change) = due else {
        return Ok(());
    };
    choices.push(LooseTransition::Change(change))?;
    Ok(())
}

/// Lists the loose transitions that may be taken now (11.4), each once: the turn of each process that has an active evaluation, and the
/// first update of each class that has an active one; or, where nothing is active, the change of the regions that is due. What stood in the
/// list is dropped. Fails where memory is refused, and the list may have some of them then.
pub fn list_choices(
    choices: &mut Vec<LooseTransition>,
    machine: &Machine<'_>,
    classes: &[u32],
) -> Result<(), AllocError>
    requires { IsInOrder (state_at machine.now) }
    ensures permitted { OnOk result ((transition : LooseTransition) → Contains choices.new.items transition ↔ MayBeTaken (class_in classes.now) (state_at machine.now) transition) }
    ensures once { OnOk result (AllPairs ◌≢◌ choices.new.items) }
{
    choices.clear();
    if machine.is_finished() {
        return Ok(());
    }
    let (updates, evaluations) = machine.state().active();
    add_updates(choices, updates, classes)?;
    add_evaluations(choices, evaluations)?;
    add_change(choices, machine.due())?;
    Ok(())
}

/// The same transitions, in a list of their own. Fails where memory is refused.
pub fn loose_choices(
    alloc: Global,
    machine: &Machine<'_>,
    classes: &[u32],
) -> Result<Vec<LooseTransition>, AllocError>
    requires { IsInOrder (state_at machine.now) }
    ensures permitted { IfOk result (λ v. (transition : LooseTransition) → Contains v.items transition ↔ MayBeTaken (class_in classes.now) (state_at machine.now) transition) }
    ensures once { IfOk result (λ v. AllPairs ◌≢◌ v.items) }
{
    let mut choices = Vec::new(alloc);
    list_choices(&mut choices, machine, classes)?;
    Ok(choices)
}
