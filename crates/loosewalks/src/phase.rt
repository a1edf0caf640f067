//! A way of a walk through a phase of combinational processes, up to its end.
ghost use Rattle.std.specs.Prelude.{◌≡◌, [], true, IfOk};
ghost use Rattle.model.specs.declared.end.Limits.{Limits};
ghost use Rattle.loose.specs.Classes.{class_in};
ghost use Rattle.regions.specs.Machine.{state_at};
ghost use Rattle.loosewalks.specs.LooseWalking.{HasPassedBy, HasPassedPhase};
ghost use Rattle.combinational.specs.Found.{IsNetworkOf};
ghost use Rattle.loosewalks.specs.Held.{TakesOn};

use crate::active::first_active;
use crate::room::WalkScope;
use crate::taking::take_one;
use combinational::Network;
use loose::transition::LooseTransition;
use regions::{Evaluation, Machine};
use settling::{Begin, settle_since};
use std::alloc::AllocError;
use std::collections::VecDeque;

// The most events of one phase that a walk takes.
const MOST_EVENTS: u32 = 65_536;

/// Takes what is active, one event after another, until nothing is, and appends the transitions to a way. Answers whether it came to that.
pub(crate) fn take_on(
    machine: &mut Machine<'_>,
    classes: &[u32],
    way: &mut Vec<LooseTransition>,
) -> Result<bool, AllocError>
    ensures on { IfOk result (λ all. all ≡ true → TakesOn (class_in classes.now) machine.old way.old.items machine.new way.new.items) }
    ensures over { IfOk result (λ all. all ≡ true → (state_at machine.new).active ≡ []) }
    ensures code { machine.new.code ≡ machine.old.code }
{
    for _ in 0..MOST_EVENTS {
        let named = match first_active(machine, classes) {
            Some(named) => named,
            None => return Ok(true),
        };
        if !take_one(machine, way, named)? {
            return Ok(false);
        }
    }
    Ok(false)
}

// Takes what is active, one event after another, until nothing is. Answers whether it came to that.
fn take_active(
    machine: &mut Machine<'_>,
    classes: &[u32],
    way: &mut Vec<LooseTransition>,
) -> Result<bool, AllocError>
    ensures passed { IfOk result (λ all. all ≡ true → (limits : Limits) → HasPassedBy (class_in classes.now) limits machine.old way.new.items machine.new) }
    ensures code { machine.new.code ≡ machine.old.code }
{
    way.clear();
    let all = take_on(machine, classes, way)?;
    Ok(all)
}

/// Takes what is active in a phase of these members, one event after another, until nothing is. Answers whether it came to that, and the
/// members settle.
pub(crate) fn take_phase(
    scope: WalkScope<'_>,
    members: &[u32],
    way: &mut Vec<LooseTransition>,
    machine: &mut Machine<'_>,
) -> Result<bool, AllocError>
    requires { IsNetworkOf machine.old.code scope.network.now }
    ensures passed { IfOk result (λ all. all ≡ true → (limits : Limits) → HasPassedPhase (class_in scope.entry.rules.classes.now) limits machine.old scope.entry.network.now members.now way.new.items machine.new) }
    ensures code { machine.new.code ≡ machine.old.code }
{
    let begin = Begin::of(scope.alloc, machine)?;
    if !take_active(machine, scope.rules.classes, way)? {
        return Ok(false);
    }
    settle_since(scope.alloc, &begin, machine, scope.network, members)
}

// Whether a process has logic.
fn has_logic(network: &Network, process: u32) -> bool {
    match network.logics.get(process as usize) {
        Some(logic) => logic.is_some(),
        None => false,
    }
}

/// Whether the process of each of these evaluations has logic. In a phase it has, so that most states that are none are told soon.
pub(crate) fn have_logic(network: &Network, evaluations: &VecDeque<Evaluation>) -> bool {
    for at in 0..evaluations.len() {
        let evaluation = evaluations[at];
        if !has_logic(network, evaluation.process) {
            return false;
        }
    }
    true
}
