//! Entries that a machine takes for a walk.
ghost use Rattle.std.specs.Prelude.{◌≡◌, ◌+◌, ◌∷◌, [], ◌++◌, false, true, IfOk};
ghost use Rattle.regions.specs.Machine.{state_at};
ghost use Rattle.regions.specs.StepLogs.{IsTaken};

use crate::active::NamedEntry;
use loose::transition::LooseTransition;
use regions::{Machine, TakeFault};
use std::alloc::AllocError;

/// Tells that an entry wasn't taken. Fails where memory was refused.
pub(crate) fn not_taken(fault: TakeFault) -> Result<bool, AllocError>
    ensures { IfOk result (λ taken. taken ≡ false) }
{
    match fault {
        TakeFault::ApplyMemory => Err(AllocError),
        TakeFault::Memory => Err(AllocError),
        _ => Ok(false),
    }
}

/// Takes an entry, and appends its transition to a way. Answers whether it did.
pub(crate) fn take_one(
    machine: &mut Machine<'_>,
    way: &mut Vec<LooseTransition>,
    named: NamedEntry,
) -> Result<bool, AllocError>
    ensures taken { IfOk result (λ done. done ≡ true → IsTaken machine.old.code (state_at machine.old) machine.old.lines named.entry (state_at machine.new) machine.new.lines) }
    ensures count { IfOk result (λ done. done ≡ true → machine.new.core.entries ≡ machine.old.core.entries + 1) }
    ensures way { IfOk result (λ done. done ≡ true → way.new.items ≡ way.old.items ++ named.transition ∷ []) }
    ensures code { machine.new.code ≡ machine.old.code }
{
    way.push(named.transition)?;
    match machine.take(named.entry) {
        Ok(()) => Ok(true),
        Err(fault) => {
            let taken = not_taken(fault)?;
            Ok(taken)
        }
    }
}
