//! Whether two runs have the entries of a conflict in both orders.
ghost use Rattle.std.specs.Prelude.{IfOk, IsTrue};
ghost use Rattle.accesses.specs.Roles.{HasBothOrders};
ghost use Rattle.design.specs.Compiled.{design_of};

use crate::conflicts::{Conflict, Turning};
use accesses::ExchangeClaim;
use design::Design;
use runs::run::RunRecord;
use std::alloc::{AllocError, Global};

// How many entries a second run has between the one that it takes in a place and the first run's entry of that place.
fn count_between(one: &RunRecord, other: &RunRecord, place: usize) -> usize {
    let last = match one.journal.get(place).copied() {
        Some(last) => last,
        None => return 0,
    };
    let from = place.saturating_add(1);
    for at in from..other.journal.len() {
        if other.journal[at] == last {
            return at - from;
        }
    }
    0
}

/// Whether the two runs of a conflict have its entries in both orders.
pub fn has_both_orders(
    alloc: Global,
    design: &Design,
    conflict: &Conflict,
    original: &RunRecord,
    exchanged: &RunRecord,
) -> Result<bool, AllocError>
    ensures { IfOk result (λ has. IsTrue has → HasBothOrders (design_of design.now) original.now.journal.items exchanged.now.journal.items conflict.now.pair.site conflict.now.pair.time conflict.now.pair.first conflict.now.pair.second) }
{
    let claim = ExchangeClaim {
        alloc,
        design,
        journal: &original.journal,
        exchanged: &exchanged.journal,
        pair: conflict.pair,
    };
    let before = conflict.before.steps.count();
    match conflict.turning {
        Turning::Swapped => claim.is_confirmed(before),
        Turning::CutOff => claim.is_cut_off(before),
        Turning::HeldBack(_) => {
            let between = count_between(original, exchanged, conflict.pair.earlier);
            claim.is_held_back(between)
        }
    }
}
