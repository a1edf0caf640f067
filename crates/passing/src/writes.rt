//! Whether the changes pass that writes make.
ghost use Rattle.std.specs.Prelude.{◌≡◌};
ghost use Rattle.model.specs.Expressions.{value_of};
ghost use Rattle.orders.specs.Apart.{given, all_given};
ghost use Rattle.footprints.specs.Footprints.{change_made, changes_made};
ghost use Rattle.heldways.specs.Passing.{AllPass};
ghost use Rattle.passing.specs.Moves.{passes_by};
ghost use Rattle.passing.specs.declared.writes.Tested.TheVariants.{Pass};

use crate::moves::TrackedMoves;
use certificates::changes::NotedChange;
use design::RegId;
use logic4::bits::Bits;
use regions::{PlainStore, Store};

/// What a test of changes comes to.
#[derive(Clone, Copy)]
pub(crate) enum Tested {
    /// They pass.
    Pass,
    /// This one doesn't.
    Barred(NotedChange),
    /// It isn't told.
    Untold,
}

// Makes a write, and tests the change that it makes.
fn write_tested(
    moves: &TrackedMoves,
    store: &mut PlainStore,
    register: RegId,
    value: Bits,
) -> Tested
    ensures passes { result ≡ Pass → AllPass (passes_by moves.now) (change_made (value_of store.old register) (register, value)) }
    ensures made { result ≡ Pass → store.new ≡ given store.old (register, value) }
{
    let old = match store.value(register) {
        Some(old) => old,
        None => return Tested::Untold,
    };
    if old == value {
        return Tested::Pass;
    }
    if !moves.allow(register, old, value) {
        return Tested::Barred(NotedChange {
            register,
            before: old,
            after: value,
        });
    }
    if old.width() != value.width() {
        return Tested::Untold;
    }
    store.set(register, value);
    Tested::Pass
}

/// Makes writes, one after another, and tests the changes that they make.
pub(crate) fn writes_tested(
    moves: &TrackedMoves,
    store: &mut PlainStore,
    writes: &[(RegId, Bits)],
) -> Tested
    ensures passes { result ≡ Pass → AllPass (passes_by moves.now) (changes_made store.old writes.now) }
    ensures made { result ≡ Pass → store.new ≡ all_given store.old writes.now }
{
    for place in 0..writes.len() {
        let write = writes[place];
        match write_tested(moves, store, write.0, write.1) {
            Tested::Pass => {}
            other => return other,
        }
    }
    Tested::Pass
}
