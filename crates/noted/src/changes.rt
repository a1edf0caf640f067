//! The registers that are written, and the changes that the writes make.
ghost use Rattle.std.specs.Prelude.{◌≡◌, ◌<◌, ◌++◌, map, length, OnOk};
ghost use Rattle.model.specs.Expressions.{value_of};
ghost use Rattle.orders.specs.Apart.{all_given};
ghost use Rattle.footprints.specs.Footprints.{change_made, changes_made};
ghost use Rattle.noted.specs.NotedSteps.{AreWritesOf};

use certificates::changes::{Changes, NotedChange};
use certificates::numbers::MaskedNumbers;
use design::RegId;
use logic4::bits::Bits;
use regions::PlainStore;
use std::alloc::AllocError;

// The value of a register behind some writes: that of the last write of it, or else the one in the store.
fn value_behind(store: &PlainStore, earlier: &[(RegId, Bits)], register: RegId) -> Bits
    requires { register < length store.now }
    ensures { result ≡ value_of (all_given store.now earlier.now) register }
{
    for place in (0..earlier.len()).rev() {
        let write = earlier[place];
        if write.0 == register {
            return write.1;
        }
    }
    match store.value(register) {
        Some(value) => value,
        None => unreachable!(),
    }
}

// Notes the change that a write makes of a register with this value, if it makes one.
fn note_change(
    changes: &mut Changes,
    before: Bits,
    register: RegId,
    after: Bits,
) -> Result<(), AllocError>
    ensures { OnOk result (changes.new ≡ changes.old ++ change_made before (register, after)) }
{
    if before == after {
        return Ok(());
    }
    changes.push(NotedChange {
        register,
        before,
        after,
    })
}

/// Notes the registers that are written.
pub(crate) fn note_writes(
    registers: &mut MaskedNumbers,
    writes: &[(RegId, Bits)],
) -> Result<(), AllocError>
    ensures { OnOk result (registers.new ≡ registers.old ++ map (λ w. w.0) writes.now) }
{
    for write in writes {
        registers.push(write.0)?;
    }
    Ok(())
}

/// Notes the changes that writes make, each of the value behind the writes before it.
pub(crate) fn note_changes(
    changes: &mut Changes,
    store: &PlainStore,
    writes: &[(RegId, Bits)],
) -> Result<(), AllocError>
    requires { AreWritesOf store.now writes.now }
    ensures { OnOk result (changes.new ≡ changes.old ++ changes_made store.now writes.now) }
{
    for place in 0..writes.len() {
        let write = writes[place];
        let before = value_behind(store, writes.split_at(place).0, write.0);
        note_change(changes, before, write.0, write.1)?;
    }
    Ok(())
}
