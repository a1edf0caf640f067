//! Whether a turn would leave every value as it is.
ghost use Rattle.std.specs.Prelude.{◌≡◌, ◌⊎◌, ◌+◌, ◌<◌, ◌==◌, ℕ, true, length, drop, slice_index_or};
ghost use Rattle.std.specs.List.{list_any};
ghost use Rattle.logic4.specs.Vector.{Vector};
ghost use Rattle.model.specs.Expressions.{value_of};
ghost use Rattle.orders.specs.Apart.{all_given};

use design::RegId;
use logic4::bits::Bits;
use regions::PlainStore;

// Whether one of these writes is of a register.
fn is_written(writes: &[(RegId, Bits)], register: RegId) -> bool
    ensures { result ≡ list_any (λ w. w.0 == register) writes.now }
{
    writes.iter().any(|write| write.0 == register)
}

/// Whether a register has this value.
pub(crate) fn has_value(store: &PlainStore, register: RegId, value: &Bits) -> bool
    ensures { result ≡ true → value_of store.now register ≡ value.now }
{
    match store.value(register) {
        Some(old) => old == *value,
        None => false,
    }
}

// Whether the write at a place is of a value that its register has, or another one follows it.
fn leaves_at(store: &PlainStore, writes: &[(RegId, Bits)], place: usize) -> bool
    requires { place < length writes.now }
    ensures { result ≡ true → (d : ℕ × Vector) → (list_any (λ w. w.0 == (slice_index_or writes.now place d).0) (drop (place + 1) writes.now) ≡ true) ⊎ (value_of store.now (slice_index_or writes.now place d).0 ≡ (slice_index_or writes.now place d).1) }
{
    let write = &writes[place];
    is_written(writes.split_at(place + 1).1, write.0) || has_value(store, write.0, &write.1)
}

/// Whether writes, made in order, leave every register with the value that it has.
pub(crate) fn leaves_values(store: &PlainStore, writes: &[(RegId, Bits)]) -> bool
    ensures { result ≡ true → all_given store.now writes.now ≡ store.now }
{
    for place in 0..writes.len() {
        if !leaves_at(store, writes, place) {
            return false;
        }
    }
    true
}
