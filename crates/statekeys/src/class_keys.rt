//! States as bytes that leave the order of updates of different classes out.
ghost use Rattle.std.specs.Prelude.{◌≡◌, ℕ, ◌==◌, ◌++◌, map, filter, OnOk};
ghost use Rattle.std.specs.List.Sorted.{IsNonDecreasingBy};
ghost use Rattle.loose.specs.Classes.{class_in};
ghost use Rattle.statekeys.specs.KeyCodes.{nat_code, pair_code, list_code};
ghost use Rattle.statekeys.specs.Keys.{update_code, at_time};
ghost use Rattle.statekeys.specs.KeyParts.{unnumbered_update, due_assignment};
ghost use Rattle.statekeys.specs.ClassKeys.{IsGrouped, IsClassKey};

use crate::encode::put_slice;
use crate::keys::{
    Scratch, begin_key, put_evaluations, put_future_evaluations, put_processes, put_times,
};
use regions::{Due, PlainStore, State, Update};
use std::alloc::AllocError;
use std::collections::VecDeque;

// The class of a register, and 0 where none is given.
fn class_of(classes: &[u32], register: u32) -> u32
    ensures { result ≡ class_in classes.now register }
{
    match classes.get(register as usize) {
        Some(class) => *class,
        None => 0,
    }
}

// Sorts updates by class. Those of one class keep their order.
fn sort_by_class(updates: &mut Vec<Update>, classes: &[u32]) -> Result<(), AllocError>
    ensures in_order { (c : ℕ) → filter (λ u. class_in classes.now u.register == c) updates.new.items ≡ filter (λ u. class_in classes.now u.register == c) updates.old.items }
    ensures rising { OnOk result (IsNonDecreasingBy (λ u. class_in classes.now u.register) updates.new.items) }
{
    updates.sort_by_key(|update| class_of(classes, update.register))
}

// Lists the items of a queue in their order.
fn list_items<T: Copy>(list: &mut Vec<T>, queue: &VecDeque<T>) -> Result<(), AllocError>
    ensures { OnOk result (list.new.items ≡ queue.now.items) }
{
    let (first, second) = queue.as_slices();
    list.clear();
    list.extend_from_slice(first)?;
    list.extend_from_slice(second)
}

// Appends updates, grouped by class.
fn put_grouped(
    bytes: &mut Vec<u8>,
    grouped: &mut Vec<Update>,
    updates: &VecDeque<Update>,
    classes: &[u32],
) -> Result<(), AllocError>
    ensures grouped { OnOk result (IsGrouped (class_in classes.now) (map unnumbered_update updates.now.items) (map unnumbered_update grouped.new.items)) }
    ensures bytes { OnOk result (bytes.new.items ≡ bytes.old.items ++ list_code update_code (map unnumbered_update grouped.new.items)) }
{
    list_items(grouped, updates)?;
    sort_by_class(grouped, classes)?;
    put_slice(bytes, grouped)
}

// Sorts updates to come by their times, and those of one time by class. Those of one time and one class keep their order.
fn sort_future(future: &mut Vec<Due<Update>>, classes: &[u32]) -> Result<(), AllocError>
    ensures in_order { OnOk result ((time c : ℕ) → filter (λ d. class_in classes.now d.event.register == c) (filter (λ d. d.time == time) future.new.items) ≡ filter (λ d. class_in classes.now d.event.register == c) (filter (λ d. d.time == time) future.old.items)) }
    ensures in_time { OnOk result (IsNonDecreasingBy (λ d. d.time) future.new.items) }
    ensures rising { OnOk result ((time : ℕ) → IsNonDecreasingBy (λ d. class_in classes.now d.event.register) (filter (λ d. d.time == time) future.new.items)) }
{
    future.sort_by_key(|due| class_of(classes, due.event.register))?;
    future.sort_by_key(|due| due.time)?;
    Ok(())
}

// Appends updates to come with their times, which rise; those of each time are grouped by class.
fn put_future_grouped(
    bytes: &mut Vec<u8>,
    grouped: &mut Vec<Due<Update>>,
    future: &VecDeque<Due<Update>>,
    classes: &[u32],
) -> Result<(), AllocError>
    ensures due { OnOk result ((time : ℕ) → IsGrouped (class_in classes.now) (at_time time (map due_assignment future.now.items)) (at_time time (map due_assignment grouped.new.items))) }
    ensures in_time { OnOk result (IsNonDecreasingBy (λ u. u.0) (map due_assignment grouped.new.items)) }
    ensures bytes { OnOk result (bytes.new.items ≡ bytes.old.items ++ list_code (pair_code nat_code update_code) (map due_assignment grouped.new.items)) }
{
    list_items(grouped, future)?;
    sort_future(grouped, classes)?;
    put_slice(bytes, grouped)
}

/// Fills `bytes` with the class key of a state and the values of its registers: its key, with the updates of each list grouped by
/// the classes of their registers. `classes` has the class of each register; it is 0 for those that have none there. What stood in
/// `bytes` is dropped; where memory is refused, a part of the key may stand there.
pub fn class_key(
    bytes: &mut Vec<u8>,
    scratch: &mut Scratch,
    state: &State,
    store: &PlainStore,
    classes: &[u32],
) -> Result<(), AllocError>
    ensures { OnOk result (IsClassKey (class_in classes.now) state.now store.now bytes.new.items) }
{
    let (updates, evaluations) = state.active();
    let future = state.future_evaluations();
    let future_updates = state.future_updates();
    begin_key(bytes, state, store)?;
    put_processes(bytes, state.processes())?;
    put_grouped(bytes, &mut scratch.updates, updates, classes)?;
    put_evaluations(bytes, &mut scratch.active, evaluations)?;
    put_evaluations(bytes, &mut scratch.inactive, state.inactive())?;
    put_grouped(
        bytes,
        &mut scratch.nonblocking,
        state.nonblocking(),
        classes,
    )?;
    put_slice(bytes, state.monitor())?;
    put_times(bytes, &mut scratch.times, future)?;
    put_future_evaluations(bytes, &mut scratch.future, future)?;
    put_future_grouped(bytes, &mut scratch.future_updates, future_updates, classes)?;
    put_times(bytes, &mut scratch.update_times, future_updates)
}
