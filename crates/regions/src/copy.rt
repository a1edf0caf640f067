//! A copy of the regions, which goes on apart from them.
ghost use Rattle.std.specs.Prelude.{◌≡◌, ◌+◌, ◌++◌, ◌≤◌, length, IfOk, OnErr, OnOk};
ghost use Rattle.std.specs.Vec.{vec_capacity};
ghost use Rattle.std.specs.VecDeque.{deque_len, deque_capacity};

use crate::queue::Queue;
use std::alloc::{AllocError, Global};
use std::collections::VecDeque;
use std::sync::Arc;

// The same elements, with room for so many more.
fn copy_deque<T: Copy>(
    alloc: Global,
    deque: &VecDeque<T>,
    room: usize,
) -> Result<VecDeque<T>, AllocError>
    ensures { IfOk result (λ copy. copy.items ≡ deque.now.items) }
{
    let (front, back) = deque.as_slices();
    let mut copy = Vec::with_capacity(alloc, deque.len().saturating_add(room))?;
    copy.extend_from_slice(front)?;
    copy.extend_from_slice(back)?;
    Ok(VecDeque::from(copy))
}

// Makes room for as many elements as others are.
pub(crate) fn reserve_for<T>(list: &mut Vec<T>, others: &[T]) -> Result<(), AllocError>
    ensures items { list.new.items ≡ list.old.items }
    ensures room { OnOk result (length others.now ≤ vec_capacity list.new) }
{
    list.reserve(others.len().saturating_sub(list.len()))
}

// Gives a list other elements, for which it has room.
pub(crate) fn refill<T: Copy>(list: &mut Vec<T>, others: &[T])
    requires { length others.now ≤ vec_capacity list.old }
    ensures { list.new.items ≡ others.now }
{
    list.clear();
    match list.extend_from_slice(others) {
        Ok(()) => {}
        Err(_) => unreachable!(),
    }
}

// Makes room for as many elements as another deque has.
fn reserve_deque_for<T>(deque: &mut VecDeque<T>, other: &VecDeque<T>) -> Result<(), AllocError>
    ensures items { deque.new.items ≡ deque.old.items }
    ensures room { OnOk result (deque_len other.now ≤ deque_capacity deque.new) }
{
    deque.reserve(other.len().saturating_sub(deque.len()))
}

// Appends elements to a deque, which has room for them.
fn push_all<T: Copy>(deque: &mut VecDeque<T>, elements: &[T])
    requires { deque_len deque.old + length elements.now ≤ deque_capacity deque.old }
    ensures items { deque.new.items ≡ deque.old.items ++ elements.now }
    ensures len { deque_len deque.new ≡ deque_len deque.old + length elements.now }
    ensures capacity { deque_capacity deque.new ≡ deque_capacity deque.old }
{
    for element in elements {
        deque.push_back_reserved(*element);
    }
}

// Gives a deque the elements of another, for which it has room.
fn refill_deque<T: Copy>(deque: &mut VecDeque<T>, other: &VecDeque<T>)
    requires { deque_len other.now ≤ deque_capacity deque.old }
    ensures { deque.new.items ≡ other.now.items }
{
    let (front, back) = other.as_slices();
    deque.clear();
    push_all(deque, front);
    push_all(deque, back);
}

impl Queue {
    ghost use Rattle.regions.specs.Copies.{HasMoreRoom, HasRoomFor, IsCopy};

    // The same regions.
    pub fn copy(&self, alloc: Global) -> Result<Queue, AllocError>
        ensures { IfOk result (IsCopy self.now) }
    {
        Ok(Queue {
            time: self.time,
            entries: self.entries,
            next_event: self.next_event,
            finished: self.finished,
            shared: Arc::try_clone(&self.shared)?,
            processes: Vec::from_slice(alloc, &self.processes)?,
            waiters: Vec::from_slice(alloc, &self.waiters)?,
            updates: copy_deque(alloc, &self.updates, 0)?,
            evaluations: copy_deque(alloc, &self.evaluations, self.processes.len())?,
            inactive: copy_deque(alloc, &self.inactive, 0)?,
            nonblocking: copy_deque(alloc, &self.nonblocking, 0)?,
            monitor: Vec::from_slice(alloc, &self.monitor)?,
            future_inactive: copy_deque(alloc, &self.future_inactive, 0)?,
            future_nonblocking: copy_deque(alloc, &self.future_nonblocking, 0)?,
        })
    }

    // Makes room for as many events and waiters as another queue has.
    fn reserve_as(&mut self, other: &Queue) -> Result<(), AllocError>
        ensures same { HasMoreRoom self.old self.new }
        ensures room { OnOk result (HasRoomFor other.now self.new) }
    {
        reserve_for(&mut self.processes, &other.processes)?;
        reserve_for(&mut self.waiters, &other.waiters)?;
        reserve_for(&mut self.monitor, &other.monitor)?;
        reserve_deque_for(&mut self.updates, &other.updates)?;
        reserve_deque_for(&mut self.evaluations, &other.evaluations)?;
        reserve_deque_for(&mut self.inactive, &other.inactive)?;
        reserve_deque_for(&mut self.nonblocking, &other.nonblocking)?;
        reserve_deque_for(&mut self.future_inactive, &other.future_inactive)?;
        reserve_deque_for(&mut self.future_nonblocking, &other.future_nonblocking)
    }

    // Becomes the same regions as another queue of the same design, for which there is room.
    fn fill(&mut self, other: &Queue)
        requires room { HasRoomFor other.now self.old }
        requires shared { self.old.shared.value ≡ other.now.shared.value }
        ensures { IsCopy other.now self.new }
    {
        self.time = other.time;
        self.entries = other.entries;
        self.next_event = other.next_event;
        self.finished = other.finished;
        refill(&mut self.processes, &other.processes);
        refill(&mut self.waiters, &other.waiters);
        refill(&mut self.monitor, &other.monitor);
        refill_deque(&mut self.updates, &other.updates);
        refill_deque(&mut self.evaluations, &other.evaluations);
        refill_deque(&mut self.inactive, &other.inactive);
        refill_deque(&mut self.nonblocking, &other.nonblocking);
        refill_deque(&mut self.future_inactive, &other.future_inactive);
        refill_deque(&mut self.future_nonblocking, &other.future_nonblocking);
    }

    // Becomes the same regions as another queue, in the memory that it has. After an `Err` it is the same as before.
    pub fn copy_from(&mut self, other: &Queue) -> Result<(), AllocError>
        ensures copied { OnOk result (IsCopy other.now self.new) }
        ensures err { OnErr result (IsCopy self.old self.new) }
    {
        self.reserve_as(other)?;
        let shared = Arc::try_clone(&other.shared)?;
        self.shared = shared;
        self.fill(other);
        Ok(())
    }
}
