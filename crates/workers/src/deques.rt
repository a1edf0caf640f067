//! Where a worker's tickets come from, and where they go.
ghost use Rattle.std.specs.Prelude.{◌≡◌, ◌+◌, ◌++◌, [], ◌∷◌, map, length, IfSome, IfNone};
ghost use Rattle.std.specs.List.{sum_by};
ghost use Rattle.eventpool.specs.Ends.{thief_card};
ghost use Rattle.workers.specs.Keeping.{StoleOne, StoleNone};
ghost use Rattle.workers.specs.WorkerInvariant.{Goes, LookFor, OverUnless, OnlyPuts};
ghost use Rattle.workers.specs.declared.next_round.NextRound.TheVariants.{GoesOn};

use crate::next_round::NextRound;
use commitgate::{Gate, Naming, Seat, Ticket};
use crossbeam_utils::Backoff;
use eventpool::{Owner, Stolen, Thief};
use std::sync::Wait;
use std::thread;

// Steals the first ticket of a deque. Where another is quicker it tries again.
fn steal_one<T: Drop, R: Wait>(rt: &R, thief: &mut Thief<T>) -> Option<T>
    ensures end { thief_card thief.new ≡ thief_card thief.old }
    ensures some { IfSome result (λ _. length thief.new.stolen ≡ length thief.old.stolen + 1) }
    ensures none { IfNone result (length thief.new.stolen ≡ length thief.old.stolen) }
    ensures got { IfSome result (λ x. thief.new.stolen ≡ thief.old.stolen ++ x ∷ []) }
    ensures same { IfNone result (thief.new.stolen ≡ thief.old.stolen) }
{
    for _ in rt.forever() {
        match thief.steal() {
            Stolen::One(ticket) => return Some(ticket),
            Stolen::Empty => return None,
            Stolen::Again => thread::yield_now(),
        }
    }
    unreachable!()
}

// Steals a ticket from the first deque that has one, in the order of the thieves.
fn steal<T: Drop, R: Wait>(rt: &R, row: &mut Vec<Thief<T>>) -> Option<T>
    ensures ends { map thief_card row.new.items ≡ map thief_card row.old.items }
    ensures some { IfSome result (λ _. sum_by (λ t. length t.stolen) row.new.items ≡ sum_by (λ t. length t.stolen) row.old.items + 1) }
    ensures none { IfNone result (sum_by (λ t. length t.stolen) row.new.items ≡ sum_by (λ t. length t.stolen) row.old.items) }
    ensures got { IfSome result (λ x. StoleOne row.old.items row.new.items x) }
    ensures same { IfNone result (StoleNone row.old.items row.new.items) }
{
    for i in 0..row.len() {
        if let Some(ticket) = steal_one(rt, &mut row[i]) {
            return Some(ticket);
        }
    }
    None
}

/// The first ticket of a worker's own deque or, where that is empty, the first of another's.
pub(crate) fn take<T: Drop, R: Wait>(
    rt: &R,
    owner: &mut Owner<T>,
    row: &mut Vec<Thief<T>>,
) -> Option<T>
    ensures { LookFor owner.old row.old.items owner.new row.new.items result }
{
    match owner.take() {
        Some(ticket) => Some(ticket),
        None => steal(rt, row),
    }
}

/// Looks for a ticket again, so often, where there are other workers. The one whose entry made events active may
/// still be putting their tickets, and a worker that rests isn't woken before the next entry.
pub(crate) fn take_soon<T: Drop, R: Wait>(
    rt: &R,
    owner: &mut Owner<T>,
    row: &mut Vec<Thief<T>>,
    looks: u32,
) -> Option<T>
    ensures { LookFor owner.old row.old.items owner.new row.new.items result }
{
    if row.is_empty() {
        return None;
    }
    let backoff = Backoff::new();
    for _ in 0..looks {
        backoff.snooze();
        if let Some(ticket) = take(rt, owner, row) {
            return Some(ticket);
        }
    }
    None
}

/// Puts a ticket into a worker's own deque. Where that can't grow the run is stopped. Answers whether the worker goes on.
pub(crate) fn put<K: Naming, R: Wait>(
    rt: &R,
    gate: &Gate<'_, K>,
    seat: &mut Seat<K>,
    owner: &mut Owner<Ticket<K>>,
    ticket: Ticket<K>,
) -> NextRound
    ensures goes { Goes 0 0 seat.old seat.new }
    ensures kept { result ≡ GoesOn → seat.new ≡ seat.old }
    ensures puts { OnlyPuts owner.old owner.new }
    ensures all { result ≡ GoesOn → owner.new.put ≡ owner.old.put ++ ticket ∷ [] }
    ensures over { OverUnless K.named result seat.new }
{
    match owner.put(ticket) {
        Ok(()) => NextRound::GoesOn,
        Err(_) => {
            gate.stop(rt, seat);
            NextRound::Ends
        }
    }
}

/// Puts new tickets into a worker's own deque, in order. The seat keeps the room of their list.
pub(crate) fn put_all<K: Naming, R: Wait>(
    rt: &R,
    gate: &Gate<'_, K>,
    seat: &mut Seat<K>,
    owner: &mut Owner<Ticket<K>>,
    mut tickets: Vec<Ticket<K>>,
) -> NextRound
    ensures goes { Goes 0 0 seat.old seat.new }
    ensures kept { result ≡ GoesOn → seat.new ≡ seat.old }
    ensures puts { OnlyPuts owner.old owner.new }
    ensures all { result ≡ GoesOn → owner.new.put ≡ owner.old.put ++ tickets.items }
    ensures over { OverUnless K.named result seat.new }
{
    if tickets.is_empty() {
        return NextRound::GoesOn;
    }
    for ticket in tickets.drain(..) {
        match put(rt, gate, seat, owner, ticket) {
            NextRound::GoesOn => {}
            NextRound::Ends => return NextRound::Ends,
        }
    }
    seat.keep_room(tickets);
    NextRound::GoesOn
}
