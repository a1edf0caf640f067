// Pools of deques with the tickets of a gate: a step at a time, and by four threads at once.
ghost use Rattle.std.specs.Prelude.{◌≡◌, map, IfSome};
ghost use Rattle.eventpool.specs.Ends.{owner_card, thief_card};
ghost use Rattle.eventpool.specs.Pools.{cards_of, IsPool};

use crate::claims::{fail, holds};
use crate::course::{Seats, design_of, last};
use crate::pair::{Opened, SeatPair, play_source};
use commitgate::{Blank, Gate, Naming, Ticket};
use eventpool::{Owner, Pool, PutFault, Stolen, Tally, Thief, close};
use hoard::Hoard;
use model::end::{End, Limits};
use std::alloc::{AllocError, Global};
use std::marker::Brand;
use std::process::Abort;
use std::sync::Wait;
use std::thread;
use std::thread::Threads;

// The ticket that a put gave back, where it was refused.
fn refused<K: Naming>(answer: Result<(), (Ticket<K>, PutFault)>) -> Option<Ticket<K>> {
    match answer {
        Ok(()) => None,
        Err((ticket, _)) => Some(ticket),
    }
}

fn put_at<K: Naming>(
    owners: &mut Vec<Owner<Ticket<K>>>,
    d: usize,
    ticket: Ticket<K>,
) -> Option<Ticket<K>>
    ensures { map owner_card owners.new.items ≡ map owner_card owners.old.items }
{
    if d < owners.len() {
        return refused(owners[d].put(ticket));
    }
    Some(ticket)
}

fn take_at<K: Naming>(owners: &mut Vec<Owner<Ticket<K>>>, d: usize) -> Option<u64>
    ensures { map owner_card owners.new.items ≡ map owner_card owners.old.items }
{
    if d < owners.len() {
        return Some(owners[d].take()?.event());
    }
    None
}

fn steal_in<K: Naming>(row: &mut Vec<Thief<Ticket<K>>>, i: usize) -> Stolen<Ticket<K>>
    ensures { map thief_card row.new.items ≡ map thief_card row.old.items }
{
    if i < row.len() {
        return row[i].steal();
    }
    Stolen::Again
}

fn steal_at<K: Naming>(
    rows: &mut Vec<Vec<Thief<Ticket<K>>>>,
    w: usize,
    i: usize,
) -> Stolen<Ticket<K>>
    ensures { cards_of rows.new.items ≡ cards_of rows.old.items }
{
    if w < rows.len() {
        return steal_in(&mut rows[w], i);
    }
    Stolen::Again
}

fn is_one<K: Naming>(stolen: &Stolen<Ticket<K>>, event: u64) -> bool {
    match stolen {
        Stolen::One(ticket) => ticket.event() == event,
        _ => false,
    }
}

fn is_empty<K: Naming>(stolen: &Stolen<Ticket<K>>) -> bool {
    match stolen {
        Stolen::Empty => true,
        _ => false,
    }
}

// Puts tickets into the deque d. Whether none is refused.
fn fill<K: Naming>(owners: &mut Vec<Owner<Ticket<K>>>, d: usize, tickets: Vec<Ticket<K>>) -> bool
    ensures { map owner_card owners.new.items ≡ map owner_card owners.old.items }
{
    let mut all = true;
    for ticket in tickets {
        let back = put_at(owners, d, ticket);
        all = all && back.is_none();
    }
    all
}

// So many tickets were put, taken and stolen, and none is left.
fn assert_tally(rt: &impl Abort, tally: &Tally, puts: u128, takes: u128, steals: u128) {
    holds(rt, tally.puts() == puts, "other puts");
    holds(rt, tally.takes() == takes, "other takes");
    holds(rt, tally.steals() == steals, "other steals");
    holds(rt, tally.left() == 0, "a ticket is left");
}

// Two tickets in one deque of two: the first is stolen, and the second taken.
fn share_two<K: Naming>(
    rt: &impl Abort,
    alloc: Global,
    tickets: Vec<Ticket<K>>,
) -> Result<(), AllocError> {
    let (mut owners, mut thieves) = Pool::new::<Ticket<K>>(alloc, 2)?;
    let all = fill(&mut owners, 0, tickets);
    holds(rt, all, "the puts");
    let first = steal_at(&mut thieves, 1, 0);
    holds(rt, is_one(&first, 0), "the first ticket is stolen");
    holds(
        rt,
        take_at(&mut owners, 0) == Some(1),
        "the second ticket is taken",
    );
    holds(rt, take_at(&mut owners, 0) == None, "none is left to take");
    let second = steal_at(&mut thieves, 1, 0);
    holds(rt, is_empty(&second), "none is left to steal");
    let tally = close(owners, thieves);
    assert_tally(rt, &tally, 2, 1, 1);
    Ok(())
}

// What one thread does with a pool for the tickets of a gate's processes.
#[derive(Clone, Copy)]
enum Pooled {
    Two,
    Refused,
}

impl SeatPair for Pooled {
    fn lead<K: Naming, R: Wait + Abort>(&mut self, opened: Opened<'_, '_, '_, K, R>) -> Seats<K> {
        let (course, seats, tickets) = opened;
        let rt = course.rt;
        match *self {
            Pooled::Two => share_two(rt, course.alloc, tickets).expect(rt, "memory"),
            Pooled::Refused => put_more(rt, course.alloc, tickets),
        }
        seats
    }
}

// The source of so many processes.
fn processes(rt: &impl Abort, alloc: Global, count: u32) -> String {
    let mut source = String::from_str(alloc, "module t;").expect(rt, "memory");
    for _ in 0..count {
        source.push_str(" initial ;").expect(rt, "memory");
    }
    source.push_str(" endmodule").expect(rt, "memory");
    source
}

// One thread has the tickets of a gate of so many processes.
fn play_pooled<R: Wait + Abort>(rt: &R, alloc: Global, count: u32, mut pooled: Pooled) {
    let source = processes(rt, alloc, count);
    let closed = play_source(rt, alloc, source.as_str(), &mut pooled);
    holds(rt, closed.end() == End::Running, "another end");
}

// Takes from the deque 0 until it is empty.
fn take_all<K: Naming, R: Wait>(
    rt: &R,
    alloc: Global,
    mut owners: Vec<Owner<Ticket<K>>>,
) -> (Vec<Owner<Ticket<K>>>, Vec<u64>)
    ensures { map owner_card result.0.items ≡ map owner_card owners.items }
{
    let mut got = Vec::new(alloc);
    for _ in rt.forever() {
        let taken = take_at(&mut owners, 0);
        let Some(event) = taken else {
            break;
        };
        if got.push(event).is_err() {
            break;
        }
    }
    (owners, got)
}

// These are so many events, from 0 on in rising number.
fn assert_rising(rt: &impl Abort, events: &[u64], count: usize) {
    holds(rt, events.len() == count, "another number of events");
    for (place, event) in events.iter().enumerate() {
        holds(rt, *event == place as u64, "another event");
    }
}

// A deque has room for 64 tickets. The next put is refused where memory is, and then the ticket comes back, and the deque has
// what it had.
fn put_more<K: Naming, R: Wait + Abort>(rt: &R, alloc: Global, mut tickets: Vec<Ticket<K>>) {
    let (mut owners, _thieves) = Pool::new::<Ticket<K>>(alloc, 2).expect(rt, "memory");
    let more = last(rt, &mut tickets);
    holds(rt, fill(&mut owners, 0, tickets), "the first puts");
    let hoard = Hoard::new(alloc, 0, 0).expect(rt, "memory");
    let back = put_at(&mut owners, 0, more).expect(rt, "memory was refused");
    let back = put_at(&mut owners, 0, back).expect(rt, "memory was refused");
    drop(hoard);
    holds(rt, back.event() == 64, "another ticket");
    holds(rt, back.tries() == 0, "another try");
    holds(
        rt,
        put_at(&mut owners, 0, back).is_none(),
        "a put with more memory",
    );
    let (_owners, got) = take_all(rt, alloc, owners);
    assert_rising(rt, &got, 65);
}

#[test]
fn a_pool_of_two(rt: HostRuntime) {
    play_pooled(&rt, rt.alloc(), 2, Pooled::Two);
}

#[test]
fn a_put_that_is_refused_changes_nothing(rt: HostRuntime) {
    play_pooled(&rt, rt.alloc(), 65, Pooled::Refused);
}

// Steals by the thief i of a row until its deque is empty.
fn steal_all<K: Naming, R: Wait>(
    rt: &R,
    alloc: Global,
    mut row: Vec<Thief<Ticket<K>>>,
    i: usize,
) -> (Vec<Thief<Ticket<K>>>, Vec<u64>)
    ensures { map thief_card result.0.items ≡ map thief_card row.items }
{
    let mut got = Vec::new(alloc);
    for _ in rt.forever() {
        match steal_in(&mut row, i) {
            Stolen::One(ticket) => {
                if got.push(ticket.event()).is_err() {
                    break;
                }
            }
            Stolen::Empty => break,
            Stolen::Again => thread::yield_now(),
        }
    }
    (row, got)
}

// A worker's thieves, and the events of the tickets that it stole.
type Robbed<K> = (Vec<Thief<Ticket<K>>>, Vec<u64>);

// Three threads steal from the deque 0: each has the row of its worker, in which that deque is the one of the number named.
fn steal_by_three<K: Naming + Send, R: Threads + Wait + Sync>(
    rt: &R,
    alloc: Global,
    one: Vec<Thief<Ticket<K>>>,
    two: Vec<Thief<Ticket<K>>>,
    three: Vec<Thief<Ticket<K>>>,
) -> (Robbed<K>, (Robbed<K>, Robbed<K>))
    ensures { (map thief_card result.0.0.items ≡ map thief_card one.items) × (map thief_card result.1.0.0.items ≡ map thief_card two.items) × (map thief_card result.1.1.0.items ≡ map thief_card three.items) }
{
    thread::join(
        rt,
        move || -> Robbed<K>
            ensures { map thief_card result.0.items ≡ map thief_card one.items }
        { steal_all(rt, alloc, one, 2) },
        move || -> (Robbed<K>, Robbed<K>)
            ensures { (map thief_card result.0.0.items ≡ map thief_card two.items) × (map thief_card result.1.0.items ≡ map thief_card three.items) }
        {
            thread::join(
                rt,
                move || -> Robbed<K>
                    ensures { map thief_card result.0.items ≡ map thief_card two.items }
                { steal_all(rt, alloc, two, 1) },
                move || -> Robbed<K>
                    ensures { map thief_card result.0.items ≡ map thief_card three.items }
                { steal_all(rt, alloc, three, 0) },
            )
        },
    )
}

// What the four workers of a pool got.
#[derive(Drop)]
struct Got {
    taken: Vec<u64>,
    first: Vec<u64>,
    second: Vec<u64>,
    third: Vec<u64>,
}

// Worker 0 takes from its deque, and the three others steal from it.
fn race<K: Naming + Send, R: Threads + Wait + Sync>(
    rt: &R,
    alloc: Global,
    owners: Vec<Owner<Ticket<K>>>,
    mut thieves: Vec<Vec<Thief<Ticket<K>>>>,
) -> Option<(Vec<Owner<Ticket<K>>>, Vec<Vec<Thief<Ticket<K>>>>, Got)>
    requires { IsPool owners.items thieves.items }
    ensures { IfSome result (λ r. IsPool r.0.items r.1.items) }
{
    let three = thieves.pop()?;
    let two = thieves.pop()?;
    let one = thieves.pop()?;
    let ((owners, taken), ((one, first), ((two, second), (three, third)))) = thread::join(
        rt,
        move || -> (Vec<Owner<Ticket<K>>>, Vec<u64>)
            ensures { map owner_card result.0.items ≡ map owner_card owners.items }
        { take_all(rt, alloc, owners) },
        move || -> (Robbed<K>, (Robbed<K>, Robbed<K>))
            ensures { (map thief_card result.0.0.items ≡ map thief_card one.items) × (map thief_card result.1.0.0.items ≡ map thief_card two.items) × (map thief_card result.1.1.0.items ≡ map thief_card three.items) }
        { steal_by_three(rt, alloc, one, two, three) },
    );
    let Ok(()) = thieves.push(one) else {
        return None;
    };
    let Ok(()) = thieves.push(two) else {
        return None;
    };
    let Ok(()) = thieves.push(three) else {
        return None;
    };
    let got = Got {
        taken,
        first,
        second,
        third,
    };
    Some((owners, thieves, got))
}

// Each event of 256 stands once among those of four workers, and those of the owner rise.
fn assert_got(rt: &impl Abort, got: Got) {
    let mut events = got.taken;
    holds(rt, events.is_sorted(), "the owner's events rise");
    put_behind(rt, &mut events, &got.first);
    put_behind(rt, &mut events, &got.second);
    put_behind(rt, &mut events, &got.third);
    events.sort_unstable();
    assert_rising(rt, &events, 256);
}

// Puts events behind others.
fn put_behind(rt: &impl Abort, events: &mut Vec<u64>, more: &[u64]) {
    events.extend_from_slice(more).expect(rt, "memory");
}

// Worker 0 puts tickets, and four workers share them.
fn share_all<K: Naming + Send, R: Threads + Wait + Abort + Sync>(
    rt: &R,
    alloc: Global,
    tickets: Vec<Ticket<K>>,
) -> Result<(), AllocError> {
    let (mut owners, thieves) = Pool::new::<Ticket<K>>(alloc, 4)?;
    let all = fill(&mut owners, 0, tickets);
    holds(rt, all, "the puts");
    let raced = race(rt, alloc, owners, thieves);
    let Some((owners, thieves, got)) = raced else {
        fail(rt, "memory")
    };
    let tally = close(owners, thieves);
    let stolen = got.first.len() + got.second.len() + got.third.len();
    assert_tally(rt, &tally, 256, got.taken.len() as u128, stolen as u128);
    assert_got(rt, got);
    Ok(())
}

// Four workers share the tickets of a gate's processes.
fn open<K: Naming + Send, R: Threads + Wait + Abort + Sync>(
    rt: &R,
    alloc: Global,
    blank: Blank<'_>,
) -> Result<(), AllocError>
    requires { blank ≡ K.named }
{
    let (_gate, _seats, tickets) = blank.open::<K>(alloc)?;
    share_all(rt, alloc, tickets)
}

// The same of a gate of its own.
fn play_all<R: Threads + Wait + Abort + Sync>(rt: &R, alloc: Global) {
    let source = processes(rt, alloc, 256);
    let design = design_of(rt, alloc, source.as_str());
    let limits = Limits {
        until: None,
        max_entries: 1,
    };
    let blank = Gate::new(rt, alloc, &design, 1, limits).expect(rt, "memory");
    open::<Brand, R>(rt, alloc, blank).expect(rt, "memory");
}

#[test]
fn four_workers_share_one_deque(rt: HostRuntime) {
    play_all(&rt, rt.alloc());
}
