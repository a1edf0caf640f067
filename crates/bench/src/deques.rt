//! Tickets that go through a deque which one worker alone uses: a put and a take together, and a steal.

use crate::timing::{How, Measure, Stopwatch, Unit, tell};
use eventpool::{Owner, Pool, Stolen, Thief};
use std::io;

/// The tickets that are put before the first of them is taken.
const BATCH: u32 = 64;

/// As wide as a ticket of the gate: an event, a process and its remainder, a time, and tries.
#[derive(Drop)]
struct WideTicket {
    event: u64,
    time: u64,
    process: u32,
    place: u32,
    tries: u8,
}

/// Puts tickets, and answers how many of them the deque took.
fn put(owner: &mut Owner<WideTicket>, count: u32) -> u64 {
    let mut done = 0u64;
    for event in 0..count {
        let ticket = WideTicket {
            event: u64::from(event),
            time: 0,
            process: 0,
            place: 0,
            tries: 0,
        };
        if owner.put(ticket).is_ok() {
            done = done.saturating_add(1);
        }
    }
    done
}

/// Takes tickets, and answers how many there were.
fn take(owner: &mut Owner<WideTicket>, count: u32) -> u64 {
    let mut done = 0u64;
    for _ in 0..count {
        if owner.take().is_some() {
            done = done.saturating_add(1);
        }
    }
    done
}

/// Steals tickets, and answers how many there were.
fn steal(thief: &mut Thief<WideTicket>, count: u32) -> u64 {
    let mut done = 0u64;
    for _ in 0..count {
        if let Stolen::One(_) = thief.steal() {
            done = done.saturating_add(1);
        }
    }
    done
}

/// Puts and takes so many tickets at a time, so many times.
fn put_and_take(
    rt: &HostRuntime,
    owner: &mut Owner<WideTicket>,
    batch: u32,
    batches: u32,
) -> Measure {
    let mut done = 0u64;
    let clock = Stopwatch::start(rt);
    for _ in 0..batches {
        put(owner, batch);
        done = done.saturating_add(take(owner, batch));
    }
    clock.stop(rt, done)
}

/// Puts tickets, and measures their steals.
fn put_and_steal(
    rt: &HostRuntime,
    owner: &mut Owner<WideTicket>,
    thief: &mut Thief<WideTicket>,
    count: u32,
) -> Measure {
    put(owner, count);
    let clock = Stopwatch::start(rt);
    let done = steal(thief, count);
    clock.stop(rt, done)
}

/// Worker 0's end of its deque, and worker 1's thief of it.
fn ends(rt: &HostRuntime) -> io::Result<(Owner<WideTicket>, Thief<WideTicket>)> {
    let (mut owners, mut thieves) = Pool::new::<WideTicket>(rt.alloc(), 2)?;
    owners.truncate(1);
    let row = thieves.pop();
    if let (Some(owner), Some(mut row)) = (owners.pop(), row) {
        if let Some(thief) = row.pop() {
            return Ok((owner, thief));
        }
    }
    Err(io::Error::from(io::ErrorKind::InvalidData))
}

/// What the tickets of a deque cost.
#[derive(Clone, Copy)]
struct Tickets {
    alone: Measure,
    batches: Measure,
    steals: Measure,
}

/// The least of several runs.
fn least(
    rt: &HostRuntime,
    how: How,
    owner: &mut Owner<WideTicket>,
    thief: &mut Thief<WideTicket>,
) -> Tickets {
    let count = how.size(65_536, BATCH);
    let mut alone = Measure::SLOWEST;
    let mut batches = Measure::SLOWEST;
    let mut steals = Measure::SLOWEST;
    for _run in 0..how.runs() {
        alone = alone.least(put_and_take(rt, owner, 1, count));
        batches = batches.least(put_and_take(rt, owner, BATCH, count / BATCH));
        steals = steals.least(put_and_steal(rt, owner, thief, count));
    }
    Tickets {
        alone,
        batches,
        steals,
    }
}

fn both_ends(rt: &HostRuntime, how: How) -> io::Result<Tickets> {
    let (mut owner, mut thief) = ends(rt)?;
    Ok(least(rt, how, &mut owner, &mut thief))
}

/// Measures 65,536 tickets.
pub fn measure(rt: &HostRuntime, how: How) -> io::Result<()> {
    let Tickets {
        alone,
        batches,
        steals,
    } = both_ends(rt, how)?;
    tell(
        rt,
        how,
        "a put and a take, one by one",
        Unit::NanosEach,
        alone,
    )?;
    tell(
        rt,
        how,
        "a put and a take, 64 at a time",
        Unit::NanosEach,
        batches,
    )?;
    tell(rt, how, "a steal", Unit::NanosEach, steals)
}
