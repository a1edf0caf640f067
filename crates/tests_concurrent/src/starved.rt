// Calls that get more and more memory until one isn't refused any: a turn under the lock, a copy of the journal, and a journal
// that is led through a gate. What was refused changes nothing.

use crate::claims::{fail, holds};
use crate::course::{GateCourse, Seats, assert_closed, assert_left, design_of, is_copied};
use crate::examples::{FOUR_TURNS, THRICE, WRITERS};
use crate::hoards::{leave, take_all};
use crate::pair::{Opened, SeatPair, play_source};
use crate::steps::{Led, ticket_of};
use commitgate::{Naming, Reply, Seat, Ticket};
use drive::{DriveFault, drive};
use fixtures::entries::{T0, T1};
use fixtures::{COPY, GLITCH, GLITCH_JOURNAL, SWAP, SWAP_JOURNAL};
use hoard::{Hoard, LARGEST_PIECE};
use model::end::End;
use model::entry::Entry;
use std::alloc::Global;
use std::process::Abort;
use std::sync::Wait;

// How much more memory a call gets each time, and how often at most.
const STEP: usize = 48;

const ROOMS: usize = 512;

// The pieces of memory that a run may need.
const PIECES: usize = 2 * ROOMS;

// The ticket of a turn that was refused memory under the lock, with as many tries as before, or nothing where it was accepted.
fn refused<K: Naming>(rt: &impl Abort, reply: Reply<K>) -> Option<Ticket<K>> {
    match reply {
        Reply::Accepted(grant) => {
            holds(rt, grant.position == 3, "another position");
            None
        }
        Reply::NoMemory(back) => {
            holds(rt, back.tries() == 3, "other tries");
            holds(rt, back.event() == 3, "another ticket");
            Some(back)
        }
        _ => fail(rt, "neither accepted nor refused memory"),
    }
}

// Evaluates a turn under the lock with more and more memory.
fn commit_held<K: Naming, R: Wait + Abort>(
    course: &GateCourse<'_, '_, K, R>,
    hoard: &mut Hoard,
    seat: &mut Seat<K>,
    ticket: Ticket<K>,
) {
    let mut late = ticket;
    for count in 0..ROOMS {
        leave(course.rt, hoard, count.saturating_mul(STEP));
        let reply = course.commit_held(seat, late);
        match refused(course.rt, reply) {
            Some(back) => late = back,
            None => {
                holds(course.rt, count > 0, "memory was refused");
                return;
            }
        }
    }
    fail(course.rt, "not accepted")
}

// Copies the journal with more and more memory.
fn copy<K: Naming, R: Wait + Abort>(
    course: &GateCourse<'_, '_, K, R>,
    hoard: &mut Hoard,
    seat: &mut Seat<K>,
) {
    for count in 0..ROOMS {
        leave(course.rt, hoard, count.saturating_mul(STEP));
        if is_copied(course, seat, FOUR_TURNS) {
            holds(course.rt, count > 0, "memory was refused");
            return;
        }
    }
    fail(course.rt, "no copy")
}

// Three turns overtake a fourth one. It is then evaluated under the lock, and the journal is copied.
#[derive(Drop)]
struct Starved;

impl SeatPair for Starved {
    fn lead<K: Naming, R: Wait + Abort>(&mut self, opened: Opened<'_, '_, '_, K, R>) -> Seats<K> {
        let (course, (mut one, mut two), tickets) = opened;
        let mut led = Led::new(course, tickets);
        led.lead(&mut one, &mut two, THRICE);
        let late = ticket_of(course.rt, &mut led.tickets, 3);
        let mut hoard = take_all(course.rt, course.alloc, PIECES, LARGEST_PIECE);
        commit_held(course, &mut hoard, &mut two, late);
        copy(course, &mut hoard, &mut one);
        (one, two)
    }
}

#[test]
fn a_turn_under_the_lock_and_a_copy_of_the_journal_are_refused_memory(rt: HostRuntime) {
    let closed = play_source(&rt, rt.alloc(), WRITERS, &mut Starved);
    assert_closed(&rt, &closed, End::Quiet, &[3, 1]);
}

// A journal is led through a gate with more and more memory.
fn assert_driven<R: Wait + Abort>(
    rt: &R,
    alloc: Global,
    source: &str,
    entries: &[Entry],
    lines: &str,
) {
    holds(rt, entries.len() < 1_000, "a short journal");
    let design = design_of(rt, alloc, source);
    let mut hoard = take_all(rt, alloc, PIECES, LARGEST_PIECE);
    for count in 0..ROOMS {
        leave(rt, &mut hoard, count.saturating_mul(STEP));
        match drive(rt, alloc, &design, entries) {
            Ok(closed) => {
                assert_left(rt, &closed, entries, lines);
                holds(rt, count > 0, "memory was refused");
                return;
            }
            Err(fault) => holds(rt, fault == DriveFault::Memory, "another fault"),
        }
    }
    fail(rt, "no end")
}

// Sources, the journal of a run of each, and its lines.
const LED: &[(&str, &[Entry], &str)] = &[
    (SWAP, SWAP_JOURNAL, "1 0\n"),
    (GLITCH, GLITCH_JOURNAL, "glitch\n"),
    (COPY, &[T1, T0], ""),
    (WRITERS, FOUR_TURNS, ""),
];

#[test]
fn journals_that_are_led_through_a_gate_are_refused_memory(rt: HostRuntime) {
    for &(source, entries, lines) in LED {
        assert_driven(&rt, rt.alloc(), source, entries, lines);
    }
}
