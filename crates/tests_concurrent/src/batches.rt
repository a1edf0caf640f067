// Several turns of one seat that are evaluated one after another and then committed in one holding of the lock: where memory is refused
// for one, those behind it are left. Turns of which none is refused are rows of `examples`.
ghost use Rattle.std.specs.Prelude.{◌≡◌, length};
ghost use Rattle.commitgate.specs.Batches.{AreOffered};

use crate::claims::{fail, holds};
use crate::course::{GateCourse, Seats, accepted, assert_journal, assert_turn};
use crate::examples::{APART, APART_JOURNAL};
use crate::hoards::{leave, open, take_all};
use crate::pair::{Opened, SeatPair, play_source};
use crate::refused::granted;
use commitgate::{Closed, Naming, Reply, Seat, Ticket};
use hoard::{Hoard, LARGEST_PIECE};
use model::end::End;
use std::alloc::Global;
use std::collections::VecDeque;
use std::ops::Range;
use std::process::Abort;
use std::sync::Wait;
use turn::TurnLog;

// The turns of the design.
const TURNS: u64 = 3;

// The bytes of its lines: each has a digit for each bit of a register, and an end.
const LINES: usize = 9 + 33 + 129;

// The most turns that are committed at once here.
const ANSWERS: usize = 3;

// How much more memory a batch gets each time, and how often at most.
const STEP: usize = 16;

const ROOMS: usize = 512;

// A run gets a piece of memory at its beginning, one of which its batch gets a part, and one behind that.
const PIECES: usize = 3 * ROOMS;

// Turns of one seat that were evaluated and aren't committed yet: their tickets, and the log of each at its place.
#[derive(Drop)]
pub struct SeatBatch<K: Naming> {
    pub tickets: VecDeque<Ticket<K>>,
    pub logs: Vec<TurnLog>,
}

impl<K: Naming> SeatBatch<K> {
    // Evaluates the turn of a ticket, and puts it behind the others.
    fn add<R: Wait + Abort>(
        &mut self,
        course: &GateCourse<'_, '_, K, R>,
        seat: &mut Seat<K>,
        ticket: Ticket<K>,
    )
        requires pairs { length self.old.tickets.items ≡ length self.old.logs.items }
        requires offered { AreOffered K.named.code seat.old.fresh self.old.tickets.items self.old.logs.items }
        ensures pairs { length self.new.tickets.items ≡ length self.new.logs.items }
        ensures offered { AreOffered K.named.code seat.new.fresh self.new.tickets.items self.new.logs.items }
    {
        let rt = course.rt;
        holds(rt, ticket.tries() < 3, "refused three times");
        let log = course.evaluate(seat, &ticket);
        self.tickets
            .push_back(ticket)
            .expect(rt, "room for a ticket");
        self.logs.push(log).expect(rt, "room for a log");
    }
}

/// The turns of these tickets, evaluated one after another.
pub fn evaluated<K: Naming, R: Wait + Abort>(
    course: &GateCourse<'_, '_, K, R>,
    seat: &mut Seat<K>,
    tickets: Vec<Ticket<K>>,
) -> SeatBatch<K>
    ensures { AreOffered K.named.code seat.new.fresh result.tickets.items result.logs.items }
{
    let mut batch = SeatBatch {
        tickets: VecDeque::new(course.alloc),
        logs: Vec::new(course.alloc),
    };
    for ticket in tickets {
        batch.add(course, seat, ticket);
    }
    batch
}

// Room for the answers to a batch.
fn room<K: Naming>(rt: &impl Abort, alloc: Global) -> VecDeque<Reply<K>> {
    VecDeque::with_capacity(alloc, ANSWERS).expect(rt, "memory")
}

// Commits the turns of a batch in one holding of the lock.
fn commit<K: Naming, R: Wait + Abort>(
    course: &GateCourse<'_, '_, K, R>,
    seat: &mut Seat<K>,
    batch: &mut SeatBatch<K>,
    replies: &mut VecDeque<Reply<K>>,
)
    requires { AreOffered K.named.code seat.old.fresh batch.old.tickets.items batch.old.logs.items }
{
    let rt = course.rt;
    let SeatBatch { tickets, logs } = batch;
    holds(
        rt,
        tickets.len() <= replies.capacity(),
        "room for the answers",
    );
    course.gate.commit_all(rt, seat, tickets, logs, replies);
}

/// The answers to a batch, which leave none of its tickets.
pub fn committed<K: Naming, R: Wait + Abort>(
    course: &GateCourse<'_, '_, K, R>,
    seat: &mut Seat<K>,
    batch: &mut SeatBatch<K>,
) -> VecDeque<Reply<K>>
    requires { AreOffered K.named.code seat.old.fresh batch.old.tickets.items batch.old.logs.items }
{
    let mut replies = room(course.rt, course.alloc);
    commit(course, seat, batch, &mut replies);
    holds(
        course.rt,
        batch.tickets.is_empty(),
        "a ticket without an answer",
    );
    replies
}

/// The next answer.
pub fn next<K: Naming>(rt: &impl Abort, replies: &mut VecDeque<Reply<K>>) -> Reply<K> {
    replies.pop_front().expect(rt, "an answer")
}

// The answers are that the turns of these events were accepted, in this order.
fn assert_turns<K: Naming>(rt: &impl Abort, mut replies: VecDeque<Reply<K>>, events: Range<u64>) {
    for event in events {
        assert_turn(rt, &accepted(rt, next(rt, &mut replies)), event);
    }
    holds(rt, replies.is_empty(), "another answer");
}

// The turns of these tickets, which are those of these events, are accepted at once.
fn accept_all<K: Naming, R: Wait + Abort>(
    course: &GateCourse<'_, '_, K, R>,
    seat: &mut Seat<K>,
    tickets: Vec<Ticket<K>>,
    events: Range<u64>,
) {
    let mut batch = evaluated(course, seat, tickets);
    assert_turns(course.rt, committed(course, seat, &mut batch), events);
}

// Commits the turns of a batch where no more than so many bytes of memory can be had. Behind that there is enough again.
fn commit_in<K: Naming, R: Wait + Abort>(
    course: &GateCourse<'_, '_, K, R>,
    seat: &mut Seat<K>,
    batch: &mut SeatBatch<K>,
    replies: &mut VecDeque<Reply<K>>,
    hoard: &mut Hoard,
    bytes: usize,
)
    requires { AreOffered K.named.code seat.old.fresh batch.old.tickets.items batch.old.logs.items }
{
    leave(course.rt, hoard, bytes);
    commit(course, seat, batch, replies);
    open(course.rt, hoard);
}

// How many turns were accepted, at the positions from 0 on. Where memory was refused for the next one, its ticket comes back
// as it was, and is put before those that were left.
fn settle<K: Naming>(
    rt: &impl Abort,
    replies: &mut VecDeque<Reply<K>>,
    tickets: &mut VecDeque<Ticket<K>>,
) -> u64 {
    for event in 0..TURNS {
        match granted(rt, next(rt, replies), event) {
            Ok(grant) => assert_turn(rt, &grant, event),
            Err(back) => {
                tickets.push_front(back).expect(rt, "room for a ticket");
                return event;
            }
        }
    }
    TURNS
}

// These are the tickets of all events from this one on, in order, and none has a try yet.
fn assert_waiting<K: Naming>(rt: &impl Abort, tickets: &VecDeque<Ticket<K>>, first: u64) {
    let count = TURNS.saturating_sub(first);
    holds(
        rt,
        tickets.len() as u64 == count,
        "another number of tickets",
    );
    for (event, ticket) in (first..TURNS).zip(tickets) {
        holds(rt, ticket.event() == event, "another ticket");
        holds(rt, ticket.tries() == 0, "another try");
    }
}

// Commits the turns of a batch in so many bytes. Answers how many were accepted; the tickets of all others wait.
fn commit_starved<K: Naming, R: Wait + Abort>(
    course: &GateCourse<'_, '_, K, R>,
    seat: &mut Seat<K>,
    batch: &mut SeatBatch<K>,
    hoard: &mut Hoard,
    bytes: usize,
) -> u64
    requires { AreOffered K.named.code seat.old.fresh batch.old.tickets.items batch.old.logs.items }
{
    let rt = course.rt;
    let mut replies = room(rt, course.alloc);
    commit_in(course, seat, batch, &mut replies, hoard, bytes);
    let accepted = settle(rt, &mut replies, &mut batch.tickets);
    holds(
        rt,
        replies.is_empty(),
        "an answer behind a refusal of memory",
    );
    assert_waiting(rt, &batch.tickets, accepted);
    accepted
}

// The first worker commits three turns at once in so many bytes, and then those that were left in enough memory. How many
// were accepted at first.
#[derive(Drop)]
struct StarvingBatches<'h> {
    hoard: &'h mut Hoard,
    bytes: usize,
    accepted: u64,
}

impl<'h> SeatPair for StarvingBatches<'h> {
    fn lead<K: Naming, R: Wait + Abort>(&mut self, opened: Opened<'_, '_, '_, K, R>) -> Seats<K> {
        let (course, (mut one, two), tickets) = opened;
        let mut batch = evaluated(course, &mut one, tickets);
        self.accepted = commit_starved(course, &mut one, &mut batch, self.hoard, self.bytes);
        let left = batch.tickets.into_vec();
        accept_all(course, &mut one, left, self.accepted..TURNS);
        assert_journal(course, &mut one, APART_JOURNAL);
        (one, two)
    }
}

// The run of the three turns is quiet, with all of its lines.
fn assert_quiet(rt: &impl Abort, closed: &Closed) {
    holds(rt, closed.end() == End::Quiet, "another end");
    holds(rt, closed.lines().len() == LINES, "other lines");
}

// How many of the three turns so many bytes were enough for.
fn play_starving<R: Wait + Abort>(rt: &R, alloc: Global, hoard: &mut Hoard, bytes: usize) -> u64 {
    open(rt, hoard);
    let mut starving = StarvingBatches {
        hoard,
        bytes,
        accepted: 0,
    };
    let closed = play_source(rt, alloc, APART, &mut starving);
    assert_quiet(rt, &closed);
    starving.accepted
}

#[test]
fn turns_behind_one_that_is_refused_memory_are_left(rt: HostRuntime) {
    let mut hoard = take_all(&rt, rt.alloc(), PIECES, LARGEST_PIECE);
    let mut refused = [false; ANSWERS];
    for count in 0..ROOMS {
        let accepted = play_starving(&rt, rt.alloc(), &mut hoard, count * STEP);
        match refused.get_mut(accepted as usize) {
            Some(was) => *was = true,
            None => {
                holds(
                    &rt,
                    refused == [true; ANSWERS],
                    "a turn wasn't refused memory",
                );
                return;
            }
        }
    }
    fail(&rt, "memory is refused still");
}
