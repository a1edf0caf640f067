// Runs of two seats that the rows of a table lead, a step after another: what each call answers, how many entries there are then,
// and what the seat reads.

use crate::batches::{committed, evaluated, next};
use crate::between::mixed;
use crate::claims::{fail, holds};
use crate::course::{GateCourse, keep};
use commitgate::{Grant, Naming, Reply, Rest, Seat, Ticket, UpdateReply, UpdatesEnd};
use design::RegId;
use logic4::bits::Bits;
use model::end::Why;
use model::entry::Entry;
use std::alloc::Global;
use std::process::Abort;
use std::sync::Wait;
use turn::{Seen, TurnLog};

/// One of the two seats.
#[derive(Clone, Copy)]
pub enum Side {
    One,
    Two,
}

/// What the other seat does between the evaluation of a turn and its commit.
#[derive(Clone, Copy)]
pub enum Other<'a> {
    /// Takes the turns of these events.
    Takes(&'a [u64]),
    /// Stops the run.
    Stops,
}

/// A register with its version, and its value, or all x.
pub type Value = (RegId, u64, Option<u64>);

/// What a seat does.
#[derive(Clone, Copy)]
pub enum Act<'a> {
    /// Evaluates the turn of an event without the lock, and commits it at once.
    Turn(u64),
    /// The same: what the turn reads, and what the other seat does before the commit.
    Late(u64, &'a [Value], Other<'a>),
    /// Evaluates the turn of the first event, where the other seat takes that of the second between its first two reads, which
    /// makes it too long, and gives it up: what the turn reads, and what the other seat does before.
    Across((u64, u64), &'a [Value], Other<'a>),
    /// Evaluates the turn of an event under the lock.
    Held(u64),
    /// Evaluates the turns of these events, one after another, and commits them in one holding of the lock: what the last of them reads,
    /// and what is told of each.
    Batch(&'a [u64], &'a [Value], &'a [Told]),
    Update,
    /// Makes updates in one holding of the lock, with room for two: the number of each and how many tickets it gives, and why there are
    /// no more.
    Updates(&'a [(u64, usize)], HoldingEnd),
    Rest,
    Stop,
    /// Reads registers: what stands in them.
    Read(&'a [Value]),
}

/// Why no further update is made in a holding of the lock.
#[derive(Clone, Copy)]
pub enum HoldingEnd {
    Woke,
    Nothing,
    NoRoom,
}

/// What the seat is told.
#[derive(Clone, Copy, PartialEq)]
pub enum Told {
    /// This entry stands now.
    Entry(Entry),
    /// Register 0 has changed. The ticket comes back with so many tries.
    Stale(u8),
    /// Nothing is left to do, or nothing is told.
    Nothing,
    Stopped(Why),
}

/// A step of a seat, and what it is told.
pub type SeatStep<'a> = (Side, Act<'a>, Told);

/// How far a run has come: its gate, the tickets that aren't used up, and the number of entries.
#[derive(Drop)]
pub struct Led<'c, 'g, 'd, K: Naming, R: Wait + Abort> {
    course: &'c GateCourse<'g, 'd, K, R>,
    pub tickets: Vec<Ticket<K>>,
    entries: u64,
}

// Whether this was seen of a register.
fn is_value(seen: &Seen, value: &Value) -> bool {
    let width = seen.value.width();
    let wanted = match value.2 {
        Some(number) => Bits::from_u64(width, number),
        None => Bits::unknown(width),
    };
    seen.version == value.1 && seen.value == wanted
}

// A turn read these.
fn assert_read(rt: &impl Abort, log: &TurnLog, values: &[Value]) {
    for value in values {
        let seen = log.reads().get(&value.0).expect(rt, "a read");
        holds(rt, is_value(seen, value), "another value was read");
    }
}

// A seat reads these.
fn assert_sees<K: Naming, R: Wait + Abort>(
    course: &GateCourse<'_, '_, K, R>,
    seat: &mut Seat<K>,
    values: &[Value],
) {
    for value in values {
        let seen = course.read(seat, value.0);
        holds(course.rt, is_value(&seen, value), "another value is read");
    }
}

/// The ticket of an event.
pub fn ticket_of<K: Naming>(
    rt: &impl Abort,
    tickets: &mut Vec<Ticket<K>>,
    event: u64,
) -> Ticket<K> {
    for place in 0..tickets.len() {
        if place < tickets.len() && tickets[place].event() == event {
            return tickets.remove(place);
        }
    }
    fail(rt, "a ticket")
}

// The tickets of these events, in this order.
fn tickets_of<K: Naming>(
    rt: &impl Abort,
    alloc: Global,
    tickets: &mut Vec<Ticket<K>>,
    events: &[u64],
) -> Vec<Ticket<K>> {
    let mut found = Vec::new(alloc);
    for event in events {
        let ticket = ticket_of(rt, tickets, *event);
        found.push(ticket).expect(rt, "room for a ticket");
    }
    found
}

// Whether no further update was made for this reason.
fn is_end(end: &UpdatesEnd, wanted: HoldingEnd) -> bool {
    match wanted {
        HoldingEnd::Woke => matches!(end, UpdatesEnd::Woke),
        HoldingEnd::Nothing => matches!(end, UpdatesEnd::Nothing),
        HoldingEnd::NoRoom => matches!(end, UpdatesEnd::NoRoom),
    }
}

// Room for the grants of two updates.
fn room<K: Naming>(rt: &impl Abort, alloc: Global) -> Vec<Grant<K>> {
    let grants = Vec::with_capacity(alloc, 2).expect(rt, "memory");
    holds(rt, grants.capacity() == 2, "another room");
    grants
}

// The grants are those of these updates.
fn assert_grants<K: Naming>(rt: &impl Abort, grants: &[Grant<K>], wanted: &[(u64, usize)]) {
    holds(
        rt,
        grants.len() == wanted.len(),
        "another number of updates",
    );
    for (grant, wanted) in grants.iter().zip(wanted) {
        holds(rt, grant.entry == Entry::Update(wanted.0), "another update");
        holds(rt, grant.tickets.len() == wanted.1, "other tickets");
    }
}

impl<'c, 'g, 'd, K: Naming, R: Wait + Abort> Led<'c, 'g, 'd, K, R> {
    /// A run without entries.
    pub fn new(
        course: &'c GateCourse<'g, 'd, K, R>,
        tickets: Vec<Ticket<K>>,
    ) -> Led<'c, 'g, 'd, K, R> {
        Led {
            course,
            tickets,
            entries: 0,
        }
    }

    // The entry of a grant stands at the next position. Its tickets are kept.
    fn kept(&mut self, grant: Grant<K>) -> Told {
        let rt = self.course.rt;
        let Grant {
            position,
            entry,
            tickets,
        } = grant;
        holds(rt, position == self.entries, "another position");
        self.entries = self.entries.saturating_add(1);
        keep(rt, &mut self.tickets, tickets);
        Told::Entry(entry)
    }

    // What the answer to a ticket tells. A ticket that comes back is kept.
    fn told_of(&mut self, reply: Reply<K>) -> Told {
        let rt = self.course.rt;
        match reply {
            Reply::Accepted(grant) => self.kept(grant),
            Reply::Stale(register, ticket) => {
                holds(rt, register == 0, "another register");
                let tries = ticket.tries();
                self.tickets.push(ticket).expect(rt, "room for a ticket");
                Told::Stale(tries)
            }
            Reply::Stopped(why) => Told::Stopped(why),
            Reply::Gone => fail(rt, "no such ticket"),
            Reply::NoMemory(_) => fail(rt, "memory"),
        }
    }

    // What the answer to an update tells.
    fn told_of_update(&mut self, reply: UpdateReply<K>) -> Told {
        match reply {
            UpdateReply::Accepted(grant) => self.kept(grant),
            UpdateReply::Nothing => Told::Nothing,
            UpdateReply::Stopped(why) => Told::Stopped(why),
            UpdateReply::NoMemory => fail(self.course.rt, "memory"),
        }
    }

    // What the answer to a rest tells.
    fn told_of_rest(&mut self, rest: Rest<K>) -> Told {
        match rest {
            Rest::Changed(grant) => self.kept(grant),
            Rest::Quiet => Told::Nothing,
            Rest::Stopped(why) => Told::Stopped(why),
            Rest::Busy => fail(self.course.rt, "an event is active"),
            Rest::NoMemory => fail(self.course.rt, "memory"),
        }
    }

    // The other seat takes the turn of an event, which is accepted.
    fn take(&mut self, other: &mut Seat<K>, event: u64) {
        let rt = self.course.rt;
        let ticket = ticket_of(rt, &mut self.tickets, event);
        let reply = self.course.serve(other, ticket);
        let told = self.told_of(reply);
        holds(rt, told == Told::Entry(Entry::Turn(event)), "not accepted");
    }

    // What the other seat does meanwhile.
    fn pass(&mut self, other: &mut Seat<K>, meanwhile: Other<'_>) {
        match meanwhile {
            Other::Takes(events) => {
                for event in events {
                    self.take(other, *event);
                }
            }
            Other::Stops => self.course.gate.stop(self.course.rt, other),
        }
    }

    // A turn that is evaluated without the lock and committed.
    fn turn(
        &mut self,
        seat: &mut Seat<K>,
        other: &mut Seat<K>,
        event: u64,
        read: &[Value],
        meanwhile: Other<'_>,
    ) -> Told {
        let course = self.course;
        let ticket = ticket_of(course.rt, &mut self.tickets, event);
        let log = course.evaluate(seat, &ticket);
        assert_read(course.rt, &log, read);
        self.pass(other, meanwhile);
        let (entries, reply) = course.look_and_commit(seat, ticket, &log);
        let is_same = entries == self.entries;
        holds(course.rt, is_same, "other entries before the commit");
        self.told_of(reply)
    }

    // A turn that is too long, and given up.
    fn across(
        &mut self,
        seat: &mut Seat<K>,
        other: &mut Seat<K>,
        events: (u64, u64),
        read: &[Value],
        meanwhile: Other<'_>,
    ) -> Told {
        let course = self.course;
        let late = ticket_of(course.rt, &mut self.tickets, events.0);
        let early = ticket_of(course.rt, &mut self.tickets, events.1);
        let log = mixed(course, other, early, seat, &late);
        self.entries = self.entries.saturating_add(1);
        assert_read(course.rt, &log, read);
        self.pass(other, meanwhile);
        let reply = course.give_up(seat, late, &log);
        self.told_of(reply)
    }

    // Several turns that are committed in one holding of the lock.
    fn batch(&mut self, seat: &mut Seat<K>, events: &[u64], read: &[Value], wanted: &[Told]) {
        let course = self.course;
        let tickets = tickets_of(course.rt, course.alloc, &mut self.tickets, events);
        let mut batch = evaluated(course, seat, tickets);
        assert_read(
            course.rt,
            batch.logs.last().expect(course.rt, "a log"),
            read,
        );
        let mut replies = committed(course, seat, &mut batch);
        let is_whole = replies.len() == wanted.len();
        holds(course.rt, is_whole, "another number of answers");
        for told in wanted {
            let reply = next(course.rt, &mut replies);
            let is_told = self.told_of(reply) == *told;
            holds(course.rt, is_told, "another answer of several");
        }
    }

    // Several updates that are made in one holding of the lock.
    fn updates(&mut self, seat: &mut Seat<K>, wanted: &[(u64, usize)], ended: HoldingEnd) {
        let rt = self.course.rt;
        let alloc = self.course.alloc;
        let mut grants = room(rt, alloc);
        let end = self.course.gate.update_all(rt, alloc, seat, &mut grants);
        holds(rt, !matches!(end, UpdatesEnd::NoMemory), "memory");
        holds(rt, is_end(&end, ended), "another end of the updates");
        assert_grants(rt, &grants, wanted);
        for grant in grants {
            self.kept(grant);
        }
    }

    // What a seat is told.
    fn answer(&mut self, seat: &mut Seat<K>, other: &mut Seat<K>, act: Act<'_>) -> Told {
        let course = self.course;
        match act {
            Act::Turn(event) => self.turn(seat, other, event, &[], Other::Takes(&[])),
            Act::Late(event, read, meanwhile) => self.turn(seat, other, event, read, meanwhile),
            Act::Across(events, read, meanwhile) => self.across(
                seat, other, events, read, meanwhile,
            ),
            Act::Held(event) => {
                let ticket = ticket_of(course.rt, &mut self.tickets, event);
                self.told_of(course.commit_held(seat, ticket))
            }
            Act::Batch(events, read, wanted) => {
                self.batch(seat, events, read, wanted);
                Told::Nothing
            }
            Act::Updates(wanted, ended) => {
                self.updates(seat, wanted, ended);
                Told::Nothing
            }
            Act::Update => self.told_of_update(course.update(seat)),
            Act::Rest => self.told_of_rest(course.rest(seat)),
            Act::Stop => {
                course.gate.stop(course.rt, seat);
                Told::Nothing
            }
            Act::Read(values) => {
                assert_sees(course, seat, values);
                Told::Nothing
            }
        }
    }

    // A step of a seat.
    fn step(&mut self, seat: &mut Seat<K>, other: &mut Seat<K>, act: Act<'_>, wanted: Told) {
        let rt = self.course.rt;
        let told = self.answer(seat, other, act);
        holds(rt, told == wanted, "another answer");
        let entries = self.course.gate.entries(rt, seat);
        holds(rt, entries == self.entries, "other entries");
    }

    /// Makes steps.
    pub fn lead(&mut self, one: &mut Seat<K>, two: &mut Seat<K>, steps: &[SeatStep<'_>]) {
        for (side, act, told) in steps {
            match *side {
                Side::One => self.step(one, two, *act, *told),
                Side::Two => self.step(two, one, *act, *told),
            }
        }
    }
}
