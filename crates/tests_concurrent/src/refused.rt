// A run of one seat in too little memory. A call that is refused memory changes nothing, and with more it succeeds.
ghost use Rattle.turn.specs.TurnAnswers.{IsTurnLog};
ghost use Rattle.turn.specs.Reads.{GaveAll};
ghost use Rattle.runstate.specs.Histories.{IsRead};

use crate::claims::{fail, holds};
use crate::course::{GateCourse, Seats, first, keep};
use crate::driven::worked::UPDATES;
use crate::hoards::{leave, open, take_all};
use crate::pair::{Opened, SeatPair, play_source};
use commitgate::{Closed, Grant, Naming, Reply, Rest, Seat, Ticket, UpdateReply};
use fixtures::{COPY, GLITCH, SWAP};
use hoard::Hoard;
use model::end::End;
use std::alloc::Global;
use std::process::Abort;
use std::sync::Wait;
use turn::TurnLog;

// How much more memory a call gets each time, and how often at most.
const STEP: usize = 16;

const ROOMS: usize = 512;

// The pieces of memory that a run may need, and the bytes of each.
const PIECES: usize = 8192;

const PIECE: usize = 12 << 10;

// More entries than any of the runs has, and more tickets.
const ENTRIES: usize = 64;

// How often memory was refused, by the call.
#[derive(Clone, Copy)]
struct RefusedCalls {
    evaluations: u32,
    commits: u32,
    updates: u32,
    rests: u32,
}

// A course in little memory.
#[derive(Drop)]
struct StarvedCourse<'c, 'h, 'g, 'd, K: Naming, R: Wait + Abort> {
    course: &'c GateCourse<'g, 'd, K, R>,
    hoard: &'h mut Hoard,
    refused: RefusedCalls,
}

// What came of a call: an entry, nothing to do, or want of memory.
#[derive(Drop)]
enum Came<K: Naming> {
    Entry(Grant<K>),
    Nothing,
    NoMemory,
}

// A call of a worker without a ticket.
#[derive(Clone, Copy)]
enum WorkerCall {
    Update,
    Rest,
}

fn came_of_update<K: Naming>(rt: &impl Abort, reply: UpdateReply<K>) -> Came<K> {
    match reply {
        UpdateReply::Accepted(grant) => Came::Entry(grant),
        UpdateReply::Nothing => Came::Nothing,
        UpdateReply::NoMemory => Came::NoMemory,
        UpdateReply::Stopped(_) => fail(rt, "a stop"),
    }
}

fn came_of_rest<K: Naming>(rt: &impl Abort, rest: Rest<K>) -> Came<K> {
    match rest {
        Rest::Changed(grant) => Came::Entry(grant),
        Rest::Quiet => Came::Nothing,
        Rest::NoMemory => Came::NoMemory,
        Rest::Busy | Rest::Stopped(_) => fail(rt, "busy or stopped"),
    }
}

/// The grant of an accepted turn, or the ticket of one that was refused memory: this event's, with no tries.
pub fn granted<K: Naming>(
    rt: &impl Abort,
    reply: Reply<K>,
    event: u64,
) -> Result<Grant<K>, Ticket<K>> {
    match reply {
        Reply::Accepted(grant) => Ok(grant),
        Reply::NoMemory(back) => {
            holds(rt, back.tries() == 0, "another try");
            holds(rt, back.event() == event, "another ticket");
            Err(back)
        }
        _ => fail(rt, "neither accepted nor refused memory"),
    }
}

impl<'c, 'h, 'g, 'd, K: Naming, R: Wait + Abort> StarvedCourse<'c, 'h, 'g, 'd, K, R> {
    // Takes what was given back since the last call, and leaves so much for the next one.
    fn leave(&mut self, count: usize) {
        leave(self.course.rt, self.hoard, count.saturating_mul(STEP));
    }

    // The turn of a ticket, evaluated with more and more memory.
    fn evaluate(&mut self, seat: &mut Seat<K>, ticket: &Ticket<K>) {
        for count in 0..ROOMS {
            self.leave(count);
            let log = self.course.try_evaluate(seat, ticket);
            self.hoard.shut();
            if log.is_some() {
                return;
            }
            self.refused.evaluations = self.refused.evaluations.saturating_add(1);
        }
        fail(self.course.rt, "no turn")
    }

    // The same turn, evaluated with memory enough.
    fn evaluate_again(&mut self, seat: &mut Seat<K>, ticket: &Ticket<K>) -> TurnLog
        ensures turn { IsTurnLog K.named.code ticket.now.state ticket.now.time result }
        ensures gave { GaveAll (IsRead K.named.code seat.new.fresh) result.reads }
    {
        open(self.course.rt, self.hoard);
        let log = self.course.evaluate(seat, ticket);
        self.hoard.shut();
        log
    }

    // Commits the turn of a ticket in so little memory. A ticket that comes back has as many tries as before.
    fn try_commit(
        &mut self,
        seat: &mut Seat<K>,
        ticket: Ticket<K>,
        count: usize,
    ) -> Result<Grant<K>, Ticket<K>> {
        let event = ticket.event();
        let log = self.evaluate_again(seat, &ticket);
        self.leave(count);
        let reply = self.course.commit(seat, ticket, &log);
        self.hoard.shut();
        granted(self.course.rt, reply, event)
    }

    // Commits the turn of a ticket with more and more memory. A ticket that comes back is evaluated again.
    fn commit(&mut self, seat: &mut Seat<K>, ticket: Ticket<K>) -> Grant<K> {
        self.evaluate(seat, &ticket);
        let mut ticket = ticket;
        for count in 0..ROOMS {
            match self.try_commit(seat, ticket, count) {
                Ok(grant) => return grant,
                Err(back) => ticket = back,
            }
            self.refused.commits = self.refused.commits.saturating_add(1);
        }
        fail(self.course.rt, "not accepted")
    }

    // What comes of a call in so little memory.
    fn ask(&mut self, seat: &mut Seat<K>, call: WorkerCall, count: usize) -> Came<K> {
        let course = self.course;
        self.leave(count);
        let came = match call {
            WorkerCall::Update => came_of_update(course.rt, course.update(seat)),
            WorkerCall::Rest => came_of_rest(course.rt, course.rest(seat)),
        };
        self.hoard.shut();
        came
    }

    // Counts a call that was refused memory.
    fn count_refused(&mut self, call: WorkerCall) {
        let refused = &mut self.refused;
        match call {
            WorkerCall::Update => refused.updates = refused.updates.saturating_add(1),
            WorkerCall::Rest => refused.rests = refused.rests.saturating_add(1),
        }
    }

    // Asks with more and more memory.
    fn insist(&mut self, seat: &mut Seat<K>, call: WorkerCall) -> Option<Grant<K>> {
        for count in 0..ROOMS {
            match self.ask(seat, call, count) {
                Came::Entry(grant) => return Some(grant),
                Came::Nothing => return None,
                Came::NoMemory => {}
            }
            self.count_refused(call);
        }
        fail(self.course.rt, "no answer")
    }

    // An update, or else a change of the regions.
    fn step_alone(&mut self, seat: &mut Seat<K>) -> Option<Grant<K>> {
        match self.insist(seat, WorkerCall::Update) {
            None => self.insist(seat, WorkerCall::Rest),
            update => update,
        }
    }

    // One entry more, where the run isn't quiet.
    fn step(&mut self, seat: &mut Seat<K>, tickets: &mut Vec<Ticket<K>>) -> Option<Grant<K>> {
        if tickets.is_empty() {
            self.step_alone(seat)
        } else {
            Some(self.commit(seat, first(self.course.rt, tickets)))
        }
    }

    // Leads a run to its end. Refusals append nothing.
    fn lead(&mut self, seat: &mut Seat<K>, mut tickets: Vec<Ticket<K>>) {
        let rt = self.course.rt;
        for position in 0..ENTRIES {
            let Some(grant) = self.step(seat, &mut tickets) else {
                return;
            };
            holds(
                rt,
                grant.position == position as u64,
                "entries before this one",
            );
            keep(rt, &mut tickets, grant.tickets);
        }
        fail(rt, "no end")
    }
}

// No refusals yet.
const NONE_YET: RefusedCalls = RefusedCalls {
    evaluations: 0,
    commits: 0,
    updates: 0,
    rests: 0,
};

// The tickets, with room for all that the run will have.
fn roomy<K: Naming>(rt: &impl Abort, alloc: Global, tickets: Vec<Ticket<K>>) -> Vec<Ticket<K>> {
    let mut held = Vec::with_capacity(alloc, ENTRIES).expect(rt, "memory");
    keep(rt, &mut held, tickets);
    held
}

// The first worker leads the run in too little memory. This is how often it was refused.
#[derive(Drop)]
struct Starving {
    refused: RefusedCalls,
}

impl SeatPair for Starving {
    fn lead<K: Naming, R: Wait + Abort>(&mut self, opened: Opened<'_, '_, '_, K, R>) -> Seats<K> {
        let (course, (mut one, two), tickets) = opened;
        let held = roomy(course.rt, course.alloc, tickets);
        let mut hoard = take_all(course.rt, course.alloc, PIECES, PIECE);
        let mut starved = StarvedCourse {
            course,
            hoard: &mut hoard,
            refused: self.refused,
        };
        starved.lead(&mut one, held);
        self.refused = starved.refused;
        (one, two)
    }
}

// A run is quiet after so many entries, with these lines.
fn assert_quiet(rt: &impl Abort, closed: &Closed, entries: usize, lines: &str) {
    holds(rt, closed.end() == End::Quiet, "the end");
    holds(rt, closed.entries().len() == entries, "the entries");
    holds(rt, closed.lines() == lines, "the lines");
}

// A source, the number of entries and the lines of its run, and which calls are refused memory in it.
#[derive(Clone, Copy)]
struct RefusedSteps<'a> {
    source: &'a str,
    entries: usize,
    lines: &'a str,
    evaluations: bool,
    commits: bool,
    updates: bool,
    rests: bool,
}

const PLAIN: RefusedSteps<'static> = RefusedSteps {
    source: COPY,
    entries: 2,
    lines: "",
    evaluations: true,
    commits: true,
    updates: false,
    rests: false,
};

/// A copy, a swap, a glitch that wakes a process, and an update that wakes one.
const ROWS: &[RefusedSteps<'static>] = &[
    PLAIN,
    RefusedSteps {
        source: SWAP,
        entries: 8,
        lines: "1 0\n",
        ..PLAIN
    },
    RefusedSteps {
        source: GLITCH,
        entries: 7,
        lines: "glitch\n",
        rests: true,
        ..PLAIN
    },
    RefusedSteps {
        source: UPDATES,
        entries: 6,
        lines: "up 1\n",
        updates: true,
        ..PLAIN
    },
];

// Memory was refused to each of these calls.
fn assert_refused(rt: &impl Abort, refused: RefusedCalls, row: &RefusedSteps<'_>) {
    holds(
        rt,
        refused.evaluations > 0 || !row.evaluations,
        "evaluations",
    );
    holds(rt, refused.commits > 0 || !row.commits, "commits");
    holds(rt, refused.updates > 0 || !row.updates, "updates");
    holds(rt, refused.rests > 0 || !row.rests, "rests");
}

// Memory is refused to the gate of a source, whose run is quiet at last and has these lines.
fn play<R: Wait + Abort>(rt: &R, alloc: Global, row: &RefusedSteps<'_>) {
    let mut starving = Starving { refused: NONE_YET };
    let closed = play_source(rt, alloc, row.source, &mut starving);
    assert_quiet(rt, &closed, row.entries, row.lines);
    assert_refused(rt, starving.refused, row);
}

#[test]
fn runs_go_on_through_refusals(rt: HostRuntime) {
    for row in ROWS {
        play(&rt, rt.alloc(), row);
    }
}
