// Registers are read while another thread has the lock.
ghost use Rattle.std.specs.Prelude.{◌≡◌};
ghost use Rattle.std.specs.Thread.{IsSend, IsSync};
ghost use Rattle.design.specs.contracts.design.Design as design_rows;

use crate::claims::{fail, holds};
use crate::course::{GateCourse, design_of, last, two_of};
use commitgate::{Blank, Gate, Naming, Rest, Seat, Ticket, UpdatesEnd};
use design::Design;
use model::end::Limits;
use std::alloc::Global;
use std::marker::Brand;
use std::process::Abort;
use std::sync::Wait;
use std::sync::atomic::{AtomicBool, Ordering};
use std::thread;
use std::thread::{Threads, yield_now};

/// One turn makes updates, which one holding of the lock takes one after another.
const SOURCE: &str =
    "module t; reg [15:0] n; reg a, b; initial begin n=16'd0; while (n<16'd5000) begin a<=n[0]; b<=~n[0]; n=n+16'd1; end end endmodule";

// Its updates, and the entries before them: the turn, and the change of the regions.
const UPDATES: u16 = 10_000;

const BEFORE: u64 = 2;

// How often each register is read in one holding of the lock.
const READS: u32 = 100;

// In how many holdings they are read so, and how many holdings there may be for that, since a thread may begin to look too late. Where there was no
// such holding among the first ones, no more are made.
const HOLDINGS: u32 = 10;

const FIRST_HOLDINGS: u32 = 100;

const MOST_HOLDINGS: u32 = 1_000;

// The only turn, and the change of the regions that makes its updates active.
fn begin<K: Naming, R: Wait + Abort>(
    course: &GateCourse<'_, '_, K, R>,
    seat: &mut Seat<K>,
    mut tickets: Vec<Ticket<K>>,
) {
    let rt = course.rt;
    course.serve_at(seat, last(rt, &mut tickets), 0);
    let rest = course.rest(seat);
    holds(
        rt,
        matches!(rest, Rest::Changed(_)),
        "no change of the regions",
    );
}

// How often a thread looks before it gives up.
const LOOKS: u32 = 1_000_000;

// Waits until the other thread looks.
fn wait_for(rt: &impl Abort, looks: &AtomicBool) {
    for _ in 0..LOOKS {
        if looks.load(Ordering::SeqCst) {
            return;
        }
        yield_now();
    }
    fail(rt, "the other thread doesn't look");
}

// Makes all updates in one holding of the lock.
fn update_all<K: Naming, R: Wait + Abort>(
    course: &GateCourse<'_, '_, K, R>,
    mut one: Seat<K>,
    looks: &AtomicBool,
) -> Seat<K> {
    let rt = course.rt;
    let room = usize::from(UPDATES) + 1;
    let mut grants = Vec::with_capacity(course.alloc, room).expect(rt, "memory");
    wait_for(rt, looks);
    let end = course
        .gate
        .update_all(rt, course.alloc, &mut one, &mut grants);
    holds(rt, matches!(end, UpdatesEnd::Nothing), "an update is left");
    holds(rt, grants.len() == usize::from(UPDATES), "other updates");
    one
}

// How many updates the mark tells of.
fn updates<K: Naming, R: Wait + Abort>(
    course: &GateCourse<'_, '_, K, R>,
    seat: &mut Seat<K>,
) -> u64 {
    let entries = course.gate.entries(course.rt, seat);
    entries.saturating_sub(BEFORE)
}

// Whether another thread has the lock: it made some of the updates and not the last one.
fn is_held(updates: u64) -> bool {
    0 < updates && updates < u64::from(UPDATES)
}

// Whether the lock was held from before each register was read until after that.
fn read_held<K: Naming, R: Wait + Abort>(
    course: &GateCourse<'_, '_, K, R>,
    seat: &mut Seat<K>,
) -> bool {
    if !is_held(updates(course, seat)) {
        yield_now();
        return false;
    }
    course.read(seat, 0);
    course.read(seat, 1);
    course.read(seat, 2);
    is_held(updates(course, seat))
}

// Whether each register was read so often while the lock was held.
fn read_often<K: Naming, R: Wait + Abort>(
    course: &GateCourse<'_, '_, K, R>,
    mut two: Seat<K>,
    looks: &AtomicBool,
) -> bool {
    looks.store(true, Ordering::SeqCst);
    let mut times = 0u32;
    for _ in 0..LOOKS {
        if read_held(course, &mut two) {
            times = times.saturating_add(1);
        }
        if times == READS {
            return true;
        }
        if updates(course, &mut two) == u64::from(UPDATES) {
            return false;
        }
    }
    fail(course.rt, "the updates don't end")
}

fn is_shared<T: Sync>()
    ensures { IsSync T.row }
{}

fn design_is_shared()
    ensures { IsSync design_rows.the_row }
{
    is_shared::<Design>();
}

// One thread has the lock while the other reads.
fn race<K: Naming + Send + Sync, R: Threads + Wait + Abort + Sync>(
    course: &GateCourse<'_, '_, K, R>,
    one: Seat<K>,
    two: Seat<K>,
) -> bool
    requires design { IsSync design_rows.the_row }
    requires runtime { IsSync R.row }
    requires name { IsSend K.row }
{
    let looks = AtomicBool::new(false);
    let (one, was_read) = thread::join(
        course.rt,
        || -> Seat<K> { update_all(course, one, &looks) },
        || -> bool { read_often(course, two, &looks) },
    );
    drop(one);
    was_read
}

// Opens a gate for two workers. One of them makes all updates in one holding of the lock, and the other reads meanwhile:
// whether it read each register often enough before the lock was let go.
fn run<K: Naming + Send + Sync, R: Threads + Wait + Abort + Sync>(
    rt: &R,
    alloc: Global,
    design: &Design,
    blank: Blank<'_>,
) -> bool
    requires name { blank ≡ K.named }
    requires design { design.now ≡ K.named.code }
{
    let (gate, seats, tickets) = blank.open::<K>(alloc).expect(rt, "memory");
    let (mut one, two) = two_of(rt, seats);
    let course = GateCourse::new(rt, alloc, &gate, design);
    begin(&course, &mut one, tickets);
    design_is_shared();
    race(&course, one, two)
}

// The same for a gate of its own.
fn play<R: Threads + Wait + Abort + Sync>(rt: &R, alloc: Global, design: &Design) -> bool {
    let limits = Limits {
        until: None,
        max_entries: 20_000,
    };
    let blank = Gate::new(rt, alloc, design, 2, limits).expect(rt, "memory");
    run::<Brand, R>(rt, alloc, design, blank)
}

#[test]
fn registers_are_read_while_the_lock_is_held(rt: HostRuntime) {
    let design = design_of(&rt, rt.alloc(), SOURCE);
    let mut read = 0u32;
    for count in 0..MOST_HOLDINGS {
        if play(&rt, rt.alloc(), &design) {
            read = read.saturating_add(1);
        }
        if read == HOLDINGS {
            return;
        }
        holds(
            &rt,
            read > 0 || count < FIRST_HOLDINGS,
            "no reading of a held gate",
        );
    }
    fail(&rt, "too few readings of a held gate");
}
