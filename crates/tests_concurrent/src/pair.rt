// Gates of two workers, from the opening to the end. Where the second one does nothing, the first leads the run alone.
ghost use Rattle.std.specs.Prelude.{◌≡◌};

use crate::claims::holds;
use crate::course::{GateCourse, Seats, close_two, design_of, two_of};
use commitgate::{Blank, Closed, Gate, Naming, Ticket};
use design::Design;
use model::end::Limits;
use std::alloc::Global;
use std::marker::Brand;
use std::process::Abort;
use std::sync::Wait;

/// An open gate, the seats of its two workers, and a ticket for each process.
pub type Opened<'c, 'g, 'd, K, R> = (&'c GateCourse<'g, 'd, K, R>, Seats<K>, Vec<Ticket<K>>);

/// What the two workers of a gate do.
pub trait SeatPair {
    /// Leads the run, and gives the seats back.
    fn lead<K: Naming, R: Wait + Abort>(&mut self, opened: Opened<'_, '_, '_, K, R>) -> Seats<K>;
}

// Two workers lead the run at an open gate.
fn lead<K: Naming, R: Wait + Abort, W: SeatPair>(
    course: &GateCourse<'_, '_, K, R>,
    seats: Seats<K>,
    tickets: Vec<Ticket<K>>,
    work: &mut W,
) -> Seats<K> {
    work.lead((course, seats, tickets))
}

// Opens a gate for two workers, which lead the run, and closes it.
fn run<K: Naming, R: Wait + Abort, W: SeatPair>(
    rt: &R,
    alloc: Global,
    design: &Design,
    blank: Blank<'_>,
    work: &mut W,
) -> Closed
    requires name { blank ≡ K.named }
    requires design { design.now ≡ K.named.code }
    requires workers { K.named.workers ≡ 2 }
{
    let (gate, seats, tickets) = blank.open::<K>(alloc).expect(rt, "memory");
    let seats = two_of(rt, seats);
    let course = GateCourse::new(rt, alloc, &gate, design);
    let (one, two) = lead(&course, seats, tickets, work);
    drop(course);
    close_two(rt, alloc, gate, one, two)
}

/// The gate of a design that two workers lead so, with room for so many entries.
pub fn play_pair<R: Wait + Abort, W: SeatPair>(
    rt: &R,
    alloc: Global,
    design: &Design,
    max_entries: u32,
    work: &mut W,
) -> Closed {
    holds(rt, max_entries > 0, "room for an entry");
    let limits = Limits {
        until: None,
        max_entries,
    };
    let blank = Gate::new(rt, alloc, design, 2, limits).expect(rt, "memory");
    run::<Brand, R, W>(rt, alloc, design, blank, work)
}

/// The same of the design of a source, with room enough.
pub fn play_source<R: Wait + Abort, W: SeatPair>(
    rt: &R,
    alloc: Global,
    source: &str,
    work: &mut W,
) -> Closed {
    let design = design_of(rt, alloc, source);
    play_pair(rt, alloc, &design, 1_000, work)
}
