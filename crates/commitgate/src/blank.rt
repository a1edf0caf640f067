//! A gate before it has a name, and its opening.
ghost use Rattle.std.specs.List.{range_with_len};
ghost use Rattle.std.specs.Prelude.{◌≡◌, ◌<◌, ◌≤◌, [], map, replicate, IfOk, IfSome};
ghost use Rattle.crossbeam_utils.specs.Seq.{cell_view};
ghost use Rattle.model.specs.States.{start};
ghost use Rattle.design.specs.Compiled.{design_of};
ghost use Rattle.design.specs.DesignInvariant.{IsStateOf};
ghost use Rattle.regions.specs.StatePassing.{HasOwnStates};
ghost use Rattle.runstate.specs.GateState.{state_in};
ghost use Rattle.runstate.specs.RunState.{gate_state_of};
ghost use Rattle.runstate.specs.Marked.{keeper};
ghost use Rattle.commitgate.specs.Blanks.{first_fresh};
ghost use Rattle.commitgate.specs.Seats.{new_seat};
ghost use Rattle.commitgate.specs.Tickets.{IsFirstTickets};

use crate::gate::Gate;
use crate::naming::Naming;
use crate::seat::Seat;
use crate::state::GateState;
use crate::ticket::Ticket;
use design::Design;
use model::end::Limits;
use regcells::{RegCells, RegSeat};
use runstate::{MarkCell, MarkPass, RunState, new_mark, next_seat};
use std::alloc::{AllocError, Global};
use std::marker::{Brand, Model};
use std::sync::Wait;

/// A gate that has no name yet. Contracts see the name that it will have.
#[derive(Drop)]
pub struct Blank<'d> {
    workers: u32,
    cells: RegCells,
    seats: Vec<RegSeat>,
    mark: MarkCell,
    // Room for a number of each worker, so that a gate closes without asking for memory.
    committed: Vec<u64>,
    run_state: RunState<'d>,
}

impl<'d> Model for Blank<'d> {
    ghost use Rattle.commitgate.specs.Named.{Named};

    ghost Value = { Named };

    ghost use Rattle.std.specs.Coded.{codes};
    ghost use Rattle.design.specs.contracts.tree.Statement as statements;

    ghost coded = { Prim.hlevel (codes, statements.the_row.coded) };

    ghost use Rattle.std.specs.Vec.{vec_capacity};
    ghost use Rattle.commitgate.specs.Blanks.{IsBlank};

    ghost view = { λ b. record { code = b.run_state.design.now; workers = b.workers; limits = b.run_state.limits; cells = b.cells; mark = b.mark.table.shared.table_id } };

    ghost invariant = { λ b. IsBlank (record { code = b.run_state.design.now; workers = b.workers; limits = b.run_state.limits; cells = b.cells; mark = b.mark.table.shared.table_id }) (vec_capacity b.committed) b.committed.items b.seats.items b.run_state };
}

impl<'d> Gate<'d, Brand> {
    ghost use Rattle.model.specs.Runs.{last_time};

    /// A gate without a name, for a design, with so many workers, 1 to 16, and with limits, whose last time is at most
    /// 2 to the 48.
    pub fn new<R: Wait>(
        rt: &R,
        alloc: Global,
        design: &'d Design,
        workers: u32,
        limits: Limits,
    ) -> Result<Blank<'d>, AllocError>
        requires some { 1 ≤ workers }
        requires few { workers ≤ 16 }
        requires until { IfSome limits.until (λ until. until ≤ last_time) }
        ensures code { IfOk result (λ b. b.code ≡ design.now) }
        ensures workers { IfOk result (λ b. b.workers ≡ workers) }
        ensures limits { IfOk result (λ b. b.limits ≡ limits) }
    {
        let committed = Vec::with_capacity(alloc, workers as usize)?;
        let (cells, holder, seats) = RegCells::new(rt, alloc, design, workers)?;
        let (mark, whole) = new_mark(alloc)?;
        let run_state = RunState::new(alloc, design, limits, holder, whole)?;
        Ok(Blank {
            workers,
            cells,
            seats,
            mark,
            committed,
            run_state,
        })
    }
}

// A ticket for the first event of each process.
fn first_tickets<K: Naming>(
    alloc: Global,
    run_state: &RunState<'_>,
) -> Result<Vec<Ticket<K>>, AllocError>
    requires code { run_state.now.design.now ≡ K.named.code }
    requires starts { state_in K.named.code (gate_state_of run_state.now) ≡ start (design_of K.named.code) }
    requires states { HasOwnStates (IsStateOf K.named.code) run_state.now.regions }
    ensures { IfOk result (λ tickets. IsFirstTickets K.named.code tickets.items) }
{
    let time = run_state.regions.time();
    let mut tickets = Vec::new(alloc);
    for process in 0..run_state.design.processes() {
        let event = u64::from(process);
        match run_state.regions.evaluation(event) {
            Some((process, state)) => tickets.push(Ticket::new(event, process, state, time))?,
            None => unreachable!(),
        }
    }
    Ok(tickets)
}

// A seat for each worker.
fn seat_all<K: Naming>(
    alloc: Global,
    workers: u32,
    mark: &MarkCell,
    whole: &mut MarkPass,
    mut regs: Vec<RegSeat>,
) -> Result<Vec<Seat<K>>, AllocError>
    requires workers { workers ≡ K.named.workers }
    requires marks { (mark.now.table.shared.table_id ≡ K.named.mark) × (whole.old.table_id ≡ K.named.mark) }
    requires whole { cell_view whole.old ≡ keeper 0 [] }
    requires regs { regs.items ≡ replicate K.named.workers (first_fresh K.named) }
    ensures marks { whole.new.table_id ≡ K.named.mark }
    ensures whole { cell_view whole.new ≡ keeper (cell_view whole.new).made [] }
    ensures seats { IfOk result (λ seats. seats.items ≡ map (new_seat K.named.code) (range_with_len 0 K.named.workers)) }
{
    let mut seats = Vec::new(alloc);
    for worker in 0..workers {
        let Some(own) = regs.pop() else {
            unreachable!()
        };
        let pass = next_seat(mark, whole);
        seats.push(Seat::new(alloc, worker, own, pass))?;
    }
    Ok(seats)
}

impl<'d> Blank<'d> {
    /// The gate under its name, with a seat for each worker and a ticket for each process, in order.
    pub fn open<K: Naming>(
        self,
        alloc: Global,
    ) -> Result<(Gate<'d, K>, Vec<Seat<K>>, Vec<Ticket<K>>), AllocError>
        requires { self ≡ K.named }
        ensures seats { IfOk result (λ r. r.1.items ≡ map (new_seat K.named.code) (range_with_len 0 K.named.workers)) }
        ensures tickets { IfOk result (λ r. IsFirstTickets K.named.code r.2.items) }
    {
        let Ok(tickets) = first_tickets::<K>(alloc, &self.run_state) else {
            drop(self);
            return Err(AllocError);
        };
        let Blank {
            workers,
            cells,
            seats,
            mark,
            committed,
            mut run_state,
        } = self;
        let Ok(seats) = seat_all::<K>(alloc, workers, &mark, &mut run_state.whole, seats) else {
            drop(run_state);
            drop(mark);
            return Err(AllocError);
        };
        let state = GateState::new(alloc, run_state);
        let gate = Gate::under_name(cells, mark, state, committed);
        Ok((gate, seats, tickets))
    }
}
