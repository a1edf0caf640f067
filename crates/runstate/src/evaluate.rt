//! A turn that is evaluated under the lock, on the last value of each register.
ghost use Rattle.std.specs.Prelude.{◌≡◌, ◌≤◌, length, MatchResult};
ghost use Rattle.model.specs.Runs.{last_time};
ghost use Rattle.turn.specs.TurnAnswers.{IsTurnLog, IsNoTurn};
ghost use Rattle.turn.specs.declared.log.FillFault.TheVariants as fault_of;
ghost use Rattle.turn.specs.Reads.{GaveAll};
ghost use Rattle.runstate.specs.Holding.{IsLastIn};

use design::{Design, ProcState, RegId};
use regcells::{Holder, RegCells};
use std::marker::{Brand, Model, PhantomData};
use std::sync::Wait;
use turn::{FillFault, RegReader, Seen, TurnLog, fill_turn};

/// What the holder has seen, in contracts alone.
pub trait Holding {
    ghost use Rattle.regcells.specs.CellSeats.{Fresh};

    ghost holds: { Fresh };
}

impl Holding for Brand {
    ghost use Rattle.runstate.specs.Holding.{no_registers};

    ghost holds = { no_registers };
}

// Reads the last value of each register, of which the holder has seen what its type names. Contracts see which loan of the holder
// the reader has.
#[derive(Drop)]
struct HeldReader<'g, H: Holding, R: Wait> {
    rt: &'g R,
    cells: &'g RegCells,
    holder: &'g mut Holder,
    of: PhantomData<H>,
}

impl<'g, H: Holding, R: Wait> Model for HeldReader<'g, H, R> {
    ghost use Rattle.std.specs.Prelude.{◌≡◌, ℕ};

    ghost Value = { ℕ };

    ghost view = { λ r. r.holder.ghost_name };

    ghost invariant = { λ r. (r.cells.now ≡ H.holds.cells) × (r.holder.now ≡ H.holds) };
}

impl<'g, H: Holding, R: Wait> HeldReader<'g, H, R> {
    // Gives the holder back.
    fn into_holder(self) -> &'g mut Holder
        ensures name { result.ghost_name ≡ self.entry }
        ensures now { result.now ≡ H.holds }
    {
        let HeldReader {
            rt: _,
            cells: _,
            holder,
            of: _,
        } = self;
        holder
    }
}

impl<'g, H: Holding, R: Wait> RegReader for HeldReader<'g, H, R> {
    ghost use Rattle.std.specs.Prelude.{ℕ, length};
    ghost use Rattle.runstate.specs.Holding.{IsLastIn};

    ghost registers = { length H.holds.cells };

    ghost gave = { λ s r seen. IsLastIn H.holds r seen };

    ghost Lasting = { ℕ };

    ghost lasting = { λ r. r };

    fn read(&mut self, register: RegId) -> Seen {
        self.cells.get_held(self.rt, self.holder, register)
    }
}

/// The cells of the registers, with the handle by which a thread loads and stores them.
#[derive(Drop)]
pub struct CellAccess<'g, R: Wait> {
    pub rt: &'g R,
    pub cells: &'g RegCells,
}

/// Fills a log with the turn from a process state on, on the last value of each register. The holder stays as it was.
pub fn held_turn<H: Holding, R: Wait>(
    access: CellAccess<'_, R>,
    holder: &mut Holder,
    log: &mut TurnLog,
    design: &Design,
    state: &ProcState,
    now: u64,
) -> Result<(), FillFault>
    requires cells { access.cells.now ≡ H.holds.cells }
    requires holder { holder.old ≡ H.holds }
    requires registers { length design.now.widths ≡ length H.holds.cells }
    requires now { now ≤ last_time }
    ensures same { holder.new ≡ holder.old }
    ensures turn { MatchResult result (λ _. IsTurnLog design.now state.now now log.new) (IsNoTurn design.now state.now now log.new.reads) }
    ensures gave { MatchResult result (λ _. GaveAll (IsLastIn H.holds) log.new.reads) (λ fault. fault ≡ fault_of.TooLong → GaveAll (IsLastIn H.holds) log.new.reads) }
{
    let mut reader: HeldReader<'_, H, R> = HeldReader {
        rt: access.rt,
        cells: access.cells,
        holder,
        of: PhantomData,
    };
    let turn = fill_turn(log, design, state, now, &mut reader);
    // With the reader's end the holder is known again.
    reader.into_holder();
    turn
}
