//! The cells of all registers, the seats that read them, and the one holder that stores.
ghost use Rattle.std.specs.Prelude.{◌≡◌, ◌+◌, ◌<◌, ◌≤◌, List, [], ◌∷◌, map, length, replicate, Some, slice_get, slice_index, IfOk};
ghost use Rattle.std.specs.List.{All};
ghost use mathlib.Core.List.{IsPrefix};
ghost use Rattle.logic4.specs.Vector.{AreWithin};
ghost use Rattle.model.specs.Runs.{values_in};
ghost use Rattle.regions.specs.Past.{IsTurnChangeOf};
ghost use Rattle.regcells.specs.Values.{last_value, values_after};
ghost use Rattle.regcells.specs.Passes.{name_of_pass, name_of_register, fresh_by, AllHold, AllBegun};
ghost use Rattle.regcells.specs.CellSeats.{Fresh, register_widths, seen_of, with_seen, last_values, changes_left, beginnings};

use crate::register::Register;
use crate::rule::RegPass;
use design::{Design, RegId};
use logic4::bits::Bits;
use std::alloc::{AllocError, Global};
use std::marker::{Brand, Model};
use std::sync::Wait;
use turn::{Seen, TurnChange};

/// The cells of all registers. Contracts see which they are, and their widths.
#[derive(Drop)]
pub struct RegCells {
    registers: Vec<Register>,
}

impl Model for RegCells {
    ghost use Rattle.std.specs.Prelude.{List, map};
    ghost use Rattle.regcells.specs.CellSeats.{RegisterIdentity};

    ghost Value = { List RegisterIdentity };

    ghost use Rattle.regcells.specs.Passes.{name_of_register};

    ghost view = { λ s. map name_of_register s.registers.items };
}

/// What one worker has seen of each register.
#[derive(Drop)]
pub struct RegSeat {
    passes: Vec<RegPass>,
}

impl Model for RegSeat {
    ghost use Rattle.regcells.specs.CellSeats.{Fresh};

    ghost Value = { Fresh };

    ghost use Rattle.regcells.specs.Passes.{fresh_by, AllBegun};

    ghost view = { λ s. fresh_by s.passes.items };

    ghost invariant = { λ s. AllBegun s.passes.items };
}

/// The one who stores. It has seen all values of each register.
#[derive(Drop)]
pub struct Holder {
    passes: Vec<RegPass>,
}

impl Model for Holder {
    ghost use Rattle.regcells.specs.CellSeats.{Fresh};

    ghost Value = { Fresh };

    ghost use Rattle.regcells.specs.Passes.{fresh_by, AllHold};

    ghost view = { λ s. fresh_by s.passes.items };

    ghost invariant = { λ s. AllHold s.passes.items };
}

impl Holder {
    /// The number of registers. The last value of each has its width.
    pub fn registers(&self) -> usize
        ensures value { result ≡ length self.now.cells }
        ensures widths { map length (last_values self.now) ≡ register_widths self.now.cells }
    {
        self.passes.len()
    }
}

// The registers of these widths, and for each the pass that stores.
fn registers<R: Wait>(
    rt: &R,
    alloc: Global,
    widths: &[u32],
) -> Result<(Vec<Register>, Vec<RegPass>), AllocError>
    requires some { All (λ w. 1 ≤ w) widths.now }
    requires within { AreWithin widths.now }
    ensures names { IfOk result (λ r. map name_of_pass r.1.items ≡ map name_of_register r.0.items) }
    ensures widths { IfOk result (λ r. map (λ c. c.width) r.0.items ≡ widths.now) }
    ensures seen { IfOk result (λ r. (fresh_by r.1.items).seen ≡ beginnings widths.now) }
    ensures hold { IfOk result (λ r. AllHold r.1.items) }
{
    let mut registers = Vec::new(alloc);
    let mut passes = Vec::new(alloc);
    for width in widths {
        let (register, pass) = Register::new(rt, alloc, *width)?;
        registers.push(register)?;
        passes.push(pass)?;
    }
    Ok((registers, passes))
}

// What the passes have seen, for a seat.
fn notes(
    alloc: Global,
    registers: &Vec<Register>,
    passes: &mut Vec<RegPass>,
) -> Result<Vec<RegPass>, AllocError>
    requires names { map name_of_pass passes.old.items ≡ map name_of_register registers.now.items }
    requires hold { AllHold passes.old.items }
    ensures same { fresh_by passes.new.items ≡ fresh_by passes.old.items }
    ensures hold { AllHold passes.new.items }
    ensures notes { IfOk result (λ n. fresh_by n.items ≡ fresh_by passes.old.items) }
    ensures begun { IfOk result (λ n. AllBegun n.items) }
{
    let mut notes = Vec::new(alloc);
    for r in 0..registers.len() {
        let note = registers[r].note(&mut passes[r]);
        notes.push(note)?;
    }
    Ok(notes)
}

impl RegCells {
    /// A cell for each register of a design, all x. They come with the holder and with so many seats, and each has seen
    /// that. Fails where memory is refused.
    pub fn new<R: Wait>(
        rt: &R,
        alloc: Global,
        design: &Design,
        workers: u32,
    ) -> Result<(RegCells, Holder, Vec<RegSeat>), AllocError>
        ensures widths { IfOk result (λ r. register_widths r.0 ≡ design.now.widths) }
        ensures cells { IfOk result (λ r. r.1.cells ≡ r.0) }
        ensures unknown { IfOk result (λ r. r.1.seen ≡ beginnings design.now.widths) }
        ensures seats { IfOk result (λ r. r.2.items ≡ replicate workers r.1) }
    {
        RegCells::of_widths(rt, alloc, design.widths(), workers)
    }

    /// The same for registers of these widths, of no design.
    pub fn of_widths<R: Wait>(
        rt: &R,
        alloc: Global,
        widths: &[u32],
        workers: u32,
    ) -> Result<(RegCells, Holder, Vec<RegSeat>), AllocError>
        requires some { All (λ w. 1 ≤ w) widths.now }
        requires within { AreWithin widths.now }
        ensures widths { IfOk result (λ r. register_widths r.0 ≡ widths.now) }
        ensures cells { IfOk result (λ r. r.1.cells ≡ r.0) }
        ensures unknown { IfOk result (λ r. r.1.seen ≡ beginnings widths.now) }
        ensures seats { IfOk result (λ r. r.2.items ≡ replicate workers r.1) }
    {
        let (registers, passes) = registers(rt, alloc, widths)?;
        let cells = RegCells { registers };
        let mut holder = Holder { passes };
        let seats = cells.seats(alloc, &mut holder, workers)?;
        Ok((cells, holder, seats))
    }

    // A seat that has seen what the holder has.
    fn seat(&self, alloc: Global, holder: &mut Holder) -> Result<RegSeat, AllocError>
        requires { holder.old.cells ≡ self.now }
        ensures holder { holder.new ≡ holder.old }
        ensures seat { IfOk result (λ s. s ≡ holder.old) }
    {
        let passes = notes(alloc, &self.registers, &mut holder.passes)?;
        Ok(RegSeat { passes })
    }

    // So many seats that have seen what the holder has.
    fn seats(
        &self,
        alloc: Global,
        holder: &mut Holder,
        workers: u32,
    ) -> Result<Vec<RegSeat>, AllocError>
        requires { holder.old.cells ≡ self.now }
        ensures holder { holder.new ≡ holder.old }
        ensures seats { IfOk result (λ s. s.items ≡ replicate workers holder.old) }
    {
        let mut seats = Vec::new(alloc);
        for _ in 0..workers {
            seats.push(self.seat(alloc, holder)?)?;
        }
        Ok(seats)
    }

    /// A register's value and version, in one step: the value is the last of what the seat has then seen of this
    /// register, and the version is its place. It waits only where a store of this register comes between its loads, and
    /// then for the cell alone.
    pub fn read<R: Wait>(&self, rt: &R, seat: &mut RegSeat, register: RegId) -> Seen
        requires cells { seat.old.cells ≡ self.now }
        requires register { register < length self.now }
        ensures later { IsPrefix (seen_of seat.old register) (seen_of seat.new register) }
        ensures entry { slice_get (seen_of seat.new register) result.version ≡ Some result.value }
        ensures version { length (seen_of seat.new register) ≡ result.version + 1 }
        ensures width { length result.value ≡ slice_index (register_widths self.now) register }
        ensures others { seat.new ≡ with_seen seat.old register (seen_of seat.new register) }
    {
        self.registers[register as usize].look(rt, &mut seat.passes[register as usize])
    }

    /// A register's last value, and its version.
    pub fn get_held<R: Wait>(&self, rt: &R, holder: &mut Holder, register: RegId) -> Seen
        requires cells { holder.old.cells ≡ self.now }
        requires register { register < length self.now }
        ensures same { holder.new ≡ holder.old }
        ensures entry { slice_get (seen_of holder.old register) result.version ≡ Some result.value }
        ensures version { length (seen_of holder.old register) ≡ result.version + 1 }
        ensures last { result.value ≡ last_value (seen_of holder.old register) }
        ensures width { length result.value ≡ slice_index (register_widths self.now) register }
    {
        self.registers[register as usize].check(rt, &mut holder.passes[register as usize])
    }

    /// Gives a register a value of its width: one entry more in its list where it differs from the last, and else
    /// nothing.
    pub fn store<R: Wait>(&self, rt: &R, holder: &mut Holder, register: RegId, value: Bits)
        requires cells { holder.old.cells ≡ self.now }
        requires register { register < length self.now }
        requires width { length value ≡ slice_index (register_widths self.now) register }
        requires room { 0 < changes_left holder.old register }
        ensures { holder.new ≡ with_seen holder.old register (values_after (seen_of holder.old register) (value ∷ [])) }
    {
        let turn_change = TurnChange {
            register,
            first: value,
            changes: 0,
            last: value,
        };
        self.store_turn_change(rt, holder, turn_change, &[(register, value)]);
    }

    /// Gives a register the values that these writes give it, one after another, of which the turn change is known: one entry more
    /// in its list for each that differs from the one before. The cell is stored once, or not at all where none does. The
    /// writes are what contracts say it of: the turn change tells all that a store needs.
    pub fn store_turn_change<R: Wait>(
        &self,
        rt: &R,
        holder: &mut Holder,
        turn_change: TurnChange,
        writes: &[(RegId, Bits)],
    )
        requires cells { holder.old.cells ≡ self.now }
        requires register { turn_change.register < length self.now }
        requires turn_change { IsTurnChangeOf (values_in turn_change.register writes.now) turn_change }
        requires widths { All (λ v. length v ≡ slice_index (register_widths self.now) turn_change.register) (values_in turn_change.register writes.now) }
        requires room { turn_change.changes < changes_left holder.old turn_change.register }
        ensures { holder.new ≡ with_seen holder.old turn_change.register (values_after (seen_of holder.old turn_change.register) (values_in turn_change.register writes.now)) }
    {
        let register = turn_change.register as usize;
        self.registers[register].write::<Brand, R>(
            rt,
            &mut holder.passes[register],
            turn_change,
            writes,
        );
    }

    /// The seat has then seen all values of a register, which begin with those that it had seen. Tells the last, and its
    /// version.
    pub fn meet<R: Wait>(
        &self,
        rt: &R,
        seat: &mut RegSeat,
        holder: &mut Holder,
        register: RegId,
    ) -> Seen
        requires seat { seat.old.cells ≡ self.now }
        requires holder { holder.old.cells ≡ self.now }
        requires register { register < length self.now }
        ensures seat { seat.new ≡ with_seen seat.old register (seen_of holder.old register) }
        ensures here { seen_of seat.new register ≡ seen_of holder.old register }
        ensures later { IsPrefix (seen_of seat.old register) (seen_of holder.old register) }
        ensures holder { holder.new ≡ holder.old }
        ensures entry { slice_get (seen_of holder.old register) result.version ≡ Some result.value }
        ensures version { length (seen_of holder.old register) ≡ result.version + 1 }
    {
        self.registers[register as usize].tell(
            rt,
            &mut seat.passes[register as usize],
            &mut holder.passes[register as usize],
        )
    }
}
