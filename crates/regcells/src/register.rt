//! One register: its cell, and the steps of a pass of it.
ghost use Rattle.std.specs.Prelude.{◌≡◌, ◌+◌, ◌<◌, ◌≤◌, ◌-◌, ◌^◌, true, List, [], ◌∷◌, length, Some, slice_get, IfOk};
ghost use Rattle.std.specs.List.{All};
ghost use mathlib.Core.List.{IsPrefix};
ghost use Rattle.crossbeam_utils.specs.Seq.{cell_view};
ghost use Rattle.crossbeam_utils.specs.Register.{Turns};
ghost use Rattle.logic4.specs.Vector.{Vector, unknown, greatest_width};
ghost use Rattle.turn.specs.TurnChanges.{altered};
ghost use Rattle.regions.specs.Past.{IsTurnChangeOf};
ghost use Rattle.regcells.specs.Values.{register_width, last_value, values_after, room_of};
ghost use Rattle.regcells.specs.RegisterRule.{holder, informed, CellInvariant};
ghost use Rattle.regcells.specs.Passes.{seen_by, name_of_pass, name_of_register, HasSeenValue, IsHolding};

use crate::rule::{Cell, Checks, Giving, Notes, RegPass, RegisterLoad, Stores, View};
use crate::words::{WORDS, seen_in, words_of};
use crossbeam_utils::rule::Outcome;
use design::RegId;
use logic4::bits::Bits;
use std::alloc::{AllocError, Global};
use std::marker::Brand;
use std::sync::Wait;
use turn::{Seen, TurnChange};

/// A register's cell, and the width of its values.
#[derive(Drop)]
pub struct Register {
    cell: Cell,
    width: u32,
}

// How many of the values of which the turn change is known differ from the one before, where this one stands before the first.
fn changes_after(last: Bits, turn_change: TurnChange) -> u64
    requires { turn_change.changes < 2 ^ 64 - 1 }
    ensures value { (given : List Vector) → IsTurnChangeOf given turn_change → result ≡ length (altered last given) }
    ensures few { result ≤ turn_change.changes + 1 }
{
    if last == turn_change.first {
        return turn_change.changes;
    }
    turn_change.changes + 1
}

impl Register {
    // One load, which tells what its outcome says.
    #[inline(always)]
    fn load<M: Outcome<[u64; WORDS], View>, R: Wait>(
        &self,
        rt: &R,
        pass: &mut RegPass,
    ) -> [u64; WORDS]
        requires cell { pass.old.table_id ≡ self.now.cell.table.shared.table_id }
        requires rule { Turns CellInvariant pass.old.id (cell_view pass.old) (λ x. x) M.then }
        ensures cell { pass.new.table_id ≡ pass.old.table_id }
        ensures rule { M.then (cell_view pass.old) result result (cell_view pass.new) }
    {
        self.cell.load_as::<M, R>(rt, pass)
    }

    // One store, which tells what its outcome says. It gives the words before it.
    #[inline(always)]
    fn swap<M: Outcome<[u64; WORDS], View>, R: Wait>(
        &self,
        rt: &R,
        pass: &mut RegPass,
        words: [u64; WORDS],
    ) -> [u64; WORDS]
        requires cell { pass.old.table_id ≡ self.now.cell.table.shared.table_id }
        requires rule { Turns CellInvariant pass.old.id (cell_view pass.old) (λ _. words) M.then }
        ensures cell { pass.new.table_id ≡ pass.old.table_id }
        ensures rule { M.then (cell_view pass.old) result words (cell_view pass.new) }
    {
        self.cell.swap_as::<M, R>(rt, pass, words)
    }

    /// A register of this width, all x, and the pass that stores.
    pub fn new<R: Wait>(
        rt: &R,
        alloc: Global,
        width: u32,
    ) -> Result<(Register, RegPass), AllocError>
        requires some { 1 ≤ width }
        requires within { width ≤ greatest_width }
        ensures { IfOk result (λ r. (name_of_pass r.1 ≡ name_of_register r.0) × (r.0.width ≡ width) × (cell_view r.1 ≡ holder (unknown width ∷ []))) }
    {
        let (cell, mut pass) = Cell::ruled(alloc, [0; WORDS])?;
        let register = Register { cell, width };
        register.put::<Brand, R>(rt, &mut pass, 0, Bits::unknown(width));
        Ok((register, pass))
    }

    /// One load by a seat.
    pub fn look<R: Wait>(&self, rt: &R, pass: &mut RegPass) -> Seen
        requires register { name_of_pass pass.old ≡ name_of_register self.now }
        requires begun { HasSeenValue pass.old }
        ensures name { name_of_pass pass.new ≡ name_of_pass pass.old }
        ensures later { IsPrefix (seen_by pass.old) (seen_by pass.new) }
        ensures entry { slice_get (seen_by pass.new) result.version ≡ Some result.value }
        ensures version { length (seen_by pass.new) ≡ result.version + 1 }
        ensures width { length result.value ≡ self.now.width }
    {
        let words = self.load::<RegisterLoad, R>(rt, pass);
        seen_in(self.width, words)
    }

    /// One load by the holder. Inlined, so that a caller who asks for the version alone makes no value.
    #[inline(always)]
    pub fn check<R: Wait>(&self, rt: &R, pass: &mut RegPass) -> Seen
        requires register { name_of_pass pass.old ≡ name_of_register self.now }
        requires begun { HasSeenValue pass.old }
        requires holds { (cell_view pass.old).holds ≡ true }
        ensures name { name_of_pass pass.new ≡ name_of_pass pass.old }
        ensures same { cell_view pass.new ≡ holder (seen_by pass.old) }
        ensures told { IsPrefix (cell_view pass.old).shown (seen_by pass.old) }
        ensures entry { slice_get (seen_by pass.old) result.version ≡ Some result.value }
        ensures version { length (seen_by pass.old) ≡ result.version + 1 }
        ensures width { length result.value ≡ self.now.width }
    {
        let words = self.load::<Checks, R>(rt, pass);
        seen_in(self.width, words)
    }

    // One store by the holder: the last of the values, with its place as the version.
    fn put<X: Giving, R: Wait>(&self, rt: &R, pass: &mut RegPass, version: u64, value: Bits)
        requires cell { pass.old.table_id ≡ self.now.cell.table.shared.table_id }
        requires holds { cell_view pass.old ≡ holder (seen_by pass.old) }
        requires last { value ≡ last_value (values_after (seen_by pass.old) X.given) }
        requires version { length (values_after (seen_by pass.old) X.given) ≡ version + 1 }
        requires width { register_width (values_after (seen_by pass.old) X.given) ≡ length value }
        ensures cell { pass.new.table_id ≡ pass.old.table_id }
        ensures given { cell_view pass.new ≡ holder (values_after (seen_by pass.old) X.given) }
    {
        let words = words_of(value, version);
        self.swap::<Stores<X>, R>(rt, pass, words);
    }

    /// The holder gives the register values, one after another, of which the turn change is known. One store of the last of them
    /// adds all that differ from the one before, and where none does there is no store. The writes are what the caller
    /// names the values by.
    pub fn write<X: Giving, R: Wait>(
        &self,
        rt: &R,
        pass: &mut RegPass,
        turn_change: TurnChange,
        _writes: &[(RegId, Bits)],
    )
        requires register { name_of_pass pass.old ≡ name_of_register self.now }
        requires holding { IsHolding pass.old }
        requires turn_change { IsTurnChangeOf X.given turn_change }
        requires widths { All (λ v. length v ≡ self.now.width) X.given }
        requires room { turn_change.changes < room_of (seen_by pass.old) }
        ensures name { name_of_pass pass.new ≡ name_of_pass pass.old }
        ensures holding { IsHolding pass.new }
        ensures given { seen_by pass.new ≡ values_after (seen_by pass.old) X.given }
    {
        let value = turn_change.last;
        let last = self.check(rt, pass);
        let more = changes_after(last.value, turn_change);
        if more == 0 {
            return;
        }
        self.put::<X, R>(rt, pass, last.version + more, value);
    }

    /// What a pass has seen, for another.
    pub fn note(&self, pass: &mut RegPass) -> RegPass
        requires { name_of_pass pass.old ≡ name_of_register self.now }
        ensures name { (name_of_pass pass.new ≡ name_of_pass pass.old) × (name_of_pass result ≡ name_of_pass pass.old) }
        ensures same { cell_view pass.new ≡ cell_view pass.old }
        ensures seen { seen_by result ≡ seen_by pass.old }
        ensures plain { result.me.1 ≡ [] }
    {
        self.cell.split_pass::<Notes>(pass)
    }

    // The holder's pass is told of what another has seen.
    fn inform(&self, all: &mut RegPass, note: RegPass)
        requires all { name_of_pass all.old ≡ name_of_register self.now }
        requires note { note.table_id ≡ all.old.table_id }
        requires plain { note.me.1 ≡ [] }
        ensures name { all.new.table_id ≡ all.old.table_id }
        ensures told { cell_view all.new ≡ informed (cell_view all.old) (cell_view note) }
    {
        self.cell.join_pass::<Notes>(all, note);
    }

    /// The seat's pass has then seen all that the holder's has, of which it tells the last. A join alone tells nothing: what the
    /// seat has seen is compared with the holder's values at the next load.
    pub fn tell<R: Wait>(&self, rt: &R, pass: &mut RegPass, all: &mut RegPass) -> Seen
        requires register { name_of_pass pass.old ≡ name_of_register self.now }
        requires all { name_of_pass all.old ≡ name_of_register self.now }
        requires holding { IsHolding all.old }
        ensures name { (name_of_pass pass.new ≡ name_of_pass pass.old) × (name_of_pass all.new ≡ name_of_pass all.old) }
        ensures seen { seen_by pass.new ≡ seen_by all.old }
        ensures later { IsPrefix (seen_by pass.old) (seen_by all.old) }
        ensures same { cell_view all.new ≡ cell_view all.old }
        ensures entry { slice_get (seen_by all.old) result.version ≡ Some result.value }
        ensures version { length (seen_by all.old) ≡ result.version + 1 }
    {
        let note = self.note(pass);
        self.inform(all, note);
        let last = self.check(rt, all);
        *pass = self.note(all);
        last
    }
}
