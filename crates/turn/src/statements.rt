//! The statements that compute something.
ghost use Rattle.std.specs.Prelude.{◌≡◌, OnOk};
ghost use Rattle.turn.specs.Reads.{ReadsOn};
ghost use Rattle.turn.specs.Evaluate.{NamesDeclared};
ghost use Rattle.turn.specs.RunningTurn.{turn_status_of, chosen_place, strobing};
ghost use Rattle.turn.specs.TurnSteps.{Assigns, Branches, Displays, PrintsText};

use crate::memory::RegReader;
use crate::running_turn::{RunningTurn, part};
use design::RegId;
use design::code::{LinePiece, Op, Span};
use logic4::digit::Truth;
use std::alloc::AllocError;

// Where a condition leads (9.4, 9.6).
fn choose_place(truth: Truth, taken: usize, missed: usize) -> usize
    ensures { result ≡ chosen_place truth taken missed }
{
    match truth {
        Truth::True => taken,
        Truth::False => missed,
        Truth::Unknown => missed,
    }
}

impl RunningTurn {
    /// A blocking assignment (9.2.1).
    pub fn assign<R: RegReader>(
        &mut self,
        ops: &[Op],
        value: Span,
        register: RegId,
        next: usize,
        reader: &mut R,
    ) -> Result<(), AllocError>
        requires { NamesDeclared R.registers ops.now }
        ensures takes { OnOk result (Assigns ops.now value register next (turn_status_of self.old) (turn_status_of self.new)) }
        ensures reads { ReadsOn R.gave R.lasting result reader.old self.old.memory.reads.entries reader.new self.new.memory.reads.entries }
    {
        self.compute(ops, value, reader)?;
        self.write_top(register, next)?;
        Ok(())
    }

    /// The test of a choice or of a loop (9.4, 9.6).
    pub fn branch<R: RegReader>(
        &mut self,
        ops: &[Op],
        reader: &mut R,
        condition: Span,
        taken: usize,
        missed: usize,
    ) -> Result<(), AllocError>
        requires { NamesDeclared R.registers ops.now }
        ensures takes { OnOk result (Branches ops.now condition taken missed (turn_status_of self.old) (turn_status_of self.new)) }
        ensures reads { ReadsOn R.gave R.lasting result reader.old self.old.memory.reads.entries reader.new self.new.memory.reads.entries }
    {
        self.compute(ops, condition, reader)?;
        let truth = self.stack.top.truth();
        self.go(choose_place(truth, taken, missed));
        Ok(())
    }

    /// `$display`: the pieces, and a newline (17.1).
    pub fn display<R: RegReader>(
        &mut self,
        ops: &[Op],
        shown: &[LinePiece],
        pieces: Span,
        next: usize,
        reader: &mut R,
    ) -> Result<(), AllocError>
        requires { NamesDeclared R.registers ops.now }
        ensures takes { OnOk result (Displays ops.now shown.now pieces next (turn_status_of self.old) (turn_status_of self.new)) }
        ensures reads { ReadsOn R.gave R.lasting result reader.old self.old.memory.reads.entries reader.new self.new.memory.reads.entries }
    {
        self.print_pieces(ops, part(shown, pieces), reader)?;
        self.lines.push('\n')?;
        self.go(next);
        Ok(())
    }

    /// `$write`: the pieces (17.1).
    pub fn print_text<R: RegReader>(
        &mut self,
        ops: &[Op],
        shown: &[LinePiece],
        pieces: Span,
        next: usize,
        reader: &mut R,
    ) -> Result<(), AllocError>
        requires { NamesDeclared R.registers ops.now }
        ensures takes { OnOk result (PrintsText ops.now shown.now pieces next (turn_status_of self.old) (turn_status_of self.new)) }
        ensures reads { ReadsOn R.gave R.lasting result reader.old self.old.memory.reads.entries reader.new self.new.memory.reads.entries }
    {
        self.print_pieces(ops, part(shown, pieces), reader)?;
        self.go(next);
        Ok(())
    }

    /// `$strobe`: its place is kept, and nothing is read (17.1.2).
    pub fn strobe(&mut self, next: usize) -> Result<(), AllocError>
        ensures { OnOk result (turn_status_of self.new ≡ strobing (turn_status_of self.old) next) }
    {
        self.strobes.push(self.state.place)?;
        self.go(next);
        Ok(())
    }
}
