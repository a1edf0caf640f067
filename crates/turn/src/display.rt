//! The lines of `$display` and its kin (17.1).
ghost use Rattle.std.specs.Prelude.{◌≡◌, ◌∷◌, [], OnOk};
ghost use Rattle.logic4.specs.Display as display;
ghost use Rattle.turn.specs.Reads.{ReadsOn};
ghost use Rattle.turn.specs.Evaluate.{NamesDeclared};
ghost use Rattle.turn.specs.RunningTurn.{turn_status_of, printing, PrintsPiece, PrintsPieces};

use crate::memory::RegReader;
use crate::running_turn::RunningTurn;
use design::Ascii;
use design::code::{LinePiece, Op};
use design::tree::Conversion;
use logic4::bits::Bits;
use std::alloc::{AllocError, Global};

impl RunningTurn {
    // Prints a byte. It is one of ASCII (3.6), so in UTF-8 it is the whole of a character.
    fn print_byte(&mut self, byte: Ascii) -> Result<(), AllocError>
        ensures { OnOk result (turn_status_of self.new ≡ printing (turn_status_of self.old) (byte ∷ [])) }
    {
        self.lines.push(byte.to_char())
    }

    // Prints a value by a conversion.
    fn print_value(&mut self, conversion: Conversion, value: Bits) -> Result<(), AllocError>
        ensures { OnOk result (turn_status_of self.new ≡ printing (turn_status_of self.old) (display.shown conversion value)) }
    {
        let text = value.show(conversion, self.alloc)?;
        self.lines.push_str(text.as_str())
    }

    // Prints a piece of a line.
    fn print_piece<R: RegReader>(
        &mut self,
        ops: &[Op],
        piece: &LinePiece,
        reader: &mut R,
    ) -> Result<(), AllocError>
        requires { NamesDeclared R.registers ops.now }
        ensures prints { OnOk result (PrintsPiece ops.now piece.now (turn_status_of self.old) (turn_status_of self.new)) }
        ensures reads { ReadsOn R.gave R.lasting result reader.old self.old.memory.reads.entries reader.new self.new.memory.reads.entries }
    {
        match piece {
            LinePiece::Byte(byte) => self.print_byte(*byte),
            LinePiece::Value { conversion, value } => {
                self.compute(ops, *value, reader)?;
                self.print_value(*conversion, self.stack.top)?;
                Ok(())
            }
        }
    }

    /// Prints the pieces of a line.
    pub fn print_pieces<R: RegReader>(
        &mut self,
        ops: &[Op],
        pieces: &[LinePiece],
        reader: &mut R,
    ) -> Result<(), AllocError>
        requires { NamesDeclared R.registers ops.now }
        ensures prints { OnOk result (PrintsPieces ops.now pieces.now (turn_status_of self.old) (turn_status_of self.new)) }
        ensures reads { ReadsOn R.gave R.lasting result reader.old self.old.memory.reads.entries reader.new self.new.memory.reads.entries }
    {
        for piece in pieces {
            self.print_piece(ops, piece, reader)?;
        }
        Ok(())
    }
}
