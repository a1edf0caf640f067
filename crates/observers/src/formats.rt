//! The formats of a design, which are of ASCII: it prints no byte with which what is seen of registers begins.
ghost use Rattle.std.specs.Prelude.{map};
ghost use Rattle.std.specs.List.{All};
ghost use Rattle.design.specs.Compiled.{design_of};
ghost use Rattle.model.specs.SourceTrees.{piece_of};
ghost use Rattle.design.specs.DesignTrees.{statement_of, statements_of};
ghost use Rattle.looseruns.specs.RegisterSights.{IsAsciiPiece, PrintsNoMark};
ghost use Rattle.observers.specs.AsciiFormats.{HasAsciiFormatsIn, HaveAsciiFormats};
ghost use Rattle.observers.specs.OneWave.{OneTextTellsRegisters};

use design::Design;
use design::tree::{Piece, Statement};

// A byte of a format is one of ASCII (3.6), by its type.
fn is_ascii(piece: Piece)
    ensures { IsAsciiPiece (piece_of piece) }
{
    match piece {
        Piece::Byte(byte) => {
            let _character = byte.to_char();
        }
        Piece::Argument(_) => {}
    }
}

// So are those of a whole format (17.1.1).
fn are_ascii(format: &[Piece])
    ensures { All IsAsciiPiece (map piece_of format.now) }
{
    for piece in format {
        is_ascii(*piece);
    }
}

// So is each format among statements and those inside them.
#[cycle(formats)]
fn have_ascii_formats(statements: &[Statement])
    ensures { HaveAsciiFormats (statements_of statements.now) }
{
    for statement in statements {
        has_ascii_formats(statement);
    }
}

// So is that of a statement, if it has one, and each of those inside it.
#[cycle(formats)]
fn has_ascii_formats(statement: &Statement)
    ensures { HasAsciiFormatsIn (statement_of statement.now) }
{
    match statement {
        Statement::Delay(_, body) => have_ascii_formats(body),
        Statement::Await(_, body) => have_ascii_formats(body),
        Statement::While(_, body) => have_ascii_formats(body),
        Statement::If(_, body, otherwise) => {
            have_ascii_formats(body);
            have_ascii_formats(otherwise);
        }
        Statement::Print(_, format, _) => are_ascii(format),
        Statement::Empty => {}
        Statement::Assign(_, _) => {}
        Statement::AssignAfter(_, _, _) => {}
        Statement::AssignLater(_, _, _) => {}
        Statement::Now(_) => {}
        Statement::Finish => {}
    }
}

/// No step of a design prints the byte with which what is seen of registers begins: the call looks at all formats. So where two of its journals
/// have one text before an observer of registers, these have the same values whenever time passes.
pub fn prints_no_mark(design: &Design)
    ensures mark { PrintsNoMark (design_of design.now) }
    ensures wave { OneTextTellsRegisters (design_of design.now) }
{
    for process in design.trees() {
        have_ascii_formats(&process.body);
    }
}
