//! The calls of the tasks that print (17.1).

ghost use Rattle.std.specs.Prelude.{◌≡◌, ◌<◌, ◌≤◌, ◌↔◌, [], ◌∷◌, length, map, IsTrue, IfOk, OnOk, IfSome, MatchOption};
ghost use Rattle.design_scopes.specs.Places.{means};
ghost use Rattle.syntax_tree.specs.Expressions.{plain_expression_of};
ghost use Rattle.statement_parts.specs.Statements.{plain_argument};
ghost use Rattle.lowering.specs.Prints as spec;
ghost use Rattle.lowering.specs.Shown.{shown_in};

use design_scopes::places::ScopePlace;
use logic4::conversion::Conversion;
use model::ascii::Ascii;
use model::tree::{Piece, SourceExpression, Task};
use sizing::lowering::typed_expression;
use statement_parts::faults::{Lowered, StatementKind, fault};
use std::alloc::Global;
use syntax_tree::expressions::VerilogExpression;

/// Where a print stands: what names mean there, the full name of the scope, and the token of the call.
#[derive(Clone, Copy)]
pub struct PrintPlace<'p> {
    pub place: ScopePlace<'p>,
    pub path: &'p str,
    pub token: usize,
}

/// What a print shows: the pieces of its format, and the arguments that they show.
#[derive(Drop)]
pub struct PrintParts {
    pub pieces: Vec<Piece>,
    pub arguments: Vec<SourceExpression>,
}

/// An argument without a format is a decimal (17.1).
const DECIMAL: FormatLetter = FormatLetter {
    letter: b'd',
    is_short: false,
};

/// The task that prints, by its name (17.1).
pub fn task_of(name: &[u8]) -> Option<Task>
    ensures { result ≡ spec.task_of name.now }
{
    if name == b"$display".as_slice() {
        Some(Task::Display)
    } else if name == b"$strobe".as_slice() {
        Some(Task::Strobe)
    } else if name == b"$write".as_slice() {
        Some(Task::Write)
    } else {
        None
    }
}

/// A decimal, by the sign of what is shown (17.1.1.3).
pub fn padded_decimal_of(signed: bool) -> Conversion
    ensures { result ≡ spec.padded_decimal_of signed }
{
    match signed {
        true => Conversion::PaddedSignedDecimal,
        false => Conversion::PaddedDecimal,
    }
}

/// A decimal without blanks before it.
fn short_decimal_of(signed: bool) -> Conversion
    ensures { result ≡ spec.short_decimal_of signed }
{
    match signed {
        true => Conversion::SignedDecimal,
        false => Conversion::Decimal,
    }
}

/// The conversion of a letter behind a %, by the sign of what is shown (17.1.1.2).
fn conversion_of_letter(letter: u8, signed: bool) -> Option<Conversion>
    ensures { result ≡ spec.conversion_of_letter letter signed }
{
    match letter {
        b'b' => Some(Conversion::Binary),
        b'o' => Some(Conversion::Octal),
        b'h' | b'x' => Some(Conversion::Hex),
        b'd' => Some(padded_decimal_of(signed)),
        b'c' => Some(Conversion::Character),
        b's' => Some(Conversion::Characters),
        b't' => Some(Conversion::Time),
        _ => None,
    }
}

/// The conversion of a letter behind a % and a 0 (17.1.1.3).
fn short_conversion_of_letter(letter: u8, signed: bool) -> Option<Conversion>
    ensures { result ≡ spec.short_conversion_of_letter letter signed }
{
    match letter {
        b'b' => Some(Conversion::ShortBinary),
        b'o' => Some(Conversion::ShortOctal),
        b'h' | b'x' => Some(Conversion::ShortHex),
        b'd' => Some(short_decimal_of(signed)),
        b's' => Some(Conversion::ShortCharacters),
        b't' => Some(Conversion::Decimal),
        _ => None,
    }
}

/// A letter as a small one.
pub fn small_letter(letter: u8) -> u8
    ensures { result ≡ spec.small_letter letter }
{
    if letter >= b'A' && letter <= b'Z' {
        letter + 32
    } else {
        letter
    }
}

/// A letter behind a %, and perhaps a 0, in a format.
#[derive(Clone, Copy)]
pub struct FormatLetter {
    pub letter: u8,
    pub is_short: bool,
}

/// The conversion of a letter, behind a 0 or not.
fn letter_conversion(at: FormatLetter, signed: bool) -> Option<Conversion>
    ensures { result ≡ spec.letter_conversion at.is_short at.letter signed }
{
    let small = small_letter(at.letter);
    match at.is_short {
        true => short_conversion_of_letter(small, signed),
        false => conversion_of_letter(small, signed),
    }
}

/// Whether a letter behind a % is a % itself.
fn is_percent(at: FormatLetter) -> bool
    ensures { IsTrue result ↔ spec.IsPercent at.is_short at.letter }
{
    at.letter == b'%' && !at.is_short
}

/// Whether a letter behind a % is that of the full name of the scope.
fn is_name_letter(at: FormatLetter) -> bool
    ensures { IsTrue result ↔ spec.IsNameLetter at.is_short at.letter }
{
    small_letter(at.letter) == b'm' && !at.is_short
}

/// The letter with which a conversion begins, and what stands behind it.
fn letter_of(text: &[u8]) -> Option<(FormatLetter, &[u8])>
    ensures { IfSome result (λ found. spec.IsLetter text.now found.0.is_short found.0.letter found.1.now) }
{
    match text {
        [b'0', letter, rest @ ..] => Some((
            FormatLetter {
                letter: *letter,
                is_short: true,
            },
            rest,
        )),
        [letter, rest @ ..] => Some((
            FormatLetter {
                letter: *letter,
                is_short: false,
            },
            rest,
        )),
        [] => None,
    }
}

/// The format that an argument is, where it is a string (17.1).
fn format_of(e: &VerilogExpression) -> Option<&[u8]>
    ensures { MatchOption result (spec.IsValue (plain_expression_of e.now)) (λ bytes. spec.IsString (plain_expression_of e.now) bytes.now) }
{
    match e {
        VerilogExpression::Text { bytes, .. } => Some(bytes.as_slice()),
        _ => None,
    }
}

impl PrintParts {
    /// Nothing yet.
    fn new(alloc: Global) -> PrintParts
        ensures { shown_in result ≡ spec.nothing_shown }
    {
        PrintParts {
            pieces: Vec::new(alloc),
            arguments: Vec::new(alloc),
        }
    }

    /// Shows a byte behind the rest. Refuses one that isn't of ASCII.
    pub fn add_byte(&mut self, token: usize, byte: u8) -> Lowered<()>
        ensures { OnOk result ((byte < 128) × (shown_in self.new ≡ spec.shown_behind (shown_in self.old) (spec.bytes_shown (byte ∷ [])))) }
    {
        let Some(ascii) = Ascii::new(byte) else {
            return fault(token, StatementKind::Format);
        };
        self.pieces.push(Piece::Byte(ascii))?;
        Ok(())
    }

    /// Shows bytes behind the rest.
    pub fn add_bytes(&mut self, token: usize, bytes: &[u8]) -> Lowered<()>
        ensures { OnOk result (shown_in self.new ≡ spec.shown_behind (shown_in self.old) (spec.bytes_shown bytes.now)) }
    {
        for byte in bytes {
            self.add_byte(token, *byte)?;
        }
        Ok(())
    }

    /// Shows an argument behind the rest, by the conversion of a letter. Refuses a letter that has none.
    fn add_converted(
        &mut self,
        alloc: Global,
        at: PrintPlace<'_>,
        letter: FormatLetter,
        e: &VerilogExpression,
    ) -> Lowered<()>
        ensures { OnOk result (spec.Adds (spec.IsShownBy (means at.entry.place) letter.is_short letter.letter (plain_expression_of e.now)) (shown_in self.old) (shown_in self.new)) }
    {
        let found = typed_expression(alloc, &at.place, e)?;
        let shape = found.shape();
        let Some(conversion) = letter_conversion(letter, shape.signed) else {
            return fault(at.token, StatementKind::Format);
        };
        let made = found.lower(alloc, shape)?;
        self.pieces.push(Piece::Argument(conversion))?;
        self.arguments.push(made)?;
        Ok(())
    }

    /// Shows what a letter behind a % asks for, and gives the arguments that are left.
    fn add_letter<'a>(
        &mut self,
        alloc: Global,
        at: PrintPlace<'_>,
        letter: FormatLetter,
        arguments: &'a [Option<VerilogExpression>],
    ) -> Lowered<&'a [Option<VerilogExpression>]>
        ensures fewer { IfOk result (λ left. length left.now ≤ length arguments.now) }
        ensures shows { IfOk result (λ left. spec.Adds (spec.IsLetterShown (means at.entry.place) at.entry.path.now letter.is_short letter.letter (map plain_argument arguments.now) (map plain_argument left.now)) (shown_in self.old) (shown_in self.new)) }
    {
        if is_percent(letter) {
            self.add_byte(at.token, b'%')?;
            return Ok(arguments);
        }
        if is_name_letter(letter) {
            self.add_bytes(at.token, at.path.as_bytes())?;
            return Ok(arguments);
        }
        let [first, others @ ..] = arguments else {
            return fault(at.token, StatementKind::Format);
        };
        let Some(e) = first else {
            return fault(at.token, StatementKind::Format);
        };
        self.add_converted(alloc, at, letter, e)?;
        Ok(others)
    }

    /// Shows what a format begins with, a byte or a conversion, and gives what is left of the format and of the arguments.
    fn add_piece<'f, 'a>(
        &mut self,
        alloc: Global,
        at: PrintPlace<'_>,
        byte: u8,
        rest: &'f [u8],
        arguments: &'a [Option<VerilogExpression>],
    ) -> Lowered<(&'f [u8], &'a [Option<VerilogExpression>])>
        ensures shorter { IfOk result (λ left. length left.0.now ≤ length rest.now) }
        ensures fewer { IfOk result (λ left. length left.1.now ≤ length arguments.now) }
        ensures shows { IfOk result (λ left. spec.ShowsPart (means at.entry.place) at.entry.path.now (byte ∷ rest.now) left.0.now (map plain_argument arguments.now) (map plain_argument left.1.now) (shown_in self.old) (shown_in self.new)) }
    {
        if byte != b'%' {
            self.add_byte(at.token, byte)?;
            return Ok((rest, arguments));
        }
        let Some((letter, behind)) = letter_of(rest) else {
            return fault(at.token, StatementKind::Format);
        };
        let left = self.add_letter(alloc, at, letter, arguments)?;
        Ok((behind, left))
    }

    /// Shows a format behind the rest, and gives the arguments that it leaves (17.1.1).
    fn add_format<'a>(
        &mut self,
        alloc: Global,
        at: PrintPlace<'_>,
        format: &[u8],
        arguments: &'a [Option<VerilogExpression>],
    ) -> Lowered<&'a [Option<VerilogExpression>]>
        ensures fewer { IfOk result (λ left. length left.now ≤ length arguments.now) }
        ensures shows { IfOk result (λ left. spec.Adds (spec.IsFormatted (means at.entry.place) at.entry.path.now format.now (map plain_argument arguments.now) (map plain_argument left.now)) (shown_in self.old) (shown_in self.new)) }
    {
        let mut text = format;
        let mut left = arguments;
        while let [byte, rest @ ..] = text {
            let (behind, more) = self.add_piece(alloc, at, *byte, rest, left)?;
            text = behind;
            left = more;
        }
        Ok(left)
    }

    /// Shows an argument behind the rest, or a format with the arguments behind it that it takes, and gives those that are left.
    fn add_argument<'a>(
        &mut self,
        alloc: Global,
        at: PrintPlace<'_>,
        first: &VerilogExpression,
        others: &'a [Option<VerilogExpression>],
    ) -> Lowered<&'a [Option<VerilogExpression>]>
        ensures fewer { IfOk result (λ left. length left.now ≤ length others.now) }
        ensures shows { IfOk result (λ left. spec.Adds (spec.IsArgumentShown (means at.entry.place) at.entry.path.now (plain_expression_of first.now) (map plain_argument others.now) (map plain_argument left.now)) (shown_in self.old) (shown_in self.new)) }
    {
        match format_of(first) {
            Some(format) => self.add_format(alloc, at, format, others),
            None => {
                self.add_converted(alloc, at, DECIMAL, first)?;
                Ok(others)
            }
        }
    }
}

/// What a print shows (17.1). Refuses an argument that is left out.
pub fn print_shown(
    alloc: Global,
    at: PrintPlace<'_>,
    arguments: &[Option<VerilogExpression>],
) -> Lowered<PrintParts>
    ensures { IfOk result (λ shown. spec.IsPrint (means at.entry.place) at.entry.path.now (map plain_argument arguments.now) (shown_in shown)) }
{
    let mut shown = PrintParts::new(alloc);
    let mut left = arguments;
    while let [argument, others @ ..] = left {
        let Some(first) = argument else {
            return fault(at.token, StatementKind::MissingArgument);
        };
        let more = shown.add_argument(alloc, at, first, others)?;
        left = more;
    }
    Ok(shown)
}
