//! Macros that are used (19.3.1).

ghost use Rattle.std.specs.Prelude.{◌≡◌, ◌∷◌, ◌++◌, [], take, drop, map, reverse, true, IfOk, IfErr, OnOk};
ghost use Rattle.std.specs.List.{list_all};
ghost use Rattle.preprocess.specs.Macros as macros;
ghost use Rattle.preprocess.specs.Places.{stands, piece_stands, body_stands, fault_stands, outermost_place};

use crate::fault::{Fault, TextFaultKind};
use crate::kinds::{is_closing, is_mark, is_opening};
use crate::preprocessor::{Macro, Preprocessor, name_behind};
use crate::work::{BodyPiece, Origin, PendingPiece};
use lexemes::token::{FileSpan, LexemeKind, Sign};
use source_texts::texts::text_of;
use std::alloc::{AllocError, Global};

/// How deep macros whose texts use each other are nested.
const DEEPEST_USE: u32 = 256;

/// The use of a macro.
#[derive(Clone, Copy)]
pub(crate) struct MacroUse {
    /// The number of the macro's definition.
    definition: usize,
    /// The number of the use in whose macro's text this one stands; none for one that stands in a file.
    outer: Option<usize>,
}

/// The place of an argument among the pieces of all arguments: from a piece on, up to another.
#[derive(Clone, Copy)]
pub(crate) struct ArgumentSpan {
    pub(crate) begin: usize,
    pub(crate) end: usize,
}

/// The arguments of a use, one after another.
#[derive(Drop)]
pub(crate) struct Arguments {
    pub(crate) pieces: Vec<PendingPiece>,
    pub(crate) spans: Vec<ArgumentSpan>,
}

/// The items from one on, up to another, as far as they are there.
fn range_of<T>(items: &[T], begin: usize, end: usize) -> &[T]
    ensures { result.now ≡ drop begin (take end items.now) }
{
    let front = if end < items.len() {
        items.split_at(end).0
    } else {
        items
    };
    if begin < front.len() {
        front.split_at(begin).1
    } else {
        &[]
    }
}

impl Arguments {
    /// Where an argument stands among the pieces; nowhere where there is none of that number.
    fn span(&self, number: usize) -> ArgumentSpan
        ensures { result ≡ macros.span_at self.now.spans.items number }
    {
        if number < self.spans.len() {
            self.spans[number]
        } else {
            ArgumentSpan { begin: 0, end: 0 }
        }
    }

    /// The pieces of an argument.
    fn argument(&self, number: usize) -> &[PendingPiece]
        ensures { result.now ≡ macros.argument self.now.pieces.items self.now.spans.items number }
    {
        let span = self.span(number);
        range_of(&self.pieces, span.begin, span.end)
    }
}

/// How deep brackets are open behind a piece, by how deep they are before it.
fn brackets_behind(open: u32, kind: LexemeKind) -> u32 {
    if is_opening(kind) {
        open.saturating_add(1)
    } else if is_closing(kind) {
        open.saturating_sub(1)
    } else {
        open
    }
}

impl Preprocessor {
    /// Puts the text of a macro in the place of its use, where it is read.
    pub(crate) fn read_use(&mut self, alloc: Global, piece: PendingPiece) -> Result<(), Fault>
        requires { piece_stands self.old.work.files.items piece ≡ true }
        ensures files { self.new.work.files.items ≡ self.old.work.files.items }
        ensures fault { IfErr result (λ fault. fault_stands self.new.work.files.items fault ≡ true) }
    {
        if !self.work.is_active() {
            return Ok(());
        }
        let place = piece.lexeme.span;
        let Some(found) = self.macro_at(place) else {
            return Err(Fault::At(TextFaultKind::UndefinedMacro, place));
        };
        self.check_nesting(found, place, within_of(piece))?;
        let mut arguments = Arguments {
            pieces: Vec::new(alloc),
            spans: Vec::new(alloc),
        };
        let put = self.put_macro(alloc, piece, found, &mut arguments);
        drop(arguments);
        put
    }

    /// Reads the arguments of a use, and puts the text of its macro in its place.
    fn put_macro(
        &mut self,
        alloc: Global,
        piece: PendingPiece,
        found: Macro,
        arguments: &mut Arguments,
    ) -> Result<(), Fault>
        requires piece { piece_stands self.old.work.files.items piece ≡ true }
        requires none { arguments.old.pieces.items ≡ [] }
        ensures files { self.new.work.files.items ≡ self.old.work.files.items }
        ensures fault { IfErr result (λ fault. fault_stands self.new.work.files.items fault ≡ true) }
    {
        self.read_arguments(found, piece.lexeme.span, arguments)?;
        let number = self.uses.len();
        self.uses.push(MacroUse {
            definition: found.definition,
            outer: within_of(piece),
        })?;
        let origin = Origin {
            place: outermost(piece),
            within: Some(number),
        };
        let text = self.text_of_macro(alloc, found)?;
        let put = self.put_text(&text, arguments, origin);
        drop(text);
        put
    }

    /// The macro whose name stands behind a backtick, if it is defined.
    fn macro_at(&self, place: FileSpan) -> Option<Macro> {
        self.macro_of(name_behind(text_of(&self.work.files, place)))
    }

    /// Refuses a use in the text of the same macro, and one that is nested too deep.
    fn check_nesting(
        &self,
        found: Macro,
        place: FileSpan,
        within: Option<usize>,
    ) -> Result<(), Fault>
        requires { stands self.now.work.files.items place ≡ true }
        ensures { IfErr result (λ fault. fault_stands self.now.work.files.items fault ≡ true) }
    {
        let mut outer = within;
        for _ in 0..DEEPEST_USE {
            let Some(number) = outer else {
                return Ok(());
            };
            let Some(around) = self.uses.get(number) else {
                return Ok(());
            };
            if around.definition == found.definition {
                return Err(Fault::At(TextFaultKind::MacroUsesItself, place));
            }
            outer = around.outer;
        }
        Err(Fault::At(TextFaultKind::MacrosTooDeep, place))
    }

    /// Reads the arguments of a use, where its macro has some.
    fn read_arguments(
        &mut self,
        found: Macro,
        place: FileSpan,
        arguments: &mut Arguments,
    ) -> Result<(), Fault>
        requires place { stands self.old.work.files.items place ≡ true }
        requires stand { list_all (piece_stands self.old.work.files.items) arguments.old.pieces.items ≡ true }
        ensures stand { OnOk result (list_all (piece_stands self.new.work.files.items) arguments.new.pieces.items ≡ true) }
        ensures files { self.new.work.files.items ≡ self.old.work.files.items }
        ensures fault { IfErr result (λ fault. fault_stands self.new.work.files.items fault ≡ true) }
    {
        let Some(formals) = found.formals else {
            return Ok(());
        };
        match self.work.pop() {
            Some(piece) if is_mark(piece.lexeme.kind, Sign::Open) => (),
            _ => return Err(Fault::At(TextFaultKind::WrongArgumentCount, place)),
        }
        self.collect_arguments(place, arguments)?;
        if arguments.spans.len() == formals {
            Ok(())
        } else {
            Err(Fault::At(TextFaultKind::WrongArgumentCount, place))
        }
    }

    /// Takes pieces up to the bracket that closes the arguments.
    fn collect_arguments(&mut self, place: FileSpan, arguments: &mut Arguments) -> Result<(), Fault>
        requires place { stands self.old.work.files.items place ≡ true }
        requires stand { list_all (piece_stands self.old.work.files.items) arguments.old.pieces.items ≡ true }
        ensures stand { OnOk result (list_all (piece_stands self.new.work.files.items) arguments.new.pieces.items ≡ true) }
        ensures files { self.new.work.files.items ≡ self.old.work.files.items }
        ensures fault { IfErr result (λ fault. fault_stands self.new.work.files.items fault ≡ true) }
    {
        let mut open = 0;
        let mut begin = arguments.pieces.len();
        while let Some(piece) = self.work.pop() {
            let kind = piece.lexeme.kind;
            let end = arguments.pieces.len();
            if open == 0 && is_mark(kind, Sign::Close) {
                arguments.spans.push(ArgumentSpan { begin, end })?;
                return Ok(());
            }
            if open == 0 && is_mark(kind, Sign::Comma) {
                arguments.spans.push(ArgumentSpan { begin, end })?;
                begin = end;
            } else {
                arguments.pieces.push(piece)?;
            }
            open = brackets_behind(open, kind);
        }
        Err(Fault::At(TextFaultKind::UnfinishedArguments, place))
    }

    /// The text of a macro.
    fn text_of_macro(&self, alloc: Global, found: Macro) -> Result<Vec<BodyPiece>, AllocError>
        ensures text { IfOk result (λ text. text.items ≡ drop found.begin (take found.end self.now.work.bodies.items)) }
        ensures stand { IfOk result (λ text. list_all (body_stands self.now.work.files.items) text.items ≡ true) }
    {
        let text = Vec::from_slice(alloc, range_of(&self.work.bodies, found.begin, found.end))?;
        Ok(text)
    }

    /// Puts the text of a macro before what is to be read, from its last piece on.
    fn put_text(
        &mut self,
        text: &[BodyPiece],
        arguments: &Arguments,
        origin: Origin,
    ) -> Result<(), Fault>
        requires text { list_all (body_stands self.old.work.files.items) text.now ≡ true }
        requires stand { list_all (piece_stands self.old.work.files.items) arguments.now.pieces.items ≡ true }
        requires place { stands self.old.work.files.items origin.place ≡ true }
        ensures files { self.new.work.files.items ≡ self.old.work.files.items }
        ensures pieces { OnOk result (self.new.work.pieces.items ≡ self.old.work.pieces.items ++ reverse (macros.substituted arguments.now.pieces.items arguments.now.spans.items origin text.now)) }
        ensures fault { IfErr result (λ fault. fault_stands self.new.work.files.items fault ≡ true) }
    {
        let mut left = text.len();
        while left > 0 {
            left -= 1;
            self.put_piece(text[left], arguments, origin)?;
        }
        Ok(())
    }

    /// Puts a piece of the text of a macro before what is to be read: the pieces of its argument, where it is a formal one.
    fn put_piece(
        &mut self,
        piece: BodyPiece,
        arguments: &Arguments,
        origin: Origin,
    ) -> Result<(), Fault>
        requires piece { body_stands self.old.work.files.items piece ≡ true }
        requires stand { list_all (piece_stands self.old.work.files.items) arguments.now.pieces.items ≡ true }
        requires place { stands self.old.work.files.items origin.place ≡ true }
        ensures files { self.new.work.files.items ≡ self.old.work.files.items }
        ensures pieces { OnOk result (self.new.work.pieces.items ≡ self.old.work.pieces.items ++ reverse (macros.substituted_piece arguments.now.pieces.items arguments.now.spans.items origin piece)) }
        ensures fault { IfErr result (λ fault. fault_stands self.new.work.files.items fault ≡ true) }
    {
        match piece.formal {
            Some(number) => self.put_argument(arguments.argument(number), origin),
            None => self.work.push(from_text(piece, origin)),
        }
    }

    /// Puts an argument before what is to be read, from its last piece on.
    fn put_argument(&mut self, argument: &[PendingPiece], origin: Origin) -> Result<(), Fault>
        requires stand { list_all (piece_stands self.old.work.files.items) argument.now ≡ true }
        requires place { stands self.old.work.files.items origin.place ≡ true }
        ensures files { self.new.work.files.items ≡ self.old.work.files.items }
        ensures pieces { OnOk result (self.new.work.pieces.items ≡ self.old.work.pieces.items ++ reverse (map (macros.from_argument origin) argument.now)) }
        ensures fault { IfErr result (λ fault. fault_stands self.new.work.files.items fault ≡ true) }
    {
        let mut left = argument.len();
        while left > 0 {
            left -= 1;
            self.put_argument_piece(argument[left], origin)?;
        }
        Ok(())
    }

    /// Puts a piece of an argument before what is to be read.
    fn put_argument_piece(&mut self, piece: PendingPiece, origin: Origin) -> Result<(), Fault>
        requires stand { piece_stands self.old.work.files.items piece ≡ true }
        requires place { stands self.old.work.files.items origin.place ≡ true }
        ensures files { self.new.work.files.items ≡ self.old.work.files.items }
        ensures pieces { OnOk result (self.new.work.pieces.items ≡ self.old.work.pieces.items ++ macros.from_argument origin piece ∷ []) }
        ensures fault { IfErr result (λ fault. fault_stands self.new.work.files.items fault ≡ true) }
    {
        self.work.push(from_argument(piece, origin))
    }
}

/// A piece of the text of a macro, in the place of a use.
fn from_text(piece: BodyPiece, origin: Origin) -> PendingPiece
    ensures { result ≡ macros.from_text origin piece }
{
    PendingPiece {
        lexeme: piece.lexeme,
        begins_line: piece.begins_line,
        origin: Some(origin),
    }
}

/// The use in whose macro's text a piece stands, if it stands in one.
fn within_of(piece: PendingPiece) -> Option<usize>
    ensures { result ≡ macros.within_of piece.origin }
{
    match piece.origin {
        Some(origin) => origin.within,
        None => None,
    }
}

/// A piece of an argument: it comes from the use, and stands in the text of the macro in which the argument stands.
fn from_argument(piece: PendingPiece, origin: Origin) -> PendingPiece
    ensures { result ≡ macros.from_argument origin piece }
{
    PendingPiece {
        lexeme: piece.lexeme,
        begins_line: piece.begins_line,
        origin: Some(Origin {
            place: origin.place,
            within: within_of(piece),
        }),
    }
}

/// Where the outermost macro was used of those from which the use of a macro comes; its own place where it comes from none.
fn outermost(piece: PendingPiece) -> FileSpan
    ensures { result ≡ outermost_place piece }
{
    match piece.origin {
        Some(origin) => origin.place,
        None => piece.lexeme.span,
    }
}
