//! Macros that are defined (19.3.1, 19.3.2).

ghost use Rattle.std.specs.Prelude.{◌≡◌, true, IfErr};
ghost use Rattle.preprocess.specs.Places.{stands, fault_stands};

use crate::directives::directive_of;
use crate::fault::{Fault, TextFaultKind};
use crate::kinds::{is_joint, is_mark, is_name};
use crate::preprocessor::{Macro, Preprocessor};
use crate::work::{BodyPiece, PendingPiece};
use lexemes::token::{FileSpan, Sign};
use source_texts::texts::text_of;
use std::alloc::Global;

/// How many formal arguments a macro has at most.
const MOST_FORMALS: u32 = 256;

/// The fault of a directive that isn't followed by what it takes.
pub(crate) fn malformed(directive: FileSpan) -> Fault
    ensures { result ≡ Fault.At TextFaultKind.MalformedDirective directive }
{
    Fault::At(TextFaultKind::MalformedDirective, directive)
}

/// Whether a piece is an opening bracket that stands right behind a name.
fn opens_formals(name: FileSpan, piece: PendingPiece) -> bool {
    let place = piece.lexeme.span;
    is_mark(piece.lexeme.kind, Sign::Open)
        && place.file == name.file
        && place.begin == name.begin.saturating_add(name.length)
}

/// The number of the formal argument of a name, if there is one.
fn formal_of(formals: &[Vec<u8>], name: &[u8]) -> Option<usize> {
    for (number, formal) in formals.iter().enumerate() {
        if formal.as_slice() == name {
            return Some(number);
        }
    }
    None
}

impl Preprocessor {
    /// Reads the definition of a macro.
    pub(crate) fn define(&mut self, alloc: Global, directive: FileSpan) -> Result<(), Fault>
        requires { stands self.old.work.files.items directive ≡ true }
        ensures files { self.new.work.files.items ≡ self.old.work.files.items }
        ensures fault { IfErr result (λ fault. fault_stands self.new.work.files.items fault ≡ true) }
    {
        let name = self.macro_name_after(directive)?;
        let mut formals = Vec::new(alloc);
        let read = self.read_definition(alloc, directive, name, &mut formals);
        drop(formals);
        read
    }

    /// Takes the name of a macro that is defined, which isn't that of a directive.
    fn macro_name_after(&mut self, directive: FileSpan) -> Result<FileSpan, Fault>
        requires { stands self.old.work.files.items directive ≡ true }
        ensures files { self.new.work.files.items ≡ self.old.work.files.items }
        ensures fault { IfErr result (λ fault. fault_stands self.new.work.files.items fault ≡ true) }
    {
        let name = self.name_after(directive)?;
        let place = name.lexeme.span;
        if directive_of(text_of(&self.work.files, place)).is_some() {
            return Err(malformed(directive));
        }
        Ok(place)
    }

    /// Reads what stands behind the name of a macro that is defined: its formal arguments and its text.
    fn read_definition(
        &mut self,
        alloc: Global,
        directive: FileSpan,
        name: FileSpan,
        formals: &mut Vec<Vec<u8>>,
    ) -> Result<(), Fault>
        requires { stands self.old.work.files.items directive ≡ true }
        ensures files { self.new.work.files.items ≡ self.old.work.files.items }
        ensures fault { IfErr result (λ fault. fault_stands self.new.work.files.items fault ≡ true) }
    {
        self.read_formals(alloc, directive, name, formals)?;
        let begin = self.work.bodies.len();
        self.read_body(formals)?;
        self.keep_macro(alloc, name, formals.len(), begin)
    }

    /// Keeps a macro of a name: its text is what was read last, from a piece on.
    fn keep_macro(
        &mut self,
        alloc: Global,
        name: FileSpan,
        formals: usize,
        begin: usize,
    ) -> Result<(), Fault>
        ensures files { self.new.work.files.items ≡ self.old.work.files.items }
        ensures fault { IfErr result (λ fault. fault_stands self.new.work.files.items fault ≡ true) }
    {
        let definition = Macro {
            definition: self.definitions,
            formals: (formals > 0).then_some(formals),
            begin,
            end: self.work.bodies.len(),
        };
        self.definitions = self.definitions.saturating_add(1);
        let key = Vec::from_slice(alloc, text_of(&self.work.files, name))?;
        self.macros.insert(key, definition)?;
        Ok(())
    }

    /// Forgets a macro, if it is defined (19.3.2).
    pub(crate) fn undefine(&mut self, directive: FileSpan) -> Result<(), Fault>
        requires { stands self.old.work.files.items directive ≡ true }
        ensures files { self.new.work.files.items ≡ self.old.work.files.items }
        ensures fault { IfErr result (λ fault. fault_stands self.new.work.files.items fault ≡ true) }
    {
        let name = self.name_after(directive)?;
        let _ = self
            .macros
            .swap_remove(text_of(&self.work.files, name.lexeme.span));
        Ok(())
    }

    /// Reads the formal arguments, if a bracket stands right behind the macro's name. There is one at least between brackets.
    fn read_formals(
        &mut self,
        alloc: Global,
        directive: FileSpan,
        name: FileSpan,
        formals: &mut Vec<Vec<u8>>,
    ) -> Result<(), Fault>
        requires { stands self.old.work.files.items directive ≡ true }
        ensures files { self.new.work.files.items ≡ self.old.work.files.items }
        ensures fault { IfErr result (λ fault. fault_stands self.new.work.files.items fault ≡ true) }
    {
        match self.work.peek() {
            Some(piece) if opens_formals(name, piece) => (),
            _ => return Ok(()),
        }
        let _ = self.work.pop();
        for _ in 0..MOST_FORMALS {
            self.read_formal(alloc, directive, formals)?;
            if self.closes_after(directive)? {
                return Ok(());
            }
        }
        Err(malformed(directive))
    }

    /// Reads a formal argument, of another name than those before.
    fn read_formal(
        &mut self,
        alloc: Global,
        directive: FileSpan,
        formals: &mut Vec<Vec<u8>>,
    ) -> Result<(), Fault>
        requires { stands self.old.work.files.items directive ≡ true }
        ensures files { self.new.work.files.items ≡ self.old.work.files.items }
        ensures fault { IfErr result (λ fault. fault_stands self.new.work.files.items fault ≡ true) }
    {
        let name = self.name_after(directive)?;
        let text = text_of(&self.work.files, name.lexeme.span);
        if formal_of(formals, text).is_some() {
            return Err(malformed(directive));
        }
        formals.push(Vec::from_slice(alloc, text)?)?;
        Ok(())
    }

    /// Takes the comma or the closing bracket behind a formal argument, and answers whether it is the bracket.
    fn closes_after(&mut self, directive: FileSpan) -> Result<bool, Fault>
        requires { stands self.old.work.files.items directive ≡ true }
        ensures files { self.new.work.files.items ≡ self.old.work.files.items }
        ensures fault { IfErr result (λ fault. fault_stands self.new.work.files.items fault ≡ true) }
    {
        match self.work.pop() {
            Some(piece) if is_mark(piece.lexeme.kind, Sign::Close) => Ok(true),
            Some(piece) if is_mark(piece.lexeme.kind, Sign::Comma) => Ok(false),
            _ => Err(malformed(directive)),
        }
    }

    /// Reads the text of a macro: the rest of the line, and of each further one that a `\` joins to it.
    fn read_body(&mut self, formals: &[Vec<u8>]) -> Result<(), Fault>
        ensures files { self.new.work.files.items ≡ self.old.work.files.items }
        ensures fault { IfErr result (λ fault. fault_stands self.new.work.files.items fault ≡ true) }
    {
        let mut begins_line = false;
        while let Some(piece) = self.work.pop_on_line() {
            if is_joint(piece.lexeme.kind) {
                begins_line = true;
            } else {
                self.add_to_body(formals, piece, begins_line)?;
                begins_line = false;
            }
        }
        Ok(())
    }

    /// Adds a piece to the text of a macro.
    fn add_to_body(
        &mut self,
        formals: &[Vec<u8>],
        piece: PendingPiece,
        begins_line: bool,
    ) -> Result<(), Fault>
        requires { stands self.old.work.files.items piece.lexeme.span ≡ true }
        ensures files { self.new.work.files.items ≡ self.old.work.files.items }
        ensures pieces { self.new.work.pieces.items ≡ self.old.work.pieces.items }
        ensures fault { IfErr result (λ fault. fault_stands self.new.work.files.items fault ≡ true) }
    {
        let formal = if is_name(piece.lexeme.kind) {
            formal_of(formals, text_of(&self.work.files, piece.lexeme.span))
        } else {
            None
        };
        self.work.push_body(BodyPiece {
            lexeme: piece.lexeme,
            begins_line,
            formal,
        })?;
        Ok(())
    }
}
