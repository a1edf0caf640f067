//! What is still to be read, and what was made of what was read.

ghost use Rattle.std.specs.Prelude.{◌≡◌, ◌<◌, ◌++◌, [], ◌∷◌, length, true, IfSome, IfErr, OnErr, OnSome, OnOk};
ghost use Rattle.std.specs.List.{list_all};
ghost use Rattle.preprocess.specs.Places.{stands, piece_stands, body_stands, condition_stands, token_stands, fault_stands};

use crate::fault::{Fault, TextFaultKind};
use lexemes::token::{FileSpan, SourceFile, VerilogLexeme, VerilogToken};
use std::alloc::{AllocError, Global};

/// How many pieces are read in all: the tokens of the files, and those of the texts of macros at each use.
const MOST_PIECES: u32 = 2_097_152;

/// How many tokens there are in all.
const MOST_TOKENS: usize = 2_097_152;

/// The use of a macro from which a piece comes.
#[derive(Clone, Copy)]
pub(crate) struct Origin {
    /// Where the outermost macro was used.
    pub(crate) place: FileSpan,
    /// The number of the use in whose macro's text the piece stands; none for an argument that stands in a file.
    pub(crate) within: Option<usize>,
}

/// A piece of a text that is to be read.
#[derive(Clone, Copy)]
pub(crate) struct PendingPiece {
    pub(crate) lexeme: VerilogLexeme,
    /// Whether a newline stands between the piece before and this one.
    pub(crate) begins_line: bool,
    pub(crate) origin: Option<Origin>,
}

/// A piece of the text of a macro.
#[derive(Clone, Copy)]
pub(crate) struct BodyPiece {
    pub(crate) lexeme: VerilogLexeme,
    pub(crate) begins_line: bool,
    /// The number of the formal argument that it is, if it is one.
    pub(crate) formal: Option<usize>,
}

/// A condition that is open (19.4).
#[derive(Clone, Copy)]
pub(crate) struct Condition {
    /// The directive that opens it.
    pub(crate) place: FileSpan,
    /// The file that is read at the directive.
    pub(crate) file: u32,
    /// Whether what stands here is read.
    pub(crate) active: bool,
    /// Whether no further branch is to be read: one was, or what is round the condition isn't read.
    pub(crate) settled: bool,
    pub(crate) has_else: bool,
}

/// A file that is being read.
#[derive(Clone, Copy)]
pub(crate) struct OpenFile {
    file: u32,
    /// How many pieces are to be read behind the file that includes it.
    floor_before: usize,
}

/// What is still to be read, the front last, and what was made of what was read. Each span stands in one of the files
/// that are here.
#[derive(Drop)]
pub(crate) struct Work {
    pub(crate) files: Vec<SourceFile>,
    pub(crate) pieces: Vec<PendingPiece>,
    pub(crate) open: Vec<OpenFile>,
    /// How many pieces are to be read behind the file that is being read.
    floor: usize,
    pushed: u32,
    pub(crate) bodies: Vec<BodyPiece>,
    pub(crate) conditions: Vec<Condition>,
    pub(crate) tokens: Vec<VerilogToken>,
    ghost pieces_stand: { list_all (piece_stands files.items) pieces.items ≡ true },
    ghost bodies_stand: { list_all (body_stands files.items) bodies.items ≡ true },
    ghost conditions_stand: { list_all (condition_stands files.items) conditions.items ≡ true },
    ghost tokens_stand: { list_all (token_stands files.items) tokens.items ≡ true },
}

impl Work {
    /// Nothing.
    pub(crate) fn new(alloc: Global) -> Work
        ensures files { result.files.items ≡ [] }
        ensures tokens { result.tokens.items ≡ [] }
    {
        Work {
            files: Vec::new(alloc),
            pieces: Vec::new(alloc),
            open: Vec::new(alloc),
            floor: 0,
            pushed: 0,
            bodies: Vec::new(alloc),
            conditions: Vec::new(alloc),
            tokens: Vec::new(alloc),
        }
    }

    /// The file that is being read, and the first where none is.
    pub(crate) fn file(&self) -> u32 {
        match self.open.last() {
            Some(open) => open.file,
            None => 0,
        }
    }

    /// How many files are being read, each included by the one before.
    pub(crate) fn depth(&self) -> usize {
        self.open.len()
    }

    /// Takes the next piece of the file that is being read.
    pub(crate) fn pop(&mut self) -> Option<PendingPiece>
        ensures stands { IfSome result (λ piece. piece_stands self.new.files.items piece ≡ true) }
        ensures span { IfSome result (λ piece. stands self.new.files.items piece.lexeme.span ≡ true) }
        ensures files { self.new.files.items ≡ self.old.files.items }
        ensures fewer { OnSome result (length self.new.pieces.items < length self.old.pieces.items) }
    {
        if self.pieces.len() <= self.floor {
            return None;
        }
        self.pieces.pop()
    }

    /// Takes the next piece of the file that is being read, if no newline stands before it.
    pub(crate) fn pop_on_line(&mut self) -> Option<PendingPiece>
        ensures span { IfSome result (λ piece. stands self.new.files.items piece.lexeme.span ≡ true) }
        ensures files { self.new.files.items ≡ self.old.files.items }
        ensures fewer { OnSome result (length self.new.pieces.items < length self.old.pieces.items) }
    {
        match self.peek() {
            Some(piece) if !piece.begins_line => self.pop(),
            _ => None,
        }
    }

    /// The next piece of the file that is being read.
    pub(crate) fn peek(&self) -> Option<PendingPiece>
        ensures { IfSome result (λ piece. piece_stands self.now.files.items piece ≡ true) }
    {
        if self.pieces.len() <= self.floor {
            return None;
        }
        self.pieces.last().copied()
    }

    /// Puts a piece before those that are to be read.
    pub(crate) fn push(&mut self, piece: PendingPiece) -> Result<(), Fault>
        requires { piece_stands self.old.files.items piece ≡ true }
        ensures files { self.new.files.items ≡ self.old.files.items }
        ensures pieces { OnOk result (self.new.pieces.items ≡ self.old.pieces.items ++ piece ∷ []) }
        ensures fault { IfErr result (λ fault. fault_stands self.new.files.items fault ≡ true) }
    {
        if self.pushed >= MOST_PIECES {
            return Err(Fault::At(TextFaultKind::TooManyTokens, piece.lexeme.span));
        }
        self.pushed += 1;
        self.pieces.push(piece)?;
        Ok(())
    }

    /// Adds a token.
    pub(crate) fn push_token(&mut self, token: VerilogToken) -> Result<(), Fault>
        requires { token_stands self.old.files.items token ≡ true }
        ensures files { self.new.files.items ≡ self.old.files.items }
        ensures tokens { OnOk result (self.new.tokens.items ≡ self.old.tokens.items ++ token ∷ []) }
        ensures fault { IfErr result (λ fault. fault_stands self.new.files.items fault ≡ true) }
    {
        if self.tokens.len() >= MOST_TOKENS {
            return Err(Fault::At(TextFaultKind::TooManyTokens, token.span));
        }
        self.tokens.push(token)?;
        Ok(())
    }

    /// Adds a piece to the text of the macro that is being defined.
    pub(crate) fn push_body(&mut self, piece: BodyPiece) -> Result<(), AllocError>
        requires { body_stands self.old.files.items piece ≡ true }
        ensures files { self.new.files.items ≡ self.old.files.items }
        ensures pieces { self.new.pieces.items ≡ self.old.pieces.items }
    {
        self.bodies.push(piece)?;
        Ok(())
    }

    /// Opens a condition.
    pub(crate) fn push_condition(&mut self, condition: Condition) -> Result<(), AllocError>
        requires { condition_stands self.old.files.items condition ≡ true }
        ensures { self.new.files.items ≡ self.old.files.items }
    {
        self.conditions.push(condition)?;
        Ok(())
    }

    /// Closes the innermost condition.
    pub(crate) fn pop_condition(&mut self) -> Option<Condition>
        ensures stands { IfSome result (λ condition. condition_stands self.new.files.items condition ≡ true) }
        ensures files { self.new.files.items ≡ self.old.files.items }
    {
        self.conditions.pop()
    }

    /// Whether what stands here is read.
    pub(crate) fn is_active(&self) -> bool {
        match self.conditions.last() {
            Some(condition) => condition.active,
            None => true,
        }
    }

    /// Whether a file is read to its end.
    pub(crate) fn is_at_end(&self) -> bool
        ensures { result ≡ true → 0 < length self.now.open.items }
    {
        !self.open.is_empty() && self.pieces.len() <= self.floor
    }

    /// The condition that the file that is being read leaves open, if there is one.
    fn unfinished(&self) -> Option<FileSpan>
        ensures { IfSome result (λ place. stands self.now.files.items place ≡ true) }
    {
        match self.conditions.last() {
            Some(condition) if condition.file == self.file() => Some(condition.place),
            _ => None,
        }
    }

    /// Goes back to the file that includes the one that is read to its end. Refuses a condition that isn't ended in it.
    pub(crate) fn close_file(&mut self) -> Result<(), Fault>
        requires { 0 < length self.old.open.items }
        ensures files { self.new.files.items ≡ self.old.files.items }
        ensures fewer { length self.new.open.items < length self.old.open.items }
        ensures fault { IfErr result (λ fault. fault_stands self.new.files.items fault ≡ true) }
    {
        let unfinished = self.unfinished();
        if let Some(closed) = self.open.pop() {
            self.floor = closed.floor_before;
        }
        match unfinished {
            Some(place) => Err(Fault::At(TextFaultKind::UnfinishedCondition, place)),
            None => Ok(()),
        }
    }

    /// Adds a file, whose number is that of the files before.
    pub(crate) fn add_file(&mut self, file: SourceFile) -> Result<(), AllocError>
        ensures files { OnOk result (self.new.files.items ≡ self.old.files.items ++ file ∷ []) }
        ensures kept { OnErr result (self.new.files.items ≡ self.old.files.items) }
        ensures tokens { self.new.tokens.items ≡ self.old.tokens.items }
    {
        self.files.push(file)?;
        Ok(())
    }

    /// Begins to read a file, of which nothing is to be read yet.
    pub(crate) fn open_file(&mut self, file: u32) -> Result<(), AllocError>
        ensures { self.new.files.items ≡ self.old.files.items }
    {
        self.open.push(OpenFile {
            file,
            floor_before: self.floor,
        })?;
        self.floor = self.pieces.len();
        Ok(())
    }

    /// The files and the tokens.
    pub(crate) fn into_parts(self) -> (Vec<SourceFile>, Vec<VerilogToken>)
        ensures files { result.0.items ≡ self.files.items }
        ensures same { result.1.items ≡ self.tokens.items }
        ensures tokens { list_all (token_stands result.0.items) result.1.items ≡ true }
    {
        let Work {
            files,
            pieces: _,
            open: _,
            floor: _,
            pushed: _,
            bodies: _,
            conditions: _,
            tokens,
        } = self;
        (files, tokens)
    }
}
