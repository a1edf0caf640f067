//! Files, and the lexemes of their texts.

ghost use Rattle.std.specs.Prelude.{◌≡◌, ◌<◌, ◌+◌, ◌^◌, ◌∷◌, ◌++◌, ◌⊎◌, [], length, map, true, false, List, IfOk, OnOk, IfErr, IfSome};
ghost use Rattle.std.specs.List.{list_all};
ghost use Rattle.lexemes.specs.declared.token.VerilogLexeme.{VerilogLexeme};
ghost use Rattle.lexemes.specs.Lexing.{IsCutInto};
ghost use Rattle.preprocess.specs.Places as spec;
ghost use Rattle.preprocess.specs.Places.{lexeme_stands, fault_stands};
ghost use Rattle.preprocess.specs.Plain as plain;
ghost use Rattle.preprocess.specs.Sources.{AddsSourceFile, MayAdd};

use crate::fault::{Fault, TextFaultKind};
use crate::includes::KnownFile;
use crate::preprocessor::Preprocessor;
use crate::work::PendingPiece;
use lexemes::cut::{LexicalFault, cut};
use lexemes::token::{FileSpan, LexemeKind, SourceFile, TokenKind, VerilogLexeme, VerilogToken};
use source_texts::texts::{part, text_at};
use std::alloc::Global;

/// How many files there are.
const MOST_FILES: usize = 1_048_576;

/// One byte of a file.
fn span_at_byte(file: u32, begin: u32) -> FileSpan
    ensures { result ≡ spec.span_at_byte file begin }
{
    FileSpan {
        file,
        begin,
        length: 1,
    }
}

/// The fault that stops the cut of a text.
fn cut_fault(file: u32, fault: LexicalFault) -> Fault
    ensures { result ≡ spec.cut_fault file fault }
{
    match fault {
        LexicalFault::Memory => Fault::Memory,
        LexicalFault::Stray(begin) => Fault::At(
            TextFaultKind::StrayByte,
            span_at_byte(file, begin),
        ),
        LexicalFault::UnfinishedString(begin) => {
            Fault::At(TextFaultKind::UnfinishedString, span_at_byte(file, begin))
        }
        LexicalFault::UnfinishedComment(begin) => {
            Fault::At(TextFaultKind::UnfinishedComment, span_at_byte(file, begin))
        }
    }
}

/// Whether a newline stands in a text between two lexemes, or before the first.
fn is_parted(text: &[u8], before: Option<VerilogLexeme>, next: FileSpan) -> bool {
    let end = match before {
        Some(before) => before.span.begin.saturating_add(before.span.length),
        None => 0,
    };
    part(text, end as usize, next.begin.saturating_sub(end) as usize).contains(&b'\n')
}

/// Whether a lexeme is a token.
fn is_token(lexeme: VerilogLexeme) -> bool
    ensures { result ≡ plain.is_token lexeme }
{
    match lexeme.kind {
        LexemeKind::Token(_) => true,
        LexemeKind::Directive => false,
        LexemeKind::Joint => false,
    }
}

/// Whether all lexemes are tokens.
fn are_tokens(lexemes: &[VerilogLexeme]) -> bool
    ensures { result ≡ list_all plain.is_token lexemes.now }
{
    let mut left = lexemes;
    while let [lexeme, rest @ ..] = left {
        if !is_token(*lexeme) {
            return false;
        }
        left = rest;
    }
    true
}

/// The kind of the token that a lexeme is.
fn token_kind_of(kind: LexemeKind) -> TokenKind
    ensures { result ≡ plain.token_kind_of kind }
{
    match kind {
        LexemeKind::Token(kind) => kind,
        LexemeKind::Directive => TokenKind::Name,
        LexemeKind::Joint => TokenKind::Name,
    }
}

/// The token that a lexeme is.
fn token_of(lexeme: VerilogLexeme) -> VerilogToken
    ensures { result ≡ plain.token_of lexeme }
{
    VerilogToken {
        kind: token_kind_of(lexeme.kind),
        span: lexeme.span,
        use_place: None,
    }
}

impl Preprocessor {
    /// Whether one file more of this length is too much.
    fn is_too_much(&self, size: usize) -> bool
        ensures bytes { result ≡ false → size + self.now.bytes < 2 ^ 32 }
        ensures files { result ≡ false → length self.now.work.files.items < 2 ^ 20 }
    {
        self.work.files.len() >= MOST_FILES || size > (u32::MAX - self.bytes) as usize
    }

    /// Adds a file, and cuts its text.
    fn add(&mut self, alloc: Global, file: SourceFile) -> Result<Vec<VerilogLexeme>, Fault>
        ensures files { OnOk result (self.new.work.files.items ≡ self.old.work.files.items ++ file ∷ []) }
        ensures adds { MayAdd file self.old.work.files.items self.new.work.files.items }
        ensures tokens { self.new.work.tokens.items ≡ self.old.work.tokens.items }
        ensures stand { IfOk result (λ found. list_all (lexeme_stands self.new.work.files.items) found.items ≡ true) }
        ensures cut { IfOk result (λ found. IsCutInto (length self.old.work.files.items) 0 false file.text.items found.items) }
        ensures fault { IfErr result (λ fault. fault_stands self.new.work.files.items fault ≡ true) }
    {
        let size = file.text.len();
        if self.is_too_much(size) {
            return Err(Fault::TooMuchText);
        }
        let number = self.work.files.len() as u32;
        let found = cut(alloc, number, &file.text);
        self.work.add_file(file)?;
        self.bytes += size as u32;
        match found {
            Ok(found) => Ok(found),
            Err(fault) => Err(cut_fault(number, fault)),
        }
    }

    /// Adds lexemes that are tokens.
    fn add_tokens(&mut self, lexemes: &[VerilogLexeme]) -> Result<(), Fault>
        requires { list_all (lexeme_stands self.old.work.files.items) lexemes.now ≡ true }
        ensures files { self.new.work.files.items ≡ self.old.work.files.items }
        ensures tokens { OnOk result (self.new.work.tokens.items ≡ self.old.work.tokens.items ++ map plain.token_of lexemes.now) }
        ensures fault { IfErr result (λ fault. fault_stands self.new.work.files.items fault ≡ true) }
    {
        let mut left = lexemes;
        while let [lexeme, rest @ ..] = left {
            self.add_token(*lexeme)?;
            left = rest;
        }
        Ok(())
    }

    /// Adds a lexeme that is a token.
    fn add_token(&mut self, lexeme: VerilogLexeme) -> Result<(), Fault>
        requires { lexeme_stands self.old.work.files.items lexeme ≡ true }
        ensures files { self.new.work.files.items ≡ self.old.work.files.items }
        ensures tokens { OnOk result (self.new.work.tokens.items ≡ self.old.work.tokens.items ++ plain.token_of lexeme ∷ []) }
        ensures fault { IfErr result (λ fault. fault_stands self.new.work.files.items fault ≡ true) }
    {
        self.work.push_token(token_of(lexeme))
    }

    /// Puts the lexemes of a file before what is to be read.
    fn open(&mut self, lexemes: &[VerilogLexeme]) -> Result<(), Fault>
        requires { list_all (lexeme_stands self.old.work.files.items) lexemes.now ≡ true }
        ensures files { self.new.work.files.items ≡ self.old.work.files.items }
        ensures fault { IfErr result (λ fault. fault_stands self.new.work.files.items fault ≡ true) }
    {
        let [first, ..] = lexemes else {
            return Ok(());
        };
        self.work.open_file(first.span.file)?;
        let mut left = lexemes.len();
        while left > 0 {
            left -= 1;
            self.open_lexeme(lexemes, left)?;
        }
        Ok(())
    }

    /// Puts a lexeme of a file before what is to be read, by its number.
    fn open_lexeme(&mut self, lexemes: &[VerilogLexeme], number: usize) -> Result<(), Fault>
        requires { list_all (lexeme_stands self.old.work.files.items) lexemes.now ≡ true }
        ensures files { self.new.work.files.items ≡ self.old.work.files.items }
        ensures fault { IfErr result (λ fault. fault_stands self.new.work.files.items fault ≡ true) }
    {
        let Some(lexeme) = self.lexeme_at(lexemes, number) else {
            return Ok(());
        };
        let before = match number.checked_sub(1) {
            Some(number) => self.lexeme_at(lexemes, number),
            None => None,
        };
        let piece = self.piece_of(lexeme, before);
        self.work.push(piece)
    }

    /// A lexeme of a file, by its number.
    fn lexeme_at(&self, lexemes: &[VerilogLexeme], number: usize) -> Option<VerilogLexeme>
        requires { list_all (lexeme_stands self.now.work.files.items) lexemes.now ≡ true }
        ensures { IfSome result (λ lexeme. lexeme_stands self.now.work.files.items lexeme ≡ true) }
    {
        lexemes.get(number).copied()
    }

    /// The piece that a lexeme of a file is, by the lexeme before it.
    fn piece_of(&self, lexeme: VerilogLexeme, before: Option<VerilogLexeme>) -> PendingPiece
        requires { lexeme_stands self.now.work.files.items lexeme ≡ true }
        ensures { spec.piece_stands self.now.work.files.items result ≡ true }
    {
        let text = text_at(&self.work.files, lexeme.span.file);
        PendingPiece {
            lexeme,
            begins_line: is_parted(text, before, lexeme.span),
            origin: None,
        }
    }

    /// Begins to read a file that is included.
    pub(crate) fn include_file(&mut self, alloc: Global, file: SourceFile) -> Result<(), Fault>
        ensures adds { MayAdd file self.old.work.files.items self.new.work.files.items }
        ensures fault { IfErr result (λ fault. fault_stands self.new.work.files.items fault ≡ true) }
    {
        let found = self.add(alloc, file)?;
        self.open(&found)
    }

    /// Reads a file to its end. One without directives gives its tokens as they stand.
    pub(crate) fn read_file(
        &mut self,
        alloc: Global,
        file: SourceFile,
        folders: &[String],
        known: &[KnownFile],
    ) -> Result<(), Fault>
        ensures tokens { (ls : List VerilogLexeme) → IsCutInto (length self.old.work.files.items) 0 false file.text.items ls → list_all plain.is_token ls ≡ true → OnOk result (self.new.work.tokens.items ≡ self.old.work.tokens.items ++ map plain.token_of ls) }
        ensures reads { OnOk result (AddsSourceFile known.now file self.old.work.files.items self.new.work.files.items) }
        ensures adds { (self.new.work.files.items ≡ self.old.work.files.items) ⊎ AddsSourceFile known.now file self.old.work.files.items self.new.work.files.items }
        ensures files { (ls : List VerilogLexeme) → IsCutInto (length self.old.work.files.items) 0 false file.text.items ls → list_all plain.is_token ls ≡ true → OnOk result (self.new.work.files.items ≡ self.old.work.files.items ++ file ∷ []) }
        ensures fault { IfErr result (λ fault. fault_stands self.new.work.files.items fault ≡ true) }
    {
        let found = self.add(alloc, file)?;
        if are_tokens(&found) {
            return self.add_tokens(&found);
        }
        self.open(&found)?;
        self.run(alloc, folders, known)
    }
}
