//! Piece after piece of the files is read.

ghost use Rattle.std.specs.Prelude.{◌≡◌, [], true, IfOk, OnOk, IsOk, IfErr, IfSome};
ghost use Rattle.std.specs.List.{list_all};
ghost use Rattle.preprocess.specs.Places.{stands, piece_stands, token_stands, fault_stands, use_place};
ghost use Rattle.preprocess.specs.Sources.{AddsIncluded};

use crate::conditions::is_condition;
use crate::directives::{Directive, directive_of};
use crate::fault::{Fault, TextFaultKind};
use crate::includes::{KnownFile, Lookup, find};
use crate::kinds::{is_base, is_name, is_text};
use crate::preprocess::{Preprocessed, TextRefusal};
use crate::uses::MacroUse;
use crate::work::{PendingPiece, Work};
use indexmap::IndexMap;
use lexemes::spans::{ByteClass, all_bytes};
use lexemes::token::{FileSpan, LexemeKind, TokenKind, VerilogToken};
use source_texts::places::unquoted;
use source_texts::settings::{LineMark, SettingChange};
use source_texts::texts::text_of;
use std::alloc::Global;

/// How many pieces are read in all.
const MOST_STEPS: u32 = 2_097_152;

/// How deep files include each other.
const DEEPEST_INCLUDE: usize = 64;

/// A macro that is defined (19.3.1).
#[derive(Clone, Copy)]
pub(crate) struct Macro {
    /// The number of the definition.
    pub(crate) definition: usize,
    /// How many formal arguments it has; `None` where it is used without brackets.
    pub(crate) formals: Option<usize>,
    /// The numbers of the pieces of its text: from this one on, up to the other.
    pub(crate) begin: usize,
    pub(crate) end: usize,
}

/// What is known while files are read.
#[derive(Drop)]
pub(crate) struct Preprocessor {
    pub(crate) work: Work,
    pub(crate) macros: IndexMap<Vec<u8>, Macro>,
    /// How many macros were defined, those that were defined again too.
    pub(crate) definitions: usize,
    pub(crate) uses: Vec<MacroUse>,
    pub(crate) settings: Vec<SettingChange>,
    pub(crate) lines: Vec<LineMark>,
    /// How many bytes all texts have.
    pub(crate) bytes: u32,
    /// The path at which nobody has looked up a file that is included.
    wanted: Option<String>,
}

impl Preprocessor {
    /// Nothing is known.
    pub(crate) fn new(alloc: Global) -> Preprocessor
        ensures files { result.work.files.items ≡ [] }
        ensures tokens { result.work.tokens.items ≡ [] }
    {
        Preprocessor {
            work: Work::new(alloc),
            macros: IndexMap::new(alloc),
            definitions: 0,
            uses: Vec::new(alloc),
            settings: Vec::new(alloc),
            lines: Vec::new(alloc),
            bytes: 0,
            wanted: None,
        }
    }

    /// Takes the next piece, where one is left, from the file that is being read or else from one that includes it.
    fn next_piece(&mut self) -> Result<Option<PendingPiece>, Fault>
        ensures stands { IfOk result (λ found. IfSome found (λ piece. piece_stands self.new.work.files.items piece ≡ true)) }
        ensures span { IfOk result (λ found. IfSome found (λ piece. stands self.new.work.files.items piece.lexeme.span ≡ true)) }
        ensures files { self.new.work.files.items ≡ self.old.work.files.items }
        ensures fault { IfErr result (λ fault. fault_stands self.new.work.files.items fault ≡ true) }
    {
        while self.work.is_at_end() {
            self.work.close_file()?;
        }
        Ok(self.work.pop())
    }

    /// Reads all that is to be read.
    pub(crate) fn run(
        &mut self,
        alloc: Global,
        folders: &[String],
        known: &[KnownFile],
    ) -> Result<(), Fault>
        ensures adds { AddsIncluded known.now self.old.work.files.items self.new.work.files.items }
        ensures fault { IfErr result (λ fault. fault_stands self.new.work.files.items fault ≡ true) }
    {
        let mut steps = MOST_STEPS;
        while let Some(piece) = self.next_piece()? {
            if steps == 0 {
                return Err(Fault::At(TextFaultKind::TooManyTokens, piece.lexeme.span));
            }
            steps -= 1;
            self.step(alloc, piece, folders, known)?;
        }
        Ok(())
    }

    /// Reads a piece, and what belongs to it.
    fn step(
        &mut self,
        alloc: Global,
        piece: PendingPiece,
        folders: &[String],
        known: &[KnownFile],
    ) -> Result<(), Fault>
        requires { piece_stands self.old.work.files.items piece ≡ true }
        ensures adds { AddsIncluded known.now self.old.work.files.items self.new.work.files.items }
        ensures fault { IfErr result (λ fault. fault_stands self.new.work.files.items fault ≡ true) }
    {
        match piece.lexeme.kind {
            LexemeKind::Directive => self.read_directive(alloc, piece, folders, known),
            LexemeKind::Token(kind) => self.read_token(kind, piece),
            LexemeKind::Joint => self.read_joint(piece),
        }
    }

    /// Refuses a `\` before a newline that stands in no text of a macro, where it is read.
    fn read_joint(&self, piece: PendingPiece) -> Result<(), Fault>
        requires { stands self.now.work.files.items piece.lexeme.span ≡ true }
        ensures { IfErr result (λ fault. fault_stands self.now.work.files.items fault ≡ true) }
    {
        if self.work.is_active() {
            return Err(Fault::At(TextFaultKind::StrayByte, piece.lexeme.span));
        }
        Ok(())
    }

    /// Adds a token, where it is read.
    fn read_token(&mut self, kind: TokenKind, piece: PendingPiece) -> Result<(), Fault>
        requires { piece_stands self.old.work.files.items piece ≡ true }
        ensures files { self.new.work.files.items ≡ self.old.work.files.items }
        ensures fault { IfErr result (λ fault. fault_stands self.new.work.files.items fault ≡ true) }
    {
        if !self.work.is_active() {
            return Ok(());
        }
        let token = VerilogToken {
            kind: self.kind_behind_base(kind, piece),
            span: piece.lexeme.span,
            use_place: use_place_of(piece),
        };
        self.work.push_token(token)?;
        Ok(())
    }

    /// The kind of a token: what comes from the text of a macro, and stands behind a base and could be its digits, are its digits.
    fn kind_behind_base(&self, kind: TokenKind, piece: PendingPiece) -> TokenKind {
        if piece.origin.is_some()
            && self.is_behind_base()
            && all_bytes(
                ByteClass::Based,
                text_of(&self.work.files, piece.lexeme.span),
            )
        {
            TokenKind::BasedDigits
        } else {
            kind
        }
    }

    /// Whether the last token is the base of a number.
    fn is_behind_base(&self) -> bool {
        match self.work.tokens.last() {
            Some(token) => is_base(token.kind),
            None => false,
        }
    }

    /// Reads a directive, or the use of a macro.
    fn read_directive(
        &mut self,
        alloc: Global,
        piece: PendingPiece,
        folders: &[String],
        known: &[KnownFile],
    ) -> Result<(), Fault>
        requires { piece_stands self.old.work.files.items piece ≡ true }
        ensures adds { AddsIncluded known.now self.old.work.files.items self.new.work.files.items }
        ensures fault { IfErr result (λ fault. fault_stands self.new.work.files.items fault ≡ true) }
    {
        let Some(directive) = self.directive_at(piece.lexeme.span) else {
            return self.read_use(alloc, piece);
        };
        if is_condition(directive) {
            return self.read_condition(directive, piece);
        }
        if !self.work.is_active() {
            return Ok(());
        }
        let place = piece.lexeme.span;
        match directive {
            Directive::Define => self.define(alloc, place),
            Directive::Undefine => self.undefine(place),
            Directive::Include => self.include(alloc, place, folders, known),
            Directive::Line => self.read_line(place),
            Directive::Pragma => {
                self.skip_line();
                Ok(())
            }
            Directive::BeginKeywords | Directive::EndKeywords => {
                Err(Fault::At(TextFaultKind::KeywordsDirective, place))
            }
            _ => self.read_setting(directive, place),
        }
    }

    /// The directive whose name stands behind a backtick; `None` for the name of a macro.
    pub(crate) fn directive_at(&self, place: FileSpan) -> Option<Directive> {
        directive_of(name_behind(text_of(&self.work.files, place)))
    }

    /// Takes the name that is to stand behind a directive.
    pub(crate) fn name_after(&mut self, directive: FileSpan) -> Result<PendingPiece, Fault>
        requires { stands self.old.work.files.items directive ≡ true }
        ensures files { self.new.work.files.items ≡ self.old.work.files.items }
        ensures fault { IfErr result (λ fault. fault_stands self.new.work.files.items fault ≡ true) }
    {
        match self.work.pop() {
            Some(piece) if is_name(piece.lexeme.kind) => Ok(piece),
            _ => Err(Fault::At(TextFaultKind::MalformedDirective, directive)),
        }
    }

    /// Takes the string that is to stand behind a directive.
    pub(crate) fn string_after(&mut self, directive: FileSpan) -> Result<FileSpan, Fault>
        requires { stands self.old.work.files.items directive ≡ true }
        ensures files { self.new.work.files.items ≡ self.old.work.files.items }
        ensures fault { IfErr result (λ fault. fault_stands self.new.work.files.items fault ≡ true) }
    {
        match self.work.pop() {
            Some(piece) if is_text(piece.lexeme.kind) => Ok(piece.lexeme.span),
            _ => Err(Fault::At(TextFaultKind::MalformedDirective, directive)),
        }
    }

    /// The macro of a name, if it is defined.
    pub(crate) fn macro_of(&self, name: &[u8]) -> Option<Macro> {
        self.macros.get(name).copied()
    }

    /// Leaves out the rest of the line.
    fn skip_line(&mut self)
        ensures { self.new.work.files.items ≡ self.old.work.files.items }
    {
        while self.work.pop_on_line().is_some() {}
    }

    /// The name of the file that is being read.
    fn path(&self) -> &str {
        match self.work.files.get(self.work.file() as usize) {
            Some(file) => file.name.as_str(),
            None => "",
        }
    }

    /// Begins to read a file that is included (19.5).
    fn include(
        &mut self,
        alloc: Global,
        directive: FileSpan,
        folders: &[String],
        known: &[KnownFile],
    ) -> Result<(), Fault>
        requires { stands self.old.work.files.items directive ≡ true }
        ensures adds { AddsIncluded known.now self.old.work.files.items self.new.work.files.items }
        ensures fault { IfErr result (λ fault. fault_stands self.new.work.files.items fault ≡ true) }
    {
        let name = self.string_after(directive)?;
        if self.work.depth() > DEEPEST_INCLUDE {
            return Err(Fault::At(TextFaultKind::IncludesTooDeep, directive));
        }
        let bytes = unquoted(text_of(&self.work.files, name));
        match find(alloc, known, self.path(), folders, bytes)? {
            Lookup::Found(file) => self.include_file(alloc, file),
            Lookup::Missing => Err(Fault::At(TextFaultKind::IncludeNotFound, directive)),
            Lookup::Unknown(path) => {
                self.wanted = Some(path);
                Err(Fault::At(TextFaultKind::IncludeNotFound, directive))
            }
        }
    }
}

/// What stands behind a backtick.
pub(crate) fn name_behind(text: &[u8]) -> &[u8] {
    match text {
        [_, name @ ..] => name,
        [] => text,
    }
}

/// Where the outermost macro was used from which a piece comes, if it comes from one.
fn use_place_of(piece: PendingPiece) -> Option<FileSpan>
    ensures { result ≡ use_place piece.origin }
{
    match piece.origin {
        Some(origin) => Some(origin.place),
        None => None,
    }
}

impl Preprocessor {
    /// What was read, or why it wasn't read to its end.
    pub(crate) fn finish(self, read: Result<(), Fault>) -> Result<Preprocessed, TextRefusal>
        requires { IfErr read (λ fault. fault_stands self.work.files.items fault ≡ true) }
        ensures tokens { IfOk result (λ found. list_all (token_stands found.files.items) found.tokens.items ≡ true) }
        ensures same { IfOk result (λ found. found.tokens.items ≡ self.work.tokens.items) }
        ensures read { OnOk result (IsOk read) }
        ensures files { IfOk result (λ found. found.files.items ≡ self.work.files.items) }
        ensures refused { IfErr result (λ refusal. refusal.files.items ≡ self.work.files.items) }
        ensures fault { IfErr result (λ refusal. fault_stands refusal.files.items refusal.fault ≡ true) }
    {
        let Preprocessor {
            work,
            macros: _,
            definitions: _,
            uses: _,
            settings,
            lines,
            bytes: _,
            wanted,
        } = self;
        let (files, tokens) = work.into_parts();
        match read {
            Ok(()) => Ok(Preprocessed {
                files,
                tokens,
                settings,
                lines,
            }),
            Err(fault) => Err(TextRefusal {
                fault,
                files,
                lines,
                wanted,
            }),
        }
    }
}
