//! The words that tell a construct.

use expression_syntax::reader::Reader;
use expression_syntax::texts::{TokenSource, token_bytes};
use lexemes::token::{Keyword, Sign, TokenKind};
use syntax_tree::declarations::{Direction, NetKind, VariableKind};
use syntax_tree::modules::GateKind;
use syntax_tree::statements::CaseForm;

/// The kind of nets that a word declares (4.6).
pub fn net_kind(word: Keyword) -> Option<NetKind> {
    match word {
        Keyword::Wire => Some(NetKind::Wire),
        Keyword::Tri => Some(NetKind::Tri),
        Keyword::Tri0 => Some(NetKind::Tri0),
        Keyword::Tri1 => Some(NetKind::Tri1),
        Keyword::WAnd => Some(NetKind::WiredAnd),
        Keyword::TriAnd => Some(NetKind::TriAnd),
        Keyword::WOr => Some(NetKind::WiredOr),
        Keyword::TriOr => Some(NetKind::TriOr),
        Keyword::Supply0 => Some(NetKind::Supply0),
        Keyword::Supply1 => Some(NetKind::Supply1),
        Keyword::UWire => Some(NetKind::UnresolvedWire),
        _ => None,
    }
}

/// The kind of variables that a word declares (4.2, 4.8).
pub fn variable_kind(word: Keyword) -> Option<VariableKind> {
    match word {
        Keyword::Reg => Some(VariableKind::Register),
        Keyword::Integer => Some(VariableKind::Integer),
        Keyword::Time => Some(VariableKind::Time),
        _ => None,
    }
}

/// Whether a word declares real variables (4.8).
pub fn is_real(word: Keyword) -> bool {
    match word {
        Keyword::Real | Keyword::RealTime => true,
        _ => false,
    }
}

/// The direction of ports that a word declares (12.3.3).
pub fn direction(word: Keyword) -> Option<Direction> {
    match word {
        Keyword::Input => Some(Direction::Input),
        Keyword::Output => Some(Direction::Output),
        Keyword::InOut => Some(Direction::InOut),
        _ => None,
    }
}

/// The gate that a word names (7.2 to 7.4).
pub fn gate_kind(word: Keyword) -> Option<GateKind> {
    match word {
        Keyword::And => Some(GateKind::And),
        Keyword::Nand => Some(GateKind::Nand),
        Keyword::Or => Some(GateKind::Or),
        Keyword::Nor => Some(GateKind::Nor),
        Keyword::Xor => Some(GateKind::Xor),
        Keyword::Xnor => Some(GateKind::Xnor),
        Keyword::Not => Some(GateKind::Not),
        Keyword::Buf => Some(GateKind::Buffer),
        Keyword::BufIf0 => Some(GateKind::BufferIf0),
        Keyword::BufIf1 => Some(GateKind::BufferIf1),
        Keyword::NotIf0 => Some(GateKind::NotIf0),
        Keyword::NotIf1 => Some(GateKind::NotIf1),
        _ => None,
    }
}

/// Whether a word names a switch (7.5 to 7.7).
pub fn is_switch(word: Keyword) -> bool {
    match word {
        Keyword::Cmos | Keyword::Nmos | Keyword::Pmos => true,
        Keyword::RCmos | Keyword::RNmos | Keyword::RPmos => true,
        Keyword::Tran | Keyword::TranIf0 | Keyword::TranIf1 => true,
        Keyword::RTran | Keyword::RTranIf0 | Keyword::RTranIf1 => true,
        _ => false,
    }
}

/// The form of a case statement that a word begins (9.5).
pub fn case_form(word: Keyword) -> Option<CaseForm> {
    match word {
        Keyword::Case => Some(CaseForm::Case),
        Keyword::CaseZ => Some(CaseForm::DontCareZ),
        Keyword::CaseX => Some(CaseForm::DontCareX),
        _ => None,
    }
}

/// The keyword that comes next, if one does.
pub fn next_word(source: &TokenSource<'_>, reader: &Reader) -> Option<Keyword> {
    match reader.kind(source) {
        Some(TokenKind::Keyword(word)) => Some(word),
        _ => None,
    }
}

/// The words of SystemVerilog that begin a declaration of variables.
const TYPE_WORDS: &[&[u8]] = &[
    b"logic",
    b"bit",
    b"byte",
    b"int",
    b"shortint",
    b"longint",
    b"shortreal",
    b"var",
];

/// The words of SystemVerilog that begin another declaration or a statement.
const OTHER_WORDS: &[&[u8]] = &[
    b"typedef",
    b"enum",
    b"struct",
    b"union",
    b"import",
    b"export",
    b"package",
    b"interface",
    b"class",
    b"program",
    b"modport",
    b"clocking",
    b"return",
    b"break",
    b"continue",
    b"foreach",
    b"unique",
    b"priority",
    b"assert",
    b"assume",
    b"cover",
    b"property",
    b"sequence",
    b"final",
    b"timeunit",
    b"timeprecision",
    b"string",
    b"const",
    b"bind",
    b"covergroup",
    b"do",
    b"static",
];

/// The words of SystemVerilog that begin an `always` construct of its own kind.
const ALWAYS_WORDS: &[&[u8]] = &[b"always_comb", b"always_ff", b"always_latch"];

/// Whether a name is one of these words.
fn is_one_of(name: &[u8], words: &[&[u8]]) -> bool {
    for word in words {
        if name == *word {
            return true;
        }
    }
    false
}

/// What a word of SystemVerilog would begin.
#[derive(Clone, Copy)]
pub enum LaterWord {
    Nothing,
    Type,
    Always,
    Other,
}

/// Whether a sign comes behind the next token, so that this one is a name.
fn is_used_as_name(source: &TokenSource<'_>, reader: &Reader) -> bool {
    match reader.kind_ahead(source, 1) {
        Some(TokenKind::Sign(_)) => true,
        _ => false,
    }
}

/// What the next token would begin in SystemVerilog, where it is a name that isn't used as one.
pub fn later_word(source: &TokenSource<'_>, reader: &Reader) -> LaterWord {
    if !reader.sees_name(source) {
        return LaterWord::Nothing;
    }
    let name = token_bytes(source, reader.place());
    if is_one_of(name, ALWAYS_WORDS) {
        return LaterWord::Always;
    }
    if is_used_as_name(source, reader) && !reader.sees_ahead(source, 1, Sign::OpenSquare) {
        return LaterWord::Nothing;
    }
    if is_one_of(name, TYPE_WORDS) {
        return LaterWord::Type;
    }
    if is_one_of(name, OTHER_WORDS) {
        return LaterWord::Other;
    }
    LaterWord::Nothing
}
