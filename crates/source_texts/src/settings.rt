//! What directives say of the modules behind them (19.1, 19.2, 19.6, 19.8, 19.9), and the lines that they set (19.7).

ghost use Rattle.std.specs.Prelude.{◌≡◌, ◌∷◌, [], map};
ghost use Rattle.source_texts.specs.Settings as spec;

use lexemes::token::{FileSpan, Keyword, LexemeKind, TokenKind};

/// An amount of time: a femtosecond, multiplied by ten so many times.
#[derive(Clone, Copy, PartialEq, Eq)]
pub struct TimeUnit {
    /// The power of ten: 0 for 1 fs, 17 for 100 s.
    pub power: u8,
}

/// What a directive says of the modules behind it.
#[derive(Clone, Copy)]
pub enum ModuleSetting {
    /// `` `timescale`` (19.8).
    Timescale { unit: TimeUnit, precision: TimeUnit },
    /// `` `default_nettype`` (19.2); nothing where it is `none`.
    DefaultNettype(Option<Keyword>),
    /// `` `unconnected_drive`` (19.9): `pull0` or `pull1`; nothing behind `` `nounconnected_drive``.
    UnconnectedDrive(Option<Keyword>),
    /// `` `celldefine`` and `` `endcelldefine`` (19.1).
    Cell(bool),
    /// `` `resetall`` (19.6).
    Reset,
}

/// A directive that says something of the modules behind it.
#[derive(Clone, Copy)]
pub struct SettingChange {
    pub setting: ModuleSetting,
    /// The directive.
    pub place: FileSpan,
    /// How many tokens stand before it.
    pub tokens_before: usize,
}

/// A `` `line`` directive (19.7).
#[derive(Clone, Copy)]
pub struct LineMark {
    /// The directive.
    pub place: FileSpan,
    /// The number of the line behind the directive's line.
    pub line: u64,
    /// The name of the file, with its quotes.
    pub name: FileSpan,
}

/// A word, and a power of ten.
type WordPower = (&'static [u8], u8);

/// The numbers that may stand before a unit of time (19.8).
const NUMBERS: &[WordPower] = &[(b"1", 0), (b"10", 1), (b"100", 2)];

/// The units of time, each with the power of ten femtoseconds of one of it (19.8).
const UNITS: &[WordPower] = &[
    (b"fs", 0),
    (b"ps", 3),
    (b"ns", 6),
    (b"us", 9),
    (b"ms", 12),
    (b"s", 15),
];

/// The power that a table has for a word.
fn power_of_word(table: &[WordPower], word: &[u8]) -> Option<u8>
    ensures { result ≡ spec.power_of_word (map (λ row. (row.0.now, row.1)) table.now) word.now }
{
    let mut left = table;
    while let [(named, power), rest @ ..] = left {
        if word == *named {
            return Some(*power);
        }
        left = rest;
    }
    None
}

/// The power of ten of 1, 10 and 100.
#[tactic(auto, unfolding(crate::specs::Settings::number_powers))]
fn power_of_number(number: &[u8]) -> Option<u8>
    ensures { result ≡ spec.power_of_word spec.number_powers number.now }
{
    power_of_word(NUMBERS, number)
}

/// The power of ten femtoseconds of one of a unit.
#[tactic(auto, unfolding(crate::specs::Settings::unit_powers))]
fn power_of_unit(unit: &[u8]) -> Option<u8>
    ensures { result ≡ spec.power_of_word spec.unit_powers unit.now }
{
    power_of_word(UNITS, unit)
}

/// The time of a number and a unit, by their powers.
fn time_by_powers(number: Option<u8>, unit: Option<u8>) -> Option<TimeUnit>
    ensures { result ≡ spec.time_by_powers number unit }
{
    let Some(number) = number else {
        return None;
    };
    let Some(unit) = unit else {
        return None;
    };
    let Some(power) = unit.checked_add(number) else {
        return None;
    };
    Some(TimeUnit { power })
}

/// The amount of time of a number and a unit.
pub fn time_of(number: &[u8], unit: &[u8]) -> Option<TimeUnit>
    ensures { result ≡ spec.time_in_words number.now unit.now }
{
    time_by_powers(power_of_number(number), power_of_unit(unit))
}

/// Whether a word is the type of a net.
fn is_net_type(word: Keyword) -> bool
    ensures { result ≡ spec.is_net_type word }
{
    word == Keyword::Wire
        || word == Keyword::Tri
        || word == Keyword::Tri0
        || word == Keyword::Tri1
        || word == Keyword::WAnd
        || word == Keyword::TriAnd
        || word == Keyword::WOr
        || word == Keyword::TriOr
        || word == Keyword::TriReg
        || word == Keyword::UWire
}

/// The setting of a `` `default_nettype`` before a reserved word.
fn nettype_of_word(word: Keyword) -> Option<ModuleSetting>
    ensures { result ≡ spec.nettype_of_word word }
{
    if is_net_type(word) {
        Some(ModuleSetting::DefaultNettype(Some(word)))
    } else {
        None
    }
}

/// The setting of a `` `default_nettype`` before a name.
fn nettype_of_name(text: &[u8]) -> Option<ModuleSetting>
    ensures { result ≡ spec.nettype_of_name text.now }
{
    if text == b"none".as_slice() {
        Some(ModuleSetting::DefaultNettype(None))
    } else {
        None
    }
}

/// The setting of a `` `default_nettype`` before a token.
fn nettype_of_token(kind: TokenKind, text: &[u8]) -> Option<ModuleSetting>
    ensures { result ≡ spec.nettype_of_token kind text.now }
{
    match kind {
        TokenKind::Keyword(word) => nettype_of_word(word),
        TokenKind::Name => nettype_of_name(text),
        _ => None,
    }
}

/// The setting of a `` `default_nettype``, by the word behind it.
pub fn nettype(kind: LexemeKind, text: &[u8]) -> Option<ModuleSetting>
    ensures { result ≡ spec.nettype_setting kind text.now }
{
    match kind {
        LexemeKind::Token(kind) => nettype_of_token(kind, text),
        LexemeKind::Directive => None,
        LexemeKind::Joint => None,
    }
}

/// The setting of an `` `unconnected_drive`` before a reserved word.
fn drive_of_word(word: Keyword) -> Option<ModuleSetting>
    ensures { result ≡ spec.drive_of_word word }
{
    if word == Keyword::Pull0 || word == Keyword::Pull1 {
        Some(ModuleSetting::UnconnectedDrive(Some(word)))
    } else {
        None
    }
}

/// The setting of an `` `unconnected_drive`` before a token.
fn drive_of_token(kind: TokenKind) -> Option<ModuleSetting>
    ensures { result ≡ spec.drive_of_token kind }
{
    match kind {
        TokenKind::Keyword(word) => drive_of_word(word),
        _ => None,
    }
}

/// The setting of an `` `unconnected_drive``, by the word behind it.
pub fn drive(kind: LexemeKind) -> Option<ModuleSetting>
    ensures { result ≡ spec.drive_setting kind }
{
    match kind {
        LexemeKind::Token(kind) => drive_of_token(kind),
        LexemeKind::Directive => None,
        LexemeKind::Joint => None,
    }
}

/// A number with one byte more, if 64 bits hold it.
fn with_line_digit(n: u64, byte: u8) -> Option<u64>
    ensures { result ≡ spec.line_number_from n (byte ∷ []) }
{
    if byte == b'_' {
        return Some(n);
    }
    n.checked_mul(10)?
        .checked_add(u64::from(byte.saturating_sub(b'0')))
}

/// The number of a line, by its digits.
pub fn line_number(text: &[u8]) -> Option<u64>
    ensures { result ≡ spec.line_number_from 0 text.now }
{
    let mut left = text;
    let mut number: u64 = 0;
    while let [byte, rest @ ..] = left {
        number = with_line_digit(number, *byte)?;
        left = rest;
    }
    Some(number)
}
