//! The kind of a token, by how it is spelled.

ghost use Rattle.std.specs.Prelude.{◌≡◌, true, map, slice_index};
ghost use Rattle.tokens.specs.ByteClasses.{is_letter};
ghost use Rattle.tokens.specs.Lexing as spec;

use crate::spans::{all_digits, is_digit, is_letter};
use crate::token::Kind;

/// A text, and the kind of a token that is spelled so.
type Spelling = (&'static [u8], Kind);

/// The reserved words (3.7.2).
const WORDS: &[Spelling] = &[
    (b"module", Kind::Module),
    (b"endmodule", Kind::EndModule),
    (b"reg", Kind::Reg),
    (b"initial", Kind::Initial),
    (b"always", Kind::Always),
    (b"begin", Kind::Begin),
    (b"end", Kind::EndBlock),
    (b"if", Kind::If),
    (b"else", Kind::Else),
    (b"while", Kind::While),
    (b"posedge", Kind::Posedge),
    (b"negedge", Kind::Negedge),
    (b"or", Kind::Or),
];

/// The system names (3.7.3) that the grammar has.
const SYSTEM_NAMES: &[Spelling] = &[
    (b"$display", Kind::Display),
    (b"$strobe", Kind::Strobe),
    (b"$finish", Kind::Finish),
];

/// The brackets, the comma and the semicolon, which stand most often; the operators, from the level that binds most to the one
/// that binds least (5.1.2); and the marks of assignments, delays and events.
const SIGNS: &[Spelling] = &[
    (b"(", Kind::Open),
    (b")", Kind::Close),
    (b"[", Kind::OpenSquare),
    (b"]", Kind::CloseSquare),
    (b"{", Kind::OpenCurly),
    (b"}", Kind::CloseCurly),
    (b",", Kind::Comma),
    (b";", Kind::Semicolon),
    (b"!", Kind::Bang),
    (b"~", Kind::Tilde),
    (b"+", Kind::Plus),
    (b"-", Kind::Minus),
    (b"<<", Kind::ShiftLeft),
    (b">>", Kind::ShiftRight),
    (b"<", Kind::Less),
    (b"<=", Kind::AtMost),
    (b">", Kind::Greater),
    (b">=", Kind::AtLeast),
    (b"==", Kind::Equal),
    (b"!=", Kind::NotEqual),
    (b"===", Kind::Same),
    (b"!==", Kind::NotSame),
    (b"&", Kind::Ampersand),
    (b"^", Kind::Caret),
    (b"|", Kind::Bar),
    (b"&&", Kind::AndAnd),
    (b"||", Kind::OrOr),
    (b"?", Kind::Question),
    (b":", Kind::Colon),
    (b"=", Kind::Assign),
    (b"#", Kind::Hash),
    (b"@", Kind::At),
];

/// The kind that a table has for a text.
fn kind_in(table: &[Spelling], text: &[u8]) -> Option<Kind>
    ensures { result ≡ spec.kind_in (map (λ row. (row.0.now, row.1)) table.now) text.now }
{
    let mut left = table;
    while let [(word, kind), rest @ ..] = left {
        if text == *word {
            return Some(*kind);
        }
        left = rest;
    }
    None
}

#[tactic(auto, unfolding(crate::specs::Lexing::words))]
fn word(text: &[u8]) -> Option<Kind>
    ensures { result ≡ spec.kind_in spec.words text.now }
{
    kind_in(WORDS, text)
}

#[tactic(auto, unfolding(crate::specs::Lexing::system_names))]
fn system_name(text: &[u8]) -> Option<Kind>
    ensures { result ≡ spec.kind_in spec.system_names text.now }
{
    kind_in(SYSTEM_NAMES, text)
}

/// The kind of an operator or a mark, if the text is one.
#[tactic(auto, unfolding(crate::specs::Lexing::signs))]
fn sign(text: &[u8]) -> Option<Kind>
    ensures { result ≡ spec.kind_in spec.signs text.now }
{
    // Those that stand most often and late in the table are found without it.
    match text {
        [b';'] => Some(Kind::Semicolon),
        [b'='] => Some(Kind::Assign),
        [b'<', b'='] => Some(Kind::AtMost),
        _ => kind_in(SIGNS, text),
    }
}

/// The kind of a reserved word, or of a name.
fn word_kind(text: &[u8]) -> Kind
    requires { is_letter (slice_index text.now 0) ≡ true }
    ensures { result ≡ spec.kind_of text.now }
{
    if let Some(kind) = word(text) {
        return kind;
    }
    Kind::Name
}

/// The kind of a system name.
fn system_kind(text: &[u8]) -> Kind
    requires { slice_index text.now 0 ≡ 36 }
    ensures { result ≡ spec.kind_of text.now }
{
    if let Some(kind) = system_name(text) {
        return kind;
    }
    Kind::System
}

/// The kind of a token that no table has, by its first byte: a number, a string, a system name or a name.
#[tactic(auto, unfolding(crate::specs::Lexing::kind_by_first))]
fn kind_by_first(text: &[u8]) -> Kind
    ensures { result ≡ spec.kind_by_first text.now }
{
    let [first, rest @ ..] = text else {
        return Kind::End;
    };
    if is_digit(*first) {
        return if all_digits(rest) {
            Kind::Decimal
        } else {
            Kind::Sized
        };
    }
    if *first == b'"' {
        return Kind::Text;
    }
    if *first == b'$' {
        Kind::System
    } else {
        Kind::Name
    }
}

/// The kind of an operator or a mark, and else the one that the first byte tells.
fn sign_kind(text: &[u8]) -> Kind
    ensures { result ≡ spec.sign_kind text.now }
{
    if let Some(kind) = sign(text) {
        return kind;
    }
    kind_by_first(text)
}

/// The kind of a token, by how it is spelled. Its first byte says which words it may be.
pub fn kind_of(text: &[u8]) -> Kind
    ensures { result ≡ spec.kind_of text.now }
{
    let [first, ..] = text else {
        return Kind::End;
    };
    if is_letter(*first) {
        return word_kind(text);
    }
    if *first == b'$' {
        return system_kind(text);
    }
    if is_digit(*first) || *first == b'"' {
        return kind_by_first(text);
    }
    sign_kind(text)
}
