//! Every word and sign of Verilog that a source has and the language lacks, in one pass.

ghost use Rattle.std.specs.Prelude.{◌≡◌, ◌≤◌, ◌+◌, ◌++◌, false, true, None, length, option_to_list, codes, IfOk, IfSome, OnOk, MatchOption};
ghost use Rattle.std.specs.Str.{bytes_eq};
ghost use Rattle.diagnosis.specs.PlainLexemes.{plain_lexeme};
ghost use Rattle.diagnosis.specs.LackedWords as spec;
ghost use Rattle.diagnosis.specs.LackedWords.{advice_of, suits};
ghost use Rattle.diagnosis.specs.declared.words.Advice.TheVariants.{Format, Replication};
ghost use Rattle.diagnosis.specs.Notes.{IsNoteOf, HasNotes};

use crate::before::{LexemeContext, NOTHING};
use crate::behind::{Following, next_two};
use crate::lexemes::{Lexeme, begins_number, lexemes};
use crate::words::{Advice, advice_of, is_same};
use std::alloc::{AllocError, Global};
use tokens::spans::is_letter;

/// What a source has from its byte `begin` to before its byte `end`, counted from 0, and what to write instead.
#[derive(Clone, Copy)]
pub struct Note {
    pub begin: usize,
    pub end: usize,
    pub advice: Advice,
}

/// What stands before a lexeme and behind it.
#[derive(Clone, Copy)]
struct Surroundings<'a> {
    before: LexemeContext<'a>,
    following: Following<'a>,
}

/// The length of the byte or the conversion at the front of a format, 0 where it is a conversion that the language lacks.
fn conversion_len(b: u8, rest: &[u8]) -> usize
    ensures { result ≤ length rest.now + 1 }
{
    if b != b'%' {
        return 1;
    }
    match rest {
        [b'b', ..] | [b'h', ..] | [b'%', ..] => 2,
        [b'0', b'd', ..] => 3,
        _ => 0,
    }
}

/// How many arguments a format has conversions for; none where it has another conversion.
pub fn conversions(format: &[u8]) -> Option<usize> {
    let mut left = format;
    let mut n = 0_usize;
    while let [b, rest @ ..] = left {
        match conversion_len(*b, rest) {
            0 => return None,
            1 => left = rest,
            len => {
                n = n.saturating_add(usize::from(rest.first() != Some(&b'%')));
                left = left.split_at(len).1;
            }
        }
    }
    Some(n)
}

/// Whether a large letter or `_` stands behind the `'` of a number.
fn has_large(number: &[u8]) -> bool
    ensures { result ≡ spec.has_large false number.now }
{
    let mut left = number;
    let mut based = false;
    while let [b, rest @ ..] = left {
        if based && is_large(*b) {
            return true;
        }
        based = based || *b == b'\'';
        left = rest;
    }
    false
}

fn is_large(b: u8) -> bool
    ensures { result ≡ spec.is_large b }
{
    (b >= b'A' && b <= b'Z') || b == b'_'
}

fn is_second_module(before: LexemeContext<'_>, text: &[u8]) -> bool
    ensures { result ≡ true → bytes_eq text.now (codes "module") ≡ true }
{
    before.has_module() && is_same(text, b"module")
}

/// Whether a string has to come, and doesn't.
fn lacks_format(before: LexemeContext<'_>, text: &[u8]) -> bool
    ensures { result ≡ true → suits Format text.now ≡ true }
{
    match text {
        [b'"', ..] => false,
        _ => before.takes_format(),
    }
}

/// Whether a number or a name says how often something is repeated.
fn is_count(before: LexemeContext<'_>, text: &[u8], following: Following<'_>) -> bool
    ensures { result ≡ true → suits Replication text.now ≡ true }
{
    match text {
        [b, ..] => (begins_number(*b) || is_letter(*b)) && before.repeats(following),
        _ => false,
    }
}

/// The advice on an operator. One of several bytes has it at its first.
fn advice_on_operator(around: Surroundings<'_>, text: &[u8]) -> Option<Advice>
    ensures { IfSome result (λ advice. suits advice text.now ≡ true) }
{
    let Surroundings { before, following } = around;
    match text {
        [b'*'] if before.takes_events() => Some(Advice::Triggers),
        [b'*'] if before.is_told(following) => None,
        [b'*'] => Some(Advice::Operator),
        [b'/'] => Some(Advice::Operator),
        [b'%'] => Some(Advice::Operator),
        [b'-'] if is_same(following.next, b">") => Some(Advice::NamedEvent),
        [b'-'] if !before.ends_value() => Some(Advice::Sign),
        [b'+'] if !before.ends_value() => Some(Advice::Sign),
        [b'~'] if following.is_inverted() => Some(Advice::Inverted),
        [b'^'] if is_same(following.next, b"~") && !before.ends_value() => Some(Advice::Inverted),
        [b'>'] if before.begins_three(b">", following) => Some(Advice::Shift),
        [b'<'] if before.begins_three(b"<", following) => Some(Advice::Shift),
        _ => None,
    }
}

/// The advice on a lexeme of one byte that is no operator, if it has one.
fn advice_on_sign(around: Surroundings<'_>, text: &[u8]) -> Option<Advice>
    ensures { IfSome result (λ advice. suits advice text.now ≡ true) }
{
    let Surroundings { before, following } = around;
    match text {
        [b'.'] => Some(Advice::OneModule),
        [b'('] if before.takes_ports() => Some(Advice::OneModule),
        [b'('] if before.takes_attribute(following) => Some(Advice::Attribute),
        [b'='] if before.in_declaration() => Some(Advice::Value),
        [b'['] if before.takes_words() => Some(Advice::Memory),
        [b']'] if before.ends_left(following) => Some(Advice::LeftSide),
        [b'{'] if before.begins_statement() => Some(Advice::LeftSide),
        [b':'] if before.takes_name() => Some(Advice::BlockName),
        [b':'] if before.in_select() => Some(Advice::Index),
        _ => advice_on_operator(around, text),
    }
}

/// The advice on a word that isn't in the table, if it has one.
fn advice_on_word(around: Surroundings<'_>, text: &[u8]) -> Option<Advice>
    ensures { IfSome result (λ advice. suits advice text.now ≡ true) }
{
    let Surroundings { before, following } = around;
    match text {
        [b, ..] if is_letter(*b) && before.in_brackets() => Some(Advice::Index),
        [b, ..] if is_letter(*b) && before.is_event() => Some(Advice::BareEvent),
        [b, ..] if is_letter(*b) && before.is_delay() => Some(Advice::NamedDelay),
        [b, ..] if is_letter(*b) && before.begins_instance(text, following) => {
            Some(Advice::OneModule)
        }
        [b, ..] if is_letter(*b) && before.is_call(text, following) => Some(Advice::Subroutine),
        _ if is_same(text, b"or") && before.begins_gate() => Some(Advice::Gate),
        _ => None,
    }
}

/// The advice on a lexeme that is no word of the table, by what stands around it.
fn advice_around(around: Surroundings<'_>, text: &[u8]) -> Option<Advice>
    ensures { IfSome result (λ advice. suits advice text.now ≡ true) }
{
    let Surroundings { before, following } = around;
    if before.lacks_block(text) {
        return Some(Advice::Block);
    }
    if lacks_format(before, text) {
        return Some(Advice::Format);
    }
    if is_second_module(before, text) {
        return Some(Advice::OneModule);
    }
    if is_count(before, text, following) {
        return Some(Advice::Replication);
    }
    match text {
        [b'"', ..] if conversions(text).is_none() => Some(Advice::Conversion),
        [b, rest @ ..] if begins_number(*b) && before.lacks_size(*b, rest) => Some(Advice::Size),
        [b, ..] if begins_number(*b) && has_large(text) => Some(Advice::Digits),
        [b, ..] if is_letter(*b) => advice_on_word(around, text),
        _ => advice_on_sign(around, text),
    }
}

/// The note that gives this advice on a lexeme.
fn note_on(lexeme: &Lexeme<'_>, advice: Advice) -> Note
    ensures { result ≡ record { begin = lexeme.now.begin; end = lexeme.now.end; advice = advice } }
{
    Note {
        begin: lexeme.begin,
        end: lexeme.end,
        advice,
    }
}

/// The note on a lexeme, if there is advice on it: as a word of the table, or else by what stands before it.
fn note_of(around: Surroundings<'_>, lexeme: &Lexeme<'_>) -> Option<Note>
    ensures { MatchOption result (advice_of (plain_lexeme lexeme.now).text ≡ None) (IsNoteOf (plain_lexeme lexeme.now)) }
{
    match advice_of(lexeme.text) {
        Some(advice) => Some(note_on(lexeme, advice)),
        None => match advice_around(around, lexeme.text) {
            Some(advice) => Some(note_on(lexeme, advice)),
            None => None,
        },
    }
}

/// Adds a note to those found, where there is one. Fails where memory is refused.
fn add(found: &mut Vec<Note>, note: Option<Note>) -> Result<(), AllocError>
    ensures { OnOk result (found.new.items ≡ found.old.items ++ option_to_list note) }
{
    if let Some(note) = note {
        found.push(note)?;
    }
    Ok(())
}

/// The words and signs of a source that the language lacks, in order, with what to write instead. It is Verilog to begin with:
/// a word that the language lets stand for a register, as `wire`, has its note even so.
pub fn notes(alloc: Global, source: &[u8]) -> Result<Vec<Note>, AllocError>
    ensures { IfOk result (λ found. HasNotes source.now found.items) }
{
    let lexemes = lexemes(alloc, source)?;
    let mut found = Vec::new(alloc);
    let mut before = NOTHING;
    let mut left = lexemes.as_slice();
    while let [lexeme, rest @ ..] = left {
        let following = next_two(rest);
        let note = note_of(Surroundings { before, following }, lexeme);
        add(&mut found, note)?;
        before = before.after(lexeme.text, note);
        left = rest;
    }
    Ok(found)
}
