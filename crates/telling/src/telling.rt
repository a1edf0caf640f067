//! Lines and texts are told.

ghost use Rattle.std.specs.Prelude.{◌++◌, chars, decimal};
ghost use Rattle.std.specs.Char.{encode_utf8};
ghost use Rattle.std.specs.Char.Escape.{escape_default};
ghost use Rattle.telling.specs.FaultLines.{Sends, Tells, end_of, head_of, line_of, rest_of, shown_by, shown_in_lines, shown_letter, shown_lines, shown_path, spelled, subject_text};

use crate::line::{Subject, SubjectLine};
use itoa::Buffer;
use journal::Counted;
use std::io::Write;

const NAME: &str = "vsimtx: ";

const NEWLINE: &str = "\n";

/// How a text that others may have written is shown.
#[derive(Clone, Copy)]
pub(crate) enum Showing {
    /// In one line: each control character is escaped.
    Line,
    /// In several lines: each control character but a newline is escaped.
    Lines,
}

/// Tells a line of the program's own. Nobody is left to hear of a write that fails.
pub fn tell<E: Write>(err: &mut Counted<E>, line: &SubjectLine<'_>)
    ensures { Tells E.contents err.old err.new (line_of line.now) }
{
    let _whole = send_head(err, line) && send_rest(err, line);
}

/// Tells a text. Nobody is left to hear of a write that fails.
pub fn tell_text<E: Write>(err: &mut Counted<E>, text: &str)
    ensures { Tells E.contents err.old err.new text.now }
{
    let _whole = send(err, text);
}

/// Tells a text of several lines that may hold what others wrote: each control character but a newline is escaped. Nobody is left to
/// hear of a write that fails.
pub fn tell_lines<E: Write>(err: &mut Counted<E>, text: &str)
    ensures { Tells E.contents err.old err.new (shown_lines text.now) }
{
    let _whole = send_as_shown(err, text, Showing::Lines);
}

/// Shows a path, its control characters escaped, and a text behind it, up to the first write that fails; it answers whether none
/// did.
pub fn show_path<O: Write>(out: &mut Counted<O>, path: &str, text: &str) -> bool
    ensures { Sends result O.contents out.old out.new (shown_path path.now ++ text.now) }
{
    send_as_shown(out, path, Showing::Line) && send(out, text)
}

/// Sends a line up to its subject.
fn send_head<E: Write>(err: &mut Counted<E>, line: &SubjectLine<'_>) -> bool
    ensures { Sends result E.contents err.old err.new (head_of line.now) }
{
    send(err, NAME) && send(err, line.head)
}

/// Sends a line from its subject on.
fn send_rest<E: Write>(err: &mut Counted<E>, line: &SubjectLine<'_>) -> bool
    ensures { Sends result E.contents err.old err.new (rest_of line.now) }
{
    send_subject(err, line.subject) && send_end(err, line)
}

/// Sends the end of a line.
fn send_end<E: Write>(err: &mut Counted<E>, line: &SubjectLine<'_>) -> bool
    ensures { Sends result E.contents err.old err.new (end_of line.now) }
{
    send(err, line.tail) && send(err, NEWLINE)
}

/// Sends the subject of a line, if it has one.
fn send_subject<E: Write>(err: &mut Counted<E>, subject: Subject<'_>) -> bool
    ensures { Sends result E.contents err.old err.new (subject_text subject.entry) }
{
    match subject {
        Subject::Nothing => true,
        Subject::Number(number) => send_number(err, number),
        Subject::Name(name) => send(err, name),
        Subject::Path(path) => send_as_shown(err, path, Showing::Line),
    }
}

/// Sends a text as it is shown: no control character of it reaches a terminal, but the newlines of a text of several lines.
fn send_as_shown<E: Write>(err: &mut Counted<E>, text: &str, showing: Showing) -> bool
    ensures { Sends result E.contents err.old err.new (spelled (shown_by showing) (chars text.now)) }
{
    for letter in text.chars() {
        if !send_by(err, showing, letter) {
            return false;
        }
    }
    true
}

/// Sends a character of a text as it is shown.
fn send_by<E: Write>(err: &mut Counted<E>, showing: Showing, letter: char) -> bool
    ensures { Sends result E.contents err.old err.new (shown_by showing letter) }
{
    match showing {
        Showing::Line => send_shown(err, letter),
        Showing::Lines => send_in_lines(err, letter),
    }
}

/// Sends a character of a text of several lines: a newline as it is, and any other as it is shown.
fn send_in_lines<E: Write>(err: &mut Counted<E>, letter: char) -> bool
    ensures { Sends result E.contents err.old err.new (shown_in_lines letter) }
{
    if letter == '\n' {
        send(err, NEWLINE)
    } else {
        send_shown(err, letter)
    }
}

/// Sends the escape of a character, up to the first write that fails; it answers whether none did.
fn send_escape<E: Write>(err: &mut Counted<E>, letter: char) -> bool
    ensures { Sends result E.contents err.old err.new (spelled encode_utf8 (escape_default letter)) }
{
    for part in letter.escape_default() {
        if !send_letter(err, part) {
            return false;
        }
    }
    true
}

/// Sends a character as it is shown: a control character by its escape.
fn send_shown<E: Write>(err: &mut Counted<E>, letter: char) -> bool
    ensures { Sends result E.contents err.old err.new (shown_letter letter) }
{
    if letter.is_control() {
        send_escape(err, letter)
    } else {
        send_letter(err, letter)
    }
}

/// Sends a character as it is, control character or not.
fn send_letter<E: Write>(err: &mut Counted<E>, letter: char) -> bool
    ensures { Sends result E.contents err.old err.new (encode_utf8 letter) }
{
    let mut room = [0; 4];
    send(err, letter.encode_utf8(&mut room))
}

/// Sends a number by its decimal digits.
fn send_number<E: Write>(err: &mut Counted<E>, number: u64) -> bool
    ensures { Sends result E.contents err.old err.new (decimal number) }
{
    let mut digits = Buffer::new();
    send(err, digits.format(number))
}

/// Sends a text up to the first write that fails or takes no byte; it answers whether none did.
fn send<E: Write>(err: &mut Counted<E>, text: &str) -> bool
    ensures { Sends result E.contents err.old err.new text.now }
{
    let mut rest = text.as_bytes();
    while !rest.is_empty() {
        match err.write(rest) {
            Ok(0) => return false,
            Ok(count) => rest = rest.split_at(count).1,
            Err(_) => return false,
        }
    }
    true
}
