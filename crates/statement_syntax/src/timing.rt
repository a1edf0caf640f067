//! Delays and events (A.6.5).

use crate::expected::{
    add, boxed, close_bracket, expression_or_stop, open_bracket, or_stop, parse_expression,
    parse_parenthesized, take_sign, take_word,
};
use expression_syntax::reader::Reader;
use expression_syntax::reading::{read_path, read_primary};
use expression_syntax::texts::TokenSource;
use lexemes::token::{Keyword, Sign};
use syntax_tree::expressions::VerilogExpression;
use syntax_tree::statements::{AssignmentTiming, EventControl, VerilogChange, VerilogEvent};

/// Reads `#` and a delay: an expression in parentheses, a name or a number (9.7.1).
pub fn parse_delay(source: &TokenSource<'_>, reader: &mut Reader) -> VerilogExpression {
    take_sign(source, reader, Sign::Hash);
    or_stop(reader.count_operator(), source, reader);
    if reader.sees(source, Sign::Open) {
        return parse_parenthesized(source, reader);
    }
    if reader.sees_name(source) {
        return expression_or_stop(read_path(source, reader), source, reader);
    }
    expression_or_stop(read_primary(source, reader), source, reader)
}

/// Reads the word for an edge, where one comes next.
fn parse_change(source: &TokenSource<'_>, reader: &mut Reader) -> VerilogChange {
    if reader.accept_word(source, Keyword::Posedge) {
        return VerilogChange::Posedge;
    }
    if reader.accept_word(source, Keyword::Negedge) {
        return VerilogChange::Negedge;
    }
    VerilogChange::Any
}

/// Reads an event: an expression, or an edge of one.
fn parse_event_expression(source: &TokenSource<'_>, reader: &mut Reader) -> VerilogEvent {
    VerilogEvent {
        token: reader.place(),
        change: parse_change(source, reader),
        expression: parse_expression(source, reader),
    }
}

/// Takes what stands between two events. The answer is whether it does.
fn accept_separator(source: &TokenSource<'_>, reader: &mut Reader) -> bool {
    reader.accept(source, Sign::Comma) || reader.accept_word(source, Keyword::Or)
}

/// Reads events with `or` or commas between them.
fn parse_events(source: &TokenSource<'_>, reader: &mut Reader) -> EventControl {
    let mut found = Vec::new(source.alloc);
    for _event in 0..source.tokens.len() {
        add(
            &mut found,
            parse_event_expression(source, reader),
            source,
            reader,
        );
        if !accept_separator(source, reader) {
            break;
        }
    }
    EventControl::Events(found)
}

/// Reads a named event, or a variable, without parentheses.
fn parse_named_event(source: &TokenSource<'_>, reader: &mut Reader) -> EventControl {
    let mut found = Vec::new(source.alloc);
    let event = VerilogEvent {
        token: reader.place(),
        change: VerilogChange::Any,
        expression: expression_or_stop(read_path(source, reader), source, reader),
    };
    add(&mut found, event, source, reader);
    EventControl::Events(found)
}

/// Takes `*` behind `@`, or `(*)`, which comes as the sign that begins an attribute, and a `)`.
fn accept_star(source: &TokenSource<'_>, reader: &mut Reader) -> bool {
    if reader.accept(source, Sign::Star) {
        return true;
    }
    if !reader.accept(source, Sign::OpenAttribute) {
        return false;
    }
    take_sign(source, reader, Sign::Close);
    true
}

/// Takes `*)` behind `(`: it comes as the sign that ends an attribute, or as two.
fn accept_closed_star(source: &TokenSource<'_>, reader: &mut Reader) -> bool {
    if reader.accept(source, Sign::CloseAttribute) {
        return true;
    }
    if !reader.accept(source, Sign::Star) {
        return false;
    }
    take_sign(source, reader, Sign::Close);
    true
}

/// Reads an event control (9.7.2).
pub fn parse_event_control(source: &TokenSource<'_>, reader: &mut Reader) -> EventControl {
    take_sign(source, reader, Sign::At);
    or_stop(reader.count_operator(), source, reader);
    if accept_star(source, reader) {
        return EventControl::Implicit;
    }
    if !reader.sees(source, Sign::Open) {
        return parse_named_event(source, reader);
    }
    open_bracket(source, reader, Sign::Open);
    if accept_closed_star(source, reader) {
        reader.close();
        return EventControl::Implicit;
    }
    let found = parse_events(source, reader);
    close_bracket(source, reader, Sign::Close);
    found
}

/// Reads `repeat ( count )` and an event control.
fn parse_repeated_event(source: &TokenSource<'_>, reader: &mut Reader) -> AssignmentTiming {
    take_word(source, reader, Keyword::Repeat);
    let count = parse_parenthesized(source, reader);
    AssignmentTiming::Repeat(count, parse_event_control(source, reader))
}

/// Reads what stands between the sign of an assignment and its value (9.7.7).
fn parse_timing(source: &TokenSource<'_>, reader: &mut Reader) -> AssignmentTiming {
    if reader.sees(source, Sign::Hash) {
        return AssignmentTiming::Delay(parse_delay(source, reader));
    }
    if reader.sees_word(source, Keyword::Repeat) {
        return parse_repeated_event(source, reader);
    }
    AssignmentTiming::Event(parse_event_control(source, reader))
}

/// Whether an event comes next, and no delay.
pub fn sees_event(source: &TokenSource<'_>, reader: &Reader) -> bool {
    reader.sees(source, Sign::At) || reader.sees_word(source, Keyword::Repeat)
}

/// Reads what stands between the sign of an assignment and its value, where something does.
pub fn parse_optional_timing(
    source: &TokenSource<'_>,
    reader: &mut Reader,
) -> Option<Box<AssignmentTiming>> {
    if !reader.sees(source, Sign::Hash) && !sees_event(source, reader) {
        return None;
    }
    boxed(parse_timing(source, reader), source, reader)
}
