//! Functions and tasks (A.2.6, A.2.7).

use expression_syntax::reader::Reader;
use expression_syntax::refusals::Refused;
use expression_syntax::texts::TokenSource;
use lexemes::token::{Keyword, Sign};
use statement_syntax::declarations::{
    next_direction, parse_block_item, parse_identifier, parse_port_declaration,
    parse_port_declarations, parse_value_type,
};
use statement_syntax::expected::{add, or_stop, parse_semicolon, refuse_next, take_word};
use statement_syntax::statements::read_statement;
use statement_syntax::words::{is_real, next_word, variable_kind};
use syntax_tree::declarations::{BlockItem, PortDeclaration, VariableKind};
use syntax_tree::modules::{FunctionDeclaration, FunctionResult, TaskDeclaration};

/// The arguments of a function or a task, and what it declares beside them.
#[derive(Drop)]
struct RoutineHead {
    arguments: Vec<PortDeclaration>,
    items: Vec<BlockItem>,
}

/// Reads the arguments in the head, where they stand there.
fn parse_head_arguments(source: &TokenSource<'_>, reader: &mut Reader) -> Vec<PortDeclaration> {
    if !reader.accept(source, Sign::Open) || reader.accept(source, Sign::Close) {
        return Vec::new(source.alloc);
    }
    or_stop(reader.open(), source, reader);
    parse_port_declarations(source, reader)
}

/// Reads one declaration, and adds it to the head. The answer is whether one came next.
fn parse_head_item(source: &TokenSource<'_>, reader: &mut Reader, head: &mut RoutineHead) -> bool {
    or_stop(reader.skip_attributes(source), source, reader);
    if next_direction(source, reader).is_some() {
        add(
            &mut head.arguments,
            parse_port_declaration(source, reader),
            source,
            reader,
        );
        parse_semicolon(source, reader);
        return true;
    }
    match parse_block_item(source, reader) {
        None => false,
        Some(item) => {
            add(&mut head.items, item, source, reader);
            true
        }
    }
}

/// Reads the arguments and the declarations of a function or a task, from behind its name up to its body.
fn parse_routine_head(source: &TokenSource<'_>, reader: &mut Reader) -> RoutineHead {
    let mut head = RoutineHead {
        arguments: parse_head_arguments(source, reader),
        items: Vec::new(source.alloc),
    };
    parse_semicolon(source, reader);
    for _item in 0..source.tokens.len() {
        if !parse_head_item(source, reader, &mut head) {
            break;
        }
    }
    head
}

/// Reads what a function returns. A real number is refused.
fn parse_result_kind(source: &TokenSource<'_>, reader: &mut Reader) -> VariableKind {
    let Some(word) = next_word(source, reader) else {
        return VariableKind::Register;
    };
    if is_real(word) {
        refuse_next(source, reader, Refused::Real);
        let _ = reader.take(source);
    }
    match variable_kind(word) {
        None => VariableKind::Register,
        Some(kind) => {
            let _ = reader.take(source);
            kind
        }
    }
}

/// Reads what a function returns, with its range.
fn parse_result(source: &TokenSource<'_>, reader: &mut Reader) -> FunctionResult {
    FunctionResult {
        kind: parse_result_kind(source, reader),
        value_type: parse_value_type(source, reader),
    }
}

/// Reads the word that ends a function or a task.
fn parse_end(source: &TokenSource<'_>, reader: &mut Reader, end: Keyword) {
    take_word(source, reader, end);
    reader.end_statement();
}

/// Reads a function.
pub fn parse_function(source: &TokenSource<'_>, reader: &mut Reader) -> FunctionDeclaration {
    let token = reader.take(source);
    let automatic = reader.accept_word(source, Keyword::Automatic);
    let result_type = parse_result(source, reader);
    let identifier = parse_identifier(source, reader);
    let head = parse_routine_head(source, reader);
    let body = read_statement(source, reader);
    parse_end(source, reader, Keyword::EndFunction);
    FunctionDeclaration {
        token,
        automatic,
        result: result_type,
        identifier,
        arguments: head.arguments,
        items: head.items,
        body,
    }
}

/// Reads a task.
pub fn parse_task(source: &TokenSource<'_>, reader: &mut Reader) -> TaskDeclaration {
    let token = reader.take(source);
    let automatic = reader.accept_word(source, Keyword::Automatic);
    let identifier = parse_identifier(source, reader);
    let head = parse_routine_head(source, reader);
    let body = read_statement(source, reader);
    parse_end(source, reader, Keyword::EndTask);
    TaskDeclaration {
        token,
        automatic,
        identifier,
        arguments: head.arguments,
        items: head.items,
        body,
    }
}
