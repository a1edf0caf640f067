//! Gates and instances of modules (A.3, A.4.1).

use expression_syntax::reader::Reader;
use expression_syntax::reading::read_primary;
use expression_syntax::refusals::Refused;
use expression_syntax::texts::TokenSource;
use lexemes::token::Sign;
use statement_syntax::declarations::{
    parse_identifier, parse_optional_range, refuse_delay, refuse_strength,
};
use statement_syntax::expected::{
    add, close_bracket, expression_or_stop, open_bracket, or_stop, parse_expression,
    parse_semicolon, refuse, refuse_next,
};
use syntax_tree::expressions::{Identifier, VerilogExpression};
use syntax_tree::modules::{
    Connection, GateInstance, GateInstantiation, GateKind, ModuleInstance, ModuleInstantiation,
};

/// Reads expressions with commas between them, in parentheses.
fn parse_terminals(source: &TokenSource<'_>, reader: &mut Reader) -> Vec<VerilogExpression> {
    let mut found = Vec::new(source.alloc);
    open_bracket(source, reader, Sign::Open);
    for _terminal in 0..source.tokens.len() {
        add(&mut found, parse_expression(source, reader), source, reader);
        if !reader.accept(source, Sign::Comma) {
            break;
        }
    }
    close_bracket(source, reader, Sign::Close);
    found
}

/// Reads a name, where one comes next.
fn parse_optional_identifier(source: &TokenSource<'_>, reader: &mut Reader) -> Option<Identifier> {
    if !reader.sees_name(source) {
        return None;
    }
    Some(parse_identifier(source, reader))
}

/// Reads a gate: its name and its range, where it has them, and its terminals.
fn parse_gate(source: &TokenSource<'_>, reader: &mut Reader) -> GateInstance {
    GateInstance {
        token: reader.place(),
        identifier: parse_optional_identifier(source, reader),
        range: parse_optional_range(source, reader),
        terminals: parse_terminals(source, reader),
    }
}

/// Reads gates of one kind, up to their `;`. Their strengths and delays are refused.
pub fn parse_gates(
    source: &TokenSource<'_>,
    reader: &mut Reader,
    kind: GateKind,
) -> GateInstantiation {
    let token = reader.take(source);
    refuse_strength(source, reader);
    refuse_delay(source, reader);
    let mut instances = Vec::new(source.alloc);
    for _gate in 0..source.tokens.len() {
        add(&mut instances, parse_gate(source, reader), source, reader);
        if !reader.accept(source, Sign::Comma) {
            break;
        }
    }
    parse_semicolon(source, reader);
    GateInstantiation {
        token,
        kind,
        instances,
    }
}

/// Whether a connection ends here, with nothing in it.
fn is_empty(source: &TokenSource<'_>, reader: &Reader) -> bool {
    reader.sees(source, Sign::Comma) || reader.sees(source, Sign::Close)
}

/// Reads what is connected, where something is.
fn parse_optional(source: &TokenSource<'_>, reader: &mut Reader) -> Option<VerilogExpression> {
    if is_empty(source, reader) {
        return None;
    }
    Some(parse_expression(source, reader))
}

/// Reads what is connected by a name, in parentheses. In SystemVerilog these may be missing, which is refused at a token.
fn parse_named_value(
    source: &TokenSource<'_>,
    reader: &mut Reader,
    token: usize,
) -> Option<VerilogExpression> {
    if is_empty(source, reader) {
        refuse(source, reader, token, Refused::SystemVerilog);
        return None;
    }
    open_bracket(source, reader, Sign::Open);
    let value = parse_optional(source, reader);
    close_bracket(source, reader, Sign::Close);
    value
}

/// Reads a connection, by name or by its place.
fn parse_connection(source: &TokenSource<'_>, reader: &mut Reader) -> Connection {
    or_stop(reader.skip_attributes(source), source, reader);
    let token = reader.place();
    if reader.accept(source, Sign::Dot) {
        return Connection {
            token,
            identifier: Some(parse_identifier(source, reader)),
            value: parse_named_value(source, reader, token),
        };
    }
    Connection {
        token,
        identifier: None,
        value: parse_optional(source, reader),
    }
}

/// Takes `.*` of SystemVerilog, which is refused; its `*` comes as the sign that ends an attribute, where a `)` follows. The
/// answer is whether it stood there, and closed the connections.
fn refuse_all_ports(source: &TokenSource<'_>, reader: &mut Reader) -> bool {
    if !reader.sees(source, Sign::Dot) || !reader.sees_ahead(source, 1, Sign::CloseAttribute) {
        return false;
    }
    refuse_next(source, reader, Refused::SystemVerilog);
    let _ = reader.take(source);
    let _ = reader.take(source);
    true
}

/// Reads connections with commas between them, behind `(`, up to what closes them.
fn parse_connection_list(source: &TokenSource<'_>, reader: &mut Reader) -> Vec<Connection> {
    let mut found = Vec::new(source.alloc);
    for _connection in 0..source.tokens.len() {
        if refuse_all_ports(source, reader) {
            reader.close();
            return found;
        }
        add(&mut found, parse_connection(source, reader), source, reader);
        reader.end_statement();
        if !reader.accept(source, Sign::Comma) {
            break;
        }
    }
    close_bracket(source, reader, Sign::Close);
    found
}

/// Reads connections in parentheses. There may be none.
fn parse_connections(source: &TokenSource<'_>, reader: &mut Reader) -> Vec<Connection> {
    open_bracket(source, reader, Sign::Open);
    if reader.accept(source, Sign::Close) {
        reader.close();
        return Vec::new(source.alloc);
    }
    parse_connection_list(source, reader)
}

/// Reads what stands for the parameters of a module, where something does (12.2.2). Without parentheses it is the delay of a
/// primitive of the user's.
fn parse_parameter_values(source: &TokenSource<'_>, reader: &mut Reader) -> Vec<Connection> {
    if !reader.accept(source, Sign::Hash) {
        return Vec::new(source.alloc);
    }
    if reader.sees(source, Sign::Open) {
        return parse_connections(source, reader);
    }
    refuse_next(source, reader, Refused::NetDelay);
    let _ = expression_or_stop(read_primary(source, reader), source, reader);
    Vec::new(source.alloc)
}

/// Reads an instance: its name, its range, and its connections.
fn parse_instance(source: &TokenSource<'_>, reader: &mut Reader) -> ModuleInstance {
    ModuleInstance {
        identifier: parse_identifier(source, reader),
        range: parse_optional_range(source, reader),
        connections: parse_connections(source, reader),
    }
}

/// Reads instances with commas between them, up to `;`. One without a name is of a primitive of the user's, which is refused.
fn parse_instance_list(source: &TokenSource<'_>, reader: &mut Reader) -> Vec<ModuleInstance> {
    let mut found = Vec::new(source.alloc);
    if reader.sees(source, Sign::Open) {
        refuse_next(source, reader, Refused::Primitive);
        reader.skip_past(source, Sign::Semicolon);
        reader.end_statement();
        return found;
    }
    for _instance in 0..source.tokens.len() {
        add(&mut found, parse_instance(source, reader), source, reader);
        if !reader.accept(source, Sign::Comma) {
            break;
        }
    }
    parse_semicolon(source, reader);
    found
}

/// Reads instances of one module, up to their `;`.
pub fn parse_instances(source: &TokenSource<'_>, reader: &mut Reader) -> ModuleInstantiation {
    ModuleInstantiation {
        token: reader.place(),
        module: parse_identifier(source, reader),
        parameters: parse_parameter_values(source, reader),
        instances: parse_instance_list(source, reader),
    }
}
