//! Modules (A.1.2, A.1.3).

use crate::items::parse_item;
use expression_syntax::faults::ExpectedToken;
use expression_syntax::reader::Reader;
use expression_syntax::reading::{ROOM, read_target};
use expression_syntax::texts::TokenSource;
use lexemes::token::{Keyword, Sign};
use statement_syntax::declarations::{
    next_direction, parse_identifier, parse_parameters, parse_port_declarations,
};
use statement_syntax::expected::{
    add, close_bracket, expression_or_stop, open_bracket, or_stop, parse_semicolon, stop_expecting,
};
use syntax_tree::declarations::ParameterDeclaration;
use syntax_tree::expressions::VerilogExpression;
use syntax_tree::modules::{ModuleDeclaration, ModuleItem, ModulePorts, Port};

/// Reads a declaration of parameters in a module's head. The word `parameter` has to come next.
fn parse_parameter_port(source: &TokenSource<'_>, reader: &mut Reader) -> ParameterDeclaration {
    if !reader.sees_word(source, Keyword::Parameter) {
        stop_expecting(source, reader, ExpectedToken::Keyword(Keyword::Parameter));
    }
    parse_parameters(source, reader, false)
}

/// Reads `#( parameters )`, where it comes next.
fn parse_parameter_ports(
    source: &TokenSource<'_>,
    reader: &mut Reader,
) -> Vec<ParameterDeclaration> {
    let mut found = Vec::new(source.alloc);
    if !reader.accept(source, Sign::Hash) {
        return found;
    }
    open_bracket(source, reader, Sign::Open);
    for _parameter in 0..source.tokens.len() {
        add(
            &mut found,
            parse_parameter_port(source, reader),
            source,
            reader,
        );
        if !reader.accept(source, Sign::Comma) {
            break;
        }
    }
    close_bracket(source, reader, Sign::Close);
    found
}

/// Reads what a port is inside its module, where it is connected to something.
fn parse_inside(source: &TokenSource<'_>, reader: &mut Reader) -> Option<VerilogExpression> {
    if reader.sees(source, Sign::Comma) || reader.sees(source, Sign::Close) {
        return None;
    }
    Some(expression_or_stop(read_target(source, reader), source, reader))
}

/// Reads `( what a port is inside )`.
fn parse_enclosed(source: &TokenSource<'_>, reader: &mut Reader) -> Option<VerilogExpression> {
    open_bracket(source, reader, Sign::Open);
    let inside = parse_inside(source, reader);
    close_bracket(source, reader, Sign::Close);
    inside
}

/// Reads a port of a list: what it is inside, or `.name ( what it is inside )`.
fn parse_port(source: &TokenSource<'_>, reader: &mut Reader) -> Port {
    or_stop(reader.skip_attributes(source), source, reader);
    let token = reader.place();
    if reader.accept(source, Sign::Dot) {
        return Port {
            token,
            identifier: Some(parse_identifier(source, reader)),
            inside: parse_enclosed(source, reader),
        };
    }
    Port {
        token,
        identifier: None,
        inside: parse_inside(source, reader),
    }
}

/// Reads ports with commas between them, up to `)`.
fn parse_port_list(source: &TokenSource<'_>, reader: &mut Reader) -> Vec<Port> {
    let mut found = Vec::new(source.alloc);
    for _port in 0..source.tokens.len() {
        add(&mut found, parse_port(source, reader), source, reader);
        if !reader.accept(source, Sign::Comma) {
            break;
        }
    }
    close_bracket(source, reader, Sign::Close);
    found
}

/// Reads the ports of a module's head, where it has some.
fn parse_ports(source: &TokenSource<'_>, reader: &mut Reader) -> ModulePorts {
    if !reader.accept(source, Sign::Open) || reader.accept(source, Sign::Close) {
        return ModulePorts::Listed(Vec::new(source.alloc));
    }
    or_stop(reader.open(), source, reader);
    or_stop(reader.skip_attributes(source), source, reader);
    if next_direction(source, reader).is_some() {
        return ModulePorts::Declared(parse_port_declarations(source, reader));
    }
    ModulePorts::Listed(parse_port_list(source, reader))
}

/// Takes a word that begins or ends a generate region. The answer is whether one stood there.
fn accept_region(source: &TokenSource<'_>, reader: &mut Reader, inside: bool) -> bool {
    if inside {
        reader.accept_word(source, Keyword::EndGenerate)
    } else {
        reader.accept_word(source, Keyword::Generate)
    }
}

/// Reads the items of a module, up to its end. The words of generate regions leave nothing (12.4).
fn parse_items(source: &TokenSource<'_>, reader: &mut Reader) -> Vec<ModuleItem> {
    let mut found = Vec::new(source.alloc);
    let mut inside = false;
    for _item in 0..source.tokens.len() {
        if reader.is_stopped() || (!inside && reader.accept_word(source, Keyword::EndModule)) {
            return found;
        }
        if accept_region(source, reader, inside) {
            inside = !inside;
        } else {
            parse_item(source, reader, ROOM, &mut found);
        }
    }
    stop_expecting(source, reader, ExpectedToken::Item);
    found
}

/// Reads a module, from its first word on.
pub fn parse_module(source: &TokenSource<'_>, reader: &mut Reader) -> ModuleDeclaration {
    let token = reader.take(source);
    let identifier = parse_identifier(source, reader);
    let parameters = parse_parameter_ports(source, reader);
    let ports = parse_ports(source, reader);
    parse_semicolon(source, reader);
    let items = parse_items(source, reader);
    reader.end_statement();
    ModuleDeclaration {
        token,
        identifier,
        parameters,
        ports,
        items,
    }
}
