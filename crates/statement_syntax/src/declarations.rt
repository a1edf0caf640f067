//! Declarations (A.2).

use crate::expected::{
    add, bytes_or_stop, close_bracket, expression_or_stop, open_bracket, or_stop, parse_expression,
    parse_semicolon, refuse, refuse_next, stop_expecting, take_sign,
};
use crate::words::{LaterWord, direction, is_real, later_word, net_kind, next_word, variable_kind};
use expression_syntax::faults::ExpectedToken;
use expression_syntax::reader::Reader;
use expression_syntax::reading::read_primary;
use expression_syntax::refusals::Refused;
use expression_syntax::texts::{TokenSource, name_copy};
use lexemes::token::{Keyword, Sign, TokenKind};
use syntax_tree::declarations::{
    BlockItem, Declarator, Direction, EventDeclaration, GenvarDeclaration, NetDeclaration, NetKind,
    ParameterAssignment, ParameterDeclaration, ParameterKind, PortDeclaration, PortKind, ValueType,
    VariableDeclaration, VariableKind, VerilogRange,
};
use syntax_tree::expressions::{Identifier, VerilogExpression};

/// Reads a name.
pub fn parse_identifier(source: &TokenSource<'_>, reader: &mut Reader) -> Identifier {
    if !reader.sees_name(source) {
        stop_expecting(source, reader, ExpectedToken::Name);
    }
    let token = reader.take(source);
    Identifier {
        token,
        name: bytes_or_stop(name_copy(source, token), source, reader),
    }
}

/// Reads an expression or min:typ:max, and keeps the middle one.
fn parse_typical(source: &TokenSource<'_>, reader: &mut Reader) -> VerilogExpression {
    let first = parse_expression(source, reader);
    if !reader.accept(source, Sign::Colon) {
        return first;
    }
    let typical = parse_expression(source, reader);
    take_sign(source, reader, Sign::Colon);
    let _ = parse_expression(source, reader);
    typical
}

/// Reads `[ most : least ]`.
pub fn parse_range(source: &TokenSource<'_>, reader: &mut Reader) -> VerilogRange {
    let token = reader.place();
    open_bracket(source, reader, Sign::OpenSquare);
    let most = parse_expression(source, reader);
    take_sign(source, reader, Sign::Colon);
    let least = parse_expression(source, reader);
    close_bracket(source, reader, Sign::CloseSquare);
    VerilogRange { token, most, least }
}

/// Reads a range where one comes next.
pub fn parse_optional_range(source: &TokenSource<'_>, reader: &mut Reader) -> Option<VerilogRange> {
    if !reader.sees(source, Sign::OpenSquare) {
        return None;
    }
    Some(parse_range(source, reader))
}

/// Reads the ranges that come next.
fn parse_dimensions(source: &TokenSource<'_>, reader: &mut Reader) -> Vec<VerilogRange> {
    let mut found = Vec::new(source.alloc);
    for _range in 0..source.tokens.len() {
        if !reader.sees(source, Sign::OpenSquare) {
            break;
        }
        add(&mut found, parse_range(source, reader), source, reader);
    }
    found
}

/// Reads `signed` and a range, where they come next.
pub fn parse_value_type(source: &TokenSource<'_>, reader: &mut Reader) -> ValueType {
    ValueType {
        signed: reader.accept_word(source, Keyword::Signed),
        range: parse_optional_range(source, reader),
    }
}

/// Reads `= value` where it comes next.
fn parse_optional_value(
    source: &TokenSource<'_>,
    reader: &mut Reader,
) -> Option<VerilogExpression> {
    if !reader.accept(source, Sign::Assign) {
        return None;
    }
    Some(parse_expression(source, reader))
}

/// Reads a name that is declared, the ranges of its array, and its value.
fn parse_declarator(source: &TokenSource<'_>, reader: &mut Reader) -> Declarator {
    Declarator {
        identifier: parse_identifier(source, reader),
        dimensions: parse_dimensions(source, reader),
        value: parse_optional_value(source, reader),
    }
}

/// Whether a comma and another name come next.
fn goes_on(source: &TokenSource<'_>, reader: &Reader) -> bool {
    if !reader.sees(source, Sign::Comma) {
        return false;
    }
    match reader.kind_ahead(source, 1) {
        Some(TokenKind::Name) | Some(TokenKind::EscapedName) => true,
        _ => false,
    }
}

/// Reads names that are declared, with commas between them.
fn parse_declarators(source: &TokenSource<'_>, reader: &mut Reader) -> Vec<Declarator> {
    let mut found = Vec::new(source.alloc);
    add(&mut found, parse_declarator(source, reader), source, reader);
    for _name in 0..source.tokens.len() {
        if !goes_on(source, reader) {
            break;
        }
        let _ = reader.take(source);
        add(&mut found, parse_declarator(source, reader), source, reader);
    }
    found
}

/// Goes behind a delay of three values at most, which is refused.
pub fn refuse_delay(source: &TokenSource<'_>, reader: &mut Reader) {
    if !reader.sees(source, Sign::Hash) {
        return;
    }
    let token = reader.take(source);
    refuse(source, reader, token, Refused::NetDelay);
    if reader.sees(source, Sign::Open) {
        reader.skip_group(source);
        return;
    }
    let _ = expression_or_stop(read_primary(source, reader), source, reader);
}

/// Whether a word tells a strength (7.9).
fn is_strength(word: Keyword) -> bool {
    match word {
        Keyword::Supply0 | Keyword::Supply1 | Keyword::Strong0 | Keyword::Strong1 => true,
        Keyword::Pull0 | Keyword::Pull1 | Keyword::Weak0 | Keyword::Weak1 => true,
        Keyword::HighZ0 | Keyword::HighZ1 => true,
        Keyword::Small | Keyword::Medium | Keyword::Large => true,
        _ => false,
    }
}

/// Goes behind strengths in parentheses, which are refused.
pub fn refuse_strength(source: &TokenSource<'_>, reader: &mut Reader) {
    if !reader.sees(source, Sign::Open) {
        return;
    }
    match reader.kind_ahead(source, 1) {
        Some(TokenKind::Keyword(word)) if is_strength(word) => {
            refuse_next(source, reader, Refused::Strength);
            reader.skip_group(source);
        }
        _ => {}
    }
}

/// Goes behind `vectored` or `scalared`, which change no value (4.3.2).
fn skip_expansion(source: &TokenSource<'_>, reader: &mut Reader) {
    if !reader.accept_word(source, Keyword::Vectored) {
        let _ = reader.accept_word(source, Keyword::Scalared);
    }
}

/// Reads a declaration of nets, up to its `;`.
pub fn parse_net(source: &TokenSource<'_>, reader: &mut Reader, kind: NetKind) -> NetDeclaration {
    let token = reader.take(source);
    refuse_strength(source, reader);
    skip_expansion(source, reader);
    let value_type = parse_value_type(source, reader);
    refuse_delay(source, reader);
    let declarators = parse_declarators(source, reader);
    parse_semicolon(source, reader);
    NetDeclaration {
        token,
        kind,
        value_type,
        declarators,
    }
}

/// Reads a declaration of variables, up to its `;`.
pub fn parse_variable(
    source: &TokenSource<'_>,
    reader: &mut Reader,
    kind: VariableKind,
) -> VariableDeclaration {
    let token = reader.take(source);
    let value_type = parse_value_type(source, reader);
    let declarators = parse_declarators(source, reader);
    parse_semicolon(source, reader);
    VariableDeclaration {
        token,
        kind,
        value_type,
        declarators,
    }
}

/// Reads a declaration of named events, up to its `;`.
pub fn parse_event(source: &TokenSource<'_>, reader: &mut Reader) -> EventDeclaration {
    let token = reader.take(source);
    let declarators = parse_declarators(source, reader);
    parse_semicolon(source, reader);
    EventDeclaration { token, declarators }
}

/// Reads names with commas between them.
fn parse_identifiers(source: &TokenSource<'_>, reader: &mut Reader) -> Vec<Identifier> {
    let mut found = Vec::new(source.alloc);
    for _name in 0..source.tokens.len() {
        add(&mut found, parse_identifier(source, reader), source, reader);
        if !reader.accept(source, Sign::Comma) {
            break;
        }
    }
    found
}

/// Reads a declaration of the variables of generate loops, up to its `;`.
pub fn parse_genvar(source: &TokenSource<'_>, reader: &mut Reader) -> GenvarDeclaration {
    let token = reader.take(source);
    let identifiers = parse_identifiers(source, reader);
    parse_semicolon(source, reader);
    GenvarDeclaration { token, identifiers }
}

/// Reads what a parameter is declared to be. A real one is refused.
fn parse_parameter_kind(source: &TokenSource<'_>, reader: &mut Reader) -> ParameterKind {
    if reader.accept_word(source, Keyword::Integer) {
        return ParameterKind::Integer;
    }
    if reader.accept_word(source, Keyword::Time) {
        return ParameterKind::Time;
    }
    if reader.sees_word(source, Keyword::Real) || reader.sees_word(source, Keyword::RealTime) {
        let token = reader.take(source);
        refuse(source, reader, token, Refused::Real);
    }
    ParameterKind::Unstated
}

/// Reads `name = value`.
fn parse_parameter_assignment(
    source: &TokenSource<'_>,
    reader: &mut Reader,
) -> ParameterAssignment {
    let identifier = parse_identifier(source, reader);
    take_sign(source, reader, Sign::Assign);
    ParameterAssignment {
        identifier,
        value: parse_typical(source, reader),
    }
}

/// Reads parameters with commas between them.
fn parse_parameter_assignments(
    source: &TokenSource<'_>,
    reader: &mut Reader,
) -> Vec<ParameterAssignment> {
    let mut found = Vec::new(source.alloc);
    add(
        &mut found,
        parse_parameter_assignment(source, reader),
        source,
        reader,
    );
    for _name in 0..source.tokens.len() {
        if !goes_on(source, reader) {
            break;
        }
        let _ = reader.take(source);
        add(
            &mut found,
            parse_parameter_assignment(source, reader),
            source,
            reader,
        );
    }
    found
}

/// Reads a declaration of parameters, without what ends it.
pub fn parse_parameters(
    source: &TokenSource<'_>,
    reader: &mut Reader,
    local: bool,
) -> ParameterDeclaration {
    ParameterDeclaration {
        token: reader.take(source),
        local,
        kind: parse_parameter_kind(source, reader),
        value_type: parse_value_type(source, reader),
        assignments: parse_parameter_assignments(source, reader),
    }
}

/// Reads the type that a port's declaration names, where it names one. That of SystemVerilog is refused.
fn parse_port_kind(source: &TokenSource<'_>, reader: &mut Reader) -> PortKind {
    let Some(word) = next_word(source, reader) else {
        refuse_local_type(source, reader);
        return PortKind::Unstated;
    };
    if let Some(kind) = net_kind(word) {
        let _ = reader.take(source);
        return PortKind::Net(kind);
    }
    if let Some(kind) = variable_kind(word) {
        let _ = reader.take(source);
        return PortKind::Variable(kind);
    }
    if is_real(word) {
        let token = reader.take(source);
        refuse(source, reader, token, Refused::Real);
    }
    PortKind::Unstated
}

/// Goes behind a type of SystemVerilog, where one comes next, which is refused.
pub fn refuse_local_type(source: &TokenSource<'_>, reader: &mut Reader) {
    if let LaterWord::Type = later_word(source, reader) {
        let token = reader.take(source);
        refuse(source, reader, token, Refused::SystemVerilog);
    }
}

/// The direction of ports whose declaration comes next, if one does.
pub fn next_direction(source: &TokenSource<'_>, reader: &Reader) -> Option<Direction> {
    direction(next_word(source, reader)?)
}

/// Takes the direction of ports, which has to come next.
fn take_direction(source: &TokenSource<'_>, reader: &mut Reader) -> Direction {
    match next_direction(source, reader) {
        None => {
            stop_expecting(source, reader, ExpectedToken::Port);
            Direction::Input
        }
        Some(found) => {
            let _ = reader.take(source);
            found
        }
    }
}

/// Reads a declaration of ports, without what ends it.
pub fn parse_port_declaration(source: &TokenSource<'_>, reader: &mut Reader) -> PortDeclaration {
    PortDeclaration {
        token: reader.place(),
        direction: take_direction(source, reader),
        kind: parse_port_kind(source, reader),
        value_type: parse_value_type(source, reader),
        declarators: parse_declarators(source, reader),
    }
}

/// Reads declarations of ports with commas between them, up to `)`.
pub fn parse_port_declarations(
    source: &TokenSource<'_>,
    reader: &mut Reader,
) -> Vec<PortDeclaration> {
    let mut found = Vec::new(source.alloc);
    for _port in 0..source.tokens.len() {
        or_stop(reader.skip_attributes(source), source, reader);
        add(
            &mut found,
            parse_port_declaration(source, reader),
            source,
            reader,
        );
        if !reader.accept(source, Sign::Comma) {
            break;
        }
    }
    close_bracket(source, reader, Sign::Close);
    found
}

/// What a declaration in a block is, by its first word (A.2.8).
#[derive(Clone, Copy)]
enum BlockItemForm {
    Nothing,
    Variable(VariableKind),
    Real,
    Event,
    Parameter,
    LocalParameter,
}

fn block_item_form(word: Keyword) -> BlockItemForm {
    if let Some(kind) = variable_kind(word) {
        return BlockItemForm::Variable(kind);
    }
    match word {
        Keyword::Real | Keyword::RealTime => BlockItemForm::Real,
        Keyword::Event => BlockItemForm::Event,
        Keyword::Parameter => BlockItemForm::Parameter,
        Keyword::LocalParam => BlockItemForm::LocalParameter,
        _ => BlockItemForm::Nothing,
    }
}

/// Reads a declaration of real variables, which is refused, as one of others.
pub fn refuse_real(source: &TokenSource<'_>, reader: &mut Reader) -> VariableDeclaration {
    refuse_next(source, reader, Refused::Real);
    parse_variable(source, reader, VariableKind::Time)
}

/// Reads a declaration of a type of SystemVerilog, which is refused, as one of registers.
pub fn refuse_type(source: &TokenSource<'_>, reader: &mut Reader) -> VariableDeclaration {
    refuse_next(source, reader, Refused::SystemVerilog);
    parse_variable(source, reader, VariableKind::Register)
}

/// Reads a declaration of parameters, up to its `;`.
pub fn parse_parameter_item(
    source: &TokenSource<'_>,
    reader: &mut Reader,
    local: bool,
) -> ParameterDeclaration {
    let found = parse_parameters(source, reader, local);
    parse_semicolon(source, reader);
    found
}

/// Reads a declaration in a block by the name that comes next: one of SystemVerilog, or none.
fn parse_later_item(source: &TokenSource<'_>, reader: &mut Reader) -> Option<BlockItem> {
    match later_word(source, reader) {
        LaterWord::Type => Some(BlockItem::Variable(refuse_type(source, reader))),
        _ => None,
    }
}

/// Reads a declaration in a block, where one comes next.
pub fn parse_block_item(source: &TokenSource<'_>, reader: &mut Reader) -> Option<BlockItem> {
    or_stop(reader.skip_attributes(source), source, reader);
    let Some(word) = next_word(source, reader) else {
        return parse_later_item(source, reader);
    };
    match block_item_form(word) {
        BlockItemForm::Nothing => None,
        BlockItemForm::Variable(kind) => Some(BlockItem::Variable(parse_variable(
            source, reader, kind,
        ))),
        BlockItemForm::Real => Some(BlockItem::Variable(refuse_real(source, reader))),
        BlockItemForm::Event => Some(BlockItem::Event(parse_event(source, reader))),
        BlockItemForm::Parameter => Some(BlockItem::Parameter(parse_parameter_item(
            source, reader, false,
        ))),
        BlockItemForm::LocalParameter => Some(BlockItem::Parameter(parse_parameter_item(
            source, reader, true,
        ))),
    }
}

/// Reads the declarations in a block that come next.
pub fn parse_block_items(source: &TokenSource<'_>, reader: &mut Reader) -> Vec<BlockItem> {
    let mut found = Vec::new(source.alloc);
    for _item in 0..source.tokens.len() {
        let Some(item) = parse_block_item(source, reader) else {
            break;
        };
        add(&mut found, item, source, reader);
    }
    found
}
