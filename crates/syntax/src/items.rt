//! The items of a module, and generate constructs (A.1.4, A.4.2).

use crate::instances::{parse_gates, parse_instances};
use crate::routines::{parse_function, parse_task};
use expression_syntax::faults::{ExpectedToken, SyntaxStop};
use expression_syntax::reader::Reader;
use expression_syntax::refusals::Refused;
use expression_syntax::texts::TokenSource;
use lexemes::token::{Keyword, Sign};
use statement_syntax::declarations::{
    parse_event, parse_genvar, parse_identifier, parse_net, parse_parameter_item,
    parse_port_declaration, parse_variable, refuse_delay, refuse_real, refuse_strength,
    refuse_type,
};
use statement_syntax::expected::{
    add, close_bracket, open_bracket, or_stop, parse_expression, parse_parenthesized,
    parse_semicolon, refuse_next, stop_expecting, take_sign, take_word,
};
use statement_syntax::statements::{
    accept_else_if, parse_labels, parse_variable_assignment, read_statement,
};
use statement_syntax::words::{
    LaterWord, direction, gate_kind, is_real, is_switch, later_word, net_kind, next_word,
    variable_kind,
};
use syntax_tree::declarations::{NetKind, PortDeclaration, VariableKind};
use syntax_tree::expressions::{Identifier, VerilogExpression};
use syntax_tree::modules::{
    GateKind, GenerateBlock, GenerateBranch, GenerateCase, GenerateCaseItem, GenerateIf,
    GenerateLoop, ModuleItem, ProcessConstruct,
};
use syntax_tree::statements::VariableAssignment;

/// What an item is, by its first word.
#[derive(Clone, Copy)]
enum ItemForm {
    Nothing,
    Port,
    Net(NetKind),
    Variable(VariableKind),
    Real,
    Gate(GateKind),
    ChargeStorage,
    Switch,
    Pull,
    SpecifyParameter,
    Specify,
    Event,
    Genvar,
    Parameter,
    LocalParameter,
    ParameterOverride,
    ContinuousAssignment,
    Initial,
    Always,
    Function,
    Task,
    GenerateLoop,
    GenerateIf,
    GenerateCase,
    GenerateBlock,
}

/// What an item is that no declaration and no gate begins.
fn other_form(word: Keyword) -> ItemForm {
    match word {
        Keyword::Event => ItemForm::Event,
        Keyword::GenVar => ItemForm::Genvar,
        Keyword::Parameter => ItemForm::Parameter,
        Keyword::LocalParam => ItemForm::LocalParameter,
        Keyword::DefParam => ItemForm::ParameterOverride,
        Keyword::Assign => ItemForm::ContinuousAssignment,
        Keyword::Initial => ItemForm::Initial,
        Keyword::Always => ItemForm::Always,
        Keyword::Function => ItemForm::Function,
        Keyword::Task => ItemForm::Task,
        Keyword::For => ItemForm::GenerateLoop,
        Keyword::If => ItemForm::GenerateIf,
        Keyword::Case => ItemForm::GenerateCase,
        Keyword::Begin => ItemForm::GenerateBlock,
        Keyword::SpecParam => ItemForm::SpecifyParameter,
        Keyword::Specify => ItemForm::Specify,
        Keyword::TriReg => ItemForm::ChargeStorage,
        Keyword::PullUp | Keyword::PullDown => ItemForm::Pull,
        _ => ItemForm::Nothing,
    }
}

/// What an item is, by its first word.
fn item_form(word: Keyword) -> ItemForm {
    if direction(word).is_some() {
        return ItemForm::Port;
    }
    if let Some(kind) = net_kind(word) {
        return ItemForm::Net(kind);
    }
    if let Some(kind) = variable_kind(word) {
        return ItemForm::Variable(kind);
    }
    if let Some(kind) = gate_kind(word) {
        return ItemForm::Gate(kind);
    }
    if is_real(word) {
        return ItemForm::Real;
    }
    if is_switch(word) {
        return ItemForm::Switch;
    }
    other_form(word)
}

/// Reads a declaration of ports, up to its `;`.
fn parse_port_item(source: &TokenSource<'_>, reader: &mut Reader) -> PortDeclaration {
    let found = parse_port_declaration(source, reader);
    parse_semicolon(source, reader);
    found
}

/// Reads assignments with commas between them, up to `;`.
fn parse_assignments(source: &TokenSource<'_>, reader: &mut Reader) -> Vec<VariableAssignment> {
    let mut found = Vec::new(source.alloc);
    for _assignment in 0..source.tokens.len() {
        add(
            &mut found,
            parse_variable_assignment(source, reader),
            source,
            reader,
        );
        if !reader.accept(source, Sign::Comma) {
            break;
        }
    }
    parse_semicolon(source, reader);
    found
}

/// Reads a continuous assignment. Its strengths and its delay are refused.
fn parse_continuous(source: &TokenSource<'_>, reader: &mut Reader) -> Vec<VariableAssignment> {
    let _ = reader.take(source);
    refuse_strength(source, reader);
    refuse_delay(source, reader);
    parse_assignments(source, reader)
}

/// Reads `defparam` and its assignments.
fn parse_overrides(source: &TokenSource<'_>, reader: &mut Reader) -> Vec<VariableAssignment> {
    let _ = reader.take(source);
    parse_assignments(source, reader)
}

/// Reads an `initial` or an `always` construct.
fn parse_process(source: &TokenSource<'_>, reader: &mut Reader, repeats: bool) -> ProcessConstruct {
    let token = reader.take(source);
    reader.end_statement();
    let body = read_statement(source, reader);
    reader.end_statement();
    ProcessConstruct {
        token,
        repeats,
        body,
    }
}

/// Goes behind an item that is refused, up to its `;`.
fn refuse_item(source: &TokenSource<'_>, reader: &mut Reader, construct: Refused) {
    refuse_next(source, reader, construct);
    reader.skip_past(source, Sign::Semicolon);
    reader.end_statement();
}

/// Goes behind an item that leaves nothing: one that is refused, or what `specify` says of paths, which is ignored. Where no
/// item comes next reading stops.
fn skip_item(source: &TokenSource<'_>, reader: &mut Reader, form: ItemForm) {
    match form {
        ItemForm::ChargeStorage => refuse_item(source, reader, Refused::ChargeStorage),
        ItemForm::Switch => refuse_item(source, reader, Refused::Switch),
        ItemForm::Pull => refuse_item(source, reader, Refused::Pull),
        ItemForm::SpecifyParameter => reader.skip_past(source, Sign::Semicolon),
        ItemForm::Specify => reader.skip_past_word(source, Keyword::EndSpecify),
        _ => stop_expecting(source, reader, ExpectedToken::Item),
    }
}

/// Reads a declaration, if an item is one.
fn parse_declaration(
    source: &TokenSource<'_>,
    reader: &mut Reader,
    form: ItemForm,
) -> Option<ModuleItem> {
    Some(match form {
        ItemForm::Port => ModuleItem::Port(parse_port_item(source, reader)),
        ItemForm::Net(kind) => ModuleItem::Net(parse_net(source, reader, kind)),
        ItemForm::Variable(kind) => ModuleItem::Variable(parse_variable(source, reader, kind)),
        ItemForm::Real => ModuleItem::Variable(refuse_real(source, reader)),
        ItemForm::Event => ModuleItem::Event(parse_event(source, reader)),
        ItemForm::Genvar => ModuleItem::Genvar(parse_genvar(source, reader)),
        ItemForm::Parameter => ModuleItem::Parameter(parse_parameter_item(source, reader, false)),
        ItemForm::LocalParameter => ModuleItem::Parameter(parse_parameter_item(
            source, reader, true,
        )),
        _ => return None,
    })
}

/// Reads an item that is no declaration and holds no other, if it leaves something.
fn parse_behaviour(
    source: &TokenSource<'_>,
    reader: &mut Reader,
    form: ItemForm,
) -> Option<ModuleItem> {
    Some(match form {
        ItemForm::ParameterOverride => ModuleItem::ParameterOverride(parse_overrides(
            source, reader,
        )),
        ItemForm::ContinuousAssignment => ModuleItem::ContinuousAssignment(parse_continuous(
            source, reader,
        )),
        ItemForm::Gate(kind) => ModuleItem::Gate(parse_gates(source, reader, kind)),
        ItemForm::Initial => ModuleItem::Process(parse_process(source, reader, false)),
        ItemForm::Always => ModuleItem::Process(parse_process(source, reader, true)),
        ItemForm::Function => ModuleItem::Function(parse_function(source, reader)),
        ItemForm::Task => ModuleItem::Task(parse_task(source, reader)),
        _ => return None,
    })
}

/// Reads an item that holds no other, if it leaves something.
#[inline(never)]
fn parse_simple(
    source: &TokenSource<'_>,
    reader: &mut Reader,
    form: ItemForm,
) -> Option<ModuleItem> {
    match form {
        ItemForm::Port | ItemForm::Net(_) | ItemForm::Variable(_) | ItemForm::Real =>
            parse_declaration(source, reader, form),
        ItemForm::Event | ItemForm::Genvar | ItemForm::Parameter | ItemForm::LocalParameter =>
            parse_declaration(source, reader, form),
        _ => parse_behaviour(source, reader, form),
    }
}

/// Reads an item that begins with a name, by what it would begin in SystemVerilog, if it leaves something.
#[inline(never)]
fn parse_named(
    source: &TokenSource<'_>,
    reader: &mut Reader,
    word: LaterWord,
) -> Option<ModuleItem> {
    match word {
        LaterWord::Nothing => Some(ModuleItem::Instance(parse_instances(source, reader))),
        LaterWord::Type => Some(ModuleItem::Variable(refuse_type(source, reader))),
        LaterWord::Always => {
            refuse_next(source, reader, Refused::SystemVerilog);
            Some(ModuleItem::Process(parse_process(source, reader, true)))
        }
        LaterWord::Other => None,
    }
}

/// The head of a generate loop.
#[derive(Drop)]
struct LoopHead {
    start: VariableAssignment,
    condition: VerilogExpression,
    step: VariableAssignment,
}

/// Takes `genvar` of SystemVerilog, where it comes next, which is refused.
fn refuse_local_genvar(source: &TokenSource<'_>, reader: &mut Reader) {
    if reader.sees_word(source, Keyword::GenVar) {
        refuse_next(source, reader, Refused::SystemVerilog);
        let _ = reader.take(source);
    }
}

/// Reads `for ( start ; condition ; step )`.
#[inline(never)]
fn parse_loop_head(source: &TokenSource<'_>, reader: &mut Reader) -> LoopHead {
    take_word(source, reader, Keyword::For);
    open_bracket(source, reader, Sign::Open);
    refuse_local_genvar(source, reader);
    let start = parse_variable_assignment(source, reader);
    take_sign(source, reader, Sign::Semicolon);
    let condition = parse_expression(source, reader);
    take_sign(source, reader, Sign::Semicolon);
    let step = parse_variable_assignment(source, reader);
    close_bracket(source, reader, Sign::Close);
    LoopHead {
        start,
        condition,
        step,
    }
}

/// Reads the name of a block, where it has one.
#[inline(never)]
fn parse_block_name(source: &TokenSource<'_>, reader: &mut Reader) -> Option<Identifier> {
    if !reader.accept(source, Sign::Colon) {
        return None;
    }
    Some(parse_identifier(source, reader))
}

/// Adds a loop. Its parts are large, and are to lie in no frame of those that call themselves.
#[inline(never)]
fn push_loop(
    source: &TokenSource<'_>,
    reader: &mut Reader,
    items: &mut Vec<ModuleItem>,
    token: usize,
    head: LoopHead,
    body: GenerateBlock,
) {
    let item = ModuleItem::GenerateLoop(GenerateLoop {
        token,
        start: head.start,
        condition: head.condition,
        step: head.step,
        body,
    });
    add(items, item, source, reader);
}

/// Adds an item. It is large, and is to lie in no frame of those that call themselves.
#[inline(never)]
fn push_if(
    source: &TokenSource<'_>,
    reader: &mut Reader,
    items: &mut Vec<ModuleItem>,
    found: GenerateIf,
) {
    add(items, ModuleItem::GenerateIf(found), source, reader);
}

/// Adds a case generate construct.
#[inline(never)]
fn push_case(
    source: &TokenSource<'_>,
    reader: &mut Reader,
    items: &mut Vec<ModuleItem>,
    found: GenerateCase,
) {
    add(items, ModuleItem::GenerateCase(found), source, reader);
}

/// Adds a block of a generate region.
#[inline(never)]
fn push_block(
    source: &TokenSource<'_>,
    reader: &mut Reader,
    items: &mut Vec<ModuleItem>,
    block: GenerateBlock,
) {
    add(items, ModuleItem::GenerateBlock(block), source, reader);
}

/// Reads an item that holds no other, and adds it, unless it is refused or ignored.
#[inline(never)]
fn push_simple(
    source: &TokenSource<'_>,
    reader: &mut Reader,
    form: ItemForm,
    items: &mut Vec<ModuleItem>,
) {
    match parse_simple(source, reader, form) {
        None => skip_item(source, reader, form),
        Some(item) => add(items, item, source, reader),
    }
}

/// Reads an item that begins with a name, and adds it, unless it is refused.
#[inline(never)]
fn push_named(source: &TokenSource<'_>, reader: &mut Reader, items: &mut Vec<ModuleItem>) {
    if !reader.sees_name(source) {
        stop_expecting(source, reader, ExpectedToken::Item);
        return;
    }
    match parse_named(source, reader, later_word(source, reader)) {
        None => refuse_item(source, reader, Refused::SystemVerilog),
        Some(item) => add(items, item, source, reader),
    }
}

/// Reads items up to `end`.
#[cycle(item)]
fn parse_block_items(
    source: &TokenSource<'_>,
    reader: &mut Reader,
    room: usize,
) -> Vec<ModuleItem> {
    let mut items = Vec::new(source.alloc);
    for _item in 0..source.tokens.len() {
        if reader.is_stopped() || reader.accept_word(source, Keyword::End) {
            return items;
        }
        parse_item(source, reader, room, &mut items);
    }
    stop_expecting(source, reader, ExpectedToken::Keyword(Keyword::End));
    items
}

/// Reads items between `begin` and `end`.
#[cycle(item)]
fn parse_block(source: &TokenSource<'_>, reader: &mut Reader, room: usize) -> GenerateBlock {
    let token = reader.place();
    take_word(source, reader, Keyword::Begin);
    GenerateBlock {
        token,
        name: parse_block_name(source, reader),
        items: parse_block_items(source, reader, room),
    }
}

/// Reads one item as a block without a name. A `;` alone is one without items.
#[cycle(item)]
fn parse_lone_item(source: &TokenSource<'_>, reader: &mut Reader, room: usize) -> GenerateBlock {
    let token = reader.place();
    let mut items = Vec::new(source.alloc);
    if !reader.accept(source, Sign::Semicolon) {
        parse_item(source, reader, room, &mut items);
    }
    GenerateBlock {
        token,
        name: None,
        items,
    }
}

/// Reads the body of a generate construct (A.4.2).
#[cycle(item)]
fn parse_body(source: &TokenSource<'_>, reader: &mut Reader, room: usize) -> GenerateBlock {
    if reader.sees_word(source, Keyword::Begin) {
        return parse_block(source, reader, room);
    }
    parse_lone_item(source, reader, room)
}

/// Reads a loop generate construct.
#[cycle(item)]
fn parse_loop(
    source: &TokenSource<'_>,
    reader: &mut Reader,
    room: usize,
    items: &mut Vec<ModuleItem>,
) {
    let token = reader.place();
    let head = parse_loop_head(source, reader);
    let body = parse_body(source, reader, room);
    push_loop(source, reader, items, token, head, body);
}

/// Adds a branch.
#[inline(never)]
fn push_branch(
    source: &TokenSource<'_>,
    reader: &mut Reader,
    branches: &mut Vec<GenerateBranch>,
    condition: VerilogExpression,
    body: GenerateBlock,
) {
    add(branches, GenerateBranch { condition, body }, source, reader);
}

/// Reads `if ( condition )` and a body.
#[cycle(item)]
fn parse_branch(
    source: &TokenSource<'_>,
    reader: &mut Reader,
    room: usize,
    branches: &mut Vec<GenerateBranch>,
) {
    take_word(source, reader, Keyword::If);
    let condition = parse_parenthesized(source, reader);
    let body = parse_body(source, reader, room);
    push_branch(source, reader, branches, condition, body);
}

/// Reads `if` and each `else if`.
#[cycle(item)]
fn parse_branches(
    source: &TokenSource<'_>,
    reader: &mut Reader,
    room: usize,
) -> Vec<GenerateBranch> {
    let mut branches = Vec::new(source.alloc);
    for _branch in 0..source.tokens.len() {
        parse_branch(source, reader, room, &mut branches);
        if !accept_else_if(source, reader) {
            break;
        }
    }
    branches
}

/// Reads the last `else` and its body, where it comes next.
#[cycle(item)]
fn parse_otherwise(
    source: &TokenSource<'_>,
    reader: &mut Reader,
    room: usize,
) -> Option<GenerateBlock> {
    if !reader.accept_word(source, Keyword::Else) {
        return None;
    }
    Some(parse_body(source, reader, room))
}

/// Reads an if generate construct.
#[cycle(item)]
fn parse_if(
    source: &TokenSource<'_>,
    reader: &mut Reader,
    room: usize,
    items: &mut Vec<ModuleItem>,
) {
    let found = GenerateIf {
        token: reader.place(),
        branches: parse_branches(source, reader, room),
        otherwise: parse_otherwise(source, reader, room),
    };
    push_if(source, reader, items, found);
}

/// Reads an item of a case generate construct.
#[cycle(item)]
fn parse_case_item(source: &TokenSource<'_>, reader: &mut Reader, room: usize) -> GenerateCaseItem {
    GenerateCaseItem {
        labels: parse_labels(source, reader),
        body: parse_body(source, reader, room),
    }
}

/// Reads the items of a case generate construct, up to `endcase`.
#[cycle(item)]
fn parse_case_items(
    source: &TokenSource<'_>,
    reader: &mut Reader,
    room: usize,
) -> Vec<GenerateCaseItem> {
    let mut cases = Vec::new(source.alloc);
    for _item in 0..source.tokens.len() {
        if reader.is_stopped() || reader.accept_word(source, Keyword::EndCase) {
            return cases;
        }
        let one = parse_case_item(source, reader, room);
        add(&mut cases, one, source, reader);
    }
    stop_expecting(source, reader, ExpectedToken::Keyword(Keyword::EndCase));
    cases
}

/// Reads a case generate construct.
#[cycle(item)]
fn parse_case(
    source: &TokenSource<'_>,
    reader: &mut Reader,
    room: usize,
    items: &mut Vec<ModuleItem>,
) {
    let found = GenerateCase {
        token: reader.take(source),
        selector: parse_parenthesized(source, reader),
        items: parse_case_items(source, reader, room),
    };
    push_case(source, reader, items, found);
}

/// Reads an item in the form that its first word tells, and adds it.
#[cycle(item)]
fn parse_form(
    source: &TokenSource<'_>,
    reader: &mut Reader,
    room: usize,
    form: ItemForm,
    items: &mut Vec<ModuleItem>,
) {
    match form {
        ItemForm::GenerateLoop => parse_loop(source, reader, room, items),
        ItemForm::GenerateIf => parse_if(source, reader, room, items),
        ItemForm::GenerateCase => parse_case(source, reader, room, items),
        ItemForm::GenerateBlock => {
            let block = parse_block(source, reader, room);
            push_block(source, reader, items, block);
        }
        other => push_simple(source, reader, other, items),
    }
}

/// Reads an item, where there is room for one more to nest, and adds it, unless it is refused or ignored.
#[cycle(item)]
pub fn parse_item(
    source: &TokenSource<'_>,
    reader: &mut Reader,
    room: usize,
    items: &mut Vec<ModuleItem>,
) {
    if room == 0 {
        reader.stop(source, SyntaxStop::Deep);
        return;
    }
    or_stop(reader.skip_attributes(source), source, reader);
    reader.end_statement();
    let Some(word) = next_word(source, reader) else {
        push_named(source, reader, items);
        return;
    };
    or_stop(reader.open(), source, reader);
    parse_form(source, reader, room - 1, item_form(word), items);
    reader.close();
}
