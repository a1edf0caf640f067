//! Statements (A.6).

use crate::declarations::{parse_block_items, parse_identifier, refuse_local_type};
use crate::expected::{
    add, boxed, bytes_or_stop, close_bracket, expression_or_stop, open_bracket, or_stop,
    parse_expression, parse_parenthesized, parse_semicolon, refuse_next, stop_expecting, take_sign,
    take_word,
};
use crate::timing::{parse_delay, parse_event_control, parse_optional_timing, sees_event};
use crate::words::{LaterWord, case_form, later_word};
use expression_syntax::faults::{ExpectedToken, SyntaxStop};
use expression_syntax::reader::Reader;
use expression_syntax::reading::{ROOM, read_arguments, read_path, read_target};
use expression_syntax::refusals::Refused;
use expression_syntax::texts::{TokenSource, token_copy};
use lexemes::token::{Keyword, Sign, TokenKind};
use syntax_tree::declarations::BlockItem;
use syntax_tree::expressions::{Identifier, VerilogExpression};
use syntax_tree::statements::{
    AssignmentForm, BlockForm, CaseForm, CaseItem, ConditionalBranch, EventControl,
    VariableAssignment, VerilogStatement,
};

/// What a statement is, by its first token.
#[derive(Clone, Copy)]
enum StatementForm {
    Nothing,
    Empty,
    Sequential,
    Parallel,
    Named,
    SystemTask,
    If,
    Case(CaseForm),
    Headed,
    Disable,
    Trigger,
    ProceduralAssignment,
    Force,
}

fn word_form(word: Keyword) -> StatementForm {
    if let Some(form) = case_form(word) {
        return StatementForm::Case(form);
    }
    match word {
        Keyword::Begin => StatementForm::Sequential,
        Keyword::Fork => StatementForm::Parallel,
        Keyword::If => StatementForm::If,
        Keyword::For | Keyword::Repeat | Keyword::While => StatementForm::Headed,
        Keyword::Forever | Keyword::Wait => StatementForm::Headed,
        Keyword::Disable => StatementForm::Disable,
        Keyword::Assign | Keyword::Deassign => StatementForm::ProceduralAssignment,
        Keyword::Force | Keyword::Release => StatementForm::Force,
        _ => StatementForm::Nothing,
    }
}

fn sign_form(sign: Sign) -> StatementForm {
    match sign {
        Sign::Semicolon => StatementForm::Empty,
        Sign::OpenCurly => StatementForm::Named,
        Sign::Hash | Sign::At => StatementForm::Headed,
        Sign::Trigger => StatementForm::Trigger,
        _ => StatementForm::Nothing,
    }
}

fn statement_form(kind: Option<TokenKind>) -> StatementForm {
    match kind {
        Some(TokenKind::Keyword(word)) => word_form(word),
        Some(TokenKind::Sign(sign)) => sign_form(sign),
        Some(TokenKind::Name) | Some(TokenKind::EscapedName) => StatementForm::Named,
        Some(TokenKind::SystemName) => StatementForm::SystemTask,
        _ => StatementForm::Nothing,
    }
}

/// Whether a sign is an operator that SystemVerilog joins with `=`.
fn is_joined(sign: Sign) -> bool {
    match sign {
        Sign::Plus | Sign::Minus | Sign::Star | Sign::Slash => true,
        Sign::Percent | Sign::Ampersand | Sign::Bar | Sign::Caret => true,
        Sign::ShiftLeft | Sign::ShiftRight => true,
        _ => false,
    }
}

/// Whether an operator of SystemVerilog that changes a variable comes next: `++`, `--`, `+=` and the like.
fn is_step(source: &TokenSource<'_>, reader: &Reader) -> bool {
    match reader.kind(source) {
        Some(TokenKind::Sign(sign)) if is_joined(sign) => reader.sees_ahead(source, 1, Sign::Assign)
            || reader.sees_ahead(source, 1, sign),
        _ => false,
    }
}

/// Takes an operator of SystemVerilog that changes a variable, and what stands right of it, which is refused.
fn refuse_step(source: &TokenSource<'_>, reader: &mut Reader) {
    refuse_next(source, reader, Refused::SystemVerilog);
    let _ = reader.take(source);
    if reader.accept(source, Sign::Assign) {
        let _ = parse_expression(source, reader);
        return;
    }
    let _ = reader.take(source);
}

/// Reads `= value`. An operator of SystemVerilog in its place is refused.
fn parse_assigned_value(source: &TokenSource<'_>, reader: &mut Reader) -> VerilogExpression {
    if is_step(source, reader) {
        refuse_step(source, reader);
        return VerilogExpression::Refused {
            token: reader.place(),
        };
    }
    take_sign(source, reader, Sign::Assign);
    parse_expression(source, reader)
}

/// Reads `target = value`.
pub fn parse_variable_assignment(
    source: &TokenSource<'_>,
    reader: &mut Reader,
) -> VariableAssignment {
    refuse_local_type(source, reader);
    VariableAssignment {
        token: reader.place(),
        target: expression_or_stop(read_target(source, reader), source, reader),
        value: parse_assigned_value(source, reader),
    }
}

/// Reads a task's arguments, where they come next. There may be none in the parentheses.
fn parse_optional_arguments(
    source: &TokenSource<'_>,
    reader: &mut Reader,
) -> Vec<VerilogExpression> {
    if !reader.sees(source, Sign::Open) {
        return Vec::new(source.alloc);
    }
    if reader.sees_ahead(source, 1, Sign::Close) {
        let _ = reader.take(source);
        let _ = reader.take(source);
        return Vec::new(source.alloc);
    }
    match read_arguments(source, reader) {
        Ok(found) => found,
        Err(why) => {
            reader.stop(source, why);
            Vec::new(source.alloc)
        }
    }
}

/// What an assignment is, by its sign. An event behind the sign of a nonblocking one is refused (9.7.7).
fn accept_assignment(source: &TokenSource<'_>, reader: &mut Reader) -> Option<AssignmentForm> {
    if reader.accept(source, Sign::Assign) {
        return Some(AssignmentForm::Blocking);
    }
    if !reader.accept(source, Sign::AtMost) {
        return None;
    }
    if sees_event(source, reader) {
        refuse_next(source, reader, Refused::NonblockingEvent);
    }
    Some(AssignmentForm::Nonblocking)
}

/// Reads the rest of an assignment or of a task's call, behind the target or the task's name.
fn parse_rest(
    source: &TokenSource<'_>,
    reader: &mut Reader,
    token: usize,
    target: VerilogExpression,
) -> VerilogStatement {
    match accept_assignment(source, reader) {
        None => VerilogStatement::TaskCall {
            token,
            task: target,
            arguments: parse_optional_arguments(source, reader),
        },
        Some(form) => VerilogStatement::Assignment {
            token,
            form,
            target,
            timing: parse_optional_timing(source, reader),
            value: parse_expression(source, reader),
        },
    }
}

/// Reads a statement that begins with a name or a brace, without its `;`: an assignment or a task's call.
fn parse_named(source: &TokenSource<'_>, reader: &mut Reader) -> VerilogStatement {
    let token = reader.place();
    let target = expression_or_stop(read_target(source, reader), source, reader);
    if !is_step(source, reader) {
        return parse_rest(source, reader, token, target);
    }
    refuse_step(source, reader);
    VerilogStatement::Refused { token }
}

/// Reads an argument of a system task, which may be left out.
fn parse_argument(source: &TokenSource<'_>, reader: &mut Reader) -> Option<VerilogExpression> {
    if reader.sees(source, Sign::Comma) || reader.sees(source, Sign::Close) {
        return None;
    }
    Some(parse_expression(source, reader))
}

/// Reads the arguments of a system task, where they come next. There may be none in the parentheses.
fn parse_system_arguments(
    source: &TokenSource<'_>,
    reader: &mut Reader,
) -> Vec<Option<VerilogExpression>> {
    let mut found = Vec::new(source.alloc);
    if !reader.sees(source, Sign::Open) {
        return found;
    }
    if reader.sees_ahead(source, 1, Sign::Close) {
        let _ = reader.take(source);
        let _ = reader.take(source);
        return found;
    }
    open_bracket(source, reader, Sign::Open);
    for _argument in 0..source.tokens.len() {
        add(&mut found, parse_argument(source, reader), source, reader);
        if !reader.accept(source, Sign::Comma) {
            break;
        }
    }
    close_bracket(source, reader, Sign::Close);
    found
}

/// Reads a system task's call, without its `;`.
fn parse_system_task(source: &TokenSource<'_>, reader: &mut Reader) -> VerilogStatement {
    let token = reader.take(source);
    VerilogStatement::SystemTaskCall {
        token,
        name: bytes_or_stop(token_copy(source, token), source, reader),
        arguments: parse_system_arguments(source, reader),
    }
}

/// Goes behind a statement that is refused, up to its `;`.
fn refuse_statement(
    source: &TokenSource<'_>,
    reader: &mut Reader,
    construct: Refused,
) -> VerilogStatement {
    let token = reader.place();
    refuse_next(source, reader, construct);
    reader.skip_past(source, Sign::Semicolon);
    reader.end_statement();
    VerilogStatement::Refused { token }
}

/// What stands before the body of a statement.
#[derive(Drop)]
enum StatementHead {
    Delay(VerilogExpression),
    Event(EventControl),
    Wait(VerilogExpression),
    For(Box<VariableAssignment>, VerilogExpression, Box<VariableAssignment>),
    Repeat(VerilogExpression),
    While(VerilogExpression),
    Forever,
}

/// The head of a `for`. Where memory is refused reading stops, and any other head stands for it.
fn for_head(
    source: &TokenSource<'_>,
    reader: &mut Reader,
    start: VariableAssignment,
    condition: VerilogExpression,
    step: VariableAssignment,
) -> StatementHead {
    let Some(start) = boxed(start, source, reader) else {
        return StatementHead::Forever;
    };
    let Some(step) = boxed(step, source, reader) else {
        return StatementHead::Forever;
    };
    StatementHead::For(start, condition, step)
}

/// Reads `( start ; condition ; step )`.
fn parse_for_head(source: &TokenSource<'_>, reader: &mut Reader) -> StatementHead {
    open_bracket(source, reader, Sign::Open);
    let start = parse_variable_assignment(source, reader);
    take_sign(source, reader, Sign::Semicolon);
    let condition = parse_expression(source, reader);
    take_sign(source, reader, Sign::Semicolon);
    let step = parse_variable_assignment(source, reader);
    close_bracket(source, reader, Sign::Close);
    for_head(source, reader, start, condition, step)
}

/// Reads what stands before the body of a statement.
#[inline(never)]
fn parse_head(source: &TokenSource<'_>, reader: &mut Reader) -> StatementHead {
    if reader.sees(source, Sign::Hash) {
        return StatementHead::Delay(parse_delay(source, reader));
    }
    if reader.sees(source, Sign::At) {
        return StatementHead::Event(parse_event_control(source, reader));
    }
    if reader.accept_word(source, Keyword::For) {
        return parse_for_head(source, reader);
    }
    if reader.accept_word(source, Keyword::Wait) {
        return StatementHead::Wait(parse_parenthesized(source, reader));
    }
    if reader.accept_word(source, Keyword::Repeat) {
        return StatementHead::Repeat(parse_parenthesized(source, reader));
    }
    if reader.accept_word(source, Keyword::While) {
        return StatementHead::While(parse_parenthesized(source, reader));
    }
    take_word(source, reader, Keyword::Forever);
    StatementHead::Forever
}

/// A statement of a head and a body.
fn of_head(token: usize, head: StatementHead, body: Box<VerilogStatement>) -> VerilogStatement {
    match head {
        StatementHead::Delay(delay) => VerilogStatement::Delayed { token, delay, body },
        StatementHead::Event(control) => VerilogStatement::Awaited {
            token,
            control,
            body,
        },
        StatementHead::Wait(condition) => VerilogStatement::Wait {
            token,
            condition,
            body,
        },
        StatementHead::For(start, condition, step) => VerilogStatement::For {
            token,
            start,
            condition,
            step,
            body,
        },
        StatementHead::Repeat(count) => VerilogStatement::Repeat { token, count, body },
        StatementHead::While(condition) => VerilogStatement::While {
            token,
            condition,
            body,
        },
        StatementHead::Forever => VerilogStatement::Forever { token, body },
    }
}

/// A statement of a head and a body. Where memory is refused reading stops.
#[inline(never)]
fn with_body(
    source: &TokenSource<'_>,
    reader: &mut Reader,
    token: usize,
    head: StatementHead,
    body: VerilogStatement,
) -> VerilogStatement {
    match boxed(body, source, reader) {
        None => VerilogStatement::Refused { token },
        Some(body) => of_head(token, head, body),
    }
}

/// Reads a statement that has a head and a body.
#[cycle(statement)]
fn parse_headed(source: &TokenSource<'_>, reader: &mut Reader, room: usize) -> VerilogStatement {
    let token = reader.place();
    let head = parse_head(source, reader);
    let body = parse_statement(source, reader, room);
    with_body(source, reader, token, head, body)
}

/// The name of a block and what it declares.
#[derive(Drop)]
struct BlockHead {
    name: Option<Identifier>,
    items: Vec<BlockItem>,
}

/// Reads the name of a block and what it declares, where it has a name.
#[inline(never)]
fn parse_block_head(source: &TokenSource<'_>, reader: &mut Reader) -> BlockHead {
    if !reader.accept(source, Sign::Colon) {
        return BlockHead {
            name: None,
            items: Vec::new(source.alloc),
        };
    }
    BlockHead {
        name: Some(parse_identifier(source, reader)),
        items: parse_block_items(source, reader),
    }
}

/// Reads statements up to the word that ends their block.
#[cycle(statement)]
fn parse_statements(
    source: &TokenSource<'_>,
    reader: &mut Reader,
    room: usize,
    end: Keyword,
) -> Vec<VerilogStatement> {
    let mut found = Vec::new(source.alloc);
    for _statement in 0..source.tokens.len() {
        if reader.is_stopped() || reader.accept_word(source, end) {
            return found;
        }
        let one = parse_statement(source, reader, room);
        add(&mut found, one, source, reader);
    }
    stop_expecting(source, reader, ExpectedToken::Keyword(end));
    found
}

/// Reads a block.
#[cycle(statement)]
fn parse_block(
    source: &TokenSource<'_>,
    reader: &mut Reader,
    room: usize,
    form: BlockForm,
    end: Keyword,
) -> VerilogStatement {
    let token = reader.take(source);
    reader.end_statement();
    let head = parse_block_head(source, reader);
    let body = parse_statements(source, reader, room, end);
    reader.end_statement();
    VerilogStatement::Block {
        token,
        form,
        name: head.name,
        items: head.items,
        body,
    }
}

/// Adds a branch. Its parts are large, and are to lie in no frame of those that call themselves.
#[inline(never)]
fn push_branch(
    source: &TokenSource<'_>,
    reader: &mut Reader,
    branches: &mut Vec<ConditionalBranch>,
    condition: VerilogExpression,
    body: VerilogStatement,
) {
    add(
        branches,
        ConditionalBranch { condition, body },
        source,
        reader,
    );
}

/// Reads `if ( condition )` and a body.
#[cycle(statement)]
fn parse_branch(
    source: &TokenSource<'_>,
    reader: &mut Reader,
    room: usize,
    branches: &mut Vec<ConditionalBranch>,
) {
    take_word(source, reader, Keyword::If);
    let condition = parse_parenthesized(source, reader);
    let body = parse_statement(source, reader, room);
    push_branch(source, reader, branches, condition, body);
}

/// Takes `else` where `if` follows it. The answer is whether it does.
pub fn accept_else_if(source: &TokenSource<'_>, reader: &mut Reader) -> bool {
    if !reader.sees_word(source, Keyword::Else) {
        return false;
    }
    match reader.kind_ahead(source, 1) {
        Some(TokenKind::Keyword(Keyword::If)) => {
            let _ = reader.take(source);
            true
        }
        _ => false,
    }
}

/// Reads `if` and each `else if`.
#[cycle(statement)]
fn parse_branches(
    source: &TokenSource<'_>,
    reader: &mut Reader,
    room: usize,
) -> Vec<ConditionalBranch> {
    let mut found = Vec::new(source.alloc);
    for _branch in 0..source.tokens.len() {
        parse_branch(source, reader, room, &mut found);
        if !accept_else_if(source, reader) {
            break;
        }
    }
    found
}

/// Reads the last `else` and its body, where it comes next.
#[cycle(statement)]
fn parse_otherwise(
    source: &TokenSource<'_>,
    reader: &mut Reader,
    room: usize,
) -> Option<Box<VerilogStatement>> {
    if !reader.accept_word(source, Keyword::Else) {
        return None;
    }
    let body = parse_statement(source, reader, room);
    boxed(body, source, reader)
}

/// Reads `if`, each `else if`, and the last `else`.
#[cycle(statement)]
fn parse_if(source: &TokenSource<'_>, reader: &mut Reader, room: usize) -> VerilogStatement {
    VerilogStatement::If {
        token: reader.place(),
        branches: parse_branches(source, reader, room),
        otherwise: parse_otherwise(source, reader, room),
    }
}

/// Reads the labels of an item of a `case`, and the `:` behind them, which `default` may lack.
#[inline(never)]
pub fn parse_labels(source: &TokenSource<'_>, reader: &mut Reader) -> Vec<VerilogExpression> {
    let mut found = Vec::new(source.alloc);
    if reader.accept_word(source, Keyword::Default) {
        let _ = reader.accept(source, Sign::Colon);
        return found;
    }
    for _label in 0..source.tokens.len() {
        add(&mut found, parse_expression(source, reader), source, reader);
        if !reader.accept(source, Sign::Comma) {
            break;
        }
    }
    take_sign(source, reader, Sign::Colon);
    found
}

/// Adds an item of a `case`.
#[inline(never)]
fn push_case_item(
    source: &TokenSource<'_>,
    reader: &mut Reader,
    items: &mut Vec<CaseItem>,
    token: usize,
    labels: Vec<VerilogExpression>,
    body: VerilogStatement,
) {
    let item = CaseItem {
        token,
        labels,
        body,
    };
    add(items, item, source, reader);
}

/// Reads an item of a `case`.
#[cycle(statement)]
fn parse_case_item(
    source: &TokenSource<'_>,
    reader: &mut Reader,
    room: usize,
    items: &mut Vec<CaseItem>,
) {
    let token = reader.place();
    let labels = parse_labels(source, reader);
    let body = parse_statement(source, reader, room);
    push_case_item(source, reader, items, token, labels, body);
}

/// Reads the items of a `case`, up to `endcase`.
#[cycle(statement)]
fn parse_case_items(source: &TokenSource<'_>, reader: &mut Reader, room: usize) -> Vec<CaseItem> {
    let mut items = Vec::new(source.alloc);
    for _item in 0..source.tokens.len() {
        if reader.is_stopped() || reader.accept_word(source, Keyword::EndCase) {
            return items;
        }
        parse_case_item(source, reader, room, &mut items);
    }
    stop_expecting(source, reader, ExpectedToken::Keyword(Keyword::EndCase));
    items
}

/// Reads a `case`, a `casez` or a `casex`.
#[cycle(statement)]
fn parse_case(
    source: &TokenSource<'_>,
    reader: &mut Reader,
    room: usize,
    form: CaseForm,
) -> VerilogStatement {
    VerilogStatement::Case {
        token: reader.take(source),
        form,
        selector: parse_parenthesized(source, reader),
        items: parse_case_items(source, reader, room),
    }
}

/// Stops where no statement comes next.
fn expected_statement(source: &TokenSource<'_>, reader: &mut Reader) -> VerilogStatement {
    stop_expecting(source, reader, ExpectedToken::Statement);
    VerilogStatement::Refused {
        token: reader.place(),
    }
}

/// Reads a statement that ends with `;` and isn't refused, up to it.
fn parse_ended(
    source: &TokenSource<'_>,
    reader: &mut Reader,
    form: StatementForm,
) -> VerilogStatement {
    match form {
        StatementForm::Empty => VerilogStatement::Empty {
            token: reader.place(),
        },
        StatementForm::Named => parse_named(source, reader),
        StatementForm::SystemTask => parse_system_task(source, reader),
        StatementForm::Disable => VerilogStatement::Disable {
            token: reader.take(source),
            target: expression_or_stop(read_path(source, reader), source, reader),
        },
        StatementForm::Trigger => VerilogStatement::Trigger {
            token: reader.take(source),
            event: expression_or_stop(read_path(source, reader), source, reader),
        },
        _ => expected_statement(source, reader),
    }
}

/// Reads a statement that holds no other.
#[inline(never)]
fn parse_simple(
    source: &TokenSource<'_>,
    reader: &mut Reader,
    form: StatementForm,
) -> VerilogStatement {
    match form {
        StatementForm::ProceduralAssignment => refuse_statement(
            source,
            reader,
            Refused::ProceduralAssignment,
        ),
        StatementForm::Force => refuse_statement(source, reader, Refused::Force),
        other => {
            let found = parse_ended(source, reader, other);
            parse_semicolon(source, reader);
            found
        }
    }
}

/// Whether a statement or a declaration of SystemVerilog comes next.
fn sees_later_statement(source: &TokenSource<'_>, reader: &Reader) -> bool {
    match later_word(source, reader) {
        LaterWord::Type | LaterWord::Other => true,
        _ => false,
    }
}

/// Reads a statement in the form that its first token tells.
#[cycle(statement)]
fn parse_form(source: &TokenSource<'_>, reader: &mut Reader, room: usize) -> VerilogStatement {
    if sees_later_statement(source, reader) {
        return refuse_statement(source, reader, Refused::SystemVerilog);
    }
    match statement_form(reader.kind(source)) {
        StatementForm::Sequential => parse_block(
            source,
            reader,
            room,
            BlockForm::Sequential,
            Keyword::End,
        ),
        StatementForm::Parallel => parse_block(
            source,
            reader,
            room,
            BlockForm::Parallel,
            Keyword::Join,
        ),
        StatementForm::If => parse_if(source, reader, room),
        StatementForm::Case(form) => parse_case(source, reader, room, form),
        StatementForm::Headed => parse_headed(source, reader, room),
        form => parse_simple(source, reader, form),
    }
}

/// Reads a statement, where there is room for one more to nest.
#[cycle(statement)]
fn parse_statement(source: &TokenSource<'_>, reader: &mut Reader, room: usize) -> VerilogStatement {
    if room == 0 {
        reader.stop(source, SyntaxStop::Deep);
        return VerilogStatement::Refused {
            token: reader.place(),
        };
    }
    or_stop(reader.skip_attributes(source), source, reader);
    or_stop(reader.open(), source, reader);
    let found = parse_form(source, reader, room - 1);
    reader.close();
    found
}

/// Reads a statement.
pub fn read_statement(source: &TokenSource<'_>, reader: &mut Reader) -> VerilogStatement {
    parse_statement(source, reader, ROOM)
}
