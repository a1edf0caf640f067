//! Statements.

ghost use Rattle.std.specs.Prelude.{◌≡◌, ◌∷◌, ◌++◌, [], map};
ghost use Rattle.tokens.specs.Tokens.{plain_token};
ghost use Rattle.grammar.specs.Cursor.{left_of, parse_and_then, expect, Reads, Builds};
ghost use Rattle.model.specs.SourceTrees.{source_expression_of, source_trigger_of, source_statement_of};
ghost use Rattle.grammar.specs.Nodes.{triggers_view, statements_view};
ghost use Rattle.grammar.specs.Grammar as grammar;
ghost use Rattle.grammar.specs.Reading as spec;

use crate::build::{
    assignment_of, await_of, block_of, delay_of, if_else_of, if_of, print_of, while_of,
};
use crate::cursor::Cursor;
use crate::expression::{Rules, parse_closed, parse_list, parse_number, parse_parenthesized};
use crate::fault::{GrammarFault, Read};
use model::tree::{Change, EventExpression, SourceExpression, SourceStatement, Task};
use std::alloc::Global;
use tokens::token::{Kind, Token};

/// Reads `# decimal` where it comes next.
#[tactic(auto, unfolding(crate::specs::Reading::parse_delay, crate::specs::Cursor::expect))]
fn parse_delay(rules: Rules, tokens: &mut Cursor<'_, '_>) -> Read<Option<u64>>
    ensures { Reads (λ d. d) rules.stop (spec.parse_delay (left_of tokens.old)) result (left_of tokens.new) }
{
    if !tokens.sees(Kind::Hash) {
        return Ok(None);
    }
    let found = parse_number(rules, tokens, Kind::Hash)?;
    Ok(Some(found))
}

/// Reads the sign of an assignment, what stands right of it, and `;`.
#[tactic(auto, unfolding(crate::specs::Reading::parse_value, crate::specs::Reading::parse_closed))]
fn parse_value(
    rules: Rules,
    tokens: &mut Cursor<'_, '_>,
    budget: usize,
    sign: Kind,
) -> Read<(Option<u64>, SourceExpression)>
    ensures { Reads (λ p. (p.0, source_expression_of p.1)) rules.stop
        (parse_and_then (expect sign (left_of tokens.old)) (λ _. spec.parse_value budget)) result (left_of tokens.new) }
{
    tokens.expect(rules.stop, sign)?;
    let found = parse_delay(rules, tokens)?;
    let e = parse_closed(rules, tokens, budget, Kind::Semicolon)?;
    Ok((found, e))
}

/// Reads an assignment.
#[tactic(auto, unfolding(crate::specs::Reading::parse_assign, crate::specs::Cursor::expect))]
fn parse_assign(rules: Rules, tokens: &mut Cursor<'_, '_>, budget: usize) -> Read<SourceStatement>
    ensures { Reads source_statement_of rules.stop (spec.parse_assign budget (left_of tokens.old)) result (left_of tokens.new) }
{
    let name = tokens.take(rules.stop)?;
    if tokens.sees(Kind::AtMost) {
        let found = parse_value(rules, tokens, budget, Kind::AtMost)?;
        return assignment_of(rules.alloc, true, name.text, found.0, found.1);
    }
    let found = parse_value(rules, tokens, budget, Kind::Assign)?;
    assignment_of(rules.alloc, false, name.text, found.0, found.1)
}

/// The edge that a word of an event names, if it names one.
fn change_of(kind: Kind) -> Option<Change>
    ensures { result ≡ grammar.change_of kind }
{
    match kind {
        Kind::Posedge => Some(Change::Posedge),
        Kind::Negedge => Some(Change::Negedge),
        _ => None,
    }
}

/// Whether a token of this kind stands between two events of an event control.
fn separates(kind: Kind) -> bool
    ensures { result ≡ grammar.separates kind }
{
    match kind {
        Kind::Or | Kind::Comma => true,
        _ => false,
    }
}

/// An event expression, with a copy of the register's name. Fails where memory is refused.
fn event_of(alloc: Global, change: Change, name: &str) -> Read<EventExpression>
    ensures { Builds source_trigger_of (change, name.now) result }
{
    Ok(EventExpression {
        change,
        name: String::from_str(alloc, name)?,
    })
}

/// Reads an event.
#[tactic(auto, unfolding(crate::specs::Reading::parse_event))]
fn parse_event(rules: Rules, tokens: &mut Cursor<'_, '_>) -> Read<EventExpression>
    ensures { Reads source_trigger_of rules.stop (spec.parse_event (left_of tokens.old)) result (left_of tokens.new) }
{
    match change_of(tokens.kind()) {
        None => {
            let name = tokens.expect(rules.stop, Kind::Name)?;
            event_of(rules.alloc, Change::Any, name.text)
        }
        Some(change) => {
            tokens.take(rules.stop)?;
            let name = tokens.expect(rules.stop, Kind::Name)?;
            event_of(rules.alloc, change, name.text)
        }
    }
}

/// Reads events with `or` or commas between, and `)`.
#[tactic(auto, unfolding(crate::specs::Reading::parse_events))]
fn parse_events(
    rules: Rules,
    tokens: &mut Cursor<'_, '_>,
    budget: usize,
) -> Read<Vec<EventExpression>>
    ensures { Reads triggers_view rules.stop (spec.parse_events budget [] (left_of tokens.old)) result (left_of tokens.new) }
{
    let mut found = Vec::new(rules.alloc);
    for _turn in 0..budget {
        let one = parse_event(rules, tokens)?;
        found.push(one)?;
        if !separates(tokens.kind()) {
            tokens.expect(rules.stop, Kind::Close)?;
            return Ok(found);
        }
        tokens.take(rules.stop)?;
    }
    Err(GrammarFault::Syntax)
}

/// Reads `@ ( events )`.
#[tactic(auto, unfolding(crate::specs::Reading::parse_event_control))]
fn parse_event_control(
    rules: Rules,
    tokens: &mut Cursor<'_, '_>,
    budget: usize,
) -> Read<Vec<EventExpression>>
    ensures { Reads triggers_view rules.stop (spec.parse_event_control budget (left_of tokens.old)) result (left_of tokens.new) }
{
    tokens.take(rules.stop)?;
    tokens.expect(rules.stop, Kind::Open)?;
    parse_events(rules, tokens, budget)
}

/// Reads the name of a task that prints, `(` and a string, which it answers.
fn parse_format<'t, 'a>(rules: Rules, tokens: &mut Cursor<'t, 'a>) -> Read<&'t Token<'a>>
    ensures { Reads (λ t. plain_token t.now) rules.stop (spec.parse_format (left_of tokens.old)) result (left_of tokens.new) }
{
    tokens.take(rules.stop)?;
    tokens.expect(rules.stop, Kind::Open)?;
    tokens.expect(rules.stop, Kind::Text)
}

/// Reads a `$display` or a `$strobe`.
#[tactic(auto, unfolding(crate::specs::Reading::parse_print))]
fn parse_print(
    rules: Rules,
    tokens: &mut Cursor<'_, '_>,
    task: Task,
    budget: usize,
) -> Read<SourceStatement>
    ensures { Reads source_statement_of rules.stop
        (spec.parse_print task budget (left_of tokens.old)) result (left_of tokens.new) }
{
    let format = parse_format(rules, tokens)?;
    let mut found = Vec::new(rules.alloc);
    parse_list(rules, tokens, budget, Kind::Close, &mut found)?;
    tokens.expect(rules.stop, Kind::Semicolon)?;
    print_of(rules.alloc, task, format.text, found)
}

/// Reads `$finish ;`.
#[tactic(auto, unfolding(crate::specs::Reading::parse_finish))]
fn parse_finish(rules: Rules, tokens: &mut Cursor<'_, '_>) -> Read<SourceStatement>
    ensures { Reads source_statement_of rules.stop (spec.parse_finish (left_of tokens.old)) result (left_of tokens.new) }
{
    tokens.take(rules.stop)?;
    tokens.expect(rules.stop, Kind::Semicolon)?;
    Ok(SourceStatement::Finish)
}

/// Reads `# decimal` and a statement.
#[cycle(statement)]
#[tactic(auto, unfolding(crate::specs::Reading::parse_delayed))]
fn parse_delayed(rules: Rules, tokens: &mut Cursor<'_, '_>, budget: usize) -> Read<SourceStatement>
    ensures { Reads source_statement_of rules.stop (spec.parse_delayed (spec.parse_statement budget) (left_of tokens.old)) result (left_of tokens.new) }
{
    tokens.take(rules.stop)?;
    let found = tokens.expect(rules.stop, Kind::Decimal)?;
    let body = parse_statement(rules, tokens, budget)?;
    delay_of(rules.alloc, found.value(), body)
}

/// Reads `@ ( events )` and a statement.
#[cycle(statement)]
#[tactic(auto, unfolding(crate::specs::Reading::parse_awaited))]
fn parse_awaited(rules: Rules, tokens: &mut Cursor<'_, '_>, budget: usize) -> Read<SourceStatement>
    ensures { Reads source_statement_of rules.stop (spec.parse_awaited (spec.parse_statement budget) budget (left_of tokens.old)) result (left_of tokens.new) }
{
    let found = parse_event_control(rules, tokens, budget)?;
    let body = parse_statement(rules, tokens, budget)?;
    await_of(rules.alloc, found, body)
}

/// Reads a block, and answers its statements.
#[cycle(statement)]
#[tactic(auto, unfolding(crate::specs::Reading::parse_block, crate::specs::Reading::parse_statements))]
fn parse_block(
    rules: Rules,
    tokens: &mut Cursor<'_, '_>,
    budget: usize,
) -> Read<Vec<SourceStatement>>
    ensures { Reads statements_view rules.stop (spec.parse_block (spec.parse_statement budget) budget (left_of tokens.old)) result (left_of tokens.new) }
{
    tokens.expect(rules.stop, Kind::Begin)?;
    let mut found = Vec::new(rules.alloc);
    for _turn in 0..budget {
        if tokens.sees(Kind::EndBlock) {
            tokens.take(rules.stop)?;
            return Ok(found);
        }
        found.push(parse_statement(rules, tokens, budget)?)?;
    }
    Err(GrammarFault::Syntax)
}

/// Reads `else block` where it comes next.
#[cycle(statement)]
#[tactic(auto, unfolding(crate::specs::Reading::parse_else))]
fn parse_else(
    rules: Rules,
    tokens: &mut Cursor<'_, '_>,
    budget: usize,
    test: SourceExpression,
    body: Vec<SourceStatement>,
) -> Read<SourceStatement>
    ensures { Reads source_statement_of rules.stop (spec.parse_else (spec.parse_statement budget) budget (source_expression_of test) (statements_view body) (left_of tokens.old)) result (left_of tokens.new) }
{
    if !tokens.sees(Kind::Else) {
        return Ok(if_of(test, body));
    }
    tokens.take(rules.stop)?;
    let other = parse_block(rules, tokens, budget)?;
    Ok(if_else_of(test, body, other))
}

/// Reads a word, `( expression )` and a block.
#[cycle(statement)]
#[tactic(auto, unfolding(crate::specs::Reading::parse_guarded))]
fn parse_guarded(
    rules: Rules,
    tokens: &mut Cursor<'_, '_>,
    budget: usize,
) -> Read<(SourceExpression, Vec<SourceStatement>)>
    ensures { Reads (λ p. (source_expression_of p.0, statements_view p.1)) rules.stop (spec.parse_guarded (spec.parse_statement budget) budget (left_of tokens.old)) result (left_of tokens.new) }
{
    tokens.take(rules.stop)?;
    let test = parse_parenthesized(rules, tokens, budget)?;
    let body = parse_block(rules, tokens, budget)?;
    Ok((test, body))
}

/// Reads `if ( expression ) block`, and `else block` where it follows.
#[cycle(statement)]
#[tactic(auto, unfolding(crate::specs::Reading::parse_if))]
fn parse_if(rules: Rules, tokens: &mut Cursor<'_, '_>, budget: usize) -> Read<SourceStatement>
    ensures { Reads source_statement_of rules.stop (spec.parse_if (spec.parse_statement budget) budget (left_of tokens.old)) result (left_of tokens.new) }
{
    let found = parse_guarded(rules, tokens, budget)?;
    parse_else(rules, tokens, budget, found.0, found.1)
}

/// Reads `while ( expression ) block`.
#[cycle(statement)]
#[tactic(auto, unfolding(crate::specs::Reading::parse_while))]
fn parse_while(rules: Rules, tokens: &mut Cursor<'_, '_>, budget: usize) -> Read<SourceStatement>
    ensures { Reads source_statement_of rules.stop (spec.parse_while (spec.parse_statement budget) budget (left_of tokens.old)) result (left_of tokens.new) }
{
    let found = parse_guarded(rules, tokens, budget)?;
    Ok(while_of(found.0, found.1))
}

/// Reads a statement in the form that its first token tells.
#[cycle(statement)]
#[tactic(auto, unfolding(crate::specs::Reading::parse_form))]
fn parse_form(rules: Rules, tokens: &mut Cursor<'_, '_>, budget: usize) -> Read<SourceStatement>
    ensures { Reads source_statement_of rules.stop (spec.parse_form (spec.parse_statement budget) budget (left_of tokens.old)) result (left_of tokens.new) }
{
    match tokens.kind() {
        Kind::Semicolon => {
            tokens.take(rules.stop)?;
            Ok(SourceStatement::Empty)
        }
        Kind::Begin => {
            let found = parse_block(rules, tokens, budget)?;
            Ok(block_of(found))
        }
        Kind::Name => parse_assign(rules, tokens, budget),
        Kind::If => parse_if(rules, tokens, budget),
        Kind::While => parse_while(rules, tokens, budget),
        Kind::Hash => parse_delayed(rules, tokens, budget),
        Kind::At => parse_awaited(rules, tokens, budget),
        Kind::Display => parse_print(rules, tokens, Task::Display, budget),
        Kind::Strobe => parse_print(rules, tokens, Task::Strobe, budget),
        Kind::Finish => parse_finish(rules, tokens),
        _ => Err(GrammarFault::Syntax),
    }
}

/// Reads a statement, where the budget lets one more nest.
#[cycle(statement)]
pub fn parse_statement(
    rules: Rules,
    tokens: &mut Cursor<'_, '_>,
    budget: usize,
) -> Read<SourceStatement>
    ensures { Reads source_statement_of rules.stop (spec.parse_statement budget (left_of tokens.old)) result (left_of tokens.new) }
{
    if budget == 0 {
        return Err(GrammarFault::Syntax);
    }
    parse_form(rules, tokens, budget - 1)
}
