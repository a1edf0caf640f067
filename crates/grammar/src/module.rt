//! Modules.

ghost use Rattle.std.specs.Prelude.{◌≡◌, ◌∷◌, ◌++◌, [], map, true};
ghost use Rattle.grammar.specs.Cursor.{left_of, sees, Reads};
ghost use Rattle.model.specs.SourceTrees.{declaration_of, source_process_of, module_of};
ghost use Rattle.grammar.specs.Nodes.{names_view};
ghost use Rattle.grammar.specs.Grammar as grammar;
ghost use Rattle.grammar.specs.Reading as spec;

use crate::cursor::Cursor;
use crate::expression::{Rules, parse_number};
use crate::fault::{GrammarFault, Read};
use crate::statement::parse_statement;
use model::tree::{Declaration, Module, SourceProcess};
use tokens::token::Kind;

/// Reads `[ decimal : decimal ]`.
#[tactic(auto, unfolding(crate::specs::Reading::parse_bounds, crate::specs::Cursor::expect))]
fn parse_bounds(rules: Rules, tokens: &mut Cursor<'_, '_>) -> Read<(u64, u64)>
    requires { sees Kind.OpenSquare (left_of tokens.old) ≡ true }
    ensures { Reads (λ r. r) rules.stop (spec.parse_bounds (left_of tokens.old)) result (left_of tokens.new) }
{
    let first = parse_number(rules, tokens, Kind::OpenSquare)?;
    let last = parse_number(rules, tokens, Kind::Colon)?;
    tokens.expect(rules.stop, Kind::CloseSquare)?;
    Ok((first, last))
}

/// Reads a range where it comes next.
#[tactic(auto, unfolding(crate::specs::Reading::parse_range))]
fn parse_range(rules: Rules, tokens: &mut Cursor<'_, '_>) -> Read<Option<(u64, u64)>>
    ensures { Reads (λ r. r) rules.stop (spec.parse_range (left_of tokens.old)) result (left_of tokens.new) }
{
    if !tokens.sees(Kind::OpenSquare) {
        return Ok(None);
    }
    Ok(Some(parse_bounds(rules, tokens)?))
}

/// Reads names with commas between, and `;`.
#[tactic(auto, unfolding(crate::specs::Reading::parse_names))]
fn parse_names(rules: Rules, tokens: &mut Cursor<'_, '_>, budget: usize) -> Read<Vec<String>>
    ensures { Reads names_view rules.stop (spec.parse_names budget [] (left_of tokens.old)) result (left_of tokens.new) }
{
    let mut found = Vec::new(rules.alloc);
    for _turn in 0..budget {
        let name = tokens.expect(rules.stop, Kind::Name)?;
        found.push(String::from_str(rules.alloc, name.text)?)?;
        if !tokens.sees(Kind::Comma) {
            tokens.expect(rules.stop, Kind::Semicolon)?;
            return Ok(found);
        }
        tokens.take(rules.stop)?;
    }
    Err(GrammarFault::Syntax)
}

/// Whether the process repeats that a token of this kind begins, if it begins one.
fn repeats_of(kind: Kind) -> Option<bool>
    ensures { result ≡ grammar.repeats_of kind }
{
    match kind {
        Kind::Initial => Some(false),
        Kind::Always => Some(true),
        _ => None,
    }
}

/// Reads a `reg` item.
#[tactic(auto, unfolding(crate::specs::Reading::parse_declaration))]
fn parse_declaration(rules: Rules, tokens: &mut Cursor<'_, '_>, budget: usize) -> Read<Declaration>
    ensures { Reads declaration_of rules.stop (spec.parse_declaration budget (left_of tokens.old)) result (left_of tokens.new) }
{
    tokens.take(rules.stop)?;
    let found = parse_range(rules, tokens)?;
    let names = parse_names(rules, tokens, budget)?;
    Ok(Declaration {
        range: found,
        names,
    })
}

/// Reads an `initial` or an `always` construct.
#[tactic(auto, unfolding(crate::specs::Reading::parse_process))]
fn parse_process(
    rules: Rules,
    tokens: &mut Cursor<'_, '_>,
    budget: usize,
    repeats: bool,
) -> Read<SourceProcess>
    ensures { Reads source_process_of rules.stop (spec.parse_process budget repeats (left_of tokens.old))
        result (left_of tokens.new) }
{
    tokens.take(rules.stop)?;
    let body = parse_statement(rules, tokens, budget)?;
    Ok(SourceProcess { repeats, body })
}

/// Reads an item, and adds it to those found.
#[tactic(auto, unfolding(crate::specs::Reading::parse_item))]
fn parse_item(
    rules: Rules,
    tokens: &mut Cursor<'_, '_>,
    budget: usize,
    found: &mut Module,
) -> Read<()>
    ensures { Reads (λ _. module_of found.new) rules.stop (spec.parse_item budget (module_of found.old) (left_of tokens.old)) result (left_of tokens.new) }
{
    match repeats_of(tokens.kind()) {
        Some(repeats) => {
            let one = parse_process(rules, tokens, budget, repeats)?;
            found.procs.push(one)?;
            Ok(())
        }
        None => {
            if !tokens.sees(Kind::Reg) {
                return Err(GrammarFault::Syntax);
            }
            let one = parse_declaration(rules, tokens, budget)?;
            found.regs.push(one)?;
            Ok(())
        }
    }
}

/// Reads items up to the end of the module, and adds them to those found.
#[tactic(auto, unfolding(crate::specs::Reading::parse_items))]
fn parse_items(
    rules: Rules,
    tokens: &mut Cursor<'_, '_>,
    budget: usize,
    mut found: Module,
) -> Read<Module>
    ensures { Reads module_of rules.stop (spec.parse_items budget budget (module_of found) (left_of tokens.old)) result (left_of tokens.new) }
{
    for _turn in 0..budget {
        if tokens.sees(Kind::EndModule) {
            tokens.take(rules.stop)?;
            return Ok(found);
        }
        parse_item(rules, tokens, budget, &mut found)?;
    }
    Err(GrammarFault::Syntax)
}

/// Reads a module that is all there is.
#[tactic(auto, unfolding(crate::specs::Reading::parse_source))]
pub fn parse_source(rules: Rules, tokens: &mut Cursor<'_, '_>, budget: usize) -> Read<Module>
    ensures { Reads module_of rules.stop (spec.parse_source budget (left_of tokens.old)) result (left_of tokens.new) }
{
    tokens.expect(rules.stop, Kind::Module)?;
    let name = tokens.expect(rules.stop, Kind::Name)?;
    tokens.expect(rules.stop, Kind::Semicolon)?;
    let start = Module {
        name: String::from_str(rules.alloc, name.text)?,
        regs: Vec::new(rules.alloc),
        procs: Vec::new(rules.alloc),
    };
    let found = parse_items(rules, tokens, budget, start)?;
    if tokens.is_done() {
        Ok(found)
    } else {
        Err(GrammarFault::Syntax)
    }
}

/// Frees a module that nobody wants. What frees a tree is proved here, and so not again in a crate above that gives one up.
pub fn discard(_module: Module) {}
