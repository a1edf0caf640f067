//! The processes of a text, by the tokens at which they stand (9.9).

ghost use Rattle.std.specs.Prelude.{◌≡◌, [], Contains, slice_get, IfOk, IfSome, OnOk};
ghost use Rattle.routine_texts.specs.Processes.{StandsIn, StandsInBlock, StandsInModule, StandsInText, AddsOnly};

use std::alloc::{AllocError, Global};
use syntax_tree::modules::{GenerateBlock, ModuleDeclaration, ModuleItem, ProcessConstruct};

/// Adds the processes of an item, those of a generate construct too. Fails where memory is refused.
#[cycle(finding)]
fn add_processes<'t>(
    item: &'t ModuleItem,
    found: &mut Vec<&'t ProcessConstruct>,
) -> Result<(), AllocError>
    ensures { OnOk result (AddsOnly found.old.items found.new.items (λ p. StandsIn p item.now)) }
{
    match item {
        ModuleItem::Process(process) => {
            found.push(process)?;
            Ok(())
        }
        ModuleItem::GenerateLoop(inner) => add_block_processes(&inner.body, found),
        ModuleItem::GenerateIf(inner) => {
            for branch in &inner.branches {
                add_block_processes(&branch.body, found)?;
            }
            match &inner.otherwise {
                Some(block) => add_block_processes(block, found),
                None => Ok(()),
            }
        }
        ModuleItem::GenerateCase(inner) => {
            for one in &inner.items {
                add_block_processes(&one.body, found)?;
            }
            Ok(())
        }
        ModuleItem::GenerateBlock(block) => add_block_processes(block, found),
        _ => Ok(()),
    }
}

/// Adds the processes of a generate block. Fails where memory is refused.
#[cycle(finding)]
fn add_block_processes<'t>(
    block: &'t GenerateBlock,
    found: &mut Vec<&'t ProcessConstruct>,
) -> Result<(), AllocError>
    ensures { OnOk result (AddsOnly found.old.items found.new.items (λ p. StandsInBlock p block.now)) }
{
    for item in &block.items {
        add_processes(item, found)?;
    }
    Ok(())
}

/// Adds the processes of a module. Fails where memory is refused.
fn add_module_processes<'t>(
    source: &'t ModuleDeclaration,
    found: &mut Vec<&'t ProcessConstruct>,
) -> Result<(), AllocError>
    ensures { OnOk result (AddsOnly found.old.items found.new.items (λ p. StandsInModule p source.now)) }
{
    for item in &source.items {
        add_processes(item, found)?;
    }
    Ok(())
}

/// The processes of the modules of a text, in the order of the text, which is that of their tokens. Fails where memory is refused.
pub fn processes_of(
    alloc: Global,
    modules: &[ModuleDeclaration],
) -> Result<Vec<&ProcessConstruct>, AllocError>
    ensures { IfOk result (λ found. AddsOnly [] found.items (λ p. StandsInText modules.now p)) }
{
    let mut found = Vec::new(alloc);
    for source in modules {
        add_module_processes(source, &mut found)?;
    }
    Ok(found)
}

/// The process of a number among some, if there is one.
fn process_of<'t>(processes: &[&'t ProcessConstruct], number: usize) -> Option<&'t ProcessConstruct>
    ensures { result ≡ slice_get processes.now number }
{
    processes.get(number).copied()
}

/// A process, where it stands at a token.
fn at_token(process: &ProcessConstruct, token: usize) -> Option<&ProcessConstruct>
    ensures { IfSome result (λ found. (found.now.token ≡ token) × (found ≡ process.entry)) }
{
    if process.token == token {
        Some(process)
    } else {
        None
    }
}

/// The process that stands at a token, among some that are in the order of their tokens.
pub fn process_at<'t>(
    processes: &[&'t ProcessConstruct],
    token: usize,
) -> Option<&'t ProcessConstruct>
    ensures { IfSome result (λ found. (found.now.token ≡ token) × Contains processes.now found) }
{
    let number = processes.partition_point(|process| process.token < token);
    let Some(process) = process_of(processes, number) else {
        return None;
    };
    at_token(process, token)
}
