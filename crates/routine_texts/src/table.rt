//! The functions and tasks of a text.

ghost use Rattle.std.specs.Prelude.{◌≡◌, [], ◌++◌, map, Contains, IfOk, IfSome, OnOk};
ghost use Rattle.std.specs.List.{flat_map};
ghost use Rattle.routine_texts.specs.Routines.{arguments_declared, function_declared, task_declared, IsWithin, IsWithinBlock, IsWithinModule, IsWithinText};
ghost use Rattle.routine_texts.specs.Tables.{argument_plain, routine_plain, AddsRoutines};

use crate::paths::{ScopeNames, scope_names};
use crate::written::keeps_values;
use statement_parts::faults::{Lowered, StatementKind, fault};
use std::alloc::{AllocError, Global};
use syntax_tree::declarations::{Direction, PortDeclaration};
use syntax_tree::modules::{
    FunctionDeclaration, GenerateBlock, ModuleDeclaration, ModuleItem, TaskDeclaration,
};
use syntax_tree::statements::VerilogStatement;

/// Whether something is a function or a task.
#[derive(Clone, Copy, PartialEq, Eq)]
pub enum RoutineKind {
    Function,
    Task,
}

/// An argument, as it is declared (10.2.1, 10.4.1).
#[derive(Clone, Copy)]
pub struct Argument<'t> {
    pub direction: Direction,
    pub name: &'t [u8],
}

/// A function or a task.
#[derive(Drop)]
pub struct Routine<'t> {
    /// The token at which its declaration stands, and that of its name.
    pub token: usize,
    pub name_token: usize,
    pub kind: RoutineKind,
    pub automatic: bool,
    pub name: &'t [u8],
    pub arguments: Vec<Argument<'t>>,
    pub body: &'t VerilogStatement,
    /// Whether it may keep a value from one call to the next, or its variables are named from outside.
    pub keeps: bool,
}

impl Routine<'_> {
    /// Whether each call has variables of its own.
    pub fn has_own_variables(&self) -> bool {
        self.automatic || (self.kind == RoutineKind::Function && !self.keeps)
    }

    /// Refuses a function without an input, and one with an output (10.4.4).
    pub fn refuse_head(&self) -> Lowered<()> {
        if self.kind == RoutineKind::Task {
            return Ok(());
        }
        if self.arguments.is_empty() {
            return fault(self.name_token, StatementKind::NoInput);
        }
        for argument in &self.arguments {
            if argument.direction != Direction::Input {
                return fault(self.name_token, StatementKind::FunctionOutput);
            }
        }
        Ok(())
    }
}

/// Adds the arguments of a declaration. Fails where memory is refused.
fn add_arguments<'t>(
    found: &mut Vec<Argument<'t>>,
    source: &'t PortDeclaration,
) -> Result<(), AllocError>
    ensures { OnOk result (map argument_plain found.new.items ≡ map argument_plain found.old.items ++ arguments_declared source.now) }
{
    for declarator in &source.declarators {
        found.push(Argument {
            direction: source.direction,
            name: declarator.identifier.name.as_slice(),
        })?;
    }
    Ok(())
}

/// The arguments of declarations, in their order. Fails where memory is refused.
fn arguments_of<'t>(
    alloc: Global,
    declarations: &'t [PortDeclaration],
) -> Result<Vec<Argument<'t>>, AllocError>
    ensures { IfOk result (λ found. map argument_plain found.items ≡ flat_map arguments_declared declarations.now) }
{
    let mut found = Vec::new(alloc);
    for source in declarations {
        add_arguments(&mut found, source)?;
    }
    Ok(found)
}

/// A function. Fails where memory is refused.
fn function_of<'t>(
    alloc: Global,
    scopes: &ScopeNames<'t>,
    source: &'t FunctionDeclaration,
) -> Result<Routine<'t>, AllocError>
    ensures token { IfOk result (λ made. made.token ≡ source.now.token) }
    ensures made { IfOk result (λ made. routine_plain made ≡ function_declared source.now) }
{
    let name = source.identifier.name.as_slice();
    let declared = source.arguments.as_slice();
    let keeps = keeps_values(
        alloc,
        Some(name),
        declared,
        source.items.as_slice(),
        &source.body,
    )?;
    let arguments = arguments_of(alloc, declared)?;
    Ok(Routine {
        token: source.token,
        name_token: source.identifier.token,
        kind: RoutineKind::Function,
        automatic: source.automatic,
        name,
        arguments,
        body: &source.body,
        keeps: keeps || scopes.has(name),
    })
}

/// A task. Fails where memory is refused.
fn task_of<'t>(
    alloc: Global,
    scopes: &ScopeNames<'t>,
    source: &'t TaskDeclaration,
) -> Result<Routine<'t>, AllocError>
    ensures token { IfOk result (λ made. made.token ≡ source.now.token) }
    ensures made { IfOk result (λ made. routine_plain made ≡ task_declared source.now) }
{
    let name = source.identifier.name.as_slice();
    let declared = source.arguments.as_slice();
    let keeps = keeps_values(alloc, None, declared, source.items.as_slice(), &source.body)?;
    let arguments = arguments_of(alloc, declared)?;
    Ok(Routine {
        token: source.token,
        name_token: source.identifier.token,
        kind: RoutineKind::Task,
        automatic: source.automatic,
        name,
        arguments,
        body: &source.body,
        keeps: keeps || scopes.has(name),
    })
}

/// Adds the functions and tasks of an item. Fails where memory is refused.
#[cycle(table)]
fn add_routines<'t>(
    alloc: Global,
    scopes: &ScopeNames<'t>,
    found: &mut Vec<Routine<'t>>,
    item: &'t ModuleItem,
) -> Result<(), AllocError>
    ensures { OnOk result (AddsRoutines found.old.items found.new.items (λ x. IsWithin x item.now)) }
{
    match item {
        ModuleItem::Function(source) => {
            let made = function_of(alloc, scopes, source)?;
            found.push(made)?;
            Ok(())
        }
        ModuleItem::Task(source) => {
            let made = task_of(alloc, scopes, source)?;
            found.push(made)?;
            Ok(())
        }
        ModuleItem::GenerateLoop(inner) => add_block(alloc, scopes, found, &inner.body),
        ModuleItem::GenerateIf(inner) => {
            for branch in &inner.branches {
                add_block(alloc, scopes, found, &branch.body)?;
            }
            match &inner.otherwise {
                Some(block) => add_block(alloc, scopes, found, block),
                None => Ok(()),
            }
        }
        ModuleItem::GenerateCase(inner) => {
            for one in &inner.items {
                add_block(alloc, scopes, found, &one.body)?;
            }
            Ok(())
        }
        ModuleItem::GenerateBlock(block) => add_block(alloc, scopes, found, block),
        _ => Ok(()),
    }
}

/// Adds the functions and tasks of a generate block. Fails where memory is refused.
#[cycle(table)]
fn add_block<'t>(
    alloc: Global,
    scopes: &ScopeNames<'t>,
    found: &mut Vec<Routine<'t>>,
    block: &'t GenerateBlock,
) -> Result<(), AllocError>
    ensures { OnOk result (AddsRoutines found.old.items found.new.items (λ x. IsWithinBlock x block.now)) }
{
    for item in &block.items {
        add_routines(alloc, scopes, found, item)?;
    }
    Ok(())
}

/// Adds the functions and tasks of a module. Fails where memory is refused.
fn add_module_routines<'t>(
    alloc: Global,
    scopes: &ScopeNames<'t>,
    found: &mut Vec<Routine<'t>>,
    module: &'t ModuleDeclaration,
) -> Result<(), AllocError>
    ensures { OnOk result (AddsRoutines found.old.items found.new.items (IsWithinModule module.now)) }
{
    for item in &module.items {
        add_routines(alloc, scopes, found, item)?;
    }
    Ok(())
}

/// The functions and tasks of modules, in the order of the text, which is that of their tokens. Fails where memory is refused.
pub fn routines_of(
    alloc: Global,
    modules: &[ModuleDeclaration],
) -> Result<Vec<Routine<'_>>, AllocError>
    ensures { IfOk result (λ found. AddsRoutines [] found.items (IsWithinText modules.now)) }
{
    let scopes = scope_names(alloc, modules)?;
    let mut found = Vec::new(alloc);
    for module in modules {
        add_module_routines(alloc, &scopes, &mut found, module)?;
    }
    Ok(found)
}

/// The function or task that is declared at a token, among some that are in the order of their tokens.
pub fn routine_at<'r, 't>(routines: &'r [Routine<'t>], token: usize) -> Option<&'r Routine<'t>>
    ensures { IfSome result (λ found. (found.now.token ≡ token) × Contains routines.now found.now) }
{
    let number = routines.partition_point(|routine| routine.token < token);
    let found = routines.get(number)?;
    if found.token == token {
        Some(found)
    } else {
        None
    }
}
