//! The functions of a text, by the modules that declare them.

use indexmap::{IndexMap, IndexSet};
use scopes::scope::Reach;
use scopes::tree::ScopeTree;
use std::alloc::{AllocError, Global};
use syntax_tree::modules::{FunctionDeclaration, GenerateBlock, ModuleDeclaration, ModuleItem};

/// The functions of a module.
#[derive(Drop)]
pub(crate) struct ModuleFunctions<'t> {
    /// Those that the module itself declares, by their names.
    pub(crate) declared: IndexMap<&'t [u8], &'t FunctionDeclaration>,
    /// The names of those that its generate blocks declare.
    pub(crate) in_blocks: IndexSet<&'t [u8]>,
}

/// The functions of a text, by the names of the modules.
#[derive(Drop)]
pub(crate) struct FunctionTable<'t> {
    modules: IndexMap<&'t [u8], ModuleFunctions<'t>>,
}

/// Adds the names of the functions that the blocks of a generate construct declare. Fails where memory is refused.
#[cycle(blocks)]
fn add_inner<'t>(item: &'t ModuleItem, found: &mut IndexSet<&'t [u8]>) -> Result<(), AllocError> {
    match item {
        ModuleItem::GenerateLoop(inner) => add_block(&inner.body, found),
        ModuleItem::GenerateIf(inner) => {
            for branch in &inner.branches {
                add_block(&branch.body, found)?;
            }
            match &inner.otherwise {
                Some(block) => add_block(block, found),
                None => Ok(()),
            }
        }
        ModuleItem::GenerateCase(inner) => {
            for one in &inner.items {
                add_block(&one.body, found)?;
            }
            Ok(())
        }
        ModuleItem::GenerateBlock(block) => add_block(block, found),
        _ => Ok(()),
    }
}

/// Adds the names of the functions that a generate block declares. Fails where memory is refused.
#[cycle(blocks)]
fn add_block<'t>(
    block: &'t GenerateBlock,
    found: &mut IndexSet<&'t [u8]>,
) -> Result<(), AllocError> {
    for item in &block.items {
        if let ModuleItem::Function(source) = item {
            let _ = found.insert(source.identifier.name.as_slice())?;
        }
        add_inner(item, found)?;
    }
    Ok(())
}

/// The functions of a module. Fails where memory is refused.
fn functions_of(
    alloc: Global,
    module: &ModuleDeclaration,
) -> Result<ModuleFunctions<'_>, AllocError> {
    let mut found = ModuleFunctions {
        declared: IndexMap::new(alloc),
        in_blocks: IndexSet::new(alloc),
    };
    for item in &module.items {
        if let ModuleItem::Function(source) = item {
            let _ = found
                .declared
                .insert(source.identifier.name.as_slice(), source)?;
        }
        add_inner(item, &mut found.in_blocks)?;
    }
    Ok(found)
}

impl<'t> FunctionTable<'t> {
    /// The functions of modules. Fails where memory is refused.
    pub(crate) fn new(
        alloc: Global,
        modules: &'t [ModuleDeclaration],
    ) -> Result<FunctionTable<'t>, AllocError> {
        let mut found = IndexMap::new(alloc);
        for module in modules {
            let functions = functions_of(alloc, module)?;
            let _ = found.insert(module.identifier.name.as_slice(), functions)?;
        }
        Ok(FunctionTable { modules: found })
    }

    /// The functions of the module of which a scope is an instance.
    pub(crate) fn of_instance(
        &self,
        tree: &ScopeTree,
        scope: usize,
    ) -> Option<&ModuleFunctions<'t>> {
        match &tree.scope(scope)?.instance_of {
            Some(name) => self.modules.get(name.as_slice()),
            None => None,
        }
    }
}

/// The scope of the module's instance in which a scope stands.
pub(crate) fn instance_around(tree: &ScopeTree, scope: usize) -> usize {
    match tree.outwards(Reach::Instance, scope) {
        Some(outer) => instance_around(tree, outer),
        None => scope,
    }
}
