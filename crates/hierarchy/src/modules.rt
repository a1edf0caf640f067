//! Modules by their names, and the top modules (12.1.1).

use indexmap::{IndexMap, IndexSet};
use std::alloc::{AllocError, Global};
use syntax_tree::modules::{GenerateBlock, ModuleDeclaration, ModuleItem};

/// The modules of a text, by their names. Of several with one name the first stands.
#[derive(Drop)]
pub struct ModuleTable<'t> {
    modules: &'t [ModuleDeclaration],
    numbers: IndexMap<&'t [u8], usize>,
}

impl<'t> ModuleTable<'t> {
    /// The modules of a text. Fails where memory is refused.
    pub fn new(
        alloc: Global,
        modules: &'t [ModuleDeclaration],
    ) -> Result<ModuleTable<'t>, AllocError> {
        let mut numbers = IndexMap::new(alloc);
        let mut number = modules.len();
        while number > 0 {
            number -= 1;
            numbers.insert(modules[number].identifier.name.as_slice(), number)?;
        }
        Ok(ModuleTable { modules, numbers })
    }

    /// The module of a name.
    pub fn find(&self, name: &[u8]) -> Option<&'t ModuleDeclaration> {
        let number = self.numbers.get(name).copied()?;
        self.modules.get(number)
    }
}

/// The names of modules of which some module makes instances, as far as there was memory for them.
#[derive(Drop)]
struct UsedNames<'t> {
    names: IndexSet<&'t [u8]>,
    /// Whether memory was refused. Then nothing of this is told.
    lacks_memory: bool,
}

/// Adds the name of a module.
fn add_use<'t>(used: &mut UsedNames<'t>, name: &'t [u8]) {
    if used.names.insert(name).is_err() {
        used.lacks_memory = true;
    }
}

/// Adds the name of each module of which an item makes instances.
#[cycle(uses)]
fn add_uses<'t>(item: &'t ModuleItem, used: &mut UsedNames<'t>) {
    match item {
        ModuleItem::Instance(found) => add_use(used, found.module.name.as_slice()),
        ModuleItem::GenerateLoop(found) => add_block_uses(&found.body, used),
        ModuleItem::GenerateIf(found) => {
            for branch in &found.branches {
                add_block_uses(&branch.body, used);
            }
            if let Some(block) = &found.otherwise {
                add_block_uses(block, used);
            }
        }
        ModuleItem::GenerateCase(found) => {
            for one in &found.items {
                add_block_uses(&one.body, used);
            }
        }
        ModuleItem::GenerateBlock(block) => add_block_uses(block, used),
        _ => {}
    }
}

/// Adds the names of the modules of which a generate block makes instances.
#[cycle(uses)]
fn add_block_uses<'t>(block: &'t GenerateBlock, used: &mut UsedNames<'t>) {
    for item in &block.items {
        add_uses(item, used);
    }
}

/// The names of the modules of which some module makes instances. Fails where memory is refused.
fn used_modules(
    alloc: Global,
    modules: &[ModuleDeclaration],
) -> Result<IndexSet<&[u8]>, AllocError> {
    let mut used = UsedNames {
        names: IndexSet::new(alloc),
        lacks_memory: false,
    };
    for module in modules {
        for item in &module.items {
            add_uses(item, &mut used);
        }
    }
    let UsedNames {
        names,
        lacks_memory,
    } = used;
    if lacks_memory {
        return Err(AllocError);
    }
    Ok(names)
}

/// The numbers of the top modules, by the names of the modules of which some module makes instances. Fails where memory is
/// refused.
fn tops_among(
    alloc: Global,
    modules: &[ModuleDeclaration],
    used: &IndexSet<&[u8]>,
    name: Option<&[u8]>,
) -> Result<Vec<usize>, AllocError> {
    let mut found = Vec::new(alloc);
    for (number, module) in modules.iter().enumerate() {
        if is_top(module, used, name) {
            found.push(number)?;
        }
    }
    Ok(found)
}

/// The numbers of the top modules: all of which no module makes instances, in the order of the text, or the one of a name. Fails
/// where memory is refused.
pub fn top_modules(
    alloc: Global,
    modules: &[ModuleDeclaration],
    name: Option<&[u8]>,
) -> Result<Vec<usize>, AllocError> {
    let used = used_modules(alloc, modules)?;
    tops_among(alloc, modules, &used, name)
}

/// Whether a module is a top module: by its name, where one is asked for, and else because none uses it.
fn is_top(module: &ModuleDeclaration, used: &IndexSet<&[u8]>, name: Option<&[u8]>) -> bool {
    let own = module.identifier.name.as_slice();
    match name {
        Some(name) => own == name,
        None => !used.contains(own),
    }
}
