//! What this language lacks still, by its name and place.

use std::alloc::{AllocError, Global};
use syntax_tree::declarations::PortDeclaration;
use syntax_tree::modules::{GenerateBlock, ModuleDeclaration, ModuleItem, ModulePorts, Port};
use syntax_tree::statements::VariableAssignment;

/// The most constructs that are told of one text.
pub const MAX_LATER: usize = 100;

/// A construct that isn't supported yet.
#[derive(Clone, Copy)]
pub enum LaterConstruct {
    /// A net (4.6).
    Net,
    /// `assign` (6.1).
    ContinuousAssignment,
    /// A gate (7.1).
    Gate,
    /// A port of a module (12.3).
    Port,
}

/// A construct that isn't supported yet, and its token.
#[derive(Clone, Copy)]
pub struct Later {
    pub token: usize,
    pub construct: LaterConstruct,
}

/// What is found of a text, as far as there was memory for it.
#[derive(Drop)]
struct FoundLater {
    places: Vec<Later>,
    /// Whether memory was refused. Then nothing of this is told.
    lacks_memory: bool,
}

/// Adds a construct, unless as many are told already as may be.
fn add(found: &mut FoundLater, token: usize, construct: LaterConstruct) {
    if found.places.len() < MAX_LATER && found.places.push(Later { token, construct }).is_err() {
        found.lacks_memory = true;
    }
}

/// Adds the ports of a list.
fn add_listed(found: &mut FoundLater, ports: &[Port]) {
    for port in ports {
        add(found, port.token, LaterConstruct::Port);
    }
}

/// Adds the ports of declarations.
fn add_declared(found: &mut FoundLater, ports: &[PortDeclaration]) {
    for port in ports {
        add(found, port.token, LaterConstruct::Port);
    }
}

/// Adds continuous assignments.
fn add_assignments(found: &mut FoundLater, assignments: &[VariableAssignment]) {
    for assignment in assignments {
        add(
            found,
            assignment.token,
            LaterConstruct::ContinuousAssignment,
        );
    }
}

/// Adds what an item has.
#[cycle(later)]
fn add_item(found: &mut FoundLater, item: &ModuleItem) {
    match item {
        ModuleItem::Port(port) => add(found, port.token, LaterConstruct::Port),
        ModuleItem::Net(net) => add(found, net.token, LaterConstruct::Net),
        ModuleItem::ContinuousAssignment(assignments) => {
            add_assignments(found, assignments.as_slice());
        }
        ModuleItem::Gate(gate) => add(found, gate.token, LaterConstruct::Gate),
        ModuleItem::GenerateLoop(inner) => add_block(found, &inner.body),
        ModuleItem::GenerateIf(inner) => {
            for branch in &inner.branches {
                add_block(found, &branch.body);
            }
            if let Some(block) = &inner.otherwise {
                add_block(found, block);
            }
        }
        ModuleItem::GenerateCase(inner) => {
            for one in &inner.items {
                add_block(found, &one.body);
            }
        }
        ModuleItem::GenerateBlock(block) => add_block(found, block),
        _ => {}
    }
}

/// Adds what a generate block has.
#[cycle(later)]
fn add_block(found: &mut FoundLater, block: &GenerateBlock) {
    for item in &block.items {
        add_item(found, item);
    }
}

/// Adds what a module has: its ports, and then its items.
fn add_module(found: &mut FoundLater, module: &ModuleDeclaration) {
    match &module.ports {
        ModulePorts::Listed(ports) => add_listed(found, ports.as_slice()),
        ModulePorts::Declared(ports) => add_declared(found, ports.as_slice()),
    }
    for item in &module.items {
        add_item(found, item);
    }
}

/// All that isn't supported yet of a text's modules, in its order, up to a hundred. Fails where memory is refused.
pub fn later_constructs(
    alloc: Global,
    modules: &[ModuleDeclaration],
) -> Result<Vec<Later>, AllocError> {
    let mut found = FoundLater {
        places: Vec::new(alloc),
        lacks_memory: false,
    };
    for module in modules {
        add_module(&mut found, module);
    }
    let FoundLater {
        places,
        lacks_memory,
    } = found;
    if lacks_memory {
        return Err(AllocError);
    }
    Ok(places)
}
