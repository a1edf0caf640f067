//! All that this language lacks still in the modules of a text.

ghost use Rattle.std.specs.Prelude.{◌≡◌, IfOk, map};
ghost use Rattle.whole_designs.specs.Refusals.{AreAtTokens, later_fault};

use crate::later_statements::{add_block_items, add_parameters, add_statement, add_variables};
use design_faults::refused::{LaterForm, PlacedFault, WholeFault, at_token};
use hierarchy::later::{Later, MAX_LATER, later_constructs};
use lexemes::token::VerilogToken;
use std::alloc::{AllocError, Global};
use syntax_tree::modules::{GenerateBlock, ModuleDeclaration, ModuleItem};

/// A construct that isn't supported yet, and its token.
#[derive(Clone, Copy)]
pub(crate) struct LaterPlace {
    pub(crate) token: usize,
    pub(crate) fault: WholeFault,
}

/// Constructs that aren't supported yet, as far as there was memory for them.
#[derive(Drop)]
pub(crate) struct LaterPlaces {
    places: Vec<LaterPlace>,
    /// Whether memory was refused. Then nothing of this is told.
    lacks_memory: bool,
}

impl LaterPlaces {
    /// Adds what is wrong at a token, unless as much is found already as is told.
    fn add_fault(&mut self, token: usize, fault: WholeFault) {
        if self.places.len() < MAX_LATER && self.places.push(LaterPlace { token, fault }).is_err() {
            self.lacks_memory = true;
        }
    }

    /// Adds a form that isn't supported yet.
    pub(crate) fn add(&mut self, token: usize, form: LaterForm) {
        self.add_fault(token, WholeFault::LaterForm(form));
    }

    /// Adds a statement whose last branch stands too deep in others.
    pub(crate) fn add_deep(&mut self, token: usize) {
        self.add_fault(token, WholeFault::DeepBranches);
    }

    /// Adds constructs, however many there are. Fails where memory is refused, now or before.
    fn add_constructs(&mut self, constructs: &[Later]) -> Result<(), AllocError> {
        for later in constructs {
            self.places.push(LaterPlace {
                token: later.token,
                fault: WholeFault::LaterConstruct(later.construct),
            })?;
        }
        if self.lacks_memory {
            return Err(AllocError);
        }
        Ok(())
    }
}

/// Adds what an item has.
#[cycle(later_items)]
fn add_item(found: &mut LaterPlaces, item: &ModuleItem) {
    match item {
        ModuleItem::Variable(source) => add_variables(found, source),
        ModuleItem::Parameter(source) => add_parameters(found, source),
        ModuleItem::Process(source) => add_statement(found, &source.body, 0),
        ModuleItem::Function(source) => {
            add_block_items(found, source.items.as_slice());
            add_statement(found, &source.body, 0);
        }
        ModuleItem::Task(source) => {
            add_block_items(found, source.items.as_slice());
            add_statement(found, &source.body, 0);
        }
        ModuleItem::GenerateLoop(inner) => add_block(found, &inner.body),
        ModuleItem::GenerateIf(inner) => {
            for branch in &inner.branches {
                add_block(found, &branch.body);
            }
            if let Some(block) = &inner.otherwise {
                add_block(found, block);
            }
        }
        ModuleItem::GenerateCase(inner) => {
            for one in &inner.items {
                add_block(found, &one.body);
            }
        }
        ModuleItem::GenerateBlock(block) => add_block(found, block),
        _ => {}
    }
}

/// Adds what a generate block has.
#[cycle(later_items)]
fn add_block(found: &mut LaterPlaces, block: &GenerateBlock) {
    for item in &block.items {
        add_item(found, item);
    }
}

/// Adds what modules have.
fn add_modules(found: &mut LaterPlaces, modules: &[ModuleDeclaration]) {
    for module in modules {
        for source in &module.parameters {
            add_parameters(found, source);
        }
        for item in &module.items {
            add_item(found, item);
        }
    }
}

/// Those of some places that are told: a hundred at most.
fn told_places(places: &[LaterPlace]) -> &[LaterPlace] {
    if places.len() > MAX_LATER {
        places.split_at(MAX_LATER).0
    } else {
        places
    }
}

/// The faults of places, each at its token.
fn faults_at(
    alloc: Global,
    tokens: &[VerilogToken],
    places: &[LaterPlace],
) -> Result<Vec<PlacedFault>, AllocError>
    ensures { IfOk result (λ faults. faults.items ≡ map (later_fault tokens.now) places.now) }
{
    let mut faults = Vec::new(alloc);
    for place in places {
        faults.push(at_token(tokens, place.token, place.fault))?;
    }
    Ok(faults)
}

/// All that isn't supported yet of the modules of a text, in the order of the text, up to a hundred.
pub(crate) fn later_faults(
    alloc: Global,
    tokens: &[VerilogToken],
    modules: &[ModuleDeclaration],
) -> Result<Vec<PlacedFault>, AllocError>
    ensures { IfOk result (λ faults. AreAtTokens tokens.now faults.items) }
{
    let constructs = later_constructs(alloc, modules)?;
    let mut found = LaterPlaces {
        places: Vec::new(alloc),
        lacks_memory: false,
    };
    add_modules(&mut found, modules);
    found.add_constructs(constructs.as_slice())?;
    found.places.sort_by_key(|place| place.token)?;
    faults_at(alloc, tokens, told_places(found.places.as_slice()))
}
