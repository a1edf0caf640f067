//! Functions and tasks (10).

use crate::elaboration::Elaboration;
use design_scopes::faults::DesignMade;
use design_scopes::scoped::label_of;
use syntax_tree::modules::{FunctionDeclaration, TaskDeclaration};

impl Elaboration<'_> {
    /// Opens the scope of a function, and declares in it the variable of its name, which holds its value (10.4.2), its arguments,
    /// what it declares besides, and its named blocks.
    pub fn open_function(&mut self, around: usize, source: &FunctionDeclaration) -> DesignMade<()> {
        let label = label_of(&source.identifier);
        let scope = self.design.open(around, label, None)?;
        self.design.add_routine(scope, source.token)?;
        self.prepare_range(scope, &source.result.value_type.range)?;
        let found = self
            .design
            .variable_type(scope, source.result.kind, &source.result.value_type)?;
        self.design
            .declare_variable(scope, label, found.signed, found.range)?;
        for argument in &source.arguments {
            self.declare_arguments(scope, argument)?;
        }
        self.declare_block_items(scope, source.items.as_slice())?;
        self.open_blocks(scope, &source.body)
    }

    /// Opens the scope of a task, and declares in it its arguments, what it declares besides, and its named blocks.
    pub fn open_task(&mut self, around: usize, source: &TaskDeclaration) -> DesignMade<()> {
        let scope = self
            .design
            .open(around, label_of(&source.identifier), None)?;
        self.design.add_routine(scope, source.token)?;
        for argument in &source.arguments {
            self.declare_arguments(scope, argument)?;
        }
        self.declare_block_items(scope, source.items.as_slice())?;
        self.open_blocks(scope, &source.body)
    }
}
