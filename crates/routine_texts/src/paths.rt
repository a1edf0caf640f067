//! The names that stand for scopes in the hierarchical names of a text (12.5).

use std::alloc::{AllocError, Global};
use syntax_tree::declarations::{BlockItem, Declarator, VariableDeclaration};
use syntax_tree::expressions::VerilogExpression;
use syntax_tree::modules::{
    Connection, GateInstance, GenerateBlock, ModuleDeclaration, ModuleInstance, ModuleItem,
};
use syntax_tree::statements::{
    AssignmentTiming, EventControl, VariableAssignment, VerilogStatement,
};

/// The names that stand for scopes.
#[derive(Drop)]
pub struct ScopeNames<'t> {
    names: Vec<&'t [u8]>,
}

impl<'t> ScopeNames<'t> {
    /// Whether a name stands for a scope somewhere.
    pub fn has(&self, name: &[u8]) -> bool {
        for found in &self.names {
            if *found == name {
                return true;
            }
        }
        false
    }

    /// Adds the names of a scope.
    #[cycle(paths)]
    fn add_scope(&mut self, e: &'t VerilogExpression) -> Result<(), AllocError> {
        match e {
            VerilogExpression::Name { name, .. } => {
                self.names.push(name.as_slice())?;
                Ok(())
            }
            VerilogExpression::Member { scope, name, .. } => {
                self.names.push(name.as_slice())?;
                self.add_scope(scope)
            }
            VerilogExpression::Index { base, index, .. } => {
                self.add_scope(base)?;
                self.add(index)
            }
            _ => self.add(e),
        }
    }

    /// Adds those of an expression.
    #[cycle(paths)]
    fn add(&mut self, e: &'t VerilogExpression) -> Result<(), AllocError> {
        match e {
            VerilogExpression::Member { scope, .. } => self.add_scope(scope),
            VerilogExpression::Index { base, index, .. } => {
                self.add(base)?;
                self.add(index)
            }
            VerilogExpression::Part {
                base,
                first,
                second,
                ..
            } => {
                self.add(base)?;
                self.add(first)?;
                self.add(second)
            }
            VerilogExpression::Call {
                function,
                arguments,
                ..
            } => {
                self.add(function)?;
                self.add_each(arguments.as_slice())
            }
            VerilogExpression::SystemCall { arguments, .. } => self.add_each(arguments.as_slice()),
            VerilogExpression::Concatenation { parts, .. } => self.add_each(parts.as_slice()),
            VerilogExpression::Replication { count, parts, .. } => {
                self.add(count)?;
                self.add_each(parts.as_slice())
            }
            VerilogExpression::Unary { operand, .. } => self.add(operand),
            VerilogExpression::Binary { left, right, .. } => {
                self.add(left)?;
                self.add(right)
            }
            VerilogExpression::Conditional {
                condition,
                first,
                second,
                ..
            } => {
                self.add(condition)?;
                self.add(first)?;
                self.add(second)
            }
            _ => Ok(()),
        }
    }

    /// Adds those of expressions.
    #[cycle(paths)]
    fn add_each(&mut self, all: &'t [VerilogExpression]) -> Result<(), AllocError> {
        for e in all {
            self.add(e)?;
        }
        Ok(())
    }

    /// Adds those of an assignment.
    fn add_assignment(&mut self, source: &'t VariableAssignment) -> Result<(), AllocError> {
        self.add(&source.target)?;
        self.add(&source.value)
    }

    /// Adds those of an event control.
    fn add_control(&mut self, control: &'t EventControl) -> Result<(), AllocError> {
        let EventControl::Events(events) = control else {
            return Ok(());
        };
        for event in events {
            self.add(&event.expression)?;
        }
        Ok(())
    }

    /// Adds those of what stands between the value of an assignment and its effect.
    fn add_timing(&mut self, timing: &'t Option<Box<AssignmentTiming>>) -> Result<(), AllocError> {
        let Some(timing) = timing else {
            return Ok(());
        };
        match &**timing {
            AssignmentTiming::Delay(delay) => self.add(delay),
            AssignmentTiming::Event(control) => self.add_control(control),
            AssignmentTiming::Repeat(count, control) => {
                self.add(count)?;
                self.add_control(control)
            }
        }
    }

    /// Adds those of declared names.
    fn add_declarators(&mut self, declarators: &'t [Declarator]) -> Result<(), AllocError> {
        for declarator in declarators {
            if let Some(value) = &declarator.value {
                self.add(value)?;
            }
        }
        Ok(())
    }

    /// Adds those of what a block, a function or a task declares.
    fn add_block_items(&mut self, items: &'t [BlockItem]) -> Result<(), AllocError> {
        for item in items {
            if let BlockItem::Variable(source) = item {
                self.add_variables(source)?;
            }
        }
        Ok(())
    }

    /// Adds those of a declaration of variables.
    fn add_variables(&mut self, source: &'t VariableDeclaration) -> Result<(), AllocError> {
        self.add_declarators(source.declarators.as_slice())
    }

    /// Adds those of a statement without statements in it.
    fn add_simple(&mut self, s: &'t VerilogStatement) -> Result<(), AllocError> {
        match s {
            VerilogStatement::Assignment {
                target,
                timing,
                value,
                ..
            } => {
                self.add(target)?;
                self.add_timing(timing)?;
                self.add(value)
            }
            VerilogStatement::Disable { target, .. } => self.add_scope(target),
            VerilogStatement::Trigger { event, .. } => self.add(event),
            VerilogStatement::TaskCall {
                task,
                arguments,
                ..
            } => {
                self.add(task)?;
                self.add_each(arguments.as_slice())
            }
            VerilogStatement::SystemTaskCall { arguments, .. } => {
                for argument in arguments {
                    if let Some(e) = argument {
                        self.add(e)?;
                    }
                }
                Ok(())
            }
            _ => Ok(()),
        }
    }

    /// Adds those of a statement.
    #[cycle(statements)]
    fn add_statement(&mut self, s: &'t VerilogStatement) -> Result<(), AllocError> {
        match s {
            VerilogStatement::Block { items, body, .. } => {
                self.add_block_items(items.as_slice())?;
                for inner in body {
                    self.add_statement(inner)?;
                }
                Ok(())
            }
            VerilogStatement::Delayed { delay, body, .. } => {
                self.add(delay)?;
                self.add_statement(body)
            }
            VerilogStatement::Awaited { control, body, .. } => {
                self.add_control(control)?;
                self.add_statement(body)
            }
            VerilogStatement::Wait {
                condition,
                body,
                ..
            }
            | VerilogStatement::While {
                condition,
                body,
                ..
            } => {
                self.add(condition)?;
                self.add_statement(body)
            }
            VerilogStatement::If {
                branches,
                otherwise,
                ..
            } => {
                for branch in branches {
                    self.add(&branch.condition)?;
                    self.add_statement(&branch.body)?;
                }
                match otherwise {
                    Some(body) => self.add_statement(body),
                    None => Ok(()),
                }
            }
            VerilogStatement::Case {
                selector,
                items,
                ..
            } => {
                self.add(selector)?;
                for item in items {
                    self.add_each(item.labels.as_slice())?;
                    self.add_statement(&item.body)?;
                }
                Ok(())
            }
            VerilogStatement::For {
                start,
                condition,
                step,
                body,
                ..
            } => {
                self.add_assignment(start)?;
                self.add(condition)?;
                self.add_assignment(step)?;
                self.add_statement(body)
            }
            VerilogStatement::Repeat { count, body, .. } => {
                self.add(count)?;
                self.add_statement(body)
            }
            VerilogStatement::Forever { body, .. } => self.add_statement(body),
            _ => self.add_simple(s),
        }
    }

    /// Adds those of what is given to ports.
    fn add_connections(&mut self, connections: &'t [Connection]) -> Result<(), AllocError> {
        for connection in connections {
            if let Some(value) = &connection.value {
                self.add(value)?;
            }
        }
        Ok(())
    }

    /// Adds those of instances.
    fn add_instances(&mut self, instances: &'t [ModuleInstance]) -> Result<(), AllocError> {
        for instance in instances {
            self.add_connections(instance.connections.as_slice())?;
        }
        Ok(())
    }

    /// Adds those of gates.
    fn add_gates(&mut self, gates: &'t [GateInstance]) -> Result<(), AllocError> {
        for gate in gates {
            self.add_each(gate.terminals.as_slice())?;
        }
        Ok(())
    }

    /// Adds those of assignments.
    fn add_assignments(&mut self, all: &'t [VariableAssignment]) -> Result<(), AllocError> {
        for source in all {
            self.add_assignment(source)?;
        }
        Ok(())
    }

    /// Adds those of an item.
    #[cycle(items)]
    fn add_item(&mut self, item: &'t ModuleItem) -> Result<(), AllocError> {
        match item {
            ModuleItem::Net(source) => self.add_declarators(source.declarators.as_slice()),
            ModuleItem::Variable(source) => self.add_variables(source),
            ModuleItem::ParameterOverride(all) => self.add_assignments(all.as_slice()),
            ModuleItem::ContinuousAssignment(all) => self.add_assignments(all.as_slice()),
            ModuleItem::Gate(source) => self.add_gates(source.instances.as_slice()),
            ModuleItem::Instance(source) => self.add_instances(source.instances.as_slice()),
            ModuleItem::Process(source) => self.add_statement(&source.body),
            ModuleItem::Function(source) => self.add_statement(&source.body),
            ModuleItem::Task(source) => self.add_statement(&source.body),
            ModuleItem::GenerateLoop(inner) => self.add_items(&inner.body),
            ModuleItem::GenerateIf(inner) => {
                for branch in &inner.branches {
                    self.add_items(&branch.body)?;
                }
                match &inner.otherwise {
                    Some(block) => self.add_items(block),
                    None => Ok(()),
                }
            }
            ModuleItem::GenerateCase(inner) => {
                for one in &inner.items {
                    self.add_items(&one.body)?;
                }
                Ok(())
            }
            ModuleItem::GenerateBlock(block) => self.add_items(block),
            _ => Ok(()),
        }
    }

    /// Adds those of a generate block.
    #[cycle(items)]
    fn add_items(&mut self, block: &'t GenerateBlock) -> Result<(), AllocError> {
        for item in &block.items {
            self.add_item(item)?;
        }
        Ok(())
    }
}

/// The names that stand for scopes in the hierarchical names of modules. Fails where memory is refused.
pub fn scope_names(
    alloc: Global,
    modules: &[ModuleDeclaration],
) -> Result<ScopeNames<'_>, AllocError> {
    let mut found = ScopeNames {
        names: Vec::new(alloc),
    };
    for module in modules {
        for item in &module.items {
            found.add_item(item)?;
        }
    }
    Ok(found)
}
