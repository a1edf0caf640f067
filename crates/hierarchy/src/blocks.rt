//! Named blocks of statements, and what blocks declare (9.8.3).

use crate::elaboration::Elaboration;
use design_scopes::faults::DesignMade;
use design_scopes::scoped::label_of;
use syntax_tree::declarations::BlockItem;
use syntax_tree::expressions::Identifier;
use syntax_tree::statements::{ConditionalBranch, VerilogStatement};

impl Elaboration<'_> {
    /// Declares what a block, a function or a task declares.
    pub fn declare_block_items(&mut self, scope: usize, items: &[BlockItem]) -> DesignMade<()> {
        for item in items {
            match item {
                BlockItem::Variable(source) => self.declare_variables(scope, source)?,
                BlockItem::Event(source) => self.design.declare_events(scope, source)?,
                BlockItem::Parameter(source) => self.declare_parameters(scope, source)?,
            }
        }
        Ok(())
    }

    /// Opens the scopes of the named blocks in a statement.
    #[cycle(blocks)]
    pub fn open_blocks(&mut self, scope: usize, s: &VerilogStatement) -> DesignMade<()> {
        match s {
            VerilogStatement::Block {
                name,
                items,
                body,
                ..
            } => {
                let inner = self.block_scope(scope, name, items.as_slice())?;
                self.open_each(inner, body.as_slice())
            }
            VerilogStatement::Delayed { body, .. } => self.open_blocks(scope, body),
            VerilogStatement::Awaited { body, .. } => self.open_blocks(scope, body),
            VerilogStatement::Wait { body, .. } => self.open_blocks(scope, body),
            VerilogStatement::If {
                branches,
                otherwise,
                ..
            } => {
                self.open_branches(scope, branches.as_slice())?;
                match otherwise {
                    Some(body) => self.open_blocks(scope, body),
                    None => Ok(()),
                }
            }
            VerilogStatement::Case { items, .. } => {
                for item in items {
                    self.open_blocks(scope, &item.body)?;
                }
                Ok(())
            }
            VerilogStatement::For { body, .. } => self.open_blocks(scope, body),
            VerilogStatement::Repeat { body, .. } => self.open_blocks(scope, body),
            VerilogStatement::While { body, .. } => self.open_blocks(scope, body),
            VerilogStatement::Forever { body, .. } => self.open_blocks(scope, body),
            _ => Ok(()),
        }
    }

    /// Opens the scopes of the named blocks in the branches of an `if`.
    #[cycle(blocks)]
    fn open_branches(&mut self, scope: usize, branches: &[ConditionalBranch]) -> DesignMade<()> {
        for branch in branches {
            self.open_blocks(scope, &branch.body)?;
        }
        Ok(())
    }

    /// Opens the scopes of the named blocks in statements.
    #[cycle(blocks)]
    fn open_each(&mut self, scope: usize, body: &[VerilogStatement]) -> DesignMade<()> {
        for s in body {
            self.open_blocks(scope, s)?;
        }
        Ok(())
    }

    /// The scope of what stands in a block: one of its own, with what the block declares, where it has a name.
    fn block_scope(
        &mut self,
        scope: usize,
        name: &Option<Identifier>,
        items: &[BlockItem],
    ) -> DesignMade<usize> {
        let Some(name) = name else {
            return Ok(scope);
        };
        let inner = self.design.open(scope, label_of(name), None)?;
        self.declare_block_items(inner, items)?;
        Ok(inner)
    }
}
