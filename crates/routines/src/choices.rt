//! Choices without calls, which stand for those of a text (9.4, 9.5).

use crate::expansion::{Expansion, StatementSpot, add, inside};
use crate::statements::refuse_call;
use call_nodes::copies::copied_all;
use call_nodes::nodes::block_node;
use routine_texts::calls::{first_of, has_call};
use statement_parts::faults::{Lowered, StatementKind};
use syntax_tree::expressions::VerilogExpression;
use syntax_tree::statements::{CaseForm, CaseItem, ConditionalBranch, VerilogStatement};

impl<'r, 't> Expansion<'r, 't> {
    /// Adds what an `if` stands for: where a later condition has a call the branches from there on stand in an `else` (9.4).
    #[cycle(expansion)]
    pub(crate) fn choice(
        &mut self,
        at: StatementSpot,
        token: usize,
        branches: &[ConditionalBranch],
        otherwise: &Option<Box<VerilogStatement>>,
        out: &mut Vec<VerilogStatement>,
    ) -> Lowered<()> {
        let mut made = Vec::new(self.alloc);
        let mut inner = at;
        for (number, branch) in branches.iter().enumerate() {
            inner = inside(inner, token)?;
            if number > 0 && has_call(&branch.condition) {
                let rest = branches.split_at(number).1;
                let last = self.rest_of_choice(inner, token, rest, otherwise)?;
                return add(
                    out,
                    VerilogStatement::If {
                        token,
                        branches: made,
                        otherwise: Some(last),
                    },
                );
            }
            let condition = self.boxed(at, &branch.condition, out)?;
            let body = self.whole(inner, &branch.body)?;
            let condition = Box::into_inner(condition);
            made.push(ConditionalBranch { condition, body })?;
        }
        let inner = inside(inner, token)?;
        let otherwise = self.last_else(inner, otherwise)?;
        add(
            out,
            VerilogStatement::If {
                token,
                branches: made,
                otherwise,
            },
        )
    }

    /// A block of what later branches of an `if` stand for.
    #[cycle(expansion)]
    fn rest_of_choice(
        &mut self,
        at: StatementSpot,
        token: usize,
        branches: &[ConditionalBranch],
        otherwise: &Option<Box<VerilogStatement>>,
    ) -> Lowered<Box<VerilogStatement>> {
        let mut rest = Vec::new(self.alloc);
        self.choice(at, token, branches, otherwise, &mut rest)?;
        let block = block_node(self.alloc, token, None, rest);
        Ok(Box::new(self.alloc, block)?)
    }

    /// The last `else` of an `if`, if it has one.
    #[cycle(expansion)]
    fn last_else(
        &mut self,
        at: StatementSpot,
        otherwise: &Option<Box<VerilogStatement>>,
    ) -> Lowered<Option<Box<VerilogStatement>>> {
        let Some(last) = otherwise else {
            return Ok(None);
        };
        let made = self.boxed_statement(at, last)?;
        Ok(Some(made))
    }

    /// Adds what a `case` stands for (9.5). Refuses calls in labels.
    #[cycle(expansion)]
    pub(crate) fn selection(
        &mut self,
        at: StatementSpot,
        head: (usize, CaseForm),
        selector: &VerilogExpression,
        items: &[CaseItem],
        out: &mut Vec<VerilogStatement>,
    ) -> Lowered<()> {
        let (token, form) = head;
        let selector = self.boxed(at, selector, out)?;
        let items = self.items(at, token, items)?;
        let selector = Box::into_inner(selector);
        add(
            out,
            VerilogStatement::Case {
                token,
                form,
                selector,
                items,
            },
        )
    }

    /// The items of a `case`.
    #[cycle(expansion)]
    fn items(
        &mut self,
        at: StatementSpot,
        token: usize,
        items: &[CaseItem],
    ) -> Lowered<Vec<CaseItem>> {
        let mut made = Vec::new(self.alloc);
        let mut inner = at;
        for item in items {
            inner = inside(inner, token)?;
            let next = self.item(inner, item)?;
            made.push(next)?;
        }
        Ok(made)
    }

    /// An item of a `case`. Refuses calls in its labels.
    #[cycle(expansion)]
    fn item(&mut self, inner: StatementSpot, item: &CaseItem) -> Lowered<CaseItem> {
        let token = item.token;
        refuse_call(first_of(item.labels.as_slice()), StatementKind::CallInLabel)?;
        let labels = copied_all(self.alloc, item.labels.as_slice())?;
        let body = self.whole(inner, &item.body)?;
        Ok(CaseItem {
            token,
            labels,
            body,
        })
    }
}
