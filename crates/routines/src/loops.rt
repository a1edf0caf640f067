//! Loops without calls, which stand for those of a text (9.6).

ghost use Rattle.std.specs.Prelude.{◌≡◌, ◌+◌, IfOk};

use crate::expansion::{Expansion, StatementSpot, add, inside};
use call_nodes::copies::copied_expression;
use call_nodes::nodes::{alternative_node, assignment_node, block_node, digit_node, name_node};
use routine_texts::calls::{assignment_calls, has_call};
use statement_parts::faults::Lowered;
use std::alloc::Global;
use syntax_tree::expressions::VerilogExpression;
use syntax_tree::statements::{VariableAssignment, VerilogStatement};

/// The room of what stands in a loop whose condition, or whose step, has a call.
fn inside_loop(at: StatementSpot, token: usize) -> Lowered<StatementSpot>
    ensures { IfOk result (λ inner. inner.room + 3 ≡ at.room) }
{
    let block = inside(at, token)?;
    let choice = inside(block, token)?;
    inside(choice, token)
}

/// A copy of an assignment, in a box. Fails where memory is refused.
fn copied_assignment(
    alloc: Global,
    source: &VariableAssignment,
) -> Lowered<Box<VariableAssignment>> {
    let target = copied_expression(alloc, &source.target)?;
    let value = copied_expression(alloc, &source.value)?;
    let made = VariableAssignment {
        token: source.token,
        target,
        value,
    };
    Ok(Box::new(alloc, made)?)
}

/// The assignment of a digit to a variable. Fails where memory is refused.
fn flag_node(alloc: Global, token: usize, flag: &[u8], digit: u64) -> Lowered<VerilogStatement> {
    let value = digit_node(alloc, token, digit)?;
    let target = name_node(alloc, token, flag)?;
    Ok(assignment_node(token, target, value))
}

/// Adds the choice of a turn: statements where a condition holds, and else the end of the loop.
fn add_turn(
    alloc: Global,
    flag: (usize, &[u8]),
    condition: Box<VerilogExpression>,
    made: Vec<VerilogStatement>,
    turn: &mut Vec<VerilogStatement>,
) -> Lowered<()> {
    let (token, flag) = flag;
    let ends = flag_node(alloc, token, flag, 0)?;
    let made = block_node(alloc, token, None, made);
    let condition = Box::into_inner(condition);
    add(turn, alternative_node(alloc, token, condition, made, ends)?)
}

/// A loop while a variable is 1.
fn flag_loop(
    alloc: Global,
    token: usize,
    flag: &[u8],
    turn: Vec<VerilogStatement>,
) -> Lowered<VerilogStatement> {
    let turn = block_node(alloc, token, None, turn);
    let body = Box::new(alloc, turn)?;
    let condition = name_node(alloc, token, flag)?;
    Ok(VerilogStatement::While {
        token,
        condition,
        body,
    })
}

impl<'r, 't> Expansion<'r, 't> {
    /// Adds what a loop stands for, or a statement that has no call.
    #[cycle(expansion)]
    pub(crate) fn turning(
        &mut self,
        at: StatementSpot,
        s: &VerilogStatement,
        out: &mut Vec<VerilogStatement>,
    ) -> Lowered<()> {
        match s {
            VerilogStatement::For {
                token,
                start,
                condition,
                step,
                body,
            } => {
                if has_call(condition) || assignment_calls(step) {
                    return self.turning_for(at, *token, start, (condition, step, body), out);
                }
                self.plain_for(at, *token, start, (condition, step, body), out)
            }
            VerilogStatement::Repeat { token, count, body } => {
                let inner = inside(at, *token)?;
                let token = *token;
                let count = self.boxed(at, count, out)?;
                let body = self.boxed_statement(inner, body)?;
                let count = Box::into_inner(count);
                add(out, VerilogStatement::Repeat { token, count, body })
            }
            VerilogStatement::While {
                token,
                condition,
                body,
            } => self.turning_while(at, *token, condition, body, out),
            VerilogStatement::Forever { token, body } => {
                let inner = inside(at, *token)?;
                let token = *token;
                let body = self.boxed_statement(inner, body)?;
                add(out, VerilogStatement::Forever { token, body })
            }
            _ => self.last(at, s, out),
        }
    }

    /// Adds a `for` whose condition and step have no calls (9.6).
    #[cycle(expansion)]
    fn plain_for(
        &mut self,
        at: StatementSpot,
        token: usize,
        start: &VariableAssignment,
        parts: (&VerilogExpression, &VariableAssignment, &VerilogStatement),
        out: &mut Vec<VerilogStatement>,
    ) -> Lowered<()> {
        let (condition, step, body) = parts;
        let inner = inside(at, token)?;
        let start = self.head(at, start, out)?;
        let start = Box::new(self.alloc, start)?;
        let step = copied_assignment(self.alloc, step)?;
        let body = self.boxed_statement(inner, body)?;
        let condition = copied_expression(self.alloc, condition)?;
        add(
            out,
            VerilogStatement::For {
                token,
                start,
                condition,
                step,
                body,
            },
        )
    }

    /// Adds what a `for` stands for whose condition or step has a call.
    #[cycle(expansion)]
    fn turning_for(
        &mut self,
        at: StatementSpot,
        token: usize,
        start: &VariableAssignment,
        parts: (&VerilogExpression, &VariableAssignment, &VerilogStatement),
        out: &mut Vec<VerilogStatement>,
    ) -> Lowered<()> {
        let (condition, step, body) = parts;
        let inner = inside_loop(at, token)?;
        let start = self.head(at, start, out)?;
        add(out, assignment_node(start.token, start.target, start.value))?;
        let made = self.turn_of(inner, body, step)?;
        self.looped(at, token, condition, made, out)
    }

    /// What a turn of a `for` does: its statement, and its step.
    #[cycle(expansion)]
    fn turn_of(
        &mut self,
        inner: StatementSpot,
        body: &VerilogStatement,
        step: &VariableAssignment,
    ) -> Lowered<Vec<VerilogStatement>> {
        let mut made = Vec::new(self.alloc);
        self.statement(inner, body, &mut made)?;
        let next = self.head(inner, step, &mut made)?;
        add(
            &mut made,
            assignment_node(next.token, next.target, next.value),
        )?;
        Ok(made)
    }

    /// Adds what a `while` stands for (9.6).
    #[cycle(expansion)]
    fn turning_while(
        &mut self,
        at: StatementSpot,
        token: usize,
        condition: &VerilogExpression,
        body: &VerilogStatement,
        out: &mut Vec<VerilogStatement>,
    ) -> Lowered<()> {
        if has_call(condition) {
            let inner = inside_loop(at, token)?;
            let mut made = Vec::new(self.alloc);
            self.statement(inner, body, &mut made)?;
            return self.looped(at, token, condition, made, out);
        }
        let inner = inside(at, token)?;
        let body = self.boxed_statement(inner, body)?;
        let condition = copied_expression(self.alloc, condition)?;
        add(
            out,
            VerilogStatement::While {
                token,
                condition,
                body,
            },
        )
    }

    /// An assignment in the head of a `for`; what its calls stand for is added before it.
    #[cycle(expansion)]
    fn head(
        &mut self,
        at: StatementSpot,
        source: &VariableAssignment,
        out: &mut Vec<VerilogStatement>,
    ) -> Lowered<VariableAssignment> {
        let token = source.token;
        let target = self.boxed(at, &source.target, out)?;
        let value = self.expression(at, &source.value, out)?;
        Ok(VariableAssignment {
            token,
            target: Box::into_inner(target),
            value,
        })
    }

    /// Adds a loop whose condition, or whose step, has a call: `w = 1; while (w) begin .. if (condition) made else w = 0; end`, with a
    /// variable w of its own.
    #[cycle(expansion)]
    fn looped(
        &mut self,
        at: StatementSpot,
        token: usize,
        condition: &VerilogExpression,
        made: Vec<VerilogStatement>,
        out: &mut Vec<VerilogStatement>,
    ) -> Lowered<()> {
        let flag = self.scopes.declare_own(at.scope, token, b"while", None)?;
        add(out, flag_node(self.alloc, token, flag.as_slice(), 1)?)?;
        let mut turn = Vec::new(self.alloc);
        let condition = self.boxed(at, condition, &mut turn)?;
        add_turn(
            self.alloc,
            (token, flag.as_slice()),
            condition,
            made,
            &mut turn,
        )?;
        add(out, flag_loop(self.alloc, token, flag.as_slice(), turn)?)
    }
}
