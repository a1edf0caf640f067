//! Expressions whose calls, and those of the time, are taken out of them, before the statement in which they stand.

ghost use Rattle.std.specs.Prelude.{◌≡◌, true, false, IfOk};
ghost use Rattle.syntax_tree.specs.Expressions as source;
ghost use Rattle.syntax_tree.specs.Expressions.{plain_expression_of};

use crate::expansion::{Expansion, StatementSpot, add, inside};
use call_nodes::copies::copied_expression;
use call_nodes::nodes::{block_node, choice_node, unless_node};
use design_scopes::places::{ScopePlace, value_at};
use routine_texts::calls::first_call;
use scopes::scope::copied;
use shaped_trees::constants::Constant;
use statement_parts::faults::Lowered;
use statement_parts::times::is_time_function;
use std::alloc::{AllocError, Global};
use syntax_tree::expressions::{PartForm, VerilogExpression};
use syntax_tree::statements::VerilogStatement;

/// The number of a constant, at its size and sign. Fails where memory is refused.
fn number_node(
    alloc: Global,
    token: usize,
    value: Constant,
) -> Result<VerilogExpression, AllocError>
    ensures { IfOk result (λ made. plain_expression_of made ≡ source.Number token true value.signed false value.digits) }
{
    let digits = Box::new(alloc, value.digits)?;
    Ok(VerilogExpression::Number {
        token,
        sized: true,
        signed: value.signed,
        cut: false,
        digits,
    })
}

impl<'r, 't> Expansion<'r, 't> {
    /// An expression in which the variables of calls stand in the place of these; what they stand for is added to statements that
    /// are done before.
    #[cycle(expansion)]
    pub(crate) fn expression(
        &mut self,
        at: StatementSpot,
        e: &VerilogExpression,
        out: &mut Vec<VerilogStatement>,
    ) -> Lowered<VerilogExpression> {
        let Some(first) = first_call(e) else {
            return Ok(copied_expression(self.alloc, e)?);
        };
        let at = inside(at, first)?;
        match e {
            VerilogExpression::Call {
                token,
                function,
                arguments,
            } => self.function_call(at, *token, function, arguments.as_slice(), out),
            VerilogExpression::Conditional {
                token,
                condition,
                first,
                second,
            } => {
                let condition = self.boxed(at, condition, out)?;
                self.alternatives(at, *token, condition, (&**first, &**second), out)
            }
            VerilogExpression::Index { token, base, index } => Ok(VerilogExpression::Index {
                token: *token,
                base: self.boxed(at, base, out)?,
                index: self.boxed(at, index, out)?,
            }),
            VerilogExpression::Part {
                token,
                form,
                base,
                first,
                second,
            } => Ok(VerilogExpression::Part {
                token: *token,
                form: *form,
                base: self.boxed(at, base, out)?,
                first: match form {
                    PartForm::Constant => self.constant(at, first)?,
                    _ => self.boxed(at, first, out)?,
                },
                second: self.constant(at, second)?,
            }),
            _ => self.operation(at, e, out),
        }
    }

    /// An operation on operands, likewise.
    #[cycle(expansion)]
    fn operation(
        &mut self,
        at: StatementSpot,
        e: &VerilogExpression,
        out: &mut Vec<VerilogStatement>,
    ) -> Lowered<VerilogExpression> {
        match e {
            VerilogExpression::SystemCall {
                token,
                name,
                arguments,
            } => {
                if is_time_function(name.as_slice()) {
                    return self.time(at, *token, name.as_slice(), arguments.as_slice(), out);
                }
                Ok(VerilogExpression::SystemCall {
                    token: *token,
                    name: copied(self.alloc, name.as_slice())?,
                    arguments: self.each(at, arguments.as_slice(), out)?,
                })
            }
            VerilogExpression::Concatenation { token, parts } => Ok(
                VerilogExpression::Concatenation {
                    token: *token,
                    parts: self.each(at, parts.as_slice(), out)?,
                },
            ),
            VerilogExpression::Replication {
                token,
                count,
                parts,
            } => Ok(VerilogExpression::Replication {
                token: *token,
                count: self.constant(at, count)?,
                parts: self.each(at, parts.as_slice(), out)?,
            }),
            VerilogExpression::Unary {
                token,
                operator,
                operand,
            } => Ok(VerilogExpression::Unary {
                token: *token,
                operator: *operator,
                operand: self.boxed(at, operand, out)?,
            }),
            VerilogExpression::Binary {
                token,
                operator,
                left,
                right,
            } => Ok(VerilogExpression::Binary {
                token: *token,
                operator: *operator,
                left: self.boxed(at, left, out)?,
                right: self.boxed(at, right, out)?,
            }),
            _ => Ok(copied_expression(self.alloc, e)?),
        }
    }

    /// The number that a constant expression with calls is worth (10.4.5).
    fn constant_node(
        &mut self,
        at: StatementSpot,
        token: usize,
        e: &VerilogExpression,
    ) -> Lowered<VerilogExpression> {
        let place = self.scopes.design.place(at.scope);
        let calls = self.functions.calls_in(place, token, &[e])?;
        let known = ScopePlace {
            calls: calls.as_slice(),
            ..place
        };
        let value = value_at(self.alloc, &known, e)?;
        Ok(number_node(self.alloc, token, value)?)
    }

    /// A constant expression in a box, with the number in its place that it is worth, where it has calls (10.4.5).
    fn constant(
        &mut self,
        at: StatementSpot,
        e: &VerilogExpression,
    ) -> Lowered<Box<VerilogExpression>> {
        let made = match first_call(e) {
            Some(token) => self.constant_node(at, token, e)?,
            None => copied_expression(self.alloc, e)?,
        };
        Ok(Box::new(self.alloc, made)?)
    }

    /// An expression in a box, likewise.
    #[cycle(expansion)]
    pub(crate) fn boxed(
        &mut self,
        at: StatementSpot,
        e: &VerilogExpression,
        out: &mut Vec<VerilogStatement>,
    ) -> Lowered<Box<VerilogExpression>> {
        let made = self.expression(at, e, out)?;
        Ok(Box::new(self.alloc, made)?)
    }

    /// Expressions in their order, likewise.
    #[cycle(expansion)]
    pub(crate) fn each(
        &mut self,
        at: StatementSpot,
        all: &[VerilogExpression],
        out: &mut Vec<VerilogStatement>,
    ) -> Lowered<Vec<VerilogExpression>> {
        let mut made = Vec::new(self.alloc);
        for e in all {
            let next = self.expression(at, e, out)?;
            made.push(next)?;
        }
        Ok(made)
    }

    /// A choice between two expressions: what an expression calls that isn't chosen isn't done (5.1.13).
    #[cycle(expansion)]
    fn alternatives(
        &mut self,
        at: StatementSpot,
        token: usize,
        condition: Box<VerilogExpression>,
        parts: (&VerilogExpression, &VerilogExpression),
        out: &mut Vec<VerilogStatement>,
    ) -> Lowered<VerilogExpression> {
        let (first, second) = parts;
        let first = self.alternative(at, token, (&*condition, 1), first, out)?;
        let second = self.alternative(at, token, (&*condition, 0), second, out)?;
        Ok(VerilogExpression::Conditional {
            token,
            condition,
            first,
            second,
        })
    }

    /// One of two expressions, with what it calls done unless the denied condition has a digit. In a `$strobe` the condition isn't known
    /// yet, and only the time can be asked for, which is asked for anyway.
    #[cycle(expansion)]
    fn alternative(
        &mut self,
        at: StatementSpot,
        token: usize,
        unless: (&VerilogExpression, u64),
        e: &VerilogExpression,
        out: &mut Vec<VerilogStatement>,
    ) -> Lowered<Box<VerilogExpression>> {
        if at.in_strobe {
            return self.boxed(at, e, out);
        }
        let mut before = Vec::new(self.alloc);
        let made = self.boxed(at, e, &mut before)?;
        self.guard(token, unless, before, out)?;
        Ok(made)
    }

    /// Adds statements that are done unless a denied condition has a digit, if there are any.
    fn guard(
        &self,
        token: usize,
        unless: (&VerilogExpression, u64),
        before: Vec<VerilogStatement>,
        out: &mut Vec<VerilogStatement>,
    ) -> Lowered<()> {
        if before.is_empty() {
            return Ok(());
        }
        let (condition, digit) = unless;
        let asked = copied_expression(self.alloc, condition)?;
        let asked = unless_node(self.alloc, token, asked, digit)?;
        let body = block_node(self.alloc, token, None, before);
        add(out, choice_node(self.alloc, token, asked, body)?)
    }
}
