//! Statements without calls, which stand for those of a text.

ghost use Rattle.std.specs.Prelude.{◌≡◌, ◌+◌, IfOk};

use crate::expansion::{Expansion, StatementSpot, add, inside};
use call_nodes::copies::copied_expression;
use call_nodes::nodes::block_node;
use routine_texts::calls::{first_argument_call, first_call};
use scopes::scope::copied;
use statement_parts::faults::{Lowered, StatementKind, fault};
use statement_parts::place::Around;
use statement_parts::tasks::is_dump_task;
use statement_parts::times::is_time;
use std::alloc::Global;
use syntax_tree::expressions::{Identifier, VerilogExpression};
use syntax_tree::statements::{AssignmentForm, BlockForm, VerilogStatement};

/// Refuses a statement that a function may not have (10.4.4).
fn refuse_in_function(at: StatementSpot, token: usize) -> Lowered<()> {
    if at.in_function {
        return fault(token, StatementKind::InFunction);
    }
    Ok(())
}

/// Refuses a call, if there is one.
pub(crate) fn refuse_call(found: Option<usize>, kind: StatementKind) -> Lowered<()> {
    match found {
        Some(token) => fault(token, kind),
        None => Ok(()),
    }
}

/// The one of some statements, or a block of them.
fn one_of(alloc: Global, mut all: Vec<VerilogStatement>) -> VerilogStatement {
    if all.len() == 1 {
        if let Some(only) = all.pop() {
            return only;
        }
    }
    block_node(alloc, 0, None, all)
}

/// A copy of the name of a block, if it has one. Fails where memory is refused.
fn copied_label(alloc: Global, name: &Option<Identifier>) -> Lowered<Option<Identifier>> {
    match name {
        Some(found) => {
            let name = copied(alloc, found.name.as_slice())?;
            Ok(Some(Identifier {
                token: found.token,
                name,
            }))
        }
        None => Ok(None),
    }
}

/// Whether an assignment is done later than where it stands.
fn is_later(form: AssignmentForm, is_timed: bool) -> bool {
    is_timed || form != AssignmentForm::Blocking
}

/// Refuses calls in a `$monitor`, whose arguments are read whenever they change (17.1.3).
fn refuse_monitor(name: &[u8], arguments: &[Option<VerilogExpression>]) -> Lowered<()> {
    if name.starts_with(b"$monitor") {
        return refuse_call(first_argument_call(arguments), StatementKind::CallInStrobe);
    }
    Ok(())
}

/// The arguments of a system task that are asked for: none of one that writes waves (18.1).
fn arguments_of<'a>(
    name: &[u8],
    arguments: &'a [Option<VerilogExpression>],
) -> &'a [Option<VerilogExpression>] {
    if is_dump_task(name) {
        return arguments.split_at(0).0;
    }
    arguments
}

/// Where the arguments of a system task stand: those of a `$strobe` are read later (17.1.2).
fn in_task(at: StatementSpot, name: &[u8]) -> StatementSpot
    ensures { result.room ≡ at.room }
{
    StatementSpot {
        in_strobe: name.starts_with(b"$strobe"),
        ..at
    }
}

impl<'r, 't> Expansion<'r, 't> {
    /// One statement that does what a statement of the text does.
    #[cycle(expansion)]
    pub(crate) fn whole(
        &mut self,
        at: StatementSpot,
        s: &VerilogStatement,
    ) -> Lowered<VerilogStatement> {
        let mut made = Vec::new(self.alloc);
        self.statement(at, s, &mut made)?;
        Ok(one_of(self.alloc, made))
    }

    /// One statement in a box that does what a statement of the text does.
    #[cycle(expansion)]
    pub(crate) fn boxed_statement(
        &mut self,
        at: StatementSpot,
        s: &VerilogStatement,
    ) -> Lowered<Box<VerilogStatement>> {
        let made = self.whole(at, s)?;
        Ok(Box::new(self.alloc, made)?)
    }

    /// Adds what a statement of the text stands for.
    #[cycle(expansion)]
    pub(crate) fn statement(
        &mut self,
        at: StatementSpot,
        s: &VerilogStatement,
        out: &mut Vec<VerilogStatement>,
    ) -> Lowered<()> {
        match s {
            VerilogStatement::Block {
                token,
                form,
                name,
                body,
                ..
            } => self.block(at, (*token, *form), name, body.as_slice(), out),
            VerilogStatement::If {
                token,
                branches,
                otherwise,
            } => self.choice(at, *token, branches.as_slice(), otherwise, out),
            VerilogStatement::Case {
                token,
                form,
                selector,
                items,
            } => self.selection(at, (*token, *form), selector, items.as_slice(), out),
            VerilogStatement::Assignment { .. } => self.simple(at, s, out),
            VerilogStatement::TaskCall { .. } => self.simple(at, s, out),
            VerilogStatement::SystemTaskCall { .. } => self.simple(at, s, out),
            VerilogStatement::Delayed { .. } => self.waiting(at, s, out),
            VerilogStatement::Awaited { .. } => self.waiting(at, s, out),
            VerilogStatement::Wait { .. } => self.waiting(at, s, out),
            _ => self.turning(at, s, out),
        }
    }

    /// Adds what a statement stands for that waits before another one (9.7).
    #[cycle(expansion)]
    fn waiting(
        &mut self,
        at: StatementSpot,
        s: &VerilogStatement,
        out: &mut Vec<VerilogStatement>,
    ) -> Lowered<()> {
        match s {
            VerilogStatement::Delayed { token, delay, body } => {
                refuse_in_function(at, *token)?;
                let inner = inside(at, *token)?;
                let token = *token;
                let delay = self.delay(at, token, delay, out)?;
                let body = self.boxed_statement(inner, body)?;
                let delay = Box::into_inner(delay);
                add(out, VerilogStatement::Delayed { token, delay, body })
            }
            VerilogStatement::Awaited {
                token,
                control,
                body,
            } => {
                refuse_in_function(at, *token)?;
                let inner = inside(at, *token)?;
                let token = *token;
                let control = self.control(at, token, control, body)?;
                let body = self.boxed_statement(inner, body)?;
                add(
                    out,
                    VerilogStatement::Awaited {
                        token,
                        control,
                        body,
                    },
                )
            }
            VerilogStatement::Wait {
                token,
                condition,
                body,
            } => {
                refuse_in_function(at, *token)?;
                refuse_call(first_call(condition), StatementKind::CallInWait)?;
                let inner = inside(at, *token)?;
                let token = *token;
                let body = self.boxed_statement(inner, body)?;
                let condition = copied_expression(self.alloc, condition)?;
                add(
                    out,
                    VerilogStatement::Wait {
                        token,
                        condition,
                        body,
                    },
                )
            }
            _ => fault(0, StatementKind::Refused),
        }
    }

    /// Adds what an assignment, or the call of a task or of a system task, stands for.
    #[cycle(expansion)]
    fn simple(
        &mut self,
        at: StatementSpot,
        s: &VerilogStatement,
        out: &mut Vec<VerilogStatement>,
    ) -> Lowered<()> {
        match s {
            VerilogStatement::Assignment {
                token,
                form,
                target,
                timing,
                value,
            } => {
                let (token, form) = (*token, *form);
                let later = is_later(form, timing.is_some());
                if later {
                    refuse_in_function(at, token)?;
                }
                let is_now = is_time(value) && !later;
                if is_now {
                    self.refuse_scaled(token)?;
                }
                let target = self.boxed(at, target, out)?;
                let timing = self.timing(at, token, timing, out)?;
                let value = if is_now {
                    copied_expression(self.alloc, value)?
                } else {
                    self.expression(at, value, out)?
                };
                let target = Box::into_inner(target);
                add(
                    out,
                    VerilogStatement::Assignment {
                        token,
                        form,
                        target,
                        timing,
                        value,
                    },
                )
            }
            VerilogStatement::TaskCall {
                token,
                task,
                arguments,
            } => {
                refuse_in_function(at, *token)?;
                self.task_call(at, *token, task, arguments.as_slice(), out)
            }
            VerilogStatement::SystemTaskCall {
                token,
                name,
                arguments,
            } => self.system_task(at, *token, name.as_slice(), arguments.as_slice(), out),
            _ => fault(0, StatementKind::Refused),
        }
    }

    /// Adds a statement that has no call.
    pub(crate) fn last(
        &self,
        at: StatementSpot,
        s: &VerilogStatement,
        out: &mut Vec<VerilogStatement>,
    ) -> Lowered<()> {
        match s {
            VerilogStatement::Empty { token } => {
                add(out, VerilogStatement::Empty { token: *token })
            }
            VerilogStatement::Trigger { token, event } => {
                refuse_in_function(at, *token)?;
                let token = *token;
                let event = copied_expression(self.alloc, event)?;
                add(out, VerilogStatement::Trigger { token, event })
            }
            VerilogStatement::Disable { token, target } => {
                let token = *token;
                let target = copied_expression(self.alloc, target)?;
                add(out, VerilogStatement::Disable { token, target })
            }
            VerilogStatement::Refused { token } => {
                add(out, VerilogStatement::Refused { token: *token })
            }
            _ => fault(0, StatementKind::Refused),
        }
    }

    /// Where the statements of a block stand (9.8).
    fn in_block(
        &self,
        at: StatementSpot,
        token: usize,
        name: &Option<Identifier>,
    ) -> Lowered<StatementSpot>
        ensures { IfOk result (λ inner. inner.room + 1 ≡ at.room) }
    {
        let inner = inside(at, token)?;
        let around = Around {
            alloc: self.alloc,
            design: &self.scopes.design,
            scope: at.scope,
        };
        let scope = around.inside(token, name)?.scope;
        Ok(StatementSpot { scope, ..inner })
    }

    /// Adds what a block stands for (9.8).
    #[cycle(expansion)]
    fn block(
        &mut self,
        at: StatementSpot,
        head: (usize, BlockForm),
        name: &Option<Identifier>,
        body: &[VerilogStatement],
        out: &mut Vec<VerilogStatement>,
    ) -> Lowered<()> {
        let (token, form) = head;
        let inner = self.in_block(at, token, name)?;
        let body = self.all(inner, body)?;
        let name = copied_label(self.alloc, name)?;
        let items = Vec::new(self.alloc);
        add(
            out,
            VerilogStatement::Block {
                token,
                form,
                name,
                items,
                body,
            },
        )
    }

    /// What some statements stand for, one after another.
    #[cycle(expansion)]
    fn all(
        &mut self,
        at: StatementSpot,
        body: &[VerilogStatement],
    ) -> Lowered<Vec<VerilogStatement>> {
        let mut made = Vec::new(self.alloc);
        for s in body {
            self.statement(at, s, &mut made)?;
        }
        Ok(made)
    }

    /// Adds the call of a system task. Refuses calls of functions in a `$strobe`.
    #[cycle(expansion)]
    fn system_task(
        &mut self,
        at: StatementSpot,
        token: usize,
        name: &[u8],
        arguments: &[Option<VerilogExpression>],
        out: &mut Vec<VerilogStatement>,
    ) -> Lowered<()> {
        refuse_monitor(name, arguments)?;
        let arguments = self.shown(in_task(at, name), token, arguments_of(name, arguments), out)?;
        let name = copied(self.alloc, name)?;
        add(
            out,
            VerilogStatement::SystemTaskCall {
                token,
                name,
                arguments,
            },
        )
    }

    /// The arguments of a system task at a token.
    #[cycle(expansion)]
    fn shown(
        &mut self,
        at: StatementSpot,
        token: usize,
        arguments: &[Option<VerilogExpression>],
        out: &mut Vec<VerilogStatement>,
    ) -> Lowered<Vec<Option<VerilogExpression>>> {
        let mut made = Vec::new(self.alloc);
        let mut times = Vec::new(self.alloc);
        for argument in arguments {
            let is_time = times.pop();
            if is_time.is_none() {
                times = self.times_behind(token, argument)?;
            }
            let next = self.argument(at, argument, out)?;
            if is_time == Some(true) {
                made.push(self.shown_time(token, next)?)?;
            } else {
                made.push(next)?;
            }
        }
        Ok(made)
    }

    /// An argument of a system task, if it isn't left out.
    #[cycle(expansion)]
    fn argument(
        &mut self,
        at: StatementSpot,
        argument: &Option<VerilogExpression>,
        out: &mut Vec<VerilogStatement>,
    ) -> Lowered<Option<VerilogExpression>> {
        let Some(e) = argument else {
            return Ok(None);
        };
        match e {
            VerilogExpression::Text { token, bytes } => {
                let bytes = self.scopes.format_in(at.scope, bytes.as_slice())?;
                Ok(Some(VerilogExpression::Text {
                    token: *token,
                    bytes,
                }))
            }
            _ => {
                let made = self.expression(at, e, out)?;
                Ok(Some(made))
            }
        }
    }
}
