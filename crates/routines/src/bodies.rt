//! The bodies of functions and tasks, in the place of their calls (10.2.2, 10.4.4).

use crate::expansion::{CallScope, Expansion, StatementSpot, add, inside_call};
use call_nodes::nodes::{assignment_node, member_node, name_node, named_block_node};
use routine_texts::table::{Routine, RoutineKind};
use statement_parts::faults::{Lowered, StatementKind, fault};
use syntax_tree::declarations::Direction;
use syntax_tree::expressions::VerilogExpression;
use syntax_tree::statements::VerilogStatement;

/// How deep named blocks of a task may stand in each other.
const MOST_DEEP: u32 = 64;

/// The token by which the place of an argument is told, and whether a value can be given to it.
fn target_token(e: &VerilogExpression) -> (usize, bool) {
    match e {
        VerilogExpression::Name { token, .. }
        | VerilogExpression::Member { token, .. }
        | VerilogExpression::Index { token, .. }
        | VerilogExpression::Part { token, .. }
        | VerilogExpression::Concatenation { token, .. } => (*token, true),
        VerilogExpression::Number { token, .. }
        | VerilogExpression::Real { token, .. }
        | VerilogExpression::Text { token, .. }
        | VerilogExpression::Refused { token } => (*token, false),
        _ => operator_token(e),
    }
}

/// The same of an operation, to which nothing can be given.
fn operator_token(e: &VerilogExpression) -> (usize, bool) {
    match e {
        VerilogExpression::Call { token, .. }
        | VerilogExpression::SystemCall { token, .. }
        | VerilogExpression::Replication { token, .. }
        | VerilogExpression::Unary { token, .. }
        | VerilogExpression::Binary { token, .. }
        | VerilogExpression::Conditional { token, .. } => (*token, false),
        _ => (0, false),
    }
}

impl<'r, 't> Expansion<'r, 't> {
    /// What holds the value of a function's call; what it does is added to statements that are done before (10.4.4). Refuses one in a
    /// `$strobe`.
    #[cycle(expansion)]
    pub(crate) fn function_call(
        &mut self,
        at: StatementSpot,
        token: usize,
        function: &VerilogExpression,
        arguments: &[VerilogExpression],
        out: &mut Vec<VerilogStatement>,
    ) -> Lowered<VerilogExpression> {
        if at.in_strobe {
            return fault(token, StatementKind::CallInStrobe);
        }
        let (of, routine) = self.called(at, token, RoutineKind::Function, function)?;
        let call = self.body_of_call(at, token, (of, routine), arguments, out)?;
        if routine.has_own_variables() {
            return Ok(member_node(self.alloc, token, call.name.as_slice(), routine.name)?);
        }
        self.kept_result(token, &call, routine, out)
    }

    /// A variable of a call that keeps what a function returned whose variables all calls share.
    fn kept_result(
        &mut self,
        token: usize,
        call: &CallScope,
        routine: &Routine<'_>,
        out: &mut Vec<VerilogStatement>,
    ) -> Lowered<VerilogExpression> {
        let alloc = self.alloc;
        let kept = self.scopes.declare_result(token, call.of, routine.name)?;
        let scope = call.name.as_slice();
        let target = member_node(alloc, token, scope, kept.as_slice())?;
        let value = member_node(alloc, token, scope, routine.name)?;
        add(out, assignment_node(token, target, value))?;
        Ok(member_node(alloc, token, scope, kept.as_slice())?)
    }

    /// Adds what a task's call stands for (10.2.2).
    #[cycle(expansion)]
    pub(crate) fn task_call(
        &mut self,
        at: StatementSpot,
        token: usize,
        task: &VerilogExpression,
        arguments: &[VerilogExpression],
        out: &mut Vec<VerilogStatement>,
    ) -> Lowered<()> {
        let (of, routine) = self.called(at, token, RoutineKind::Task, task)?;
        let targets = self.targets(at, routine, arguments, out)?;
        let call = self.body_of_call(at, token, (of, routine), arguments, out)?;
        self.take(&call, routine, targets, out)
    }

    /// Adds the assignments of what the outputs of a call have to targets.
    fn take(
        &self,
        call: &CallScope,
        routine: &Routine<'_>,
        targets: Vec<(usize, VerilogExpression)>,
        out: &mut Vec<VerilogStatement>,
    ) -> Lowered<()> {
        let mut left = targets;
        left.reverse();
        for argument in &routine.arguments {
            if argument.direction != Direction::Input {
                let Some((place, target)) = left.pop() else {
                    return Ok(());
                };
                self.take_one(call, argument.name, (place, target), out)?;
            }
        }
        Ok(())
    }

    /// Adds the assignment of what a variable of a call has to a target at a token.
    fn take_one(
        &self,
        call: &CallScope,
        name: &[u8],
        target: (usize, VerilogExpression),
        out: &mut Vec<VerilogStatement>,
    ) -> Lowered<()> {
        let (place, target) = target;
        let value = member_node(self.alloc, place, call.name.as_slice(), name)?;
        add(out, assignment_node(place, target, value))
    }

    /// What the outputs of a task are given to, each with its token.
    #[cycle(expansion)]
    fn targets(
        &mut self,
        at: StatementSpot,
        routine: &Routine<'_>,
        arguments: &[VerilogExpression],
        out: &mut Vec<VerilogStatement>,
    ) -> Lowered<Vec<(usize, VerilogExpression)>> {
        let mut found = Vec::new(self.alloc);
        for (argument, e) in routine.arguments.iter().zip(arguments) {
            if argument.direction != Direction::Input {
                let (place, is_target) = target_token(e);
                if !is_target {
                    return fault(place, StatementKind::OutputArgument);
                }
                let target = self.expression(at, e, out)?;
                found.push((place, target))?;
            }
        }
        Ok(found)
    }

    /// Adds the values of inputs, and the body of what is called, and answers the variables of the call.
    #[cycle(expansion)]
    fn body_of_call(
        &mut self,
        at: StatementSpot,
        token: usize,
        called: (usize, &'r Routine<'t>),
        arguments: &[VerilogExpression],
        out: &mut Vec<VerilogStatement>,
    ) -> Lowered<CallScope> {
        let alloc = self.alloc;
        let (of, routine) = called;
        if routine.arguments.len() != arguments.len() {
            return fault(token, StatementKind::ArgumentCount);
        }
        let inner = inside_call(at, token)?;
        let values = self.inputs(at, routine, arguments, out)?;
        let call = self.open_call(at, token, of, routine)?;
        self.begin(token, &call, routine, values, out)?;
        let spot = StatementSpot {
            scope: call.inner,
            room: inner.room,
            in_function: at.in_function || routine.kind == RoutineKind::Function,
            in_strobe: false,
        };
        let body = self.body(spot, of, routine)?;
        let block = named_block_node(alloc, token, call.name.as_slice(), body)?;
        add(out, block)?;
        Ok(call)
    }

    /// The statements of the body of what is called.
    #[cycle(expansion)]
    fn body(
        &mut self,
        spot: StatementSpot,
        of: usize,
        routine: &Routine<'t>,
    ) -> Lowered<Vec<VerilogStatement>> {
        let mut body = Vec::new(self.alloc);
        self.open.push(of)?;
        self.statement(spot, routine.body, &mut body)?;
        let _ = self.open.pop();
        Ok(body)
    }

    /// Adds what stands before the body of a call: variables that are unknown, and those that have the values of inputs.
    fn begin(
        &self,
        token: usize,
        call: &CallScope,
        routine: &Routine<'_>,
        values: Vec<VerilogExpression>,
        out: &mut Vec<VerilogStatement>,
    ) -> Lowered<()> {
        if routine.automatic && routine.keeps {
            let known = name_node(self.alloc, token, call.name.as_slice())?;
            self.forget(token, call.inner, &known, MOST_DEEP, out)?;
        }
        self.give(token, call, routine, values, out)
    }

    /// The values of the inputs of a call, in their order.
    #[cycle(expansion)]
    fn inputs(
        &mut self,
        at: StatementSpot,
        routine: &Routine<'_>,
        arguments: &[VerilogExpression],
        out: &mut Vec<VerilogStatement>,
    ) -> Lowered<Vec<VerilogExpression>> {
        let mut values = Vec::new(self.alloc);
        for (argument, e) in routine.arguments.iter().zip(arguments) {
            if argument.direction != Direction::Output {
                let value = self.expression(at, e, out)?;
                values.push(value)?;
            }
        }
        Ok(values)
    }

    /// Adds the assignments of values to the inputs of a call.
    fn give(
        &self,
        token: usize,
        call: &CallScope,
        routine: &Routine<'_>,
        values: Vec<VerilogExpression>,
        out: &mut Vec<VerilogStatement>,
    ) -> Lowered<()> {
        let mut left = values;
        left.reverse();
        for argument in &routine.arguments {
            if argument.direction != Direction::Output {
                let Some(value) = left.pop() else {
                    return Ok(());
                };
                let target = member_node(self.alloc, token, call.name.as_slice(), argument.name)?;
                add(out, assignment_node(token, target, value))?;
            }
        }
        Ok(())
    }
}
