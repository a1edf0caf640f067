//! What statements wait for, without calls.

use crate::expansion::{Expansion, StatementSpot};
use crate::statements::refuse_call;
use call_nodes::copies::copied_expression;
use call_nodes::nodes::name_node;
use routine_texts::calls::{first_call, statement_calls};
use scopes::scope::Entity;
use sizing::environment::{Object, ObjectValue};
use statement_parts::faults::{Lowered, StatementKind, fault};
use statement_parts::place::Around;
use statement_parts::reads::names_read;
use syntax_tree::expressions::VerilogExpression;
use syntax_tree::statements::{
    AssignmentTiming, EventControl, VerilogChange, VerilogEvent, VerilogStatement,
};

/// Whether an object is the variable of a flat name.
fn is_variable(object: &Object, name: &str) -> bool {
    match &object.value {
        ObjectValue::Variable(found) => found.as_str() == name,
        ObjectValue::Constant(_) => false,
    }
}

impl<'r, 't> Expansion<'r, 't> {
    /// What stands between the value of an assignment and its effect (9.7.7).
    #[cycle(expansion)]
    pub(crate) fn timing(
        &mut self,
        at: StatementSpot,
        token: usize,
        timing: &Option<Box<AssignmentTiming>>,
        out: &mut Vec<VerilogStatement>,
    ) -> Lowered<Option<Box<AssignmentTiming>>> {
        let Some(timing) = timing else {
            return Ok(None);
        };
        match &**timing {
            AssignmentTiming::Delay(delay) => {
                let delay = self.delay(at, token, delay, out)?;
                self.kept_timing(AssignmentTiming::Delay(Box::into_inner(delay)))
            }
            AssignmentTiming::Event(control) => {
                let control = self.copied_control(control)?;
                self.kept_timing(AssignmentTiming::Event(control))
            }
            AssignmentTiming::Repeat(count, control) => {
                let count = self.boxed(at, count, out)?;
                let control = self.copied_control(control)?;
                let count = Box::into_inner(count);
                self.kept_timing(AssignmentTiming::Repeat(count, control))
            }
        }
    }

    /// A timing as an assignment has it.
    fn kept_timing(&self, made: AssignmentTiming) -> Lowered<Option<Box<AssignmentTiming>>> {
        let made = Box::new(self.alloc, made)?;
        Ok(Some(made))
    }

    /// A copy of an event. Refuses a call in it.
    fn copied_event(&self, event: &VerilogEvent) -> Lowered<VerilogEvent> {
        refuse_call(first_call(&event.expression), StatementKind::CallInEvent)?;
        let expression = copied_expression(self.alloc, &event.expression)?;
        Ok(VerilogEvent {
            token: event.token,
            change: event.change,
            expression,
        })
    }

    /// A copy of an event control. Refuses calls in events.
    fn copied_control(&self, control: &EventControl) -> Lowered<EventControl> {
        let EventControl::Events(events) = control else {
            return Ok(EventControl::Implicit);
        };
        let mut made = Vec::new(self.alloc);
        for event in events {
            let next = self.copied_event(event)?;
            made.push(next)?;
        }
        Ok(EventControl::Events(made))
    }

    /// An event control before a statement. An implicit one before a statement with calls becomes one for what the statement reads: it
    /// doesn't listen to what the bodies read (9.7.5).
    pub(crate) fn control(
        &mut self,
        at: StatementSpot,
        token: usize,
        control: &EventControl,
        s: &VerilogStatement,
    ) -> Lowered<EventControl> {
        let EventControl::Implicit = control else {
            return self.copied_control(control);
        };
        if !statement_calls(s) {
            return Ok(EventControl::Implicit);
        }
        let around = Around {
            alloc: self.alloc,
            design: &self.scopes.design,
            scope: at.scope,
        };
        let names = names_read(around, s)?;
        if names.is_empty() {
            return fault(token, StatementKind::ImplicitEvents);
        }
        self.changes(at, token, names.as_slice())
    }

    /// Any change of variables of some flat names.
    fn changes(
        &mut self,
        at: StatementSpot,
        token: usize,
        names: &[String],
    ) -> Lowered<EventControl> {
        let mut events = Vec::new(self.alloc);
        for name in names {
            let expression = self.alias(at, token, name.as_str())?;
            events.push(VerilogEvent {
                token,
                change: VerilogChange::Any,
                expression,
            })?;
        }
        Ok(EventControl::Events(events))
    }

    /// A name, in a scope, of the variable of a flat name.
    fn alias(&mut self, at: StatementSpot, token: usize, flat: &str) -> Lowered<VerilogExpression> {
        let number = self
            .scopes
            .design
            .objects
            .iter()
            .position(|object| is_variable(object, flat));
        let Some(number) = number else {
            return fault(token, StatementKind::ImplicitEvents);
        };
        let name = self
            .scopes
            .declare_hidden(at.scope, token, Entity::Object(number))?;
        Ok(name_node(self.alloc, token, name.as_slice())?)
    }
}
