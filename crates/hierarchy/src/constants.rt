//! Constant expressions with calls of constant functions (10.4.5): the calls are evaluated first, and the design keeps their values for
//! what is declared next.

ghost use Rattle.std.specs.Prelude.{◌≡◌};

use crate::elaboration::Elaboration;
use design_scopes::faults::{DesignMade, Wrong, refuse};
use design_scopes::generates::{chosen_labels, holds, loop_object, loop_shape};
use design_scopes::places::{assigned_at, value_at};
use scopes::tree::MAX_SCOPES;
use shaped_trees::constants::Constant;
use sizing::environment::Object;
use syntax_tree::declarations::{
    ParameterAssignment, ParameterDeclaration, PortDeclaration, VariableDeclaration, VerilogRange,
};
use syntax_tree::expressions::VerilogExpression;
use syntax_tree::modules::{GenerateCase, GenerateLoop};

impl Elaboration<'_> {
    /// Evaluates the calls in constant expressions at a scope, for what stands at a token.
    pub fn prepare(
        &mut self,
        scope: usize,
        token: usize,
        all: &[&VerilogExpression],
    ) -> DesignMade<()>
        ensures { self.new ≡ record self.old { functions = self.new.functions; design = record self.old.design { calls = self.new.design.calls } } }
    {
        let calls = self
            .functions
            .calls_in(self.design.place(scope), token, all)?;
        self.design.calls = calls;
        Ok(())
    }

    /// Evaluates the calls in the bounds of a range.
    pub fn prepare_range(&mut self, scope: usize, range: &Option<VerilogRange>) -> DesignMade<()> {
        match range {
            Some(range) => self.prepare(scope, range.token, &[&range.most, &range.least]),
            None => Ok(()),
        }
    }

    /// The indices of an array of instances, from the first to the last (7.1.5).
    pub fn indices(&mut self, scope: usize, range: &VerilogRange) -> DesignMade<Vec<i64>> {
        self.prepare(scope, range.token, &[&range.most, &range.least])?;
        self.design.indices(scope, range)
    }

    /// Evaluates the calls in the range of a parameter, and in the value of its declaration, where it is given none from elsewhere.
    pub fn prepare_parameter(
        &mut self,
        scope: usize,
        source: &ParameterDeclaration,
        assignment: &ParameterAssignment,
        is_given: bool,
    ) -> DesignMade<()>
        ensures { self.new ≡ record self.old { functions = self.new.functions; design = record self.old.design { calls = self.new.design.calls } } }
    {
        let token = assignment.identifier.token;
        let value = &assignment.value;
        match &source.value_type.range {
            Some(range) if is_given => self.prepare(scope, token, &[&range.most, &range.least]),
            Some(range) => self.prepare(scope, token, &[&range.most, &range.least, value]),
            None if is_given => Ok(()),
            None => self.prepare(scope, token, &[value]),
        }
    }

    /// Declares the variables of a declaration (4.2.1).
    pub fn declare_variables(
        &mut self,
        scope: usize,
        source: &VariableDeclaration,
    ) -> DesignMade<()> {
        self.prepare_range(scope, &source.value_type.range)?;
        self.design.declare_variables(scope, source)
    }

    /// Declares the arguments of a function or a task (10.2.1, 10.4.1).
    pub fn declare_arguments(&mut self, scope: usize, source: &PortDeclaration) -> DesignMade<()> {
        self.prepare_range(scope, &source.value_type.range)?;
        self.design.declare_arguments(scope, source)
    }

    /// What a constant expression at a scope is worth, for what stands at a token.
    pub fn value_in(
        &mut self,
        scope: usize,
        token: usize,
        e: &VerilogExpression,
    ) -> DesignMade<Constant> {
        self.prepare(scope, token, &[e])?;
        value_at(self.design.alloc, &self.design.constant_place(scope), e)
    }

    /// Whether the condition of an if generate construct at a token is true (12.4.2).
    pub fn condition_holds(
        &mut self,
        scope: usize,
        token: usize,
        condition: &VerilogExpression,
    ) -> DesignMade<bool> {
        Ok(holds(self.value_in(scope, token, condition)?))
    }

    /// The place of the item that a case generate construct chooses (12.4.2).
    pub fn chosen_item(
        &mut self,
        scope: usize,
        source: &GenerateCase,
    ) -> DesignMade<Option<usize>> {
        let alloc = self.design.alloc;
        let mut all = Vec::new(alloc);
        let mut items = Vec::new(alloc);
        all.push(&source.selector)?;
        for item in &source.items {
            for label in &item.labels {
                all.push(label)?;
            }
            items.push(item.labels.as_slice())?;
        }
        self.prepare(scope, source.token, all.as_slice())?;
        let place = self.design.constant_place(scope);
        chosen_labels(
            alloc,
            &place,
            source.token,
            &source.selector,
            items.as_slice(),
        )
    }

    /// Evaluates the calls in an expression of a generate loop's head, in which the variable has a value.
    fn prepare_turn(
        &mut self,
        scope: usize,
        source: &GenerateLoop,
        name: &[u8],
        object: &Object,
        e: &VerilogExpression,
    ) -> DesignMade<()> {
        let place = self.design.place_in_loop(scope, name, object);
        let calls = self.functions.calls_in(place, source.token, &[e])?;
        self.design.calls = calls;
        Ok(())
    }

    /// Whether the condition of a generate loop is true for a value of its variable.
    fn goes_on(
        &mut self,
        scope: usize,
        source: &GenerateLoop,
        name: &[u8],
        value: Constant,
    ) -> DesignMade<bool> {
        let object = loop_object(value);
        self.prepare_turn(scope, source, name, &object, &source.condition)?;
        let place = self.design.place_in_loop(scope, name, &object);
        Ok(holds(value_at(self.design.alloc, &place, &source.condition)?))
    }

    /// The value of the variable of a generate loop behind another one.
    fn next_value(
        &mut self,
        scope: usize,
        source: &GenerateLoop,
        name: &[u8],
        value: Constant,
    ) -> DesignMade<Constant> {
        let object = loop_object(value);
        let next = &source.step.value;
        self.prepare_turn(scope, source, name, &object, next)?;
        let place = self.design.place_in_loop(scope, name, &object);
        assigned_at(self.design.alloc, &place, next, loop_shape())
    }

    /// The values of the variable of a generate loop in its turns (12.4.1).
    pub fn loop_values(
        &mut self,
        scope: usize,
        source: &GenerateLoop,
        name: &[u8],
    ) -> DesignMade<Vec<Constant>> {
        let alloc = self.design.alloc;
        let mut found = Vec::new(alloc);
        let first = &source.start.value;
        self.prepare(scope, source.token, &[first])?;
        let mut value = assigned_at(
            alloc,
            &self.design.constant_place(scope),
            first,
            loop_shape(),
        )?;
        for _turn in 0..MAX_SCOPES {
            if !self.goes_on(scope, source, name, value)? {
                return Ok(found);
            }
            found.push(value)?;
            value = self.next_value(scope, source, name, value)?;
        }
        refuse(source.token, Wrong::EndlessLoop)
    }
}
