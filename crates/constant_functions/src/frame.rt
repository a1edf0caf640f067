//! The variables of a call, and what names mean in the function's body.

ghost use Rattle.std.specs.Prelude.{◌≡◌, false, length, slice_get, option_map, IfOk, IfSome};
ghost use Rattle.sizing.specs.Names.{object_width, variable_width};
ghost use Rattle.constant_functions.specs.Frames as spec;

use crate::calls::CallUse;
use crate::functions::instance_around;
use crate::variable::{LocalVariable, shape_of, variable_of};
use crate::wrong::refuse_call;
use design_scopes::call_values::CallValue;
use design_scopes::faults::{ConstantCallWrong, DesignMade, Wrong, refuse};
use design_scopes::parameter_types::parameter_at;
use design_scopes::places::{ScopePlace, call_among};
use design_scopes::variables::{VariableType, variable_type_at};
use logic4::bits::Bits;
use shaped_trees::shape::Shape;
use sizing::environment::{Environment, Object};
use sizing::faults::ExpressionFaultKind;
use std::alloc::{AllocError, Global};
use syntax_tree::declarations::{ParameterDeclaration, VariableDeclaration};
use syntax_tree::expressions::{Identifier, VerilogExpression};

/// Where expressions are evaluated: at a place of the design, or in the body of a function.
#[derive(Drop)]
pub(crate) struct Frame<'p, 't> {
    /// The place of the expressions; in a function that of the module's instance.
    pub(crate) outer: ScopePlace<'p>,
    pub(crate) in_function: bool,
    /// The variables of the call, those that are declared last first.
    variables: Vec<LocalVariable<'t>>,
    /// The values of the calls in the expression that is evaluated.
    pub(crate) calls: Vec<CallValue>,
}

impl<'p, 't> Frame<'p, 't> {
    /// A place without variables: of the design, or of a function's body.
    pub(crate) fn new(alloc: Global, outer: ScopePlace<'p>, in_function: bool) -> Frame<'p, 't> {
        Frame {
            outer,
            in_function,
            variables: Vec::new(alloc),
            calls: Vec::new(alloc),
        }
    }

    /// The values of the calls that are evaluated.
    pub(crate) fn into_calls(self) -> Vec<CallValue> {
        let Frame { calls, .. } = self;
        calls
    }

    /// What is done with calls in what has to be constant, as the bounds of a part: in a function they are refused (10.4.5).
    pub(crate) fn use_in_constants(&self) -> CallUse {
        if self.in_function {
            CallUse::Refused
        } else {
            CallUse::Evaluated
        }
    }

    /// The number of the variable that a name stands for: that of the innermost block.
    fn named(&self, name: &[u8]) -> Option<usize>
        ensures { result ≡ spec.variable_number self.now.variables.items name.now }
    {
        self.variables
            .iter()
            .position(|variable| variable.is_seen && variable.name == name)
    }

    /// The variable or the constant of the function that a name stands for.
    fn own(&self, within: Option<usize>, name: &[u8]) -> Option<&Object>
        ensures { option_map (λ o. o.now) result ≡ spec.own_object self.now.variables.items within name.now }
    {
        if within.is_some() {
            return None;
        }
        let number = self.named(name)?;
        match self.variables.get(number) {
            Some(variable) => Some(&variable.object),
            None => None,
        }
    }

    /// Declares a variable or a constant in a block. Fails where memory is refused.
    fn declare(
        &mut self,
        name: &'t [u8],
        block: usize,
        is_constant: bool,
        object: Object,
    ) -> Result<(), AllocError>
        requires { is_constant ≡ false → object_width object ≡ variable_width object.range }
    {
        let variable = LocalVariable {
            name,
            block,
            is_seen: true,
            is_constant,
            object,
        };
        self.variables.insert(0, variable)?;
        Ok(())
    }

    /// Declares a variable of a type in a block, with a value. Fails where memory is refused.
    pub(crate) fn declare_variable(
        &mut self,
        name: &'t [u8],
        block: usize,
        found: VariableType,
        digits: Bits,
    ) -> Result<(), AllocError>
        requires { length digits ≡ variable_width found.range }
    {
        self.declare(name, block, false, variable_of(found, digits))
    }

    /// Declares a variable of a type in a block, all unknown.
    pub(crate) fn declare_unknown(
        &mut self,
        identifier: &'t Identifier,
        block: usize,
        found: VariableType,
    ) -> DesignMade<()> {
        let shape = shape_of(identifier.token, found)?;
        let unknown = Bits::unknown(shape.width.get());
        self.declare_variable(identifier.name.as_slice(), block, found, unknown)?;
        Ok(())
    }

    /// Declares the variables of a declaration in a block, all unknown.
    pub(crate) fn declare_variables(
        &mut self,
        alloc: Global,
        block: usize,
        source: &'t VariableDeclaration,
    ) -> DesignMade<()> {
        let found = variable_type_at(alloc, self, source.kind, &source.value_type)?;
        for declarator in &source.declarators {
            self.declare_unknown(&declarator.identifier, block, found)?;
        }
        Ok(())
    }

    /// Declares the constants of a declaration in a block (4.10.2).
    pub(crate) fn declare_constants(
        &mut self,
        alloc: Global,
        block: usize,
        source: &'t ParameterDeclaration,
    ) -> DesignMade<()> {
        for assignment in &source.assignments {
            let object = parameter_at(alloc, self, source, None, &assignment.value)?;
            self.declare(assignment.identifier.name.as_slice(), block, true, object)?;
        }
        Ok(())
    }

    /// Says whether a statement is done in a block, and answers whether the block has variables already.
    pub(crate) fn see(&mut self, block: usize, is_seen: bool) -> bool {
        let mut known = false;
        for variable in &mut self.variables {
            if variable.block == block {
                variable.is_seen = is_seen;
                known = true;
            }
        }
        known
    }

    /// The number of the variable that the target of an assignment names. Refuses what is none of the function.
    pub(crate) fn target(&self, token: usize, e: &VerilogExpression) -> DesignMade<usize> {
        if let VerilogExpression::Name { name, .. } = e {
            if let Some(number) = self.named(name.as_slice()) {
                return Ok(number);
            }
        }
        refuse_call(token, ConstantCallWrong::Target)
    }

    /// The size and the sign of the variable of a number. Refuses a constant.
    pub(crate) fn shape(&self, token: usize, number: usize) -> DesignMade<Shape>
        ensures { IfOk result (λ shape. IfSome (slice_get self.now.variables.items number) (λ v. shape ≡ record { width = variable_width v.object.range; signed = v.object.signed })) }
    {
        match self.variables.get(number) {
            Some(variable) => variable.shape(token),
            None => refuse_call(token, ConstantCallWrong::Target),
        }
    }

    /// Gives the variable of a number a value.
    pub(crate) fn assign(&mut self, number: usize, digits: Bits)
        requires { IfSome (slice_get self.old.variables.items number) (λ v. length digits ≡ variable_width v.object.range) }
    {
        if let Some(variable) = self.variables.get_mut(number) {
            variable.give(digits);
        }
    }

    /// Refuses the name of a variable of the function, which a constant expression in it may not have.
    pub(crate) fn refuse_variable(&self, token: usize, name: &[u8]) -> DesignMade<()> {
        let Some(number) = self.named(name) else {
            return Ok(());
        };
        match self.variables.get(number) {
            Some(variable) if !variable.is_constant => {
                refuse(token, Wrong::Expression(ExpressionFaultKind::NotConstant))
            }
            _ => Ok(()),
        }
    }

    /// A place for the body of a function that is called here: at the module's instance, without variables.
    pub(crate) fn body_frame(&self, alloc: Global) -> Frame<'p, 't> {
        let scope = instance_around(self.outer.tree, self.outer.scope);
        let outer = ScopePlace {
            scope,
            turn: None,
            calls: &[],
            ..self.outer
        };
        Frame::new(alloc, outer, true)
    }

    /// Keeps what a call gives: the value of the variable of the function's name, which is declared first in its body (10.4.3).
    pub(crate) fn keep_result(&mut self, inner: Box<Frame<'_, 't>>, token: usize) -> DesignMade<()>
        ensures frame { self.new ≡ record self.old { calls = self.new.calls } }
    {
        let Frame { mut variables, .. } = Box::into_inner(inner);
        let Some(variable) = variables.pop() else {
            return refuse_call(token, ConstantCallWrong::UnknownFunction);
        };
        let value = variable.into_value(token)?;
        self.calls.push(value)?;
        Ok(())
    }
}

impl Environment for Frame<'_, '_> {
    ghost means = { spec.frame_names };

    fn scope(&self, within: Option<usize>, name: &[u8], index: Option<i64>) -> Option<usize> {
        self.outer.scope(within, name, index)
    }

    fn object(&self, within: Option<usize>, name: &[u8]) -> Option<&Object> {
        match self.own(within, name) {
            Some(found) => Some(found),
            None => self.outer.object(within, name),
        }
    }

    fn call(&self, token: usize) -> Option<&Object> {
        call_among(self.calls.as_slice(), token)
    }
}
