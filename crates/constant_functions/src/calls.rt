//! The calls in expressions.

ghost use Rattle.std.specs.Prelude.{◌≡◌, ◌+◌, length, IfOk};

use crate::finding::has_call;
use crate::frame::Frame;
use crate::functions::{FunctionTable, instance_around};
use crate::variable::shape_of;
use crate::wrong::refuse_call;
use design_scopes::call_values::CallValue;
use design_scopes::faults::{ConstantCallWrong, DesignMade};
use design_scopes::places::{ScopePlace, assigned_at, value_at};
use design_scopes::variables::{argument_kind, variable_type_at};
use logic4::bits::Bits;
use logic4::digit::Truth;
use shaped_trees::constants::Constant;
use shaped_trees::shape::Shape;
use sizing::environment::Environment;
use std::alloc::{AllocError, Global};
use syntax_tree::declarations::Direction;
use syntax_tree::expressions::{PartForm, VerilogExpression};
use syntax_tree::modules::{FunctionDeclaration, ModuleDeclaration};

/// The most steps that the constant functions of a design take: statements, turns of loops, and calls.
pub const MAX_STEPS: usize = 200_000;

/// How deep calls, statements and expressions stand in each other at most.
const MOST_DEEP: u32 = 1536;

/// The functions of a text, and how many steps their calls may take still.
#[derive(Drop)]
pub struct ConstantFunctions<'t> {
    pub(crate) alloc: Global,
    table: FunctionTable<'t>,
    pub(crate) left: usize,
    /// The token of the call that is evaluated, in which all others are.
    pub(crate) call: usize,
}

/// What is done with the calls in an expression.
#[derive(Clone, Copy, PartialEq, Eq)]
pub(crate) enum CallUse {
    /// They are evaluated.
    Evaluated,
    /// Their sizes and signs alone count, since another part of the expression is chosen (5.1.13).
    Unchosen,
    /// The expression has to be constant in a function's body: it has no calls (10.4.5).
    Refused,
}

/// A call of a function.
#[derive(Clone, Copy)]
pub(crate) struct FunctionCall<'e, 't> {
    token: usize,
    source: &'t FunctionDeclaration,
    arguments: &'e [VerilogExpression],
}

/// What is done with the calls in the two parts of a choice, by its condition (5.1.13).
fn uses_by(condition: Truth) -> (CallUse, CallUse) {
    match condition {
        Truth::True => (CallUse::Evaluated, CallUse::Unchosen),
        Truth::False => (CallUse::Unchosen, CallUse::Evaluated),
        Truth::Unknown => (CallUse::Evaluated, CallUse::Evaluated),
    }
}

/// Refuses a function without an input, and one with an output (10.4.4).
fn refuse_head(source: &FunctionDeclaration) -> DesignMade<()> {
    let token = source.identifier.token;
    if source.arguments.is_empty() {
        return refuse_call(token, ConstantCallWrong::NoInput);
    }
    for port in &source.arguments {
        if port.direction != Direction::Input {
            return refuse_call(token, ConstantCallWrong::FunctionOutput);
        }
    }
    Ok(())
}

/// The digits of a constant.
fn digits_of(value: Constant) -> Bits
    ensures { result ≡ value.digits }
{
    value.digits
}

/// The digits of an expression as it is assigned to what has a size and a sign (5.5.3).
pub(crate) fn assigned_digits<E: Environment>(
    alloc: Global,
    place: &E,
    e: &VerilogExpression,
    shape: Shape,
) -> DesignMade<Bits>
    ensures { IfOk result (λ digits. length digits ≡ shape.width) }
{
    let value = assigned_at(alloc, place, e, shape)?;
    Ok(digits_of(value))
}

impl<'t> ConstantFunctions<'t> {
    /// The functions of modules. Fails where memory is refused.
    pub fn new(
        alloc: Global,
        modules: &'t [ModuleDeclaration],
    ) -> Result<ConstantFunctions<'t>, AllocError> {
        Ok(ConstantFunctions {
            alloc,
            table: FunctionTable::new(alloc, modules)?,
            left: MAX_STEPS,
            call: 0,
        })
    }

    /// The values of the calls in some expressions at a place, for a constant expression at a token.
    ///
    /// # Errors
    ///
    /// What is wrong first, at its token, or `Memory` where memory is refused.
    pub fn calls_in(
        &mut self,
        place: ScopePlace<'_>,
        token: usize,
        all: &[&VerilogExpression],
    ) -> DesignMade<Vec<CallValue>> {
        let mut frame = Frame::new(self.alloc, place, false);
        self.call = token;
        for e in all {
            if has_call(e) {
                self.expression(&mut frame, e, CallUse::Evaluated, MOST_DEEP)?;
            }
        }
        Ok(frame.into_calls())
    }

    /// Counts a step. Refuses one too many.
    pub(crate) fn step(&mut self) -> DesignMade<()> {
        if self.left == 0 {
            return refuse_call(self.call, ConstantCallWrong::ManySteps);
        }
        self.left -= 1;
        Ok(())
    }

    /// The room of what stands in something. Refuses it where there is none.
    pub(crate) fn inside(&self, room: u32) -> DesignMade<u32>
        ensures { IfOk result (λ inner. inner + 1 ≡ room) }
    {
        if room == 0 {
            return refuse_call(self.call, ConstantCallWrong::Deep);
        }
        Ok(room - 1)
    }

    /// The function of the module that is called at a place (10.4.5).
    fn function_at(
        &self,
        frame: &Frame<'_, 't>,
        token: usize,
        function: &VerilogExpression,
    ) -> DesignMade<&'t FunctionDeclaration> {
        let VerilogExpression::Name { name, .. } = function else {
            return refuse_call(token, ConstantCallWrong::HierarchicalName);
        };
        let place = &frame.outer;
        let instance = instance_around(place.tree, place.scope);
        let Some(found) = self.table.of_instance(place.tree, instance) else {
            return refuse_call(token, ConstantCallWrong::UnknownFunction);
        };
        let in_block = found.in_blocks.contains(name.as_slice());
        match found.declared.get(name.as_slice()).copied() {
            Some(source) if !in_block || place.scope == instance => {
                refuse_head(source)?;
                Ok(source)
            }
            _ if in_block => refuse_call(token, ConstantCallWrong::InGenerateBlock),
            _ => refuse_call(token, ConstantCallWrong::UnknownFunction),
        }
    }

    /// The place of a function's body, with the variable of its name, all unknown.
    #[cycle(calls)]
    fn opened<'p>(
        &mut self,
        frame: &Frame<'p, 't>,
        source: &'t FunctionDeclaration,
        room: u32,
    ) -> DesignMade<Box<Frame<'p, 't>>> {
        let mut inner = Box::new(self.alloc, frame.body_frame(self.alloc))?;
        let result = &source.result;
        self.constant_range(&mut inner, &result.value_type.range, room)?;
        let found = variable_type_at(self.alloc, &*inner, result.kind, &result.value_type)?;
        inner.declare_unknown(&source.identifier, source.token, found)?;
        Ok(inner)
    }

    /// Declares the arguments of a call, with their values (10.4.4).
    #[cycle(calls)]
    fn give_arguments(
        &mut self,
        frame: &Frame<'_, 't>,
        inner: &mut Frame<'_, 't>,
        call: FunctionCall<'_, 't>,
        room: u32,
    ) -> DesignMade<()> {
        let mut given = call.arguments.iter();
        for port in &call.source.arguments {
            self.constant_range(inner, &port.value_type.range, room)?;
            let kind = argument_kind(port.kind);
            let found = variable_type_at(self.alloc, inner, kind, &port.value_type)?;
            for declarator in &port.declarators {
                let Some(argument) = given.next() else {
                    return refuse_call(call.token, ConstantCallWrong::ArgumentCount);
                };
                let token = declarator.identifier.token;
                let shape = shape_of(token, found)?;
                let digits = assigned_digits(self.alloc, frame, argument, shape)?;
                let name = declarator.identifier.name.as_slice();
                inner.declare_variable(name, call.source.token, found, digits)?;
            }
        }
        if given.next().is_some() {
            return refuse_call(call.token, ConstantCallWrong::ArgumentCount);
        }
        Ok(())
    }

    /// Does a call whose arguments' calls are evaluated (10.4.3).
    #[cycle(calls)]
    fn called(
        &mut self,
        frame: &mut Frame<'_, 't>,
        call: FunctionCall<'_, 't>,
        room: u32,
    ) -> DesignMade<()>
        ensures frame { frame.new ≡ record frame.old { calls = frame.new.calls } }
    {
        if !frame.in_function {
            self.call = call.token;
        }
        self.step()?;
        let source = call.source;
        let mut inner = self.opened(frame, source, room)?;
        self.give_arguments(frame, &mut inner, call, room)?;
        self.declare_items(&mut inner, source.token, source.items.as_slice(), room)?;
        self.run(&mut inner, &source.body, room)?;
        frame.keep_result(inner, call.token)
    }

    /// Adds what a call gives to the values of the calls.
    #[cycle(calls)]
    fn add_call(
        &mut self,
        frame: &mut Frame<'_, 't>,
        call: FunctionCall<'_, 't>,
        how: CallUse,
        room: u32,
    ) -> DesignMade<()>
        ensures frame { frame.new ≡ record frame.old { calls = frame.new.calls } }
    {
        match how {
            CallUse::Evaluated => {
                self.expressions(frame, call.arguments, how, room)?;
                self.called(frame, call, room)
            }
            CallUse::Unchosen => {
                let inner = self.opened(frame, call.source, room)?;
                frame.keep_result(inner, call.token)
            }
            CallUse::Refused => refuse_call(call.token, ConstantCallWrong::InnerConstant),
        }
    }

    /// Evaluates the calls in an expression, from left to right.
    #[cycle(calls)]
    pub(crate) fn expression(
        &mut self,
        frame: &mut Frame<'_, 't>,
        e: &VerilogExpression,
        how: CallUse,
        room: u32,
    ) -> DesignMade<()>
        ensures frame { frame.new ≡ record frame.old { calls = frame.new.calls } }
    {
        let room = self.inside(room)?;
        match e {
            VerilogExpression::Call {
                token,
                function,
                arguments,
            } => {
                let source = self.function_at(frame, *token, function)?;
                let call = FunctionCall {
                    token: *token,
                    source,
                    arguments: arguments.as_slice(),
                };
                self.add_call(frame, call, how, room)
            }
            VerilogExpression::Name { token, name } if how == CallUse::Refused => {
                frame.refuse_variable(*token, name.as_slice())
            }
            VerilogExpression::Member { token, .. } if frame.in_function => {
                refuse_call(*token, ConstantCallWrong::HierarchicalName)
            }
            VerilogExpression::Member { scope, .. } => self.expression(frame, scope, how, room),
            VerilogExpression::Conditional {
                condition,
                first,
                second,
                ..
            } => self.choice(frame, condition, (first, second), how, room),
            _ => self.operands(frame, e, how, room),
        }
    }

    /// Evaluates the calls in the operands of an operation, or in the parts of a select.
    #[cycle(calls)]
    fn operands(
        &mut self,
        frame: &mut Frame<'_, 't>,
        e: &VerilogExpression,
        how: CallUse,
        room: u32,
    ) -> DesignMade<()>
        ensures frame { frame.new ≡ record frame.old { calls = frame.new.calls } }
    {
        match e {
            VerilogExpression::Index { base, index, .. } => {
                self.expression(frame, base, how, room)?;
                self.expression(frame, index, how, room)
            }
            VerilogExpression::Part {
                form,
                base,
                first,
                second,
                ..
            } => {
                let bound = frame.use_in_constants();
                let begin = if *form == PartForm::Constant {
                    bound
                } else {
                    how
                };
                self.expression(frame, base, how, room)?;
                self.expression(frame, first, begin, room)?;
                self.expression(frame, second, bound, room)
            }
            VerilogExpression::SystemCall { arguments, .. } => {
                self.expressions(frame, arguments.as_slice(), how, room)
            }
            VerilogExpression::Concatenation { parts, .. } => {
                self.expressions(frame, parts.as_slice(), how, room)
            }
            VerilogExpression::Replication { count, parts, .. } => {
                let bound = frame.use_in_constants();
                self.expression(frame, count, bound, room)?;
                self.expressions(frame, parts.as_slice(), how, room)
            }
            VerilogExpression::Unary { operand, .. } => self.expression(frame, operand, how, room),
            VerilogExpression::Binary { left, right, .. } => {
                self.expression(frame, left, how, room)?;
                self.expression(frame, right, how, room)
            }
            _ => Ok(()),
        }
    }

    /// Evaluates the calls in expressions, in their order.
    #[cycle(calls)]
    pub(crate) fn expressions(
        &mut self,
        frame: &mut Frame<'_, 't>,
        all: &[VerilogExpression],
        how: CallUse,
        room: u32,
    ) -> DesignMade<()>
        ensures frame { frame.new ≡ record frame.old { calls = frame.new.calls } }
    {
        for e in all {
            self.expression(frame, e, how, room)?;
        }
        Ok(())
    }

    /// Evaluates the calls in a choice: those of the part alone that is chosen, where the condition is known (5.1.13).
    #[cycle(calls)]
    fn choice(
        &mut self,
        frame: &mut Frame<'_, 't>,
        condition: &VerilogExpression,
        parts: (&VerilogExpression, &VerilogExpression),
        how: CallUse,
        room: u32,
    ) -> DesignMade<()>
        ensures frame { frame.new ≡ record frame.old { calls = frame.new.calls } }
    {
        let (first, second) = parts;
        self.expression(frame, condition, how, room)?;
        let (first_use, second_use) = if how == CallUse::Evaluated
            && (has_call(first) || has_call(second))
        {
            uses_by(value_at(self.alloc, frame, condition)?.digits.truth())
        } else {
            (how, how)
        };
        self.expression(frame, first, first_use, room)?;
        self.expression(frame, second, second_use, room)
    }
}
