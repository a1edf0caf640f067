//! The statements of constant functions (9).

ghost use Rattle.std.specs.Prelude.{◌≡◌, IfOk, OnOk};
ghost use Rattle.sizing.specs.Meanings.{meaning};
ghost use Rattle.sizing.specs.Results.{IsConstantOf};
ghost use Rattle.syntax_tree.specs.Expressions.{plain_expression_of};
ghost use Rattle.constant_functions.specs.Frames.{frame_names};

use crate::calls::{CallUse, ConstantFunctions, MAX_STEPS, assigned_digits};
use crate::finding::token_of;
use crate::frame::Frame;
use crate::wrong::refuse_call;
use design_scopes::faults::{ConstantCallWrong, DesignMade};
use design_scopes::generates::{chosen_labels, holds};
use design_scopes::places::value_at;
use shaped_trees::constants::Constant;
use syntax_tree::declarations::{BlockItem, ParameterDeclaration, VerilogRange};
use syntax_tree::expressions::VerilogExpression;
use syntax_tree::statements::{
    AssignmentForm, BlockForm, CaseForm, CaseItem, ConditionalBranch, VariableAssignment,
    VerilogStatement,
};

/// Passes over a system task that prints (10.4.5). Refuses others.
fn pass_over(token: usize, name: &[u8]) -> DesignMade<()> {
    if name == b"$display".as_slice()
        || name == b"$write".as_slice()
        || name == b"$strobe".as_slice()
    {
        return Ok(());
    }
    refuse_call(token, ConstantCallWrong::SystemTask)
}

/// How often the body of a `repeat` is done: by its digits as a number without a sign, 0 times where one is unknown (9.6).
fn turns_of(count: Constant) -> u128 {
    let (number, unknown) = count.digits.words();
    if unknown == 0 { number } else { 0 }
}

impl<'t> ConstantFunctions<'t> {
    /// What an expression in a function's body is worth.
    #[cycle(calls)]
    fn value(
        &mut self,
        frame: &mut Frame<'_, 't>,
        e: &VerilogExpression,
        room: u32,
    ) -> DesignMade<Constant>
        ensures value { IfOk result (λ value. IsConstantOf (meaning (frame_names frame.new) (plain_expression_of e.now)) value) }
        ensures frame { frame.new ≡ record frame.old { calls = frame.new.calls } }
    {
        frame.calls.clear();
        self.expression(frame, e, CallUse::Evaluated, room)?;
        value_at(self.alloc, frame, e)
    }

    /// Does an assignment to a variable of the function (9.2.1).
    #[cycle(calls)]
    fn assign(
        &mut self,
        frame: &mut Frame<'_, 't>,
        token: usize,
        target: &VerilogExpression,
        e: &VerilogExpression,
        room: u32,
    ) -> DesignMade<()> {
        let number = frame.target(token, target)?;
        let shape = frame.shape(token, number)?;
        frame.calls.clear();
        self.expression(frame, e, CallUse::Evaluated, room)?;
        let digits = assigned_digits(self.alloc, frame, e, shape)?;
        frame.assign(number, digits);
        Ok(())
    }

    /// Does an assignment in the head of a `for`.
    #[cycle(calls)]
    fn assign_head(
        &mut self,
        frame: &mut Frame<'_, 't>,
        head: &VariableAssignment,
        room: u32,
    ) -> DesignMade<()> {
        self.assign(frame, head.token, &head.target, &head.value, room)
    }

    /// Refuses the bounds of a range in a function that aren't constant there (10.4.5).
    #[cycle(calls)]
    pub(crate) fn constant_range(
        &mut self,
        frame: &mut Frame<'_, 't>,
        range: &Option<VerilogRange>,
        room: u32,
    ) -> DesignMade<()>
        ensures frame { frame.new ≡ record frame.old { calls = frame.new.calls } }
    {
        let Some(range) = range else {
            return Ok(());
        };
        self.expression(frame, &range.most, CallUse::Refused, room)?;
        self.expression(frame, &range.least, CallUse::Refused, room)
    }

    /// Declares the constants of a declaration in a block. Refuses parameters that other scopes may give values (12.2.1).
    #[cycle(calls)]
    fn declare_constants(
        &mut self,
        frame: &mut Frame<'_, 't>,
        block: usize,
        source: &'t ParameterDeclaration,
        room: u32,
    ) -> DesignMade<()> {
        if !source.local {
            return refuse_call(source.token, ConstantCallWrong::OwnParameter);
        }
        self.constant_range(frame, &source.value_type.range, room)?;
        for assignment in &source.assignments {
            self.expression(frame, &assignment.value, CallUse::Refused, room)?;
        }
        frame.declare_constants(self.alloc, block, source)
    }

    /// Declares what a block or a function declares beside its arguments.
    #[cycle(calls)]
    pub(crate) fn declare_items(
        &mut self,
        frame: &mut Frame<'_, 't>,
        block: usize,
        items: &'t [BlockItem],
        room: u32,
    ) -> DesignMade<()> {
        for item in items {
            match item {
                BlockItem::Variable(source) => {
                    self.constant_range(frame, &source.value_type.range, room)?;
                    frame.declare_variables(self.alloc, block, source)?;
                }
                BlockItem::Parameter(source) => {
                    self.declare_constants(frame, block, source, room)?;
                }
                BlockItem::Event(source) => {
                    return refuse_call(source.token, ConstantCallWrong::Statement);
                }
            }
        }
        Ok(())
    }

    /// Does the statements of a block, in which its variables are seen (9.8).
    #[cycle(calls)]
    fn block(
        &mut self,
        frame: &mut Frame<'_, 't>,
        token: usize,
        items: &'t [BlockItem],
        body: &'t [VerilogStatement],
        room: u32,
    ) -> DesignMade<()> {
        if !frame.see(token, true) {
            self.declare_items(frame, token, items, room)?;
        }
        for s in body {
            self.run(frame, s, room)?;
        }
        let _ = frame.see(token, false);
        Ok(())
    }

    /// Does the branch of an `if` whose condition is the first that is true (9.4).
    #[cycle(calls)]
    fn branches(
        &mut self,
        frame: &mut Frame<'_, 't>,
        branches: &'t [ConditionalBranch],
        otherwise: &'t Option<Box<VerilogStatement>>,
        room: u32,
    ) -> DesignMade<()> {
        for branch in branches {
            if holds(self.value(frame, &branch.condition, room)?) {
                return self.run(frame, &branch.body, room);
            }
        }
        match otherwise {
            Some(body) => self.run(frame, body, room),
            None => Ok(()),
        }
    }

    /// Does the item of a `case` that its selector chooses (9.5).
    #[cycle(calls)]
    fn case(
        &mut self,
        frame: &mut Frame<'_, 't>,
        token: usize,
        selector: &VerilogExpression,
        items: &'t [CaseItem],
        room: u32,
    ) -> DesignMade<()> {
        frame.calls.clear();
        self.expression(frame, selector, CallUse::Evaluated, room)?;
        let mut labels = Vec::new(self.alloc);
        for item in items {
            self.expressions(frame, item.labels.as_slice(), CallUse::Evaluated, room)?;
            labels.push(item.labels.as_slice())?;
        }
        let Some(number) = chosen_labels(self.alloc, frame, token, selector, labels.as_slice())?
        else {
            return Ok(());
        };
        match items.get(number) {
            Some(item) => self.run(frame, &item.body, room),
            None => Ok(()),
        }
    }

    /// Does the turns of a loop, as long as its condition is true, where it has one (9.6).
    #[cycle(calls)]
    fn turns(
        &mut self,
        frame: &mut Frame<'_, 't>,
        condition: Option<&'t VerilogExpression>,
        next: Option<&'t VariableAssignment>,
        body: &'t VerilogStatement,
        room: u32,
    ) -> DesignMade<()> {
        for _turn in 0..MAX_STEPS {
            self.step()?;
            if let Some(condition) = condition {
                if !holds(self.value(frame, condition, room)?) {
                    return Ok(());
                }
            }
            self.run(frame, body, room)?;
            if let Some(next) = next {
                self.assign_head(frame, next, room)?;
            }
        }
        refuse_call(self.call, ConstantCallWrong::ManySteps)
    }

    /// Does the turns of a `repeat` (9.6).
    #[cycle(calls)]
    fn repeated(
        &mut self,
        frame: &mut Frame<'_, 't>,
        count: &VerilogExpression,
        body: &'t VerilogStatement,
        room: u32,
    ) -> DesignMade<()> {
        let turns = turns_of(self.value(frame, count, room)?);
        for _turn in 0..turns {
            self.step()?;
            self.run(frame, body, room)?;
        }
        Ok(())
    }

    /// Does a statement of a function's body.
    #[cycle(calls)]
    pub(crate) fn run(
        &mut self,
        frame: &mut Frame<'_, 't>,
        s: &'t VerilogStatement,
        room: u32,
    ) -> DesignMade<()> {
        self.step()?;
        let room = self.inside(room)?;
        match s {
            VerilogStatement::Empty { .. } => Ok(()),
            VerilogStatement::Block {
                token,
                form: BlockForm::Sequential,
                items,
                body,
                ..
            } => self.block(frame, *token, items.as_slice(), body.as_slice(), room),
            VerilogStatement::Assignment {
                token,
                form: AssignmentForm::Blocking,
                target,
                timing: None,
                value,
            } => self.assign(frame, *token, target, value, room),
            VerilogStatement::If {
                branches,
                otherwise,
                ..
            } => self.branches(frame, branches.as_slice(), otherwise, room),
            VerilogStatement::Case {
                token,
                form: CaseForm::Case,
                selector,
                items,
            } => self.case(frame, *token, selector, items.as_slice(), room),
            VerilogStatement::SystemTaskCall { token, name, .. } => {
                pass_over(*token, name.as_slice())
            }
            _ => self.run_loop(frame, s, room),
        }
    }

    /// Does a loop. Refuses a statement that a function may not have (10.4.4).
    #[cycle(calls)]
    fn run_loop(
        &mut self,
        frame: &mut Frame<'_, 't>,
        s: &'t VerilogStatement,
        room: u32,
    ) -> DesignMade<()> {
        match s {
            VerilogStatement::For {
                start,
                condition,
                step,
                body,
                ..
            } => {
                self.assign_head(frame, start, room)?;
                self.turns(frame, Some(condition), Some(&**step), body, room)
            }
            VerilogStatement::While {
                condition,
                body,
                ..
            } => self.turns(frame, Some(condition), None, body, room),
            VerilogStatement::Forever { body, .. } => self.turns(frame, None, None, body, room),
            VerilogStatement::Repeat { count, body, .. } => self.repeated(frame, count, body, room),
            _ => refuse_call(token_of(s), ConstantCallWrong::Statement),
        }
    }
}
