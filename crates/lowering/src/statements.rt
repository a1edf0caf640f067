//! Statements.

ghost use Rattle.std.specs.Prelude.{◌≡◌, [], ◌∷◌, map, IfOk, OnOk, Some, None, IsTrue, ◌↔◌};
ghost use Rattle.model.specs.SourceTrees.{source_expression_of, source_statement_of};
ghost use Rattle.design_scopes.specs.Places.{names_in_scope};
ghost use Rattle.statement_forms.specs.Views.{core_statements, core_triggers};
ghost use Rattle.statement_forms.specs.Forms as forms;
ghost use Rattle.syntax_tree.specs.Expressions.{plain_expression_of};
ghost use Rattle.statement_parts.specs.Statements.{plain_of, name_in, plain_all_of, plain_branches_of, plain_item_of, plain_items_of, plain_assignment, plain_control, plain_argument, timing_of, otherwise_of};
ghost use Rattle.lowering.specs.Hidden.{Makes, hidden_in};
ghost use Rattle.statement_parts.specs.Places.{surroundings};
ghost use Rattle.statement_parts.specs.Parts.{AreControlEvents, whole_change};
ghost use Rattle.model.specs.Syntax.{registers_of};
ghost use Rattle.lowering.specs.Lowering as spec;
ghost use Rattle.lowering.specs.Cases.{case_made};
ghost use Rattle.statement_parts.specs.Statements as plain;

use crate::choices::{case_shape, count_of, labels_at, lowered_at, refuse_dont_cares, shape_at};
use crate::hidden::HiddenVariables;
use crate::nodes::{
    assign_later_of, assign_of, await_of, block_of, delay_of, now_of, one_of, print_of, while_of,
};
use crate::prints::{PrintPlace, print_shown, task_of};
use model::tree::{EventExpression as CoreEvent, SourceExpression, SourceStatement};
use shaped_trees::shape::Shape;
use sizing::lowering::{lower, lower_assigned};
use statement_forms::choices::{Branch, any_fits_of, case_of, choice_of};
use statement_forms::events::happens_of;
use statement_forms::loops::{for_of, forever_of, repeat_of, wait_of};
use statement_parts::delays::{delay_at, given_delay_at};
use statement_parts::faults::{Lowered, StatementKind, fault};
use statement_parts::place::Around;
use statement_parts::reads::names_read;
use statement_parts::targets::{event_name, events_at, target_at};
use statement_parts::tasks::is_dump_task;
use statement_parts::times::is_time;
use statement_parts::waits::{changes_of, changes_of_names};
use std::alloc::Global;
use syntax_tree::expressions::{Identifier, VerilogExpression};
use syntax_tree::statements::{
    AssignmentForm, AssignmentTiming, BlockForm, CaseForm, CaseItem, ConditionalBranch,
    EventControl, VariableAssignment, VerilogStatement,
};

/// What is made of the items of a `case`: a branch for each that has labels, and what the default does, if there is one.
#[derive(Drop)]
struct CaseParts {
    branches: Vec<Branch>,
    otherwise: Vec<SourceStatement>,
}

/// An expression on its own.
fn alone(around: Around<'_>, e: &VerilogExpression) -> Lowered<SourceExpression>
    ensures { IfOk result (λ made. spec.IsSelfLowered (names_in_scope around.entry.design.now.tree.scopes.items around.entry.design.now.objects.items around.entry.scope) (plain_expression_of e.now) (source_expression_of made)) }
{
    let place = around.design.place(around.scope);
    let made = lower(around.alloc, &place, e, None)?;
    Ok(made)
}

/// The same, in a box.
fn alone_in_box(around: Around<'_>, e: &VerilogExpression) -> Lowered<Box<SourceExpression>>
    ensures { IfOk result (λ made. spec.IsSelfLowered (names_in_scope around.entry.design.now.tree.scopes.items around.entry.design.now.objects.items around.entry.scope) (plain_expression_of e.now) (source_expression_of made.value)) }
{
    let made = alone(around, e)?;
    Ok(Box::new(around.alloc, made)?)
}

/// Whether an assignment gives the time at once (17.7.1).
fn gives_time(form: AssignmentForm, delay: Option<u64>, value: &VerilogExpression) -> bool
    ensures { result ≡ spec.gives_time form delay (plain_expression_of value.now) }
{
    form == AssignmentForm::Blocking && delay.is_none() && is_time(value)
}

/// An assignment (9.2).
fn assignment(
    around: Around<'_>,
    token: usize,
    form: AssignmentForm,
    target: &VerilogExpression,
    timing: &Option<Box<AssignmentTiming>>,
    value: &VerilogExpression,
) -> Lowered<SourceStatement>
    ensures { IfOk result (λ made. spec.Lowers (surroundings around.entry.design.now) around.entry.scope
        (plain.Assignment token form (plain_expression_of target.now) (timing_of timing.now) (plain_expression_of value.now)) (source_statement_of made) []) }
{
    let place = around.design.place(around.scope);
    let target = target_at(around.alloc, &place, token, target)?;
    let delay = given_delay_at(around.alloc, &place, token, timing)?;
    if gives_time(form, delay, value) {
        return Ok(now_of(target.name));
    }
    let value = lower_assigned(around.alloc, &place, value, target.width)?;
    match form {
        AssignmentForm::Blocking => Ok(assign_of(target.name, delay, value)),
        AssignmentForm::Nonblocking => Ok(assign_later_of(target.name, delay, value)),
    }
}

/// An assignment of the head of a `for` (9.6).
fn head(around: Around<'_>, source: &VariableAssignment) -> Lowered<Box<SourceStatement>>
    ensures { IfOk result (λ made. spec.Lowers (surroundings around.entry.design.now) around.entry.scope (spec.head_assignment (plain_assignment source.now)) (source_statement_of made.value) []) }
{
    let made = assignment(
        around,
        source.token,
        AssignmentForm::Blocking,
        &source.target,
        &None,
        &source.value,
    )?;
    Ok(Box::new(around.alloc, made)?)
}

/// A statement behind a delay (9.7.1).
fn delayed(
    around: Around<'_>,
    token: usize,
    delay: &VerilogExpression,
    body: Box<SourceStatement>,
) -> Lowered<SourceStatement>
    ensures { IfOk result (λ made. spec.IsDelayed (surroundings around.entry.design.now) around.entry.scope (plain_expression_of delay.now) (source_statement_of body.value) (source_statement_of made)) }
{
    let place = around.design.place(around.scope);
    let delay = delay_at(around.alloc, &place, token, delay)?;
    Ok(delay_of(delay, body))
}

/// The events of an implicit event control before a statement: any change of what the statement reads (9.7.5). Refuses one that nothing
/// changes.
fn implicit_changes(
    around: Around<'_>,
    token: usize,
    s: &VerilogStatement,
) -> Lowered<Vec<CoreEvent>>
    ensures { IfOk result (λ made. AreControlEvents (surroundings around.entry.design.now) around.entry.scope plain.Implicit (plain_of s.now) (core_triggers made)) }
{
    let names = names_read(around, s)?;
    if names.is_empty() {
        return fault(token, StatementKind::ImplicitEvents);
    }
    let made = changes_of_names(around.alloc, names)?;
    Ok(made)
}

/// The events of an event control before a statement (9.7.2).
fn changes(
    around: Around<'_>,
    token: usize,
    control: &EventControl,
    s: &VerilogStatement,
) -> Lowered<Vec<CoreEvent>>
    ensures { IfOk result (λ made. AreControlEvents (surroundings around.entry.design.now) around.entry.scope (plain_control control.now) (plain_of s.now) (core_triggers made)) }
{
    match control {
        EventControl::Events(events) => {
            events_at(around.alloc, around.design, around.scope, events.as_slice())
        }
        EventControl::Implicit => implicit_changes(around, token, s),
    }
}

/// A statement behind an event control (9.7.2).
fn awaited(
    around: Around<'_>,
    token: usize,
    control: &EventControl,
    s: &VerilogStatement,
    body: Box<SourceStatement>,
) -> Lowered<SourceStatement>
    ensures { IfOk result (λ made. spec.IsAwaited (surroundings around.entry.design.now) around.entry.scope (plain_control control.now) (plain_of s.now) (source_statement_of body.value) (source_statement_of made)) }
{
    let events = changes(around, token, control, s)?;
    Ok(await_of(events, body))
}

/// The changes that a `wait` for a condition is for (9.7.6). Refuses a condition that no variable changes.
fn condition_changes(
    around: Around<'_>,
    token: usize,
    condition: &SourceExpression,
) -> Lowered<Vec<CoreEvent>>
    ensures { IfOk result (λ made. core_triggers made ≡ map whole_change (registers_of (source_expression_of condition.now))) }
{
    let changes = changes_of(around.alloc, condition)?;
    if changes.is_empty() {
        return fault(token, StatementKind::ConstantWait);
    }
    Ok(changes)
}

/// A statement behind a condition that is waited for (9.7.6). Refuses one that no variable changes.
fn waiting(
    around: Around<'_>,
    token: usize,
    condition: &VerilogExpression,
    body: Box<SourceStatement>,
) -> Lowered<SourceStatement>
    ensures { IfOk result (λ made. spec.IsWaitLoop (surroundings around.entry.design.now) around.entry.scope (plain_expression_of condition.now) (source_statement_of body.value) (source_statement_of made)) }
{
    let tree = alone_in_box(around, condition)?;
    let changes = condition_changes(around, token, &tree)?;
    let tree = Box::into_inner(tree);
    let body = Box::into_inner(body);
    let made = wait_of(around.alloc, tree, changes, body)?;
    Ok(made)
}

/// A named event happens (9.7.3).
fn triggered(
    around: Around<'_>,
    token: usize,
    event: &VerilogExpression,
) -> Lowered<SourceStatement>
    ensures { IfOk result (λ made. spec.Lowers (surroundings around.entry.design.now) around.entry.scope (plain.Trigger token (plain_expression_of event.now)) (source_statement_of made) []) }
{
    let found = event_name(around.alloc, around.design, around.scope, event)?;
    let Some(name) = found else {
        return fault(token, StatementKind::Event);
    };
    let made = happens_of(around.alloc, name.as_str())?;
    Ok(made)
}

/// Whether a system task ends the run (17.4).
fn ends_run(name: &[u8]) -> bool
    ensures { IsTrue result ↔ plain.EndsRun name.now }
{
    name == b"$finish".as_slice() || name == b"$stop".as_slice()
}

/// A system task's call (17.1, 17.4, 18.1).
fn system_task(
    around: Around<'_>,
    token: usize,
    name: &[u8],
    arguments: &[Option<VerilogExpression>],
) -> Lowered<SourceStatement>
    ensures { IfOk result (λ made. spec.Lowers (surroundings around.entry.design.now) around.entry.scope (plain.SystemTaskCall token name.now (map plain_argument arguments.now)) (source_statement_of made) []) }
{
    if ends_run(name) {
        return Ok(SourceStatement::Finish);
    }
    if is_dump_task(name) {
        return Ok(SourceStatement::Empty);
    }
    let Some(task) = task_of(name) else {
        return fault(token, StatementKind::SystemTask);
    };
    let at = PrintPlace {
        place: around.design.place(around.scope),
        path: around.design.tree.path(around.scope),
        token,
    };
    let shown = print_shown(around.alloc, at, arguments)?;
    Ok(print_of(task, shown))
}

/// A loop as long as a condition is true (9.6).
fn looping(
    around: Around<'_>,
    condition: &VerilogExpression,
    body: Box<SourceStatement>,
) -> Lowered<SourceStatement>
    ensures { IfOk result (λ made. spec.IsWhile (surroundings around.entry.design.now) around.entry.scope (plain_expression_of condition.now) (source_statement_of body.value) (source_statement_of made)) }
{
    let tree = alone_in_box(around, condition)?;
    let body = one_of(around.alloc, Box::into_inner(body))?;
    Ok(while_of(Box::into_inner(tree), body))
}

/// A `for` (9.6).
fn counting(
    around: Around<'_>,
    start: &VariableAssignment,
    condition: &VerilogExpression,
    step: &VariableAssignment,
    body: Box<SourceStatement>,
) -> Lowered<SourceStatement>
    ensures { IfOk result (λ made. spec.IsFor (surroundings around.entry.design.now) around.entry.scope (plain_assignment start.now) (plain_expression_of condition.now) (plain_assignment step.now) (source_statement_of body.value) (source_statement_of made)) }
{
    let first = head(around, start)?;
    let tree = alone_in_box(around, condition)?;
    let next = head(around, step)?;
    let made = for_of(
        around.alloc,
        Box::into_inner(first),
        Box::into_inner(tree),
        Box::into_inner(next),
        Box::into_inner(body),
    )?;
    Ok(made)
}

/// A `repeat`, with its count in a hidden variable (9.6).
fn repeated(
    around: Around<'_>,
    hidden: &mut HiddenVariables,
    token: usize,
    count: &VerilogExpression,
    body: Box<SourceStatement>,
) -> Lowered<SourceStatement>
    ensures { IfOk result (λ made. Makes (hidden_in hidden.old) (hidden_in hidden.new) (spec.IsRepeat (surroundings around.entry.design.now) around.entry.scope (plain_expression_of count.now) (source_statement_of body.value) (source_statement_of made))) }
{
    let place = around.design.place(around.scope);
    let shape = shape_at(around.alloc, &place, count)?;
    let width = shape.width;
    let counted = alone(around, count)?;
    let tree = count_of(around.alloc, shape, counted)?;
    let kept = Box::new(around.alloc, tree)?;
    let name = hidden.make(around.alloc, token, width)?;
    let tree = Box::into_inner(kept);
    let body = Box::into_inner(body);
    let made = repeat_of(around.alloc, name.as_str(), tree, body)?;
    Ok(made)
}

impl CaseParts {
    /// Nothing yet.
    fn new(alloc: Global) -> CaseParts
        ensures { case_made result ≡ spec.nothing_made }
    {
        CaseParts {
            branches: Vec::new(alloc),
            otherwise: Vec::new(alloc),
        }
    }

    /// Adds what the default does. Refuses a second one.
    fn add_default(&mut self, token: usize, body: Box<SourceStatement>) -> Lowered<()>
        ensures { OnOk result (spec.IsPartAdded None (source_statement_of body.value) (case_made self.old) (case_made self.new)) }
    {
        if !self.otherwise.is_empty() {
            return fault(token, StatementKind::SeveralDefaults);
        }
        self.otherwise.push(Box::into_inner(body))?;
        Ok(())
    }

    /// Adds a branch.
    fn add_branch(
        &mut self,
        alloc: Global,
        condition: SourceExpression,
        body: Box<SourceStatement>,
    ) -> Lowered<()>
        ensures { OnOk result (spec.IsPartAdded (Some (source_expression_of condition)) (source_statement_of body.value) (case_made self.old) (case_made self.new)) }
    {
        let condition = Box::new(alloc, condition)?;
        let body = one_of(alloc, Box::into_inner(body))?;
        let condition = Box::into_inner(condition);
        self.branches.push(Branch { condition, body })?;
        Ok(())
    }

    /// Adds an item, with what its statement stands for: a branch where one of its labels fits what a hidden variable holds, or the
    /// default where it has none (9.5).
    fn add_item(
        &mut self,
        around: Around<'_>,
        hidden: &str,
        shape: &Shape,
        item: &CaseItem,
        body: Box<SourceStatement>,
    ) -> Lowered<()>
        requires { spec.TakesAllIn (names_in_scope around.design.now.tree.scopes.items around.design.now.objects.items around.scope) shape.now (plain_item_of item.now).labels }
        ensures { OnOk result (spec.AddsItem (surroundings around.entry.design.now) around.entry.scope shape.now hidden.now (plain_item_of item.now).labels (source_statement_of body.value) (case_made self.old) (case_made self.new)) }
    {
        let place = around.design.place(around.scope);
        let trees = labels_at(around.alloc, &place, shape, item.labels.as_slice())?;
        let found = any_fits_of(around.alloc, hidden, trees)?;
        match found {
            Some(condition) => self.add_branch(around.alloc, condition, body),
            None => self.add_default(item.token, body),
        }
    }
}

/// Refuses `fork` (9.8.2).
fn refuse_parallel(token: usize, form: BlockForm) -> Lowered<()>
    ensures { OnOk result (form ≡ BlockForm.Sequential) }
{
    match form {
        BlockForm::Sequential => Ok(()),
        BlockForm::Parallel => fault(token, StatementKind::Fork),
    }
}

/// A statement without statements in it. Refuses what isn't supported yet, by its name.
fn without_body(around: Around<'_>, s: &VerilogStatement) -> Lowered<SourceStatement>
    ensures { IfOk result (λ made. spec.Lowers (surroundings around.entry.design.now) around.entry.scope (plain_of s.now) (source_statement_of made) []) }
{
    match s {
        VerilogStatement::Assignment {
            token,
            form,
            target,
            timing,
            value,
        } => assignment(around, *token, *form, target, timing, value),
        VerilogStatement::Trigger { token, event } => triggered(around, *token, event),
        VerilogStatement::SystemTaskCall {
            token,
            name,
            arguments,
        } => {
            let text = name.as_slice();
            let given = arguments.as_slice();
            system_task(around, *token, text, given)
        }
        VerilogStatement::Disable { token, .. } => fault(*token, StatementKind::Disable),
        VerilogStatement::TaskCall { token, .. } => fault(*token, StatementKind::Call),
        VerilogStatement::Refused { token } => fault(*token, StatementKind::Refused),
        VerilogStatement::Empty { .. } => Ok(SourceStatement::Empty),
        _ => fault(0, StatementKind::Refused),
    }
}

/// What a statement at a place stands for (9). Hidden variables are made where it needs some.
///
/// # Errors
///
/// What is wrong first, or isn't supported yet, at its token; `Memory` where memory is refused.
#[cycle(lowering)]
pub fn lower_statement(
    around: Around<'_>,
    hidden: &mut HiddenVariables,
    s: &VerilogStatement,
) -> Lowered<SourceStatement>
    ensures { IfOk result (λ made. Makes (hidden_in hidden.old) (hidden_in hidden.new) (spec.Lowers (surroundings around.entry.design.now) around.entry.scope (plain_of s.now) (source_statement_of made))) }
{
    let alloc = around.alloc;
    match s {
        VerilogStatement::Block {
            token,
            form,
            name,
            body,
            ..
        } => {
            refuse_parallel(*token, *form)?;
            lower_block(around, hidden, *token, name, body.as_slice())
        }
        VerilogStatement::Delayed { token, delay, body } => {
            let late = lower_in_box(around, hidden, body)?;
            delayed(around, *token, delay, late)
        }
        VerilogStatement::Awaited {
            token,
            control,
            body,
        } => {
            let woken = lower_in_box(around, hidden, body)?;
            awaited(around, *token, control, body, woken)
        }
        VerilogStatement::Wait {
            token,
            condition,
            body,
        } => {
            let behind = lower_in_box(around, hidden, body)?;
            waiting(around, *token, condition, behind)
        }
        VerilogStatement::If {
            branches,
            otherwise,
            ..
        } => {
            let ways = lower_branches(around, hidden, branches.as_slice())?;
            let last = lower_otherwise(around, hidden, otherwise)?;
            let choice = choice_of(alloc, ways, last)?;
            Ok(block_of(choice))
        }
        VerilogStatement::Case {
            token,
            form,
            selector,
            items,
        } => {
            refuse_dont_cares(*token, *form)?;
            lower_case(around, hidden, items.as_slice(), *token, selector)
        }
        VerilogStatement::For {
            start,
            condition,
            step,
            body,
            ..
        } => {
            let turn = lower_in_box(around, hidden, body)?;
            counting(around, start, condition, step, turn)
        }
        VerilogStatement::Repeat { token, count, body } => {
            let again = lower_in_box(around, hidden, body)?;
            repeated(around, hidden, *token, count, again)
        }
        VerilogStatement::While {
            condition,
            body,
            ..
        } => {
            let inner = lower_in_box(around, hidden, body)?;
            looping(around, condition, inner)
        }
        VerilogStatement::Forever { body, .. } => {
            let always = lower_statement(around, hidden, body)?;
            let turns = forever_of(alloc, always)?;
            Ok(turns)
        }
        _ => without_body(around, s),
    }
}

/// The same, in a box.
#[cycle(lowering)]
fn lower_in_box(
    around: Around<'_>,
    hidden: &mut HiddenVariables,
    s: &VerilogStatement,
) -> Lowered<Box<SourceStatement>>
    ensures { IfOk result (λ made. Makes (hidden_in hidden.old) (hidden_in hidden.new) (spec.Lowers (surroundings around.entry.design.now) around.entry.scope (plain_of s.now) (source_statement_of made.value))) }
{
    let made = lower_statement(around, hidden, s)?;
    Ok(Box::new(around.alloc, made)?)
}

/// What a block stands for (9.8.1).
#[cycle(lowering)]
fn lower_block(
    around: Around<'_>,
    hidden: &mut HiddenVariables,
    token: usize,
    name: &Option<Identifier>,
    body: &[VerilogStatement],
) -> Lowered<SourceStatement>
    ensures { IfOk result (λ made. Makes (hidden_in hidden.old) (hidden_in hidden.new) (spec.Lowers (surroundings around.entry.design.now) around.entry.scope (plain.Block token BlockForm.Sequential (name_in name.now) (plain_all_of body.now)) (source_statement_of made))) }
{
    let inner = around.inside(token, name)?;
    let made = lower_all(inner, hidden, body)?;
    Ok(block_of(made))
}

/// What statements at a place stand for, in their order.
#[cycle(lowering)]
fn lower_all(
    around: Around<'_>,
    hidden: &mut HiddenVariables,
    body: &[VerilogStatement],
) -> Lowered<Vec<SourceStatement>>
    ensures { IfOk result (λ made. Makes (hidden_in hidden.old) (hidden_in hidden.new) (spec.LowersAll (surroundings around.entry.design.now) around.entry.scope (plain_all_of body.now) (core_statements made))) }
{
    let mut made = Vec::new(around.alloc);
    for s in body {
        let next = lower_statement(around, hidden, s)?;
        made.push(next)?;
    }
    Ok(made)
}

/// What the branches of an `if` stand for, in their order (9.4).
#[cycle(lowering)]
fn lower_branches(
    around: Around<'_>,
    hidden: &mut HiddenVariables,
    branches: &[ConditionalBranch],
) -> Lowered<Vec<Branch>>
    ensures { IfOk result (λ made. Makes (hidden_in hidden.old) (hidden_in hidden.new) (spec.LowersBranches (surroundings around.entry.design.now) around.entry.scope (plain_branches_of branches.now) (map forms.branch_of made.items))) }
{
    let mut made = Vec::new(around.alloc);
    for branch in branches {
        let condition = alone_in_box(around, &branch.condition)?;
        let next = lower_statement(around, hidden, &branch.body)?;
        let body = one_of(around.alloc, next)?;
        let condition = Box::into_inner(condition);
        made.push(Branch { condition, body })?;
    }
    Ok(made)
}

/// What the last `else` stands for, where there is one (9.4).
#[cycle(lowering)]
fn lower_otherwise(
    around: Around<'_>,
    hidden: &mut HiddenVariables,
    otherwise: &Option<Box<VerilogStatement>>,
) -> Lowered<Vec<SourceStatement>>
    ensures { IfOk result (λ made. Makes (hidden_in hidden.old) (hidden_in hidden.new) (spec.LowersOtherwise (surroundings around.entry.design.now) around.entry.scope (otherwise_of otherwise.now) (core_statements made))) }
{
    match otherwise {
        Some(body) => {
            let made = lower_statement(around, hidden, body)?;
            let last = one_of(around.alloc, made)?;
            Ok(last)
        }
        None => Ok(Vec::new(around.alloc)),
    }
}

/// What a `case` stands for (9.5).
#[cycle(lowering)]
fn lower_case(
    around: Around<'_>,
    hidden: &mut HiddenVariables,
    items: &[CaseItem],
    token: usize,
    selector: &VerilogExpression,
) -> Lowered<SourceStatement>
    ensures { IfOk result (λ made. Makes (hidden_in hidden.old) (hidden_in hidden.new) (spec.Lowers (surroundings around.entry.design.now) around.entry.scope (plain.Case token CaseForm.Case (plain_expression_of selector.now) (plain_items_of items.now)) (source_statement_of made))) }
{
    let alloc = around.alloc;
    let place = around.design.place(around.scope);
    let shape = case_shape(alloc, &place, selector, items)?;
    let width = shape.width;
    let tree = lowered_at(alloc, &place, &shape, selector)?;
    let kept = Box::new(alloc, tree)?;
    let name = hidden.make(alloc, token, width)?;
    let parts = lower_items(around, hidden, &shape, name.as_str(), items)?;
    let tree = Box::into_inner(kept);
    let CaseParts {
        branches,
        otherwise,
    } = parts;
    let made = case_of(alloc, name.as_str(), tree, branches, otherwise)?;
    Ok(made)
}

/// What the items of a `case` stand for: a branch for each that has labels, and what the default does (9.5). Refuses a second default.
#[cycle(lowering)]
fn lower_items(
    around: Around<'_>,
    hidden: &mut HiddenVariables,
    shape: &Shape,
    name: &str,
    items: &[CaseItem],
) -> Lowered<CaseParts>
    requires { spec.TakesItemsIn (names_in_scope around.design.now.tree.scopes.items around.design.now.objects.items around.scope) shape.now (plain_items_of items.now) }
    ensures { IfOk result (λ parts. Makes (hidden_in hidden.old) (hidden_in hidden.new) (spec.LowersItems (surroundings around.entry.design.now) around.entry.scope shape.now name.now (plain_items_of items.now)
        (case_made parts).0 (case_made parts).1)) }
{
    let mut parts = CaseParts::new(around.alloc);
    for item in items {
        let body = lower_in_box(around, hidden, &item.body)?;
        parts.add_item(around, name, shape, item, body)?;
    }
    Ok(parts)
}
