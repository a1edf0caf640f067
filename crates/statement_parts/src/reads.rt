//! What statements read, for implicit event controls (9.7.5).

ghost use Rattle.std.specs.Prelude.{◌≡◌, [], ◌∷◌, ◌++◌, map, Some, string_bytes, codes, IfOk, OnOk};
ghost use Rattle.std.specs.List.{list_any};
ghost use Rattle.std.specs.Str.{bytes_eq};
ghost use Rattle.syntax_tree.specs.Expressions.{plain_expression_of, plain_expressions};
ghost use Rattle.sizing.specs.Meanings.{meaning};
ghost use Rattle.statement_parts.specs.Statements.{plain_of, plain_all_of, plain_branches_of, plain_items_of, plain_argument, plain_assignment, otherwise_of, name_in};
ghost use Rattle.statement_parts.specs.Surroundings.{inner_scope};
ghost use Rattle.statement_parts.specs.Places.{surroundings, names_around};
ghost use Rattle.statement_parts.specs.Reads as spec;

use crate::faults::Lowered;
use crate::place::Around;
use sizing::environment::{Object, ObjectValue};
use sizing::lowering::named_object;
use std::alloc::{AllocError, Global};
use syntax_tree::expressions::{Identifier, VerilogExpression};
use syntax_tree::statements::{CaseItem, ConditionalBranch, VariableAssignment, VerilogStatement};

/// Adds a copy of a name. Fails where memory is refused.
#[tactic(auto, using(crate::proofs::Names::pushed_name))]
fn add_copy(alloc: Global, found: &mut Vec<String>, name: &str) -> Result<(), AllocError>
    ensures { OnOk result (map string_bytes found.new.items ≡ map string_bytes found.old.items ++ name.now ∷ []) }
{
    let copy = String::from_str(alloc, name)?;
    found.push(copy)?;
    Ok(())
}

/// Adds the flat name of an object, where it varies. Fails where memory is refused.
fn add_object(alloc: Global, found: &mut Vec<String>, object: &Object) -> Result<(), AllocError>
    ensures { OnOk result (map string_bytes found.new.items ≡ map string_bytes found.old.items ++ spec.varying (Some object.now)) }
{
    match &object.value {
        ObjectValue::Variable(name) => add_copy(alloc, found, name.as_str()),
        ObjectValue::Constant(_) => Ok(()),
    }
}

/// Adds the variable that a name stands for, alone or behind scopes (12.5).
fn add_named(around: Around<'_>, found: &mut Vec<String>, e: &VerilogExpression) -> Lowered<()>
    ensures { OnOk result (map string_bytes found.new.items ≡ map string_bytes found.old.items ++ spec.varying (meaning (names_around around.entry) (plain_expression_of e.now)).object) }
{
    let here = around.design.place(around.scope);
    let object = named_object(around.alloc, &here, e)?;
    add_object(around.alloc, found, object)?;
    Ok(())
}

/// Adds the variables that an expression reads, from left to right.
#[cycle(expressions)]
fn add_reads(around: Around<'_>, found: &mut Vec<String>, e: &VerilogExpression) -> Lowered<()>
    ensures { OnOk result (map string_bytes found.new.items ≡ map string_bytes found.old.items ++ spec.read_by (names_around around.entry) (plain_expression_of e.now)) }
{
    match e {
        VerilogExpression::Name { .. } => add_named(around, found, e),
        VerilogExpression::Member { .. } => add_named(around, found, e),
        VerilogExpression::Index { base, index, .. } => {
            add_reads(around, found, base)?;
            add_reads(around, found, index)
        }
        VerilogExpression::Part {
            base,
            first,
            second,
            ..
        } => {
            add_reads(around, found, base)?;
            add_reads(around, found, first)?;
            add_reads(around, found, second)
        }
        VerilogExpression::Call { arguments, .. } => add_all_reads(
            around,
            found,
            arguments.as_slice(),
        ),
        VerilogExpression::SystemCall { arguments, .. } => {
            add_all_reads(around, found, arguments.as_slice())
        }
        VerilogExpression::Concatenation { parts, .. } => add_all_reads(
            around,
            found,
            parts.as_slice(),
        ),
        VerilogExpression::Replication { parts, .. } => add_all_reads(
            around,
            found,
            parts.as_slice(),
        ),
        VerilogExpression::Unary { operand, .. } => add_reads(around, found, operand),
        VerilogExpression::Binary { left, right, .. } => {
            add_reads(around, found, left)?;
            add_reads(around, found, right)
        }
        VerilogExpression::Conditional {
            condition,
            first,
            second,
            ..
        } => {
            add_reads(around, found, condition)?;
            add_reads(around, found, first)?;
            add_reads(around, found, second)
        }
        VerilogExpression::Number { .. } => Ok(()),
        VerilogExpression::Real { .. } => Ok(()),
        VerilogExpression::Text { .. } => Ok(()),
        VerilogExpression::Refused { .. } => Ok(()),
    }
}

/// Adds the variables that expressions read, in their order.
#[cycle(expressions)]
fn add_all_reads(
    around: Around<'_>,
    found: &mut Vec<String>,
    parts: &[VerilogExpression],
) -> Lowered<()>
    ensures { OnOk result (map string_bytes found.new.items ≡ map string_bytes found.old.items ++ spec.all_read_by (names_around around.entry) (plain_expressions (map plain_expression_of parts.now))) }
{
    for part in parts {
        add_reads(around, found, part)?;
    }
    Ok(())
}

/// Adds what the target of an assignment reads: its indices, and those of its parts.
#[cycle(targets)]
fn add_target_reads(
    around: Around<'_>,
    found: &mut Vec<String>,
    target: &VerilogExpression,
) -> Lowered<()>
    ensures { OnOk result (map string_bytes found.new.items ≡ map string_bytes found.old.items ++ spec.target_reads (names_around around.entry) (plain_expression_of target.now)) }
{
    match target {
        VerilogExpression::Index { base, index, .. } => {
            add_target_reads(around, found, base)?;
            add_reads(around, found, index)
        }
        VerilogExpression::Part {
            base,
            first,
            second,
            ..
        } => {
            add_target_reads(around, found, base)?;
            add_reads(around, found, first)?;
            add_reads(around, found, second)
        }
        VerilogExpression::Concatenation { parts, .. } => {
            add_all_target_reads(around, found, parts.as_slice())
        }
        _ => Ok(()),
    }
}

/// Adds what the targets of an assignment read, in their order.
#[cycle(targets)]
fn add_all_target_reads(
    around: Around<'_>,
    found: &mut Vec<String>,
    parts: &[VerilogExpression],
) -> Lowered<()>
    ensures { OnOk result (map string_bytes found.new.items ≡ map string_bytes found.old.items ++ spec.all_target_reads (names_around around.entry) (plain_expressions (map plain_expression_of parts.now))) }
{
    for part in parts {
        add_target_reads(around, found, part)?;
    }
    Ok(())
}

/// Adds what an assignment reads: the indices of its target, and what its value reads.
fn add_assigned_reads(
    around: Around<'_>,
    found: &mut Vec<String>,
    target: &VerilogExpression,
    value: &VerilogExpression,
) -> Lowered<()>
    ensures { OnOk result (map string_bytes found.new.items ≡ map string_bytes found.old.items ++ spec.assigned_reads (names_around around.entry) (plain_expression_of target.now) (plain_expression_of value.now)) }
{
    add_target_reads(around, found, target)?;
    add_reads(around, found, value)
}

/// Adds what the head of a `for` reads, in the order of the text.
fn add_head_reads(
    around: Around<'_>,
    found: &mut Vec<String>,
    start: &VariableAssignment,
    condition: &VerilogExpression,
    step: &VariableAssignment,
) -> Lowered<()>
    ensures { OnOk result (map string_bytes found.new.items ≡ map string_bytes found.old.items ++ spec.head_reads (names_around around.entry) (plain_assignment start.now) (plain_expression_of condition.now) (plain_assignment step.now)) }
{
    add_assigned_reads(around, found, &start.target, &start.value)?;
    add_reads(around, found, condition)?;
    add_assigned_reads(around, found, &step.target, &step.value)
}

/// Adds what an argument of a call reads, which may be left out.
fn add_argument_reads(
    around: Around<'_>,
    found: &mut Vec<String>,
    argument: &Option<VerilogExpression>,
) -> Lowered<()>
    ensures { OnOk result (map string_bytes found.new.items ≡ map string_bytes found.old.items ++ spec.argument_reads (names_around around.entry) (plain_argument argument.now)) }
{
    match argument {
        Some(e) => add_reads(around, found, e),
        None => Ok(()),
    }
}

/// Adds what the arguments of a call read.
fn add_all_argument_reads(
    around: Around<'_>,
    found: &mut Vec<String>,
    arguments: &[Option<VerilogExpression>],
) -> Lowered<()>
    ensures { OnOk result (map string_bytes found.new.items ≡ map string_bytes found.old.items ++ spec.all_argument_reads (names_around around.entry) (map plain_argument arguments.now)) }
{
    for argument in arguments {
        add_argument_reads(around, found, argument)?;
    }
    Ok(())
}

/// The full name of a scope, with what stands behind it in the names of what it declares. Fails where memory is refused.
fn front_of(alloc: Global, path: &str) -> Result<String, AllocError>
    ensures { IfOk result (λ made. string_bytes made ≡ path.now ++ codes ".") }
{
    let mut made = String::from_str(alloc, path)?;
    made.push_str(".")?;
    Ok(made)
}

/// Adds a name, unless it begins with a text.
#[tactic(auto, using(crate::proofs::Names::pushed_name, crate::proofs::Names::unless_left, crate::proofs::Names::unless_added))]
fn add_unless(found: &mut Vec<String>, front: &str, name: String) -> Result<(), AllocError>
    ensures { OnOk result (map string_bytes found.new.items ≡ map string_bytes found.old.items ++ spec.unless_front front.now (string_bytes name)) }
{
    if name.as_bytes().starts_with(front.as_bytes()) {
        return Ok(());
    }
    found.push(name)?;
    Ok(())
}

/// Adds names, but for those that begin with a text.
fn add_others(found: &mut Vec<String>, front: &str, names: Vec<String>) -> Result<(), AllocError>
    ensures { OnOk result (map string_bytes found.new.items ≡ map string_bytes found.old.items ++ spec.without_front front.now (map string_bytes names.items)) }
{
    for name in names {
        add_unless(found, front, name)?;
    }
    Ok(())
}

/// Adds names, but for those of what a block declares.
fn add_outer(
    alloc: Global,
    found: &mut Vec<String>,
    path: &str,
    names: Vec<String>,
) -> Result<(), AllocError>
    ensures { OnOk result (map string_bytes found.new.items ≡ map string_bytes found.old.items ++ spec.without_declared path.now (map string_bytes names.items)) }
{
    let front = front_of(alloc, path)?;
    add_others(found, front.as_str(), names)
}

/// Adds what a statement reads, in the order of the text.
#[cycle(reading)]
fn add_statement_reads(
    around: Around<'_>,
    found: &mut Vec<String>,
    s: &VerilogStatement,
) -> Lowered<()>
    ensures { OnOk result (map string_bytes found.new.items ≡ map string_bytes found.old.items ++ spec.read_in (surroundings around.entry.design.now) around.entry.scope (plain_of s.now)) }
{
    match s {
        VerilogStatement::Block {
            token,
            name,
            body,
            ..
        } => add_block_reads(around, found, *token, name, body.as_slice()),
        VerilogStatement::Assignment { target, value, .. } => {
            add_assigned_reads(around, found, target, value)
        }
        VerilogStatement::Delayed { body, .. } => add_statement_reads(around, found, body),
        VerilogStatement::Awaited { body, .. } => add_statement_reads(around, found, body),
        VerilogStatement::Wait { body, .. } => add_statement_reads(around, found, body),
        VerilogStatement::If {
            branches,
            otherwise,
            ..
        } => {
            add_branch_reads(around, found, branches.as_slice())?;
            add_else_reads(around, found, otherwise)
        }
        VerilogStatement::Case {
            selector,
            items,
            ..
        } => {
            add_reads(around, found, selector)?;
            add_item_reads(around, found, items.as_slice())
        }
        VerilogStatement::For {
            start,
            condition,
            step,
            body,
            ..
        } => {
            add_head_reads(around, found, start, condition, step)?;
            add_statement_reads(around, found, body)
        }
        VerilogStatement::Repeat { count, body, .. } => {
            add_reads(around, found, count)?;
            add_statement_reads(around, found, body)
        }
        VerilogStatement::While {
            condition,
            body,
            ..
        } => {
            add_reads(around, found, condition)?;
            add_statement_reads(around, found, body)
        }
        VerilogStatement::Forever { body, .. } => add_statement_reads(around, found, body),
        VerilogStatement::TaskCall { arguments, .. } => {
            add_all_reads(around, found, arguments.as_slice())
        }
        VerilogStatement::SystemTaskCall { arguments, .. } => {
            add_all_argument_reads(around, found, arguments.as_slice())
        }
        VerilogStatement::Empty { .. } => Ok(()),
        VerilogStatement::Disable { .. } => Ok(()),
        VerilogStatement::Trigger { .. } => Ok(()),
        VerilogStatement::Refused { .. } => Ok(()),
    }
}

/// Adds what the statements of a block read, without the variables of the block itself.
#[cycle(reading)]
fn add_block_reads(
    around: Around<'_>,
    found: &mut Vec<String>,
    token: usize,
    name: &Option<Identifier>,
    body: &[VerilogStatement],
) -> Lowered<()>
    ensures { OnOk result (map string_bytes found.new.items ≡ map string_bytes found.old.items
        ++ spec.read_inside (surroundings around.entry.design.now) (inner_scope (surroundings around.entry.design.now) around.entry.scope (name_in name.now)) (name_in name.now) (λ inner. spec.read_in_all (surroundings around.entry.design.now) inner (plain_all_of body.now))) }
{
    let inner = around.inside(token, name)?;
    if name.is_none() {
        return add_body_reads(inner, found, body);
    }
    let mut read = Vec::new(around.alloc);
    add_body_reads(inner, &mut read, body)?;
    let path = inner.design.tree.path(inner.scope);
    add_outer(around.alloc, found, path, read)?;
    Ok(())
}

/// Adds what statements read, in their order.
#[cycle(reading)]
fn add_body_reads(
    around: Around<'_>,
    found: &mut Vec<String>,
    body: &[VerilogStatement],
) -> Lowered<()>
    ensures { OnOk result (map string_bytes found.new.items ≡ map string_bytes found.old.items ++ spec.read_in_all (surroundings around.entry.design.now) around.entry.scope (plain_all_of body.now)) }
{
    for s in body {
        add_statement_reads(around, found, s)?;
    }
    Ok(())
}

/// Adds what the branches of an `if` read, in their order.
#[cycle(reading)]
fn add_branch_reads(
    around: Around<'_>,
    found: &mut Vec<String>,
    branches: &[ConditionalBranch],
) -> Lowered<()>
    ensures { OnOk result (map string_bytes found.new.items ≡ map string_bytes found.old.items ++ spec.read_in_branches (surroundings around.entry.design.now) around.entry.scope (plain_branches_of branches.now)) }
{
    for branch in branches {
        add_reads(around, found, &branch.condition)?;
        add_statement_reads(around, found, &branch.body)?;
    }
    Ok(())
}

/// Adds what the last `else` of an `if` reads, where there is one.
#[cycle(reading)]
fn add_else_reads(
    around: Around<'_>,
    found: &mut Vec<String>,
    otherwise: &Option<Box<VerilogStatement>>,
) -> Lowered<()>
    ensures { OnOk result (map string_bytes found.new.items ≡ map string_bytes found.old.items ++ spec.read_in_else (surroundings around.entry.design.now) around.entry.scope (otherwise_of otherwise.now)) }
{
    match otherwise {
        Some(body) => add_statement_reads(around, found, body),
        None => Ok(()),
    }
}

/// Adds what the items of a `case` read, in their order.
#[cycle(reading)]
fn add_item_reads(around: Around<'_>, found: &mut Vec<String>, items: &[CaseItem]) -> Lowered<()>
    ensures { OnOk result (map string_bytes found.new.items ≡ map string_bytes found.old.items ++ spec.read_in_items (surroundings around.entry.design.now) around.entry.scope (plain_items_of items.now)) }
{
    for item in items {
        add_all_reads(around, found, item.labels.as_slice())?;
        add_statement_reads(around, found, &item.body)?;
    }
    Ok(())
}

/// Whether a name is among some.
fn is_among(names: &[String], name: &str) -> bool
    ensures { result ≡ list_any (bytes_eq name.now) (map string_bytes names.now) }
{
    for other in names {
        if name == other.as_str() {
            return true;
        }
    }
    false
}

/// Adds a name, unless it is there already.
#[tactic(auto, using(crate::proofs::Names::pushed_name, crate::proofs::Names::with_left, crate::proofs::Names::with_added))]
fn add_new(names: &mut Vec<String>, name: String) -> Result<(), AllocError>
    ensures { OnOk result (map string_bytes names.new.items ≡ spec.with_name (map string_bytes names.old.items) (string_bytes name)) }
{
    if is_among(names.as_slice(), name.as_str()) {
        return Ok(());
    }
    names.push(name)?;
    Ok(())
}

/// Names, each once, in their order.
fn each_once(alloc: Global, names: Vec<String>) -> Result<Vec<String>, AllocError>
    ensures { IfOk result (λ made. map string_bytes made.items ≡ spec.added_once [] (map string_bytes names.items)) }
{
    let mut made = Vec::new(alloc);
    for name in names {
        add_new(&mut made, name)?;
    }
    Ok(made)
}

/// The variables that a statement reads, each once, in the order of the text (9.7.5).
pub fn names_read(around: Around<'_>, s: &VerilogStatement) -> Lowered<Vec<String>>
    ensures { IfOk result (λ names. map string_bytes names.items ≡ spec.names_read (surroundings around.entry.design.now) around.entry.scope (plain_of s.now)) }
{
    let mut read = Vec::new(around.alloc);
    add_statement_reads(around, &mut read, s)?;
    let names = each_once(around.alloc, read)?;
    Ok(names)
}
