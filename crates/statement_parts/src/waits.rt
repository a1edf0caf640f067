//! What a condition waits for (9.7.6), and any change of variables.

ghost use Rattle.std.specs.Prelude.{◌≡◌, [], ◌∷◌, ◌++◌, map, string_bytes, IfOk, OnOk};
ghost use Rattle.model.specs.SourceTrees.{source_expression_of, source_expressions};
ghost use Rattle.model.specs.Syntax.{registers_of, all_registers_of};
ghost use Rattle.statement_forms.specs.Views.{core_triggers};
ghost use Rattle.statement_parts.specs.Parts.{whole_change};

use model::tree::{Change, EventExpression, SourceExpression};
use std::alloc::{AllocError, Global};

/// Adds any change of a register.
#[tactic(auto, using(crate::proofs::Names::pushed_event))]
fn add_change(alloc: Global, found: &mut Vec<EventExpression>, name: &str) -> Result<(), AllocError>
    ensures { OnOk result (core_triggers found.new ≡ core_triggers found.old ++ whole_change name.now ∷ []) }
{
    let name = String::from_str(alloc, name)?;
    found.push(EventExpression {
        change: Change::Any,
        name,
    })?;
    Ok(())
}

/// Adds any change of each register that an expression names.
#[cycle(changes)]
fn add_changes(
    alloc: Global,
    found: &mut Vec<EventExpression>,
    e: &SourceExpression,
) -> Result<(), AllocError>
    ensures { OnOk result (core_triggers found.new ≡ core_triggers found.old ++ map whole_change (registers_of (source_expression_of e.now))) }
{
    match e {
        SourceExpression::Name(name) => add_change(alloc, found, name.as_str()),
        SourceExpression::Select(name, _) => add_change(alloc, found, name.as_str()),
        SourceExpression::Literal(_) => Ok(()),
        SourceExpression::Concat(first, others) => {
            add_changes(alloc, found, first)?;
            add_all_changes(alloc, found, others.as_slice())
        }
        SourceExpression::Unary(_, operand) => add_changes(alloc, found, operand),
        SourceExpression::Binary(_, left, right) => {
            add_changes(alloc, found, left)?;
            add_changes(alloc, found, right)
        }
        SourceExpression::Conditional(condition, first, second) => {
            add_changes(alloc, found, condition)?;
            add_changes(alloc, found, first)?;
            add_changes(alloc, found, second)
        }
        SourceExpression::Extend(_, _, operand) => add_changes(alloc, found, operand),
    }
}

/// Adds any change of each register that expressions name.
#[cycle(changes)]
fn add_all_changes(
    alloc: Global,
    found: &mut Vec<EventExpression>,
    parts: &[SourceExpression],
) -> Result<(), AllocError>
    ensures { OnOk result (core_triggers found.new ≡ core_triggers found.old ++ map whole_change (all_registers_of (source_expressions (map source_expression_of parts.now)))) }
{
    for part in parts {
        add_changes(alloc, found, part)?;
    }
    Ok(())
}

/// Any change of each register that an expression names, from left to right. Fails where memory is refused.
pub fn changes_of(alloc: Global, e: &SourceExpression) -> Result<Vec<EventExpression>, AllocError>
    ensures { IfOk result (λ made. core_triggers made ≡ map whole_change (registers_of (source_expression_of e.now))) }
{
    let mut found = Vec::new(alloc);
    add_changes(alloc, &mut found, e)?;
    Ok(found)
}

/// Any change of variables, by their names. Fails where memory is refused.
pub fn changes_of_names(
    alloc: Global,
    names: Vec<String>,
) -> Result<Vec<EventExpression>, AllocError>
    ensures { IfOk result (λ made. core_triggers made ≡ map whole_change (map string_bytes names.items)) }
{
    let mut made = Vec::new(alloc);
    for name in names {
        made.push(EventExpression {
            change: Change::Any,
            name,
        })?;
    }
    Ok(made)
}
