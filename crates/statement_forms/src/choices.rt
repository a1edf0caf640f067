//! Choices between statements (9.4, 9.5).

ghost use Rattle.std.specs.Prelude.{◌≡◌, [], ◌∷◌, ◌++◌, None, map, option_map, IfOk};
ghost use Rattle.model.specs.SourceTrees.{source_expression_of, source_statement_of};
ghost use Rattle.model.specs.Syntax as syntax;
ghost use Rattle.statement_forms.specs.Views.{core_expressions, core_statements};
ghost use Rattle.statement_forms.specs.Forms as spec;

use crate::build::{assign_of, beside, binary_of, block_of, if_else_of, name_of};
use model::tree::{BinaryOperator, SourceExpression, SourceStatement};
use std::alloc::{AllocError, Global};

/// A condition, and the statements that are run where it is true.
#[derive(Drop)]
pub struct Branch {
    pub condition: SourceExpression,
    pub body: Vec<SourceStatement>,
}

/// One branch before others. Fails where memory is refused.
fn before(
    alloc: Global,
    branch: Branch,
    otherwise: Vec<SourceStatement>,
) -> Result<Vec<SourceStatement>, AllocError>
    ensures { IfOk result (λ made. core_statements made ≡ spec.if_chain (spec.branch_of branch ∷ []) (core_statements otherwise)) }
{
    let Branch { condition, body } = branch;
    let mut made = Vec::new(alloc);
    made.push(if_else_of(condition, body, otherwise))?;
    Ok(made)
}

/// `if`, each `else if`, and the last `else` (9.4). Fails where memory is refused.
pub fn choice_of(
    alloc: Global,
    branches: Vec<Branch>,
    otherwise: Vec<SourceStatement>,
) -> Result<Vec<SourceStatement>, AllocError>
    ensures { IfOk result (λ made. core_statements made ≡ spec.if_chain (map spec.branch_of branches.items) (core_statements otherwise)) }
{
    let mut left = branches;
    let mut made = otherwise;
    while let Some(branch) = left.pop() {
        let more = before(alloc, branch, made)?;
        made = more;
    }
    Ok(made)
}

/// Whether a label is what a variable holds. Fails where memory is refused.
fn fits_of(
    alloc: Global,
    hidden: &str,
    label: SourceExpression,
) -> Result<SourceExpression, AllocError>
    ensures { IfOk result (λ made. source_expression_of made ≡ spec.fits hidden.now (source_expression_of label)) }
{
    let (label, name) = beside(label, name_of(alloc, hidden))?;
    binary_of(alloc, BinaryOperator::CaseEqual, name, label)
}

/// One condition or another, if there is another. Fails where memory is refused.
fn or_also(
    alloc: Global,
    condition: SourceExpression,
    other: Option<SourceExpression>,
) -> Result<SourceExpression, AllocError>
    ensures { IfOk result (λ made. source_expression_of made ≡ spec.or_also (source_expression_of condition) (option_map source_expression_of other)) }
{
    match other {
        None => Ok(condition),
        Some(other) => binary_of(alloc, BinaryOperator::LogicalOr, condition, other),
    }
}

/// Whether a label is what a variable holds, or else what comes behind it. Fails where memory is refused.
fn fits_or(
    alloc: Global,
    hidden: &str,
    label: SourceExpression,
    behind: Option<SourceExpression>,
) -> Result<Option<SourceExpression>, AllocError>
    ensures { IfOk result (λ made. option_map source_expression_of made ≡ spec.any_fits hidden.now (source_expression_of label ∷ []) (option_map source_expression_of behind)) }
{
    let (behind, here) = beside(behind, fits_of(alloc, hidden, label))?;
    Ok(Some(or_also(alloc, here, behind)?))
}

/// Whether one of the labels of an item is what a variable holds (9.5); nothing where there is no label. Fails where memory is
/// refused.
pub fn any_fits_of(
    alloc: Global,
    hidden: &str,
    labels: Vec<SourceExpression>,
) -> Result<Option<SourceExpression>, AllocError>
    ensures { IfOk result (λ made. option_map source_expression_of made ≡ spec.any_fits hidden.now (core_expressions labels) None) }
{
    let mut left = labels;
    let mut found = None;
    while let Some(label) = left.pop() {
        let more = fits_or(alloc, hidden, label, found)?;
        found = more;
    }
    Ok(found)
}

/// `case (selector) ..`, whose selector is held by a hidden variable (9.5). Fails where memory is refused.
pub fn case_of(
    alloc: Global,
    hidden: &str,
    selector: SourceExpression,
    branches: Vec<Branch>,
    otherwise: Vec<SourceStatement>,
) -> Result<SourceStatement, AllocError>
    ensures { IfOk result (λ made. source_statement_of made ≡ spec.case_of hidden.now (source_expression_of selector) (map spec.branch_of branches.items) (core_statements otherwise)) }
{
    let (selector, name) = beside(selector, String::from_str(alloc, hidden))?;
    let taken = assign_of(name, None, selector);
    let (start, chosen) = beside(taken, choice_of(alloc, branches, otherwise))?;
    let mut made = chosen;
    made.insert(0, start)?;
    Ok(block_of(made))
}
