//! The shapes at which a `case` compares (9.5), and counts (9.6).

ghost use Rattle.std.specs.Prelude.{◌≡◌, ◌∷◌, map, IfOk, OnOk};
ghost use Rattle.design_scopes.specs.Places.{means};
ghost use Rattle.model.specs.SourceTrees.{source_expression_of};
ghost use Rattle.syntax_tree.specs.Expressions.{plain_expression_of};
ghost use Rattle.sizing.specs.Meanings.{meaning, own_shape};
ghost use Rattle.sizing.specs.Typing.{IsLowered, joined_shape};
ghost use Rattle.statement_forms.specs.Views.{core_expressions};
ghost use Rattle.model.specs.Syntax as core;
ghost use Rattle.lowering.specs.Lowering as spec;
ghost use Rattle.statement_parts.specs.Statements.{plain_items_of};

use design_scopes::places::ScopePlace;
use logic4::bits::Bits;
use logic4::size::Size;
use model::tree::{BinaryOperator, SourceExpression};
use shaped_trees::shape::Shape;
use shaped_trees::trees::{MadeTree, binary_of, conditional_of, copied, literal_of};
use sizing::lowering::{lower, typed_expression};
use statement_parts::faults::{Lowered, StatementKind, fault};
use std::alloc::Global;
use syntax_tree::expressions::VerilogExpression;
use syntax_tree::statements::{CaseForm, CaseItem};

/// The size and the sign that an expression has of its own.
pub fn shape_at(alloc: Global, place: &ScopePlace<'_>, e: &VerilogExpression) -> Lowered<Shape>
    ensures { IfOk result (λ shape. shape ≡ own_shape (meaning (means place.now) (plain_expression_of e.now))) }
{
    let found = typed_expression(alloc, place, e)?;
    Ok(found.shape())
}

/// A shape joined with those of labels.
fn labels_shape(
    alloc: Global,
    place: &ScopePlace<'_>,
    shape: Shape,
    labels: &[VerilogExpression],
) -> Lowered<Shape>
    ensures { IfOk result (λ found. found ≡ spec.labels_shape (means place.now) shape (map plain_expression_of labels.now)) }
{
    let mut found = shape;
    for label in labels {
        let own = shape_at(alloc, place, label)?;
        found = found.joined(own);
    }
    Ok(found)
}

/// The shape at which a `case` compares its selector with its labels (9.5).
pub fn case_shape(
    alloc: Global,
    place: &ScopePlace<'_>,
    selector: &VerilogExpression,
    items: &[CaseItem],
) -> Lowered<Shape>
    ensures { IfOk result (λ found. found ≡ spec.case_shape (means place.now) (plain_expression_of selector.now) (plain_items_of items.now)) }
{
    let mut found = shape_at(alloc, place, selector)?;
    for item in items {
        let wider = labels_shape(alloc, place, found, item.labels.as_slice())?;
        found = wider;
    }
    Ok(found)
}

/// The tree of an expression with what stands around it at a shape.
pub fn lowered_at(
    alloc: Global,
    place: &ScopePlace<'_>,
    shape: &Shape,
    e: &VerilogExpression,
) -> Lowered<SourceExpression>
    ensures { IfOk result (λ made. IsLowered (means place.now) (meaning (means place.now) (plain_expression_of e.now)) (joined_shape (own_shape (meaning (means place.now) (plain_expression_of e.now))) shape.now) (source_expression_of made)) }
{
    let made = lower(alloc, place, e, Some(*shape))?;
    Ok(made)
}

/// Labels at the shape at which they are compared, which takes each of them in.
pub fn labels_at(
    alloc: Global,
    place: &ScopePlace<'_>,
    shape: &Shape,
    labels: &[VerilogExpression],
) -> Lowered<Vec<SourceExpression>>
    requires { spec.TakesAllIn (means place.now) shape.now (map plain_expression_of labels.now) }
    ensures { IfOk result (λ made. spec.AreLowered (means place.now) shape.now (map plain_expression_of labels.now) (core_expressions made)) }
{
    let mut made = Vec::new(alloc);
    for label in labels {
        let tree = lowered_at(alloc, place, shape, label)?;
        made.push(tree)?;
    }
    Ok(made)
}

/// Refuses `casez` and `casex` (9.5.1).
pub fn refuse_dont_cares(token: usize, form: CaseForm) -> Lowered<()>
    ensures { OnOk result (form ≡ CaseForm.Case) }
{
    match form {
        CaseForm::Case => Ok(()),
        CaseForm::DontCareZ => fault(token, StatementKind::DontCares),
        CaseForm::DontCareX => fault(token, StatementKind::DontCares),
    }
}

/// Zeros of a width.
fn zeros(width: Size) -> SourceExpression
    ensures { source_expression_of result ≡ spec.zeros width }
{
    literal_of(Bits::from_u64(width.get(), 0))
}

/// Whether a count with a sign is negative. Fails where memory is refused.
fn is_negative(alloc: Global, width: Size, count: &SourceExpression) -> MadeTree<SourceExpression>
    ensures { IfOk result (λ made. source_expression_of made ≡ core.Binary BinaryOperator.SignedLess (source_expression_of count.now) (spec.zeros width)) }
{
    let compared = copied(alloc, count)?;
    binary_of(alloc, BinaryOperator::SignedLess, compared, zeros(width))
}

/// A count of a shape, which is 0 where it has a sign and is negative. Fails where memory is refused.
pub fn count_of(alloc: Global, shape: Shape, count: SourceExpression) -> MadeTree<SourceExpression>
    ensures { IfOk result (λ made. source_expression_of made ≡ spec.count_tree shape.signed shape.width (source_expression_of count)) }
{
    if !shape.signed {
        return Ok(count);
    }
    let count = Box::new(alloc, count)?;
    let negative = is_negative(alloc, shape.width, &count)?;
    let count = Box::into_inner(count);
    conditional_of(alloc, negative, zeros(shape.width), count)
}
