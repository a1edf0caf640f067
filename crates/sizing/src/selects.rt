//! Bits and parts of objects, by constants (5.2.1).

ghost use Rattle.std.specs.Prelude.{◌≡◌, ◌^◌, map, Some, IfOk};
ghost use Rattle.model.specs.SourceTrees.{source_expression_of};
ghost use Rattle.sizing.specs.Names.{Names, IsNamedObject, object_width};
ghost use Rattle.ranges.specs.Ranges as range;
ghost use Rattle.sizing.specs.Meanings as meaning;
ghost use Rattle.sizing.specs.Meanings.{Meaning, constant_integer};
ghost use Rattle.sizing.specs.Typing.{Types};
ghost use Rattle.sizing.specs.Digits as digits;
ghost use Rattle.ranges.specs.Ranges.{IsNearRange, IsWindow, IsNoFurther, IsNearPlace};
ghost use Rattle.sizing.specs.Digits.{digit_tree, digit_trees, digits_tree};

use crate::environment::{Object, ObjectValue};
use crate::faults::{ExpressionFaultKind, TakenExpression, fault};
use crate::typed::Typed;
use logic4::bits::Bits;
use logic4::size::Size;
use model::tree::SourceExpression;
use ranges::range::{VectorRange, is_near, place_in};
use ranges::window::window_of;
use shaped_trees::shape::Shape;
use shaped_trees::trees::{MadeTree, concat_of, literal_of, select_of};
use std::alloc::Global;
use syntax_tree::expressions::PartForm;

// The tree of the digit at a place.
fn digit_at(alloc: Global, object: &Object, width: Size, place: i64) -> MadeTree<SourceExpression>
    requires { width ≡ object_width object.now }
    ensures { IfOk result (λ made. source_expression_of made ≡ digit_tree object.now place) }
{
    if place < 0 || place >= i64::from(width.get()) {
        return Ok(literal_of(Bits::unknown(1)));
    }
    match &object.value {
        ObjectValue::Constant(digits) => Ok(literal_of(digits.select(place as u32))),
        ObjectValue::Variable(name) => select_of(alloc, name.as_str(), place as u64),
    }
}

// The trees of so many digits from a place on, the most significant one first.
fn digits_below(
    alloc: Global,
    object: &Object,
    own: Size,
    place: i64,
    count: u32,
) -> MadeTree<Vec<SourceExpression>>
    requires own { own ≡ object_width object.now }
    requires place { IsNoFurther (2 ^ 42) place }
    ensures { IfOk result (λ made. map source_expression_of made.items ≡ digit_trees object.now place count) }
{
    let mut made = Vec::new(alloc);
    for k in (0..count).rev() {
        made.push(digit_at(alloc, object, own, place + i64::from(k))?)?;
    }
    Ok(made)
}

// The tree of so many digits from a place on.
fn digits_from(
    alloc: Global,
    object: &Object,
    own: Size,
    place: i64,
    width: Size,
) -> MadeTree<SourceExpression>
    requires own { own ≡ object_width object.now }
    requires place { IsNoFurther (2 ^ 42) place }
    ensures { IfOk result (λ made. source_expression_of made ≡ digits_tree object.now (Some place) width) }
{
    let top = width.get() - 1;
    let first = digit_at(alloc, object, own, place + i64::from(top))?;
    let others = digits_below(alloc, object, own, place, top)?;
    concat_of(alloc, first, others)
}

// The tree of digits at a place; all are x where it isn't known.
fn digits_at(
    alloc: Global,
    object: &Object,
    own: Size,
    place: Option<i64>,
    width: Size,
) -> MadeTree<SourceExpression>
    requires own { own ≡ object_width object.now }
    requires place { IsNearPlace place }
    ensures { IfOk result (λ made. source_expression_of made ≡ digits_tree object.now place width) }
{
    match place {
        Some(place) => digits_from(alloc, object, own, place, width),
        None => Ok(literal_of(Bits::unknown(width.get()))),
    }
}

// What selects go by: the range of an object, and its width.
#[derive(Clone, Copy)]
struct Selected {
    range: VectorRange,
    own: Size,
}

fn selection_of(token: usize, object: &Object) -> TakenExpression<Selected>
    ensures range { IfOk result (λ s. object.now.range ≡ Some s.range) }
    ensures near { IfOk result (λ s. IsNearRange s.range) }
    ensures own { IfOk result (λ s. s.own ≡ object_width object.now) }
{
    let Some(range) = object.range else {
        return Err(fault(token, ExpressionFaultKind::NoRange));
    };
    let Some(own) = object.width() else {
        return Err(fault(token, ExpressionFaultKind::Width));
    };
    if is_near(range.most) && is_near(range.least) {
        Ok(Selected { range, own })
    } else {
        Err(fault(token, ExpressionFaultKind::Width))
    }
}

// The tree of the bit of an index; it is x where that isn't known.
fn bit_tree(
    alloc: Global,
    object: &Object,
    selected: Selected,
    index: Option<i64>,
) -> MadeTree<SourceExpression>
    requires near { IsNearRange selected.range }
    requires own { selected.own ≡ object_width object.now }
    requires index { index ≡ range.near index }
    ensures { IfOk result
        (λ made. source_expression_of made ≡ digits.bit_tree object.now (range.bit_place (Some selected.range) index)) }
{
    match index {
        Some(index) => digit_at(alloc, object, selected.own, place_in(selected.range, index)),
        None => Ok(literal_of(Bits::unknown(1))),
    }
}

/// A bit of an object. It is x where the index isn't known, or names no bit of the object (5.2.1).
#[tactic(auto, using(crate::proofs::Selections::made_bit))]
pub(crate) fn bit(
    alloc: Global,
    token: usize,
    object: &Object,
    index: Option<i64>,
) -> TakenExpression<Typed>
    requires { index ≡ range.near index }
    ensures { IfOk result
        (λ t. (n : Names) (base i : Meaning) → IsNamedObject n object.now → base.object ≡ Some object.now → index ≡ range.near (constant_integer i) → Types n (meaning.index base i) t) }
{
    let selected = selection_of(token, object)?;
    let tree = bit_tree(alloc, object, selected, index)?;
    Ok(Typed {
        shape: Shape {
            width: Size::new(1),
            signed: false,
        },
        tree,
    })
}

/// A part of an object. Its digits outside of the object are x; all are where a bound isn't known (5.2.1).
#[tactic(auto, using(crate::proofs::Selections::made_part))]
pub(crate) fn part(
    alloc: Global,
    token: usize,
    object: &Object,
    form: PartForm,
    first: Option<i64>,
    second: Option<i64>,
) -> TakenExpression<Typed>
    requires first { first ≡ range.near first }
    requires second { second ≡ range.near second }
    ensures { IfOk result
        (λ t. (n : Names) (base low high : Meaning) → IsNamedObject n object.now → base.object ≡ Some object.now → first ≡ range.near (constant_integer low) → second ≡ range.near (constant_integer high) → Types n (meaning.part form base low high) t) }
{
    let selected = selection_of(token, object)?;
    let Some(window) = window_of(selected.range, form, first, second) else {
        return Err(fault(token, ExpressionFaultKind::PartBounds));
    };
    Ok(Typed {
        shape: Shape {
            width: window.width,
            signed: false,
        },
        tree: digits_at(alloc, object, selected.own, window.place, window.width)?,
    })
}
