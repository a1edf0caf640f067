//! Where parts of vectors stand (5.2.1).

ghost use Rattle.std.specs.Prelude.{◌≡◌, ◌^◌, Some, IfSome, option_map, pos};
ghost use Rattle.ranges.specs.Ranges as spec;
ghost use Rattle.ranges.specs.Ranges.{IsNearPlace, IsNearRange, IsWindow, IsNoFurther, farthest};

use crate::range::{VectorRange, place_in};
use logic4::bits::MAX_WIDTH;
use logic4::size::Size;
use syntax_tree::expressions::PartForm;

/// Where a part stands, if that is known, and how many digits it has.
#[derive(Clone, Copy)]
pub struct Window {
    pub place: Option<i64>,
    pub width: Size,
}

/// A width that a vector may have.
#[tactic(auto, using(crate::proofs::Near::size_none, crate::proofs::Near::size_some))]
pub fn size_of(number: i64) -> Option<Size>
    ensures size { result ≡ spec.vector_size number }
    ensures number { IfSome result (λ w. number ≡ pos w) }
{
    if number < 1 || number > i64::from(MAX_WIDTH) {
        None
    } else {
        Some(Size::new(number as u32))
    }
}

// Where the part between two bounds stands, if they stand in the order of the range.
fn between(range: VectorRange, most: i64, least: i64) -> Option<Window>
    requires range { IsNearRange range }
    requires most { IsNoFurther farthest most }
    requires least { IsNoFurther farthest least }
    ensures window { IfSome result (λ w. IsWindow range PartForm.Constant (Some most) (Some least) w) }
    ensures near { IfSome result (λ w. IsNearPlace w.place) }
    ensures size { option_map (λ w. w.width) result ≡ spec.bounded_size range (Some most) (Some least) }
{
    let place = place_in(range, least);
    match size_of(place_in(range, most) - place + 1) {
        Some(width) => Some(Window {
            place: Some(place),
            width,
        }),
        None => None,
    }
}

// The lesser of two places.
fn lesser(a: i64, b: i64) -> i64
    ensures { result ≡ spec.lower a b }
{
    if a < b { a } else { b }
}

// Where digits stand whose indices go from one to another.
fn spanned(range: VectorRange, first: i64, last: i64) -> i64
    requires range { IsNearRange range }
    requires first { IsNoFurther (2 ^ 41) first }
    requires last { IsNoFurther (2 ^ 41) last }
    ensures place { result ≡ spec.lower (spec.place_in range first) (spec.place_in range last) }
    ensures bound { IsNoFurther (2 ^ 42) result }
{
    lesser(place_in(range, first), place_in(range, last))
}

// Where the part of a width stands that goes up from a base.
#[tactic(auto, using(crate::proofs::Near::near_within, crate::proofs::Near::near_more))]
fn upward(range: VectorRange, base: Option<i64>, width: Size) -> Option<i64>
    requires range { IsNearRange range }
    requires base { base ≡ spec.near base }
    ensures place { result ≡ spec.part_place PartForm.Upward (Some range) base (Some (pos width)) }
    ensures near { IsNearPlace result }
{
    match base {
        Some(base) => Some(spanned(range, base, base + (i64::from(width.get()) - 1))),
        None => None,
    }
}

// Where the part of a width stands that goes down from a base.
#[tactic(auto, using(crate::proofs::Near::near_within, crate::proofs::Near::near_more))]
fn downward(range: VectorRange, base: Option<i64>, width: Size) -> Option<i64>
    requires range { IsNearRange range }
    requires base { base ≡ spec.near base }
    ensures place { result ≡ spec.part_place PartForm.Downward (Some range) base (Some (pos width)) }
    ensures near { IsNearPlace result }
{
    match base {
        Some(base) => Some(spanned(range, base - (i64::from(width.get()) - 1), base)),
        None => None,
    }
}

/// Where a part stands, and its width, if its bounds are known and in order, and a vector may have the width.
#[tactic(auto, using(crate::proofs::Near::near_within))]
pub fn window_of(
    range: VectorRange,
    form: PartForm,
    first: Option<i64>,
    second: Option<i64>,
) -> Option<Window>
    requires range { IsNearRange range }
    requires first { first ≡ spec.near first }
    requires second { second ≡ spec.near second }
    ensures window { IfSome result (λ w. IsWindow range form first second w) }
    ensures near { IfSome result (λ w. IsNearPlace w.place) }
    ensures size { option_map (λ w. w.width) result ≡ spec.part_size range form first second }
{
    match form {
        PartForm::Constant => {
            let most = first?;
            let least = second?;
            let window = between(range, most, least)?;
            Some(window)
        }
        PartForm::Upward => {
            let width = size_of(second?)?;
            let place = upward(range, first, width);
            Some(Window { place, width })
        }
        PartForm::Downward => {
            let width = size_of(second?)?;
            let place = downward(range, first, width);
            Some(Window { place, width })
        }
    }
}
