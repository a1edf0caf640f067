//! Ranges, and numbers within them.

ghost use Rattle.std.specs.Prelude.{◌≡◌, ◌<◌, ◌^◌, MatchOption};
ghost use Rattle.logic4.specs.Vector.{greatest_width};
ghost use Rattle.ranges.specs.Ranges as spec;
ghost use Rattle.ranges.specs.Ranges.{IsNearRange, IsNoFurther, range_width};

use logic4::bits::MAX_WIDTH;
use logic4::size::Size;

/// `[most:least]`, two numbers in either order (4.3.1).
#[derive(Clone, Copy, PartialEq, Eq, Debug)]
pub struct VectorRange {
    pub most: i64,
    pub least: i64,
}

/// How far from 0 the bounds of a range may be, and each index within it.
const FARTHEST: i64 = 1 << 40;

pub fn is_near(number: i64) -> bool
    ensures { result ≡ spec.is_near number }
{
    -FARTHEST <= number && number <= FARTHEST
}

/// A number that a range may have within it.
pub fn near(number: Option<i64>) -> Option<i64>
    ensures { result ≡ spec.near number }
{
    match number {
        Some(number) => { if is_near(number) { Some(number) } else { None } }
        None => None,
    }
}

/// How far the digit of an index stands above the least significant one.
pub fn place_in(range: VectorRange, index: i64) -> i64
    requires range { IsNearRange range }
    requires index { IsNoFurther (2 ^ 41) index }
    ensures place { result ≡ spec.place_in range index }
    ensures bound { IsNoFurther (2 ^ 42) result }
{
    if range.most < range.least {
        range.least - index
    } else {
        index - range.least
    }
}

impl VectorRange {
    /// How many numbers the range has, `None` where there are more than `MAX_WIDTH`.
    pub fn width(self) -> Option<Size>
        ensures { MatchOption result (greatest_width < range_width self) (λ w. w ≡ range_width self) }
    {
        let distance = self.most.abs_diff(self.least);
        if distance < u64::from(MAX_WIDTH) {
            Some(Size::new(distance as u32 + 1))
        } else {
            None
        }
    }
}
