//! Sizes and signs of expressions (5.4, 5.5).

ghost use Rattle.std.specs.Prelude.{◌≡◌, ◌&&◌, max};

use logic4::size::Size;

/// How many digits an expression has, and whether it is signed.
#[derive(Clone, Copy)]
pub struct Shape {
    pub width: Size,
    pub signed: bool,
}

/// The greater of two widths.
pub fn greater(a: Size, b: Size) -> Size
    ensures { result ≡ max a b }
{
    if a.get() < b.get() { b } else { a }
}

impl Shape {
    /// The shape of two operands together: the greater width, signed where both are (5.4.1, 5.5.1).
    pub fn joined(self, other: Shape) -> Shape
        ensures width { result.width ≡ max self.width other.width }
        ensures signed { result.signed ≡ (self.signed && other.signed) }
    {
        Shape {
            width: greater(self.width, other.width),
            signed: self.signed & other.signed,
        }
    }
}
