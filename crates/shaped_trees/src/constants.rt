//! Constants, and numbers of them (5).

ghost use Rattle.std.specs.Prelude.{◌≡◌, ◌≤◌, ◌-◌, ◌^◌, true, false, pos, negsuc};
ghost use Rattle.logic4.specs.Vector.{greatest_width};
ghost use Rattle.shaped_trees.specs.Integers.{extension_of, integer_of, short};
ghost use Rattle.logic4.specs.Extensions.{extend_vector};

use crate::shape::Shape;
use logic4::bits::{Bits, MAX_WIDTH, Word};
use logic4::digit::Extension;

/// What a constant expression is worth: its digits, and whether it is signed.
#[derive(Clone, Copy)]
pub struct Constant {
    pub digits: Bits,
    pub signed: bool,
}

/// More than what an `i64` holds.
const LIMIT: Word = 1 << 63;

// A number below 0, by how far it is below -1.
fn negative(beyond: Word) -> Option<i64>
    ensures { result ≡ short (negsuc beyond) }
{
    if beyond < LIMIT - 1 {
        Some(-1 - beyond as i64)
    } else {
        None
    }
}

// A number of 0 or more.
fn positive(number: Word) -> Option<i64>
    ensures { result ≡ short (pos number) }
{
    if number < LIMIT {
        Some(number as i64)
    } else {
        None
    }
}

// The greatest number of a width.
fn greatest_of(width: u32) -> Word
    requires some { 1 ≤ width }
    requires within { width ≤ greatest_width }
    ensures { result ≡ 2 ^ width - 1 }
{
    Word::MAX >> (MAX_WIDTH - width)
}

// The number of digits without a sign.
fn unsigned_integer(digits: Bits) -> Option<i64>
    ensures { result ≡ integer_of false digits }
{
    let (number, unknown) = digits.words();
    if unknown != 0 {
        return None;
    }
    positive(number)
}

// The number of digits with a sign.
fn signed_integer(digits: Bits) -> Option<i64>
    ensures { result ≡ integer_of true digits }
{
    if !digits.is_negative() {
        return unsigned_integer(digits);
    }
    let (number, unknown) = digits.words();
    if unknown != 0 {
        return None;
    }
    negative(greatest_of(digits.width()) - number)
}

/// The number of a constant, with its sign. `None` where a digit is x or z, or where it is 2 to the 63 or more, or as much below 0.
pub fn integer(constant: Constant) -> Option<i64>
    ensures { result ≡ integer_of constant.signed constant.digits }
{
    if constant.signed {
        signed_integer(constant.digits)
    } else {
        unsigned_integer(constant.digits)
    }
}

/// A constant at a size and a sign: extended by its own sign, or cut; as what is assigned to a parameter of a type (4.10.1).
pub fn converted(constant: Constant, shape: Shape) -> Constant
    ensures digits { result.digits ≡ extend_vector (extension_of constant.signed) shape.width constant.digits }
    ensures sign { result.signed ≡ shape.signed }
{
    let by = if constant.signed {
        Extension::Sign
    } else {
        Extension::Zeros
    };
    Constant {
        digits: constant.digits.extend(by, shape.width.get()),
        signed: shape.signed,
    }
}
