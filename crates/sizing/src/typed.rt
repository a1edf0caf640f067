//! Expressions with their shapes and their trees, and those that have no operands.

ghost use Rattle.std.specs.Prelude.{◌≡◌, ℕ, ℤ, false, not, ◌++◌, length, Option, Some, IfOk, IfSome};
ghost use Rattle.logic4.specs.Vector.{is_known_digit};
ghost use Rattle.logic4.specs.Extensions.{sign_digit};
ghost use Rattle.model.specs.SourceTrees.{source_expression_of};
ghost use Rattle.sizing.specs.Names.{Names, IsNamedObject};
ghost use Rattle.sizing.specs.Meanings as spec;
ghost use Rattle.sizing.specs.Meanings.{Meaning, alone_meaning, named, byte_digits, text_digits};
ghost use Rattle.sizing.specs.Results.{IsWorth};
ghost use Rattle.shaped_trees.specs.Trees.{widened};
ghost use Rattle.sizing.specs.Typing.{Types, IsLowered, IsSelfDetermined, object_tree, joined_shape};

use crate::environment::{Object, ObjectValue};
use crate::faults::{ExpressionFaultKind, TakenExpression, fault};
use logic4::bits::{Bits, MAX_WIDTH};
use logic4::digit::{Digit, Extension};
use logic4::size::Size;
use model::tree::SourceExpression;
use shaped_trees::evaluation::evaluate;
use shaped_trees::shape::Shape;
use shaped_trees::trees::{MadeTree, extend_of, literal_of, name_of};
use shaped_trees::widening::widen;
use std::alloc::Global;

/// An expression whose names are looked up, with its own shape. Its tree stands for it at its own size; `lower` makes one of it
/// for any shape that what stands around it has.
#[derive(Drop)]
pub struct Typed {
    pub(crate) shape: Shape,
    pub(crate) tree: SourceExpression,
}

impl Typed {
    /// The size and the sign of the expression (5.4.1, 5.5.1).
    pub fn shape(&self) -> Shape
        ensures { result ≡ self.now.shape }
    {
        self.shape
    }

    /// The tree of the expression at the shape of it and of what stands around it (5.5.2).
    #[tactic(auto, using(crate::proofs::Made::made_lowered))]
    pub fn lower(self, alloc: Global, around: Shape) -> MadeTree<SourceExpression>
        ensures { IfOk result
            (λ made. (n : Names) (m : Meaning) → Types n m self → IsLowered n m (joined_shape self.shape around) (source_expression_of made)) }
    {
        let shape = self.shape.joined(around);
        let made = self.widen(alloc, shape)?;
        Ok(made)
    }

    /// The tree at a shape.
    pub(crate) fn widen(self, alloc: Global, shape: Shape) -> MadeTree<SourceExpression>
        ensures { IfOk result (λ made. source_expression_of made ≡ widened shape (source_expression_of self.tree)) }
    {
        let Typed { tree, .. } = self;
        widen(alloc, tree, shape.signed, shape.width)
    }

    /// The digits of the expression at a shape, `None` where it names what varies.
    #[tactic(auto, using(crate::proofs::Worth::worth_is))]
    pub(crate) fn worth(self, alloc: Global, shape: Shape) -> MadeTree<Option<Bits>>
        ensures { IfOk result (λ worth. IfSome worth (λ v. (n : Names) (m : Meaning) → Types n m self → IsWorth m shape v)) }
    {
        let width = shape.width;
        let tree = self.widen(alloc, shape)?;
        match evaluate(&tree, width) {
            Some(digits) => Ok(Some(digits)),
            None => Ok(None),
        }
    }

    /// The tree of the expression as a self-determined operand.
    #[tactic(auto, using(crate::proofs::Made::made_alone))]
    pub(crate) fn alone(self, alloc: Global) -> MadeTree<SourceExpression>
        ensures { IfOk result
            (λ made. (n : Names) (m : Meaning) → Types n m self → IsSelfDetermined n m (source_expression_of made)) }
    {
        let shape = self.shape;
        let made = self.widen(alloc, shape)?;
        Ok(made)
    }
}

// The most significant digit.
fn top_digit(digits: Bits) -> Digit
    ensures { result ≡ sign_digit digits }
{
    digits.digit(digits.width() - 1)
}

fn is_unknown(digit: Digit) -> bool
    ensures { result ≡ not (is_known_digit digit) }
{
    match digit {
        Digit::Zero | Digit::One => false,
        Digit::X | Digit::Z => true,
    }
}

// Whether a number's most significant digit fills up the size of what stands around it (3.5.1).
#[tactic(auto, using(crate::proofs::Selections::fills_sized, crate::proofs::Selections::fills_signed, crate::proofs::Selections::fills_last))]
fn fills_up(sized: bool, signed: bool, digits: Bits) -> bool
    ensures { result ≡ spec.fills_up sized signed digits }
{
    if sized {
        return false;
    }
    if signed {
        return false;
    }
    is_unknown(top_digit(digits))
}

/// A constant that stands in an expression.
#[tactic(auto, using(crate::proofs::Made::made_literal))]
fn literal(signed: bool, digits: Bits) -> Typed
    ensures { (n : Names) → Types n (alone_meaning (length digits) signed (λ values. digits)) result }
{
    Typed {
        shape: Shape {
            width: Size::new(digits.width()),
            signed,
        },
        tree: literal_of(digits),
    }
}

// A number that fills up the size of what stands around it.
#[tactic(auto, using(crate::proofs::Selections::made_filling))]
fn filling(alloc: Global, digits: Bits) -> MadeTree<Typed>
    ensures { IfOk result (λ t. (n : Names) → Types n (spec.filled_up digits) t) }
{
    let width = Size::new(digits.width());
    let inner = literal_of(digits);
    let tree = extend_of(alloc, Extension::Sign, width, inner)?;
    Ok(Typed {
        shape: Shape {
            width,
            signed: false,
        },
        tree,
    })
}

/// A number.
#[tactic(auto, using(crate::proofs::Selections::plain_number, crate::proofs::Selections::filling_number))]
pub(crate) fn number(alloc: Global, sized: bool, signed: bool, digits: Bits) -> MadeTree<Typed>
    ensures { IfOk result (λ t. (n : Names) → Types n (spec.number_meaning sized signed digits) t) }
{
    if fills_up(sized, signed, digits) {
        return filling(alloc, digits);
    }
    Ok(literal(signed, digits))
}

// The digits of bytes behind those that stand before them.
fn bits_behind(token: usize, before: Bits, bytes: &[u8]) -> TakenExpression<Bits>
    ensures { IfOk result (λ digits. digits ≡ byte_digits bytes.now ++ before) }
{
    let mut digits = before;
    for byte in bytes {
        if digits.width() > MAX_WIDTH - 8 {
            return Err(fault(token, ExpressionFaultKind::Width));
        }
        digits = Bits::concat(digits, Bits::from_u64(8, u64::from(*byte)));
    }
    Ok(digits)
}

// The digits of a string (5.2.3).
fn text_bits(token: usize, bytes: &[u8]) -> TakenExpression<Bits>
    ensures { IfOk result (λ digits. digits ≡ text_digits bytes.now) }
{
    match bytes {
        [] => Ok(Bits::from_u64(8, 0)),
        [first, others @ ..] => { bits_behind(token, Bits::from_u64(8, u64::from(*first)), others) }
    }
}

/// A string.
#[tactic(auto, using(crate::proofs::Made::same_literal))]
pub(crate) fn text(token: usize, bytes: &[u8]) -> TakenExpression<Typed>
    ensures { IfOk result
        (λ t. (n : Names) → Types n (alone_meaning (length (text_digits bytes.now)) false (λ values. text_digits bytes.now)) t) }
{
    let digits = text_bits(token, bytes)?;
    Ok(literal(false, digits))
}

// The tree of what an object is worth.
fn tree_of(alloc: Global, value: &ObjectValue) -> MadeTree<SourceExpression>
    ensures { IfOk result (λ made. source_expression_of made ≡ object_tree value.now) }
{
    match value {
        ObjectValue::Constant(digits) => Ok(literal_of(*digits)),
        ObjectValue::Variable(name) => name_of(alloc, name.as_str()),
    }
}

/// What a name means.
#[tactic(auto, using(crate::proofs::Selections::made_object))]
pub(crate) fn whole_object(alloc: Global, token: usize, object: &Object) -> TakenExpression<Typed>
    ensures { IfOk result
        (λ t. (n : Names) (scope : Option ℤ → Option ℕ) → IsNamedObject n object.now → Types n (named scope (Some object.now)) t) }
{
    match object.width() {
        Some(width) => {
            let tree = tree_of(alloc, &object.value)?;
            Ok(Typed {
                shape: Shape {
                    width,
                    signed: object.signed,
                },
                tree,
            })
        }
        None => Err(fault(token, ExpressionFaultKind::Width)),
    }
}
