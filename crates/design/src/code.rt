//! Flat code, and what the layers above are told of it.
ghost use Rattle.std.specs.Prelude.{◌≡◌, ◌<◌, ◌≤◌, ◌↔◌, length, IfOk, IsTrue};
ghost use Rattle.std.specs.List.{All};
ghost use Rattle.logic4.specs.Vector.{greatest_width, AreWithin};

use crate::control::{Control, RegId};
use crate::packed_bits::PackedBits;
use logic4::bits::Bits;
use logic4::conversion::Conversion;
use logic4::digit::Extension;
pub use logic4::size::Size;
use model::ascii::Ascii;
use model::tree::{BinaryOperator, Task, UnaryOperator};
use std::alloc::{AllocError, Global};

/// One step of an expression, on a stack of vectors. Each says the sizes of what it makes.
#[derive(Clone, Copy)]
pub enum Op {
    /// The value of a register, extended or cut.
    Load {
        register: RegId,
        size: Size,
    },
    /// One digit of a register (5.2.1), extended.
    Pick {
        register: RegId,
        index: u32,
        size: Size,
    },
    /// A vector as it is.
    Constant {
        value: Bits,
    },
    /// An operator on the topmost vector.
    Unary {
        operator: UnaryOperator,
        asked: Size,
    },
    /// An operator on the two topmost vectors, both of this size where it wants them alike.
    Binary {
        operator: BinaryOperator,
        size: Size,
        asked: Size,
    },
    /// An operator on the topmost vector, as its left operand, and a vector.
    BinaryConstant {
        operator: BinaryOperator,
        size: Size,
        asked: Size,
        value: Bits,
    },
    /// An operator on the topmost vector, as its left operand, and the value of a register, extended or cut to the size `other`.
    BinaryRegister {
        operator: BinaryOperator,
        size: Size,
        asked: Size,
        register: RegId,
        other: Size,
    },
    /// The two topmost vectors as one, the topmost in the least significant digits (5.1.14).
    Join,
    /// The topmost vector, extended or cut.
    Resize {
        size: Size,
    },
    /// The topmost vector, extended by its sign or by zeros to a size (5.4, 5.5.4), and then extended with zeros or cut.
    Extend {
        by: Extension,
        size: Size,
        asked: Size,
    },
    /// The second or the first of the two topmost vectors, by the truth of the third (5.1.13).
    Choose {
        size: Size,
    },
}

/// A part of the steps of expressions, or of the pieces of lines.
#[derive(Clone, Copy)]
pub struct Span {
    pub from: usize,
    pub to: usize,
}

/// A piece of a line (17.1.1): a byte as it is, or the value of an expression.
#[derive(Clone, Copy)]
pub enum LinePiece {
    Byte(Ascii),
    Value { conversion: Conversion, value: Span },
}

/// What a process does at one place, and where that leads.
#[derive(Clone, Copy)]
pub enum Node {
    /// The end of an initial construct.
    Over,
    /// The end of an always construct's body.
    Restart {
        first: usize,
    },
    /// The empty statement.
    Skip {
        next: usize,
    },
    /// A blocking assignment (9.2.1).
    Assign {
        register: RegId,
        value: Span,
        next: usize,
    },
    /// A blocking assignment with a delay inside it (9.7.7).
    AssignAfter {
        register: RegId,
        delay: u32,
        value: Span,
        next: usize,
    },
    /// A nonblocking assignment (9.2.2).
    AssignLater {
        register: RegId,
        delay: u32,
        value: Span,
        next: usize,
    },
    /// The time as a register's value (17.7.1).
    Now {
        register: RegId,
        size: Size,
        next: usize,
    },
    /// A delay before a statement (9.7.1).
    Delay {
        delay: u32,
        next: usize,
    },
    /// The event control with a number, before a statement (9.7.2).
    Await {
        control: usize,
        next: usize,
    },
    /// The test of a choice or of a loop (9.4, 9.6).
    Branch {
        condition: Span,
        taken: usize,
        missed: usize,
    },
    /// `$display`, `$strobe` or `$write` (17.1).
    Print {
        task: Task,
        pieces: Span,
        next: usize,
    },
    /// `$finish` (17.4.1).
    Finish {
        next: usize,
    },
}

/// Where a process goes on: the assignment left over from one with a delay inside it, and the place of the node behind
/// it. Plain data of the compiler, which stands for a remainder.
#[derive(Clone, Copy, PartialEq, Eq, Debug)]
pub struct ProcState {
    pub place: usize,
    pub pending: Option<(RegId, PackedBits)>,
}

impl ProcState {
    /// Whether it is the same state.
    pub fn is_same(&self, other: &ProcState) -> bool
        ensures { IsTrue result ↔ (self.now ≡ other.now) }
    {
        (self.place == other.place) & same_pending(self.pending, other.pending)
    }
}

// Whether the same value is left over for the same register, or nothing in both.
fn same_pending(left: Option<(RegId, PackedBits)>, right: Option<(RegId, PackedBits)>) -> bool
    ensures { IsTrue result ↔ (left ≡ right) }
{
    match (left, right) {
        (None, None) => true,
        (Some(a), Some(b)) => (a.0 == b.0) & (a.1 == b.1),
        _ => false,
    }
}
