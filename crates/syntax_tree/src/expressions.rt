//! Expressions (A.8).

use logic4::bits::Bits;

/// A name, without the `\` and the space of an escaped one (3.7.1).
#[derive(Drop)]
pub struct Identifier {
    pub token: usize,
    pub name: Vec<u8>,
}

/// An expression. A name of several parts is a member of its scope (12.5), and a select stands on what it selects of.
#[derive(Drop)]
pub enum VerilogExpression {
    /// What a number stands for (3.5.1), and whether a digit that isn't 0 was cut from it. One without a size has 32 digits.
    Number {
        token: usize,
        sized: bool,
        signed: bool,
        cut: bool,
        digits: Box<Bits>,
    },
    /// A real number, as it is spelled (3.5.2).
    Real {
        token: usize,
        text: Vec<u8>,
    },
    /// A string, with its escapes replaced (3.6).
    Text {
        token: usize,
        bytes: Vec<u8>,
    },
    Name {
        token: usize,
        name: Vec<u8>,
    },
    /// `scope.name`
    Member {
        token: usize,
        scope: Box<VerilogExpression>,
        name: Vec<u8>,
    },
    /// `base[index]`
    Index {
        token: usize,
        base: Box<VerilogExpression>,
        index: Box<VerilogExpression>,
    },
    /// `base[first:second]` and its two other forms (5.2.1).
    Part {
        token: usize,
        form: PartForm,
        base: Box<VerilogExpression>,
        first: Box<VerilogExpression>,
        second: Box<VerilogExpression>,
    },
    /// A function's call (10.4.4).
    Call {
        token: usize,
        function: Box<VerilogExpression>,
        arguments: Vec<VerilogExpression>,
    },
    /// A system function's call, with the `$` in its name. Without brackets it has no arguments.
    SystemCall {
        token: usize,
        name: Vec<u8>,
        arguments: Vec<VerilogExpression>,
    },
    /// `{parts}` (5.1.14)
    Concatenation {
        token: usize,
        parts: Vec<VerilogExpression>,
    },
    /// `{count{parts}}` (5.1.14)
    Replication {
        token: usize,
        count: Box<VerilogExpression>,
        parts: Vec<VerilogExpression>,
    },
    Unary {
        token: usize,
        operator: VerilogUnaryOperator,
        operand: Box<VerilogExpression>,
    },
    Binary {
        token: usize,
        operator: VerilogBinaryOperator,
        left: Box<VerilogExpression>,
        right: Box<VerilogExpression>,
    },
    /// `condition ? first : second`
    Conditional {
        token: usize,
        condition: Box<VerilogExpression>,
        first: Box<VerilogExpression>,
        second: Box<VerilogExpression>,
    },
    /// What is refused. No tree that is answered has it.
    Refused {
        token: usize,
    },
}

/// How a part select says which digits it takes.
#[derive(Clone, Copy, PartialEq, Eq, Debug)]
pub enum PartForm {
    /// `[most:least]`
    Constant,
    /// `[base +: width]`
    Upward,
    /// `[base -: width]`
    Downward,
}

/// The operators before an operand (5.1).
#[derive(Clone, Copy, PartialEq, Eq, Debug)]
pub enum VerilogUnaryOperator {
    Plus,
    Minus,
    LogicalNot,
    BitwiseNot,
    ReductionAnd,
    ReductionNand,
    ReductionOr,
    ReductionNor,
    ReductionXor,
    ReductionXnor,
}

/// The operators between two operands (5.1).
#[derive(Clone, Copy, PartialEq, Eq, Debug)]
pub enum VerilogBinaryOperator {
    LogicalOr,
    LogicalAnd,
    BitwiseOr,
    BitwiseXor,
    BitwiseXnor,
    BitwiseAnd,
    Equal,
    NotEqual,
    CaseEqual,
    CaseNotEqual,
    Less,
    LessEqual,
    Greater,
    GreaterEqual,
    ShiftLeft,
    ShiftRight,
    ArithmeticShiftLeft,
    ArithmeticShiftRight,
    Add,
    Subtract,
    Multiply,
    Divide,
    Modulus,
    Power,
}
