//! A design as a tree: names are numbers, and a block is the list of its statements.

use crate::control::{RegId, Trigger};
use logic4::bits::Bits;
pub use logic4::conversion::Conversion;
use logic4::digit::Extension;
use logic4::size::Size;
pub use model::tree::Piece;
use model::tree::{BinaryOperator, Task, UnaryOperator};

/// An expression over the numbers of registers (5.1).
#[derive(Drop)]
pub enum Expression {
    Register(RegId),
    Select(RegId, u32),
    Literal(Bits),
    Concat(Vec<Expression>),
    Unary(UnaryOperator, Box<Expression>),
    Binary(BinaryOperator, Box<Expression>, Box<Expression>),
    Conditional(Box<Expression>, Box<Expression>, Box<Expression>),
    Extend(Extension, Size, Box<Expression>),
}

/// A statement (9.2 to 9.9, 17.1, 17.4, 17.7). Delays are counts of time units. `Now` gives a register the time.
#[derive(Drop)]
pub enum Statement {
    Empty,
    Assign(RegId, Expression),
    AssignAfter(RegId, u32, Expression),
    AssignLater(RegId, u32, Expression),
    Now(RegId),
    Delay(u32, Vec<Statement>),
    Await(Vec<Trigger>, Vec<Statement>),
    If(Expression, Vec<Statement>, Vec<Statement>),
    While(Expression, Vec<Statement>),
    Print(Task, Vec<Piece>, Vec<Expression>),
    Finish,
}

/// An initial construct, or an always construct, which repeats (9.9).
#[derive(Drop)]
pub struct Process {
    pub repeats: bool,
    pub body: Vec<Statement>,
}
