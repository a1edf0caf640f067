//! Declarations (A.2).

use crate::expressions::{Identifier, VerilogExpression};

/// `[most:least]`, of a vector or of an array (4.3, 4.9).
#[derive(Drop)]
pub struct VerilogRange {
    pub token: usize,
    pub most: VerilogExpression,
    pub least: VerilogExpression,
}

/// The kinds of nets (4.6).
#[derive(Clone, Copy, PartialEq, Eq, Debug)]
pub enum NetKind {
    Wire,
    Tri,
    Tri0,
    Tri1,
    WiredAnd,
    TriAnd,
    WiredOr,
    TriOr,
    Supply0,
    Supply1,
    UnresolvedWire,
}

/// The kinds of variables (4.2, 4.8).
#[derive(Clone, Copy, PartialEq, Eq, Debug)]
pub enum VariableKind {
    Register,
    Integer,
    Time,
}

/// What a declaration says of the values of its names: whether they are signed, and their range, if it has one.
#[derive(Drop)]
pub struct ValueType {
    pub signed: bool,
    pub range: Option<VerilogRange>,
}

/// A declared name, the ranges of its array, and its value, where it has one.
#[derive(Drop)]
pub struct Declarator {
    pub identifier: Identifier,
    pub dimensions: Vec<VerilogRange>,
    pub value: Option<VerilogExpression>,
}

/// A declaration of nets; a value of one is a continuous assignment (6.1.1).
#[derive(Drop)]
pub struct NetDeclaration {
    pub token: usize,
    pub kind: NetKind,
    pub value_type: ValueType,
    pub declarators: Vec<Declarator>,
}

/// A declaration of variables (4.2.1).
#[derive(Drop)]
pub struct VariableDeclaration {
    pub token: usize,
    pub kind: VariableKind,
    pub value_type: ValueType,
    pub declarators: Vec<Declarator>,
}

/// A declaration of named events (9.7.3).
#[derive(Drop)]
pub struct EventDeclaration {
    pub token: usize,
    pub declarators: Vec<Declarator>,
}

/// A declaration of the variables of generate loops (12.4).
#[derive(Drop)]
pub struct GenvarDeclaration {
    pub token: usize,
    pub identifiers: Vec<Identifier>,
}

#[derive(Clone, Copy, PartialEq, Eq, Debug)]
pub enum Direction {
    Input,
    Output,
    InOut,
}

/// What a port is inside its module, where its declaration says so.
#[derive(Clone, Copy, PartialEq, Eq, Debug)]
pub enum PortKind {
    Unstated,
    Net(NetKind),
    Variable(VariableKind),
}

/// A declaration of ports (12.3.3, 12.3.4), or of a task's or a function's arguments (10.2.1, 10.4.1).
#[derive(Drop)]
pub struct PortDeclaration {
    pub token: usize,
    pub direction: Direction,
    pub kind: PortKind,
    pub value_type: ValueType,
    pub declarators: Vec<Declarator>,
}

/// What a parameter is declared to be (4.10).
#[derive(Clone, Copy, PartialEq, Eq, Debug)]
pub enum ParameterKind {
    Unstated,
    Integer,
    Time,
}

/// A name and the value that it is given.
#[derive(Drop)]
pub struct ParameterAssignment {
    pub identifier: Identifier,
    pub value: VerilogExpression,
}

/// A declaration of parameters (4.10.1), or of local ones (4.10.2).
#[derive(Drop)]
pub struct ParameterDeclaration {
    pub token: usize,
    pub local: bool,
    pub kind: ParameterKind,
    pub value_type: ValueType,
    pub assignments: Vec<ParameterAssignment>,
}

/// What a block, a task or a function declares beside its arguments (A.2.8).
#[derive(Drop)]
pub enum BlockItem {
    Variable(VariableDeclaration),
    Event(EventDeclaration),
    Parameter(ParameterDeclaration),
}
