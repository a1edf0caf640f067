//! Modules and their items (A.1 to A.4).

use crate::declarations::{
    BlockItem, EventDeclaration, GenvarDeclaration, NetDeclaration, ParameterDeclaration,
    PortDeclaration, ValueType, VariableDeclaration, VariableKind, VerilogRange,
};
use crate::expressions::{Identifier, VerilogExpression};
use crate::statements::{VariableAssignment, VerilogStatement};

/// A module (12.1).
#[derive(Drop)]
pub struct ModuleDeclaration {
    pub token: usize,
    pub identifier: Identifier,
    /// Those of `#( )`.
    pub parameters: Vec<ParameterDeclaration>,
    pub ports: ModulePorts,
    pub items: Vec<ModuleItem>,
}

/// The ports of a module's head: named there and declared by its items (12.3.3), or declared there (12.3.4).
#[derive(Drop)]
pub enum ModulePorts {
    Listed(Vec<Port>),
    Declared(Vec<PortDeclaration>),
}

/// A port of a list: the name by which it is connected, where it has one of its own, and what it is inside, where it is
/// connected to something.
#[derive(Drop)]
pub struct Port {
    pub token: usize,
    pub identifier: Option<Identifier>,
    pub inside: Option<VerilogExpression>,
}

/// An item of a module, or of a generate block.
#[cycle(item)]
#[derive(Drop)]
pub enum ModuleItem {
    Port(PortDeclaration),
    Net(NetDeclaration),
    Variable(VariableDeclaration),
    Event(EventDeclaration),
    Genvar(GenvarDeclaration),
    Parameter(ParameterDeclaration),
    /// `defparam` (12.2.1)
    ParameterOverride(Vec<VariableAssignment>),
    /// `assign` (6.1.2)
    ContinuousAssignment(Vec<VariableAssignment>),
    Gate(GateInstantiation),
    Instance(ModuleInstantiation),
    Process(ProcessConstruct),
    Function(FunctionDeclaration),
    Task(TaskDeclaration),
    GenerateLoop(GenerateLoop),
    GenerateIf(GenerateIf),
    GenerateCase(GenerateCase),
    GenerateBlock(GenerateBlock),
}

/// An `initial` or an `always` construct (9.9).
#[derive(Drop)]
pub struct ProcessConstruct {
    pub token: usize,
    pub repeats: bool,
    pub body: VerilogStatement,
}

/// The gates (7.2 to 7.4).
#[derive(Clone, Copy, PartialEq, Eq, Debug)]
pub enum GateKind {
    And,
    Nand,
    Or,
    Nor,
    Xor,
    Xnor,
    Not,
    Buffer,
    BufferIf0,
    BufferIf1,
    NotIf0,
    NotIf1,
}

/// Gates of one kind (7.1).
#[derive(Drop)]
pub struct GateInstantiation {
    pub token: usize,
    pub kind: GateKind,
    pub instances: Vec<GateInstance>,
}

/// A gate: its name and its range, where it has them, and its terminals.
#[derive(Drop)]
pub struct GateInstance {
    pub token: usize,
    pub identifier: Option<Identifier>,
    pub range: Option<VerilogRange>,
    pub terminals: Vec<VerilogExpression>,
}

/// Instances of one module (12.1.2), with what stands for its parameters (12.2.2).
#[derive(Drop)]
pub struct ModuleInstantiation {
    pub token: usize,
    pub module: Identifier,
    pub parameters: Vec<Connection>,
    pub instances: Vec<ModuleInstance>,
}

/// An instance: its name, its range, where it is an array (7.1.5), and its connections.
#[derive(Drop)]
pub struct ModuleInstance {
    pub identifier: Identifier,
    pub range: Option<VerilogRange>,
    pub connections: Vec<Connection>,
}

/// What is connected to a port, or given to a parameter: by its name, or by its place, and perhaps nothing (12.3.5, 12.3.6).
#[derive(Drop)]
pub struct Connection {
    pub token: usize,
    pub identifier: Option<Identifier>,
    pub value: Option<VerilogExpression>,
}

/// What a function returns: a vector, or the value of an `integer` or a `time` variable.
#[derive(Drop)]
pub struct FunctionResult {
    pub kind: VariableKind,
    pub value_type: ValueType,
}

/// A function (10.4.1).
#[derive(Drop)]
pub struct FunctionDeclaration {
    pub token: usize,
    pub automatic: bool,
    pub result: FunctionResult,
    pub identifier: Identifier,
    pub arguments: Vec<PortDeclaration>,
    pub items: Vec<BlockItem>,
    pub body: VerilogStatement,
}

/// A task (10.2.1).
#[derive(Drop)]
pub struct TaskDeclaration {
    pub token: usize,
    pub automatic: bool,
    pub identifier: Identifier,
    pub arguments: Vec<PortDeclaration>,
    pub items: Vec<BlockItem>,
    pub body: VerilogStatement,
}

/// A block of a generate construct (12.4.3).
#[cycle(item)]
#[derive(Drop)]
pub struct GenerateBlock {
    pub token: usize,
    pub name: Option<Identifier>,
    pub items: Vec<ModuleItem>,
}

/// A loop generate construct (12.4.1).
#[cycle(item)]
#[derive(Drop)]
pub struct GenerateLoop {
    pub token: usize,
    pub start: VariableAssignment,
    pub condition: VerilogExpression,
    pub step: VariableAssignment,
    pub body: GenerateBlock,
}

/// An if generate construct (12.4.2): `if`, each `else if`, and the last `else`, where there is one.
#[cycle(item)]
#[derive(Drop)]
pub struct GenerateIf {
    pub token: usize,
    pub branches: Vec<GenerateBranch>,
    pub otherwise: Option<GenerateBlock>,
}

#[cycle(item)]
#[derive(Drop)]
pub struct GenerateBranch {
    pub condition: VerilogExpression,
    pub body: GenerateBlock,
}

/// A case generate construct (12.4.2).
#[cycle(item)]
#[derive(Drop)]
pub struct GenerateCase {
    pub token: usize,
    pub selector: VerilogExpression,
    pub items: Vec<GenerateCaseItem>,
}

/// An item of a case generate construct. The default has no label.
#[cycle(item)]
#[derive(Drop)]
pub struct GenerateCaseItem {
    pub labels: Vec<VerilogExpression>,
    pub body: GenerateBlock,
}
