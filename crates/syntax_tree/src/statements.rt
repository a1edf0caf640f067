//! Statements (A.6).

use crate::declarations::BlockItem;
use crate::expressions::{Identifier, VerilogExpression};

/// A statement.
#[cycle(statement)]
#[derive(Drop)]
pub enum VerilogStatement {
    Empty {
        token: usize,
    },
    /// Statements one after another (9.8.1), or side by side (9.8.2).
    Block {
        token: usize,
        form: BlockForm,
        name: Option<Identifier>,
        items: Vec<BlockItem>,
        body: Vec<VerilogStatement>,
    },
    /// An assignment (9.2), with the delay or the event between its value and its effect.
    Assignment {
        token: usize,
        form: AssignmentForm,
        target: VerilogExpression,
        timing: Option<Box<AssignmentTiming>>,
        value: VerilogExpression,
    },
    /// `# delay body` (9.7.1)
    Delayed {
        token: usize,
        delay: VerilogExpression,
        body: Box<VerilogStatement>,
    },
    /// `@ control body` (9.7.2)
    Awaited {
        token: usize,
        control: EventControl,
        body: Box<VerilogStatement>,
    },
    /// `wait (condition) body` (9.7.6)
    Wait {
        token: usize,
        condition: VerilogExpression,
        body: Box<VerilogStatement>,
    },
    /// `if`, each `else if`, and the last `else`, where there is one (9.4).
    If {
        token: usize,
        branches: Vec<ConditionalBranch>,
        otherwise: Option<Box<VerilogStatement>>,
    },
    Case {
        token: usize,
        form: CaseForm,
        selector: VerilogExpression,
        items: Vec<CaseItem>,
    },
    /// `for (start; condition; step) body` (9.6)
    For {
        token: usize,
        start: Box<VariableAssignment>,
        condition: VerilogExpression,
        step: Box<VariableAssignment>,
        body: Box<VerilogStatement>,
    },
    Repeat {
        token: usize,
        count: VerilogExpression,
        body: Box<VerilogStatement>,
    },
    While {
        token: usize,
        condition: VerilogExpression,
        body: Box<VerilogStatement>,
    },
    Forever {
        token: usize,
        body: Box<VerilogStatement>,
    },
    /// `disable target;` (10.3)
    Disable {
        token: usize,
        target: VerilogExpression,
    },
    /// `-> event;` (9.7.3)
    Trigger {
        token: usize,
        event: VerilogExpression,
    },
    /// A task's call (10.2.2).
    TaskCall {
        token: usize,
        task: VerilogExpression,
        arguments: Vec<VerilogExpression>,
    },
    /// A system task's call, with the `$` in its name (17). An argument may be left out.
    SystemTaskCall {
        token: usize,
        name: Vec<u8>,
        arguments: Vec<Option<VerilogExpression>>,
    },
    /// What is refused. No tree that is answered has it.
    Refused {
        token: usize,
    },
}

/// A condition, and what is done where it holds.
#[cycle(statement)]
#[derive(Drop)]
pub struct ConditionalBranch {
    pub condition: VerilogExpression,
    pub body: VerilogStatement,
}

/// An item of a `case`: its labels, and what is done where one of them fits. The default has no label (9.5).
#[cycle(statement)]
#[derive(Drop)]
pub struct CaseItem {
    pub token: usize,
    pub labels: Vec<VerilogExpression>,
    pub body: VerilogStatement,
}

#[derive(Clone, Copy, PartialEq, Eq, Debug)]
pub enum BlockForm {
    Sequential,
    Parallel,
}

#[derive(Clone, Copy, PartialEq, Eq, Debug)]
pub enum AssignmentForm {
    Blocking,
    Nonblocking,
}

#[derive(Clone, Copy, PartialEq, Eq, Debug)]
pub enum CaseForm {
    Case,
    /// `casez` (9.5.1)
    DontCareZ,
    /// `casex` (9.5.1)
    DontCareX,
}

/// Which change of a value an event control waits for (9.7.2).
#[derive(Clone, Copy, PartialEq, Eq, Debug)]
pub enum VerilogChange {
    Any,
    Posedge,
    Negedge,
}

#[derive(Drop)]
pub struct VerilogEvent {
    pub token: usize,
    pub change: VerilogChange,
    pub expression: VerilogExpression,
}

#[derive(Drop)]
pub enum EventControl {
    /// `@*` (9.7.5)
    Implicit,
    /// One of these, with `or` or commas between them (9.7.4).
    Events(Vec<VerilogEvent>),
}

/// What stands between the value of an assignment and its effect (9.7.7).
#[derive(Drop)]
pub enum AssignmentTiming {
    Delay(VerilogExpression),
    Event(EventControl),
    /// `repeat (count) @ control`
    Repeat(VerilogExpression, EventControl),
}

/// A variable and its new value.
#[derive(Drop)]
pub struct VariableAssignment {
    pub token: usize,
    pub target: VerilogExpression,
    pub value: VerilogExpression,
}
