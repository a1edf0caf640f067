//! How long the lists of a design's code become, so that each is made once. A count is room alone: a list that becomes
//! longer grows, and what one doesn't need is given back.

use crate::tree::{Expression, Process, Statement};

/// The room for the steps of expressions, for the pieces of lines and for event controls.
#[derive(Clone, Copy)]
pub struct Room {
    pub ops: usize,
    pub shown: usize,
    pub controls: usize,
}

// The steps of an expression at a size.
#[cycle(steps)]
fn steps(expression: &Expression) -> usize {
    match expression {
        Expression::Register(_) | Expression::Select(_, _) | Expression::Literal(_) => 1,
        Expression::Concat(parts) => all_steps(parts).saturating_add(parts.len()),
        Expression::Unary(_, operand) => steps(operand).saturating_add(1),
        Expression::Binary(_, left, right) => steps(left).saturating_add(right_steps(right)),
        Expression::Conditional(condition, first, second) => steps(condition)
            .saturating_add(steps(first))
            .saturating_add(steps(second))
            .saturating_add(1),
        Expression::Extend(_, _, operand) => steps(operand).saturating_add(1),
    }
}

// The steps of a right operand and of its operator, which takes a register or a vector without the stack.
#[cycle(steps)]
fn right_steps(right: &Expression) -> usize {
    match right {
        Expression::Register(_) | Expression::Literal(_) => 1,
        _ => steps(right).saturating_add(1),
    }
}

// The steps of expressions, each at a size.
#[cycle(steps)]
fn all_steps(parts: &[Expression]) -> usize {
    let mut total: usize = 0;
    for part in parts {
        total = total.saturating_add(steps(part));
    }
    total
}

impl Room {
    // Room for the steps of one expression, and for one that cuts what is assigned.
    fn value(&mut self, expression: &Expression) {
        self.ops = self.ops.saturating_add(steps(expression)).saturating_add(1);
    }

    // Room for a line.
    fn line(&mut self, pieces: usize, arguments: &[Expression]) {
        self.shown = self.shown.saturating_add(pieces);
        self.ops = self.ops.saturating_add(all_steps(arguments));
    }

    fn control(&mut self) {
        self.controls = self.controls.saturating_add(1);
    }

    // Room for the code of a statement and of those inside it.
    #[cycle(room)]
    fn statement(&mut self, statement: &Statement) {
        match statement {
            Statement::Empty | Statement::Now(_) | Statement::Finish => (),
            Statement::Assign(_, value) => self.value(value),
            Statement::AssignAfter(_, _, value) => self.value(value),
            Statement::AssignLater(_, _, value) => self.value(value),
            Statement::Delay(_, body) => self.all(body),
            Statement::Await(_, body) => {
                self.control();
                self.all(body);
            }
            Statement::If(condition, body, otherwise) => {
                self.value(condition);
                self.all(body);
                self.all(otherwise);
            }
            Statement::While(condition, body) => {
                self.value(condition);
                self.all(body);
            }
            Statement::Print(_, format, arguments) => self.line(format.len(), arguments),
        }
    }

    // Room for the code of statements and of those inside them.
    #[cycle(room)]
    fn all(&mut self, statements: &[Statement]) {
        for statement in statements {
            self.statement(statement);
        }
    }
}

/// The room that the code of these processes takes.
pub fn room_of(processes: &[Process]) -> Room {
    let mut room = Room {
        ops: 0,
        shown: 0,
        controls: 0,
    };
    for process in processes {
        room.all(&process.body);
    }
    room
}
