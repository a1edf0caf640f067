//! The nodes of statements, in the order of the text: the node of a statement stands at the statement's place.
ghost use Rattle.std.specs.Prelude.{◌≡◌, ◌<◌, ◌≤◌, ◌+◌, ◌++◌, ◌∷◌, [], length, map, drop, slice_get, slice_index, Some, OnOk, IfOk, List};
ghost use Rattle.model.specs.Design as model;
ghost use Rattle.model.specs.Design.{inside, size};
ghost use Rattle.design.specs.declared.code.Node.TheVariants as node;
ghost use Rattle.design.specs.Sound.{AreWidths, IsSoundExpression, IsSoundStatement, AreSoundStatements};
ghost use Rattle.design.specs.DesignTrees.{expression_of, statement_of, statements_of};
ghost use Rattle.design.specs.Generate.{own_code, assigned_code};
ghost use Rattle.design.specs.Extents.{AreMeasured, AreMeasuredInside, extent_of};
ghost use Rattle.design.specs.Emit.{with_node, with_control, with_valued, with_statement, with_all, first_of, next_of};
ghost use Rattle.design.specs.Emitter.{emitted_of, assign_node};

use crate::code::{LinePiece, Node, Op, Span};
use crate::control::{Control, RegId, Trigger};
use crate::extents::Extent;
use crate::room::{Room, room_of};
use crate::sizes::width_of;
use crate::tree::{Expression, Process, Statement};
use std::alloc::{AllocError, Global};

/// The code so far. What it leads to may stand behind it.
#[derive(Drop)]
pub struct Emitter {
    pub nodes: Vec<Node>,
    pub ops: Vec<Op>,
    pub shown: Vec<LinePiece>,
    pub controls: Vec<Control>,
}

/// The place of the first of these statements, which would stand at this place, or else the place behind them.
pub fn first_of(place: usize, statements: &[Statement], after: usize) -> usize
    ensures { result ≡ first_of place (statements_of statements.now) after }
{
    if statements.is_empty() { after } else { place }
}

// the place to which the first of these statements leads
#[tactic(auto, using(crate::proofs::Lines::first_measured))]
fn next_of(table: &[Extent], place: usize, statements: &[Statement], after: usize) -> usize
    requires some { 1 ≤ length statements.now }
    requires measured { AreMeasured table.now place (statements_of statements.now) }
    ensures { result ≡ next_of place (statements_of statements.now) after }
{
    first_of(table[place].whole, &statements[1..], after)
}

// How the value of an assignment comes into its register: at once (9.2.1), after a wait (9.7.7), or by an update event (9.2.2).
#[derive(Clone, Copy)]
pub(crate) enum AssignmentKind {
    AtOnce,
    After(u32),
    Later(u32),
}

// The node of an assignment.
fn assign_node(assignment_kind: AssignmentKind, register: RegId, value: Span, next: usize) -> Node
    ensures { result ≡ assign_node assignment_kind register value next }
{
    match assignment_kind {
        AssignmentKind::AtOnce => Node::Assign {
            register,
            value,
            next,
        },
        AssignmentKind::After(delay) => Node::AssignAfter {
            register,
            delay,
            value,
            next,
        },
        AssignmentKind::Later(delay) => Node::AssignLater {
            register,
            delay,
            value,
            next,
        },
    }
}

// A choice between two bodies, as a statement has it (9.4).
#[derive(Clone, Copy)]
struct Choice<'a> {
    condition: &'a Expression,
    body: &'a [Statement],
    otherwise: &'a [Statement],
}

impl Emitter {
    /// No code yet, with room for that of so many statements, which are those of these processes. Fails where memory is
    /// refused.
    pub fn new(
        alloc: Global,
        statements: usize,
        processes: &[Process],
    ) -> Result<Emitter, AllocError>
        ensures { IfOk result (λ made. emitted_of made ≡ record { nodes = []; ops = []; shown = []; controls = [] }) }
    {
        let nodes = statements.saturating_add(processes.len());
        let mut emitter = Emitter {
            nodes: Vec::new(alloc),
            ops: Vec::new(alloc),
            shown: Vec::new(alloc),
            controls: Vec::new(alloc),
        };
        emitter.make_room(nodes, room_of(processes))?;
        Ok(emitter)
    }

    // Room for so many nodes, and for what stands beside them.
    fn make_room(&mut self, nodes: usize, room: Room) -> Result<(), AllocError>
        ensures { OnOk result (emitted_of self.new ≡ emitted_of self.old) }
    {
        self.nodes.reserve_exact(nodes)?;
        self.ops.reserve_exact(room.ops)?;
        self.shown.reserve_exact(room.shown)?;
        self.controls.reserve_exact(room.controls)
    }

    /// The same code, in no more room than it needs.
    pub fn give_back(&mut self)
        ensures { emitted_of self.new ≡ emitted_of self.old }
    {
        self.ops.shrink_to_fit();
    }

    /// One node more.
    pub fn put(&mut self, node: Node) -> Result<(), AllocError>
        ensures node { OnOk result (emitted_of self.new ≡ with_node (emitted_of self.old) node) }
        ensures length { OnOk result (length self.new.nodes.items ≡ length self.old.nodes.items + 1) }
    {
        self.nodes.push(node)?;
        Ok(())
    }

    // One event control more, with a copy of these events.
    fn control(&mut self, triggers: &Vec<Trigger>) -> Result<(), AllocError>
        ensures { OnOk result (emitted_of self.new ≡ with_control (emitted_of self.old) triggers.now.items) }
    {
        self.controls.push(Control::new(triggers.clone()?))?;
        Ok(())
    }

    // The node of a delay, which leads into a body that stands next, or past an empty one.
    fn delay(&mut self, delay: u32, body: &[Statement], next: usize) -> Result<(), AllocError>
        ensures node { OnOk result (emitted_of self.new ≡ with_node (emitted_of self.old) (node.Delay delay (first_of (length self.old.nodes.items + 1) (statements_of body.now) next))) }
        ensures length { OnOk result (length self.new.nodes.items ≡ length self.old.nodes.items + 1) }
    {
        let next = first_of(self.nodes.len() + 1, body, next);
        self.put(Node::Delay { delay, next })
    }

    // One event control more, and its node, which leads into a body that stands next, or past an empty one.
    fn wait(
        &mut self,
        triggers: &Vec<Trigger>,
        body: &[Statement],
        next: usize,
    ) -> Result<(), AllocError>
        ensures node { OnOk result (emitted_of self.new ≡ with_node (with_control (emitted_of self.old) triggers.now.items) (node.Await (length self.old.controls.items) (first_of (length self.old.nodes.items + 1) (statements_of body.now) next))) }
        ensures length { OnOk result (length self.new.nodes.items ≡ length self.old.nodes.items + 1) }
    {
        let control = self.controls.len();
        let next = first_of(self.nodes.len() + 1, body, next);
        self.control(triggers)?;
        self.put(Node::Await { control, next })
    }

    // The test of a condition, which leads into a body that stands next, or to another place.
    fn test(
        &mut self,
        widths: &[u32],
        condition: &Expression,
        taken: usize,
        missed: usize,
    ) -> Result<(), AllocError>
        requires sound { IsSoundExpression widths.now (expression_of condition.now) }
        requires widths { AreWidths widths.now }
        ensures node { OnOk result (emitted_of self.new ≡ with_valued (emitted_of self.old) (own_code widths.now (expression_of condition.now)) (λ s. node.Branch s taken missed)) }
        ensures length { OnOk result (length self.new.nodes.items ≡ length self.old.nodes.items + 1) }
    {
        let condition = self.own(widths, condition)?;
        self.put(Node::Branch {
            condition,
            taken,
            missed,
        })
    }

    // The test of a choice, the first of whose bodies stands next.
    fn choice(
        &mut self,
        widths: &[u32],
        table: &[Extent],
        choice: Choice<'_>,
        next: usize,
    ) -> Result<(), AllocError>
        requires sound { IsSoundExpression widths.now (expression_of choice.condition.now) }
        requires widths { AreWidths widths.now }
        requires measured { slice_get table.now (length self.old.nodes.items) ≡ Some (extent_of (length self.old.nodes.items) (model.If (expression_of choice.condition.now) (statements_of choice.body.now) (statements_of choice.otherwise.now))) }
        ensures node { OnOk result (emitted_of self.new ≡ with_valued (emitted_of self.old) (own_code widths.now (expression_of choice.entry.condition.now)) (λ s. node.Branch s (first_of (length self.old.nodes.items + 1) (statements_of choice.entry.body.now) next) (first_of (length self.old.nodes.items + 1 + size (statements_of choice.entry.body.now)) (statements_of choice.entry.otherwise.now) next))) }
        ensures length { OnOk result (length self.new.nodes.items ≡ length self.old.nodes.items + 1) }
    {
        let place = self.nodes.len();
        let taken = first_of(place + 1, choice.body, next);
        let missed = first_of(table[place].body, choice.otherwise, next);
        self.test(widths, choice.condition, taken, missed)
    }

    // The node of an assignment, with the steps of its right side.
    fn assign(
        &mut self,
        widths: &[u32],
        register: RegId,
        assignment_kind: AssignmentKind,
        value: &Expression,
        next: usize,
    ) -> Result<(), AllocError>
        requires declared { register < length widths.now }
        requires sound { IsSoundExpression widths.now (expression_of value.now) }
        requires widths { AreWidths widths.now }
        ensures node { OnOk result (emitted_of self.new ≡ with_valued (emitted_of self.old) (assigned_code widths.now register (expression_of value.now)) (λ s. assign_node assignment_kind register s next)) }
        ensures length { OnOk result (length self.new.nodes.items ≡ length self.old.nodes.items + 1) }
    {
        let value = self.assigned(widths, register, value)?;
        self.put(assign_node(assignment_kind, register, value, next))
    }

    // The node of the time as a register's value.
    fn time(&mut self, widths: &[u32], register: RegId, next: usize) -> Result<(), AllocError>
        requires declared { register < length widths.now }
        requires widths { AreWidths widths.now }
        ensures node { OnOk result (emitted_of self.new ≡ with_node (emitted_of self.old) (node.Now register (slice_index widths.now register) next)) }
        ensures length { OnOk result (length self.new.nodes.items ≡ length self.old.nodes.items + 1) }
    {
        let size = width_of(widths, register);
        self.put(Node::Now {
            register,
            size,
            next,
        })
    }

    // A statement and those inside it, which lead to the next place.
    #[cycle(emit)]
    fn emit(
        &mut self,
        widths: &[u32],
        table: &[Extent],
        statement: &Statement,
        next: usize,
    ) -> Result<(), AllocError>
        requires sound { IsSoundStatement widths.now (statement_of statement.now) }
        requires widths { AreWidths widths.now }
        requires measured { slice_get table.now (length self.old.nodes.items) ≡ Some (extent_of (length self.old.nodes.items) (statement_of statement.now)) }
        requires inside { AreMeasuredInside table.now (length self.old.nodes.items) (statement_of statement.now) }
        ensures code { OnOk result (emitted_of self.new ≡ with_statement widths.now next (emitted_of self.old) (statement_of statement.now)) }
        ensures length { OnOk result (length self.new.nodes.items ≡ length self.old.nodes.items + 1 + length (inside (statement_of statement.now))) }
    {
        match statement {
            Statement::Empty => self.put(Node::Skip { next }),
            Statement::Assign(register, value) => {
                self.assign(widths, *register, AssignmentKind::AtOnce, value, next)
            }
            Statement::AssignAfter(register, delay, value) => {
                let after = AssignmentKind::After(*delay);
                self.assign(widths, *register, after, value, next)
            }
            Statement::AssignLater(register, delay, value) => {
                let later = AssignmentKind::Later(*delay);
                self.assign(widths, *register, later, value, next)
            }
            Statement::Now(register) => self.time(widths, *register, next),
            Statement::Delay(delay, body) => {
                self.delay(*delay, body, next)?;
                self.emit_all(widths, table, body, next)
            }
            Statement::Await(triggers, body) => {
                self.wait(triggers, body, next)?;
                self.emit_all(widths, table, body, next)
            }
            Statement::If(condition, body, otherwise) => {
                let choice = Choice {
                    condition,
                    body,
                    otherwise,
                };
                self.choice(widths, table, choice, next)?;
                self.emit_all(widths, table, body, next)?;
                self.emit_all(widths, table, otherwise, next)
            }
            Statement::While(condition, body) => {
                let place = self.nodes.len();
                let taken = first_of(place + 1, body, place);
                self.test(widths, condition, taken, next)?;
                self.emit_all(widths, table, body, place)
            }
            Statement::Print(task, format, arguments) => {
                let pieces = self.line(widths, format, arguments)?;
                self.put(Node::Print {
                    task: *task,
                    pieces,
                    next,
                })
            }
            Statement::Finish => self.put(Node::Finish { next }),
        }
    }

    /// Statements and those inside them, the last of which leads to the place after them.
    #[cycle(emit)]
    pub fn emit_all(
        &mut self,
        widths: &[u32],
        table: &[Extent],
        statements: &[Statement],
        after: usize,
    ) -> Result<(), AllocError>
        requires sound { AreSoundStatements widths.now (statements_of statements.now) }
        requires widths { AreWidths widths.now }
        requires measured { AreMeasured table.now (length self.old.nodes.items) (statements_of statements.now) }
        ensures code { OnOk result (emitted_of self.new ≡ with_all widths.now after (emitted_of self.old) (statements_of statements.now)) }
        ensures length { OnOk result (length self.new.nodes.items ≡ length self.old.nodes.items + size (statements_of statements.now)) }
    {
        for (index, statement) in statements.iter().enumerate() {
            let next = next_of(table, self.nodes.len(), &statements[index..], after);
            self.emit(widths, table, statement, next)?;
        }
        Ok(())
    }
}
