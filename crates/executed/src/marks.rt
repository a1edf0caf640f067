//! The nodes that did what is looked for in a turn.

use crate::course::{Course, Done, GoesOn};
use crate::deed::{Deed, times_done};
use design::code::Node;
use design::{Design, ProcState, RegId};
use std::alloc::{AllocError, Global};
use turn::{Suspend, TurnLog};

// The most nodes of a turn.
const MOST_STEPS: u32 = 65_536;

/// Whether nodes did what is looked for, by their places.
#[derive(Drop)]
pub(crate) struct StatementMarks {
    marks: Vec<bool>,
}

// Whether a nonblocking assignment with a number is meant.
fn is_meant(sought: Option<usize>, number: usize) -> bool {
    match sought {
        Some(sought) => sought == number,
        None => true,
    }
}

// Whether a node leaves the assignment of a register over, and goes on at a place behind the wait.
fn leaves_over(node: &Node, register: RegId, place: usize) -> bool {
    match node {
        Node::AssignAfter {
            register: to,
            next,
            ..
        } => *to == register && *next == place,
        _ => false,
    }
}

// The register to which an earlier turn left an assignment over, if it did.
fn left_over(state: &ProcState) -> Option<RegId> {
    match state.pending {
        Some((register, _)) => Some(register),
        None => None,
    }
}

// Whether a node waits at the event control with a number.
fn waits_at(node: &Node, number: usize) -> bool {
    match node {
        Node::Await { control, .. } => *control == number,
        _ => false,
    }
}

// Whether nothing that is looked for can stand behind where a turn was gone along to.
fn is_over(log: &TurnLog, done: Done, deed: Deed) -> bool {
    match deed {
        Deed::Writes(_) => done.writes >= log.writes().len(),
        Deed::Assigns(_) => done.nbas >= log.nbas().len(),
        Deed::Schedules => done.nbas >= log.nbas().len(),
        Deed::Strobes => done.strobes >= log.strobes().len(),
        Deed::Reads(_) => false,
        Deed::Waits(_) => false,
        Deed::Prints => false,
        Deed::Finishes => false,
    }
}

impl StatementMarks {
    /// No node has a mark. Fails where memory is refused.
    pub(crate) fn new(alloc: Global, design: &Design) -> Result<StatementMarks, AllocError> {
        let mut marks = Vec::new(alloc);
        marks.resize(design.nodes().len(), false)?;
        Ok(StatementMarks { marks })
    }

    /// Whether the node at a place has a mark.
    pub(crate) fn has(&self, place: usize) -> bool {
        place < self.marks.len() && self.marks[place]
    }

    // Gives the node at a place a mark.
    fn mark(&mut self, place: usize) {
        if place < self.marks.len() {
            self.marks[place] = true;
        }
    }

    // Marks the nodes by which an earlier turn left a write of this register over for a process that goes on at a place.
    fn mark_left_over(&mut self, design: &Design, register: RegId, place: usize) {
        let nodes = design.nodes();
        for at in 0..nodes.len() {
            if leaves_over(&nodes[at], register, place) {
                self.mark(at);
            }
        }
    }

    // Marks what an earlier turn left over, where it is a write that is looked for.
    fn mark_pending(&mut self, design: &Design, state: &ProcState, deed: Deed) {
        match (left_over(state), deed) {
            (Some(left), Deed::Writes(register)) => {
                if left == register {
                    self.mark_left_over(design, register, state.place);
                }
            }
            _ => {}
        }
    }

    // Marks a node that does what is looked for where the turn stands. The answer is whether no other one is looked for behind it.
    fn mark_node(
        &mut self,
        design: &Design,
        node: &Node,
        done: Done,
        deed: Deed,
        nba: Option<usize>,
    ) -> bool {
        if times_done(design, node, deed) == 0 {
            return false;
        }
        match deed {
            Deed::Reads(_) => {
                self.mark(done.place);
                true
            }
            Deed::Assigns(_) => {
                if is_meant(nba, done.nbas) {
                    self.mark(done.place);
                }
                false
            }
            Deed::Writes(_) => {
                match node {
                    Node::AssignAfter { .. } => {}
                    _ => self.mark(done.place),
                }
                false
            }
            _ => {
                self.mark(done.place);
                false
            }
        }
    }

    // Marks the node of the event control with a number.
    fn mark_control(&mut self, design: &Design, control: usize) {
        let nodes = design.nodes();
        for at in 0..nodes.len() {
            if waits_at(&nodes[at], control) {
                self.mark(at);
            }
        }
    }

    // Marks the node at whose event control a turn's process waits behind it.
    fn mark_wait(&mut self, design: &Design, suspend: Suspend) {
        match suspend {
            Suspend::Event(control) => self.mark_control(design, control),
            _ => {}
        }
    }

    // Marks the node where a turn stands, if it did what is looked for. The answer is where the turn goes on, as far as more is looked for. Fails
    // where memory is refused.
    fn mark_step(
        &mut self,
        course: &mut Course<'_, '_>,
        deed: Deed,
        nba: Option<usize>,
        done: Done,
    ) -> Result<GoesOn, AllocError> {
        if is_over(course.log, done, deed) {
            return Ok(GoesOn::Nowhere);
        }
        let design = course.design;
        let node = match design.nodes().get(done.place) {
            Some(node) => *node,
            None => return Ok(GoesOn::Nowhere),
        };
        if self.mark_node(design, &node, done, deed, nba) {
            return Ok(GoesOn::Nowhere);
        }
        course.behind(&node, done)
    }

    // Goes along a turn from where it begins, and marks its nodes that did what is looked for. The answer is whether its course is known as far as
    // need be. Fails where memory is refused.
    fn mark_along(
        &mut self,
        course: &mut Course<'_, '_>,
        deed: Deed,
        nba: Option<usize>,
        begun: Done,
    ) -> Result<bool, AllocError> {
        let mut done = begun;
        for _ in 0..MOST_STEPS {
            match self.mark_step(course, deed, nba, done)? {
                GoesOn::At(next) => done = next,
                GoesOn::Nowhere => return Ok(true),
                GoesOn::Unknown => return Ok(false),
            }
        }
        Ok(false)
    }

    /// Marks the nodes of a turn of a process that went on in this state which did what is looked for, of nonblocking assignments those that are
    /// meant. The answer is whether its course is known as far as need be. Fails where memory is refused.
    pub(crate) fn mark_turn(
        &mut self,
        course: &mut Course<'_, '_>,
        state: &ProcState,
        deed: Deed,
        nba: Option<usize>,
    ) -> Result<bool, AllocError> {
        match deed {
            Deed::Waits(_) => {
                self.mark_wait(course.design, course.log.suspend());
                return Ok(true);
            }
            _ => {}
        }
        self.mark_pending(course.design, state, deed);
        let begun = course.begun(state);
        self.mark_along(course, deed, nba, begun)
    }
}
