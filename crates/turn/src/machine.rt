//! One step of a turn.
ghost use Rattle.std.specs.Prelude.{◌≡◌, ◌≤◌, ◌↔◌, true, false, IsTrue, IfOk};
ghost use Rattle.model.specs.Runs.{last_time};
ghost use Rattle.turn.specs.declared.log.Suspend.TheVariants.{Ended};
ghost use Rattle.std.specs.Result.{result_map_both};
ghost use Rattle.turn.specs.declared.machine.Step.TheVariants.{Ends, Goes};
ghost use Rattle.turn.specs.Reads.{ReadsOn};
ghost use Rattle.turn.specs.Evaluate.{NamesDeclared};
ghost use Rattle.turn.specs.RunningTurn.{turn_status_of, at, wait_for};
ghost use Rattle.turn.specs.TurnSteps.{TakesNode, TakesStep, IsAtEnd};

use crate::log::Suspend;
use crate::memory::RegReader;
use crate::running_turn::RunningTurn;
use design::code::{LinePiece, Node, Op};
use logic4::bits::Bits;
use model::tree::Task;
use std::alloc::AllocError;

/// What comes of one step: the turn goes on; or it was over before; or it is over now.
#[derive(Clone, Copy)]
pub(crate) enum Step {
    Goes,
    Over,
    Ends { suspend: Suspend, finish: bool },
}

// What a delay waits for (9.7.1, 11.3).
fn wait_until(now: u64, delay: u32) -> Suspend
    requires { now ≤ last_time }
    ensures { result ≡ wait_for now delay }
{
    if delay == 0 {
        Suspend::Inactive
    } else {
        Suspend::Until(now + u64::from(delay))
    }
}

// The turn goes on after what was done, unless memory was refused to that.
#[inline(always)]
fn goes(done: Result<(), AllocError>) -> Result<Step, AllocError>
    ensures { result ≡ result_map_both (λ _. Goes) (λ e. e) done }
{
    match done {
        Ok(()) => Ok(Step::Goes),
        Err(error) => Err(error),
    }
}

impl RunningTurn {
    // The turn goes on at this place.
    #[inline(always)]
    fn pass(&mut self, next: usize) -> Step
        ensures step { result ≡ Goes }
        ensures status { turn_status_of self.new ≡ at (turn_status_of self.old) next }
    {
        self.go(next);
        Step::Goes
    }

    // The turn ends, and its process goes on at this place after what it waits for.
    #[inline(always)]
    fn wait(&mut self, next: usize, suspend: Suspend) -> Step
        ensures step { result ≡ Ends suspend false }
        ensures status { turn_status_of self.new ≡ at (turn_status_of self.old) next }
    {
        self.go(next);
        Step::Ends {
            suspend,
            finish: false,
        }
    }

    // The turn ends, and the run with it (17.4.1).
    #[inline(always)]
    fn finish(&mut self, next: usize) -> Step
        ensures step { result ≡ Ends Ended true }
        ensures status { turn_status_of self.new ≡ at (turn_status_of self.old) next }
    {
        self.go(next);
        Step::Ends {
            suspend: Suspend::Ended,
            finish: true,
        }
    }

    // What a node does.
    fn take_node<R: RegReader>(
        &mut self,
        ops: &[Op],
        shown: &[LinePiece],
        now: u64,
        node: &Node,
        reader: &mut R,
    ) -> Result<Step, AllocError>
        requires now { now ≤ last_time }
        requires declared { NamesDeclared R.registers ops.now }
        ensures takes { IfOk result (λ r. TakesNode ops.now shown.now now node.now (turn_status_of self.old) r (turn_status_of self.new)) }
        ensures reads { ReadsOn R.gave R.lasting result reader.old self.old.memory.reads.entries reader.new self.new.memory.reads.entries }
    {
        match node {
            Node::Over => Ok(Step::Over),
            Node::Restart { first } => Ok(self.pass(*first)),
            Node::Skip { next } => Ok(self.pass(*next)),
            Node::Assign {
                register,
                value,
                next,
            } => goes(self.assign(ops, *value, *register, *next, reader)),
            Node::AssignAfter {
                register,
                value,
                next,
                delay,
            } => {
                self.compute(ops, *value, reader)?;
                self.hold(*register, *next);
                Ok(Step::Ends {
                    suspend: wait_until(now, *delay),
                    finish: false,
                })
            }
            Node::AssignLater {
                register,
                delay,
                value,
                next,
            } => {
                self.compute(ops, *value, reader)?;
                goes(self.assign_later(*register, now + u64::from(*delay), *next))
            }
            Node::Now {
                register,
                size,
                next,
            } => {
                let value = Bits::from_u64(size.get(), now);
                goes(self.write(*register, value, *next))
            }
            Node::Delay { delay, next } => Ok(self.wait(*next, wait_until(now, *delay))),
            Node::Await { control, next } => Ok(self.wait(*next, Suspend::Event(*control))),
            Node::Branch {
                condition,
                taken,
                missed,
            } => goes(self.branch(ops, reader, *condition, *taken, *missed)),
            Node::Print { task, pieces, next } => match task {
                Task::Display => goes(self.display(ops, shown, *pieces, *next, reader)),
                Task::Write => goes(self.print_text(ops, shown, *pieces, *next, reader)),
                Task::Strobe => {
                    self.strobe(*next)?;
                    Ok(Step::Goes)
                }
            },
            Node::Finish { next } => Ok(self.finish(*next)),
        }
    }

    /// One step of a turn at this time, over the nodes, the steps of expressions and the pieces of lines of a design.
    pub fn take<R: RegReader>(
        &mut self,
        nodes: &[Node],
        ops: &[Op],
        shown: &[LinePiece],
        now: u64,
        reader: &mut R,
    ) -> Result<Step, AllocError>
        requires now { now ≤ last_time }
        requires declared { NamesDeclared R.registers ops.now }
        ensures takes { IfOk result (λ r. TakesStep nodes.now ops.now shown.now now (turn_status_of self.old) r (turn_status_of self.new)) }
        ensures reads { ReadsOn R.gave R.lasting result reader.old self.old.memory.reads.entries reader.new self.new.memory.reads.entries }
    {
        let place = self.state.place;
        if let Some((register, value)) = self.state.pending {
            self.write(register, value.get(), place)?;
            return Ok(Step::Goes);
        }
        match nodes.get(place) {
            Some(node) => self.take_node(ops, shown, now, node, reader),
            None => Ok(Step::Over),
        }
    }

    /// Whether nothing is left of an initial construct.
    pub fn is_over(&self, nodes: &[Node]) -> bool
        ensures { IsTrue result ↔ IsAtEnd nodes.now self.now.state }
    {
        match self.state.pending {
            Some(_) => false,
            None => match nodes.get(self.state.place) {
                Some(Node::Over) => true,
                _ => false,
            },
        }
    }
}
