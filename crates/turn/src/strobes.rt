//! The lines of `$strobe` (17.1.2).
ghost use Rattle.std.specs.Prelude.{◌≡◌, ◌≤◌, length, slice_get, string_bytes, OnOk, IfOk};
ghost use Rattle.turn.specs.Reads.{GaveAll, KeepsGiven, ReadsOn};
ghost use Rattle.turn.specs.Evaluate.{NamesDeclared};
ghost use Rattle.turn.specs.RunningTurn.{turn_status_of};
ghost use Rattle.turn.specs.Strobes.{PrintsStrobe, AreStrobeLines};

use crate::log::TurnLog;
use crate::memory::RegReader;
use crate::running_turn::{RunningTurn, part};
use design::code::{LinePiece, Node, Op};
use design::{Design, ProcState};
use model::tree::Task;
use std::alloc::{AllocError, Global};
use std::mem;

impl RunningTurn {
    // Prints the line of the statement at a place, where it is a `$strobe`.
    fn strobe_line<R: RegReader>(
        &mut self,
        nodes: &[Node],
        ops: &[Op],
        shown: &[LinePiece],
        place: usize,
        reader: &mut R,
    ) -> Result<(), AllocError>
        requires { NamesDeclared R.registers ops.now }
        ensures prints { OnOk result (PrintsStrobe ops.now shown.now (slice_get nodes.now place) (turn_status_of self.old) (turn_status_of self.new)) }
        ensures reads { ReadsOn R.gave R.lasting result reader.old self.old.memory.reads.entries reader.new self.new.memory.reads.entries }
    {
        if let Some(
            Node::Print {
                task: Task::Strobe,
                pieces,
                next: _,
            },
        ) = nodes.get(place)
        {
            self.print_pieces(ops, part(shown, *pieces), reader)?;
            self.lines.push('\n')?;
        }
        Ok(())
    }
}

// Prints the lines of the statements at these places.
fn print_lines<R: RegReader>(
    running: &mut RunningTurn,
    design: &Design,
    places: &[usize],
    reader: &mut R,
) -> Result<(), AllocError>
    requires registers { length design.now.widths ≤ R.registers }
    ensures lines { OnOk result (AreStrobeLines design.now places.now running.new.memory.reads.entries (string_bytes running.new.lines)) }
    ensures gave { OnOk result (GaveAll (R.gave reader.new) running.new.memory.reads.entries) }
    ensures keeps { KeepsGiven (R.gave reader.old) (R.gave reader.new) }
    ensures lasting { R.lasting reader.new ≡ R.lasting reader.old }
{
    let nodes = design.nodes();
    let ops = design.ops();
    let shown = design.shown();
    let start = ProcState {
        place: 0,
        pending: None,
    };
    running.begin(&start, design.registers())?;
    for place in places {
        running.strobe_line(nodes, ops, shown, *place, reader)?;
    }
    Ok(())
}

/// The lines of the `$strobe` statements at these places, one after another (17.1.2): nothing where none stands. Their
/// arguments have the values that the reader gives: a register is read once, at its first use. Fails where memory is refused.
/// It works in a log that its caller keeps, which is then that of no turn, and has these reads.
pub fn strobe_lines<R: RegReader>(
    alloc: Global,
    log: &mut TurnLog,
    design: &Design,
    places: &[usize],
    reader: &mut R,
) -> Result<String, AllocError>
    requires registers { length design.now.widths ≤ R.registers }
    ensures lines { IfOk result (λ text. AreStrobeLines design.now places.now log.new.reads (string_bytes text)) }
    ensures gave { OnOk result (GaveAll (R.gave reader.new) log.new.reads) }
    ensures keeps { KeepsGiven (R.gave reader.old) (R.gave reader.new) }
    ensures lasting { R.lasting reader.new ≡ R.lasting reader.old }
{
    print_lines(&mut log.running, design, places, reader)?;
    Ok(mem::replace(&mut log.running.lines, String::new(alloc)))
}
