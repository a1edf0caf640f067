//! The code of processes: their statements, and behind all of them the node of the end of each.
ghost use Rattle.std.specs.Prelude.{◌≡◌, ◌<◌, ◌≤◌, ◌+◌, ◌^◌, ◌++◌, length, map, OnOk, IfOk};
ghost use Rattle.std.specs.List.{All};
ghost use Rattle.design.specs.Sound.{AreWidths, IsSound, AreSoundStatements};
ghost use Rattle.design.specs.DesignTrees.{statements_of, process_of, tree_design};
ghost use Rattle.design.specs.Extents.{IsMeasured, all_extents};
ghost use Rattle.design.specs.Emit.{nothing_yet, with_node, with_bodies, starts_of, end_node, end_nodes, all_code};
ghost use Rattle.design.specs.CodePlaces.{statement_count};
ghost use Rattle.design.specs.Emitter.{emitted_of};

use crate::code::Node;
use crate::emitter::{Emitter, first_of};
use crate::extents::{Extent, extents_of};
use crate::tree::Process;
use std::alloc::{AllocError, Global};

impl Emitter {
    // The statements of processes, each of which ends at its own place behind all statements, and where they begin.
    fn emit_bodies(
        &mut self,
        alloc: Global,
        widths: &[u32],
        table: &[Extent],
        processes: &[Process],
        end: usize,
    ) -> Result<Vec<usize>, AllocError>
        requires sound { All (λ p. AreSoundStatements widths.now (statements_of p.body.items)) processes.now }
        requires widths { AreWidths widths.now }
        requires measured { IsMeasured table.now (length self.old.nodes.items) (map process_of processes.now) }
        requires fits { end + length processes.now < 2 ^ 64 }
        ensures code { IfOk result (λ v. emitted_of self.new ≡ with_bodies widths.now end (emitted_of self.old) (map process_of processes.now)) }
        ensures starts { IfOk result (λ v. v.items ≡ starts_of (length self.old.nodes.items) end (map process_of processes.now)) }
    {
        let mut starts = Vec::new(alloc);
        for (index, process) in processes.iter().enumerate() {
            let behind = end + index;
            starts.push(first_of(self.nodes.len(), &process.body, behind))?;
            self.emit_all(widths, table, &process.body, behind)?;
        }
        Ok(starts)
    }

    // The node behind the statements of a process, which leads to its first place again where it repeats.
    fn end(&mut self, repeats: bool, first: usize) -> Result<(), AllocError>
        ensures { OnOk result (emitted_of self.new ≡ with_node (emitted_of self.old) (end_node repeats first)) }
    {
        if repeats {
            self.put(Node::Restart { first })
        } else {
            self.put(Node::Over)
        }
    }

    // The ends of processes, which begin at these places.
    fn emit_ends(&mut self, processes: &[Process], starts: &[usize]) -> Result<(), AllocError>
        requires { length starts.now ≡ length processes.now }
        ensures { OnOk result (emitted_of self.new ≡ record (emitted_of self.old) { nodes = self.old.nodes.items ++ end_nodes (map process_of processes.now) starts.now }) }
    {
        for (index, process) in processes.iter().enumerate() {
            self.end(process.repeats, starts[index])?;
        }
        Ok(())
    }

    // The code of processes, where none is yet, by the table of what their statements reach to, and where they begin.
    fn emit_each(
        &mut self,
        alloc: Global,
        widths: &[u32],
        table: &[Extent],
        processes: &[Process],
    ) -> Result<Vec<usize>, AllocError>
        requires sound { IsSound (tree_design widths.now processes.now) }
        requires empty { emitted_of self.old ≡ nothing_yet }
        requires tabled { table.now ≡ all_extents 0 (map process_of processes.now) }
        ensures code { IfOk result (λ starts. emitted_of self.new ≡ all_code widths.now (statement_count (tree_design widths.now processes.now)) (map process_of processes.now)) }
        ensures starts { IfOk result (λ starts. starts.items ≡ starts_of 0 (statement_count (tree_design widths.now processes.now)) (map process_of processes.now)) }
    {
        let end = table.len();
        let starts = self.emit_bodies(alloc, widths, table, processes, end)?;
        self.emit_ends(processes, &starts)?;
        self.give_back();
        Ok(starts)
    }
}

/// The code of the processes of a design, and where they begin.
pub fn emit_processes(
    alloc: Global,
    widths: &[u32],
    processes: &[Process],
) -> Result<(Emitter, Vec<usize>), AllocError>
    requires { IsSound (tree_design widths.now processes.now) }
    ensures code { IfOk result (λ made. emitted_of made.0 ≡ all_code widths.now (statement_count (tree_design widths.now processes.now)) (map process_of processes.now)) }
    ensures starts { IfOk result (λ made. made.1.items ≡ starts_of 0 (statement_count (tree_design widths.now processes.now)) (map process_of processes.now)) }
{
    let table = extents_of(alloc, processes)?;
    let mut emitter = Emitter::new(alloc, table.len(), processes)?;
    let starts = emitter.emit_each(alloc, widths, &table, processes)?;
    Ok((emitter, starts))
}
