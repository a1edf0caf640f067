//! Designs.
ghost use Rattle.std.specs.Prelude.{◌≡◌, ◌<◌, ◌≤◌, length, map, string_bytes, Some, slice_get, slice_index, IfOk};
ghost use Rattle.std.specs.List.{All};
ghost use Rattle.model.specs.Turns.{whole};
ghost use Rattle.design.specs.DesignTrees.{tree_design};
ghost use Rattle.logic4.specs.Vector.{AreWithin, greatest_width};
ghost use Rattle.design.specs.Sound.{IsSound};
ghost use Rattle.design.specs.Compiled.{design_of};
ghost use Rattle.design.specs.Meaning.{IsCompiled};
ghost use Rattle.design.specs.DesignInvariant.{remainder_of_state, controls_of, IsStateOf};

use crate::code::{LinePiece, Node, Op, ProcState};
use crate::control::{Control, RegId};
use crate::emitter::Emitter;
use crate::processes::emit_processes;
use crate::tree::Process;
use indexmap::IndexSet;
use std::alloc::{AllocError, Global};
use std::marker::Model;

/// A design: the names and the widths of its registers by number, its processes as a tree, and the code that runs them.
#[derive(Drop)]
pub struct Design {
    names: IndexSet<String>,
    widths: Vec<u32>,
    processes: Vec<Process>,
    nodes: Vec<Node>,
    ops: Vec<Op>,
    shown: Vec<LinePiece>,
    controls: Vec<Control>,
    starts: Vec<usize>,
}

impl Model for Design {
    ghost use Rattle.design.specs.Compiled.{Compiled};

    ghost Value = { Compiled };

    ghost use Rattle.std.specs.Coded.{codes};
    ghost use Rattle.design.specs.contracts.tree.Statement as statements;

    ghost coded = { Prim.hlevel (codes, statements.the_row.coded) };

    ghost use Rattle.std.specs.Prelude.{map, string_bytes};
    ghost use Rattle.design.specs.Meaning.{IsCompiled};

    ghost view = { λ d. record { names = map string_bytes d.names.keys; widths = d.widths.items; processes = d.processes.items; nodes = d.nodes.items; ops = d.ops.items; shown = d.shown.items; controls = d.controls.items; starts = d.starts.items } };

    ghost invariant = { λ d. IsCompiled (record { names = map string_bytes d.names.keys; widths = d.widths.items; processes = d.processes.items; nodes = d.nodes.items; ops = d.ops.items; shown = d.shown.items; controls = d.controls.items; starts = d.starts.items }) };
}

impl Design {
    /// The design of registers of these names and widths, in the order of their numbers, and of these processes, with
    /// its code. Fails where memory is refused.
    pub fn new(
        alloc: Global,
        names: IndexSet<String>,
        widths: Vec<u32>,
        processes: Vec<Process>,
    ) -> Result<Design, AllocError>
        requires sound { IsSound (tree_design widths.items processes.items) }
        requires named { length names.keys ≡ length widths.items }
        ensures design { IfOk result (λ d. design_of d ≡ tree_design widths.items processes.items) }
        ensures names { IfOk result (λ d. d.names ≡ map string_bytes names.keys) }
    {
        let (emitter, starts) = emit_processes(alloc, &widths, &processes)?;
        let Emitter {
            nodes,
            ops,
            shown,
            controls,
        } = emitter;
        Ok(Design {
            names,
            widths,
            processes,
            nodes,
            ops,
            shown,
            controls,
            starts,
        })
    }

    /// Where a process begins: at the place of its whole body.
    pub fn first(&self, process: u32) -> ProcState
        requires { process < length self.now.processes }
        ensures state { IsStateOf self.now process result }
        ensures whole { remainder_of_state self.now result ≡ whole (design_of self.now) process }
    {
        ProcState {
            place: self.starts[process as usize],
            pending: None,
        }
    }

    /// The name of a register.
    pub fn name(&self, register: RegId) -> &str
        requires { register < length self.now.names }
        ensures { Some result.now ≡ slice_get self.entry.now.names register }
    {
        self.names[register as usize].as_str()
    }

    /// The number of registers.
    pub fn registers(&self) -> u32
        ensures value { result ≡ length self.now.widths }
        ensures few { result ≤ 65536 }
        ensures compiled { IsCompiled self.now }
    {
        self.widths.len() as u32
    }

    /// The width of a register, 1 to 128 digits (4.2).
    pub fn width(&self, register: RegId) -> u32
        requires { register < length self.now.widths }
        ensures value { result ≡ slice_index self.now.widths register }
        ensures some { 1 ≤ result }
        ensures within { result ≤ greatest_width }
    {
        self.widths[register as usize]
    }

    /// The nodes, each at its place.
    pub fn nodes(&self) -> &[Node]
        ensures { result.now ≡ self.entry.now.nodes }
    {
        self.nodes.as_slice()
    }

    /// The steps of all expressions.
    pub fn ops(&self) -> &[Op]
        ensures { result.now ≡ self.entry.now.ops }
    {
        self.ops.as_slice()
    }

    /// The pieces of all lines.
    pub fn shown(&self) -> &[LinePiece]
        ensures { result.now ≡ self.entry.now.shown }
    {
        self.shown.as_slice()
    }
}

impl Design {
    /// The width of each register, in the order of their numbers: 1 to 128 digits (4.2).
    pub fn widths(&self) -> &[u32]
        ensures widths { result.now ≡ self.now.widths }
        ensures some_digit { All (λ w. 1 ≤ w) result.now }
        ensures few_digits { AreWithin result.now }
    {
        self.widths.as_slice()
    }

    /// The event controls, in the order of their numbers. Fails where memory is refused.
    pub fn controls(&self, alloc: Global) -> Result<Vec<Control>, AllocError>
        ensures { IfOk result (λ v. v.items ≡ controls_of self.now) }
    {
        let mut controls = Vec::new(alloc);
        for control in &self.controls {
            controls.push(Control::new(Vec::from_slice(alloc, control.triggers())?))?;
        }
        Ok(controls)
    }

    /// The event controls, in the order of their numbers, as they lie in the design.
    pub fn event_controls(&self) -> &[Control]
        ensures { result.now ≡ controls_of self.entry.now }
    {
        self.controls.as_slice()
    }

    /// The processes as trees, in the order of the text (9.9).
    pub fn trees(&self) -> &[Process]
        ensures { result.now ≡ self.entry.now.processes }
    {
        self.processes.as_slice()
    }

    /// The number of processes.
    pub fn processes(&self) -> u32
        ensures value { result ≡ length (design_of self.now).processes }
        ensures few { result ≤ 16384 }
    {
        self.processes.len() as u32
    }
}
