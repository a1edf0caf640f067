//! A combinational process, found by its text.
ghost use Rattle.std.specs.Prelude.{◌≡◌, ℕ, ◌+◌, ◌<◌, ◌≤◌, true, false, List, [], ◌++◌, map, length, Some, slice_get, IfOk, IfSome};
ghost use Rattle.model.specs.Design.{Trigger as Triggered, Statements, Await, End, Then, size, process_at, first_place};
ghost use Rattle.model.specs.Elaboration.{followed_by};
ghost use Rattle.model.specs.Turns.{contains, parts};
ghost use Rattle.design.specs.DesignTrees.{process_of, statements_of};
ghost use Rattle.design.specs.Compiled.{design_of};
ghost use Rattle.design.specs.DesignInvariant.{controls_of};
ghost use Rattle.design.specs.CodePlaces.{remainder_at};
ghost use Rattle.phases.specs.Combinational.{reads as all_reads, written, settled};
ghost use Rattle.combinational.specs.Found.{any_change, HasLogic};

use crate::body::{data_flow, is_plain};
use crate::count::place_behind;
use design::code::Node;
use design::tree::{Process, Statement};
use design::{Design, RegId, Trigger};
use model::tree::Change;
use std::alloc::{AllocError, Global};

/// The logic of a combinational process: the registers that it waits for, those that it gives values, the number of the event control by
/// which it waits, and the place at which it goes on behind its wait.
#[derive(Drop)]
pub struct Logic {
    pub inputs: Vec<RegId>,
    pub outputs: Vec<RegId>,
    pub control: usize,
    pub place: usize,
}

/// Whether a register is among these.
pub fn is_among(registers: &[RegId], register: RegId) -> bool
    ensures { result ≡ contains registers.now register }
{
    registers.iter().any(|own| *own == register)
}

// The registers of an event control that waits for any change of each (9.7.2).
fn inputs_of(alloc: Global, triggers: &[Trigger]) -> Result<Option<Vec<RegId>>, AllocError>
    ensures { IfOk result (λ found. IfSome found (λ inputs. map any_change inputs.items ≡ triggers.now)) }
{
    let mut inputs = Vec::new(alloc);
    for trigger in triggers {
        match trigger.0 {
            Change::Any => inputs.push(trigger.1)?,
            Change::Posedge => return Ok(None),
            Change::Negedge => return Ok(None),
        }
    }
    Ok(Some(inputs))
}

// Those of the first registers that statements may write, or others behind them, in the order of their numbers.
fn outputs_of(
    alloc: Global,
    registers: u32,
    body: &[Statement],
    others: &[Statement],
) -> Result<Vec<RegId>, AllocError>
    ensures written { IfOk result (λ outputs. (r : ℕ) → contains outputs.items r ≡ true → contains (written (statements_of body.now) ++ written (statements_of others.now)) r ≡ true) }
    ensures all { IfOk result (λ outputs. (r : ℕ) → r < registers → contains (written (statements_of body.now) ++ written (statements_of others.now)) r ≡ true → contains outputs.items r ≡ true) }
{
    let mut outputs = Vec::new(alloc);
    for register in 0..registers {
        if data_flow(body, others, register).may_write {
            outputs.push(register)?;
        }
    }
    Ok(outputs)
}

// Whether a register is an input, where statements, or others behind them, may read it before they write it.
fn reads_input(body: &[Statement], others: &[Statement], inputs: &[RegId], register: RegId) -> bool
    ensures { result ≡ true → contains (all_reads (statements_of body.now) (all_reads (statements_of others.now) [])) register ≡ true → contains inputs.now register ≡ true }
{
    !data_flow(body, others, register).may_read | is_among(inputs, register)
}

// Whether statements, and others behind them, read none of the first registers but these before they write it.
fn reads_inputs(registers: u32, body: &[Statement], others: &[Statement], inputs: &[RegId]) -> bool
    ensures { result ≡ true → (r : ℕ) → r < registers → contains (all_reads (statements_of body.now) (all_reads (statements_of others.now) [])) r ≡ true → contains inputs.now r ≡ true }
{
    for register in 0..registers {
        if !reads_input(body, others, inputs, register) {
            return false;
        }
    }
    true
}

// Whether statements, or others behind them, write a register on every way through both, and that is no input.
fn settles_output(
    body: &[Statement],
    others: &[Statement],
    inputs: &[RegId],
    register: RegId,
) -> bool
    ensures settled { result ≡ true → contains (settled (statements_of body.now) ++ settled (statements_of others.now)) register ≡ true }
    ensures apart { result ≡ true → contains inputs.now register ≡ false }
{
    data_flow(body, others, register).must_write & !is_among(inputs, register)
}

// Whether statements, or others behind them, write each of these registers on every way through both, and none of them is an input.
fn settles_outputs(
    body: &[Statement],
    others: &[Statement],
    inputs: &[RegId],
    outputs: &[RegId],
) -> bool
    ensures settled { result ≡ true → (r : ℕ) → contains outputs.now r ≡ true → contains (settled (statements_of body.now) ++ settled (statements_of others.now)) r ≡ true }
    ensures apart { result ≡ true → (r : ℕ) → contains outputs.now r ≡ true → contains inputs.now r ≡ false }
{
    for output in outputs {
        if !settles_output(body, others, inputs, *output) {
            return false;
        }
    }
    true
}

// A process that waits once each time round: the statements before its wait, the events for which it waits, and the statements behind
// its wait. Either may be none.
#[derive(Clone, Copy)]
struct ProcessText<'a> {
    before: &'a [Statement],
    triggers: &'a [Trigger],
    behind: &'a [Statement],
}

// The parts of a process that runs again and again, and whose last statement is an event control.
fn awaited(process: &Process) -> Option<ProcessText<'_>>
    ensures { IfSome result (λ found. process_of process.now ≡ record { repeats = true; body = followed_by (statements_of found.before.now) (Then (Await found.triggers.now (statements_of found.behind.now)) End) }) }
{
    if !process.repeats {
        return None;
    }
    let (last, before) = process.body.split_last()?;
    match last {
        Statement::Await(triggers, behind) => Some(ProcessText {
            before,
            triggers,
            behind,
        }),
        _ => None,
    }
}

// The number of the event control behind the first statements of a process, and the place behind it.
fn wait_behind(design: &Design, process: u32, before: &[Statement]) -> Option<(usize, usize)>
    requires { process < length design.now.processes }
    ensures { IfSome result (λ found. (triggers : List Triggered) (behind : Statements) → process_at (design_of design.now) process ≡ record { repeats = true; body = followed_by (statements_of before.now) (Then (Await triggers behind) End) } → (slice_get (controls_of design.now) found.0 ≡ Some triggers) × (remainder_at (design_of design.now) found.1 ≡ parts (first_place (design_of design.now) process + size (statements_of before.now) + 1) behind)) }
{
    design.registers();
    let first = design.first(process);
    let place = place_behind(first.place, before)?;
    match design.nodes().get(place) {
        Some(Node::Await { control, next }) => Some((*control, *next)),
        _ => None,
    }
}

// Whether a design has so few statements that each turn of combinational logic is short.
fn is_short(design: &Design) -> bool
    ensures { result ≡ true → length design.now.nodes ≤ 65534 }
{
    design.nodes().len() <= 65_534
}

/// The logic of a process, where it is combinational by its text (9.7.2, 9.9): `always @(registers)` with a body of blocks, blocking
/// assignments without a delay and `if` alone, or such a body with `@(registers);` behind it, or one around its wait. Between two waits it
/// reads no other register before it writes it, writes whatever it may write on every way, and nothing that it waits for. None is found
/// in a design of more than some 65,000 statements.
pub(crate) fn logic_of(
    alloc: Global,
    design: &Design,
    process: u32,
) -> Result<Option<Logic>, AllocError>
    requires { process < length design.now.processes }
    ensures { IfOk result (λ found. IfSome found (HasLogic design.now process)) }
{
    let registers = design.registers();
    let text = match awaited(&design.trees()[process as usize]) {
        Some(text) => text,
        None => return Ok(None),
    };
    let (control, place) = match wait_behind(design, process, text.before) {
        Some(wait) => wait,
        None => return Ok(None),
    };
    if !is_plain(text.before) || !is_plain(text.behind) || !is_short(design) {
        return Ok(None);
    }
    let inputs = match inputs_of(alloc, text.triggers)? {
        Some(inputs) => inputs,
        None => return Ok(None),
    };
    let outputs = outputs_of(alloc, registers, text.behind, text.before)?;
    if !reads_inputs(registers, text.behind, text.before, &inputs)
        || !settles_outputs(text.behind, text.before, &inputs, &outputs)
    {
        return Ok(None);
    }
    Ok(Some(Logic {
        inputs,
        outputs,
        control,
        place,
    }))
}
