//! How a run stands behind the last entry, and why an entry isn't lawful.

ghost use Rattle.std.specs.Prelude.{◌≡◌, ◌++◌, OnOk, codes, decimal, map};
ghost use Rattle.model.specs.Runs.{is_quiet};
ghost use Rattle.regions.specs.Future.{due_event};
ghost use Rattle.regions.specs.Queue.{evaluation_event, update_event};
ghost use Rattle.regions.specs.Machine.{state_at};
ghost use Rattle.explain.specs.ExplainedEnd.{cause_text, due_text, end_text, event_text, events_text, future_lines, may_be_next, next_text, quiet_text, refusal_text, region_lines, standing_text, strobes_text, title_text};
ghost use Rattle.explain.specs.ExplainedEnd.{PutsEnd};

use crate::cause::{cause_code, cause_rule, said};
use crate::lines::push_update;
use crate::phrases::{SourceNames, push_labelled, push_process};
use regions::{Due, Evaluation, Machine, Update};
use replay::ReplayFault;
use std::alloc::{AllocError, Global};
use std::collections::VecDeque;

// Puts after how many entries and at which time a run stands behind a text.
fn push_standing(text: &mut Vec<u8>, count: u64, time: u64) -> Result<(), AllocError>
    ensures { OnOk result (text.new.items ≡ text.old.items ++ standing_text count time) }
{
    push_labelled(text, b" after ", count)?;
    push_labelled(text, b" entries at time ", time)?;
    text.extend_from_slice(b"\n")
}

// What is said of so many entries that may be next, behind their number.
fn may_be_next(next: usize) -> &'static str
    ensures { result.now ≡ may_be_next next }
{
    match next {
        1 => " entry may be next\n",
        _ => " entries may be next\n",
    }
}

// Puts how many entries may be next behind a text.
fn push_next(text: &mut Vec<u8>, next: usize) -> Result<(), AllocError>
    ensures { OnOk result (text.new.items ≡ text.old.items ++ next_text next) }
{
    if next == 0 {
        return text.extend_from_slice(b"no entry may be next\n");
    }
    push_labelled(text, b"can go on: ", next as u64)?;
    text.extend_from_slice(may_be_next(next).as_bytes())
}

// Puts how a run stands behind a text, where so many entries may be next.
fn push_state(text: &mut Vec<u8>, machine: &Machine<'_>, next: usize) -> Result<(), AllocError>
    ensures { OnOk result (text.new.items ≡ text.old.items ++ end_text machine.now.core.finished (is_quiet (state_at machine.now)) machine.now.core.entries machine.now.core.time next) }
{
    let count = machine.state().entries();
    match (machine.is_finished(), machine.is_quiet()) {
        (true, _) => {
            text.extend_from_slice(b"finished")?;
            push_standing(text, count, machine.time())
        }
        (false, true) => {
            text.extend_from_slice(b"quiet")?;
            push_standing(text, count, machine.time())
        }
        (false, false) => push_next(text, next),
    }
}

/// Puts how a run stands behind a text: finished, quiet, or that it can go on.
pub fn push_end(alloc: Global, text: &mut Vec<u8>, machine: &Machine<'_>) -> Result<(), AllocError>
    ensures { OnOk result (PutsEnd (state_at machine.now) machine.now.core.entries text.old.items text.new.items) }
{
    let next = machine.next_entries(alloc)?;
    push_state(text, machine, next.len())
}

/// What a region has a queue of.
trait Queued {
    ghost use Rattle.model.specs.States.{Event};

    /// The event that it is.
    ghost event: { Self → Event };

    /// Puts its number and what it does behind a text.
    fn push(&self, text: &mut Vec<u8>, names: &SourceNames<'_>) -> Result<(), AllocError>
        ensures { OnOk result (text.new.items ≡ text.old.items ++ event_text names.entry.now (event self.now)) };
}

impl Queued for Evaluation {
    ghost event = { evaluation_event };

    // Puts the number of the event behind a text, and the process whose turn it is.
    fn push(&self, text: &mut Vec<u8>, names: &SourceNames<'_>) -> Result<(), AllocError> {
        push_labelled(text, b"  event ", self.number)?;
        text.extend_from_slice(b", ")?;
        text.extend_from_slice(b"turn of ")?;
        push_process(text, names, self.process)
    }
}

impl Queued for Update {
    ghost event = { update_event };

    // Puts the number of the event behind a text, and the register with its value.
    fn push(&self, text: &mut Vec<u8>, names: &SourceNames<'_>) -> Result<(), AllocError> {
        push_labelled(text, b"  event ", self.number)?;
        text.extend_from_slice(b", ")?;
        push_update(text, names, self.register, self.value)
    }
}

// Puts a line for each event of a region behind a text.
fn push_queue<E: Queued>(
    text: &mut Vec<u8>,
    names: &SourceNames<'_>,
    region: &str,
    events: &VecDeque<E>,
) -> Result<(), AllocError>
    ensures { OnOk result (text.new.items ≡ text.old.items ++ region_lines names.entry.now region.now (map E.event events.now.items)) }
{
    for i in 0..events.len() {
        text.extend_from_slice(region.as_bytes())?;
        events[i].push(text, names)?;
        text.extend_from_slice(b"\n")?;
    }
    Ok(())
}

// Puts the line of an event that is due later behind a text.
fn push_due<E: Queued>(
    text: &mut Vec<u8>,
    names: &SourceNames<'_>,
    due: &Due<E>,
) -> Result<(), AllocError>
    ensures { OnOk result (text.new.items ≡ text.old.items ++ due_text names.entry.now (due_event E.event due.now)) }
{
    push_labelled(text, b"  future  time ", due.time)?;
    due.event.push(text, names)?;
    text.extend_from_slice(b"\n")
}

// Puts a line for each of them behind a text.
fn push_future<E: Queued>(
    text: &mut Vec<u8>,
    names: &SourceNames<'_>,
    events: &VecDeque<Due<E>>,
) -> Result<(), AllocError>
    ensures { OnOk result (text.new.items ≡ text.old.items ++ future_lines names.entry.now (map (due_event E.event) events.now.items)) }
{
    for i in 0..events.len() {
        push_due(text, names, &events[i])?;
    }
    Ok(())
}

// Puts how many lines of the monitor region are due behind a text.
fn push_strobes(text: &mut Vec<u8>, count: usize) -> Result<(), AllocError>
    ensures { OnOk result (text.new.items ≡ text.old.items ++ strobes_text count) }
{
    if count == 0 {
        return Ok(());
    }
    push_labelled(
        text,
        b"  monitor  lines of $strobe to be made: ",
        count as u64,
    )?;
    text.extend_from_slice(b"\n")
}

// Puts a line for each active event behind a text.
fn push_active(
    text: &mut Vec<u8>,
    names: &SourceNames<'_>,
    machine: &Machine<'_>,
) -> Result<(), AllocError>
    ensures { OnOk result (text.new.items ≡ text.old.items ++ region_lines names.entry.now (codes "  active") machine.now.core.active) }
{
    let (updates, evaluations) = machine.state().active();
    push_queue(text, names, "  active", updates)?;
    push_queue(text, names, "  active", evaluations)
}

// Puts a line for each event of each region behind a text (11.3).
fn push_events(
    text: &mut Vec<u8>,
    names: &SourceNames<'_>,
    machine: &Machine<'_>,
) -> Result<(), AllocError>
    ensures { OnOk result (text.new.items ≡ text.old.items ++ events_text names.entry.now (state_at machine.now)) }
{
    let state = machine.state();
    push_active(text, names, machine)?;
    push_queue(text, names, "  inactive", state.inactive())?;
    push_queue(text, names, "  nonblocking", state.nonblocking())?;
    push_strobes(text, state.monitor().len())?;
    push_future(text, names, state.future_evaluations())?;
    push_future(text, names, state.future_updates())
}

// What is said of the regions before their events.
fn title(quiet: bool) -> &'static str
    ensures { result.now ≡ title_text quiet }
{
    match quiet {
        true => " no region has an event\n",
        false => " the regions have\n",
    }
}

// Puts which entry isn't lawful, and the rule that it breaks, behind a text.
fn push_cause(text: &mut Vec<u8>, fault: ReplayFault) -> Result<(), AllocError>
    ensures { OnOk result (text.new.items ≡ text.old.items ++ cause_text fault) }
{
    push_labelled(text, b"entry ", fault.entry)?;
    text.extend_from_slice(said(fault.cause).as_bytes())?;
    text.extend_from_slice(cause_code(fault.cause).as_bytes())?;
    text.extend_from_slice(b": ")?;
    text.extend_from_slice(cause_rule(fault.cause).as_bytes())
}

/// Puts behind a text which entry isn't lawful, the rule that it breaks, and the events of each region as they stand before it.
pub(crate) fn push_refusal(
    text: &mut Vec<u8>,
    names: &SourceNames<'_>,
    machine: &Machine<'_>,
    fault: ReplayFault,
) -> Result<(), AllocError>
    ensures { OnOk result (text.new.items ≡ text.old.items ++ refusal_text names.entry.now (state_at machine.now) fault) }
{
    push_cause(text, fault)?;
    push_labelled(text, b"\nat time ", machine.time())?;
    text.extend_from_slice(title(machine.is_quiet()).as_bytes())?;
    push_events(text, names, machine)
}
