//! How far in time a search came that met a limit, and where most of its choices are, in lines.
ghost use Rattle.std.specs.Prelude.{◌≡◌, ◌++◌, OnOk, Some};
ghost use Rattle.naming.specs.SearchReach.{TellsReach, choice_line};

use crate::line_orders::printers_of;
use accesses::lead;
use design::Design;
use locations::ProcessLocation;
use model::entry::Entry;
use regions::{Evaluation, Machine};
use std::alloc::{AllocError, Global};
use std::collections::VecDeque;
use verdict::{push_choices, push_followed};

/// How far a search came that met a limit: a time before which nothing was left out, and a journal that leads to where most ways lead on,
/// if there is one.
#[derive(Clone, Copy)]
pub struct SearchReach<'a> {
    pub followed_before: u64,
    pub widest: Option<&'a [Entry]>,
}

/// Where most ways lead on: at which time, and the processes whose turns may be next there.
#[derive(Drop)]
pub(crate) struct OpenChoice {
    pub(crate) time: u64,
    pub(crate) processes: Vec<u32>,
}

/// The processes of evaluations.
fn processes_in(alloc: Global, evaluations: &VecDeque<Evaluation>) -> Result<Vec<u32>, AllocError> {
    let mut processes = Vec::new(alloc);
    for at in 0..evaluations.len() {
        processes.push(evaluations[at].process)?;
    }
    Ok(processes)
}

/// The choice where a machine stands behind a journal. None where it doesn't take that. Fails where memory is refused.
fn choice_led(
    alloc: Global,
    machine: &mut Machine<'_>,
    journal: &[Entry],
) -> Result<Option<OpenChoice>, AllocError> {
    if !lead(machine, journal)? {
        return Ok(None);
    }
    let (_, evaluations) = machine.state().active();
    let processes = processes_in(alloc, evaluations)?;
    Ok(Some(OpenChoice {
        time: machine.time(),
        processes,
    }))
}

/// The choice behind a journal. None where the journal isn't taken. Fails where memory is refused.
fn choice_behind(
    alloc: Global,
    design: &Design,
    journal: &[Entry],
) -> Result<Option<OpenChoice>, AllocError> {
    let mut machine = Machine::start(alloc, design)?;
    let choice = choice_led(alloc, &mut machine, journal);
    drop(machine);
    choice
}

/// The choice behind a journal, if there is one. Fails where memory is refused.
fn choice_of(
    alloc: Global,
    design: &Design,
    widest: Option<&[Entry]>,
) -> Result<Option<OpenChoice>, AllocError> {
    match widest {
        Some(journal) => choice_behind(alloc, design, journal),
        None => Ok(None),
    }
}

/// Puts the line on a choice behind a text.
fn push_some_choice(
    alloc: Global,
    text: &mut Vec<u8>,
    processes: &[ProcessLocation],
    choice: &OpenChoice,
) -> Result<(), AllocError>
    ensures { OnOk result (text.new.items ≡ text.old.items ++ choice_line processes.now (Some choice.now)) }
{
    let printers = printers_of(alloc, processes, choice.processes.as_slice())?;
    push_choices(text, choice.time, printers.as_slice())
}

/// Puts the line on a choice behind a text, if there is one.
fn push_choice(
    alloc: Global,
    text: &mut Vec<u8>,
    processes: &[ProcessLocation],
    choice: &Option<OpenChoice>,
) -> Result<(), AllocError>
    ensures { OnOk result (text.new.items ≡ text.old.items ++ choice_line processes.now choice.now) }
{
    match choice {
        Some(choice) => push_some_choice(alloc, text, processes, choice),
        None => Ok(()),
    }
}

/// Puts the lines on how far a search of a design came that met a limit behind a text, with its processes as people call them: before which time all orders were
/// followed, and where most choices are. Fails where memory is refused.
pub fn push_reach(
    alloc: Global,
    text: &mut Vec<u8>,
    processes: &[ProcessLocation],
    design: &Design,
    reach: SearchReach<'_>,
) -> Result<(), AllocError>
    ensures { OnOk result (TellsReach processes.now reach.entry.followed_before text.old.items text.new.items) }
{
    let choice = choice_of(alloc, design, reach.widest)?;
    push_followed(text, reach.followed_before)?;
    push_choice(alloc, text, processes, &choice)?;
    Ok(())
}
