//! What ways are found in.
ghost use Rattle.std.specs.Prelude.{◌≡◌, IfOk};

use crate::found::PartFindings;
use certificates::note::StepNote;
use loose::transition::LooseTransition;
use regions::Machine;
use statekeys::{Scratch, class_key};
use std::alloc::{AllocError, Global};
use std::mem;
use turn::TurnLog;

// The most steps that are taken from one state, in all ways together: as many as the events of one certified run.
const MOST_STEPS: usize = 4_096;

// How many steps a state adds to what may be spent where no ways are found.
const STEPS_OF_A_STATE: usize = 8;

// How many steps are worth a try, for each actor who waits.
const STEPS_OF_AN_ACTOR: usize = 32;

// The most machines that are kept for copies to come. Few are needed at once, one for each step behind another.
const MOST_MACHINES: usize = 32;

// The most notes that are kept for steps to come.
const MOST_NOTES: usize = 256;

/// What ways are found in, one state after another: the log of turns, the note of the last step, room in which keys are made, machines that
/// become copies of others, notes that steps to come fill, the transitions that were listed last, how many steps may still be taken from a
/// state, how many to go ways again, and how many may be spent where no ways are found.
#[derive(Drop)]
pub struct PartsRoom<'d> {
    pub(crate) alloc: Global,
    pub(crate) log: TurnLog,
    pub(crate) note: StepNote,
    scratch: Scratch,
    machines: Vec<Box<Machine<'d>>>,
    notes: Vec<StepNote>,
    pub(crate) choices: Vec<LooseTransition>,
    steps: usize,
    again: usize,
    spare: usize,
}

// A copy of a machine, on the heap.
fn copied<'d>(alloc: Global, machine: &Machine<'d>) -> Result<Box<Machine<'d>>, AllocError>
    ensures { IfOk result (λ copy. copy.value ≡ machine.now) }
{
    let copy = machine.copy(alloc)?;
    let boxed = Box::new(alloc, copy)?;
    Ok(boxed)
}

// A machine that isn't needed any more, as a copy of another.
fn copied_into<'d>(
    machine: &Machine<'d>,
    spare: Box<Machine<'d>>,
) -> Result<Box<Machine<'d>>, AllocError>
    ensures { IfOk result (λ copy. copy.value ≡ machine.now) }
{
    let mut copy = spare;
    machine.copy_into(&mut copy)?;
    Ok(copy)
}

impl<'d> PartsRoom<'d> {
    ghost use Rattle.std.specs.Prelude.{OnOk};
    ghost use Rattle.loose.specs.Classes.{class_in};
    ghost use Rattle.statekeys.specs.ClassKeys.{IsClassKey};

    /// Room for the first state.
    pub fn new(alloc: Global) -> PartsRoom<'d> {
        PartsRoom {
            alloc,
            log: TurnLog::new(alloc),
            note: StepNote::new(alloc, LooseTransition::Process(0)),
            scratch: Scratch::new(alloc),
            machines: Vec::new(alloc),
            notes: Vec::new(alloc),
            choices: Vec::new(alloc),
            steps: 0,
            again: 0,
            spare: MOST_STEPS,
        }
    }

    /// Fills `bytes` with the class key of a machine's state.
    ///
    /// # Errors
    ///
    /// Where memory is refused.
    pub fn fill_key(
        &mut self,
        bytes: &mut Vec<u8>,
        machine: &Machine<'_>,
        classes: &[u32],
    ) -> Result<(), AllocError>
        ensures { OnOk result (IsClassKey (class_in classes.now) machine.now.core machine.now.values bytes.new.items) }
    {
        class_key(
            bytes,
            &mut self.scratch,
            machine.state(),
            machine.store(),
            classes,
        )
    }

    /// A copy of a machine, on the heap: one that was given back becomes it, where there is one. Fails where memory is refused.
    pub(crate) fn copy_of(&mut self, machine: &Machine<'d>) -> Result<Box<Machine<'d>>, AllocError>
        ensures { IfOk result (λ copy. copy.value ≡ machine.now) }
    {
        match self.machines.pop() {
            Some(spare) => copied_into(machine, spare),
            None => copied(self.alloc, machine),
        }
    }

    /// Takes back a machine that isn't needed any more, for copies to come. Where there are enough of them, it is dropped.
    pub(crate) fn give_back(&mut self, machine: Box<Machine<'d>>) {
        if self.machines.len() >= MOST_MACHINES {
            return;
        }
        match self.machines.push(machine) {
            Ok(()) => {}
            Err(_) => {}
        }
    }

    /// Takes out the note of the last step. Another stands in its place, for the next step.
    pub(crate) fn take_note(&mut self) -> StepNote
        ensures { result ≡ self.old.note }
    {
        let other = match self.notes.pop() {
            Some(note) => note,
            None => StepNote::new(self.alloc, LooseTransition::Process(0)),
        };
        mem::replace(&mut self.note, other)
    }

    /// Drops what was found, but for its notes, which are given back.
    pub(crate) fn let_go(&mut self, found: PartFindings) {
        let PartFindings { notes, .. } = found;
        self.give_back_notes(notes);
    }

    /// Takes back notes that aren't needed any more, for steps to come. Where there are enough of them, they are dropped.
    pub(crate) fn give_back_notes(&mut self, notes: Vec<StepNote>) {
        let mut notes = notes;
        if self.notes.len() >= MOST_NOTES {
            return;
        }
        if self.notes.is_empty() {
            mem::swap(&mut self.notes, &mut notes);
            return;
        }
        match self.notes.append(&mut notes) {
            Ok(()) => {}
            Err(_) => {}
        }
    }

    /// Permits steps from the next state, in which so many actors wait: all that may be spent, unless that is too little to be worth a try.
    /// Answers whether it does. Where events conflict everywhere, a search then takes little longer than by following each transition.
    pub(crate) fn permit(&mut self, actors: usize) -> bool {
        self.spare = self.spare.saturating_add(STEPS_OF_A_STATE).min(MOST_STEPS);
        self.steps = self.spare;
        self.again = self.spare;
        self.spare >= actors.saturating_mul(STEPS_OF_AN_ACTOR).min(MOST_STEPS)
    }

    /// Counts a step more, where one is left. Answers whether one was.
    pub(crate) fn count_step(&mut self) -> bool {
        if self.steps == 0 {
            return false;
        }
        self.steps -= 1;
        true
    }

    /// Has the next steps counted among those that may be taken to go ways again, of which there are as many; or no longer. So no ways are
    /// given up because others were gone again.
    pub(crate) fn exchange_steps(&mut self) {
        mem::swap(&mut self.steps, &mut self.again);
    }

    /// Tells that no ways were found: the steps that were taken are spent.
    pub(crate) fn spend(&mut self) {
        self.spare = self.steps;
    }
}
