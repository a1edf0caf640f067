//! What a turn did, by its log, and what an update did.

use crate::origins::EventOrigin;
use crate::segment::{Actor, Segment};
use accesses::{Does, Site};
use design::RegId;
use regions::Machine;
use turn::{Suspend, TurnChange, TurnLog};

// Whether a turn changed a register, where its machine stands before it.
fn is_changed(machine: &Machine<'_>, turn_change: &TurnChange) -> bool {
    turn_change.changes > 0 || machine.value(turn_change.register) != Some(turn_change.first)
}

impl Segment {
    /// One more entry, a turn of a process with this log, whose event the entry at this place of the journal made.
    pub(crate) fn turn(
        &mut self,
        machine: &Machine<'_>,
        process: u32,
        origin: Option<usize>,
        log: &TurnLog,
    ) {
        self.step(Actor::Turn(process), origin);
        self.note_reads(log);
        self.note_writes(machine, log);
        self.note_assigns(log);
        self.note_lines(log);
        self.note_wait(machine, log);
    }

    /// One more entry, an update of a register, made by this turn, and whether it changes the value.
    pub(crate) fn update(&mut self, origin: EventOrigin, register: RegId, changes: bool) {
        self.step(Actor::Update(origin.process), Some(origin.place as usize));
        self.access(Site::Register(register), Does::Updates, changes);
    }

    // Notes what a turn read.
    fn note_reads(&mut self, log: &TurnLog) {
        for (register, _) in log.reads() {
            self.access(Site::Register(*register), Does::Reads, false);
        }
    }

    // Notes what a turn wrote.
    fn note_writes(&mut self, machine: &Machine<'_>, log: &TurnLog) {
        for turn_change in log.turn_changes() {
            let changes = is_changed(machine, turn_change);
            self.access(Site::Register(turn_change.register), Does::Writes, changes);
        }
    }

    // Notes what a turn assigned.
    fn note_assigns(&mut self, log: &TurnLog) {
        for nba in log.nbas() {
            self.assign(nba.reg, nba.value, nba.due);
        }
    }

    // Notes what a turn printed.
    fn note_lines(&mut self, log: &TurnLog) {
        if !log.lines().is_empty() {
            self.access(Site::Printing, Does::Prints, true);
        }
        if !log.strobes().is_empty() {
            self.access(Site::Strobing, Does::Strobes, true);
        }
    }

    // Notes the registers for which the process of a turn begins to wait.
    fn note_wait(&mut self, machine: &Machine<'_>, log: &TurnLog) {
        if let Suspend::Event(control) = log.suspend() {
            self.note_triggers(machine, control);
        }
    }

    // Notes the registers of an event control.
    fn note_triggers(&mut self, machine: &Machine<'_>, control: usize) {
        if let Some(control) = machine.design().event_controls().get(control) {
            for trigger in control.triggers() {
                self.access(Site::Register(trigger.1), Does::Waits, false);
            }
        }
    }
}
