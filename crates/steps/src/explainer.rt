//! A machine that tells of each entry that it takes.
ghost use Rattle.std.specs.Prelude.{◌≡◌, ◌+◌, ◌<◌, List, [], IfOk, IfErr, OnOk, OnErr};
ghost use Rattle.model.specs.declared.entry.Entry.{Entry};
ghost use Rattle.regions.specs.StepLogs.{IsTaken};
ghost use Rattle.regions.specs.Machine.{most_entries, state_at, IsNotTaken};
ghost use Rattle.steps.specs.Accounts.{account_of};
ghost use Rattle.steps.specs.ExplainerStanding.{standing_of, IsKept, IsExplainerBehind, IsExplained, IsLogFilled, IsNotExplained};

use crate::cells::{VersionedValue, first_cells};
use crate::entry_account::EntryAccount;
use crate::fault::StepFault;
use crate::noting::note;
use design::Design;
use model::entry::Entry;
use regions::{Machine, TakeFault};
use std::alloc::{AllocError, Global};
use std::marker::Model;
use turn::TurnLog;

/// A machine (11.4) with the version of each register, which tells of the last entry that it took. What is told, and the log of a
/// turn, are kept from one entry to the next.
#[derive(Drop)]
pub struct Explainer<'d> {
    machine: Machine<'d>,
    cells: Vec<VersionedValue>,
    log: TurnLog,
    told: EntryAccount,
}

impl<'d> Model for Explainer<'d> {
    ghost use Rattle.steps.specs.ExplainerStanding.{Standing, standing_of, IsKept};

    ghost Value = { Standing };

    ghost view = { λ e. standing_of e.machine e.cells.items e.told };

    ghost invariant = { λ e. IsKept e.machine e.cells.items };

    ghost use Rattle.std.specs.Coded.{codes};
    ghost use Rattle.design.specs.contracts.tree.Statement as statements;

    ghost coded = { Prim.hlevel (codes, statements.the_row.coded) };
}

// Takes an entry that was noted: a turn for which the log is filled isn't evaluated again.
fn take_noted(
    machine: &mut Machine<'_>,
    entry: Entry,
    number: Option<u64>,
    log: &TurnLog,
) -> Result<(), TakeFault>
    requires { IsLogFilled machine.old.code (state_at machine.old) entry log.now number }
    ensures taken { OnOk result (IsTaken machine.old.code (state_at machine.old) machine.old.lines entry (state_at machine.new) machine.new.lines) }
    ensures entries { OnOk result (machine.new.core.entries ≡ machine.old.core.entries + 1) }
    ensures few { OnOk result (machine.old.core.entries < most_entries) }
    ensures code { machine.new.code ≡ machine.old.code }
    ensures stop { IfErr result (IsNotTaken machine.old entry) }
    ensures err { OnErr result (machine.new ≡ record machine.old { made = machine.new.made }) }
{
    match number {
        Some(number) => machine.take_turn(number, log),
        None => machine.take(entry),
    }
}

// Takes an entry, and tells of it.
fn take_told(
    machine: &mut Machine<'_>,
    cells: &mut Vec<VersionedValue>,
    log: &mut TurnLog,
    told: &mut EntryAccount,
    entry: Entry,
) -> Result<(), StepFault>
    requires { IsKept machine.old cells.old.items }
    ensures kept { IsKept machine.new cells.new.items }
    ensures told { OnOk result ((journal : List Entry) → IsExplainerBehind journal (standing_of machine.old cells.old.items told.old) → IsExplained journal entry (standing_of machine.old cells.old.items told.old) (standing_of machine.new cells.new.items told.new)) }
    ensures entries { OnOk result (machine.new.core.entries ≡ machine.old.core.entries + 1) }
    ensures few { OnOk result (machine.old.core.entries < most_entries) }
    ensures code { machine.new.code ≡ machine.old.code }
    ensures fault { IfErr result (IsNotExplained machine.old entry) }
    ensures err { OnErr result (state_at machine.new ≡ state_at machine.old) }
{
    let number = match note(machine, entry, log, cells, told) {
        Ok(number) => number,
        Err(_) => return Err(StepFault::Memory),
    };
    match take_noted(machine, entry, number, log) {
        Ok(()) => {}
        Err(fault) => return Err(StepFault::NotTaken(fault)),
    }
    told.lines = machine.take_lines();
    told.time = machine.time();
    Ok(())
}

impl<'d> Explainer<'d> {
    /// The start of a design's run (11.3): every register is all x, at version 0. Fails where memory is refused.
    pub fn start(alloc: Global, design: &'d Design) -> Result<Explainer<'d>, AllocError>
        ensures behind { IfOk result (IsExplainerBehind []) }
        ensures code { IfOk result (λ e. e.position.code ≡ design.now) }
        ensures entries { IfOk result (λ e. e.position.core.entries ≡ 0) }
    {
        // The machine is made last, so that no failure behind it lets it go.
        let cells = first_cells(alloc, design)?;
        let machine = Machine::start(alloc, design)?;
        Ok(Explainer {
            machine,
            cells,
            log: TurnLog::new(alloc),
            told: EntryAccount::new(alloc),
        })
    }

    /// Takes an entry (11.4), and tells of it. After an `Err` the machine stands where it stood, but no other entry is to be told.
    pub fn step(&mut self, entry: Entry) -> Result<(), StepFault>
        // It is one step of the rules, and what is told of it is what comes of that step.
        ensures told { OnOk result ((journal : List Entry) → IsExplainerBehind journal self.old → IsExplained journal entry self.old self.new) }
        ensures entries { OnOk result (self.new.position.core.entries ≡ self.old.position.core.entries + 1) }
        ensures few { OnOk result (self.old.position.core.entries < most_entries) }
        ensures code { self.new.position.code ≡ self.old.position.code }
        // Each fault has its reason.
        ensures fault { IfErr result (IsNotExplained self.old.position entry) }
        ensures err { OnErr result (state_at self.new.position ≡ state_at self.old.position) }
    {
        take_told(
            &mut self.machine,
            &mut self.cells,
            &mut self.log,
            &mut self.told,
            entry,
        )
    }

    /// What is told of the last entry.
    pub fn told(&self) -> &EntryAccount
        ensures { account_of result.now ≡ self.entry.now.account }
    {
        &self.told
    }

    /// The machine.
    pub fn machine(&self) -> &Machine<'d>
        ensures { result.now ≡ self.entry.now.position }
    {
        &self.machine
    }

    /// The design.
    pub fn design(&self) -> &'d Design
        ensures { result.now ≡ self.entry.now.position.code }
    {
        self.machine.design()
    }
}
