//! A run that is followed, with the entries that gave the registers their values.

ghost use Rattle.std.specs.Prelude.{◌≡◌, ◌==◌, ◌+◌, ◌<◌, ◌^◌, ℕ, List, IfErr, IfOk, None, OnOk, Some, if◌then◌else◌, drop, length, replicate, slice_get};
ghost use Rattle.std.specs.List.{list_any};
ghost use Rattle.model.specs.declared.entry.Entry.{Entry};
ghost use Rattle.differences.specs.CompareFaults.{IsRunFaultOf};
ghost use Rattle.differences.specs.ComparedValues.{count_until, goes_past};
ghost use Rattle.differences.specs.Following.{IsRunFollowed};
ghost use Rattle.differences.specs.Givers.{actor_process};

use crate::fault::RunFault;
use crate::value_difference::ValueGiver;
use design::{Design, RegId};
use explain::explain_next;
use logic4::bits::Bits;
use model::entry::Entry;
use std::alloc::{AllocError, Global};
use steps::{Changed, EntryAccount, EntryActor, Explainer};

/// The run of a journal as far as it is followed: what tells its entries, and which of them gave each register its value.
#[derive(Drop)]
pub(crate) struct FollowedRun<'a> {
    pub explainer: Explainer<'a>,
    pub givers: Vec<Option<ValueGiver>>,
}

/// The values of the registers, and the entries that gave them.
#[derive(Clone, Copy)]
pub(crate) struct GivenRegisters<'a> {
    pub values: &'a [Bits],
    pub givers: &'a [Option<ValueGiver>],
}

// Whether an entry advances past a time.
fn goes_past(entry: Entry, time: u64) -> bool
    ensures { result ≡ goes_past time entry }
{
    match entry {
        Entry::Advance(next) => time < next,
        Entry::Turn(_)
        | Entry::Update(_)
        | Entry::ActivateInactive
        | Entry::ActivateNba
        | Entry::ActivateMonitor => false,
    }
}

// The process by whose turn an entry is done, or none where it is no turn.
fn actor_process(actor: EntryActor) -> Option<u32>
    ensures { result ≡ actor_process actor }
{
    match actor {
        EntryActor::Turn(process) => Some(process),
        EntryActor::Update(_, _) | EntryActor::Regions => None,
    }
}

// Notes that an entry gave a register its value, where there is such a register.
fn note_giver(givers: &mut Vec<Option<ValueGiver>>, register: RegId, giver: ValueGiver)
    ensures registers { length givers.new.items ≡ length givers.old.items }
    ensures noted { (r : ℕ) → r < length givers.old.items → slice_get givers.new.items r ≡ (if register == r then Some (Some giver) else slice_get givers.old.items r) }
{
    let place = register as usize;
    if place >= givers.len() {
        return;
    }
    givers[place] = Some(giver);
}

// Notes that an entry gave the registers that it changed their values.
fn note_changes(givers: &mut Vec<Option<ValueGiver>>, changes: &[Changed], giver: ValueGiver)
    ensures registers { length givers.new.items ≡ length givers.old.items }
    ensures noted { (r : ℕ) → r < length givers.old.items → slice_get givers.new.items r ≡ (if list_any (λ c. c.register == r) changes.now then Some (Some giver) else slice_get givers.old.items r) }
{
    for change in changes {
        note_giver(givers, change.register, giver);
    }
}

// Notes what the entry at a place gave, by what is told of it.
fn note_entry(givers: &mut Vec<Option<ValueGiver>>, account: &EntryAccount, at: u64)
    requires { at + 1 < 2 ^ 64 }
    ensures registers { length givers.new.items ≡ length givers.old.items }
    ensures noted { (r : ℕ) → r < length givers.old.items → slice_get givers.new.items r ≡ (if list_any (λ c. c.register == r) account.now.changes.items then Some (Some (record { entry = at + 1; process = actor_process account.now.actor })) else slice_get givers.old.items r) }
{
    let giver = ValueGiver {
        entry: at + 1,
        process: actor_process(account.actor),
    };
    note_changes(givers, account.changes.as_slice(), giver);
}

// No giver of any register of a design.
fn no_givers(alloc: Global, design: &Design) -> Result<Vec<Option<ValueGiver>>, AllocError>
    ensures { IfOk result (λ givers. givers.items ≡ replicate (length design.now.widths) None) }
{
    let mut givers = Vec::new(alloc);
    givers.resize(design.registers() as usize, None)?;
    Ok(givers)
}

impl<'a> FollowedRun<'a> {
    /// The start of the run of any journal on a design.
    pub(crate) fn start(alloc: Global, design: &'a Design) -> Result<FollowedRun<'a>, AllocError>
        ensures code { IfOk result (λ run. run.explainer.position.code ≡ design.now) }
        ensures entries { IfOk result (λ run. run.explainer.position.core.entries ≡ 0) }
        ensures followed { (journal : List Entry) → IfOk result (IsRunFollowed journal) }
    {
        let givers = no_givers(alloc, design)?;
        let explainer = Explainer::start(alloc, design)?;
        Ok(FollowedRun { explainer, givers })
    }

    // Takes the entry at a place, and notes what it gave.
    fn take_next(&mut self, entries: &[Entry], at: usize) -> Result<(), RunFault>
        requires followed { IsRunFollowed entries.now self.old }
        requires at { self.old.explainer.position.core.entries ≡ at }
        requires inside { at < length entries.now }
        ensures code { self.new.explainer.position.code ≡ self.old.explainer.position.code }
        ensures followed { OnOk result (IsRunFollowed entries.now self.new) }
        ensures count { OnOk result (self.new.explainer.position.core.entries ≡ at + 1) }
        ensures fault { IfErr result (IsRunFaultOf self.old.explainer.position.code entries.now) }
    {
        match explain_next(&mut self.explainer, entries, at) {
            Ok(()) => {}
            Err(fault) => return Err(RunFault::untold(fault)),
        }
        note_entry(&mut self.givers, self.explainer.told(), at as u64);
        Ok(())
    }

    /// Takes entries up to the end of a time: those before the first advance past it.
    pub(crate) fn pass(&mut self, entries: &[Entry], time: u64) -> Result<(), RunFault>
        requires { IsRunFollowed entries.now self.old }
        ensures code { self.new.explainer.position.code ≡ self.old.explainer.position.code }
        ensures followed { OnOk result (IsRunFollowed entries.now self.new) }
        ensures count { OnOk result (self.new.explainer.position.core.entries ≡ self.old.explainer.position.core.entries + count_until time (drop self.old.explainer.position.core.entries entries.now)) }
        ensures fault { IfErr result (IsRunFaultOf self.old.explainer.position.code entries.now) }
    {
        let from = self.explainer.machine().state().entries() as usize;
        for at in from..entries.len() {
            if goes_past(entries[at], time) {
                return Ok(());
            }
            self.take_next(entries, at)?;
        }
        Ok(())
    }

    /// The values of the registers, and the entries that gave them.
    pub(crate) fn given(&self) -> GivenRegisters<'_>
        ensures values { result.values.now ≡ self.entry.now.explainer.position.values }
        ensures givers { result.givers.now ≡ self.entry.now.givers.items }
        ensures count { length self.entry.now.explainer.position.values ≡ length self.entry.now.explainer.position.code.widths }
    {
        let machine = self.explainer.machine();
        machine.stands();
        GivenRegisters {
            values: machine.store().values(),
            givers: self.givers.as_slice(),
        }
    }
}
