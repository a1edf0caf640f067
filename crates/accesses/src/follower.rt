//! A machine that is led along a journal, to see what its entries do.
ghost use Rattle.std.specs.Prelude.{◌≡◌, false, IsTrue, IfOk, Some};
ghost use Rattle.model.specs.States.{Evaluate};
ghost use Rattle.model.specs.Runs.{action_in};
ghost use Rattle.design.specs.Compiled.{design_of};
ghost use Rattle.regions.specs.Machine.{state_at};
ghost use Rattle.accesses.specs.Roles as roles;
ghost use Rattle.accesses.specs.ExchangedEntries.{IsAtStart, IsLed, IsOneAt, HasRoleAt, IsAskedAt, SeesBoth, SeesExchanged, SeesHeld};

use crate::accesses::{does_at, updated};
use crate::pair::Pair;
use crate::role::{Asked, Does, Role, Site};
use crate::split::{Exchanged, Split};
use design::Design;
use model::entry::Entry;
use regions::{Machine, TakeFault};
use std::alloc::{AllocError, Global};
use turn::{FillFault, TurnLog};

/// A machine that is led along a journal, and room for the log of a turn.
#[derive(Drop)]
pub(crate) struct Follower<'d> {
    machine: Machine<'d>,
    log: TurnLog,
}

// Tells that an entry wasn't taken. Fails where memory was refused.
fn not_taken(fault: TakeFault) -> Result<bool, AllocError>
    ensures { IfOk result (λ taken. taken ≡ false) }
{
    match fault {
        TakeFault::ApplyMemory => Err(AllocError),
        TakeFault::Memory => Err(AllocError),
        _ => Ok(false),
    }
}

// Tells that a turn wasn't evaluated. Fails where memory was refused.
fn not_evaluated(fault: FillFault) -> Result<bool, AllocError>
    ensures { IfOk result (λ evaluated. evaluated ≡ false) }
{
    match fault {
        FillFault::TooLong => Ok(false),
        FillFault::Memory => Err(AllocError),
    }
}

/// Leads a machine along entries. The answer is whether it took them all. Fails where memory was refused.
pub fn lead(machine: &mut Machine<'_>, entries: &[Entry]) -> Result<bool, AllocError>
    ensures led { IfOk result (λ all. IsTrue all → IsLed machine.old entries.now machine.new) }
    ensures code { machine.new.code ≡ machine.old.code }
{
    for entry in entries {
        match machine.take(*entry) {
            Ok(()) => {}
            Err(fault) => {
                let taken = not_taken(fault)?;
                return Ok(taken);
            }
        }
    }
    Ok(true)
}

impl<'d> Follower<'d> {
    /// At the start of the design's runs, on the heap, so that it is dropped as a pointer.
    pub(crate) fn start(alloc: Global, design: &'d Design) -> Result<Box<Follower<'d>>, AllocError>
        ensures code { IfOk result (λ w. w.value.machine.code ≡ design.now) }
        ensures start { IfOk result (λ w. IsAtStart w.value.machine) }
    {
        let machine = Machine::start(alloc, design)?;
        let log = TurnLog::new(alloc);
        let follower = Box::new(alloc, Follower { machine, log })?;
        Ok(follower)
    }

    // Whether an event is an evaluation whose turn does at a site what a role says. Fails where memory was refused.
    fn is_turn_in(&mut self, number: u64, site: Site, role: Role) -> Result<bool, AllocError>
        ensures holds { IfOk result (λ is. IsTrue is → roles.IsTurnIn (design_of self.old.machine.code) (state_at self.old.machine) number site role) }
        ensures machine { self.new.machine ≡ self.old.machine }
    {
        match self.machine.evaluate(&mut self.log, number, 0) {
            Ok(Some(process)) => {
                let controls = self.machine.design().event_controls();
                Ok(process == role.process && does_at(&self.log, controls, site, role.does))
            }
            Ok(None) => Ok(false),
            Err(fault) => {
                let evaluated = not_evaluated(fault)?;
                Ok(evaluated)
            }
        }
    }

    // Whether an event is an update of a site's register.
    fn is_update_in(&self, number: u64, site: Site, role: Role) -> bool
        ensures { IsTrue result → roles.IsUpdateIn (state_at self.now.machine) number site role }
    {
        match (role.does, updated(self.machine.state(), number)) {
            (Does::Updates, Some(register)) => site == Site::Register(register),
            _ => false,
        }
    }

    // Whether an entry does at a pair's site, at its time, what a role says. Fails where memory was refused.
    fn has_role(&mut self, entry: Entry, pair: Pair, role: Role) -> Result<bool, AllocError>
        ensures holds { IfOk result (λ has. IsTrue has → HasRoleAt (design_of self.old.machine.code) (state_at self.old.machine) entry pair.site pair.time role) }
        ensures machine { self.new.machine ≡ self.old.machine }
    {
        if self.machine.time() != pair.time {
            return Ok(false);
        }
        match entry {
            Entry::Turn(number) => {
                let is_in = self.is_turn_in(number, pair.site, role)?;
                Ok(is_in)
            }
            Entry::Update(number) => Ok(self.is_update_in(number, pair.site, role)),
            _ => Ok(false),
        }
    }

    // Leads the machine to the first entry of a pair. The answer is whether it gets there, and that does what the pair says. Fails where
    // memory was refused.
    fn sees_first(&mut self, split: Split<'_>, pair: Pair) -> Result<bool, AllocError>
        ensures led { IfOk result (λ sees. IsTrue sees → IsLed self.old.machine split.entry.before.now self.new.machine) }
        ensures code { self.new.machine.code ≡ self.old.machine.code }
        ensures first { IfOk result (λ sees. IsTrue sees → HasRoleAt (design_of self.new.machine.code) (state_at self.new.machine) split.entry.one pair.site pair.time pair.first) }
    {
        if !lead(&mut self.machine, split.before)? {
            return Ok(false);
        }
        self.has_role(split.one, pair, pair.first)
    }

    /// Whether both entries of a pair do what it says, where the machine stands at the start. Fails where memory was refused.
    pub(crate) fn sees(&mut self, split: Split<'_>, pair: Pair) -> Result<bool, AllocError>
        requires start { IsAtStart self.old.machine }
        ensures { IfOk result (λ sees. IsTrue sees → SeesBoth (design_of self.old.machine.code) split.entry.before.now split.entry.segment.now split.entry.one split.entry.other pair) }
    {
        if !self.sees_first(split, pair)? {
            return Ok(false);
        }
        if !lead(&mut self.machine, split.segment)? {
            return Ok(false);
        }
        self.has_role(split.other, pair, pair.second)
    }

    // Whether an event is an evaluation of a process.
    fn is_turn_of(&self, number: u64, process: u32) -> bool
        ensures { IsTrue result → action_in (state_at self.now.machine).active number ≡ Some (Evaluate process) }
    {
        match self.machine.state().evaluation(number) {
            Some((of, _)) => of == process,
            None => false,
        }
    }

    // Whether an entry is one of a role, at a pair's site and time.
    fn is_one(&self, entry: Entry, pair: Pair, role: Role) -> bool
        ensures { IsTrue result → IsOneAt (state_at self.now.machine) entry pair.site pair.time role }
    {
        if self.machine.time() != pair.time {
            return false;
        }
        match entry {
            Entry::Turn(number) => self.is_turn_of(number, role.process),
            Entry::Update(number) => self.is_update_in(number, pair.site, role),
            _ => false,
        }
    }

    // Leads the machine over entries. The answer is whether it takes them, and another entry is one of a pair's first role behind them.
    // Fails where memory was refused.
    fn leaves_first(&mut self, over: &[Entry], one: Entry, pair: Pair) -> Result<bool, AllocError>
        ensures led { IfOk result (λ leaves. IsTrue leaves → IsLed self.old.machine over.now self.new.machine) }
        ensures code { self.new.machine.code ≡ self.old.machine.code }
        ensures first { IfOk result (λ leaves. IsTrue leaves → IsOneAt (state_at self.new.machine) one pair.site pair.time pair.first) }
    {
        if !lead(&mut self.machine, over)? {
            return Ok(false);
        }
        Ok(self.is_one(one, pair, pair.first))
    }

    // Whether an entry is what is asked of it by a role, at a pair's site and time. Fails where memory was refused.
    fn is_asked(
        &mut self,
        entry: Entry,
        pair: Pair,
        role: Role,
        asked: Asked,
    ) -> Result<bool, AllocError>
        ensures holds { IfOk result (λ is. IsTrue is → IsAskedAt asked (design_of self.old.machine.code) (state_at self.old.machine) entry pair.site pair.time role) }
        ensures machine { self.new.machine ≡ self.old.machine }
    {
        match asked {
            Asked::OfRole => Ok(self.is_one(entry, pair, role)),
            Asked::InRole => self.has_role(entry, pair, role),
        }
    }

    /// Whether an entry is what is asked of it by the second role of a pair, and one of the first role comes behind it, or is left there,
    /// where the machine stands at the start. Fails where memory was refused.
    pub(crate) fn sees_exchanged(
        &mut self,
        split: Split<'_>,
        exchanged: Exchanged<'_>,
        pair: Pair,
        asked: Asked,
    ) -> Result<bool, AllocError>
        requires start { IsAtStart self.old.machine }
        ensures { IfOk result (λ sees. IsTrue sees → SeesExchanged asked (design_of self.old.machine.code) split.entry.before.now exchanged.entry.needed.now exchanged.entry.other split.entry.one pair) }
    {
        if !lead(&mut self.machine, split.before)? {
            return Ok(false);
        }
        if !lead(&mut self.machine, exchanged.needed)? {
            return Ok(false);
        }
        if !self.is_asked(exchanged.other, pair, pair.second, asked)? {
            return Ok(false);
        }
        self.leaves_first(&[exchanged.other], split.one, pair)
    }

    /// Whether two entries do what a pair says behind the same entries, and the first one is still of its role behind a segment that
    /// the second one begins, where the machine stands at the start. Fails where memory was refused.
    pub(crate) fn sees_held(&mut self, held: Split<'_>, pair: Pair) -> Result<bool, AllocError>
        requires start { IsAtStart self.old.machine }
        ensures { IfOk result (λ sees. IsTrue sees → SeesHeld (design_of self.old.machine.code) held.entry.before.now held.entry.segment.now held.entry.one held.entry.other pair) }
    {
        if !self.sees_first(held, pair)? {
            return Ok(false);
        }
        if !self.has_role(held.other, pair, pair.second)? {
            return Ok(false);
        }
        self.leaves_first(held.segment, held.one, pair)
    }
}
