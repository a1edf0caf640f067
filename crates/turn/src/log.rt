//! What a turn did.
ghost use Rattle.std.specs.Prelude.{◌≡◌};
ghost use Rattle.turn.specs.declared.log.FillFault.TheVariants as fault;
ghost use Rattle.turn.specs.TurnChanges.{turn_changes_of};

use crate::memory::Seen;
use crate::running_turn::{RunningTurn, put_state};
use design::{ProcState, RegId};
use indexmap::IndexMap;
use logic4::bits::Bits;
use std::alloc::{AllocError, Global};
use std::marker::Model;

/// A nonblocking assignment that a turn made (9.2.2): its register, its value, and the time at which it is due.
#[derive(Clone, Copy)]
pub struct Nba {
    pub reg: RegId,
    pub value: Bits,
    pub due: u64,
}

/// The turn change of a turn's writes of one register: the first value written, how many of the later writes changed it, and the last
/// value.
#[derive(Clone, Copy)]
pub struct TurnChange {
    pub register: RegId,
    pub first: Bits,
    pub changes: u64,
    pub last: Bits,
}

/// What a process waits for once its turn is over: nothing any more, the inactive region, a time, or the event
/// control with a number.
#[derive(Clone, Copy)]
pub enum Suspend {
    Ended,
    Inactive,
    Until(u64),
    Event(usize),
}

/// A turn that is over: the registers that it read, in the order of their first use, each with what it saw; its writes,
/// its nonblocking assignments, its lines and the places of the `$strobe` statements that it met, each in order; the turn changes of
/// its writes, in the order of the first write of each register; where the process goes on and what it waits for; whether it
/// met `$finish`; and the number of its counted steps. The next turn is filled into the same log, in the room that it has.
#[derive(Drop)]
pub struct TurnLog {
    pub(crate) running: RunningTurn,
    pub(crate) suspend: Suspend,
    pub(crate) finish: bool,
    pub(crate) count: u32,
}

impl Model for TurnLog {
    ghost use Rattle.turn.specs.TurnLogs.{LogView, log_of};

    ghost Value = { LogView };

    ghost view = { λ t. log_of t.running t.suspend t.finish t.count };
}

impl TurnLog {
    /// The log of no turn, which grows with the first.
    pub fn new(alloc: Global) -> TurnLog {
        TurnLog {
            running: RunningTurn::new(alloc),
            suspend: Suspend::Ended,
            finish: false,
            count: 0,
        }
    }

    // The reads alone.
    pub(crate) fn into_reads(self) -> IndexMap<RegId, Seen>
        ensures { result.entries ≡ self.reads }
    {
        let TurnLog { running, .. } = self;
        running.into_reads()
    }

    /// The registers that were read, each with what was seen.
    pub fn reads(&self) -> &IndexMap<RegId, Seen>
        ensures { result.now.entries ≡ self.entry.now.reads }
    {
        &self.running.memory.reads
    }

    /// The writes, in order.
    pub fn writes(&self) -> &[(RegId, Bits)]
        ensures { result.now ≡ self.entry.now.writes }
    {
        self.running.writes.list()
    }

    /// The turn change of the writes of each register, in the order of its first write.
    pub fn turn_changes(&self) -> &[TurnChange]
        ensures value { result.now ≡ self.entry.now.turn_changes }
        ensures of { result.now ≡ turn_changes_of self.entry.now.writes }
    {
        self.running.writes.turn_changes()
    }

    /// The nonblocking assignments, in order.
    pub fn nbas(&self) -> &[Nba]
        ensures { result.now ≡ self.entry.now.nbas }
    {
        self.running.nbas.as_slice()
    }

    /// The lines.
    pub fn lines(&self) -> &str
        ensures { result.now ≡ self.entry.now.lines }
    {
        self.running.lines.as_str()
    }

    /// Whether `$finish` was met.
    pub fn is_finish(&self) -> bool
        ensures { result ≡ self.now.finish }
    {
        self.finish
    }

    /// The places of the `$strobe` statements that were met, in order.
    pub fn strobes(&self) -> &[usize]
        ensures { result.now ≡ self.entry.now.strobes }
    {
        self.running.strobes.as_slice()
    }

    /// What the process waits for.
    pub fn suspend(&self) -> Suspend
        ensures { result ≡ self.now.suspend }
    {
        self.suspend
    }

    /// Where the process goes on.
    pub fn next(&self) -> ProcState
        ensures { result ≡ self.now.next }
    {
        self.running.state
    }

    /// Sets a state to where the process goes on.
    #[inline(always)]
    pub fn put_next(&self, state: &mut ProcState)
        ensures { state.new ≡ self.now.next }
    {
        put_state(state, &self.running.state);
    }

    /// The number of counted steps.
    pub fn count(&self) -> u32
        ensures { result ≡ self.now.count }
    {
        self.count
    }
}

/// Why there is no log of a turn: it has more counted steps than a turn may have, and these are its reads so far; or memory was
/// refused.
#[derive(Drop)]
pub enum TurnFault {
    TooLong(IndexMap<RegId, Seen>),
    Memory,
}

/// Why a turn isn't over: it has more counted steps than a turn may have, and its log has its reads so far; or memory was
/// refused.
#[derive(Clone, Copy, PartialEq, Eq, Debug)]
pub enum FillFault {
    TooLong,
    Memory,
}

impl From<AllocError> for FillFault {
    ghost from_gives = { λ _ e. e ≡ fault.Memory };

    fn from(_: AllocError) -> Self {
        FillFault::Memory
    }
}
