//! A turn under way.
ghost use Rattle.std.specs.Prelude.{◌≡◌, ◌++◌, ◌∷◌, [], Some, None, slice_set, OnOk};
ghost use Rattle.design.specs.ExpressionSteps.{span_of};
ghost use Rattle.turn.specs.Reads.{ReadsOn};
ghost use Rattle.turn.specs.Evaluate.{NamesDeclared};
ghost use Rattle.turn.specs.RunningTurn.{turn_status_of, fresh, at, writing, holding, delaying, Valued};

use crate::evaluate::compute;
use crate::log::Nba;
use crate::memory::{Memory, RegReader, Seen};
use crate::stack::Stack;
use crate::writes::Writes;
use design::code::{Op, Span};
use design::{PackedBits, ProcState, RegId};
use indexmap::IndexMap;
use logic4::bits::Bits;
use std::alloc::{AllocError, Global};

/// What a turn knows and has done so far, and the stack of its expressions, which is kept between them.
#[derive(Drop)]
pub(crate) struct RunningTurn {
    pub alloc: Global,
    pub state: ProcState,
    pub memory: Memory,
    pub writes: Writes,
    pub nbas: Vec<Nba>,
    pub lines: String,
    pub stack: Stack,
    pub strobes: Vec<usize>,
}

// The part of a list where it isn't there. It stands apart so that the part is found by tests, and not put together by them.
#[inline(never)]
fn no_part<T>(list: &[T]) -> &[T]
    ensures { result.now ≡ [] }
{
    &list[0..0]
}

/// The part of a list, or none where it isn't there.
pub(crate) fn part<T>(list: &[T], span: Span) -> &[T]
    ensures { result.now ≡ span_of list.entry.now span }
{
    if span.from <= span.to && span.to <= list.len() {
        &list[span.from..span.to]
    } else {
        no_part(list)
    }
}

// Knows the value that is written to a register, and lists the write.
#[inline(always)]
fn note_write(
    memory: &mut Memory,
    writes: &mut Writes,
    register: RegId,
    value: &Bits,
) -> Result<(), AllocError>
    ensures known { OnOk result (memory.new.known ≡ slice_set memory.old.known register (Some value.now)) }
    ensures reads { memory.new.reads ≡ memory.old.reads }
    ensures writes { OnOk result (writes.new ≡ writes.old ++ (register, value.now) ∷ []) }
{
    memory.set(register, value);
    writes.push(register, value)
}

// Nothing is left over. Mostly nothing was, and then nothing is written.
#[inline(always)]
fn forget(pending: &mut Option<(RegId, PackedBits)>)
    ensures { pending.new ≡ None }
{
    if pending.is_some() {
        *pending = None;
    }
}

// Sets what is left over. Mostly nothing is, and then little is written.
#[inline(always)]
fn put_pending(pending: &mut Option<(RegId, PackedBits)>, from: &Option<(RegId, PackedBits)>)
    ensures { pending.new ≡ from.now }
{
    if from.is_some() {
        *pending = *from;
    } else {
        forget(pending);
    }
}

// Sets where a process goes on, part by part: as a whole it is dear to copy.
#[inline(always)]
pub(crate) fn put_state(state: &mut ProcState, from: &ProcState)
    ensures { state.new ≡ from.now }
{
    state.place = from.place;
    put_pending(&mut state.pending, &from.pending);
}

impl RunningTurn {
    /// Room that grows with the first turn.
    pub fn new(alloc: Global) -> Self {
        RunningTurn {
            alloc,
            state: ProcState {
                place: 0,
                pending: None,
            },
            memory: Memory::new(alloc),
            writes: Writes::new(alloc),
            nbas: Vec::new(alloc),
            lines: String::new(alloc),
            strobes: Vec::new(alloc),
            stack: Stack::new(alloc),
        }
    }

    /// The reads alone.
    pub fn into_reads(self) -> IndexMap<RegId, Seen>
        ensures { result ≡ self.memory.reads }
    {
        let RunningTurn { memory, .. } = self;
        let Memory { reads, .. } = memory;
        reads
    }

    /// A turn begins, over this many registers. What the room held counts for nothing.
    #[inline(always)]
    pub fn begin(&mut self, state: &ProcState, registers: u32) -> Result<(), AllocError>
        ensures { OnOk result (turn_status_of self.new ≡ fresh state.now registers) }
    {
        put_state(&mut self.state, state);
        self.memory.begin(registers)?;
        self.writes.clear();
        self.nbas.clear();
        self.lines.clear();
        self.strobes.clear();
        self.stack.rest.clear();
        Ok(())
    }

    /// The process goes on at this place.
    pub fn go(&mut self, next: usize)
        ensures { turn_status_of self.new ≡ at (turn_status_of self.old) next }
    {
        self.state.place = next;
        forget(&mut self.state.pending);
    }

    /// Writes a register, which the rest of the turn sees. It stands apart, since few writes are left over by an earlier turn.
    #[inline(never)]
    pub fn write(&mut self, register: RegId, value: Bits, next: usize) -> Result<(), AllocError>
        ensures { OnOk result (turn_status_of self.new ≡ writing (turn_status_of self.old) register value next) }
    {
        note_write(&mut self.memory, &mut self.writes, register, &value)?;
        self.go(next);
        Ok(())
    }

    /// Writes the topmost vector of the stack to a register.
    #[inline(always)]
    pub fn write_top(&mut self, register: RegId, next: usize) -> Result<(), AllocError>
        ensures { OnOk result (turn_status_of self.new ≡ writing (turn_status_of self.old) register self.old.stack.top next) }
    {
        note_write(
            &mut self.memory,
            &mut self.writes,
            register,
            &self.stack.top,
        )?;
        self.go(next);
        Ok(())
    }

    /// Leaves the assignment of the topmost vector of the stack over for after the wait (9.7.7).
    pub fn hold(&mut self, register: RegId, next: usize)
        ensures { turn_status_of self.new ≡ holding (turn_status_of self.old) register self.old.stack.top next }
    {
        self.state = ProcState {
            place: next,
            pending: Some((register, PackedBits::new(self.stack.top))),
        };
    }

    /// Makes a nonblocking assignment of the topmost vector of the stack, which is due at this time (9.2.2).
    #[inline(always)]
    pub fn assign_later(&mut self, register: RegId, due: u64, next: usize) -> Result<(), AllocError>
        ensures { OnOk result (turn_status_of self.new ≡ delaying (turn_status_of self.old) (record { reg = register; value = self.old.stack.top; due = due }) next) }
    {
        self.nbas.reserve(1)?;
        self.nbas.push_reserved(Nba {
            reg: register,
            value: self.stack.top,
            due,
        });
        self.go(next);
        Ok(())
    }

    /// The steps of an expression, which are this part. Its value is then the topmost vector of the stack.
    pub fn compute<R: RegReader>(
        &mut self,
        ops: &[Op],
        span: Span,
        reader: &mut R,
    ) -> Result<(), AllocError>
        requires { NamesDeclared R.registers ops.now }
        ensures value { OnOk result (Valued (span_of ops.now span) (turn_status_of self.old) self.new.stack.top (turn_status_of self.new)) }
        ensures reads { ReadsOn R.gave R.lasting result reader.old self.old.memory.reads.entries reader.new self.new.memory.reads.entries }
    {
        compute(part(ops, span), &mut self.memory, reader, &mut self.stack)
    }
}
