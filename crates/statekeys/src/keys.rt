//! States as bytes.
ghost use Rattle.std.specs.Prelude.{◌≡◌, ◌++◌, map, OnOk};
ghost use Rattle.std.specs.List.Sorted.{IsPermutation};
ghost use Rattle.statekeys.specs.KeyCodes.{nat_code, bool_code, pair_code, list_code, vector_code};
ghost use Rattle.statekeys.specs.Keys.{process_code, update_code, IsKey};
ghost use Rattle.statekeys.specs.KeyParts.{going_on, unnumbered_update, due_process, due_assignment};

use crate::encode::{Encode, put_deque, put_slice};
use design::ProcState;
use regions::{Continuation, Due, Evaluation, PlainStore, State, Update};
use std::alloc::{AllocError, Global};
use std::collections::VecDeque;

// Room that most keys fit in.
const KEY_ROOM: usize = 256;

/// Room in which the processes of evaluations are sorted, and updates by their classes. It is kept from one key to the next, so
/// that keys take no memory of their own once it has grown; but a class key does while it sorts a list of more than 20 updates that
/// doesn't stand in order.
#[derive(Drop)]
pub struct Scratch {
    pub(crate) active: Vec<u32>,
    pub(crate) inactive: Vec<u32>,
    pub(crate) times: Vec<u64>,
    pub(crate) future: Vec<(u64, u32)>,
    pub(crate) updates: Vec<Update>,
    pub(crate) nonblocking: Vec<Update>,
    pub(crate) future_updates: Vec<Due<Update>>,
    pub(crate) update_times: Vec<u64>,
}

impl Scratch {
    /// No room yet.
    pub fn new(alloc: Global) -> Scratch {
        Scratch {
            active: Vec::new(alloc),
            inactive: Vec::new(alloc),
            times: Vec::new(alloc),
            future: Vec::new(alloc),
            updates: Vec::new(alloc),
            nonblocking: Vec::new(alloc),
            future_updates: Vec::new(alloc),
            update_times: Vec::new(alloc),
        }
    }
}

impl Encode for ProcState {
    ghost use Rattle.statekeys.specs.Keys.{state_code};

    ghost code = { state_code };

    // Appends the place, and the assignment left over.
    fn encode(&self, bytes: &mut Vec<u8>) -> Result<(), AllocError> {
        self.place.encode(bytes)?;
        self.pending.encode(bytes)
    }
}

impl Encode for Continuation {
    ghost code = { λ p. process_code (going_on p) };

    // Appends where the process goes on, and the event control that it waits at.
    fn encode(&self, bytes: &mut Vec<u8>) -> Result<(), AllocError> {
        self.state.encode(bytes)?;
        self.waits.encode(bytes)
    }
}

impl Encode for Update {
    ghost code = { λ u. update_code (unnumbered_update u) };

    // Appends the register and the value, without the number of the event.
    fn encode(&self, bytes: &mut Vec<u8>) -> Result<(), AllocError> {
        self.register.encode(bytes)?;
        self.value.encode(bytes)
    }
}

impl<E: Encode> Encode for Due<E> {
    ghost code = { λ d. nat_code d.time ++ E.code d.event };

    // Appends the time, and the event behind it.
    fn encode(&self, bytes: &mut Vec<u8>) -> Result<(), AllocError> {
        self.time.encode(bytes)?;
        self.event.encode(bytes)
    }
}

/// Begins a key, in place of what stood in `bytes`: the time of a state, whether its run is finished, and the values of its registers.
pub(crate) fn begin_key(
    bytes: &mut Vec<u8>,
    state: &State,
    store: &PlainStore,
) -> Result<(), AllocError>
    ensures { OnOk result (bytes.new.items ≡ nat_code state.now.time ++ bool_code state.now.finished ++ list_code vector_code store.now) }
{
    bytes.clear();
    bytes.reserve(KEY_ROOM)?;
    state.time().encode(bytes)?;
    state.is_finished().encode(bytes)?;
    put_slice(bytes, store.values())
}

/// Appends where each process goes on, and what it waits at.
pub(crate) fn put_processes(
    bytes: &mut Vec<u8>,
    processes: &[Continuation],
) -> Result<(), AllocError>
    ensures { OnOk result (bytes.new.items ≡ bytes.old.items ++ list_code process_code (map going_on processes.now)) }
{
    put_slice(bytes, processes)
}

// Appends updates in their order.
fn put_updates(bytes: &mut Vec<u8>, updates: &VecDeque<Update>) -> Result<(), AllocError>
    ensures { OnOk result (bytes.new.items ≡ bytes.old.items ++ list_code update_code (map unnumbered_update updates.now.items)) }
{
    put_deque(bytes, updates)
}

// Appends updates to come in their order, with their times.
fn put_future_updates(bytes: &mut Vec<u8>, future: &VecDeque<Due<Update>>) -> Result<(), AllocError>
    ensures { OnOk result (bytes.new.items ≡ bytes.old.items ++ list_code (pair_code nat_code update_code) (map due_assignment future.now.items)) }
{
    put_deque(bytes, future)
}

/// Appends the processes of evaluations in rising order.
pub(crate) fn put_evaluations(
    bytes: &mut Vec<u8>,
    processes: &mut Vec<u32>,
    evaluations: &VecDeque<Evaluation>,
) -> Result<(), AllocError>
    ensures processes { OnOk result (IsPermutation (map (λ e. e.process) evaluations.now.items) processes.new.items) }
    ensures bytes { OnOk result (bytes.new.items ≡ bytes.old.items ++ list_code nat_code processes.new.items) }
{
    processes.clear();
    for evaluation in evaluations {
        processes.push(evaluation.process)?;
    }
    processes.sort_unstable();
    put_slice(bytes, processes)
}

/// Appends the times of events to come in their order.
pub(crate) fn put_times<E>(
    bytes: &mut Vec<u8>,
    times: &mut Vec<u64>,
    future: &VecDeque<Due<E>>,
) -> Result<(), AllocError>
    ensures { OnOk result (bytes.new.items ≡ bytes.old.items ++ list_code nat_code (map (λ d. d.time) future.now.items)) }
{
    times.clear();
    for due in future {
        times.push(due.time)?;
    }
    put_slice(bytes, times)
}

// Appends the processes of evaluations to come and their times to a list.
fn push_due(processes: &mut Vec<(u64, u32)>, future: &[Due<Evaluation>]) -> Result<(), AllocError>
    ensures { OnOk result (processes.new.items ≡ processes.old.items ++ map due_process future.now) }
{
    for due in future {
        processes.push((due.time, due.event.process))?;
    }
    Ok(())
}

// Lists the processes of evaluations to come and their times.
fn list_due(
    processes: &mut Vec<(u64, u32)>,
    future: &VecDeque<Due<Evaluation>>,
) -> Result<(), AllocError>
    ensures { OnOk result (processes.new.items ≡ map due_process future.now.items) }
{
    processes.clear();
    let (first, second) = future.as_slices();
    push_due(processes, first)?;
    push_due(processes, second)
}

/// Appends the processes of evaluations to come with their times, in rising order.
pub(crate) fn put_future_evaluations(
    bytes: &mut Vec<u8>,
    processes: &mut Vec<(u64, u32)>,
    future: &VecDeque<Due<Evaluation>>,
) -> Result<(), AllocError>
    ensures processes { OnOk result (IsPermutation (map due_process future.now.items) processes.new.items) }
    ensures bytes { OnOk result (bytes.new.items ≡ bytes.old.items ++ list_code (pair_code nat_code nat_code) processes.new.items) }
{
    list_due(processes, future)?;
    processes.sort_unstable();
    put_slice(bytes, processes)
}

/// Fills `bytes` with the key of a state and the values of its registers. What stood there is dropped; where memory is refused,
/// a part of the key may stand there.
pub fn key(
    bytes: &mut Vec<u8>,
    scratch: &mut Scratch,
    state: &State,
    store: &PlainStore,
) -> Result<(), AllocError>
    ensures { OnOk result (IsKey state.now store.now bytes.new.items) }
{
    let (updates, evaluations) = state.active();
    let future = state.future_evaluations();
    begin_key(bytes, state, store)?;
    put_processes(bytes, state.processes())?;
    put_updates(bytes, updates)?;
    put_evaluations(bytes, &mut scratch.active, evaluations)?;
    put_evaluations(bytes, &mut scratch.inactive, state.inactive())?;
    put_updates(bytes, state.nonblocking())?;
    put_slice(bytes, state.monitor())?;
    put_times(bytes, &mut scratch.times, future)?;
    put_future_evaluations(bytes, &mut scratch.future, future)?;
    put_future_updates(bytes, state.future_updates())
}
