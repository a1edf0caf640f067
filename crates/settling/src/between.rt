//! Whether combinational processes settle from where a machine stood to where nothing is active.
ghost use Rattle.std.specs.Prelude.{◌≡◌, ◌≢◌, ℕ, true, IfOk};
ghost use Rattle.model.specs.Expressions.{value_of};
ghost use Rattle.model.specs.Turns.{contains};
ghost use Rattle.combinational.specs.Found.{IsNetworkOf};
ghost use Rattle.settling.specs.Settled.{HasSettledSince, HaveSettledSince};

use crate::begin::Begin;
use crate::consistent::has_value;
use crate::member::{is_pending_or_settled, logic_at};
use combinational::{Logic, Network, is_among};
use design::RegId;
use logic4::bits::Bits;
use regions::{Machine, PlainStore};
use std::alloc::{AllocError, Global};
use turn::TurnLog;

// Whether a register has another value than this.
fn has_other_value(store: &PlainStore, register: RegId, value: &Bits) -> bool
    ensures { result ≡ true → value_of store.now register ≢ value.now }
{
    match store.value(register) {
        Some(old) => !(old == *value),
        None => false,
    }
}

// Whether a register has one value in a store and another one in another.
fn differs(begin: &PlainStore, end: &PlainStore, register: RegId) -> bool
    ensures { result ≡ true → value_of begin.now register ≢ value_of end.now register }
{
    match end.value(register) {
        Some(value) => has_other_value(begin, register, &value),
        None => false,
    }
}

// Whether one of these registers does.
fn any_differs(begin: &PlainStore, end: &PlainStore, registers: &[RegId]) -> bool
    ensures { result ≡ true → (r : ℕ) × (contains registers.now r ≡ true) × (value_of begin.now r ≢ value_of end.now r) }
{
    for register in registers {
        if differs(begin, end, *register) {
            return true;
        }
    }
    false
}

// Whether a register has one value in both stores.
fn is_kept(begin: &PlainStore, end: &PlainStore, register: RegId) -> bool
    ensures { result ≡ true → value_of begin.now register ≡ value_of end.now register }
{
    match end.value(register) {
        Some(value) => has_value(begin, register, &value),
        None => false,
    }
}

// Whether each of these registers has.
fn are_kept(begin: &PlainStore, end: &PlainStore, registers: &[RegId]) -> bool
    ensures { result ≡ true → (r : ℕ) → contains registers.now r ≡ true → value_of begin.now r ≡ value_of end.now r }
{
    for register in registers {
        if !is_kept(begin, end, *register) {
            return false;
        }
    }
    true
}

// Whether each register that some logic reads or writes has.
fn is_untouched(begin: &PlainStore, end: &PlainStore, logic: &Logic) -> bool
    ensures inputs { result ≡ true → (r : ℕ) → contains logic.now.inputs.items r ≡ true → value_of begin.now r ≡ value_of end.now r }
    ensures outputs { result ≡ true → (r : ℕ) → contains logic.now.outputs.items r ≡ true → value_of begin.now r ≡ value_of end.now r }
{
    if !are_kept(begin, end, logic.inputs.as_slice()) {
        return false;
    }
    are_kept(begin, end, logic.outputs.as_slice())
}

// Whether a process settled: it was pending at the begin, or one of its inputs has another value now, or it has settled and is untouched,
// so that it had settled at the begin. Where its turn has to be evaluated, that is done into the log.
fn settles(
    log: &mut TurnLog,
    begin: &Begin,
    machine: &Machine<'_>,
    network: &Network,
    process: u32,
) -> Result<bool, AllocError>
    requires found { IsNetworkOf machine.now.code network.now }
    ensures { IfOk result (λ settled. settled ≡ true → HasSettledSince begin.now machine.now network.now process) }
{
    if is_among(&begin.pending, process) {
        return Ok(true);
    }
    let logic = match logic_at(network, process) {
        Some(logic) => logic,
        None => return Ok(false),
    };
    if any_differs(&begin.values, machine.store(), logic.inputs.as_slice()) {
        return Ok(true);
    }
    if !is_untouched(&begin.values, machine.store(), logic) {
        return Ok(false);
    }
    machine.stands();
    is_pending_or_settled(log, machine, network, process)
}

// Whether each of these processes settles. Turns that have to be evaluated for that are evaluated into the log.
fn all_settle(
    log: &mut TurnLog,
    begin: &Begin,
    machine: &Machine<'_>,
    network: &Network,
    members: &[u32],
) -> Result<bool, AllocError>
    requires found { IsNetworkOf machine.now.code network.now }
    ensures { IfOk result (λ settled. settled ≡ true → HaveSettledSince begin.now machine.now network.now members.now) }
{
    for member in members {
        if !settles(log, begin, machine, network, *member)? {
            return Ok(false);
        }
    }
    Ok(true)
}

/// Whether each of these processes, the members of a phase that began so or processes that were held from there on, settles from there to
/// where a machine stands and nothing is active: it was pending at the begin, or had settled, or one of its inputs has another value. Fails
/// where memory is refused.
pub fn settle_since(
    alloc: Global,
    begin: &Begin,
    machine: &Machine<'_>,
    network: &Network,
    members: &[u32],
) -> Result<bool, AllocError>
    requires found { IsNetworkOf machine.now.code network.now }
    ensures { IfOk result (λ settled. settled ≡ true → HaveSettledSince begin.now machine.now network.now members.now) }
{
    let mut log = TurnLog::new(alloc);
    let settled = all_settle(&mut log, begin, machine, network, members);
    drop(log);
    settled
}

// Those of these processes that settle. Turns that have to be evaluated for that are evaluated into the log.
fn members_settling(
    log: &mut TurnLog,
    alloc: Global,
    machine: &Machine<'_>,
    network: &Network,
    begin: &Begin,
    members: &[u32],
) -> Result<Vec<u32>, AllocError>
    requires found { IsNetworkOf machine.now.code network.now }
    ensures { IfOk result (λ settled. (p : ℕ) → contains settled.items p ≡ true → HasSettledSince begin.now machine.now network.now p) }
{
    let mut settled = Vec::new(alloc);
    for process in members {
        if settles(log, begin, machine, network, *process)? {
            settled.push(*process)?;
        }
    }
    Ok(settled)
}

/// Those of these processes that settle so.
pub fn members_settled_since(
    alloc: Global,
    machine: &Machine<'_>,
    network: &Network,
    begin: &Begin,
    members: &[u32],
) -> Result<Vec<u32>, AllocError>
    requires found { IsNetworkOf machine.now.code network.now }
    ensures { IfOk result (λ settled. (p : ℕ) → contains settled.items p ≡ true → HasSettledSince begin.now machine.now network.now p) }
{
    let mut log = TurnLog::new(alloc);
    let settled = members_settling(&mut log, alloc, machine, network, begin, members);
    drop(log);
    settled
}
