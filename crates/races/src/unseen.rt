//! Registers that have other values in two runs which print the same and end alike.
ghost use Rattle.std.specs.Prelude.{◌≡◌, ◌++◌, [], drop, length, option_copied, IfOk, IfSome, IsTrue, OnOk};
ghost use Rattle.logic4.specs.Operators.{same_vector};
ghost use Rattle.model.specs.States.{start};
ghost use Rattle.design.specs.Compiled.{design_of};
ghost use Rattle.regions.specs.Machine.{state_at};
ghost use Rattle.runs.specs.Compared.{AreLike};
ghost use Rattle.runs.specs.RunRecords.{IsRun};
ghost use Rattle.races.specs.Unseen.{ComeInBothOrders, DifferByPair, DifferWhenPassing, IsUnseen, PassesBefore, PassesIn, StandsInRun, is_at_rest, is_stopped_at_rest, other_values, with_register};

use crate::beside::{Passing, advances_from, first_parting};
use crate::race_search::RaceSearch;
use accesses::{Pair, lead};
use conflicts::{Conflict, has_both_orders};
use design::{Design, RegId};
use logic4::bits::Bits;
use model::end::{End, Why};
use model::entry::Entry;
use regions::Machine;
use runs::compared::is_same;
use runs::run::RunRecord;
use std::alloc::{AllocError, Global};

/// Registers whose values differ in two runs which print the same and end alike: when which time passes, their numbers, and the two entries
/// that were turned, where these come in both orders in the two.
#[derive(Drop)]
pub struct UnseenDifference {
    pub time: u64,
    pub registers: Vec<RegId>,
    pub pair: Option<Pair>,
}

// Keeps a register, unless its two values are the same.
fn push_other(
    registers: &mut Vec<RegId>,
    register: RegId,
    first: Bits,
    second: Bits,
) -> Result<(), AllocError>
    ensures { OnOk result (registers.new.items ≡ registers.old.items ++ with_register (same_vector first second) register []) }
{
    if first == second {
        return Ok(());
    }
    registers.push(register)?;
    Ok(())
}

// The registers whose values differ where two machines stand.
fn other_registers(
    alloc: Global,
    one: &Machine<'_>,
    other: &Machine<'_>,
) -> Result<Vec<RegId>, AllocError>
    requires { other.now.code ≡ one.now.code }
    ensures { IfOk result (λ found. found.items ≡ other_values 0 one.now.values other.now.values) }
{
    one.stands();
    other.stands();
    let registers = one.design().registers();
    let firsts = one.store().values();
    let seconds = other.store().values();
    let mut found = Vec::new(alloc);
    for register in 0..registers {
        let place = register as usize;
        push_other(&mut found, register, firsts[place], seconds[place])?;
    }
    Ok(found)
}

// Whether a time passes where a machine stands before an entry, or before none.
fn passes(machine: &Machine<'_>, next: Option<Entry>, time: u64) -> bool
    ensures { IsTrue result → PassesBefore time (state_at machine.now) next }
{
    match next {
        Some(Entry::Advance(next)) => machine.time() <= time && time < next,
        Some(_) => false,
        None => !machine.is_finished() && machine.time() == time,
    }
}

// Whether a time passes in the run of a journal where a machine stands behind so many entries of it.
fn passes_in(machine: &Machine<'_>, journal: &[Entry], count: usize, time: u64) -> bool
    requires { StandsInRun machine.now.code journal.now count machine.now }
    ensures { IsTrue result → PassesIn (design_of machine.now.code) journal.now time (state_at machine.now) }
{
    passes(machine, journal.get(count).copied(), time)
}

// Whether a time passes in both of two runs where machines of them stand.
fn passes_in_both(
    one: &Machine<'_>,
    other: &Machine<'_>,
    first: &[Entry],
    second: &[Entry],
    passing: Passing,
) -> bool
    requires one { StandsInRun one.now.code first.now passing.first one.now }
    requires other { StandsInRun one.now.code second.now passing.second other.now }
    ensures one { IsTrue result → PassesIn (design_of one.now.code) first.now passing.time (state_at one.now) }
    ensures other { IsTrue result → PassesIn (design_of one.now.code) second.now passing.time (state_at other.now) }
{
    passes_in(one, first, passing.first, passing.time)
        && passes_in(other, second, passing.second, passing.time)
}

// Leads a machine from its start behind so many entries of a journal. The answer is whether there are so many, and all were taken. Fails
// where memory is refused.
fn lead_behind(
    machine: &mut Machine<'_>,
    journal: &[Entry],
    count: usize,
) -> Result<bool, AllocError>
    requires { state_at machine.old ≡ start (design_of machine.old.code) }
    ensures { IfOk result (λ all. IsTrue all → StandsInRun machine.old.code journal.now count machine.new) }
{
    if count > journal.len() {
        return Ok(false);
    }
    lead(machine, journal.split_at(count).0)
}

// A machine that stands behind so many entries of a journal. None where there aren't so many, or it takes them not all.
fn stand_behind<'d>(
    alloc: Global,
    design: &'d Design,
    journal: &[Entry],
    count: usize,
) -> Result<Option<Box<Machine<'d>>>, AllocError>
    ensures { IfOk result (λ found. IfSome found (λ machine. StandsInRun design.now journal.now count machine.value)) }
{
    let machine = Machine::start(alloc, design)?;
    let mut machine = Box::new(alloc, machine)?;
    if lead_behind(&mut machine, journal, count)? {
        Ok(Some(machine))
    } else {
        Ok(None)
    }
}

// The difference of two runs where machines of them stand, if a time passes in both and registers differ.
fn difference_at(
    alloc: Global,
    one: &Machine<'_>,
    other: &Machine<'_>,
    first: &[Entry],
    second: &[Entry],
    passing: Passing,
) -> Result<Option<UnseenDifference>, AllocError>
    requires one { StandsInRun one.now.code first.now passing.first one.now }
    requires other { StandsInRun one.now.code second.now passing.second other.now }
    ensures { IfOk result (λ found. IfSome found (DifferWhenPassing one.now.code first.now second.now)) }
{
    let registers = other_registers(alloc, one, other)?;
    if registers.is_empty() {
        return Ok(None);
    }
    if passes_in_both(one, other, first, second, passing) {
        return Ok(Some(UnseenDifference {
            time: passing.time,
            registers,
            pair: None,
        }));
    }
    Ok(None)
}

// The difference of a run from another one, of which a machine stands where a time passes.
fn difference_from(
    alloc: Global,
    one: &Machine<'_>,
    first: &[Entry],
    second: &[Entry],
    passing: Passing,
) -> Result<Option<UnseenDifference>, AllocError>
    requires { StandsInRun one.now.code first.now passing.first one.now }
    ensures { IfOk result (λ found. IfSome found (DifferWhenPassing one.now.code first.now second.now)) }
{
    match stand_behind(alloc, one.design(), second, passing.second)? {
        Some(other) => difference_at(alloc, one, &other, first, second, passing),
        None => Ok(None),
    }
}

// The difference of two runs where a time passes, if registers differ.
fn difference_of(
    alloc: Global,
    design: &Design,
    first: &[Entry],
    second: &[Entry],
    passing: Passing,
) -> Result<Option<UnseenDifference>, AllocError>
    ensures { IfOk result (λ found. IfSome found (DifferWhenPassing design.now first.now second.now)) }
{
    match stand_behind(alloc, design, first, passing.first)? {
        Some(one) => difference_from(alloc, &one, first, second, passing),
        None => Ok(None),
    }
}

// The first difference of two runs when a time passes, if there is one.
fn first_difference(
    alloc: Global,
    design: &Design,
    first: &[Entry],
    second: &[Entry],
) -> Result<Option<UnseenDifference>, AllocError>
    ensures { IfOk result (λ found. IfSome found (DifferWhenPassing design.now first.now second.now)) }
{
    match first_parting(alloc, design, first, second)? {
        Some(passing) => difference_of(alloc, design, first, second, passing),
        None => Ok(None),
    }
}

// Whether a run that was stopped for this has no more to do at its last time, or met `$finish` (17.4.1).
fn is_stopped_at_rest(why: Why) -> bool
    ensures { result ≡ is_stopped_at_rest why }
{
    match why {
        Why::Finish => true,
        Why::Until => true,
        Why::Time => true,
        Why::Entries => false,
        Why::TooLong(_) => false,
        Why::Memory => false,
    }
}

// Whether so does a run with this end.
fn is_at_rest(end: End) -> bool
    ensures { result ≡ is_at_rest end }
{
    match end {
        End::Quiet => true,
        End::Running => false,
        End::Stopped(why) => is_stopped_at_rest(why),
    }
}

// Whether a second run prints what the first one prints and ends like it, at rest.
fn is_alike_at_rest(original: &RunRecord, exchanged: &RunRecord) -> bool
    ensures alike { IsTrue result → AreLike original.now exchanged.now }
    ensures rests { IsTrue result → IsTrue (is_at_rest exchanged.now.end) }
{
    is_at_rest(exchanged.end) && is_same(original, exchanged)
}

// The first difference of a second run from the first one when a time passes. The entries of both are taken off those that are left.
fn difference_beside(
    task: RaceSearch<'_>,
    exchanged: &RunRecord,
    left: &mut u64,
) -> Result<Option<UnseenDifference>, AllocError>
    ensures { IfOk result (λ found. IfSome found (DifferWhenPassing task.entry.design.now task.entry.original.now.journal.items exchanged.now.journal.items)) }
{
    let first = task.original.journal.as_slice();
    let second = exchanged.journal.as_slice();
    *left = left
        .saturating_sub(first.len() as u64)
        .saturating_sub(second.len() as u64);
    first_difference(task.alloc, task.design, first, second)
}

// The two entries of a conflict, where they come in both orders in the first run and the second one.
fn turned_pair(
    task: RaceSearch<'_>,
    conflict: &Conflict,
    exchanged: &RunRecord,
) -> Result<Option<Pair>, AllocError>
    ensures { IfOk result (ComeInBothOrders task.entry.design.now task.entry.original.now exchanged.now) }
{
    match has_both_orders(task.alloc, task.design, conflict, task.original, exchanged) {
        Ok(true) => Ok(Some(conflict.pair)),
        Ok(false) => Ok(None),
        Err(error) => Err(error),
    }
}

// A difference of a second run from the first one, with these two entries.
fn with_pair(found: UnseenDifference, pair: Option<Pair>) -> UnseenDifference
    ensures time { result.time ≡ found.time }
    ensures registers { result.registers ≡ found.registers }
    ensures pair { result.pair ≡ pair }
{
    let UnseenDifference {
        time,
        registers,
        pair: _,
    } = found;
    UnseenDifference {
        time,
        registers,
        pair,
    }
}

// A difference of a second run from the first one, with the two entries of its conflict, where they come in both orders.
fn told_difference(
    task: RaceSearch<'_>,
    conflict: &Conflict,
    exchanged: &RunRecord,
    found: UnseenDifference,
) -> Result<UnseenDifference, AllocError>
    requires { DifferWhenPassing task.design.now task.original.now.journal.items exchanged.now.journal.items found }
    ensures { IfOk result (DifferByPair task.entry.design.now task.entry.original.now exchanged.now) }
{
    let pair = turned_pair(task, conflict, exchanged)?;
    Ok(with_pair(found, pair))
}

// Whether a time may pass behind the entries that the second run of a conflict has in common with the first run: one passes in one of the two, or
// they end otherwise than by `$finish`, behind which none does (17.4.1).
fn may_pass_behind(task: RaceSearch<'_>, conflict: &Conflict, exchanged: &RunRecord) -> bool {
    let from = conflict.pair.earlier;
    match exchanged.end {
        End::Stopped(Why::Finish) => {
            advances_from(task.original.journal.as_slice(), from)
                || advances_from(exchanged.journal.as_slice(), from)
        }
        _ => true,
    }
}

// The first difference of the second run of a conflict from the first run when a time passes, with the two entries. The entries of both runs are
// taken off those that are left, unless none may pass behind what the two have in common.
fn difference_by(
    task: RaceSearch<'_>,
    conflict: &Conflict,
    exchanged: &RunRecord,
    left: &mut u64,
) -> Result<Option<UnseenDifference>, AllocError>
    ensures { IfOk result (λ found. IfSome found (DifferByPair task.entry.design.now task.entry.original.now exchanged.now)) }
{
    if !may_pass_behind(task, conflict, exchanged) {
        return Ok(None);
    }
    match difference_beside(task, exchanged, left)? {
        Some(found) => Ok(Some(told_difference(task, conflict, exchanged, found)?)),
        None => Ok(None),
    }
}

/// The first difference of the second run of a conflict from the first run, when a time passes, where both print the same and end alike, at rest. The
/// entries of both are taken off those that are left to second runs then.
pub(crate) fn unseen_difference(
    task: RaceSearch<'_>,
    conflict: &Conflict,
    exchanged: &RunRecord,
    left: &mut u64,
) -> Result<Option<UnseenDifference>, AllocError>
    requires { IsRun task.design.now task.limits exchanged.now }
    ensures { IfOk result (λ found. IfSome found (IsUnseen task.entry.design.now task.entry.limits task.entry.original.now)) }
{
    if is_alike_at_rest(task.original, exchanged) {
        difference_by(task, conflict, exchanged, left)
    } else {
        Ok(None)
    }
}
