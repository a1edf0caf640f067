//! Two runs, followed from time to time.

ghost use Rattle.std.specs.Prelude.{◌≡◌, ◌++◌, [], flat_map, length, IfErr, IfOk, OnOk};
ghost use Rattle.std.specs.List.Sorted.{IsStrictlyIncreasing};
ghost use Rattle.design.specs.Compiled.{design_of};
ghost use Rattle.logic4.specs.Operators.{same_vector};
ghost use Rattle.differences.specs.ComparedValues.{differing, given_values, rows_at, with_difference};
ghost use Rattle.differences.specs.CompareFaults.{IsCompareFaultOf};
ghost use Rattle.differences.specs.Following.{IsFollowedSince, IsFollowedTo, IsRunFollowed};

use crate::fault::{CompareFault, JournalSide};
use crate::followed_run::{FollowedRun, GivenRegisters};
use crate::value_difference::{GivenValue, ValueDifference};
use design::Design;
use model::entry::Entry;
use std::alloc::{AllocError, Global};

// Keeps a register, unless its two values are the same.
fn push_difference(rows: &mut Vec<ValueDifference>, row: ValueDifference) -> Result<(), AllocError>
    ensures { OnOk result (rows.new.items ≡ rows.old.items ++ with_difference (same_vector row.first.value row.second.value) row []) }
{
    if row.first.value == row.second.value {
        return Ok(());
    }
    rows.push(row)?;
    Ok(())
}

// Keeps each register whose values differ.
fn push_differing(
    rows: &mut Vec<ValueDifference>,
    time: u64,
    registers: u32,
    first: GivenRegisters<'_>,
    second: GivenRegisters<'_>,
) -> Result<(), AllocError>
    requires first_values { length first.values.now ≡ registers }
    requires first_givers { length first.givers.now ≡ registers }
    requires second_values { length second.values.now ≡ registers }
    requires second_givers { length second.givers.now ≡ registers }
    ensures { OnOk result (rows.new.items ≡ rows.old.items ++ differing time 0 (given_values first.entry.values.now first.entry.givers.now) (given_values second.entry.values.now second.entry.givers.now)) }
{
    for register in 0..registers {
        let place = register as usize;
        let row = ValueDifference {
            time,
            register,
            first: GivenValue {
                value: first.values[place],
                by: first.givers[place],
            },
            second: GivenValue {
                value: second.values[place],
                by: second.givers[place],
            },
        };
        push_difference(rows, row)?;
    }
    Ok(())
}

// Takes two journals up to the end of a time, and keeps each register whose values differ then.
fn compare_at(
    rows: &mut Vec<ValueDifference>,
    one: &mut FollowedRun<'_>,
    other: &mut FollowedRun<'_>,
    first: &[Entry],
    second: &[Entry],
    time: u64,
) -> Result<(), CompareFault>
    requires one { IsRunFollowed first.now one.old }
    requires other { IsRunFollowed second.now other.old }
    requires code { other.old.explainer.position.code ≡ one.old.explainer.position.code }
    ensures one { OnOk result (IsFollowedTo time first.now one.old one.new) }
    ensures other { OnOk result (IsFollowedTo time second.now other.old other.new) }
    ensures one_registers { OnOk result (length one.new.explainer.position.values ≡ length one.new.givers.items) }
    ensures other_registers { OnOk result (length other.new.explainer.position.values ≡ length other.new.givers.items) }
    ensures rows { OnOk result (rows.new.items ≡ rows.old.items ++ differing time 0 (given_values one.new.explainer.position.values one.new.givers.items) (given_values other.new.explainer.position.values other.new.givers.items)) }
    ensures fault { IfErr result (IsCompareFaultOf one.old.explainer.position.code first.now second.now) }
{
    match one.pass(first, time) {
        Ok(()) => {}
        Err(fault) => return Err(fault.of(JournalSide::First)),
    }
    match other.pass(second, time) {
        Ok(()) => {}
        Err(fault) => return Err(fault.of(JournalSide::Second)),
    }
    let registers = one.explainer.design().registers();
    push_differing(rows, time, registers, one.given(), other.given())?;
    Ok(())
}

// Two journals, and the times at which their runs are compared.
#[derive(Clone, Copy)]
struct ComparedRuns<'a> {
    first: &'a [Entry],
    second: &'a [Entry],
    times: &'a [u64],
}

// Follows two runs from time to time, each from its start on, and keeps each register whose values differ when a time passes.
fn follow(
    alloc: Global,
    one: &mut FollowedRun<'_>,
    other: &mut FollowedRun<'_>,
    runs: ComparedRuns<'_>,
) -> Result<Vec<ValueDifference>, CompareFault>
    requires rising { IsStrictlyIncreasing runs.times.now }
    requires code { other.old.explainer.position.code ≡ one.old.explainer.position.code }
    requires one { IsFollowedSince runs.first.now runs.times.now 0 one.old }
    requires other { IsFollowedSince runs.second.now runs.times.now 0 other.old }
    ensures rows { IfOk result (λ rows. rows.items ≡ flat_map (rows_at (design_of one.old.explainer.position.code) runs.entry.first.now runs.entry.second.now) runs.entry.times.now) }
    ensures fault { IfErr result (IsCompareFaultOf one.old.explainer.position.code runs.entry.first.now runs.entry.second.now) }
{
    let mut rows = Vec::new(alloc);
    for place in 0..runs.times.len() {
        let time = runs.times[place];
        match compare_at(&mut rows, one, other, runs.first, runs.second, time) {
            Ok(()) => {}
            Err(fault) => return Err(fault),
        }
    }
    Ok(rows)
}

// Follows the run of the second journal from its start on beside that of the first. It owns this one run, and leaves by one way once it
// has it: two of them, or an early return, make a long proof.
fn follow_beside(
    alloc: Global,
    one: &mut FollowedRun<'_>,
    runs: ComparedRuns<'_>,
) -> Result<Vec<ValueDifference>, CompareFault>
    requires rising { IsStrictlyIncreasing runs.times.now }
    requires one { IsFollowedSince runs.first.now runs.times.now 0 one.old }
    ensures rows { IfOk result (λ rows. rows.items ≡ flat_map (rows_at (design_of one.old.explainer.position.code) runs.entry.first.now runs.entry.second.now) runs.entry.times.now) }
    ensures fault { IfErr result (IsCompareFaultOf one.old.explainer.position.code runs.entry.first.now runs.entry.second.now) }
{
    let mut other = match FollowedRun::start(alloc, one.explainer.design()) {
        Ok(other) => other,
        Err(_) => return Err(CompareFault::Memory),
    };
    let rows = follow(alloc, one, &mut other, runs);
    drop(other);
    rows
}

/// Each register whose value in one run differs from that in the other when one of these times passes, time by time, and at one time
/// in the order of the registers, each value with the entry that gave it. The times have to rise.
pub(crate) fn differing_values(
    alloc: Global,
    design: &Design,
    first: &[Entry],
    second: &[Entry],
    times: &[u64],
) -> Result<Vec<ValueDifference>, CompareFault>
    requires { IsStrictlyIncreasing times.now }
    ensures rows { IfOk result (λ rows. rows.items ≡ flat_map (rows_at (design_of design.now) first.now second.now) times.now) }
    ensures fault { IfErr result (IsCompareFaultOf design.now first.now second.now) }
{
    let mut one = match FollowedRun::start(alloc, design) {
        Ok(one) => one,
        Err(_) => return Err(CompareFault::Memory),
    };
    let runs = ComparedRuns {
        first,
        second,
        times,
    };
    let rows = follow_beside(alloc, &mut one, runs);
    drop(one);
    rows
}
