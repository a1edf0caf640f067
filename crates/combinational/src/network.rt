//! All combinational processes of a design, and an order among them.
ghost use Rattle.std.specs.Prelude.{◌≡◌, ◌≢◌, ℕ, ◌<◌, true, false, [], length, Some, None, slice_get, IfOk, IfSome};
ghost use Rattle.model.specs.Turns.{contains};
ghost use Rattle.combinational.specs.Found.{rank_in, AreRanked, AreLogics, AllRanked, IsNetworkOf};
ghost use Rattle.combinational.specs.declared.block.Logic.{Logic as Found};

use crate::block::{Logic, is_among, logic_of};
use design::{Design, RegId};
use std::alloc::{AllocError, Global};

/// For each process of a design its logic, where it is combinational, and its rank: logic comes in rank before what waits for its
/// outputs.
#[derive(Drop)]
pub struct Network {
    pub logics: Vec<Option<Logic>>,
    pub ranks: Vec<u32>,
}

// The logic of each process.
fn logics_of(alloc: Global, design: &Design) -> Result<Vec<Option<Logic>>, AllocError>
    ensures { IfOk result (λ logics. AreLogics design.now logics.items) }
{
    let mut logics = Vec::new(alloc);
    for process in 0..design.processes() {
        logics.push(logic_of(alloc, design, process)?)?;
    }
    Ok(logics)
}

/// Whether two lists have a register in common.
pub fn share(registers: &[RegId], others: &[RegId]) -> bool
    ensures common { result ≡ true → (r : ℕ) × (contains registers.now r ≡ true) × (contains others.now r ≡ true) }
    ensures apart { result ≡ false → (r : ℕ) → contains registers.now r ≡ true → contains others.now r ≡ false }
{
    for register in registers {
        if is_among(others, *register) {
            return true;
        }
    }
    false
}

// Whether no register is an output of both, and the first rank is lower where the second waits for an output of the first.
fn are_apart(one: &Logic, other: &Logic, rank: u32, other_rank: u32) -> bool
    ensures single { result ≡ true → (r : ℕ) → contains one.now.outputs.items r ≡ true → contains other.now.outputs.items r ≡ false }
    ensures order { result ≡ true → (r : ℕ) → contains one.now.outputs.items r ≡ true → contains other.now.inputs.items r ≡ true → rank < other_rank }
{
    if share(&one.outputs, &other.outputs) {
        return false;
    }
    if share(&one.outputs, &other.inputs) {
        return rank < other_rank;
    }
    true
}

// The rank of a process, and 0 where it has none yet.
fn rank_of(ranks: &[u32], process: usize) -> u32
    ensures { result ≡ rank_in ranks.now process }
{
    match ranks.get(process) {
        Some(rank) => *rank,
        None => 0,
    }
}

// Whether logic is apart from that of the process at a place, where that is another process.
fn is_apart_at(network: &Network, process: usize, one: &Logic, at: usize) -> bool
    requires { at < length network.now.logics.items }
    ensures { result ≡ true → (other : Found) → process ≢ at → slice_get network.now.logics.items at ≡ Some (Some other) → AreRanked network.now.ranks.items process at one.now other }
{
    if at == process {
        return true;
    }
    match &network.logics[at] {
        Some(other) => are_apart(
            one,
            other,
            rank_of(&network.ranks, process),
            rank_of(&network.ranks, at),
        ),
        None => true,
    }
}

// Whether the logic of a process is apart from that of each other one.
fn is_ranked(network: &Network, process: usize, one: &Logic) -> bool
    ensures { result ≡ true → (q : ℕ) (other : Found) → process ≢ q → slice_get network.now.logics.items q ≡ Some (Some other) → AreRanked network.now.ranks.items process q one.now other }
{
    for at in 0..network.logics.len() {
        if !is_apart_at(network, process, one, at) {
            return false;
        }
    }
    true
}

// Whether the process at a place has no logic, or logic that is apart from that of each other one.
fn is_apart_from_all(network: &Network, process: usize) -> bool
    requires { process < length network.now.logics.items }
    ensures { result ≡ true → (q : ℕ) (one other : Found) → process ≢ q → slice_get network.now.logics.items process ≡ Some (Some one) → slice_get network.now.logics.items q ≡ Some (Some other) → AreRanked network.now.ranks.items process q one other }
{
    match &network.logics[process] {
        Some(one) => is_ranked(network, process, one),
        None => true,
    }
}

// The first process whose logic isn't apart from that of each other one.
fn first_offender(network: &Network) -> Option<usize>
    ensures within { IfSome result (λ at. at < length network.now.logics.items) }
    ensures apart { result ≡ None → AllRanked network.now.ranks.items network.now.logics.items }
{
    for at in 0..network.logics.len() {
        if !is_apart_from_all(network, at) {
            return Some(at);
        }
    }
    None
}

// Whether the logic at one place has an output for which that at another waits.
fn feeds(logics: &[Option<Logic>], from: usize, to: usize) -> bool {
    match (logics.get(from), logics.get(to)) {
        (Some(Some(one)), Some(Some(other))) => share(&one.outputs, &other.inputs),
        _ => false,
    }
}

// The rank of a process behind those of the processes whose outputs it waits for.
fn rank_behind(logics: &[Option<Logic>], ranks: &[u32], process: usize) -> u32 {
    let mut rank = 0;
    for from in 0..logics.len() {
        if feeds(logics, from, process) {
            rank = rank.max(rank_of(ranks, from).saturating_add(1));
        }
    }
    rank
}

// Ranks, each behind those of the processes whose outputs it waits for, where these have the given ones.
fn ranks_behind(
    alloc: Global,
    logics: &[Option<Logic>],
    ranks: &[u32],
) -> Result<Vec<u32>, AllocError> {
    let mut behind = Vec::new(alloc);
    for process in 0..logics.len() {
        behind.push(rank_behind(logics, ranks, process))?;
    }
    Ok(behind)
}

// Ranks by which logic comes before what waits for its outputs, where there is no cycle.
fn ranks_of(alloc: Global, logics: &[Option<Logic>]) -> Result<Vec<u32>, AllocError> {
    let mut ranks = Vec::new(alloc);
    for _ in 0..logics.len() {
        let behind = ranks_behind(alloc, logics, &ranks)?;
        if behind.as_slice() == ranks.as_slice() {
            return Ok(behind);
        }
        ranks = behind;
    }
    Ok(ranks)
}

// No logic of any process.
fn no_network(alloc: Global) -> Network
    ensures logics { result.logics.items ≡ [] }
{
    Network {
        logics: Vec::new(alloc),
        ranks: Vec::new(alloc),
    }
}

/// The combinational processes of a design. Logic that has an output with another in common, or that is part of a cycle, is left out:
/// of these one process after another, until what is left is apart.
pub fn network_of(alloc: Global, design: &Design) -> Result<Network, AllocError>
    ensures { IfOk result (IsNetworkOf design.now) }
{
    let logics = logics_of(alloc, design)?;
    let ranks = ranks_of(alloc, &logics)?;
    let mut network = Network { logics, ranks };
    for _ in 0..network.logics.len() {
        match first_offender(&network) {
            Some(at) => network.logics[at] = None,
            None => return Ok(network),
        }
    }
    Ok(no_network(alloc))
}
