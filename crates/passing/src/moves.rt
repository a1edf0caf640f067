//! The moves of registers: from which value to which each may pass.
ghost use Rattle.std.specs.Prelude.{◌≡◌, ◌||◌, true};
ghost use Rattle.std.specs.List.{All};
ghost use Rattle.logic4.specs.Operators.{same_vector};
ghost use Rattle.passing.specs.Moves.{is_move, passes_by, LeadsThrough, AllLeadThrough};

use certificates::changes::NotedChange;
use combinational::is_among;
use design::RegId;
use logic4::bits::Bits;
use std::alloc::AllocError;

// The most moves that are kept.
const MOST_MOVES: usize = 256;

/// The moves of the registers that are tracked. Any other register may pass from any value to any.
#[derive(Drop)]
pub(crate) struct TrackedMoves {
    pub(crate) tracked: Vec<RegId>,
    pub(crate) list: Vec<NotedChange>,
}

// Whether a move from one value to another is in a list.
fn is_listed(list: &[NotedChange], register: RegId, before: Bits, after: Bits) -> bool
    ensures { result ≡ is_move list.now register before after }
{
    list.iter().any(|own| own.register == register && own.before == before && own.after == after)
}

// Whether a move from one value to another is in a list, or they are the same.
fn leads(list: &[NotedChange], register: RegId, before: Bits, after: Bits) -> bool
    ensures { result ≡ (same_vector before after || is_move list.now register before after) }
{
    before == after || is_listed(list, register, before, after)
}

// Whether there is a move through both of two moves, if the second goes on from the first.
fn goes_on_by(list: &[NotedChange], one: &NotedChange, other: &NotedChange) -> bool
    ensures { result ≡ true → LeadsThrough list.now one.now other.now }
{
    if one.register != other.register {
        return true;
    }
    if one.after != other.before {
        return true;
    }
    leads(list, one.register, one.before, other.after)
}

// Whether there is one through a move and each that goes on from it.
fn goes_on(list: &[NotedChange], one: &NotedChange) -> bool
    ensures { result ≡ true → All (LeadsThrough list.now one.now) list.now }
{
    for place in 0..list.len() {
        if !goes_on_by(list, one, &list[place]) {
            return false;
        }
    }
    true
}

// Whether moves go on from each other.
fn are_closed(list: &[NotedChange]) -> bool
    ensures { result ≡ true → AllLeadThrough list.now }
{
    for place in 0..list.len() {
        if !goes_on(list, &list[place]) {
            return false;
        }
    }
    true
}

impl TrackedMoves {
    /// Whether a register may pass from one value to another.
    pub(crate) fn allow(&self, register: RegId, before: Bits, after: Bits) -> bool
        ensures { result ≡ passes_by self.now register before after }
    {
        !is_among(&self.tracked, register) || leads(&self.list, register, before, after)
    }

    /// Whether the moves go on from each other.
    pub(crate) fn are_closed(&self) -> bool
        ensures { result ≡ true → AllLeadThrough self.now.list.items }
    {
        are_closed(&self.list)
    }

    // Adds the moves through two moves, where one goes on from the other.
    fn add_both(&mut self, one: &NotedChange, other: &NotedChange) -> Result<(), AllocError> {
        if one.register != other.register {
            return Ok(());
        }
        if one.after == other.before {
            self.push(one.register, one.before, other.after)?;
        }
        if other.after == one.before {
            self.push(one.register, other.before, one.after)?;
        }
        Ok(())
    }

    // Adds what goes on from a move, and what it goes on from.
    fn add_through(&mut self, own: &NotedChange) -> Result<(), AllocError> {
        for place in 0..self.list.len() {
            if let Some(other) = self.list.get(place).copied() {
                self.add_both(own, &other)?;
            }
        }
        Ok(())
    }

    // Adds a move, unless it is there, or is none.
    fn push(&mut self, register: RegId, before: Bits, after: Bits) -> Result<(), AllocError> {
        if !leads(&self.list, register, before, after) {
            self.list.push(NotedChange {
                register,
                before,
                after,
            })?;
        }
        Ok(())
    }

    /// Adds a move of a register that is tracked, and those that go through it, and so on. Answers whether that came to an end. What was
    /// added is tested, and so no clause says it.
    pub(crate) fn add(&mut self, change: NotedChange) -> Result<bool, AllocError> {
        if !is_among(&self.tracked, change.register) {
            return Ok(true);
        }
        let first = self.list.len();
        self.push(change.register, change.before, change.after)?;
        for place in first..MOST_MOVES {
            if place >= self.list.len() {
                return Ok(true);
            }
            let own = self.list[place];
            self.add_through(&own)?;
        }
        Ok(self.list.len() <= MOST_MOVES)
    }
}
