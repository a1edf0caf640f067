//! Whether two entries of a run do what a pair says of them, and come the other way round in a second run, or one of them finishes
//! one of the runs before the other one comes.
ghost use Rattle.std.specs.Prelude.{IsTrue, IfOk, IfSome};
ghost use Rattle.design.specs.Compiled.{design_of};
ghost use Rattle.accesses.specs.Roles.{HasBothOrders};
ghost use Rattle.accesses.specs.ExchangedEntries.{IsSeenPair, SeesExchanged, SeesHeld};

use crate::follower::Follower;
use crate::pair::Pair;
use crate::role::Asked;
use crate::split::{Exchanged, Split, cut_of, held_of, split_of, swapped_of};
use design::Design;
use model::entry::Entry;
use std::alloc::{AllocError, Global};

/// What is claimed of the journals of two runs of a design: that two entries of the first one are a pair, and that the second one has
/// their order turned.
#[derive(Clone, Copy)]
pub struct ExchangeClaim<'a> {
    pub alloc: Global,
    pub design: &'a Design,
    pub journal: &'a [Entry],
    pub exchanged: &'a [Entry],
    pub pair: Pair,
}

impl<'a> ExchangeClaim<'a> {
    // The two entries in the first journal, if no change of the regions comes between them and they do there what the pair says.
    fn seen_pair(self) -> Result<Option<Split<'a>>, AllocError>
        ensures { IfOk result (λ seen. IfSome seen (λ s. IsSeenPair (design_of self.entry.design.now) self.entry.journal.now s.before.now s.segment.now s.one s.other self.entry.pair)) }
    {
        let split = match split_of(self.journal, self.pair) {
            Some(split) => split,
            None => return Ok(None),
        };
        let mut follower = Follower::start(self.alloc, self.design)?;
        if follower.sees(split, self.pair)? {
            Ok(Some(split))
        } else {
            Ok(None)
        }
    }

    // Whether the later entry is in the second run what is asked of it, and the earlier one comes behind it, or is left there.
    fn sees_exchanged(
        self,
        split: Split<'_>,
        exchanged: Exchanged<'_>,
        asked: Asked,
    ) -> Result<bool, AllocError>
        ensures { IfOk result (λ sees. IsTrue sees → SeesExchanged asked (design_of self.entry.design.now) split.entry.before.now exchanged.entry.needed.now exchanged.entry.other split.entry.one self.entry.pair) }
    {
        let mut follower = Follower::start(self.alloc, self.design)?;
        follower.sees_exchanged(split, exchanged, self.pair, asked)
    }

    /// Whether the two entries do what the pair says of them, and come the other way round in the second journal. In the first each is
    /// a turn of the process that does this at the site, or an update of its register, at this time, and no change of the regions comes
    /// between them. In the second there are so many entries in place of the earlier one, then one of the later one's process or the
    /// update, and then the earlier one. Fails where memory is refused.
    pub fn is_confirmed(self, needed: usize) -> Result<bool, AllocError>
        ensures { IfOk result (λ confirmed. IsTrue confirmed → HasBothOrders (design_of self.entry.design.now) self.entry.journal.now self.entry.exchanged.now self.entry.pair.site self.entry.pair.time self.entry.pair.first self.entry.pair.second) }
    {
        let Some(split) = self.seen_pair()? else {
            return Ok(false);
        };
        match swapped_of(self.exchanged, split, needed) {
            Some(swapped) => self.sees_exchanged(split, swapped, Asked::OfRole),
            None => Ok(false),
        }
    }

    /// Whether the two entries do what the pair says of them, the later one finishes that run, and a second one it finishes before the
    /// earlier one comes. In the second there are so many entries in place of the earlier one, and then, as the last, one that does
    /// what the pair says of the later one, behind which the earlier one is left. Fails where memory is refused.
    pub fn is_cut_off(self, needed: usize) -> Result<bool, AllocError>
        ensures { IfOk result (λ confirmed. IsTrue confirmed → HasBothOrders (design_of self.entry.design.now) self.entry.journal.now self.entry.exchanged.now self.entry.pair.site self.entry.pair.time self.entry.pair.first self.entry.pair.second) }
    {
        if !self.pair.second.finishes() {
            return Ok(false);
        }
        let Some(split) = self.seen_pair()? else {
            return Ok(false);
        };
        match cut_of(self.exchanged, split, needed) {
            Some(cut) => self.sees_exchanged(split, cut, Asked::InRole),
            None => Ok(false),
        }
    }

    // Whether the two entries do what the pair says where the first run ends, and the earlier one still comes in the second run.
    fn sees_held(self, held: Split<'_>) -> Result<bool, AllocError>
        ensures { IfOk result (λ sees. IsTrue sees → SeesHeld (design_of self.entry.design.now) held.entry.before.now held.entry.segment.now held.entry.one held.entry.other self.entry.pair) }
    {
        let mut follower = Follower::start(self.alloc, self.design)?;
        follower.sees_held(held, self.pair)
    }

    /// Whether the last entry of the first journal, which is the pair's earlier one, finishes that run, and comes later in the second
    /// one. There another entry, which does what the pair says of the later one, takes its place, and so many entries come between the
    /// two. The pair's later place isn't looked at: the first run doesn't get there. Fails where memory is refused.
    pub fn is_held_back(self, between: usize) -> Result<bool, AllocError>
        ensures { IfOk result (λ confirmed. IsTrue confirmed → HasBothOrders (design_of self.entry.design.now) self.entry.journal.now self.entry.exchanged.now self.entry.pair.site self.entry.pair.time self.entry.pair.first self.entry.pair.second) }
    {
        if !self.pair.first.finishes() {
            return Ok(false);
        }
        match held_of(self.journal, self.exchanged, self.pair.earlier, between) {
            Some(held) => self.sees_held(held),
            None => Ok(false),
        }
    }
}
