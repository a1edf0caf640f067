//! A journal, split at two of its entries, and that of a second run, split at theirs.
ghost use Rattle.std.specs.Prelude.{◌≡◌, ◌↔◌, IsTrue, IfSome};
ghost use Rattle.std.specs.List.{All};
ghost use Rattle.accesses.specs.Roles as roles;
ghost use Rattle.accesses.specs.ExchangedEntries.{IsPair, IsParted, IsSwapped, IsCutJournal, IsHeldJournal};

use crate::pair::Pair;
use model::entry::Entry;

/// The two entries of a pair, and a journal that is split at them: what stands before the one that comes first there, and what stands
/// from that on before the other one.
#[derive(Clone, Copy)]
pub(crate) struct Split<'j> {
    pub(crate) before: &'j [Entry],
    pub(crate) segment: &'j [Entry],
    pub(crate) one: Entry,
    pub(crate) other: Entry,
}

/// A second journal, split at its entry of the later one's role: what stands before it behind the same entries, and it.
#[derive(Clone, Copy)]
pub(crate) struct Exchanged<'j> {
    pub(crate) needed: &'j [Entry],
    pub(crate) other: Entry,
}

// A second journal, split behind the same entries, and behind some more.
#[derive(Clone, Copy)]
struct Parted<'j> {
    middle: &'j [Entry],
    behind: &'j [Entry],
}

// Whether an entry is a turn or an update, and no change of the regions.
fn is_event(entry: Entry) -> bool
    ensures { IsTrue result → roles.IsEvent entry }
{
    match entry {
        Entry::Turn(_) => true,
        Entry::Update(_) => true,
        _ => false,
    }
}

// Whether no change of the regions is among entries.
fn are_events(entries: &[Entry]) -> bool
    ensures { IsTrue result → All roles.IsEvent entries.now }
{
    for entry in entries {
        if !is_event(*entry) {
            return false;
        }
    }
    true
}

/// The two entries of a pair, where the journal has them and no change of the regions comes between them.
pub(crate) fn split_of<'j>(journal: &'j [Entry], pair: Pair) -> Option<Split<'j>>
    ensures { IfSome result (λ s. IsPair journal.entry.now s.before.now s.segment.now s.one s.other) }
{
    if pair.earlier >= pair.later || pair.later >= journal.len() {
        return None;
    }
    let (before, rest) = journal.split_at(pair.earlier);
    let (segment, behind) = rest.split_at(pair.later - pair.earlier);
    if !are_events(segment) {
        return None;
    }
    let one = match segment.split_first() {
        Some((one, _)) => *one,
        None => return None,
    };
    match behind.split_first() {
        Some((other, _)) => Some(Split {
            before,
            segment,
            one,
            other: *other,
        }),
        None => None,
    }
}

fn is_same(one: Entry, other: Entry) -> bool
    ensures { IsTrue result ↔ (one ≡ other) }
{
    one == other
}

/// Whether two journals have the same entries in the same order.
pub fn are_same(one: &[Entry], other: &[Entry]) -> bool
    ensures { IsTrue result ↔ (one.now ≡ other.now) }
{
    if one.len() != other.len() {
        return false;
    }
    for place in 0..one.len() {
        if !is_same(one[place], other[place]) {
            return false;
        }
    }
    true
}

// Splits a second journal behind the same entries, and behind so many more without a change of the regions.
fn parted_of<'j>(exchanged: &'j [Entry], before: &[Entry], count: usize) -> Option<Parted<'j>>
    ensures { IfSome result (λ p. IsParted exchanged.entry.now before.now p.middle.now p.behind.now) }
{
    if before.len() > exchanged.len() {
        return None;
    }
    let (same, rest) = exchanged.split_at(before.len());
    if count > rest.len() || !are_same(same, before) {
        return None;
    }
    let (middle, behind) = rest.split_at(count);
    if !are_events(middle) {
        return None;
    }
    Some(Parted { middle, behind })
}

/// A second journal, split where it has the earlier entry of a first one right behind another one, and so many entries, with no
/// change of the regions, before that.
pub(crate) fn swapped_of<'j>(
    exchanged: &'j [Entry],
    split: Split<'_>,
    needed: usize,
) -> Option<Exchanged<'j>>
    ensures { IfSome result (λ s. IsSwapped exchanged.entry.now split.entry.before.now s.needed.now s.other split.entry.one) }
{
    let parted = match parted_of(exchanged, split.before, needed) {
        Some(parted) => parted,
        None => return None,
    };
    match parted.behind {
        [other, one, ..] if is_same(*one, split.one) => Some(Exchanged {
            needed: parted.middle,
            other: *other,
        }),
        _ => None,
    }
}

/// A second journal, split at its last entry, where it has so many entries, with no change of the regions, before that and behind
/// those that come before the earlier entry of a first one.
pub(crate) fn cut_of<'j>(
    exchanged: &'j [Entry],
    split: Split<'_>,
    needed: usize,
) -> Option<Exchanged<'j>>
    ensures { IfSome result (λ s. IsCutJournal exchanged.entry.now split.entry.before.now s.needed.now s.other) }
{
    let parted = match parted_of(exchanged, split.before, needed) {
        Some(parted) => parted,
        None => return None,
    };
    match parted.behind {
        [other] => Some(Exchanged {
            needed: parted.middle,
            other: *other,
        }),
        _ => None,
    }
}

/// A second journal, split where the last entry of a first one, which has this place there, comes again behind another one and so many
/// entries, with no change of the regions.
pub(crate) fn held_of<'j>(
    journal: &'j [Entry],
    exchanged: &'j [Entry],
    place: usize,
    between: usize,
) -> Option<Split<'j>>
    ensures { IfSome result (λ h. IsHeldJournal journal.entry.now exchanged.entry.now h.before.now h.segment.now h.one h.other) }
{
    if place >= journal.len() || between >= exchanged.len() {
        return None;
    }
    let (before, last) = journal.split_at(place);
    let one = match last {
        [one] => *one,
        _ => return None,
    };
    let parted = match parted_of(exchanged, before, between + 1) {
        Some(parted) => parted,
        None => return None,
    };
    let other = match parted.middle {
        [other, ..] => *other,
        [] => return None,
    };
    match parted.behind {
        [again, ..] if is_same(*again, one) => Some(Split {
            before,
            segment: parted.middle,
            one,
            other,
        }),
        _ => None,
    }
}
