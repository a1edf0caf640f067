//! The first entry at which two journals part.

ghost use Rattle.std.specs.Prelude.{◌≡◌, ◌↔◌, IsTrue};
ghost use Rattle.differences.specs.Parting.{PartBehind};

use model::entry::Entry;

// Whether these are the same entry.
fn is_same(one: Entry, other: Entry) -> bool
    ensures { IsTrue result ↔ (one ≡ other) }
{
    one == other
}

/// How many entries are the same in two journals, from the first on.
pub(crate) fn common_length(first: &[Entry], second: &[Entry]) -> usize
    ensures { PartBehind first.now second.now result }
{
    let least = first.len().min(second.len());
    for place in 0..least {
        if !is_same(first[place], second[place]) {
            return place;
        }
    }
    least
}
