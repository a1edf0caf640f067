//! What is told: the races of a design, each with a run that shows it.

ghost use Rattle.std.specs.Prelude.{◌≡◌, if◌then◌else◌};
ghost use Rattle.races.specs.LineOrders.{is_line_order};

use crate::unseen::UnseenDifference;
use accesses::{Role, Site};
use conflicts::Bound;
use runs::run::RunRecord;

/// A race: what for, at which time, who comes first in the first run and who second, and a run in which they come the other
/// way round, which is apart from the first one.
#[derive(Drop)]
pub struct Race {
    pub site: Site,
    pub time: u64,
    pub first: Role,
    pub second: Role,
    pub exchanged: RunRecord,
}

/// What a search for races has found: the first run, the races, how many second runs were made, and by what the list of races
/// was cut, the first that was met. None where each conflict that was found was tried. And the first difference that was found of a second
/// run which prints what the first run prints, and ends like it.
#[derive(Drop)]
pub struct Found {
    pub original: RunRecord,
    pub races: Vec<Race>,
    pub tried: usize,
    pub cut: Option<Bound>,
    pub unseen: Option<UnseenDifference>,
}

/// Whether a site is the order of lines, the races for which are told in one line for each time.
pub fn is_line_order(site: Site) -> bool
    ensures { result ≡ is_line_order site }
{
    match site {
        Site::Printing => true,
        Site::Register(_) => false,
        Site::Strobing => false,
        Site::Finishing => false,
        Site::Updating => false,
    }
}

/// How many numbers a race has when it is told: one, or none where it is for the order of lines.
pub fn numbers_of(race: &Race) -> usize
    ensures { result ≡ (if is_line_order race.now.site then 0 else 1) }
{
    if is_line_order(race.site) { 0 } else { 1 }
}
