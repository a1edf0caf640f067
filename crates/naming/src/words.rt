//! The words in which a race is told.
ghost use Rattle.std.specs.Prelude.{◌≡◌};
ghost use Rattle.accesses.specs.declared.role.Site.TheVariants as sites;
ghost use Rattle.naming.specs.RaceWords.{cut_of, access_word, IsSiteTold};

use accesses::Does;
use conflicts::{Bound, RaceBounds};
use design::{Design, RegId};
use verdict::{ListCut, SiteDescription};

/// The most entries between two changes of the regions that are compared with one another.
const MOST_STEPS: u64 = 1024;

/// By what a list of races was cut, with the bound that was met.
pub(crate) fn cut_of(race_bounds: RaceBounds, bound: Bound) -> ListCut
    ensures { result ≡ cut_of race_bounds bound }
{
    match bound {
        Bound::Races => ListCut::Races(race_bounds.races as u64),
        Bound::Pairs => ListCut::Runs(race_bounds.pairs as u64),
        Bound::Entries => ListCut::Entries(race_bounds.entries),
        Bound::Steps => ListCut::Steps(MOST_STEPS),
        Bound::Memory => ListCut::Memory,
    }
}

/// What an entry does, in words.
pub(crate) fn word_of(does: Does) -> &'static str
    ensures { result.now ≡ access_word does }
{
    match does {
        Does::Writes => "writes it",
        Does::Assigns => "assigns it",
        Does::Updates => "updates it",
        Does::Reads => "reads it",
        Does::Waits => "waits for it",
        Does::Prints => "prints",
        Does::Strobes => "strobes",
        Does::Finishes => "finishes the run",
        Does::Runs => "takes a turn",
        Does::Schedules => "schedules updates",
    }
}

/// For what two entries race, with a register by its name.
pub(crate) fn site_of<'a>(design: &'a Design, site: accesses::Site) -> SiteDescription<'a>
    ensures { IsSiteTold design.entry.now site result }
{
    match site {
        accesses::Site::Register(register) => named(design, register),
        accesses::Site::Printing => SiteDescription::Printing,
        accesses::Site::Strobing => SiteDescription::Strobing,
        accesses::Site::Finishing => SiteDescription::Finishing,
        accesses::Site::Updating => SiteDescription::Updating,
    }
}

/// A register by its name, or by `?` where the design has none with this number.
fn named(design: &Design, register: RegId) -> SiteDescription<'_>
    ensures { IsSiteTold design.entry.now (sites.Register register) result }
{
    let _ = design.registers();
    if register < design.registers() {
        SiteDescription::Register(design.name(register))
    } else {
        SiteDescription::Register("?")
    }
}
