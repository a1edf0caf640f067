//! The races that part texts, from where their runs part.
ghost use Rattle.std.specs.Prelude.{◌≡◌, ◌<◌, ◌≤◌, ◌⊎◌, ◌∷◌, ◌++◌, [], false, length, IfOk, IfSome, IsTrue, None};
ghost use Rattle.std.specs.List.{All};
ghost use Rattle.sharing.specs.Parts.{Extends};
ghost use Rattle.causes.specs.declared.parting_race.PartingRace.{PartingRace};
ghost use Rattle.causes.specs.Causes.{AddsCauses, AreCauses, AreNewBeside, HasAnswer, IsNewCause, IsShownCause, IsStill, numbered_causes};
ghost use Rattle.conflicts.specs.RunEndings.{HasTimeLimit};
ghost use Rattle.races.specs.declared.told.Found.{Found};
ghost use Rattle.model.specs.declared.end.Limits.{Limits};
ghost use Rattle.design.specs.Compiled.{Compiled};

use crate::hybrid::{HybridSetting, Making};
use crate::parting::find_cause;
use crate::parting_race::PartingRace;
use accesses::Pair;
use conflicts::{Bound, RaceBounds};
use design::Design;
use explore::Shown;
use model::end::{End, Limits};
use model::entry::Entry;
use progress::Progress;
use races::{Found, Race, is_line_order, is_of, is_told, numbers_of};
use std::alloc::{AllocError, Global};

// How many entries a run may take more than twice those of the longer of two journals.
const MORE_ENTRIES: u64 = 1_000;

/// A search for the races that part texts: its design, limits and bounds, and the races that were found before it.
#[derive(Clone, Copy)]
pub struct CauseSearch<'a> {
    pub alloc: Global,
    pub design: &'a Design,
    pub limits: Limits,
    pub bounds: RaceBounds,
    pub found: &'a Found,
}

/// The races that part texts, so far as they were looked for: the texts, by their numbers from 1, for which no pair of entries was found;
/// how many runs may still be made for them, and how many entries these may take; and by what the list was cut, the first that was met.
#[derive(Drop)]
pub struct Causes {
    pub causes: Vec<PartingRace>,
    pub unnamed: Vec<usize>,
    pub runs: usize,
    pub entries: u64,
    pub cut: Option<Bound>,
}

// How many entries a run takes at most that is made for two journals: twice as many as the longer one has, and some more. One that takes
// more seems to come to no end, and others are made in its place.
fn most_entries(one: &[Entry], other: &[Entry]) -> u64 {
    let longer = one.len().max(other.len()) as u64;
    longer.saturating_mul(2).saturating_add(MORE_ENTRIES)
}

// The pair that a race is of, without its places.
fn pair_of(race: &Race) -> Pair
    ensures site { result.site ≡ race.now.site }
    ensures first { result.first ≡ race.now.first }
    ensures second { result.second ≡ race.now.second }
{
    Pair {
        site: race.site,
        time: race.time,
        first: race.first,
        second: race.second,
        earlier: 0,
        later: 0,
    }
}

// Whether a race of a pair's site and processes is among those that part texts.
fn is_among(causes: &[PartingRace], pair: Pair) -> bool
    ensures new { result ≡ false → All (IsNewCause pair) causes.now }
    ensures some { IsTrue result → 0 < length causes.now }
{
    for cause in causes {
        if is_of(&cause.race, pair) {
            return true;
        }
    }
    false
}

/// How many of some races have a number when they are told.
pub fn numbered_count(causes: &[PartingRace]) -> usize
    ensures value { result ≡ length (numbered_causes causes.now) }
    ensures few { result ≤ length causes.now }
{
    let mut count: usize = 0;
    for place in 0..causes.len() {
        count += numbers_of(&causes[place].race);
    }
    count
}

// Whether there is no room for a race beside others, where so many may have a number.
fn is_full(causes: &[PartingRace], race: &Race, most: usize) -> bool
    requires few { length (numbered_causes causes.now) ≤ most }
    ensures full { IsTrue result → length (numbered_causes causes.now) ≡ most }
    ensures room { result ≡ false → (cause : PartingRace) → cause.race ≡ race.now → length (numbered_causes (causes.now ++ cause ∷ [])) ≤ most }
{
    if is_line_order(race.site) {
        return false;
    }
    numbered_count(causes) >= most
}

// Whether the text and the end of a run are those of a text.
fn is_text_of(text: &Shown<Entry, End>, race: &Race) -> bool {
    race.exchanged.end == text.end && race.exchanged.lines.as_bytes() == text.text.as_slice()
}

// Whether the second run of a race has a text and its end.
fn is_shown_by(races: &[Race], text: &Shown<Entry, End>) -> bool
    ensures { IsTrue result → 0 < length races.now }
{
    for race in races {
        if is_text_of(text, race) {
            return true;
        }
    }
    false
}

impl Causes {
    /// None were looked for.
    pub fn new(alloc: Global, bounds: RaceBounds) -> Causes
        ensures none { result.causes.items ≡ [] }
        ensures are { (code : Compiled) (limits : Limits) (found : Found) → AreCauses code limits bounds found result }
    {
        Causes {
            causes: Vec::new(alloc),
            unnamed: Vec::new(alloc),
            runs: bounds.pairs,
            entries: bounds.entries,
            cut: None,
        }
    }

    // Looks for the race that parts the texts of two journals.
    fn look<P: Progress>(
        &mut self,
        search: CauseSearch<'_>,
        one: &[Entry],
        other: &[Entry],
        progress: &P,
    ) -> Result<Option<PartingRace>, AllocError>
        requires until { HasTimeLimit search.limits }
        ensures shown { IfOk result (λ cause. IfSome cause (IsShownCause search.entry.design.now search.entry.limits)) }
        ensures still { IsStill self.old self.new }
    {
        let setting = HybridSetting {
            search,
            most_entries: most_entries(one, other),
        };
        let mut making = Making {
            runs: self.runs,
            entries: self.entries,
            progress,
        };
        let cause = find_cause(setting, one, other, &mut making);
        self.runs = making.runs;
        self.entries = making.entries;
        cause
    }

    // Keeps a race, if there is room for it. One for the order of lines takes none.
    fn keep(&mut self, search: CauseSearch<'_>, cause: PartingRace)
        requires are { AreCauses search.design.now search.limits search.bounds search.found.now self.old }
        requires whole { self.old.cut ≡ None }
        requires shown { IsShownCause search.design.now search.limits cause }
        requires beside { AreNewBeside search.found.now.races.items self.old.causes.items cause }
        ensures are { AreCauses search.entry.design.now search.entry.limits search.entry.bounds search.entry.found.now self.new }
        ensures more { Extends self.old.causes.items self.new.causes.items }
        ensures answered { HasAnswer search.entry.found.now self.new }
    {
        if is_full(self.causes.as_slice(), &cause.race, search.bounds.races) {
            self.cut = Some(Bound::Races);
            return;
        }
        if self.causes.push(cause).is_err() {
            self.cut = Some(Bound::Memory);
        }
    }

    // Keeps a race that was found, unless one of its site and processes was found before.
    fn add(&mut self, search: CauseSearch<'_>, cause: PartingRace)
        requires are { AreCauses search.design.now search.limits search.bounds search.found.now self.old }
        requires whole { self.old.cut ≡ None }
        requires shown { IsShownCause search.design.now search.limits cause }
        ensures are { AreCauses search.entry.design.now search.entry.limits search.entry.bounds search.entry.found.now self.new }
        ensures more { Extends self.old.causes.items self.new.causes.items }
        ensures answered { HasAnswer search.entry.found.now self.new }
    {
        let pair = pair_of(&cause.race);
        if is_told(search.found.races.as_slice(), pair) {
            return;
        }
        if is_among(self.causes.as_slice(), pair) {
            return;
        }
        self.keep(search, cause);
    }

    // Notes that no pair was found for a text, or which bound was met.
    fn leave(&mut self, search: CauseSearch<'_>, place: usize)
        requires are { AreCauses search.design.now search.limits search.bounds search.found.now self.old }
        requires whole { self.old.cut ≡ None }
        ensures are { AreCauses search.entry.design.now search.entry.limits search.entry.bounds search.entry.found.now self.new }
        ensures same { self.new.causes ≡ self.old.causes }
        ensures answered { HasAnswer search.entry.found.now self.new }
    {
        if self.runs == 0 {
            self.cut = Some(Bound::Pairs);
        } else if self.entries == 0 {
            self.cut = Some(Bound::Entries);
        } else if self.unnamed.push(place.saturating_add(1)).is_err() {
            self.cut = Some(Bound::Memory);
        }
    }

    // Notes what was found for a text.
    fn note(
        &mut self,
        search: CauseSearch<'_>,
        place: usize,
        cause: Result<Option<PartingRace>, AllocError>,
    )
        requires are { AreCauses search.design.now search.limits search.bounds search.found.now self.old }
        requires whole { self.old.cut ≡ None }
        requires shown { IfOk cause (λ cause. IfSome cause (IsShownCause search.design.now search.limits)) }
        ensures are { AreCauses search.entry.design.now search.entry.limits search.entry.bounds search.entry.found.now self.new }
        ensures more { Extends self.old.causes.items self.new.causes.items }
        ensures answered { HasAnswer search.entry.found.now self.new }
    {
        match cause {
            Ok(Some(cause)) => self.add(search, cause),
            Ok(None) => self.leave(search, place),
            Err(_) => {
                self.cut = Some(Bound::Memory);
            }
        }
    }

    // Looks for the race that parts the first text and another one, unless the second run of a race has that.
    fn explain_text<P: Progress>(
        &mut self,
        search: CauseSearch<'_>,
        one: &[Entry],
        other: &Shown<Entry, End>,
        place: usize,
        progress: &P,
    )
        requires until { HasTimeLimit search.limits }
        requires are { AreCauses search.design.now search.limits search.bounds search.found.now self.old }
        ensures more { AddsCauses search.entry self.old self.new }
        ensures answered { HasAnswer search.entry.found.now self.new }
    {
        if self.cut.is_some() {
            return;
        }
        if is_shown_by(search.found.races.as_slice(), other) {
            return;
        }
        let cause = self.look(search, one, other.moves.as_slice(), progress);
        self.note(search, place, cause);
    }

    /// Looks for the races that part the first of some texts and those from a place on, but for those that the second run of a race has
    /// that was found before. Each is told once for each register, or for printing, strobing or finishing the run, and for each two
    /// processes, and not if such a one was found before. It ends where a bound is met or memory is refused.
    pub fn explain<P: Progress>(
        &mut self,
        search: CauseSearch<'_>,
        shown: &[Shown<Entry, End>],
        from: usize,
        progress: &P,
    )
        requires until { HasTimeLimit search.limits }
        requires are { AreCauses search.design.now search.limits search.bounds search.found.now self.old }
        // Both runs of each race are lawful and in time, and its two processes come there in both orders; no two races are for one site and
        // of the same two processes, those found before among them, and the list is cut by a bound only where it is met.
        ensures are { AreCauses search.entry.design.now search.entry.limits search.entry.bounds search.entry.found.now self.new }
        // Those that were there stay.
        ensures more { Extends self.old.causes.items self.new.causes.items }
        // Where there are texts from that place on, a race was found, or a text is left for which none was, or the list was cut.
        ensures answered { (from < length shown.now) ⊎ HasAnswer search.entry.found.now self.old → HasAnswer search.entry.found.now self.new }
    {
        let Some(first) = shown.first() else {
            return;
        };
        for place in from..shown.len() {
            self.explain_text(
                search,
                first.moves.as_slice(),
                &shown[place],
                place,
                progress,
            );
        }
    }
}
