//! Where two runs part, and the race that parts what they show.
ghost use Rattle.std.specs.Prelude.{◌≡◌, IfOk, IfSome, IsTrue, None};
ghost use Rattle.design.specs.Compiled.{Compiled};
ghost use Rattle.model.specs.declared.end.Limits.{Limits};
ghost use Rattle.runs.specs.Compared.{AreDifferentRuns, WantsNoMemory};
ghost use Rattle.runs.specs.RunRecords.{IsRun};
ghost use Rattle.causes.specs.Causes.{IsCauseBehind, IsPairOf, IsShownCause, PartsRun};

use crate::causes::CauseSearch;
use crate::hybrid::{HybridSetting, Lead, Making, TracedRun, run_on, traced};
use crate::parting_race::PartingRace;
use accesses::{Pair, are_same};
use conflicts::{
    Conflict, Conflicts, RaceBounds, RunRecorder, has_both_orders, is_order, record_two,
};
use model::entry::Entry;
use progress::Progress;
use races::Race;
use runs::compared::{are_apart, is_same, wants_memory};
use runs::run::RunRecord;
use std::alloc::AllocError;

// How often a run that shows the same may take another one's place, and how often places are halved.
const MOST_ROUNDS: usize = 64;

// How many conflicts of two entries are kept.
const PAIR_BOUNDS: RaceBounds = RaceBounds {
    pairs: 16,
    races: 16,
    entries: 0,
};

// Two runs: what the first one shows, the journal of the other one, and a run that shows the same as the first, which is followed where it is left.
#[derive(Clone, Copy)]
struct PartedRuns<'a> {
    setting: HybridSetting<'a>,
    first: &'a RunRecord,
    other: &'a [Entry],
    along: &'a TracedRun,
}

// A run that takes the entries of a journal before a place and some behind them: whether it shows the same as the first one up to the place
// that is sought.
#[derive(Clone, Copy)]
struct Sought<'a> {
    journal: &'a [Entry],
    behind: &'a [Entry],
    shows_same: bool,
}

// An entry that is moved in a journal, from where it stands there to a place before that.
#[derive(Clone, Copy)]
struct Moved<'a> {
    journal: &'a [Entry],
    entry: Entry,
    place: usize,
}

// How a round ends: with a cause, or with a run that shows the same and takes more of the other journal's first entries, or with neither.
#[derive(Drop)]
struct RoundEnd {
    cause: Option<PartingRace>,
    further: Option<TracedRun>,
}

// The round ends with neither.
fn nothing() -> RoundEnd
    ensures { result.cause ≡ None }
{
    RoundEnd {
        cause: None,
        further: None,
    }
}

// How many first entries two journals have in common.
fn shared_length(one: &[Entry], other: &[Entry]) -> usize {
    for place in 0..one.len().min(other.len()) {
        if one[place] != other[place] {
            return place;
        }
    }
    one.len().min(other.len())
}

// The place of an entry in a journal from a place on, or the journal's end.
fn place_of(journal: &[Entry], from: usize, entry: Entry) -> usize {
    for place in from..journal.len() {
        if journal[place] == entry {
            return place;
        }
    }
    journal.len()
}

// The middle between two places.
fn middle(low: usize, high: usize) -> usize {
    low.saturating_add(high.saturating_sub(low) / 2)
}

impl<'a> PartedRuns<'a> {
    // A run that is led so, and then goes along.
    fn made<P: Progress>(
        self,
        lead: Lead<'_>,
        making: &mut Making<'_, P>,
    ) -> Result<Option<RunRecord>, AllocError>
        ensures { IfOk result (λ made. IfSome made (IsRun self.entry.setting.search.design.now self.entry.setting.search.limits)) }
    {
        let made = run_on(self.setting, lead, self.along.transitions(), making)?;
        if is_refused(&made) {
            return Err(AllocError);
        }
        Ok(made)
    }

    // Whether such a run shows the same as the first one. None where it can't be made within the bounds.
    fn is_alike<P: Progress>(
        self,
        lead: Lead<'_>,
        making: &mut Making<'_, P>,
    ) -> Result<Option<bool>, AllocError> {
        match self.made(lead, making)? {
            Some(run) => Ok(Some(is_same(self.first, &run))),
            None => Ok(if making.is_met() { None } else { Some(false) }),
        }
    }

    // A place such that the run which is sought shows the same as the first one, or another thing, as it is asked, and one place later it
    // doesn't. It does at the one of these places and doesn't at the other. None where the bounds are met.
    fn last_place<P: Progress>(
        self,
        sought: Sought<'_>,
        places: (usize, usize),
        making: &mut Making<'_, P>,
    ) -> Result<Option<usize>, AllocError> {
        let (mut low, mut high) = places;
        for _ in 0..MOST_ROUNDS {
            if low.saturating_add(1) >= high {
                return Ok(Some(low));
            }
            let place = middle(low, high);
            let lead = Lead::new(sought.journal, place, sought.behind);
            match self.is_alike(lead, making)? {
                Some(is_alike) if is_alike == sought.shows_same => low = place,
                Some(_) => high = place,
                None => return Ok(None),
            }
        }
        Ok(Some(low))
    }

    // The cause that two runs show, the first of which shows the same as the first one, and which have two neighbours from a place on in both
    // orders.
    fn cause_of(
        self,
        original: RunRecord,
        exchanged: RunRecord,
        place: usize,
    ) -> Result<Option<PartingRace>, AllocError>
        requires original { IsRun self.setting.search.design.now self.setting.search.limits original }
        requires exchanged { IsRun self.setting.search.design.now self.setting.search.limits exchanged }
        ensures { IfOk result (λ cause. IfSome cause (PartsRun self.entry.setting.search.design.now self.entry.setting.search.limits self.entry.first.now)) }
    {
        if !is_same(self.first, &original) {
            return Ok(None);
        }
        if !are_second(&original, &exchanged) {
            return Ok(None);
        }
        match confirmed(self.setting, &original, &exchanged, place) {
            Ok(Some(pair)) => Ok(Some(cause_by(pair, original, exchanged))),
            Ok(None) => Ok(None),
            Err(error) => Err(error),
        }
    }

    // The cause that an entry shows which comes right behind the one at a place of a journal, and right before it. Where that one is the last, as it
    // finishes the run, the entry doesn't come behind it.
    fn cause_at<P: Progress>(
        self,
        moved: Moved<'_>,
        place: usize,
        making: &mut Making<'_, P>,
    ) -> Result<Option<PartingRace>, AllocError>
        ensures { IfOk result (λ cause. IfSome cause (PartsRun self.entry.setting.search.design.now self.entry.setting.search.limits self.entry.first.now)) }
    {
        let next = place.saturating_add(1);
        let entries = [moved.entry];
        let behind: &[Entry] = if next < moved.journal.len() {
            &entries
        } else {
            &[]
        };
        let Some(original) = self.made(Lead::new(moved.journal, next, behind), making)? else {
            return Ok(None);
        };
        match self.made(Lead::new(moved.journal, place, &entries), making) {
            Ok(Some(exchanged)) => self.cause_of(original, exchanged, place),
            Ok(None) => Ok(None),
            Err(error) => Err(error),
        }
    }

    // Such a run, if it can be made and shows the same as the first one.
    fn same_run<P: Progress>(
        self,
        lead: Lead<'_>,
        making: &mut Making<'_, P>,
    ) -> Result<Option<RunRecord>, AllocError> {
        match self.made(lead, making)? {
            Some(run) => Ok(if is_same(self.first, &run) {
                Some(run)
            } else {
                None
            }),
            None => Ok(None),
        }
    }

    // The round ends with a run that shows the same.
    fn further<P: Progress>(
        self,
        run: &RunRecord,
        making: &mut Making<'_, P>,
    ) -> Result<RoundEnd, AllocError>
        ensures { IfOk result (λ end. IfSome end.cause (PartsRun self.entry.setting.search.design.now self.entry.setting.search.limits self.entry.first.now)) }
    {
        let further = traced(self.setting, run.journal.as_slice(), making)?;
        Ok(RoundEnd {
            cause: None,
            further,
        })
    }

    // Moves an entry from its place in a journal towards another one, until it makes the difference.
    fn moved_back<P: Progress>(
        self,
        moved: Moved<'_>,
        making: &mut Making<'_, P>,
    ) -> Result<RoundEnd, AllocError>
        ensures { IfOk result (λ end. IfSome end.cause (PartsRun self.entry.setting.search.design.now self.entry.setting.search.limits self.entry.first.now)) }
    {
        let entries = [moved.entry];
        let sought = Sought {
            journal: moved.journal,
            behind: &entries,
            shows_same: false,
        };
        let last = place_of(moved.journal, moved.place, moved.entry);
        let Some(low) = self.last_place(sought, (moved.place, last), making)? else {
            return Ok(nothing());
        };
        let cause = self.cause_at(moved, low, making)?;
        Ok(RoundEnd {
            cause,
            further: None,
        })
    }

    // Takes an entry at a place of a journal that shows the same as the first run, and goes along its transitions. Where that shows the
    // same too, it is what the next round goes on with, and else, also where that comes to no end, the entry is moved from its place in the
    // journal towards this one, until it makes the difference.
    fn turned<P: Progress>(
        self,
        moved: Moved<'_>,
        making: &mut Making<'_, P>,
    ) -> Result<RoundEnd, AllocError>
        ensures { IfOk result (λ end. IfSome end.cause (PartsRun self.entry.setting.search.design.now self.entry.setting.search.limits self.entry.first.now)) }
    {
        let entries = [moved.entry];
        let lead = Lead::new(moved.journal, moved.place, &entries);
        match self.same_run(lead, making)? {
            Some(run) => self.further(&run, making),
            None => self.moved_back(moved, making),
        }
    }

    // The run that takes the other one's entries before a place, and then goes along, with its transitions.
    fn base<P: Progress>(
        self,
        place: usize,
        making: &mut Making<'_, P>,
    ) -> Result<Option<TracedRun>, AllocError> {
        match self.made(Lead::new(self.other, place, &[]), making)? {
            Some(led) => traced(self.setting, led.journal.as_slice(), making),
            None => Ok(None),
        }
    }

    // Finds the pair of entries of which this one, which the other run takes at a place, makes the difference in a run that shows the same.
    fn turned_along<P: Progress>(
        self,
        base: &TracedRun,
        entry: Entry,
        place: usize,
        making: &mut Making<'_, P>,
    ) -> Result<RoundEnd, AllocError>
        ensures { IfOk result (λ end. IfSome end.cause (PartsRun self.entry.setting.search.design.now self.entry.setting.search.limits self.entry.first.now)) }
    {
        let along = PartedRuns {
            setting: self.setting,
            first: self.first,
            other: self.other,
            along: base,
        };
        let moved = Moved {
            journal: base.run.journal.as_slice(),
            entry,
            place,
        };
        along.turned(moved, making)
    }

    // Finds the choice of the other run that makes the difference, and then the pair of entries.
    fn round<P: Progress>(
        self,
        from: usize,
        making: &mut Making<'_, P>,
    ) -> Result<RoundEnd, AllocError>
        ensures { IfOk result (λ end. IfSome end.cause (PartsRun self.entry.setting.search.design.now self.entry.setting.search.limits self.entry.first.now)) }
    {
        let sought = Sought {
            journal: self.other,
            behind: &[],
            shows_same: true,
        };
        let Some(place) = self.last_place(sought, (from, self.other.len()), making)? else {
            return Ok(nothing());
        };
        let Some(entry) = self.other.get(place).copied() else {
            return Ok(nothing());
        };
        match self.base(place, making)? {
            Some(base) => self.turned_along(&base, entry, place, making),
            None => Ok(nothing()),
        }
    }
}

// Whether a run was made that wants memory.
fn is_refused(made: &Option<RunRecord>) -> bool {
    match made {
        Some(run) => wants_memory(run),
        None => false,
    }
}

// Whether a second run is apart from a first one, and neither wants memory.
fn are_second(original: &RunRecord, exchanged: &RunRecord) -> bool
    ensures remembered { IsTrue result → WantsNoMemory original.now × WantsNoMemory exchanged.now }
    ensures apart { IsTrue result → AreDifferentRuns original.now exchanged.now }
{
    if wants_memory(original) {
        return false;
    }
    if wants_memory(exchanged) {
        return false;
    }
    are_apart(original, exchanged)
}

// The cause that a pair is, which two runs have in both orders.
fn cause_by(pair: Pair, original: RunRecord, exchanged: RunRecord) -> PartingRace
    requires remembered { WantsNoMemory original × WantsNoMemory exchanged }
    requires apart { AreDifferentRuns original exchanged }
    ensures original { result.original ≡ original }
    ensures shown { (code : Compiled) (limits : Limits) → IsRun code limits original → IsRun code limits exchanged → IsPairOf code original exchanged pair → IsShownCause code limits result }
{
    PartingRace {
        original,
        race: Race {
            site: pair.site,
            time: pair.time,
            first: pair.first,
            second: pair.second,
            exchanged,
        },
    }
}

// Whether a conflict is for an order of lines or of updates, or isn't, as it is asked, and two runs have its entries in both orders.
fn is_shown(
    setting: HybridSetting<'_>,
    conflict: &Conflict,
    original: &RunRecord,
    exchanged: &RunRecord,
    order: bool,
) -> Result<bool, AllocError>
    ensures { IfOk result (λ shown. IsTrue shown → IsPairOf setting.entry.search.design.now original.now exchanged.now conflict.now.pair) }
{
    if is_order(conflict.pair.site) != order {
        return Ok(false);
    }
    let CauseSearch { alloc, design, .. } = setting.search;
    has_both_orders(alloc, design, conflict, original, exchanged)
}

// The pair of the first of such conflicts.
fn first_of(
    setting: HybridSetting<'_>,
    conflicts: &Conflicts,
    original: &RunRecord,
    exchanged: &RunRecord,
    order: bool,
) -> Result<Option<Pair>, AllocError>
    ensures { IfOk result (λ found. IfSome found (IsPairOf setting.entry.search.design.now original.now exchanged.now)) }
{
    for round in conflicts.rounds.iter() {
        for conflict in round.iter() {
            if is_shown(setting, conflict, original, exchanged, order)? {
                return Ok(Some(conflict.pair));
            }
        }
    }
    Ok(None)
}

// The pair of conflicts that were recorded, if they could be: for a register or the end of the run, if there is one, and else for an order of
// lines or of updates.
fn recorded_pair(
    setting: HybridSetting<'_>,
    recorded: Result<(), AllocError>,
    conflicts: &Conflicts,
    original: &RunRecord,
    exchanged: &RunRecord,
) -> Result<Option<Pair>, AllocError>
    ensures { IfOk result (λ found. IfSome found (IsPairOf setting.entry.search.design.now original.now exchanged.now)) }
{
    recorded?;
    match first_of(setting, conflicts, original, exchanged, false)? {
        Some(pair) => Ok(Some(pair)),
        None => first_of(setting, conflicts, original, exchanged, true),
    }
}

// The pair of two neighbours of a first run, from a place on, that a second run has in the other order: for a register or the end of the
// run where they conflict there, and else for an order of lines or of updates.
fn confirmed(
    setting: HybridSetting<'_>,
    original: &RunRecord,
    exchanged: &RunRecord,
    place: usize,
) -> Result<Option<Pair>, AllocError>
    ensures { IfOk result (λ found. IfSome found (IsPairOf setting.entry.search.design.now original.now exchanged.now)) }
{
    let CauseSearch { alloc, design, .. } = setting.search;
    let mut run = setting.start()?;
    let mut recorder = RunRecorder::start(alloc, design, PAIR_BOUNDS);
    let journal = original.journal.as_slice();
    let recorded = record_two(alloc, &mut run, &mut recorder, PAIR_BOUNDS, journal, place);
    let pair = recorded_pair(setting, recorded, &recorder.conflicts, original, exchanged);
    drop(recorder);
    pair
}

// One round, along a run that shows the same, if there is one already, or else along the first one.
fn round_along<P: Progress>(
    begun: PartedRuns<'_>,
    along: &Option<TracedRun>,
    from: usize,
    making: &mut Making<'_, P>,
) -> Result<RoundEnd, AllocError>
    ensures { IfOk result (λ end. IfSome end.cause (PartsRun begun.entry.setting.search.design.now begun.entry.setting.search.limits begun.entry.first.now)) }
{
    let Some(along) = along else {
        return begun.round(from, making);
    };
    let parting = PartedRuns {
        setting: begun.setting,
        first: begun.first,
        other: begun.other,
        along,
    };
    parting.round(from, making)
}

// Goes on in rounds, from a run that shows the same as the first one and takes so many first entries of the other journal.
fn in_rounds<P: Progress>(
    begun: PartedRuns<'_>,
    from: usize,
    making: &mut Making<'_, P>,
) -> Result<Option<PartingRace>, AllocError>
    ensures { IfOk result (λ cause. IfSome cause (PartsRun begun.entry.setting.search.design.now begun.entry.setting.search.limits begun.entry.first.now)) }
{
    let mut traced_run: Option<TracedRun> = None;
    let mut from = from;
    for _ in 0..MOST_ROUNDS {
        let RoundEnd { cause, further } = round_along(begun, &traced_run, from, making)?;
        match further {
            Some(further) => {
                from = shared_length(&further.run.journal, begun.other);
                traced_run = Some(further);
            }
            None => return Ok(cause),
        }
    }
    Ok(None)
}

/// The race that parts what two lawful runs of a design show, whose journals these are. None where no pair of entries is found that does,
/// or the bounds are met.
///
/// The first run is gone along: behind as many first entries of the other journal as may be without showing another thing. The next entry
/// there makes the difference, and it is moved, in a run that shows the same, towards where the other journal takes it, until it makes it
/// here. There its neighbour is the other one of the pair.
pub(crate) fn find_cause<P: Progress>(
    setting: HybridSetting<'_>,
    one: &[Entry],
    other: &[Entry],
    making: &mut Making<'_, P>,
) -> Result<Option<PartingRace>, AllocError>
    ensures { IfOk result (λ cause. IfSome cause (IsCauseBehind setting.entry.search.design.now setting.entry.search.limits one.now)) }
{
    let Some(begun) = traced(setting, one, making)? else {
        return Ok(None);
    };
    if !are_same(&begun.run.journal, one) {
        return Ok(None);
    }
    let parting = PartedRuns {
        setting,
        first: &begun.run,
        other,
        along: &begun,
    };
    in_rounds(parting, shared_length(one, other), making)
}
