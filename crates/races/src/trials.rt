//! The tries of conflicts, and the races that they show.
ghost use Rattle.std.specs.Prelude.{◌≡◌, ◌<◌, [], false, length, IfOk, IfNone, IfSome, IsTrue, None, Some, vec_len};
ghost use Rattle.std.specs.List.{All, AllPairs};
ghost use Rattle.runs.specs.RunRecords.{IsRun};
ghost use Rattle.races.specs.Races.{AreOfSame, AreOthers, IsNewBeside, IsRaceOf, IsSecond, IsShownRace, IsTrying, HasTried, AreToldRaces};
ghost use Rattle.races.specs.Unseen.{IsUnseen, KeepsUnseen};
ghost use Rattle.conflicts.specs.declared.bounds.Bound.TheVariants.{Races, Pairs};

use crate::exchange::{Order, exchange};
use crate::race_search::RaceSearch;
use crate::told::Race;
use crate::unseen::{UnseenDifference, unseen_difference};
use accesses::{Pair, Site};
use conflicts::{Bound, Conflict, Conflicts, SiteKind, has_both_orders, is_order, kind_of};
use progress::Progress;
use runs::compared::{are_apart, wants_memory};
use runs::run::RunRecord;
use std::alloc::AllocError;

/// What came of the tries so far: the races, how many second runs were made, how many entries may still be taken for them, by what
/// the list of races was cut, the first that was met, and the first difference that was found of a run which isn't apart.
#[derive(Drop)]
pub(crate) struct Trials {
    pub(crate) races: Vec<Race>,
    pub(crate) tried: usize,
    pub(crate) left: u64,
    pub(crate) cut: Option<Bound>,
    pub(crate) unseen: Option<UnseenDifference>,
}

fn is_same_site(one: Site, other: Site) -> bool
    ensures { one ≡ other → IsTrue result }
{
    one == other
}

/// Whether a race is for the site of a pair, and of the same two processes.
pub fn is_of(race: &Race, pair: Pair) -> bool
    ensures { result ≡ false → race.now.site ≡ pair.site → AreOfSame race.now.first race.now.second pair.first pair.second → ⊥ }
{
    let (one, other) = (race.first.process, race.second.process);
    let (first, second) = (pair.first.process, pair.second.process);
    let is_same = (one == first && other == second) || (one == second && other == first);
    is_same && is_same_site(race.site, pair.site)
}

/// Whether a race of a pair's site and processes is told.
pub fn is_told(races: &[Race], pair: Pair) -> bool
    ensures new { result ≡ false → IsNewBeside races.now pair }
    ensures some { IsTrue result → 0 < length races.now }
{
    for race in races {
        if is_of(race, pair) {
            return true;
        }
    }
    false
}

// Whether a process is one of a race's two.
fn has_process(race: &Race, process: u32) -> bool {
    race.first.process == process || race.second.process == process
}

// Whether a process is one of those of the races for a site that are told at a time.
fn is_named(races: &[Race], site: Site, time: u64, process: u32) -> bool {
    races.iter().any(|race| race.time == time
        && is_same_site(race.site, site)
        && has_process(race, process))
}

// Whether a pair is for an order of lines, and both of its processes are named at one time for it.
fn is_covered(races: &[Race], pair: Pair) -> bool {
    let (first, second) = (pair.first.process, pair.second.process);
    is_order(pair.site)
        && races.iter().any(|race| {
            is_named(races, pair.site, race.time, first)
                && is_named(races, pair.site, race.time, second)
        })
}

// What cut the list of conflicts: none of the bounds of the tries.
fn cut_before(conflicts: &Conflicts) -> Option<Bound>
    ensures races { result ≡ Some Races → ⊥ }
    ensures pairs { result ≡ Some Pairs → ⊥ }
{
    match conflicts.cut {
        Some(Bound::Steps) => Some(Bound::Steps),
        Some(_) => Some(Bound::Memory),
        None => None,
    }
}

// The race that a conflict's second run shows, if the two runs have its entries in both orders.
fn race_of(
    task: RaceSearch<'_>,
    conflict: &Conflict,
    exchanged: RunRecord,
) -> Result<Option<Race>, AllocError>
    requires { IsSecond task.design.now task.limits task.original.now exchanged }
    ensures shown { IfOk result (λ race. IfSome race (IsShownRace task.entry.design.now task.entry.limits task.entry.original.now)) }
    ensures of { IfOk result (λ race. IfSome race (IsRaceOf conflict.now.pair)) }
{
    match has_both_orders(task.alloc, task.design, conflict, task.original, &exchanged) {
        Ok(true) => Ok(Some(Race {
            site: conflict.pair.site,
            time: conflict.pair.time,
            first: conflict.pair.first,
            second: conflict.pair.second,
            exchanged,
        })),
        Ok(false) => Ok(None),
        Err(error) => Err(error),
    }
}

impl Trials {
    /// No tries yet: all entries of second runs are left, and what cut the list of conflicts has cut that of the races.
    pub(crate) fn new(task: RaceSearch<'_>, conflicts: &Conflicts) -> Trials
        ensures within { IsTrying task.entry.bounds result }
        ensures none { result.races.items ≡ [] }
        ensures seen { result.unseen ≡ None }
    {
        Trials {
            races: Vec::new(task.alloc),
            tried: 0,
            left: task.bounds.entries,
            cut: cut_before(conflicts),
            unseen: None,
        }
    }

    // Notes by what the list of races is cut, unless something cut it before.
    fn cut_by(&mut self, task: RaceSearch<'_>, bound: Bound)
        requires within { IsTrying task.bounds self.old }
        requires races { bound ≡ Races → vec_len self.old.races ≡ task.bounds.races }
        requires pairs { bound ≡ Pairs → self.old.tried ≡ task.bounds.pairs }
        ensures within { IsTrying task.entry.bounds self.new }
        ensures same { self.new ≡ record self.old { cut = self.new.cut } }
    {
        if self.cut.is_none() {
            self.cut = Some(bound);
        }
    }

    // The bound of the tries that is met, if one is.
    fn met(&self, task: RaceSearch<'_>) -> Option<Bound>
        requires within { IsTrying task.bounds self.now }
        ensures races { IfSome result (λ b. b ≡ Races → vec_len self.now.races ≡ task.entry.bounds.races) }
        ensures pairs { IfSome result (λ b. b ≡ Pairs → self.now.tried ≡ task.entry.bounds.pairs) }
        ensures room { IfNone result (vec_len self.now.races < task.entry.bounds.races) }
        ensures more { IfNone result (self.now.tried < task.entry.bounds.pairs) }
    {
        if self.races.len() >= task.bounds.races {
            return Some(Bound::Races);
        }
        if self.tried >= task.bounds.pairs {
            return Some(Bound::Pairs);
        }
        if self.left == 0 {
            return Some(Bound::Entries);
        }
        None
    }

    // Keeps in which registers the second run of a conflict differs from the first one where no line shows it, unless such a difference was kept
    // before.
    fn note(
        &mut self,
        task: RaceSearch<'_>,
        conflict: &Conflict,
        exchanged: &RunRecord,
    ) -> Result<(), AllocError>
        requires run { IsRun task.design.now task.limits exchanged.now }
        ensures same { self.new ≡ record self.old { left = self.new.left; unseen = self.new.unseen } }
        ensures unseen { KeepsUnseen task.entry.design.now task.entry.limits task.entry.original.now self.old.unseen self.new.unseen }
    {
        if self.unseen.is_none() {
            self.unseen = unseen_difference(task, conflict, exchanged, &mut self.left)?;
        }
        Ok(())
    }

    // The second run of a conflict, if it is apart from another run. Else it is looked for where it differs unseen. Fails where the second run wants
    // memory.
    fn apart_run(
        &mut self,
        task: RaceSearch<'_>,
        conflict: &Conflict,
        from: &RunRecord,
        exchanged: RunRecord,
    ) -> Result<Option<RunRecord>, AllocError>
        requires run { IsRun task.design.now task.limits exchanged }
        ensures same { self.new ≡ record self.old { left = self.new.left; unseen = self.new.unseen } }
        ensures unseen { KeepsUnseen task.entry.design.now task.entry.limits task.entry.original.now self.old.unseen self.new.unseen }
        ensures made { IfOk result (λ made. IfSome made (IsSecond task.entry.design.now task.entry.limits from.now)) }
    {
        if wants_memory(&exchanged) {
            return Err(AllocError);
        }
        if are_apart(from, &exchanged) {
            return Ok(Some(exchanged));
        }
        self.note(task, conflict, &exchanged)?;
        Ok(None)
    }

    // Makes a second run, if one is left. None where it isn't apart from another run.
    fn second_run<P: Progress>(
        &mut self,
        task: RaceSearch<'_>,
        conflict: &Conflict,
        from: &RunRecord,
        order: Order,
        progress: &P,
    ) -> Result<Option<RunRecord>, AllocError>
        requires within { IsTrying task.bounds self.old }
        ensures tried { HasTried task.entry.bounds self.old self.new }
        ensures unseen { KeepsUnseen task.entry.design.now task.entry.limits task.entry.original.now self.old.unseen self.new.unseen }
        ensures made { IfOk result (λ made. IfSome made (IsSecond task.entry.design.now task.entry.limits from.now)) }
        ensures room { IfOk result (λ made. IfSome made (λ _. vec_len self.new.races < task.entry.bounds.races)) }
        ensures more { IfOk result (λ made. IfSome made (λ _. vec_len self.new.races < self.new.tried)) }
    {
        if let Some(bound) = self.met(task) {
            self.cut_by(task, bound);
            return Ok(None);
        }
        self.tried += 1;
        let made = match exchange(task, conflict, order, &mut self.left, progress)? {
            Some(exchanged) => self.apart_run(task, conflict, from, exchanged)?,
            None => None,
        };
        if made.is_none() && self.left == 0 {
            self.cut_by(task, Bound::Entries);
        }
        Ok(made)
    }

    // Whether the run in which the entries of a conflict are turned is apart from that in which they keep their order behind the same
    // entries. Where nothing ties the two together, that is the first run.
    fn is_apart_kept<P: Progress>(
        &mut self,
        task: RaceSearch<'_>,
        conflict: &Conflict,
        turned: &RunRecord,
        progress: &P,
    ) -> Result<bool, AllocError>
        requires within { IsTrying task.bounds self.old }
        ensures tried { HasTried task.entry.bounds self.old self.new }
        ensures unseen { KeepsUnseen task.entry.design.now task.entry.limits task.entry.original.now self.old.unseen self.new.unseen }
    {
        if !conflict.before.is_tied {
            return Ok(true);
        }
        let made = self.second_run(task, conflict, turned, Order::Kept, progress)?;
        Ok(made.is_some())
    }

    // The race that a conflict shows by its second run, if it shows one.
    fn race_by<P: Progress>(
        &mut self,
        task: RaceSearch<'_>,
        conflict: &Conflict,
        turned: RunRecord,
        progress: &P,
    ) -> Result<Option<Race>, AllocError>
        requires within { IsTrying task.bounds self.old }
        requires second { IsSecond task.design.now task.limits task.original.now turned }
        ensures tried { HasTried task.entry.bounds self.old self.new }
        ensures unseen { KeepsUnseen task.entry.design.now task.entry.limits task.entry.original.now self.old.unseen self.new.unseen }
        ensures shown { IfOk result (λ race. IfSome race (IsShownRace task.entry.design.now task.entry.limits task.entry.original.now)) }
        ensures of { IfOk result (λ race. IfSome race (IsRaceOf conflict.now.pair)) }
    {
        match self.is_apart_kept(task, conflict, &turned, progress) {
            Ok(true) => race_of(task, conflict, turned),
            Ok(false) => Ok(None),
            Err(error) => Err(error),
        }
    }

    // The race that a conflict shows, if it shows one.
    fn try_pair<P: Progress>(
        &mut self,
        task: RaceSearch<'_>,
        conflict: &Conflict,
        progress: &P,
    ) -> Result<Option<Race>, AllocError>
        requires within { IsTrying task.bounds self.old }
        ensures tried { HasTried task.entry.bounds self.old self.new }
        ensures unseen { KeepsUnseen task.entry.design.now task.entry.limits task.entry.original.now self.old.unseen self.new.unseen }
        ensures shown { IfOk result (λ race. IfSome race (IsShownRace task.entry.design.now task.entry.limits task.entry.original.now)) }
        ensures of { IfOk result (λ race. IfSome race (IsRaceOf conflict.now.pair)) }
        ensures room { IfOk result (λ race. IfSome race (λ _. vec_len self.new.races < task.entry.bounds.races)) }
        ensures more { IfOk result (λ race. IfSome race (λ _. vec_len self.new.races < self.new.tried)) }
    {
        match self.second_run(task, conflict, task.original, Order::Turned, progress)? {
            Some(turned) => self.race_by(task, conflict, turned, progress),
            None => Ok(None),
        }
    }

    // Keeps the race of a pair.
    fn keep(&mut self, task: RaceSearch<'_>, pair: Pair, race: Race)
        requires told { AreToldRaces task.design.now task.limits task.original.now task.bounds self.old }
        requires room { vec_len self.old.races < task.bounds.races }
        requires more { vec_len self.old.races < self.old.tried }
        requires race { IsShownRace task.design.now task.limits task.original.now race }
        requires of { IsRaceOf pair race }
        requires beside { IsNewBeside self.old.races.items pair }
        ensures within { IsTrying task.entry.bounds self.new }
        ensures shown { All (IsShownRace task.entry.design.now task.entry.limits task.entry.original.now) self.new.races.items }
        ensures distinct { AllPairs AreOthers self.new.races.items }
        ensures unseen { IfSome self.new.unseen (IsUnseen task.entry.design.now task.entry.limits task.entry.original.now) }
    {
        if self.races.push(race).is_err() {
            self.cut_by(task, Bound::Memory);
        }
    }

    // Tries a conflict within the bounds, unless a race of its group is told, or its processes are among those whose lines come in another
    // order at one time.
    fn try_conflict<P: Progress>(&mut self, task: RaceSearch<'_>, conflict: &Conflict, progress: &P)
        requires { AreToldRaces task.design.now task.limits task.original.now task.bounds self.old }
        ensures { AreToldRaces task.entry.design.now task.entry.limits task.entry.original.now task.entry.bounds self.new }
    {
        if is_told(&self.races, conflict.pair) {
            return;
        }
        if is_covered(&self.races, conflict.pair) {
            return;
        }
        match self.try_pair(task, conflict, progress) {
            Ok(Some(race)) => self.keep(task, conflict.pair, race),
            Ok(None) => {}
            Err(_) => self.cut_by(task, Bound::Memory),
        }
    }

    // Tries the conflicts of a round that are of a kind.
    fn try_round<P: Progress>(
        &mut self,
        task: RaceSearch<'_>,
        round: &[Conflict],
        kind: SiteKind,
        progress: &P,
    )
        requires { AreToldRaces task.design.now task.limits task.original.now task.bounds self.old }
        ensures { AreToldRaces task.entry.design.now task.entry.limits task.entry.original.now task.entry.bounds self.new }
    {
        for conflict in round {
            if kind_of(conflict.pair.site) == kind {
                self.try_conflict(task, conflict, progress);
            }
        }
    }

    // Tries such conflicts, round by round.
    fn try_rounds<P: Progress>(
        &mut self,
        task: RaceSearch<'_>,
        rounds: &[Vec<Conflict>],
        kind: SiteKind,
        progress: &P,
    )
        requires { AreToldRaces task.design.now task.limits task.original.now task.bounds self.old }
        ensures { AreToldRaces task.entry.design.now task.entry.limits task.entry.original.now task.entry.bounds self.new }
    {
        for round in rounds {
            self.try_round(task, round.as_slice(), kind, progress);
        }
    }
}

/// Tries the conflicts of a first run, round by round: first those for registers and the end of the run, then those for an order of strobes or of
/// updates, and last those for the order of lines, so that these don't take the place of others.
pub(crate) fn try_all<P: Progress>(
    task: RaceSearch<'_>,
    conflicts: &Conflicts,
    progress: &P,
) -> Trials
    ensures { AreToldRaces task.entry.design.now task.entry.limits task.entry.original.now task.entry.bounds result }
{
    let mut trials = Trials::new(task, conflicts);
    let rounds = conflicts.rounds.as_slice();
    trials.try_rounds(task, rounds, SiteKind::Outcome, progress);
    trials.try_rounds(task, rounds, SiteKind::Order, progress);
    trials.try_rounds(task, rounds, SiteKind::Lines, progress);
    trials
}
