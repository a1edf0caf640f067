//! The lawful journals of what a search of loose runs found.
ghost use Rattle.std.specs.Prelude.{◌≡◌, ◌≤◌, true, IfOk, IfSome, OnErr};
ghost use Rattle.model.specs.Runs.{last_time};
ghost use Rattle.design.specs.Compiled.{design_of};
ghost use Rattle.loose.specs.Classes.{class_in};
ghost use Rattle.explore.specs.Search.{IsEndless};
ghost use Rattle.lawful.specs.LooseNodes.{searched_runs};
ghost use Rattle.lawful.specs.Journals.{AreFirstShownLawfully, IsAddedLawfully, IsFoundLawfully, IsLedJournal, IsShownLawfully, IsStoppedBy};

use crate::endless::endless_journal;
use crate::telling::RunTelling;
use explore::{Explored, Shown, Stopped};
use loose::transition::LooseTransition;
use loosejournals::{LeadScope, lead};
use model::entry::Entry;
use std::alloc::AllocError;

// A text and an end with a lawful journal of them, in the place of the loose run. None where no journal is found. Fails where memory is
// refused.
fn with_journal<T: RunTelling>(
    telling: &T,
    scope: LeadScope<'_>,
    shown: Shown<LooseTransition, T::End>,
) -> Result<Option<Shown<Entry, T::End>>, AllocError>
    requires until { IfSome scope.limits.until (λ until. until ≤ last_time) }
    ensures { IfOk result (λ found. IfSome found (IsShownLawfully (T.is_journal telling.now scope.entry.design.now scope.entry.limits) shown)) }
{
    let found = telling.journal(scope, &shown)?;
    let Shown { text, end, .. } = shown;
    match found {
        Some(journal) => Ok(Some(Shown {
            text,
            end,
            moves: journal,
        })),
        None => Ok(None),
    }
}

// What has a lawful journal of what loose runs show, and whether that is all of it.
struct ShownLawfully<E> {
    shown: Vec<Shown<Entry, E>>,
    whole: bool,
}

// Adds a text and an end with a lawful journal of them. Answers whether one was found. Fails where memory is refused, and then none is
// added.
fn add_journal<T: RunTelling>(
    telling: &T,
    scope: LeadScope<'_>,
    shown: Shown<LooseTransition, T::End>,
    lawful: &mut Vec<Shown<Entry, T::End>>,
) -> Result<bool, AllocError>
    requires until { IfSome scope.limits.until (λ until. until ≤ last_time) }
    ensures added { IfOk result (λ added. added ≡ true → IsAddedLawfully (T.is_journal telling.now scope.entry.design.now scope.entry.limits) lawful.old.items shown lawful.new.items) }
    ensures refused { OnErr result (lawful.new.items ≡ lawful.old.items) }
{
    match with_journal(telling, scope, shown)? {
        Some(one) => {
            lawful.push(one)?;
            Ok(true)
        }
        None => Ok(false),
    }
}

// The same texts and ends in the same order, with a lawful journal of each. Where memory is refused to one, those before it. None where no
// lawful journal is found of one.
fn with_journals<T: RunTelling>(
    telling: &T,
    scope: LeadScope<'_>,
    shown: Vec<Shown<LooseTransition, T::End>>,
) -> Option<ShownLawfully<T::End>>
    requires until { IfSome scope.limits.until (λ until. until ≤ last_time) }
    ensures { IfSome result (λ lawful. AreFirstShownLawfully (T.is_journal telling.now scope.entry.design.now scope.entry.limits) shown.items lawful.shown.items lawful.whole) }
{
    let mut lawful = Vec::new(scope.alloc);
    for loosely in shown {
        match add_journal(telling, scope, loosely, &mut lawful) {
            Ok(added) => {
                if !added {
                    return None;
                }
            }
            Err(_) => {
                return Some(ShownLawfully {
                    shown: lawful,
                    whole: false,
                });
            }
        }
    }
    Some(ShownLawfully {
        shown: lawful,
        whole: true,
    })
}

// Why a search stopped, by whether all its runs have their journals: where some lack them, for want of memory.
fn stopped_by(stopped: Option<Stopped>, whole: bool) -> Option<Stopped>
    ensures { IsStoppedBy stopped whole result }
{
    if whole {
        return stopped;
    }
    Some(Stopped::Memory)
}

// The lawful journal that these transitions of a loose run lead. None where they lead none. Fails where memory is refused.
fn led_journal(
    scope: LeadScope<'_>,
    moves: &[LooseTransition],
) -> Result<Option<Vec<Entry>>, AllocError>
    requires until { IfSome scope.limits.until (λ until. until ≤ last_time) }
    ensures { IfOk result (λ found. IfSome found (λ journal. IsLedJournal (design_of scope.entry.design.now) scope.entry.limits journal.items)) }
{
    let mut led = match lead(scope, moves)? {
        Some(led) => led,
        None => return Ok(None),
    };
    Ok(Some(led.take_journal(scope.alloc)))
}

// The lawful journal that the transitions of a loose run lead, where there are some. None where they lead none, and where memory is refused.
fn widest_journal(scope: LeadScope<'_>, widest: Option<Vec<LooseTransition>>) -> Option<Vec<Entry>>
    requires until { IfSome scope.limits.until (λ until. until ≤ last_time) }
    ensures { IfSome result (λ journal. IsLedJournal (design_of scope.entry.design.now) scope.entry.limits journal.items) }
{
    let moves = match widest {
        Some(moves) => moves,
        None => return None,
    };
    match led_journal(scope, &moves) {
        Ok(found) => found,
        Err(_) => None,
    }
}

/// What a search of loose runs found, with lawful journals in the place of its runs: one of each text and end that is shown, one from
/// which no run comes to an end, where it found such a run, and one that leads to where most ways lead on, where one is led. Where memory
/// is refused to a journal, what has one so far, and the search says that it stopped. None where no lawful journal is found of a text, or
/// of a run from which no end is reached.
pub(crate) fn with_all_journals<T: RunTelling>(
    telling: &T,
    scope: LeadScope<'_>,
    explored: Explored<LooseTransition, T::End>,
) -> Option<Explored<Entry, T::End>>
    requires until { IfSome scope.limits.until (λ until. until ≤ last_time) }
    requires endless { IfSome explored.endless (λ moves. IsEndless (searched_runs scope.design.now (class_in scope.classes.now) scope.limits) moves.items) }
    ensures { IfSome result (IsFoundLawfully (T.is_journal telling.now scope.entry.design.now scope.entry.limits) (design_of scope.entry.design.now) scope.entry.limits explored) }
{
    let Explored {
        shown,
        stopped,
        nodes,
        endless,
        followed_before,
        widest,
    } = explored;
    let ShownLawfully { shown, whole } = with_journals(telling, scope, shown)?;
    let widest = widest_journal(scope, widest);
    let moves = match endless {
        Some(moves) => moves,
        None => {
            return Some(Explored {
                shown,
                stopped: stopped_by(stopped, whole),
                nodes,
                endless: None,
                followed_before,
                widest,
            });
        }
    };
    match endless_journal(scope, &moves) {
        Ok(Some(journal)) => Some(Explored {
            shown,
            stopped: stopped_by(stopped, whole),
            nodes,
            endless: Some(journal),
            followed_before,
            widest,
        }),
        Ok(None) => None,
        Err(_) => Some(Explored {
            shown,
            stopped: stopped_by(stopped, false),
            nodes,
            endless: None,
            followed_before,
            widest,
        }),
    }
}
