//! The lawful journal of a loose run from which no run comes to an end.
ghost use Rattle.std.specs.Prelude.{◌≡◌, ◌≤◌, true, IfOk, IfSome};
ghost use Rattle.model.specs.Runs.{last_time};
ghost use Rattle.model.specs.Texts.{IsEndlessJournal};
ghost use Rattle.design.specs.Compiled.{design_of};
ghost use Rattle.regions.specs.Machine.{state_at};
ghost use Rattle.loose.specs.Classes.{class_in};
ghost use Rattle.loose.specs.Loose.{AlikeIn};
ghost use Rattle.explore.specs.Search.{IsEndless};
ghost use Rattle.lawful.specs.Again.{LeadLooselyTo};
ghost use Rattle.lawful.specs.LooseNodes.{searched_runs};

use crate::again::again;
use crate::search::start_of;
use crate::search_room::SearchRoom;
use loose::transition::LooseTransition;
use loosejournals::{LeadScope, lead};
use model::entry::Entry;
use regions::Machine;
use std::alloc::{AllocError, Global};

// Whether the states of two machines of one design are alike in these classes, as far as their class keys tell.
fn stand_alike(
    alloc: Global,
    room: &mut SearchRoom<'_>,
    one: &Machine<'_>,
    other: &Machine<'_>,
    classes: &[u32],
) -> Result<bool, AllocError>
    requires code { one.now.code ≡ other.now.code }
    ensures { IfOk result (λ alike. alike ≡ true → AlikeIn (class_in classes.now) (state_at one.now) (state_at other.now)) }
{
    one.stands();
    other.stands();
    let mut key = Vec::new(alloc);
    room.parts.fill_key(&mut key, one, classes)?;
    let mut other_key = Vec::new(alloc);
    room.parts.fill_key(&mut other_key, other, classes)?;
    Ok(key.as_slice() == other_key.as_slice())
}

// Whether a machine stands where these loose transitions lead from the start of its design's run, up to the order of updates of different
// classes.
fn stands_there(
    scope: LeadScope<'_>,
    moves: &[LooseTransition],
    machine: &Machine<'_>,
) -> Result<bool, AllocError>
    requires code { machine.now.code ≡ scope.design.now }
    ensures { IfOk result (λ there. there ≡ true → LeadLooselyTo (class_in scope.entry.classes.now) scope.entry.design.now moves.now (state_at machine.now)) }
{
    let alloc = scope.alloc;
    let mut room = Box::new(alloc, SearchRoom::new(alloc))?;
    let start = start_of(alloc, scope.design)?;
    let loosely = again(alloc, &mut room, &start, scope.classes, moves)?;
    stand_alike(alloc, &mut room, machine, &loosely, scope.classes)
}

/// A lawful journal from which no run comes to an end, as none does from a loose run of these transitions: it is led by them, and leads
/// where they lead, up to the order of updates of different classes. None where it leads elsewhere, or none is led. Fails where memory is
/// refused.
pub(crate) fn endless_journal(
    scope: LeadScope<'_>,
    moves: &[LooseTransition],
) -> Result<Option<Vec<Entry>>, AllocError>
    requires until { IfSome scope.limits.until (λ until. until ≤ last_time) }
    requires endless { IsEndless (searched_runs scope.design.now (class_in scope.classes.now) scope.limits) moves.now }
    ensures { IfOk result (λ found. IfSome found (λ journal. IsEndlessJournal (design_of scope.entry.design.now) scope.entry.limits journal.items)) }
{
    let mut led = match lead(scope, moves)? {
        Some(led) => led,
        None => return Ok(None),
    };
    if !stands_there(scope, moves, &led.machine)? {
        return Ok(None);
    }
    Ok(Some(led.take_journal(scope.alloc)))
}
