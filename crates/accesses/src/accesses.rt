//! What the entries of a run do, by the turns that they have where they stand.
ghost use Rattle.std.specs.Prelude.{◌≡◌, ◌==◌, IfSome, List};
ghost use Rattle.std.specs.List.{list_any};
ghost use Rattle.model.specs.Design.{Trigger};
ghost use Rattle.model.specs.Turns.{Turn};
ghost use Rattle.model.specs.Runs.{has_any};
ghost use Rattle.turn.specs.TurnLogs.{wait_of};
ghost use Rattle.turn.specs.Reads.{registers};
ghost use Rattle.accesses.specs.Roles as roles;
ghost use Rattle.accesses.specs.AccessLogs.{IsTurnInLog, IsUpdateOf};

use crate::role::{Does, Site};
use design::{Control, RegId};
use regions::State;
use turn::{Suspend, TurnLog};

// Whether a turn wrote a register.
fn writes(log: &TurnLog, register: RegId) -> bool
    ensures { result ≡ list_any (λ w. w.0 == register) log.now.writes }
{
    log.writes().iter().any(|write| write.0 == register)
}

// Whether a turn made a nonblocking assignment to a register.
fn assigns(log: &TurnLog, register: RegId) -> bool
    ensures { result ≡ list_any (λ n. n.reg == register) log.now.nbas }
{
    log.nbas().iter().any(|nba| nba.reg == register)
}

// Whether a turn read a register.
fn reads(log: &TurnLog, register: RegId) -> bool
    ensures { result ≡ list_any (λ u. register == u) (registers log.now.reads) }
{
    log.reads().contains_key(&register)
}

// Whether the process of a turn goes on to wait for a register, where these are the event controls.
fn waits(log: &TurnLog, controls: &[Control], register: RegId) -> bool
    ensures { result ≡ roles.waits_for register (wait_of controls.now log.now.suspend) }
{
    match log.suspend() {
        Suspend::Event(control) => match controls.get(control) {
            Some(control) => control.waits_for(register),
            None => false,
        },
        Suspend::Ended | Suspend::Inactive | Suspend::Until(_) => false,
    }
}

// Whether a turn made a nonblocking assignment.
fn schedules(log: &TurnLog) -> bool
    ensures { (controls : List (List Trigger)) (turn : Turn) → IsTurnInLog controls log.now turn → result ≡ has_any turn.nbas }
{
    !log.nbas().is_empty()
}

// Whether a turn does this to a register.
fn does_to(log: &TurnLog, controls: &[Control], register: RegId, does: Does) -> bool
    ensures { (turn : Turn) → IsTurnInLog controls.now log.now turn → result ≡ roles.does_to register does turn }
{
    match does {
        Does::Writes => writes(log, register),
        Does::Assigns => assigns(log, register),
        Does::Reads => reads(log, register),
        Does::Waits => waits(log, controls, register),
        Does::Finishes => log.is_finish(),
        Does::Updates | Does::Prints | Does::Strobes | Does::Runs | Does::Schedules => false,
    }
}

/// Whether a turn does this at a site, where these are the event controls.
pub(crate) fn does_at(log: &TurnLog, controls: &[Control], site: Site, does: Does) -> bool
    ensures { (turn : Turn) → IsTurnInLog controls.now log.now turn → result ≡ roles.does_at site does turn }
{
    match (site, does) {
        (Site::Register(register), _) => does_to(log, controls, register, does),
        (Site::Printing, Does::Prints) => !log.lines().is_empty(),
        (Site::Strobing, Does::Strobes) => !log.strobes().is_empty(),
        (Site::Finishing, Does::Prints) => !log.lines().is_empty(),
        (Site::Finishing, Does::Finishes) => log.is_finish(),
        (Site::Finishing, Does::Runs) => true,
        (Site::Updating, Does::Schedules) => schedules(log),
        _ => false,
    }
}

/// The register of the first active update, where it has this number.
pub(crate) fn updated(state: &State, number: u64) -> Option<RegId>
    ensures { IfSome result (λ register. IsUpdateOf state.now.active number register) }
{
    if state.first_update() != Some(number) {
        return None;
    }
    match state.first_updated() {
        Some((register, _)) => Some(register),
        None => None,
    }
}
