//! What turns and updates have to do with other steps.
ghost use Rattle.std.specs.Prelude.{◌≡◌, ◌++◌, map, OnOk};
ghost use Rattle.design.specs.Fits.{FitsRegister};
ghost use Rattle.footprints.specs.Footprints.{assigned, update_footprint};
ghost use Rattle.heldmoves.specs.WithoutHeld.{without_held};
ghost use Rattle.loose.specs.Classes.{class_in};
ghost use Rattle.model.specs.States.{triggers_of};
ghost use Rattle.noted.specs.NotedSteps.{AreWritesOf, HasNoEffects, IsTurnNoted, note_of, own_note, with_effects};
ghost use Rattle.model.specs.Turns.{contains};
ghost use Rattle.regions.specs.Machine.{state_at};
ghost use Rattle.regions.specs.StepLogs.{IsLogFor};
ghost use Rattle.turn.specs.Reads.{registers};
ghost use Rattle.turn.specs.TurnLogs.{assignment_of, wait_of};

use crate::changes::{note_changes, note_writes};
use crate::waking::{note_ended, note_events, note_woken};
use certificates::note::StepNote;
use certificates::numbers::MaskedNumbers;
use certificates::triggers::Triggers;
use design::{Control, RegId};
use indexmap::IndexMap;
use logic4::bits::Bits;
use loose::transition::LooseTransition;
use regions::Machine;
use std::alloc::AllocError;
use turn::{Nba, Seen, Suspend, TurnLog};

// The class of a register.
fn class_of(classes: &[u32], register: RegId) -> u32
    ensures { result ≡ class_in classes.now register }
{
    match classes.get(register as usize) {
        Some(class) => *class,
        None => 0,
    }
}

// Notes the registers that a turn used without having written them.
fn note_uses(uses: &mut MaskedNumbers, reads: &IndexMap<RegId, Seen>) -> Result<(), AllocError>
    ensures { OnOk result (uses.new ≡ uses.old ++ registers reads.now.entries) }
{
    for place in 0..reads.len() {
        let Some((register, _)) = reads.get_index(place) else {
            unreachable!();
        };
        uses.push(*register)?;
    }
    Ok(())
}

// Notes the class and the time of each update that nonblocking assignments make (9.2.2).
fn note_assigns(
    assigns: &mut Vec<(u32, u64)>,
    classes: &[u32],
    nbas: &[Nba],
) -> Result<(), AllocError>
    ensures { OnOk result (assigns.new.items ≡ assigns.old.items ++ assigned (class_in classes.now) (map assignment_of nbas.now)) }
{
    for nba in nbas {
        assigns.push((class_of(classes, nba.reg), nba.due))?;
    }
    Ok(())
}

// Notes what a process goes on to wait for, where these are the event controls.
fn note_awaits(
    awaits: &mut Triggers,
    controls: &[Control],
    suspend: Suspend,
) -> Result<(), AllocError>
    ensures { OnOk result (awaits.new ≡ awaits.old ++ triggers_of (wait_of controls.now suspend)) }
{
    match suspend {
        Suspend::Event(number) => match controls.get(number) {
            Some(control) => note_events(awaits, control.triggers()),
            None => Ok(()),
        },
        Suspend::Ended | Suspend::Inactive | Suspend::Until(_) => Ok(()),
    }
}

// Notes what writes do: the registers, the changes, the processes that these wake, and what those wait for. Held processes are left
// aside.
fn note_effects(
    note: &mut StepNote,
    machine: &Machine<'_>,
    held: &[u32],
    writes: &[(RegId, Bits)],
) -> Result<(), AllocError>
    requires writes { AreWritesOf machine.now.values writes.now }
    requires none { HasNoEffects note.old }
    ensures { OnOk result (note.new ≡ with_effects note.old (without_held (contains held.now) (state_at machine.now)) writes.now) }
{
    note_writes(&mut note.writes, writes)?;
    note_changes(&mut note.changes, machine.store(), writes)?;
    note_woken(&mut note.woken, machine, held, &note.changes)?;
    note_ended(&mut note.ended, machine, held, note.woken.as_slice())
}

// Notes what a turn has of its own: what it uses, what its process goes on to wait for, what it waited for before, what it assigns,
// and whether it prints, meets `$strobe`, and meets `$finish`.
fn note_own(
    note: &mut StepNote,
    machine: &Machine<'_>,
    classes: &[u32],
    held: &[u32],
    process: u32,
    log: &TurnLog,
) -> Result<(), AllocError>
    ensures { OnOk result (note.new ≡ own_note (class_in classes.now) machine.now.core.controls (without_held (contains held.now) (state_at machine.now)) process log.now) }
{
    note.begin(LooseTransition::Process(process));
    note.prints = !log.lines().is_empty();
    note.strobes = !log.strobes().is_empty();
    note.finishes = log.is_finish();
    note_uses(&mut note.uses, log.reads())?;
    note_awaits(&mut note.awaits, machine.state().controls(), log.suspend())?;
    note_ended(&mut note.ended, machine, held, &[process])?;
    note_assigns(&mut note.assigns, classes, log.nbas())
}

/// Notes a turn of a process, which the log is. Held processes are left aside.
pub(crate) fn note_turn(
    machine: &Machine<'_>,
    process: u32,
    log: &TurnLog,
    classes: &[u32],
    held: &[u32],
    note: &mut StepNote,
) -> Result<(), AllocError>
    requires { IsLogFor machine.now.code (state_at machine.now) process log.now }
    ensures { OnOk result (IsTurnNoted (class_in classes.now) machine.now.code (without_held (contains held.now) (state_at machine.now)) process note.new) }
{
    machine.stands();
    note_own(note, machine, classes, held, process, log)?;
    note_effects(note, machine, held, log.writes())
}

/// Notes an update of a register to a value. Held processes are left aside.
pub(crate) fn note_update(
    machine: &Machine<'_>,
    register: RegId,
    value: Bits,
    classes: &[u32],
    held: &[u32],
    note: &mut StepNote,
) -> Result<(), AllocError>
    requires { FitsRegister machine.now.code.widths register value }
    ensures { OnOk result (note.new ≡ note_of (update_footprint (class_in classes.now) (without_held (contains held.now) (state_at machine.now)) register value)) }
{
    machine.stands();
    note.begin(LooseTransition::FirstOf(class_of(classes, register)));
    note_effects(note, machine, held, &[(register, value)])
}
