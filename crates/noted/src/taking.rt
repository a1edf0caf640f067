//! An entry that a machine takes, with its note.
ghost use Rattle.std.specs.Prelude.{◌≡◌, ◌+◌, ◌<◌, false, map, IsSome, None, MatchOption, MatchResult, IfErr, OnOk, OnErr};
ghost use Rattle.heldmoves.specs.WithoutHeld.{without_held};
ghost use Rattle.loose.specs.Classes.{class_in};
ghost use Rattle.model.specs.Runs.{refusal};
ghost use Rattle.model.specs.Turns.{contains};
ghost use Rattle.model.specs.declared.entry.Entry.TheVariants as entries;
ghost use Rattle.noted.specs.NotedSteps.{IsFirstUpdated, IsLeftOut, IsEntryNoted, IsNotNoted, IsOfOther, IsTakenNoted};
ghost use Rattle.regions.specs.Evaluations.{made_event};
ghost use Rattle.regions.specs.Machine.{most_entries, state_at, IsTurnLogged};
ghost use Rattle.regions.specs.MadeEvents.{made_events};
ghost use Rattle.regions.specs.StepLogs.{IsTaken};

use crate::fault::NotedFault;
use crate::turns::{note_turn, note_update};
use certificates::note::StepNote;
use design::RegId;
use logic4::bits::Bits;
use model::entry::Entry;
use regions::{Evaluation, Machine, TakeFault};
use turn::{FillFault, TurnLog};

// The register and the value of the update with a number, where the rules permit it now (11.4.1).
fn update_at(machine: &Machine<'_>, number: u64) -> Option<(RegId, Bits)>
    ensures { MatchOption result (IsSome (refusal (state_at machine.now) (entries.Update number))) (IsFirstUpdated machine.now.code (state_at machine.now) number) }
{
    machine.stands_in_order();
    if machine.is_finished() {
        return None;
    }
    if machine.state().first_update() != Some(number) {
        return None;
    }
    machine.state().first_updated()
}

// The machine's fault where the rules don't permit an entry.
fn refused(machine: &mut Machine<'_>, entry: Entry) -> NotedFault
    requires { IsSome (refusal (state_at machine.old) entry) }
    ensures { IsLeftOut machine.old entry machine.new result }
{
    match machine.take(entry) {
        Ok(()) => unreachable!(),
        Err(fault) => NotedFault::NotTaken(fault),
    }
}

// Takes a turn of a process that was evaluated, with its note.
fn take_evaluated(
    machine: &mut Machine<'_>,
    evaluation: Evaluation,
    log: &TurnLog,
    classes: &[u32],
    held: &[u32],
    note: &mut StepNote,
) -> Result<(), NotedFault>
    requires logged { IsTurnLogged machine.old.code (state_at machine.old) evaluation.number evaluation.process log.now }
    requires other { contains held.now evaluation.process ≡ false }
    ensures { MatchResult result (λ _. IsTakenNoted (class_in classes.now) (contains held.now) machine.old (entries.Turn evaluation.number) machine.new note.new) (IsLeftOut machine.old (entries.Turn evaluation.number) machine.new) }
{
    match note_turn(machine, evaluation.process, log, classes, held, note) {
        Ok(()) => {}
        Err(_) => return Err(NotedFault::NoteMemory),
    }
    match machine.take_turn(evaluation.number, log) {
        Ok(()) => Ok(()),
        Err(fault) => Err(NotedFault::NotTaken(fault)),
    }
}

// Takes a turn, with its note.
fn take_turn(
    machine: &mut Machine<'_>,
    number: u64,
    log: &mut TurnLog,
    classes: &[u32],
    held: &[u32],
    note: &mut StepNote,
) -> Result<(), NotedFault>
    requires { IsOfOther (contains held.now) (state_at machine.old) (entries.Turn number) }
    ensures { MatchResult result (λ _. IsTakenNoted (class_in classes.now) (contains held.now) machine.old (entries.Turn number) machine.new note.new) (IsLeftOut machine.old (entries.Turn number) machine.new) }
{
    match machine.evaluate(log, number, 0) {
        Ok(Some(process)) => {
            let evaluation = Evaluation { number, process };
            take_evaluated(machine, evaluation, log, classes, held, note)
        }
        Ok(None) => Err(refused(machine, Entry::Turn(number))),
        Err(FillFault::TooLong) => Err(NotedFault::NotTaken(TakeFault::TooLong)),
        Err(FillFault::Memory) => Err(NotedFault::NotTaken(TakeFault::Memory)),
    }
}

// Takes the first update, which gives a register a value, with its note.
fn take_updated(
    machine: &mut Machine<'_>,
    number: u64,
    updated: (RegId, Bits),
    classes: &[u32],
    held: &[u32],
    note: &mut StepNote,
) -> Result<(), NotedFault>
    requires { IsFirstUpdated machine.old.code (state_at machine.old) number updated }
    ensures { MatchResult result (λ _. IsTakenNoted (class_in classes.now) (contains held.now) machine.old (entries.Update number) machine.new note.new) (IsLeftOut machine.old (entries.Update number) machine.new) }
{
    match note_update(machine, updated.0, updated.1, classes, held, note) {
        Ok(()) => {}
        Err(_) => return Err(NotedFault::NoteMemory),
    }
    match machine.take(Entry::Update(number)) {
        Ok(()) => Ok(()),
        Err(fault) => Err(NotedFault::NotTaken(fault)),
    }
}

// Takes an update, with its note.
fn take_update(
    machine: &mut Machine<'_>,
    number: u64,
    classes: &[u32],
    held: &[u32],
    note: &mut StepNote,
) -> Result<(), NotedFault>
    ensures { MatchResult result (λ _. IsTakenNoted (class_in classes.now) (contains held.now) machine.old (entries.Update number) machine.new note.new) (IsLeftOut machine.old (entries.Update number) machine.new) }
{
    match update_at(machine, number) {
        Some(updated) => take_updated(machine, number, updated, classes, held, note),
        None => Err(refused(machine, Entry::Update(number))),
    }
}

/// Takes a turn or an update (11.4), as `Machine::take` does, which isn't of one of the processes that are held, and fills a note with
/// what it has to do with other steps while these are held, for these classes of registers: of the processes that it wakes, those that are
/// held are left aside. A turn is evaluated into the log. After an `Err` the machine stands where it stood, and the log and the note may
/// say anything.
pub fn take_noted_beside(
    machine: &mut Machine<'_>,
    classes: &[u32],
    held: &[u32],
    entry: Entry,
    log: &mut TurnLog,
    note: &mut StepNote,
) -> Result<(), NotedFault>
    requires { IsOfOther (contains held.now) (state_at machine.old) entry }
    // It is one step of the rules.
    ensures taken { OnOk result (IsTaken machine.old.code (state_at machine.old) machine.old.lines entry (state_at machine.new) machine.new.lines) }
    // The note is the footprint of the entry where the machine stood, without what is held.
    ensures noted { OnOk result (IsEntryNoted (class_in classes.now) machine.old.code (without_held (contains held.now) (state_at machine.old)) entry note.new) }
    ensures entries { OnOk result (machine.new.core.entries ≡ machine.old.core.entries + 1) }
    ensures made { OnOk result (map made_event machine.new.made ≡ made_events machine.old.core machine.new.core) }
    ensures code { machine.new.code ≡ machine.old.code }
    ensures few { OnOk result (machine.old.core.entries < most_entries) }
    // Each fault has its reason.
    ensures stop { IfErr result (IsNotNoted machine.old entry) }
    ensures err { OnErr result (machine.new ≡ record machine.old { made = machine.new.made }) }
{
    match entry {
        Entry::Turn(number) => take_turn(machine, number, log, classes, held, note),
        Entry::Update(number) => take_update(machine, number, classes, held, note),
        _ => Err(NotedFault::NoEvent),
    }
}

/// Takes a turn or an update (11.4), as `Machine::take` does, and fills a note with what it has to do with other steps, for these
/// classes of registers. A turn is evaluated into the log. After an `Err` the machine stands where it stood, and the log and the note
/// may say anything.
pub fn take_noted(
    machine: &mut Machine<'_>,
    classes: &[u32],
    entry: Entry,
    log: &mut TurnLog,
    note: &mut StepNote,
) -> Result<(), NotedFault>
    // It is one step of the rules.
    ensures taken { OnOk result (IsTaken machine.old.code (state_at machine.old) machine.old.lines entry (state_at machine.new) machine.new.lines) }
    ensures entries { OnOk result (machine.new.core.entries ≡ machine.old.core.entries + 1) }
    ensures made { OnOk result (map made_event machine.new.made ≡ made_events machine.old.core machine.new.core) }
    ensures code { machine.new.code ≡ machine.old.code }
    // The note is the footprint of the entry where the machine stood.
    ensures noted { OnOk result (IsEntryNoted (class_in classes.now) machine.old.code (state_at machine.old) entry note.new) }
    ensures few { OnOk result (machine.old.core.entries < most_entries) }
    // Each fault has its reason.
    ensures stop { IfErr result (IsNotNoted machine.old entry) }
    ensures err { OnErr result (machine.new ≡ record machine.old { made = machine.new.made }) }
{
    take_noted_beside(machine, classes, &[], entry, log, note)
}
