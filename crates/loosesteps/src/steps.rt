//! Loose transitions, taken by a machine.
ghost use Rattle.std.specs.Prelude.{◌≡◌, ◌≢◌, ◌↔◌, ℕ, ◌+◌, ◌<◌, length, false, IsTrue, MatchOption, IfSome, MatchResult, IfOk, IfErr, OnOk, OnErr, Some, None};
ghost use Rattle.std.specs.List.{list_any};
ghost use Rattle.model.specs.declared.entry.Entry.TheVariants as entries;
ghost use Rattle.model.specs.States.{Evaluate};
ghost use Rattle.model.specs.Runs.{action_in, refusal};
ghost use Rattle.model.specs.Laws.{evaluates};
ghost use Rattle.orders.specs.Alike.{IsInOrder};
ghost use Rattle.loose.specs.Loose.{AlikeIn, updates_class};
ghost use Rattle.regions.specs.Find.{update_numbers};
ghost use Rattle.regions.specs.Machine.{state_at, IsChange};
ghost use Rattle.loose.specs.Classes.{class_in};
ghost use Rattle.loosesteps.specs.Classes.{IsFirstAt, HasClassAt};
ghost use Rattle.loosesteps.specs.LooselyTaken.{IsEntryFor, MayNotBeTaken, IsTakenLoosely, IsNotTakenLoosely};

use design::RegId;
use loose::transition::LooseTransition;
use model::entry::{Entry, Refusal};
use regions::{Machine, TakeFault};

// The class of a register.
pub fn class_of(classes: &[u32], register: RegId) -> u32
    ensures { result ≡ class_in classes.now register }
{
    match classes.get(register as usize) {
        Some(class) => *class,
        None => 0,
    }
}

/// The place of the first active update of a class, among the active updates. None where no update of the class is active.
pub fn first_of_class(machine: &Machine<'_>, classes: &[u32], class: u32) -> Option<usize>
    ensures first { MatchOption result (list_any (λ e. updates_class (class_in classes.now) class e.1) machine.now.core.active ≡ false) (IsFirstAt (updates_class (class_in classes.now) class) machine.now.core.active) }
    ensures place { MatchOption result (list_any (λ e. updates_class (class_in classes.now) class e.1) machine.now.core.active ≡ false) (λ at. at < length (update_numbers machine.now.core.active)) }
{
    let (updates, _) = machine.state().active();
    updates
        .iter()
        .position(|update| class_of(classes, update.register) == class)
}

/// The number of the first active evaluation of a process. None where none is active.
pub fn first_evaluation(machine: &Machine<'_>, process: u32) -> Option<u64>
    requires { IsInOrder (state_at machine.now) }
    ensures { MatchOption result (list_any (λ e. evaluates process e.1) machine.now.core.active ≡ false) (λ number. action_in machine.now.core.active number ≡ Some (Evaluate process)) }
{
    let (_, evaluations) = machine.state().active();
    let first = evaluations
        .iter()
        .find(|evaluation| evaluation.process == process)?;
    Some(first.number)
}

// Brings the first active update of a class before those in front of it, and answers its number, by which it is the first update
// then. None where no update of the class is active, and all is as it was.
fn bring_first(machine: &mut Machine<'_>, classes: &[u32], class: u32) -> Option<u64>
    requires { IsInOrder (state_at machine.old) }
    ensures first { MatchOption result (list_any (λ e. updates_class (class_in classes.now) class e.1) machine.old.core.active ≡ false) (HasClassAt (class_in classes.now) class machine.new.core.active) }
    ensures permitted { IfSome result (λ number. machine.new.core.finished ≡ false → refusal (state_at machine.new) (entries.Update number) ≡ None) }
    ensures alike { AlikeIn (class_in classes.now) (state_at machine.old) (state_at machine.new) }
    ensures order { IsInOrder (state_at machine.new) }
    ensures rest { machine.new ≡ record machine.old { core = record machine.old.core { active = machine.new.core.active } } }
{
    let at = first_of_class(machine, classes, class)?;
    machine.bring_forward(at);
    machine.state().first_update()
}

// The turn of the first active evaluation of a process.
fn turn_of(machine: &Machine<'_>, process: u32) -> Result<Entry, Refusal>
    requires { IsInOrder (state_at machine.now) }
    ensures { MatchResult result (λ entry. (number : ℕ) × (entry ≡ entries.Turn number) × (action_in machine.now.core.active number ≡ Some (Evaluate process))) (λ _. list_any (λ e. evaluates process e.1) machine.now.core.active ≡ false) }
{
    match first_evaluation(machine, process) {
        Some(number) => Ok(Entry::Turn(number)),
        None => Err(Refusal::NotActive),
    }
}

// Whether an entry is a change of the regions.
fn is_change(entry: &Entry) -> bool
    ensures { IsTrue result ↔ IsChange entry.now }
{
    match entry {
        Entry::Turn(_) | Entry::Update(_) => false,
        _ => true,
    }
}

// A change of the regions, where it is the one that is due.
fn due_change(machine: &Machine<'_>, change: Entry) -> Result<Entry, Refusal>
    ensures ok { IfOk result (λ entry. (entry ≡ change) × IsChange change × (refusal (state_at machine.now) change ≡ None)) }
    ensures err { OnErr result (IsChange change → refusal (state_at machine.now) change ≢ None) }
{
    if is_change(&change) && machine.state().legal(&change) {
        return Ok(change);
    }
    Err(Refusal::NotDue)
}

/// The entry that takes a loose transition, where one is permitted. The first update of a class is brought before the others for it.
pub fn entry_for(
    machine: &mut Machine<'_>,
    classes: &[u32],
    transition: LooseTransition,
) -> Result<Entry, Refusal>
    requires { IsInOrder (state_at machine.old) }
    ensures entry { IfOk result (IsEntryFor (class_in classes.now) (state_at machine.old) (state_at machine.new) transition) }
    ensures refused { OnErr result (MayNotBeTaken (class_in classes.now) (state_at machine.old) transition) }
    ensures alike { AlikeIn (class_in classes.now) (state_at machine.old) (state_at machine.new) }
    ensures order { IsInOrder (state_at machine.new) }
    ensures rest { machine.new ≡ record machine.old { core = record machine.old.core { active = machine.new.core.active } } }
{
    if machine.is_finished() {
        return Err(Refusal::Finished);
    }
    match transition {
        LooseTransition::Process(process) => turn_of(machine, process),
        LooseTransition::FirstOf(class) => match bring_first(machine, classes, class) {
            Some(number) => Ok(Entry::Update(number)),
            None => Err(Refusal::NotActive),
        },
        LooseTransition::Change(change) => due_change(machine, change),
    }
}

/// Takes a loose transition: the turn of a process, the first update of a class, or a change of the regions. Its lines are appended,
/// as `Machine::take` does. After an `Err` the state is alike in classes to the one before.
pub fn take_loosely(
    machine: &mut Machine<'_>,
    classes: &[u32],
    transition: LooseTransition,
) -> Result<(), TakeFault>
    requires { IsInOrder (state_at machine.old) }
    // It is a loose step of this transition, up to the order of updates of different classes.
    ensures taken { OnOk result (IsTakenLoosely (class_in classes.now) machine.old.code (state_at machine.old) machine.old.lines transition (state_at machine.new) machine.new.lines) }
    ensures entries { OnOk result (machine.new.core.entries ≡ machine.old.core.entries + 1) }
    // Each fault has its reason, and leaves what is alike.
    ensures stop { IfErr result (IsNotTakenLoosely (class_in classes.now) machine.old transition) }
    ensures alike { OnErr result (AlikeIn (class_in classes.now) (state_at machine.old) (state_at machine.new)) }
    ensures lines { OnErr result (machine.new.lines ≡ machine.old.lines) }
    ensures few { OnErr result (machine.new.core.entries ≡ machine.old.core.entries) }
    ensures order { IsInOrder (state_at machine.new) }
    ensures code { machine.new.code ≡ machine.old.code }
{
    match entry_for(machine, classes, transition) {
        Ok(entry) => machine.take(entry),
        Err(refusal) => Err(TakeFault::Refused(refusal)),
    }
}
