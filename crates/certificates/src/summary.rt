//! What the notes of several steps say together: most steps are told apart from all of these at once.
ghost use Rattle.std.specs.Prelude.{◌≡◌, ℕ, ◌==◌, ◌||◌, false, true, OnErr, OnOk};
ghost use Rattle.std.specs.List.{list_any};
ghost use Rattle.certificates.specs.Marks.{is_marked};
ghost use Rattle.certificates.specs.Summaries.{HasMarked, HasMore, IsSummed, KeepsOff, LeavesMarked, is_event};

use crate::actors::Actors;
use crate::marked::{is_marked_at, mark};
use crate::note::StepNote;
use loose::transition::LooseTransition;
use std::alloc::{AllocError, Global};

/// What the notes of several steps say together, with a mark for each number: the actors whose steps these are, and the processes that
/// they wake; the registers that they write, those that they change, and those that they use or for which somebody waits; the classes for
/// which they have updates; and whether one prints, and meets `$strobe`. `holds` is whether all of them are told of.
#[derive(Drop)]
pub(crate) struct Summary {
    pub holds: bool,
    actors: Actors,
    written: Vec<bool>,
    changed: Vec<bool>,
    seen: Vec<bool>,
    assigned: Vec<bool>,
    prints: bool,
    strobes: bool,
}

// Whether an actor takes events: it is a process, or a class of registers.
fn takes_events(actor: LooseTransition) -> bool
    ensures { result ≡ is_event actor }
{
    match actor {
        LooseTransition::Process(_) => true,
        LooseTransition::FirstOf(_) => true,
        LooseTransition::Change(_) => false,
    }
}

// Whether a noted step takes an event and doesn't end the run: of others a summary doesn't tell.
fn may_be_told(note: &StepNote) -> bool
    ensures event { result ≡ true → is_event note.now.owner ≡ true }
    ensures goes_on { result ≡ true → note.now.finishes ≡ false }
{
    takes_events(note.owner) && !note.finishes
}

// Whether the class of one of these updates is marked.
fn is_any_assigned(marks: &[bool], assigns: &[(u32, u64)]) -> bool
    ensures { result ≡ list_any (λ a. is_marked marks.now a.0) assigns.now }
{
    assigns
        .iter()
        .any(|assigned| is_marked_at(marks, assigned.0))
}

// Marks the class of each of these updates.
fn mark_assigned(marks: &mut Vec<bool>, assigns: &[(u32, u64)]) -> Result<(), AllocError>
    ensures { OnOk result ((c : ℕ) → is_marked marks.new.items c ≡ (is_marked marks.old.items c || list_any (λ a. a.0 == c) assigns.now)) }
{
    for assigned in assigns {
        mark(marks, assigned.0)?;
    }
    Ok(())
}

impl Summary {
    /// That of no notes.
    pub fn new(alloc: Global) -> Summary {
        Summary {
            holds: true,
            actors: Actors::new(alloc),
            written: Vec::new(alloc),
            changed: Vec::new(alloc),
            seen: Vec::new(alloc),
            assigned: Vec::new(alloc),
            prints: false,
            strobes: false,
        }
    }

    /// Takes all out.
    pub fn clear(&mut self) {
        self.holds = true;
        self.actors.clear();
        self.prints = false;
        self.strobes = false;
        self.written.clear();
        self.changed.clear();
        self.seen.clear();
        self.assigned.clear();
    }

    // Takes in the actors of a note, and its registers and classes.
    fn mark_all(&mut self, note: &StepNote) -> Result<(), AllocError>
        ensures marked { OnOk result (HasMarked self.old self.new note.now) }
        ensures holds { self.new.holds ≡ self.old.holds }
    {
        self.actors.insert_begun(note)?;
        note.writes.mark_all(&mut self.written)?;
        note.changes.mark_all(&mut self.changed)?;
        note.uses.mark_all(&mut self.seen)?;
        note.awaits.mark_registers(&mut self.seen)?;
        note.ended.mark_registers(&mut self.seen)?;
        mark_assigned(&mut self.assigned, note.assigns.as_slice())
    }

    /// Takes a note in. It doesn't hold any more after that of a step that ends the run or takes no event, and after an `Err`.
    pub fn add(&mut self, note: &StepNote) -> Result<(), AllocError>
        ensures more { OnOk result (HasMore self.old self.new) }
        ensures summed { OnOk result (self.new.holds ≡ true → IsSummed self.new note.now) }
        ensures before { OnOk result (self.new.holds ≡ true → self.old.holds ≡ true) }
        ensures gone { OnErr result (self.new.holds ≡ false) }
    {
        let holds = self.holds & may_be_told(note);
        self.holds = false;
        self.mark_all(note)?;
        self.prints = self.prints | note.prints;
        self.strobes = self.strobes | note.strobes;
        self.holds = holds;
        Ok(())
    }

    // Whether a step leaves alone what is marked: it writes no register that is written, changes none that is used or for which somebody
    // waits, and uses none and waits for none that is changed.
    fn leaves_registers(&self, note: &StepNote) -> bool
        ensures { result ≡ true → LeavesMarked self.now note.now }
    {
        !note.writes.is_any_marked(self.written.as_slice())
            && !note.changes.is_any_marked(self.seen.as_slice())
            && !note.uses.is_any_marked(self.changed.as_slice())
            && !note.awaits.is_any_register_marked(self.changed.as_slice())
            && !note.ended.is_any_register_marked(self.changed.as_slice())
    }

    /// Whether a step, which doesn't end the run, is apart from all of which is told here. The answer may be no where it is: where two
    /// updates are of one class and for different times, and where a register is awaited that changes otherwise.
    pub fn keeps_off(&self, note: &StepNote) -> bool
        ensures { result ≡ true → KeepsOff self.now note.now }
    {
        self.holds
            && takes_events(note.owner)
            && !self.actors.begin_in(note)
            && self.leaves_registers(note)
            && !is_any_assigned(self.assigned.as_slice(), note.assigns.as_slice())
            && !(self.prints && note.prints)
            && !(self.strobes && note.strobes)
    }
}
