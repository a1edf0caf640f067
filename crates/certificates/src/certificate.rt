//! The notes of a run, and whether they certify.
ghost use Rattle.std.specs.Prelude.{◌≡◌, ◌<◌, ◌≤◌, ◌&&◌, ◌||◌, false, true, [], ◌∷◌, ◌++◌, take, slice_set, OnOk, OnErr, IfOk};
ghost use Rattle.std.specs.Vec.{vec_len};
ghost use Rattle.loose.specs.declared.transition.LooseTransition.{LooseTransition as Actor};
ghost use Rattle.certificates.specs.Coming.{is_same, is_of_any, AreOrdered, ComesOrIsApart};
ghost use Rattle.certificates.specs.Apart.{SayApart};
ghost use Rattle.certificates.specs.Actors.{has};
ghost use Rattle.certificates.specs.Certified.{Certify};
ghost use Rattle.certificates.specs.Summaries.{AreSummed};

use crate::actors::Actors;
use crate::apart::apart;
use crate::note::StepNote;
use crate::summary::Summary;
use loose::transition::LooseTransition;
use std::alloc::{AllocError, Global};
use std::marker::Model;
use std::mem;

// One step back from a last one, through those before it: whether it is apart from the last, where the last doesn't come of it. The
// actors by whose steps the last one may come are kept.
fn leads_or_is_apart(
    leading: &mut Actors,
    earlier: &StepNote,
    last: &StepNote,
) -> Result<bool, AllocError>
    ensures own { IfOk result (λ answer. answer ≡ true → is_of_any (has leading.old) earlier.now ≡ false → SayApart earlier.now last.now) }
    ensures only_own { IfOk result (λ answer. (is_of_any (has leading.old) earlier.now ≡ false → SayApart earlier.now last.now) → answer ≡ true) }
    ensures actors { OnOk result ((a : Actor) → has leading.new a ≡ (has leading.old a || (is_of_any (has leading.old) earlier.now && is_same earlier.now.owner a))) }
{
    if leading.begin_in(earlier) {
        leading.insert(earlier.owner)?;
        return Ok(true);
    }
    Ok(apart(earlier, last))
}

// Whether a last step comes of each of these, or is apart from it. The walk goes back from it, so that a set of actors tells by whose steps
// it may come: no step has to keep of which others it comes.
fn comes_or_is_apart(
    leading: &mut Actors,
    notes: &[StepNote],
    last: &StepNote,
) -> Result<bool, AllocError>
    ensures so { IfOk result (λ answer. answer ≡ true → ComesOrIsApart notes.now last.now) }
    ensures only_so { IfOk result (λ answer. ComesOrIsApart notes.now last.now → answer ≡ true) }
{
    leading.clear();
    leading.insert(last.owner)?;
    for place in (0..notes.len()).rev() {
        if !leads_or_is_apart(leading, &notes[place], last)? {
            return Ok(false);
        }
    }
    Ok(true)
}

// Whether steps that certified still do with a last one more. Mostly it is apart from all of them together.
fn still_certifies(
    certified: bool,
    summary: &Summary,
    leading: &mut Actors,
    notes: &[StepNote],
    last: &StepNote,
) -> Result<bool, AllocError>
    requires summed { summary.now.holds ≡ true → AreSummed summary.now notes.now }
    ensures before { IfOk result (λ answer. answer ≡ true → certified ≡ true) }
    ensures goes_on { IfOk result (λ answer. answer ≡ true → last.now.finishes ≡ false) }
    ensures apart { IfOk result (λ answer. answer ≡ true → ComesOrIsApart notes.now last.now) }
    ensures only_so { IfOk result (λ answer. certified ≡ true → last.now.finishes ≡ false → ComesOrIsApart notes.now last.now → answer ≡ true) }
{
    if !certified || last.finishes {
        return Ok(false);
    }
    if summary.keeps_off(last) {
        return Ok(true);
    }
    comes_or_is_apart(leading, notes, last)
}

// Makes room for one note more, behind the first ones.
fn make_room(
    alloc: Global,
    notes: &mut Vec<StepNote>,
    count: usize,
    owner: LooseTransition,
) -> Result<(), AllocError>
    requires { count ≤ vec_len notes.old }
    ensures room { OnOk result (count < vec_len notes.new) }
    ensures same { take count notes.new.items ≡ take count notes.old.items }
    ensures kept { count ≤ vec_len notes.new }
{
    if count == notes.len() {
        notes.push(StepNote::new(alloc, owner))?;
    }
    Ok(())
}

// Puts a note at a place, and takes the one that stood there.
fn exchange(notes: &mut Vec<StepNote>, place: usize, note: &mut StepNote)
    requires { place < vec_len notes.old }
    ensures items { notes.new.items ≡ slice_set notes.old.items place note.old }
    ensures as_many { vec_len notes.new ≡ vec_len notes.old }
{
    mem::swap(&mut notes[place], note);
}

/// The notes of a run, step by step, and whether they certify that it stands for all runs from its start. Notes that were cleared keep
/// their room.
#[derive(Drop)]
pub struct Certificate {
    notes: Vec<StepNote>,
    count: usize,
    certifies: bool,
    summary: Summary,
    leading: Actors,
    alloc: Global,
}

impl Model for Certificate {
    ghost use Rattle.std.specs.Prelude.{◌≡◌, ◌≤◌, true, List, take};
    ghost use Rattle.std.specs.Vec.{vec_len};
    ghost use Rattle.certificates.specs.Notes.{NoteView};
    ghost use Rattle.certificates.specs.Coming.{AreOrdered};
    ghost use Rattle.certificates.specs.Summaries.{AreSummed};

    ghost Value = { List NoteView };

    ghost view = { λ c. take c.count c.notes.items };

    ghost invariant = { λ c. (c.count ≤ vec_len c.notes) × (c.certifies ≡ true → AreOrdered (take c.count c.notes.items)) × (AreOrdered (take c.count c.notes.items) → c.certifies ≡ true) × (c.summary.holds ≡ true → AreSummed c.summary (take c.count c.notes.items)) };
}

impl Certificate {
    /// The notes of no steps.
    pub fn new(alloc: Global) -> Certificate
        ensures { result ≡ [] }
    {
        Certificate {
            notes: Vec::new(alloc),
            count: 0,
            certifies: true,
            summary: Summary::new(alloc),
            leading: Actors::new(alloc),
            alloc,
        }
    }

    /// Takes all notes out. They keep their room.
    pub fn clear(&mut self)
        ensures { self.new ≡ [] }
    {
        self.count = 0;
        self.certifies = true;
        self.summary.clear();
    }

    /// The notes, in the order of the steps.
    pub fn notes(&self) -> &[StepNote]
        ensures { result.now ≡ self.entry.now }
    {
        &self.notes[..self.count]
    }

    /// Whether the notes certify: none of the steps ends the run, and each later one comes of an earlier one or is apart from it.
    pub fn certifies(&self) -> bool
        ensures certified { result ≡ true → Certify self.now }
        ensures so { result ≡ true → AreOrdered self.now }
        ensures only_so { AreOrdered self.now → result ≡ true }
    {
        self.certifies
    }

    /// Adds the note of the next step, and answers whether the notes still certify. In its place another note is left, which may have
    /// anything in it, so that it is begun anew. After an `Err` the notes are as they were.
    pub fn add(&mut self, note: &mut StepNote) -> Result<bool, AllocError>
        ensures added { OnOk result (self.new ≡ self.old ++ note.old ∷ []) }
        ensures certified { IfOk result (λ certifies. certifies ≡ true → Certify self.new) }
        ensures so { IfOk result (λ certifies. certifies ≡ true → AreOrdered self.new) }
        ensures only_so { IfOk result (λ certifies. AreOrdered self.new → certifies ≡ true) }
        ensures unchanged { OnErr result (self.new ≡ self.old) }
        ensures note_unchanged { OnErr result (note.new ≡ note.old) }
    {
        make_room(self.alloc, &mut self.notes, self.count, note.owner)?;
        let certifies = still_certifies(
            self.certifies,
            &self.summary,
            &mut self.leading,
            &self.notes[..self.count],
            note,
        )?;
        self.summary.add(note)?;
        self.certifies = certifies;
        exchange(&mut self.notes, self.count, note);
        self.count += 1;
        Ok(certifies)
    }
}
