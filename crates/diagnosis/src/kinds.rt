//! The notes of a source as they are listed: each kind once, at its first place, or each note.

ghost use Rattle.std.specs.Prelude.{◌≡◌, ◌++◌, ◌∷◌, [], if◌then◌else◌, count_by, map, IfOk, OnOk};
ghost use Rattle.std.specs.List.{list_any};
ghost use Rattle.diagnosis.specs.Kinds.{HasListed, for_itself, for_kind, is_of, kinds_of, listed_of};

use crate::notes::{Note, notes};
use crate::words::{Advice, is_same_advice};
use std::alloc::{AllocError, Global};
use std::fmt;

/// A note that is listed, and for how many notes of the source it stands: for all of its kind, of which it is the first, or for
/// itself.
#[derive(Clone, Copy)]
pub struct ListedNote {
    pub note: Note,
    pub places: usize,
}

impl ListedNote {
    /// A note that stands for all of its kind among these.
    fn for_kind(notes: &[Note], note: Note) -> ListedNote
        ensures { result ≡ for_kind notes.now note }
    {
        ListedNote {
            note,
            places: count_of(notes, note.advice),
        }
    }

    /// A note that stands for itself.
    fn for_itself(note: Note) -> ListedNote
        ensures { result ≡ for_itself note }
    {
        ListedNote { note, places: 1 }
    }
}

impl fmt::Display for ListedNote {
    fn fmt<W: fmt::Write>(&self, f: &mut fmt::Formatter<W>) -> fmt::Result {
        let advice = self.note.advice;
        match self.places {
            0 | 1 => write!(f, "{advice}"),
            places => write!(f, "{advice} ({places} places)"),
        }
    }
}

/// How many notes are of a kind.
fn count_of(notes: &[Note], advice: Advice) -> usize
    ensures { result ≡ count_by (is_of advice) notes.now }
{
    notes
        .iter()
        .filter(|note| is_same_advice(note.advice, advice))
        .count()
}

/// Whether a note of a kind is listed.
fn is_listed(listed: &[ListedNote], advice: Advice) -> bool
    ensures { result ≡ list_any (λ one. is_of advice one.note) listed.now }
{
    listed
        .iter()
        .any(|one| is_same_advice(one.note.advice, advice))
}

/// Lists a note that is the first of its kind, for all of the kind.
fn add_first(listed: &mut Vec<ListedNote>, notes: &[Note], note: &Note) -> Result<(), AllocError>
    ensures { OnOk result (listed.new.items ≡ listed.old.items ++ (if list_any (λ one. is_of note.now.advice one.note) listed.old.items then [] else for_kind notes.now note.now ∷ [])) }
{
    if is_listed(listed, note.advice) {
        return Ok(());
    }
    listed.push(ListedNote::for_kind(notes, *note))?;
    Ok(())
}

/// The kinds of some notes, each with its first note.
fn kinds(alloc: Global, notes: &[Note]) -> Result<Vec<ListedNote>, AllocError>
    ensures { IfOk result (λ listed. listed.items ≡ kinds_of notes.now) }
{
    let mut listed = Vec::new(alloc);
    for note in notes {
        add_first(&mut listed, notes, note)?;
    }
    Ok(listed)
}

/// Lists a note for itself.
fn add_itself(listed: &mut Vec<ListedNote>, note: &Note) -> Result<(), AllocError>
    ensures { OnOk result (listed.new.items ≡ listed.old.items ++ for_itself note.now ∷ []) }
{
    listed.push(ListedNote::for_itself(*note))?;
    Ok(())
}

/// Each of some notes.
fn each(alloc: Global, notes: &[Note]) -> Result<Vec<ListedNote>, AllocError>
    ensures { IfOk result (λ listed. listed.items ≡ map for_itself notes.now) }
{
    let mut listed = Vec::new(alloc);
    for note in notes {
        add_itself(&mut listed, note)?;
    }
    Ok(listed)
}

/// Each of some notes where all are asked for, and else each kind of them.
fn list(alloc: Global, notes: &[Note], all: bool) -> Result<Vec<ListedNote>, AllocError>
    ensures { IfOk result (λ listed. listed.items ≡ listed_of all notes.now) }
{
    if all {
        each(alloc, notes)
    } else {
        kinds(alloc, notes)
    }
}

/// The notes of a source, in the order of their places: all of them, or the first of each kind with the number of those of its
/// kind.
pub fn listed_notes(alloc: Global, source: &[u8], all: bool) -> Result<Vec<ListedNote>, AllocError>
    ensures { IfOk result (λ listed. HasListed source.now all listed.items) }
{
    let notes = notes(alloc, source)?;
    list(alloc, notes.as_slice(), all)
}
