//! What was found of some actors, and how it is put together.
ghost use Rattle.std.specs.Prelude.{◌≡◌, [], ◌∷◌, ◌++◌, map, true, IfOk, OnOk};
ghost use Rattle.std.specs.List.{All};
ghost use Rattle.certificates.specs.Apart.{SayApart};
ghost use Rattle.looseparts.specs.PartLaws.{HaveEachBehind, SayAllApart};
ghost use Rattle.looseparts.specs.FoundWays.{ways_in};
ghost use Rattle.looseparts.specs.FoundParts.{AreAdded, IsPutBehind, IsPutTogether};

use certificates::apart::apart;
use certificates::note::StepNote;
use loose::transition::LooseTransition;
use std::alloc::{AllocError, Global};
use std::mem;

// The most ways that are found of some actors. More are dear to follow, and mostly of races with effect.
const MOST_WAYS: usize = 256;

/// What was found of some actors: ways to where none of them waits, ways to where the run has finished (17.4.1), and the notes of all
/// steps that they take.
#[derive(Drop)]
pub(crate) struct PartFindings {
    pub(crate) ways: Vec<Vec<LooseTransition>>,
    pub(crate) ends: Vec<Vec<LooseTransition>>,
    pub(crate) notes: Vec<StepNote>,
}

/// Some actors, and what was found of them.
#[derive(Drop)]
pub(crate) struct FoundPart {
    pub(crate) actors: Vec<LooseTransition>,
    pub(crate) found: PartFindings,
}

/// A way, or other actors in a row, with others behind them.
pub(crate) fn with_behind(
    alloc: Global,
    way: &[LooseTransition],
    behind: &[LooseTransition],
) -> Result<Vec<LooseTransition>, AllocError>
    ensures { IfOk result (λ longer. longer.items ≡ way.now ++ behind.now) }
{
    let mut longer = Vec::from_slice(alloc, way)?;
    longer.extend_from_slice(behind)?;
    Ok(longer)
}

// Adds a way with each of these behind it.
fn add_each_behind(
    alloc: Global,
    ways: &mut Vec<Vec<LooseTransition>>,
    way: &[LooseTransition],
    others: &[Vec<LooseTransition>],
) -> Result<(), AllocError>
    ensures { OnOk result (ways_in ways.new.items ≡ ways_in ways.old.items ++ map (λ other. way.now ++ other) (ways_in others.now)) }
{
    for other in others {
        let longer = with_behind(alloc, way, other)?;
        ways.push(longer)?;
    }
    Ok(())
}

// Each of these ways with each of the others behind it.
fn products(
    alloc: Global,
    ones: &[Vec<LooseTransition>],
    others: &[Vec<LooseTransition>],
) -> Result<Vec<Vec<LooseTransition>>, AllocError>
    ensures { IfOk result (λ ways. HaveEachBehind (ways_in ones.now) (ways_in others.now) (ways_in ways.items)) }
{
    let mut ways = Vec::new(alloc);
    for one in ones {
        add_each_behind(alloc, &mut ways, one, others)?;
    }
    Ok(ways)
}

// Moves others behind the items of a list. Where that has none, it takes their memory.
fn append_all<T>(list: &mut Vec<T>, others: &mut Vec<T>) -> Result<(), AllocError>
    ensures { OnOk result (list.new.items ≡ list.old.items ++ others.old.items) }
{
    if list.is_empty() {
        mem::swap(list, others);
        return Ok(());
    }
    list.append(others)
}

// Whether the way that takes no step is the only one of these.
fn is_no_step_alone(ways: &[Vec<LooseTransition>]) -> bool
    ensures { result ≡ true → ways_in ways.now ≡ [] ∷ [] }
{
    if ways.len() != 1 {
        return false;
    }
    ways[0].is_empty()
}

// Whether a note says that it is apart from each of these.
fn is_apart_from_all(note: &StepNote, others: &[StepNote]) -> bool
    ensures { result ≡ true → All (SayApart note.now) others.now }
{
    for other in others {
        if !apart(note, other) {
            return false;
        }
    }
    true
}

/// Whether each of these notes says that it is apart from each of the others.
pub(crate) fn are_all_apart(notes: &[StepNote], others: &[StepNote]) -> bool
    ensures { result ≡ true → SayAllApart notes.now others.now }
{
    for note in notes {
        if !is_apart_from_all(note, others) {
            return false;
        }
    }
    true
}

impl PartFindings {
    /// Nothing yet.
    pub(crate) fn new(alloc: Global) -> PartFindings
        ensures ways { result.ways.items ≡ [] }
        ensures ends { result.ends.items ≡ [] }
        ensures notes { result.notes.items ≡ [] }
    {
        PartFindings {
            ways: Vec::new(alloc),
            ends: Vec::new(alloc),
            notes: Vec::new(alloc),
        }
    }

    /// What is found of nobody: the way that takes no step.
    pub(crate) fn of_nobody(alloc: Global) -> Result<PartFindings, AllocError>
        ensures ways { IfOk result (λ found. ways_in found.ways.items ≡ [] ∷ []) }
        ensures ends { IfOk result (λ found. ways_in found.ends.items ≡ []) }
        ensures notes { IfOk result (λ found. found.notes.items ≡ []) }
    {
        let mut found = PartFindings::new(alloc);
        found.ways.push(Vec::new(alloc))?;
        Ok(found)
    }

    /// What is found where the run has finished: no way on, and the way to that end that takes no step.
    pub(crate) fn of_end(alloc: Global) -> Result<PartFindings, AllocError>
        ensures { IfOk result (λ found. ways_in found.ends.items ≡ [] ∷ []) }
    {
        let mut found = PartFindings::new(alloc);
        found.ends.push(Vec::new(alloc))?;
        Ok(found)
    }

    /// Puts the step of an actor, which has this note, before all that was found.
    pub(crate) fn put_behind(
        &mut self,
        alloc: Global,
        actor: LooseTransition,
        note: StepNote,
    ) -> Result<(), AllocError>
        ensures { OnOk result (IsPutBehind actor (note ∷ []) self.old self.new) }
    {
        self.notes.push(note)?;
        let mut ways = Vec::new(alloc);
        add_each_behind(alloc, &mut ways, &[actor], &self.ways)?;
        self.ways = ways;
        let mut ends = Vec::new(alloc);
        add_each_behind(alloc, &mut ends, &[actor], &self.ends)?;
        self.ends = ends;
        Ok(())
    }

    /// Adds what was found where another actor steps first.
    pub(crate) fn add_all(&mut self, next: &mut PartFindings) -> Result<(), AllocError>
        ensures { OnOk result (AreAdded self.old next.old self.new) }
    {
        append_all(&mut self.ways, &mut next.ways)?;
        append_all(&mut self.ends, &mut next.ends)?;
        append_all(&mut self.notes, &mut next.notes)
    }

    // Puts ways behind its own. Behind the way that takes no step alone they stay as they are.
    fn put_ways_behind(
        &mut self,
        alloc: Global,
        others: &mut Vec<Vec<LooseTransition>>,
    ) -> Result<(), AllocError>
        ensures ways { OnOk result (HaveEachBehind (ways_in self.old.ways.items) (ways_in others.old.items) (ways_in self.new.ways.items)) }
        ensures rest { self.new ≡ record self.old { ways = self.new.ways } }
    {
        if is_no_step_alone(&self.ways) {
            mem::swap(&mut self.ways, others);
            return Ok(());
        }
        self.ways = products(alloc, &self.ways, others)?;
        Ok(())
    }

    /// Puts what was found of others behind it, where all steps of both are apart and they have few ways together. Answers whether it
    /// did.
    pub(crate) fn add_part(
        &mut self,
        alloc: Global,
        other: &mut PartFindings,
    ) -> Result<bool, AllocError>
        ensures { IfOk result (λ done. done ≡ true → IsPutTogether self.old other.old self.new) }
    {
        if self.ways.len().saturating_mul(other.ways.len()) > MOST_WAYS {
            return Ok(false);
        }
        if !are_all_apart(&self.notes, &other.notes) {
            return Ok(false);
        }
        append_all(&mut self.ends, &mut other.ends)?;
        append_all(&mut self.notes, &mut other.notes)?;
        self.put_ways_behind(alloc, &mut other.ways)?;
        Ok(true)
    }
}
