//! What is told of the runs of a search: their lines, or what is observed of them besides.
ghost use Rattle.std.specs.Prelude.{◌≡◌, ◌≤◌, ◌↔◌, ◌⊎◌, ◌++◌, ℕ, List, [], IsTrue, IfOk, IfSome, OnOk};
ghost use Rattle.model.specs.declared.end.Limits.{Limits as RunLimits};
ghost use Rattle.model.specs.declared.entry.Entry.{Entry as JournalEntry};
ghost use Rattle.design.specs.Compiled.{Compiled, design_of};
ghost use Rattle.explore.specs.SearchedRuns.{Runs};
ghost use Rattle.loose.specs.declared.transition.LooseTransition.{LooseTransition as Transition};
ghost use Rattle.loose.specs.Classes.{class_in};
ghost use Rattle.wavetexts.specs.Reading.{text_with, unread};
ghost use Rattle.lawful.specs.ArrangedNodes.{tail_at};
ghost use Rattle.lawful.specs.Journals.{IsKnownJournal, IsTextAmong};
ghost use Rattle.lawful.specs.LooseNodes.{searched_runs};
ghost use Rattle.lawful.specs.declared.node.LooseNode.{LooseNode as Node};

use crate::again::again;
use crate::arranged_journals::arranged_journal;
use crate::arranged_ways::{arranged_ways, registers_of};
use crate::expand::LooseWays;
use crate::node::LooseNode;
use crate::observed_ways::observed_ways;
use crate::search_room::SearchRoom;
use crate::seen_again::{SeeingScope, seen_again};
use crate::tail_key::fill_tail_key;
use explore::{Expanded, Shown};
use loose::transition::LooseTransition;
use loosejournals::{LeadScope, LooseRun, lawful_journal, seen_journal};
use looseruns::observed_end::ObservedEnd;
use loosewalks::WalkStops;
use model::end::End;
use model::entry::Entry;
use observers::{Observing, push_seen};
use regions::Machine;
use std::alloc::{AllocError, Global};
use wavetexts::TextTail;

/// A loose run that is shown, by its transitions, with its text and what is told of its end.
pub(crate) type ShownLoosely<E> = Shown<LooseTransition, E>;

/// A lawful journal, where one is found. Fails where memory is refused.
pub(crate) type FoundJournal = Result<Option<Vec<Entry>>, AllocError>;

/// The ways from a node, with what is told of them and of ends. Fails where memory is refused.
pub(crate) type ToldWays<'d, E> = Result<Expanded<LooseNode<'d>, LooseTransition, E>, AllocError>;

/// What is told of runs, and of their ends.
pub(crate) trait RunTelling: Drop {
    ghost use Rattle.model.specs.Runs.{last_time};
    ghost use Rattle.model.specs.States.{State};
    ghost use Rattle.regions.specs.Machine.{state_at};
    ghost use Rattle.explore.specs.Search.{AreAllShown, IsEndless, Serves};
    ghost use Rattle.explore.specs.declared.Shown.{Shown as ShownRun};
    ghost use Rattle.looseruns.specs.LooseRuns.{StandsLoosely};
    ghost use Rattle.lawful.specs.Journals.{texts_and_ends};
    ghost use Rattle.lawful.specs.LooseNodes.{HoldsEffect, IsExpandedAt};
    ghost use Rattle.lawful.specs.Told.{AreWaysFrom};

    /// What is told of a run's end.
    type End: Drop;

    /// The loose runs of a design by these classes within limits, as they are told.
    ghost runs: { Self → Compiled → (ℕ → ℕ) → RunLimits → Runs Transition Node Self.End };

    /// These bytes are the key of a node.
    ghost is_key: { Self → (ℕ → ℕ) → Node → List ℕ → Type 0 };

    /// What is told of a state from which time passes.
    ghost sight: { Self → State → List ℕ };

    /// A text and an end are those of a lawful journal.
    ghost is_journal: { Self → Compiled → RunLimits → List ℕ → Self.End → List JournalEntry → Type 0 };

    /// These are the texts and the ends of all lawful journals in time.
    ghost are_all: { Self → Compiled → RunLimits → List (List ℕ × Self.End) → Type 0 };

    /// Where walks stop.
    fn stops(&self) -> WalkStops;

    /// What is told of the state of a machine, where time passes from it. Fails where memory is refused.
    fn see(&self, alloc: Global, machine: &Machine<'_>) -> Result<Vec<u8>, AllocError>
        ensures { IfOk result (λ seen. seen.items ≡ sight self.now (state_at machine.now)) };

    /// What is told of ways from a node, where this of its run's text isn't in order for good, and this is told of its state. Fails where memory is
    /// refused.
    fn tell<'d>(
        &self,
        alloc: Global,
        tail: &TextTail,
        seen: &[u8],
        ways: LooseWays<'d>,
    ) -> ToldWays<'d, Self::End>
        ensures { IfOk result (λ told. (class : ℕ → ℕ) (code : Compiled) (limits : RunLimits) (node : Node) (run : List Transition) → (runs self.now code class limits).Stands node run → text_with [] tail.now ≡ tail_at node → seen.now ≡ sight self.now (state_at node.machine.value) → IsExpandedAt class node.machine.value.code limits (state_at node.machine.value) ways.entry → AreWaysFrom (runs self.now code class limits) run told) };

    /// Fills `key` with the key of a node. Where memory is refused, any bytes may stand there.
    fn key(
        &self,
        room: &mut SearchRoom<'_>,
        key: &mut Vec<u8>,
        node: &LooseNode<'_>,
        classes: &[u32],
    ) -> Result<(), AllocError>
        ensures { OnOk result (is_key self.now (class_in classes.now) node.now key.new.items) };

    /// The node of a run that goes on by these transitions from the run of a node. That some node stands there was found before.
    fn again<'d>(
        &self,
        alloc: Global,
        room: &mut SearchRoom<'_>,
        from: &LooseNode<'d>,
        classes: &[u32],
        moves: &[LooseTransition],
    ) -> Result<LooseNode<'d>, AllocError>
        ensures { IfOk result (λ node. (code : Compiled) (limits : RunLimits) (run : List Transition) (other : Node) → (runs self.now code (class_in classes.now) limits).Stands from.now run → (runs self.now code (class_in classes.now) limits).Stands other (run ++ moves.now) → (runs self.now code (class_in classes.now) limits).Stands node (run ++ moves.now)) };

    /// Whether two ends are told alike.
    fn is_one_end(&self, a: &Self::End, b: &Self::End) -> bool
        ensures { IsTrue result ↔ (a.now ≡ b.now) };

    /// A lawful journal of the text and the end of a loose run that is shown. None where none is found. Fails where memory is refused.
    fn journal(&self, scope: LeadScope<'_>, shown: &ShownLoosely<Self::End>) -> FoundJournal
        requires until { IfSome scope.limits.until (λ until. until ≤ last_time) }
        ensures { IfOk result (λ found. IfSome found (λ journal. is_journal self.now scope.entry.design.now scope.entry.limits shown.now.text.items shown.now.end journal.items)) };

    /// A node stands at a run that is told where it does at the loose run.
    ghost stands_loosely: { (telling : Self) (code : Compiled) (class : ℕ → ℕ) (limits : RunLimits) (node : Node) (run : List Transition) → (runs telling code class limits).Stands node run → StandsLoosely (HoldsEffect code) class (design_of code) limits node run };

    /// A node at which no transition was taken, of whose text nothing was read, stands there, too.
    ghost starts: { (telling : Self) (code : Compiled) (class : ℕ → ℕ) (limits : RunLimits) (node : Node) → StandsLoosely (HoldsEffect code) class (design_of code) limits node [] → tail_at node ≡ unread → (runs telling code class limits).Stands node [] };

    /// Nothing is told of a run before its first transition.
    ghost silent: { (telling : Self) (code : Compiled) (class : ℕ → ℕ) (limits : RunLimits) → (runs telling code class limits).text [] ≡ [] };

    /// Runs that go on alike serve one another.
    ghost alike: { (telling : Self) (code : Compiled) (class : ℕ → ℕ) (limits : RunLimits) (i j : List Transition) → (runs telling code class limits).Alike i j → Serves (runs telling code class limits) i j };

    /// Runs of one text that lead to nodes of one key go on alike.
    ghost keyed: { (telling : Self) (code : Compiled) (class : ℕ → ℕ) (limits : RunLimits) (a b : Node) (i j : List Transition) (key : List ℕ) → is_key telling class a key → is_key telling class b key → (runs telling code class limits).Stands a i → (runs telling code class limits).Stands b j → (runs telling code class limits).text i ≡ (runs telling code class limits).text j → (runs telling code class limits).Alike i j };

    /// Where all runs are shown, so are the texts and the ends of all lawful journals in time.
    ghost all_told: { (telling : Self) (code : Compiled) (class : ℕ → ℕ) (limits : RunLimits) (shown : List (ShownRun Transition Self.End)) → AreAllShown (runs telling code class limits) shown → are_all telling code limits (texts_and_ends shown) };

    /// A run that is told to come to no end comes to none.
    ghost endless: { (telling : Self) (code : Compiled) (class : ℕ → ℕ) (limits : RunLimits) (run : List Transition) → IsEndless (runs telling code class limits) run → IsEndless (searched_runs code class limits) run };
}

/// Of a run its lines are told, and how it ends. Of some texts and ends a journal is known before.
#[derive(Clone, Copy)]
pub(crate) struct LinesAlone<'a> {
    pub(crate) known: &'a [Shown<Entry, End>],
}

// Whether what is known has this text and this end.
fn is_same(one: &Shown<Entry, End>, text: &[u8], end: End) -> bool
    ensures { IsTrue result → (one.now.text.items ≡ text.now) × (one.now.end ≡ end) }
{
    if one.end != end {
        return false;
    }
    one.text.as_slice() == text
}

// The entries of a journal, once more. Fails where memory is refused.
fn copied(alloc: Global, journal: &[Entry]) -> Result<Vec<Entry>, AllocError>
    ensures { IfOk result (λ entries. entries.items ≡ journal.now) }
{
    let mut entries = Vec::new(alloc);
    entries.extend_from_slice(journal)?;
    Ok(entries)
}

// The journal that is known of a text and an end. None where none is known. Fails where memory is refused.
fn known_journal(
    alloc: Global,
    known: &[Shown<Entry, End>],
    text: &[u8],
    end: End,
) -> Result<Option<Vec<Entry>>, AllocError>
    ensures { IfOk result (λ found. IfSome found (λ journal. IsKnownJournal known.now text.now end journal.items)) }
{
    for one in known.iter() {
        if is_same(one, text, end) {
            let journal = copied(alloc, one.moves.as_slice())?;
            return Ok(Some(journal));
        }
    }
    Ok(None)
}

impl RunTelling for LinesAlone<'_> {
    ghost use Rattle.std.specs.Prelude.{refl};
    ghost use Rattle.model.specs.Texts.{AreAllTexts};
    ghost use Rattle.statekeys.specs.ClassKeys.{IsClassKey};
    ghost use Rattle.loosejournals.specs.FoundJournals.{IsJournalOf};
    ghost use Rattle.lawful.specs.Serving.{all_texts_told, loose_alike, loose_keyed};

    type End = End;

    ghost runs = { λ _ code class limits. searched_runs code class limits };

    ghost is_key = { λ _ class node key. IsClassKey class node.machine.value.core node.machine.value.values key };

    ghost sight = { λ _ _. [] };

    ghost is_journal = { λ telling code limits text end journal. IsJournalOf code limits text end journal ⊎ IsKnownJournal telling.known.now text end journal };

    ghost are_all = { λ _ code limits told. AreAllTexts (design_of code) limits (IsTextAmong told) };

    fn stops(&self) -> WalkStops {
        WalkStops::AtChoices
    }

    fn see(&self, alloc: Global, _machine: &Machine<'_>) -> Result<Vec<u8>, AllocError> {
        Ok(Vec::new(alloc))
    }

    fn tell<'d>(
        &self,
        _alloc: Global,
        _tail: &TextTail,
        _seen: &[u8],
        ways: LooseWays<'d>,
    ) -> ToldWays<'d, End> {
        Ok(ways)
    }

    fn key(
        &self,
        room: &mut SearchRoom<'_>,
        key: &mut Vec<u8>,
        node: &LooseNode<'_>,
        classes: &[u32],
    ) -> Result<(), AllocError> {
        room.parts.fill_key(key, &node.machine, classes)
    }

    fn again<'d>(
        &self,
        alloc: Global,
        room: &mut SearchRoom<'_>,
        from: &LooseNode<'d>,
        classes: &[u32],
        moves: &[LooseTransition],
    ) -> Result<LooseNode<'d>, AllocError> {
        let machine = again(alloc, room, &from.machine, classes, moves)?;
        Ok(LooseNode {
            machine,
            tail: TextTail::new(alloc),
        })
    }

    fn is_one_end(&self, a: &End, b: &End) -> bool {
        *a == *b
    }

    // A journal that is known is taken, so that none is led.
    fn journal(&self, scope: LeadScope<'_>, shown: &ShownLoosely<End>) -> FoundJournal {
        let run = LooseRun {
            moves: shown.moves.as_slice(),
            text: shown.text.as_slice(),
            end: shown.end,
        };
        match known_journal(scope.alloc, self.known, run.text, run.end)? {
            Some(journal) => Ok(Some(journal)),
            None => lawful_journal(scope, run),
        }
    }

    ghost stands_loosely = { λ _ code class limits node run at. at };

    ghost starts = { λ _ code class limits node at none. at };

    ghost silent = { λ _ code class limits. refl };

    ghost alike = { λ _ code class limits i j is. loose_alike code class limits i j is };

    ghost keyed = { λ _ code class limits a b i j key of_a of_b at bt text. loose_keyed code class limits a b i j key of_a of_b at bt text };

    ghost all_told = { λ _ code class limits shown all. all_texts_told code class limits shown all };

    ghost endless = { λ _ code class limits run is. is };
}

// Of a run is told what is observed of it, with the lines of each time in order: runs that print the same in other orders at one time are one where their
// states are alike. Walks go no further than to where time passes, where what is seen is told behind the lines.
impl RunTelling for Observing {
    ghost use Rattle.std.specs.Prelude.{refl};
    ghost use Rattle.looseruns.specs.ObservedJournals.{AreAllObservedTexts};
    ghost use Rattle.observers.specs.Observers.{observer_of};
    ghost use Rattle.lawful.specs.ArrangedNodes.{IsArrangedAmong, IsArrangedJournalOf, IsTailKey, registers_seen, searched_arranged};
    ghost use Rattle.lawful.specs.Serving.{all_arranged_told, arranged_alike, arranged_endless, arranged_keyed, arranged_starts, stands_plainly};

    type End = ObservedEnd;

    ghost runs = { λ o code class limits. searched_arranged code class limits o };

    ghost is_key = { λ _ class node key. IsTailKey class node key };

    ghost sight = { λ o s. observer_of o s };

    ghost is_journal = { λ o code limits text end journal. IsArrangedJournalOf code limits o text end journal };

    ghost are_all = { λ o code limits told. AreAllObservedTexts (design_of code) limits (observer_of o) (IsArrangedAmong (registers_seen o) told) };

    fn stops(&self) -> WalkStops {
        WalkStops::AtTime
    }

    fn see(&self, alloc: Global, machine: &Machine<'_>) -> Result<Vec<u8>, AllocError> {
        let mut seen = Vec::new(alloc);
        push_seen(&mut seen, self, machine)?;
        Ok(seen)
    }

    fn tell<'d>(
        &self,
        alloc: Global,
        tail: &TextTail,
        seen: &[u8],
        ways: LooseWays<'d>,
    ) -> ToldWays<'d, ObservedEnd> {
        let registers = registers_of(self);
        let told = observed_ways(alloc, seen, ways)?;
        let arranged = arranged_ways(alloc, registers, tail, told)?;
        Ok(arranged)
    }

    fn key(
        &self,
        room: &mut SearchRoom<'_>,
        key: &mut Vec<u8>,
        node: &LooseNode<'_>,
        classes: &[u32],
    ) -> Result<(), AllocError> {
        fill_tail_key(room, key, node, classes)
    }

    fn again<'d>(
        &self,
        alloc: Global,
        room: &mut SearchRoom<'_>,
        from: &LooseNode<'d>,
        classes: &[u32],
        moves: &[LooseTransition],
    ) -> Result<LooseNode<'d>, AllocError> {
        let seeing = SeeingScope {
            classes,
            observing: self,
        };
        let node = seen_again(alloc, room, seeing, from, moves)?;
        Ok(node)
    }

    fn is_one_end(&self, a: &ObservedEnd, b: &ObservedEnd) -> bool {
        a.is_same(b)
    }

    fn journal(&self, scope: LeadScope<'_>, shown: &ShownLoosely<ObservedEnd>) -> FoundJournal {
        let found = seen_journal(scope, self, &shown.moves, shown.end.end)?;
        match found {
            Some(seen) => arranged_journal(scope.alloc, self, seen, shown),
            None => Ok(None),
        }
    }

    ghost stands_loosely = { λ o code class limits node run at. stands_plainly class code limits (observer_of o) node run at.observed };

    ghost starts = { λ o code class limits node at none. arranged_starts code class limits o node at none };

    ghost silent = { λ _ code class limits. refl };

    ghost alike = { λ o code class limits i j is. arranged_alike code class limits o i j is };

    ghost keyed = { λ o code class limits a b i j key of_a of_b at bt text. arranged_keyed code class limits o a b i j key of_a of_b at bt text };

    ghost all_told = { λ o code class limits shown all. all_arranged_told o code class limits shown all };

    ghost endless = { λ o code class limits run is. arranged_endless code class limits o run is };
}
