//! The lawful orders of a design, found by its loose runs.
ghost use Rattle.std.specs.Prelude.{◌≡◌, ◌⊎◌, ◌<◌, ◌≤◌, [], length, None, Some, IfSome};
ghost use Rattle.std.specs.List.{All, AllPairs, Any};
ghost use Rattle.model.specs.Runs.{last_time};
ghost use Rattle.model.specs.Texts.{AreAllTexts, IsEndlessJournal, IsLawfulText, IsWithinLimits};
ghost use Rattle.design.specs.Compiled.{design_of};
ghost use Rattle.explore.specs.declared.stopped.Stopped.TheVariants as stop;
ghost use Rattle.looseruns.specs.ObservedJournals.{AreAllObservedTexts};
ghost use Rattle.observers.specs.Observers.{observer_of};
ghost use Rattle.lawful.specs.ArrangedNodes.{IsArrangedText, IsArrangementOf, registers_seen, searched_arranged};
ghost use Rattle.lawful.specs.Journals.{IsLedJournal};
ghost use Rattle.lawful.specs.LawfulOrders.{AreLawfulOrders, IsFollowedLoosely, MaySearch};
ghost use Rattle.lawful.specs.LooseNodes.{searched_runs};

use crate::journals::with_all_journals;
use crate::search::LooseRuns;
use crate::telling::{LinesAlone, RunTelling};
use design::Design;
use explore::{Bounds, Explored, Shown, Stopped, explore};
use loosejournals::{LeadScope, classes_of};
use looseruns::observed_end::ObservedEnd;
use model::end::{End, Limits};
use model::entry::Entry;
use observers::Observing;
use progress::Progress;
use settling::AnalyzedDesign;
use std::alloc::Global;

// What is searched: the lawful orders of a design within these limits, and how far.
#[derive(Clone, Copy)]
struct Scope<'a> {
    alloc: Global,
    design: &'a Design,
    limits: Limits,
    bounds: Bounds,
}

// What is found where memory is refused to a search from its start, or no text has a lawful journal.
fn nothing_found<E: Drop>(alloc: Global) -> Explored<Entry, E>
    ensures shown { result.shown.items ≡ [] }
    ensures stopped { result.stopped ≡ Some stop.Memory }
    ensures nodes { result.nodes ≡ 0 }
    ensures endless { result.endless ≡ None }
    ensures widest { result.widest ≡ None }
{
    Explored {
        shown: Vec::new(alloc),
        stopped: Some(Stopped::Memory),
        nodes: 0,
        endless: None,
        followed_before: None,
        widest: None,
    }
}

// Searches all loose runs of a design, in which an update waits for those of its class alone, and gives each text that is shown a lawful
// journal. None where no lawful journal is found of a text that loose runs show, or none that leads where a loose run leads from which no
// run comes to an end: that text may be one of no lawful journal, and the others may be fewer than all; lawful runs may all come to an end.
// Where memory is refused, to the search or to a journal behind it, it stops with what has a journal so far.
fn orders_by<T: RunTelling, P: Progress>(
    scope: Scope<'_>,
    telling: &T,
    progress: &P,
    classes: Vec<u32>,
) -> Option<Explored<Entry, T::End>>
    requires { MaySearch scope.limits scope.bounds }
    ensures { IfSome result (AreLawfulOrders (T.is_journal telling.now scope.entry.design.now scope.entry.limits) (T.are_all telling.now scope.entry.design.now scope.entry.limits) (λ class. T.runs telling.now scope.entry.design.now class scope.entry.limits) (design_of scope.entry.design.now) scope.entry.limits scope.entry.bounds) }
{
    let analyzed_design = AnalyzedDesign::of(scope.alloc, scope.design);
    let orders = LooseRuns::new(analyzed_design, classes, scope.limits, telling);
    let explored = explore(scope.alloc, &orders, scope.bounds, progress);
    let leading = LeadScope {
        alloc: scope.alloc,
        design: scope.design,
        limits: scope.limits,
        classes: orders.classes.as_slice(),
    };
    with_all_journals(telling, leading, explored)
}

// Searches by the classes that the design's nonblocking assignments need, and where these don't tell with all registers in one class: then
// each loose run is a lawful one.
fn told_orders<T: RunTelling, P: Progress>(
    telling: &T,
    alloc: Global,
    design: &Design,
    limits: Limits,
    bounds: Bounds,
    progress: &P,
) -> Explored<Entry, T::End>
    requires { MaySearch limits bounds }
    ensures { AreLawfulOrders (T.is_journal telling.now design.now limits) (T.are_all telling.now design.now limits) (λ class. T.runs telling.now design.now class limits) (design_of design.now) limits bounds result }
{
    let scope = Scope {
        alloc,
        design,
        limits,
        bounds,
    };
    let classes = match classes_of(alloc, design) {
        Ok(classes) => classes,
        Err(_) => return nothing_found(alloc),
    };
    if let Some(explored) = orders_by(scope, telling, progress, classes) {
        return explored;
    }
    // a register that isn't listed is of class 0
    match orders_by(scope, telling, progress, Vec::new(alloc)) {
        Some(explored) => explored,
        None => nothing_found(alloc),
    }
}

/// Searches all lawful orders of a design within these limits (11.4), on one thread. Each text that is shown is that of the lawful
/// journal beside it, and so is its end; no two have one text and one end; and where the search wasn't stopped, every lawful journal
/// in time that ends, but by the most entries or for want of memory, has a text and an end that are shown. What stopped it is told
/// (`Unfollowed`: a run has the most entries), and so is a lawful journal from which no run comes to an end, where one is known. No
/// journal has more than the most entries. How many states were reached is told at times. Unless memory was refused, a time is told before
/// which nothing was left out of the loose runs; and where most ways lead on is told by a lawful journal.
///
/// The loose runs of the design are searched, and each lawful journal is one. Where one of their texts has no lawful journal that is
/// found, the search is made once more with all registers in one class. Where memory is refused to a journal, the texts before it are
/// shown with theirs.
///
/// A text and an end that are known before have the journal that is known of them.
pub fn lawful_orders<P: Progress>(
    alloc: Global,
    design: &Design,
    limits: Limits,
    bounds: Bounds,
    known: &[Shown<Entry, End>],
    progress: &P,
) -> Explored<Entry, End>
    requires room { 0 < bounds.nodes }
    requires some_entry { 0 < limits.max_entries }
    requires until { IfSome limits.until (λ until. until ≤ last_time) }
    requires known { All (λ s. IsLawfulText (design_of design.now) limits s.moves.items s.text.items s.end × IsWithinLimits limits s.moves.items) known.now }
    ensures sound { All (λ s. IsLawfulText (design_of design.now) limits s.moves.items s.text.items s.end) result.shown.items }
    ensures distinct { AllPairs (λ s t. s.text.items ≡ t.text.items → s.end ≡ t.end → ⊥) result.shown.items }
    ensures within { All (λ s. IsWithinLimits limits s.moves.items) result.shown.items }
    ensures all { result.stopped ≡ None → AreAllTexts (design_of design.now) limits (λ text end. Any (λ s. (s.text.items ≡ text) × (s.end ≡ end)) result.shown.items) }
    ensures few { result.nodes ≤ bounds.nodes }
    ensures few_shown { length result.shown.items ≤ bounds.shown }
    ensures nodes { result.stopped ≡ Some stop.Nodes → result.nodes ≡ bounds.nodes }
    ensures full { result.stopped ≡ Some stop.Shown → length result.shown.items ≡ bounds.shown }
    ensures endless { IfSome result.endless (λ journal. IsEndlessJournal (design_of design.now) limits journal.items) }
    ensures before { (result.stopped ≡ Some stop.Memory) ⊎ IsFollowedLoosely (λ class. searched_runs design.now class limits) result }
    ensures widest { IfSome result.widest (λ journal. IsLedJournal (design_of design.now) limits journal.items) }
{
    let telling = LinesAlone { known };
    told_orders(&telling, alloc, design, limits, bounds, progress)
}

/// Searches all lawful orders of a design within these limits (11.4) for all that is observed of them: the lines of each time, in one order, and
/// what an observer sees whenever time passes, and of the last state. Each text that is shown is the observed one of the lawful journal beside
/// it, but for that order, and so is its observed end, before which the lines of the last time stand; no two have one text and one end; and where the
/// search wasn't stopped, every lawful journal in time that ends, but by the most entries or for want of memory, has its observed text and end
/// shown so. All else is as `lawful_orders` tells it.
///
/// Loose runs go on by themselves no further than to where time passes, where what the observer sees is taken. So there is a state for each
/// time, at least, and runs of which something else was seen never meet again. Runs that printed the same at one time, in whatever order, meet
/// where their states are alike.
pub fn observed_orders<P: Progress>(
    alloc: Global,
    design: &Design,
    limits: Limits,
    bounds: Bounds,
    observing: &Observing,
    progress: &P,
) -> Explored<Entry, ObservedEnd>
    requires room { 0 < bounds.nodes }
    requires some_entry { 0 < limits.max_entries }
    requires until { IfSome limits.until (λ until. until ≤ last_time) }
    ensures sound { All (λ s. IsArrangedText (design_of design.now) limits (registers_seen observing.now) (observer_of observing.now) s.moves.items s.text.items s.end) result.shown.items }
    ensures distinct { AllPairs (λ s t. s.text.items ≡ t.text.items → s.end ≡ t.end → ⊥) result.shown.items }
    ensures within { All (λ s. IsWithinLimits limits s.moves.items) result.shown.items }
    ensures all { result.stopped ≡ None → AreAllObservedTexts (design_of design.now) limits (observer_of observing.now) (λ text end. Any (λ s. IsArrangementOf (registers_seen observing.now) text end s.text.items s.end) result.shown.items) }
    ensures few { result.nodes ≤ bounds.nodes }
    ensures few_shown { length result.shown.items ≤ bounds.shown }
    ensures nodes { result.stopped ≡ Some stop.Nodes → result.nodes ≡ bounds.nodes }
    ensures full { result.stopped ≡ Some stop.Shown → length result.shown.items ≡ bounds.shown }
    ensures endless { IfSome result.endless (λ journal. IsEndlessJournal (design_of design.now) limits journal.items) }
    ensures before { (result.stopped ≡ Some stop.Memory) ⊎ IsFollowedLoosely (λ class. searched_arranged design.now class limits observing.now) result }
    ensures widest { IfSome result.widest (λ journal. IsLedJournal (design_of design.now) limits journal.items) }
{
    told_orders(observing, alloc, design, limits, bounds, progress)
}
