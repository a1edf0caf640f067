//! What is shown.
ghost use Rattle.std.specs.Prelude.{◌≡◌, ◌++◌, ◌↔◌, [], false, length, get_or, IsTrue, IfOk};
ghost use Rattle.std.specs.List.{All};
ghost use Rattle.explore.specs.SearchKept.{HoldsRun};
ghost use Rattle.explore.specs.Search.{AreShownFurther, AreShownWell, Differs, IsEndedPath, IsShown};
ghost use Rattle.explore.specs.Lineage.{ways};

use crate::kept::Reached;
use crate::lineage::{Lineage, MOVE_BYTES};
use crate::text_table::TextTable;
use crate::{EndedPath, Orders, SearchScope, Shown};
use std::alloc::AllocError;

// About how many bytes one that is shown takes, besides its text and its moves.
const SHOWN_BYTES: usize = 96;

/// About how many bytes those take that are shown from this place on.
pub(crate) fn bytes_since<M: Copy, E>(shown: &[Shown<M, E>], since: usize) -> usize {
    let mut bytes = 0_usize;
    for place in since..shown.len() {
        let one = &shown[place];
        let moves = one.moves.capacity().saturating_mul(MOVE_BYTES);
        let text = one.text.capacity().saturating_add(SHOWN_BYTES);
        bytes = bytes.saturating_add(text).saturating_add(moves);
    }
    bytes
}

/// A run that was reached, and what holds its moves and its text.
pub(crate) struct ReachedRun<'a, M> {
    pub(crate) lineage: &'a Lineage<M>,
    pub(crate) texts: &'a TextTable,
    pub(crate) reached: Reached,
}

impl<M> Copy for ReachedRun<'_, M> {}

impl<M> Clone for ReachedRun<'_, M> {
    fn clone(&self) -> Result<Self, AllocError> {
        Ok(*self)
    }
}

/// Whether this text and this end are those of what is shown.
fn is_same<O: Orders>(
    orders: &O,
    one: &Shown<O::Move, O::End>,
    text: &Vec<u8>,
    end: &O::End,
) -> bool
    ensures { IsTrue result ↔ ((one.now.text.items ≡ text.now.items) × (one.now.end ≡ end.now)) }
{
    if !orders.same_end(&one.end, end) {
        return false;
    }
    one.text.as_slice() == text.as_slice()
}

/// Whether this text and this end are shown.
fn is_shown<O: Orders>(
    orders: &O,
    shown: &[Shown<O::Move, O::End>],
    text: &Vec<u8>,
    end: &O::End,
) -> bool
    ensures there { IsTrue result → IsShown shown.now text.now.items end.now }
    ensures apart { result ≡ false → All (Differs text.now.items end.now) shown.now }
{
    for one in shown.iter() {
        if is_same(orders, one, text, end) {
            return true;
        }
    }
    false
}

/// Adds the text and the end of a way that goes on from a run, unless they are there. The answer is whether they are
/// there now.
fn show<O: Orders>(
    scope: SearchScope<'_, O>,
    run: ReachedRun<'_, O::Move>,
    shown: &mut Vec<Shown<O::Move, O::End>>,
    ended: EndedPath<O::Move, O::End>,
) -> Result<bool, AllocError>
    requires run { HoldsRun (O.runs scope.orders.now) run.lineage.now run.texts.now run.reached }
    requires shown { AreShownWell (O.runs scope.orders.now) scope.bounds.shown shown.old.items }
    requires ended { IsEndedPath (O.runs scope.orders.now) (get_or (ways run.lineage.now) run.reached.number []) ended }
    ensures shown { AreShownFurther (O.runs scope.entry.orders.now) scope.entry.bounds.shown shown.old.items shown.new.items }
    ensures full { IfOk result (λ there. there ≡ false → length shown.new.items ≡ scope.entry.bounds.shown) }
    ensures there { IfOk result (λ there. IsTrue there → IsShown shown.new.items ((O.runs scope.entry.orders.now).text (get_or (ways run.entry.lineage.now) run.entry.reached.number []) ++ ended.printed.items) ended.end) }
{
    let EndedPath {
        printed,
        end,
        moves: last,
    } = ended;
    let text = run.texts.read(scope.alloc, run.reached.text, &printed)?;
    if is_shown(scope.orders, shown, &text, &end) {
        return Ok(true);
    }
    if shown.len() >= scope.bounds.shown {
        return Ok(false);
    }
    let mut moves = run.lineage.way(scope.alloc, run.reached.number)?;
    moves.extend_from_slice(&last)?;
    shown.push(Shown { text, end, moves })?;
    Ok(true)
}

/// Adds the texts and the ends of these ways, unless they are there. The answer is whether each of them is there now.
pub(crate) fn show_all<O: Orders>(
    scope: SearchScope<'_, O>,
    run: ReachedRun<'_, O::Move>,
    shown: &mut Vec<Shown<O::Move, O::End>>,
    ended: Vec<EndedPath<O::Move, O::End>>,
) -> Result<bool, AllocError>
    requires run { HoldsRun (O.runs scope.orders.now) run.lineage.now run.texts.now run.reached }
    requires shown { AreShownWell (O.runs scope.orders.now) scope.bounds.shown shown.old.items }
    requires ended { All (IsEndedPath (O.runs scope.orders.now) (get_or (ways run.lineage.now) run.reached.number [])) ended.items }
    ensures shown { AreShownFurther (O.runs scope.entry.orders.now) scope.entry.bounds.shown shown.old.items shown.new.items }
    ensures full { IfOk result (λ there. there ≡ false → length shown.new.items ≡ scope.entry.bounds.shown) }
    ensures there { IfOk result (λ all. IsTrue all → All (λ one. IsShown shown.new.items ((O.runs scope.entry.orders.now).text (get_or (ways run.entry.lineage.now) run.entry.reached.number []) ++ one.printed.items) one.end) ended.items) }
{
    let mut left = ended;
    while let Some(one) = left.pop() {
        let there = show(scope, run, shown, one)?;
        if !there {
            return Ok(false);
        }
    }
    Ok(true)
}
