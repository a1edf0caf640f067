//! Whether texts differ only in the order of lines at one time.
ghost use Rattle.std.specs.Prelude.{◌≡◌, ◌≤◌, ◌++◌, IfOk, IfSome, IsTrue, OnOk};
ghost use Rattle.std.specs.List.{All};
ghost use Rattle.regions.specs.Machine.{most_entries};
ghost use Rattle.wavetexts.specs.AtTimes as arranging;
ghost use Rattle.naming.specs.TextOrders.{DifferInOrder, PrintsAtTimes, order_alone_text};

use design::Design;
use explore::Shown;
use model::end::End;
use model::entry::Entry;
use observers::{Observation, Observing, observe_journal};
use std::alloc::{AllocError, Global};
use wavetexts::at_times;

// How many entries a journal has at most whose lines are compared so.
const MOST_ENTRIES: usize = 4_294_967_295;

// The text of an observation, and what is seen of its last state, with the lines of each time in the order of their bytes.
fn arranged(alloc: Global, observation: Observation) -> Result<Vec<u8>, AllocError>
    ensures { IfOk result (λ lines. lines.items ≡ arranging.at_times 0 (observation.text.items ++ observation.seen.items)) }
{
    let Observation { text, seen } = observation;
    let mut all = text;
    all.extend_from_slice(seen.as_slice())?;
    at_times(alloc, 0, all.as_slice())
}

// What is printed at each time of a journal, in the order of the lines' bytes. None where it isn't lawful, or has too many entries.
fn lines_at_times(
    alloc: Global,
    design: &Design,
    journal: &[Entry],
) -> Result<Option<Vec<u8>>, AllocError>
    ensures { IfOk result (λ found. IfSome found (λ lines. PrintsAtTimes design.now journal.now lines.items)) }
{
    if journal.len() > MOST_ENTRIES {
        return Ok(None);
    }
    let observing = Observing::Registers(Vec::new(alloc));
    match observe_journal(alloc, design, &observing, journal)? {
        Some(observation) => Ok(Some(arranged(alloc, observation)?)),
        None => Ok(None),
    }
}

// Whether a text has this end, and these lines are printed at each time of its journal.
fn is_alike(
    alloc: Global,
    design: &Design,
    one: &Shown<Entry, End>,
    lines: &[u8],
    end: End,
) -> Result<bool, AllocError>
    ensures { IfOk result (λ same. IsTrue same → (one.now.end ≡ end) × PrintsAtTimes design.now one.now.moves.items lines.now) }
{
    if one.end != end {
        return Ok(false);
    }
    match lines_at_times(alloc, design, one.moves.as_slice())? {
        Some(others) => Ok(others.as_slice() == lines),
        None => Ok(false),
    }
}

// Whether all texts have this end, and these lines are printed at each time of their journals.
fn are_alike(
    alloc: Global,
    design: &Design,
    shown: &[Shown<Entry, End>],
    lines: &[u8],
    end: End,
) -> Result<bool, AllocError>
    ensures { IfOk result (λ same. IsTrue same → All (λ s. (s.end ≡ end) × PrintsAtTimes design.now s.moves.items lines.now) shown.now) }
{
    for place in 0..shown.len() {
        if !is_alike(alloc, design, &shown[place], lines, end)? {
            return Ok(false);
        }
    }
    Ok(true)
}

/// Whether there are several texts, and they differ only in the order of lines at one time. Fails where memory is refused.
pub(crate) fn differ_in_order(
    alloc: Global,
    design: &Design,
    shown: &[Shown<Entry, End>],
) -> Result<bool, AllocError>
    ensures { IfOk result (λ order. IsTrue order → DifferInOrder design.now shown.now) }
{
    if shown.len() < 2 {
        return Ok(false);
    }
    let first = &shown[0];
    match lines_at_times(alloc, design, first.moves.as_slice())? {
        Some(lines) => are_alike(alloc, design, shown, lines.as_slice(), first.end),
        None => Ok(false),
    }
}

/// The line that says that texts differ only so, where they do.
pub(crate) fn order_alone_line(alone: bool) -> &'static [u8]
    ensures { result.now ≡ order_alone_text alone }
{
    match alone {
        true =>
            b"the texts differ only in the order of lines at one time (--observe lines-at-times)\n",
        false => b"",
    }
}
