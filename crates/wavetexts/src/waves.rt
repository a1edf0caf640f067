//! Waves: what runs have in common, besides their end, where the order of lines at one time doesn't count.

ghost use Rattle.std.specs.Prelude.{◌≡◌, IfOk};
ghost use Rattle.wavetexts.specs.Waves.{AreWavesOf, IsWaveOfText};

use explore::Shown;
use looseruns::observed_end::ObservedEnd;
use model::end::End;
use model::entry::Entry;
use std::alloc::{AllocError, Global};

// The wave of an observed text, in which the lines of each time are in order, and its end, with its journal.
fn wave_of(shown: Shown<Entry, ObservedEnd>) -> Result<Shown<Entry, End>, AllocError>
    ensures { IfOk result (IsWaveOfText shown) }
{
    let Shown { text, end, moves } = shown;
    let ObservedEnd { end, seen } = end;
    let mut whole = text;
    whole.extend_from_slice(seen.as_slice())?;
    Ok(Shown {
        text: whole,
        end,
        moves,
    })
}

/// The waves of observed texts, in which the lines of each time are in order, one by one, each with its end and its journal. Fails where memory is refused.
#[tactic(auto, using(crate::proofs::Told::waves_more))]
pub fn waves_of(
    alloc: Global,
    shown: Vec<Shown<Entry, ObservedEnd>>,
) -> Result<Vec<Shown<Entry, End>>, AllocError>
    ensures { IfOk result (λ waves. AreWavesOf shown.items waves.items) }
{
    let mut waves = Vec::new(alloc);
    for one in shown {
        waves.push(wave_of(one)?)?;
    }
    Ok(waves)
}
