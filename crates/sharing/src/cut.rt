//! Bytes cut into chunks, at places that the bytes themselves decide.
ghost use Rattle.std.specs.Prelude.{◌≡◌, ◌+◌, ◌*◌, ◌<◌, ◌≤◌, false, true, length, IfOk, OnOk};
ghost use Rattle.sharing.specs.Parts.{chunks, joined_chunks, AreChunks, AreThere, Extends};

use crate::chunks::{Chunks, Unknown};
use std::alloc::AllocError;

// The least length of a chunk that isn't the last one.
const LEAST: usize = 32;

// The greatest length of a chunk.
const MOST: usize = 128;

// Whether a chunk may end behind these eight bytes: one place of 32 is such.
fn is_end(window: u64) -> bool {
    window.wrapping_mul(0x9e37_79b9_7f4a_7c15) >> 59 == 1
}

/// How long the first chunk of bytes is. A chunk ends where the bytes before its end say so, so that the same bytes are cut in the same
/// way behind whatever stands before them, but for their first chunks.
fn first_length(bytes: &[u8]) -> usize
    ensures within { result ≤ length bytes.now }
    ensures least { result < length bytes.now → 32 ≤ result }
{
    let most = bytes.len().min(MOST);
    let mut window = 0_u64;
    for at in LEAST..most {
        window = window << 8 | u64::from(bytes[at]);
        if is_end(window) {
            return at + 1;
        }
    }
    most
}

/// Fills `numbers` with the numbers of the chunks of bytes. Answers whether each of them is there: it is, unless it wasn't and isn't to be
/// added.
pub(crate) fn cut(
    held: &mut Chunks,
    numbers: &mut Vec<u32>,
    bytes: &[u8],
    unknown: Unknown,
) -> Result<bool, AllocError>
    requires whole { AreChunks held.old }
    ensures whole { OnOk result (AreChunks held.new) }
    ensures grows { OnOk result (Extends (chunks held.old) (chunks held.new)) }
    ensures there { IfOk result (λ all. all ≡ true → AreThere (chunks held.new) numbers.new.items) }
    ensures joined { IfOk result (λ all. all ≡ true → joined_chunks (chunks held.new) numbers.new.items ≡ bytes.now) }
    ensures same { OnOk result (unknown ≡ Unknown.Missed → chunks held.new ≡ chunks held.old) }
    ensures missed { IfOk result (λ all. all ≡ false → unknown ≡ Unknown.Missed) }
    ensures some { IfOk result (λ all. all ≡ true → 0 < length numbers.new.items) }
    ensures few { IfOk result (λ all. all ≡ true → 32 * length numbers.new.items ≤ length bytes.now + 32) }
{
    numbers.clear();
    let mut rest = bytes;
    'chunks: loop {
        let (chunk, others) = rest.split_at(first_length(rest));
        match held.number(chunk, unknown)? {
            Some(number) => numbers.push(number)?,
            None => return Ok(false),
        }
        if others.is_empty() {
            return Ok(true);
        }
        rest = others;
    }
}
