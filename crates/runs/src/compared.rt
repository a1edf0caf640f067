//! How two runs differ.
ghost use Rattle.std.specs.Prelude.{◌≡◌, ◌↔◌, false, IsTrue};
ghost use Rattle.runs.specs.Compared.{AreLike, IsWhole, HavePartedTexts, AreDifferentRuns, WantsNoMemory};

use crate::run::RunRecord;
use model::end::{End, Why};

/// Whether two runs have the same lines and the same end.
pub fn is_same(one: &RunRecord, other: &RunRecord) -> bool
    ensures { IsTrue result ↔ AreLike one.now other.now }
{
    if one.end != other.end {
        return false;
    }
    one.lines.as_str() == other.lines.as_str()
}

/// Whether a run came to its end: neither the most entries nor want of memory cut it off.
pub fn is_whole(run: &RunRecord) -> bool
    ensures { IsTrue result ↔ IsWhole run.now }
{
    match run.end {
        End::Stopped(Why::Entries) => false,
        End::Stopped(Why::Memory) => false,
        _ => true,
    }
}

/// Whether a run ended for want of memory.
pub fn wants_memory(run: &RunRecord) -> bool
    ensures { result ≡ false → WantsNoMemory run.now }
{
    match run.end {
        End::Stopped(Why::Memory) => true,
        _ => false,
    }
}

// Whether two texts part: at some place each has a byte, and the two differ.
fn have_parted(one: &[u8], other: &[u8]) -> bool
    ensures { IsTrue result ↔ HavePartedTexts one.now other.now }
{
    let shorter = one.len().min(other.len());
    for place in 0..shorter {
        if one[place] != other[place] {
            return true;
        }
    }
    false
}

/// Whether two runs differ in what stands in both. Two that came to their ends differ in their lines or their ends; of a run
/// that was cut off only what both printed is compared.
pub fn are_apart(one: &RunRecord, other: &RunRecord) -> bool
    ensures { IsTrue result ↔ AreDifferentRuns one.now other.now }
{
    if is_whole(one) && is_whole(other) {
        return !is_same(one, other);
    }
    have_parted(one.lines.as_bytes(), other.lines.as_bytes())
}
