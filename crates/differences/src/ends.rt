//! How the ends of two runs compare.

ghost use Rattle.std.specs.Prelude.{◌≡◌, ◌↔◌, IsTrue};
ghost use Rattle.differences.specs.EndsOfRuns.{AreOfOneKind, HowEndsCompare, are_alike};

use crate::summary::RunSummary;

/// How the ends of two runs compare. An end is of one of three kinds: the run is finished by `$finish`, it is quiet, or neither.
#[derive(Clone, Copy)]
pub(crate) enum EndsCompared {
    /// They are of one kind, and at one time.
    Alike,
    /// They are of one kind, but at two times.
    AtOtherTimes,
    /// They are of two kinds.
    Different,
}

impl EndsCompared {
    /// Whether they are of one kind, and at one time.
    pub(crate) fn are_alike(self) -> bool
        ensures { result ≡ are_alike self }
    {
        match self {
            EndsCompared::Alike => true,
            EndsCompared::AtOtherTimes | EndsCompared::Different => false,
        }
    }
}

// Whether both or neither.
fn are_same(one: bool, other: bool) -> bool
    ensures { IsTrue result ↔ (one ≡ other) }
{
    one == other
}

// Whether the ends of two runs are of one kind.
fn are_of_one_kind(one: &RunSummary, other: &RunSummary) -> bool
    ensures { IsTrue result ↔ AreOfOneKind one.now.finished one.now.quiet other.now.finished other.now.quiet }
{
    if !are_same(one.finished, other.finished) {
        return false;
    }
    if one.finished {
        return true;
    }
    are_same(one.quiet, other.quiet)
}

/// How the ends of two runs compare.
pub(crate) fn compare_ends(one: &RunSummary, other: &RunSummary) -> EndsCompared
    ensures { HowEndsCompare one.now.time one.now.finished one.now.quiet other.now.time other.now.finished other.now.quiet result }
{
    if !are_of_one_kind(one, other) {
        return EndsCompared::Different;
    }
    if one.time != other.time {
        return EndsCompared::AtOtherTimes;
    }
    EndsCompared::Alike
}
