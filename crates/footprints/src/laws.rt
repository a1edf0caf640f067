// Laws of the definitions, so that the check asks for their proofs.

ghost use Rattle.footprints.specs.FootprintLaws.{ApartIsSymmetric, EndedIsKnown, FootprintTells, StepsApartCommute, FrameAtTheEnd, WaitingStays, WaitingIsGiven, WokenWaits, FootprintIsAlike};
ghost use Rattle.footprints.specs.Moves.{LooseStepsAreMoves, LooseStepsHaveSwaps, WaitingMoves, MovesAreRuns, RunsAreMoves};

/// Two steps that are apart may be taken in either order, which of the two is named first; and a step that finishes is there too
/// after one that is apart from it. Of steps from one state, the triggers that end need no look.
pub fn steps_apart_commute()
    ensures symmetric { ApartIsSymmetric }
    ensures commute { StepsApartCommute }
    ensures frame { FrameAtTheEnd }
    ensures ended { EndedIsKnown }
{}

/// What is active stays so until it is taken, and nothing becomes active in a step but what its footprint says to be woken.
pub fn steps_wake_by_footprint()
    ensures stays { WaitingStays }
    ensures given { WaitingIsGiven }
    ensures woken { WokenWaits }
{}

/// Footprints are those of loose transitions, in states that are alike but for the order of updates of different classes; and
/// they tell what comes of a step but for its state.
pub fn footprints_are_alike()
    ensures alike { FootprintIsAlike }
    ensures tells { FootprintTells }
{}

/// The loose steps of actors are a system of moves, in which each actor that waits moves, but for turns that are too long; and its
/// runs are the loose runs that take events. A step that is taken after one from which it is apart may be taken first.
pub fn loose_steps_are_moves()
    ensures moves { LooseStepsAreMoves }
    ensures swaps { LooseStepsHaveSwaps }
    ensures waiting { WaitingMoves }
    ensures runs { MovesAreRuns }
    ensures back { RunsAreMoves }
{}
